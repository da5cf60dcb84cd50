//! The calls that read and write no bytes.
use crate::tests::{hash_of, holds, same};
use std::test::Fail;
use tls_codec::{TlsVecU8, TlsVecU16, TlsVecU24, TlsVecU32};

#[test]
fn elements_leave(rt: HostRuntime) -> Result<(), Fail> {
    let mut list = TlsVecU16::from_slice(rt.alloc(), &[5u16, 6, 7])?;
    same(&rt, list.remove(1), 6);
    same(&rt, list.as_slice(), [5, 7].as_slice());
    same(&rt, list.get(1), Some(&7));
    same(&rt, list.get(2), None);
    let mut asked = 0u8;
    list.retain(|element| {
        asked = asked.saturating_add(1);
        *element > 5
    });
    same(&rt, asked, 2);
    same(&rt, list.as_slice(), [7].as_slice());
    same(&rt, list.pop(), Some(7));
    same(&rt, list.pop(), None);
    Ok(())
}

#[test]
fn those_after_an_element_that_leaves_are_asked_for(rt: HostRuntime) -> Result<(), Fail> {
    let mut list = TlsVecU8::from_slice(rt.alloc(), &[9u8, 1, 8, 2, 7])?;
    list.retain(|element| *element > 5);
    same(&rt, list.as_slice(), [9, 8, 7].as_slice());
    Ok(())
}

#[test]
fn elements_come(rt: HostRuntime) -> Result<(), Fail> {
    let alloc = rt.alloc();
    let mut list = TlsVecU24::default(alloc);
    holds(&rt, list.is_empty());
    list.push(5u16)?;
    list.push(6)?;
    assert_eq!(rt; list.len(), 2);
    list[0] = 4;
    same(&rt, (list[0], list[1]), (4, 6));
    let mut sum = 0u16;
    for element in list.iter() {
        sum = sum.wrapping_add(*element);
    }
    same(&rt, sum, 10);
    let given = TlsVecU24::try_from_iter(alloc, [4u16, 6])?;
    holds(&rt, given == list);
    let none = TlsVecU24::<u16>::from_slice(alloc, &[])?;
    holds(&rt, none.clone()?.is_empty());
    Ok(())
}

#[test]
fn lists_become_vectors_and_back(rt: HostRuntime) -> Result<(), Fail> {
    let alloc = rt.alloc();
    let list = TlsVecU32::new([1u16, 2].to_vec(alloc)?);
    let copy = list.clone()?;
    let elements: Vec<u16> = list.into();
    let back = TlsVecU32::from(elements);
    holds(&rt, back == copy);
    same(&rt, back.into_vec().as_slice(), [1, 2].as_slice());
    Ok(())
}

#[test]
fn lists_are_compared_by_their_elements(rt: HostRuntime) -> Result<(), Fail> {
    let alloc = rt.alloc();
    let list = TlsVecU24::from_slice(alloc, &[1u16, 2])?;
    let other = TlsVecU24::from_slice(alloc, &[1u16, 3])?;
    holds(&rt, list != other);
    holds(&rt, list == list.clone()?);
    same(&rt, hash_of(&list), hash_of(&[1u16, 2].to_vec(alloc)?));
    let text = format!(in alloc; "{list:?}")?;
    same(&rt, text.as_str(), "TlsVec { vec: [1, 2] }");
    Ok(())
}
