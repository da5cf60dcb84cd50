//! The calls that read and write no bytes.
use crate::tests::{hash_of, holds, same};
use std::test::Fail;
use tls_codec::{SecretTlsVecU8, SecretTlsVecU24, SecretTlsVecU32};

#[test]
fn elements_come_and_leave(rt: HostRuntime) -> Result<(), Fail> {
    let alloc = rt.alloc();
    let mut list = SecretTlsVecU24::default(alloc);
    holds(&rt, list.is_empty());
    for element in [5u16, 6, 7, 8] {
        list.push(element)?;
    }
    assert_eq!(rt; list.len(), 4);
    same(&rt, list.remove(1), 6);
    same(&rt, (list.get(1), list.get(3)), (Some(&7), None));
    list[0] = 9;
    same(&rt, (list[0], list[1]), (9, 7));
    let mut asked = 0u8;
    list.retain(|element| {
        asked = asked.saturating_add(1);
        *element > 7
    });
    same(&rt, asked, 3);
    same(&rt, list.as_slice(), [9, 8].as_slice());
    let mut sum = 0u16;
    for element in list.iter() {
        sum = sum.wrapping_add(*element);
    }
    same(&rt, sum, 17);
    same(
        &rt,
        (list.pop(), list.pop(), list.pop()),
        (Some(8), Some(9), None),
    );
    Ok(())
}

#[test]
fn lists_become_vectors_and_back(rt: HostRuntime) -> Result<(), Fail> {
    let alloc = rt.alloc();
    let list = SecretTlsVecU8::new([1u16, 2].to_vec(alloc)?);
    let copy = list.clone()?;
    same(&rt, list.into_vec().as_slice(), [1, 2].as_slice());
    let elements: Vec<u16> = copy.into();
    let back = SecretTlsVecU8::from(elements);
    let given = SecretTlsVecU8::try_from_iter(alloc, [1u16, 2])?;
    holds(&rt, back == given);
    Ok(())
}

#[test]
fn lists_are_compared_by_their_elements(rt: HostRuntime) -> Result<(), Fail> {
    let alloc = rt.alloc();
    let list = SecretTlsVecU32::from_slice(alloc, &[1u16, 2])?;
    let other = SecretTlsVecU32::from_slice(alloc, &[1u16, 3])?;
    holds(&rt, list != other);
    holds(&rt, list == list.clone()?);
    same(&rt, hash_of(&list), hash_of(&[1u16, 2].to_vec(alloc)?));
    let text = format!(in alloc; "{list:?}")?;
    same(&rt, text.as_str(), "SecretTlsVec { vec: [1, 2] }");
    Ok(())
}
