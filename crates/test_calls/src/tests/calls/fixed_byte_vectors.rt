//! The calls that write and read nothing.
use crate::tests::{hash_of, holds, same};
use std::alloc::Global;
use std::process::Abort;
use std::test::Fail;
use tls_codec::{TlsByteVec, TlsByteVecU8, U24};

// Calls that change the bytes.
fn expect_all_changed<F>(rt: &impl Abort, alloc: Global) -> Result<(), Fail> {
    let mut bytes = TlsByteVec::<F>::default(alloc);
    same(rt, bytes.pop(), None);
    bytes.push(1)?;
    bytes.push(2)?;
    same(rt, bytes.pop(), Some(2));
    same(rt, bytes.as_slice(), [1].as_slice());

    let mut bytes = TlsByteVec::<F>::from_slice(alloc, &[5, 6, 7, 8])?;
    same(rt, bytes.remove(1), 6);
    bytes[2] = 9;
    same(rt, bytes.as_slice(), [5, 7, 9].as_slice());
    same(rt, bytes[2], 9);

    let mut bytes = TlsByteVec::<F>::try_from_iter(alloc, 0..6u8)?;
    bytes.retain(|byte| *byte != 0 && *byte != 3);
    same(rt, bytes.as_slice(), [1, 2, 4, 5].as_slice());
    Ok(())
}

// Calls that only look.
fn expect_all_seen<F>(rt: &impl Abort, alloc: Global) -> Result<(), Fail> {
    let bytes = TlsByteVec::<F>::from_slice(alloc, &[5, 6])?;
    same(rt, bytes.len(), 2);
    holds(rt, !bytes.is_empty());
    holds(rt, TlsByteVec::<F>::default(alloc).is_empty());
    same(rt, bytes.get(1), Some(&6));
    same(rt, bytes.get(2), None);
    let mut iter = bytes.iter();
    same(rt, iter.next(), Some(&5));
    same(rt, iter.next_back(), Some(&6));
    same(rt, iter.next(), None);
    let text = format!(in alloc; "{bytes:?}")?;
    same(rt, text.as_str(), "TlsByteVec { vec: [5, 6] }");

    let copy = bytes.clone()?;
    holds(rt, copy == bytes);
    same(rt, hash_of(&copy), hash_of(&bytes));
    holds(rt, bytes != TlsByteVec::<F>::from_slice(alloc, &[5, 7])?);
    let content: Vec<u8> = copy.into();
    same(rt, content.as_slice(), [5, 6].as_slice());
    holds(rt, TlsByteVec::<F>::from(content) == bytes);
    same(rt, bytes.into_vec().as_slice(), [5, 6].as_slice());
    Ok(())
}

#[test]
fn calls_on_each_width(rt: HostRuntime) -> Result<(), Fail> {
    let alloc = rt.alloc();
    expect_all_changed::<u8>(&rt, alloc)?;
    expect_all_seen::<u8>(&rt, alloc)?;
    expect_all_changed::<u16>(&rt, alloc)?;
    expect_all_seen::<u16>(&rt, alloc)?;
    expect_all_changed::<U24>(&rt, alloc)?;
    expect_all_seen::<U24>(&rt, alloc)?;
    expect_all_changed::<u32>(&rt, alloc)?;
    expect_all_seen::<u32>(&rt, alloc)?;
    Ok(())
}

// It is called once for each byte, from the first on.
#[test]
fn each_byte_is_asked_for_once(rt: HostRuntime) -> Result<(), Fail> {
    let alloc = rt.alloc();
    let mut bytes = TlsByteVecU8::from_slice(alloc, &[1, 2, 3])?;
    let mut asked = 0u32;
    bytes.retain(|byte| {
        asked = asked.wrapping_mul(10).wrapping_add(*byte as u32);
        *byte == 2
    });
    same(&rt, asked, 123);
    same(&rt, bytes.as_slice(), [2].as_slice());
    Ok(())
}
