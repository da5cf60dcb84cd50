//! `SecretVLBytes` and `SecretVLByteVec`: the calls that read and write nothing.
use crate::tests::{hash_of, holds, same};
use std::alloc::Global;
use std::hash::Hash;
use std::process::Abort;
use std::test::Fail;
use tls_codec::{SecretVLByteVec, SecretVLBytes, Serialize, Zeroize};

// Each call of a secret that reads and writes nothing.
macro_rules! secret_calls {
    ($rt:ident, $Secret:ident, $shown:literal, $shown_empty:literal) => {
        let alloc = $rt.alloc();
        let mut secret = $Secret::new(Vec::new(alloc));
        same(&$rt, secret.pop(), None);
        let text = format!(in alloc; "{secret:?}")?;
        same(&$rt, text.as_str(), $shown_empty);
        secret.push(0xff)?;
        let text = format!(in alloc; "{secret:?}")?;
        same(&$rt, text.as_str(), $shown);
        let copy = secret.clone()?;
        same(&$rt, secret.pop(), Some(0xff));
        same(&$rt, copy.as_slice(), [0xff].as_slice());
    };
}

#[test]
fn calls_of_secret_vl_bytes(rt: HostRuntime) -> Result<(), Fail> {
    secret_calls!(
        rt,
        SecretVLBytes,
        "SecretVLBytes { 0xff }",
        "SecretVLBytes { b\"\" }"
    );
    Ok(())
}

#[test]
fn calls_of_secret_vl_byte_vec(rt: HostRuntime) -> Result<(), Fail> {
    secret_calls!(
        rt,
        SecretVLByteVec,
        "SecretVLByteVec { 0xff }",
        "SecretVLByteVec { b\"\" }"
    );
    Ok(())
}

// Secrets are compared by their bytes. The first two differ, the last is the first.
fn expect_all_compared<S: Ord + Hash + Zeroize + Serialize>(
    rt: &impl Abort,
    alloc: Global,
    low: &S,
    high: &S,
    mut equal: S,
) -> Result<(), Fail> {
    holds(rt, low < high);
    holds(rt, low != high);
    holds(rt, *low == equal);
    same(rt, hash_of(low), hash_of(&equal));
    equal.zeroize();
    let empty = equal.tls_serialize_detached(alloc)?;
    same(rt, empty.as_slice(), [0].as_slice());
    Ok(())
}

#[test]
fn secret_vl_bytes_are_compared(rt: HostRuntime) -> Result<(), Fail> {
    let alloc = rt.alloc();
    let low = SecretVLBytes::from_slice(alloc, &[0x00, 0xff])?;
    let high = SecretVLBytes::from_array(alloc, &[0x01])?;
    let equal = SecretVLBytes::from([0x00u8, 0xff].to_vec(alloc)?);
    expect_all_compared(&rt, alloc, &low, &high, equal)
}

#[test]
fn secret_vl_byte_vecs_are_compared(rt: HostRuntime) -> Result<(), Fail> {
    let alloc = rt.alloc();
    let low = SecretVLByteVec::from_slice(alloc, &[0x00, 0xff])?;
    let high = SecretVLByteVec::from_array(alloc, &[0x01])?;
    let equal = SecretVLByteVec::from([0x00u8, 0xff].to_vec(alloc)?);
    expect_all_compared(&rt, alloc, &low, &high, equal)
}
