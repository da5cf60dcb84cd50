//! Each type from a source, and into a sink, that fails at each of its calls in turn.
use crate::tests::{same, same_at};
use std::alloc::Global;
use std::process::Abort;
use std::test::Fail;
use tls_codec::{
    Deserialize, DeserializeBytes, Error, Fault, SecretTlsVecU8, SecretTlsVecU24, SecretVLByteVec,
    SecretVLBytes, Serialize, TlsByteSliceU24, TlsByteVecU16, TlsByteVecU32, TlsSliceU8, TlsVarInt,
    TlsVecU16, TlsVecU32, U24, VLByteSlice, VLByteVec, VLBytes,
};
use tls_codec_vectors::{Drip, Failing, Trickle};

// Which fault a device returns, and what is said of it by a decoder and by an encoder.
const FAULTS: [(Fault, Error, Error); 2] = [
    (
        Fault::Failed,
        Error::DecodingError("read failed"),
        Error::EncodingError("write failed"),
    ),
    (Fault::NoMemory, Error::OutOfMemory, Error::OutOfMemory),
];

// A byte comes by each call before the one that fails.
fn expect_not_read<T: Deserialize>(rt: &impl Abort, alloc: Global, bytes: &[u8]) {
    for (fault, error, _) in FAULTS {
        for at in 1..=bytes.len() {
            let mut source = Failing::new(Drip::new(bytes), at as u64, 1, fault);
            let found = T::tls_deserialize(alloc, &mut source).err();
            same_at(rt, bytes, found, Some(error));
        }
    }
}

// A byte goes by each call before the one that fails.
fn expect_not_written<T: Serialize>(
    rt: &impl Abort,
    alloc: Global,
    value: &T,
    bytes: &[u8],
) -> Result<(), Fail> {
    for (fault, _, error) in FAULTS {
        for sent in 0..bytes.len() {
            let trickle = Trickle::new(Vec::new(alloc));
            let mut sink = Failing::new(trickle, sent as u64 + 1, 1, fault);
            same_at(rt, sent, value.tls_serialize(&mut sink), Err(error));
            let received = sink.into_inner().into_inner();
            same(rt, received.as_slice(), &bytes[..sent]);
        }
    }
    Ok(())
}

// The value of these bytes is neither read nor written.
fn expect_error_at_each_call<T: Deserialize + DeserializeBytes + Serialize>(
    rt: &impl Abort,
    alloc: Global,
    bytes: &[u8],
) -> Result<(), Fail> {
    expect_not_read::<T>(rt, alloc, bytes);
    let value = T::tls_deserialize_exact_bytes(alloc, bytes)?;
    expect_not_written(rt, alloc, &value, bytes)
}

#[test]
fn plain_types(rt: HostRuntime) -> Result<(), Fail> {
    let alloc = rt.alloc();
    expect_error_at_each_call::<u8>(&rt, alloc, &[1])?;
    expect_error_at_each_call::<u16>(&rt, alloc, &[1, 2])?;
    expect_error_at_each_call::<U24>(&rt, alloc, &[1, 2, 3])?;
    expect_error_at_each_call::<u32>(&rt, alloc, &[1, 2, 3, 4])?;
    expect_error_at_each_call::<u64>(&rt, alloc, &[1, 2, 3, 4, 5, 6, 7, 8])?;
    expect_error_at_each_call::<TlsVarInt>(&rt, alloc, &[0x80, 0, 0x40, 0])?;
    expect_error_at_each_call::<[u8; 3]>(&rt, alloc, &[1, 2, 3])?;
    expect_error_at_each_call::<Option<u16>>(&rt, alloc, &[1, 0, 7])?;
    expect_error_at_each_call::<(u8, u16)>(&rt, alloc, &[1, 0, 7])?;
    expect_error_at_each_call::<(u8, u16, u8)>(&rt, alloc, &[1, 0, 7, 8])?;
    expect_error_at_each_call::<Box<u16>>(&rt, alloc, &[0, 7])
}

#[test]
fn lists_and_bytes(rt: HostRuntime) -> Result<(), Fail> {
    let alloc = rt.alloc();
    expect_error_at_each_call::<Vec<u16>>(&rt, alloc, &[4, 0, 1, 0, 2])?;
    expect_error_at_each_call::<Vec<Option<u8>>>(&rt, alloc, &[3, 1, 7, 0])?;
    expect_error_at_each_call::<String>(&rt, alloc, &[2, 0xc3, 0xa9])?;
    expect_error_at_each_call::<VLBytes>(&rt, alloc, &[2, 7, 8])?;
    expect_error_at_each_call::<VLByteVec>(&rt, alloc, &[2, 7, 8])?;
    expect_error_at_each_call::<SecretVLBytes>(&rt, alloc, &[2, 7, 8])?;
    expect_error_at_each_call::<SecretVLByteVec>(&rt, alloc, &[2, 7, 8])?;
    expect_error_at_each_call::<TlsVecU16<u16>>(&rt, alloc, &[0, 2, 0, 7])?;
    expect_error_at_each_call::<TlsVecU32<VLBytes>>(&rt, alloc, &[0, 0, 0, 2, 1, 7])?;
    expect_error_at_each_call::<SecretTlsVecU8<u16>>(&rt, alloc, &[2, 0, 7])?;
    expect_error_at_each_call::<SecretTlsVecU24<u8>>(&rt, alloc, &[0, 0, 1, 7])?;
    expect_error_at_each_call::<TlsByteVecU16>(&rt, alloc, &[0, 1, 7])?;
    expect_error_at_each_call::<TlsByteVecU32>(&rt, alloc, &[0, 0, 0, 1, 7])
}

#[test]
fn what_is_borrowed(rt: HostRuntime) -> Result<(), Fail> {
    let alloc = rt.alloc();
    expect_not_written(&rt, alloc, &&7u16, &[0, 7])?;
    expect_not_written(&rt, alloc, &&Some(7u8), &[1, 7])?;
    expect_not_written(&rt, alloc, &[1u16, 2].as_slice(), &[4, 0, 1, 0, 2])?;
    expect_not_written(&rt, alloc, &"é", &[2, 0xc3, 0xa9])?;
    expect_not_written(&rt, alloc, &VLByteSlice(&[7, 8]), &[2, 7, 8])?;
    expect_not_written(&rt, alloc, &TlsSliceU8(&[7u8]), &[1, 7])?;
    expect_not_written(&rt, alloc, &TlsByteSliceU24(&[7]), &[0, 0, 1, 7])
}
