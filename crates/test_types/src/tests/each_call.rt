//! What each call makes of a value or of bytes.
use super::outside::{expect_read_outside, expect_rejected_outside};
use crate::tests::{holds, same};
use std::alloc::{AllocError, Global};
use std::process::Abort;
use std::test::Fail;
use tls_codec::{
    Deserialize, DeserializeBytes, Error, Serialize, SerializeBytes, Source, read_bytes_bounded,
};
use tls_codec_vectors::Drip;

// `count` bytes of one value.
pub(super) fn filled(alloc: Global, count: usize, byte: u8) -> Result<Vec<u8>, AllocError> {
    vec![in alloc; byte; count]
}

// The value is announced and written as these bytes, also after what a vector has.
pub(super) fn expect_written<T: Serialize>(
    rt: &impl Abort,
    alloc: Global,
    value: &T,
    bytes: &[u8],
) -> Result<(), Fail> {
    same(rt, value.tls_serialized_len(), bytes.len());
    let detached = value.tls_serialize_detached(alloc)?;
    same(rt, detached.as_slice(), bytes);
    let mut received = Vec::new(alloc);
    let count = value.tls_serialize(&mut received)?;
    same(rt, count, bytes.len());
    same(rt, received.as_slice(), bytes);
    for front in [[].as_slice(), &[0xee]] {
        let mut out = front.to_vec(alloc)?;
        let count = value.tls_serialize_into(&mut out)?;
        same(rt, count, bytes.len());
        let mut whole = front.to_vec(alloc)?;
        whole.extend_from_slice(bytes)?;
        same(rt, out.as_slice(), whole.as_slice());
    }
    Ok(())
}

// The value is written as these bytes, also to a vector of its own.
pub(super) fn expect_written_alone<T: Serialize + SerializeBytes>(
    rt: &impl Abort,
    alloc: Global,
    value: &T,
    bytes: &[u8],
) -> Result<(), Fail> {
    expect_written(rt, alloc, value, bytes)?;
    let alone = value.tls_serialize_bytes(alloc)?;
    same(rt, alone.as_slice(), bytes);
    Ok(())
}

// Each encoder rejects the value as too long, and `announced` is its announced length. A sink
// receives these bytes. A vector that is appended to is unchanged.
pub(super) fn expect_too_long<T: Serialize>(
    rt: &impl Abort,
    alloc: Global,
    value: &T,
    announced: usize,
    sent: &[u8],
) -> Result<(), Fail> {
    same(rt, value.tls_serialized_len(), announced);
    let too_long = Some(Error::InvalidVectorLength);
    let mut received = Vec::new(alloc);
    same(rt, value.tls_serialize(&mut received).err(), too_long);
    same(rt, received.as_slice(), sent);
    let mut out = [0xaa, 0xbb].to_vec(alloc)?;
    same(rt, value.tls_serialize_into(&mut out).err(), too_long);
    same(rt, out.as_slice(), [0xaa, 0xbb].as_slice());
    same(rt, value.tls_serialize_detached(alloc).err(), too_long);
    Ok(())
}

// The same, also to a vector of its own.
pub(super) fn expect_too_long_alone<T: Serialize + SerializeBytes>(
    rt: &impl Abort,
    alloc: Global,
    value: &T,
    announced: usize,
    sent: &[u8],
) -> Result<(), Fail> {
    expect_too_long(rt, alloc, value, announced, sent)?;
    let alone = value.tls_serialize_bytes(alloc).err();
    same(rt, alone, Some(Error::InvalidVectorLength));
    Ok(())
}

// Just these bytes are still to come.
pub(super) fn expect_left<R: Source>(
    rt: &impl Abort,
    alloc: Global,
    source: &mut R,
    rest: &[u8],
) -> Result<(), Fail> {
    let left = read_bytes_bounded(alloc, source, rest.len())?;
    same(rt, left.as_slice(), rest);
    same(rt, source.pull(&mut [0]), Ok(0));
    Ok(())
}

// Both paths read the value of a prefix of the bytes, which are in memory, and leave the rest.
pub(super) fn expect_read_at_once<T: Deserialize + DeserializeBytes + PartialEq>(
    rt: &impl Abort,
    alloc: Global,
    bytes: &[u8],
    value: &T,
    rest: &[u8],
) -> Result<(), Fail> {
    let (found, left) = T::tls_deserialize_bytes(alloc, bytes)?;
    holds(rt, found == *value);
    same(rt, left, rest);
    let mut source = bytes;
    let found = T::tls_deserialize(alloc, &mut source)?;
    holds(rt, found == *value);
    same(rt, source, rest);
    Ok(())
}

// The same, also if a source gives one byte a pull, or doesn't report which bytes are to come.
pub(super) fn expect_read<T: Deserialize + DeserializeBytes + PartialEq>(
    rt: &impl Abort,
    alloc: Global,
    bytes: &[u8],
    value: &T,
    rest: &[u8],
) -> Result<(), Fail> {
    expect_read_at_once(rt, alloc, bytes, value, rest)?;
    let mut drip = Drip::new(bytes);
    let found = T::tls_deserialize(alloc, &mut drip)?;
    holds(rt, found == *value);
    expect_left(rt, alloc, &mut drip, rest)?;
    expect_read_outside(rt, alloc, bytes, value, rest)
}

// Each decoder reads the value from these bytes, and leaves none. The exact forms reject a byte
// after them.
pub(super) fn expect_read_whole<T: Deserialize + DeserializeBytes + PartialEq>(
    rt: &impl Abort,
    alloc: Global,
    bytes: &[u8],
    value: &T,
) -> Result<(), Fail> {
    expect_read(rt, alloc, bytes, value, &[])?;
    holds(rt, T::tls_deserialize_exact_bytes(alloc, bytes)? == *value);
    holds(rt, T::tls_deserialize_exact(alloc, bytes)? == *value);
    let mut longer = bytes.to_vec(alloc)?;
    longer.push(0xee)?;
    expect_read(rt, alloc, &longer, value, &[0xee])?;
    let trailing = Some(Error::TrailingData);
    let rejected = T::tls_deserialize_exact_bytes(alloc, &longer).err();
    same(rt, rejected, trailing);
    let rejected = T::tls_deserialize_exact(alloc, &longer).err();
    same(rt, rejected, trailing);
    Ok(())
}

// The round trip: the value is written as these bytes, and each decoder reads it from them.
pub(super) fn expect_encoded_as<T: Serialize + Deserialize + DeserializeBytes + PartialEq>(
    rt: &impl Abort,
    alloc: Global,
    value: &T,
    bytes: &[u8],
) -> Result<(), Fail> {
    expect_written(rt, alloc, value, bytes)?;
    expect_read_whole(rt, alloc, bytes, value)
}

// Each decoder rejects the bytes with this error.
pub(super) fn expect_rejected<T: Deserialize + DeserializeBytes>(
    rt: &impl Abort,
    alloc: Global,
    bytes: &[u8],
    error: Error,
) {
    let rejected = T::tls_deserialize_bytes(alloc, bytes).err();
    same(rt, rejected, Some(error));
    let rejected = T::tls_deserialize_exact_bytes(alloc, bytes).err();
    same(rt, rejected, Some(error));
    let mut source = bytes;
    let rejected = T::tls_deserialize(alloc, &mut source).err();
    same(rt, rejected, Some(error));
    let rejected = T::tls_deserialize_exact(alloc, bytes).err();
    same(rt, rejected, Some(error));
    let rejected = T::tls_deserialize(alloc, &mut Drip::new(bytes)).err();
    same(rt, rejected, Some(error));
    expect_rejected_outside::<T>(rt, alloc, bytes, error);
}
