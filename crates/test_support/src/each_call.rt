//! What each call makes of a value or of bytes.
use crate::rows::{done_at, same_at};
use std::alloc::Global;
use std::fmt::Debug;
use std::test::Fail;
use tls_codec::{Deserialize, DeserializeBytes, Error, Serialize, deserialize_to_end};
use tls_codec_validate::Validate;
use tls_codec_vectors::Drip;

const NOT_THERE: Error = Error::DecodingError("declared content is not there");

/// Each decoder reads the same value from the bytes, to the last one, and each encoder writes it as them.
pub fn expect_round_trip<T>(alloc: Global, row: &str, bytes: &[u8]) -> Result<(), Fail>
where
    T: Serialize + Deserialize + Validate + Eq + Debug + Clone,
{
    let value = done_at(row, T::tls_deserialize_exact_bytes(alloc, bytes))?;
    let read = done_at(row, T::tls_deserialize_exact(alloc, bytes))?;
    same_at(row, &read, &value)?;
    same_at(row, T::tls_validate(bytes), Ok(()))?;
    let dripped = deserialize_to_end::<T, _>(alloc, &mut Drip::new(bytes));
    same_at(row, &done_at(row, dripped)?, &value)?;
    expect_written_and_cloned(alloc, row, &value, bytes)
}

/// Each encoder writes the value as these bytes, and its clone equals it.
pub fn expect_written_and_cloned<T: Serialize + Eq + Debug + Clone>(
    alloc: Global,
    row: &str,
    value: &T,
    bytes: &[u8],
) -> Result<(), Fail> {
    expect_written(alloc, row, value, bytes)?;
    same_at(row, &value.clone()?, value)?;
    Ok(())
}

/// Each encoder writes the value as these bytes.
pub fn expect_written<T: Serialize>(
    alloc: Global,
    row: &str,
    value: &T,
    bytes: &[u8],
) -> Result<(), Fail> {
    same_at(row, value.tls_serialized_len(), bytes.len())?;
    let detached = done_at(row, value.tls_serialize_detached(alloc))?;
    same_at(row, detached.as_slice(), bytes)?;
    let mut received = Vec::new(alloc);
    let count = done_at(row, value.tls_serialize(&mut received))?;
    same_at(row, count, bytes.len())?;
    same_at(row, received.as_slice(), bytes)?;
    let count = done_at(row, value.tls_serialize_into(&mut received))?;
    same_at(row, count, bytes.len())?;
    let mut twice = bytes.to_vec(alloc)?;
    twice.extend_from_slice(bytes)?;
    same_at(row, received.as_slice(), twice.as_slice())?;
    Ok(())
}

/// Each decoder reads this value from the bytes, and each encoder writes it as these bytes. The decoders of a
/// prefix leave one more byte, and the exact ones reject it. Bytes that are cut off are `EndOfStream`.
pub fn expect_encoded_as<T>(alloc: Global, row: &str, value: &T, bytes: &[u8]) -> Result<(), Fail>
where
    T: Serialize + Deserialize + Validate + Eq + Debug + Clone,
{
    expect_whole::<T>(alloc, row, value, bytes)?;
    for length in 0..bytes.len() {
        expect_rejected_prefix::<T>(alloc, row, &bytes[..length], Error::EndOfStream)?;
    }
    Ok(())
}

/// Like [`expect_encoded_as`], for a value with variable-size lengths. If the bytes are cut off, a slice's
/// decoder may say instead that the content which a length declares isn't there.
pub fn expect_encoded_as_vl<T>(
    alloc: Global,
    row: &str,
    value: &T,
    bytes: &[u8],
) -> Result<(), Fail>
where
    T: Serialize + Deserialize + Validate + Eq + Debug + Clone,
{
    expect_whole::<T>(alloc, row, value, bytes)?;
    for length in 0..bytes.len() {
        expect_cut_off::<T>(alloc, row, &bytes[..length])?;
    }
    Ok(())
}

fn expect_whole<T>(alloc: Global, row: &str, value: &T, bytes: &[u8]) -> Result<(), Fail>
where
    T: Serialize + Deserialize + Validate + Eq + Debug + Clone,
{
    expect_round_trip::<T>(alloc, row, bytes)?;
    let read = done_at(row, T::tls_deserialize_exact_bytes(alloc, bytes))?;
    same_at(row, &read, value)?;
    expect_written_and_cloned(alloc, row, value, bytes)?;
    expect_left::<T>(alloc, row, value, bytes)?;
    expect_another_byte_rejected::<T>(alloc, row, bytes)
}

// The decoders that read a prefix leave another byte after these.
fn expect_left<T: Deserialize + Validate + Eq + Debug>(
    alloc: Global,
    row: &str,
    value: &T,
    bytes: &[u8],
) -> Result<(), Fail> {
    let mut longer = bytes.to_vec(alloc)?;
    longer.push(0xee)?;
    let (found, rest) = T::tls_deserialize_bytes(alloc, &longer)?;
    same_at(row, &found, value)?;
    same_at(row, rest, [0xee].as_slice())?;
    same_at(row, T::tls_validate_prefix(&longer), Ok([0xee].as_slice()))?;
    let mut source = longer.as_slice();
    let read = done_at(row, T::tls_deserialize(alloc, &mut source))?;
    same_at(row, &read, value)?;
    same_at(row, source, [0xee].as_slice())?;
    Ok(())
}

// A slice's decoder says of the bytes that they are cut off, as does validation, and a source has ended.
fn expect_cut_off<T: Deserialize + Validate>(
    alloc: Global,
    row: &str,
    bytes: &[u8],
) -> Result<(), Fail> {
    let split = T::tls_deserialize_bytes(alloc, bytes).err();
    let of_slice = split.unwrap_or(Error::TrailingData);
    same_at(row, is_cut_off(of_slice), true)?;
    expect_rejected_prefix_by::<T>(alloc, row, bytes, of_slice, Error::EndOfStream)
}

/// Whether this is what a slice's decoder says of bytes that are cut off: they end, or the bytes that a
/// length declares aren't all there.
pub fn is_cut_off(error: Error) -> bool {
    error == Error::EndOfStream || error == NOT_THERE
}

/// Each decoder of a prefix rejects the bytes with this error.
pub fn expect_rejected_prefix<T: Deserialize + Validate>(
    alloc: Global,
    row: &str,
    bytes: &[u8],
    error: Error,
) -> Result<(), Fail> {
    expect_rejected_prefix_by::<T>(alloc, row, bytes, error, error)
}

/// A slice's decoder of a prefix rejects the bytes with one error, as does validation, and a source's
/// with another.
pub fn expect_rejected_prefix_by<T: Deserialize + Validate>(
    alloc: Global,
    row: &str,
    bytes: &[u8],
    of_slice: Error,
    of_source: Error,
) -> Result<(), Fail> {
    let split = T::tls_deserialize_bytes(alloc, bytes).err();
    same_at(row, split, Some(of_slice))?;
    let rejected = T::tls_validate_prefix(bytes).err();
    same_at(row, rejected.map(|one| one.error), Some(of_slice))?;
    let mut source = bytes;
    let read = T::tls_deserialize(alloc, &mut source).err();
    same_at(row, read, Some(of_source))?;
    let dripped = T::tls_deserialize(alloc, &mut Drip::new(bytes)).err();
    same_at(row, dripped, Some(of_source))
}

/// To the end of the bytes, each decoder rejects them with this error.
pub fn expect_rejected<T: Deserialize + Validate>(
    alloc: Global,
    row: &str,
    bytes: &[u8],
    error: Error,
) -> Result<(), Fail> {
    expect_rejected_by::<T>(alloc, row, bytes, error, error)
}

/// To the end of the bytes, a slice's decoder rejects them with one error, as does validation, and a
/// source's with another.
pub fn expect_rejected_by<T: Deserialize + Validate>(
    alloc: Global,
    row: &str,
    bytes: &[u8],
    of_slice: Error,
    of_source: Error,
) -> Result<(), Fail> {
    let rejected = T::tls_validate(bytes).err();
    same_at(row, rejected.map(|one| one.error), Some(of_slice))?;
    expect_not_decoded::<T>(alloc, row, bytes, of_slice, of_source)
}

/// Like [`expect_rejected_by`], but without validation, for a type that has none.
pub fn expect_not_decoded<T: Deserialize + DeserializeBytes>(
    alloc: Global,
    row: &str,
    bytes: &[u8],
    of_slice: Error,
    of_source: Error,
) -> Result<(), Fail> {
    let split = T::tls_deserialize_exact_bytes(alloc, bytes).err();
    same_at(row, split, Some(of_slice))?;
    let read = T::tls_deserialize_exact(alloc, bytes).err();
    same_at(row, read, Some(of_source))?;
    let dripped = deserialize_to_end::<T, _>(alloc, &mut Drip::new(bytes)).err();
    same_at(row, dripped, Some(of_source))
}

// To the end of the bytes, each decoder rejects another byte after these.
fn expect_another_byte_rejected<T: Deserialize + Validate>(
    alloc: Global,
    row: &str,
    bytes: &[u8],
) -> Result<(), Fail> {
    let mut longer = bytes.to_vec(alloc)?;
    longer.push(0)?;
    expect_rejected::<T>(alloc, row, &longer, Error::TrailingData)
}
