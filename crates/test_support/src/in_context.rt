//! What each call makes of a value or of bytes in a context.
use crate::each_call::is_cut_off;
use crate::rows::{done_at, same_at};
use std::alloc::Global;
use std::fmt::Debug;
use std::test::Fail;
use tls_codec::{DeserializeBytesFor, DeserializeFor, Error, SerializeFor, Size, expect_end};
use tls_codec_validate::{Keyed, ValidateFor};
use tls_codec_vectors::Drip;

/// Each decoder reads the same value from the bytes, to the last one, and each encoder writes it as them.
pub fn expect_round_trip_in<C: Keyed, T>(
    alloc: Global,
    row: &str,
    context: &C,
    bytes: &[u8],
) -> Result<(), Fail>
where
    T: SerializeFor<C> + DeserializeFor<C> + ValidateFor<C> + Eq + Debug + Clone,
{
    let split = T::tls_deserialize_exact_bytes_for(context, alloc, bytes);
    let value = done_at(row, split)?;
    let read = T::tls_deserialize_exact_for(context, alloc, bytes);
    same_at(row, &done_at(row, read)?, &value)?;
    same_at(row, T::tls_validate_for(&context.key(), bytes), Ok(()))?;
    let mut source = Drip::new(bytes);
    let dripped = T::tls_deserialize_for(context, alloc, &mut source);
    same_at(row, &done_at(row, dripped)?, &value)?;
    done_at(row, expect_end(&mut source))?;
    expect_written_in(alloc, row, context, &value, bytes)
}

/// Each encoder writes the value in a context as these bytes.
pub fn expect_written_in<C: Size, T: SerializeFor<C>>(
    alloc: Global,
    row: &str,
    context: &C,
    value: &T,
    bytes: &[u8],
) -> Result<(), Fail> {
    same_at(row, value.tls_serialized_len_for(context), bytes.len())?;
    let detached = done_at(row, value.tls_serialize_detached_for(context, alloc))?;
    same_at(row, detached.as_slice(), bytes)?;
    let mut received = Vec::new(alloc);
    let count = done_at(row, value.tls_serialize_for(context, &mut received))?;
    same_at(row, count, bytes.len())?;
    same_at(row, received.as_slice(), bytes)?;
    let count = done_at(row, value.tls_serialize_into_for(context, &mut received))?;
    same_at(row, count, bytes.len())?;
    let mut twice = bytes.to_vec(alloc)?;
    twice.extend_from_slice(bytes)?;
    same_at(row, received.as_slice(), twice.as_slice())?;
    Ok(())
}

/// Each decoder reads this value from the bytes in a context, and each encoder writes it as these bytes. A
/// slice's decoder leaves one more byte, and the exact ones reject it. Bytes that are cut off are rejected.
pub fn expect_encoded_as_in<C: Keyed, T>(
    alloc: Global,
    row: &str,
    context: &C,
    value: &T,
    bytes: &[u8],
) -> Result<(), Fail>
where
    T: SerializeFor<C> + DeserializeFor<C> + ValidateFor<C> + Eq + Debug + Clone,
{
    expect_round_trip_in::<C, T>(alloc, row, context, bytes)?;
    let split = T::tls_deserialize_exact_bytes_for(context, alloc, bytes);
    same_at(row, &done_at(row, split)?, value)?;
    expect_written_in(alloc, row, context, value, bytes)?;
    same_at(row, &value.clone()?, value)?;
    expect_left_in::<C, T>(alloc, row, context, value, bytes)?;
    for length in 0..bytes.len() {
        expect_cut_off_in::<C, T>(alloc, row, context, &bytes[..length])?;
    }
    Ok(())
}

// A slice's decoder leaves another byte after these, and to the end of the bytes each decoder rejects it.
fn expect_left_in<C: Keyed, T>(
    alloc: Global,
    row: &str,
    context: &C,
    value: &T,
    bytes: &[u8],
) -> Result<(), Fail>
where
    T: DeserializeFor<C> + ValidateFor<C> + Eq + Debug,
{
    let mut longer = bytes.to_vec(alloc)?;
    longer.push(0xee)?;
    let (found, rest) = T::tls_deserialize_bytes_for(context, alloc, &longer)?;
    same_at(row, &found, value)?;
    same_at(row, rest, [0xee].as_slice())?;
    expect_rejected_in::<C, T>(alloc, row, context, &longer, Error::TrailingData)
}

// A slice's decoder rejects the bytes, as does validation with its error, and a source has ended.
fn expect_cut_off_in<C: Keyed, T: DeserializeFor<C> + ValidateFor<C>>(
    alloc: Global,
    row: &str,
    context: &C,
    bytes: &[u8],
) -> Result<(), Fail> {
    let split = T::tls_deserialize_bytes_for(context, alloc, bytes).err();
    let of_slice = split.unwrap_or(Error::TrailingData);
    same_at(row, is_cut_off(of_slice), true)?;
    let rejected = T::tls_validate_prefix_for(&context.key(), bytes).err();
    same_at(row, rejected.map(|one| one.error), Some(of_slice))?;
    let mut source = bytes;
    let read = T::tls_deserialize_for(context, alloc, &mut source).err();
    same_at(row, read, Some(Error::EndOfStream))
}

/// Each encoder rejects the value, since it doesn't fit this context. A vector keeps the bytes that it had.
pub fn expect_does_not_fit_in<C: Size, T: SerializeFor<C>>(
    alloc: Global,
    row: &str,
    context: &C,
    value: &T,
) -> Result<(), Fail> {
    let does_not_fit = Some(Error::EncodingError("value does not fit its context"));
    let mut out = [0xee].to_vec(alloc)?;
    let appended = value.tls_serialize_into_for(context, &mut out).err();
    same_at(row, appended, does_not_fit)?;
    same_at(row, out.as_slice(), [0xee].as_slice())?;
    let detached = value.tls_serialize_detached_for(context, alloc).err();
    same_at(row, detached, does_not_fit)?;
    let sent = value.tls_serialize_for(context, &mut out).err();
    same_at(row, sent, does_not_fit)
}

/// To the end of the bytes, each decoder rejects them in a context with this error.
pub fn expect_rejected_in<C: Keyed, T: DeserializeFor<C> + ValidateFor<C>>(
    alloc: Global,
    row: &str,
    context: &C,
    bytes: &[u8],
    error: Error,
) -> Result<(), Fail> {
    expect_rejected_in_by::<C, T>(alloc, row, context, bytes, error, error)
}

/// To the end of the bytes, a slice's decoder rejects them in a context with one error, as does
/// validation, and a source's with another.
pub fn expect_rejected_in_by<C: Keyed, T: DeserializeFor<C> + ValidateFor<C>>(
    alloc: Global,
    row: &str,
    context: &C,
    bytes: &[u8],
    of_slice: Error,
    of_source: Error,
) -> Result<(), Fail> {
    let rejected = T::tls_validate_for(&context.key(), bytes).err();
    same_at(row, rejected.map(|one| one.error), Some(of_slice))?;
    expect_not_decoded_in::<C, T>(alloc, row, context, bytes, of_slice, of_source)
}

/// Like [`expect_rejected_in_by`], but without validation, for a type that has none.
pub fn expect_not_decoded_in<C: Size, T: DeserializeFor<C> + DeserializeBytesFor<C>>(
    alloc: Global,
    row: &str,
    context: &C,
    bytes: &[u8],
    of_slice: Error,
    of_source: Error,
) -> Result<(), Fail> {
    let split = T::tls_deserialize_exact_bytes_for(context, alloc, bytes).err();
    same_at(row, split, Some(of_slice))?;
    let read = T::tls_deserialize_exact_for(context, alloc, bytes).err();
    same_at(row, read, Some(of_source))
}
