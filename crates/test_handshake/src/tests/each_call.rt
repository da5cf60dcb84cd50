//! What each call makes of a value or of bytes, of types that aren't validated.
use std::alloc::Global;
use std::test::Fail;
use test_support::each_call::expect_written;
use test_support::in_context::expect_written_in;
use test_support::rows::{done_at, same_at};
use tls_codec::{
    Deserialize, DeserializeBytes, DeserializeBytesFor, DeserializeFor, Serialize, SerializeFor,
    Size,
};

// The value is written as these bytes by each encoder, and each decoder reads it from them.
pub(super) fn expect_encoded_as<T>(
    alloc: Global,
    row: &str,
    value: &T,
    bytes: &[u8],
) -> Result<(), Fail>
where
    T: Serialize + Deserialize + DeserializeBytes + PartialEq,
{
    expect_written(alloc, row, value, bytes)?;
    let mut source = bytes;
    let first = done_at(row, T::tls_deserialize(alloc, &mut source))?;
    same_at(row, first == *value, true)?;
    same_at(row, source.len(), 0)?;
    let read = done_at(row, T::tls_deserialize_exact(alloc, bytes))?;
    same_at(row, read == *value, true)?;
    let split = done_at(row, T::tls_deserialize_exact_bytes(alloc, bytes))?;
    same_at(row, split == *value, true)
}

// The same in a context.
pub(super) fn expect_encoded_as_in<C: Size, T>(
    alloc: Global,
    row: &str,
    context: &C,
    value: &T,
    bytes: &[u8],
) -> Result<(), Fail>
where
    T: SerializeFor<C> + DeserializeFor<C> + DeserializeBytesFor<C> + PartialEq,
{
    expect_written_in(alloc, row, context, value, bytes)?;
    let mut source = bytes;
    let first = T::tls_deserialize_for(context, alloc, &mut source);
    same_at(row, done_at(row, first)? == *value, true)?;
    same_at(row, source.len(), 0)?;
    let read = T::tls_deserialize_exact_for(context, alloc, bytes);
    same_at(row, done_at(row, read)? == *value, true)?;
    let split = T::tls_deserialize_exact_bytes_for(context, alloc, bytes);
    same_at(row, done_at(row, split)? == *value, true)
}
