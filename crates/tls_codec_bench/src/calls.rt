//! The calls that are timed. None is inlined, so that each builds what it returns.
ghost use Rattle.std.specs.Prelude.{◌≡◌, length, IfOk};
ghost use Rattle.tls_codec_grammar.specs.Shortest.{IsShortest};
ghost use Rattle.tls_codec_bench.specs.Calls.{BeginsWith, IsEndOf, IsLengthOf};
ghost use Rattle.tls_codec_validate.specs.Validated.{Validates};

use crate::in_place::InPlace;
use std::alloc::{AllocError, Global};
use std::io::Cursor;
use tls_codec_base::{Deserialize, DeserializeBytes, Serialize};
use tls_codec_validate::{Rejected, Validate};
use tls_codec_wire::{Error, Outside};

/// A copy of some bytes, in a vector of their own.
#[inline(never)]
pub fn copy(alloc: Global, bytes: &[u8]) -> Result<Vec<u8>, AllocError>
    ensures { IfOk result (λ copied. copied.items ≡ bytes.now) }
{
    let mut copied = Vec::with_capacity(alloc, bytes.len())?;
    copied.extend_from_slice(bytes)?;
    Ok(copied)
}

/// Copies some bytes into a vector that is used again, and returns how many.
#[inline(never)]
pub fn copy_into(bytes: &[u8], reused: &mut Vec<u8>) -> Result<usize, AllocError>
    ensures { IfOk result (λ count. count ≡ length bytes.now) }
{
    reused.clear();
    reused.extend_from_slice(bytes)?;
    Ok(reused.len())
}

/// The shortest form of a value, in a vector of its own.
#[inline(never)]
pub fn encode<T: Serialize>(alloc: Global, value: &T) -> Result<Vec<u8>, Error>
    ensures { IfOk result (λ form. IsShortest T.format.spells form.items (T.plain value.now)) }
{
    value.tls_serialize_detached(alloc)
}

/// The shortest form of a value, in a vector that is used again; returns how many bytes that is.
#[inline(never)]
pub fn encode_into<T: Serialize>(value: &T, reused: &mut Vec<u8>) -> Result<usize, Error>
    ensures { IfOk result (IsLengthOf T.format.spells (T.plain value.now)) }
{
    reused.clear();
    value.tls_serialize_into(reused)
}

/// The value that the bytes begin with, by the slice path.
#[inline(never)]
pub fn decode_slice<T: DeserializeBytes>(alloc: Global, bytes: &[u8]) -> Result<T, Error>
    ensures { IfOk result (λ value. BeginsWith T.format.spells bytes.now (T.plain value)) }
{
    let (value, _) = T::tls_deserialize_bytes(alloc, bytes)?;
    Ok(value)
}

/// The value that the bytes begin with, by the reader path.
#[inline(never)]
pub fn decode_reader<T: Deserialize>(alloc: Global, bytes: &[u8]) -> Result<T, Error>
    ensures { IfOk result (λ value. BeginsWith T.format.spells bytes.now (T.plain value)) }
{
    let mut left = bytes;
    let value = T::tls_deserialize(alloc, &mut left)?;
    Ok(value)
}

/// The value that the bytes begin with, by the reader path from a `Read`, which has no bytes at hand.
#[inline(never)]
pub fn decode_outside<T: Deserialize>(alloc: Global, bytes: &[u8]) -> Result<T, Error>
    ensures { IfOk result (λ value. BeginsWith T.format.spells bytes.now (T.plain value)) }
{
    let mut src = Outside::new(Cursor::new(bytes));
    let value = T::tls_deserialize(alloc, &mut src)?;
    Ok(value)
}

/// What is left after the encoding that the bytes begin with. No value is made.
#[inline(never)]
pub fn validate<T: Validate>(bytes: &[u8]) -> Result<&[u8], Rejected<'_>>
    ensures { Validates T.format bytes.now result }
{
    T::tls_validate_prefix(bytes)
}

/// The last part of the encoding that the bytes are, which is validated and taken apart. No value is made.
#[inline(never)]
pub fn view<T: InPlace>(bytes: &[u8]) -> Result<&[u8], Rejected<'_>>
    ensures { IfOk result (λ part. IsEndOf bytes.now part.now) }
{
    T::last_part(bytes)
}
