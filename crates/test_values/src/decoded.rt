//! What the decoders make of bytes.
use crate::encoded::Encoded;
use crate::notation::push_bytes;
use crate::sources::{PIECES, in_pieces};
use crate::value::Value;
use std::alloc::{AllocError, Global};
use tls_codec::{Error, Source, read_bytes_bounded};
use tls_codec_vectors::Drip;

/// Appends the value that is read, the rest, what the exact forms return, and how the value is written; or the
/// error, of each path if there are two.
pub fn decoded<T: Value>(alloc: Global, bytes: &[u8], out: &mut String) -> Result<(), AllocError> {
    let mut left = bytes;
    let by_slice = T::tls_deserialize_bytes(alloc, bytes);
    let by_reader = T::tls_deserialize(alloc, &mut left);
    match (by_slice, by_reader) {
        (Ok((value, rest)), Ok(again)) => {
            push_read(alloc, out, bytes, &value, rest)?;
            if again != value || left != rest {
                out.push_str(", reader differs")?;
            }
            push_sources(alloc, out, bytes, &Ok(value), rest)
        }
        (Err(by_slice), Err(by_reader)) => {
            push_refused(out, by_slice, by_reader)?;
            push_exact_refused::<T>(alloc, out, bytes, by_slice, by_reader)?;
            push_sources::<T>(alloc, out, bytes, &Err(by_reader), &[])
        }
        (Ok(_), Err(error)) => write!(out, "read by slice, refused by reader {error:?}"),
        (Err(error), Ok(_)) => write!(out, "read by reader, refused by slice {error:?}"),
    }
}

// Validation says what the slice decoder says, or this is said.
fn push_validated<T: Value>(
    out: &mut String,
    bytes: &[u8],
    expected: Result<&[u8], Error>,
) -> Result<(), AllocError> {
    let whole = match expected {
        Ok([]) => Ok(()),
        Ok(_) => Err(Error::TrailingData),
        Err(error) => Err(error),
    };
    let prefix = T::tls_validate_prefix(bytes).map_err(|rejected| rejected.error);
    let found = T::tls_validate(bytes).map_err(|rejected| rejected.error);
    if prefix != expected || found != whole {
        out.push_str(", validation differs")?;
    }
    Ok(())
}

fn push_read<T: Value>(
    alloc: Global,
    out: &mut String,
    bytes: &[u8],
    value: &T,
    rest: &[u8],
) -> Result<(), AllocError> {
    value.show(alloc, out)?;
    out.push_str(", rest ")?;
    push_bytes(alloc, out, rest)?;
    push_exact(
        out,
        value,
        T::tls_deserialize_exact_bytes(alloc, bytes),
        T::tls_deserialize_exact(alloc, bytes),
    )?;
    push_validated::<T>(out, bytes, Ok(rest))?;
    out.push_str(", ")?;
    Encoded::of(alloc, value)?.push(alloc, value, out)
}

// Appends what the exact forms return.
fn push_exact<T: Value>(
    out: &mut String,
    value: &T,
    one: Result<T, Error>,
    other: Result<T, Error>,
) -> Result<(), AllocError> {
    match (one, other) {
        (Ok(one), Ok(other)) => {
            if one == *value && other == *value {
                return out.push_str(", exact");
            }
        }
        (Err(one), Err(other)) => {
            if one == other {
                return write!(out, ", exact forms refuse {one:?}");
            }
        }
        (Ok(_), Err(_)) => {}
        (Err(_), Ok(_)) => {}
    }
    out.push_str(", exact forms differ")
}

/// Appends the error, or that of each path.
pub fn push_refused(out: &mut String, by_slice: Error, by_reader: Error) -> Result<(), AllocError> {
    if by_slice == by_reader {
        write!(out, "refused {by_slice:?}")
    } else {
        write!(out, "refused {by_slice:?}, by reader {by_reader:?}")
    }
}

// The exact forms and validation return the same errors, or this is said.
fn push_exact_refused<T: Value>(
    alloc: Global,
    out: &mut String,
    bytes: &[u8],
    by_slice: Error,
    by_reader: Error,
) -> Result<(), AllocError> {
    let one = T::tls_deserialize_exact_bytes(alloc, bytes).err();
    let other = T::tls_deserialize_exact(alloc, bytes).err();
    if one != Some(by_slice) || other != Some(by_reader) {
        out.push_str(", exact forms differ")?;
    }
    push_validated::<T>(out, bytes, Err(by_slice))
}

// Reports sources that give something other than the bytes in memory. These sources don't report
// which bytes are to come.
fn push_sources<T: Value>(
    alloc: Global,
    out: &mut String,
    bytes: &[u8],
    expected: &Result<T, Error>,
    rest: &[u8],
) -> Result<(), AllocError> {
    if !gives(alloc, &mut Drip::new(bytes), expected, rest) {
        out.push_str(", byte by byte differs")?;
    }
    for most in PIECES {
        if !gives(alloc, &mut in_pieces(bytes, most), expected, rest) {
            write!(out, ", outside in pieces of {most} differs")?;
        }
    }
    Ok(())
}

fn gives<T: Value, R: Source>(
    alloc: Global,
    source: &mut R,
    expected: &Result<T, Error>,
    rest: &[u8],
) -> bool {
    match (T::tls_deserialize(alloc, source), expected) {
        (Ok(found), Ok(value)) => found == *value && is_left(alloc, source, rest),
        (Err(found), Err(error)) => found == *error,
        _ => false,
    }
}

/// Whether just these bytes are still to come.
pub fn is_left<R: Source>(alloc: Global, source: &mut R, rest: &[u8]) -> bool {
    match read_bytes_bounded(alloc, source, rest.len()) {
        Ok(left) => left.as_slice() == rest && source.pull(&mut [0]) == Ok(0),
        Err(_) => false,
    }
}
