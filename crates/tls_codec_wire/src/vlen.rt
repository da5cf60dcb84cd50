//! Lengths as variable-length integers (RFC 9420, section 2.1.2).
//!
//! A length has at most 30 bits, so 1, 2 or 4 bytes: the greatest is 1,073,741,823. In more bytes than it
//! needs it is rejected: that encoding isn't canonical.
ghost use Rattle.std.specs.Prelude.{◌≡◌, ◌^◌, ◌-◌, ◌<◌, ◌≤◌, ◌+◌, ◌++◌, length, vec_len, take, drop, is_ok, if◌then◌else◌, IfErr, IfOk, OnOk, MatchOption, OnErr};
ghost use Rattle.tls_codec_wire.specs.Counts.{NoneFell, OnlyInterrupted};
ghost use Rattle.tls_codec_wire.specs.Device.{Gave};
ghost use Rattle.tls_codec_wire.specs.Seen.{RefusedFor};
ghost use Rattle.tls_codec_wire.specs.Numbers.{BeganNumber, BeginsNumber, GaveNumber, NumberNotRead, NumberNotSent, SentNumber};
ghost use Rattle.tls_codec_wire.specs.Varint.{VectorLength, width_below};
ghost use Rattle.tls_codec_wire.specs.VarintCalls.{InsertedLength, InsertRefused, RefusesBelow};
ghost use Rattle.tls_codec_wire.specs.declared.error.Error.TheVariants.{EndOfStream, InvalidVectorLength, OutOfMemory};

use crate::device::{Sink, Source};
use crate::error::Error;
use crate::varint_bits::{form_below, read_below, split_below, width_below, write_below};

// The numbers from this one on are no lengths.
const LIMIT: u64 = 0x4000_0000;

/// Reads a length, and returns it and how many bytes it has.
///
/// `EndOfStream`: fewer bytes come than the first one asks for, or none. `InvalidVectorLength`: the
/// length has more bytes than it needs, or is above the greatest. `DecodingError("read failed")` and
/// `OutOfMemory` are the source's, as in [`read_exactly`](crate::read_exactly).
///
/// ```rust
/// let mut src = [0x40u8, 0x40].as_slice();
/// assert_eq!(rt; read_length(&mut src), Ok((64, 2)));
/// let mut src = [0x40u8, 0x25].as_slice();
/// assert_eq!(rt; read_length(&mut src), Err(Error::InvalidVectorLength));
/// ```
#[inline(always)]
pub fn read_length<R: Source>(src: &mut R) -> Result<(usize, usize), Error>
    ensures gave { Gave R.given src.old src.new }
    ensures ok { IfOk result (λ found. GaveNumber R.given VectorLength src.old src.new found.0) }
    ensures width { IfOk result (λ found. found.1 ≡ width_below (2 ^ 30) found.0) }
    ensures refused { IfErr result
        (RefusedFor R.Source (NumberNotRead (RefusesBelow (2 ^ 30))) src.old src.new) }
    ensures retried { OnOk result (OnlyInterrupted (R.counts src.old) (R.counts src.new)) }
    ensures ended { result ≡ Err EndOfStream
        → OnlyInterrupted (R.counts src.old) (R.counts src.new) }
{
    let length = read_below::<R, LIMIT>(src)?;
    Ok((length as usize, width_below::<LIMIT>(length)))
}

/// The length that the bytes begin with, and the rest of them.
///
/// `EndOfStream`: there are fewer bytes than the first one asks for, or none. `InvalidVectorLength`:
/// the length has more bytes than it needs, or is above the greatest.
#[inline(always)]
pub fn split_length(bytes: &[u8]) -> Result<(usize, &[u8]), Error>
    ensures ok { IfOk result (λ found. BeginsNumber VectorLength bytes.now found.0 found.1.now) }
    ensures err { IfErr result (RefusesBelow (2 ^ 30) bytes.now) }
{
    let (length, rest) = split_below::<LIMIT>(bytes)?;
    Ok((length as usize, rest))
}

/// Sends a length, and returns how many bytes it has.
///
/// `InvalidVectorLength`: it is above the greatest length, and nothing was sent. Every other error
/// is the sink's, as in [`write_all`](crate::write_all).
///
/// ```rust
/// let mut out = Vec::new(alloc);
/// assert_eq!(rt; write_length(&mut out, 64), Ok(2));
/// assert_eq!(rt; out.as_slice(), [0x40, 0x40].as_slice());
/// ```
pub fn write_length<W: Sink>(sink: &mut W, content_length: usize) -> Result<usize, Error>
    ensures ok { IfOk result
        (SentNumber VectorLength (W.received sink.old) (W.received sink.new) content_length) }
    ensures beginning { content_length < 2 ^ 30
        → BeganNumber VectorLength (W.received sink.old) (W.received sink.new) content_length }
    ensures counts { NoneFell (W.counts sink.old) (W.counts sink.new) }
    ensures refused { IfErr result
        (NumberNotSent (2 ^ 30) content_length (W.counts sink.old) (W.counts sink.new)) }
    ensures retried { OnOk result (OnlyInterrupted (W.counts sink.old) (W.counts sink.new)) }
    ensures too_long { 2 ^ 30 ≤ content_length
        → (result ≡ Err InvalidVectorLength) × (sink.new ≡ sink.old) }
{
    write_below::<W, LIMIT>(sink, content_length as u64)
}

/// The bytes of a length: those of these eight from this place on. `None` above the greatest
/// length.
#[inline(always)]
pub fn length_form(content_length: usize) -> Option<([u8; 8], usize)>
    ensures { MatchOption result (2 ^ 30 ≤ content_length)
        (λ form. (form.1 ≤ 8) × VectorLength (drop form.1 form.0) content_length) }
{
    form_below::<LIMIT>(content_length as u64)
}

/// How many bytes a length has, and 0 above the greatest length.
pub fn length_width(content_length: usize) -> usize
    ensures { result ≡ width_below (2 ^ 30) content_length }
{
    width_below::<LIMIT>(content_length as u64)
}

/// Puts a length before the bytes of a vector that it counts, which are those from `at` on. Returns
/// how many bytes the length has.
///
/// `InvalidVectorLength`: these are more bytes than the greatest length, or the vector would pass
/// `isize::MAX` bytes. `OutOfMemory`: allocation failed. After an error the vector is as it was.
///
/// ```rust
/// let mut out = Vec::from_slice(alloc, &[0xaa, 1, 2])?;
/// assert_eq!(rt; insert_length(&mut out, 1), Ok(1));
/// assert_eq!(rt; out.as_slice(), [0xaa, 2, 1, 2].as_slice());
/// ```
pub fn insert_length(out: &mut Vec<u8>, at: usize) -> Result<usize, Error>
    requires { at ≤ vec_len out.old }
    ensures ok { IfOk result (InsertedLength out.old.items out.new.items at) }
    ensures kept { OnErr result (out.new.items ≡ out.old.items) }
    ensures refused { IfErr result
        (InsertRefused (length out.old.items - at) (length out.old.items)) }
    ensures too_long { 2 ^ 30 ≤ length out.old.items - at → result ≡ Err InvalidVectorLength }
    ensures passed { 2 ^ 63
        ≤ length out.old.items + width_below (2 ^ 30) (length out.old.items - at)
        → result ≡ Err InvalidVectorLength }
{
    let content_length = out.len() - at;
    let width = length_width(content_length);
    if width > isize::MAX as usize - out.len() {
        return Err(Error::InvalidVectorLength);
    }
    let Some(found) = length_form(content_length) else {
        return Err(Error::InvalidVectorLength);
    };
    let (form, from) = found;
    // If the width is a constant, moving the bytes is no call.
    match from {
        7 => insert_bytes(out, at, &form[7..])?,
        6 => insert_bytes(out, at, &form[6..])?,
        _ => insert_bytes(out, at, &form[from..])?,
    }
    Ok(width)
}

/// Puts bytes before those of a vector from `at` on.
///
/// `OutOfMemory`: allocation failed, and the vector is as it was.
#[inline(always)]
pub fn insert_bytes(out: &mut Vec<u8>, at: usize, bytes: &[u8]) -> Result<(), Error>
    requires { at ≤ vec_len out.old }
    ensures items { out.new.items
        ≡ (if is_ok result then take at out.old.items
        ++ (bytes.now ++ drop at out.old.items) else out.old.items) }
    ensures err { IfErr result (λ e. e ≡ OutOfMemory) }
{
    let end = out.len();
    out.extend_from_slice(bytes)?;
    out.copy_within(at..end, at + bytes.len());
    out[at..at + bytes.len()].copy_from_slice(bytes);
    Ok(())
}
