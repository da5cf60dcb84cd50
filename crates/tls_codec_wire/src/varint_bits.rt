//! Numbers below a limit, laid out in the least width (RFC 9000, section 16; RFC 9420, section 2.1.2).
//!
//! The top two bits of the first byte say how many bytes there are: 1, 2, 4 or 8. The other bits are
//! the number, the most significant first. Integers and lengths are read and written here, each with
//! its own limit.
ghost use Rattle.std.specs.Prelude.{◌≡◌, ◌+◌, ◌*◌, ◌/◌, ◌^◌, ◌<◌, ◌≤◌, ◌⊎◌, drop, length, IfErr, IfOk, OnOk, MatchOption, MatchResult};
ghost use Rattle.tls_codec_wire.specs.Counts.{NoneFell, OnlyInterrupted};
ghost use Rattle.tls_codec_wire.specs.Device.{Gave};
ghost use Rattle.tls_codec_wire.specs.Digits.{AreBytes, value};
ghost use Rattle.tls_codec_wire.specs.Seen.{RefusedFor};
ghost use Rattle.tls_codec_wire.specs.Transfer.{ReadRefused};
ghost use Rattle.tls_codec_wire.specs.Numbers.{BeganNumber, BeginsNumber, GaveNumber, NumberNotRead, NumberNotSent, SentNumber};
ghost use Rattle.tls_codec_wire.specs.Varint.{SpelledBelow, width_below};
ghost use Rattle.tls_codec_wire.specs.VarintCalls.{HasLeastTopBits, RefusesBelow, SaysWidth};
ghost use Rattle.tls_codec_wire.specs.declared.error.Error.TheVariants.{EndOfStream, InvalidVectorLength};

use crate::device::{Sink, Source};
use crate::error::Error;
use crate::transfer::{read_exactly, write_all};

// ---- reading

/// Reads a number. All bytes that the first one asks for are read before anything is rejected,
/// unless the bytes end early.
#[inline(always)]
pub(crate) fn read_below<R: Source, const LIMIT: u64>(src: &mut R) -> Result<u64, Error>
    requires { 2 ^ 30 ≤ LIMIT }
    ensures gave { Gave R.given src.old src.new }
    ensures ok { IfOk result (λ n. GaveNumber R.given (SpelledBelow LIMIT) src.old src.new n) }
    ensures refused { IfErr result
        (RefusedFor R.Source (NumberNotRead (RefusesBelow LIMIT)) src.old src.new) }
    ensures retried { OnOk result (OnlyInterrupted (R.counts src.old) (R.counts src.new)) }
    ensures ended { result ≡ Err EndOfStream
        → OnlyInterrupted (R.counts src.old) (R.counts src.new) }
{
    let mut first = [0u8; 1];
    read_exactly(src, &mut first)?;
    if first[0] < 0x40 {
        return Ok(u64::from(first[0]));
    }
    let (more, least) = said_by(first[0]);
    let mut buffer = [0u8; 7];
    let digits = &mut buffer[..more];
    read_few(src, digits)?;
    let number = admit::<LIMIT>(number_from(first[0] % 64, digits), least)?;
    Ok(number)
}

// Fills the buffer, as `read_exactly` does. One byte is copied without a call.
#[inline(always)]
fn read_few<R: Source>(src: &mut R, into: &mut [u8]) -> Result<(), Error>
    ensures gave { Gave R.given src.old src.new }
    ensures filled { OnOk result (R.given src.old into.new src.new) }
    ensures bytes { OnOk result (AreBytes into.new) }
    ensures refused { IfErr result
        (RefusedFor R.Source (ReadRefused (length into.old)) src.old src.new) }
    ensures retried { OnOk result (OnlyInterrupted (R.counts src.old) (R.counts src.new)) }
    ensures ended { result ≡ Err EndOfStream
        → OnlyInterrupted (R.counts src.old) (R.counts src.new) }
{
    if into.len() == 1 {
        return read_exactly(src, &mut into[..1]);
    }
    read_exactly(src, into)
}

/// The number that the bytes begin with, and the rest of them.
#[inline(always)]
pub(crate) fn split_below<const LIMIT: u64>(bytes: &[u8]) -> Result<(u64, &[u8]), Error>
    requires { 2 ^ 30 ≤ LIMIT }
    ensures ok { IfOk result
        (λ found. BeginsNumber (SpelledBelow LIMIT) bytes.now found.0 found.1.now) }
    ensures err { IfErr result (RefusesBelow LIMIT bytes.now) }
{
    if let Some((first, rest)) = bytes.split_first() {
        if *first < 0x40 {
            return Ok((u64::from(*first), rest));
        }
        // The compiler knows the width here.
        if *first < 0x80 {
            return split_any::<LIMIT>(bytes);
        }
    }
    split_any::<LIMIT>(bytes)
}

// The same, whatever the width.
#[inline(always)]
fn split_any<const LIMIT: u64>(bytes: &[u8]) -> Result<(u64, &[u8]), Error>
    requires { 2 ^ 30 ≤ LIMIT }
    ensures ok { IfOk result
        (λ found. BeginsNumber (SpelledBelow LIMIT) bytes.now found.0 found.1.now) }
    ensures err { IfErr result (RefusesBelow LIMIT bytes.now) }
{
    let Some((first, rest)) = bytes.split_first() else {
        return Err(Error::EndOfStream);
    };
    let (more, least) = said_by(*first);
    if rest.len() < more {
        return Err(Error::EndOfStream);
    }
    let (digits, rest) = rest.split_at(more);
    let number = number_from(*first % 64, digits);
    let number = admit::<LIMIT>(number, least)?;
    Ok((number, rest))
}

// How many bytes follow the first one, and the least number that needs that many.
fn said_by(first: u8) -> (usize, u64)
    ensures { SaysWidth first result.0 result.1 }
{
    match first / 64 {
        0 => (0, 0),
        1 => (1, 0x40),
        2 => (3, 0x4000),
        _ => (7, 0x4000_0000),
    }
}

// The number whose first digit is `top`, with the others after it. One or three are read without a
// loop.
fn number_from(top: u8, digits: &[u8]) -> u64
    requires top { top < 64 }
    requires digits { length digits.now < 8 }
    ensures value { result ≡ top * 256 ^ length digits.now + value digits.now }
    ensures fits { result < 64 * 256 ^ length digits.now }
{
    match digits.len() {
        1 => number_of_each(top, &digits[..1]),
        3 => number_of_each(top, &digits[..3]),
        _ => number_of_each(top, digits),
    }
}

// The same, whatever their number.
#[inline(always)]
fn number_of_each(top: u8, digits: &[u8]) -> u64
    requires top { top < 64 }
    requires digits { length digits.now < 8 }
    ensures value { result ≡ top * 256 ^ length digits.now + value digits.now }
    ensures fits { result < 64 * 256 ^ length digits.now }
{
    let mut number = top as u64;
    for digit in digits {
        number = number * 256 + *digit as u64;
    }
    number
}

// The number, if it has as many bytes as it needs and is below the limit.
fn admit<const LIMIT: u64>(number: u64, least: u64) -> Result<u64, Error>
    ensures { MatchResult result (λ n. (n ≡ number) × (least ≤ number) × (number < LIMIT))
        (λ e. (e ≡ InvalidVectorLength) × ((number < least) ⊎ (LIMIT ≤ number))) }
{
    if number < least || number >= LIMIT {
        return Err(Error::InvalidVectorLength);
    }
    Ok(number)
}

// ---- writing

/// Sends a number in its least width, and returns how many bytes that is.
pub(crate) fn write_below<W: Sink, const LIMIT: u64>(
    sink: &mut W,
    number: u64,
) -> Result<usize, Error>
    requires least { 2 ^ 30 ≤ LIMIT }
    requires greatest { LIMIT ≤ 2 ^ 62 }
    ensures ok { IfOk result
        (SentNumber (SpelledBelow LIMIT) (W.received sink.old) (W.received sink.new) number) }
    ensures beginning { number < LIMIT
        → BeganNumber (SpelledBelow LIMIT) (W.received sink.old) (W.received sink.new) number }
    ensures counts { NoneFell (W.counts sink.old) (W.counts sink.new) }
    ensures refused { IfErr result
        (NumberNotSent LIMIT number (W.counts sink.old) (W.counts sink.new)) }
    ensures retried { OnOk result (OnlyInterrupted (W.counts sink.old) (W.counts sink.new)) }
    ensures too_great { LIMIT ≤ number
        → (result ≡ Err InvalidVectorLength) × (sink.new ≡ sink.old) }
{
    let Some(found) = form_below::<LIMIT>(number) else {
        return Err(Error::InvalidVectorLength);
    };
    let (bytes, at) = found;
    let form = &bytes[at..];
    write_all(sink, form)?;
    Ok(form.len())
}

/// The encoding of a number: what is in these bytes from this place on. `None` from the limit on.
#[inline(always)]
pub(crate) fn form_below<const LIMIT: u64>(number: u64) -> Option<([u8; 8], usize)>
    requires least { 2 ^ 30 ≤ LIMIT }
    requires greatest { LIMIT ≤ 2 ^ 62 }
    ensures { MatchOption result (LIMIT ≤ number)
        (λ form. (form.1 ≤ 8) × SpelledBelow LIMIT (drop form.1 form.0) number) }
{
    let (mark, width) = top_bits::<LIMIT>(number)?;
    Some(((number + mark).to_be_bytes(), 8 - width))
}

/// How many bytes the encoding of a number has, and 0 from the limit on.
#[inline(always)]
pub(crate) fn width_below<const LIMIT: u64>(number: u64) -> usize
    requires least { 2 ^ 30 ≤ LIMIT }
    requires greatest { LIMIT ≤ 2 ^ 62 }
    ensures { result ≡ width_below LIMIT number }
{
    match top_bits::<LIMIT>(number) {
        Some((_, width)) => width,
        None => 0,
    }
}

// What the top bits of the spelling are worth, and how many bytes they say. The limit is checked last,
// so that each width stays a constant where the form is used.
#[inline(always)]
fn top_bits<const LIMIT: u64>(n: u64) -> Option<(u64, usize)>
    requires least { 2 ^ 30 ≤ LIMIT }
    requires greatest { LIMIT ≤ 2 ^ 62 }
    ensures { MatchOption result (LIMIT ≤ n)
        (λ found. (n < LIMIT) × HasLeastTopBits n found.0 found.1) }
{
    if n < 0x40 {
        Some((0, 1))
    } else if n < 0x4000 {
        Some((0x4000, 2))
    } else if n < 0x4000_0000 {
        Some((0x8000_0000, 4))
    } else if n < LIMIT {
        Some((0xc000_0000_0000_0000, 8))
    } else {
        None
    }
}
