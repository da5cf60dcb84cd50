//! Lengths of one to four bytes: `u8`, `u16`, `U24` and `u32` (RFC 8446, section 3.4).
ghost use Rattle.std.specs.Prelude.{◌≡◌, ◌+◌, ◌<◌, ◌≤◌, ◌^◌, drop, length, MatchOption, IfErr, IfOk, OnOk};
ghost use Rattle.std.proofs.Common.{arith};
ghost use Rattle.tls_codec_wire.specs.Counts.{OnlyInterrupted};
ghost use Rattle.tls_codec_wire.specs.Device.{Gave};
ghost use Rattle.tls_codec_wire.specs.Digits.{AreBytes, Digits, value};
ghost use Rattle.tls_codec_wire.specs.Seen.{RefusedFor};
ghost use Rattle.tls_codec_wire.specs.Numbers.{BeginsNumber, GaveNumber, NumberNotRead};
ghost use Rattle.tls_codec_grammar.specs.Field.{RefusesDigits, fixed_field};
ghost use Rattle.tls_codec_grammar.specs.laws.FormatLaws.{fixed_field_meets};

use super::LengthField;
use crate::digits::{read_digits, split_digits};
use tls_codec_wire::{Error, Source, U24};

impl LengthField for u8 {
    ghost field = { fixed_field 1 };

    fn width(_length: usize) -> usize {
        1
    }

    #[inline(always)]
    fn form(length: usize) -> Option<([u8; 8], usize)> {
        last_digits::<1>(length, 0xff)
    }

    #[inline(always)]
    fn read_length<R: Source>(src: &mut R) -> Result<usize, Error> {
        let digits = read_field(src)?;
        Ok(u8::from_be_bytes(digits) as usize)
    }

    #[inline(always)]
    fn split_length(bytes: &[u8]) -> Result<(usize, &[u8]), Error> {
        let (digits, rest) = split_field(bytes)?;
        Ok((u8::from_be_bytes(digits) as usize, rest))
    }

    fn cut_off() -> Error {
        Error::EndOfStream
    }

    ghost lawful = { fixed_field_meets 1 (Prim.omega arith) };
}

impl LengthField for u16 {
    ghost field = { fixed_field 2 };

    fn width(_length: usize) -> usize {
        2
    }

    #[inline(always)]
    fn form(length: usize) -> Option<([u8; 8], usize)> {
        last_digits::<2>(length, 0xffff)
    }

    #[inline(always)]
    fn read_length<R: Source>(src: &mut R) -> Result<usize, Error> {
        let digits = read_field(src)?;
        Ok(u16::from_be_bytes(digits) as usize)
    }

    #[inline(always)]
    fn split_length(bytes: &[u8]) -> Result<(usize, &[u8]), Error> {
        let (digits, rest) = split_field(bytes)?;
        Ok((u16::from_be_bytes(digits) as usize, rest))
    }

    fn cut_off() -> Error {
        Error::EndOfStream
    }

    ghost lawful = { fixed_field_meets 2 (Prim.omega arith) };
}

impl LengthField for U24 {
    ghost field = { fixed_field 3 };

    fn width(_length: usize) -> usize {
        3
    }

    #[inline(always)]
    fn form(length: usize) -> Option<([u8; 8], usize)> {
        last_digits::<3>(length, 0xff_ffff)
    }

    #[inline(always)]
    fn read_length<R: Source>(src: &mut R) -> Result<usize, Error> {
        let digits = read_field(src)?;
        Ok(usize::from(U24::from_be_bytes(digits)))
    }

    #[inline(always)]
    fn split_length(bytes: &[u8]) -> Result<(usize, &[u8]), Error> {
        let (digits, rest) = split_field(bytes)?;
        Ok((usize::from(U24::from_be_bytes(digits)), rest))
    }

    fn cut_off() -> Error {
        Error::EndOfStream
    }

    ghost lawful = { fixed_field_meets 3 (Prim.omega arith) };
}

impl LengthField for u32 {
    ghost field = { fixed_field 4 };

    fn width(_length: usize) -> usize {
        4
    }

    #[inline(always)]
    fn form(length: usize) -> Option<([u8; 8], usize)> {
        last_digits::<4>(length, 0xffff_ffff)
    }

    #[inline(always)]
    fn read_length<R: Source>(src: &mut R) -> Result<usize, Error> {
        let digits = read_field(src)?;
        Ok(u32::from_be_bytes(digits) as usize)
    }

    #[inline(always)]
    fn split_length(bytes: &[u8]) -> Result<(usize, &[u8]), Error> {
        let (digits, rest) = split_field(bytes)?;
        Ok((u32::from_be_bytes(digits) as usize, rest))
    }

    fn cut_off() -> Error {
        Error::EndOfStream
    }

    ghost lawful = { fixed_field_meets 4 (Prim.omega arith) };
}

// The last K bytes of a length, if it is `greatest` at most.
#[inline(always)]
fn last_digits<const K: usize>(length: usize, greatest: usize) -> Option<([u8; 8], usize)>
    requires width { K ≤ 8 }
    requires greatest { greatest + 1 ≡ 256 ^ K }
    ensures { MatchOption result (256 ^ K ≤ length)
        (λ form. (form.1 ≤ 8) × Digits K (drop form.1 form.0) length) }
{
    if length > greatest {
        return None;
    }
    Some(((length as u64).to_be_bytes(), 8 - K))
}

// The K bytes of a length to come.
#[inline(always)]
fn read_field<R: Source, const K: usize>(src: &mut R) -> Result<[u8; K], Error>
    requires { 0 < K }
    ensures gave { Gave R.given src.old src.new }
    ensures ok { IfOk result
        (λ digits. GaveNumber R.given (Digits K) src.old src.new (value digits)) }
    ensures width { IfOk result (λ digits. length digits ≡ K) }
    ensures bytes { IfOk result AreBytes }
    ensures refused { IfErr result
        (RefusedFor R.Source (NumberNotRead (RefusesDigits K)) src.old src.new) }
    ensures retried { OnOk result (OnlyInterrupted (R.counts src.old) (R.counts src.new)) }
{
    match read_digits(src) {
        Ok(digits) => Ok(digits),
        Err(error) => Err(error),
    }
}

// The K bytes of a length that the bytes begin with, and the rest of them.
#[inline(always)]
fn split_field<const K: usize>(bytes: &[u8]) -> Result<([u8; K], &[u8]), Error>
    ensures ok { IfOk result
        (λ found. BeginsNumber (Digits K) bytes.now (value found.0) found.1.now) }
    ensures width { IfOk result (λ found. length found.0 ≡ K) }
    ensures bytes { IfOk result (λ found. AreBytes found.0) }
    ensures err { IfErr result (RefusesDigits K bytes.now) }
{
    match split_digits(bytes) {
        Ok(found) => Ok(found),
        Err(error) => Err(error),
    }
}
