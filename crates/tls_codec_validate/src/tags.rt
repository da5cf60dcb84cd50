//! The tag that bytes begin with, for enums of your own (RFC 8446, section 3.8).
ghost use Rattle.std.specs.Prelude.{IfErr};
ghost use Rattle.tls_codec_base.specs.Meanings.{too_few};
ghost use Rattle.tls_codec_validate.specs.Places.{RejectedAt, here};
ghost use Rattle.tls_codec_validate.specs.Validated.{FindsTag};

use crate::rejected::{Rejected, or_rejected};
use tls_codec_grammar::digits::split_digits;

/// A tag of one byte, and what comes after it.
///
/// `EndOfStream`: there is no byte.
#[inline(always)]
pub fn split_u8(bytes: &[u8]) -> Result<(u8, &[u8]), Rejected<'_>>
    ensures finds { FindsTag 1 bytes.now result }
    ensures rejected { IfErr result (RejectedAt (too_few 1) (here (too_few 1)) bytes.now) }
{
    let (digits, rest) = or_rejected(split_digits(bytes), bytes)?;
    Ok((u8::from_be_bytes(digits), rest))
}

/// A tag of two bytes, and what comes after it.
///
/// `EndOfStream`: there are fewer than two bytes.
#[inline(always)]
pub fn split_u16(bytes: &[u8]) -> Result<(u16, &[u8]), Rejected<'_>>
    ensures finds { FindsTag 2 bytes.now result }
    ensures rejected { IfErr result (RejectedAt (too_few 2) (here (too_few 2)) bytes.now) }
{
    let (digits, rest) = or_rejected(split_digits(bytes), bytes)?;
    Ok((u16::from_be_bytes(digits), rest))
}

/// A tag of four bytes, and what comes after it.
///
/// `EndOfStream`: there are fewer than four bytes.
#[inline(always)]
pub fn split_u32(bytes: &[u8]) -> Result<(u32, &[u8]), Rejected<'_>>
    ensures finds { FindsTag 4 bytes.now result }
    ensures rejected { IfErr result (RejectedAt (too_few 4) (here (too_few 4)) bytes.now) }
{
    let (digits, rest) = or_rejected(split_digits(bytes), bytes)?;
    Ok((u32::from_be_bytes(digits), rest))
}

/// A tag of eight bytes, and what comes after it.
///
/// `EndOfStream`: there are fewer than eight bytes.
#[inline(always)]
pub fn split_u64(bytes: &[u8]) -> Result<(u64, &[u8]), Rejected<'_>>
    ensures finds { FindsTag 8 bytes.now result }
    ensures rejected { IfErr result (RejectedAt (too_few 8) (here (too_few 8)) bytes.now) }
{
    let (digits, rest) = or_rejected(split_digits(bytes), bytes)?;
    Ok((u64::from_be_bytes(digits), rest))
}
