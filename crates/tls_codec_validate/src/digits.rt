//! A given number of bytes, whichever they are.
ghost use Rattle.std.specs.Prelude.{IfErr};
ghost use Rattle.tls_codec_grammar.specs.Format.{array_format, number_format};
ghost use Rattle.tls_codec_base.specs.Meanings.{too_few};
ghost use Rattle.tls_codec_validate.specs.Places.{RejectedAt, here};
ghost use Rattle.tls_codec_validate.specs.Validated.{Validates};

use crate::rejected::Rejected;
use tls_codec_grammar::opaque::see_bytes;
use tls_codec_wire::Error;

/// What is left after `count` bytes: a number, and bytes that are encoded as they are.
#[inline(always)]
pub(crate) fn skip(bytes: &[u8], count: usize) -> Result<&[u8], Rejected<'_>>
    ensures number { Validates (number_format count) bytes.now result }
    ensures array { Validates (array_format count) bytes.now result }
    ensures rejected { IfErr result (RejectedAt (too_few count) (here (too_few count)) bytes.now) }
{
    if bytes.len() < count {
        return Err(Rejected {
            error: Error::EndOfStream,
            rest: bytes,
        });
    }
    let (digits, rest) = bytes.split_at(count);
    see_bytes(digits);
    Ok(rest)
}
