//! A variable-length integer of at most 30 bits as a length (RFC 9420, section 2.1.2).
ghost use Rattle.tls_codec_grammar.specs.Field.{variable_field};
ghost use Rattle.tls_codec_grammar.specs.laws.FormatLaws.{variable_field_meets};

use super::LengthField;
use tls_codec_wire::{Error, Source, TlsVarInt, vlen};

const NOT_THERE: Error = Error::DecodingError("declared content is not there");

impl LengthField for TlsVarInt {
    ghost field = { variable_field };

    /// It is 0 if the length passes the greatest one.
    fn width(length: usize) -> usize {
        vlen::length_width(length)
    }

    #[inline(always)]
    fn form(length: usize) -> Option<([u8; 8], usize)> {
        vlen::length_form(length)
    }

    #[inline(always)]
    fn read_length<R: Source>(src: &mut R) -> Result<usize, Error> {
        let (length, _) = vlen::read_length(src)?;
        Ok(length)
    }

    #[inline(always)]
    fn split_length(bytes: &[u8]) -> Result<(usize, &[u8]), Error> {
        vlen::split_length(bytes)
    }

    fn cut_off() -> Error {
        NOT_THERE
    }

    ghost lawful = { variable_field_meets };
}
