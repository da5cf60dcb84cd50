//! Lengths with bounds, as of `opaque cookie<1..2^16-1>` (RFC 8446, section 3.4).
ghost use Rattle.std.specs.Prelude.{◌<◌, ◌⊎◌, IsFalse, IsTrue};
ghost use Rattle.tls_codec_grammar.specs.Field.{IsBetween, bounded_field};
ghost use Rattle.tls_codec_grammar.specs.laws.FormatLaws.{bounded_field_meets};

use super::LengthField;
use std::marker::PhantomData;
use tls_codec_wire::{Error, Source};

/// A length field whose lengths are bytes from `LEAST` to `MOST`: `Within<u16, 2, 65534>` is that of
/// `CipherSuite cipher_suites<2..2^16-2>` (RFC 8446, section 3.4).
///
/// A length outside of the bounds is `InvalidVectorLength`: to decoders once the length is read, before
/// any byte after it; to encoders before anything is sent.
///
/// ```rust
/// let mut src = [0u8, 1].as_slice();
/// assert_eq!(rt; Within::<u16, 2, 65534>::read_length(&mut src), Err(Error::InvalidVectorLength));
/// ```
pub struct Within<F, const LEAST: usize, const MOST: usize> {
    field: PhantomData<F>,
}

impl<F: LengthField, const LEAST: usize, const MOST: usize> LengthField for Within<F, LEAST, MOST> {
    ghost field = { bounded_field LEAST MOST F.field };

    fn width(length: usize) -> usize {
        F::width(length)
    }

    #[inline(always)]
    fn form(length: usize) -> Option<([u8; 8], usize)> {
        if !is_between::<LEAST, MOST>(length) {
            return None;
        }
        F::form(length)
    }

    #[inline(always)]
    fn read_length<R: Source>(src: &mut R) -> Result<usize, Error> {
        let length = F::read_length(src)?;
        if !is_between::<LEAST, MOST>(length) {
            return Err(Error::InvalidVectorLength);
        }
        Ok(length)
    }

    #[inline(always)]
    fn split_length(bytes: &[u8]) -> Result<(usize, &[u8]), Error> {
        let (length, rest) = F::split_length(bytes)?;
        if !is_between::<LEAST, MOST>(length) {
            return Err(Error::InvalidVectorLength);
        }
        Ok((length, rest))
    }

    fn cut_off() -> Error {
        F::cut_off()
    }

    ghost lawful = { bounded_field_meets LEAST MOST F.lawful };
}

#[inline(always)]
fn is_between<const LEAST: usize, const MOST: usize>(length: usize) -> bool
    ensures inside { IsTrue result → IsBetween LEAST MOST length }
    ensures outside { IsFalse result → (length < LEAST) ⊎ (MOST < length) }
{
    LEAST <= length && length <= MOST
}
