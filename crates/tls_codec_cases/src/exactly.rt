//! [`Exactly`], the length of a list that has a fixed number of bytes (RFC 8446, section 3.4).
ghost use Rattle.std.proofs.Common.{arith};
ghost use Rattle.tls_codec_cases.specs.Exactly.{exactly_field, exactly_field_meets};

use tls_codec_grammar::length_field::LengthField;
use tls_codec_wire::{Error, Source};

/// A length field of no bytes: each content has `COUNT` bytes. `TlsVec<Exactly<9>, Datum>` is that of
/// `Datum data[9]` (RFC 8446, section 3.4), which counts bytes and not elements.
///
/// To encoders any other number of bytes is `InvalidVectorLength`, before anything is sent.
///
/// ```rust
/// assert_eq!(rt; Exactly::<9>::split_length(&[1, 2]), Ok((9, [1u8, 2].as_slice())));
/// assert!(Exactly::<9>::form(8).is_none());
/// ```
pub struct Exactly<const COUNT: u32>;

impl<const COUNT: u32> LengthField for Exactly<COUNT> {
    ghost field = { exactly_field COUNT };

    fn width(_length: usize) -> usize {
        0
    }

    #[inline(always)]
    fn form(length: usize) -> Option<([u8; 8], usize)> {
        if length != COUNT as usize {
            return None;
        }
        Some(([0; 8], 8))
    }

    #[inline(always)]
    fn read_length<R: Source>(_src: &mut R) -> Result<usize, Error> {
        Ok(COUNT as usize)
    }

    #[inline(always)]
    fn split_length(bytes: &[u8]) -> Result<(usize, &[u8]), Error> {
        Ok((COUNT as usize, bytes))
    }

    fn cut_off() -> Error {
        Error::EndOfStream
    }

    ghost lawful = { exactly_field_meets COUNT (Prim.omega arith) };
}
