//! Bytes after a length field, whatever the field.
ghost use Rattle.std.specs.Prelude.{IfErr};
ghost use Rattle.tls_codec_grammar.specs.Format.{counted_bytes_format};
ghost use Rattle.tls_codec_grammar.specs.Opaque.{OpaqueCopyRefused};
ghost use Rattle.tls_codec_validate.specs.Places.{RejectedAt, here};
ghost use Rattle.tls_codec_validate.specs.Validated.{Validates};

use crate::rejected::Rejected;
use crate::traits::Validate;
use tls_codec_base::{DeserializeBytes, LengthField, opaque};
use tls_codec_bytes::TlsByteVec;
use tls_codec_vl::{SecretVarBytes, VarBytes};
use tls_codec_wire::TlsVarInt;

// What is left after a length and the bytes that it counts. Those bytes aren't checked.
#[inline(always)]
fn skip_bytes<F: LengthField>(bytes: &[u8]) -> Result<&[u8], Rejected<'_>>
    ensures validates { Validates (counted_bytes_format F.field) bytes.now result }
    ensures rejected { IfErr result
        (RejectedAt (OpaqueCopyRefused F.field) (here (OpaqueCopyRefused F.field)) bytes.now) }
{
    match opaque::split::<F>(bytes) {
        Ok((_content, rest)) => Ok(rest),
        Err(error) => Err(Rejected { error, rest: bytes }),
    }
}

impl<N> Validate for VarBytes<N> {
    ghost places = { here ⟦<VarBytes<N> as DeserializeBytes>⟧.names };

    #[inline(always)]
    fn tls_validate_prefix(bytes: &[u8]) -> Result<&[u8], Rejected<'_>> {
        skip_bytes::<TlsVarInt>(bytes)
    }
}

impl<N> Validate for SecretVarBytes<N> {
    ghost places = { here ⟦<SecretVarBytes<N> as DeserializeBytes>⟧.names };

    #[inline(always)]
    fn tls_validate_prefix(bytes: &[u8]) -> Result<&[u8], Rejected<'_>> {
        skip_bytes::<TlsVarInt>(bytes)
    }
}

impl<F: LengthField> Validate for TlsByteVec<F> {
    ghost places = { here ⟦<TlsByteVec<F> as DeserializeBytes>⟧.names };

    #[inline(always)]
    fn tls_validate_prefix(bytes: &[u8]) -> Result<&[u8], Rejected<'_>> {
        skip_bytes::<F>(bytes)
    }
}
