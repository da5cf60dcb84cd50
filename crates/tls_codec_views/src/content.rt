//! Byte vectors and texts: their bytes, without a copy.
ghost use Rattle.std.specs.Prelude.{◌≡◌, ℕ, List};
ghost use Rattle.tls_codec_grammar.specs.Field.{variable_field};
ghost use Rattle.tls_codec_views.specs.Views.{IsAfterLength};

use crate::encoded::Encoded;
use tls_codec_base::LengthField;
use tls_codec_bytes::TlsByteVec;
use tls_codec_vl::{SecretVarBytes, VarBytes};
use tls_codec_wire::TlsVarInt;

/// What comes after a length. It is known that the length counts all of it.
pub(crate) fn after_length<F: LengthField>(bytes: &[u8]) -> &[u8]
    requires { (inside : List ℕ) × IsAfterLength F.field bytes.now inside }
    ensures { IsAfterLength F.field bytes.now result.now }
{
    match F::split_length(bytes) {
        Ok((_, inside)) => inside,
        Err(_) => unreachable!(),
    }
}

impl<'a, N> Encoded<'a, VarBytes<N>> {
    /// The bytes of the vector.
    pub fn content(&self) -> &'a [u8]
        ensures { IsAfterLength variable_field self.now result.now }
    {
        after_length::<TlsVarInt>(self.bytes)
    }
}

impl<'a, N> Encoded<'a, SecretVarBytes<N>> {
    /// The bytes of the vector.
    pub fn content(&self) -> &'a [u8]
        ensures { IsAfterLength variable_field self.now result.now }
    {
        after_length::<TlsVarInt>(self.bytes)
    }
}

impl<'a, F: LengthField> Encoded<'a, TlsByteVec<F>> {
    /// The bytes of the vector.
    pub fn content(&self) -> &'a [u8]
        ensures { IsAfterLength F.field self.now result.now }
    {
        after_length::<F>(self.bytes)
    }
}

impl<'a> Encoded<'a, String> {
    /// The text.
    pub fn as_str(&self) -> &'a str
        ensures { IsAfterLength variable_field self.now result.now }
    {
        match std::str::from_utf8(after_length::<TlsVarInt>(self.bytes)) {
            Ok(text) => text,
            Err(_) => unreachable!(),
        }
    }
}
