//! [`EncryptedExtensions`].
ghost use Rattle.std.specs.Prelude.{◌≡◌};
ghost use Rattle.tls13.specs.EncryptedExtensions.{encrypted_extensions_format, encrypted_extensions_meets, encrypted_extensions_plain};
ghost use Rattle.tls13.specs.declared.encrypted_extensions.EncryptedExtensions.{EncryptedExtensions};

use crate::Extension;
use std::alloc::Global;
use tls_codec::{Deserialize, DeserializeBytes, Error, Serialize, Sink, Size, Source, TlsVecU16};
use tls_codec_cases::append_as;
use tls_codec_validate::{Rejected, Validate};
use tls_codec_views::{Encoded, Parted};

/// `EncryptedExtensions` (RFC 8446, appendix B.3.2).
#[derive(PartialEq, Eq, Debug, Clone, Drop)]
pub struct EncryptedExtensions {
    /// `Extension extensions<0..2^16-1>;`
    pub extensions: TlsVecU16<Extension>,
}

impl Size for EncryptedExtensions {
    ghost plain = { encrypted_extensions_plain };

    ghost format = { encrypted_extensions_format };

    fn tls_serialized_len(&self) -> usize {
        self.extensions.tls_serialized_len()
    }

    ghost lawful = { encrypted_extensions_meets };
}

impl Serialize for EncryptedExtensions {
    fn tls_serialize<W: Sink>(&self, writer: &mut W) -> Result<usize, Error> {
        self.extensions.tls_serialize(writer)
    }

    fn tls_serialize_into(&self, out: &mut Vec<u8>) -> Result<usize, Error> {
        append_as(self, &self.extensions, out)
    }
}

impl Deserialize for EncryptedExtensions {
    ghost names = { ⟦<TlsVecU16<Extension> as Deserialize>⟧.names };

    fn tls_deserialize<R: Source>(
        alloc: Global,
        src: &mut R,
    ) -> Result<EncryptedExtensions, Error> {
        let extensions = <TlsVecU16<Extension>>::tls_deserialize(alloc, src)?;
        Ok(EncryptedExtensions { extensions })
    }
}

impl DeserializeBytes for EncryptedExtensions {
    ghost names = { ⟦<TlsVecU16<Extension> as DeserializeBytes>⟧.names };

    fn tls_deserialize_bytes(
        alloc: Global,
        whole: &[u8],
    ) -> Result<(EncryptedExtensions, &[u8]), Error> {
        let (extensions, rest) = <TlsVecU16<Extension>>::tls_deserialize_bytes(alloc, whole)?;
        Ok((EncryptedExtensions { extensions }, rest))
    }
}

impl Validate for EncryptedExtensions {
    ghost places = { ⟦<TlsVecU16<Extension> as Validate>⟧.places };

    fn tls_validate_prefix(whole: &[u8]) -> Result<&[u8], Rejected<'_>> {
        <TlsVecU16<Extension>>::tls_validate_prefix(whole)
    }

    fn tls_width() -> Option<usize> {
        <TlsVecU16<Extension>>::tls_width()
    }
}

impl Parted for EncryptedExtensions {
    type Parts = Box<TlsVecU16<Extension>>;

    ghost as_parts = { λ bytes is. is };
}

/// The encoding of a [`EncryptedExtensions`], split into its fields.
#[derive(Drop)]
pub struct EncryptedExtensionsView<'a> {
    /// `Extension extensions<0..2^16-1>;`
    pub extensions: Encoded<'a, TlsVecU16<Extension>>,
}

impl<'a> From<Encoded<'a, EncryptedExtensions>> for EncryptedExtensionsView<'a> {
    ghost from_gives = { λ whole view. whole ≡ view.extensions };

    fn from(whole: Encoded<'a, EncryptedExtensions>) -> EncryptedExtensionsView<'a> {
        let extensions = whole.parts().payload();
        EncryptedExtensionsView { extensions }
    }
}

/// Two values are equal if and only if all their fields are equal.
pub fn is_compared_by_its_fields()
    ensures { (x y : EncryptedExtensions) →
        ⟦<EncryptedExtensions as PartialEq>⟧.eq x y
        ≡ ⟦<TlsVecU16<Extension> as PartialEq>⟧.eq x.extensions y.extensions }
{}
