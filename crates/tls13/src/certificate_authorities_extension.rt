//! [`CertificateAuthoritiesExtension`].
ghost use Rattle.std.specs.Prelude.{◌≡◌};
ghost use Rattle.tls13.specs.CertificateAuthoritiesExtension.{certificate_authorities_extension_format, certificate_authorities_extension_meets, certificate_authorities_extension_plain};
ghost use Rattle.tls13.specs.declared.certificate_authorities_extension.CertificateAuthoritiesExtension.{CertificateAuthoritiesExtension};

use crate::DistinguishedName;
use std::alloc::Global;
use tls_codec::{
    Deserialize, DeserializeBytes, Error, Serialize, Sink, Size, Source, TlsVec, Within,
};
use tls_codec_cases::append_as;
use tls_codec_validate::{Rejected, Validate};
use tls_codec_views::{Encoded, Parted};

/// `CertificateAuthoritiesExtension` (RFC 8446, appendix B.3.2).
#[derive(PartialEq, Eq, Debug, Clone, Drop)]
pub struct CertificateAuthoritiesExtension {
    /// `DistinguishedName authorities<3..2^16-1>;`
    pub authorities: TlsVec<Within<u16, 3, 65535>, DistinguishedName>,
}

type Parts = TlsVec<Within<u16, 3, 65535>, DistinguishedName>;

impl Size for CertificateAuthoritiesExtension {
    ghost plain = { certificate_authorities_extension_plain };

    ghost format = { certificate_authorities_extension_format };

    fn tls_serialized_len(&self) -> usize {
        self.authorities.tls_serialized_len()
    }

    ghost lawful = { certificate_authorities_extension_meets };
}

impl Serialize for CertificateAuthoritiesExtension {
    fn tls_serialize<W: Sink>(&self, writer: &mut W) -> Result<usize, Error> {
        self.authorities.tls_serialize(writer)
    }

    fn tls_serialize_into(&self, out: &mut Vec<u8>) -> Result<usize, Error> {
        append_as(self, &self.authorities, out)
    }
}

impl Deserialize for CertificateAuthoritiesExtension {
    ghost names = { ⟦<Parts as Deserialize>⟧.names };

    fn tls_deserialize<R: Source>(
        alloc: Global,
        src: &mut R,
    ) -> Result<CertificateAuthoritiesExtension, Error> {
        let authorities = <Parts>::tls_deserialize(alloc, src)?;
        Ok(CertificateAuthoritiesExtension { authorities })
    }
}

impl DeserializeBytes for CertificateAuthoritiesExtension {
    ghost names = { ⟦<Parts as DeserializeBytes>⟧.names };

    fn tls_deserialize_bytes(
        alloc: Global,
        whole: &[u8],
    ) -> Result<(CertificateAuthoritiesExtension, &[u8]), Error> {
        let (authorities, rest) = <Parts>::tls_deserialize_bytes(alloc, whole)?;
        Ok((CertificateAuthoritiesExtension { authorities }, rest))
    }
}

impl Validate for CertificateAuthoritiesExtension {
    ghost places = { ⟦<Parts as Validate>⟧.places };

    fn tls_validate_prefix(whole: &[u8]) -> Result<&[u8], Rejected<'_>> {
        <Parts>::tls_validate_prefix(whole)
    }

    fn tls_width() -> Option<usize> {
        <Parts>::tls_width()
    }
}

impl Parted for CertificateAuthoritiesExtension {
    type Parts = Parts;

    ghost as_parts = { λ bytes is. is };
}

/// The encoding of a [`CertificateAuthoritiesExtension`], split into its fields.
#[derive(Drop)]
pub struct CertificateAuthoritiesExtensionView<'a> {
    /// `DistinguishedName authorities<3..2^16-1>;`
    pub authorities: Encoded<'a, TlsVec<Within<u16, 3, 65535>, DistinguishedName>>,
}

impl<'a> From<Encoded<'a, CertificateAuthoritiesExtension>>
    for CertificateAuthoritiesExtensionView<'a> {
    ghost from_gives = { λ whole view. whole ≡ view.authorities };

    fn from(
        whole: Encoded<'a, CertificateAuthoritiesExtension>,
    ) -> CertificateAuthoritiesExtensionView<'a> {
        let authorities = whole.parts();
        CertificateAuthoritiesExtensionView { authorities }
    }
}

/// Two values are equal if and only if all their fields are equal.
pub fn is_compared_by_its_fields()
    ensures { (x y : CertificateAuthoritiesExtension) →
        ⟦<CertificateAuthoritiesExtension as PartialEq>⟧.eq x y
        ≡ ⟦<TlsVec<Within<u16, 3, 65535>, DistinguishedName> as PartialEq>⟧.eq x.authorities
        y.authorities }
{}
