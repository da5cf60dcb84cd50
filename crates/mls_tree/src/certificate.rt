//! [`Certificate`].
ghost use Rattle.std.specs.Prelude.{◌≡◌};
ghost use Rattle.mls_tree.specs.Certificate.{certificate_format, certificate_meets, certificate_plain};
ghost use Rattle.mls_tree.specs.declared.certificate.Certificate.{Certificate};

use std::alloc::Global;
use tls_codec::{Deserialize, DeserializeBytes, Error, Serialize, Sink, Size, Source, VLBytes};
use tls_codec_cases::append_as;
use tls_codec_validate::{Rejected, Validate};
use tls_codec_views::{Encoded, Parted};

/// `Certificate` (RFC 9420, section 5.3).
#[derive(PartialEq, Eq, Debug, Clone, Drop)]
pub struct Certificate {
    /// `opaque cert_data<V>;`
    pub cert_data: VLBytes,
}

impl Size for Certificate {
    ghost plain = { certificate_plain };

    ghost format = { certificate_format };

    fn tls_serialized_len(&self) -> usize {
        self.cert_data.tls_serialized_len()
    }

    ghost lawful = { certificate_meets };
}

impl Serialize for Certificate {
    fn tls_serialize<W: Sink>(&self, writer: &mut W) -> Result<usize, Error> {
        self.cert_data.tls_serialize(writer)
    }

    fn tls_serialize_into(&self, out: &mut Vec<u8>) -> Result<usize, Error> {
        append_as(self, &self.cert_data, out)
    }
}

impl Deserialize for Certificate {
    ghost names = { ⟦<VLBytes as Deserialize>⟧.names };

    fn tls_deserialize<R: Source>(alloc: Global, src: &mut R) -> Result<Certificate, Error> {
        let cert_data = VLBytes::tls_deserialize(alloc, src)?;
        Ok(Certificate { cert_data })
    }
}

impl DeserializeBytes for Certificate {
    ghost names = { ⟦<VLBytes as DeserializeBytes>⟧.names };

    fn tls_deserialize_bytes(alloc: Global, whole: &[u8]) -> Result<(Certificate, &[u8]), Error> {
        let (cert_data, rest) = VLBytes::tls_deserialize_bytes(alloc, whole)?;
        Ok((Certificate { cert_data }, rest))
    }
}

impl Validate for Certificate {
    ghost places = { ⟦<VLBytes as Validate>⟧.places };

    fn tls_validate_prefix(whole: &[u8]) -> Result<&[u8], Rejected<'_>> {
        VLBytes::tls_validate_prefix(whole)
    }

    fn tls_width() -> Option<usize> {
        VLBytes::tls_width()
    }
}

impl Parted for Certificate {
    type Parts = VLBytes;

    ghost as_parts = { λ bytes is. is };
}

/// The encoding of a [`Certificate`], split into its fields.
#[derive(Drop)]
pub struct CertificateView<'a> {
    /// `opaque cert_data<V>;`
    pub cert_data: Encoded<'a, VLBytes>,
}

impl<'a> From<Encoded<'a, Certificate>> for CertificateView<'a> {
    ghost from_gives = { λ whole view. whole ≡ view.cert_data };

    fn from(whole: Encoded<'a, Certificate>) -> CertificateView<'a> {
        let cert_data = whole.parts();
        CertificateView { cert_data }
    }
}

/// Two values are equal if and only if all their fields are equal.
pub fn is_compared_by_its_fields()
    ensures { (x y : Certificate) →
        ⟦<Certificate as PartialEq>⟧.eq x y
        ≡ ⟦<VLBytes as PartialEq>⟧.eq x.cert_data y.cert_data }
{}
