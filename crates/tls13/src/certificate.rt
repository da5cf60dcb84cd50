//! [`Certificate`].
ghost use Rattle.std.specs.Prelude.{◌≡◌, ◌&&◌, ◌++◌};
ghost use Rattle.tls13.specs.Certificate.{certificate_format, certificate_meets, certificate_plain};
ghost use Rattle.tls13.specs.declared.certificate.Certificate.{Certificate};

use crate::CertificateEntry;
use std::alloc::Global;
use tls_codec::{
    ByRef, Deserialize, DeserializeBytes, Error, Serialize, Sink, Size, Source, TlsByteVecU8,
    TlsVecU24,
};
use tls_codec_cases::append_as;
use tls_codec_validate::{Rejected, Validate};
use tls_codec_views::{Encoded, Parted};

/// `Certificate` (RFC 8446, appendix B.3.3).
#[derive(PartialEq, Eq, Debug, Clone, Drop)]
pub struct Certificate {
    /// `opaque certificate_request_context<0..2^8-1>;`
    pub certificate_request_context: TlsByteVecU8,
    /// `CertificateEntry certificate_list<0..2^24-1>;`
    pub certificate_list: TlsVecU24<CertificateEntry>,
}

type Parts = (TlsByteVecU8, TlsVecU24<CertificateEntry>);

impl Size for Certificate {
    ghost plain = { certificate_plain };

    ghost format = { certificate_format };

    fn tls_serialized_len(&self) -> usize {
        (
            ByRef(&self.certificate_request_context),
            ByRef(&self.certificate_list),
        )
            .tls_serialized_len()
    }

    ghost lawful = { certificate_meets };
}

impl Serialize for Certificate {
    fn tls_serialize<W: Sink>(&self, writer: &mut W) -> Result<usize, Error> {
        (
            ByRef(&self.certificate_request_context),
            ByRef(&self.certificate_list),
        )
            .tls_serialize(writer)
    }

    fn tls_serialize_into(&self, out: &mut Vec<u8>) -> Result<usize, Error> {
        append_as(
            self,
            &(
                ByRef(&self.certificate_request_context),
                ByRef(&self.certificate_list),
            ),
            out,
        )
    }
}

impl Deserialize for Certificate {
    ghost names = { ⟦<Parts as Deserialize>⟧.names };

    fn tls_deserialize<R: Source>(alloc: Global, src: &mut R) -> Result<Certificate, Error> {
        let (certificate_request_context, certificate_list) = <Parts>::tls_deserialize(alloc, src)?;
        Ok(Certificate {
            certificate_request_context,
            certificate_list,
        })
    }
}

impl DeserializeBytes for Certificate {
    ghost names = { ⟦<Parts as DeserializeBytes>⟧.names };

    fn tls_deserialize_bytes(alloc: Global, whole: &[u8]) -> Result<(Certificate, &[u8]), Error> {
        let ((certificate_request_context, certificate_list), rest) =
            <Parts>::tls_deserialize_bytes(alloc, whole)?;
        Ok((
            Certificate {
                certificate_request_context,
                certificate_list,
            },
            rest,
        ))
    }
}

impl Validate for Certificate {
    ghost places = { ⟦<Parts as Validate>⟧.places };

    fn tls_validate_prefix(whole: &[u8]) -> Result<&[u8], Rejected<'_>> {
        <Parts>::tls_validate_prefix(whole)
    }

    fn tls_width() -> Option<usize> {
        <Parts>::tls_width()
    }
}

impl Parted for Certificate {
    type Parts = Parts;

    ghost as_parts = { λ bytes is. is };
}

/// The encoding of a [`Certificate`], split into its fields.
#[derive(Drop)]
pub struct CertificateView<'a> {
    /// `opaque certificate_request_context<0..2^8-1>;`
    pub certificate_request_context: Encoded<'a, TlsByteVecU8>,
    /// `CertificateEntry certificate_list<0..2^24-1>;`
    pub certificate_list: Encoded<'a, TlsVecU24<CertificateEntry>>,
}

impl<'a> From<Encoded<'a, Certificate>> for CertificateView<'a> {
    ghost from_gives = { λ whole view. whole ≡ (view.certificate_request_context ++
        view.certificate_list) };

    fn from(whole: Encoded<'a, Certificate>) -> CertificateView<'a> {
        let (certificate_request_context, certificate_list) = whole.parts().split();
        CertificateView {
            certificate_request_context,
            certificate_list,
        }
    }
}

/// Two values are equal if and only if all their fields are equal.
pub fn is_compared_by_its_fields()
    ensures { (x y : Certificate) →
        ⟦<Certificate as PartialEq>⟧.eq x y
        ≡ (⟦<TlsByteVecU8 as PartialEq>⟧.eq x.certificate_request_context
        y.certificate_request_context
        && ⟦<TlsVecU24<CertificateEntry> as PartialEq>⟧.eq x.certificate_list y.certificate_list) }
{}
