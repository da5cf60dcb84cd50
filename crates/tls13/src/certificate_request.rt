//! [`CertificateRequest`].
ghost use Rattle.std.specs.Prelude.{◌≡◌, ◌&&◌, ◌++◌};
ghost use Rattle.tls13.specs.CertificateRequest.{certificate_request_format, certificate_request_meets, certificate_request_plain};
ghost use Rattle.tls13.specs.declared.certificate_request.CertificateRequest.{CertificateRequest};

use crate::Extension;
use std::alloc::Global;
use tls_codec::{
    ByRef, Deserialize, DeserializeBytes, Error, Serialize, Sink, Size, Source, TlsByteVecU8,
    TlsVec, Within,
};
use tls_codec_cases::append_as;
use tls_codec_validate::{Rejected, Validate};
use tls_codec_views::{Encoded, Parted};

/// `CertificateRequest` (RFC 8446, appendix B.3.2).
#[derive(PartialEq, Eq, Debug, Clone, Drop)]
pub struct CertificateRequest {
    /// `opaque certificate_request_context<0..2^8-1>;`
    pub certificate_request_context: TlsByteVecU8,
    /// `Extension extensions<2..2^16-1>;`
    pub extensions: TlsVec<Within<u16, 2, 65535>, Extension>,
}

type Parts = (TlsByteVecU8, TlsVec<Within<u16, 2, 65535>, Extension>);

impl Size for CertificateRequest {
    ghost plain = { certificate_request_plain };

    ghost format = { certificate_request_format };

    fn tls_serialized_len(&self) -> usize {
        (
            ByRef(&self.certificate_request_context),
            ByRef(&self.extensions),
        )
            .tls_serialized_len()
    }

    ghost lawful = { certificate_request_meets };
}

impl Serialize for CertificateRequest {
    fn tls_serialize<W: Sink>(&self, writer: &mut W) -> Result<usize, Error> {
        (
            ByRef(&self.certificate_request_context),
            ByRef(&self.extensions),
        )
            .tls_serialize(writer)
    }

    fn tls_serialize_into(&self, out: &mut Vec<u8>) -> Result<usize, Error> {
        append_as(
            self,
            &(
                ByRef(&self.certificate_request_context),
                ByRef(&self.extensions),
            ),
            out,
        )
    }
}

impl Deserialize for CertificateRequest {
    ghost names = { ⟦<Parts as Deserialize>⟧.names };

    fn tls_deserialize<R: Source>(alloc: Global, src: &mut R) -> Result<CertificateRequest, Error> {
        let (certificate_request_context, extensions) = <Parts>::tls_deserialize(alloc, src)?;
        Ok(CertificateRequest {
            certificate_request_context,
            extensions,
        })
    }
}

impl DeserializeBytes for CertificateRequest {
    ghost names = { ⟦<Parts as DeserializeBytes>⟧.names };

    fn tls_deserialize_bytes(
        alloc: Global,
        whole: &[u8],
    ) -> Result<(CertificateRequest, &[u8]), Error> {
        let ((certificate_request_context, extensions), rest) = <Parts>::tls_deserialize_bytes(
            alloc, whole,
        )?;
        Ok((
            CertificateRequest {
                certificate_request_context,
                extensions,
            },
            rest,
        ))
    }
}

impl Validate for CertificateRequest {
    ghost places = { ⟦<Parts as Validate>⟧.places };

    fn tls_validate_prefix(whole: &[u8]) -> Result<&[u8], Rejected<'_>> {
        <Parts>::tls_validate_prefix(whole)
    }

    fn tls_width() -> Option<usize> {
        <Parts>::tls_width()
    }
}

impl Parted for CertificateRequest {
    type Parts = Parts;

    ghost as_parts = { λ bytes is. is };
}

/// The encoding of a [`CertificateRequest`], split into its fields.
#[derive(Drop)]
pub struct CertificateRequestView<'a> {
    /// `opaque certificate_request_context<0..2^8-1>;`
    pub certificate_request_context: Encoded<'a, TlsByteVecU8>,
    /// `Extension extensions<2..2^16-1>;`
    pub extensions: Encoded<'a, TlsVec<Within<u16, 2, 65535>, Extension>>,
}

impl<'a> From<Encoded<'a, CertificateRequest>> for CertificateRequestView<'a> {
    ghost from_gives = { λ whole view. whole ≡ (view.certificate_request_context ++
        view.extensions) };

    fn from(whole: Encoded<'a, CertificateRequest>) -> CertificateRequestView<'a> {
        let (certificate_request_context, extensions) = whole.parts().split();
        CertificateRequestView {
            certificate_request_context,
            extensions,
        }
    }
}

/// Two values are equal if and only if all their fields are equal.
pub fn is_compared_by_its_fields()
    ensures { (x y : CertificateRequest) →
        ⟦<CertificateRequest as PartialEq>⟧.eq x y
        ≡ (⟦<TlsByteVecU8 as PartialEq>⟧.eq x.certificate_request_context
        y.certificate_request_context
        && ⟦<TlsVec<Within<u16, 2, 65535>, Extension> as PartialEq>⟧.eq x.extensions y.extensions) }
{}
