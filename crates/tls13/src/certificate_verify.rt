//! [`CertificateVerify`].
ghost use Rattle.std.specs.Prelude.{◌≡◌, ◌&&◌, ◌++◌};
ghost use Rattle.tls13.specs.CertificateVerify.{certificate_verify_format, certificate_verify_meets, certificate_verify_plain};
ghost use Rattle.tls13.specs.declared.certificate_verify.CertificateVerify.{CertificateVerify};

use crate::SignatureScheme;
use std::alloc::Global;
use tls_codec::{
    ByRef, Deserialize, DeserializeBytes, Error, Serialize, Sink, Size, Source, TlsByteVecU16,
};
use tls_codec_cases::append_as;
use tls_codec_validate::{Rejected, Validate};
use tls_codec_views::{Encoded, Parted};

/// `CertificateVerify` (RFC 8446, appendix B.3.3).
#[derive(PartialEq, Eq, Debug, Clone, Drop)]
pub struct CertificateVerify {
    /// `SignatureScheme algorithm;`
    pub algorithm: SignatureScheme,
    /// `opaque signature<0..2^16-1>;`
    pub signature: TlsByteVecU16,
}

type Parts = (SignatureScheme, TlsByteVecU16);

impl Size for CertificateVerify {
    ghost plain = { certificate_verify_plain };

    ghost format = { certificate_verify_format };

    fn tls_serialized_len(&self) -> usize {
        (ByRef(&self.algorithm), ByRef(&self.signature)).tls_serialized_len()
    }

    ghost lawful = { certificate_verify_meets };
}

impl Serialize for CertificateVerify {
    fn tls_serialize<W: Sink>(&self, writer: &mut W) -> Result<usize, Error> {
        (ByRef(&self.algorithm), ByRef(&self.signature)).tls_serialize(writer)
    }

    fn tls_serialize_into(&self, out: &mut Vec<u8>) -> Result<usize, Error> {
        append_as(self, &(ByRef(&self.algorithm), ByRef(&self.signature)), out)
    }
}

impl Deserialize for CertificateVerify {
    ghost names = { ⟦<Parts as Deserialize>⟧.names };

    fn tls_deserialize<R: Source>(alloc: Global, src: &mut R) -> Result<CertificateVerify, Error> {
        let (algorithm, signature) = <Parts>::tls_deserialize(alloc, src)?;
        Ok(CertificateVerify {
            algorithm,
            signature,
        })
    }
}

impl DeserializeBytes for CertificateVerify {
    ghost names = { ⟦<Parts as DeserializeBytes>⟧.names };

    fn tls_deserialize_bytes(
        alloc: Global,
        whole: &[u8],
    ) -> Result<(CertificateVerify, &[u8]), Error> {
        let ((algorithm, signature), rest) = <Parts>::tls_deserialize_bytes(alloc, whole)?;
        Ok((
            CertificateVerify {
                algorithm,
                signature,
            },
            rest,
        ))
    }
}

impl Validate for CertificateVerify {
    ghost places = { ⟦<Parts as Validate>⟧.places };

    fn tls_validate_prefix(whole: &[u8]) -> Result<&[u8], Rejected<'_>> {
        <Parts>::tls_validate_prefix(whole)
    }

    fn tls_width() -> Option<usize> {
        <Parts>::tls_width()
    }
}

impl Parted for CertificateVerify {
    type Parts = Parts;

    ghost as_parts = { λ bytes is. is };
}

/// The encoding of a [`CertificateVerify`], split into its fields.
#[derive(Drop)]
pub struct CertificateVerifyView<'a> {
    /// `SignatureScheme algorithm;`
    pub algorithm: Encoded<'a, SignatureScheme>,
    /// `opaque signature<0..2^16-1>;`
    pub signature: Encoded<'a, TlsByteVecU16>,
}

impl<'a> From<Encoded<'a, CertificateVerify>> for CertificateVerifyView<'a> {
    ghost from_gives = { λ whole view. whole ≡ (view.algorithm ++ view.signature) };

    fn from(whole: Encoded<'a, CertificateVerify>) -> CertificateVerifyView<'a> {
        let (algorithm, signature) = whole.parts().split();
        CertificateVerifyView {
            algorithm,
            signature,
        }
    }
}

/// Two values are equal if and only if all their fields are equal.
pub fn is_compared_by_its_fields()
    ensures { (x y : CertificateVerify) →
        ⟦<CertificateVerify as PartialEq>⟧.eq x y
        ≡ (⟦<SignatureScheme as PartialEq>⟧.eq x.algorithm y.algorithm
        && ⟦<TlsByteVecU16 as PartialEq>⟧.eq x.signature y.signature) }
{}
