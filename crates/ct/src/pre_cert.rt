//! [`PreCert`].
ghost use Rattle.std.specs.Prelude.{◌≡◌, ◌&&◌, ◌++◌};
ghost use Rattle.ct.specs.PreCert.{pre_cert_format, pre_cert_meets, pre_cert_plain};
ghost use Rattle.ct.specs.declared.pre_cert.PreCert.{PreCert};

use crate::TBSCertificate;
use std::alloc::Global;
use tls_codec::{ByRef, Deserialize, DeserializeBytes, Error, Serialize, Sink, Size, Source};
use tls_codec_cases::append_as;
use tls_codec_validate::{Rejected, Validate};
use tls_codec_views::{Encoded, Parted};

/// `PreCert` (RFC 6962, section 3.2).
#[derive(PartialEq, Eq, Debug, Clone, Drop)]
pub struct PreCert {
    /// `opaque issuer_key_hash[32];`
    pub issuer_key_hash: [u8; 32],
    /// `TBSCertificate tbs_certificate;`
    pub tbs_certificate: TBSCertificate,
}

type Parts = ([u8; 32], TBSCertificate);

impl Size for PreCert {
    ghost plain = { pre_cert_plain };

    ghost format = { pre_cert_format };

    fn tls_serialized_len(&self) -> usize {
        (ByRef(&self.issuer_key_hash), ByRef(&self.tbs_certificate)).tls_serialized_len()
    }

    ghost lawful = { pre_cert_meets };
}

impl Serialize for PreCert {
    fn tls_serialize<W: Sink>(&self, writer: &mut W) -> Result<usize, Error> {
        (ByRef(&self.issuer_key_hash), ByRef(&self.tbs_certificate)).tls_serialize(writer)
    }

    fn tls_serialize_into(&self, out: &mut Vec<u8>) -> Result<usize, Error> {
        append_as(
            self,
            &(ByRef(&self.issuer_key_hash), ByRef(&self.tbs_certificate)),
            out,
        )
    }
}

impl Deserialize for PreCert {
    ghost names = { ⟦<Parts as Deserialize>⟧.names };

    fn tls_deserialize<R: Source>(alloc: Global, src: &mut R) -> Result<PreCert, Error> {
        let (issuer_key_hash, tbs_certificate) = <Parts>::tls_deserialize(alloc, src)?;
        Ok(PreCert {
            issuer_key_hash,
            tbs_certificate,
        })
    }
}

impl DeserializeBytes for PreCert {
    ghost names = { ⟦<Parts as DeserializeBytes>⟧.names };

    fn tls_deserialize_bytes(alloc: Global, whole: &[u8]) -> Result<(PreCert, &[u8]), Error> {
        let ((issuer_key_hash, tbs_certificate), rest) = <Parts>::tls_deserialize_bytes(
            alloc, whole,
        )?;
        Ok((
            PreCert {
                issuer_key_hash,
                tbs_certificate,
            },
            rest,
        ))
    }
}

impl Validate for PreCert {
    ghost places = { ⟦<Parts as Validate>⟧.places };

    fn tls_validate_prefix(whole: &[u8]) -> Result<&[u8], Rejected<'_>> {
        <Parts>::tls_validate_prefix(whole)
    }

    fn tls_width() -> Option<usize> {
        <Parts>::tls_width()
    }
}

impl Parted for PreCert {
    type Parts = Parts;

    ghost as_parts = { λ bytes is. is };
}

/// The encoding of a [`PreCert`], split into its fields.
#[derive(Drop)]
pub struct PreCertView<'a> {
    /// `opaque issuer_key_hash[32];`
    pub issuer_key_hash: Encoded<'a, [u8; 32]>,
    /// `TBSCertificate tbs_certificate;`
    pub tbs_certificate: Encoded<'a, TBSCertificate>,
}

impl<'a> From<Encoded<'a, PreCert>> for PreCertView<'a> {
    ghost from_gives = { λ whole view. whole ≡ (view.issuer_key_hash ++ view.tbs_certificate) };

    fn from(whole: Encoded<'a, PreCert>) -> PreCertView<'a> {
        let (issuer_key_hash, tbs_certificate) = whole.parts().split();
        PreCertView {
            issuer_key_hash,
            tbs_certificate,
        }
    }
}

/// Two values are equal if and only if all their fields are equal.
pub fn is_compared_by_its_fields()
    ensures { (x y : PreCert) →
        ⟦<PreCert as PartialEq>⟧.eq x y
        ≡ (⟦<[u8; 32] as PartialEq>⟧.eq x.issuer_key_hash y.issuer_key_hash
        && ⟦<TBSCertificate as PartialEq>⟧.eq x.tbs_certificate y.tbs_certificate) }
{}
