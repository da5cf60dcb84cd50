//! [`X509ChainEntry`].
ghost use Rattle.std.specs.Prelude.{◌≡◌, ◌&&◌, ◌++◌};
ghost use Rattle.ct.specs.X509ChainEntry.{x509_chain_entry_format, x509_chain_entry_meets, x509_chain_entry_plain};
ghost use Rattle.ct.specs.declared.x509_chain_entry.X509ChainEntry.{X509ChainEntry};

use crate::ASN1Cert;
use std::alloc::Global;
use tls_codec::{
    ByRef, Deserialize, DeserializeBytes, Error, Serialize, Sink, Size, Source, TlsVecU24,
};
use tls_codec_cases::append_as;
use tls_codec_validate::{Rejected, Validate};
use tls_codec_views::{Encoded, Parted};

/// `X509ChainEntry` (RFC 6962, section 3.1).
#[derive(PartialEq, Eq, Debug, Clone, Drop)]
pub struct X509ChainEntry {
    /// `ASN.1Cert leaf_certificate;`
    pub leaf_certificate: ASN1Cert,
    /// `ASN.1Cert certificate_chain<0..2^24-1>;`
    pub certificate_chain: TlsVecU24<ASN1Cert>,
}

type Parts = (ASN1Cert, TlsVecU24<ASN1Cert>);

impl Size for X509ChainEntry {
    ghost plain = { x509_chain_entry_plain };

    ghost format = { x509_chain_entry_format };

    fn tls_serialized_len(&self) -> usize {
        (
            ByRef(&self.leaf_certificate),
            ByRef(&self.certificate_chain),
        )
            .tls_serialized_len()
    }

    ghost lawful = { x509_chain_entry_meets };
}

impl Serialize for X509ChainEntry {
    fn tls_serialize<W: Sink>(&self, writer: &mut W) -> Result<usize, Error> {
        (
            ByRef(&self.leaf_certificate),
            ByRef(&self.certificate_chain),
        )
            .tls_serialize(writer)
    }

    fn tls_serialize_into(&self, out: &mut Vec<u8>) -> Result<usize, Error> {
        append_as(
            self,
            &(
                ByRef(&self.leaf_certificate),
                ByRef(&self.certificate_chain),
            ),
            out,
        )
    }
}

impl Deserialize for X509ChainEntry {
    ghost names = { ⟦<Parts as Deserialize>⟧.names };

    fn tls_deserialize<R: Source>(alloc: Global, src: &mut R) -> Result<X509ChainEntry, Error> {
        let (leaf_certificate, certificate_chain) = <Parts>::tls_deserialize(alloc, src)?;
        Ok(X509ChainEntry {
            leaf_certificate,
            certificate_chain,
        })
    }
}

impl DeserializeBytes for X509ChainEntry {
    ghost names = { ⟦<Parts as DeserializeBytes>⟧.names };

    fn tls_deserialize_bytes(
        alloc: Global,
        whole: &[u8],
    ) -> Result<(X509ChainEntry, &[u8]), Error> {
        let ((leaf_certificate, certificate_chain), rest) = <Parts>::tls_deserialize_bytes(
            alloc, whole,
        )?;
        Ok((
            X509ChainEntry {
                leaf_certificate,
                certificate_chain,
            },
            rest,
        ))
    }
}

impl Validate for X509ChainEntry {
    ghost places = { ⟦<Parts as Validate>⟧.places };

    fn tls_validate_prefix(whole: &[u8]) -> Result<&[u8], Rejected<'_>> {
        <Parts>::tls_validate_prefix(whole)
    }

    fn tls_width() -> Option<usize> {
        <Parts>::tls_width()
    }
}

impl Parted for X509ChainEntry {
    type Parts = Parts;

    ghost as_parts = { λ bytes is. is };
}

/// The encoding of a [`X509ChainEntry`], split into its fields.
#[derive(Drop)]
pub struct X509ChainEntryView<'a> {
    /// `ASN.1Cert leaf_certificate;`
    pub leaf_certificate: Encoded<'a, ASN1Cert>,
    /// `ASN.1Cert certificate_chain<0..2^24-1>;`
    pub certificate_chain: Encoded<'a, TlsVecU24<ASN1Cert>>,
}

impl<'a> From<Encoded<'a, X509ChainEntry>> for X509ChainEntryView<'a> {
    ghost from_gives = { λ whole view. whole ≡ (view.leaf_certificate ++ view.certificate_chain) };

    fn from(whole: Encoded<'a, X509ChainEntry>) -> X509ChainEntryView<'a> {
        let (leaf_certificate, certificate_chain) = whole.parts().split();
        X509ChainEntryView {
            leaf_certificate,
            certificate_chain,
        }
    }
}

/// Two values are equal if and only if all their fields are equal.
pub fn is_compared_by_its_fields()
    ensures { (x y : X509ChainEntry) →
        ⟦<X509ChainEntry as PartialEq>⟧.eq x y
        ≡ (⟦<ASN1Cert as PartialEq>⟧.eq x.leaf_certificate y.leaf_certificate
        && ⟦<TlsVecU24<ASN1Cert> as PartialEq>⟧.eq x.certificate_chain y.certificate_chain) }
{}
