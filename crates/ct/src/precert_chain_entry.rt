//! [`PrecertChainEntry`].
ghost use Rattle.std.specs.Prelude.{◌≡◌, ◌&&◌, ◌++◌};
ghost use Rattle.ct.specs.PrecertChainEntry.{precert_chain_entry_format, precert_chain_entry_meets, precert_chain_entry_plain};
ghost use Rattle.ct.specs.declared.precert_chain_entry.PrecertChainEntry.{PrecertChainEntry};

use crate::ASN1Cert;
use std::alloc::Global;
use tls_codec::{
    ByRef, Deserialize, DeserializeBytes, Error, Serialize, Sink, Size, Source, TlsVecU24,
};
use tls_codec_cases::append_as;
use tls_codec_validate::{Rejected, Validate};
use tls_codec_views::{Encoded, Parted};

/// `PrecertChainEntry` (RFC 6962, section 3.1).
#[derive(PartialEq, Eq, Debug, Clone, Drop)]
pub struct PrecertChainEntry {
    /// `ASN.1Cert pre_certificate;`
    pub pre_certificate: ASN1Cert,
    /// `ASN.1Cert precertificate_chain<0..2^24-1>;`
    pub precertificate_chain: TlsVecU24<ASN1Cert>,
}

type Parts = (ASN1Cert, TlsVecU24<ASN1Cert>);

impl Size for PrecertChainEntry {
    ghost plain = { precert_chain_entry_plain };

    ghost format = { precert_chain_entry_format };

    fn tls_serialized_len(&self) -> usize {
        (
            ByRef(&self.pre_certificate),
            ByRef(&self.precertificate_chain),
        )
            .tls_serialized_len()
    }

    ghost lawful = { precert_chain_entry_meets };
}

impl Serialize for PrecertChainEntry {
    fn tls_serialize<W: Sink>(&self, writer: &mut W) -> Result<usize, Error> {
        (
            ByRef(&self.pre_certificate),
            ByRef(&self.precertificate_chain),
        )
            .tls_serialize(writer)
    }

    fn tls_serialize_into(&self, out: &mut Vec<u8>) -> Result<usize, Error> {
        append_as(
            self,
            &(
                ByRef(&self.pre_certificate),
                ByRef(&self.precertificate_chain),
            ),
            out,
        )
    }
}

impl Deserialize for PrecertChainEntry {
    ghost names = { ⟦<Parts as Deserialize>⟧.names };

    fn tls_deserialize<R: Source>(alloc: Global, src: &mut R) -> Result<PrecertChainEntry, Error> {
        let (pre_certificate, precertificate_chain) = <Parts>::tls_deserialize(alloc, src)?;
        Ok(PrecertChainEntry {
            pre_certificate,
            precertificate_chain,
        })
    }
}

impl DeserializeBytes for PrecertChainEntry {
    ghost names = { ⟦<Parts as DeserializeBytes>⟧.names };

    fn tls_deserialize_bytes(
        alloc: Global,
        whole: &[u8],
    ) -> Result<(PrecertChainEntry, &[u8]), Error> {
        let ((pre_certificate, precertificate_chain), rest) = <Parts>::tls_deserialize_bytes(
            alloc, whole,
        )?;
        Ok((
            PrecertChainEntry {
                pre_certificate,
                precertificate_chain,
            },
            rest,
        ))
    }
}

impl Validate for PrecertChainEntry {
    ghost places = { ⟦<Parts as Validate>⟧.places };

    fn tls_validate_prefix(whole: &[u8]) -> Result<&[u8], Rejected<'_>> {
        <Parts>::tls_validate_prefix(whole)
    }

    fn tls_width() -> Option<usize> {
        <Parts>::tls_width()
    }
}

impl Parted for PrecertChainEntry {
    type Parts = Parts;

    ghost as_parts = { λ bytes is. is };
}

/// The encoding of a [`PrecertChainEntry`], split into its fields.
#[derive(Drop)]
pub struct PrecertChainEntryView<'a> {
    /// `ASN.1Cert pre_certificate;`
    pub pre_certificate: Encoded<'a, ASN1Cert>,
    /// `ASN.1Cert precertificate_chain<0..2^24-1>;`
    pub precertificate_chain: Encoded<'a, TlsVecU24<ASN1Cert>>,
}

impl<'a> From<Encoded<'a, PrecertChainEntry>> for PrecertChainEntryView<'a> {
    ghost from_gives = { λ whole view. whole ≡ (view.pre_certificate ++
        view.precertificate_chain) };

    fn from(whole: Encoded<'a, PrecertChainEntry>) -> PrecertChainEntryView<'a> {
        let (pre_certificate, precertificate_chain) = whole.parts().split();
        PrecertChainEntryView {
            pre_certificate,
            precertificate_chain,
        }
    }
}

/// Two values are equal if and only if all their fields are equal.
pub fn is_compared_by_its_fields()
    ensures { (x y : PrecertChainEntry) →
        ⟦<PrecertChainEntry as PartialEq>⟧.eq x y
        ≡ (⟦<ASN1Cert as PartialEq>⟧.eq x.pre_certificate y.pre_certificate
        && ⟦<TlsVecU24<ASN1Cert> as PartialEq>⟧.eq x.precertificate_chain y.precertificate_chain) }
{}
