//! [`SignedCertificateTimestampTBS`].
ghost use Rattle.std.specs.Prelude.{◌≡◌, ◌&&◌, ◌++◌};
ghost use Rattle.ct.specs.SignedCertificateTimestampTBS.{signed_certificate_timestamp_tbs_format, signed_certificate_timestamp_tbs_meets, signed_certificate_timestamp_tbs_plain};
ghost use Rattle.ct.specs.declared.signed_certificate_timestamp_tbs.SignedCertificateTimestampTBS.{SignedCertificateTimestampTBS};

use crate::{CtExtensions, LogEntryTypeData, SignatureTypeCertificateTimestamp, Version};
use std::alloc::Global;
use tls_codec::{
    ByRef2, ByRef3, Deserialize, DeserializeBytes, Error, Serialize, Sink, Size, Source,
};
use tls_codec_cases::append_as;
use tls_codec_validate::{Rejected, Validate};
use tls_codec_views::{Encoded, Parted};

/// `SignedCertificateTimestampTBS` (RFC 6962, section 3.2).
#[derive(PartialEq, Eq, Debug, Clone, Drop)]
pub struct SignedCertificateTimestampTBS {
    /// `Version sct_version;`
    pub sct_version: Version,
    /// `SignatureType signature_type = certificate_timestamp;`
    pub signature_type: SignatureTypeCertificateTimestamp,
    /// `uint64 timestamp;`
    pub timestamp: u64,
    /// `LogEntryType entry_type; select (entry_type);`
    pub signed_entry: LogEntryTypeData,
    /// `CtExtensions extensions;`
    pub extensions: CtExtensions,
}

type Parts = (
    (Version, SignatureTypeCertificateTimestamp, u64),
    (LogEntryTypeData, CtExtensions),
);

impl Size for SignedCertificateTimestampTBS {
    ghost plain = { signed_certificate_timestamp_tbs_plain };

    ghost format = { signed_certificate_timestamp_tbs_format };

    fn tls_serialized_len(&self) -> usize {
        (
            ByRef3(&self.sct_version, &self.signature_type, &self.timestamp),
            ByRef2(&self.signed_entry, &self.extensions),
        )
            .tls_serialized_len()
    }

    ghost lawful = { signed_certificate_timestamp_tbs_meets };
}

impl Serialize for SignedCertificateTimestampTBS {
    fn tls_serialize<W: Sink>(&self, writer: &mut W) -> Result<usize, Error> {
        (
            ByRef3(&self.sct_version, &self.signature_type, &self.timestamp),
            ByRef2(&self.signed_entry, &self.extensions),
        )
            .tls_serialize(writer)
    }

    fn tls_serialize_into(&self, out: &mut Vec<u8>) -> Result<usize, Error> {
        append_as(
            self,
            &(
                ByRef3(&self.sct_version, &self.signature_type, &self.timestamp),
                ByRef2(&self.signed_entry, &self.extensions),
            ),
            out,
        )
    }
}

impl Deserialize for SignedCertificateTimestampTBS {
    ghost names = { ⟦<Parts as Deserialize>⟧.names };

    fn tls_deserialize<R: Source>(
        alloc: Global,
        src: &mut R,
    ) -> Result<SignedCertificateTimestampTBS, Error> {
        let ((sct_version, signature_type, timestamp), (signed_entry, extensions)) =
            <Parts>::tls_deserialize(alloc, src)?;
        Ok(SignedCertificateTimestampTBS {
            sct_version,
            signature_type,
            timestamp,
            signed_entry,
            extensions,
        })
    }
}

impl DeserializeBytes for SignedCertificateTimestampTBS {
    ghost names = { ⟦<Parts as DeserializeBytes>⟧.names };

    fn tls_deserialize_bytes(
        alloc: Global,
        whole: &[u8],
    ) -> Result<(SignedCertificateTimestampTBS, &[u8]), Error> {
        let (((sct_version, signature_type, timestamp), (signed_entry, extensions)), rest) =
            <Parts>::tls_deserialize_bytes(alloc, whole)?;
        Ok((
            SignedCertificateTimestampTBS {
                sct_version,
                signature_type,
                timestamp,
                signed_entry,
                extensions,
            },
            rest,
        ))
    }
}

impl Validate for SignedCertificateTimestampTBS {
    ghost places = { ⟦<Parts as Validate>⟧.places };

    fn tls_validate_prefix(whole: &[u8]) -> Result<&[u8], Rejected<'_>> {
        <Parts>::tls_validate_prefix(whole)
    }

    fn tls_width() -> Option<usize> {
        <Parts>::tls_width()
    }
}

impl Parted for SignedCertificateTimestampTBS {
    type Parts = Parts;

    ghost as_parts = { λ bytes is. is };
}

/// The encoding of a [`SignedCertificateTimestampTBS`], split into its fields.
#[derive(Drop)]
pub struct SignedCertificateTimestampTBSView<'a> {
    /// `Version sct_version;`
    pub sct_version: Encoded<'a, Version>,
    /// `SignatureType signature_type = certificate_timestamp;`
    pub signature_type: Encoded<'a, SignatureTypeCertificateTimestamp>,
    /// `uint64 timestamp;`
    pub timestamp: Encoded<'a, u64>,
    /// `LogEntryType entry_type; select (entry_type);`
    pub signed_entry: Encoded<'a, LogEntryTypeData>,
    /// `CtExtensions extensions;`
    pub extensions: Encoded<'a, CtExtensions>,
}

impl<'a> From<Encoded<'a, SignedCertificateTimestampTBS>>
    for SignedCertificateTimestampTBSView<'a> {
    ghost from_gives = { λ whole view. whole ≡ ((view.sct_version ++
        (view.signature_type ++ view.timestamp)) ++ (view.signed_entry ++ view.extensions)) };

    fn from(
        whole: Encoded<'a, SignedCertificateTimestampTBS>,
    ) -> SignedCertificateTimestampTBSView<'a> {
        let (parts_0, parts_1) = whole.parts().split();
        let (sct_version, signature_type, timestamp) = parts_0.split();
        let (signed_entry, extensions) = parts_1.split();
        SignedCertificateTimestampTBSView {
            sct_version,
            signature_type,
            timestamp,
            signed_entry,
            extensions,
        }
    }
}

/// Two values are equal if and only if all their fields are equal.
pub fn is_compared_by_its_fields()
    ensures { (x y : SignedCertificateTimestampTBS) →
        ⟦<SignedCertificateTimestampTBS as PartialEq>⟧.eq x y
        ≡ (⟦<Version as PartialEq>⟧.eq x.sct_version y.sct_version
        && (⟦<SignatureTypeCertificateTimestamp as PartialEq>⟧.eq x.signature_type y.signature_type
        && (⟦<u64 as PartialEq>⟧.eq x.timestamp y.timestamp
        && (⟦<LogEntryTypeData as PartialEq>⟧.eq x.signed_entry y.signed_entry
        && ⟦<CtExtensions as PartialEq>⟧.eq x.extensions y.extensions)))) }
{}
