//! [`SignedCertificateTimestamp`].
ghost use Rattle.std.specs.Prelude.{◌≡◌, ◌&&◌, ◌++◌};
ghost use Rattle.ct.specs.SignedCertificateTimestamp.{signed_certificate_timestamp_format, signed_certificate_timestamp_meets, signed_certificate_timestamp_plain};
ghost use Rattle.ct.specs.declared.signed_certificate_timestamp.SignedCertificateTimestamp.{SignedCertificateTimestamp};

use crate::{CtExtensions, DigitallySigned, LogID, Version};
use std::alloc::Global;
use tls_codec::{
    ByRef2, ByRef3, Deserialize, DeserializeBytes, Error, Serialize, Sink, Size, Source,
};
use tls_codec_cases::append_as;
use tls_codec_validate::{Rejected, Validate};
use tls_codec_views::{Encoded, Parted};

/// `SignedCertificateTimestamp` (RFC 6962, section 3.2).
#[derive(PartialEq, Eq, Debug, Clone, Drop)]
pub struct SignedCertificateTimestamp {
    /// `Version sct_version;`
    pub sct_version: Version,
    /// `LogID id;`
    pub id: LogID,
    /// `uint64 timestamp;`
    pub timestamp: u64,
    /// `CtExtensions extensions;`
    pub extensions: CtExtensions,
    /// `DigitallySigned signature;`
    pub signature: DigitallySigned,
}

type Parts = ((Version, LogID, u64), (CtExtensions, DigitallySigned));

impl Size for SignedCertificateTimestamp {
    ghost plain = { signed_certificate_timestamp_plain };

    ghost format = { signed_certificate_timestamp_format };

    fn tls_serialized_len(&self) -> usize {
        (
            ByRef3(&self.sct_version, &self.id, &self.timestamp),
            ByRef2(&self.extensions, &self.signature),
        )
            .tls_serialized_len()
    }

    ghost lawful = { signed_certificate_timestamp_meets };
}

impl Serialize for SignedCertificateTimestamp {
    fn tls_serialize<W: Sink>(&self, writer: &mut W) -> Result<usize, Error> {
        (
            ByRef3(&self.sct_version, &self.id, &self.timestamp),
            ByRef2(&self.extensions, &self.signature),
        )
            .tls_serialize(writer)
    }

    fn tls_serialize_into(&self, out: &mut Vec<u8>) -> Result<usize, Error> {
        append_as(
            self,
            &(
                ByRef3(&self.sct_version, &self.id, &self.timestamp),
                ByRef2(&self.extensions, &self.signature),
            ),
            out,
        )
    }
}

impl Deserialize for SignedCertificateTimestamp {
    ghost names = { ⟦<Parts as Deserialize>⟧.names };

    fn tls_deserialize<R: Source>(
        alloc: Global,
        src: &mut R,
    ) -> Result<SignedCertificateTimestamp, Error> {
        let ((sct_version, id, timestamp), (extensions, signature)) = <Parts>::tls_deserialize(
            alloc, src,
        )?;
        Ok(SignedCertificateTimestamp {
            sct_version,
            id,
            timestamp,
            extensions,
            signature,
        })
    }
}

impl DeserializeBytes for SignedCertificateTimestamp {
    ghost names = { ⟦<Parts as DeserializeBytes>⟧.names };

    fn tls_deserialize_bytes(
        alloc: Global,
        whole: &[u8],
    ) -> Result<(SignedCertificateTimestamp, &[u8]), Error> {
        let (((sct_version, id, timestamp), (extensions, signature)), rest) =
            <Parts>::tls_deserialize_bytes(alloc, whole)?;
        Ok((
            SignedCertificateTimestamp {
                sct_version,
                id,
                timestamp,
                extensions,
                signature,
            },
            rest,
        ))
    }
}

impl Validate for SignedCertificateTimestamp {
    ghost places = { ⟦<Parts as Validate>⟧.places };

    fn tls_validate_prefix(whole: &[u8]) -> Result<&[u8], Rejected<'_>> {
        <Parts>::tls_validate_prefix(whole)
    }

    fn tls_width() -> Option<usize> {
        <Parts>::tls_width()
    }
}

impl Parted for SignedCertificateTimestamp {
    type Parts = Parts;

    ghost as_parts = { λ bytes is. is };
}

/// The encoding of a [`SignedCertificateTimestamp`], split into its fields.
#[derive(Drop)]
pub struct SignedCertificateTimestampView<'a> {
    /// `Version sct_version;`
    pub sct_version: Encoded<'a, Version>,
    /// `LogID id;`
    pub id: Encoded<'a, LogID>,
    /// `uint64 timestamp;`
    pub timestamp: Encoded<'a, u64>,
    /// `CtExtensions extensions;`
    pub extensions: Encoded<'a, CtExtensions>,
    /// `DigitallySigned signature;`
    pub signature: Encoded<'a, DigitallySigned>,
}

impl<'a> From<Encoded<'a, SignedCertificateTimestamp>> for SignedCertificateTimestampView<'a> {
    ghost from_gives = { λ whole view. whole ≡ ((view.sct_version ++ (view.id ++ view.timestamp)) ++
        (view.extensions ++ view.signature)) };

    fn from(whole: Encoded<'a, SignedCertificateTimestamp>) -> SignedCertificateTimestampView<'a> {
        let (parts_0, parts_1) = whole.parts().split();
        let (sct_version, id, timestamp) = parts_0.split();
        let (extensions, signature) = parts_1.split();
        SignedCertificateTimestampView {
            sct_version,
            id,
            timestamp,
            extensions,
            signature,
        }
    }
}

/// Two values are equal if and only if all their fields are equal.
pub fn is_compared_by_its_fields()
    ensures { (x y : SignedCertificateTimestamp) →
        ⟦<SignedCertificateTimestamp as PartialEq>⟧.eq x y
        ≡ (⟦<Version as PartialEq>⟧.eq x.sct_version y.sct_version
        && (⟦<LogID as PartialEq>⟧.eq x.id y.id
        && (⟦<u64 as PartialEq>⟧.eq x.timestamp y.timestamp
        && (⟦<CtExtensions as PartialEq>⟧.eq x.extensions y.extensions
        && ⟦<DigitallySigned as PartialEq>⟧.eq x.signature y.signature)))) }
{}
