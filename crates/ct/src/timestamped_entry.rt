//! [`TimestampedEntry`].
ghost use Rattle.std.specs.Prelude.{◌≡◌, ◌&&◌, ◌++◌};
ghost use Rattle.ct.specs.TimestampedEntry.{timestamped_entry_format, timestamped_entry_meets, timestamped_entry_plain};
ghost use Rattle.ct.specs.declared.timestamped_entry.TimestampedEntry.{TimestampedEntry};

use crate::{CtExtensions, TimestampedEntryLogEntryTypeData};
use std::alloc::Global;
use tls_codec::{ByRef, Deserialize, DeserializeBytes, Error, Serialize, Sink, Size, Source};
use tls_codec_cases::append_as;
use tls_codec_validate::{Rejected, Validate};
use tls_codec_views::{Encoded, Parted};

/// `TimestampedEntry` (RFC 6962, section 3.4).
#[derive(PartialEq, Eq, Debug, Clone, Drop)]
pub struct TimestampedEntry {
    /// `uint64 timestamp;`
    pub timestamp: u64,
    /// `LogEntryType entry_type; select (entry_type);`
    pub signed_entry: TimestampedEntryLogEntryTypeData,
    /// `CtExtensions extensions;`
    pub extensions: CtExtensions,
}

type Parts = (u64, TimestampedEntryLogEntryTypeData, CtExtensions);

impl Size for TimestampedEntry {
    ghost plain = { timestamped_entry_plain };

    ghost format = { timestamped_entry_format };

    fn tls_serialized_len(&self) -> usize {
        (
            ByRef(&self.timestamp),
            ByRef(&self.signed_entry),
            ByRef(&self.extensions),
        )
            .tls_serialized_len()
    }

    ghost lawful = { timestamped_entry_meets };
}

impl Serialize for TimestampedEntry {
    fn tls_serialize<W: Sink>(&self, writer: &mut W) -> Result<usize, Error> {
        (
            ByRef(&self.timestamp),
            ByRef(&self.signed_entry),
            ByRef(&self.extensions),
        )
            .tls_serialize(writer)
    }

    fn tls_serialize_into(&self, out: &mut Vec<u8>) -> Result<usize, Error> {
        append_as(
            self,
            &(
                ByRef(&self.timestamp),
                ByRef(&self.signed_entry),
                ByRef(&self.extensions),
            ),
            out,
        )
    }
}

impl Deserialize for TimestampedEntry {
    ghost names = { ⟦<Parts as Deserialize>⟧.names };

    fn tls_deserialize<R: Source>(alloc: Global, src: &mut R) -> Result<TimestampedEntry, Error> {
        let (timestamp, signed_entry, extensions) = <Parts>::tls_deserialize(alloc, src)?;
        Ok(TimestampedEntry {
            timestamp,
            signed_entry,
            extensions,
        })
    }
}

impl DeserializeBytes for TimestampedEntry {
    ghost names = { ⟦<Parts as DeserializeBytes>⟧.names };

    fn tls_deserialize_bytes(
        alloc: Global,
        whole: &[u8],
    ) -> Result<(TimestampedEntry, &[u8]), Error> {
        let ((timestamp, signed_entry, extensions), rest) = <Parts>::tls_deserialize_bytes(
            alloc, whole,
        )?;
        Ok((
            TimestampedEntry {
                timestamp,
                signed_entry,
                extensions,
            },
            rest,
        ))
    }
}

impl Validate for TimestampedEntry {
    ghost places = { ⟦<Parts as Validate>⟧.places };

    fn tls_validate_prefix(whole: &[u8]) -> Result<&[u8], Rejected<'_>> {
        <Parts>::tls_validate_prefix(whole)
    }

    fn tls_width() -> Option<usize> {
        <Parts>::tls_width()
    }
}

impl Parted for TimestampedEntry {
    type Parts = Parts;

    ghost as_parts = { λ bytes is. is };
}

/// The encoding of a [`TimestampedEntry`], split into its fields.
#[derive(Drop)]
pub struct TimestampedEntryView<'a> {
    /// `uint64 timestamp;`
    pub timestamp: Encoded<'a, u64>,
    /// `LogEntryType entry_type; select (entry_type);`
    pub signed_entry: Encoded<'a, TimestampedEntryLogEntryTypeData>,
    /// `CtExtensions extensions;`
    pub extensions: Encoded<'a, CtExtensions>,
}

impl<'a> From<Encoded<'a, TimestampedEntry>> for TimestampedEntryView<'a> {
    ghost from_gives = { λ whole view. whole ≡ (view.timestamp ++
        (view.signed_entry ++ view.extensions)) };

    fn from(whole: Encoded<'a, TimestampedEntry>) -> TimestampedEntryView<'a> {
        let (timestamp, signed_entry, extensions) = whole.parts().split();
        TimestampedEntryView {
            timestamp,
            signed_entry,
            extensions,
        }
    }
}

/// Two values are equal if and only if all their fields are equal.
pub fn is_compared_by_its_fields()
    ensures { (x y : TimestampedEntry) →
        ⟦<TimestampedEntry as PartialEq>⟧.eq x y
        ≡ (⟦<u64 as PartialEq>⟧.eq x.timestamp y.timestamp
        && (⟦<TimestampedEntryLogEntryTypeData as PartialEq>⟧.eq x.signed_entry y.signed_entry
        && ⟦<CtExtensions as PartialEq>⟧.eq x.extensions y.extensions)) }
{}
