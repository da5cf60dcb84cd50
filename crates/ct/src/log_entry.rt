//! [`LogEntry`].
ghost use Rattle.std.specs.Prelude.{◌≡◌, IsTrue};
ghost use Rattle.tls_codec.specs.OwnMessages.{no_variant_names, no_variant_source_names, tagged_names, tagged_source_names, variant_names, variant_source_names};
ghost use Rattle.tls_codec_validate.specs.TaggedPlaces.{no_variant_places, tagged_places, variant_places};
ghost use Rattle.ct.specs.LogEntry.{log_entry_format, log_entry_meets, log_entry_plain, log_entry_tag, log_entry_variants};
ghost use Rattle.ct.specs.declared.log_entry.LogEntry.{LogEntry};
ghost use Rattle.tls_codec_views.specs.Views.{IsCase};
ghost use Rattle.ct.specs.declared.log_entry.LogEntryView.{LogEntryView};

use crate::{PrecertChainEntry, X509ChainEntry};
use std::alloc::Global;
use tls_codec::{
    ByRef, Deserialize, DeserializeBytes, Error, Serialize, Sink, Size, Source, unknown_value,
};
use tls_codec_validate::{Rejected, Validate, split_u16};
use tls_codec_views::{Choice, Encoded};

const X509_ENTRY: u16 = 0;

const PRECERT_ENTRY: u16 = 1;

/// `LogEntryType entry_type` of `LogEntry` (RFC 6962, section 3.1), and what comes after
/// each.
#[derive(PartialEq, Eq, Debug, Clone, Drop)]
pub enum LogEntry {
    /// `case x509_entry: X509ChainEntry;`
    X509Entry(X509ChainEntry),
    /// `case precert_entry: PrecertChainEntry;`
    PrecertEntry(PrecertChainEntry),
}

impl Size for LogEntry {
    ghost plain = { log_entry_plain };

    ghost format = { log_entry_format };

    fn tls_serialized_len(&self) -> usize {
        match self {
            LogEntry::X509Entry(x509_chain_entry) => (
                X509_ENTRY,
                ByRef(x509_chain_entry),
            ).tls_serialized_len(),
            LogEntry::PrecertEntry(precert_chain_entry) => (
                PRECERT_ENTRY,
                ByRef(precert_chain_entry),
            ).tls_serialized_len(),
        }
    }

    ghost lawful = { log_entry_meets };
}

impl Serialize for LogEntry {
    fn tls_serialize<W: Sink>(&self, writer: &mut W) -> Result<usize, Error> {
        match self {
            LogEntry::X509Entry(x509_chain_entry) => (
                X509_ENTRY,
                ByRef(x509_chain_entry),
            ).tls_serialize(writer),
            LogEntry::PrecertEntry(precert_chain_entry) => (
                PRECERT_ENTRY,
                ByRef(precert_chain_entry),
            ).tls_serialize(writer),
        }
    }

    fn tls_serialize_into(&self, out: &mut Vec<u8>) -> Result<usize, Error> {
        match self {
            LogEntry::X509Entry(x509_chain_entry) => (
                X509_ENTRY,
                ByRef(x509_chain_entry),
            ).tls_serialize_into(out),
            LogEntry::PrecertEntry(precert_chain_entry) => (
                PRECERT_ENTRY,
                ByRef(precert_chain_entry),
            ).tls_serialize_into(out),
        }
    }
}

impl Deserialize for LogEntry {
    ghost names = { tagged_source_names 2
        (variant_source_names 0 ⟦<X509ChainEntry as Deserialize>⟧.names
        (variant_source_names 1 ⟦<PrecertChainEntry as Deserialize>⟧.names
        no_variant_source_names)) };

    fn tls_deserialize<R: Source>(alloc: Global, src: &mut R) -> Result<LogEntry, Error> {
        let tag = u16::tls_deserialize(alloc, src)?;
        match tag {
            X509_ENTRY => {
                let x509_chain_entry = X509ChainEntry::tls_deserialize(alloc, src)?;
                Ok(LogEntry::X509Entry(x509_chain_entry))
            }
            PRECERT_ENTRY => {
                let precert_chain_entry = PrecertChainEntry::tls_deserialize(alloc, src)?;
                Ok(LogEntry::PrecertEntry(precert_chain_entry))
            }
            _ => Err(unknown_value(u64::from(tag))),
        }
    }
}

impl DeserializeBytes for LogEntry {
    ghost names = { tagged_names 2
        (variant_names 0 ⟦<X509ChainEntry as DeserializeBytes>⟧.names
        (variant_names 1 ⟦<PrecertChainEntry as DeserializeBytes>⟧.names
        no_variant_names)) };

    fn tls_deserialize_bytes(alloc: Global, whole: &[u8]) -> Result<(LogEntry, &[u8]), Error> {
        let (tag, rest) = u16::tls_deserialize_bytes(alloc, whole)?;
        match tag {
            X509_ENTRY => {
                let (x509_chain_entry, rest) = X509ChainEntry::tls_deserialize_bytes(alloc, rest)?;
                Ok((LogEntry::X509Entry(x509_chain_entry), rest))
            }
            PRECERT_ENTRY => {
                let (precert_chain_entry, rest) = PrecertChainEntry::tls_deserialize_bytes(
                    alloc, rest,
                )?;
                Ok((LogEntry::PrecertEntry(precert_chain_entry), rest))
            }
            _ => Err(unknown_value(u64::from(tag))),
        }
    }
}

impl Validate for LogEntry {
    ghost places = { tagged_places 2
        (variant_places 0 ⟦<X509ChainEntry as Validate>⟧.places
        (variant_places 1 ⟦<PrecertChainEntry as Validate>⟧.places
        no_variant_places)) };

    fn tls_validate_prefix(whole: &[u8]) -> Result<&[u8], Rejected<'_>> {
        let (tag, rest) = split_u16(whole)?;
        match tag {
            X509_ENTRY => {
                let behind = X509ChainEntry::tls_validate_prefix(rest)?;
                Ok(behind)
            }
            PRECERT_ENTRY => {
                let behind = PrecertChainEntry::tls_validate_prefix(rest)?;
                Ok(behind)
            }
            _ => Err(Rejected {
                error: unknown_value(u64::from(tag)),
                rest: whole,
            }),
        }
    }
}

impl Choice for LogEntry {
    type Tag = u16;

    ghost variants = { log_entry_variants };

    ghost as_choice = { λ bytes is. is };
}

/// The encoding of a [`LogEntry`], split into its case and fields.
#[derive(Drop)]
pub enum LogEntryView<'a> {
    /// `case x509_entry: X509ChainEntry;`
    X509Entry(Encoded<'a, X509ChainEntry>),
    /// `case precert_entry: PrecertChainEntry;`
    PrecertEntry(Encoded<'a, PrecertChainEntry>),
}

impl<'a> From<Encoded<'a, LogEntry>> for LogEntryView<'a> {
    ghost from_gives = { λ whole view. elim view as (λ v. Type 0) [
      | LogEntryView.X509Entry a0 ↦ IsCase 2 0 whole a0
      | LogEntryView.PrecertEntry a0 ↦ IsCase 2 1 whole a0
    ] };

    fn from(whole: Encoded<'a, LogEntry>) -> LogEntryView<'a> {
        let (tag, parts) = whole.case();
        match tag {
            0 => LogEntryView::X509Entry(Encoded::from_only_part(parts)),
            1 => LogEntryView::PrecertEntry(Encoded::from_only_part(parts)),
            _ => unreachable!(),
        }
    }
}

impl LogEntry {
    /// The tag of this value's case.
    pub fn entry_type(&self) -> u16
        ensures { result ≡ log_entry_tag self.now }
    {
        match self {
            LogEntry::X509Entry(_) => 0,
            LogEntry::PrecertEntry(_) => 1,
        }
    }
}

/// The case `x509_entry` with this content.
impl From<X509ChainEntry> for LogEntry {
    ghost from_gives = { λ content value. value ≡ LogEntry.X509Entry content };

    fn from(content: X509ChainEntry) -> LogEntry {
        LogEntry::X509Entry(content)
    }
}

/// The case `precert_entry` with this content.
impl From<PrecertChainEntry> for LogEntry {
    ghost from_gives = { λ content value. value ≡ LogEntry.PrecertEntry content };

    fn from(content: PrecertChainEntry) -> LogEntry {
        LogEntry::PrecertEntry(content)
    }
}

/// Two values are equal if and only if they have the same case and all their fields are equal.
pub fn is_compared_by_its_case()
    ensures tag { (x y : LogEntry) →
        IsTrue (⟦<LogEntry as PartialEq>⟧.eq x y) → log_entry_tag x ≡ log_entry_tag y }
    ensures case_0 { (a0 b0 : _) →
        ⟦<LogEntry as PartialEq>⟧.eq (LogEntry.X509Entry a0) (LogEntry.X509Entry b0)
        ≡ ⟦<X509ChainEntry as PartialEq>⟧.eq a0 b0 }
    ensures case_1 { (a0 b0 : _) →
        ⟦<LogEntry as PartialEq>⟧.eq (LogEntry.PrecertEntry a0) (LogEntry.PrecertEntry b0)
        ≡ ⟦<PrecertChainEntry as PartialEq>⟧.eq a0 b0 }
{}
