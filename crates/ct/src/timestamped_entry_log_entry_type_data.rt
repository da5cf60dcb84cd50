//! [`TimestampedEntryLogEntryTypeData`].
ghost use Rattle.std.specs.Prelude.{◌≡◌, IsTrue};
ghost use Rattle.tls_codec.specs.OwnMessages.{no_variant_names, no_variant_source_names, tagged_names, tagged_source_names, variant_names, variant_source_names};
ghost use Rattle.tls_codec_validate.specs.TaggedPlaces.{no_variant_places, tagged_places, variant_places};
ghost use Rattle.ct.specs.TimestampedEntryLogEntryTypeData.{timestamped_entry_log_entry_type_data_format, timestamped_entry_log_entry_type_data_meets, timestamped_entry_log_entry_type_data_plain, timestamped_entry_log_entry_type_data_tag, timestamped_entry_log_entry_type_data_variants};
ghost use Rattle.ct.specs.declared.timestamped_entry_log_entry_type_data.TimestampedEntryLogEntryTypeData.{TimestampedEntryLogEntryTypeData};
ghost use Rattle.tls_codec_views.specs.Views.{IsCase};
ghost use Rattle.ct.specs.declared.timestamped_entry_log_entry_type_data.TimestampedEntryLogEntryTypeDataView.{TimestampedEntryLogEntryTypeDataView};

use crate::{ASN1Cert, PreCert};
use std::alloc::Global;
use tls_codec::{
    ByRef, Deserialize, DeserializeBytes, Error, Serialize, Sink, Size, Source, unknown_value,
};
use tls_codec_validate::{Rejected, Validate, split_u16};
use tls_codec_views::{Choice, Encoded};

const X509_ENTRY: u16 = 0;

const PRECERT_ENTRY: u16 = 1;

/// `LogEntryType entry_type` of `TimestampedEntry` (RFC 6962, section 3.4), and what comes
/// after each.
#[derive(PartialEq, Eq, Debug, Clone, Drop)]
pub enum TimestampedEntryLogEntryTypeData {
    /// `case x509_entry: ASN.1Cert;`
    X509Entry(ASN1Cert),
    /// `case precert_entry: PreCert;`
    PrecertEntry(PreCert),
}

impl Size for TimestampedEntryLogEntryTypeData {
    ghost plain = { timestamped_entry_log_entry_type_data_plain };

    ghost format = { timestamped_entry_log_entry_type_data_format };

    fn tls_serialized_len(&self) -> usize {
        match self {
            TimestampedEntryLogEntryTypeData::X509Entry(asn_1_cert) => (
                X509_ENTRY,
                ByRef(asn_1_cert),
            ).tls_serialized_len(),
            TimestampedEntryLogEntryTypeData::PrecertEntry(pre_cert) => (
                PRECERT_ENTRY,
                ByRef(pre_cert),
            ).tls_serialized_len(),
        }
    }

    ghost lawful = { timestamped_entry_log_entry_type_data_meets };
}

impl Serialize for TimestampedEntryLogEntryTypeData {
    fn tls_serialize<W: Sink>(&self, writer: &mut W) -> Result<usize, Error> {
        match self {
            TimestampedEntryLogEntryTypeData::X509Entry(asn_1_cert) => (
                X509_ENTRY,
                ByRef(asn_1_cert),
            ).tls_serialize(writer),
            TimestampedEntryLogEntryTypeData::PrecertEntry(pre_cert) => (
                PRECERT_ENTRY,
                ByRef(pre_cert),
            ).tls_serialize(writer),
        }
    }

    fn tls_serialize_into(&self, out: &mut Vec<u8>) -> Result<usize, Error> {
        match self {
            TimestampedEntryLogEntryTypeData::X509Entry(asn_1_cert) => (
                X509_ENTRY,
                ByRef(asn_1_cert),
            ).tls_serialize_into(out),
            TimestampedEntryLogEntryTypeData::PrecertEntry(pre_cert) => (
                PRECERT_ENTRY,
                ByRef(pre_cert),
            ).tls_serialize_into(out),
        }
    }
}

impl Deserialize for TimestampedEntryLogEntryTypeData {
    ghost names = { tagged_source_names 2
        (variant_source_names 0 ⟦<ASN1Cert as Deserialize>⟧.names
        (variant_source_names 1 ⟦<PreCert as Deserialize>⟧.names
        no_variant_source_names)) };

    fn tls_deserialize<R: Source>(
        alloc: Global,
        src: &mut R,
    ) -> Result<TimestampedEntryLogEntryTypeData, Error> {
        let tag = u16::tls_deserialize(alloc, src)?;
        match tag {
            X509_ENTRY => {
                let asn_1_cert = ASN1Cert::tls_deserialize(alloc, src)?;
                Ok(TimestampedEntryLogEntryTypeData::X509Entry(asn_1_cert))
            }
            PRECERT_ENTRY => {
                let pre_cert = PreCert::tls_deserialize(alloc, src)?;
                Ok(TimestampedEntryLogEntryTypeData::PrecertEntry(pre_cert))
            }
            _ => Err(unknown_value(u64::from(tag))),
        }
    }
}

impl DeserializeBytes for TimestampedEntryLogEntryTypeData {
    ghost names = { tagged_names 2
        (variant_names 0 ⟦<ASN1Cert as DeserializeBytes>⟧.names
        (variant_names 1 ⟦<PreCert as DeserializeBytes>⟧.names
        no_variant_names)) };

    fn tls_deserialize_bytes(
        alloc: Global,
        whole: &[u8],
    ) -> Result<(TimestampedEntryLogEntryTypeData, &[u8]), Error> {
        let (tag, rest) = u16::tls_deserialize_bytes(alloc, whole)?;
        match tag {
            X509_ENTRY => {
                let (asn_1_cert, rest) = ASN1Cert::tls_deserialize_bytes(alloc, rest)?;
                Ok((
                    TimestampedEntryLogEntryTypeData::X509Entry(asn_1_cert),
                    rest,
                ))
            }
            PRECERT_ENTRY => {
                let (pre_cert, rest) = PreCert::tls_deserialize_bytes(alloc, rest)?;
                Ok((
                    TimestampedEntryLogEntryTypeData::PrecertEntry(pre_cert),
                    rest,
                ))
            }
            _ => Err(unknown_value(u64::from(tag))),
        }
    }
}

impl Validate for TimestampedEntryLogEntryTypeData {
    ghost places = { tagged_places 2
        (variant_places 0 ⟦<ASN1Cert as Validate>⟧.places
        (variant_places 1 ⟦<PreCert as Validate>⟧.places
        no_variant_places)) };

    fn tls_validate_prefix(whole: &[u8]) -> Result<&[u8], Rejected<'_>> {
        let (tag, rest) = split_u16(whole)?;
        match tag {
            X509_ENTRY => {
                let behind = ASN1Cert::tls_validate_prefix(rest)?;
                Ok(behind)
            }
            PRECERT_ENTRY => {
                let behind = PreCert::tls_validate_prefix(rest)?;
                Ok(behind)
            }
            _ => Err(Rejected {
                error: unknown_value(u64::from(tag)),
                rest: whole,
            }),
        }
    }
}

impl Choice for TimestampedEntryLogEntryTypeData {
    type Tag = u16;

    ghost variants = { timestamped_entry_log_entry_type_data_variants };

    ghost as_choice = { λ bytes is. is };
}

/// The encoding of a [`TimestampedEntryLogEntryTypeData`], split into its case and fields.
#[derive(Drop)]
pub enum TimestampedEntryLogEntryTypeDataView<'a> {
    /// `case x509_entry: ASN.1Cert;`
    X509Entry(Encoded<'a, ASN1Cert>),
    /// `case precert_entry: PreCert;`
    PrecertEntry(Encoded<'a, PreCert>),
}

impl<'a> From<Encoded<'a, TimestampedEntryLogEntryTypeData>>
    for TimestampedEntryLogEntryTypeDataView<'a> {
    ghost from_gives = { λ whole view. elim view as (λ v. Type 0) [
      | TimestampedEntryLogEntryTypeDataView.X509Entry a0 ↦ IsCase 2 0 whole a0
      | TimestampedEntryLogEntryTypeDataView.PrecertEntry a0 ↦ IsCase 2 1 whole a0
    ] };

    fn from(
        whole: Encoded<'a, TimestampedEntryLogEntryTypeData>,
    ) -> TimestampedEntryLogEntryTypeDataView<'a> {
        let (tag, parts) = whole.case();
        match tag {
            0 => TimestampedEntryLogEntryTypeDataView::X509Entry(Encoded::from_only_part(parts)),
            1 => TimestampedEntryLogEntryTypeDataView::PrecertEntry(Encoded::from_only_part(parts)),
            _ => unreachable!(),
        }
    }
}

impl TimestampedEntryLogEntryTypeData {
    /// The tag of this value's case.
    pub fn entry_type(&self) -> u16
        ensures { result ≡ timestamped_entry_log_entry_type_data_tag self.now }
    {
        match self {
            TimestampedEntryLogEntryTypeData::X509Entry(_) => 0,
            TimestampedEntryLogEntryTypeData::PrecertEntry(_) => 1,
        }
    }
}

/// The case `x509_entry` with this content.
impl From<ASN1Cert> for TimestampedEntryLogEntryTypeData {
    ghost from_gives = { λ content value. value ≡ TimestampedEntryLogEntryTypeData.X509Entry
        content };

    fn from(content: ASN1Cert) -> TimestampedEntryLogEntryTypeData {
        TimestampedEntryLogEntryTypeData::X509Entry(content)
    }
}

/// The case `precert_entry` with this content.
impl From<PreCert> for TimestampedEntryLogEntryTypeData {
    ghost from_gives = { λ content value. value ≡ TimestampedEntryLogEntryTypeData.PrecertEntry
        content };

    fn from(content: PreCert) -> TimestampedEntryLogEntryTypeData {
        TimestampedEntryLogEntryTypeData::PrecertEntry(content)
    }
}

/// Two values are equal if and only if they have the same case and all their fields are equal.
pub fn is_compared_by_its_case()
    ensures tag { (x y : TimestampedEntryLogEntryTypeData) →
        IsTrue (⟦<TimestampedEntryLogEntryTypeData as PartialEq>⟧.eq x y)
        → timestamped_entry_log_entry_type_data_tag x
        ≡ timestamped_entry_log_entry_type_data_tag y }
    ensures case_0 { (a0 b0 : _) →
        ⟦<TimestampedEntryLogEntryTypeData as PartialEq>⟧.eq
        (TimestampedEntryLogEntryTypeData.X509Entry a0)
        (TimestampedEntryLogEntryTypeData.X509Entry b0)
        ≡ ⟦<ASN1Cert as PartialEq>⟧.eq a0 b0 }
    ensures case_1 { (a0 b0 : _) →
        ⟦<TimestampedEntryLogEntryTypeData as PartialEq>⟧.eq
        (TimestampedEntryLogEntryTypeData.PrecertEntry a0)
        (TimestampedEntryLogEntryTypeData.PrecertEntry b0)
        ≡ ⟦<PreCert as PartialEq>⟧.eq a0 b0 }
{}
