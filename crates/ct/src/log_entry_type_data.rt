//! [`LogEntryTypeData`].
ghost use Rattle.std.specs.Prelude.{◌≡◌, IsTrue};
ghost use Rattle.tls_codec.specs.OwnMessages.{no_variant_names, no_variant_source_names, tagged_names, tagged_source_names, variant_names, variant_source_names};
ghost use Rattle.tls_codec_validate.specs.TaggedPlaces.{no_variant_places, tagged_places, variant_places};
ghost use Rattle.ct.specs.LogEntryTypeData.{log_entry_type_data_format, log_entry_type_data_meets, log_entry_type_data_plain, log_entry_type_data_tag, log_entry_type_data_variants};
ghost use Rattle.ct.specs.declared.log_entry_type_data.LogEntryTypeData.{LogEntryTypeData};
ghost use Rattle.tls_codec_views.specs.Views.{IsCase};
ghost use Rattle.ct.specs.declared.log_entry_type_data.LogEntryTypeDataView.{LogEntryTypeDataView};

use crate::{ASN1Cert, PreCert};
use std::alloc::Global;
use tls_codec::{
    ByRef, Deserialize, DeserializeBytes, Error, Serialize, Sink, Size, Source, unknown_value,
};
use tls_codec_validate::{Rejected, Validate, split_u16};
use tls_codec_views::{Choice, Encoded};

const X509_ENTRY: u16 = 0;

const PRECERT_ENTRY: u16 = 1;

/// `LogEntryType entry_type` of `SignedCertificateTimestampTBS` (RFC 6962, section 3.2),
/// and what comes after each.
#[derive(PartialEq, Eq, Debug, Clone, Drop)]
pub enum LogEntryTypeData {
    /// `case x509_entry: ASN.1Cert;`
    X509Entry(ASN1Cert),
    /// `case precert_entry: PreCert;`
    PrecertEntry(PreCert),
}

impl Size for LogEntryTypeData {
    ghost plain = { log_entry_type_data_plain };

    ghost format = { log_entry_type_data_format };

    fn tls_serialized_len(&self) -> usize {
        match self {
            LogEntryTypeData::X509Entry(asn_1_cert) => (
                X509_ENTRY,
                ByRef(asn_1_cert),
            ).tls_serialized_len(),
            LogEntryTypeData::PrecertEntry(pre_cert) => (
                PRECERT_ENTRY,
                ByRef(pre_cert),
            ).tls_serialized_len(),
        }
    }

    ghost lawful = { log_entry_type_data_meets };
}

impl Serialize for LogEntryTypeData {
    fn tls_serialize<W: Sink>(&self, writer: &mut W) -> Result<usize, Error> {
        match self {
            LogEntryTypeData::X509Entry(asn_1_cert) => (
                X509_ENTRY,
                ByRef(asn_1_cert),
            ).tls_serialize(writer),
            LogEntryTypeData::PrecertEntry(pre_cert) => (
                PRECERT_ENTRY,
                ByRef(pre_cert),
            ).tls_serialize(writer),
        }
    }

    fn tls_serialize_into(&self, out: &mut Vec<u8>) -> Result<usize, Error> {
        match self {
            LogEntryTypeData::X509Entry(asn_1_cert) => (
                X509_ENTRY,
                ByRef(asn_1_cert),
            ).tls_serialize_into(out),
            LogEntryTypeData::PrecertEntry(pre_cert) => (
                PRECERT_ENTRY,
                ByRef(pre_cert),
            ).tls_serialize_into(out),
        }
    }
}

impl Deserialize for LogEntryTypeData {
    ghost names = { tagged_source_names 2
        (variant_source_names 0 ⟦<ASN1Cert as Deserialize>⟧.names
        (variant_source_names 1 ⟦<PreCert as Deserialize>⟧.names
        no_variant_source_names)) };

    fn tls_deserialize<R: Source>(alloc: Global, src: &mut R) -> Result<LogEntryTypeData, Error> {
        let tag = u16::tls_deserialize(alloc, src)?;
        match tag {
            X509_ENTRY => {
                let asn_1_cert = ASN1Cert::tls_deserialize(alloc, src)?;
                Ok(LogEntryTypeData::X509Entry(asn_1_cert))
            }
            PRECERT_ENTRY => {
                let pre_cert = PreCert::tls_deserialize(alloc, src)?;
                Ok(LogEntryTypeData::PrecertEntry(pre_cert))
            }
            _ => Err(unknown_value(u64::from(tag))),
        }
    }
}

impl DeserializeBytes for LogEntryTypeData {
    ghost names = { tagged_names 2
        (variant_names 0 ⟦<ASN1Cert as DeserializeBytes>⟧.names
        (variant_names 1 ⟦<PreCert as DeserializeBytes>⟧.names
        no_variant_names)) };

    fn tls_deserialize_bytes(
        alloc: Global,
        whole: &[u8],
    ) -> Result<(LogEntryTypeData, &[u8]), Error> {
        let (tag, rest) = u16::tls_deserialize_bytes(alloc, whole)?;
        match tag {
            X509_ENTRY => {
                let (asn_1_cert, rest) = ASN1Cert::tls_deserialize_bytes(alloc, rest)?;
                Ok((LogEntryTypeData::X509Entry(asn_1_cert), rest))
            }
            PRECERT_ENTRY => {
                let (pre_cert, rest) = PreCert::tls_deserialize_bytes(alloc, rest)?;
                Ok((LogEntryTypeData::PrecertEntry(pre_cert), rest))
            }
            _ => Err(unknown_value(u64::from(tag))),
        }
    }
}

impl Validate for LogEntryTypeData {
    ghost places = { tagged_places 2
        (variant_places 0 ⟦<ASN1Cert as Validate>⟧.places
        (variant_places 1 ⟦<PreCert as Validate>⟧.places
        no_variant_places)) };

    fn tls_validate_prefix(whole: &[u8]) -> Result<&[u8], Rejected<'_>> {
        let (tag, rest) = split_u16(whole)?;
        match tag {
            X509_ENTRY => {
                let behind = ASN1Cert::tls_validate_prefix(rest)?;
                Ok(behind)
            }
            PRECERT_ENTRY => {
                let behind = PreCert::tls_validate_prefix(rest)?;
                Ok(behind)
            }
            _ => Err(Rejected {
                error: unknown_value(u64::from(tag)),
                rest: whole,
            }),
        }
    }
}

impl Choice for LogEntryTypeData {
    type Tag = u16;

    ghost variants = { log_entry_type_data_variants };

    ghost as_choice = { λ bytes is. is };
}

/// The encoding of a [`LogEntryTypeData`], split into its case and fields.
#[derive(Drop)]
pub enum LogEntryTypeDataView<'a> {
    /// `case x509_entry: ASN.1Cert;`
    X509Entry(Encoded<'a, ASN1Cert>),
    /// `case precert_entry: PreCert;`
    PrecertEntry(Encoded<'a, PreCert>),
}

impl<'a> From<Encoded<'a, LogEntryTypeData>> for LogEntryTypeDataView<'a> {
    ghost from_gives = { λ whole view. elim view as (λ v. Type 0) [
      | LogEntryTypeDataView.X509Entry a0 ↦ IsCase 2 0 whole a0
      | LogEntryTypeDataView.PrecertEntry a0 ↦ IsCase 2 1 whole a0
    ] };

    fn from(whole: Encoded<'a, LogEntryTypeData>) -> LogEntryTypeDataView<'a> {
        let (tag, parts) = whole.case();
        match tag {
            0 => LogEntryTypeDataView::X509Entry(Encoded::from_only_part(parts)),
            1 => LogEntryTypeDataView::PrecertEntry(Encoded::from_only_part(parts)),
            _ => unreachable!(),
        }
    }
}

impl LogEntryTypeData {
    /// The tag of this value's case.
    pub fn entry_type(&self) -> u16
        ensures { result ≡ log_entry_type_data_tag self.now }
    {
        match self {
            LogEntryTypeData::X509Entry(_) => 0,
            LogEntryTypeData::PrecertEntry(_) => 1,
        }
    }
}

/// The case `x509_entry` with this content.
impl From<ASN1Cert> for LogEntryTypeData {
    ghost from_gives = { λ content value. value ≡ LogEntryTypeData.X509Entry content };

    fn from(content: ASN1Cert) -> LogEntryTypeData {
        LogEntryTypeData::X509Entry(content)
    }
}

/// The case `precert_entry` with this content.
impl From<PreCert> for LogEntryTypeData {
    ghost from_gives = { λ content value. value ≡ LogEntryTypeData.PrecertEntry content };

    fn from(content: PreCert) -> LogEntryTypeData {
        LogEntryTypeData::PrecertEntry(content)
    }
}

/// Two values are equal if and only if they have the same case and all their fields are equal.
pub fn is_compared_by_its_case()
    ensures tag { (x y : LogEntryTypeData) →
        IsTrue (⟦<LogEntryTypeData as PartialEq>⟧.eq x y)
        → log_entry_type_data_tag x ≡ log_entry_type_data_tag y }
    ensures case_0 { (a0 b0 : _) →
        ⟦<LogEntryTypeData as PartialEq>⟧.eq (LogEntryTypeData.X509Entry a0)
        (LogEntryTypeData.X509Entry b0)
        ≡ ⟦<ASN1Cert as PartialEq>⟧.eq a0 b0 }
    ensures case_1 { (a0 b0 : _) →
        ⟦<LogEntryTypeData as PartialEq>⟧.eq (LogEntryTypeData.PrecertEntry a0)
        (LogEntryTypeData.PrecertEntry b0)
        ≡ ⟦<PreCert as PartialEq>⟧.eq a0 b0 }
{}
