//! [`CertificateTypeData`].
ghost use Rattle.std.specs.Prelude.{◌≡◌, IsTrue};
ghost use Rattle.messages_of_each_shape.specs.CertificateTypeData.{certificate_type_data_format_for, certificate_type_data_meets_for, certificate_type_data_plain, certificate_type_data_tag, certificate_type_data_variants};
ghost use Rattle.messages_of_each_shape.specs.declared.certificate_type_data.CertificateTypeData.{CertificateTypeData};

use crate::CertificateType;
use std::alloc::Global;
use tls_codec::{
    ByRef, DeserializeBytesFor, DeserializeFor, Error, SerializeFor, Sink, SizeFor, Source,
    TlsByteVec, U24, VLBytes, Within,
};
use tls_codec_cases::{Case, Chosen, Or, append_as_for, write_as_for};
use tls_codec_validate::{Rejected, ValidateFor};
use tls_codec_views::ChoiceFor;

/// `select (certificate_type)` of `Entry`: its bytes don't have the tag.
#[derive(PartialEq, Eq, Debug, Clone, Drop)]
pub enum CertificateTypeData {
    /// `case X509: opaque cert_data<1..2^24-1>;`
    X509(TlsByteVec<Within<U24, 1, 16777215>>),
    /// `case RawPublicKey: opaque ASN1_subjectPublicKeyInfo<V>;`
    RawPublicKey(VLBytes),
}

type Cases = Chosen<Or<Case<0, TlsByteVec<Within<U24, 1, 16777215>>>, Case<2, VLBytes>>>;

type ByRefCases<'a> = Chosen<
    Or<Case<0, ByRef<'a, TlsByteVec<Within<U24, 1, 16777215>>>>, Case<2, ByRef<'a, VLBytes>>>,
>;

impl CertificateTypeData {
    fn cases(&self) -> ByRefCases<'_>
        ensures { ⟦<ByRefCases<'static> as SizeFor<CertificateType>>⟧.plain result
            ≡ certificate_type_data_plain self.now }
    {
        let cases = match self {
            CertificateTypeData::X509(cert_data) => Or::First(Case(ByRef(cert_data))),
            CertificateTypeData::RawPublicKey(asn1_subject_public_key_info) => Or::Second(Case(
                ByRef(asn1_subject_public_key_info),
            )),
        };
        Chosen(cases)
    }

    fn of(cases: Cases) -> CertificateTypeData
        ensures { certificate_type_data_plain result ≡ ⟦<Cases as SizeFor<CertificateType>>⟧.plain
            cases }
    {
        match cases.0 {
            Or::First(case) => CertificateTypeData::X509(case.0),
            Or::Second(case) => CertificateTypeData::RawPublicKey(case.0),
        }
    }
}

impl SizeFor<CertificateType> for CertificateTypeData {
    ghost plain = { certificate_type_data_plain };

    ghost format_for = { certificate_type_data_format_for };

    fn tls_serialized_len_for(&self, certificate_type: &CertificateType) -> usize {
        self.cases().tls_serialized_len_for(certificate_type)
    }

    ghost lawful = { certificate_type_data_meets_for };
}

/// `EncodingError("value does not fit its context")`: the value's case is for another tag.
impl SerializeFor<CertificateType> for CertificateTypeData {
    fn tls_serialize_for<W: Sink>(
        &self,
        certificate_type: &CertificateType,
        writer: &mut W,
    ) -> Result<usize, Error> {
        write_as_for(self, &self.cases(), certificate_type, writer)
    }

    fn tls_serialize_into_for(
        &self,
        certificate_type: &CertificateType,
        out: &mut Vec<u8>,
    ) -> Result<usize, Error> {
        append_as_for(self, &self.cases(), certificate_type, out)
    }
}

impl DeserializeFor<CertificateType> for CertificateTypeData {
    ghost names = { ⟦<Cases as DeserializeFor<CertificateType>>⟧.names };

    /// `UnknownValue`: no case has the context's tag.
    fn tls_deserialize_for<R: Source>(
        certificate_type: &CertificateType,
        alloc: Global,
        src: &mut R,
    ) -> Result<CertificateTypeData, Error> {
        let cases = <Cases>::tls_deserialize_for(certificate_type, alloc, src)?;
        Ok(CertificateTypeData::of(cases))
    }
}

impl DeserializeBytesFor<CertificateType> for CertificateTypeData {
    ghost names = { ⟦<Cases as DeserializeBytesFor<CertificateType>>⟧.names };

    /// `UnknownValue`: no case has the context's tag.
    fn tls_deserialize_bytes_for<'a>(
        certificate_type: &CertificateType,
        alloc: Global,
        whole: &'a [u8],
    ) -> Result<(CertificateTypeData, &'a [u8]), Error> {
        let (cases, rest) = <Cases>::tls_deserialize_bytes_for(certificate_type, alloc, whole)?;
        Ok((CertificateTypeData::of(cases), rest))
    }
}

impl ValidateFor<CertificateType> for CertificateTypeData {
    ghost places = { ⟦<Cases as ValidateFor<CertificateType>>⟧.places };

    fn tls_validate_prefix_for<'a>(key: &u64, whole: &'a [u8]) -> Result<&'a [u8], Rejected<'a>> {
        <Cases as ValidateFor<CertificateType>>::tls_validate_prefix_for(key, whole)
    }
}

impl ChoiceFor<CertificateType> for CertificateTypeData {
    ghost variants = { certificate_type_data_variants };

    ghost as_choice = { λ c bytes is. is };
}

/// The case `X509` with this content.
impl From<TlsByteVec<Within<U24, 1, 16777215>>> for CertificateTypeData {
    ghost from_gives = { λ content value. value ≡ CertificateTypeData.X509 content };

    fn from(content: TlsByteVec<Within<U24, 1, 16777215>>) -> CertificateTypeData {
        CertificateTypeData::X509(content)
    }
}

/// The case `RawPublicKey` with this content.
impl From<VLBytes> for CertificateTypeData {
    ghost from_gives = { λ content value. value ≡ CertificateTypeData.RawPublicKey content };

    fn from(content: VLBytes) -> CertificateTypeData {
        CertificateTypeData::RawPublicKey(content)
    }
}

/// Two values are equal if and only if they have the same case and all their fields are equal.
pub fn is_compared_by_its_case()
    ensures tag { (x y : CertificateTypeData) →
        IsTrue (⟦<CertificateTypeData as PartialEq>⟧.eq x y)
        → certificate_type_data_tag x ≡ certificate_type_data_tag y }
    ensures case_0 { (a0 b0 : _) →
        ⟦<CertificateTypeData as PartialEq>⟧.eq (CertificateTypeData.X509 a0)
        (CertificateTypeData.X509 b0)
        ≡ ⟦<TlsByteVec<Within<U24, 1, 16777215>> as PartialEq>⟧.eq a0 b0 }
    ensures case_2 { (a0 b0 : _) →
        ⟦<CertificateTypeData as PartialEq>⟧.eq (CertificateTypeData.RawPublicKey a0)
        (CertificateTypeData.RawPublicKey b0)
        ≡ ⟦<VLBytes as PartialEq>⟧.eq a0 b0 }
{}
