//! [`CertificateData`], the select of an entry, whose tag is the certificate type.
ghost use Rattle.std.specs.Prelude.{◌≡◌};
ghost use Rattle.handshake_by_hand.specs.Certificates.{certificate_data_format_for, certificate_data_meets_for, certificate_data_plain};

use crate::certificate_type::CertificateType;
use std::alloc::Global;
use tls_codec::{
    ByRef, DeserializeBytesFor, DeserializeFor, Error, SerializeFor, Sink, SizeFor, Source,
    TlsByteVec, U24, Within,
};
use tls_codec_cases::{Case, Chosen, Or, append_as_for, write_as_for};

/// `opaque <1..2^24-1>`
pub type CertificateBytes = TlsByteVec<Within<U24, 1, 0xffffff>>;

/// `select (certificate_type)` of a [`CertificateEntry`](crate::CertificateEntry): no byte has the
/// type.
#[derive(PartialEq, Eq, Debug, Clone, Drop)]
pub enum CertificateData {
    /// `case X509: opaque cert_data<1..2^24-1>;`
    X509(CertificateBytes),
    /// `case RawPublicKey: opaque ASN1_subjectPublicKeyInfo<1..2^24-1>;`
    RawPublicKey(CertificateBytes),
}

type Certificates = Chosen<Or<Case<0, CertificateBytes>, Case<2, CertificateBytes>>>;

type BorrowedCertificates<'a> = Chosen<
    Or<Case<0, ByRef<'a, CertificateBytes>>, Case<2, ByRef<'a, CertificateBytes>>>,
>;

impl CertificateData {
    fn cases(&self) -> BorrowedCertificates<'_>
        ensures { ⟦<BorrowedCertificates<'static> as SizeFor<CertificateType>>⟧.plain result
            ≡ certificate_data_plain self.now }
    {
        let cases = match self {
            CertificateData::X509(cert_data) => Or::First(Case(ByRef(cert_data))),
            CertificateData::RawPublicKey(key_info) => Or::Second(Case(ByRef(key_info))),
        };
        Chosen(cases)
    }

    fn of(cases: Certificates) -> CertificateData
        ensures { certificate_data_plain result
            ≡ ⟦<Certificates as SizeFor<CertificateType>>⟧.plain cases }
    {
        match cases.0 {
            Or::First(x509) => CertificateData::X509(x509.0),
            Or::Second(key) => CertificateData::RawPublicKey(key.0),
        }
    }
}

impl SizeFor<CertificateType> for CertificateData {
    ghost plain = { certificate_data_plain };

    ghost format_for = { certificate_data_format_for };

    fn tls_serialized_len_for(&self, certificate_type: &CertificateType) -> usize {
        self.cases().tls_serialized_len_for(certificate_type)
    }

    ghost lawful = { certificate_data_meets_for };
}

/// `EncodingError("value does not fit its context")`: the value is of the other type.
impl SerializeFor<CertificateType> for CertificateData {
    fn tls_serialize_for<W: Sink>(
        &self,
        certificate_type: &CertificateType,
        writer: &mut W,
    ) -> Result<usize, Error> {
        write_as_for(self, &self.cases(), certificate_type, writer)
    }

    fn tls_serialize_into_for(
        &self,
        certificate_type: &CertificateType,
        out: &mut Vec<u8>,
    ) -> Result<usize, Error> {
        append_as_for(self, &self.cases(), certificate_type, out)
    }
}

impl DeserializeFor<CertificateType> for CertificateData {
    ghost names = { ⟦<Certificates as DeserializeFor<CertificateType>>⟧.names };

    fn tls_deserialize_for<R: Source>(
        certificate_type: &CertificateType,
        alloc: Global,
        src: &mut R,
    ) -> Result<CertificateData, Error> {
        let cases = <Certificates>::tls_deserialize_for(certificate_type, alloc, src)?;
        Ok(CertificateData::of(cases))
    }
}

impl DeserializeBytesFor<CertificateType> for CertificateData {
    ghost names = { ⟦<Certificates as DeserializeBytesFor<CertificateType>>⟧.names };

    fn tls_deserialize_bytes_for<'a>(
        certificate_type: &CertificateType,
        alloc: Global,
        bytes: &'a [u8],
    ) -> Result<(CertificateData, &'a [u8]), Error> {
        let (cases, rest) = <Certificates>::tls_deserialize_bytes_for(
            certificate_type,
            alloc,
            bytes,
        )?;
        Ok((CertificateData::of(cases), rest))
    }
}
