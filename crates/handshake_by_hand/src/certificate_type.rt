//! [`CertificateType`], which says what the entries of a [`Certificate`](crate::Certificate) are.
ghost use Rattle.std.specs.Prelude.{◌≡◌};
ghost use Rattle.handshake_by_hand.specs.CertificateTypes.{certificate_type_format, certificate_type_meets, certificate_type_plain, type_number};

use std::alloc::Global;
use std::marker::PhantomData;
use tls_codec::{Deserialize, DeserializeBytes, Error, Serialize, Sink, Size, Source};
use tls_codec_cases::{Case, Or, Selector, Tagged, append_as, write_as};

/// `CertificateType` (RFC 8446, section 4.4.2): X.509 if no other type was agreed on.
#[derive(PartialEq, Eq, Debug, Clone, Copy)]
pub enum CertificateType {
    /// `X509(0)`
    X509,
    /// `RawPublicKey(2)`
    RawPublicKey,
}

type CertificateTypes = Tagged<u8, Or<Case<0, ()>, Case<2, ()>>>;

impl CertificateType {
    fn cases(&self) -> CertificateTypes
        ensures { ⟦<CertificateTypes as Size>⟧.plain result ≡ certificate_type_plain self.now }
    {
        let cases = match self {
            CertificateType::X509 => Or::First(Case(())),
            CertificateType::RawPublicKey => Or::Second(Case(())),
        };
        Tagged(cases, PhantomData)
    }

    fn of(cases: CertificateTypes) -> CertificateType
        ensures { certificate_type_plain result ≡ ⟦<CertificateTypes as Size>⟧.plain cases }
    {
        match cases.0 {
            Or::First(_) => CertificateType::X509,
            Or::Second(_) => CertificateType::RawPublicKey,
        }
    }
}

impl Selector for CertificateType {
    ghost selected = { type_number };

    fn selects(&self) -> u64 {
        match self {
            CertificateType::X509 => 0,
            CertificateType::RawPublicKey => 2,
        }
    }
}

impl Size for CertificateType {
    ghost plain = { certificate_type_plain };

    ghost format = { certificate_type_format };

    fn tls_serialized_len(&self) -> usize {
        self.cases().tls_serialized_len()
    }

    ghost lawful = { certificate_type_meets };
}

impl Serialize for CertificateType {
    fn tls_serialize<W: Sink>(&self, writer: &mut W) -> Result<usize, Error> {
        write_as(self, &self.cases(), writer)
    }

    fn tls_serialize_into(&self, out: &mut Vec<u8>) -> Result<usize, Error> {
        append_as(self, &self.cases(), out)
    }
}

impl Deserialize for CertificateType {
    ghost names = { ⟦<CertificateTypes as Deserialize>⟧.names };

    /// `UnknownValue`: no type has the number.
    fn tls_deserialize<R: Source>(alloc: Global, src: &mut R) -> Result<CertificateType, Error> {
        let cases = <CertificateTypes>::tls_deserialize(alloc, src)?;
        Ok(CertificateType::of(cases))
    }
}

impl DeserializeBytes for CertificateType {
    ghost names = { ⟦<CertificateTypes as DeserializeBytes>⟧.names };

    /// `UnknownValue`: no type has the number.
    fn tls_deserialize_bytes(
        alloc: Global,
        whole: &[u8],
    ) -> Result<(CertificateType, &[u8]), Error> {
        let (cases, rest) = <CertificateTypes>::tls_deserialize_bytes(alloc, whole)?;
        Ok((CertificateType::of(cases), rest))
    }
}
