//! [`CertificateType`].
ghost use Rattle.std.specs.Prelude.{◌≡◌, MatchOption, MatchResult, Some, false, nat_eq};
ghost use Rattle.std.specs.Fmt.{padded};
ghost use Rattle.std.specs.Ordering.{nat_cmp};
ghost use Rattle.tls_codec.specs.Errors.{UnknownValue};
ghost use Rattle.tls_codec.specs.OwnMessages.{values_names, values_source_names};
ghost use Rattle.tls_codec_validate.specs.TaggedPlaces.{values_places};
ghost use Rattle.tls13.specs.CertificateType.{certificate_type_code, certificate_type_format, certificate_type_has, certificate_type_meets, certificate_type_name, certificate_type_plain};
ghost use Rattle.tls13.specs.declared.certificate_type.CertificateType.{CertificateType};

use std::alloc::Global;
use std::fmt;
use tls_codec::{
    Deserialize, DeserializeBytes, Error, Serialize, Sink, Size, Source, unknown_value,
};
use tls_codec_validate::{Rejected, Validate, split_u8};
use tls_codec_views::{Encoded, Numbered, ReadInPlace};

/// `CertificateType` (RFC 8446, appendix B.3.3).
#[derive(PartialEq, Eq, PartialOrd, Ord, Hash, Debug, Clone, Copy)]
pub enum CertificateType {
    /// `X509(0)`
    X509,
    /// `OpenPGP_RESERVED(1)`
    OpenPGPReserved,
    /// `RawPublicKey(2)`
    RawPublicKey,
}

impl CertificateType {
    /// Its number.
    pub fn code(&self) -> u8
        ensures { result ≡ certificate_type_code self.now }
    {
        match self {
            CertificateType::X509 => 0,
            CertificateType::OpenPGPReserved => 1,
            CertificateType::RawPublicKey => 2,
        }
    }

    /// Its name in the presentation language.
    pub fn name(&self) -> &'static str
        ensures { result.now ≡ certificate_type_name self.now }
    {
        match self {
            CertificateType::X509 => "X509",
            CertificateType::OpenPGPReserved => "OpenPGP_RESERVED",
            CertificateType::RawPublicKey => "RawPublicKey",
        }
    }

    /// The value with this number, if there is one.
    pub fn of_code(code: u8) -> Option<CertificateType>
        ensures { MatchOption result (certificate_type_has code ≡ false)
            (λ v. certificate_type_code v ≡ code) }
    {
        match code {
            0 => Some(CertificateType::X509),
            1 => Some(CertificateType::OpenPGPReserved),
            2 => Some(CertificateType::RawPublicKey),
            _ => None,
        }
    }
}

/// Its name.
impl fmt::Display for CertificateType {
    ghost output = { λ v. Some (certificate_type_name v) };

    ghost styled_output = { λ v spec. Some (padded spec (certificate_type_name v)) };

    fn fmt<W: fmt::Write>(&self, f: &mut fmt::Formatter<W>) -> fmt::Result {
        f.pad(self.name())
    }
}

/// Its number.
impl From<CertificateType> for u8 {
    ghost from_gives = { λ v number. number ≡ certificate_type_code v };

    fn from(value: CertificateType) -> u8 {
        value.code()
    }
}

/// The value with this number.
impl TryFrom<u8> for CertificateType {
    type Error = Error;

    ghost try_from_gives = { λ tag r. MatchResult r
        (λ v. certificate_type_code v ≡ tag)
        (λ e. (certificate_type_has tag ≡ false) × (e ≡ UnknownValue tag)) };

    fn try_from(tag: u8) -> Result<CertificateType, Error> {
        match CertificateType::of_code(tag) {
            Some(value) => Ok(value),
            None => Err(unknown_value(u64::from(tag))),
        }
    }
}

impl Size for CertificateType {
    ghost plain = { certificate_type_plain };

    ghost format = { certificate_type_format };

    fn tls_serialized_len(&self) -> usize {
        1
    }

    ghost lawful = { certificate_type_meets };
}

impl Serialize for CertificateType {
    fn tls_serialize<W: Sink>(&self, writer: &mut W) -> Result<usize, Error> {
        self.code().tls_serialize(writer)
    }

    fn tls_serialize_into(&self, out: &mut Vec<u8>) -> Result<usize, Error> {
        self.code().tls_serialize_into(out)
    }
}

impl Deserialize for CertificateType {
    ghost names = { values_source_names 1 certificate_type_has };

    fn tls_deserialize<R: Source>(alloc: Global, src: &mut R) -> Result<CertificateType, Error> {
        let tag = u8::tls_deserialize(alloc, src)?;
        match CertificateType::of_code(tag) {
            Some(value) => Ok(value),
            None => Err(unknown_value(u64::from(tag))),
        }
    }
}

impl DeserializeBytes for CertificateType {
    ghost names = { values_names 1 certificate_type_has };

    fn tls_deserialize_bytes(
        alloc: Global,
        whole: &[u8],
    ) -> Result<(CertificateType, &[u8]), Error> {
        let (tag, rest) = u8::tls_deserialize_bytes(alloc, whole)?;
        match CertificateType::of_code(tag) {
            Some(value) => Ok((value, rest)),
            None => Err(unknown_value(u64::from(tag))),
        }
    }
}

impl Validate for CertificateType {
    ghost places = { values_places 1 certificate_type_has };

    fn tls_validate_prefix(whole: &[u8]) -> Result<&[u8], Rejected<'_>> {
        let (tag, rest) = split_u8(whole)?;
        match CertificateType::of_code(tag) {
            Some(_value) => Ok(rest),
            None => Err(Rejected {
                error: unknown_value(u64::from(tag)),
                rest: whole,
            }),
        }
    }
}

impl Numbered for CertificateType {
    type Tag = u8;

    ghost has = { certificate_type_has };

    ghost as_values = { λ bytes is. is };
}

impl ReadInPlace for CertificateType {
    fn read(encoded: &Encoded<'_, CertificateType>) -> CertificateType {
        match encoded.number() {
            0 => CertificateType::X509,
            1 => CertificateType::OpenPGPReserved,
            2 => CertificateType::RawPublicKey,
            _ => unreachable!(),
        }
    }
}

/// Two values are equal if and only if their numbers are equal.
pub fn is_compared_by_its_number()
    ensures { (x y : CertificateType) →
        ⟦<CertificateType as PartialEq>⟧.eq x y
        ≡ nat_eq (certificate_type_code x) (certificate_type_code y) }
{}

/// Values are ordered by their numbers.
pub fn is_ordered_by_its_number()
    ensures { (x y : CertificateType) →
        ⟦<CertificateType as Ord>⟧.cmp x y
        ≡ nat_cmp (certificate_type_code x) (certificate_type_code y) }
{}
