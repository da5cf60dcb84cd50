//! [`ResumptionPSKUsage`].
ghost use Rattle.std.specs.Prelude.{◌≡◌, MatchOption, MatchResult, Some, false, nat_eq};
ghost use Rattle.std.specs.Fmt.{padded};
ghost use Rattle.std.specs.Ordering.{nat_cmp};
ghost use Rattle.tls_codec.specs.Errors.{UnknownValue};
ghost use Rattle.tls_codec.specs.OwnMessages.{values_names, values_source_names};
ghost use Rattle.tls_codec_validate.specs.TaggedPlaces.{values_places};
ghost use Rattle.mls_group.specs.ResumptionPSKUsage.{resumption_psk_usage_code, resumption_psk_usage_format, resumption_psk_usage_has, resumption_psk_usage_meets, resumption_psk_usage_name, resumption_psk_usage_plain};
ghost use Rattle.mls_group.specs.declared.resumption_psk_usage.ResumptionPSKUsage.{ResumptionPSKUsage};

use std::alloc::Global;
use std::fmt;
use tls_codec::{
    Deserialize, DeserializeBytes, Error, Serialize, Sink, Size, Source, unknown_value,
};
use tls_codec_validate::{Rejected, Validate, split_u8};
use tls_codec_views::{Encoded, Numbered, ReadInPlace};

/// `ResumptionPSKUsage` (RFC 9420, section 8.4).
#[derive(PartialEq, Eq, PartialOrd, Ord, Hash, Debug, Clone, Copy)]
pub enum ResumptionPSKUsage {
    /// `application(1)`
    Application,
    /// `reinit(2)`
    Reinit,
    /// `branch(3)`
    Branch,
}

impl ResumptionPSKUsage {
    /// Its number.
    pub fn code(&self) -> u8
        ensures { result ≡ resumption_psk_usage_code self.now }
    {
        match self {
            ResumptionPSKUsage::Application => 1,
            ResumptionPSKUsage::Reinit => 2,
            ResumptionPSKUsage::Branch => 3,
        }
    }

    /// Its name in the presentation language.
    pub fn name(&self) -> &'static str
        ensures { result.now ≡ resumption_psk_usage_name self.now }
    {
        match self {
            ResumptionPSKUsage::Application => "application",
            ResumptionPSKUsage::Reinit => "reinit",
            ResumptionPSKUsage::Branch => "branch",
        }
    }

    /// The value with this number, if there is one.
    pub fn of_code(code: u8) -> Option<ResumptionPSKUsage>
        ensures { MatchOption result (resumption_psk_usage_has code ≡ false)
            (λ v. resumption_psk_usage_code v ≡ code) }
    {
        match code {
            1 => Some(ResumptionPSKUsage::Application),
            2 => Some(ResumptionPSKUsage::Reinit),
            3 => Some(ResumptionPSKUsage::Branch),
            _ => None,
        }
    }
}

/// Its name.
impl fmt::Display for ResumptionPSKUsage {
    ghost output = { λ v. Some (resumption_psk_usage_name v) };

    ghost styled_output = { λ v spec. Some (padded spec (resumption_psk_usage_name v)) };

    fn fmt<W: fmt::Write>(&self, f: &mut fmt::Formatter<W>) -> fmt::Result {
        f.pad(self.name())
    }
}

/// Its number.
impl From<ResumptionPSKUsage> for u8 {
    ghost from_gives = { λ v number. number ≡ resumption_psk_usage_code v };

    fn from(value: ResumptionPSKUsage) -> u8 {
        value.code()
    }
}

/// The value with this number.
impl TryFrom<u8> for ResumptionPSKUsage {
    type Error = Error;

    ghost try_from_gives = { λ tag r. MatchResult r
        (λ v. resumption_psk_usage_code v ≡ tag)
        (λ e. (resumption_psk_usage_has tag ≡ false) × (e ≡ UnknownValue tag)) };

    fn try_from(tag: u8) -> Result<ResumptionPSKUsage, Error> {
        match ResumptionPSKUsage::of_code(tag) {
            Some(value) => Ok(value),
            None => Err(unknown_value(u64::from(tag))),
        }
    }
}

impl Size for ResumptionPSKUsage {
    ghost plain = { resumption_psk_usage_plain };

    ghost format = { resumption_psk_usage_format };

    fn tls_serialized_len(&self) -> usize {
        1
    }

    ghost lawful = { resumption_psk_usage_meets };
}

impl Serialize for ResumptionPSKUsage {
    fn tls_serialize<W: Sink>(&self, writer: &mut W) -> Result<usize, Error> {
        self.code().tls_serialize(writer)
    }

    fn tls_serialize_into(&self, out: &mut Vec<u8>) -> Result<usize, Error> {
        self.code().tls_serialize_into(out)
    }
}

impl Deserialize for ResumptionPSKUsage {
    ghost names = { values_source_names 1 resumption_psk_usage_has };

    fn tls_deserialize<R: Source>(alloc: Global, src: &mut R) -> Result<ResumptionPSKUsage, Error> {
        let tag = u8::tls_deserialize(alloc, src)?;
        match ResumptionPSKUsage::of_code(tag) {
            Some(value) => Ok(value),
            None => Err(unknown_value(u64::from(tag))),
        }
    }
}

impl DeserializeBytes for ResumptionPSKUsage {
    ghost names = { values_names 1 resumption_psk_usage_has };

    fn tls_deserialize_bytes(
        alloc: Global,
        whole: &[u8],
    ) -> Result<(ResumptionPSKUsage, &[u8]), Error> {
        let (tag, rest) = u8::tls_deserialize_bytes(alloc, whole)?;
        match ResumptionPSKUsage::of_code(tag) {
            Some(value) => Ok((value, rest)),
            None => Err(unknown_value(u64::from(tag))),
        }
    }
}

impl Validate for ResumptionPSKUsage {
    ghost places = { values_places 1 resumption_psk_usage_has };

    fn tls_validate_prefix(whole: &[u8]) -> Result<&[u8], Rejected<'_>> {
        let (tag, rest) = split_u8(whole)?;
        match ResumptionPSKUsage::of_code(tag) {
            Some(_value) => Ok(rest),
            None => Err(Rejected {
                error: unknown_value(u64::from(tag)),
                rest: whole,
            }),
        }
    }
}

impl Numbered for ResumptionPSKUsage {
    type Tag = u8;

    ghost has = { resumption_psk_usage_has };

    ghost as_values = { λ bytes is. is };
}

impl ReadInPlace for ResumptionPSKUsage {
    fn read(encoded: &Encoded<'_, ResumptionPSKUsage>) -> ResumptionPSKUsage {
        match encoded.number() {
            1 => ResumptionPSKUsage::Application,
            2 => ResumptionPSKUsage::Reinit,
            3 => ResumptionPSKUsage::Branch,
            _ => unreachable!(),
        }
    }
}

/// Two values are equal if and only if their numbers are equal.
pub fn is_compared_by_its_number()
    ensures { (x y : ResumptionPSKUsage) →
        ⟦<ResumptionPSKUsage as PartialEq>⟧.eq x y
        ≡ nat_eq (resumption_psk_usage_code x) (resumption_psk_usage_code y) }
{}

/// Values are ordered by their numbers.
pub fn is_ordered_by_its_number()
    ensures { (x y : ResumptionPSKUsage) →
        ⟦<ResumptionPSKUsage as Ord>⟧.cmp x y
        ≡ nat_cmp (resumption_psk_usage_code x) (resumption_psk_usage_code y) }
{}
