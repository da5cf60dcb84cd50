//! [`ProtocolVersionX0303`].
ghost use Rattle.std.specs.Prelude.{◌≡◌, MatchOption, MatchResult, Some, false, nat_eq};
ghost use Rattle.std.specs.Fmt.{padded};
ghost use Rattle.std.specs.Ordering.{nat_cmp};
ghost use Rattle.tls_codec.specs.Errors.{UnknownValue};
ghost use Rattle.tls_codec.specs.OwnMessages.{values_names, values_source_names};
ghost use Rattle.tls_codec_validate.specs.TaggedPlaces.{values_places};
ghost use Rattle.tls13.specs.ProtocolVersionX0303.{protocol_version_x0303_code, protocol_version_x0303_format, protocol_version_x0303_has, protocol_version_x0303_meets, protocol_version_x0303_name, protocol_version_x0303_plain};
ghost use Rattle.tls13.specs.declared.protocol_version_x0303.ProtocolVersionX0303.{ProtocolVersionX0303};

use std::alloc::Global;
use std::fmt;
use tls_codec::{
    Deserialize, DeserializeBytes, Error, Serialize, Sink, Size, Source, unknown_value,
};
use tls_codec_validate::{Rejected, Validate, split_u16};
use tls_codec_views::{Encoded, Numbered, ReadInPlace};

/// `ProtocolVersionX0303`.
#[derive(PartialEq, Eq, PartialOrd, Ord, Hash, Debug, Clone, Copy)]
pub enum ProtocolVersionX0303 {
    /// `0x0303(771)`
    X0303,
}

impl ProtocolVersionX0303 {
    /// Its number.
    pub fn code(&self) -> u16
        ensures { result ≡ protocol_version_x0303_code self.now }
    {
        771
    }

    /// Its name in the presentation language.
    pub fn name(&self) -> &'static str
        ensures { result.now ≡ protocol_version_x0303_name self.now }
    {
        "0x0303"
    }

    /// The value with this number, if there is one.
    pub fn of_code(code: u16) -> Option<ProtocolVersionX0303>
        ensures { MatchOption result (protocol_version_x0303_has code ≡ false)
            (λ v. protocol_version_x0303_code v ≡ code) }
    {
        match code {
            771 => Some(ProtocolVersionX0303::X0303),
            _ => None,
        }
    }
}

/// Its name.
impl fmt::Display for ProtocolVersionX0303 {
    ghost output = { λ v. Some (protocol_version_x0303_name v) };

    ghost styled_output = { λ v spec. Some (padded spec (protocol_version_x0303_name v)) };

    fn fmt<W: fmt::Write>(&self, f: &mut fmt::Formatter<W>) -> fmt::Result {
        f.pad(self.name())
    }
}

/// Its number.
impl From<ProtocolVersionX0303> for u16 {
    ghost from_gives = { λ v number. number ≡ protocol_version_x0303_code v };

    fn from(value: ProtocolVersionX0303) -> u16 {
        value.code()
    }
}

/// The value with this number.
impl TryFrom<u16> for ProtocolVersionX0303 {
    type Error = Error;

    ghost try_from_gives = { λ tag r. MatchResult r
        (λ v. protocol_version_x0303_code v ≡ tag)
        (λ e. (protocol_version_x0303_has tag ≡ false) × (e ≡ UnknownValue tag)) };

    fn try_from(tag: u16) -> Result<ProtocolVersionX0303, Error> {
        match ProtocolVersionX0303::of_code(tag) {
            Some(value) => Ok(value),
            None => Err(unknown_value(u64::from(tag))),
        }
    }
}

impl Size for ProtocolVersionX0303 {
    ghost plain = { protocol_version_x0303_plain };

    ghost format = { protocol_version_x0303_format };

    fn tls_serialized_len(&self) -> usize {
        2
    }

    ghost lawful = { protocol_version_x0303_meets };
}

impl Serialize for ProtocolVersionX0303 {
    fn tls_serialize<W: Sink>(&self, writer: &mut W) -> Result<usize, Error> {
        self.code().tls_serialize(writer)
    }

    fn tls_serialize_into(&self, out: &mut Vec<u8>) -> Result<usize, Error> {
        self.code().tls_serialize_into(out)
    }
}

impl Deserialize for ProtocolVersionX0303 {
    ghost names = { values_source_names 2 protocol_version_x0303_has };

    fn tls_deserialize<R: Source>(
        alloc: Global,
        src: &mut R,
    ) -> Result<ProtocolVersionX0303, Error> {
        let tag = u16::tls_deserialize(alloc, src)?;
        match ProtocolVersionX0303::of_code(tag) {
            Some(value) => Ok(value),
            None => Err(unknown_value(u64::from(tag))),
        }
    }
}

impl DeserializeBytes for ProtocolVersionX0303 {
    ghost names = { values_names 2 protocol_version_x0303_has };

    fn tls_deserialize_bytes(
        alloc: Global,
        whole: &[u8],
    ) -> Result<(ProtocolVersionX0303, &[u8]), Error> {
        let (tag, rest) = u16::tls_deserialize_bytes(alloc, whole)?;
        match ProtocolVersionX0303::of_code(tag) {
            Some(value) => Ok((value, rest)),
            None => Err(unknown_value(u64::from(tag))),
        }
    }
}

impl Validate for ProtocolVersionX0303 {
    ghost places = { values_places 2 protocol_version_x0303_has };

    fn tls_validate_prefix(whole: &[u8]) -> Result<&[u8], Rejected<'_>> {
        let (tag, rest) = split_u16(whole)?;
        match ProtocolVersionX0303::of_code(tag) {
            Some(_value) => Ok(rest),
            None => Err(Rejected {
                error: unknown_value(u64::from(tag)),
                rest: whole,
            }),
        }
    }
}

impl Numbered for ProtocolVersionX0303 {
    type Tag = u16;

    ghost has = { protocol_version_x0303_has };

    ghost as_values = { λ bytes is. is };
}

impl ReadInPlace for ProtocolVersionX0303 {
    fn read(encoded: &Encoded<'_, ProtocolVersionX0303>) -> ProtocolVersionX0303 {
        match encoded.number() {
            771 => ProtocolVersionX0303::X0303,
            _ => unreachable!(),
        }
    }
}

/// Two values are equal if and only if their numbers are equal.
pub fn is_compared_by_its_number()
    ensures { (x y : ProtocolVersionX0303) →
        ⟦<ProtocolVersionX0303 as PartialEq>⟧.eq x y
        ≡ nat_eq (protocol_version_x0303_code x) (protocol_version_x0303_code y) }
{}

/// Values are ordered by their numbers.
pub fn is_ordered_by_its_number()
    ensures { (x y : ProtocolVersionX0303) →
        ⟦<ProtocolVersionX0303 as Ord>⟧.cmp x y
        ≡ nat_cmp (protocol_version_x0303_code x) (protocol_version_x0303_code y) }
{}
