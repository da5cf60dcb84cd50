//! [`ProtocolVersionMls10`].
ghost use Rattle.std.specs.Prelude.{◌≡◌, MatchOption, MatchResult, Some, false, nat_eq};
ghost use Rattle.std.specs.Fmt.{padded};
ghost use Rattle.std.specs.Ordering.{nat_cmp};
ghost use Rattle.tls_codec.specs.Errors.{UnknownValue};
ghost use Rattle.tls_codec.specs.OwnMessages.{values_names, values_source_names};
ghost use Rattle.tls_codec_validate.specs.TaggedPlaces.{values_places};
ghost use Rattle.mls_group.specs.ProtocolVersionMls10.{protocol_version_mls10_code, protocol_version_mls10_format, protocol_version_mls10_has, protocol_version_mls10_meets, protocol_version_mls10_name, protocol_version_mls10_plain};
ghost use Rattle.mls_group.specs.declared.protocol_version_mls10.ProtocolVersionMls10.{ProtocolVersionMls10};

use std::alloc::Global;
use std::fmt;
use tls_codec::{
    Deserialize, DeserializeBytes, Error, Serialize, Sink, Size, Source, unknown_value,
};
use tls_codec_validate::{Rejected, Validate, split_u16};
use tls_codec_views::{Encoded, Numbered, ReadInPlace};

/// `ProtocolVersionMls10`.
#[derive(PartialEq, Eq, PartialOrd, Ord, Hash, Debug, Clone, Copy)]
pub enum ProtocolVersionMls10 {
    /// `mls10(1)`
    Mls10,
}

impl ProtocolVersionMls10 {
    /// Its number.
    pub fn code(&self) -> u16
        ensures { result ≡ protocol_version_mls10_code self.now }
    {
        1
    }

    /// Its name in the presentation language.
    pub fn name(&self) -> &'static str
        ensures { result.now ≡ protocol_version_mls10_name self.now }
    {
        "mls10"
    }

    /// The value with this number, if there is one.
    pub fn of_code(code: u16) -> Option<ProtocolVersionMls10>
        ensures { MatchOption result (protocol_version_mls10_has code ≡ false)
            (λ v. protocol_version_mls10_code v ≡ code) }
    {
        match code {
            1 => Some(ProtocolVersionMls10::Mls10),
            _ => None,
        }
    }
}

/// Its name.
impl fmt::Display for ProtocolVersionMls10 {
    ghost output = { λ v. Some (protocol_version_mls10_name v) };

    ghost styled_output = { λ v spec. Some (padded spec (protocol_version_mls10_name v)) };

    fn fmt<W: fmt::Write>(&self, f: &mut fmt::Formatter<W>) -> fmt::Result {
        f.pad(self.name())
    }
}

/// Its number.
impl From<ProtocolVersionMls10> for u16 {
    ghost from_gives = { λ v number. number ≡ protocol_version_mls10_code v };

    fn from(value: ProtocolVersionMls10) -> u16 {
        value.code()
    }
}

/// The value with this number.
impl TryFrom<u16> for ProtocolVersionMls10 {
    type Error = Error;

    ghost try_from_gives = { λ tag r. MatchResult r
        (λ v. protocol_version_mls10_code v ≡ tag)
        (λ e. (protocol_version_mls10_has tag ≡ false) × (e ≡ UnknownValue tag)) };

    fn try_from(tag: u16) -> Result<ProtocolVersionMls10, Error> {
        match ProtocolVersionMls10::of_code(tag) {
            Some(value) => Ok(value),
            None => Err(unknown_value(u64::from(tag))),
        }
    }
}

impl Size for ProtocolVersionMls10 {
    ghost plain = { protocol_version_mls10_plain };

    ghost format = { protocol_version_mls10_format };

    fn tls_serialized_len(&self) -> usize {
        2
    }

    ghost lawful = { protocol_version_mls10_meets };
}

impl Serialize for ProtocolVersionMls10 {
    fn tls_serialize<W: Sink>(&self, writer: &mut W) -> Result<usize, Error> {
        self.code().tls_serialize(writer)
    }

    fn tls_serialize_into(&self, out: &mut Vec<u8>) -> Result<usize, Error> {
        self.code().tls_serialize_into(out)
    }
}

impl Deserialize for ProtocolVersionMls10 {
    ghost names = { values_source_names 2 protocol_version_mls10_has };

    fn tls_deserialize<R: Source>(
        alloc: Global,
        src: &mut R,
    ) -> Result<ProtocolVersionMls10, Error> {
        let tag = u16::tls_deserialize(alloc, src)?;
        match ProtocolVersionMls10::of_code(tag) {
            Some(value) => Ok(value),
            None => Err(unknown_value(u64::from(tag))),
        }
    }
}

impl DeserializeBytes for ProtocolVersionMls10 {
    ghost names = { values_names 2 protocol_version_mls10_has };

    fn tls_deserialize_bytes(
        alloc: Global,
        whole: &[u8],
    ) -> Result<(ProtocolVersionMls10, &[u8]), Error> {
        let (tag, rest) = u16::tls_deserialize_bytes(alloc, whole)?;
        match ProtocolVersionMls10::of_code(tag) {
            Some(value) => Ok((value, rest)),
            None => Err(unknown_value(u64::from(tag))),
        }
    }
}

impl Validate for ProtocolVersionMls10 {
    ghost places = { values_places 2 protocol_version_mls10_has };

    fn tls_validate_prefix(whole: &[u8]) -> Result<&[u8], Rejected<'_>> {
        let (tag, rest) = split_u16(whole)?;
        match ProtocolVersionMls10::of_code(tag) {
            Some(_value) => Ok(rest),
            None => Err(Rejected {
                error: unknown_value(u64::from(tag)),
                rest: whole,
            }),
        }
    }
}

impl Numbered for ProtocolVersionMls10 {
    type Tag = u16;

    ghost has = { protocol_version_mls10_has };

    ghost as_values = { λ bytes is. is };
}

impl ReadInPlace for ProtocolVersionMls10 {
    fn read(encoded: &Encoded<'_, ProtocolVersionMls10>) -> ProtocolVersionMls10 {
        match encoded.number() {
            1 => ProtocolVersionMls10::Mls10,
            _ => unreachable!(),
        }
    }
}

/// Two values are equal if and only if their numbers are equal.
pub fn is_compared_by_its_number()
    ensures { (x y : ProtocolVersionMls10) →
        ⟦<ProtocolVersionMls10 as PartialEq>⟧.eq x y
        ≡ nat_eq (protocol_version_mls10_code x) (protocol_version_mls10_code y) }
{}

/// Values are ordered by their numbers.
pub fn is_ordered_by_its_number()
    ensures { (x y : ProtocolVersionMls10) →
        ⟦<ProtocolVersionMls10 as Ord>⟧.cmp x y
        ≡ nat_cmp (protocol_version_mls10_code x) (protocol_version_mls10_code y) }
{}
