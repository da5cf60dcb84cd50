//! [`MagicX0102`].
ghost use Rattle.std.specs.Prelude.{◌≡◌, MatchOption, MatchResult, Some, false, nat_eq};
ghost use Rattle.std.specs.Fmt.{padded};
ghost use Rattle.std.specs.Ordering.{nat_cmp};
ghost use Rattle.tls_codec.specs.Errors.{UnknownValue};
ghost use Rattle.tls_codec.specs.OwnMessages.{values_names, values_source_names};
ghost use Rattle.tls_codec_validate.specs.TaggedPlaces.{values_places};
ghost use Rattle.messages_of_each_shape.specs.MagicX0102.{magic_x0102_code, magic_x0102_format, magic_x0102_has, magic_x0102_meets, magic_x0102_name, magic_x0102_plain};
ghost use Rattle.messages_of_each_shape.specs.declared.magic_x0102.MagicX0102.{MagicX0102};

use std::alloc::Global;
use std::fmt;
use tls_codec::{
    Deserialize, DeserializeBytes, Error, Serialize, Sink, Size, Source, unknown_value,
};
use tls_codec_validate::{Rejected, Validate, split_u16};
use tls_codec_views::{Encoded, Numbered, ReadInPlace};

/// `MagicX0102`.
#[derive(PartialEq, Eq, PartialOrd, Ord, Hash, Debug, Clone, Copy)]
pub enum MagicX0102 {
    /// `0x0102(258)`
    X0102,
}

impl MagicX0102 {
    /// Its number.
    pub fn code(&self) -> u16
        ensures { result ≡ magic_x0102_code self.now }
    {
        258
    }

    /// Its name in the presentation language.
    pub fn name(&self) -> &'static str
        ensures { result.now ≡ magic_x0102_name self.now }
    {
        "0x0102"
    }

    /// The value with this number, if there is one.
    pub fn of_code(code: u16) -> Option<MagicX0102>
        ensures { MatchOption result (magic_x0102_has code ≡ false)
            (λ v. magic_x0102_code v ≡ code) }
    {
        match code {
            258 => Some(MagicX0102::X0102),
            _ => None,
        }
    }
}

/// Its name.
impl fmt::Display for MagicX0102 {
    ghost output = { λ v. Some (magic_x0102_name v) };

    ghost styled_output = { λ v spec. Some (padded spec (magic_x0102_name v)) };

    fn fmt<W: fmt::Write>(&self, f: &mut fmt::Formatter<W>) -> fmt::Result {
        f.pad(self.name())
    }
}

/// Its number.
impl From<MagicX0102> for u16 {
    ghost from_gives = { λ v number. number ≡ magic_x0102_code v };

    fn from(value: MagicX0102) -> u16 {
        value.code()
    }
}

/// The value with this number.
impl TryFrom<u16> for MagicX0102 {
    type Error = Error;

    ghost try_from_gives = { λ tag r. MatchResult r
        (λ v. magic_x0102_code v ≡ tag)
        (λ e. (magic_x0102_has tag ≡ false) × (e ≡ UnknownValue tag)) };

    fn try_from(tag: u16) -> Result<MagicX0102, Error> {
        match MagicX0102::of_code(tag) {
            Some(value) => Ok(value),
            None => Err(unknown_value(u64::from(tag))),
        }
    }
}

impl Size for MagicX0102 {
    ghost plain = { magic_x0102_plain };

    ghost format = { magic_x0102_format };

    fn tls_serialized_len(&self) -> usize {
        2
    }

    ghost lawful = { magic_x0102_meets };
}

impl Serialize for MagicX0102 {
    fn tls_serialize<W: Sink>(&self, writer: &mut W) -> Result<usize, Error> {
        self.code().tls_serialize(writer)
    }

    fn tls_serialize_into(&self, out: &mut Vec<u8>) -> Result<usize, Error> {
        self.code().tls_serialize_into(out)
    }
}

impl Deserialize for MagicX0102 {
    ghost names = { values_source_names 2 magic_x0102_has };

    fn tls_deserialize<R: Source>(alloc: Global, src: &mut R) -> Result<MagicX0102, Error> {
        let tag = u16::tls_deserialize(alloc, src)?;
        match MagicX0102::of_code(tag) {
            Some(value) => Ok(value),
            None => Err(unknown_value(u64::from(tag))),
        }
    }
}

impl DeserializeBytes for MagicX0102 {
    ghost names = { values_names 2 magic_x0102_has };

    fn tls_deserialize_bytes(alloc: Global, whole: &[u8]) -> Result<(MagicX0102, &[u8]), Error> {
        let (tag, rest) = u16::tls_deserialize_bytes(alloc, whole)?;
        match MagicX0102::of_code(tag) {
            Some(value) => Ok((value, rest)),
            None => Err(unknown_value(u64::from(tag))),
        }
    }
}

impl Validate for MagicX0102 {
    ghost places = { values_places 2 magic_x0102_has };

    fn tls_validate_prefix(whole: &[u8]) -> Result<&[u8], Rejected<'_>> {
        let (tag, rest) = split_u16(whole)?;
        match MagicX0102::of_code(tag) {
            Some(_value) => Ok(rest),
            None => Err(Rejected {
                error: unknown_value(u64::from(tag)),
                rest: whole,
            }),
        }
    }
}

impl Numbered for MagicX0102 {
    type Tag = u16;

    ghost has = { magic_x0102_has };

    ghost as_values = { λ bytes is. is };
}

impl ReadInPlace for MagicX0102 {
    fn read(encoded: &Encoded<'_, MagicX0102>) -> MagicX0102 {
        match encoded.number() {
            258 => MagicX0102::X0102,
            _ => unreachable!(),
        }
    }
}

/// Two values are equal if and only if their numbers are equal.
pub fn is_compared_by_its_number()
    ensures { (x y : MagicX0102) →
        ⟦<MagicX0102 as PartialEq>⟧.eq x y
        ≡ nat_eq (magic_x0102_code x) (magic_x0102_code y) }
{}

/// Values are ordered by their numbers.
pub fn is_ordered_by_its_number()
    ensures { (x y : MagicX0102) →
        ⟦<MagicX0102 as Ord>⟧.cmp x y
        ≡ nat_cmp (magic_x0102_code x) (magic_x0102_code y) }
{}
