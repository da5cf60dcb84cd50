//! [`Level`].
ghost use Rattle.std.specs.Prelude.{◌≡◌, MatchOption, MatchResult, Some, false, nat_eq};
ghost use Rattle.std.specs.Fmt.{padded};
ghost use Rattle.std.specs.Ordering.{nat_cmp};
ghost use Rattle.tls_codec.specs.Errors.{UnknownValue};
ghost use Rattle.tls_codec.specs.OwnMessages.{values_names, values_source_names};
ghost use Rattle.tls_codec_validate.specs.TaggedPlaces.{values_places};
ghost use Rattle.messages_of_each_shape.specs.Level.{level_code, level_format, level_has, level_meets, level_name, level_plain};
ghost use Rattle.messages_of_each_shape.specs.declared.level.Level.{Level};

use std::alloc::Global;
use std::fmt;
use tls_codec::{
    Deserialize, DeserializeBytes, Error, Serialize, Sink, Size, Source, unknown_value,
};
use tls_codec_validate::{Rejected, Validate, split_u16};
use tls_codec_views::{Encoded, Numbered, ReadInPlace};

/// `Level`.
///
/// Values of two bytes, past those of one.
#[derive(PartialEq, Eq, PartialOrd, Ord, Hash, Debug, Clone, Copy)]
pub enum Level {
    /// `low(1)`
    Low,
    /// `middle(256)`
    Middle,
    /// `high(65535)`
    High,
}

impl Level {
    /// Its number.
    pub fn code(&self) -> u16
        ensures { result ≡ level_code self.now }
    {
        match self {
            Level::Low => 1,
            Level::Middle => 256,
            Level::High => 65535,
        }
    }

    /// Its name in the presentation language.
    pub fn name(&self) -> &'static str
        ensures { result.now ≡ level_name self.now }
    {
        match self {
            Level::Low => "low",
            Level::Middle => "middle",
            Level::High => "high",
        }
    }

    /// The value with this number, if there is one.
    pub fn of_code(code: u16) -> Option<Level>
        ensures { MatchOption result (level_has code ≡ false) (λ v. level_code v ≡ code) }
    {
        match code {
            1 => Some(Level::Low),
            256 => Some(Level::Middle),
            65535 => Some(Level::High),
            _ => None,
        }
    }
}

/// Its name.
impl fmt::Display for Level {
    ghost output = { λ v. Some (level_name v) };

    ghost styled_output = { λ v spec. Some (padded spec (level_name v)) };

    fn fmt<W: fmt::Write>(&self, f: &mut fmt::Formatter<W>) -> fmt::Result {
        f.pad(self.name())
    }
}

/// Its number.
impl From<Level> for u16 {
    ghost from_gives = { λ v number. number ≡ level_code v };

    fn from(value: Level) -> u16 {
        value.code()
    }
}

/// The value with this number.
impl TryFrom<u16> for Level {
    type Error = Error;

    ghost try_from_gives = { λ tag r. MatchResult r
        (λ v. level_code v ≡ tag)
        (λ e. (level_has tag ≡ false) × (e ≡ UnknownValue tag)) };

    fn try_from(tag: u16) -> Result<Level, Error> {
        match Level::of_code(tag) {
            Some(value) => Ok(value),
            None => Err(unknown_value(u64::from(tag))),
        }
    }
}

impl Size for Level {
    ghost plain = { level_plain };

    ghost format = { level_format };

    fn tls_serialized_len(&self) -> usize {
        2
    }

    ghost lawful = { level_meets };
}

impl Serialize for Level {
    fn tls_serialize<W: Sink>(&self, writer: &mut W) -> Result<usize, Error> {
        self.code().tls_serialize(writer)
    }

    fn tls_serialize_into(&self, out: &mut Vec<u8>) -> Result<usize, Error> {
        self.code().tls_serialize_into(out)
    }
}

impl Deserialize for Level {
    ghost names = { values_source_names 2 level_has };

    fn tls_deserialize<R: Source>(alloc: Global, src: &mut R) -> Result<Level, Error> {
        let tag = u16::tls_deserialize(alloc, src)?;
        match Level::of_code(tag) {
            Some(value) => Ok(value),
            None => Err(unknown_value(u64::from(tag))),
        }
    }
}

impl DeserializeBytes for Level {
    ghost names = { values_names 2 level_has };

    fn tls_deserialize_bytes(alloc: Global, whole: &[u8]) -> Result<(Level, &[u8]), Error> {
        let (tag, rest) = u16::tls_deserialize_bytes(alloc, whole)?;
        match Level::of_code(tag) {
            Some(value) => Ok((value, rest)),
            None => Err(unknown_value(u64::from(tag))),
        }
    }
}

impl Validate for Level {
    ghost places = { values_places 2 level_has };

    fn tls_validate_prefix(whole: &[u8]) -> Result<&[u8], Rejected<'_>> {
        let (tag, rest) = split_u16(whole)?;
        match Level::of_code(tag) {
            Some(_value) => Ok(rest),
            None => Err(Rejected {
                error: unknown_value(u64::from(tag)),
                rest: whole,
            }),
        }
    }
}

impl Numbered for Level {
    type Tag = u16;

    ghost has = { level_has };

    ghost as_values = { λ bytes is. is };
}

impl ReadInPlace for Level {
    fn read(encoded: &Encoded<'_, Level>) -> Level {
        match encoded.number() {
            1 => Level::Low,
            256 => Level::Middle,
            65535 => Level::High,
            _ => unreachable!(),
        }
    }
}

/// Two values are equal if and only if their numbers are equal.
pub fn is_compared_by_its_number()
    ensures { (x y : Level) →
        ⟦<Level as PartialEq>⟧.eq x y
        ≡ nat_eq (level_code x) (level_code y) }
{}

/// Values are ordered by their numbers.
pub fn is_ordered_by_its_number()
    ensures { (x y : Level) →
        ⟦<Level as Ord>⟧.cmp x y
        ≡ nat_cmp (level_code x) (level_code y) }
{}
