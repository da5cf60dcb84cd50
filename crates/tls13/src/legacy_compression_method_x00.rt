//! [`LegacyCompressionMethodX00`].
ghost use Rattle.std.specs.Prelude.{◌≡◌, MatchOption, MatchResult, Some, false, nat_eq};
ghost use Rattle.std.specs.Fmt.{padded};
ghost use Rattle.std.specs.Ordering.{nat_cmp};
ghost use Rattle.tls_codec.specs.Errors.{UnknownValue};
ghost use Rattle.tls_codec.specs.OwnMessages.{values_names, values_source_names};
ghost use Rattle.tls_codec_validate.specs.TaggedPlaces.{values_places};
ghost use Rattle.tls13.specs.LegacyCompressionMethodX00.{legacy_compression_method_x00_code, legacy_compression_method_x00_format, legacy_compression_method_x00_has, legacy_compression_method_x00_meets, legacy_compression_method_x00_name, legacy_compression_method_x00_plain};
ghost use Rattle.tls13.specs.declared.legacy_compression_method_x00.LegacyCompressionMethodX00.{LegacyCompressionMethodX00};

use std::alloc::Global;
use std::fmt;
use tls_codec::{
    Deserialize, DeserializeBytes, Error, Serialize, Sink, Size, Source, unknown_value,
};
use tls_codec_validate::{Rejected, Validate, split_u8};
use tls_codec_views::{Encoded, Numbered, ReadInPlace};

/// `LegacyCompressionMethodX00`.
#[derive(PartialEq, Eq, PartialOrd, Ord, Hash, Debug, Clone, Copy)]
pub enum LegacyCompressionMethodX00 {
    /// `0x00(0)`
    X00,
}

impl LegacyCompressionMethodX00 {
    /// Its number.
    pub fn code(&self) -> u8
        ensures { result ≡ legacy_compression_method_x00_code self.now }
    {
        0
    }

    /// Its name in the presentation language.
    pub fn name(&self) -> &'static str
        ensures { result.now ≡ legacy_compression_method_x00_name self.now }
    {
        "0x00"
    }

    /// The value with this number, if there is one.
    pub fn of_code(code: u8) -> Option<LegacyCompressionMethodX00>
        ensures { MatchOption result (legacy_compression_method_x00_has code ≡ false)
            (λ v. legacy_compression_method_x00_code v ≡ code) }
    {
        match code {
            0 => Some(LegacyCompressionMethodX00::X00),
            _ => None,
        }
    }
}

/// Its name.
impl fmt::Display for LegacyCompressionMethodX00 {
    ghost output = { λ v. Some (legacy_compression_method_x00_name v) };

    ghost styled_output = { λ v spec. Some (padded spec (legacy_compression_method_x00_name v)) };

    fn fmt<W: fmt::Write>(&self, f: &mut fmt::Formatter<W>) -> fmt::Result {
        f.pad(self.name())
    }
}

/// Its number.
impl From<LegacyCompressionMethodX00> for u8 {
    ghost from_gives = { λ v number. number ≡ legacy_compression_method_x00_code v };

    fn from(value: LegacyCompressionMethodX00) -> u8 {
        value.code()
    }
}

/// The value with this number.
impl TryFrom<u8> for LegacyCompressionMethodX00 {
    type Error = Error;

    ghost try_from_gives = { λ tag r. MatchResult r
        (λ v. legacy_compression_method_x00_code v ≡ tag)
        (λ e. (legacy_compression_method_x00_has tag ≡ false) × (e ≡ UnknownValue tag)) };

    fn try_from(tag: u8) -> Result<LegacyCompressionMethodX00, Error> {
        match LegacyCompressionMethodX00::of_code(tag) {
            Some(value) => Ok(value),
            None => Err(unknown_value(u64::from(tag))),
        }
    }
}

impl Size for LegacyCompressionMethodX00 {
    ghost plain = { legacy_compression_method_x00_plain };

    ghost format = { legacy_compression_method_x00_format };

    fn tls_serialized_len(&self) -> usize {
        1
    }

    ghost lawful = { legacy_compression_method_x00_meets };
}

impl Serialize for LegacyCompressionMethodX00 {
    fn tls_serialize<W: Sink>(&self, writer: &mut W) -> Result<usize, Error> {
        self.code().tls_serialize(writer)
    }

    fn tls_serialize_into(&self, out: &mut Vec<u8>) -> Result<usize, Error> {
        self.code().tls_serialize_into(out)
    }
}

impl Deserialize for LegacyCompressionMethodX00 {
    ghost names = { values_source_names 1 legacy_compression_method_x00_has };

    fn tls_deserialize<R: Source>(
        alloc: Global,
        src: &mut R,
    ) -> Result<LegacyCompressionMethodX00, Error> {
        let tag = u8::tls_deserialize(alloc, src)?;
        match LegacyCompressionMethodX00::of_code(tag) {
            Some(value) => Ok(value),
            None => Err(unknown_value(u64::from(tag))),
        }
    }
}

impl DeserializeBytes for LegacyCompressionMethodX00 {
    ghost names = { values_names 1 legacy_compression_method_x00_has };

    fn tls_deserialize_bytes(
        alloc: Global,
        whole: &[u8],
    ) -> Result<(LegacyCompressionMethodX00, &[u8]), Error> {
        let (tag, rest) = u8::tls_deserialize_bytes(alloc, whole)?;
        match LegacyCompressionMethodX00::of_code(tag) {
            Some(value) => Ok((value, rest)),
            None => Err(unknown_value(u64::from(tag))),
        }
    }
}

impl Validate for LegacyCompressionMethodX00 {
    ghost places = { values_places 1 legacy_compression_method_x00_has };

    fn tls_validate_prefix(whole: &[u8]) -> Result<&[u8], Rejected<'_>> {
        let (tag, rest) = split_u8(whole)?;
        match LegacyCompressionMethodX00::of_code(tag) {
            Some(_value) => Ok(rest),
            None => Err(Rejected {
                error: unknown_value(u64::from(tag)),
                rest: whole,
            }),
        }
    }
}

impl Numbered for LegacyCompressionMethodX00 {
    type Tag = u8;

    ghost has = { legacy_compression_method_x00_has };

    ghost as_values = { λ bytes is. is };
}

impl ReadInPlace for LegacyCompressionMethodX00 {
    fn read(encoded: &Encoded<'_, LegacyCompressionMethodX00>) -> LegacyCompressionMethodX00 {
        match encoded.number() {
            0 => LegacyCompressionMethodX00::X00,
            _ => unreachable!(),
        }
    }
}

/// Two values are equal if and only if their numbers are equal.
pub fn is_compared_by_its_number()
    ensures { (x y : LegacyCompressionMethodX00) →
        ⟦<LegacyCompressionMethodX00 as PartialEq>⟧.eq x y
        ≡ nat_eq (legacy_compression_method_x00_code x) (legacy_compression_method_x00_code y) }
{}

/// Values are ordered by their numbers.
pub fn is_ordered_by_its_number()
    ensures { (x y : LegacyCompressionMethodX00) →
        ⟦<LegacyCompressionMethodX00 as Ord>⟧.cmp x y
        ≡ nat_cmp (legacy_compression_method_x00_code x) (legacy_compression_method_x00_code y) }
{}
