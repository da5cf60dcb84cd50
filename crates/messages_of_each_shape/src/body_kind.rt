//! [`BodyKind`].
ghost use Rattle.std.specs.Prelude.{◌≡◌, MatchOption, MatchResult, Some, false, nat_eq};
ghost use Rattle.std.specs.Fmt.{padded};
ghost use Rattle.std.specs.Ordering.{nat_cmp};
ghost use Rattle.tls_codec.specs.Errors.{UnknownValue};
ghost use Rattle.std.proofs.Common.{refl};
ghost use Rattle.tls_codec.specs.OwnMessages.{values, values_names, values_source_names};
ghost use Rattle.tls_codec_validate.specs.TaggedPlaces.{values_places};
ghost use Rattle.messages_of_each_shape.specs.BodyKind.{body_kind_code, body_kind_format, body_kind_has, body_kind_meets, body_kind_name, body_kind_plain, body_kind_selected};
ghost use Rattle.messages_of_each_shape.specs.declared.body_kind.BodyKind.{BodyKind};

use std::alloc::Global;
use std::fmt;
use tls_codec::{
    Deserialize, DeserializeBytes, Error, Serialize, Sink, Size, Source, unknown_value,
};
use tls_codec_cases::Selector;
use tls_codec_validate::{
    Keyed, Rejected, TagFirst, TagKeyed, Validate, ValidateKeyed, split_u8, validate_tag_first,
};
use tls_codec_views::{Encoded, Numbered, ReadInPlace};

/// `BodyKind`.
#[derive(PartialEq, Eq, PartialOrd, Ord, Hash, Debug, Clone, Copy)]
pub enum BodyKind {
    /// `chat(1)`
    Chat,
    /// `file(2)`
    File,
}

impl BodyKind {
    /// Its number.
    pub fn code(&self) -> u8
        ensures { result ≡ body_kind_code self.now }
    {
        match self {
            BodyKind::Chat => 1,
            BodyKind::File => 2,
        }
    }

    /// Its name in the presentation language.
    pub fn name(&self) -> &'static str
        ensures { result.now ≡ body_kind_name self.now }
    {
        match self {
            BodyKind::Chat => "chat",
            BodyKind::File => "file",
        }
    }

    /// The value with this number, if there is one.
    pub fn of_code(code: u8) -> Option<BodyKind>
        ensures { MatchOption result (body_kind_has code ≡ false) (λ v. body_kind_code v ≡ code) }
    {
        match code {
            1 => Some(BodyKind::Chat),
            2 => Some(BodyKind::File),
            _ => None,
        }
    }
}

/// Its name.
impl fmt::Display for BodyKind {
    ghost output = { λ v. Some (body_kind_name v) };

    ghost styled_output = { λ v spec. Some (padded spec (body_kind_name v)) };

    fn fmt<W: fmt::Write>(&self, f: &mut fmt::Formatter<W>) -> fmt::Result {
        f.pad(self.name())
    }
}

/// Its number.
impl From<BodyKind> for u8 {
    ghost from_gives = { λ v number. number ≡ body_kind_code v };

    fn from(value: BodyKind) -> u8 {
        value.code()
    }
}

/// The value with this number.
impl TryFrom<u8> for BodyKind {
    type Error = Error;

    ghost try_from_gives = { λ tag r. MatchResult r
        (λ v. body_kind_code v ≡ tag)
        (λ e. (body_kind_has tag ≡ false) × (e ≡ UnknownValue tag)) };

    fn try_from(tag: u8) -> Result<BodyKind, Error> {
        match BodyKind::of_code(tag) {
            Some(value) => Ok(value),
            None => Err(unknown_value(u64::from(tag))),
        }
    }
}

impl Size for BodyKind {
    ghost plain = { body_kind_plain };

    ghost format = { body_kind_format };

    fn tls_serialized_len(&self) -> usize {
        1
    }

    ghost lawful = { body_kind_meets };
}

impl Serialize for BodyKind {
    fn tls_serialize<W: Sink>(&self, writer: &mut W) -> Result<usize, Error> {
        self.code().tls_serialize(writer)
    }

    fn tls_serialize_into(&self, out: &mut Vec<u8>) -> Result<usize, Error> {
        self.code().tls_serialize_into(out)
    }
}

impl Deserialize for BodyKind {
    ghost names = { values_source_names 1 body_kind_has };

    fn tls_deserialize<R: Source>(alloc: Global, src: &mut R) -> Result<BodyKind, Error> {
        let tag = u8::tls_deserialize(alloc, src)?;
        match BodyKind::of_code(tag) {
            Some(value) => Ok(value),
            None => Err(unknown_value(u64::from(tag))),
        }
    }
}

impl DeserializeBytes for BodyKind {
    ghost names = { values_names 1 body_kind_has };

    fn tls_deserialize_bytes(alloc: Global, whole: &[u8]) -> Result<(BodyKind, &[u8]), Error> {
        let (tag, rest) = u8::tls_deserialize_bytes(alloc, whole)?;
        match BodyKind::of_code(tag) {
            Some(value) => Ok((value, rest)),
            None => Err(unknown_value(u64::from(tag))),
        }
    }
}

impl Selector for BodyKind {
    ghost selected = { body_kind_selected };

    fn selects(&self) -> u64 {
        let tag = self.code();
        u64::from(tag)
    }
}

impl Validate for BodyKind {
    ghost places = { values_places 1 body_kind_has };

    fn tls_validate_prefix(whole: &[u8]) -> Result<&[u8], Rejected<'_>> {
        let (tag, rest) = split_u8(whole)?;
        match BodyKind::of_code(tag) {
            Some(_value) => Ok(rest),
            None => Err(Rejected {
                error: unknown_value(u64::from(tag)),
                rest: whole,
            }),
        }
    }
}

impl Numbered for BodyKind {
    type Tag = u8;

    ghost has = { body_kind_has };

    ghost as_values = { λ bytes is. is };
}

impl ReadInPlace for BodyKind {
    fn read(encoded: &Encoded<'_, BodyKind>) -> BodyKind {
        match encoded.number() {
            1 => BodyKind::Chat,
            2 => BodyKind::File,
            _ => unreachable!(),
        }
    }
}

impl Keyed for BodyKind {
    type Key = u64;

    ghost is_key = { λ n c. n ≡ body_kind_selected c };

    fn key(&self) -> u64 {
        self.selects()
    }
}

impl TagKeyed for BodyKind {
    fn tag_of_key(key: &u64) -> u64 {
        *key
    }
}

impl TagFirst for BodyKind {
    type Tag = u8;

    ghost variants = { values body_kind_has };

    ghost first_tag = { body_kind_selected };

    ghost is_tagged = { λ d bytes v spelled. spelled };

    ghost is_first_tag = { λ d bytes tag parts spelled. refl };
}

impl ValidateKeyed for BodyKind {
    fn tls_validate_keyed(whole: &[u8]) -> Result<(u64, &[u8]), Rejected<'_>> {
        validate_tag_first::<BodyKind>(whole)
    }
}

/// Two values are equal if and only if their numbers are equal.
pub fn is_compared_by_its_number()
    ensures { (x y : BodyKind) →
        ⟦<BodyKind as PartialEq>⟧.eq x y
        ≡ nat_eq (body_kind_code x) (body_kind_code y) }
{}

/// Values are ordered by their numbers.
pub fn is_ordered_by_its_number()
    ensures { (x y : BodyKind) →
        ⟦<BodyKind as Ord>⟧.cmp x y
        ≡ nat_cmp (body_kind_code x) (body_kind_code y) }
{}
