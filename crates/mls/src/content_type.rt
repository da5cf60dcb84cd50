//! [`ContentType`].
ghost use Rattle.std.specs.Prelude.{◌≡◌, MatchOption, MatchResult, Some, false, nat_eq};
ghost use Rattle.std.specs.Fmt.{padded};
ghost use Rattle.std.specs.Ordering.{nat_cmp};
ghost use Rattle.tls_codec.specs.Errors.{UnknownValue};
ghost use Rattle.std.proofs.Common.{refl};
ghost use Rattle.tls_codec.specs.OwnMessages.{values, values_names, values_source_names};
ghost use Rattle.tls_codec_validate.specs.TaggedPlaces.{values_places};
ghost use Rattle.mls.specs.ContentType.{content_type_code, content_type_format, content_type_has, content_type_meets, content_type_name, content_type_plain, content_type_selected};
ghost use Rattle.mls.specs.declared.content_type.ContentType.{ContentType};

use std::alloc::Global;
use std::fmt;
use tls_codec::{
    Deserialize, DeserializeBytes, Error, Serialize, Sink, Size, Source, unknown_value,
};
use tls_codec_cases::Selector;
use tls_codec_validate::{
    Keyed, Rejected, TagFirst, TagKeyed, Validate, ValidateKeyed, split_u8, validate_tag_first,
};
use tls_codec_views::{Encoded, Numbered, ReadInPlace};

/// `ContentType` (RFC 9420, section 6).
#[derive(PartialEq, Eq, PartialOrd, Ord, Hash, Debug, Clone, Copy)]
pub enum ContentType {
    /// `application(1)`
    Application,
    /// `proposal(2)`
    Proposal,
    /// `commit(3)`
    Commit,
}

impl ContentType {
    /// Its number.
    pub fn code(&self) -> u8
        ensures { result ≡ content_type_code self.now }
    {
        match self {
            ContentType::Application => 1,
            ContentType::Proposal => 2,
            ContentType::Commit => 3,
        }
    }

    /// Its name in the presentation language.
    pub fn name(&self) -> &'static str
        ensures { result.now ≡ content_type_name self.now }
    {
        match self {
            ContentType::Application => "application",
            ContentType::Proposal => "proposal",
            ContentType::Commit => "commit",
        }
    }

    /// The value with this number, if there is one.
    pub fn of_code(code: u8) -> Option<ContentType>
        ensures { MatchOption result (content_type_has code ≡ false)
            (λ v. content_type_code v ≡ code) }
    {
        match code {
            1 => Some(ContentType::Application),
            2 => Some(ContentType::Proposal),
            3 => Some(ContentType::Commit),
            _ => None,
        }
    }
}

/// Its name.
impl fmt::Display for ContentType {
    ghost output = { λ v. Some (content_type_name v) };

    ghost styled_output = { λ v spec. Some (padded spec (content_type_name v)) };

    fn fmt<W: fmt::Write>(&self, f: &mut fmt::Formatter<W>) -> fmt::Result {
        f.pad(self.name())
    }
}

/// Its number.
impl From<ContentType> for u8 {
    ghost from_gives = { λ v number. number ≡ content_type_code v };

    fn from(value: ContentType) -> u8 {
        value.code()
    }
}

/// The value with this number.
impl TryFrom<u8> for ContentType {
    type Error = Error;

    ghost try_from_gives = { λ tag r. MatchResult r
        (λ v. content_type_code v ≡ tag)
        (λ e. (content_type_has tag ≡ false) × (e ≡ UnknownValue tag)) };

    fn try_from(tag: u8) -> Result<ContentType, Error> {
        match ContentType::of_code(tag) {
            Some(value) => Ok(value),
            None => Err(unknown_value(u64::from(tag))),
        }
    }
}

impl Size for ContentType {
    ghost plain = { content_type_plain };

    ghost format = { content_type_format };

    fn tls_serialized_len(&self) -> usize {
        1
    }

    ghost lawful = { content_type_meets };
}

impl Serialize for ContentType {
    fn tls_serialize<W: Sink>(&self, writer: &mut W) -> Result<usize, Error> {
        self.code().tls_serialize(writer)
    }

    fn tls_serialize_into(&self, out: &mut Vec<u8>) -> Result<usize, Error> {
        self.code().tls_serialize_into(out)
    }
}

impl Deserialize for ContentType {
    ghost names = { values_source_names 1 content_type_has };

    fn tls_deserialize<R: Source>(alloc: Global, src: &mut R) -> Result<ContentType, Error> {
        let tag = u8::tls_deserialize(alloc, src)?;
        match ContentType::of_code(tag) {
            Some(value) => Ok(value),
            None => Err(unknown_value(u64::from(tag))),
        }
    }
}

impl DeserializeBytes for ContentType {
    ghost names = { values_names 1 content_type_has };

    fn tls_deserialize_bytes(alloc: Global, whole: &[u8]) -> Result<(ContentType, &[u8]), Error> {
        let (tag, rest) = u8::tls_deserialize_bytes(alloc, whole)?;
        match ContentType::of_code(tag) {
            Some(value) => Ok((value, rest)),
            None => Err(unknown_value(u64::from(tag))),
        }
    }
}

impl Selector for ContentType {
    ghost selected = { content_type_selected };

    fn selects(&self) -> u64 {
        let tag = self.code();
        u64::from(tag)
    }
}

impl Validate for ContentType {
    ghost places = { values_places 1 content_type_has };

    fn tls_validate_prefix(whole: &[u8]) -> Result<&[u8], Rejected<'_>> {
        let (tag, rest) = split_u8(whole)?;
        match ContentType::of_code(tag) {
            Some(_value) => Ok(rest),
            None => Err(Rejected {
                error: unknown_value(u64::from(tag)),
                rest: whole,
            }),
        }
    }
}

impl Numbered for ContentType {
    type Tag = u8;

    ghost has = { content_type_has };

    ghost as_values = { λ bytes is. is };
}

impl ReadInPlace for ContentType {
    fn read(encoded: &Encoded<'_, ContentType>) -> ContentType {
        match encoded.number() {
            1 => ContentType::Application,
            2 => ContentType::Proposal,
            3 => ContentType::Commit,
            _ => unreachable!(),
        }
    }
}

impl Keyed for ContentType {
    type Key = u64;

    ghost is_key = { λ n c. n ≡ content_type_selected c };

    fn key(&self) -> u64 {
        self.selects()
    }
}

impl TagKeyed for ContentType {
    fn tag_of_key(key: &u64) -> u64 {
        *key
    }
}

impl TagFirst for ContentType {
    type Tag = u8;

    ghost variants = { values content_type_has };

    ghost first_tag = { content_type_selected };

    ghost is_tagged = { λ d bytes v spelled. spelled };

    ghost is_first_tag = { λ d bytes tag parts spelled. refl };
}

impl ValidateKeyed for ContentType {
    fn tls_validate_keyed(whole: &[u8]) -> Result<(u64, &[u8]), Rejected<'_>> {
        validate_tag_first::<ContentType>(whole)
    }
}

/// Two values are equal if and only if their numbers are equal.
pub fn is_compared_by_its_number()
    ensures { (x y : ContentType) →
        ⟦<ContentType as PartialEq>⟧.eq x y
        ≡ nat_eq (content_type_code x) (content_type_code y) }
{}

/// Values are ordered by their numbers.
pub fn is_ordered_by_its_number()
    ensures { (x y : ContentType) →
        ⟦<ContentType as Ord>⟧.cmp x y
        ≡ nat_cmp (content_type_code x) (content_type_code y) }
{}
