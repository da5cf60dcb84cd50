//! [`ContentTypeApplicationData`].
ghost use Rattle.std.specs.Prelude.{◌≡◌, MatchOption, MatchResult, Some, false, nat_eq};
ghost use Rattle.std.specs.Fmt.{padded};
ghost use Rattle.std.specs.Ordering.{nat_cmp};
ghost use Rattle.tls_codec.specs.Errors.{UnknownValue};
ghost use Rattle.tls_codec.specs.OwnMessages.{values_names, values_source_names};
ghost use Rattle.tls_codec_validate.specs.TaggedPlaces.{values_places};
ghost use Rattle.tls13.specs.ContentTypeApplicationData.{content_type_application_data_code, content_type_application_data_format, content_type_application_data_has, content_type_application_data_meets, content_type_application_data_name, content_type_application_data_plain};
ghost use Rattle.tls13.specs.declared.content_type_application_data.ContentTypeApplicationData.{ContentTypeApplicationData};

use std::alloc::Global;
use std::fmt;
use tls_codec::{
    Deserialize, DeserializeBytes, Error, Serialize, Sink, Size, Source, unknown_value,
};
use tls_codec_validate::{Rejected, Validate, split_u8};
use tls_codec_views::{Encoded, Numbered, ReadInPlace};

/// `ContentTypeApplicationData`.
#[derive(PartialEq, Eq, PartialOrd, Ord, Hash, Debug, Clone, Copy)]
pub enum ContentTypeApplicationData {
    /// `application_data(23)`
    ApplicationData,
}

impl ContentTypeApplicationData {
    /// Its number.
    pub fn code(&self) -> u8
        ensures { result ≡ content_type_application_data_code self.now }
    {
        23
    }

    /// Its name in the presentation language.
    pub fn name(&self) -> &'static str
        ensures { result.now ≡ content_type_application_data_name self.now }
    {
        "application_data"
    }

    /// The value with this number, if there is one.
    pub fn of_code(code: u8) -> Option<ContentTypeApplicationData>
        ensures { MatchOption result (content_type_application_data_has code ≡ false)
            (λ v. content_type_application_data_code v ≡ code) }
    {
        match code {
            23 => Some(ContentTypeApplicationData::ApplicationData),
            _ => None,
        }
    }
}

/// Its name.
impl fmt::Display for ContentTypeApplicationData {
    ghost output = { λ v. Some (content_type_application_data_name v) };

    ghost styled_output = { λ v spec. Some (padded spec (content_type_application_data_name v)) };

    fn fmt<W: fmt::Write>(&self, f: &mut fmt::Formatter<W>) -> fmt::Result {
        f.pad(self.name())
    }
}

/// Its number.
impl From<ContentTypeApplicationData> for u8 {
    ghost from_gives = { λ v number. number ≡ content_type_application_data_code v };

    fn from(value: ContentTypeApplicationData) -> u8 {
        value.code()
    }
}

/// The value with this number.
impl TryFrom<u8> for ContentTypeApplicationData {
    type Error = Error;

    ghost try_from_gives = { λ tag r. MatchResult r
        (λ v. content_type_application_data_code v ≡ tag)
        (λ e. (content_type_application_data_has tag ≡ false) × (e ≡ UnknownValue tag)) };

    fn try_from(tag: u8) -> Result<ContentTypeApplicationData, Error> {
        match ContentTypeApplicationData::of_code(tag) {
            Some(value) => Ok(value),
            None => Err(unknown_value(u64::from(tag))),
        }
    }
}

impl Size for ContentTypeApplicationData {
    ghost plain = { content_type_application_data_plain };

    ghost format = { content_type_application_data_format };

    fn tls_serialized_len(&self) -> usize {
        1
    }

    ghost lawful = { content_type_application_data_meets };
}

impl Serialize for ContentTypeApplicationData {
    fn tls_serialize<W: Sink>(&self, writer: &mut W) -> Result<usize, Error> {
        self.code().tls_serialize(writer)
    }

    fn tls_serialize_into(&self, out: &mut Vec<u8>) -> Result<usize, Error> {
        self.code().tls_serialize_into(out)
    }
}

impl Deserialize for ContentTypeApplicationData {
    ghost names = { values_source_names 1 content_type_application_data_has };

    fn tls_deserialize<R: Source>(
        alloc: Global,
        src: &mut R,
    ) -> Result<ContentTypeApplicationData, Error> {
        let tag = u8::tls_deserialize(alloc, src)?;
        match ContentTypeApplicationData::of_code(tag) {
            Some(value) => Ok(value),
            None => Err(unknown_value(u64::from(tag))),
        }
    }
}

impl DeserializeBytes for ContentTypeApplicationData {
    ghost names = { values_names 1 content_type_application_data_has };

    fn tls_deserialize_bytes(
        alloc: Global,
        whole: &[u8],
    ) -> Result<(ContentTypeApplicationData, &[u8]), Error> {
        let (tag, rest) = u8::tls_deserialize_bytes(alloc, whole)?;
        match ContentTypeApplicationData::of_code(tag) {
            Some(value) => Ok((value, rest)),
            None => Err(unknown_value(u64::from(tag))),
        }
    }
}

impl Validate for ContentTypeApplicationData {
    ghost places = { values_places 1 content_type_application_data_has };

    fn tls_validate_prefix(whole: &[u8]) -> Result<&[u8], Rejected<'_>> {
        let (tag, rest) = split_u8(whole)?;
        match ContentTypeApplicationData::of_code(tag) {
            Some(_value) => Ok(rest),
            None => Err(Rejected {
                error: unknown_value(u64::from(tag)),
                rest: whole,
            }),
        }
    }
}

impl Numbered for ContentTypeApplicationData {
    type Tag = u8;

    ghost has = { content_type_application_data_has };

    ghost as_values = { λ bytes is. is };
}

impl ReadInPlace for ContentTypeApplicationData {
    fn read(encoded: &Encoded<'_, ContentTypeApplicationData>) -> ContentTypeApplicationData {
        match encoded.number() {
            23 => ContentTypeApplicationData::ApplicationData,
            _ => unreachable!(),
        }
    }
}

/// Two values are equal if and only if their numbers are equal.
pub fn is_compared_by_its_number()
    ensures { (x y : ContentTypeApplicationData) →
        ⟦<ContentTypeApplicationData as PartialEq>⟧.eq x y
        ≡ nat_eq (content_type_application_data_code x) (content_type_application_data_code y) }
{}

/// Values are ordered by their numbers.
pub fn is_ordered_by_its_number()
    ensures { (x y : ContentTypeApplicationData) →
        ⟦<ContentTypeApplicationData as Ord>⟧.cmp x y
        ≡ nat_cmp (content_type_application_data_code x) (content_type_application_data_code y) }
{}
