//! [`FormX04`].
ghost use Rattle.std.specs.Prelude.{◌≡◌, MatchOption, MatchResult, Some, false, nat_eq};
ghost use Rattle.std.specs.Fmt.{padded};
ghost use Rattle.std.specs.Ordering.{nat_cmp};
ghost use Rattle.tls_codec.specs.Errors.{UnknownValue};
ghost use Rattle.tls_codec.specs.OwnMessages.{values_names, values_source_names};
ghost use Rattle.tls_codec_validate.specs.TaggedPlaces.{values_places};
ghost use Rattle.messages_of_each_shape.specs.FormX04.{form_x04_code, form_x04_format, form_x04_has, form_x04_meets, form_x04_name, form_x04_plain};
ghost use Rattle.messages_of_each_shape.specs.declared.form_x04.FormX04.{FormX04};

use std::alloc::Global;
use std::fmt;
use tls_codec::{
    Deserialize, DeserializeBytes, Error, Serialize, Sink, Size, Source, unknown_value,
};
use tls_codec_validate::{Rejected, Validate, split_u8};
use tls_codec_views::{Encoded, Numbered, ReadInPlace};

/// `FormX04`.
#[derive(PartialEq, Eq, PartialOrd, Ord, Hash, Debug, Clone, Copy)]
pub enum FormX04 {
    /// `0x04(4)`
    X04,
}

impl FormX04 {
    /// Its number.
    pub fn code(&self) -> u8
        ensures { result ≡ form_x04_code self.now }
    {
        4
    }

    /// Its name in the presentation language.
    pub fn name(&self) -> &'static str
        ensures { result.now ≡ form_x04_name self.now }
    {
        "0x04"
    }

    /// The value with this number, if there is one.
    pub fn of_code(code: u8) -> Option<FormX04>
        ensures { MatchOption result (form_x04_has code ≡ false) (λ v. form_x04_code v ≡ code) }
    {
        match code {
            4 => Some(FormX04::X04),
            _ => None,
        }
    }
}

/// Its name.
impl fmt::Display for FormX04 {
    ghost output = { λ v. Some (form_x04_name v) };

    ghost styled_output = { λ v spec. Some (padded spec (form_x04_name v)) };

    fn fmt<W: fmt::Write>(&self, f: &mut fmt::Formatter<W>) -> fmt::Result {
        f.pad(self.name())
    }
}

/// Its number.
impl From<FormX04> for u8 {
    ghost from_gives = { λ v number. number ≡ form_x04_code v };

    fn from(value: FormX04) -> u8 {
        value.code()
    }
}

/// The value with this number.
impl TryFrom<u8> for FormX04 {
    type Error = Error;

    ghost try_from_gives = { λ tag r. MatchResult r
        (λ v. form_x04_code v ≡ tag)
        (λ e. (form_x04_has tag ≡ false) × (e ≡ UnknownValue tag)) };

    fn try_from(tag: u8) -> Result<FormX04, Error> {
        match FormX04::of_code(tag) {
            Some(value) => Ok(value),
            None => Err(unknown_value(u64::from(tag))),
        }
    }
}

impl Size for FormX04 {
    ghost plain = { form_x04_plain };

    ghost format = { form_x04_format };

    fn tls_serialized_len(&self) -> usize {
        1
    }

    ghost lawful = { form_x04_meets };
}

impl Serialize for FormX04 {
    fn tls_serialize<W: Sink>(&self, writer: &mut W) -> Result<usize, Error> {
        self.code().tls_serialize(writer)
    }

    fn tls_serialize_into(&self, out: &mut Vec<u8>) -> Result<usize, Error> {
        self.code().tls_serialize_into(out)
    }
}

impl Deserialize for FormX04 {
    ghost names = { values_source_names 1 form_x04_has };

    fn tls_deserialize<R: Source>(alloc: Global, src: &mut R) -> Result<FormX04, Error> {
        let tag = u8::tls_deserialize(alloc, src)?;
        match FormX04::of_code(tag) {
            Some(value) => Ok(value),
            None => Err(unknown_value(u64::from(tag))),
        }
    }
}

impl DeserializeBytes for FormX04 {
    ghost names = { values_names 1 form_x04_has };

    fn tls_deserialize_bytes(alloc: Global, whole: &[u8]) -> Result<(FormX04, &[u8]), Error> {
        let (tag, rest) = u8::tls_deserialize_bytes(alloc, whole)?;
        match FormX04::of_code(tag) {
            Some(value) => Ok((value, rest)),
            None => Err(unknown_value(u64::from(tag))),
        }
    }
}

impl Validate for FormX04 {
    ghost places = { values_places 1 form_x04_has };

    fn tls_validate_prefix(whole: &[u8]) -> Result<&[u8], Rejected<'_>> {
        let (tag, rest) = split_u8(whole)?;
        match FormX04::of_code(tag) {
            Some(_value) => Ok(rest),
            None => Err(Rejected {
                error: unknown_value(u64::from(tag)),
                rest: whole,
            }),
        }
    }
}

impl Numbered for FormX04 {
    type Tag = u8;

    ghost has = { form_x04_has };

    ghost as_values = { λ bytes is. is };
}

impl ReadInPlace for FormX04 {
    fn read(encoded: &Encoded<'_, FormX04>) -> FormX04 {
        match encoded.number() {
            4 => FormX04::X04,
            _ => unreachable!(),
        }
    }
}

/// Two values are equal if and only if their numbers are equal.
pub fn is_compared_by_its_number()
    ensures { (x y : FormX04) →
        ⟦<FormX04 as PartialEq>⟧.eq x y
        ≡ nat_eq (form_x04_code x) (form_x04_code y) }
{}

/// Values are ordered by their numbers.
pub fn is_ordered_by_its_number()
    ensures { (x y : FormX04) →
        ⟦<FormX04 as Ord>⟧.cmp x y
        ≡ nat_cmp (form_x04_code x) (form_x04_code y) }
{}
