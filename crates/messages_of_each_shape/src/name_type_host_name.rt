//! [`NameTypeHostName`].
ghost use Rattle.std.specs.Prelude.{◌≡◌, MatchOption, MatchResult, Some, false, nat_eq};
ghost use Rattle.std.specs.Fmt.{padded};
ghost use Rattle.std.specs.Ordering.{nat_cmp};
ghost use Rattle.tls_codec.specs.Errors.{UnknownValue};
ghost use Rattle.tls_codec.specs.OwnMessages.{values_names, values_source_names};
ghost use Rattle.tls_codec_validate.specs.TaggedPlaces.{values_places};
ghost use Rattle.messages_of_each_shape.specs.NameTypeHostName.{name_type_host_name_code, name_type_host_name_format, name_type_host_name_has, name_type_host_name_meets, name_type_host_name_name, name_type_host_name_plain};
ghost use Rattle.messages_of_each_shape.specs.declared.name_type_host_name.NameTypeHostName.{NameTypeHostName};

use std::alloc::Global;
use std::fmt;
use tls_codec::{
    Deserialize, DeserializeBytes, Error, Serialize, Sink, Size, Source, unknown_value,
};
use tls_codec_validate::{Rejected, Validate, split_u8};
use tls_codec_views::{Encoded, Numbered, ReadInPlace};

/// `NameTypeHostName`.
#[derive(PartialEq, Eq, PartialOrd, Ord, Hash, Debug, Clone, Copy)]
pub enum NameTypeHostName {
    /// `host_name(0)`
    HostName,
}

impl NameTypeHostName {
    /// Its number.
    pub fn code(&self) -> u8
        ensures { result ≡ name_type_host_name_code self.now }
    {
        0
    }

    /// Its name in the presentation language.
    pub fn name(&self) -> &'static str
        ensures { result.now ≡ name_type_host_name_name self.now }
    {
        "host_name"
    }

    /// The value with this number, if there is one.
    pub fn of_code(code: u8) -> Option<NameTypeHostName>
        ensures { MatchOption result (name_type_host_name_has code ≡ false)
            (λ v. name_type_host_name_code v ≡ code) }
    {
        match code {
            0 => Some(NameTypeHostName::HostName),
            _ => None,
        }
    }
}

/// Its name.
impl fmt::Display for NameTypeHostName {
    ghost output = { λ v. Some (name_type_host_name_name v) };

    ghost styled_output = { λ v spec. Some (padded spec (name_type_host_name_name v)) };

    fn fmt<W: fmt::Write>(&self, f: &mut fmt::Formatter<W>) -> fmt::Result {
        f.pad(self.name())
    }
}

/// Its number.
impl From<NameTypeHostName> for u8 {
    ghost from_gives = { λ v number. number ≡ name_type_host_name_code v };

    fn from(value: NameTypeHostName) -> u8 {
        value.code()
    }
}

/// The value with this number.
impl TryFrom<u8> for NameTypeHostName {
    type Error = Error;

    ghost try_from_gives = { λ tag r. MatchResult r
        (λ v. name_type_host_name_code v ≡ tag)
        (λ e. (name_type_host_name_has tag ≡ false) × (e ≡ UnknownValue tag)) };

    fn try_from(tag: u8) -> Result<NameTypeHostName, Error> {
        match NameTypeHostName::of_code(tag) {
            Some(value) => Ok(value),
            None => Err(unknown_value(u64::from(tag))),
        }
    }
}

impl Size for NameTypeHostName {
    ghost plain = { name_type_host_name_plain };

    ghost format = { name_type_host_name_format };

    fn tls_serialized_len(&self) -> usize {
        1
    }

    ghost lawful = { name_type_host_name_meets };
}

impl Serialize for NameTypeHostName {
    fn tls_serialize<W: Sink>(&self, writer: &mut W) -> Result<usize, Error> {
        self.code().tls_serialize(writer)
    }

    fn tls_serialize_into(&self, out: &mut Vec<u8>) -> Result<usize, Error> {
        self.code().tls_serialize_into(out)
    }
}

impl Deserialize for NameTypeHostName {
    ghost names = { values_source_names 1 name_type_host_name_has };

    fn tls_deserialize<R: Source>(alloc: Global, src: &mut R) -> Result<NameTypeHostName, Error> {
        let tag = u8::tls_deserialize(alloc, src)?;
        match NameTypeHostName::of_code(tag) {
            Some(value) => Ok(value),
            None => Err(unknown_value(u64::from(tag))),
        }
    }
}

impl DeserializeBytes for NameTypeHostName {
    ghost names = { values_names 1 name_type_host_name_has };

    fn tls_deserialize_bytes(
        alloc: Global,
        whole: &[u8],
    ) -> Result<(NameTypeHostName, &[u8]), Error> {
        let (tag, rest) = u8::tls_deserialize_bytes(alloc, whole)?;
        match NameTypeHostName::of_code(tag) {
            Some(value) => Ok((value, rest)),
            None => Err(unknown_value(u64::from(tag))),
        }
    }
}

impl Validate for NameTypeHostName {
    ghost places = { values_places 1 name_type_host_name_has };

    fn tls_validate_prefix(whole: &[u8]) -> Result<&[u8], Rejected<'_>> {
        let (tag, rest) = split_u8(whole)?;
        match NameTypeHostName::of_code(tag) {
            Some(_value) => Ok(rest),
            None => Err(Rejected {
                error: unknown_value(u64::from(tag)),
                rest: whole,
            }),
        }
    }
}

impl Numbered for NameTypeHostName {
    type Tag = u8;

    ghost has = { name_type_host_name_has };

    ghost as_values = { λ bytes is. is };
}

impl ReadInPlace for NameTypeHostName {
    fn read(encoded: &Encoded<'_, NameTypeHostName>) -> NameTypeHostName {
        match encoded.number() {
            0 => NameTypeHostName::HostName,
            _ => unreachable!(),
        }
    }
}

/// Two values are equal if and only if their numbers are equal.
pub fn is_compared_by_its_number()
    ensures { (x y : NameTypeHostName) →
        ⟦<NameTypeHostName as PartialEq>⟧.eq x y
        ≡ nat_eq (name_type_host_name_code x) (name_type_host_name_code y) }
{}

/// Values are ordered by their numbers.
pub fn is_ordered_by_its_number()
    ensures { (x y : NameTypeHostName) →
        ⟦<NameTypeHostName as Ord>⟧.cmp x y
        ≡ nat_cmp (name_type_host_name_code x) (name_type_host_name_code y) }
{}
