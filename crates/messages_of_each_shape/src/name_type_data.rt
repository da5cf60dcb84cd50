//! [`NameTypeData`].
ghost use Rattle.std.specs.Prelude.{◌≡◌, IsTrue};
ghost use Rattle.messages_of_each_shape.specs.NameTypeData.{name_type_data_format_for, name_type_data_meets_for, name_type_data_plain, name_type_data_tag, name_type_data_variants};
ghost use Rattle.messages_of_each_shape.specs.declared.name_type_data.NameTypeData.{NameTypeData};

use crate::{Key, NameType};
use std::alloc::Global;
use tls_codec::{
    ByRef, DeserializeBytesFor, DeserializeFor, Error, SerializeFor, Sink, SizeFor, Source,
};
use tls_codec_cases::{Case, Chosen, Or, append_as_for, write_as_for};
use tls_codec_validate::{Rejected, ValidateFor};
use tls_codec_views::ChoiceFor;

/// `select (name_type)` of `Bearer`: its bytes don't have the tag.
#[derive(PartialEq, Eq, Debug, Clone, Drop)]
pub enum NameTypeData {
    /// `case host_name: uint8 host;`
    HostName(u8),
    /// `case case_7: Key other;`
    Case7(Key),
}

type Cases = Chosen<Or<Case<0, u8>, Case<7, Key>>>;

type ByRefCases<'a> = Chosen<Or<Case<0, ByRef<'a, u8>>, Case<7, ByRef<'a, Key>>>>;

impl NameTypeData {
    fn cases(&self) -> ByRefCases<'_>
        ensures { ⟦<ByRefCases<'static> as SizeFor<NameType>>⟧.plain result
            ≡ name_type_data_plain self.now }
    {
        let cases = match self {
            NameTypeData::HostName(host) => Or::First(Case(ByRef(host))),
            NameTypeData::Case7(other) => Or::Second(Case(ByRef(other))),
        };
        Chosen(cases)
    }

    fn of(cases: Cases) -> NameTypeData
        ensures { name_type_data_plain result ≡ ⟦<Cases as SizeFor<NameType>>⟧.plain cases }
    {
        match cases.0 {
            Or::First(case) => NameTypeData::HostName(case.0),
            Or::Second(case) => NameTypeData::Case7(case.0),
        }
    }
}

impl SizeFor<NameType> for NameTypeData {
    ghost plain = { name_type_data_plain };

    ghost format_for = { name_type_data_format_for };

    fn tls_serialized_len_for(&self, name_type: &NameType) -> usize {
        self.cases().tls_serialized_len_for(name_type)
    }

    ghost lawful = { name_type_data_meets_for };
}

/// `EncodingError("value does not fit its context")`: the value's case is for another tag.
impl SerializeFor<NameType> for NameTypeData {
    fn tls_serialize_for<W: Sink>(
        &self,
        name_type: &NameType,
        writer: &mut W,
    ) -> Result<usize, Error> {
        write_as_for(self, &self.cases(), name_type, writer)
    }

    fn tls_serialize_into_for(
        &self,
        name_type: &NameType,
        out: &mut Vec<u8>,
    ) -> Result<usize, Error> {
        append_as_for(self, &self.cases(), name_type, out)
    }
}

impl DeserializeFor<NameType> for NameTypeData {
    ghost names = { ⟦<Cases as DeserializeFor<NameType>>⟧.names };

    /// `UnknownValue`: no case has the context's tag.
    fn tls_deserialize_for<R: Source>(
        name_type: &NameType,
        alloc: Global,
        src: &mut R,
    ) -> Result<NameTypeData, Error> {
        let cases = <Cases>::tls_deserialize_for(name_type, alloc, src)?;
        Ok(NameTypeData::of(cases))
    }
}

impl DeserializeBytesFor<NameType> for NameTypeData {
    ghost names = { ⟦<Cases as DeserializeBytesFor<NameType>>⟧.names };

    /// `UnknownValue`: no case has the context's tag.
    fn tls_deserialize_bytes_for<'a>(
        name_type: &NameType,
        alloc: Global,
        whole: &'a [u8],
    ) -> Result<(NameTypeData, &'a [u8]), Error> {
        let (cases, rest) = <Cases>::tls_deserialize_bytes_for(name_type, alloc, whole)?;
        Ok((NameTypeData::of(cases), rest))
    }
}

impl ValidateFor<NameType> for NameTypeData {
    ghost places = { ⟦<Cases as ValidateFor<NameType>>⟧.places };

    fn tls_validate_prefix_for<'a>(key: &u64, whole: &'a [u8]) -> Result<&'a [u8], Rejected<'a>> {
        <Cases as ValidateFor<NameType>>::tls_validate_prefix_for(key, whole)
    }
}

impl ChoiceFor<NameType> for NameTypeData {
    ghost variants = { name_type_data_variants };

    ghost as_choice = { λ c bytes is. is };
}

/// The case `host_name` with this content.
impl From<u8> for NameTypeData {
    ghost from_gives = { λ content value. value ≡ NameTypeData.HostName content };

    fn from(content: u8) -> NameTypeData {
        NameTypeData::HostName(content)
    }
}

/// The case `case_7` with this content.
impl From<Key> for NameTypeData {
    ghost from_gives = { λ content value. value ≡ NameTypeData.Case7 content };

    fn from(content: Key) -> NameTypeData {
        NameTypeData::Case7(content)
    }
}

/// Two values are equal if and only if they have the same case and all their fields are equal.
pub fn is_compared_by_its_case()
    ensures tag { (x y : NameTypeData) →
        IsTrue (⟦<NameTypeData as PartialEq>⟧.eq x y)
        → name_type_data_tag x ≡ name_type_data_tag y }
    ensures case_0 { (a0 b0 : _) →
        ⟦<NameTypeData as PartialEq>⟧.eq (NameTypeData.HostName a0) (NameTypeData.HostName b0)
        ≡ ⟦<u8 as PartialEq>⟧.eq a0 b0 }
    ensures case_7 { (a0 b0 : _) →
        ⟦<NameTypeData as PartialEq>⟧.eq (NameTypeData.Case7 a0) (NameTypeData.Case7 b0)
        ≡ ⟦<Key as PartialEq>⟧.eq a0 b0 }
{}
