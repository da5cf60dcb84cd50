//! [`BodyKindData`].
ghost use Rattle.std.specs.Prelude.{◌≡◌, IsTrue};
ghost use Rattle.messages_of_each_shape.specs.BodyKindData.{body_kind_data_format_for, body_kind_data_meets_for, body_kind_data_plain, body_kind_data_tag, body_kind_data_variants};
ghost use Rattle.messages_of_each_shape.specs.declared.body_kind_data.BodyKindData.{BodyKindData};

use crate::BodyKind;
use std::alloc::Global;
use tls_codec::{
    ByRef, DeserializeBytesFor, DeserializeFor, Error, SerializeFor, Sink, SizeFor, Source, VLBytes,
};
use tls_codec_cases::{Case, Chosen, Or, append_as_for, write_as_for};
use tls_codec_validate::{Rejected, ValidateFor};
use tls_codec_views::ChoiceFor;

/// `select (body_kind)` of `KindBody`: its bytes don't have the tag.
#[derive(PartialEq, Eq, Debug, Clone, Drop)]
pub enum BodyKindData {
    /// `case chat: uint16 code;`
    Chat(u16),
    /// `case file: opaque content<V>;`
    File(VLBytes),
}

type Cases = Chosen<Or<Case<1, u16>, Case<2, VLBytes>>>;

type ByRefCases<'a> = Chosen<Or<Case<1, ByRef<'a, u16>>, Case<2, ByRef<'a, VLBytes>>>>;

impl BodyKindData {
    fn cases(&self) -> ByRefCases<'_>
        ensures { ⟦<ByRefCases<'static> as SizeFor<BodyKind>>⟧.plain result
            ≡ body_kind_data_plain self.now }
    {
        let cases = match self {
            BodyKindData::Chat(code_) => Or::First(Case(ByRef(code_))),
            BodyKindData::File(content) => Or::Second(Case(ByRef(content))),
        };
        Chosen(cases)
    }

    fn of(cases: Cases) -> BodyKindData
        ensures { body_kind_data_plain result ≡ ⟦<Cases as SizeFor<BodyKind>>⟧.plain cases }
    {
        match cases.0 {
            Or::First(case) => BodyKindData::Chat(case.0),
            Or::Second(case) => BodyKindData::File(case.0),
        }
    }
}

impl SizeFor<BodyKind> for BodyKindData {
    ghost plain = { body_kind_data_plain };

    ghost format_for = { body_kind_data_format_for };

    fn tls_serialized_len_for(&self, body_kind: &BodyKind) -> usize {
        self.cases().tls_serialized_len_for(body_kind)
    }

    ghost lawful = { body_kind_data_meets_for };
}

/// `EncodingError("value does not fit its context")`: the value's case is for another tag.
impl SerializeFor<BodyKind> for BodyKindData {
    fn tls_serialize_for<W: Sink>(
        &self,
        body_kind: &BodyKind,
        writer: &mut W,
    ) -> Result<usize, Error> {
        write_as_for(self, &self.cases(), body_kind, writer)
    }

    fn tls_serialize_into_for(
        &self,
        body_kind: &BodyKind,
        out: &mut Vec<u8>,
    ) -> Result<usize, Error> {
        append_as_for(self, &self.cases(), body_kind, out)
    }
}

impl DeserializeFor<BodyKind> for BodyKindData {
    ghost names = { ⟦<Cases as DeserializeFor<BodyKind>>⟧.names };

    /// `UnknownValue`: no case has the context's tag.
    fn tls_deserialize_for<R: Source>(
        body_kind: &BodyKind,
        alloc: Global,
        src: &mut R,
    ) -> Result<BodyKindData, Error> {
        let cases = <Cases>::tls_deserialize_for(body_kind, alloc, src)?;
        Ok(BodyKindData::of(cases))
    }
}

impl DeserializeBytesFor<BodyKind> for BodyKindData {
    ghost names = { ⟦<Cases as DeserializeBytesFor<BodyKind>>⟧.names };

    /// `UnknownValue`: no case has the context's tag.
    fn tls_deserialize_bytes_for<'a>(
        body_kind: &BodyKind,
        alloc: Global,
        whole: &'a [u8],
    ) -> Result<(BodyKindData, &'a [u8]), Error> {
        let (cases, rest) = <Cases>::tls_deserialize_bytes_for(body_kind, alloc, whole)?;
        Ok((BodyKindData::of(cases), rest))
    }
}

impl ValidateFor<BodyKind> for BodyKindData {
    ghost places = { ⟦<Cases as ValidateFor<BodyKind>>⟧.places };

    fn tls_validate_prefix_for<'a>(key: &u64, whole: &'a [u8]) -> Result<&'a [u8], Rejected<'a>> {
        <Cases as ValidateFor<BodyKind>>::tls_validate_prefix_for(key, whole)
    }
}

impl ChoiceFor<BodyKind> for BodyKindData {
    ghost variants = { body_kind_data_variants };

    ghost as_choice = { λ c bytes is. is };
}

/// The case `chat` with this content.
impl From<u16> for BodyKindData {
    ghost from_gives = { λ content value. value ≡ BodyKindData.Chat content };

    fn from(content: u16) -> BodyKindData {
        BodyKindData::Chat(content)
    }
}

/// The case `file` with this content.
impl From<VLBytes> for BodyKindData {
    ghost from_gives = { λ content value. value ≡ BodyKindData.File content };

    fn from(content: VLBytes) -> BodyKindData {
        BodyKindData::File(content)
    }
}

/// Two values are equal if and only if they have the same case and all their fields are equal.
pub fn is_compared_by_its_case()
    ensures tag { (x y : BodyKindData) →
        IsTrue (⟦<BodyKindData as PartialEq>⟧.eq x y)
        → body_kind_data_tag x ≡ body_kind_data_tag y }
    ensures case_1 { (a0 b0 : _) →
        ⟦<BodyKindData as PartialEq>⟧.eq (BodyKindData.Chat a0) (BodyKindData.Chat b0)
        ≡ ⟦<u16 as PartialEq>⟧.eq a0 b0 }
    ensures case_2 { (a0 b0 : _) →
        ⟦<BodyKindData as PartialEq>⟧.eq (BodyKindData.File a0) (BodyKindData.File b0)
        ≡ ⟦<VLBytes as PartialEq>⟧.eq a0 b0 }
{}
