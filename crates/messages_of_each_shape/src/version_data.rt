//! [`VersionData`].
ghost use Rattle.std.specs.Prelude.{◌≡◌, ◌&&◌, IsTrue, true};
ghost use Rattle.messages_of_each_shape.specs.VersionData.{version_data_format, version_data_meets, version_data_plain, version_data_tag, version_data_variants};
ghost use Rattle.messages_of_each_shape.specs.declared.version_data.VersionData.{VersionData};
ghost use Rattle.tls_codec_views.specs.Views.{IsCase};
ghost use Rattle.messages_of_each_shape.specs.declared.version_data.VersionDataView.{VersionDataView};

use crate::Key;
use std::alloc::Global;
use std::marker::PhantomData;
use tls_codec::{
    ByRef, Deserialize, DeserializeBytes, Error, Serialize, Sink, Size, Source, VLBytes,
};
use tls_codec_cases::{Case, Enclosed, Or, Tagged, append_as, write_as};
use tls_codec_validate::{Rejected, Validate};
use tls_codec_views::{Choice, Encoded};

/// `uint16 version` of `Sized`, and what comes after each.
#[derive(PartialEq, Eq, Debug, Clone, Drop)]
pub enum VersionData {
    /// `case case_7:`
    Case7 {
        /// `uint8 short;`
        short: u8,
        /// `opaque long<V>;`
        long: VLBytes,
    },
    /// `case case_9:`
    Case9,
    /// `case case_11: Key;`
    Case11(Key),
}

type Cases = Tagged<
    u16,
    Or<
        Or<Case<7, Enclosed<u16, (u8, VLBytes)>>, Case<9, Enclosed<u16, ()>>>,
        Case<11, Enclosed<u16, Key>>,
    >,
>;

type ByRefCases<'a> = Tagged<
    u16,
    Or<
        Or<Case<7, Enclosed<u16, (ByRef<'a, u8>, ByRef<'a, VLBytes>)>>, Case<9, Enclosed<u16, ()>>>,
        Case<11, Enclosed<u16, ByRef<'a, Key>>>,
    >,
>;

impl VersionData {
    fn cases(&self) -> ByRefCases<'_>
        ensures { ⟦<ByRefCases<'static> as Size>⟧.plain result
            ≡ version_data_plain self.now }
    {
        let cases = match self {
            VersionData::Case7 { short, long } => Or::First(Or::First(Case(Enclosed(
                (ByRef(short), ByRef(long)),
                PhantomData,
            )))),
            VersionData::Case9 => Or::First(Or::Second(Case(Enclosed((), PhantomData)))),
            VersionData::Case11(key) => Or::Second(Case(Enclosed(ByRef(key), PhantomData))),
        };
        Tagged(cases, PhantomData)
    }

    fn of(cases: Cases) -> VersionData
        ensures { version_data_plain result ≡ ⟦<Cases as Size>⟧.plain cases }
    {
        match cases.0 {
            Or::First(Or::First(case)) => {
                let parts = case.0.0;
                let (short, long) = parts;
                VersionData::Case7 { short, long }
            }
            Or::First(Or::Second(_)) => VersionData::Case9,
            Or::Second(case) => VersionData::Case11(case.0.0),
        }
    }
}

impl Size for VersionData {
    ghost plain = { version_data_plain };

    ghost format = { version_data_format };

    fn tls_serialized_len(&self) -> usize {
        self.cases().tls_serialized_len()
    }

    ghost lawful = { version_data_meets };
}

impl Serialize for VersionData {
    fn tls_serialize<W: Sink>(&self, writer: &mut W) -> Result<usize, Error> {
        write_as(self, &self.cases(), writer)
    }

    fn tls_serialize_into(&self, out: &mut Vec<u8>) -> Result<usize, Error> {
        append_as(self, &self.cases(), out)
    }
}

impl Deserialize for VersionData {
    ghost names = { ⟦<Cases as Deserialize>⟧.names };

    /// `TrailingData`: bytes are left within the length, after the fields of the case.
    /// `UnknownValue`: no case has the tag.
    fn tls_deserialize<R: Source>(alloc: Global, src: &mut R) -> Result<VersionData, Error> {
        let cases = <Cases>::tls_deserialize(alloc, src)?;
        Ok(VersionData::of(cases))
    }
}

impl DeserializeBytes for VersionData {
    ghost names = { ⟦<Cases as DeserializeBytes>⟧.names };

    /// `TrailingData`: bytes are left within the length, after the fields of the case.
    /// `UnknownValue`: no case has the tag.
    fn tls_deserialize_bytes(alloc: Global, whole: &[u8]) -> Result<(VersionData, &[u8]), Error> {
        let (cases, rest) = <Cases>::tls_deserialize_bytes(alloc, whole)?;
        Ok((VersionData::of(cases), rest))
    }
}

impl Validate for VersionData {
    ghost places = { ⟦<Cases as Validate>⟧.places };

    fn tls_validate_prefix(whole: &[u8]) -> Result<&[u8], Rejected<'_>> {
        <Cases>::tls_validate_prefix(whole)
    }
}

impl Choice for VersionData {
    type Tag = u16;

    ghost variants = { version_data_variants };

    ghost as_choice = { λ bytes is. is };
}

/// The encoding of a [`VersionData`], split into its case and fields.
#[derive(Drop)]
pub enum VersionDataView<'a> {
    /// `case case_7:`
    Case7(Encoded<'a, Enclosed<u16, (u8, VLBytes)>>),
    /// `case case_9:`
    Case9(Encoded<'a, Enclosed<u16, ()>>),
    /// `case case_11: Key;`
    Case11(Encoded<'a, Enclosed<u16, Key>>),
}

impl<'a> From<Encoded<'a, VersionData>> for VersionDataView<'a> {
    ghost from_gives = { λ whole view. elim view as (λ v. Type 0) [
      | VersionDataView.Case7 a0 ↦ IsCase 2 7 whole a0
      | VersionDataView.Case9 a0 ↦ IsCase 2 9 whole a0
      | VersionDataView.Case11 a0 ↦ IsCase 2 11 whole a0
    ] };

    fn from(whole: Encoded<'a, VersionData>) -> VersionDataView<'a> {
        let (tag, parts) = whole.case();
        match tag {
            7 => VersionDataView::Case7(Encoded::from_proved(parts)),
            9 => VersionDataView::Case9(Encoded::from_proved(parts)),
            11 => VersionDataView::Case11(Encoded::from_proved(parts)),
            _ => unreachable!(),
        }
    }
}

impl VersionData {
    /// The tag of this value's case.
    pub fn version(&self) -> u16
        ensures { result ≡ version_data_tag self.now }
    {
        match self {
            VersionData::Case7 { .. } => 7,
            VersionData::Case9 => 9,
            VersionData::Case11(_) => 11,
        }
    }
}

/// The case `case_11` with this content.
impl From<Key> for VersionData {
    ghost from_gives = { λ content value. value ≡ VersionData.Case11 content };

    fn from(content: Key) -> VersionData {
        VersionData::Case11(content)
    }
}

/// Two values are equal if and only if they have the same case and all their fields are equal.
pub fn is_compared_by_its_case()
    ensures tag { (x y : VersionData) →
        IsTrue (⟦<VersionData as PartialEq>⟧.eq x y) → version_data_tag x ≡ version_data_tag y }
    ensures case_7 { (a0 a1 b0 b1 : _) →
        ⟦<VersionData as PartialEq>⟧.eq (VersionData.Case7 a0 a1) (VersionData.Case7 b0 b1)
        ≡ (⟦<u8 as PartialEq>⟧.eq a0 b0
        && ⟦<VLBytes as PartialEq>⟧.eq a1 b1) }
    ensures case_9 { ⟦<VersionData as PartialEq>⟧.eq VersionData.Case9 VersionData.Case9 ≡ true }
    ensures case_11 { (a0 b0 : _) →
        ⟦<VersionData as PartialEq>⟧.eq (VersionData.Case11 a0) (VersionData.Case11 b0)
        ≡ ⟦<Key as PartialEq>⟧.eq a0 b0 }
{}
