//! [`ByVersion`].
ghost use Rattle.std.specs.Prelude.{◌≡◌, ◌&&◌, IsTrue, true};
ghost use Rattle.messages_of_each_shape.specs.ByVersion.{by_version_format_for, by_version_meets_for, by_version_plain, by_version_tag, by_version_variants};
ghost use Rattle.messages_of_each_shape.specs.declared.by_version.ByVersion.{ByVersion};

use std::alloc::Global;
use tls_codec::{
    ByRef, DeserializeBytesFor, DeserializeFor, Error, SerializeFor, Sink, SizeFor, Source, VLBytes,
};
use tls_codec_cases::{Case, Chosen, Or, append_as_for, write_as_for};
use tls_codec_validate::{Rejected, ValidateFor};
use tls_codec_views::ChoiceFor;

/// `select (version)` of `ByVersion`: its bytes don't have the tag.
#[derive(PartialEq, Eq, Debug, Clone, Drop)]
pub enum ByVersion {
    /// `case case_1: uint8 short;`
    Case1(u8),
    /// `case case_2:`
    Case2 {
        /// `uint32 long;`
        long: u32,
        /// `opaque tail<V>;`
        tail: VLBytes,
        /// `uint8 last;`
        last: u8,
    },
    /// `case case_3:`
    Case3,
}

type Cases = Chosen<Or<Or<Case<1, u8>, Case<2, (u32, VLBytes, u8)>>, Case<3, ()>>>;

type ByRefCases<'a> = Chosen<
    Or<
        Or<Case<1, ByRef<'a, u8>>, Case<2, (ByRef<'a, u32>, ByRef<'a, VLBytes>, ByRef<'a, u8>)>>,
        Case<3, ()>,
    >,
>;

impl ByVersion {
    fn cases(&self) -> ByRefCases<'_>
        ensures { ⟦<ByRefCases<'static> as SizeFor<u16>>⟧.plain result
            ≡ by_version_plain self.now }
    {
        let cases = match self {
            ByVersion::Case1(short) => Or::First(Or::First(Case(ByRef(short)))),
            ByVersion::Case2 { long, tail, last } => Or::First(Or::Second(Case((
                ByRef(long),
                ByRef(tail),
                ByRef(last),
            )))),
            ByVersion::Case3 => Or::Second(Case(())),
        };
        Chosen(cases)
    }

    fn of(cases: Cases) -> ByVersion
        ensures { by_version_plain result ≡ ⟦<Cases as SizeFor<u16>>⟧.plain cases }
    {
        match cases.0 {
            Or::First(Or::First(case)) => ByVersion::Case1(case.0),
            Or::First(Or::Second(case)) => {
                let parts = case.0;
                let (long, tail, last) = parts;
                ByVersion::Case2 { long, tail, last }
            }
            Or::Second(_) => ByVersion::Case3,
        }
    }
}

impl SizeFor<u16> for ByVersion {
    ghost plain = { by_version_plain };

    ghost format_for = { by_version_format_for };

    fn tls_serialized_len_for(&self, version: &u16) -> usize {
        self.cases().tls_serialized_len_for(version)
    }

    ghost lawful = { by_version_meets_for };
}

/// `EncodingError("value does not fit its context")`: the value's case is for another tag.
impl SerializeFor<u16> for ByVersion {
    fn tls_serialize_for<W: Sink>(&self, version: &u16, writer: &mut W) -> Result<usize, Error> {
        write_as_for(self, &self.cases(), version, writer)
    }

    fn tls_serialize_into_for(&self, version: &u16, out: &mut Vec<u8>) -> Result<usize, Error> {
        append_as_for(self, &self.cases(), version, out)
    }
}

impl DeserializeFor<u16> for ByVersion {
    ghost names = { ⟦<Cases as DeserializeFor<u16>>⟧.names };

    /// `UnknownValue`: no case has the context's tag.
    fn tls_deserialize_for<R: Source>(
        version: &u16,
        alloc: Global,
        src: &mut R,
    ) -> Result<ByVersion, Error> {
        let cases = <Cases>::tls_deserialize_for(version, alloc, src)?;
        Ok(ByVersion::of(cases))
    }
}

impl DeserializeBytesFor<u16> for ByVersion {
    ghost names = { ⟦<Cases as DeserializeBytesFor<u16>>⟧.names };

    /// `UnknownValue`: no case has the context's tag.
    fn tls_deserialize_bytes_for<'a>(
        version: &u16,
        alloc: Global,
        whole: &'a [u8],
    ) -> Result<(ByVersion, &'a [u8]), Error> {
        let (cases, rest) = <Cases>::tls_deserialize_bytes_for(version, alloc, whole)?;
        Ok((ByVersion::of(cases), rest))
    }
}

impl ValidateFor<u16> for ByVersion {
    ghost places = { ⟦<Cases as ValidateFor<u16>>⟧.places };

    fn tls_validate_prefix_for<'a>(key: &u64, whole: &'a [u8]) -> Result<&'a [u8], Rejected<'a>> {
        <Cases as ValidateFor<u16>>::tls_validate_prefix_for(key, whole)
    }
}

impl ChoiceFor<u16> for ByVersion {
    ghost variants = { by_version_variants };

    ghost as_choice = { λ c bytes is. is };
}

/// The case `case_1` with this content.
impl From<u8> for ByVersion {
    ghost from_gives = { λ content value. value ≡ ByVersion.Case1 content };

    fn from(content: u8) -> ByVersion {
        ByVersion::Case1(content)
    }
}

/// Two values are equal if and only if they have the same case and all their fields are equal.
pub fn is_compared_by_its_case()
    ensures tag { (x y : ByVersion) →
        IsTrue (⟦<ByVersion as PartialEq>⟧.eq x y) → by_version_tag x ≡ by_version_tag y }
    ensures case_1 { (a0 b0 : _) →
        ⟦<ByVersion as PartialEq>⟧.eq (ByVersion.Case1 a0) (ByVersion.Case1 b0)
        ≡ ⟦<u8 as PartialEq>⟧.eq a0 b0 }
    ensures case_2 { (a0 a1 a2 b0 b1 b2 : _) →
        ⟦<ByVersion as PartialEq>⟧.eq (ByVersion.Case2 a0 a1 a2) (ByVersion.Case2 b0 b1 b2)
        ≡ (⟦<u32 as PartialEq>⟧.eq a0 b0
        && (⟦<VLBytes as PartialEq>⟧.eq a1 b1
        && ⟦<u8 as PartialEq>⟧.eq a2 b2)) }
    ensures case_3 { ⟦<ByVersion as PartialEq>⟧.eq ByVersion.Case3 ByVersion.Case3 ≡ true }
{}
