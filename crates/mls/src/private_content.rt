//! [`PrivateContent`].
ghost use Rattle.std.specs.Prelude.{◌≡◌, IsTrue};
ghost use Rattle.mls.specs.PrivateContent.{private_content_format_for, private_content_meets_for, private_content_plain, private_content_tag, private_content_variants};
ghost use Rattle.mls.specs.declared.private_content.PrivateContent.{PrivateContent};

use crate::ContentType;
use mls_group::{Commit, Proposal};
use std::alloc::Global;
use tls_codec::{
    ByRef, DeserializeBytesFor, DeserializeFor, Error, SerializeFor, Sink, SizeFor, Source, VLBytes,
};
use tls_codec_cases::{Case, Chosen, Or, append_as_for, write_as_for};
use tls_codec_validate::{Rejected, ValidateFor};
use tls_codec_views::ChoiceFor;

/// `select (content_type)` of `PrivateMessageContent` (RFC 9420, section 6.3.1): its bytes
/// don't have the tag.
#[derive(PartialEq, Eq, Debug, Clone, Drop)]
pub enum PrivateContent {
    /// `case application: opaque application_data<V>;`
    Application(VLBytes),
    /// `case proposal: Proposal proposal;`
    Proposal(Proposal),
    /// `case commit: Commit commit;`
    Commit(Commit),
}

type Cases = Chosen<Or<Or<Case<1, VLBytes>, Case<2, Proposal>>, Case<3, Commit>>>;

type ByRefCases<'a> = Chosen<
    Or<Or<Case<1, ByRef<'a, VLBytes>>, Case<2, ByRef<'a, Proposal>>>, Case<3, ByRef<'a, Commit>>>,
>;

impl PrivateContent {
    fn cases(&self) -> ByRefCases<'_>
        ensures { ⟦<ByRefCases<'static> as SizeFor<ContentType>>⟧.plain result
            ≡ private_content_plain self.now }
    {
        let cases = match self {
            PrivateContent::Application(application_data) => Or::First(Or::First(Case(ByRef(
                application_data,
            )))),
            PrivateContent::Proposal(proposal) => Or::First(Or::Second(Case(ByRef(proposal)))),
            PrivateContent::Commit(commit) => Or::Second(Case(ByRef(commit))),
        };
        Chosen(cases)
    }

    fn of(cases: Cases) -> PrivateContent
        ensures { private_content_plain result ≡ ⟦<Cases as SizeFor<ContentType>>⟧.plain cases }
    {
        match cases.0 {
            Or::First(Or::First(case)) => PrivateContent::Application(case.0),
            Or::First(Or::Second(case)) => PrivateContent::Proposal(case.0),
            Or::Second(case) => PrivateContent::Commit(case.0),
        }
    }
}

impl SizeFor<ContentType> for PrivateContent {
    ghost plain = { private_content_plain };

    ghost format_for = { private_content_format_for };

    fn tls_serialized_len_for(&self, content_type: &ContentType) -> usize {
        self.cases().tls_serialized_len_for(content_type)
    }

    ghost lawful = { private_content_meets_for };
}

/// `EncodingError("value does not fit its context")`: the value's case is for another tag.
impl SerializeFor<ContentType> for PrivateContent {
    fn tls_serialize_for<W: Sink>(
        &self,
        content_type: &ContentType,
        writer: &mut W,
    ) -> Result<usize, Error> {
        write_as_for(self, &self.cases(), content_type, writer)
    }

    fn tls_serialize_into_for(
        &self,
        content_type: &ContentType,
        out: &mut Vec<u8>,
    ) -> Result<usize, Error> {
        append_as_for(self, &self.cases(), content_type, out)
    }
}

impl DeserializeFor<ContentType> for PrivateContent {
    ghost names = { ⟦<Cases as DeserializeFor<ContentType>>⟧.names };

    /// `UnknownValue`: no case has the context's tag.
    fn tls_deserialize_for<R: Source>(
        content_type: &ContentType,
        alloc: Global,
        src: &mut R,
    ) -> Result<PrivateContent, Error> {
        let cases = <Cases>::tls_deserialize_for(content_type, alloc, src)?;
        Ok(PrivateContent::of(cases))
    }
}

impl DeserializeBytesFor<ContentType> for PrivateContent {
    ghost names = { ⟦<Cases as DeserializeBytesFor<ContentType>>⟧.names };

    /// `UnknownValue`: no case has the context's tag.
    fn tls_deserialize_bytes_for<'a>(
        content_type: &ContentType,
        alloc: Global,
        whole: &'a [u8],
    ) -> Result<(PrivateContent, &'a [u8]), Error> {
        let (cases, rest) = <Cases>::tls_deserialize_bytes_for(content_type, alloc, whole)?;
        Ok((PrivateContent::of(cases), rest))
    }
}

impl ValidateFor<ContentType> for PrivateContent {
    ghost places = { ⟦<Cases as ValidateFor<ContentType>>⟧.places };

    fn tls_validate_prefix_for<'a>(key: &u64, whole: &'a [u8]) -> Result<&'a [u8], Rejected<'a>> {
        <Cases as ValidateFor<ContentType>>::tls_validate_prefix_for(key, whole)
    }
}

impl ChoiceFor<ContentType> for PrivateContent {
    ghost variants = { private_content_variants };

    ghost as_choice = { λ c bytes is. is };
}

/// The case `application` with this content.
impl From<VLBytes> for PrivateContent {
    ghost from_gives = { λ content value. value ≡ PrivateContent.Application content };

    fn from(content: VLBytes) -> PrivateContent {
        PrivateContent::Application(content)
    }
}

/// The case `proposal` with this content.
impl From<Proposal> for PrivateContent {
    ghost from_gives = { λ content value. value ≡ PrivateContent.Proposal content };

    fn from(content: Proposal) -> PrivateContent {
        PrivateContent::Proposal(content)
    }
}

/// The case `commit` with this content.
impl From<Commit> for PrivateContent {
    ghost from_gives = { λ content value. value ≡ PrivateContent.Commit content };

    fn from(content: Commit) -> PrivateContent {
        PrivateContent::Commit(content)
    }
}

/// Two values are equal if and only if they have the same case and all their fields are equal.
pub fn is_compared_by_its_case()
    ensures tag { (x y : PrivateContent) →
        IsTrue (⟦<PrivateContent as PartialEq>⟧.eq x y)
        → private_content_tag x ≡ private_content_tag y }
    ensures case_1 { (a0 b0 : _) →
        ⟦<PrivateContent as PartialEq>⟧.eq (PrivateContent.Application a0)
        (PrivateContent.Application b0)
        ≡ ⟦<VLBytes as PartialEq>⟧.eq a0 b0 }
    ensures case_2 { (a0 b0 : _) →
        ⟦<PrivateContent as PartialEq>⟧.eq (PrivateContent.Proposal a0) (PrivateContent.Proposal b0)
        ≡ ⟦<Proposal as PartialEq>⟧.eq a0 b0 }
    ensures case_3 { (a0 b0 : _) →
        ⟦<PrivateContent as PartialEq>⟧.eq (PrivateContent.Commit a0) (PrivateContent.Commit b0)
        ≡ ⟦<Commit as PartialEq>⟧.eq a0 b0 }
{}
