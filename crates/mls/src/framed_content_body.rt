//! [`FramedContentBody`].
ghost use Rattle.std.specs.Prelude.{◌≡◌, IsTrue};
ghost use Rattle.mls.specs.ContentType.{content_type_code};
ghost use Rattle.tls_codec.specs.OwnMessages.{no_variant_names, no_variant_source_names, tagged_names, tagged_source_names, variant_names, variant_source_names};
ghost use Rattle.tls_codec_validate.specs.TaggedPlaces.{no_variant_places, tagged_places, variant_places};
ghost use Rattle.mls.specs.FramedContentBody.{framed_content_body_format, framed_content_body_meets, framed_content_body_plain, framed_content_body_tag, framed_content_body_variants};
ghost use Rattle.mls.specs.declared.framed_content_body.FramedContentBody.{FramedContentBody};
ghost use Rattle.tls_codec_views.specs.Views.{IsCase};
ghost use Rattle.mls.specs.declared.framed_content_body.FramedContentBodyView.{FramedContentBodyView};
ghost use Rattle.mls.specs.FramedContentBody.{framed_content_body_content_type};
ghost use Rattle.std.proofs.Common.{refl};
ghost use Rattle.mls.specs.FramedContentBody.{framed_content_body_variants};

use crate::ContentType;
use mls_group::{Commit, Proposal};
use std::alloc::Global;
use tls_codec::{
    ByRef, Deserialize, DeserializeBytes, Error, Serialize, Sink, Size, Source, VLBytes,
    unknown_value,
};
use tls_codec_cases::{Holds, Selector};
use tls_codec_validate::{
    HoldsKey, Keyed, Rejected, TagFirst, Validate, ValidateKeyed, split_u8, validate_tag_first,
};
use tls_codec_views::{Choice, Encoded};

const APPLICATION: u8 = 1;

const PROPOSAL: u8 = 2;

const COMMIT: u8 = 3;

/// `ContentType content_type` of `FramedContent` (RFC 9420, section 6), and what comes
/// after each.
#[derive(PartialEq, Eq, Debug, Clone, Drop)]
pub enum FramedContentBody {
    /// `case application: opaque application_data<V>;`
    Application(VLBytes),
    /// `case proposal: Proposal proposal;`
    Proposal(Proposal),
    /// `case commit: Commit commit;`
    Commit(Commit),
}

impl Size for FramedContentBody {
    ghost plain = { framed_content_body_plain };

    ghost format = { framed_content_body_format };

    fn tls_serialized_len(&self) -> usize {
        match self {
            FramedContentBody::Application(application_data) => (
                APPLICATION,
                ByRef(application_data),
            ).tls_serialized_len(),
            FramedContentBody::Proposal(proposal) => (
                PROPOSAL,
                ByRef(proposal),
            ).tls_serialized_len(),
            FramedContentBody::Commit(commit) => (COMMIT, ByRef(commit)).tls_serialized_len(),
        }
    }

    ghost lawful = { framed_content_body_meets };
}

impl Serialize for FramedContentBody {
    fn tls_serialize<W: Sink>(&self, writer: &mut W) -> Result<usize, Error> {
        match self {
            FramedContentBody::Application(application_data) => (
                APPLICATION,
                ByRef(application_data),
            ).tls_serialize(writer),
            FramedContentBody::Proposal(proposal) => (PROPOSAL, ByRef(proposal)).tls_serialize(
                writer,
            ),
            FramedContentBody::Commit(commit) => (COMMIT, ByRef(commit)).tls_serialize(writer),
        }
    }

    fn tls_serialize_into(&self, out: &mut Vec<u8>) -> Result<usize, Error> {
        match self {
            FramedContentBody::Application(application_data) => (
                APPLICATION,
                ByRef(application_data),
            ).tls_serialize_into(out),
            FramedContentBody::Proposal(proposal) => (PROPOSAL, ByRef(proposal)).tls_serialize_into(
                out,
            ),
            FramedContentBody::Commit(commit) => (COMMIT, ByRef(commit)).tls_serialize_into(out),
        }
    }
}

impl Deserialize for FramedContentBody {
    ghost names = { tagged_source_names 1
        (variant_source_names 1 ⟦<VLBytes as Deserialize>⟧.names
        (variant_source_names 2 ⟦<Proposal as Deserialize>⟧.names
        (variant_source_names 3 ⟦<Commit as Deserialize>⟧.names
        no_variant_source_names))) };

    fn tls_deserialize<R: Source>(alloc: Global, src: &mut R) -> Result<FramedContentBody, Error> {
        let tag = u8::tls_deserialize(alloc, src)?;
        match tag {
            APPLICATION => {
                let application_data = VLBytes::tls_deserialize(alloc, src)?;
                Ok(FramedContentBody::Application(application_data))
            }
            PROPOSAL => {
                let proposal = Proposal::tls_deserialize(alloc, src)?;
                Ok(FramedContentBody::Proposal(proposal))
            }
            COMMIT => {
                let commit = Commit::tls_deserialize(alloc, src)?;
                Ok(FramedContentBody::Commit(commit))
            }
            _ => Err(unknown_value(u64::from(tag))),
        }
    }
}

impl DeserializeBytes for FramedContentBody {
    ghost names = { tagged_names 1
        (variant_names 1 ⟦<VLBytes as DeserializeBytes>⟧.names
        (variant_names 2 ⟦<Proposal as DeserializeBytes>⟧.names
        (variant_names 3 ⟦<Commit as DeserializeBytes>⟧.names
        no_variant_names))) };

    fn tls_deserialize_bytes(
        alloc: Global,
        whole: &[u8],
    ) -> Result<(FramedContentBody, &[u8]), Error> {
        let (tag, rest) = u8::tls_deserialize_bytes(alloc, whole)?;
        match tag {
            APPLICATION => {
                let (application_data, rest) = VLBytes::tls_deserialize_bytes(alloc, rest)?;
                Ok((FramedContentBody::Application(application_data), rest))
            }
            PROPOSAL => {
                let (proposal, rest) = Proposal::tls_deserialize_bytes(alloc, rest)?;
                Ok((FramedContentBody::Proposal(proposal), rest))
            }
            COMMIT => {
                let (commit, rest) = Commit::tls_deserialize_bytes(alloc, rest)?;
                Ok((FramedContentBody::Commit(commit), rest))
            }
            _ => Err(unknown_value(u64::from(tag))),
        }
    }
}

impl Validate for FramedContentBody {
    ghost places = { tagged_places 1
        (variant_places 1 ⟦<VLBytes as Validate>⟧.places
        (variant_places 2 ⟦<Proposal as Validate>⟧.places
        (variant_places 3 ⟦<Commit as Validate>⟧.places
        no_variant_places))) };

    fn tls_validate_prefix(whole: &[u8]) -> Result<&[u8], Rejected<'_>> {
        let (tag, rest) = split_u8(whole)?;
        match tag {
            APPLICATION => {
                let behind = VLBytes::tls_validate_prefix(rest)?;
                Ok(behind)
            }
            PROPOSAL => {
                let behind = Proposal::tls_validate_prefix(rest)?;
                Ok(behind)
            }
            COMMIT => {
                let behind = Commit::tls_validate_prefix(rest)?;
                Ok(behind)
            }
            _ => Err(Rejected {
                error: unknown_value(u64::from(tag)),
                rest: whole,
            }),
        }
    }
}

impl Choice for FramedContentBody {
    type Tag = u8;

    ghost variants = { framed_content_body_variants };

    ghost as_choice = { λ bytes is. is };
}

/// The encoding of a [`FramedContentBody`], split into its case and fields.
#[derive(Drop)]
pub enum FramedContentBodyView<'a> {
    /// `case application: opaque application_data<V>;`
    Application(Encoded<'a, VLBytes>),
    /// `case proposal: Proposal proposal;`
    Proposal(Encoded<'a, Proposal>),
    /// `case commit: Commit commit;`
    Commit(Encoded<'a, Commit>),
}

impl<'a> From<Encoded<'a, FramedContentBody>> for FramedContentBodyView<'a> {
    ghost from_gives = { λ whole view. elim view as (λ v. Type 0) [
      | FramedContentBodyView.Application a0 ↦ IsCase 1 1 whole a0
      | FramedContentBodyView.Proposal a0 ↦ IsCase 1 2 whole a0
      | FramedContentBodyView.Commit a0 ↦ IsCase 1 3 whole a0
    ] };

    fn from(whole: Encoded<'a, FramedContentBody>) -> FramedContentBodyView<'a> {
        let (tag, parts) = whole.case();
        match tag {
            1 => FramedContentBodyView::Application(Encoded::from_only_part(parts)),
            2 => FramedContentBodyView::Proposal(Encoded::from_only_part(parts)),
            3 => FramedContentBodyView::Commit(Encoded::from_only_part(parts)),
            _ => unreachable!(),
        }
    }
}

impl Holds<ContentType> for FramedContentBody {
    ghost held = { framed_content_body_content_type };

    fn held(&self) -> ContentType {
        self.content_type()
    }
}

impl Keyed for FramedContentBody {
    type Key = u64;

    ghost is_key = { λ key c. (key ≡ ⟦<ContentType as Selector>⟧.selected
        (framed_content_body_content_type c)) };

    fn key(&self) -> u64 {
        <FramedContentBody as Holds<ContentType>>::held(self).selects()
    }
}

impl HoldsKey<ContentType> for FramedContentBody {
    fn held_key(key: &u64) -> u64 {
        *key
    }
}

impl TagFirst for FramedContentBody {
    type Tag = u8;

    ghost variants = { framed_content_body_variants };

    ghost first_tag = { λ c. ⟦<ContentType as Selector>⟧.selected
        (framed_content_body_content_type c) };

    ghost is_tagged = { λ d bytes v spelled. spelled };

    ghost is_first_tag = { λ d bytes tag parts spelled. refl };
}

impl ValidateKeyed for FramedContentBody {
    fn tls_validate_keyed(whole: &[u8]) -> Result<(u64, &[u8]), Rejected<'_>> {
        validate_tag_first::<FramedContentBody>(whole)
    }
}

impl FramedContentBody {
    /// The tag of this value's case.
    pub fn content_type(&self) -> ContentType
        ensures { content_type_code result ≡ framed_content_body_tag self.now }
    {
        match self {
            FramedContentBody::Application(_) => ContentType::Application,
            FramedContentBody::Proposal(_) => ContentType::Proposal,
            FramedContentBody::Commit(_) => ContentType::Commit,
        }
    }
}

/// The case `application` with this content.
impl From<VLBytes> for FramedContentBody {
    ghost from_gives = { λ content value. value ≡ FramedContentBody.Application content };

    fn from(content: VLBytes) -> FramedContentBody {
        FramedContentBody::Application(content)
    }
}

/// The case `proposal` with this content.
impl From<Proposal> for FramedContentBody {
    ghost from_gives = { λ content value. value ≡ FramedContentBody.Proposal content };

    fn from(content: Proposal) -> FramedContentBody {
        FramedContentBody::Proposal(content)
    }
}

/// The case `commit` with this content.
impl From<Commit> for FramedContentBody {
    ghost from_gives = { λ content value. value ≡ FramedContentBody.Commit content };

    fn from(content: Commit) -> FramedContentBody {
        FramedContentBody::Commit(content)
    }
}

/// Two values are equal if and only if they have the same case and all their fields are equal.
pub fn is_compared_by_its_case()
    ensures tag { (x y : FramedContentBody) →
        IsTrue (⟦<FramedContentBody as PartialEq>⟧.eq x y)
        → framed_content_body_tag x ≡ framed_content_body_tag y }
    ensures case_1 { (a0 b0 : _) →
        ⟦<FramedContentBody as PartialEq>⟧.eq (FramedContentBody.Application a0)
        (FramedContentBody.Application b0)
        ≡ ⟦<VLBytes as PartialEq>⟧.eq a0 b0 }
    ensures case_2 { (a0 b0 : _) →
        ⟦<FramedContentBody as PartialEq>⟧.eq (FramedContentBody.Proposal a0)
        (FramedContentBody.Proposal b0)
        ≡ ⟦<Proposal as PartialEq>⟧.eq a0 b0 }
    ensures case_3 { (a0 b0 : _) →
        ⟦<FramedContentBody as PartialEq>⟧.eq (FramedContentBody.Commit a0)
        (FramedContentBody.Commit b0)
        ≡ ⟦<Commit as PartialEq>⟧.eq a0 b0 }
{}
