//! [`ProposalOrRef`].
ghost use Rattle.std.specs.Prelude.{◌≡◌, IsTrue};
ghost use Rattle.tls_codec.specs.OwnMessages.{no_variant_names, no_variant_source_names, tagged_names, tagged_source_names, variant_names, variant_source_names};
ghost use Rattle.tls_codec_validate.specs.TaggedPlaces.{no_variant_places, tagged_places, variant_places};
ghost use Rattle.mls_group.specs.ProposalOrRef.{proposal_or_ref_format, proposal_or_ref_meets, proposal_or_ref_plain, proposal_or_ref_tag, proposal_or_ref_variants};
ghost use Rattle.mls_group.specs.declared.proposal_or_ref.ProposalOrRef.{ProposalOrRef};
ghost use Rattle.tls_codec_views.specs.Views.{IsCase};
ghost use Rattle.mls_group.specs.declared.proposal_or_ref.ProposalOrRefView.{ProposalOrRefView};

use crate::{Proposal, ProposalRef};
use std::alloc::Global;
use tls_codec::{
    ByRef, Deserialize, DeserializeBytes, Error, Serialize, Sink, Size, Source, unknown_value,
};
use tls_codec_validate::{Rejected, Validate, split_u8};
use tls_codec_views::{Choice, Encoded};

const PROPOSAL: u8 = 1;

const REFERENCE: u8 = 2;

/// `ProposalOrRefType type` of `ProposalOrRef` (RFC 9420, section 12.4), and what comes
/// after each.
#[derive(PartialEq, Eq, Debug, Clone, Drop)]
pub enum ProposalOrRef {
    /// `case proposal: Proposal proposal;`
    Proposal(Proposal),
    /// `case reference: ProposalRef reference;`
    Reference(ProposalRef),
}

impl Size for ProposalOrRef {
    ghost plain = { proposal_or_ref_plain };

    ghost format = { proposal_or_ref_format };

    fn tls_serialized_len(&self) -> usize {
        match self {
            ProposalOrRef::Proposal(proposal) => (PROPOSAL, ByRef(proposal)).tls_serialized_len(),
            ProposalOrRef::Reference(reference) => (
                REFERENCE,
                ByRef(reference),
            ).tls_serialized_len(),
        }
    }

    ghost lawful = { proposal_or_ref_meets };
}

impl Serialize for ProposalOrRef {
    fn tls_serialize<W: Sink>(&self, writer: &mut W) -> Result<usize, Error> {
        match self {
            ProposalOrRef::Proposal(proposal) => (PROPOSAL, ByRef(proposal)).tls_serialize(writer),
            ProposalOrRef::Reference(reference) => (REFERENCE, ByRef(reference)).tls_serialize(
                writer,
            ),
        }
    }

    fn tls_serialize_into(&self, out: &mut Vec<u8>) -> Result<usize, Error> {
        match self {
            ProposalOrRef::Proposal(proposal) => (PROPOSAL, ByRef(proposal)).tls_serialize_into(
                out,
            ),
            ProposalOrRef::Reference(reference) => (REFERENCE, ByRef(reference)).tls_serialize_into(
                out,
            ),
        }
    }
}

impl Deserialize for ProposalOrRef {
    ghost names = { tagged_source_names 1
        (variant_source_names 1 ⟦<Proposal as Deserialize>⟧.names
        (variant_source_names 2 ⟦<ProposalRef as Deserialize>⟧.names
        no_variant_source_names)) };

    fn tls_deserialize<R: Source>(alloc: Global, src: &mut R) -> Result<ProposalOrRef, Error> {
        let tag = u8::tls_deserialize(alloc, src)?;
        match tag {
            PROPOSAL => {
                let proposal = Proposal::tls_deserialize(alloc, src)?;
                Ok(ProposalOrRef::Proposal(proposal))
            }
            REFERENCE => {
                let reference = ProposalRef::tls_deserialize(alloc, src)?;
                Ok(ProposalOrRef::Reference(reference))
            }
            _ => Err(unknown_value(u64::from(tag))),
        }
    }
}

impl DeserializeBytes for ProposalOrRef {
    ghost names = { tagged_names 1
        (variant_names 1 ⟦<Proposal as DeserializeBytes>⟧.names
        (variant_names 2 ⟦<ProposalRef as DeserializeBytes>⟧.names
        no_variant_names)) };

    fn tls_deserialize_bytes(alloc: Global, whole: &[u8]) -> Result<(ProposalOrRef, &[u8]), Error> {
        let (tag, rest) = u8::tls_deserialize_bytes(alloc, whole)?;
        match tag {
            PROPOSAL => {
                let (proposal, rest) = Proposal::tls_deserialize_bytes(alloc, rest)?;
                Ok((ProposalOrRef::Proposal(proposal), rest))
            }
            REFERENCE => {
                let (reference, rest) = ProposalRef::tls_deserialize_bytes(alloc, rest)?;
                Ok((ProposalOrRef::Reference(reference), rest))
            }
            _ => Err(unknown_value(u64::from(tag))),
        }
    }
}

impl Validate for ProposalOrRef {
    ghost places = { tagged_places 1
        (variant_places 1 ⟦<Proposal as Validate>⟧.places
        (variant_places 2 ⟦<ProposalRef as Validate>⟧.places
        no_variant_places)) };

    fn tls_validate_prefix(whole: &[u8]) -> Result<&[u8], Rejected<'_>> {
        let (tag, rest) = split_u8(whole)?;
        match tag {
            PROPOSAL => {
                let behind = Proposal::tls_validate_prefix(rest)?;
                Ok(behind)
            }
            REFERENCE => {
                let behind = ProposalRef::tls_validate_prefix(rest)?;
                Ok(behind)
            }
            _ => Err(Rejected {
                error: unknown_value(u64::from(tag)),
                rest: whole,
            }),
        }
    }
}

impl Choice for ProposalOrRef {
    type Tag = u8;

    ghost variants = { proposal_or_ref_variants };

    ghost as_choice = { λ bytes is. is };
}

/// The encoding of a [`ProposalOrRef`], split into its case and fields.
#[derive(Drop)]
pub enum ProposalOrRefView<'a> {
    /// `case proposal: Proposal proposal;`
    Proposal(Encoded<'a, Proposal>),
    /// `case reference: ProposalRef reference;`
    Reference(Encoded<'a, ProposalRef>),
}

impl<'a> From<Encoded<'a, ProposalOrRef>> for ProposalOrRefView<'a> {
    ghost from_gives = { λ whole view. elim view as (λ v. Type 0) [
      | ProposalOrRefView.Proposal a0 ↦ IsCase 1 1 whole a0
      | ProposalOrRefView.Reference a0 ↦ IsCase 1 2 whole a0
    ] };

    fn from(whole: Encoded<'a, ProposalOrRef>) -> ProposalOrRefView<'a> {
        let (tag, parts) = whole.case();
        match tag {
            1 => ProposalOrRefView::Proposal(Encoded::from_only_part(parts)),
            2 => ProposalOrRefView::Reference(Encoded::from_only_part(parts)),
            _ => unreachable!(),
        }
    }
}

impl ProposalOrRef {
    /// The tag of this value's case.
    pub fn kind(&self) -> u8
        ensures { result ≡ proposal_or_ref_tag self.now }
    {
        match self {
            ProposalOrRef::Proposal(_) => 1,
            ProposalOrRef::Reference(_) => 2,
        }
    }
}

/// The case `proposal` with this content.
impl From<Proposal> for ProposalOrRef {
    ghost from_gives = { λ content value. value ≡ ProposalOrRef.Proposal content };

    fn from(content: Proposal) -> ProposalOrRef {
        ProposalOrRef::Proposal(content)
    }
}

/// The case `reference` with this content.
impl From<ProposalRef> for ProposalOrRef {
    ghost from_gives = { λ content value. value ≡ ProposalOrRef.Reference content };

    fn from(content: ProposalRef) -> ProposalOrRef {
        ProposalOrRef::Reference(content)
    }
}

/// Two values are equal if and only if they have the same case and all their fields are equal.
pub fn is_compared_by_its_case()
    ensures tag { (x y : ProposalOrRef) →
        IsTrue (⟦<ProposalOrRef as PartialEq>⟧.eq x y)
        → proposal_or_ref_tag x ≡ proposal_or_ref_tag y }
    ensures case_1 { (a0 b0 : _) →
        ⟦<ProposalOrRef as PartialEq>⟧.eq (ProposalOrRef.Proposal a0) (ProposalOrRef.Proposal b0)
        ≡ ⟦<Proposal as PartialEq>⟧.eq a0 b0 }
    ensures case_2 { (a0 b0 : _) →
        ⟦<ProposalOrRef as PartialEq>⟧.eq (ProposalOrRef.Reference a0) (ProposalOrRef.Reference b0)
        ≡ ⟦<ProposalRef as PartialEq>⟧.eq a0 b0 }
{}
