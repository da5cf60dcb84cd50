//! [`Sender`].
ghost use Rattle.std.specs.Prelude.{[], ◌≡◌, IsTrue, true};
ghost use Rattle.mls.specs.SenderType.{sender_type_code};
ghost use Rattle.tls_codec.specs.OwnMessages.{no_variant_names, no_variant_source_names, nothing_names, nothing_source_names, tagged_names, tagged_source_names, variant_names, variant_source_names};
ghost use Rattle.tls_codec_validate.specs.TaggedPlaces.{no_variant_places, nothing_places, tagged_places, variant_places};
ghost use Rattle.mls.specs.Sender.{sender_format, sender_meets, sender_plain, sender_tag, sender_variants};
ghost use Rattle.mls.specs.declared.sender.Sender.{Sender};
ghost use Rattle.tls_codec_views.specs.Views.{IsCase};
ghost use Rattle.mls.specs.declared.sender.SenderView.{SenderView};
ghost use Rattle.mls.specs.Sender.{sender_sender_type};
ghost use Rattle.std.proofs.Common.{refl};
ghost use Rattle.mls.specs.Sender.{sender_variants};

use crate::SenderType;
use std::alloc::Global;
use tls_codec::{
    ByRef, Deserialize, DeserializeBytes, Error, Serialize, Sink, Size, Source, unknown_value,
};
use tls_codec_cases::{Holds, Selector};
use tls_codec_validate::{
    HoldsKey, Keyed, Rejected, TagFirst, Validate, ValidateKeyed, split_u8, validate_tag_first,
};
use tls_codec_views::{Choice, Encoded};

const MEMBER: u8 = 1;

const EXTERNAL: u8 = 2;

const NEW_MEMBER_COMMIT: u8 = 4;

const NEW_MEMBER_PROPOSAL: u8 = 3;

/// `SenderType sender_type` of `Sender` (RFC 9420, section 6), and what comes after each.
#[derive(PartialEq, Eq, Debug, Clone, Drop)]
pub enum Sender {
    /// `case member: uint32 leaf_index;`
    Member(u32),
    /// `case external: uint32 sender_index;`
    External(u32),
    /// `case new_member_commit:`
    NewMemberCommit,
    /// `case new_member_proposal:`
    NewMemberProposal,
}

impl Size for Sender {
    ghost plain = { sender_plain };

    ghost format = { sender_format };

    fn tls_serialized_len(&self) -> usize {
        match self {
            Sender::Member(leaf_index) => (MEMBER, ByRef(leaf_index)).tls_serialized_len(),
            Sender::External(sender_index) => (EXTERNAL, ByRef(sender_index)).tls_serialized_len(),
            Sender::NewMemberCommit => 1,
            Sender::NewMemberProposal => 1,
        }
    }

    ghost lawful = { sender_meets };
}

impl Serialize for Sender {
    fn tls_serialize<W: Sink>(&self, writer: &mut W) -> Result<usize, Error> {
        match self {
            Sender::Member(leaf_index) => (MEMBER, ByRef(leaf_index)).tls_serialize(writer),
            Sender::External(sender_index) => (EXTERNAL, ByRef(sender_index)).tls_serialize(writer),
            Sender::NewMemberCommit => NEW_MEMBER_COMMIT.tls_serialize(writer),
            Sender::NewMemberProposal => NEW_MEMBER_PROPOSAL.tls_serialize(writer),
        }
    }

    fn tls_serialize_into(&self, out: &mut Vec<u8>) -> Result<usize, Error> {
        match self {
            Sender::Member(leaf_index) => (MEMBER, ByRef(leaf_index)).tls_serialize_into(out),
            Sender::External(sender_index) => (EXTERNAL, ByRef(sender_index)).tls_serialize_into(
                out,
            ),
            Sender::NewMemberCommit => NEW_MEMBER_COMMIT.tls_serialize_into(out),
            Sender::NewMemberProposal => NEW_MEMBER_PROPOSAL.tls_serialize_into(out),
        }
    }
}

impl Deserialize for Sender {
    ghost names = { tagged_source_names 1
        (variant_source_names 1 ⟦<u32 as Deserialize>⟧.names
        (variant_source_names 2 ⟦<u32 as Deserialize>⟧.names
        (variant_source_names 4 nothing_source_names
        (variant_source_names 3 nothing_source_names
        no_variant_source_names)))) };

    fn tls_deserialize<R: Source>(alloc: Global, src: &mut R) -> Result<Sender, Error> {
        let tag = u8::tls_deserialize(alloc, src)?;
        match tag {
            MEMBER => {
                let leaf_index = u32::tls_deserialize(alloc, src)?;
                Ok(Sender::Member(leaf_index))
            }
            EXTERNAL => {
                let sender_index = u32::tls_deserialize(alloc, src)?;
                Ok(Sender::External(sender_index))
            }
            NEW_MEMBER_COMMIT => Ok(Sender::NewMemberCommit),
            NEW_MEMBER_PROPOSAL => Ok(Sender::NewMemberProposal),
            _ => Err(unknown_value(u64::from(tag))),
        }
    }
}

impl DeserializeBytes for Sender {
    ghost names = { tagged_names 1
        (variant_names 1 ⟦<u32 as DeserializeBytes>⟧.names
        (variant_names 2 ⟦<u32 as DeserializeBytes>⟧.names
        (variant_names 4 nothing_names
        (variant_names 3 nothing_names
        no_variant_names)))) };

    fn tls_deserialize_bytes(alloc: Global, whole: &[u8]) -> Result<(Sender, &[u8]), Error> {
        let (tag, rest) = u8::tls_deserialize_bytes(alloc, whole)?;
        match tag {
            MEMBER => {
                let (leaf_index, rest) = u32::tls_deserialize_bytes(alloc, rest)?;
                Ok((Sender::Member(leaf_index), rest))
            }
            EXTERNAL => {
                let (sender_index, rest) = u32::tls_deserialize_bytes(alloc, rest)?;
                Ok((Sender::External(sender_index), rest))
            }
            NEW_MEMBER_COMMIT => Ok((Sender::NewMemberCommit, rest)),
            NEW_MEMBER_PROPOSAL => Ok((Sender::NewMemberProposal, rest)),
            _ => Err(unknown_value(u64::from(tag))),
        }
    }
}

impl Validate for Sender {
    ghost places = { tagged_places 1
        (variant_places 1 ⟦<u32 as Validate>⟧.places
        (variant_places 2 ⟦<u32 as Validate>⟧.places
        (variant_places 4 nothing_places
        (variant_places 3 nothing_places
        no_variant_places)))) };

    fn tls_validate_prefix(whole: &[u8]) -> Result<&[u8], Rejected<'_>> {
        let (tag, rest) = split_u8(whole)?;
        match tag {
            MEMBER => {
                let behind = u32::tls_validate_prefix(rest)?;
                Ok(behind)
            }
            EXTERNAL => {
                let behind = u32::tls_validate_prefix(rest)?;
                Ok(behind)
            }
            NEW_MEMBER_COMMIT => Ok(rest),
            NEW_MEMBER_PROPOSAL => Ok(rest),
            _ => Err(Rejected {
                error: unknown_value(u64::from(tag)),
                rest: whole,
            }),
        }
    }
}

impl Choice for Sender {
    type Tag = u8;

    ghost variants = { sender_variants };

    ghost as_choice = { λ bytes is. is };
}

/// The encoding of a [`Sender`], split into its case and fields.
#[derive(Drop)]
pub enum SenderView<'a> {
    /// `case member: uint32 leaf_index;`
    Member(Encoded<'a, u32>),
    /// `case external: uint32 sender_index;`
    External(Encoded<'a, u32>),
    /// `case new_member_commit:`
    NewMemberCommit,
    /// `case new_member_proposal:`
    NewMemberProposal,
}

impl<'a> From<Encoded<'a, Sender>> for SenderView<'a> {
    ghost from_gives = { λ whole view. elim view as (λ v. Type 0) [
      | SenderView.Member a0 ↦ IsCase 1 1 whole a0
      | SenderView.External a0 ↦ IsCase 1 2 whole a0
      | SenderView.NewMemberCommit ↦ IsCase 1 4 whole []
      | SenderView.NewMemberProposal ↦ IsCase 1 3 whole []
    ] };

    fn from(whole: Encoded<'a, Sender>) -> SenderView<'a> {
        let (tag, parts) = whole.case();
        match tag {
            1 => SenderView::Member(Encoded::from_only_part(parts)),
            2 => SenderView::External(Encoded::from_only_part(parts)),
            4 => SenderView::NewMemberCommit,
            3 => SenderView::NewMemberProposal,
            _ => unreachable!(),
        }
    }
}

impl Holds<SenderType> for Sender {
    ghost held = { sender_sender_type };

    fn held(&self) -> SenderType {
        self.sender_type()
    }
}

impl Keyed for Sender {
    type Key = u64;

    ghost is_key = { λ key c. (key ≡ ⟦<SenderType as Selector>⟧.selected (sender_sender_type c)) };

    fn key(&self) -> u64 {
        <Sender as Holds<SenderType>>::held(self).selects()
    }
}

impl HoldsKey<SenderType> for Sender {
    fn held_key(key: &u64) -> u64 {
        *key
    }
}

impl TagFirst for Sender {
    type Tag = u8;

    ghost variants = { sender_variants };

    ghost first_tag = { λ c. ⟦<SenderType as Selector>⟧.selected (sender_sender_type c) };

    ghost is_tagged = { λ d bytes v spelled. spelled };

    ghost is_first_tag = { λ d bytes tag parts spelled. refl };
}

impl ValidateKeyed for Sender {
    fn tls_validate_keyed(whole: &[u8]) -> Result<(u64, &[u8]), Rejected<'_>> {
        validate_tag_first::<Sender>(whole)
    }
}

impl Sender {
    /// The tag of this value's case.
    pub fn sender_type(&self) -> SenderType
        ensures { sender_type_code result ≡ sender_tag self.now }
    {
        match self {
            Sender::Member(_) => SenderType::Member,
            Sender::External(_) => SenderType::External,
            Sender::NewMemberCommit => SenderType::NewMemberCommit,
            Sender::NewMemberProposal => SenderType::NewMemberProposal,
        }
    }
}

/// Two values are equal if and only if they have the same case and all their fields are equal.
pub fn is_compared_by_its_case()
    ensures tag { (x y : Sender) →
        IsTrue (⟦<Sender as PartialEq>⟧.eq x y) → sender_tag x ≡ sender_tag y }
    ensures case_1 { (a0 b0 : _) →
        ⟦<Sender as PartialEq>⟧.eq (Sender.Member a0) (Sender.Member b0)
        ≡ ⟦<u32 as PartialEq>⟧.eq a0 b0 }
    ensures case_2 { (a0 b0 : _) →
        ⟦<Sender as PartialEq>⟧.eq (Sender.External a0) (Sender.External b0)
        ≡ ⟦<u32 as PartialEq>⟧.eq a0 b0 }
    ensures case_4 { ⟦<Sender as PartialEq>⟧.eq Sender.NewMemberCommit Sender.NewMemberCommit
        ≡ true }
    ensures case_3 { ⟦<Sender as PartialEq>⟧.eq Sender.NewMemberProposal Sender.NewMemberProposal
        ≡ true }
{}
