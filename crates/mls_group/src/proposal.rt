//! [`Proposal`].
ghost use Rattle.std.specs.Prelude.{◌≡◌, IsTrue};
ghost use Rattle.tls_codec.specs.OwnMessages.{no_variant_names, no_variant_source_names, tagged_names, tagged_source_names, variant_names, variant_source_names};
ghost use Rattle.tls_codec_validate.specs.TaggedPlaces.{no_variant_places, tagged_places, variant_places};
ghost use Rattle.mls_group.specs.Proposal.{proposal_format, proposal_meets, proposal_plain, proposal_tag, proposal_variants};
ghost use Rattle.mls_group.specs.declared.proposal.Proposal.{Proposal};
ghost use Rattle.tls_codec_views.specs.Views.{IsCase};
ghost use Rattle.mls_group.specs.declared.proposal.ProposalView.{ProposalView};

use crate::{Add, ExternalInit, GroupContextExtensions, PreSharedKey, ReInit, Remove, Update};
use mls_tree::ProposalType;
use std::alloc::Global;
use tls_codec::{
    ByRef, Deserialize, DeserializeBytes, Error, Serialize, Sink, Size, Source, unknown_value,
};
use tls_codec_validate::{Rejected, Validate, split_u16};
use tls_codec_views::{Choice, Encoded};

const ADD: u16 = 1;

const UPDATE: u16 = 2;

const REMOVE: u16 = 3;

const PSK: u16 = 4;

const REINIT: u16 = 5;

const EXTERNAL_INIT: u16 = 6;

const GROUP_CONTEXT_EXTENSIONS: u16 = 7;

/// `ProposalType proposal_type` of `Proposal` (RFC 9420, section 12.1), and what comes
/// after each.
#[derive(PartialEq, Eq, Debug, Clone, Drop)]
pub enum Proposal {
    /// `case add: Add add;`
    Add(Add),
    /// `case update: Update update;`
    Update(Update),
    /// `case remove: Remove remove;`
    Remove(Remove),
    /// `case psk: PreSharedKey psk;`
    Psk(PreSharedKey),
    /// `case reinit: ReInit reinit;`
    Reinit(ReInit),
    /// `case external_init: ExternalInit external_init;`
    ExternalInit(ExternalInit),
    /// `case group_context_extensions: GroupContextExtensions group_context_extensions;`
    GroupContextExtensions(GroupContextExtensions),
}

impl Size for Proposal {
    ghost plain = { proposal_plain };

    ghost format = { proposal_format };

    fn tls_serialized_len(&self) -> usize {
        match self {
            Proposal::Add(add) => (ADD, ByRef(add)).tls_serialized_len(),
            Proposal::Update(update) => (UPDATE, ByRef(update)).tls_serialized_len(),
            Proposal::Remove(remove) => (REMOVE, ByRef(remove)).tls_serialized_len(),
            Proposal::Psk(psk) => (PSK, ByRef(psk)).tls_serialized_len(),
            Proposal::Reinit(reinit) => (REINIT, ByRef(reinit)).tls_serialized_len(),
            Proposal::ExternalInit(external_init) => (
                EXTERNAL_INIT,
                ByRef(external_init),
            ).tls_serialized_len(),
            Proposal::GroupContextExtensions(group_context_extensions) => (
                GROUP_CONTEXT_EXTENSIONS,
                ByRef(group_context_extensions),
            ).tls_serialized_len(),
        }
    }

    ghost lawful = { proposal_meets };
}

impl Serialize for Proposal {
    fn tls_serialize<W: Sink>(&self, writer: &mut W) -> Result<usize, Error> {
        match self {
            Proposal::Add(add) => (ADD, ByRef(add)).tls_serialize(writer),
            Proposal::Update(update) => (UPDATE, ByRef(update)).tls_serialize(writer),
            Proposal::Remove(remove) => (REMOVE, ByRef(remove)).tls_serialize(writer),
            Proposal::Psk(psk) => (PSK, ByRef(psk)).tls_serialize(writer),
            Proposal::Reinit(reinit) => (REINIT, ByRef(reinit)).tls_serialize(writer),
            Proposal::ExternalInit(external_init) => (
                EXTERNAL_INIT,
                ByRef(external_init),
            ).tls_serialize(writer),
            Proposal::GroupContextExtensions(group_context_extensions) => (
                GROUP_CONTEXT_EXTENSIONS,
                ByRef(group_context_extensions),
            ).tls_serialize(writer),
        }
    }

    fn tls_serialize_into(&self, out: &mut Vec<u8>) -> Result<usize, Error> {
        match self {
            Proposal::Add(add) => (ADD, ByRef(add)).tls_serialize_into(out),
            Proposal::Update(update) => (UPDATE, ByRef(update)).tls_serialize_into(out),
            Proposal::Remove(remove) => (REMOVE, ByRef(remove)).tls_serialize_into(out),
            Proposal::Psk(psk) => (PSK, ByRef(psk)).tls_serialize_into(out),
            Proposal::Reinit(reinit) => (REINIT, ByRef(reinit)).tls_serialize_into(out),
            Proposal::ExternalInit(external_init) => (
                EXTERNAL_INIT,
                ByRef(external_init),
            ).tls_serialize_into(out),
            Proposal::GroupContextExtensions(group_context_extensions) => (
                GROUP_CONTEXT_EXTENSIONS,
                ByRef(group_context_extensions),
            ).tls_serialize_into(out),
        }
    }
}

impl Deserialize for Proposal {
    ghost names = { tagged_source_names 2
        (variant_source_names 1 ⟦<Add as Deserialize>⟧.names
        (variant_source_names 2 ⟦<Update as Deserialize>⟧.names
        (variant_source_names 3 ⟦<Remove as Deserialize>⟧.names
        (variant_source_names 4 ⟦<PreSharedKey as Deserialize>⟧.names
        (variant_source_names 5 ⟦<ReInit as Deserialize>⟧.names
        (variant_source_names 6 ⟦<ExternalInit as Deserialize>⟧.names
        (variant_source_names 7 ⟦<GroupContextExtensions as Deserialize>⟧.names
        no_variant_source_names))))))) };

    fn tls_deserialize<R: Source>(alloc: Global, src: &mut R) -> Result<Proposal, Error> {
        let tag = u16::tls_deserialize(alloc, src)?;
        match tag {
            ADD => {
                let add = Add::tls_deserialize(alloc, src)?;
                Ok(Proposal::Add(add))
            }
            UPDATE => {
                let update = Update::tls_deserialize(alloc, src)?;
                Ok(Proposal::Update(update))
            }
            REMOVE => {
                let remove = Remove::tls_deserialize(alloc, src)?;
                Ok(Proposal::Remove(remove))
            }
            PSK => {
                let psk = PreSharedKey::tls_deserialize(alloc, src)?;
                Ok(Proposal::Psk(psk))
            }
            REINIT => {
                let reinit = ReInit::tls_deserialize(alloc, src)?;
                Ok(Proposal::Reinit(reinit))
            }
            EXTERNAL_INIT => {
                let external_init = ExternalInit::tls_deserialize(alloc, src)?;
                Ok(Proposal::ExternalInit(external_init))
            }
            GROUP_CONTEXT_EXTENSIONS => {
                let group_context_extensions = GroupContextExtensions::tls_deserialize(alloc, src)?;
                Ok(Proposal::GroupContextExtensions(group_context_extensions))
            }
            _ => Err(unknown_value(u64::from(tag))),
        }
    }
}

impl DeserializeBytes for Proposal {
    ghost names = { tagged_names 2
        (variant_names 1 ⟦<Add as DeserializeBytes>⟧.names
        (variant_names 2 ⟦<Update as DeserializeBytes>⟧.names
        (variant_names 3 ⟦<Remove as DeserializeBytes>⟧.names
        (variant_names 4 ⟦<PreSharedKey as DeserializeBytes>⟧.names
        (variant_names 5 ⟦<ReInit as DeserializeBytes>⟧.names
        (variant_names 6 ⟦<ExternalInit as DeserializeBytes>⟧.names
        (variant_names 7 ⟦<GroupContextExtensions as DeserializeBytes>⟧.names
        no_variant_names))))))) };

    fn tls_deserialize_bytes(alloc: Global, whole: &[u8]) -> Result<(Proposal, &[u8]), Error> {
        let (tag, rest) = u16::tls_deserialize_bytes(alloc, whole)?;
        match tag {
            ADD => {
                let (add, rest) = Add::tls_deserialize_bytes(alloc, rest)?;
                Ok((Proposal::Add(add), rest))
            }
            UPDATE => {
                let (update, rest) = Update::tls_deserialize_bytes(alloc, rest)?;
                Ok((Proposal::Update(update), rest))
            }
            REMOVE => {
                let (remove, rest) = Remove::tls_deserialize_bytes(alloc, rest)?;
                Ok((Proposal::Remove(remove), rest))
            }
            PSK => {
                let (psk, rest) = PreSharedKey::tls_deserialize_bytes(alloc, rest)?;
                Ok((Proposal::Psk(psk), rest))
            }
            REINIT => {
                let (reinit, rest) = ReInit::tls_deserialize_bytes(alloc, rest)?;
                Ok((Proposal::Reinit(reinit), rest))
            }
            EXTERNAL_INIT => {
                let (external_init, rest) = ExternalInit::tls_deserialize_bytes(alloc, rest)?;
                Ok((Proposal::ExternalInit(external_init), rest))
            }
            GROUP_CONTEXT_EXTENSIONS => {
                let (group_context_extensions, rest) =
                    GroupContextExtensions::tls_deserialize_bytes(alloc, rest)?;
                Ok((
                    Proposal::GroupContextExtensions(group_context_extensions),
                    rest,
                ))
            }
            _ => Err(unknown_value(u64::from(tag))),
        }
    }
}

impl Validate for Proposal {
    ghost places = { tagged_places 2
        (variant_places 1 ⟦<Add as Validate>⟧.places
        (variant_places 2 ⟦<Update as Validate>⟧.places
        (variant_places 3 ⟦<Remove as Validate>⟧.places
        (variant_places 4 ⟦<PreSharedKey as Validate>⟧.places
        (variant_places 5 ⟦<ReInit as Validate>⟧.places
        (variant_places 6 ⟦<ExternalInit as Validate>⟧.places
        (variant_places 7 ⟦<GroupContextExtensions as Validate>⟧.places
        no_variant_places))))))) };

    fn tls_validate_prefix(whole: &[u8]) -> Result<&[u8], Rejected<'_>> {
        let (tag, rest) = split_u16(whole)?;
        match tag {
            ADD => {
                let behind = Add::tls_validate_prefix(rest)?;
                Ok(behind)
            }
            UPDATE => {
                let behind = Update::tls_validate_prefix(rest)?;
                Ok(behind)
            }
            REMOVE => {
                let behind = Remove::tls_validate_prefix(rest)?;
                Ok(behind)
            }
            PSK => {
                let behind = PreSharedKey::tls_validate_prefix(rest)?;
                Ok(behind)
            }
            REINIT => {
                let behind = ReInit::tls_validate_prefix(rest)?;
                Ok(behind)
            }
            EXTERNAL_INIT => {
                let behind = ExternalInit::tls_validate_prefix(rest)?;
                Ok(behind)
            }
            GROUP_CONTEXT_EXTENSIONS => {
                let behind = GroupContextExtensions::tls_validate_prefix(rest)?;
                Ok(behind)
            }
            _ => Err(Rejected {
                error: unknown_value(u64::from(tag)),
                rest: whole,
            }),
        }
    }
}

impl Choice for Proposal {
    type Tag = u16;

    ghost variants = { proposal_variants };

    ghost as_choice = { λ bytes is. is };
}

/// The encoding of a [`Proposal`], split into its case and fields.
#[derive(Drop)]
pub enum ProposalView<'a> {
    /// `case add: Add add;`
    Add(Encoded<'a, Add>),
    /// `case update: Update update;`
    Update(Encoded<'a, Update>),
    /// `case remove: Remove remove;`
    Remove(Encoded<'a, Remove>),
    /// `case psk: PreSharedKey psk;`
    Psk(Encoded<'a, PreSharedKey>),
    /// `case reinit: ReInit reinit;`
    Reinit(Encoded<'a, ReInit>),
    /// `case external_init: ExternalInit external_init;`
    ExternalInit(Encoded<'a, ExternalInit>),
    /// `case group_context_extensions: GroupContextExtensions group_context_extensions;`
    GroupContextExtensions(Encoded<'a, GroupContextExtensions>),
}

impl<'a> From<Encoded<'a, Proposal>> for ProposalView<'a> {
    ghost from_gives = { λ whole view. elim view as (λ v. Type 0) [
      | ProposalView.Add a0 ↦ IsCase 2 1 whole a0
      | ProposalView.Update a0 ↦ IsCase 2 2 whole a0
      | ProposalView.Remove a0 ↦ IsCase 2 3 whole a0
      | ProposalView.Psk a0 ↦ IsCase 2 4 whole a0
      | ProposalView.Reinit a0 ↦ IsCase 2 5 whole a0
      | ProposalView.ExternalInit a0 ↦ IsCase 2 6 whole a0
      | ProposalView.GroupContextExtensions a0 ↦ IsCase 2 7 whole a0
    ] };

    fn from(whole: Encoded<'a, Proposal>) -> ProposalView<'a> {
        let (tag, parts) = whole.case();
        match tag {
            1 => ProposalView::Add(Encoded::from_only_part(parts)),
            2 => ProposalView::Update(Encoded::from_only_part(parts)),
            3 => ProposalView::Remove(Encoded::from_only_part(parts)),
            4 => ProposalView::Psk(Encoded::from_only_part(parts)),
            5 => ProposalView::Reinit(Encoded::from_only_part(parts)),
            6 => ProposalView::ExternalInit(Encoded::from_only_part(parts)),
            7 => ProposalView::GroupContextExtensions(Encoded::from_only_part(parts)),
            _ => unreachable!(),
        }
    }
}

impl Proposal {
    /// The tag of this value's case.
    pub fn proposal_type(&self) -> ProposalType
        ensures { result.0 ≡ proposal_tag self.now }
    {
        match self {
            Proposal::Add(_) => ProposalType(1),
            Proposal::Update(_) => ProposalType(2),
            Proposal::Remove(_) => ProposalType(3),
            Proposal::Psk(_) => ProposalType(4),
            Proposal::Reinit(_) => ProposalType(5),
            Proposal::ExternalInit(_) => ProposalType(6),
            Proposal::GroupContextExtensions(_) => ProposalType(7),
        }
    }
}

/// The case `add` with this content.
impl From<Add> for Proposal {
    ghost from_gives = { λ content value. value ≡ Proposal.Add content };

    fn from(content: Add) -> Proposal {
        Proposal::Add(content)
    }
}

/// The case `update` with this content.
impl From<Update> for Proposal {
    ghost from_gives = { λ content value. value ≡ Proposal.Update content };

    fn from(content: Update) -> Proposal {
        Proposal::Update(content)
    }
}

/// The case `remove` with this content.
impl From<Remove> for Proposal {
    ghost from_gives = { λ content value. value ≡ Proposal.Remove content };

    fn from(content: Remove) -> Proposal {
        Proposal::Remove(content)
    }
}

/// The case `psk` with this content.
impl From<PreSharedKey> for Proposal {
    ghost from_gives = { λ content value. value ≡ Proposal.Psk content };

    fn from(content: PreSharedKey) -> Proposal {
        Proposal::Psk(content)
    }
}

/// The case `reinit` with this content.
impl From<ReInit> for Proposal {
    ghost from_gives = { λ content value. value ≡ Proposal.Reinit content };

    fn from(content: ReInit) -> Proposal {
        Proposal::Reinit(content)
    }
}

/// The case `external_init` with this content.
impl From<ExternalInit> for Proposal {
    ghost from_gives = { λ content value. value ≡ Proposal.ExternalInit content };

    fn from(content: ExternalInit) -> Proposal {
        Proposal::ExternalInit(content)
    }
}

/// The case `group_context_extensions` with this content.
impl From<GroupContextExtensions> for Proposal {
    ghost from_gives = { λ content value. value ≡ Proposal.GroupContextExtensions content };

    fn from(content: GroupContextExtensions) -> Proposal {
        Proposal::GroupContextExtensions(content)
    }
}

/// Two values are equal if and only if they have the same case and all their fields are equal.
pub fn is_compared_by_its_case()
    ensures tag { (x y : Proposal) →
        IsTrue (⟦<Proposal as PartialEq>⟧.eq x y) → proposal_tag x ≡ proposal_tag y }
    ensures case_1 { (a0 b0 : _) →
        ⟦<Proposal as PartialEq>⟧.eq (Proposal.Add a0) (Proposal.Add b0)
        ≡ ⟦<Add as PartialEq>⟧.eq a0 b0 }
    ensures case_2 { (a0 b0 : _) →
        ⟦<Proposal as PartialEq>⟧.eq (Proposal.Update a0) (Proposal.Update b0)
        ≡ ⟦<Update as PartialEq>⟧.eq a0 b0 }
    ensures case_3 { (a0 b0 : _) →
        ⟦<Proposal as PartialEq>⟧.eq (Proposal.Remove a0) (Proposal.Remove b0)
        ≡ ⟦<Remove as PartialEq>⟧.eq a0 b0 }
    ensures case_4 { (a0 b0 : _) →
        ⟦<Proposal as PartialEq>⟧.eq (Proposal.Psk a0) (Proposal.Psk b0)
        ≡ ⟦<PreSharedKey as PartialEq>⟧.eq a0 b0 }
    ensures case_5 { (a0 b0 : _) →
        ⟦<Proposal as PartialEq>⟧.eq (Proposal.Reinit a0) (Proposal.Reinit b0)
        ≡ ⟦<ReInit as PartialEq>⟧.eq a0 b0 }
    ensures case_6 { (a0 b0 : _) →
        ⟦<Proposal as PartialEq>⟧.eq (Proposal.ExternalInit a0) (Proposal.ExternalInit b0)
        ≡ ⟦<ExternalInit as PartialEq>⟧.eq a0 b0 }
    ensures case_7 { (a0 b0 : _) →
        ⟦<Proposal as PartialEq>⟧.eq (Proposal.GroupContextExtensions a0)
        (Proposal.GroupContextExtensions b0)
        ≡ ⟦<GroupContextExtensions as PartialEq>⟧.eq a0 b0 }
{}
