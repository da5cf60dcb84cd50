//! [`LeafNodeOrigin`].
ghost use Rattle.std.specs.Prelude.{[], ◌≡◌, IsTrue, true};
ghost use Rattle.tls_codec.specs.OwnMessages.{no_variant_names, no_variant_source_names, nothing_names, nothing_source_names, tagged_names, tagged_source_names, variant_names, variant_source_names};
ghost use Rattle.tls_codec_validate.specs.TaggedPlaces.{no_variant_places, nothing_places, tagged_places, variant_places};
ghost use Rattle.mls_tree.specs.LeafNodeOrigin.{leaf_node_origin_format, leaf_node_origin_meets, leaf_node_origin_plain, leaf_node_origin_tag, leaf_node_origin_variants};
ghost use Rattle.mls_tree.specs.declared.leaf_node_origin.LeafNodeOrigin.{LeafNodeOrigin};
ghost use Rattle.tls_codec_views.specs.Views.{IsCase};
ghost use Rattle.mls_tree.specs.declared.leaf_node_origin.LeafNodeOriginView.{LeafNodeOriginView};

use crate::Lifetime;
use std::alloc::Global;
use tls_codec::{
    ByRef, Deserialize, DeserializeBytes, Error, Serialize, Sink, Size, Source, VLBytes,
    unknown_value,
};
use tls_codec_validate::{Rejected, Validate, split_u8};
use tls_codec_views::{Choice, Encoded};

const KEY_PACKAGE: u8 = 1;

const UPDATE: u8 = 2;

const COMMIT: u8 = 3;

/// `LeafNodeSource leaf_node_source` of `LeafNode` (RFC 9420, section 7.2), and what comes
/// after each.
#[derive(PartialEq, Eq, Debug, Clone, Drop)]
pub enum LeafNodeOrigin {
    /// `case key_package: Lifetime lifetime;`
    KeyPackage(Lifetime),
    /// `case update:`
    Update,
    /// `case commit: opaque parent_hash<V>;`
    Commit(VLBytes),
}

impl Size for LeafNodeOrigin {
    ghost plain = { leaf_node_origin_plain };

    ghost format = { leaf_node_origin_format };

    fn tls_serialized_len(&self) -> usize {
        match self {
            LeafNodeOrigin::KeyPackage(lifetime) => (
                KEY_PACKAGE,
                ByRef(lifetime),
            ).tls_serialized_len(),
            LeafNodeOrigin::Update => 1,
            LeafNodeOrigin::Commit(parent_hash) => (
                COMMIT,
                ByRef(parent_hash),
            ).tls_serialized_len(),
        }
    }

    ghost lawful = { leaf_node_origin_meets };
}

impl Serialize for LeafNodeOrigin {
    fn tls_serialize<W: Sink>(&self, writer: &mut W) -> Result<usize, Error> {
        match self {
            LeafNodeOrigin::KeyPackage(lifetime) => (KEY_PACKAGE, ByRef(lifetime)).tls_serialize(
                writer,
            ),
            LeafNodeOrigin::Update => UPDATE.tls_serialize(writer),
            LeafNodeOrigin::Commit(parent_hash) => (COMMIT, ByRef(parent_hash)).tls_serialize(
                writer,
            ),
        }
    }

    fn tls_serialize_into(&self, out: &mut Vec<u8>) -> Result<usize, Error> {
        match self {
            LeafNodeOrigin::KeyPackage(lifetime) => (
                KEY_PACKAGE,
                ByRef(lifetime),
            ).tls_serialize_into(out),
            LeafNodeOrigin::Update => UPDATE.tls_serialize_into(out),
            LeafNodeOrigin::Commit(parent_hash) => (COMMIT, ByRef(parent_hash)).tls_serialize_into(
                out,
            ),
        }
    }
}

impl Deserialize for LeafNodeOrigin {
    ghost names = { tagged_source_names 1
        (variant_source_names 1 ⟦<Lifetime as Deserialize>⟧.names
        (variant_source_names 2 nothing_source_names
        (variant_source_names 3 ⟦<VLBytes as Deserialize>⟧.names
        no_variant_source_names))) };

    fn tls_deserialize<R: Source>(alloc: Global, src: &mut R) -> Result<LeafNodeOrigin, Error> {
        let tag = u8::tls_deserialize(alloc, src)?;
        match tag {
            KEY_PACKAGE => {
                let lifetime = Lifetime::tls_deserialize(alloc, src)?;
                Ok(LeafNodeOrigin::KeyPackage(lifetime))
            }
            UPDATE => Ok(LeafNodeOrigin::Update),
            COMMIT => {
                let parent_hash = VLBytes::tls_deserialize(alloc, src)?;
                Ok(LeafNodeOrigin::Commit(parent_hash))
            }
            _ => Err(unknown_value(u64::from(tag))),
        }
    }
}

impl DeserializeBytes for LeafNodeOrigin {
    ghost names = { tagged_names 1
        (variant_names 1 ⟦<Lifetime as DeserializeBytes>⟧.names
        (variant_names 2 nothing_names
        (variant_names 3 ⟦<VLBytes as DeserializeBytes>⟧.names
        no_variant_names))) };

    fn tls_deserialize_bytes(
        alloc: Global,
        whole: &[u8],
    ) -> Result<(LeafNodeOrigin, &[u8]), Error> {
        let (tag, rest) = u8::tls_deserialize_bytes(alloc, whole)?;
        match tag {
            KEY_PACKAGE => {
                let (lifetime, rest) = Lifetime::tls_deserialize_bytes(alloc, rest)?;
                Ok((LeafNodeOrigin::KeyPackage(lifetime), rest))
            }
            UPDATE => Ok((LeafNodeOrigin::Update, rest)),
            COMMIT => {
                let (parent_hash, rest) = VLBytes::tls_deserialize_bytes(alloc, rest)?;
                Ok((LeafNodeOrigin::Commit(parent_hash), rest))
            }
            _ => Err(unknown_value(u64::from(tag))),
        }
    }
}

impl Validate for LeafNodeOrigin {
    ghost places = { tagged_places 1
        (variant_places 1 ⟦<Lifetime as Validate>⟧.places
        (variant_places 2 nothing_places
        (variant_places 3 ⟦<VLBytes as Validate>⟧.places
        no_variant_places))) };

    fn tls_validate_prefix(whole: &[u8]) -> Result<&[u8], Rejected<'_>> {
        let (tag, rest) = split_u8(whole)?;
        match tag {
            KEY_PACKAGE => {
                let behind = Lifetime::tls_validate_prefix(rest)?;
                Ok(behind)
            }
            UPDATE => Ok(rest),
            COMMIT => {
                let behind = VLBytes::tls_validate_prefix(rest)?;
                Ok(behind)
            }
            _ => Err(Rejected {
                error: unknown_value(u64::from(tag)),
                rest: whole,
            }),
        }
    }
}

impl Choice for LeafNodeOrigin {
    type Tag = u8;

    ghost variants = { leaf_node_origin_variants };

    ghost as_choice = { λ bytes is. is };
}

/// The encoding of a [`LeafNodeOrigin`], split into its case and fields.
#[derive(Drop)]
pub enum LeafNodeOriginView<'a> {
    /// `case key_package: Lifetime lifetime;`
    KeyPackage(Encoded<'a, Lifetime>),
    /// `case update:`
    Update,
    /// `case commit: opaque parent_hash<V>;`
    Commit(Encoded<'a, VLBytes>),
}

impl<'a> From<Encoded<'a, LeafNodeOrigin>> for LeafNodeOriginView<'a> {
    ghost from_gives = { λ whole view. elim view as (λ v. Type 0) [
      | LeafNodeOriginView.KeyPackage a0 ↦ IsCase 1 1 whole a0
      | LeafNodeOriginView.Update ↦ IsCase 1 2 whole []
      | LeafNodeOriginView.Commit a0 ↦ IsCase 1 3 whole a0
    ] };

    fn from(whole: Encoded<'a, LeafNodeOrigin>) -> LeafNodeOriginView<'a> {
        let (tag, parts) = whole.case();
        match tag {
            1 => LeafNodeOriginView::KeyPackage(Encoded::from_only_part(parts)),
            2 => LeafNodeOriginView::Update,
            3 => LeafNodeOriginView::Commit(Encoded::from_only_part(parts)),
            _ => unreachable!(),
        }
    }
}

impl LeafNodeOrigin {
    /// The tag of this value's case.
    pub fn leaf_node_source(&self) -> u8
        ensures { result ≡ leaf_node_origin_tag self.now }
    {
        match self {
            LeafNodeOrigin::KeyPackage(_) => 1,
            LeafNodeOrigin::Update => 2,
            LeafNodeOrigin::Commit(_) => 3,
        }
    }
}

/// The case `key_package` with this content.
impl From<Lifetime> for LeafNodeOrigin {
    ghost from_gives = { λ content value. value ≡ LeafNodeOrigin.KeyPackage content };

    fn from(content: Lifetime) -> LeafNodeOrigin {
        LeafNodeOrigin::KeyPackage(content)
    }
}

/// The case `commit` with this content.
impl From<VLBytes> for LeafNodeOrigin {
    ghost from_gives = { λ content value. value ≡ LeafNodeOrigin.Commit content };

    fn from(content: VLBytes) -> LeafNodeOrigin {
        LeafNodeOrigin::Commit(content)
    }
}

/// Two values are equal if and only if they have the same case and all their fields are equal.
pub fn is_compared_by_its_case()
    ensures tag { (x y : LeafNodeOrigin) →
        IsTrue (⟦<LeafNodeOrigin as PartialEq>⟧.eq x y)
        → leaf_node_origin_tag x ≡ leaf_node_origin_tag y }
    ensures case_1 { (a0 b0 : _) →
        ⟦<LeafNodeOrigin as PartialEq>⟧.eq (LeafNodeOrigin.KeyPackage a0)
        (LeafNodeOrigin.KeyPackage b0)
        ≡ ⟦<Lifetime as PartialEq>⟧.eq a0 b0 }
    ensures case_2 { ⟦<LeafNodeOrigin as PartialEq>⟧.eq LeafNodeOrigin.Update LeafNodeOrigin.Update
        ≡ true }
    ensures case_3 { (a0 b0 : _) →
        ⟦<LeafNodeOrigin as PartialEq>⟧.eq (LeafNodeOrigin.Commit a0) (LeafNodeOrigin.Commit b0)
        ≡ ⟦<VLBytes as PartialEq>⟧.eq a0 b0 }
{}
