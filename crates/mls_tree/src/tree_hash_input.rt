//! [`TreeHashInput`].
ghost use Rattle.std.specs.Prelude.{◌≡◌, IsTrue};
ghost use Rattle.tls_codec.specs.OwnMessages.{no_variant_names, no_variant_source_names, tagged_names, tagged_source_names, variant_names, variant_source_names};
ghost use Rattle.tls_codec_validate.specs.TaggedPlaces.{no_variant_places, tagged_places, variant_places};
ghost use Rattle.mls_tree.specs.TreeHashInput.{tree_hash_input_format, tree_hash_input_meets, tree_hash_input_plain, tree_hash_input_tag, tree_hash_input_variants};
ghost use Rattle.mls_tree.specs.declared.tree_hash_input.TreeHashInput.{TreeHashInput};
ghost use Rattle.tls_codec_views.specs.Views.{IsCase};
ghost use Rattle.mls_tree.specs.declared.tree_hash_input.TreeHashInputView.{TreeHashInputView};

use crate::{LeafNodeHashInput, ParentNodeHashInput};
use std::alloc::Global;
use tls_codec::{
    ByRef, Deserialize, DeserializeBytes, Error, Serialize, Sink, Size, Source, unknown_value,
};
use tls_codec_validate::{Rejected, Validate, split_u8};
use tls_codec_views::{Choice, Encoded};

const LEAF: u8 = 1;

const PARENT: u8 = 2;

/// `NodeType node_type` of `TreeHashInput` (RFC 9420, section 7.8), and what comes after
/// each.
#[derive(PartialEq, Eq, Debug, Clone, Drop)]
pub enum TreeHashInput {
    /// `case leaf: LeafNodeHashInput leaf_node;`
    Leaf(LeafNodeHashInput),
    /// `case parent: ParentNodeHashInput parent_node;`
    Parent(ParentNodeHashInput),
}

impl Size for TreeHashInput {
    ghost plain = { tree_hash_input_plain };

    ghost format = { tree_hash_input_format };

    fn tls_serialized_len(&self) -> usize {
        match self {
            TreeHashInput::Leaf(leaf_node) => (LEAF, ByRef(leaf_node)).tls_serialized_len(),
            TreeHashInput::Parent(parent_node) => (PARENT, ByRef(parent_node)).tls_serialized_len(),
        }
    }

    ghost lawful = { tree_hash_input_meets };
}

impl Serialize for TreeHashInput {
    fn tls_serialize<W: Sink>(&self, writer: &mut W) -> Result<usize, Error> {
        match self {
            TreeHashInput::Leaf(leaf_node) => (LEAF, ByRef(leaf_node)).tls_serialize(writer),
            TreeHashInput::Parent(parent_node) => (PARENT, ByRef(parent_node)).tls_serialize(
                writer,
            ),
        }
    }

    fn tls_serialize_into(&self, out: &mut Vec<u8>) -> Result<usize, Error> {
        match self {
            TreeHashInput::Leaf(leaf_node) => (LEAF, ByRef(leaf_node)).tls_serialize_into(out),
            TreeHashInput::Parent(parent_node) => (PARENT, ByRef(parent_node)).tls_serialize_into(
                out,
            ),
        }
    }
}

impl Deserialize for TreeHashInput {
    ghost names = { tagged_source_names 1
        (variant_source_names 1 ⟦<LeafNodeHashInput as Deserialize>⟧.names
        (variant_source_names 2 ⟦<ParentNodeHashInput as Deserialize>⟧.names
        no_variant_source_names)) };

    fn tls_deserialize<R: Source>(alloc: Global, src: &mut R) -> Result<TreeHashInput, Error> {
        let tag = u8::tls_deserialize(alloc, src)?;
        match tag {
            LEAF => {
                let leaf_node = LeafNodeHashInput::tls_deserialize(alloc, src)?;
                Ok(TreeHashInput::Leaf(leaf_node))
            }
            PARENT => {
                let parent_node = ParentNodeHashInput::tls_deserialize(alloc, src)?;
                Ok(TreeHashInput::Parent(parent_node))
            }
            _ => Err(unknown_value(u64::from(tag))),
        }
    }
}

impl DeserializeBytes for TreeHashInput {
    ghost names = { tagged_names 1
        (variant_names 1 ⟦<LeafNodeHashInput as DeserializeBytes>⟧.names
        (variant_names 2 ⟦<ParentNodeHashInput as DeserializeBytes>⟧.names
        no_variant_names)) };

    fn tls_deserialize_bytes(alloc: Global, whole: &[u8]) -> Result<(TreeHashInput, &[u8]), Error> {
        let (tag, rest) = u8::tls_deserialize_bytes(alloc, whole)?;
        match tag {
            LEAF => {
                let (leaf_node, rest) = LeafNodeHashInput::tls_deserialize_bytes(alloc, rest)?;
                Ok((TreeHashInput::Leaf(leaf_node), rest))
            }
            PARENT => {
                let (parent_node, rest) = ParentNodeHashInput::tls_deserialize_bytes(alloc, rest)?;
                Ok((TreeHashInput::Parent(parent_node), rest))
            }
            _ => Err(unknown_value(u64::from(tag))),
        }
    }
}

impl Validate for TreeHashInput {
    ghost places = { tagged_places 1
        (variant_places 1 ⟦<LeafNodeHashInput as Validate>⟧.places
        (variant_places 2 ⟦<ParentNodeHashInput as Validate>⟧.places
        no_variant_places)) };

    fn tls_validate_prefix(whole: &[u8]) -> Result<&[u8], Rejected<'_>> {
        let (tag, rest) = split_u8(whole)?;
        match tag {
            LEAF => {
                let behind = LeafNodeHashInput::tls_validate_prefix(rest)?;
                Ok(behind)
            }
            PARENT => {
                let behind = ParentNodeHashInput::tls_validate_prefix(rest)?;
                Ok(behind)
            }
            _ => Err(Rejected {
                error: unknown_value(u64::from(tag)),
                rest: whole,
            }),
        }
    }
}

impl Choice for TreeHashInput {
    type Tag = u8;

    ghost variants = { tree_hash_input_variants };

    ghost as_choice = { λ bytes is. is };
}

/// The encoding of a [`TreeHashInput`], split into its case and fields.
#[derive(Drop)]
pub enum TreeHashInputView<'a> {
    /// `case leaf: LeafNodeHashInput leaf_node;`
    Leaf(Encoded<'a, LeafNodeHashInput>),
    /// `case parent: ParentNodeHashInput parent_node;`
    Parent(Encoded<'a, ParentNodeHashInput>),
}

impl<'a> From<Encoded<'a, TreeHashInput>> for TreeHashInputView<'a> {
    ghost from_gives = { λ whole view. elim view as (λ v. Type 0) [
      | TreeHashInputView.Leaf a0 ↦ IsCase 1 1 whole a0
      | TreeHashInputView.Parent a0 ↦ IsCase 1 2 whole a0
    ] };

    fn from(whole: Encoded<'a, TreeHashInput>) -> TreeHashInputView<'a> {
        let (tag, parts) = whole.case();
        match tag {
            1 => TreeHashInputView::Leaf(Encoded::from_only_part(parts)),
            2 => TreeHashInputView::Parent(Encoded::from_only_part(parts)),
            _ => unreachable!(),
        }
    }
}

impl TreeHashInput {
    /// The tag of this value's case.
    pub fn node_type(&self) -> u8
        ensures { result ≡ tree_hash_input_tag self.now }
    {
        match self {
            TreeHashInput::Leaf(_) => 1,
            TreeHashInput::Parent(_) => 2,
        }
    }
}

/// The case `leaf` with this content.
impl From<LeafNodeHashInput> for TreeHashInput {
    ghost from_gives = { λ content value. value ≡ TreeHashInput.Leaf content };

    fn from(content: LeafNodeHashInput) -> TreeHashInput {
        TreeHashInput::Leaf(content)
    }
}

/// The case `parent` with this content.
impl From<ParentNodeHashInput> for TreeHashInput {
    ghost from_gives = { λ content value. value ≡ TreeHashInput.Parent content };

    fn from(content: ParentNodeHashInput) -> TreeHashInput {
        TreeHashInput::Parent(content)
    }
}

/// Two values are equal if and only if they have the same case and all their fields are equal.
pub fn is_compared_by_its_case()
    ensures tag { (x y : TreeHashInput) →
        IsTrue (⟦<TreeHashInput as PartialEq>⟧.eq x y)
        → tree_hash_input_tag x ≡ tree_hash_input_tag y }
    ensures case_1 { (a0 b0 : _) →
        ⟦<TreeHashInput as PartialEq>⟧.eq (TreeHashInput.Leaf a0) (TreeHashInput.Leaf b0)
        ≡ ⟦<LeafNodeHashInput as PartialEq>⟧.eq a0 b0 }
    ensures case_2 { (a0 b0 : _) →
        ⟦<TreeHashInput as PartialEq>⟧.eq (TreeHashInput.Parent a0) (TreeHashInput.Parent b0)
        ≡ ⟦<ParentNodeHashInput as PartialEq>⟧.eq a0 b0 }
{}
