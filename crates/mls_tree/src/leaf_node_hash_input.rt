//! [`LeafNodeHashInput`].
ghost use Rattle.std.specs.Prelude.{◌≡◌, ◌&&◌, ◌++◌};
ghost use Rattle.mls_tree.specs.LeafNodeHashInput.{leaf_node_hash_input_format, leaf_node_hash_input_meets, leaf_node_hash_input_plain};
ghost use Rattle.mls_tree.specs.declared.leaf_node_hash_input.LeafNodeHashInput.{LeafNodeHashInput};

use crate::LeafNode;
use std::alloc::Global;
use tls_codec::{ByRef, Deserialize, DeserializeBytes, Error, Serialize, Sink, Size, Source};
use tls_codec_cases::append_as;
use tls_codec_validate::{Rejected, Validate};
use tls_codec_views::{Encoded, Parted};

/// `LeafNodeHashInput` (RFC 9420, section 7.8).
#[derive(PartialEq, Eq, Debug, Clone, Drop)]
pub struct LeafNodeHashInput {
    /// `uint32 leaf_index;`
    pub leaf_index: u32,
    /// `optional<LeafNode> leaf_node;`
    pub leaf_node: Option<LeafNode>,
}

type Parts = (u32, Option<LeafNode>);

impl Size for LeafNodeHashInput {
    ghost plain = { leaf_node_hash_input_plain };

    ghost format = { leaf_node_hash_input_format };

    fn tls_serialized_len(&self) -> usize {
        (ByRef(&self.leaf_index), ByRef(&self.leaf_node)).tls_serialized_len()
    }

    ghost lawful = { leaf_node_hash_input_meets };
}

impl Serialize for LeafNodeHashInput {
    fn tls_serialize<W: Sink>(&self, writer: &mut W) -> Result<usize, Error> {
        (ByRef(&self.leaf_index), ByRef(&self.leaf_node)).tls_serialize(writer)
    }

    fn tls_serialize_into(&self, out: &mut Vec<u8>) -> Result<usize, Error> {
        append_as(
            self,
            &(ByRef(&self.leaf_index), ByRef(&self.leaf_node)),
            out,
        )
    }
}

impl Deserialize for LeafNodeHashInput {
    ghost names = { ⟦<Parts as Deserialize>⟧.names };

    fn tls_deserialize<R: Source>(alloc: Global, src: &mut R) -> Result<LeafNodeHashInput, Error> {
        let (leaf_index, leaf_node) = <Parts>::tls_deserialize(alloc, src)?;
        Ok(LeafNodeHashInput {
            leaf_index,
            leaf_node,
        })
    }
}

impl DeserializeBytes for LeafNodeHashInput {
    ghost names = { ⟦<Parts as DeserializeBytes>⟧.names };

    fn tls_deserialize_bytes(
        alloc: Global,
        whole: &[u8],
    ) -> Result<(LeafNodeHashInput, &[u8]), Error> {
        let ((leaf_index, leaf_node), rest) = <Parts>::tls_deserialize_bytes(alloc, whole)?;
        Ok((
            LeafNodeHashInput {
                leaf_index,
                leaf_node,
            },
            rest,
        ))
    }
}

impl Validate for LeafNodeHashInput {
    ghost places = { ⟦<Parts as Validate>⟧.places };

    fn tls_validate_prefix(whole: &[u8]) -> Result<&[u8], Rejected<'_>> {
        <Parts>::tls_validate_prefix(whole)
    }

    fn tls_width() -> Option<usize> {
        <Parts>::tls_width()
    }
}

impl Parted for LeafNodeHashInput {
    type Parts = Parts;

    ghost as_parts = { λ bytes is. is };
}

/// The encoding of a [`LeafNodeHashInput`], split into its fields.
#[derive(Drop)]
pub struct LeafNodeHashInputView<'a> {
    /// `uint32 leaf_index;`
    pub leaf_index: Encoded<'a, u32>,
    /// `optional<LeafNode> leaf_node;`
    pub leaf_node: Encoded<'a, Option<LeafNode>>,
}

impl<'a> From<Encoded<'a, LeafNodeHashInput>> for LeafNodeHashInputView<'a> {
    ghost from_gives = { λ whole view. whole ≡ (view.leaf_index ++ view.leaf_node) };

    fn from(whole: Encoded<'a, LeafNodeHashInput>) -> LeafNodeHashInputView<'a> {
        let (leaf_index, leaf_node) = whole.parts().split();
        LeafNodeHashInputView {
            leaf_index,
            leaf_node,
        }
    }
}

/// Two values are equal if and only if all their fields are equal.
pub fn is_compared_by_its_fields()
    ensures { (x y : LeafNodeHashInput) →
        ⟦<LeafNodeHashInput as PartialEq>⟧.eq x y
        ≡ (⟦<u32 as PartialEq>⟧.eq x.leaf_index y.leaf_index
        && ⟦<Option<LeafNode> as PartialEq>⟧.eq x.leaf_node y.leaf_node) }
{}
