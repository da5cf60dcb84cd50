//! [`ParentNodeHashInput`].
ghost use Rattle.std.specs.Prelude.{◌≡◌, ◌&&◌, ◌++◌};
ghost use Rattle.mls_tree.specs.ParentNodeHashInput.{parent_node_hash_input_format, parent_node_hash_input_meets, parent_node_hash_input_plain};
ghost use Rattle.mls_tree.specs.declared.parent_node_hash_input.ParentNodeHashInput.{ParentNodeHashInput};

use crate::ParentNode;
use std::alloc::Global;
use tls_codec::{
    ByRef, Deserialize, DeserializeBytes, Error, Serialize, Sink, Size, Source, VLBytes,
};
use tls_codec_cases::append_as;
use tls_codec_validate::{Rejected, Validate};
use tls_codec_views::{Encoded, Parted};

/// `ParentNodeHashInput` (RFC 9420, section 7.8).
#[derive(PartialEq, Eq, Debug, Clone, Drop)]
pub struct ParentNodeHashInput {
    /// `optional<ParentNode> parent_node;`
    pub parent_node: Option<ParentNode>,
    /// `opaque left_hash<V>;`
    pub left_hash: VLBytes,
    /// `opaque right_hash<V>;`
    pub right_hash: VLBytes,
}

type Parts = (Option<ParentNode>, VLBytes, VLBytes);

impl Size for ParentNodeHashInput {
    ghost plain = { parent_node_hash_input_plain };

    ghost format = { parent_node_hash_input_format };

    fn tls_serialized_len(&self) -> usize {
        (
            ByRef(&self.parent_node),
            ByRef(&self.left_hash),
            ByRef(&self.right_hash),
        )
            .tls_serialized_len()
    }

    ghost lawful = { parent_node_hash_input_meets };
}

impl Serialize for ParentNodeHashInput {
    fn tls_serialize<W: Sink>(&self, writer: &mut W) -> Result<usize, Error> {
        (
            ByRef(&self.parent_node),
            ByRef(&self.left_hash),
            ByRef(&self.right_hash),
        )
            .tls_serialize(writer)
    }

    fn tls_serialize_into(&self, out: &mut Vec<u8>) -> Result<usize, Error> {
        append_as(
            self,
            &(
                ByRef(&self.parent_node),
                ByRef(&self.left_hash),
                ByRef(&self.right_hash),
            ),
            out,
        )
    }
}

impl Deserialize for ParentNodeHashInput {
    ghost names = { ⟦<Parts as Deserialize>⟧.names };

    fn tls_deserialize<R: Source>(
        alloc: Global,
        src: &mut R,
    ) -> Result<ParentNodeHashInput, Error> {
        let (parent_node, left_hash, right_hash) = <Parts>::tls_deserialize(alloc, src)?;
        Ok(ParentNodeHashInput {
            parent_node,
            left_hash,
            right_hash,
        })
    }
}

impl DeserializeBytes for ParentNodeHashInput {
    ghost names = { ⟦<Parts as DeserializeBytes>⟧.names };

    fn tls_deserialize_bytes(
        alloc: Global,
        whole: &[u8],
    ) -> Result<(ParentNodeHashInput, &[u8]), Error> {
        let ((parent_node, left_hash, right_hash), rest) = <Parts>::tls_deserialize_bytes(
            alloc, whole,
        )?;
        Ok((
            ParentNodeHashInput {
                parent_node,
                left_hash,
                right_hash,
            },
            rest,
        ))
    }
}

impl Validate for ParentNodeHashInput {
    ghost places = { ⟦<Parts as Validate>⟧.places };

    fn tls_validate_prefix(whole: &[u8]) -> Result<&[u8], Rejected<'_>> {
        <Parts>::tls_validate_prefix(whole)
    }

    fn tls_width() -> Option<usize> {
        <Parts>::tls_width()
    }
}

impl Parted for ParentNodeHashInput {
    type Parts = Parts;

    ghost as_parts = { λ bytes is. is };
}

/// The encoding of a [`ParentNodeHashInput`], split into its fields.
#[derive(Drop)]
pub struct ParentNodeHashInputView<'a> {
    /// `optional<ParentNode> parent_node;`
    pub parent_node: Encoded<'a, Option<ParentNode>>,
    /// `opaque left_hash<V>;`
    pub left_hash: Encoded<'a, VLBytes>,
    /// `opaque right_hash<V>;`
    pub right_hash: Encoded<'a, VLBytes>,
}

impl<'a> From<Encoded<'a, ParentNodeHashInput>> for ParentNodeHashInputView<'a> {
    ghost from_gives = { λ whole view. whole ≡ (view.parent_node ++
        (view.left_hash ++ view.right_hash)) };

    fn from(whole: Encoded<'a, ParentNodeHashInput>) -> ParentNodeHashInputView<'a> {
        let (parent_node, left_hash, right_hash) = whole.parts().split();
        ParentNodeHashInputView {
            parent_node,
            left_hash,
            right_hash,
        }
    }
}

/// Two values are equal if and only if all their fields are equal.
pub fn is_compared_by_its_fields()
    ensures { (x y : ParentNodeHashInput) →
        ⟦<ParentNodeHashInput as PartialEq>⟧.eq x y
        ≡ (⟦<Option<ParentNode> as PartialEq>⟧.eq x.parent_node y.parent_node
        && (⟦<VLBytes as PartialEq>⟧.eq x.left_hash y.left_hash
        && ⟦<VLBytes as PartialEq>⟧.eq x.right_hash y.right_hash)) }
{}
