//! [`ParentNode`].
ghost use Rattle.std.specs.Prelude.{◌≡◌, ◌&&◌, ◌++◌};
ghost use Rattle.mls_tree.specs.ParentNode.{parent_node_format, parent_node_meets, parent_node_plain};
ghost use Rattle.mls_tree.specs.declared.parent_node.ParentNode.{ParentNode};

use crate::HPKEPublicKey;
use std::alloc::Global;
use tls_codec::{
    ByRef, Deserialize, DeserializeBytes, Error, Serialize, Sink, Size, Source, VLBytes,
};
use tls_codec_cases::append_as;
use tls_codec_validate::{Rejected, Validate};
use tls_codec_views::{Encoded, Parted};

/// `ParentNode` (RFC 9420, section 7.1).
#[derive(PartialEq, Eq, Debug, Clone, Drop)]
pub struct ParentNode {
    /// `HPKEPublicKey encryption_key;`
    pub encryption_key: HPKEPublicKey,
    /// `opaque parent_hash<V>;`
    pub parent_hash: VLBytes,
    /// `uint32 unmerged_leaves<V>;`
    pub unmerged_leaves: Vec<u32>,
}

type Parts = (HPKEPublicKey, VLBytes, Vec<u32>);

impl Size for ParentNode {
    ghost plain = { parent_node_plain };

    ghost format = { parent_node_format };

    fn tls_serialized_len(&self) -> usize {
        (
            ByRef(&self.encryption_key),
            ByRef(&self.parent_hash),
            ByRef(&self.unmerged_leaves),
        )
            .tls_serialized_len()
    }

    ghost lawful = { parent_node_meets };
}

impl Serialize for ParentNode {
    fn tls_serialize<W: Sink>(&self, writer: &mut W) -> Result<usize, Error> {
        (
            ByRef(&self.encryption_key),
            ByRef(&self.parent_hash),
            ByRef(&self.unmerged_leaves),
        )
            .tls_serialize(writer)
    }

    fn tls_serialize_into(&self, out: &mut Vec<u8>) -> Result<usize, Error> {
        append_as(
            self,
            &(
                ByRef(&self.encryption_key),
                ByRef(&self.parent_hash),
                ByRef(&self.unmerged_leaves),
            ),
            out,
        )
    }
}

impl Deserialize for ParentNode {
    ghost names = { ⟦<Parts as Deserialize>⟧.names };

    fn tls_deserialize<R: Source>(alloc: Global, src: &mut R) -> Result<ParentNode, Error> {
        let (encryption_key, parent_hash, unmerged_leaves) = <Parts>::tls_deserialize(alloc, src)?;
        Ok(ParentNode {
            encryption_key,
            parent_hash,
            unmerged_leaves,
        })
    }
}

impl DeserializeBytes for ParentNode {
    ghost names = { ⟦<Parts as DeserializeBytes>⟧.names };

    fn tls_deserialize_bytes(alloc: Global, whole: &[u8]) -> Result<(ParentNode, &[u8]), Error> {
        let ((encryption_key, parent_hash, unmerged_leaves), rest) = <Parts>::tls_deserialize_bytes(
            alloc, whole,
        )?;
        Ok((
            ParentNode {
                encryption_key,
                parent_hash,
                unmerged_leaves,
            },
            rest,
        ))
    }
}

impl Validate for ParentNode {
    ghost places = { ⟦<Parts as Validate>⟧.places };

    fn tls_validate_prefix(whole: &[u8]) -> Result<&[u8], Rejected<'_>> {
        <Parts>::tls_validate_prefix(whole)
    }

    fn tls_width() -> Option<usize> {
        <Parts>::tls_width()
    }
}

impl Parted for ParentNode {
    type Parts = Parts;

    ghost as_parts = { λ bytes is. is };
}

/// The encoding of a [`ParentNode`], split into its fields.
#[derive(Drop)]
pub struct ParentNodeView<'a> {
    /// `HPKEPublicKey encryption_key;`
    pub encryption_key: Encoded<'a, HPKEPublicKey>,
    /// `opaque parent_hash<V>;`
    pub parent_hash: Encoded<'a, VLBytes>,
    /// `uint32 unmerged_leaves<V>;`
    pub unmerged_leaves: Encoded<'a, Vec<u32>>,
}

impl<'a> From<Encoded<'a, ParentNode>> for ParentNodeView<'a> {
    ghost from_gives = { λ whole view. whole ≡ (view.encryption_key ++
        (view.parent_hash ++ view.unmerged_leaves)) };

    fn from(whole: Encoded<'a, ParentNode>) -> ParentNodeView<'a> {
        let (encryption_key, parent_hash, unmerged_leaves) = whole.parts().split();
        ParentNodeView {
            encryption_key,
            parent_hash,
            unmerged_leaves,
        }
    }
}

/// Two values are equal if and only if all their fields are equal.
pub fn is_compared_by_its_fields()
    ensures { (x y : ParentNode) →
        ⟦<ParentNode as PartialEq>⟧.eq x y
        ≡ (⟦<HPKEPublicKey as PartialEq>⟧.eq x.encryption_key y.encryption_key
        && (⟦<VLBytes as PartialEq>⟧.eq x.parent_hash y.parent_hash
        && ⟦<Vec<u32> as PartialEq>⟧.eq x.unmerged_leaves y.unmerged_leaves)) }
{}
