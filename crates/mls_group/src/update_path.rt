//! [`UpdatePath`].
ghost use Rattle.std.specs.Prelude.{◌≡◌, ◌&&◌, ◌++◌};
ghost use Rattle.mls_group.specs.UpdatePath.{update_path_format, update_path_meets, update_path_plain};
ghost use Rattle.mls_group.specs.declared.update_path.UpdatePath.{UpdatePath};

use crate::UpdatePathNode;
use mls_tree::LeafNode;
use std::alloc::Global;
use tls_codec::{ByRef, Deserialize, DeserializeBytes, Error, Serialize, Sink, Size, Source};
use tls_codec_cases::append_as;
use tls_codec_validate::{Rejected, Validate};
use tls_codec_views::{Encoded, Parted};

/// `UpdatePath` (RFC 9420, section 7.6).
#[derive(PartialEq, Eq, Debug, Clone, Drop)]
pub struct UpdatePath {
    /// `LeafNode leaf_node;`
    pub leaf_node: LeafNode,
    /// `UpdatePathNode nodes<V>;`
    pub nodes: Vec<UpdatePathNode>,
}

type Parts = (LeafNode, Vec<UpdatePathNode>);

impl Size for UpdatePath {
    ghost plain = { update_path_plain };

    ghost format = { update_path_format };

    fn tls_serialized_len(&self) -> usize {
        (ByRef(&self.leaf_node), ByRef(&self.nodes)).tls_serialized_len()
    }

    ghost lawful = { update_path_meets };
}

impl Serialize for UpdatePath {
    fn tls_serialize<W: Sink>(&self, writer: &mut W) -> Result<usize, Error> {
        (ByRef(&self.leaf_node), ByRef(&self.nodes)).tls_serialize(writer)
    }

    fn tls_serialize_into(&self, out: &mut Vec<u8>) -> Result<usize, Error> {
        append_as(self, &(ByRef(&self.leaf_node), ByRef(&self.nodes)), out)
    }
}

impl Deserialize for UpdatePath {
    ghost names = { ⟦<Parts as Deserialize>⟧.names };

    fn tls_deserialize<R: Source>(alloc: Global, src: &mut R) -> Result<UpdatePath, Error> {
        let (leaf_node, nodes) = <Parts>::tls_deserialize(alloc, src)?;
        Ok(UpdatePath { leaf_node, nodes })
    }
}

impl DeserializeBytes for UpdatePath {
    ghost names = { ⟦<Parts as DeserializeBytes>⟧.names };

    fn tls_deserialize_bytes(alloc: Global, whole: &[u8]) -> Result<(UpdatePath, &[u8]), Error> {
        let ((leaf_node, nodes), rest) = <Parts>::tls_deserialize_bytes(alloc, whole)?;
        Ok((UpdatePath { leaf_node, nodes }, rest))
    }
}

impl Validate for UpdatePath {
    ghost places = { ⟦<Parts as Validate>⟧.places };

    fn tls_validate_prefix(whole: &[u8]) -> Result<&[u8], Rejected<'_>> {
        <Parts>::tls_validate_prefix(whole)
    }

    fn tls_width() -> Option<usize> {
        <Parts>::tls_width()
    }
}

impl Parted for UpdatePath {
    type Parts = Parts;

    ghost as_parts = { λ bytes is. is };
}

/// The encoding of a [`UpdatePath`], split into its fields.
#[derive(Drop)]
pub struct UpdatePathView<'a> {
    /// `LeafNode leaf_node;`
    pub leaf_node: Encoded<'a, LeafNode>,
    /// `UpdatePathNode nodes<V>;`
    pub nodes: Encoded<'a, Vec<UpdatePathNode>>,
}

impl<'a> From<Encoded<'a, UpdatePath>> for UpdatePathView<'a> {
    ghost from_gives = { λ whole view. whole ≡ (view.leaf_node ++ view.nodes) };

    fn from(whole: Encoded<'a, UpdatePath>) -> UpdatePathView<'a> {
        let (leaf_node, nodes) = whole.parts().split();
        UpdatePathView { leaf_node, nodes }
    }
}

/// Two values are equal if and only if all their fields are equal.
pub fn is_compared_by_its_fields()
    ensures { (x y : UpdatePath) →
        ⟦<UpdatePath as PartialEq>⟧.eq x y
        ≡ (⟦<LeafNode as PartialEq>⟧.eq x.leaf_node y.leaf_node
        && ⟦<Vec<UpdatePathNode> as PartialEq>⟧.eq x.nodes y.nodes) }
{}
