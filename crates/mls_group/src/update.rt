//! [`Update`].
ghost use Rattle.std.specs.Prelude.{◌≡◌};
ghost use Rattle.mls_group.specs.Update.{update_format, update_meets, update_plain};
ghost use Rattle.mls_group.specs.declared.update.Update.{Update};

use mls_tree::LeafNode;
use std::alloc::Global;
use tls_codec::{Deserialize, DeserializeBytes, Error, Serialize, Sink, Size, Source};
use tls_codec_cases::append_as;
use tls_codec_validate::{Rejected, Validate};
use tls_codec_views::{Encoded, Parted};

/// `Update` (RFC 9420, section 12.1.2).
#[derive(PartialEq, Eq, Debug, Clone, Drop)]
pub struct Update {
    /// `LeafNode leaf_node;`
    pub leaf_node: LeafNode,
}

impl Size for Update {
    ghost plain = { update_plain };

    ghost format = { update_format };

    fn tls_serialized_len(&self) -> usize {
        self.leaf_node.tls_serialized_len()
    }

    ghost lawful = { update_meets };
}

impl Serialize for Update {
    fn tls_serialize<W: Sink>(&self, writer: &mut W) -> Result<usize, Error> {
        self.leaf_node.tls_serialize(writer)
    }

    fn tls_serialize_into(&self, out: &mut Vec<u8>) -> Result<usize, Error> {
        append_as(self, &self.leaf_node, out)
    }
}

impl Deserialize for Update {
    ghost names = { ⟦<LeafNode as Deserialize>⟧.names };

    fn tls_deserialize<R: Source>(alloc: Global, src: &mut R) -> Result<Update, Error> {
        let leaf_node = LeafNode::tls_deserialize(alloc, src)?;
        Ok(Update { leaf_node })
    }
}

impl DeserializeBytes for Update {
    ghost names = { ⟦<LeafNode as DeserializeBytes>⟧.names };

    fn tls_deserialize_bytes(alloc: Global, whole: &[u8]) -> Result<(Update, &[u8]), Error> {
        let (leaf_node, rest) = LeafNode::tls_deserialize_bytes(alloc, whole)?;
        Ok((Update { leaf_node }, rest))
    }
}

impl Validate for Update {
    ghost places = { ⟦<LeafNode as Validate>⟧.places };

    fn tls_validate_prefix(whole: &[u8]) -> Result<&[u8], Rejected<'_>> {
        LeafNode::tls_validate_prefix(whole)
    }

    fn tls_width() -> Option<usize> {
        LeafNode::tls_width()
    }
}

impl Parted for Update {
    type Parts = LeafNode;

    ghost as_parts = { λ bytes is. is };
}

/// The encoding of a [`Update`], split into its fields.
#[derive(Drop)]
pub struct UpdateView<'a> {
    /// `LeafNode leaf_node;`
    pub leaf_node: Encoded<'a, LeafNode>,
}

impl<'a> From<Encoded<'a, Update>> for UpdateView<'a> {
    ghost from_gives = { λ whole view. whole ≡ view.leaf_node };

    fn from(whole: Encoded<'a, Update>) -> UpdateView<'a> {
        let leaf_node = whole.parts();
        UpdateView { leaf_node }
    }
}

/// Two values are equal if and only if all their fields are equal.
pub fn is_compared_by_its_fields()
    ensures { (x y : Update) →
        ⟦<Update as PartialEq>⟧.eq x y
        ≡ ⟦<LeafNode as PartialEq>⟧.eq x.leaf_node y.leaf_node }
{}
