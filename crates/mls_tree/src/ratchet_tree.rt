//! [`RatchetTree`].
ghost use Rattle.std.specs.Prelude.{◌≡◌};
ghost use Rattle.mls_tree.specs.RatchetTree.{ratchet_tree_format, ratchet_tree_meets, ratchet_tree_plain};
ghost use Rattle.mls_tree.specs.declared.ratchet_tree.RatchetTree.{RatchetTree};

use crate::Node;
use std::alloc::Global;
use tls_codec::{Deserialize, DeserializeBytes, Error, Serialize, Sink, Size, Source};
use tls_codec_cases::append_as;
use tls_codec_validate::{Rejected, Validate};
use tls_codec_views::{Encoded, Parted};

/// `RatchetTree` (RFC 9420, section 12.4.3.3).
#[derive(PartialEq, Eq, Debug, Clone, Drop)]
pub struct RatchetTree {
    /// `optional<Node> ratchet_tree<V>;`
    pub ratchet_tree: Vec<Option<Node>>,
}

impl Size for RatchetTree {
    ghost plain = { ratchet_tree_plain };

    ghost format = { ratchet_tree_format };

    fn tls_serialized_len(&self) -> usize {
        self.ratchet_tree.tls_serialized_len()
    }

    ghost lawful = { ratchet_tree_meets };
}

impl Serialize for RatchetTree {
    fn tls_serialize<W: Sink>(&self, writer: &mut W) -> Result<usize, Error> {
        self.ratchet_tree.tls_serialize(writer)
    }

    fn tls_serialize_into(&self, out: &mut Vec<u8>) -> Result<usize, Error> {
        append_as(self, &self.ratchet_tree, out)
    }
}

impl Deserialize for RatchetTree {
    ghost names = { ⟦<Vec<Option<Node>> as Deserialize>⟧.names };

    fn tls_deserialize<R: Source>(alloc: Global, src: &mut R) -> Result<RatchetTree, Error> {
        let ratchet_tree = <Vec<Option<Node>>>::tls_deserialize(alloc, src)?;
        Ok(RatchetTree { ratchet_tree })
    }
}

impl DeserializeBytes for RatchetTree {
    ghost names = { ⟦<Vec<Option<Node>> as DeserializeBytes>⟧.names };

    fn tls_deserialize_bytes(alloc: Global, whole: &[u8]) -> Result<(RatchetTree, &[u8]), Error> {
        let (ratchet_tree, rest) = <Vec<Option<Node>>>::tls_deserialize_bytes(alloc, whole)?;
        Ok((RatchetTree { ratchet_tree }, rest))
    }
}

impl Validate for RatchetTree {
    ghost places = { ⟦<Vec<Option<Node>> as Validate>⟧.places };

    fn tls_validate_prefix(whole: &[u8]) -> Result<&[u8], Rejected<'_>> {
        <Vec<Option<Node>>>::tls_validate_prefix(whole)
    }

    fn tls_width() -> Option<usize> {
        <Vec<Option<Node>>>::tls_width()
    }
}

impl Parted for RatchetTree {
    type Parts = Vec<Option<Node>>;

    ghost as_parts = { λ bytes is. is };
}

/// The encoding of a [`RatchetTree`], split into its fields.
#[derive(Drop)]
pub struct RatchetTreeView<'a> {
    /// `optional<Node> ratchet_tree<V>;`
    pub ratchet_tree: Encoded<'a, Vec<Option<Node>>>,
}

impl<'a> From<Encoded<'a, RatchetTree>> for RatchetTreeView<'a> {
    ghost from_gives = { λ whole view. whole ≡ view.ratchet_tree };

    fn from(whole: Encoded<'a, RatchetTree>) -> RatchetTreeView<'a> {
        let ratchet_tree = whole.parts();
        RatchetTreeView { ratchet_tree }
    }
}

/// Two values are equal if and only if all their fields are equal.
pub fn is_compared_by_its_fields()
    ensures { (x y : RatchetTree) →
        ⟦<RatchetTree as PartialEq>⟧.eq x y
        ≡ ⟦<Vec<Option<Node>> as PartialEq>⟧.eq x.ratchet_tree y.ratchet_tree }
{}
