//! [`Trees`].
ghost use Rattle.std.specs.Prelude.{◌≡◌};
ghost use Rattle.messages_of_each_shape.specs.Trees.{trees_format, trees_meets, trees_plain};
ghost use Rattle.messages_of_each_shape.specs.declared.trees.Trees.{Trees};

use crate::RatchetTree;
use std::alloc::Global;
use tls_codec::{Deserialize, DeserializeBytes, Error, Serialize, Sink, Size, Source};
use tls_codec_cases::append_as;
use tls_codec_validate::{Rejected, Validate};
use tls_codec_views::{Encoded, Parted};

/// `Trees`.
#[derive(PartialEq, Eq, Debug, Clone, Drop)]
pub struct Trees {
    /// `ratchet_tree tree;`
    pub tree: RatchetTree,
}

impl Size for Trees {
    ghost plain = { trees_plain };

    ghost format = { trees_format };

    fn tls_serialized_len(&self) -> usize {
        self.tree.tls_serialized_len()
    }

    ghost lawful = { trees_meets };
}

impl Serialize for Trees {
    fn tls_serialize<W: Sink>(&self, writer: &mut W) -> Result<usize, Error> {
        self.tree.tls_serialize(writer)
    }

    fn tls_serialize_into(&self, out: &mut Vec<u8>) -> Result<usize, Error> {
        append_as(self, &self.tree, out)
    }
}

impl Deserialize for Trees {
    ghost names = { ⟦<RatchetTree as Deserialize>⟧.names };

    fn tls_deserialize<R: Source>(alloc: Global, src: &mut R) -> Result<Trees, Error> {
        let tree = RatchetTree::tls_deserialize(alloc, src)?;
        Ok(Trees { tree })
    }
}

impl DeserializeBytes for Trees {
    ghost names = { ⟦<RatchetTree as DeserializeBytes>⟧.names };

    fn tls_deserialize_bytes(alloc: Global, whole: &[u8]) -> Result<(Trees, &[u8]), Error> {
        let (tree, rest) = RatchetTree::tls_deserialize_bytes(alloc, whole)?;
        Ok((Trees { tree }, rest))
    }
}

impl Validate for Trees {
    ghost places = { ⟦<RatchetTree as Validate>⟧.places };

    fn tls_validate_prefix(whole: &[u8]) -> Result<&[u8], Rejected<'_>> {
        RatchetTree::tls_validate_prefix(whole)
    }

    fn tls_width() -> Option<usize> {
        RatchetTree::tls_width()
    }
}

impl Parted for Trees {
    type Parts = RatchetTree;

    ghost as_parts = { λ bytes is. is };
}

/// The encoding of a [`Trees`], split into its fields.
#[derive(Drop)]
pub struct TreesView<'a> {
    /// `ratchet_tree tree;`
    pub tree: Encoded<'a, RatchetTree>,
}

impl<'a> From<Encoded<'a, Trees>> for TreesView<'a> {
    ghost from_gives = { λ whole view. whole ≡ view.tree };

    fn from(whole: Encoded<'a, Trees>) -> TreesView<'a> {
        let tree = whole.parts();
        TreesView { tree }
    }
}

/// Two values are equal if and only if all their fields are equal.
pub fn is_compared_by_its_fields()
    ensures { (x y : Trees) →
        ⟦<Trees as PartialEq>⟧.eq x y
        ≡ ⟦<RatchetTree as PartialEq>⟧.eq x.tree y.tree }
{}
