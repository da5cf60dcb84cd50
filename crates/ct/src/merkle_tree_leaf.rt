//! [`MerkleTreeLeaf`].
ghost use Rattle.std.specs.Prelude.{◌≡◌, ◌&&◌, ◌++◌};
ghost use Rattle.ct.specs.MerkleTreeLeaf.{merkle_tree_leaf_format, merkle_tree_leaf_meets, merkle_tree_leaf_plain};
ghost use Rattle.ct.specs.declared.merkle_tree_leaf.MerkleTreeLeaf.{MerkleTreeLeaf};

use crate::{MerkleLeafType, TimestampedEntry, Version};
use std::alloc::Global;
use tls_codec::{ByRef, Deserialize, DeserializeBytes, Error, Serialize, Sink, Size, Source};
use tls_codec_cases::append_as;
use tls_codec_validate::{Rejected, Validate};
use tls_codec_views::{Encoded, Parted};

/// `MerkleTreeLeaf` (RFC 6962, section 3.4).
#[derive(PartialEq, Eq, Debug, Clone, Drop)]
pub struct MerkleTreeLeaf {
    /// `Version version;`
    pub version: Version,
    /// `MerkleLeafType leaf_type;`
    pub leaf_type: MerkleLeafType,
    /// `TimestampedEntry;`
    pub timestamped_entry: TimestampedEntry,
}

type Parts = (Version, MerkleLeafType, TimestampedEntry);

impl Size for MerkleTreeLeaf {
    ghost plain = { merkle_tree_leaf_plain };

    ghost format = { merkle_tree_leaf_format };

    fn tls_serialized_len(&self) -> usize {
        (
            ByRef(&self.version),
            ByRef(&self.leaf_type),
            ByRef(&self.timestamped_entry),
        )
            .tls_serialized_len()
    }

    ghost lawful = { merkle_tree_leaf_meets };
}

impl Serialize for MerkleTreeLeaf {
    fn tls_serialize<W: Sink>(&self, writer: &mut W) -> Result<usize, Error> {
        (
            ByRef(&self.version),
            ByRef(&self.leaf_type),
            ByRef(&self.timestamped_entry),
        )
            .tls_serialize(writer)
    }

    fn tls_serialize_into(&self, out: &mut Vec<u8>) -> Result<usize, Error> {
        append_as(
            self,
            &(
                ByRef(&self.version),
                ByRef(&self.leaf_type),
                ByRef(&self.timestamped_entry),
            ),
            out,
        )
    }
}

impl Deserialize for MerkleTreeLeaf {
    ghost names = { ⟦<Parts as Deserialize>⟧.names };

    fn tls_deserialize<R: Source>(alloc: Global, src: &mut R) -> Result<MerkleTreeLeaf, Error> {
        let (version, leaf_type, timestamped_entry) = <Parts>::tls_deserialize(alloc, src)?;
        Ok(MerkleTreeLeaf {
            version,
            leaf_type,
            timestamped_entry,
        })
    }
}

impl DeserializeBytes for MerkleTreeLeaf {
    ghost names = { ⟦<Parts as DeserializeBytes>⟧.names };

    fn tls_deserialize_bytes(
        alloc: Global,
        whole: &[u8],
    ) -> Result<(MerkleTreeLeaf, &[u8]), Error> {
        let ((version, leaf_type, timestamped_entry), rest) = <Parts>::tls_deserialize_bytes(
            alloc, whole,
        )?;
        Ok((
            MerkleTreeLeaf {
                version,
                leaf_type,
                timestamped_entry,
            },
            rest,
        ))
    }
}

impl Validate for MerkleTreeLeaf {
    ghost places = { ⟦<Parts as Validate>⟧.places };

    fn tls_validate_prefix(whole: &[u8]) -> Result<&[u8], Rejected<'_>> {
        <Parts>::tls_validate_prefix(whole)
    }

    fn tls_width() -> Option<usize> {
        <Parts>::tls_width()
    }
}

impl Parted for MerkleTreeLeaf {
    type Parts = Parts;

    ghost as_parts = { λ bytes is. is };
}

/// The encoding of a [`MerkleTreeLeaf`], split into its fields.
#[derive(Drop)]
pub struct MerkleTreeLeafView<'a> {
    /// `Version version;`
    pub version: Encoded<'a, Version>,
    /// `MerkleLeafType leaf_type;`
    pub leaf_type: Encoded<'a, MerkleLeafType>,
    /// `TimestampedEntry;`
    pub timestamped_entry: Encoded<'a, TimestampedEntry>,
}

impl<'a> From<Encoded<'a, MerkleTreeLeaf>> for MerkleTreeLeafView<'a> {
    ghost from_gives = { λ whole view. whole ≡ (view.version ++
        (view.leaf_type ++ view.timestamped_entry)) };

    fn from(whole: Encoded<'a, MerkleTreeLeaf>) -> MerkleTreeLeafView<'a> {
        let (version, leaf_type, timestamped_entry) = whole.parts().split();
        MerkleTreeLeafView {
            version,
            leaf_type,
            timestamped_entry,
        }
    }
}

/// Two values are equal if and only if all their fields are equal.
pub fn is_compared_by_its_fields()
    ensures { (x y : MerkleTreeLeaf) →
        ⟦<MerkleTreeLeaf as PartialEq>⟧.eq x y
        ≡ (⟦<Version as PartialEq>⟧.eq x.version y.version
        && (⟦<MerkleLeafType as PartialEq>⟧.eq x.leaf_type y.leaf_type
        && ⟦<TimestampedEntry as PartialEq>⟧.eq x.timestamped_entry y.timestamped_entry)) }
{}
