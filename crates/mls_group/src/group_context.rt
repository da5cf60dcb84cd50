//! [`GroupContext`].
ghost use Rattle.std.specs.Prelude.{◌≡◌, ◌&&◌, ◌++◌};
ghost use Rattle.mls_group.specs.GroupContext.{group_context_format, group_context_meets, group_context_plain};
ghost use Rattle.mls_group.specs.declared.group_context.GroupContext.{GroupContext};

use crate::ProtocolVersionMls10;
use mls_tree::{CipherSuite, Extension};
use std::alloc::Global;
use tls_codec::{
    ByRef2, ByRef3, Deserialize, DeserializeBytes, Error, Serialize, Sink, Size, Source, VLBytes,
};
use tls_codec_cases::append_as;
use tls_codec_validate::{Rejected, Validate};
use tls_codec_views::{Encoded, Parted};

/// `GroupContext` (RFC 9420, section 8.1).
#[derive(PartialEq, Eq, Debug, Clone, Drop)]
pub struct GroupContext {
    /// `ProtocolVersion version = mls10;`
    pub version: ProtocolVersionMls10,
    /// `CipherSuite cipher_suite;`
    pub cipher_suite: CipherSuite,
    /// `opaque group_id<V>;`
    pub group_id: VLBytes,
    /// `uint64 epoch;`
    pub epoch: u64,
    /// `opaque tree_hash<V>;`
    pub tree_hash: VLBytes,
    /// `opaque confirmed_transcript_hash<V>;`
    pub confirmed_transcript_hash: VLBytes,
    /// `Extension extensions<V>;`
    pub extensions: Vec<Extension>,
}

type Parts = (
    (ProtocolVersionMls10, CipherSuite, VLBytes),
    (u64, VLBytes),
    (VLBytes, Vec<Extension>),
);

impl Size for GroupContext {
    ghost plain = { group_context_plain };

    ghost format = { group_context_format };

    fn tls_serialized_len(&self) -> usize {
        (
            ByRef3(&self.version, &self.cipher_suite, &self.group_id),
            ByRef2(&self.epoch, &self.tree_hash),
            ByRef2(&self.confirmed_transcript_hash, &self.extensions),
        )
            .tls_serialized_len()
    }

    ghost lawful = { group_context_meets };
}

impl Serialize for GroupContext {
    fn tls_serialize<W: Sink>(&self, writer: &mut W) -> Result<usize, Error> {
        (
            ByRef3(&self.version, &self.cipher_suite, &self.group_id),
            ByRef2(&self.epoch, &self.tree_hash),
            ByRef2(&self.confirmed_transcript_hash, &self.extensions),
        )
            .tls_serialize(writer)
    }

    fn tls_serialize_into(&self, out: &mut Vec<u8>) -> Result<usize, Error> {
        append_as(
            self,
            &(
                ByRef3(&self.version, &self.cipher_suite, &self.group_id),
                ByRef2(&self.epoch, &self.tree_hash),
                ByRef2(&self.confirmed_transcript_hash, &self.extensions),
            ),
            out,
        )
    }
}

impl Deserialize for GroupContext {
    ghost names = { ⟦<Parts as Deserialize>⟧.names };

    fn tls_deserialize<R: Source>(alloc: Global, src: &mut R) -> Result<GroupContext, Error> {
        let (
            (version, cipher_suite, group_id),
            (epoch, tree_hash),
            (confirmed_transcript_hash, extensions),
        ) = <Parts>::tls_deserialize(alloc, src)?;
        Ok(GroupContext {
            version,
            cipher_suite,
            group_id,
            epoch,
            tree_hash,
            confirmed_transcript_hash,
            extensions,
        })
    }
}

impl DeserializeBytes for GroupContext {
    ghost names = { ⟦<Parts as DeserializeBytes>⟧.names };

    fn tls_deserialize_bytes(alloc: Global, whole: &[u8]) -> Result<(GroupContext, &[u8]), Error> {
        let (
            (
                (version, cipher_suite, group_id),
                (epoch, tree_hash),
                (confirmed_transcript_hash, extensions),
            ),
            rest,
        ) = <Parts>::tls_deserialize_bytes(alloc, whole)?;
        Ok((
            GroupContext {
                version,
                cipher_suite,
                group_id,
                epoch,
                tree_hash,
                confirmed_transcript_hash,
                extensions,
            },
            rest,
        ))
    }
}

impl Validate for GroupContext {
    ghost places = { ⟦<Parts as Validate>⟧.places };

    fn tls_validate_prefix(whole: &[u8]) -> Result<&[u8], Rejected<'_>> {
        <Parts>::tls_validate_prefix(whole)
    }

    fn tls_width() -> Option<usize> {
        <Parts>::tls_width()
    }
}

impl Parted for GroupContext {
    type Parts = Parts;

    ghost as_parts = { λ bytes is. is };
}

/// The encoding of a [`GroupContext`], split into its fields.
#[derive(Drop)]
pub struct GroupContextView<'a> {
    /// `ProtocolVersion version = mls10;`
    pub version: Encoded<'a, ProtocolVersionMls10>,
    /// `CipherSuite cipher_suite;`
    pub cipher_suite: Encoded<'a, CipherSuite>,
    /// `opaque group_id<V>;`
    pub group_id: Encoded<'a, VLBytes>,
    /// `uint64 epoch;`
    pub epoch: Encoded<'a, u64>,
    /// `opaque tree_hash<V>;`
    pub tree_hash: Encoded<'a, VLBytes>,
    /// `opaque confirmed_transcript_hash<V>;`
    pub confirmed_transcript_hash: Encoded<'a, VLBytes>,
    /// `Extension extensions<V>;`
    pub extensions: Encoded<'a, Vec<Extension>>,
}

impl<'a> From<Encoded<'a, GroupContext>> for GroupContextView<'a> {
    ghost from_gives = { λ whole view. whole ≡ ((view.version ++
        (view.cipher_suite ++ view.group_id)) ++ ((view.epoch ++ view.tree_hash) ++
        (view.confirmed_transcript_hash ++ view.extensions))) };

    fn from(whole: Encoded<'a, GroupContext>) -> GroupContextView<'a> {
        let (parts_0, parts_1, parts_2) = whole.parts().split();
        let (version, cipher_suite, group_id) = parts_0.split();
        let (epoch, tree_hash) = parts_1.split();
        let (confirmed_transcript_hash, extensions) = parts_2.split();
        GroupContextView {
            version,
            cipher_suite,
            group_id,
            epoch,
            tree_hash,
            confirmed_transcript_hash,
            extensions,
        }
    }
}

/// Two values are equal if and only if all their fields are equal.
pub fn is_compared_by_its_fields()
    ensures { (x y : GroupContext) →
        ⟦<GroupContext as PartialEq>⟧.eq x y
        ≡ (⟦<ProtocolVersionMls10 as PartialEq>⟧.eq x.version y.version
        && (⟦<CipherSuite as PartialEq>⟧.eq x.cipher_suite y.cipher_suite
        && (⟦<VLBytes as PartialEq>⟧.eq x.group_id y.group_id
        && (⟦<u64 as PartialEq>⟧.eq x.epoch y.epoch
        && (⟦<VLBytes as PartialEq>⟧.eq x.tree_hash y.tree_hash
        && (⟦<VLBytes as PartialEq>⟧.eq x.confirmed_transcript_hash y.confirmed_transcript_hash
        && ⟦<Vec<Extension> as PartialEq>⟧.eq x.extensions y.extensions)))))) }
{}
