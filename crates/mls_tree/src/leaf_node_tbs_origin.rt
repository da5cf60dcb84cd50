//! [`LeafNodeTBSOrigin`].
ghost use Rattle.std.specs.Prelude.{◌≡◌, ◌&&◌, IsTrue};
ghost use Rattle.mls_tree.specs.LeafNodeTBSOrigin.{leaf_node_tbs_origin_format, leaf_node_tbs_origin_meets, leaf_node_tbs_origin_plain, leaf_node_tbs_origin_tag};
ghost use Rattle.mls_tree.specs.declared.leaf_node_tbs_origin.LeafNodeTBSOrigin.{LeafNodeTBSOrigin};

use crate::{Extension, Lifetime};
use tls_codec::{ByRef, ByRef2, Error, Serialize, Sink, Size, VLBytes};

const KEY_PACKAGE: u8 = 1;

const UPDATE: u8 = 2;

const COMMIT: u8 = 3;

/// `LeafNodeSource leaf_node_source` of `LeafNodeTBS` (RFC 9420, section 7.2), and what
/// comes after each.
///
/// It has references to its fields. It can only be encoded.
#[derive(PartialEq, Eq, Debug, Clone, Copy)]
pub enum LeafNodeTBSOrigin<'a> {
    /// `case key_package:`
    KeyPackage {
        /// `Lifetime lifetime;`
        lifetime: &'a Lifetime,
        /// `Extension extensions<V>;`
        extensions: &'a Vec<Extension>,
    },
    /// `case update:`
    Update {
        /// `Extension extensions<V>;`
        extensions: &'a Vec<Extension>,
        /// `opaque group_id<V>;`
        group_id: &'a VLBytes,
        /// `uint32 leaf_index;`
        leaf_index: &'a u32,
    },
    /// `case commit:`
    Commit {
        /// `opaque parent_hash<V>;`
        parent_hash: &'a VLBytes,
        /// `Extension extensions<V>;`
        extensions: &'a Vec<Extension>,
        /// `opaque group_id<V>;`
        group_id: &'a VLBytes,
        /// `uint32 leaf_index;`
        leaf_index: &'a u32,
    },
}

impl Size for LeafNodeTBSOrigin<'_> {
    ghost plain = { leaf_node_tbs_origin_plain };

    ghost format = { leaf_node_tbs_origin_format };

    fn tls_serialized_len(&self) -> usize {
        match *self {
            LeafNodeTBSOrigin::KeyPackage {
                lifetime,
                extensions,
            } => (KEY_PACKAGE, ByRef(lifetime), ByRef(extensions)).tls_serialized_len(),
            LeafNodeTBSOrigin::Update {
                extensions,
                group_id,
                leaf_index,
            } => (UPDATE, ByRef2(extensions, group_id), ByRef(leaf_index)).tls_serialized_len(),
            LeafNodeTBSOrigin::Commit {
                parent_hash,
                extensions,
                group_id,
                leaf_index,
            } => (
                COMMIT,
                ByRef2(parent_hash, extensions),
                ByRef2(group_id, leaf_index),
            )
                .tls_serialized_len(),
        }
    }

    ghost lawful = { leaf_node_tbs_origin_meets };
}

impl Serialize for LeafNodeTBSOrigin<'_> {
    fn tls_serialize<W: Sink>(&self, writer: &mut W) -> Result<usize, Error> {
        match *self {
            LeafNodeTBSOrigin::KeyPackage {
                lifetime,
                extensions,
            } => (KEY_PACKAGE, ByRef(lifetime), ByRef(extensions)).tls_serialize(writer),
            LeafNodeTBSOrigin::Update {
                extensions,
                group_id,
                leaf_index,
            } => (UPDATE, ByRef2(extensions, group_id), ByRef(leaf_index)).tls_serialize(writer),
            LeafNodeTBSOrigin::Commit {
                parent_hash,
                extensions,
                group_id,
                leaf_index,
            } => (
                COMMIT,
                ByRef2(parent_hash, extensions),
                ByRef2(group_id, leaf_index),
            )
                .tls_serialize(writer),
        }
    }

    fn tls_serialize_into(&self, out: &mut Vec<u8>) -> Result<usize, Error> {
        match *self {
            LeafNodeTBSOrigin::KeyPackage {
                lifetime,
                extensions,
            } => (KEY_PACKAGE, ByRef(lifetime), ByRef(extensions)).tls_serialize_into(out),
            LeafNodeTBSOrigin::Update {
                extensions,
                group_id,
                leaf_index,
            } => (UPDATE, ByRef2(extensions, group_id), ByRef(leaf_index)).tls_serialize_into(out),
            LeafNodeTBSOrigin::Commit {
                parent_hash,
                extensions,
                group_id,
                leaf_index,
            } => (
                COMMIT,
                ByRef2(parent_hash, extensions),
                ByRef2(group_id, leaf_index),
            )
                .tls_serialize_into(out),
        }
    }
}

impl LeafNodeTBSOrigin<'_> {
    /// The tag of this value's case.
    pub fn leaf_node_source(&self) -> u8
        ensures { result ≡ leaf_node_tbs_origin_tag self.now }
    {
        match self {
            LeafNodeTBSOrigin::KeyPackage { .. } => 1,
            LeafNodeTBSOrigin::Update { .. } => 2,
            LeafNodeTBSOrigin::Commit { .. } => 3,
        }
    }
}

/// Two values are equal if and only if they have the same case and all their fields are equal.
pub fn is_compared_by_its_case()
    ensures tag { (x y : LeafNodeTBSOrigin) →
        IsTrue (⟦<LeafNodeTBSOrigin<'static> as PartialEq>⟧.eq x y)
        → leaf_node_tbs_origin_tag x ≡ leaf_node_tbs_origin_tag y }
    ensures case_1 { (a0 a1 b0 b1 : _) →
        ⟦<LeafNodeTBSOrigin<'static> as PartialEq>⟧.eq (LeafNodeTBSOrigin.KeyPackage a0 a1)
        (LeafNodeTBSOrigin.KeyPackage b0 b1)
        ≡ (⟦<Lifetime as PartialEq>⟧.eq a0.now b0.now
        && ⟦<Vec<Extension> as PartialEq>⟧.eq a1.now b1.now) }
    ensures case_2 { (a0 a1 a2 b0 b1 b2 : _) →
        ⟦<LeafNodeTBSOrigin<'static> as PartialEq>⟧.eq (LeafNodeTBSOrigin.Update a0 a1 a2)
        (LeafNodeTBSOrigin.Update b0 b1 b2)
        ≡ (⟦<Vec<Extension> as PartialEq>⟧.eq a0.now b0.now
        && (⟦<VLBytes as PartialEq>⟧.eq a1.now b1.now
        && ⟦<u32 as PartialEq>⟧.eq a2.now b2.now)) }
    ensures case_3 { (a0 a1 a2 a3 b0 b1 b2 b3 : _) →
        ⟦<LeafNodeTBSOrigin<'static> as PartialEq>⟧.eq (LeafNodeTBSOrigin.Commit a0 a1 a2 a3)
        (LeafNodeTBSOrigin.Commit b0 b1 b2 b3)
        ≡ (⟦<VLBytes as PartialEq>⟧.eq a0.now b0.now
        && (⟦<Vec<Extension> as PartialEq>⟧.eq a1.now b1.now
        && (⟦<VLBytes as PartialEq>⟧.eq a2.now b2.now
        && ⟦<u32 as PartialEq>⟧.eq a3.now b3.now))) }
{}
