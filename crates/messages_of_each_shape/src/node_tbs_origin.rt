//! [`NodeTBSOrigin`].
ghost use Rattle.std.specs.Prelude.{◌≡◌, ◌&&◌, IsTrue, true};
ghost use Rattle.messages_of_each_shape.specs.NodeTBSOrigin.{node_tbs_origin_format, node_tbs_origin_meets, node_tbs_origin_plain, node_tbs_origin_tag};
ghost use Rattle.messages_of_each_shape.specs.declared.node_tbs_origin.NodeTBSOrigin.{NodeTBSOrigin};

use crate::Key;
use tls_codec::{ByRef, Error, Serialize, Sink, Size, VLBytes};

const UPDATE: u8 = 2;

const COMMIT: u8 = 3;

const EXTERNAL: u8 = 4;

/// `NodeSource node_source` of `NodeTBS`, and what comes after each.
///
/// It has references to its fields. It can only be encoded.
#[derive(PartialEq, Eq, Debug, Clone, Copy)]
pub enum NodeTBSOrigin<'a> {
    /// `case update:`
    Update,
    /// `case commit:`
    Commit {
        /// `opaque parent_hash<V>;`
        parent_hash: &'a VLBytes,
        /// `uint8 level;`
        level: &'a u8,
    },
    /// `case external: Key signature_key;`
    External(&'a Key),
}

impl Size for NodeTBSOrigin<'_> {
    ghost plain = { node_tbs_origin_plain };

    ghost format = { node_tbs_origin_format };

    fn tls_serialized_len(&self) -> usize {
        match *self {
            NodeTBSOrigin::Update => 1,
            NodeTBSOrigin::Commit { parent_hash, level } => (
                COMMIT,
                ByRef(parent_hash),
                ByRef(level),
            ).tls_serialized_len(),
            NodeTBSOrigin::External(signature_key) => (
                EXTERNAL,
                ByRef(signature_key),
            ).tls_serialized_len(),
        }
    }

    ghost lawful = { node_tbs_origin_meets };
}

impl Serialize for NodeTBSOrigin<'_> {
    fn tls_serialize<W: Sink>(&self, writer: &mut W) -> Result<usize, Error> {
        match *self {
            NodeTBSOrigin::Update => UPDATE.tls_serialize(writer),
            NodeTBSOrigin::Commit { parent_hash, level } => (
                COMMIT,
                ByRef(parent_hash),
                ByRef(level),
            ).tls_serialize(writer),
            NodeTBSOrigin::External(signature_key) => (
                EXTERNAL,
                ByRef(signature_key),
            ).tls_serialize(writer),
        }
    }

    fn tls_serialize_into(&self, out: &mut Vec<u8>) -> Result<usize, Error> {
        match *self {
            NodeTBSOrigin::Update => UPDATE.tls_serialize_into(out),
            NodeTBSOrigin::Commit { parent_hash, level } => (
                COMMIT,
                ByRef(parent_hash),
                ByRef(level),
            ).tls_serialize_into(out),
            NodeTBSOrigin::External(signature_key) => (
                EXTERNAL,
                ByRef(signature_key),
            ).tls_serialize_into(out),
        }
    }
}

impl NodeTBSOrigin<'_> {
    /// The tag of this value's case.
    pub fn node_source(&self) -> u8
        ensures { result ≡ node_tbs_origin_tag self.now }
    {
        match self {
            NodeTBSOrigin::Update => 2,
            NodeTBSOrigin::Commit { .. } => 3,
            NodeTBSOrigin::External(_) => 4,
        }
    }
}

/// The case `external` with this content.
impl<'a> From<&'a Key> for NodeTBSOrigin<'a> {
    ghost from_gives = { λ content value. value ≡ NodeTBSOrigin.External content };

    fn from(content: &'a Key) -> NodeTBSOrigin<'a> {
        NodeTBSOrigin::External(content)
    }
}

/// Two values are equal if and only if they have the same case and all their fields are equal.
pub fn is_compared_by_its_case()
    ensures tag { (x y : NodeTBSOrigin) →
        IsTrue (⟦<NodeTBSOrigin<'static> as PartialEq>⟧.eq x y)
        → node_tbs_origin_tag x ≡ node_tbs_origin_tag y }
    ensures case_2 { ⟦<NodeTBSOrigin<'static> as PartialEq>⟧.eq NodeTBSOrigin.Update
        NodeTBSOrigin.Update ≡ true }
    ensures case_3 { (a0 a1 b0 b1 : _) →
        ⟦<NodeTBSOrigin<'static> as PartialEq>⟧.eq (NodeTBSOrigin.Commit a0 a1)
        (NodeTBSOrigin.Commit b0 b1)
        ≡ (⟦<VLBytes as PartialEq>⟧.eq a0.now b0.now
        && ⟦<u8 as PartialEq>⟧.eq a1.now b1.now) }
    ensures case_4 { (a0 b0 : _) →
        ⟦<NodeTBSOrigin<'static> as PartialEq>⟧.eq (NodeTBSOrigin.External a0)
        (NodeTBSOrigin.External b0)
        ≡ ⟦<Key as PartialEq>⟧.eq a0.now b0.now }
{}
