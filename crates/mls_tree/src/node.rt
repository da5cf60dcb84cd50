//! [`Node`].
ghost use Rattle.std.specs.Prelude.{◌≡◌, IsTrue};
ghost use Rattle.tls_codec.specs.OwnMessages.{no_variant_names, no_variant_source_names, tagged_names, tagged_source_names, variant_names, variant_source_names};
ghost use Rattle.tls_codec_validate.specs.TaggedPlaces.{no_variant_places, tagged_places, variant_places};
ghost use Rattle.mls_tree.specs.Node.{node_format, node_meets, node_plain, node_tag, node_variants};
ghost use Rattle.mls_tree.specs.declared.node.Node.{Node};
ghost use Rattle.tls_codec_views.specs.Views.{IsCase};
ghost use Rattle.mls_tree.specs.declared.node.NodeView.{NodeView};

use crate::{LeafNode, ParentNode};
use std::alloc::Global;
use tls_codec::{
    ByRef, Deserialize, DeserializeBytes, Error, Serialize, Sink, Size, Source, unknown_value,
};
use tls_codec_validate::{Rejected, Validate, split_u8};
use tls_codec_views::{Choice, Encoded};

const LEAF: u8 = 1;

const PARENT: u8 = 2;

/// `NodeType node_type` of `Node` (RFC 9420, section 12.4.3.3), and what comes after each.
#[derive(PartialEq, Eq, Debug, Clone, Drop)]
pub enum Node {
    /// `case leaf: LeafNode leaf_node;`
    Leaf(LeafNode),
    /// `case parent: ParentNode parent_node;`
    Parent(ParentNode),
}

impl Size for Node {
    ghost plain = { node_plain };

    ghost format = { node_format };

    fn tls_serialized_len(&self) -> usize {
        match self {
            Node::Leaf(leaf_node) => (LEAF, ByRef(leaf_node)).tls_serialized_len(),
            Node::Parent(parent_node) => (PARENT, ByRef(parent_node)).tls_serialized_len(),
        }
    }

    ghost lawful = { node_meets };
}

impl Serialize for Node {
    fn tls_serialize<W: Sink>(&self, writer: &mut W) -> Result<usize, Error> {
        match self {
            Node::Leaf(leaf_node) => (LEAF, ByRef(leaf_node)).tls_serialize(writer),
            Node::Parent(parent_node) => (PARENT, ByRef(parent_node)).tls_serialize(writer),
        }
    }

    fn tls_serialize_into(&self, out: &mut Vec<u8>) -> Result<usize, Error> {
        match self {
            Node::Leaf(leaf_node) => (LEAF, ByRef(leaf_node)).tls_serialize_into(out),
            Node::Parent(parent_node) => (PARENT, ByRef(parent_node)).tls_serialize_into(out),
        }
    }
}

impl Deserialize for Node {
    ghost names = { tagged_source_names 1
        (variant_source_names 1 ⟦<LeafNode as Deserialize>⟧.names
        (variant_source_names 2 ⟦<ParentNode as Deserialize>⟧.names
        no_variant_source_names)) };

    fn tls_deserialize<R: Source>(alloc: Global, src: &mut R) -> Result<Node, Error> {
        let tag = u8::tls_deserialize(alloc, src)?;
        match tag {
            LEAF => {
                let leaf_node = LeafNode::tls_deserialize(alloc, src)?;
                Ok(Node::Leaf(leaf_node))
            }
            PARENT => {
                let parent_node = ParentNode::tls_deserialize(alloc, src)?;
                Ok(Node::Parent(parent_node))
            }
            _ => Err(unknown_value(u64::from(tag))),
        }
    }
}

impl DeserializeBytes for Node {
    ghost names = { tagged_names 1
        (variant_names 1 ⟦<LeafNode as DeserializeBytes>⟧.names
        (variant_names 2 ⟦<ParentNode as DeserializeBytes>⟧.names
        no_variant_names)) };

    fn tls_deserialize_bytes(alloc: Global, whole: &[u8]) -> Result<(Node, &[u8]), Error> {
        let (tag, rest) = u8::tls_deserialize_bytes(alloc, whole)?;
        match tag {
            LEAF => {
                let (leaf_node, rest) = LeafNode::tls_deserialize_bytes(alloc, rest)?;
                Ok((Node::Leaf(leaf_node), rest))
            }
            PARENT => {
                let (parent_node, rest) = ParentNode::tls_deserialize_bytes(alloc, rest)?;
                Ok((Node::Parent(parent_node), rest))
            }
            _ => Err(unknown_value(u64::from(tag))),
        }
    }
}

impl Validate for Node {
    ghost places = { tagged_places 1
        (variant_places 1 ⟦<LeafNode as Validate>⟧.places
        (variant_places 2 ⟦<ParentNode as Validate>⟧.places
        no_variant_places)) };

    fn tls_validate_prefix(whole: &[u8]) -> Result<&[u8], Rejected<'_>> {
        let (tag, rest) = split_u8(whole)?;
        match tag {
            LEAF => {
                let behind = LeafNode::tls_validate_prefix(rest)?;
                Ok(behind)
            }
            PARENT => {
                let behind = ParentNode::tls_validate_prefix(rest)?;
                Ok(behind)
            }
            _ => Err(Rejected {
                error: unknown_value(u64::from(tag)),
                rest: whole,
            }),
        }
    }
}

impl Choice for Node {
    type Tag = u8;

    ghost variants = { node_variants };

    ghost as_choice = { λ bytes is. is };
}

/// The encoding of a [`Node`], split into its case and fields.
#[derive(Drop)]
pub enum NodeView<'a> {
    /// `case leaf: LeafNode leaf_node;`
    Leaf(Encoded<'a, LeafNode>),
    /// `case parent: ParentNode parent_node;`
    Parent(Encoded<'a, ParentNode>),
}

impl<'a> From<Encoded<'a, Node>> for NodeView<'a> {
    ghost from_gives = { λ whole view. elim view as (λ v. Type 0) [
      | NodeView.Leaf a0 ↦ IsCase 1 1 whole a0
      | NodeView.Parent a0 ↦ IsCase 1 2 whole a0
    ] };

    fn from(whole: Encoded<'a, Node>) -> NodeView<'a> {
        let (tag, parts) = whole.case();
        match tag {
            1 => NodeView::Leaf(Encoded::from_only_part(parts)),
            2 => NodeView::Parent(Encoded::from_only_part(parts)),
            _ => unreachable!(),
        }
    }
}

impl Node {
    /// The tag of this value's case.
    pub fn node_type(&self) -> u8
        ensures { result ≡ node_tag self.now }
    {
        match self {
            Node::Leaf(_) => 1,
            Node::Parent(_) => 2,
        }
    }
}

/// The case `leaf` with this content.
impl From<LeafNode> for Node {
    ghost from_gives = { λ content value. value ≡ Node.Leaf content };

    fn from(content: LeafNode) -> Node {
        Node::Leaf(content)
    }
}

/// The case `parent` with this content.
impl From<ParentNode> for Node {
    ghost from_gives = { λ content value. value ≡ Node.Parent content };

    fn from(content: ParentNode) -> Node {
        Node::Parent(content)
    }
}

/// Two values are equal if and only if they have the same case and all their fields are equal.
pub fn is_compared_by_its_case()
    ensures tag { (x y : Node) →
        IsTrue (⟦<Node as PartialEq>⟧.eq x y) → node_tag x ≡ node_tag y }
    ensures case_1 { (a0 b0 : _) →
        ⟦<Node as PartialEq>⟧.eq (Node.Leaf a0) (Node.Leaf b0)
        ≡ ⟦<LeafNode as PartialEq>⟧.eq a0 b0 }
    ensures case_2 { (a0 b0 : _) →
        ⟦<Node as PartialEq>⟧.eq (Node.Parent a0) (Node.Parent b0)
        ≡ ⟦<ParentNode as PartialEq>⟧.eq a0 b0 }
{}
