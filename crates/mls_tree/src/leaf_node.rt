//! [`LeafNode`].
ghost use Rattle.std.specs.Prelude.{◌≡◌, ◌&&◌, ◌++◌};
ghost use Rattle.mls_tree.specs.LeafNode.{leaf_node_format, leaf_node_meets, leaf_node_plain};
ghost use Rattle.mls_tree.specs.declared.leaf_node.LeafNode.{LeafNode};

use crate::{
    Capabilities, Credential, Extension, HPKEPublicKey, LeafNodeOrigin, SignaturePublicKey,
};
use std::alloc::Global;
use tls_codec::{
    ByRef2, ByRef3, Deserialize, DeserializeBytes, Error, Serialize, Sink, Size, Source, VLBytes,
};
use tls_codec_cases::append_as;
use tls_codec_validate::{Rejected, Validate};
use tls_codec_views::{Encoded, Parted};

/// `LeafNode` (RFC 9420, section 7.2).
#[derive(PartialEq, Eq, Debug, Clone, Drop)]
pub struct LeafNode {
    /// `HPKEPublicKey encryption_key;`
    pub encryption_key: HPKEPublicKey,
    /// `SignaturePublicKey signature_key;`
    pub signature_key: SignaturePublicKey,
    /// `Credential credential;`
    pub credential: Credential,
    /// `Capabilities capabilities;`
    pub capabilities: Capabilities,
    /// `LeafNodeSource leaf_node_source; select (leaf_node_source);`
    pub leaf_node_source: LeafNodeOrigin,
    /// `Extension extensions<V>;`
    pub extensions: Vec<Extension>,
    /// `opaque signature<V>;`
    /// SignWithLabel(., "LeafNodeTBS", LeafNodeTBS)
    pub signature: VLBytes,
}

type Parts = (
    (HPKEPublicKey, SignaturePublicKey, Credential),
    (Capabilities, LeafNodeOrigin),
    (Vec<Extension>, VLBytes),
);

impl Size for LeafNode {
    ghost plain = { leaf_node_plain };

    ghost format = { leaf_node_format };

    fn tls_serialized_len(&self) -> usize {
        (
            ByRef3(&self.encryption_key, &self.signature_key, &self.credential),
            ByRef2(&self.capabilities, &self.leaf_node_source),
            ByRef2(&self.extensions, &self.signature),
        )
            .tls_serialized_len()
    }

    ghost lawful = { leaf_node_meets };
}

impl Serialize for LeafNode {
    fn tls_serialize<W: Sink>(&self, writer: &mut W) -> Result<usize, Error> {
        (
            ByRef3(&self.encryption_key, &self.signature_key, &self.credential),
            ByRef2(&self.capabilities, &self.leaf_node_source),
            ByRef2(&self.extensions, &self.signature),
        )
            .tls_serialize(writer)
    }

    fn tls_serialize_into(&self, out: &mut Vec<u8>) -> Result<usize, Error> {
        append_as(
            self,
            &(
                ByRef3(&self.encryption_key, &self.signature_key, &self.credential),
                ByRef2(&self.capabilities, &self.leaf_node_source),
                ByRef2(&self.extensions, &self.signature),
            ),
            out,
        )
    }
}

impl Deserialize for LeafNode {
    ghost names = { ⟦<Parts as Deserialize>⟧.names };

    fn tls_deserialize<R: Source>(alloc: Global, src: &mut R) -> Result<LeafNode, Error> {
        let (
            (encryption_key, signature_key, credential),
            (capabilities, leaf_node_source),
            (extensions, signature),
        ) = <Parts>::tls_deserialize(alloc, src)?;
        Ok(LeafNode {
            encryption_key,
            signature_key,
            credential,
            capabilities,
            leaf_node_source,
            extensions,
            signature,
        })
    }
}

impl DeserializeBytes for LeafNode {
    ghost names = { ⟦<Parts as DeserializeBytes>⟧.names };

    fn tls_deserialize_bytes(alloc: Global, whole: &[u8]) -> Result<(LeafNode, &[u8]), Error> {
        let (
            (
                (encryption_key, signature_key, credential),
                (capabilities, leaf_node_source),
                (extensions, signature),
            ),
            rest,
        ) = <Parts>::tls_deserialize_bytes(alloc, whole)?;
        Ok((
            LeafNode {
                encryption_key,
                signature_key,
                credential,
                capabilities,
                leaf_node_source,
                extensions,
                signature,
            },
            rest,
        ))
    }
}

impl Validate for LeafNode {
    ghost places = { ⟦<Parts as Validate>⟧.places };

    fn tls_validate_prefix(whole: &[u8]) -> Result<&[u8], Rejected<'_>> {
        <Parts>::tls_validate_prefix(whole)
    }

    fn tls_width() -> Option<usize> {
        <Parts>::tls_width()
    }
}

impl Parted for LeafNode {
    type Parts = Parts;

    ghost as_parts = { λ bytes is. is };
}

/// The encoding of a [`LeafNode`], split into its fields.
#[derive(Drop)]
pub struct LeafNodeView<'a> {
    /// `HPKEPublicKey encryption_key;`
    pub encryption_key: Encoded<'a, HPKEPublicKey>,
    /// `SignaturePublicKey signature_key;`
    pub signature_key: Encoded<'a, SignaturePublicKey>,
    /// `Credential credential;`
    pub credential: Encoded<'a, Credential>,
    /// `Capabilities capabilities;`
    pub capabilities: Encoded<'a, Capabilities>,
    /// `LeafNodeSource leaf_node_source; select (leaf_node_source);`
    pub leaf_node_source: Encoded<'a, LeafNodeOrigin>,
    /// `Extension extensions<V>;`
    pub extensions: Encoded<'a, Vec<Extension>>,
    /// `opaque signature<V>;`
    /// SignWithLabel(., "LeafNodeTBS", LeafNodeTBS)
    pub signature: Encoded<'a, VLBytes>,
}

impl<'a> From<Encoded<'a, LeafNode>> for LeafNodeView<'a> {
    ghost from_gives = { λ whole view. whole ≡ ((view.encryption_key ++
        (view.signature_key ++ view.credential)) ++ ((view.capabilities ++ view.leaf_node_source) ++
        (view.extensions ++ view.signature))) };

    fn from(whole: Encoded<'a, LeafNode>) -> LeafNodeView<'a> {
        let (parts_0, parts_1, parts_2) = whole.parts().split();
        let (encryption_key, signature_key, credential) = parts_0.split();
        let (capabilities, leaf_node_source) = parts_1.split();
        let (extensions, signature) = parts_2.split();
        LeafNodeView {
            encryption_key,
            signature_key,
            credential,
            capabilities,
            leaf_node_source,
            extensions,
            signature,
        }
    }
}

/// Two values are equal if and only if all their fields are equal.
pub fn is_compared_by_its_fields()
    ensures { (x y : LeafNode) →
        ⟦<LeafNode as PartialEq>⟧.eq x y
        ≡ (⟦<HPKEPublicKey as PartialEq>⟧.eq x.encryption_key y.encryption_key
        && (⟦<SignaturePublicKey as PartialEq>⟧.eq x.signature_key y.signature_key
        && (⟦<Credential as PartialEq>⟧.eq x.credential y.credential
        && (⟦<Capabilities as PartialEq>⟧.eq x.capabilities y.capabilities
        && (⟦<LeafNodeOrigin as PartialEq>⟧.eq x.leaf_node_source y.leaf_node_source
        && (⟦<Vec<Extension> as PartialEq>⟧.eq x.extensions y.extensions
        && ⟦<VLBytes as PartialEq>⟧.eq x.signature y.signature)))))) }
{}
