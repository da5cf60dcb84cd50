//! [`KeyPackage`].
ghost use Rattle.std.specs.Prelude.{◌≡◌, ◌&&◌, ◌++◌};
ghost use Rattle.mls_tree.specs.KeyPackage.{key_package_format, key_package_meets, key_package_plain};
ghost use Rattle.mls_tree.specs.declared.key_package.KeyPackage.{KeyPackage};

use crate::{CipherSuite, Extension, HPKEPublicKey, LeafNode, ProtocolVersion};
use std::alloc::Global;
use tls_codec::{
    ByRef3, Deserialize, DeserializeBytes, Error, Serialize, Sink, Size, Source, VLBytes,
};
use tls_codec_cases::append_as;
use tls_codec_validate::{Rejected, Validate};
use tls_codec_views::{Encoded, Parted};

/// `KeyPackage` (RFC 9420, section 10).
#[derive(PartialEq, Eq, Debug, Clone, Drop)]
pub struct KeyPackage {
    /// `ProtocolVersion version;`
    pub version: ProtocolVersion,
    /// `CipherSuite cipher_suite;`
    pub cipher_suite: CipherSuite,
    /// `HPKEPublicKey init_key;`
    pub init_key: HPKEPublicKey,
    /// `LeafNode leaf_node;`
    pub leaf_node: LeafNode,
    /// `Extension extensions<V>;`
    pub extensions: Vec<Extension>,
    /// `opaque signature<V>;`
    /// SignWithLabel(., "KeyPackageTBS", KeyPackageTBS)
    pub signature: VLBytes,
}

type Parts = (
    (ProtocolVersion, CipherSuite, HPKEPublicKey),
    (LeafNode, Vec<Extension>, VLBytes),
);

impl Size for KeyPackage {
    ghost plain = { key_package_plain };

    ghost format = { key_package_format };

    fn tls_serialized_len(&self) -> usize {
        (
            ByRef3(&self.version, &self.cipher_suite, &self.init_key),
            ByRef3(&self.leaf_node, &self.extensions, &self.signature),
        )
            .tls_serialized_len()
    }

    ghost lawful = { key_package_meets };
}

impl Serialize for KeyPackage {
    fn tls_serialize<W: Sink>(&self, writer: &mut W) -> Result<usize, Error> {
        (
            ByRef3(&self.version, &self.cipher_suite, &self.init_key),
            ByRef3(&self.leaf_node, &self.extensions, &self.signature),
        )
            .tls_serialize(writer)
    }

    fn tls_serialize_into(&self, out: &mut Vec<u8>) -> Result<usize, Error> {
        append_as(
            self,
            &(
                ByRef3(&self.version, &self.cipher_suite, &self.init_key),
                ByRef3(&self.leaf_node, &self.extensions, &self.signature),
            ),
            out,
        )
    }
}

impl Deserialize for KeyPackage {
    ghost names = { ⟦<Parts as Deserialize>⟧.names };

    fn tls_deserialize<R: Source>(alloc: Global, src: &mut R) -> Result<KeyPackage, Error> {
        let ((version, cipher_suite, init_key), (leaf_node, extensions, signature)) =
            <Parts>::tls_deserialize(alloc, src)?;
        Ok(KeyPackage {
            version,
            cipher_suite,
            init_key,
            leaf_node,
            extensions,
            signature,
        })
    }
}

impl DeserializeBytes for KeyPackage {
    ghost names = { ⟦<Parts as DeserializeBytes>⟧.names };

    fn tls_deserialize_bytes(alloc: Global, whole: &[u8]) -> Result<(KeyPackage, &[u8]), Error> {
        let (((version, cipher_suite, init_key), (leaf_node, extensions, signature)), rest) =
            <Parts>::tls_deserialize_bytes(alloc, whole)?;
        Ok((
            KeyPackage {
                version,
                cipher_suite,
                init_key,
                leaf_node,
                extensions,
                signature,
            },
            rest,
        ))
    }
}

impl Validate for KeyPackage {
    ghost places = { ⟦<Parts as Validate>⟧.places };

    fn tls_validate_prefix(whole: &[u8]) -> Result<&[u8], Rejected<'_>> {
        <Parts>::tls_validate_prefix(whole)
    }

    fn tls_width() -> Option<usize> {
        <Parts>::tls_width()
    }
}

impl Parted for KeyPackage {
    type Parts = Parts;

    ghost as_parts = { λ bytes is. is };
}

/// The encoding of a [`KeyPackage`], split into its fields.
#[derive(Drop)]
pub struct KeyPackageView<'a> {
    /// `ProtocolVersion version;`
    pub version: Encoded<'a, ProtocolVersion>,
    /// `CipherSuite cipher_suite;`
    pub cipher_suite: Encoded<'a, CipherSuite>,
    /// `HPKEPublicKey init_key;`
    pub init_key: Encoded<'a, HPKEPublicKey>,
    /// `LeafNode leaf_node;`
    pub leaf_node: Encoded<'a, LeafNode>,
    /// `Extension extensions<V>;`
    pub extensions: Encoded<'a, Vec<Extension>>,
    /// `opaque signature<V>;`
    /// SignWithLabel(., "KeyPackageTBS", KeyPackageTBS)
    pub signature: Encoded<'a, VLBytes>,
}

impl<'a> From<Encoded<'a, KeyPackage>> for KeyPackageView<'a> {
    ghost from_gives = { λ whole view. whole ≡ ((view.version ++
        (view.cipher_suite ++ view.init_key)) ++ (view.leaf_node ++
        (view.extensions ++ view.signature))) };

    fn from(whole: Encoded<'a, KeyPackage>) -> KeyPackageView<'a> {
        let (parts_0, parts_1) = whole.parts().split();
        let (version, cipher_suite, init_key) = parts_0.split();
        let (leaf_node, extensions, signature) = parts_1.split();
        KeyPackageView {
            version,
            cipher_suite,
            init_key,
            leaf_node,
            extensions,
            signature,
        }
    }
}

/// Two values are equal if and only if all their fields are equal.
pub fn is_compared_by_its_fields()
    ensures { (x y : KeyPackage) →
        ⟦<KeyPackage as PartialEq>⟧.eq x y
        ≡ (⟦<ProtocolVersion as PartialEq>⟧.eq x.version y.version
        && (⟦<CipherSuite as PartialEq>⟧.eq x.cipher_suite y.cipher_suite
        && (⟦<HPKEPublicKey as PartialEq>⟧.eq x.init_key y.init_key
        && (⟦<LeafNode as PartialEq>⟧.eq x.leaf_node y.leaf_node
        && (⟦<Vec<Extension> as PartialEq>⟧.eq x.extensions y.extensions
        && ⟦<VLBytes as PartialEq>⟧.eq x.signature y.signature))))) }
{}
