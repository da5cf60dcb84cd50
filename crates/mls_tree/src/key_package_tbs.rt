//! [`KeyPackageTBS`].
ghost use Rattle.std.specs.Prelude.{◌≡◌, ◌&&◌};
ghost use Rattle.mls_tree.specs.KeyPackageTBS.{key_package_tbs_format, key_package_tbs_meets, key_package_tbs_plain};
ghost use Rattle.mls_tree.specs.declared.key_package_tbs.KeyPackageTBS.{KeyPackageTBS};

use crate::{CipherSuite, Extension, HPKEPublicKey, KeyPackage, LeafNode, ProtocolVersion};
use tls_codec::{ByRef2, ByRef3, Error, Serialize, Sink, Size};
use tls_codec_cases::append_as;

/// `KeyPackageTBS` (RFC 9420, section 10).
///
/// It has references to its fields. It can only be encoded.
#[derive(PartialEq, Eq, Debug, Clone, Copy)]
pub struct KeyPackageTBS<'a> {
    /// `ProtocolVersion version;`
    pub version: &'a ProtocolVersion,
    /// `CipherSuite cipher_suite;`
    pub cipher_suite: &'a CipherSuite,
    /// `HPKEPublicKey init_key;`
    pub init_key: &'a HPKEPublicKey,
    /// `LeafNode leaf_node;`
    pub leaf_node: &'a LeafNode,
    /// `Extension extensions<V>;`
    pub extensions: &'a Vec<Extension>,
}

impl Size for KeyPackageTBS<'_> {
    ghost plain = { key_package_tbs_plain };

    ghost format = { key_package_tbs_format };

    fn tls_serialized_len(&self) -> usize {
        (
            ByRef3(self.version, self.cipher_suite, self.init_key),
            ByRef2(self.leaf_node, self.extensions),
        )
            .tls_serialized_len()
    }

    ghost lawful = { key_package_tbs_meets };
}

impl Serialize for KeyPackageTBS<'_> {
    fn tls_serialize<W: Sink>(&self, writer: &mut W) -> Result<usize, Error> {
        (
            ByRef3(self.version, self.cipher_suite, self.init_key),
            ByRef2(self.leaf_node, self.extensions),
        )
            .tls_serialize(writer)
    }

    fn tls_serialize_into(&self, out: &mut Vec<u8>) -> Result<usize, Error> {
        append_as(
            self,
            &(
                ByRef3(self.version, self.cipher_suite, self.init_key),
                ByRef2(self.leaf_node, self.extensions),
            ),
            out,
        )
    }
}

/// The part of a `KeyPackage` that is signed.
impl<'a> From<&'a KeyPackage> for KeyPackageTBS<'a> {
    ghost from_gives = { λ whole borrowed.
        (borrowed.version.now ≡ whole.now.version)
        × (borrowed.cipher_suite.now ≡ whole.now.cipher_suite)
        × (borrowed.init_key.now ≡ whole.now.init_key)
        × (borrowed.leaf_node.now ≡ whole.now.leaf_node)
        × (borrowed.extensions.now ≡ whole.now.extensions) };

    fn from(whole: &'a KeyPackage) -> KeyPackageTBS<'a> {
        KeyPackageTBS {
            version: &whole.version,
            cipher_suite: &whole.cipher_suite,
            init_key: &whole.init_key,
            leaf_node: &whole.leaf_node,
            extensions: &whole.extensions,
        }
    }
}

/// Two values are equal if and only if all their fields are equal.
pub fn is_compared_by_its_fields()
    ensures { (x y : KeyPackageTBS) →
        ⟦<KeyPackageTBS<'static> as PartialEq>⟧.eq x y
        ≡ (⟦<ProtocolVersion as PartialEq>⟧.eq x.version.now y.version.now
        && (⟦<CipherSuite as PartialEq>⟧.eq x.cipher_suite.now y.cipher_suite.now
        && (⟦<HPKEPublicKey as PartialEq>⟧.eq x.init_key.now y.init_key.now
        && (⟦<LeafNode as PartialEq>⟧.eq x.leaf_node.now y.leaf_node.now
        && ⟦<Vec<Extension> as PartialEq>⟧.eq x.extensions.now y.extensions.now)))) }
{}
