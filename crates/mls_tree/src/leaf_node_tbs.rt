//! [`LeafNodeTBS`].
ghost use Rattle.std.specs.Prelude.{◌≡◌, ◌&&◌};
ghost use Rattle.mls_tree.specs.LeafNodeTBS.{leaf_node_tbs_format, leaf_node_tbs_meets, leaf_node_tbs_plain};
ghost use Rattle.mls_tree.specs.declared.leaf_node_tbs.LeafNodeTBS.{LeafNodeTBS};

use crate::{Capabilities, Credential, HPKEPublicKey, LeafNodeTBSOrigin, SignaturePublicKey};
use tls_codec::{ByRef4, Error, Serialize, Sink, Size};
use tls_codec_cases::append_as;

/// `LeafNodeTBS` (RFC 9420, section 7.2).
///
/// What the signature of a leaf node is over. Its second select is on a tag that was read
/// earlier.
///
/// It has references to its fields. It can only be encoded.
#[derive(PartialEq, Eq, Debug, Clone, Copy)]
pub struct LeafNodeTBS<'a> {
    /// `HPKEPublicKey encryption_key;`
    pub encryption_key: &'a HPKEPublicKey,
    /// `SignaturePublicKey signature_key;`
    pub signature_key: &'a SignaturePublicKey,
    /// `Credential credential;`
    pub credential: &'a Credential,
    /// `Capabilities capabilities;`
    pub capabilities: &'a Capabilities,
    /// `LeafNodeSource leaf_node_source; select (leaf_node_source);`
    pub leaf_node_source: LeafNodeTBSOrigin<'a>,
}

impl Size for LeafNodeTBS<'_> {
    ghost plain = { leaf_node_tbs_plain };

    ghost format = { leaf_node_tbs_format };

    fn tls_serialized_len(&self) -> usize {
        (
            ByRef4(
                self.encryption_key,
                self.signature_key,
                self.credential,
                self.capabilities,
            ),
            self.leaf_node_source,
        )
            .tls_serialized_len()
    }

    ghost lawful = { leaf_node_tbs_meets };
}

impl Serialize for LeafNodeTBS<'_> {
    fn tls_serialize<W: Sink>(&self, writer: &mut W) -> Result<usize, Error> {
        (
            ByRef4(
                self.encryption_key,
                self.signature_key,
                self.credential,
                self.capabilities,
            ),
            self.leaf_node_source,
        )
            .tls_serialize(writer)
    }

    fn tls_serialize_into(&self, out: &mut Vec<u8>) -> Result<usize, Error> {
        append_as(
            self,
            &(
                ByRef4(
                    self.encryption_key,
                    self.signature_key,
                    self.credential,
                    self.capabilities,
                ),
                self.leaf_node_source,
            ),
            out,
        )
    }
}

/// Two values are equal if and only if all their fields are equal.
pub fn is_compared_by_its_fields()
    ensures { (x y : LeafNodeTBS) →
        ⟦<LeafNodeTBS<'static> as PartialEq>⟧.eq x y
        ≡ (⟦<HPKEPublicKey as PartialEq>⟧.eq x.encryption_key.now y.encryption_key.now
        && (⟦<SignaturePublicKey as PartialEq>⟧.eq x.signature_key.now y.signature_key.now
        && (⟦<Credential as PartialEq>⟧.eq x.credential.now y.credential.now
        && (⟦<Capabilities as PartialEq>⟧.eq x.capabilities.now y.capabilities.now
        && ⟦<LeafNodeTBSOrigin<'static> as PartialEq>⟧.eq x.leaf_node_source
        y.leaf_node_source)))) }
{}
