//! [`UpdatePathNode`].
ghost use Rattle.std.specs.Prelude.{◌≡◌, ◌&&◌, ◌++◌};
ghost use Rattle.mls_group.specs.UpdatePathNode.{update_path_node_format, update_path_node_meets, update_path_node_plain};
ghost use Rattle.mls_group.specs.declared.update_path_node.UpdatePathNode.{UpdatePathNode};

use crate::HPKECiphertext;
use mls_tree::HPKEPublicKey;
use std::alloc::Global;
use tls_codec::{ByRef, Deserialize, DeserializeBytes, Error, Serialize, Sink, Size, Source};
use tls_codec_cases::append_as;
use tls_codec_validate::{Rejected, Validate};
use tls_codec_views::{Encoded, Parted};

/// `UpdatePathNode` (RFC 9420, section 7.6).
#[derive(PartialEq, Eq, Debug, Clone, Drop)]
pub struct UpdatePathNode {
    /// `HPKEPublicKey encryption_key;`
    pub encryption_key: HPKEPublicKey,
    /// `HPKECiphertext encrypted_path_secret<V>;`
    pub encrypted_path_secret: Vec<HPKECiphertext>,
}

type Parts = (HPKEPublicKey, Vec<HPKECiphertext>);

impl Size for UpdatePathNode {
    ghost plain = { update_path_node_plain };

    ghost format = { update_path_node_format };

    fn tls_serialized_len(&self) -> usize {
        (
            ByRef(&self.encryption_key),
            ByRef(&self.encrypted_path_secret),
        )
            .tls_serialized_len()
    }

    ghost lawful = { update_path_node_meets };
}

impl Serialize for UpdatePathNode {
    fn tls_serialize<W: Sink>(&self, writer: &mut W) -> Result<usize, Error> {
        (
            ByRef(&self.encryption_key),
            ByRef(&self.encrypted_path_secret),
        )
            .tls_serialize(writer)
    }

    fn tls_serialize_into(&self, out: &mut Vec<u8>) -> Result<usize, Error> {
        append_as(
            self,
            &(
                ByRef(&self.encryption_key),
                ByRef(&self.encrypted_path_secret),
            ),
            out,
        )
    }
}

impl Deserialize for UpdatePathNode {
    ghost names = { ⟦<Parts as Deserialize>⟧.names };

    fn tls_deserialize<R: Source>(alloc: Global, src: &mut R) -> Result<UpdatePathNode, Error> {
        let (encryption_key, encrypted_path_secret) = <Parts>::tls_deserialize(alloc, src)?;
        Ok(UpdatePathNode {
            encryption_key,
            encrypted_path_secret,
        })
    }
}

impl DeserializeBytes for UpdatePathNode {
    ghost names = { ⟦<Parts as DeserializeBytes>⟧.names };

    fn tls_deserialize_bytes(
        alloc: Global,
        whole: &[u8],
    ) -> Result<(UpdatePathNode, &[u8]), Error> {
        let ((encryption_key, encrypted_path_secret), rest) = <Parts>::tls_deserialize_bytes(
            alloc, whole,
        )?;
        Ok((
            UpdatePathNode {
                encryption_key,
                encrypted_path_secret,
            },
            rest,
        ))
    }
}

impl Validate for UpdatePathNode {
    ghost places = { ⟦<Parts as Validate>⟧.places };

    fn tls_validate_prefix(whole: &[u8]) -> Result<&[u8], Rejected<'_>> {
        <Parts>::tls_validate_prefix(whole)
    }

    fn tls_width() -> Option<usize> {
        <Parts>::tls_width()
    }
}

impl Parted for UpdatePathNode {
    type Parts = Parts;

    ghost as_parts = { λ bytes is. is };
}

/// The encoding of a [`UpdatePathNode`], split into its fields.
#[derive(Drop)]
pub struct UpdatePathNodeView<'a> {
    /// `HPKEPublicKey encryption_key;`
    pub encryption_key: Encoded<'a, HPKEPublicKey>,
    /// `HPKECiphertext encrypted_path_secret<V>;`
    pub encrypted_path_secret: Encoded<'a, Vec<HPKECiphertext>>,
}

impl<'a> From<Encoded<'a, UpdatePathNode>> for UpdatePathNodeView<'a> {
    ghost from_gives = { λ whole view. whole ≡ (view.encryption_key ++
        view.encrypted_path_secret) };

    fn from(whole: Encoded<'a, UpdatePathNode>) -> UpdatePathNodeView<'a> {
        let (encryption_key, encrypted_path_secret) = whole.parts().split();
        UpdatePathNodeView {
            encryption_key,
            encrypted_path_secret,
        }
    }
}

/// Two values are equal if and only if all their fields are equal.
pub fn is_compared_by_its_fields()
    ensures { (x y : UpdatePathNode) →
        ⟦<UpdatePathNode as PartialEq>⟧.eq x y
        ≡ (⟦<HPKEPublicKey as PartialEq>⟧.eq x.encryption_key y.encryption_key
        && ⟦<Vec<HPKECiphertext> as PartialEq>⟧.eq x.encrypted_path_secret
        y.encrypted_path_secret) }
{}
