//! [`ParentHashInput`].
ghost use Rattle.std.specs.Prelude.{◌≡◌, ◌&&◌};
ghost use Rattle.mls_tree.specs.ParentHashInput.{parent_hash_input_format, parent_hash_input_meets, parent_hash_input_plain};
ghost use Rattle.mls_tree.specs.declared.parent_hash_input.ParentHashInput.{ParentHashInput};

use crate::HPKEPublicKey;
use tls_codec::{ByRef, Error, Serialize, Sink, Size, VLBytes};
use tls_codec_cases::append_as;

/// `ParentHashInput` (RFC 9420, section 7.9).
///
/// It has references to its fields. It can only be encoded.
#[derive(PartialEq, Eq, Debug, Clone, Copy)]
pub struct ParentHashInput<'a> {
    /// `HPKEPublicKey encryption_key;`
    pub encryption_key: &'a HPKEPublicKey,
    /// `opaque parent_hash<V>;`
    pub parent_hash: &'a VLBytes,
    /// `opaque original_sibling_tree_hash<V>;`
    pub original_sibling_tree_hash: &'a VLBytes,
}

impl Size for ParentHashInput<'_> {
    ghost plain = { parent_hash_input_plain };

    ghost format = { parent_hash_input_format };

    fn tls_serialized_len(&self) -> usize {
        (
            ByRef(self.encryption_key),
            ByRef(self.parent_hash),
            ByRef(self.original_sibling_tree_hash),
        )
            .tls_serialized_len()
    }

    ghost lawful = { parent_hash_input_meets };
}

impl Serialize for ParentHashInput<'_> {
    fn tls_serialize<W: Sink>(&self, writer: &mut W) -> Result<usize, Error> {
        (
            ByRef(self.encryption_key),
            ByRef(self.parent_hash),
            ByRef(self.original_sibling_tree_hash),
        )
            .tls_serialize(writer)
    }

    fn tls_serialize_into(&self, out: &mut Vec<u8>) -> Result<usize, Error> {
        append_as(
            self,
            &(
                ByRef(self.encryption_key),
                ByRef(self.parent_hash),
                ByRef(self.original_sibling_tree_hash),
            ),
            out,
        )
    }
}

/// Two values are equal if and only if all their fields are equal.
pub fn is_compared_by_its_fields()
    ensures { (x y : ParentHashInput) →
        ⟦<ParentHashInput<'static> as PartialEq>⟧.eq x y
        ≡ (⟦<HPKEPublicKey as PartialEq>⟧.eq x.encryption_key.now y.encryption_key.now
        && (⟦<VLBytes as PartialEq>⟧.eq x.parent_hash.now y.parent_hash.now
        && ⟦<VLBytes as PartialEq>⟧.eq x.original_sibling_tree_hash.now
        y.original_sibling_tree_hash.now)) }
{}
