//! [`EncryptContext`].
ghost use Rattle.std.specs.Prelude.{◌≡◌, ◌&&◌};
ghost use Rattle.mls_tree.specs.EncryptContext.{encrypt_context_format, encrypt_context_meets, encrypt_context_plain};
ghost use Rattle.mls_tree.specs.declared.encrypt_context.EncryptContext.{EncryptContext};

use tls_codec::{ByRef, Error, Serialize, Sink, Size, VLBytes};
use tls_codec_cases::append_as;

/// `EncryptContext` (RFC 9420, section 5.1.3).
///
/// It has references to its fields. It can only be encoded.
#[derive(PartialEq, Eq, Debug, Clone, Copy)]
pub struct EncryptContext<'a> {
    /// `opaque label<V>;`
    pub label: &'a VLBytes,
    /// `opaque context<V>;`
    pub context: &'a VLBytes,
}

impl Size for EncryptContext<'_> {
    ghost plain = { encrypt_context_plain };

    ghost format = { encrypt_context_format };

    fn tls_serialized_len(&self) -> usize {
        (ByRef(self.label), ByRef(self.context)).tls_serialized_len()
    }

    ghost lawful = { encrypt_context_meets };
}

impl Serialize for EncryptContext<'_> {
    fn tls_serialize<W: Sink>(&self, writer: &mut W) -> Result<usize, Error> {
        (ByRef(self.label), ByRef(self.context)).tls_serialize(writer)
    }

    fn tls_serialize_into(&self, out: &mut Vec<u8>) -> Result<usize, Error> {
        append_as(self, &(ByRef(self.label), ByRef(self.context)), out)
    }
}

/// Two values are equal if and only if all their fields are equal.
pub fn is_compared_by_its_fields()
    ensures { (x y : EncryptContext) →
        ⟦<EncryptContext<'static> as PartialEq>⟧.eq x y
        ≡ (⟦<VLBytes as PartialEq>⟧.eq x.label.now y.label.now
        && ⟦<VLBytes as PartialEq>⟧.eq x.context.now y.context.now) }
{}
