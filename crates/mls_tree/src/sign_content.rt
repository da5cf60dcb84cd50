//! [`SignContent`].
ghost use Rattle.std.specs.Prelude.{◌≡◌, ◌&&◌};
ghost use Rattle.mls_tree.specs.SignContent.{sign_content_format, sign_content_meets, sign_content_plain};
ghost use Rattle.mls_tree.specs.declared.sign_content.SignContent.{SignContent};

use tls_codec::{ByRef, Error, Serialize, Sink, Size, VLBytes};
use tls_codec_cases::append_as;

/// `SignContent` (RFC 9420, section 5.1.2).
///
/// It has references to its fields. It can only be encoded.
#[derive(PartialEq, Eq, Debug, Clone, Copy)]
pub struct SignContent<'a> {
    /// `opaque label<V>;`
    pub label: &'a VLBytes,
    /// `opaque content<V>;`
    pub content: &'a VLBytes,
}

impl Size for SignContent<'_> {
    ghost plain = { sign_content_plain };

    ghost format = { sign_content_format };

    fn tls_serialized_len(&self) -> usize {
        (ByRef(self.label), ByRef(self.content)).tls_serialized_len()
    }

    ghost lawful = { sign_content_meets };
}

impl Serialize for SignContent<'_> {
    fn tls_serialize<W: Sink>(&self, writer: &mut W) -> Result<usize, Error> {
        (ByRef(self.label), ByRef(self.content)).tls_serialize(writer)
    }

    fn tls_serialize_into(&self, out: &mut Vec<u8>) -> Result<usize, Error> {
        append_as(self, &(ByRef(self.label), ByRef(self.content)), out)
    }
}

/// Two values are equal if and only if all their fields are equal.
pub fn is_compared_by_its_fields()
    ensures { (x y : SignContent) →
        ⟦<SignContent<'static> as PartialEq>⟧.eq x y
        ≡ (⟦<VLBytes as PartialEq>⟧.eq x.label.now y.label.now
        && ⟦<VLBytes as PartialEq>⟧.eq x.content.now y.content.now) }
{}
