//! [`RefHashInput`].
ghost use Rattle.std.specs.Prelude.{◌≡◌, ◌&&◌};
ghost use Rattle.mls_group.specs.RefHashInput.{ref_hash_input_format, ref_hash_input_meets, ref_hash_input_plain};
ghost use Rattle.mls_group.specs.declared.ref_hash_input.RefHashInput.{RefHashInput};

use tls_codec::{ByRef, Error, Serialize, Sink, Size, VLBytes};
use tls_codec_cases::append_as;

/// `RefHashInput` (RFC 9420, section 5.2).
///
/// It has references to its fields. It can only be encoded.
#[derive(PartialEq, Eq, Debug, Clone, Copy)]
pub struct RefHashInput<'a> {
    /// `opaque label<V>;`
    pub label: &'a VLBytes,
    /// `opaque value<V>;`
    pub value: &'a VLBytes,
}

impl Size for RefHashInput<'_> {
    ghost plain = { ref_hash_input_plain };

    ghost format = { ref_hash_input_format };

    fn tls_serialized_len(&self) -> usize {
        (ByRef(self.label), ByRef(self.value)).tls_serialized_len()
    }

    ghost lawful = { ref_hash_input_meets };
}

impl Serialize for RefHashInput<'_> {
    fn tls_serialize<W: Sink>(&self, writer: &mut W) -> Result<usize, Error> {
        (ByRef(self.label), ByRef(self.value)).tls_serialize(writer)
    }

    fn tls_serialize_into(&self, out: &mut Vec<u8>) -> Result<usize, Error> {
        append_as(self, &(ByRef(self.label), ByRef(self.value)), out)
    }
}

/// Two values are equal if and only if all their fields are equal.
pub fn is_compared_by_its_fields()
    ensures { (x y : RefHashInput) →
        ⟦<RefHashInput<'static> as PartialEq>⟧.eq x y
        ≡ (⟦<VLBytes as PartialEq>⟧.eq x.label.now y.label.now
        && ⟦<VLBytes as PartialEq>⟧.eq x.value.now y.value.now) }
{}
