//! [`KDFLabel`].
ghost use Rattle.std.specs.Prelude.{◌≡◌, ◌&&◌};
ghost use Rattle.mls_group.specs.KDFLabel.{kdf_label_format, kdf_label_meets, kdf_label_plain};
ghost use Rattle.mls_group.specs.declared.kdf_label.KDFLabel.{KDFLabel};

use tls_codec::{ByRef, Error, Serialize, Sink, Size, VLBytes};
use tls_codec_cases::append_as;

/// `KDFLabel` (RFC 9420, section 8).
///
/// It has references to its fields. It can only be encoded.
#[derive(PartialEq, Eq, Debug, Clone, Copy)]
pub struct KDFLabel<'a> {
    /// `uint16 length;`
    pub length: &'a u16,
    /// `opaque label<V>;`
    pub label: &'a VLBytes,
    /// `opaque context<V>;`
    pub context: &'a VLBytes,
}

impl Size for KDFLabel<'_> {
    ghost plain = { kdf_label_plain };

    ghost format = { kdf_label_format };

    fn tls_serialized_len(&self) -> usize {
        (ByRef(self.length), ByRef(self.label), ByRef(self.context)).tls_serialized_len()
    }

    ghost lawful = { kdf_label_meets };
}

impl Serialize for KDFLabel<'_> {
    fn tls_serialize<W: Sink>(&self, writer: &mut W) -> Result<usize, Error> {
        (ByRef(self.length), ByRef(self.label), ByRef(self.context)).tls_serialize(writer)
    }

    fn tls_serialize_into(&self, out: &mut Vec<u8>) -> Result<usize, Error> {
        append_as(
            self,
            &(ByRef(self.length), ByRef(self.label), ByRef(self.context)),
            out,
        )
    }
}

/// Two values are equal if and only if all their fields are equal.
pub fn is_compared_by_its_fields()
    ensures { (x y : KDFLabel) →
        ⟦<KDFLabel<'static> as PartialEq>⟧.eq x y
        ≡ (⟦<u16 as PartialEq>⟧.eq x.length.now y.length.now
        && (⟦<VLBytes as PartialEq>⟧.eq x.label.now y.label.now
        && ⟦<VLBytes as PartialEq>⟧.eq x.context.now y.context.now)) }
{}
