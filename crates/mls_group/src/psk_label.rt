//! [`PSKLabel`].
ghost use Rattle.std.specs.Prelude.{◌≡◌, ◌&&◌};
ghost use Rattle.mls_group.specs.PSKLabel.{psk_label_format, psk_label_meets, psk_label_plain};
ghost use Rattle.mls_group.specs.declared.psk_label.PSKLabel.{PSKLabel};

use crate::PreSharedKeyID;
use tls_codec::{ByRef, Error, Serialize, Sink, Size};
use tls_codec_cases::append_as;

/// `PSKLabel` (RFC 9420, section 8.4).
///
/// It has references to its fields. It can only be encoded.
#[derive(PartialEq, Eq, Debug, Clone, Copy)]
pub struct PSKLabel<'a> {
    /// `PreSharedKeyID id;`
    pub id: &'a PreSharedKeyID,
    /// `uint16 index;`
    pub index: &'a u16,
    /// `uint16 count;`
    pub count: &'a u16,
}

impl Size for PSKLabel<'_> {
    ghost plain = { psk_label_plain };

    ghost format = { psk_label_format };

    fn tls_serialized_len(&self) -> usize {
        (ByRef(self.id), ByRef(self.index), ByRef(self.count)).tls_serialized_len()
    }

    ghost lawful = { psk_label_meets };
}

impl Serialize for PSKLabel<'_> {
    fn tls_serialize<W: Sink>(&self, writer: &mut W) -> Result<usize, Error> {
        (ByRef(self.id), ByRef(self.index), ByRef(self.count)).tls_serialize(writer)
    }

    fn tls_serialize_into(&self, out: &mut Vec<u8>) -> Result<usize, Error> {
        append_as(
            self,
            &(ByRef(self.id), ByRef(self.index), ByRef(self.count)),
            out,
        )
    }
}

/// Two values are equal if and only if all their fields are equal.
pub fn is_compared_by_its_fields()
    ensures { (x y : PSKLabel) →
        ⟦<PSKLabel<'static> as PartialEq>⟧.eq x y
        ≡ (⟦<PreSharedKeyID as PartialEq>⟧.eq x.id.now y.id.now
        && (⟦<u16 as PartialEq>⟧.eq x.index.now y.index.now
        && ⟦<u16 as PartialEq>⟧.eq x.count.now y.count.now)) }
{}
