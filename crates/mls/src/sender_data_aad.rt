//! [`SenderDataAAD`].
ghost use Rattle.std.specs.Prelude.{◌≡◌, ◌&&◌};
ghost use Rattle.mls.specs.SenderDataAAD.{sender_data_aad_format, sender_data_aad_meets, sender_data_aad_plain};
ghost use Rattle.mls.specs.declared.sender_data_aad.SenderDataAAD.{SenderDataAAD};

use crate::ContentType;
use tls_codec::{ByRef, Error, Serialize, Sink, Size, VLBytes};
use tls_codec_cases::append_as;

/// `SenderDataAAD` (RFC 9420, section 6.3.2).
///
/// It has references to its fields. It can only be encoded.
#[derive(PartialEq, Eq, Debug, Clone, Copy)]
pub struct SenderDataAAD<'a> {
    /// `opaque group_id<V>;`
    pub group_id: &'a VLBytes,
    /// `uint64 epoch;`
    pub epoch: &'a u64,
    /// `ContentType content_type;`
    pub content_type: &'a ContentType,
}

impl Size for SenderDataAAD<'_> {
    ghost plain = { sender_data_aad_plain };

    ghost format = { sender_data_aad_format };

    fn tls_serialized_len(&self) -> usize {
        (
            ByRef(self.group_id),
            ByRef(self.epoch),
            ByRef(self.content_type),
        )
            .tls_serialized_len()
    }

    ghost lawful = { sender_data_aad_meets };
}

impl Serialize for SenderDataAAD<'_> {
    fn tls_serialize<W: Sink>(&self, writer: &mut W) -> Result<usize, Error> {
        (
            ByRef(self.group_id),
            ByRef(self.epoch),
            ByRef(self.content_type),
        )
            .tls_serialize(writer)
    }

    fn tls_serialize_into(&self, out: &mut Vec<u8>) -> Result<usize, Error> {
        append_as(
            self,
            &(
                ByRef(self.group_id),
                ByRef(self.epoch),
                ByRef(self.content_type),
            ),
            out,
        )
    }
}

/// Two values are equal if and only if all their fields are equal.
pub fn is_compared_by_its_fields()
    ensures { (x y : SenderDataAAD) →
        ⟦<SenderDataAAD<'static> as PartialEq>⟧.eq x y
        ≡ (⟦<VLBytes as PartialEq>⟧.eq x.group_id.now y.group_id.now
        && (⟦<u64 as PartialEq>⟧.eq x.epoch.now y.epoch.now
        && ⟦<ContentType as PartialEq>⟧.eq x.content_type.now y.content_type.now)) }
{}
