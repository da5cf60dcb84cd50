//! [`PrivateContentAad`], a message of four fields.
ghost use Rattle.guide.specs.Aad.{aad_format, aad_meets, aad_plain};

use std::alloc::Global;
use tls_codec::{ByRef2, Deserialize, Error, Serialize, Sink, Size, Source, VLBytes};

/// What the encryption of a private message is bound to (`PrivateContentAAD` of RFC 9420, section 6.3.1).
#[derive(Drop)]
pub struct PrivateContentAad {
    pub group_id: VLBytes,
    pub epoch: u64,
    pub content_type: u8,
    pub authenticated_data: VLBytes,
}

// The fields, grouped as they are read.
type Parts = ((VLBytes, u64), (u8, VLBytes));

impl Size for PrivateContentAad {
    ghost plain = { aad_plain };

    ghost format = { aad_format };

    fn tls_serialized_len(&self) -> usize {
        (
            ByRef2(&self.group_id, &self.epoch),
            ByRef2(&self.content_type, &self.authenticated_data),
        )
            .tls_serialized_len()
    }

    ghost lawful = { aad_meets };
}

impl Serialize for PrivateContentAad {
    fn tls_serialize<W: Sink>(&self, writer: &mut W) -> Result<usize, Error> {
        (
            ByRef2(&self.group_id, &self.epoch),
            ByRef2(&self.content_type, &self.authenticated_data),
        )
            .tls_serialize(writer)
    }
}

impl Deserialize for PrivateContentAad {
    ghost names = { ⟦<Parts as Deserialize>⟧.names };

    /// Every error is that of a field.
    fn tls_deserialize<R: Source>(alloc: Global, src: &mut R) -> Result<PrivateContentAad, Error> {
        let ((group_id, epoch), (content_type, authenticated_data)) = <Parts>::tls_deserialize(
            alloc, src,
        )?;
        Ok(PrivateContentAad {
            group_id,
            epoch,
            content_type,
            authenticated_data,
        })
    }
}
