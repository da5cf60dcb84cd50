//! [`Signed`], a message with a part that an earlier field decides.
ghost use Rattle.guide.specs.Signed.{signed_format, signed_meets, signed_plain};

use crate::auth_data::AuthData;
use std::alloc::Global;
use tls_codec::{
    Always, ByRef, ByRefIn, ByRefThen2, Deserialize, Error, Serialize, Sink, Size, Source, Then,
    VLBytes,
};

/// Data with its content type, and what signs it, which the content type decides.
#[derive(Drop)]
pub struct Signed {
    pub content_type: u8,
    pub data: VLBytes,
    pub auth: AuthData,
}

impl Size for Signed {
    ghost plain = { signed_plain };

    ghost format = { signed_format };

    fn tls_serialized_len(&self) -> usize {
        ByRefThen2 {
            first: &self.content_type,
            second: ByRef(&self.data),
            third: ByRefIn(&self.auth),
        }
        .tls_serialized_len()
    }

    ghost lawful = { signed_meets };
}

impl Serialize for Signed {
    fn tls_serialize<W: Sink>(&self, writer: &mut W) -> Result<usize, Error> {
        ByRefThen2 {
            first: &self.content_type,
            second: ByRef(&self.data),
            third: ByRefIn(&self.auth),
        }
        .tls_serialize(writer)
    }
}

impl Deserialize for Signed {
    ghost names = { ⟦<Then<u8, (Always<VLBytes>, AuthData)> as Deserialize>⟧.names };

    /// Every error is that of a field.
    fn tls_deserialize<R: Source>(alloc: Global, src: &mut R) -> Result<Signed, Error> {
        let Then {
            first: content_type,
            rest: (data, auth),
        } = <Then<u8, (Always<VLBytes>, AuthData)>>::tls_deserialize(alloc, src)?;
        Ok(Signed {
            content_type,
            data: data.0,
            auth,
        })
    }
}
