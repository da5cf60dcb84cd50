//! [`Extension`], a message of your own.
ghost use Rattle.guide.specs.Guide.{extension_format, extension_meets, extension_plain};

use std::alloc::Global;
use tls_codec::{ByRef, Deserialize, Error, Serialize, Sink, Size, Source, VLBytes};

/// An extension of MLS (RFC 9420, section 7.2): its type, and its data after a variable-length length.
#[derive(Drop)]
pub struct Extension {
    pub extension_type: u16,
    pub extension_data: VLBytes,
}

impl Size for Extension {
    ghost plain = { extension_plain };

    ghost format = { extension_format };

    fn tls_serialized_len(&self) -> usize {
        (ByRef(&self.extension_type), ByRef(&self.extension_data)).tls_serialized_len()
    }

    ghost lawful = { extension_meets };
}

impl Serialize for Extension {
    fn tls_serialize<W: Sink>(&self, writer: &mut W) -> Result<usize, Error> {
        (ByRef(&self.extension_type), ByRef(&self.extension_data)).tls_serialize(writer)
    }
}

impl Deserialize for Extension {
    ghost names = { ⟦<(u16, VLBytes) as Deserialize>⟧.names };

    /// Every error is that of a field.
    fn tls_deserialize<R: Source>(alloc: Global, src: &mut R) -> Result<Extension, Error> {
        let (extension_type, extension_data) = <(u16, VLBytes)>::tls_deserialize(alloc, src)?;
        Ok(Extension {
            extension_type,
            extension_data,
        })
    }
}
