//! [`Extension`], whose data are kept as bytes.
ghost use Rattle.handshake_by_hand.specs.Extensions.{extension_format, extension_meets, extension_plain};

use std::alloc::Global;
use tls_codec::{
    ByRef, Deserialize, DeserializeBytes, Error, Serialize, Sink, Size, Source, TlsByteVecU16,
};

/// `Extension` (RFC 8446, section 4.2).
#[derive(PartialEq, Eq, Debug, Clone, Drop)]
pub struct Extension {
    /// `ExtensionType extension_type;`
    pub extension_type: u16,
    /// `opaque extension_data<0..2^16-1>;`
    pub extension_data: TlsByteVecU16,
}

impl Size for Extension {
    ghost plain = { extension_plain };

    ghost format = { extension_format };

    fn tls_serialized_len(&self) -> usize {
        (ByRef(&self.extension_type), ByRef(&self.extension_data)).tls_serialized_len()
    }

    ghost lawful = { extension_meets };
}

impl Serialize for Extension {
    fn tls_serialize<W: Sink>(&self, writer: &mut W) -> Result<usize, Error> {
        (ByRef(&self.extension_type), ByRef(&self.extension_data)).tls_serialize(writer)
    }

    fn tls_serialize_into(&self, out: &mut Vec<u8>) -> Result<usize, Error> {
        (ByRef(&self.extension_type), ByRef(&self.extension_data)).tls_serialize_into(out)
    }
}

impl Deserialize for Extension {
    ghost names = { ⟦<(u16, TlsByteVecU16) as Deserialize>⟧.names };

    fn tls_deserialize<R: Source>(alloc: Global, src: &mut R) -> Result<Extension, Error> {
        let (extension_type, extension_data) = <(u16, TlsByteVecU16)>::tls_deserialize(alloc, src)?;
        Ok(Extension {
            extension_type,
            extension_data,
        })
    }
}

impl DeserializeBytes for Extension {
    ghost names = { ⟦<(u16, TlsByteVecU16) as DeserializeBytes>⟧.names };

    fn tls_deserialize_bytes(alloc: Global, whole: &[u8]) -> Result<(Extension, &[u8]), Error> {
        let ((extension_type, extension_data), rest) = <(
            u16,
            TlsByteVecU16,
        )>::tls_deserialize_bytes(alloc, whole)?;
        let extension = Extension {
            extension_type,
            extension_data,
        };
        Ok((extension, rest))
    }
}
