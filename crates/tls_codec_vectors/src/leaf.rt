//! [`Leaf`], a code and a name.
ghost use Rattle.tls_codec_vectors.specs.Messages.{leaf_format, leaf_meets, leaf_plain};

use std::alloc::Global;
use tls_codec::{
    ByRef, Deserialize, DeserializeBytes, Error, Serialize, Sink, Size, Source, VLBytes,
};
use tls_codec_validate::{Rejected, Validate};

/// A code of two bytes, and then a name after a variable-length length.
///
/// ```rust
/// let name = VLBytes::from_array(alloc, &[0x07])?;
/// let leaf = Leaf { code: 1, name };
/// assert_eq!(rt; leaf.tls_serialize_detached(alloc)?.as_slice(), [0x00, 0x01, 0x01, 0x07].as_slice());
/// ```
#[derive(PartialEq, Drop)]
pub struct Leaf {
    pub code: u16,
    pub name: VLBytes,
}

impl Size for Leaf {
    ghost plain = { leaf_plain };

    ghost format = { leaf_format };

    fn tls_serialized_len(&self) -> usize {
        (ByRef(&self.code), ByRef(&self.name)).tls_serialized_len()
    }

    ghost lawful = { leaf_meets };
}

impl Serialize for Leaf {
    fn tls_serialize<W: Sink>(&self, writer: &mut W) -> Result<usize, Error> {
        (ByRef(&self.code), ByRef(&self.name)).tls_serialize(writer)
    }

    fn tls_serialize_into(&self, out: &mut Vec<u8>) -> Result<usize, Error> {
        (ByRef(&self.code), ByRef(&self.name)).tls_serialize_into(out)
    }
}

impl Deserialize for Leaf {
    ghost names = { ⟦<(u16, VLBytes) as Deserialize>⟧.names };

    /// Every error is that of a field.
    fn tls_deserialize<R: Source>(alloc: Global, src: &mut R) -> Result<Leaf, Error> {
        let (code, name) = <(u16, VLBytes)>::tls_deserialize(alloc, src)?;
        Ok(Leaf { code, name })
    }
}

impl DeserializeBytes for Leaf {
    ghost names = { ⟦<(u16, VLBytes) as DeserializeBytes>⟧.names };

    /// Every error is that of a field.
    fn tls_deserialize_bytes(alloc: Global, whole: &[u8]) -> Result<(Leaf, &[u8]), Error> {
        let ((code, name), rest) = <(u16, VLBytes)>::tls_deserialize_bytes(alloc, whole)?;
        Ok((Leaf { code, name }, rest))
    }
}

impl Validate for Leaf {
    ghost places = { ⟦<(u16, VLBytes) as Validate>⟧.places };

    fn tls_validate_prefix(whole: &[u8]) -> Result<&[u8], Rejected<'_>> {
        <(u16, VLBytes)>::tls_validate_prefix(whole)
    }
}
