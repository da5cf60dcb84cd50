//! [`ByRef`], a value of any type that is written as it is.
use crate::traits::{Serialize, SerializeBytes, Size};
use std::alloc::Global;
use tls_codec_wire::{Error, Sink};

/// A borrowed value, encoded as the value itself is. With it a message is encoded as a tuple of its
/// fields, and nothing is copied.
#[derive(Drop)]
pub struct ByRef<'a, T>(pub &'a T);

impl<'a, T: Size> Size for ByRef<'a, T> {
    ghost plain = { λ v. T.plain v.0.now };

    ghost format = { T.format };

    fn tls_serialized_len(&self) -> usize {
        self.0.tls_serialized_len()
    }

    ghost lawful = { T.lawful };
}

impl<'a, T: Serialize> Serialize for ByRef<'a, T> {
    fn tls_serialize<W: Sink>(&self, writer: &mut W) -> Result<usize, Error> {
        self.0.tls_serialize(writer)
    }

    #[inline(always)]
    fn tls_serialize_into(&self, out: &mut Vec<u8>) -> Result<usize, Error> {
        self.0.tls_serialize_into(out)
    }
}

impl<'a, T: SerializeBytes> SerializeBytes for ByRef<'a, T> {
    fn tls_serialize_bytes(&self, alloc: Global) -> Result<Vec<u8>, Error> {
        self.0.tls_serialize_bytes(alloc)
    }
}
