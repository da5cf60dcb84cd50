//! `Box<T>`: its encoding is that of its content. A decoder takes memory for it.
ghost use Rattle.std.specs.Prelude.{◌≡◌, IfErr, IfOk};
ghost use Rattle.tls_codec_wire.specs.declared.error.Error.TheVariants.{OutOfMemory};
ghost use Rattle.tls_codec_grammar.specs.Format.{with_memory};
ghost use Rattle.tls_codec_grammar.specs.laws.FormatLaws.{with_memory_meets};
ghost use Rattle.tls_codec_base.specs.PartNames.{box_names, box_source_names};

use crate::traits::{Deserialize, DeserializeBytes, Serialize, SerializeBytes, Size};
use std::alloc::Global;
use tls_codec_wire::{Error, Sink, Source};

impl<T: Size> Size for Box<T> {
    ghost plain = { λ b. T.plain b.value };

    ghost format = { with_memory T.format };

    fn tls_serialized_len(&self) -> usize {
        (**self).tls_serialized_len()
    }

    ghost lawful = { with_memory_meets T.lawful };
}

impl<T: Serialize> Serialize for Box<T> {
    fn tls_serialize<W: Sink>(&self, writer: &mut W) -> Result<usize, Error> {
        (**self).tls_serialize(writer)
    }

    fn tls_serialize_into(&self, out: &mut Vec<u8>) -> Result<usize, Error> {
        (**self).tls_serialize_into(out)
    }
}

impl<T: SerializeBytes> SerializeBytes for Box<T> {
    fn tls_serialize_bytes(&self, alloc: Global) -> Result<Vec<u8>, Error> {
        (**self).tls_serialize_bytes(alloc)
    }
}

impl<T: Deserialize> Deserialize for Box<T> {
    ghost names = { box_source_names T.format T.names };

    /// `OutOfMemory`: allocation of the box failed. Every other error is the content's.
    fn tls_deserialize<R: Source>(alloc: Global, bytes: &mut R) -> Result<Box<T>, Error> {
        let content = T::tls_deserialize(alloc, bytes)?;
        boxed(alloc, content)
    }
}

impl<T: DeserializeBytes> DeserializeBytes for Box<T> {
    ghost names = { box_names T.format T.names };

    /// `OutOfMemory`: allocation of the box failed. Every other error is the content's.
    fn tls_deserialize_bytes(alloc: Global, bytes: &[u8]) -> Result<(Box<T>, &[u8]), Error> {
        let (content, rest) = T::tls_deserialize_bytes(alloc, bytes)?;
        let content = boxed(alloc, content)?;
        Ok((content, rest))
    }
}

// The value in a box.
fn boxed<T: Drop>(alloc: Global, value: T) -> Result<Box<T>, Error>
    ensures ok { IfOk result (λ b. b.value ≡ value) }
    ensures err { IfErr result (λ e. e ≡ OutOfMemory) }
{
    Ok(Box::new(alloc, value)?)
}
