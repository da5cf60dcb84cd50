//! `Vec<T>`, `&Vec<T>` and `&[T]`: the length of the content in bytes as a variable-length integer,
//! then the elements (RFC 9420, section 2.1.2).
ghost use Rattle.tls_codec_grammar.specs.Tree.{trees};
ghost use Rattle.tls_codec_grammar.specs.Format.{list_format};
ghost use Rattle.tls_codec_grammar.specs.laws.FormatLaws.{list_meets};
ghost use Rattle.tls_codec_base.specs.PartNames.{list_names, list_source_names};

use crate::counted;
use crate::traits::{Deserialize, DeserializeBytes, Serialize, SerializeBytes, Size};
use std::alloc::Global;
use tls_codec_wire::{Error, Sink, Source, TlsVarInt};

impl<T: Size> Size for Vec<T> {
    ghost plain = { λ v. trees T.plain v.items };

    ghost format = { list_format T.format };

    fn tls_serialized_len(&self) -> usize {
        counted::announced_len::<TlsVarInt, T>(self.as_slice())
    }

    ghost lawful = { list_meets T.lawful };
}

impl<T: Serialize> Serialize for Vec<T> {
    /// `InvalidVectorLength`: the elements have more bytes than the greatest length, and nothing
    /// was sent. Every other error is an element's or the sink's.
    fn tls_serialize<W: Sink>(&self, writer: &mut W) -> Result<usize, Error> {
        counted::write::<TlsVarInt, T, W>(writer, self.as_slice())
    }

    /// `InvalidVectorLength`: the elements have more bytes than the greatest length, or the vector
    /// would pass `isize::MAX` bytes. Every other error is an element's, or `OutOfMemory`.
    fn tls_serialize_into(&self, out: &mut Vec<u8>) -> Result<usize, Error> {
        counted::append::<TlsVarInt, T>(out, self.as_slice())
    }
}

impl<T: SerializeBytes> SerializeBytes for Vec<T> {
    fn tls_serialize_bytes(&self, alloc: Global) -> Result<Vec<u8>, Error> {
        counted::to_vec::<TlsVarInt, T>(alloc, self.as_slice())
    }
}

impl<T: Deserialize> Deserialize for Vec<T> {
    ghost names = { list_source_names T.format T.names };

    fn tls_deserialize<R: Source>(alloc: Global, bytes: &mut R) -> Result<Vec<T>, Error> {
        counted::read::<TlsVarInt, T, R>(alloc, bytes)
    }
}

impl<T: DeserializeBytes> DeserializeBytes for Vec<T> {
    ghost names = { list_names T.format T.names };

    fn tls_deserialize_bytes(alloc: Global, bytes: &[u8]) -> Result<(Vec<T>, &[u8]), Error> {
        counted::split::<TlsVarInt, T>(alloc, bytes)
    }
}

impl<T: Size> Size for &Vec<T> {
    ghost plain = { λ v. trees T.plain v.now.items };

    ghost format = { list_format T.format };

    fn tls_serialized_len(&self) -> usize {
        (**self).tls_serialized_len()
    }

    ghost lawful = { list_meets T.lawful };
}

impl<T: SerializeBytes> SerializeBytes for &Vec<T> {
    fn tls_serialize_bytes(&self, alloc: Global) -> Result<Vec<u8>, Error> {
        (**self).tls_serialize_bytes(alloc)
    }
}

impl<T: Size> Size for &[T] {
    ghost plain = { λ v. trees T.plain v.now };

    ghost format = { list_format T.format };

    fn tls_serialized_len(&self) -> usize {
        counted::announced_len::<TlsVarInt, T>(self)
    }

    ghost lawful = { list_meets T.lawful };
}

impl<T: Serialize> Serialize for &[T] {
    /// `InvalidVectorLength` is as for a `Vec<T>`.
    fn tls_serialize<W: Sink>(&self, writer: &mut W) -> Result<usize, Error> {
        counted::write::<TlsVarInt, T, W>(writer, self)
    }

    /// The errors are those of a `Vec<T>`.
    fn tls_serialize_into(&self, out: &mut Vec<u8>) -> Result<usize, Error> {
        counted::append::<TlsVarInt, T>(out, self)
    }
}

impl<T: SerializeBytes> SerializeBytes for &[T] {
    fn tls_serialize_bytes(&self, alloc: Global) -> Result<Vec<u8>, Error> {
        counted::to_vec::<TlsVarInt, T>(alloc, self)
    }
}
