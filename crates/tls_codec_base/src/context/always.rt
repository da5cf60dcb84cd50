//! [`Always`] and [`ByRef`]: parts that no context decides. [`ByRefIn`]: a borrowed part that a context does decide.
use crate::by_ref::ByRef;
use crate::context::traits::{DeserializeBytesFor, DeserializeFor, SerializeFor, SizeFor};
use crate::traits::{Deserialize, DeserializeBytes, Serialize, Size};
use std::alloc::Global;
use tls_codec_wire::{Error, Sink, Source};

/// A value that no context decides. It is read as it is everywhere, and written as a [`ByRef`].
#[derive(Drop)]
pub struct Always<T>(pub T);

impl<C: Size, T: Size> SizeFor<C> for Always<T> {
    ghost plain = { λ v. T.plain v.0 };

    ghost format_for = { λ c. T.format };

    fn tls_serialized_len_for(&self, _context: &C) -> usize {
        self.0.tls_serialized_len()
    }

    ghost lawful = { λ c. T.lawful };
}

impl<C: Size, T: Deserialize> DeserializeFor<C> for Always<T> {
    ghost names = { λ c. T.names };

    fn tls_deserialize_for<R: Source>(
        _context: &C,
        alloc: Global,
        bytes: &mut R,
    ) -> Result<Always<T>, Error> {
        let value = T::tls_deserialize(alloc, bytes)?;
        Ok(Always(value))
    }
}

impl<C: Size, T: DeserializeBytes> DeserializeBytesFor<C> for Always<T> {
    ghost names = { λ c. T.names };

    fn tls_deserialize_bytes_for<'a>(
        _context: &C,
        alloc: Global,
        bytes: &'a [u8],
    ) -> Result<(Always<T>, &'a [u8]), Error> {
        let (value, rest) = T::tls_deserialize_bytes(alloc, bytes)?;
        Ok((Always(value), rest))
    }
}

impl<'a, C: Size, T: Size> SizeFor<C> for ByRef<'a, T> {
    ghost plain = { λ v. T.plain v.0.now };

    ghost format_for = { λ c. T.format };

    fn tls_serialized_len_for(&self, _context: &C) -> usize {
        self.0.tls_serialized_len()
    }

    ghost lawful = { λ c. T.lawful };
}

impl<'a, C: Size, T: Serialize> SerializeFor<C> for ByRef<'a, T> {
    fn tls_serialize_for<W: Sink>(&self, _context: &C, writer: &mut W) -> Result<usize, Error> {
        self.0.tls_serialize(writer)
    }

    fn tls_serialize_into_for(&self, _context: &C, out: &mut Vec<u8>) -> Result<usize, Error> {
        self.0.tls_serialize_into(out)
    }
}

/// A borrowed value. It is written in a context as the value itself is there.
#[derive(Drop)]
pub struct ByRefIn<'a, T>(pub &'a T);

impl<'a, C: Size, T: SizeFor<C>> SizeFor<C> for ByRefIn<'a, T> {
    ghost plain = { λ v. T.plain v.0.now };

    ghost format_for = { T.format_for };

    fn tls_serialized_len_for(&self, context: &C) -> usize {
        self.0.tls_serialized_len_for(context)
    }

    ghost lawful = { T.lawful };
}

impl<'a, C: Size, T: SerializeFor<C>> SerializeFor<C> for ByRefIn<'a, T> {
    fn tls_serialize_for<W: Sink>(&self, context: &C, writer: &mut W) -> Result<usize, Error> {
        self.0.tls_serialize_for(context, writer)
    }

    fn tls_serialize_into_for(&self, context: &C, out: &mut Vec<u8>) -> Result<usize, Error> {
        self.0.tls_serialize_into_for(context, out)
    }
}
