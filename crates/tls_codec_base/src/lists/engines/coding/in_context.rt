//! [`In`]: elements that a context decides.
use crate::context::{DeserializeBytesFor, DeserializeFor, SerializeFor, SizeFor};
use crate::lists::Turns;
use crate::lists::engines::coding::{ElementCoding, ElementReader, ElementSplitter, ElementWriter};
use crate::traits::Size;
use std::alloc::Global;
use tls_codec_wire::{Bounded, Error, Sink, Source};

/// Elements are coded in this context, one by one.
#[derive(Drop)]
pub(crate) struct In<'a, C>(pub &'a C);

impl<'a, C: Size, T: SizeFor<C>> ElementCoding<T> for In<'a, C> {
    ghost plain = { T.plain };

    ghost format = { λ coding. T.format_for (C.plain coding.0.now) };

    fn element_len(&self, element: &T) -> usize {
        element.tls_serialized_len_for(self.0)
    }

    fn fixed_len(&self) -> Option<usize> {
        None
    }

    fn send_at_once<W: Sink>(
        &self,
        _elements: &[T],
        _sink: &mut W,
    ) -> Result<Option<usize>, Error> {
        Ok(None)
    }

    ghost lawful = { λ coding. T.lawful (C.plain coding.0.now) };
}

impl<'a, C: Size, T: SerializeFor<C>> ElementWriter<T> for In<'a, C> {
    fn write_element<W: Sink>(&self, element: &T, sink: &mut W) -> Result<usize, Error> {
        element.tls_serialize_for(self.0, sink)
    }

    fn append_element(&self, element: &T, out: &mut Vec<u8>) -> Result<usize, Error> {
        element.tls_serialize_into_for(self.0, out)
    }
}

impl<'a, C: Size, T: DeserializeFor<C>> ElementReader<T> for In<'a, C> {
    ghost names = { λ coding. T.names (C.plain coding.0.now) };

    fn read_element<R: Source>(&self, alloc: Global, bytes: &mut R) -> Result<T, Error> {
        T::tls_deserialize_for(self.0, alloc, bytes)
    }

    fn read_at_once<R: Source>(
        &self,
        _alloc: Global,
        _within: &mut Bounded<R>,
        _turns: &mut Turns,
    ) -> Result<Option<Vec<T>>, Error> {
        Ok(None)
    }
}

impl<'a, C: Size, T: DeserializeBytesFor<C>> ElementSplitter<T> for In<'a, C> {
    ghost names = { λ coding. T.names (C.plain coding.0.now) };

    fn split_element<'b>(&self, alloc: Global, bytes: &'b [u8]) -> Result<(T, &'b [u8]), Error> {
        T::tls_deserialize_bytes_for(self.0, alloc, bytes)
    }

    fn split_at_once(&self, _alloc: Global, _bytes: &[u8]) -> Result<Option<Vec<T>>, Error> {
        Ok(None)
    }
}
