//! [`Alone`]: elements that no context decides.
use crate::lists::Turns;
use crate::lists::engines::coding::{ElementCoding, ElementReader, ElementSplitter, ElementWriter};
use crate::traits::{Deserialize, DeserializeBytes, Serialize, Size};
use std::alloc::Global;
use tls_codec_wire::{Bounded, Error, Sink, Source};

/// Elements are coded as they are everywhere.
#[derive(Drop)]
pub(crate) struct Alone;

impl<T: Size> ElementCoding<T> for Alone {
    ghost plain = { T.plain };

    ghost format = { λ coding. T.format };

    fn element_len(&self, element: &T) -> usize {
        element.tls_serialized_len()
    }

    fn fixed_len(&self) -> Option<usize> {
        T::tls_fixed_len()
    }

    fn send_at_once<W: Sink>(&self, elements: &[T], sink: &mut W) -> Result<Option<usize>, Error> {
        T::tls_send_elements(elements, sink)
    }

    ghost lawful = { λ coding. T.lawful };
}

impl<T: Serialize> ElementWriter<T> for Alone {
    fn write_element<W: Sink>(&self, element: &T, sink: &mut W) -> Result<usize, Error> {
        element.tls_serialize(sink)
    }

    fn append_element(&self, element: &T, out: &mut Vec<u8>) -> Result<usize, Error> {
        element.tls_serialize_into(out)
    }
}

impl<T: Deserialize> ElementReader<T> for Alone {
    ghost names = { λ coding. T.names };

    fn read_element<R: Source>(&self, alloc: Global, bytes: &mut R) -> Result<T, Error> {
        T::tls_deserialize(alloc, bytes)
    }

    fn read_at_once<R: Source>(
        &self,
        alloc: Global,
        within: &mut Bounded<R>,
        turns: &mut Turns,
    ) -> Result<Option<Vec<T>>, Error> {
        T::tls_read_elements(alloc, within, turns)
    }
}

impl<T: DeserializeBytes> ElementSplitter<T> for Alone {
    ghost names = { λ coding. T.names };

    fn split_element<'a>(&self, alloc: Global, bytes: &'a [u8]) -> Result<(T, &'a [u8]), Error> {
        T::tls_deserialize_bytes(alloc, bytes)
    }

    fn split_at_once(&self, alloc: Global, bytes: &[u8]) -> Result<Option<Vec<T>>, Error> {
        T::tls_elements(alloc, bytes)
    }
}
