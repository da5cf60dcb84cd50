//! `Vec<T>` in a context: a list of elements that are all in the same one, such as
//! `CertificateEntry certificate_list<..>`, whose entries are of the certificate type that was
//! agreed on (RFC 8446, section 4.4.2).
ghost use Rattle.tls_codec_grammar.specs.Tree.{trees};
ghost use Rattle.tls_codec_grammar.specs.Format.{list_format};
ghost use Rattle.tls_codec_grammar.specs.laws.FormatLaws.{list_meets};
ghost use Rattle.tls_codec_base.specs.PartNames.{list_names, list_source_names};

use crate::context::traits::{DeserializeBytesFor, DeserializeFor, SerializeFor, SizeFor};
use crate::counted;
use crate::traits::Size;
use std::alloc::Global;
use tls_codec_wire::{Error, Sink, Source, TlsVarInt};

impl<C: Size, T: SizeFor<C>> SizeFor<C> for Vec<T> {
    ghost plain = { λ v. trees T.plain v.items };

    ghost format_for = { λ c. list_format (T.format_for c) };

    fn tls_serialized_len_for(&self, context: &C) -> usize {
        counted::announced_len_for::<C, TlsVarInt, T>(context, self.as_slice())
    }

    ghost lawful = { λ c. list_meets (T.lawful c) };
}

impl<C: Size, T: SerializeFor<C>> SerializeFor<C> for Vec<T> {
    /// `InvalidVectorLength`: the elements have more bytes than the greatest length, and nothing
    /// was sent. Every other error is an element's or the sink's.
    fn tls_serialize_for<W: Sink>(&self, context: &C, writer: &mut W) -> Result<usize, Error> {
        counted::write_for::<C, TlsVarInt, T, W>(context, writer, self.as_slice())
    }

    fn tls_serialize_into_for(&self, context: &C, out: &mut Vec<u8>) -> Result<usize, Error> {
        counted::append_for::<C, TlsVarInt, T>(context, out, self.as_slice())
    }
}

impl<C: Size, T: DeserializeFor<C>> DeserializeFor<C> for Vec<T> {
    ghost names = { λ c. list_source_names (T.format_for c) (T.names c) };

    fn tls_deserialize_for<R: Source>(
        context: &C,
        alloc: Global,
        bytes: &mut R,
    ) -> Result<Vec<T>, Error> {
        counted::read_for::<C, TlsVarInt, T, R>(context, alloc, bytes)
    }
}

impl<C: Size, T: DeserializeBytesFor<C>> DeserializeBytesFor<C> for Vec<T> {
    ghost names = { λ c. list_names (T.format_for c) (T.names c) };

    fn tls_deserialize_bytes_for<'a>(
        context: &C,
        alloc: Global,
        bytes: &'a [u8],
    ) -> Result<(Vec<T>, &'a [u8]), Error> {
        counted::split_for::<C, TlsVarInt, T>(context, alloc, bytes)
    }
}
