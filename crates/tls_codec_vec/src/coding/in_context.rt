//! A vector whose elements are in a context, as `CertificateEntry certificate_list<0..2^24-1>` by the certificate's type
//! (RFC 8446, section 4.4.2).
ghost use Rattle.tls_codec_grammar.specs.Tree.{trees};
ghost use Rattle.tls_codec_grammar.specs.Format.{counted_list_format};
ghost use Rattle.tls_codec_grammar.specs.laws.FormatLaws.{counted_list_meets};
ghost use Rattle.tls_codec_base.specs.PartNames.{counted_list_names, counted_list_source_names};
ghost use Rattle.tls_codec_vec.specs.Contents.{elements_of};

use crate::list::TlsVec;
use std::alloc::Global;
use tls_codec_base::{
    DeserializeBytesFor, DeserializeFor, LengthField, SerializeFor, Size, SizeFor, counted,
};
use tls_codec_wire::{Error, Sink, Source};

impl<C: Size, F: LengthField, T: SizeFor<C>> SizeFor<C> for TlsVec<F, T> {
    ghost plain = { λ v. trees T.plain (elements_of v) };

    ghost format_for = { λ c. counted_list_format F.field (T.format_for c) };

    fn tls_serialized_len_for(&self, context: &C) -> usize {
        counted::announced_len_for::<C, F, T>(context, self.as_slice())
    }

    ghost lawful = { λ c. counted_list_meets F.lawful (T.lawful c) };
}

impl<C: Size, F: LengthField, T: SerializeFor<C>> SerializeFor<C> for TlsVec<F, T> {
    /// `InvalidVectorLength`: `F` doesn't hold the number of the elements' bytes, and nothing was
    /// sent. Every other error is an element's or the sink's.
    fn tls_serialize_for<W: Sink>(&self, context: &C, writer: &mut W) -> Result<usize, Error> {
        counted::write_for::<C, F, T, W>(context, writer, self.as_slice())
    }

    /// `InvalidVectorLength`: `F` doesn't hold the number of the elements' bytes, or the vector
    /// would pass `isize::MAX` bytes. Every other error is an element's, or `OutOfMemory`.
    fn tls_serialize_into_for(&self, context: &C, out: &mut Vec<u8>) -> Result<usize, Error> {
        counted::append_for::<C, F, T>(context, out, self.as_slice())
    }
}

impl<C: Size, F: LengthField, T: DeserializeFor<C>> DeserializeFor<C> for TlsVec<F, T> {
    ghost names = { λ c. counted_list_source_names F.field (T.format_for c) (T.names c) };

    /// `EndOfStream`: there is no whole length, or an element passes the end that it declares.
    /// `InvalidVectorLength`: `F` rejects the length, as one wider than needed or out of its bounds.
    /// `DecodingError("vector element consumed 0 bytes")`: an element takes no byte. Every other
    /// error is an element's, the source's, or `OutOfMemory`.
    fn tls_deserialize_for<R: Source>(
        context: &C,
        alloc: Global,
        bytes: &mut R,
    ) -> Result<TlsVec<F, T>, Error> {
        let elements = counted::read_for::<C, F, T, R>(context, alloc, bytes)?;
        Ok(TlsVec::new(elements))
    }
}

impl<C: Size, F: LengthField, T: DeserializeBytesFor<C>> DeserializeBytesFor<C> for TlsVec<F, T> {
    ghost names = { λ c. counted_list_names F.field (T.format_for c) (T.names c) };

    /// `EndOfStream`: there is no whole length.
    /// `InvalidVectorLength`: `F` rejects the length, as one wider than needed or out of its bounds.
    /// `DecodingError("elements do not fill the declared length")`: an element passes the end that
    /// it declares. `DecodingError("vector element consumed 0 bytes")`: an element takes no byte.
    /// Every other error is an element's, or `OutOfMemory`.
    fn tls_deserialize_bytes_for<'a>(
        context: &C,
        alloc: Global,
        bytes: &'a [u8],
    ) -> Result<(TlsVec<F, T>, &'a [u8]), Error> {
        let (elements, rest) = counted::split_for::<C, F, T>(context, alloc, bytes)?;
        Ok((TlsVec::new(elements), rest))
    }
}
