//! `(T, U, V)` in a context: the first part, then the second, then the third, each in the same one.
ghost use Rattle.tls_codec_grammar.specs.Tree.{Empty, Join};
ghost use Rattle.tls_codec_grammar.specs.Format.{triple_format};
ghost use Rattle.tls_codec_grammar.specs.laws.FormatLaws.{triple_meets};
ghost use Rattle.tls_codec_base.specs.PartNames.{fields_names, fields_source_names};

use crate::context::traits::{DeserializeBytesFor, DeserializeFor, SerializeFor, SizeFor};
use crate::traits::Size;
use std::alloc::Global;
use tls_codec_wire::{Error, Sink, Source};

impl<C: Size, T: SizeFor<C>, U: SizeFor<C>, V: SizeFor<C>> SizeFor<C> for (T, U, V) {
    ghost plain = { λ p. Join (T.plain p.0) (Join (U.plain p.1) (Join (V.plain p.2) Empty)) };

    ghost format_for = { λ c. triple_format (T.format_for c) (U.format_for c) (V.format_for c) };

    fn tls_serialized_len_for(&self, context: &C) -> usize {
        self.0
            .tls_serialized_len_for(context)
            .saturating_add(self.1.tls_serialized_len_for(context))
            .saturating_add(self.2.tls_serialized_len_for(context))
    }

    ghost lawful = { λ c. triple_meets (T.lawful c) (U.lawful c) (V.lawful c) };
}

impl<C: Size, T: SerializeFor<C>, U: SerializeFor<C>, V: SerializeFor<C>> SerializeFor<C>
    for (T, U, V) {
    fn tls_serialize_for<W: Sink>(&self, context: &C, writer: &mut W) -> Result<usize, Error> {
        let first = self.0.tls_serialize_for(context, writer)?;
        let second = self.1.tls_serialize_for(context, writer)?;
        let third = self.2.tls_serialize_for(context, writer)?;
        Ok(first.saturating_add(second).saturating_add(third))
    }
}

impl<C: Size, T: DeserializeFor<C>, U: DeserializeFor<C>, V: DeserializeFor<C>> DeserializeFor<C>
    for (T, U, V) {
    ghost names = { λ c. fields_source_names (T.format_for c) (T.names c)
        (fields_source_names (U.format_for c) (U.names c) (V.names c)) };

    /// Every error is that of a part.
    fn tls_deserialize_for<R: Source>(
        context: &C,
        alloc: Global,
        bytes: &mut R,
    ) -> Result<(T, U, V), Error> {
        let first = T::tls_deserialize_for(context, alloc, bytes)?;
        let second = U::tls_deserialize_for(context, alloc, bytes)?;
        let third = V::tls_deserialize_for(context, alloc, bytes)?;
        Ok((first, second, third))
    }
}

impl<
    C: Size,
    T: DeserializeBytesFor<C>,
    U: DeserializeBytesFor<C>,
    V: DeserializeBytesFor<C>,
> DeserializeBytesFor<C> for (T, U, V) {
    ghost names = { λ c. fields_names (T.format_for c) (T.names c)
        (fields_names (U.format_for c) (U.names c) (V.names c)) };

    /// Every error is that of a part.
    fn tls_deserialize_bytes_for<'a>(
        context: &C,
        alloc: Global,
        bytes: &'a [u8],
    ) -> Result<((T, U, V), &'a [u8]), Error> {
        let (first, rest) = T::tls_deserialize_bytes_for(context, alloc, bytes)?;
        let (second, rest) = U::tls_deserialize_bytes_for(context, alloc, rest)?;
        let (third, rest) = V::tls_deserialize_bytes_for(context, alloc, rest)?;
        Ok(((first, second, third), rest))
    }
}
