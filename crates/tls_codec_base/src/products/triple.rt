//! `(T, U, V)`: the first part, then the second, then the third.
ghost use Rattle.tls_codec_grammar.specs.Tree.{Empty, Join};
ghost use Rattle.tls_codec_grammar.specs.Format.{triple_format};
ghost use Rattle.tls_codec_grammar.specs.laws.FormatLaws.{triple_meets};
ghost use Rattle.tls_codec_base.specs.PartNames.{fields_names, fields_source_names};

use crate::traits::{Deserialize, DeserializeBytes, Serialize, Size};
use std::alloc::Global;
use tls_codec_wire::{Error, Sink, Source};

impl<T: Size, U: Size, V: Size> Size for (T, U, V) {
    ghost plain = { λ p. Join (T.plain p.0) (Join (U.plain p.1) (Join (V.plain p.2) Empty)) };

    ghost format = { triple_format T.format U.format V.format };

    fn tls_serialized_len(&self) -> usize {
        self.0
            .tls_serialized_len()
            .saturating_add(self.1.tls_serialized_len())
            .saturating_add(self.2.tls_serialized_len())
    }

    ghost lawful = { triple_meets T.lawful U.lawful V.lawful };
}

impl<T: Serialize, U: Serialize, V: Serialize> Serialize for (T, U, V) {
    fn tls_serialize<W: Sink>(&self, writer: &mut W) -> Result<usize, Error> {
        let first = self.0.tls_serialize(writer)?;
        let second = self.1.tls_serialize(writer)?;
        let third = self.2.tls_serialize(writer)?;
        Ok(first.saturating_add(second).saturating_add(third))
    }

    fn tls_serialize_into(&self, out: &mut Vec<u8>) -> Result<usize, Error> {
        let at = out.len();
        let first = self.0.tls_serialize_into(out)?;
        let second = match self.1.tls_serialize_into(out) {
            Ok(second) => second,
            Err(error) => {
                out.truncate(at);
                return Err(error);
            }
        };
        match self.2.tls_serialize_into(out) {
            Ok(third) => Ok(first.saturating_add(second).saturating_add(third)),
            Err(error) => {
                out.truncate(at);
                Err(error)
            }
        }
    }
}

impl<T: Deserialize, U: Deserialize, V: Deserialize> Deserialize for (T, U, V) {
    ghost names = { fields_source_names T.format T.names
        (fields_source_names U.format U.names V.names) };

    /// Every error is that of a part.
    fn tls_deserialize<R: Source>(alloc: Global, bytes: &mut R) -> Result<(T, U, V), Error> {
        let first = T::tls_deserialize(alloc, bytes)?;
        let second = U::tls_deserialize(alloc, bytes)?;
        let third = V::tls_deserialize(alloc, bytes)?;
        Ok((first, second, third))
    }
}

impl<T: DeserializeBytes, U: DeserializeBytes, V: DeserializeBytes> DeserializeBytes for (T, U, V) {
    ghost names = { fields_names T.format T.names (fields_names U.format U.names V.names) };

    /// Every error is that of a part.
    fn tls_deserialize_bytes(alloc: Global, bytes: &[u8]) -> Result<((T, U, V), &[u8]), Error> {
        let (first, rest) = T::tls_deserialize_bytes(alloc, bytes)?;
        let (second, rest) = U::tls_deserialize_bytes(alloc, rest)?;
        let (third, rest) = V::tls_deserialize_bytes(alloc, rest)?;
        Ok(((first, second, third), rest))
    }
}
