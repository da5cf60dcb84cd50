//! `(T, U)`: the first part, then the second.
ghost use Rattle.tls_codec_grammar.specs.Tree.{Empty, Join};
ghost use Rattle.tls_codec_grammar.specs.Format.{pair_format};
ghost use Rattle.tls_codec_grammar.specs.laws.FormatLaws.{pair_meets};
ghost use Rattle.tls_codec_base.specs.PartNames.{fields_names, fields_source_names};

use crate::traits::{Deserialize, DeserializeBytes, Serialize, Size};
use std::alloc::Global;
use tls_codec_wire::{Error, Sink, Source};

impl<T: Size, U: Size> Size for (T, U) {
    ghost plain = { λ p. Join (T.plain p.0) (Join (U.plain p.1) Empty) };

    ghost format = { pair_format T.format U.format };

    fn tls_serialized_len(&self) -> usize {
        self.0
            .tls_serialized_len()
            .saturating_add(self.1.tls_serialized_len())
    }

    ghost lawful = { pair_meets T.lawful U.lawful };
}

impl<T: Serialize, U: Serialize> Serialize for (T, U) {
    fn tls_serialize<W: Sink>(&self, writer: &mut W) -> Result<usize, Error> {
        let first = self.0.tls_serialize(writer)?;
        let second = self.1.tls_serialize(writer)?;
        Ok(first.saturating_add(second))
    }

    fn tls_serialize_into(&self, out: &mut Vec<u8>) -> Result<usize, Error> {
        let at = out.len();
        let first = self.0.tls_serialize_into(out)?;
        match self.1.tls_serialize_into(out) {
            Ok(second) => Ok(first.saturating_add(second)),
            Err(error) => {
                out.truncate(at);
                Err(error)
            }
        }
    }
}

impl<T: Deserialize, U: Deserialize> Deserialize for (T, U) {
    ghost names = { fields_source_names T.format T.names U.names };

    /// Every error is that of a part.
    fn tls_deserialize<R: Source>(alloc: Global, bytes: &mut R) -> Result<(T, U), Error> {
        let first = T::tls_deserialize(alloc, bytes)?;
        let second = U::tls_deserialize(alloc, bytes)?;
        Ok((first, second))
    }
}

impl<T: DeserializeBytes, U: DeserializeBytes> DeserializeBytes for (T, U) {
    ghost names = { fields_names T.format T.names U.names };

    /// Every error is that of a part.
    fn tls_deserialize_bytes(alloc: Global, bytes: &[u8]) -> Result<((T, U), &[u8]), Error> {
        let (first, rest) = T::tls_deserialize_bytes(alloc, bytes)?;
        let (second, rest) = U::tls_deserialize_bytes(alloc, rest)?;
        Ok(((first, second), rest))
    }
}
