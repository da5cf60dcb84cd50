//! `u8`, the `uint8` of RFC 8446, section 3.3.
ghost use Rattle.std.specs.Prelude.{◌≡◌, ◌<◌, length};
ghost use Rattle.std.proofs.Common.{arith};
ghost use Rattle.tls_codec_wire.specs.Transfer.{ReadRefused};
ghost use Rattle.tls_codec_wire.specs.declared.error.Error.TheVariants.{EndOfStream};
ghost use Rattle.tls_codec_grammar.specs.Tree.{Number};
ghost use Rattle.tls_codec_grammar.specs.Format.{number_format};
ghost use Rattle.tls_codec_grammar.specs.laws.FormatLaws.{number_meets};

use super::runs::read_run;
use crate::lists::Turns;
use crate::traits::{Deserialize, DeserializeBytes, Serialize, SerializeBytes, Size};
use std::alloc::Global;
use tls_codec_grammar::digits::{digits_vector, read_digits, split_digits, write_digits};
use tls_codec_wire::{Bounded, Error, Sink, Source, write_all};

impl Size for u8 {
    ghost plain = { Number };

    ghost format = { number_format 1 };

    fn tls_serialized_len(&self) -> usize {
        1
    }

    fn tls_fixed_len() -> Option<usize> {
        Some(1)
    }

    /// The bytes are sent at once.
    fn tls_send_elements<W: Sink>(elements: &[u8], sink: &mut W) -> Result<Option<usize>, Error> {
        write_all(sink, elements)?;
        Ok(Some(elements.len()))
    }

    ghost lawful = { number_meets 1 (Prim.omega arith) };
}

impl Serialize for u8 {
    fn tls_serialize<W: Sink>(&self, writer: &mut W) -> Result<usize, Error> {
        write_digits(writer, &self.to_be_bytes())
    }

    #[inline(always)]
    fn tls_serialize_into(&self, out: &mut Vec<u8>) -> Result<usize, Error> {
        out.push(*self)?;
        Ok(1)
    }
}

impl SerializeBytes for u8 {
    fn tls_serialize_bytes(&self, alloc: Global) -> Result<Vec<u8>, Error> {
        digits_vector(alloc, &self.to_be_bytes())
    }
}

impl Deserialize for u8 {
    ghost names = { ReadRefused 1 };

    /// `EndOfStream`: the byte isn't there.
    #[inline(always)]
    fn tls_deserialize<R: Source>(_alloc: Global, bytes: &mut R) -> Result<u8, Error> {
        let digits = read_digits(bytes)?;
        Ok(u8::from_be_bytes(digits))
    }

    /// The bytes are read at once.
    fn tls_read_elements<R: Source>(
        alloc: Global,
        within: &mut Bounded<R>,
        turns: &mut Turns,
    ) -> Result<Option<Vec<u8>>, Error> {
        let Some(bytes) = read_run::<R, 1>(alloc, within, turns)? else {
            return Ok(None);
        };
        turns.turn_by(bytes.len());
        Ok(Some(bytes))
    }
}

impl DeserializeBytes for u8 {
    ghost names = { λ x e. (e ≡ EndOfStream) × (length x < 1) };

    /// `EndOfStream`: the byte isn't there.
    #[inline(always)]
    fn tls_deserialize_bytes(_alloc: Global, bytes: &[u8]) -> Result<(u8, &[u8]), Error> {
        let (digits, rest) = split_digits(bytes)?;
        Ok((u8::from_be_bytes(digits), rest))
    }

    /// The bytes are copied at once.
    #[inline(always)]
    fn tls_elements(alloc: Global, bytes: &[u8]) -> Result<Option<Vec<u8>>, Error> {
        if bytes.is_empty() {
            return Ok(None);
        }
        Ok(Some(Vec::from_slice(alloc, bytes)?))
    }
}

impl Size for &u8 {
    ghost plain = { λ n. Number n.now };

    ghost format = { number_format 1 };

    fn tls_serialized_len(&self) -> usize {
        (**self).tls_serialized_len()
    }

    ghost lawful = { number_meets 1 (Prim.omega arith) };
}

impl Serialize for &u8 {
    fn tls_serialize<W: Sink>(&self, writer: &mut W) -> Result<usize, Error> {
        (**self).tls_serialize(writer)
    }

    #[inline(always)]
    fn tls_serialize_into(&self, out: &mut Vec<u8>) -> Result<usize, Error> {
        (**self).tls_serialize_into(out)
    }
}

impl SerializeBytes for &u8 {
    fn tls_serialize_bytes(&self, alloc: Global) -> Result<Vec<u8>, Error> {
        (**self).tls_serialize_bytes(alloc)
    }
}
