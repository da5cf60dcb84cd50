//! `[u8; LEN]`: bytes that are encoded as they are (RFC 8446, section 3.4).
//!
//! The calls on the digits of a number serve them too.
ghost use Rattle.std.specs.Prelude.{◌≡◌, ◌<◌, length};
ghost use Rattle.std.proofs.Common.{arith};
ghost use Rattle.tls_codec_wire.specs.Transfer.{ReadRefused};
ghost use Rattle.tls_codec_wire.specs.declared.error.Error.TheVariants.{EndOfStream};
ghost use Rattle.tls_codec_grammar.specs.Tree.{number_trees};
ghost use Rattle.tls_codec_grammar.specs.Format.{array_format};
ghost use Rattle.tls_codec_grammar.specs.laws.FormatLaws.{array_meets};

use crate::traits::{Deserialize, DeserializeBytes, Serialize, SerializeBytes, Size};
use std::alloc::Global;
use tls_codec_grammar::digits::{
    append_digits, digits_vector, read_digits, split_digits, write_digits,
};
use tls_codec_wire::{Error, Sink, Source};

impl<const LEN: usize> Size for [u8; LEN] {
    ghost plain = { number_trees };

    ghost format = { array_format LEN };

    fn tls_serialized_len(&self) -> usize {
        LEN
    }

    fn tls_fixed_len() -> Option<usize> {
        Some(LEN)
    }

    ghost lawful = { array_meets LEN (Prim.omega (arith, LEN-fits)) };
}

impl<const LEN: usize> Serialize for [u8; LEN] {
    fn tls_serialize<W: Sink>(&self, writer: &mut W) -> Result<usize, Error> {
        let count = write_digits(writer, self)?;
        Ok(count)
    }

    #[inline(always)]
    fn tls_serialize_into(&self, out: &mut Vec<u8>) -> Result<usize, Error> {
        let count = append_digits(out, self)?;
        Ok(count)
    }
}

impl<const LEN: usize> SerializeBytes for [u8; LEN] {
    fn tls_serialize_bytes(&self, alloc: Global) -> Result<Vec<u8>, Error> {
        let bytes = digits_vector(alloc, self)?;
        Ok(bytes)
    }
}

impl<const LEN: usize> Deserialize for [u8; LEN] {
    ghost names = { ReadRefused LEN };

    /// `EndOfStream`: fewer than `LEN` bytes come. The empty array asks for none.
    #[inline(always)]
    fn tls_deserialize<R: Source>(_alloc: Global, bytes: &mut R) -> Result<[u8; LEN], Error> {
        match read_digits(bytes) {
            Ok(items) => Ok(items),
            Err(error) => Err(error),
        }
    }
}

impl<const LEN: usize> DeserializeBytes for [u8; LEN] {
    ghost names = { λ x e. (e ≡ EndOfStream) × (length x < LEN) };

    /// `EndOfStream`: there are fewer than `LEN` bytes.
    #[inline(always)]
    fn tls_deserialize_bytes(_alloc: Global, bytes: &[u8]) -> Result<([u8; LEN], &[u8]), Error> {
        match split_digits(bytes) {
            Ok(found) => Ok(found),
            Err(error) => Err(error),
        }
    }
}
