//! `U24`, the `uint24` of RFC 8446, section 3.3.
ghost use Rattle.std.specs.Prelude.{◌≡◌, ◌<◌, length};
ghost use Rattle.std.proofs.Common.{arith};
ghost use Rattle.tls_codec_wire.specs.Transfer.{ReadRefused};
ghost use Rattle.tls_codec_wire.specs.Uint24.{number_of};
ghost use Rattle.tls_codec_wire.specs.declared.error.Error.TheVariants.{EndOfStream};
ghost use Rattle.tls_codec_grammar.specs.Tree.{Number};
ghost use Rattle.tls_codec_grammar.specs.Format.{number_format};
ghost use Rattle.tls_codec_grammar.specs.laws.FormatLaws.{number_meets};

use super::groups::{HasDigits, send_run};
use super::runs::{elements_of, read_elements};
use crate::lists::Turns;
use crate::traits::{Deserialize, DeserializeBytes, Serialize, SerializeBytes, Size};
use std::alloc::Global;
use tls_codec_grammar::digits::{
    append_digits, digits_vector, read_digits, split_digits, write_digits,
};
use tls_codec_wire::{Bounded, Error, Sink, Source, U24};

impl Size for U24 {
    ghost plain = { λ n. Number (number_of n) };

    ghost format = { number_format 3 };

    fn tls_serialized_len(&self) -> usize {
        3
    }

    fn tls_fixed_len() -> Option<usize> {
        Some(3)
    }

    /// The numbers are sent in groups.
    fn tls_send_elements<W: Sink>(elements: &[U24], sink: &mut W) -> Result<Option<usize>, Error> {
        Ok(Some(send_run::<U24, W, 3>(elements, sink)?))
    }

    ghost lawful = { number_meets 3 (Prim.omega arith) };
}

impl HasDigits<3> for U24 {
    ghost number = { number_of };

    #[inline(always)]
    fn digits(&self) -> [u8; 3] {
        self.to_be_bytes()
    }

    #[inline(always)]
    fn of_digits(digits: &[u8; 3]) -> U24 {
        U24::from_be_bytes(*digits)
    }
}

impl Serialize for U24 {
    fn tls_serialize<W: Sink>(&self, writer: &mut W) -> Result<usize, Error> {
        write_digits(writer, &self.to_be_bytes())
    }

    #[inline(always)]
    fn tls_serialize_into(&self, out: &mut Vec<u8>) -> Result<usize, Error> {
        append_digits(out, &self.to_be_bytes())
    }
}

impl SerializeBytes for U24 {
    fn tls_serialize_bytes(&self, alloc: Global) -> Result<Vec<u8>, Error> {
        digits_vector(alloc, &self.to_be_bytes())
    }
}

impl Deserialize for U24 {
    ghost names = { ReadRefused 3 };

    /// `EndOfStream`: fewer than three bytes come.
    #[inline(always)]
    fn tls_deserialize<R: Source>(_alloc: Global, bytes: &mut R) -> Result<U24, Error> {
        let digits = read_digits(bytes)?;
        Ok(U24::from_be_bytes(digits))
    }

    /// The numbers are read at once.
    fn tls_read_elements<R: Source>(
        alloc: Global,
        within: &mut Bounded<R>,
        turns: &mut Turns,
    ) -> Result<Option<Vec<U24>>, Error> {
        read_elements::<U24, R, 3>(alloc, within, turns)
    }
}

impl DeserializeBytes for U24 {
    ghost names = { λ x e. (e ≡ EndOfStream) × (length x < 3) };

    /// `EndOfStream`: there are fewer than three bytes.
    #[inline(always)]
    fn tls_deserialize_bytes(_alloc: Global, bytes: &[u8]) -> Result<(U24, &[u8]), Error> {
        let (digits, rest) = split_digits(bytes)?;
        Ok((U24::from_be_bytes(digits), rest))
    }

    /// The numbers are read at once.
    fn tls_elements(alloc: Global, bytes: &[u8]) -> Result<Option<Vec<U24>>, Error> {
        elements_of::<U24, 3>(alloc, bytes)
    }
}

impl Size for &U24 {
    ghost plain = { λ n. Number (number_of n.now) };

    ghost format = { number_format 3 };

    fn tls_serialized_len(&self) -> usize {
        (**self).tls_serialized_len()
    }

    ghost lawful = { number_meets 3 (Prim.omega arith) };
}

impl Serialize for &U24 {
    fn tls_serialize<W: Sink>(&self, writer: &mut W) -> Result<usize, Error> {
        (**self).tls_serialize(writer)
    }

    #[inline(always)]
    fn tls_serialize_into(&self, out: &mut Vec<u8>) -> Result<usize, Error> {
        (**self).tls_serialize_into(out)
    }
}

impl SerializeBytes for &U24 {
    fn tls_serialize_bytes(&self, alloc: Global) -> Result<Vec<u8>, Error> {
        (**self).tls_serialize_bytes(alloc)
    }
}
