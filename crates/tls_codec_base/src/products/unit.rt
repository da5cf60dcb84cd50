//! `()`: no parts, and so no bytes.
ghost use Rattle.tls_codec_grammar.specs.Tree.{Empty};
ghost use Rattle.tls_codec_grammar.specs.Format.{nothing_format};
ghost use Rattle.tls_codec_grammar.specs.laws.FormatLaws.{nothing_meets};

use crate::traits::{Deserialize, DeserializeBytes, Serialize, Size};
use std::alloc::Global;
use tls_codec_wire::{Error, Sink, Source};

impl Size for () {
    ghost plain = { λ _. Empty };

    ghost format = { nothing_format };

    fn tls_serialized_len(&self) -> usize {
        0
    }

    fn tls_fixed_len() -> Option<usize> {
        Some(0)
    }

    ghost lawful = { nothing_meets };
}

impl Serialize for () {
    fn tls_serialize<W: Sink>(&self, _writer: &mut W) -> Result<usize, Error> {
        Ok(0)
    }
}

impl Deserialize for () {
    ghost names = { λ x old new e. ⊥ };

    /// Takes nothing and never fails.
    fn tls_deserialize<R: Source>(_alloc: Global, _bytes: &mut R) -> Result<(), Error> {
        Ok(())
    }
}

impl DeserializeBytes for () {
    ghost names = { λ x e. ⊥ };

    /// Takes nothing and never fails.
    fn tls_deserialize_bytes(_alloc: Global, bytes: &[u8]) -> Result<((), &[u8]), Error> {
        Ok(((), bytes))
    }
}
