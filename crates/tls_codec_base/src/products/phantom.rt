//! `PhantomData<T>`: no parts, and so no bytes. Nothing is asked of `T`.
ghost use Rattle.tls_codec_grammar.specs.Tree.{Empty};
ghost use Rattle.tls_codec_grammar.specs.Format.{nothing_format};
ghost use Rattle.tls_codec_grammar.specs.laws.FormatLaws.{nothing_meets};

use crate::traits::{Deserialize, DeserializeBytes, Serialize, SerializeBytes, Size};
use std::alloc::Global;
use std::marker::PhantomData;
use tls_codec_wire::{Error, Sink, Source};

impl<T> Size for PhantomData<T> {
    ghost plain = { λ _. Empty };

    ghost format = { nothing_format };

    fn tls_serialized_len(&self) -> usize {
        0
    }

    fn tls_fixed_len() -> Option<usize> {
        Some(0)
    }

    ghost lawful = { nothing_meets };
}

impl<T> Serialize for PhantomData<T> {
    fn tls_serialize<W: Sink>(&self, _writer: &mut W) -> Result<usize, Error> {
        Ok(0)
    }
}

impl<T> SerializeBytes for PhantomData<T> {
    fn tls_serialize_bytes(&self, alloc: Global) -> Result<Vec<u8>, Error> {
        Ok(Vec::new(alloc))
    }
}

impl<T> Deserialize for PhantomData<T> {
    ghost names = { λ x old new e. ⊥ };

    /// Takes nothing and never fails.
    fn tls_deserialize<R: Source>(_alloc: Global, _bytes: &mut R) -> Result<PhantomData<T>, Error> {
        Ok(PhantomData)
    }
}

impl<T> DeserializeBytes for PhantomData<T> {
    ghost names = { λ x e. ⊥ };

    /// Takes nothing and never fails.
    fn tls_deserialize_bytes(
        _alloc: Global,
        bytes: &[u8],
    ) -> Result<(PhantomData<T>, &[u8]), Error> {
        Ok((PhantomData, bytes))
    }
}
