//! [`Then`]: a first part, and a second one whose format the first part's value decides (RFC 8446, section 3.8).
ghost use Rattle.tls_codec_grammar.specs.Tree.{Join};
ghost use Rattle.tls_codec_grammar.specs.Contexts.{then_format};
ghost use Rattle.tls_codec_base.specs.ContextNames.{then_names, then_source_names};
ghost use Rattle.tls_codec_grammar.specs.laws.ThenLaws.{then_meets};

use crate::context::traits::{DeserializeBytesFor, DeserializeFor, SizeFor};
use crate::traits::{Deserialize, DeserializeBytes, Size};
use std::alloc::Global;
use tls_codec_wire::{Error, Source};

/// A first part, and the rest, which is read with the first part as its context.
///
/// A decoder of a message in which one part decides the format of a later one reads this pair, and
/// takes it apart. It is written as [`ByRefThen`](crate::ByRefThen) or
/// [`ByRefThen2`](crate::ByRefThen2).
#[derive(Drop)]
pub struct Then<T, U> {
    /// The first part.
    pub first: T,
    /// What the first part decides.
    pub rest: U,
}

impl<T: Size, U: SizeFor<T>> Size for Then<T, U> {
    ghost plain = { λ v. Join (T.plain v.first) (U.plain v.rest) };

    ghost format = { then_format T.format U.format_for };

    fn tls_serialized_len(&self) -> usize {
        self.first
            .tls_serialized_len()
            .saturating_add(self.rest.tls_serialized_len_for(&self.first))
    }

    ghost lawful = { then_meets T.lawful U.lawful };
}

impl<T: Deserialize, U: DeserializeFor<T>> Deserialize for Then<T, U> {
    ghost names = { then_source_names T.format T.names U.names };

    fn tls_deserialize<R: Source>(alloc: Global, src: &mut R) -> Result<Then<T, U>, Error> {
        let first = T::tls_deserialize(alloc, src)?;
        let rest = U::tls_deserialize_for(&first, alloc, src)?;
        Ok(Then { first, rest })
    }
}

impl<T: DeserializeBytes, U: DeserializeBytesFor<T>> DeserializeBytes for Then<T, U> {
    ghost names = { then_names T.format T.names U.names };

    fn tls_deserialize_bytes(alloc: Global, whole: &[u8]) -> Result<(Then<T, U>, &[u8]), Error> {
        let (first, rest) = T::tls_deserialize_bytes(alloc, whole)?;
        let (second, left) = U::tls_deserialize_bytes_for(&first, alloc, rest)?;
        Ok((
            Then {
                first,
                rest: second,
            },
            left,
        ))
    }
}
