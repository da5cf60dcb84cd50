//! [`ByRefThen`] and [`ByRefThen2`]: what [`Then`](crate::Then) is written as.
ghost use Rattle.tls_codec_grammar.specs.Tree.{Join};
ghost use Rattle.tls_codec_base.specs.OwnMessages.{pair_format, pair_meets, pair_tree};
ghost use Rattle.tls_codec_grammar.specs.Contexts.{then_format};
ghost use Rattle.tls_codec_grammar.specs.laws.ThenLaws.{then_meets};

use crate::context::traits::{SerializeFor, SizeFor};
use crate::traits::{Serialize, Size};
use tls_codec_wire::{Error, Sink};

/// The pair [`Then<T, U>`](crate::Then) of a borrowed first part, as which a message is written.
///
/// `tls_serialize` sends the parts before one that doesn't fit. `tls_serialize_into` leaves a vector as it was.
#[derive(Drop)]
pub struct ByRefThen<'a, T, U> {
    /// The first part.
    pub first: &'a T,
    /// What the first part decides.
    pub rest: U,
}

impl<'a, T: Size, U: SizeFor<T>> Size for ByRefThen<'a, T, U> {
    ghost plain = { λ v. Join (T.plain v.first.now) (U.plain v.rest) };

    ghost format = { then_format T.format U.format_for };

    fn tls_serialized_len(&self) -> usize {
        self.first
            .tls_serialized_len()
            .saturating_add(self.rest.tls_serialized_len_for(self.first))
    }

    fn tls_send_elements<W: Sink>(
        _elements: &[ByRefThen<'a, T, U>],
        _sink: &mut W,
    ) -> Result<Option<usize>, Error> {
        Ok(None)
    }

    ghost lawful = { then_meets T.lawful U.lawful };
}

impl<'a, T: Serialize, U: SerializeFor<T>> Serialize for ByRefThen<'a, T, U> {
    fn tls_serialize<W: Sink>(&self, writer: &mut W) -> Result<usize, Error> {
        let first = self.first.tls_serialize(writer)?;
        let rest = self.rest.tls_serialize_for(self.first, writer)?;
        Ok(first.saturating_add(rest))
    }

    fn tls_serialize_into(&self, out: &mut Vec<u8>) -> Result<usize, Error> {
        let at = out.len();
        let first = self.first.tls_serialize_into(out)?;
        match self.rest.tls_serialize_into_for(self.first, out) {
            Ok(rest) => Ok(first.saturating_add(rest)),
            Err(error) => {
                out.truncate(at);
                Err(error)
            }
        }
    }
}

/// The pair [`Then<T, (A, B)>`](crate::Then) of a borrowed first part, and of two parts that may
/// each be borrowed.
///
/// `tls_serialize` sends the parts before one that doesn't fit. `tls_serialize_into` leaves a vector as it was.
#[derive(Drop)]
pub struct ByRefThen2<'a, T, A, B> {
    /// The first part.
    pub first: &'a T,
    /// The first part of the rest.
    pub second: A,
    /// The second part of the rest.
    pub third: B,
}

impl<'a, T: Size, A: SizeFor<T>, B: SizeFor<T>> Size for ByRefThen2<'a, T, A, B> {
    ghost plain = { λ v. Join (T.plain v.first.now)
        (pair_tree (A.plain v.second) (B.plain v.third)) };

    ghost format = { then_format T.format (λ c. pair_format (A.format_for c) (B.format_for c)) };

    fn tls_serialized_len(&self) -> usize {
        self.first.tls_serialized_len().saturating_add(
            self.second
                .tls_serialized_len_for(self.first)
                .saturating_add(self.third.tls_serialized_len_for(self.first)),
        )
    }

    fn tls_send_elements<W: Sink>(
        _elements: &[ByRefThen2<'a, T, A, B>],
        _sink: &mut W,
    ) -> Result<Option<usize>, Error> {
        Ok(None)
    }

    ghost lawful = { then_meets T.lawful (λ c. pair_meets (A.lawful c) (B.lawful c)) };
}

impl<'a, T: Serialize, A: SerializeFor<T>, B: SerializeFor<T>> Serialize
    for ByRefThen2<'a, T, A, B> {
    fn tls_serialize<W: Sink>(&self, writer: &mut W) -> Result<usize, Error> {
        let first = self.first.tls_serialize(writer)?;
        let second = self.second.tls_serialize_for(self.first, writer)?;
        let third = self.third.tls_serialize_for(self.first, writer)?;
        Ok(first.saturating_add(second.saturating_add(third)))
    }

    fn tls_serialize_into(&self, out: &mut Vec<u8>) -> Result<usize, Error> {
        let at = out.len();
        match self.tls_serialize(out) {
            Ok(length) => Ok(length),
            Err(error) => {
                out.truncate(at);
                Err(error)
            }
        }
    }
}
