//! [`When`]: a payload that is there if a context says so, as `case commit: MAC confirmation_tag;`
//! of a select whose tag is elsewhere (RFC 9420, section 6.1).
ghost use Rattle.std.specs.Prelude.{◌≡◌, ℕ, Bool, false, is_none, is_some, if◌then◌else◌, List};
ghost use Rattle.tls_codec_grammar.specs.Grammar.{Direction};
ghost use Rattle.tls_codec_grammar.specs.Tree.{Tree, option_plain};
ghost use Rattle.tls_codec_grammar.specs.Contexts.{present, present_format};
ghost use Rattle.tls_codec_grammar.specs.laws.ContextLaws.{present_meets};

use crate::context::present::{
    append_present, fits_condition, present_len, read_present, split_present, write_present,
};
use crate::context::traits::{DeserializeBytesFor, DeserializeFor, SerializeFor, SizeFor};
use crate::traits::{Deserialize, DeserializeBytes, Serialize, Size};
use std::alloc::Global;
use std::marker::PhantomData;
use tls_codec_wire::{Error, Sink, Source};

/// What a context says of a payload: whether it is there.
///
/// The type stands for a case of a select, and no value of it is made.
pub trait Condition<C: Size> {
    // Whether it is there, by what the context stands for.
    ghost holds: { Tree → Bool };

    /// Whether the payload is there in this context.
    fn test(context: &C) -> bool
        ensures { result ≡ holds (C.plain context.now) };
}

/// A payload that is there exactly if the condition `K` holds in the context. No byte shows it.
#[derive(Drop)]
pub struct When<K, T> {
    /// The payload.
    pub value: Option<T>,
    /// The condition.
    pub condition: PhantomData<K>,
}

impl<K, T: Size> When<K, T> {
    /// Whether the payload is there just if the context asks for it. A value that doesn't fit has no encoding in this
    /// context.
    pub fn fits<C: Size>(&self, context: &C) -> bool
    where
        K: Condition<C>,
        ensures fits { result ≡ (if K.holds (C.plain context.now)
            then is_some self.now.value
            else is_none self.now.value) }
        ensures unfit { result ≡ false
            → (d : Direction)
            → (bytes : List ℕ)
            → present (K.holds (C.plain context.now)) T.format.spells d bytes
            (option_plain T.plain self.now.value)
            → ⊥ }
    {
        fits_condition(K::test(context), &self.value)
    }
}

impl<C: Size, K: Condition<C>, T: Size> SizeFor<C> for When<K, T> {
    ghost plain = { λ v. option_plain T.plain v.value };

    ghost format_for = { λ c. present_format (K.holds c) T.format };

    fn tls_serialized_len_for(&self, _context: &C) -> usize {
        present_len(&self.value)
    }

    ghost lawful = { λ c. present_meets (K.holds c) T.lawful };
}

impl<C: Size, K: Condition<C>, T: Deserialize> DeserializeFor<C> for When<K, T> {
    ghost names = { λ c. T.names };

    fn tls_deserialize_for<R: Source>(
        context: &C,
        alloc: Global,
        bytes: &mut R,
    ) -> Result<When<K, T>, Error> {
        let there = K::test(context);
        let value = read_present(there, alloc, bytes)?;
        Ok(When {
            value,
            condition: PhantomData,
        })
    }
}

impl<C: Size, K: Condition<C>, T: DeserializeBytes> DeserializeBytesFor<C> for When<K, T> {
    ghost names = { λ c. T.names };

    fn tls_deserialize_bytes_for<'a>(
        context: &C,
        alloc: Global,
        bytes: &'a [u8],
    ) -> Result<(When<K, T>, &'a [u8]), Error> {
        let there = K::test(context);
        let (value, rest) = split_present(there, alloc, bytes)?;
        Ok((
            When {
                value,
                condition: PhantomData,
            },
            rest,
        ))
    }
}

/// The same of a payload that is borrowed, as which a message is written.
///
/// `EncodingError("value does not fit its context")`: the payload is missing, or is there and should not be.
#[derive(Drop)]
pub struct ByRefWhen<'a, K, T> {
    /// The payload.
    pub value: &'a Option<T>,
    /// The condition.
    pub condition: PhantomData<K>,
}

impl<'a, K, T: Size> ByRefWhen<'a, K, T> {
    /// Whether the payload is there just if the context asks for it: the test of a message before it is sent. A value
    /// that doesn't fit has no encoding in this context.
    pub fn fits<C: Size>(&self, context: &C) -> bool
    where
        K: Condition<C>,
        ensures fits { result ≡ (if K.holds (C.plain context.now)
            then is_some self.now.value.now
            else is_none self.now.value.now) }
        ensures unfit { result ≡ false
            → (d : Direction)
            → (bytes : List ℕ)
            → present (K.holds (C.plain context.now)) T.format.spells d bytes
            (option_plain T.plain self.now.value.now)
            → ⊥ }
    {
        fits_condition(K::test(context), self.value)
    }
}

impl<'a, C: Size, K: Condition<C>, T: Size> SizeFor<C> for ByRefWhen<'a, K, T> {
    ghost plain = { λ v. option_plain T.plain v.value.now };

    ghost format_for = { λ c. present_format (K.holds c) T.format };

    fn tls_serialized_len_for(&self, _context: &C) -> usize {
        present_len(self.value)
    }

    ghost lawful = { λ c. present_meets (K.holds c) T.lawful };
}

impl<'a, C: Size, K: Condition<C>, T: Serialize> SerializeFor<C> for ByRefWhen<'a, K, T> {
    fn tls_serialize_for<W: Sink>(&self, context: &C, writer: &mut W) -> Result<usize, Error> {
        let there = K::test(context);
        write_present(there, self.value, writer)
    }

    fn tls_serialize_into_for(&self, context: &C, out: &mut Vec<u8>) -> Result<usize, Error> {
        let there = K::test(context);
        append_present(there, self.value, out)
    }
}
