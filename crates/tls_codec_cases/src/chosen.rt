//! [`Chosen`], a select whose tag is elsewhere, as `select (Handshake.msg_type)` (RFC 8446, sections 3.8 and 4).
ghost use Rattle.std.specs.Prelude.{◌≡◌, ◌==◌, ◌&&◌, ℕ, false, List};
ghost use Rattle.tls_codec_grammar.specs.Grammar.{Direction};
ghost use Rattle.tls_codec_grammar.specs.Tree.{Join, Number, Tree};
ghost use Rattle.tls_codec_cases.specs.Chosen.{number_of, select_format, select_meets, select_names, select_source_names};

use crate::cases::{Cases, ReadCases, SplitCases, WriteCases};
use std::alloc::Global;
use tls_codec_base::context::does_not_fit;
use tls_codec_base::{
    DeserializeBytesFor, DeserializeFor, SerializeFor, Size, SizeFor, unknown_value,
};
use tls_codec_wire::{Error, Sink, Source};

/// A context that says which case a select has: the field with the tag, or what holds it.
pub trait Selector: Size {
    // The tag, by what the context stands for.
    ghost selected: { Tree → ℕ };

    /// The tag.
    fn selects(&self) -> u64
        ensures { result ≡ selected (Self.plain self.now) };
}

impl Selector for u8 {
    ghost selected = { number_of };

    #[inline(always)]
    fn selects(&self) -> u64 {
        *self as u64
    }
}

impl Selector for u16 {
    ghost selected = { number_of };

    #[inline(always)]
    fn selects(&self) -> u64 {
        u64::from(*self)
    }
}

/// One of the cases `C`, whose tag a context says. No byte shows it.
///
/// `UnknownValue(tag)`: no case has the context's tag. `EncodingError("value does not fit its context")`: the value is of
/// another case, and nothing was sent. If two cases have one tag, no bytes are an encoding, and every call returns
/// `UnknownValue(0)`.
#[derive(PartialEq, Drop)]
pub struct Chosen<C>(pub C);

impl<C: Cases> Chosen<C> {
    /// Whether the value is of the case that the context selects. One of another case has no encoding there.
    pub fn fits<K: Selector>(&self, context: &K) -> bool
        ensures fits { result
            ≡ (C.distinct && (C.tag_of self.now.0 == K.selected (K.plain context.now))) }
        ensures unfit { result ≡ false
            → (d : Direction)
            → (bytes : List ℕ)
            → (select_format C.distinct (K.selected (K.plain context.now)) C.variants).spells d bytes
            (Join (Number (C.tag_of self.now.0)) (C.parts self.now.0))
            → ⊥ }
    {
        if !C::are_distinct() {
            return false;
        }
        if self.0.tag() != context.selects() {
            return false;
        }
        true
    }
}

impl<K: Selector, C: Cases> SizeFor<K> for Chosen<C> {
    ghost plain = { λ v. Join (Number (C.tag_of v.0)) (C.parts v.0) };

    ghost format_for = { λ c. select_format C.distinct (K.selected c) C.variants };

    #[inline(always)]
    fn tls_serialized_len_for(&self, _context: &K) -> usize {
        if !C::are_distinct() {
            return 0;
        }
        self.0.parts_len()
    }

    ghost lawful = { λ c. select_meets C.distinct (K.selected c) C.meet };
}

impl<K: Selector, C: WriteCases> SerializeFor<K> for Chosen<C> {
    #[inline(always)]
    fn tls_serialize_for<W: Sink>(&self, context: &K, writer: &mut W) -> Result<usize, Error> {
        if !C::are_distinct() {
            return Err(unknown_value(0));
        }
        if self.0.tag() != context.selects() {
            return Err(does_not_fit());
        }
        self.0.write_parts(writer)
    }

    #[inline(always)]
    fn tls_serialize_into_for(&self, context: &K, out: &mut Vec<u8>) -> Result<usize, Error> {
        if !C::are_distinct() {
            return Err(unknown_value(0));
        }
        if context.selects() != self.0.tag() {
            return Err(does_not_fit());
        }
        self.0.append_parts(out)
    }
}

impl<K: Selector, C: ReadCases> DeserializeFor<K> for Chosen<C> {
    ghost names = { λ c. select_source_names C.distinct (C.source_names (K.selected c)) };

    #[inline(always)]
    fn tls_deserialize_for<R: Source>(
        context: &K,
        alloc: Global,
        src: &mut R,
    ) -> Result<Chosen<C>, Error> {
        if !C::are_distinct() {
            return Err(unknown_value(0));
        }
        let cases = C::read_parts(context.selects(), alloc, src)?;
        Ok(Chosen(cases))
    }
}

impl<K: Selector, C: SplitCases> DeserializeBytesFor<K> for Chosen<C> {
    ghost names = { λ c. select_names C.distinct (C.names (K.selected c)) };

    #[inline(always)]
    fn tls_deserialize_bytes_for<'a>(
        context: &K,
        alloc: Global,
        bytes: &'a [u8],
    ) -> Result<(Chosen<C>, &'a [u8]), Error> {
        if !C::are_distinct() {
            return Err(unknown_value(0));
        }
        let (cases, rest) = C::split_parts(context.selects(), alloc, bytes)?;
        Ok((Chosen(cases), rest))
    }
}
