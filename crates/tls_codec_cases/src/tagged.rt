//! [`Tagged`], a tag, and after it what its case has (RFC 8446, section 3.8).
ghost use Rattle.std.specs.Prelude.{◌≡◌, ◌&&◌};
ghost use Rattle.tls_codec_grammar.specs.Tree.{Join, Number};
ghost use Rattle.tls_codec_cases.specs.Choice.{choice_format, choice_meets, choice_names, choice_source_names};

use crate::cases::{Cases, ReadCases, SplitCases, WriteCases, append_tagged, write_tagged};
use crate::tag::Tag;
use std::alloc::Global;
use std::marker::PhantomData;
use tls_codec_base::{Deserialize, DeserializeBytes, Serialize, Size, unknown_value};
use tls_codec_wire::{Error, Sink, Source};

/// One of the cases `C`, with its tag as a `T` in front.
///
/// `UnknownValue(tag)`: no case has the tag that was read. If two cases have one tag, or a tag is above the greatest of a `T`,
/// no bytes are an encoding, and every call returns `UnknownValue(0)`: the proof of an enum over such cases fails.
#[derive(Drop)]
pub struct Tagged<T, C>(pub C, pub PhantomData<T>);

/// Whether the cases have tags of their own, which a `T` holds (RFC 8446, section 3.8).
#[inline(always)]
pub fn tags_are_valid<T: Tag, C: Cases>() -> bool
    ensures { result ≡ (C.distinct && C.within T.most) }
{
    C::are_distinct() && C::are_within(T::greatest())
}

impl<T: Tag, C: Cases> Size for Tagged<T, C> {
    ghost plain = { λ v. Join (Number (C.tag_of v.0)) (C.parts v.0) };

    ghost format = { choice_format (C.distinct && C.within T.most) T.wide C.variants };

    #[inline(always)]
    fn tls_serialized_len(&self) -> usize {
        if !tags_are_valid::<T, C>() {
            return 0;
        }
        T::width().saturating_add(self.0.parts_len())
    }

    ghost lawful = { choice_meets (C.distinct && C.within T.most) T.wide T.small C.meet };
}

impl<T: Tag, C: WriteCases> Serialize for Tagged<T, C> {
    #[inline(always)]
    fn tls_serialize<W: Sink>(&self, writer: &mut W) -> Result<usize, Error> {
        if !tags_are_valid::<T, C>() {
            return Err(unknown_value(0));
        }
        write_tagged::<T, C, W>(&self.0, writer)
    }

    #[inline(always)]
    fn tls_serialize_into(&self, out: &mut Vec<u8>) -> Result<usize, Error> {
        if !tags_are_valid::<T, C>() {
            return Err(unknown_value(0));
        }
        append_tagged::<T, C>(&self.0, out)
    }
}

impl<T: Tag, C: ReadCases> Deserialize for Tagged<T, C> {
    ghost names = { choice_source_names (C.distinct && C.within T.most) T.wide C.source_names };

    #[inline(always)]
    fn tls_deserialize<R: Source>(alloc: Global, src: &mut R) -> Result<Tagged<T, C>, Error> {
        if !tags_are_valid::<T, C>() {
            return Err(unknown_value(0));
        }
        let tag = T::read_tag(alloc, src)?;
        let cases = C::read_parts(tag, alloc, src)?;
        Ok(Tagged(cases, PhantomData))
    }
}

impl<T: Tag, C: SplitCases> DeserializeBytes for Tagged<T, C> {
    ghost names = { choice_names (C.distinct && C.within T.most) T.wide C.names };

    #[inline(always)]
    fn tls_deserialize_bytes(alloc: Global, whole: &[u8]) -> Result<(Tagged<T, C>, &[u8]), Error> {
        if !tags_are_valid::<T, C>() {
            return Err(unknown_value(0));
        }
        let (tag, rest) = T::split_tag(alloc, whole)?;
        let (cases, rest) = C::split_parts(tag, alloc, rest)?;
        Ok((Tagged(cases, PhantomData), rest))
    }
}
