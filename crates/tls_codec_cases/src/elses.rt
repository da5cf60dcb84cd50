//! [`Else`], one of some cases, or the case of every other tag.
ghost use Rattle.std.specs.Prelude.{◌≡◌, ◌&&◌, true, false, nat_le};
ghost use Rattle.tls_codec_cases.specs.Sums.{either_variants, either_variants_meet, or_names, or_source_names};
ghost use Rattle.tls_codec_cases.specs.Others.{others, others_meet, others_names, others_source_names};
ghost use Rattle.tls_codec_cases.specs.Elses.{else_avoided, else_fits, else_known, else_of, else_tag};

use crate::cases::{Cases, ReadCases, SplitCases, Tags, WriteCases};
use crate::other::{Other, read_other, split_other};
use crate::tag::Tag;
use std::alloc::Global;
use tls_codec_base::{Deserialize, DeserializeBytes, Serialize, Size};
use tls_codec_wire::{Error, Sink, Source};

/// One of the cases `C`; or any other tag, as a `U`, with the parts `T`, which is written again as it was read.
#[derive(PartialEq, Drop)]
pub enum Else<C: Tags, U: Tag, T> {
    Known(C),
    Unknown(Other<C, U, T>),
}

impl<C: Tags, U: Tag, T: Size> Tags for Else<C, U, T> {
    ghost variants = { either_variants C.variants (others U.most T.format) };

    #[inline(always)]
    fn has(tag: u64) -> bool {
        C::has(tag) || tag <= U::greatest()
    }
}

impl<C: Cases, U: Tag, T: Size> Cases for Else<C, U, T> {
    ghost tag_of = { else_tag C.tag_of };

    ghost parts = { else_of C.parts (λ other. T.plain other.parts) };

    ghost distinct = { C.distinct };

    ghost within = { λ most. C.within most && nat_le U.most most };

    ghost avoid = { λ p. false };

    #[inline(always)]
    fn are_distinct() -> bool {
        C::are_distinct()
    }

    #[inline(always)]
    fn are_within(most: u64) -> bool {
        C::are_within(most) && U::greatest() <= most
    }

    #[inline(always)]
    fn avoids<Z: Tags>() -> bool {
        false
    }

    #[inline(always)]
    fn tag(&self) -> u64 {
        match self {
            Else::Known(these) => these.tag(),
            Else::Unknown(other) => other.tag.number(),
        }
    }

    #[inline(always)]
    fn parts_len(&self) -> usize {
        match self {
            Else::Known(these) => these.parts_len(),
            Else::Unknown(other) => other.parts.tls_serialized_len(),
        }
    }

    ghost known = { else_known C.tag_of C.known };

    ghost fits = { λ most. else_fits (C.within most) most C.tag_of (C.fits most) };

    ghost avoided = { λ p c h. else_avoided h };

    ghost meet = { either_variants_meet C.meet (others_meet U.most T.lawful) };
}

impl<C: WriteCases, U: Tag, T: Serialize> WriteCases for Else<C, U, T> {
    #[inline(always)]
    fn write_parts<W: Sink>(&self, writer: &mut W) -> Result<usize, Error> {
        match self {
            Else::Known(these) => these.write_parts(writer),
            Else::Unknown(other) => other.parts.tls_serialize(writer),
        }
    }

    #[inline(always)]
    fn append_parts(&self, out: &mut Vec<u8>) -> Result<usize, Error> {
        match self {
            Else::Known(these) => these.append_parts(out),
            Else::Unknown(other) => other.parts.tls_serialize_into(out),
        }
    }
}

impl<C: ReadCases, U: Tag, T: Deserialize> ReadCases for Else<C, U, T> {
    ghost source_names = { or_source_names C.variants.has C.source_names
        (others_source_names U.most T.names) };

    #[inline(always)]
    fn read_parts<R: Source>(tag: u64, alloc: Global, src: &mut R) -> Result<Else<C, U, T>, Error> {
        if C::has(tag) {
            let these = C::read_parts(tag, alloc, src)?;
            Ok(Else::Known(these))
        } else {
            let other = read_other(tag, alloc, src)?;
            Ok(Else::Unknown(other))
        }
    }
}

impl<C: SplitCases, U: Tag, T: DeserializeBytes> SplitCases for Else<C, U, T> {
    ghost names = { or_names C.variants.has C.names (others_names U.most T.names) };

    #[inline(always)]
    fn split_parts(tag: u64, alloc: Global, rest: &[u8]) -> Result<(Else<C, U, T>, &[u8]), Error> {
        if C::has(tag) {
            let (these, rest) = C::split_parts(tag, alloc, rest)?;
            Ok((Else::Known(these), rest))
        } else {
            let (other, rest) = split_other(tag, alloc, rest)?;
            Ok((Else::Unknown(other), rest))
        }
    }
}
