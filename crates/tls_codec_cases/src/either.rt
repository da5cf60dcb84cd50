//! [`Or`], two sums of cases as one.
ghost use Rattle.std.specs.Prelude.{◌≡◌, ◌&&◌, IfErr};
ghost use Rattle.tls_codec_grammar.specs.Encoding.{AppendsForm, Writes};
ghost use Rattle.tls_codec_cases.specs.Sums.{either_variants, either_variants_meet, or_avoided, or_fits, or_known, or_names, or_of, or_source_names};

use crate::cases::{Cases, ReadCases, SplitCases, Tags, WriteCases};
use std::alloc::Global;
use tls_codec_wire::{Error, Sink, Source};

/// A case of the first sum, or one of the second. Nest it evenly from four cases on: it is checked faster.
#[derive(PartialEq, Drop)]
pub enum Or<X, Y> {
    First(X),
    Second(Y),
}

impl<X: Tags, Y: Tags> Tags for Or<X, Y> {
    ghost variants = { either_variants X.variants Y.variants };

    #[inline(always)]
    fn has(tag: u64) -> bool {
        X::has(tag) || Y::has(tag)
    }
}

impl<X: Cases, Y: Cases> Cases for Or<X, Y> {
    ghost tag_of = { or_of X.tag_of Y.tag_of };

    ghost parts = { or_of X.parts Y.parts };

    ghost distinct = { X.distinct && (Y.distinct && Y.avoid X.variants.has) };

    ghost within = { λ most. X.within most && Y.within most };

    ghost avoid = { λ p. X.avoid p && Y.avoid p };

    #[inline(always)]
    fn are_distinct() -> bool {
        X::are_distinct() && (Y::are_distinct() && Y::avoids::<X>())
    }

    #[inline(always)]
    fn are_within(most: u64) -> bool {
        X::are_within(most) && Y::are_within(most)
    }

    #[inline(always)]
    fn avoids<Z: Tags>() -> bool {
        X::avoids::<Z>() && Y::avoids::<Z>()
    }

    #[inline(always)]
    fn tag(&self) -> u64 {
        match self {
            Or::First(these) => these.tag(),
            Or::Second(those) => those.tag(),
        }
    }

    #[inline(always)]
    fn parts_len(&self) -> usize {
        match self {
            Or::First(these) => these.parts_len(),
            Or::Second(those) => those.parts_len(),
        }
    }

    ghost known = { or_known X.variants Y.variants X.tag_of Y.tag_of X.known Y.known };

    ghost fits = { λ most. or_fits (X.within most) (Y.within most) most X.tag_of Y.tag_of
        (X.fits most) (Y.fits most) };

    ghost avoided = { λ p. or_avoided (X.avoid p) (Y.avoid p) p X.tag_of Y.tag_of (X.avoided p)
        (Y.avoided p) };

    ghost meet = { either_variants_meet X.meet Y.meet };
}

impl<X: WriteCases, Y: WriteCases> WriteCases for Or<X, Y> {
    #[inline(always)]
    fn write_parts<W: Sink>(&self, writer: &mut W) -> Result<usize, Error> {
        match self {
            Or::First(these) => these.write_parts(writer),
            Or::Second(those) => those.write_parts(writer),
        }
    }

    #[inline(always)]
    fn append_parts(&self, out: &mut Vec<u8>) -> Result<usize, Error> {
        match self {
            Or::First(these) => these.append_parts(out),
            Or::Second(those) => those.append_parts(out),
        }
    }
}

impl<X: ReadCases, Y: ReadCases> ReadCases for Or<X, Y> {
    ghost source_names = { or_source_names X.variants.has X.source_names Y.source_names };

    #[inline(always)]
    fn read_parts<R: Source>(tag: u64, alloc: Global, src: &mut R) -> Result<Or<X, Y>, Error> {
        if X::has(tag) {
            let these = X::read_parts(tag, alloc, src)?;
            Ok(Or::First(these))
        } else {
            let those = Y::read_parts(tag, alloc, src)?;
            Ok(Or::Second(those))
        }
    }
}

impl<X: SplitCases, Y: SplitCases> SplitCases for Or<X, Y> {
    ghost names = { or_names X.variants.has X.names Y.names };

    #[inline(always)]
    fn split_parts(tag: u64, alloc: Global, rest: &[u8]) -> Result<(Or<X, Y>, &[u8]), Error> {
        if X::has(tag) {
            let (these, rest) = X::split_parts(tag, alloc, rest)?;
            Ok((Or::First(these), rest))
        } else {
            let (those, rest) = Y::split_parts(tag, alloc, rest)?;
            Ok((Or::Second(those), rest))
        }
    }
}
