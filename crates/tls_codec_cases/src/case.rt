//! [`Case`], one case of an enum.
ghost use Rattle.std.specs.Prelude.{true, not, nat_le};
ghost use Rattle.tls_codec_grammar.specs.Tagged.{no_variant, variant};
ghost use Rattle.tls_codec_grammar.specs.laws.TaggedLaws.{no_variant_meets, variant_meets};
ghost use Rattle.tls_codec_base.specs.TaggedNames.{no_variant_names, no_variant_source_names, variant_names, variant_source_names};
ghost use Rattle.tls_codec_cases.specs.CaseLaws.{case_avoided, case_fits, case_known};

use crate::cases::{Cases, ReadCases, SplitCases, Tags, WriteCases};
use std::alloc::Global;
use tls_codec_base::{Deserialize, DeserializeBytes, Serialize, Size, unknown_value};
use tls_codec_wire::{Error, Sink, Source};

/// The case that has the tag `TAG` and these parts; several parts are a tuple, and none is `()`.
#[derive(PartialEq, Drop)]
pub struct Case<const TAG: u64, A>(pub A);

impl<const TAG: u64, A: Size> Tags for Case<TAG, A> {
    ghost variants = { variant TAG A.format no_variant };

    #[inline(always)]
    fn has(tag: u64) -> bool {
        tag == TAG
    }
}

impl<const TAG: u64, A: Size> Cases for Case<TAG, A> {
    ghost tag_of = { λ c. TAG };

    ghost parts = { λ c. A.plain c.0 };

    ghost distinct = { true };

    ghost within = { λ most. nat_le TAG most };

    ghost avoid = { λ p. not (p TAG) };

    #[inline(always)]
    fn are_distinct() -> bool {
        true
    }

    #[inline(always)]
    fn are_within(most: u64) -> bool {
        TAG <= most
    }

    #[inline(always)]
    fn avoids<Z: Tags>() -> bool {
        !Z::has(TAG)
    }

    #[inline(always)]
    fn tag(&self) -> u64 {
        TAG
    }

    #[inline(always)]
    fn parts_len(&self) -> usize {
        self.0.tls_serialized_len()
    }

    ghost known = { λ c. case_known TAG };

    ghost fits = { λ most c h. case_fits TAG most h };

    ghost avoided = { λ p c h. case_avoided TAG p h };

    ghost meet = { variant_meets TAG A.lawful no_variant_meets };
}

impl<const TAG: u64, A: Serialize> WriteCases for Case<TAG, A> {
    #[inline(always)]
    fn write_parts<W: Sink>(&self, writer: &mut W) -> Result<usize, Error> {
        self.0.tls_serialize(writer)
    }

    #[inline(always)]
    fn append_parts(&self, out: &mut Vec<u8>) -> Result<usize, Error> {
        self.0.tls_serialize_into(out)
    }
}

impl<const TAG: u64, A: Deserialize> ReadCases for Case<TAG, A> {
    ghost source_names = { variant_source_names TAG A.names no_variant_source_names };

    #[inline(always)]
    fn read_parts<R: Source>(tag: u64, alloc: Global, src: &mut R) -> Result<Case<TAG, A>, Error> {
        if tag != TAG {
            return Err(unknown_value(tag));
        }
        let parts = A::tls_deserialize(alloc, src)?;
        Ok(Case(parts))
    }
}

impl<const TAG: u64, A: DeserializeBytes> SplitCases for Case<TAG, A> {
    ghost names = { variant_names TAG A.names no_variant_names };

    #[inline(always)]
    fn split_parts(tag: u64, alloc: Global, rest: &[u8]) -> Result<(Case<TAG, A>, &[u8]), Error> {
        if tag != TAG {
            return Err(unknown_value(tag));
        }
        let (parts, rest) = A::tls_deserialize_bytes(alloc, rest)?;
        Ok((Case(parts), rest))
    }
}
