//! [`Tagged`], a tag, and after it what its case has (RFC 8446, section 3.8).
ghost use Rattle.std.specs.Prelude.{◌&&◌, IfErr};
ghost use Rattle.tls_codec_base.specs.Meanings.{too_few};
ghost use Rattle.tls_codec_validate.specs.Places.{RejectedAt, here};
ghost use Rattle.tls_codec_validate.specs.TaggedPlaces.{choice_places};
ghost use Rattle.tls_codec_validate.specs.Validated.{FindsTag};

use crate::cases::ValidateCases;
use crate::rejected::Rejected;
use crate::tags::{split_u8, split_u16};
use crate::traits::Validate;
use tls_codec_base::unknown_value;
use tls_codec_cases::{Tag, Tagged, tags_are_valid};

/// A tag that bytes begin with, found without an allocator.
pub trait FindTag: Tag {
    /// The tag as a number, and what comes after it.
    ///
    /// `EndOfStream`: there are fewer bytes than it has.
    fn find_tag(bytes: &[u8]) -> Result<(u64, &[u8]), Rejected<'_>>
        ensures finds { FindsTag Self.wide bytes.now result }
        ensures rejected { IfErr result
            (RejectedAt (too_few Self.wide) (here (too_few Self.wide)) bytes.now) };
}

impl FindTag for u8 {
    #[inline(always)]
    fn find_tag(bytes: &[u8]) -> Result<(u64, &[u8]), Rejected<'_>> {
        let (tag, rest) = split_u8(bytes)?;
        Ok((u64::from(tag), rest))
    }
}

impl FindTag for u16 {
    #[inline(always)]
    fn find_tag(bytes: &[u8]) -> Result<(u64, &[u8]), Rejected<'_>> {
        let (tag, rest) = split_u16(bytes)?;
        Ok((u64::from(tag), rest))
    }
}

impl<T: FindTag, C: ValidateCases> Validate for Tagged<T, C> {
    ghost places = { choice_places (C.distinct && C.within T.most) T.wide C.places };

    #[inline(always)]
    fn tls_validate_prefix(whole: &[u8]) -> Result<&[u8], Rejected<'_>> {
        if !tags_are_valid::<T, C>() {
            return Err(Rejected {
                error: unknown_value(0),
                rest: whole,
            });
        }
        let (tag, rest) = T::find_tag(whole)?;
        let behind = C::validate_parts(tag, whole, rest)?;
        Ok(behind)
    }
}
