//! Sums of cases (RFC 8446, section 3.8): what comes after a tag.
ghost use Rattle.std.specs.Prelude.{◌≡◌, ℕ, IfErr, List};
ghost use Rattle.tls_codec_wire.specs.declared.error.Error.{Error};
ghost use Rattle.tls_codec_validate.specs.TaggedPlaces.{PartsRejectedAt, no_variant_places, or_places, others_places, variant_places};
ghost use Rattle.tls_codec_validate.specs.Validated.{Validates};

use crate::rejected::Rejected;
use crate::traits::Validate;
use tls_codec_base::unknown_value;
use tls_codec_cases::{Case, Else, Or, SplitCases, Tag, Tags};

/// A sum of cases whose parts are told from other bytes without making a value.
pub trait ValidateCases: SplitCases {
    // Which errors are named after each tag, by the bytes from the tag on, those from the rejected field on, and those
    // after the tag.
    ghost places: { ℕ → List ℕ → List ℕ → List ℕ → Error → Type 0 };

    /// What is left after the parts of a tag's case, which begin `rest`.
    ///
    /// `UnknownValue`: no case has the tag. The rejected field is the tag, with which `whole` begins.
    fn validate_parts<'a>(
        tag: u64,
        whole: &'a [u8],
        rest: &'a [u8],
    ) -> Result<&'a [u8], Rejected<'a>>
        ensures validates { Validates (Self.variants.parts tag) rest.now result }
        ensures rejected { IfErr result
            (PartsRejectedAt (Self.names tag) (places tag whole.now) whole.now rest.now) };
}

impl<const TAG: u64, A: Validate> ValidateCases for Case<TAG, A> {
    ghost places = { variant_places TAG A.places no_variant_places };

    #[inline(always)]
    fn validate_parts<'a>(
        tag: u64,
        whole: &'a [u8],
        rest: &'a [u8],
    ) -> Result<&'a [u8], Rejected<'a>> {
        if tag != TAG {
            return Err(unknown(tag, whole));
        }
        let behind = A::tls_validate_prefix(rest)?;
        Ok(behind)
    }
}

impl<X: ValidateCases, Y: ValidateCases> ValidateCases for Or<X, Y> {
    ghost places = { or_places X.variants.has X.places Y.places };

    #[inline(always)]
    fn validate_parts<'a>(
        tag: u64,
        whole: &'a [u8],
        rest: &'a [u8],
    ) -> Result<&'a [u8], Rejected<'a>> {
        if X::has(tag) {
            X::validate_parts(tag, whole, rest)
        } else {
            Y::validate_parts(tag, whole, rest)
        }
    }
}

impl<C: ValidateCases, U: Tag, T: Validate> ValidateCases for Else<C, U, T> {
    ghost places = { or_places C.variants.has C.places (others_places U.most T.places) };

    #[inline(always)]
    fn validate_parts<'a>(
        tag: u64,
        whole: &'a [u8],
        rest: &'a [u8],
    ) -> Result<&'a [u8], Rejected<'a>> {
        if C::has(tag) {
            return C::validate_parts(tag, whole, rest);
        }
        if tag > U::greatest() {
            return Err(unknown(tag, whole));
        }
        let behind = T::tls_validate_prefix(rest)?;
        Ok(behind)
    }
}

// A tag that no case has.
#[inline(always)]
fn unknown(tag: u64, whole: &[u8]) -> Rejected<'_>
    ensures { (result.error ≡ Error.UnknownValue tag) × (result.rest.now ≡ whole.now) }
{
    Rejected {
        error: unknown_value(tag),
        rest: whole,
    }
}
