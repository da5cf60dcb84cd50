//! Elements in a row, which fill a declared number of bytes.
ghost use Rattle.std.specs.Prelude.{IfErr, IfSome};
ghost use Rattle.tls_codec_grammar.specs.Format.{content_format, counted_list_format, sized_format};
ghost use Rattle.tls_codec_grammar.specs.Grammar.{content, sized};
ghost use Rattle.tls_codec_grammar.specs.Tree.{Tree};
ghost use Rattle.tls_codec_base.specs.PartNames.{counted_list_names, elements_names};
ghost use Rattle.tls_codec_validate.specs.Keys.{RejectedFor, ValidatesFor};
ghost use Rattle.tls_codec_validate.specs.Places.{RejectedAt, counted_list_places, elements_places};
ghost use Rattle.tls_codec_validate.specs.Validated.{BeginsLeaving, Validates};

use crate::keys::Keyed;
use crate::rejected::{Rejected, or_rejected};
use crate::traits::Validate;
use crate::validate_for::ValidateFor;
use tls_codec_base::error_texts::{NO_BYTES, NOT_FILLED};
use tls_codec_base::{Always, LengthField};
use tls_codec_grammar::opaque::see_bytes;

/// What is left after a length and the elements that it counts.
#[inline(always)]
pub(crate) fn skip_list<F: LengthField, T: Validate>(bytes: &[u8]) -> Result<&[u8], Rejected<'_>>
    ensures validates { Validates (counted_list_format F.field T.format) bytes.now result }
    ensures rejected { IfErr result
        (RejectedAt (counted_list_names F.field T.format T.names)
        (counted_list_places F.field T.format T.places) bytes.now) }
{
    skip_list_for::<(), F, Always<T>>(&(), bytes)
}

/// What is left after a length and the elements that it counts, in each context that has this key.
pub(crate) fn skip_list_for<'a, X: Keyed, F: LengthField, T: ValidateFor<X>>(
    key: &X::Key,
    bytes: &'a [u8],
) -> Result<&'a [u8], Rejected<'a>>
    ensures validates { ValidatesFor X.is_key key.now
        (λ c. counted_list_format F.field (T.format_for c)) bytes.now result }
    ensures rejected { RejectedFor X.is_key key.now
        (λ c. counted_list_names F.field (T.format_for c) (T.names c))
        (λ c. counted_list_places F.field (T.format_for c) (T.places c)) bytes.now result }
{
    let (length, rest) = or_rejected(F::split_length(bytes), bytes)?;
    let behind = skip_elements::<X, T>(key, rest, length)?;
    Ok(behind)
}

// What is left after the elements that fill the first `length` bytes.
fn skip_elements<'a, X: Keyed, T: ValidateFor<X>>(
    key: &X::Key,
    bytes: &'a [u8],
    length: usize,
) -> Result<&'a [u8], Rejected<'a>>
    ensures validates { ValidatesFor X.is_key key.now
        (λ c. sized_format length (content_format (T.format_for c))) bytes.now result }
    ensures rejected { RejectedFor X.is_key key.now
        (λ c. elements_names (T.format_for c) (T.names c) length)
        (λ c. elements_places (T.format_for c) (T.places c) length) bytes.now result }
{
    if let Some(behind) = skip_run::<X, T>(bytes, length) {
        return Ok(behind);
    }
    let mut rest = bytes;
    let mut left = length;
    while left > 0 {
        let behind = T::tls_validate_prefix_for(key, rest)?;
        let taken = rest.len().saturating_sub(behind.len());
        if taken == 0 {
            return Err(Rejected {
                error: NO_BYTES,
                rest,
            });
        }
        if taken > left {
            return Err(Rejected {
                error: NOT_FILLED,
                rest,
            });
        }
        left -= taken;
        rest = behind;
    }
    Ok(rest)
}

// The same at once, of elements of one width. None: they have no one width, or don't fill these bytes.
#[inline(always)]
fn skip_run<X: Keyed, T: ValidateFor<X>>(bytes: &[u8], length: usize) -> Option<&[u8]>
    ensures { IfSome result (λ rest. (c : Tree)
        → BeginsLeaving (sized length (content (T.format_for c).spells)) bytes.now rest.now) }
{
    let Some(width) = T::tls_width_for() else {
        return None;
    };
    if width == 0 || length > bytes.len() || length % width != 0 {
        return None;
    }
    let (run, behind) = bytes.split_at(length);
    see_bytes(run);
    Some(behind)
}
