//! The elements of a list, one after another.
ghost use Rattle.std.specs.Prelude.{◌≡◌, ◌≢◌};
ghost use Rattle.tls_codec_outcome.specs.Elements.{IsNext, left_in};
ghost use Rattle.tls_codec_outcome.specs.Fields.{bytes_at};
ghost use Rattle.tls_codec_outcome.specs.Outcomes.{Decides, IsRejection, IsTaken};

use crate::calls::validate;
use crate::fields::{Span, bytes_from};
use crate::outcome::{ACCEPTED, Outcome};
use tls_codec_validate::Validate;

/// Validates the element at the front of `left`, the rest of a list. If it is accepted, `element` is
/// its place, and `left` begins after it. Otherwise neither changes.
///
/// The result is that of [`validate`] for the bytes of `left`.
pub fn next<T: Validate>(bytes: &[u8], left: &mut Span, element: &mut Span) -> Outcome
    ensures status { Decides T.format (left_in bytes.now left.old) result.status }
    ensures taken { IsTaken T.format (left_in bytes.now left.old) result.status result.taken }
    ensures rejected { IsRejection T.names T.places (left_in bytes.now left.old) result.status
        result.at result.detail }
    ensures element { result.status ≡ 0 → IsNext T.format bytes.now left.old element.new left.new }
    ensures kept { result.status ≢ 0 → (left.new ≡ left.old) × (element.new ≡ element.old) }
{
    let Span { offset, size } = *left;
    let outcome = validate::<T>(place(bytes, offset, size));
    if outcome.status == ACCEPTED {
        *element = Span {
            offset,
            size: outcome.taken,
        };
        *left = Span {
            offset: offset.saturating_add(outcome.taken),
            size: size.saturating_sub(outcome.taken),
        };
    }
    outcome
}

// `size` bytes from an offset on, or those that are there.
fn place(bytes: &[u8], offset: usize, size: usize) -> &[u8]
    ensures { result.now ≡ bytes_at offset size bytes.now }
{
    let here = bytes_from(bytes, offset);
    here.get(..size).unwrap_or(here)
}
