//! [`Enclosed`], a value that fills what a length counts (RFC 8446, section 4.2).
ghost use Rattle.std.specs.Prelude.{IfErr};
ghost use Rattle.tls_codec_grammar.specs.Inside.{enclosed_format};
ghost use Rattle.tls_codec_base.specs.ContextNames.{enclosed_names};
ghost use Rattle.tls_codec_validate.specs.EnclosedPlaces.{enclosed_places};
ghost use Rattle.tls_codec_validate.specs.Places.{RejectedAt};
ghost use Rattle.tls_codec_validate.specs.Validated.{Validates};

use crate::rejected::{Rejected, or_rejected};
use crate::traits::Validate;
use tls_codec_base::LengthField;
use tls_codec_cases::Enclosed;

impl<F: LengthField, T: Validate> Validate for Enclosed<F, T> {
    ghost places = { enclosed_places F.field T.format T.places };

    #[inline(always)]
    fn tls_validate_prefix(bytes: &[u8]) -> Result<&[u8], Rejected<'_>> {
        skip_enclosed::<F, T>(bytes)
    }
}

// What is left after a length and the value that fills what it counts.
fn skip_enclosed<F: LengthField, T: Validate>(bytes: &[u8]) -> Result<&[u8], Rejected<'_>>
    ensures validates { Validates (enclosed_format F.field T.format) bytes.now result }
    ensures rejected { IfErr result
        (RejectedAt (enclosed_names F.field T.format T.names)
        (enclosed_places F.field T.format T.places) bytes.now) }
{
    let (length, behind) = or_rejected(F::split_length(bytes), bytes)?;
    if behind.len() < length {
        return Err(Rejected {
            error: F::cut_off(),
            rest: bytes,
        });
    }
    let (inside, rest) = behind.split_at(length);
    match T::tls_validate(inside) {
        Ok(()) => Ok(rest),
        Err(rejected) => {
            let at = length - rejected.rest.len();
            Err(Rejected {
                error: rejected.error,
                rest: behind.split_at(at).1,
            })
        }
    }
}
