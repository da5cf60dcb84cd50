//! `Option<T>`.
ghost use Rattle.tls_codec_validate.specs.Places.{option_places};

use crate::rejected::Rejected;
use crate::traits::Validate;
use tls_codec_base::error_texts::OTHER_TAG;
use tls_codec_wire::Error;

impl<T: Validate> Validate for Option<T> {
    ghost places = { option_places T.places };

    #[inline(always)]
    fn tls_validate_prefix(bytes: &[u8]) -> Result<&[u8], Rejected<'_>> {
        let Some((tag, rest)) = bytes.split_first() else {
            return Err(Rejected {
                error: Error::EndOfStream,
                rest: bytes,
            });
        };
        match *tag {
            0 => Ok(rest),
            1 => {
                let behind = T::tls_validate_prefix(rest)?;
                Ok(behind)
            }
            _ => Err(Rejected {
                error: OTHER_TAG,
                rest: bytes,
            }),
        }
    }
}
