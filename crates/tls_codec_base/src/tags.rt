//! [`unknown_value`], the error for a tag that an enum of your own doesn't have.
ghost use Rattle.std.specs.Prelude.{◌≡◌};
ghost use Rattle.tls_codec_wire.specs.declared.error.Error.TheVariants.{UnknownValue};

use tls_codec_wire::Error;

/// What both decoders of an enum return for a tag that none of its variants has.
///
/// ```rust
/// assert_eq!(rt; unknown_value(9), Error::UnknownValue(9));
/// ```
pub fn unknown_value(tag: u64) -> Error
    ensures { result ≡ UnknownValue tag }
{
    Error::UnknownValue(tag)
}
