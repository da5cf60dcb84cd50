//! The trait [`Validate`], and its contract.
ghost use Rattle.std.specs.Prelude.{◌≡◌, ◌⊎◌, ℕ, IfErr, IfSome, List};
ghost use Rattle.tls_codec_wire.specs.declared.error.Error.{Error};
ghost use Rattle.tls_codec_wire.specs.declared.error.Error.TheVariants.{OutOfMemory, TrailingData};
ghost use Rattle.tls_codec_grammar.specs.Decoding.{BeginsSome, LeavesBytes, ReadsWhole, Splits};
ghost use Rattle.tls_codec_base.specs.PartNames.{IsSpelling};
ghost use Rattle.tls_codec_validate.specs.Places.{IsTrailing, RejectedAt};
ghost use Rattle.tls_codec_validate.specs.Validated.{EachIs, Validates, ValidatesWhole};

use crate::rejected::Rejected;
use std::alloc::Global;
use tls_codec_base::DeserializeBytes;
use tls_codec_wire::Error;

/// A type whose encodings can be validated: no value is made, and nothing is allocated.
///
/// ```rust
/// assert_eq!(rt; <(u8, Vec<u16>)>::tls_validate(&[7, 2, 0, 1]), Ok(()));
/// assert_eq!(rt; <Vec<u16>>::tls_validate_prefix(&[2, 0, 1, 9]), Ok([9u8].as_slice()));
/// ```
pub trait Validate: DeserializeBytes {
    // Which errors are named, by the bytes from the rejected field on and by all of them.
    ghost places: { List ℕ → List ℕ → Error → Type 0 };

    /// What is left after the encoding that the bytes begin with.
    ///
    /// Every rejection is one of [`tls_deserialize_bytes`](DeserializeBytes::tls_deserialize_bytes), but it is never
    /// `OutOfMemory`.
    fn tls_validate_prefix(bytes: &[u8]) -> Result<&[u8], Rejected<'_>>
        ensures validates { Validates Self.format bytes.now result }
        ensures rejected { IfErr result (RejectedAt Self.names places bytes.now) };

    /// Whether all of the bytes are one encoding.
    ///
    /// `TrailingData`: an encoding begins the bytes, and a byte is left. Every other rejection is that of
    /// [`tls_validate_prefix`](Validate::tls_validate_prefix).
    final fn tls_validate(bytes: &[u8]) -> Result<(), Rejected<'_>>
        ensures validates { ValidatesWhole Self.format bytes.now result }
        ensures rejected { IfErr result
            (λ r. IsTrailing Self.format.spells bytes.now r
            ⊎ RejectedAt Self.names places bytes.now r) }
    {
        let rest = Self::tls_validate_prefix(bytes)?;
        if !rest.is_empty() {
            return Err(Rejected {
                error: Error::TrailingData,
                rest,
            });
        }
        Ok(())
    }

    /// The value that the bytes begin with, and the rest of them. They are validated first, so bytes that are rejected
    /// cost no memory at all.
    ///
    /// `OutOfMemory`: allocation failed, and an encoding begins the bytes. Every other error is
    /// that of [`tls_validate_prefix`](Validate::tls_validate_prefix).
    final fn tls_deserialize_validated_prefix(
        alloc: Global,
        bytes: &[u8],
    ) -> Result<(Self, &[u8]), Error>
        ensures splits { Splits Self.format Self.plain bytes.now result }
        ensures named { IfErr result (Self.names bytes.now) }
        ensures memory { result ≡ Err OutOfMemory → BeginsSome Self.format.spells bytes.now }
    {
        if let Err(rejected) = Self::tls_validate_prefix(bytes) {
            return Err(rejected.error);
        }
        let found = Self::tls_deserialize_bytes(alloc, bytes)?;
        Ok(found)
    }

    /// The value that all of the bytes encode. They are validated first, so bytes that are rejected
    /// cost no memory at all.
    ///
    /// `OutOfMemory`: allocation failed, and the bytes are an encoding. Every other error is that
    /// of [`tls_validate`](Validate::tls_validate).
    final fn tls_deserialize_validated(alloc: Global, bytes: &[u8]) -> Result<Self, Error>
        ensures reads { ReadsWhole Self.format Self.plain bytes.now result }
        ensures named { IfErr result
            (λ e. ((e ≡ TrailingData) × LeavesBytes Self.format.spells bytes.now)
            ⊎ Self.names bytes.now e) }
        ensures memory { result ≡ Err OutOfMemory → IsSpelling Self.format.spells bytes.now }
    {
        if let Err(rejected) = Self::tls_validate(bytes) {
            return Err(rejected.error);
        }
        let value = Self::tls_deserialize_exact_bytes(alloc, bytes)?;
        Ok(value)
    }

    /// A number of bytes that are always an encoding, whichever they are. `None` if that isn't so,
    /// or isn't known.
    ///
    /// Provided. A type of fixed width may return it; then its lists are validated at once.
    fn tls_width() -> Option<usize>
        ensures { IfSome result (EachIs Self.format.spells) }
    {
        None
    }
}
