//! The trait [`ValidateFor`] of a type whose encodings a context decides, and its contract.
ghost use Rattle.std.specs.Prelude.{◌≡◌, ◌⊎◌, ℕ, IfErr, IfSome, List};
ghost use Rattle.tls_codec_wire.specs.declared.error.Error.{Error};
ghost use Rattle.tls_codec_wire.specs.declared.error.Error.TheVariants.{OutOfMemory, TrailingData};
ghost use Rattle.tls_codec_grammar.specs.Tree.{Tree};
ghost use Rattle.tls_codec_grammar.specs.Decoding.{BeginsSome, LeavesBytes, ReadsWhole, Splits};
ghost use Rattle.tls_codec_base.specs.PartNames.{IsSpelling};
ghost use Rattle.tls_codec_validate.specs.Keys.{RejectedFor, ValidatesFor};
ghost use Rattle.tls_codec_validate.specs.Places.{IsTrailing, RejectedAt};
ghost use Rattle.tls_codec_validate.specs.Validated.{EachIs, ValidatesWhole};

use crate::keys::{Keyed, TagKeyed};
use crate::rejected::Rejected;
use std::alloc::Global;
use tls_codec_base::{Condition, DeserializeBytesFor};
use tls_codec_cases::{AnyOf, Is};
use tls_codec_wire::Error;

/// A type whose encodings in a context `X` are told from other bytes by the context's key.
pub trait ValidateFor<X: Keyed>: DeserializeBytesFor<X> {
    // Which errors are named, by what the context stands for, by the bytes from the rejected field on and by all of them.
    ghost places: { Tree → List ℕ → List ℕ → Error → Type 0 };

    /// What is left after the encoding that the bytes begin with, in each context that has this key.
    ///
    /// Every rejection is one of
    /// [`tls_deserialize_bytes_for`](DeserializeBytesFor::tls_deserialize_bytes_for), but it is never `OutOfMemory`.
    fn tls_validate_prefix_for<'a>(key: &X::Key, bytes: &'a [u8]) -> Result<&'a [u8], Rejected<'a>>
        ensures validates { ValidatesFor X.is_key key.now Self.format_for bytes.now result }
        ensures rejected { RejectedFor X.is_key key.now Self.names places bytes.now result };

    /// A number of bytes that are always an encoding in every context, whichever they are. `None`
    /// if that isn't so, or isn't known.
    ///
    /// Provided. A type of fixed width may return it; then its lists are validated at once.
    fn tls_width_for() -> Option<usize>
        ensures { IfSome result (λ k. (c : Tree) → EachIs (Self.format_for c).spells k) }
    {
        None
    }

    /// Whether all of the bytes are one encoding, in each context that has this key.
    ///
    /// `TrailingData`: an encoding begins the bytes, and a byte is left. Every other rejection is that of
    /// [`tls_validate_prefix_for`](ValidateFor::tls_validate_prefix_for).
    final fn tls_validate_for<'a>(key: &X::Key, bytes: &'a [u8]) -> Result<(), Rejected<'a>>
        ensures validates { (c : Tree) → X.is_key key.now c
            → ValidatesWhole (Self.format_for c) bytes.now result }
        ensures rejected { (c : Tree) → X.is_key key.now c
            → IfErr result (λ r. IsTrailing (Self.format_for c).spells bytes.now r
            ⊎ RejectedAt (Self.names c) (places c) bytes.now r) }
    {
        let rest = Self::tls_validate_prefix_for(key, bytes)?;
        if !rest.is_empty() {
            return Err(Rejected {
                error: Error::TrailingData,
                rest,
            });
        }
        Ok(())
    }

    /// The value that the bytes begin with in this context, and the rest of them. They are validated first, so bytes that
    /// are rejected cost no memory at all.
    ///
    /// `OutOfMemory`: allocation failed, and an encoding begins the bytes. Every other error is
    /// that of [`tls_validate_prefix_for`](ValidateFor::tls_validate_prefix_for).
    final fn tls_deserialize_validated_prefix_for<'a>(
        context: &X,
        alloc: Global,
        bytes: &'a [u8],
    ) -> Result<(Self, &'a [u8]), Error>
        ensures splits { Splits (Self.format_for (X.plain context.now)) Self.plain bytes.now
            result }
        ensures named { IfErr result (Self.names (X.plain context.now) bytes.now) }
        ensures memory { result ≡ Err OutOfMemory
            → BeginsSome (Self.format_for (X.plain context.now)).spells bytes.now }
    {
        let key = context.key();
        if let Err(rejected) = Self::tls_validate_prefix_for(&key, bytes) {
            return Err(rejected.error);
        }
        let found = Self::tls_deserialize_bytes_for(context, alloc, bytes)?;
        Ok(found)
    }

    /// The value that all of the bytes encode in this context. They are validated first, so bytes
    /// that are rejected cost no memory at all.
    ///
    /// `OutOfMemory`: allocation failed, and the bytes are an encoding. Every other error is that
    /// of [`tls_validate_for`](ValidateFor::tls_validate_for).
    final fn tls_deserialize_validated_for(
        context: &X,
        alloc: Global,
        bytes: &[u8],
    ) -> Result<Self, Error>
        ensures reads { ReadsWhole (Self.format_for (X.plain context.now)) Self.plain
            bytes.now result }
        ensures named { IfErr result
            (λ e. ((e ≡ TrailingData)
            × LeavesBytes (Self.format_for (X.plain context.now)).spells bytes.now)
            ⊎ Self.names (X.plain context.now) bytes.now e) }
        ensures memory { result ≡ Err OutOfMemory
            → IsSpelling (Self.format_for (X.plain context.now)).spells bytes.now }
    {
        let key = context.key();
        if let Err(rejected) = Self::tls_validate_for(&key, bytes) {
            return Err(rejected.error);
        }
        let value = Self::tls_deserialize_exact_bytes_for(context, alloc, bytes)?;
        Ok(value)
    }
}

/// A condition. The key shows whether it holds.
pub trait KeyCondition<X: Keyed>: Condition<X> {
    /// Whether the payload is there in each context that has this key.
    fn test_key(key: &X::Key) -> bool
        ensures { (c : Tree) → X.is_key key.now c → result ≡ Self.holds c };
}

impl<K: TagKeyed, const TAG: u64> KeyCondition<K> for Is<TAG> {
    #[inline(always)]
    fn test_key(key: &K::Key) -> bool {
        K::tag_of_key(key) == TAG
    }
}

impl<X: Keyed, A: KeyCondition<X>, B: KeyCondition<X>> KeyCondition<X> for AnyOf<A, B> {
    #[inline(always)]
    fn test_key(key: &X::Key) -> bool {
        A::test_key(key) || B::test_key(key)
    }
}
