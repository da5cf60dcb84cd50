//! [`EncodedFor`]: bytes that are one encoding in a context.
ghost use Rattle.std.specs.Prelude.{◌≡◌, ◌⊎◌, ◌++◌, ℕ, IfErr, IfOk, List};
ghost use Rattle.tls_codec_grammar.specs.Tree.{Tree};
ghost use Rattle.tls_codec_grammar.specs.Decoding.{BeginsSome};
ghost use Rattle.tls_codec_base.specs.PartNames.{IsSpelling};
ghost use Rattle.tls_codec_validate.specs.Places.{IsTrailing, RejectedAt};
ghost use Rattle.tls_codec_validate.specs.Validated.{ValidatesWhole};
ghost use Rattle.tls_codec_views.specs.Views.{IsEncodedFor};

use std::marker::{Model, PhantomData};
use tls_codec_validate::{Keyed, Rejected, ValidateFor};

/// Bytes that are one encoding of a `T` in a context: what comes before them in the same struct, or what another struct
/// says (RFC 8446, section 3.8). Of the context its key is known, and no value.
///
/// [`new`](EncodedFor::new) makes one. [`Encoded::split`](crate::Encoded::split) of a
/// [`Then`](tls_codec_base::Then) does too, but the kit's borrow checker covers no function yet that calls it at a concrete
/// type.
#[derive(Drop)]
pub struct EncodedFor<'a, X: Keyed, T: ValidateFor<X>> {
    pub(crate) key: X::Key,
    pub(crate) bytes: &'a [u8],
    pub(crate) of: PhantomData<T>,
}

impl<'a, X: Keyed, T: ValidateFor<X>> Model for EncodedFor<'a, X, T> {
    ghost Value = { X.Key × List ℕ };

    ghost view = { λ e. (e.key, e.bytes.now) };

    ghost invariant = { λ e. IsEncodedFor X.is_key e.key T.format_for e.bytes.now };
}

impl<'a, X: Keyed, T: ValidateFor<X>> EncodedFor<'a, X, T> {
    /// All of the bytes, if they are one encoding in this context.
    ///
    /// The rejections are those of [`tls_validate_for`](ValidateFor::tls_validate_for).
    pub fn new(context: &X, bytes: &'a [u8]) -> Result<EncodedFor<'a, X, T>, Rejected<'a>>
        ensures same { IfOk result (λ found. found.1 ≡ bytes.now) }
        ensures key { IfOk result (λ found. X.is_key found.0 (X.plain context.now)) }
        ensures validates { ValidatesWhole (T.format_for (X.plain context.now)) bytes.now result }
        ensures rejected { IfErr result
            (λ r. IsTrailing (T.format_for (X.plain context.now)).spells bytes.now r
            ⊎ RejectedAt (T.names (X.plain context.now)) (T.places (X.plain context.now))
            bytes.now r) }
    {
        let key = context.key();
        T::tls_validate_for(&key, bytes)?;
        Ok(EncodedFor {
            key,
            bytes,
            of: PhantomData,
        })
    }

    /// The bytes.
    pub fn as_bytes(&self) -> &'a [u8]
        ensures same { result.now ≡ self.now.1 }
        ensures encoding { IsEncodedFor X.is_key self.now.0 T.format_for self.now.1 }
    {
        self.bytes
    }
}

/// The encoding in a context of this key that the bytes begin with. It is known that there is one.
pub(crate) fn take_for<'a, X: Keyed, T: ValidateFor<X>>(
    key: X::Key,
    bytes: &'a [u8],
) -> (EncodedFor<'a, X, T>, &'a [u8])
    requires { (c : Tree) × X.is_key key c × BeginsSome (T.format_for c).spells bytes.now }
    ensures same { result.0.0 ≡ key }
    ensures whole { bytes.now ≡ result.0.1 ++ result.1.now }
    ensures encoding { (c : Tree) → X.is_key key c
        → IsSpelling (T.format_for c).spells result.0.1 }
{
    match T::tls_validate_prefix_for(&key, bytes) {
        Ok(rest) => {
            let (bytes, after) = bytes.split_at(bytes.len().saturating_sub(rest.len()));
            let of = PhantomData;
            (EncodedFor { key, bytes, of }, after)
        }
        Err(_) => unreachable!(),
    }
}
