//! [`Encoded`]: bytes that are one encoding.
ghost use Rattle.std.specs.Prelude.{◌≡◌, ◌⊎◌, ◌++◌, ℕ, IfErr, IfOk, List};
ghost use Rattle.tls_codec_grammar.specs.Decoding.{BeginsSome};
ghost use Rattle.tls_codec_grammar.specs.Grammar.{Reading, fields, nothing};
ghost use Rattle.tls_codec_base.specs.Paths.{NoMemory};
ghost use Rattle.tls_codec_base.specs.PartNames.{IsSpelling};
ghost use Rattle.tls_codec_validate.specs.Places.{IsTrailing, RejectedAt};
ghost use Rattle.tls_codec_validate.specs.Validated.{ValidatesWhole};
ghost use Rattle.tls_codec_views.specs.Views.{SplitsEncoded};

use std::alloc::Global;
use std::marker::{Model, PhantomData};
use tls_codec_validate::{Rejected, Validate};
use tls_codec_wire::Error;

/// Bytes that are one encoding of a `T`. Only validated bytes become one.
///
/// ```rust
/// let encoded = Encoded::<(u8, VLBytes)>::new(&[7, 2, 8, 9])?;
/// let (first, second) = encoded.split();
/// assert_eq!(rt; first.get(), 7);
/// assert_eq!(rt; second.content(), [8u8, 9].as_slice());
/// ```
#[derive(Drop)]
pub struct Encoded<'a, T: Validate> {
    pub(crate) bytes: &'a [u8],
    pub(crate) of: PhantomData<T>,
}

impl<'a, T: Validate> Model for Encoded<'a, T> {
    ghost Value = { List ℕ };

    ghost view = { λ e. e.bytes.now };

    ghost invariant = { λ e. IsSpelling T.format.spells e.bytes.now };
}

impl<'a, T: Validate> Encoded<'a, T> {
    /// All of the bytes, if they are one encoding.
    ///
    /// The rejections are those of [`tls_validate`](Validate::tls_validate).
    pub fn new(bytes: &'a [u8]) -> Result<Encoded<'a, T>, Rejected<'a>>
        ensures same { IfOk result (λ found. found ≡ bytes.now) }
        ensures validates { ValidatesWhole T.format bytes.now result }
        ensures rejected { IfErr result
            (λ r. IsTrailing T.format.spells bytes.now r
            ⊎ RejectedAt T.names T.places bytes.now r) }
    {
        T::tls_validate(bytes)?;
        Ok(Encoded::from_proved(bytes))
    }

    /// The encoding that the bytes begin with, and what is left after it.
    ///
    /// The rejections are those of [`tls_validate_prefix`](Validate::tls_validate_prefix).
    pub fn split_prefix(bytes: &'a [u8]) -> Result<(Encoded<'a, T>, &'a [u8]), Rejected<'a>>
        ensures splits { SplitsEncoded T.format bytes.now result }
        ensures rejected { IfErr result (RejectedAt T.names T.places bytes.now) }
    {
        let rest = T::tls_validate_prefix(bytes)?;
        let (front, after) = bytes.split_at(bytes.len().saturating_sub(rest.len()));
        Ok((Encoded::from_proved(front), after))
    }

    /// Bytes that are proved to be one encoding. They aren't validated again.
    pub fn from_proved(bytes: &'a [u8]) -> Encoded<'a, T>
        requires { IsSpelling T.format.spells bytes.now }
        ensures { result ≡ bytes.now }
    {
        let of = PhantomData;
        Encoded { bytes, of }
    }

    /// Bytes that are proved to be one part and nothing else.
    pub fn from_only_part(bytes: &'a [u8]) -> Encoded<'a, T>
        requires { IsSpelling (fields T.format.spells nothing) bytes.now }
        ensures { result ≡ bytes.now }
    {
        Encoded::from_proved(bytes)
    }

    /// The bytes.
    pub fn as_bytes(&self) -> &'a [u8]
        ensures same { result.now ≡ self.now }
        ensures encoding { IsSpelling T.format.spells self.now }
    {
        self.bytes
    }

    /// The value.
    ///
    /// `OutOfMemory`: allocation failed. There is no other error.
    pub fn to_value(&self, alloc: Global) -> Result<T, Error>
        ensures value { IfOk result (λ v. T.format.spells Reading self.now (T.plain v)) }
        ensures memory { IfErr result (NoMemory T.format.lean) }
    {
        T::tls_deserialize_exact_bytes(alloc, self.bytes)
    }
}

/// The encoding that the bytes begin with. It is known that there is one.
pub(crate) fn take<'a, T: Validate>(bytes: &'a [u8]) -> (Encoded<'a, T>, &'a [u8])
    requires { BeginsSome T.format.spells bytes.now }
    ensures whole { bytes.now ≡ result.0 ++ result.1.now }
    ensures encoding { IsSpelling T.format.spells result.0 }
{
    match Encoded::split_prefix(bytes) {
        Ok(found) => found,
        Err(_) => unreachable!(),
    }
}
