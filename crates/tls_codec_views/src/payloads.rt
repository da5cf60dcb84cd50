//! `Option<T>`, `Box<T>` and `Enclosed<F, T>`: what they have inside.
ghost use Rattle.std.specs.Prelude.{◌≡◌, ◌∷◌, [], MatchOption};
ghost use Rattle.tls_codec_views.specs.Views.{IsAfterLength};

use crate::content::after_length;
use crate::encoded::Encoded;
use std::marker::PhantomData;
use tls_codec_base::LengthField;
use tls_codec_cases::Enclosed;
use tls_codec_validate::Validate;

impl<'a, T: Validate> Encoded<'a, Option<T>> {
    /// The encoding of the payload, if there is one.
    pub fn payload(&self) -> Option<Encoded<'a, T>>
        ensures { MatchOption result (self.now ≡ 0 ∷ []) (λ payload. self.now ≡ 1 ∷ payload) }
    {
        match self.bytes.split_first() {
            Some((1, rest)) => Some(Encoded {
                bytes: rest,
                of: PhantomData,
            }),
            _ => None,
        }
    }
}

impl<'a, T: Validate> Encoded<'a, Box<T>> {
    /// The encoding of what is in the box: the same bytes.
    pub fn payload(&self) -> Encoded<'a, T>
        ensures { result ≡ self.now }
    {
        Encoded {
            bytes: self.bytes,
            of: PhantomData,
        }
    }
}

impl<'a, F: LengthField, T: Validate> Encoded<'a, Enclosed<F, T>> {
    /// The encoding of what fills the length.
    pub fn payload(&self) -> Encoded<'a, T>
        ensures { IsAfterLength F.field self.now result }
    {
        Encoded {
            bytes: after_length::<F>(self.bytes),
            of: PhantomData,
        }
    }
}
