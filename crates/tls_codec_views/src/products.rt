//! Pairs and triples: their parts.
ghost use Rattle.std.specs.Prelude.{◌≡◌, ◌++◌};

use crate::encoded::{Encoded, take};
use std::marker::PhantomData;
use tls_codec_validate::Validate;

impl<'a, T: Validate, U: Validate> Encoded<'a, (T, U)> {
    /// The encodings of both parts.
    pub fn split(&self) -> (Encoded<'a, T>, Encoded<'a, U>)
        ensures { self.now ≡ result.0 ++ result.1 }
    {
        let (first, rest) = take::<T>(self.bytes);
        let second = Encoded {
            bytes: rest,
            of: PhantomData,
        };
        (first, second)
    }
}

impl<'a, T: Validate, U: Validate, V: Validate> Encoded<'a, (T, U, V)> {
    /// The encodings of the three parts.
    pub fn split(&self) -> (Encoded<'a, T>, Encoded<'a, U>, Encoded<'a, V>)
        ensures { self.now ≡ result.0 ++ (result.1 ++ result.2) }
    {
        let (first, others) = take::<T>(self.bytes);
        let (second, rest) = take::<U>(others);
        let third = Encoded {
            bytes: rest,
            of: PhantomData,
        };
        (first, second, third)
    }
}
