//! Parts that a field before them decides, or another struct: what is read of them in place.
ghost use Rattle.std.specs.Prelude.{◌≡◌, ◌++◌, [], MatchOption, is_some};
ghost use Rattle.tls_codec_grammar.specs.Tree.{Tree};
ghost use Rattle.tls_codec_grammar.specs.Decoding.{BeginsSome};
ghost use Rattle.tls_codec_grammar.specs.Grammar.{Reading};
ghost use Rattle.tls_codec_base.specs.PartNames.{IsSpelling};
ghost use Rattle.tls_codec_views.specs.Views.{InEachContext};

use crate::encoded::Encoded;
use crate::encoded_for::{EncodedFor, take_for};
use std::marker::PhantomData;
use tls_codec_base::{Always, Then, When};
use tls_codec_cases::By;
use tls_codec_validate::{HoldsKey, KeyCondition, Keyed, Validate, ValidateFor, ValidateKeyed};

impl<'a, T: ValidateKeyed, U: ValidateFor<T>> Encoded<'a, Then<T, U>> {
    /// The encoding of the first part, and that of what its value decides. At a concrete type the kit's borrow checker
    /// covers no caller yet: begin with [`EncodedFor::new`].
    pub fn split(&self) -> (Encoded<'a, T>, EncodedFor<'a, T, U>)
        ensures whole { self.now ≡ result.0 ++ result.1.1 }
        ensures key { (c : Tree) → T.format.spells Reading result.0 c → T.is_key result.1.0 c }
    {
        let (first, key, rest) = take_keyed::<T>(self.bytes);
        let second = EncodedFor {
            key,
            bytes: rest,
            of: PhantomData,
        };
        (first, second)
    }
}

// The encoding that the bytes begin with, and its key. It is known that there is one.
fn take_keyed<'a, T: ValidateKeyed>(bytes: &'a [u8]) -> (Encoded<'a, T>, T::Key, &'a [u8])
    requires { BeginsSome T.format.spells bytes.now }
    ensures whole { bytes.now ≡ result.0 ++ result.2.now }
    ensures encoding { IsSpelling T.format.spells result.0 }
    ensures key { (c : Tree) → T.format.spells Reading result.0 c → T.is_key result.1 c }
{
    match T::tls_validate_keyed(bytes) {
        Ok((key, rest)) => {
            let (bytes, after) = bytes.split_at(bytes.len().saturating_sub(rest.len()));
            let of = PhantomData;
            (Encoded { bytes, of }, key, after)
        }
        Err(_) => unreachable!(),
    }
}

impl<'a, X: Keyed, T: ValidateFor<X>, U: ValidateFor<X>> EncodedFor<'a, X, (T, U)> {
    /// The encodings of both parts, in the same context.
    pub fn split(&self) -> (EncodedFor<'a, X, T>, EncodedFor<'a, X, U>)
        ensures whole { self.now.1 ≡ result.0.1 ++ result.1.1 }
        ensures keys { (result.0.0 ≡ self.now.0) × (result.1.0 ≡ self.now.0) }
    {
        let (first, rest) = take_for::<X, T>(self.key, self.bytes);
        let second = EncodedFor {
            key: self.key,
            bytes: rest,
            of: PhantomData,
        };
        (first, second)
    }
}

impl<'a, X: Keyed, T: ValidateFor<X>, U: ValidateFor<X>, V: ValidateFor<X>> EncodedFor<
    'a,
    X,
    (T, U, V),
> {
    /// The encodings of the three parts, in the same context.
    pub fn split(
        &self,
    ) -> (
        EncodedFor<'a, X, T>,
        EncodedFor<'a, X, U>,
        EncodedFor<'a, X, V>,
    )
        ensures whole { self.now.1 ≡ result.0.1 ++ (result.1.1 ++ result.2.1) }
        ensures keys { (result.0.0 ≡ self.now.0) × (result.1.0 ≡ self.now.0)
            × (result.2.0 ≡ self.now.0) }
    {
        let (first, others) = take_for::<X, T>(self.key, self.bytes);
        let (second, rest) = take_for::<X, U>(self.key, others);
        let third = EncodedFor {
            key: self.key,
            bytes: rest,
            of: PhantomData,
        };
        (first, second, third)
    }
}

impl<'a, X: Keyed, T: Validate> EncodedFor<'a, X, Always<T>> {
    /// The encoding of a part that no context decides: the same bytes.
    pub fn always(&self) -> Encoded<'a, T>
        ensures { result ≡ self.now.1 }
    {
        Encoded::from_proved(self.bytes)
    }
}

impl<'a, X: Keyed, K: KeyCondition<X>, T: Validate> EncodedFor<'a, X, When<K, T>> {
    /// The encoding of the payload, if the context has one: the same bytes.
    pub fn payload(&self) -> Option<Encoded<'a, T>>
        ensures bytes { MatchOption result (self.now.1 ≡ []) (λ payload. payload ≡ self.now.1) }
        ensures there { InEachContext X.is_key self.now.0 (λ c. is_some result ≡ K.holds c) }
    {
        if !K::test_key(&self.key) {
            return None;
        }
        Some(Encoded::from_proved(self.bytes))
    }
}

impl<'a, K: Keyed + Drop, X: HoldsKey<K>, T: ValidateFor<K>> EncodedFor<'a, X, By<K, T>> {
    /// The encoding in the context of the tag that the context holds: the same bytes.
    pub fn held(&self) -> EncodedFor<'a, K, T>
        ensures bytes { result.1 ≡ self.now.1 }
        ensures key { InEachContext X.is_key self.now.0 (λ c. K.is_key result.0 (X.held c)) }
    {
        let key = X::held_key(&self.key);
        let bytes = self.bytes;
        let of = PhantomData;
        EncodedFor { key, bytes, of }
    }
}
