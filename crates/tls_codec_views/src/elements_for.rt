//! [`ElementsFor`]: the elements of a list in a context.
ghost use Rattle.std.specs.Prelude.{◌≡◌, ℕ, List, length};
ghost use Rattle.std.specs.Iterator.{at_most};
ghost use Rattle.tls_codec_grammar.specs.Field.{variable_field};
ghost use Rattle.tls_codec_grammar.specs.Format.{content_format};
ghost use Rattle.tls_codec_views.specs.Views.{GivesElementFor, IsAfterLength, IsEncodedFor};

use crate::content::after_length;
use crate::encoded_for::{EncodedFor, take_for};
use std::marker::{Model, PhantomData};
use tls_codec_base::LengthField;
use tls_codec_validate::{Keyed, ValidateFor};
use tls_codec_vec::TlsVec;
use tls_codec_wire::TlsVarInt;

/// The encodings of the elements of a list in a context, in a row: an iterator over them, which can't fail.
#[derive(Drop)]
pub struct ElementsFor<'a, X: Keyed, T: ValidateFor<X>> {
    key: X::Key,
    bytes: &'a [u8],
    of: PhantomData<T>,
}

impl<'a, X: Keyed, T: ValidateFor<X>> Model for ElementsFor<'a, X, T> {
    ghost Value = { X.Key × List ℕ };

    ghost view = { λ e. (e.key, e.bytes.now) };

    ghost invariant = { λ e. IsEncodedFor X.is_key e.key (λ c. content_format (T.format_for c))
        e.bytes.now };
}

impl<'a, X: Keyed, T: ValidateFor<X>> Iterator for ElementsFor<'a, X, T> {
    type Item = EncodedFor<'a, X, T>;

    ghost next_gives = { GivesElementFor };

    ghost remaining = { λ s. at_most (length s.1) };

    fn next(&mut self) -> Option<EncodedFor<'a, X, T>> {
        if self.bytes.is_empty() {
            return None;
        }
        let (element, rest) = take_for::<X, T>(self.key, self.bytes);
        self.bytes = rest;
        Some(element)
    }
}

impl<'a, X: Keyed, T: ValidateFor<X>> EncodedFor<'a, X, Vec<T>> {
    /// The elements, in the same context.
    pub fn elements(&self) -> ElementsFor<'a, X, T>
        ensures bytes { IsAfterLength variable_field self.now.1 result.1 }
        ensures key { result.0 ≡ self.now.0 }
    {
        ElementsFor {
            key: self.key,
            bytes: after_length::<TlsVarInt>(self.bytes),
            of: PhantomData,
        }
    }
}

impl<'a, X: Keyed, F: LengthField, T: ValidateFor<X>> EncodedFor<'a, X, TlsVec<F, T>> {
    /// The elements, in the same context.
    pub fn elements(&self) -> ElementsFor<'a, X, T>
        ensures bytes { IsAfterLength F.field self.now.1 result.1 }
        ensures key { result.0 ≡ self.now.0 }
    {
        ElementsFor {
            key: self.key,
            bytes: after_length::<F>(self.bytes),
            of: PhantomData,
        }
    }
}
