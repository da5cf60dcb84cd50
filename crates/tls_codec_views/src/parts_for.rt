//! [`PartedFor`] and [`ChoiceFor`]: messages of your own that a context decides.
ghost use Rattle.std.specs.Prelude.{◌≡◌, ℕ, List};
ghost use Rattle.tls_codec_grammar.specs.Tree.{Tree};
ghost use Rattle.tls_codec_grammar.specs.Tagged.{Variants};
ghost use Rattle.tls_codec_grammar.specs.Contexts.{chosen};
ghost use Rattle.tls_codec_base.specs.PartNames.{IsSpelling};
ghost use Rattle.tls_codec_views.specs.Views.{InEachContext};

use crate::encoded_for::EncodedFor;
use std::marker::PhantomData;
use tls_codec_validate::{Keyed, TagKeyed, ValidateFor};

/// A message of your own that is encoded in a context as its parts are, in a tuple.
pub trait PartedFor<X: Keyed>: ValidateFor<X> {
    /// The tuple of its parts.
    type Parts: ValidateFor<X>;

    ghost as_parts: { (c : Tree) (bytes : List ℕ)
        → IsSpelling (Self.format_for c).spells bytes
        → IsSpelling (Self.Parts.format_for c).spells bytes };
}

impl<'a, X: Keyed, T: PartedFor<X>> EncodedFor<'a, X, T> {
    /// The encoding of its parts: the same bytes, in the same context.
    pub fn parts(&self) -> EncodedFor<'a, X, T::Parts>
        ensures { result ≡ self.now }
    {
        EncodedFor {
            key: self.key,
            bytes: self.bytes,
            of: PhantomData,
        }
    }
}

/// A select of your own, which has the case that its context's tag says (RFC 8446, section 3.8).
pub trait ChoiceFor<K: TagKeyed>: ValidateFor<K> {
    // What each tag has.
    ghost variants: { Variants };

    ghost as_choice: { (c : Tree) (bytes : List ℕ)
        → IsSpelling (Self.format_for c).spells bytes
        → IsSpelling (chosen (K.selected c) variants) bytes };
}

impl<'a, K: TagKeyed, T: ChoiceFor<K>> EncodedFor<'a, K, T> {
    /// The number of the context's tag, and the encodings of its case's parts: the same bytes.
    pub fn case(&self) -> (u64, &'a [u8])
        ensures tag { InEachContext K.is_key self.now.0 (λ c. result.0 ≡ K.selected c) }
        ensures bytes { result.1.now ≡ self.now.1 }
        ensures parts { IsSpelling (T.variants.parts result.0).spells result.1.now }
    {
        (K::tag_of_key(&self.key), self.bytes)
    }
}
