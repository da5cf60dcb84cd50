//! Vectors are encoded as lists after a length of one to four bytes. What conversions, clones and
//! places give. Vectors are compared and hashed as the lists of their elements are.
//!
//! The functions do nothing. Their contracts state this, and so are proved.
ghost use Rattle.std.specs.Prelude.{◌≡◌, ◌↔◌, ◌<◌, ℕ, List, Vec, length, slice_index_or};
ghost use Rattle.std.specs.Global.{Global};
ghost use Rattle.std.specs.Cmp.Lexicographic.{pointwise};
ghost use Rattle.std.specs.Hash as fed;
ghost use Rattle.std.specs.List.{AllZip};
ghost use Rattle.tls_codec_grammar.specs.Tree.{Tree};
ghost use Rattle.tls_codec_grammar.specs.Grammar.{Direction, fixed_list};
ghost use Rattle.tls_codec_vec.specs.Contents.{elements_of};
ghost use Rattle.tls_codec_vec.specs.declared.list.TlsVec.{TlsVec};

use crate::TlsVec;
use std::hash::Hash;
use std::ops::Index;
use tls_codec_base::Size;
use tls_codec_wire::U24;

/// A conversion from or to a `Vec` keeps the elements.
pub fn conversions_keep_the_elements<F, T>()
    ensures to { (elements : Vec T Global) (v : TlsVec F T)
        → ⟦<TlsVec<F, T> as From<Vec<T>>>⟧.from_gives elements v
        ↔ (elements_of v ≡ elements.items) }
    ensures back { (v : TlsVec F T) (elements : Vec T Global)
        → ⟦<Vec<T> as From<TlsVec<F, T>>>⟧.from_gives v elements
        ↔ (elements.items ≡ elements_of v) }
{}

/// A clone has a clone of each element, in their order.
pub fn clones_have_clones_of_the_elements<F, T: Clone>()
    ensures { (v copy : TlsVec F T)
        → ⟦<TlsVec<F, T> as Clone>⟧.is_clone v copy
        ↔ AllZip T.is_clone (elements_of v) (elements_of copy) }
{}

/// `v[i]` is the element at a place below the length.
pub fn places_give_their_elements<F, T>()
    ensures allowed { (v : TlsVec F T) (i : ℕ)
        → ⟦<TlsVec<F, T> as Index<usize>>⟧.can_index v i
        ↔ (i < length (elements_of v)) }
    ensures given { (v : TlsVec F T) (i : ℕ) (x : T)
        → ⟦<TlsVec<F, T> as Index<usize>>⟧.index_gives v i x
        ↔ (x ≡ slice_index_or (elements_of v) i x) }
{}

/// The four names have the encodings of a list whose length has one to four bytes (RFC 8446,
/// section 3.4).
pub fn vectors_are_lists_after_lengths_of_one_to_four_bytes<T: Size>()
    ensures one { (d : Direction) (b : List ℕ) (v : Tree)
        → ⟦<TlsVec<u8, T> as Size>⟧.format.spells d b v
        ↔ fixed_list 1 T.format.spells d b v }
    ensures two { (d : Direction) (b : List ℕ) (v : Tree)
        → ⟦<TlsVec<u16, T> as Size>⟧.format.spells d b v
        ↔ fixed_list 2 T.format.spells d b v }
    ensures three { (d : Direction) (b : List ℕ) (v : Tree)
        → ⟦<TlsVec<U24, T> as Size>⟧.format.spells d b v
        ↔ fixed_list 3 T.format.spells d b v }
    ensures four { (d : Direction) (b : List ℕ) (v : Tree)
        → ⟦<TlsVec<u32, T> as Size>⟧.format.spells d b v
        ↔ fixed_list 4 T.format.spells d b v }
{}

/// Two vectors are equal if they have as many elements and these are equal, place by place.
pub fn vectors_are_compared_by_their_elements<F, T: PartialEq>()
    ensures { (x y : TlsVec F T)
        → ⟦<TlsVec<F, T> as PartialEq>⟧.eq x y ≡ pointwise T.eq (elements_of x) (elements_of y) }
{}

/// A vector is hashed as the slice of its elements is.
pub fn vectors_are_hashed_by_their_elements<F, T: Eq + Hash>()
    ensures { (x : TlsVec F T)
        → ⟦<TlsVec<F, T> as Hash>⟧.hash_input x ≡ fed.slice T.hash_input (elements_of x) }
{}
