//! Byte vectors are encoded as bytes after a length of one to four bytes. What conversions, clones
//! and places give. Byte vectors are compared and hashed as the lists of their bytes are.
//!
//! The functions do nothing. Their contracts state this, and so are proved.
ghost use Rattle.std.specs.Prelude.{◌≡◌, ◌↔◌, ◌<◌, ℕ, IsTrue, List, Some, Vec, length, slice_get};
ghost use Rattle.std.specs.Global.{Global};
ghost use Rattle.std.specs.Hash as fed;
ghost use Rattle.tls_codec_grammar.specs.Tree.{Tree};
ghost use Rattle.tls_codec_grammar.specs.Grammar.{Direction, fixed_list, number};
ghost use Rattle.tls_codec_bytes.specs.Contents.{bytes_of};
ghost use Rattle.tls_codec_bytes.specs.declared.bytes.TlsByteVec.{TlsByteVec};

use crate::TlsByteVec;
use std::hash::Hash;
use std::ops::Index;
use tls_codec_base::Size;
use tls_codec_wire::U24;

/// A conversion from or to a `Vec<u8>` keeps the bytes.
pub fn conversions_keep_the_bytes<F>()
    ensures to { (content : Vec ℕ Global) (v : TlsByteVec F)
        → ⟦<TlsByteVec<F> as From<Vec<u8>>>⟧.from_gives content v
        ↔ (bytes_of v ≡ content.items) }
    ensures back { (v : TlsByteVec F) (content : Vec ℕ Global)
        → ⟦<Vec<u8> as From<TlsByteVec<F>>>⟧.from_gives v content
        ↔ (content.items ≡ bytes_of v) }
{}

/// A clone has the same bytes.
pub fn clones_have_the_same_bytes<F>()
    ensures { (v copy : TlsByteVec F)
        → ⟦<TlsByteVec<F> as Clone>⟧.is_clone v copy
        ↔ (bytes_of copy ≡ bytes_of v) }
{}

/// `v[i]` is the byte at a place below the length.
pub fn places_give_their_bytes<F>()
    ensures allowed { (v : TlsByteVec F) (i : ℕ)
        → ⟦<TlsByteVec<F> as Index<usize>>⟧.can_index v i
        ↔ (i < length (bytes_of v)) }
    ensures given { (v : TlsByteVec F) (i x : ℕ)
        → ⟦<TlsByteVec<F> as Index<usize>>⟧.index_gives v i x
        ↔ (slice_get (bytes_of v) i ≡ Some x) }
{}

/// The four names have the encodings of a list of bytes whose length has one to four bytes (RFC
/// 8446, section 3.4).
pub fn byte_vecs_are_bytes_after_lengths_of_one_to_four_bytes()
    ensures one { (d : Direction) (b : List ℕ) (v : Tree)
        → ⟦<TlsByteVec<u8> as Size>⟧.format.spells d b v
        ↔ fixed_list 1 (number 1) d b v }
    ensures two { (d : Direction) (b : List ℕ) (v : Tree)
        → ⟦<TlsByteVec<u16> as Size>⟧.format.spells d b v
        ↔ fixed_list 2 (number 1) d b v }
    ensures three { (d : Direction) (b : List ℕ) (v : Tree)
        → ⟦<TlsByteVec<U24> as Size>⟧.format.spells d b v
        ↔ fixed_list 3 (number 1) d b v }
    ensures four { (d : Direction) (b : List ℕ) (v : Tree)
        → ⟦<TlsByteVec<u32> as Size>⟧.format.spells d b v
        ↔ fixed_list 4 (number 1) d b v }
{}

/// Two byte vectors are equal if their bytes are, and are hashed as the slice of their bytes is,
/// whatever the length field.
pub fn byte_vecs_are_compared_by_their_bytes<F>()
    ensures equal { (x y : TlsByteVec F)
        → IsTrue (⟦<TlsByteVec<F> as PartialEq>⟧.eq x y)
        ↔ (bytes_of x ≡ bytes_of y) }
    ensures hashed { (x : TlsByteVec F)
        → ⟦<TlsByteVec<F> as Hash>⟧.hash_input x ≡ fed.slice fed.u8 (bytes_of x) }
{}
