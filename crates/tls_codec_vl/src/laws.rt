//! What conversions, copies and clearing give. And that vectors are compared, ordered, hashed and printed as the
//! lists of their bytes are.
//!
//! The functions do nothing. Their contracts state this, and so are proved.
ghost use Rattle.std.specs.Prelude.{◌≡◌, ◌↔◌, ℕ, List, [], codes, replicate, IsTrue, Some, Vec};
ghost use Rattle.std.specs.Global.{Global};
ghost use Rattle.std.specs.Ordering.{nat_cmp};
ghost use Rattle.std.specs.Cmp.Lexicographic.{slice_cmp};
ghost use Rattle.std.specs.Hash as fed;
ghost use Rattle.tls_codec_vl.specs.Contents.{SecretVLByteVec, SecretVLBytes, VLByteVec, VLBytes, bytes_of, secret_bytes_of, secret_vec_bytes_of, slice_bytes_of, vec_bytes_of};
ghost use Rattle.tls_codec_vl.specs.Shown.{debug_text};
ghost use Rattle.tls_codec_vl.specs.declared.secret_var_bytes.SecretVarBytes.{SecretVarBytes};
ghost use Rattle.tls_codec_vl.specs.declared.var_bytes.VarBytes.{VarBytes};
ghost use Rattle.tls_codec_vl.specs.declared.vl_byte_slice.VLByteSlice.{VLByteSlice};

use crate::{
    SecretVLByteVec, SecretVLBytes, SecretVarBytes, VLByteSlice, VLByteVec, VLBytes, VarBytes,
    Zeroize,
};
use std::fmt::Debug;
use std::hash::Hash;

/// A conversion from or to a `Vec<u8>` keeps the bytes. A clone of bytes has them, and a copy of what is borrowed
/// equals it.
pub fn conversions_and_copies_keep_the_bytes<'a, N>()
    ensures to_bytes { (content : Vec ℕ Global) (v : VarBytes N)
        → ⟦<VarBytes<N> as From<Vec<u8>>>⟧.from_gives content v
        ↔ (bytes_of v ≡ content.items) }
    ensures from_bytes { (v : VarBytes N) (content : Vec ℕ Global)
        → ⟦<Vec<u8> as From<VarBytes<N>>>⟧.from_gives v content
        ↔ (content.items ≡ bytes_of v) }
    ensures to_secret { (content : Vec ℕ Global) (v : SecretVarBytes N)
        → ⟦<SecretVarBytes<N> as From<Vec<u8>>>⟧.from_gives content v
        ↔ (secret_bytes_of v ≡ content.items) }
    ensures bytes { (v copy : VarBytes N)
        → ⟦<VarBytes<N> as Clone>⟧.is_clone v copy
        ↔ (bytes_of copy ≡ bytes_of v) }
    ensures vl_byte_slice { (v copy : VLByteSlice)
        → ⟦<VLByteSlice<'a> as Clone>⟧.is_clone v copy
        ↔ (copy ≡ v) }
{}

/// A number is cleared if it is 0, an array if it holds zeros, and a list if it is empty.
pub fn cleared_values_hold_nothing<const LEN: usize, T: Zeroize>()
    ensures one_byte { (n : ℕ) → ⟦<u8 as Zeroize>⟧.cleared n ↔ (n ≡ 0) }
    ensures two_bytes { (n : ℕ) → ⟦<u16 as Zeroize>⟧.cleared n ↔ (n ≡ 0) }
    ensures four_bytes { (n : ℕ) → ⟦<u32 as Zeroize>⟧.cleared n ↔ (n ≡ 0) }
    ensures eight_bytes { (n : ℕ) → ⟦<u64 as Zeroize>⟧.cleared n ↔ (n ≡ 0) }
    ensures array { (bytes : List ℕ)
        → ⟦<[u8; LEN] as Zeroize>⟧.cleared bytes
        ↔ (bytes ≡ replicate LEN 0) }
    ensures list { (list : Vec T Global) → ⟦<Vec<T> as Zeroize>⟧.cleared list ↔ (list.items ≡ []) }
{}

/// A byte vector is cleared if it is empty.
pub fn cleared_byte_vectors_are_empty<N>()
    ensures bytes { (v : VarBytes N) → ⟦<VarBytes<N> as Zeroize>⟧.cleared v ↔ (bytes_of v ≡ []) }
    ensures secret { (v : SecretVarBytes N)
        → ⟦<SecretVarBytes<N> as Zeroize>⟧.cleared v
        ↔ (secret_bytes_of v ≡ []) }
{}

/// `{:?}` prints the type's name and the bytes in braces, those of secrets too.
pub fn bytes_are_printed<'a>()
    ensures vl_bytes { (v : VLBytes)
        → ⟦<VLBytes as Debug>⟧.debug_output v ≡ Some (debug_text (codes "VLBytes") (bytes_of v)) }
    ensures vl_byte_vec { (v : VLByteVec)
        → ⟦<VLByteVec as Debug>⟧.debug_output v
        ≡ Some (debug_text (codes "VLByteVec") (vec_bytes_of v)) }
    ensures vl_byte_slice { (v : VLByteSlice)
        → ⟦<VLByteSlice<'a> as Debug>⟧.debug_output v
        ≡ Some (debug_text (codes "VLByteSlice") (slice_bytes_of v)) }
    ensures secret_vl_bytes { (v : SecretVLBytes)
        → ⟦<SecretVLBytes as Debug>⟧.debug_output v
        ≡ Some (debug_text (codes "SecretVLBytes") (secret_bytes_of v)) }
    ensures secret_vl_byte_vec { (v : SecretVLByteVec)
        → ⟦<SecretVLByteVec as Debug>⟧.debug_output v
        ≡ Some (debug_text (codes "SecretVLByteVec") (secret_vec_bytes_of v)) }
{}

/// Byte vectors are equal if their bytes are. They are ordered at the first byte in which they
/// differ, the shorter first if there is none. They are hashed as the slice of their bytes is.
pub fn byte_vectors_are_compared_by_their_bytes<N>()
    ensures equal { (x y : VarBytes N)
        → IsTrue (⟦<VarBytes<N> as PartialEq>⟧.eq x y)
        ↔ (bytes_of x ≡ bytes_of y) }
    ensures ordered { (x y : VarBytes N)
        → ⟦<VarBytes<N> as Ord>⟧.cmp x y ≡ slice_cmp nat_cmp (bytes_of x) (bytes_of y) }
    ensures partly { (x y : VarBytes N)
        → ⟦<VarBytes<N> as PartialOrd>⟧.partial_cmp x y
        ≡ Some (slice_cmp nat_cmp (bytes_of x) (bytes_of y)) }
    ensures hashed { (x : VarBytes N)
        → ⟦<VarBytes<N> as Hash>⟧.hash_input x ≡ fed.slice fed.u8 (bytes_of x) }
{}

/// The same of secret ones.
pub fn secret_byte_vectors_are_compared_by_their_bytes<N>()
    ensures equal { (x y : SecretVarBytes N)
        → IsTrue (⟦<SecretVarBytes<N> as PartialEq>⟧.eq x y)
        ↔ (secret_bytes_of x ≡ secret_bytes_of y) }
    ensures ordered { (x y : SecretVarBytes N)
        → ⟦<SecretVarBytes<N> as Ord>⟧.cmp x y
        ≡ slice_cmp nat_cmp (secret_bytes_of x) (secret_bytes_of y) }
    ensures partly { (x y : SecretVarBytes N)
        → ⟦<SecretVarBytes<N> as PartialOrd>⟧.partial_cmp x y
        ≡ Some (slice_cmp nat_cmp (secret_bytes_of x) (secret_bytes_of y)) }
    ensures hashed { (x : SecretVarBytes N)
        → ⟦<SecretVarBytes<N> as Hash>⟧.hash_input x ≡ fed.slice fed.u8 (secret_bytes_of x) }
{}
