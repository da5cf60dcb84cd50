//! Equal vectors have equal hashes. Byte vectors are ordered as lists of bytes. Messages are equal
//! if their fields are. A step has one encoding.
//!
//! The functions do nothing. Their contracts state this, and so are proved.
ghost use Rattle.std.specs.Prelude.{◌≡◌, ◌⊎◌, ◌↔◌, ◌&&◌, ℕ, [], ◌∷◌, IsTrue, Some};
ghost use Rattle.std.specs.Ordering.{nat_cmp};
ghost use Rattle.std.specs.Cmp.Lexicographic.{slice_cmp};
ghost use Rattle.tls_codec.specs.OwnMessages.{Tree, Number, Empty, Join};
ghost use Rattle.tls_codec.specs.Spellings.{IsLawful};
ghost use Rattle.tls_codec_vectors.specs.Messages.{SameStep, step_format};
ghost use Rattle.tls_codec_vectors.specs.declared.leaf.Leaf.{Leaf};
ghost use Rattle.tls_codec_vectors.specs.declared.log.Log.{Log};
ghost use Rattle.tls_codec_vectors.specs.declared.step.Step.{Step};
ghost use Rattle.tls_codec.specs.Contents.{SecretTlsVec, SecretVLByteVec, SecretVLBytes, TlsByteVec, TlsVec, VLByteVec, VLBytes, bytes_of, vec_bytes_of};

use crate::{Leaf, Log, Step};
use std::hash::Hash;
use tls_codec::{
    SecretTlsVec, SecretVLByteVec, SecretVLBytes, TlsByteVec, TlsVec, VLByteVec, VLBytes, Zeroize,
};

/// Equal lists feed every hasher the same, so that their hashes are equal. Of elements this asks only what
/// `Eq` and `Hash` demand of each type: equality is an equivalence, and equal ones are hashed alike.
pub fn equal_vectors_have_equal_hashes<F, T: Eq + Hash>()
    ensures { (x y : TlsVec F T)
        → IsTrue (⟦<TlsVec<F, T> as PartialEq>⟧.eq x y)
        → ⟦<TlsVec<F, T> as Hash>⟧.hash_input x ≡ ⟦<TlsVec<F, T> as Hash>⟧.hash_input y }
{}

/// The same of secret lists.
pub fn equal_secret_vectors_have_equal_hashes<F, T: Eq + Hash + Zeroize>()
    ensures { (x y : SecretTlsVec F T)
        → IsTrue (⟦<SecretTlsVec<F, T> as PartialEq>⟧.eq x y)
        → ⟦<SecretTlsVec<F, T> as Hash>⟧.hash_input x
        ≡ ⟦<SecretTlsVec<F, T> as Hash>⟧.hash_input y }
{}

/// The same of byte vectors, after any length, secret ones too.
pub fn equal_byte_vectors_have_equal_hashes<F>()
    ensures fixed { (x y : TlsByteVec F)
        → IsTrue (⟦<TlsByteVec<F> as PartialEq>⟧.eq x y)
        → ⟦<TlsByteVec<F> as Hash>⟧.hash_input x ≡ ⟦<TlsByteVec<F> as Hash>⟧.hash_input y }
    ensures variable { (x y : VLBytes)
        → IsTrue (⟦<VLBytes as PartialEq>⟧.eq x y)
        → ⟦<VLBytes as Hash>⟧.hash_input x ≡ ⟦<VLBytes as Hash>⟧.hash_input y }
    ensures variable_vec { (x y : VLByteVec)
        → IsTrue (⟦<VLByteVec as PartialEq>⟧.eq x y)
        → ⟦<VLByteVec as Hash>⟧.hash_input x ≡ ⟦<VLByteVec as Hash>⟧.hash_input y }
    ensures secret { (x y : SecretVLBytes)
        → IsTrue (⟦<SecretVLBytes as PartialEq>⟧.eq x y)
        → ⟦<SecretVLBytes as Hash>⟧.hash_input x ≡ ⟦<SecretVLBytes as Hash>⟧.hash_input y }
    ensures secret_vec { (x y : SecretVLByteVec)
        → IsTrue (⟦<SecretVLByteVec as PartialEq>⟧.eq x y)
        → ⟦<SecretVLByteVec as Hash>⟧.hash_input x ≡ ⟦<SecretVLByteVec as Hash>⟧.hash_input y }
{}

/// `VLBytes` and `VLByteVec` are ordered as lists of bytes: at the first byte in which they differ. If
/// there is none, the shorter one comes first.
pub fn byte_vectors_are_ordered_as_lists_of_bytes()
    ensures bytes { (x y : VLBytes)
        → ⟦<VLBytes as Ord>⟧.cmp x y ≡ slice_cmp nat_cmp (bytes_of x) (bytes_of y) }
    ensures bytes_partly { (x y : VLBytes)
        → ⟦<VLBytes as PartialOrd>⟧.partial_cmp x y
        ≡ Some (slice_cmp nat_cmp (bytes_of x) (bytes_of y)) }
    ensures vec { (x y : VLByteVec)
        → ⟦<VLByteVec as Ord>⟧.cmp x y ≡ slice_cmp nat_cmp (vec_bytes_of x) (vec_bytes_of y) }
    ensures vec_partly { (x y : VLByteVec)
        → ⟦<VLByteVec as PartialOrd>⟧.partial_cmp x y
        ≡ Some (slice_cmp nat_cmp (vec_bytes_of x) (vec_bytes_of y)) }
{}

/// Two messages are equal if their fields are.
pub fn messages_are_compared_by_their_fields()
    ensures leaf { (x y : Leaf)
        → IsTrue (⟦<Leaf as PartialEq>⟧.eq x y)
        ↔ ((x.code ≡ y.code) × (bytes_of x.name ≡ bytes_of y.name)) }
    ensures step { (x y : Step) → IsTrue (⟦<Step as PartialEq>⟧.eq x y) ↔ SameStep x y }
    ensures log { (x y : Log)
        → ⟦<Log as PartialEq>⟧.eq x y
        ≡ (⟦<TlsByteVec<u8> as PartialEq>⟧.eq x.id y.id
        && (⟦<TlsVec<u16, Leaf> as PartialEq>⟧.eq x.leaves y.leaves
        && ⟦<Option<Step> as PartialEq>⟧.eq x.last y.last)) }
{}

/// If the bytes 03 00 encoded [`Step::Ping`](crate::Step::Ping) too, steps would meet no laws,
/// whatever they announced: a value has at most one encoding.
pub fn second_spelling_of_ping_is_unlawful()
    ensures { (announced : Tree → ℕ)
        → IsLawful
        (λ d s v. step_format.spells d s v ⊎ ((s ≡ 3 ∷ 0 ∷ []) × (v ≡ Join (Number 0) Empty)))
        announced
        → ⊥ }
{}
