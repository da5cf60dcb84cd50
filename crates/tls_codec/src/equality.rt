//! Values that stand for one tree are equal. So what was read is equal to what was written.
//!
//! A type of your own has to say this for itself. The functions do nothing: their contracts state this, and so
//! are proved.
ghost use Rattle.std.specs.Prelude.{◌≡◌};
ghost use Rattle.tls_codec_base.specs.Meanings.{EqualWhereAlike};

use tls_codec_base::{LengthField, Size};
use tls_codec_bytes::TlsByteVec;
use tls_codec_secret::SecretTlsVec;
use tls_codec_vec::TlsVec;
use tls_codec_vl::{
    SecretVLByteVec, SecretVLBytes, SecretVarBytes, VLByteVec, VLBytes, VarBytes, Zeroize,
};
use tls_codec_wire::{TlsVarInt, U24};

/// Numbers, arrays and texts.
pub fn single_values_are_equal_where_alike<const LEN: usize>()
    ensures u8 { EqualWhereAlike ⟦<u8 as Size>⟧.plain ⟦<u8 as PartialEq>⟧.eq }
    ensures u16 { EqualWhereAlike ⟦<u16 as Size>⟧.plain ⟦<u16 as PartialEq>⟧.eq }
    ensures u24 { EqualWhereAlike ⟦<U24 as Size>⟧.plain ⟦<U24 as PartialEq>⟧.eq }
    ensures u32 { EqualWhereAlike ⟦<u32 as Size>⟧.plain ⟦<u32 as PartialEq>⟧.eq }
    ensures u64 { EqualWhereAlike ⟦<u64 as Size>⟧.plain ⟦<u64 as PartialEq>⟧.eq }
    ensures integer { EqualWhereAlike ⟦<TlsVarInt as Size>⟧.plain ⟦<TlsVarInt as PartialEq>⟧.eq }
    ensures array { EqualWhereAlike ⟦<[u8; LEN] as Size>⟧.plain ⟦<[u8; LEN] as PartialEq>⟧.eq }
    ensures text { EqualWhereAlike ⟦<String as Size>⟧.plain ⟦<String as PartialEq>⟧.eq }
{}

/// Byte vectors.
pub fn bytes_are_equal_where_alike<F: LengthField>()
    ensures vl_bytes { EqualWhereAlike ⟦<VLBytes as Size>⟧.plain ⟦<VLBytes as PartialEq>⟧.eq }
    ensures vl_byte_vec { EqualWhereAlike ⟦<VLByteVec as Size>⟧.plain
        ⟦<VLByteVec as PartialEq>⟧.eq }
    ensures secret_vl_bytes { EqualWhereAlike ⟦<SecretVLBytes as Size>⟧.plain
        ⟦<SecretVLBytes as PartialEq>⟧.eq }
    ensures secret_vl_byte_vec { EqualWhereAlike ⟦<SecretVLByteVec as Size>⟧.plain
        ⟦<SecretVLByteVec as PartialEq>⟧.eq }
    ensures counted { EqualWhereAlike ⟦<TlsByteVec<F> as Size>⟧.plain
        ⟦<TlsByteVec<F> as PartialEq>⟧.eq }
{}

/// Byte vectors after a variable-length length, under any name.
pub fn bytes_of_any_name_are_equal_where_alike<N>()
    ensures bytes { EqualWhereAlike ⟦<VarBytes<N> as Size>⟧.plain ⟦<VarBytes<N> as PartialEq>⟧.eq }
    ensures secret { EqualWhereAlike ⟦<SecretVarBytes<N> as Size>⟧.plain
        ⟦<SecretVarBytes<N> as PartialEq>⟧.eq }
{}

/// Options and products, if their parts are.
pub fn parts_are_equal_where_alike<T: Size + PartialEq, U: Size + PartialEq, V: Size + PartialEq>()
    ensures options { EqualWhereAlike T.plain T.eq
        → EqualWhereAlike ⟦<Option<T> as Size>⟧.plain ⟦<Option<T> as PartialEq>⟧.eq }
    ensures pairs { EqualWhereAlike T.plain T.eq → EqualWhereAlike U.plain U.eq
        → EqualWhereAlike ⟦<(T, U) as Size>⟧.plain ⟦<(T, U) as PartialEq>⟧.eq }
    ensures triples { EqualWhereAlike T.plain T.eq
        → EqualWhereAlike U.plain U.eq
        → EqualWhereAlike V.plain V.eq
        → EqualWhereAlike ⟦<(T, U, V) as Size>⟧.plain ⟦<(T, U, V) as PartialEq>⟧.eq }
{}

/// Lists, if their elements are.
pub fn lists_are_equal_where_alike<F: LengthField, T: Size + PartialEq + Zeroize>()
    ensures lists { EqualWhereAlike T.plain T.eq
        → EqualWhereAlike ⟦<Vec<T> as Size>⟧.plain ⟦<Vec<T> as PartialEq>⟧.eq }
    ensures counted { EqualWhereAlike T.plain T.eq
        → EqualWhereAlike ⟦<TlsVec<F, T> as Size>⟧.plain ⟦<TlsVec<F, T> as PartialEq>⟧.eq }
    ensures secret { EqualWhereAlike T.plain T.eq
        → EqualWhereAlike ⟦<SecretTlsVec<F, T> as Size>⟧.plain
        ⟦<SecretTlsVec<F, T> as PartialEq>⟧.eq }
{}
