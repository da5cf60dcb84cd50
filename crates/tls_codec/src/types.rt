//! The table of types: what the values of each public type stand for, how they are encoded, and
//! which errors its decoders name.
//!
//! Each type has a line, and references to it have one. The functions do nothing: each line is a
//! clause, and so is proved. What an `impl` says of its type has to be what the table says. The
//! formats are explained in docs/DEFINITIONS.md, and a rejected slice or source in
//! docs/ERRORS.md.
ghost use Rattle.std.specs.Prelude.{◌≡◌, ◌^◌, string_bytes};
ghost use Rattle.tls_codec_wire.specs.Numbers.{NumberNotRead};
ghost use Rattle.tls_codec_wire.specs.Transfer.{ReadRefused};
ghost use Rattle.tls_codec_wire.specs.Uint24 as uint24;
ghost use Rattle.tls_codec_wire.specs.VarintCalls.{RefusesBelow};
ghost use Rattle.tls_codec_wire.specs.VarintValue as varint;
ghost use Rattle.tls_codec_grammar.specs.Tree.{Empty, Join, Number, number_trees, option_plain, trees};
ghost use Rattle.tls_codec_grammar.specs.Field.{bounded_field, fixed_field, variable_field};
ghost use Rattle.tls_codec_grammar.specs.Format.{array_format, bytes_format, counted_bytes_format, counted_list_format, fixed_list_format, list_format, nothing_format, number_format, option_format, pair_format, text_format, triple_format, varint_format, with_memory};
ghost use Rattle.tls_codec_grammar.specs.Opaque.{OpaqueCopyRefused, OpaqueSourceRefused, TextRefused, TextSourceRefused};
ghost use Rattle.tls_codec_base.specs.PartNames.{box_names, box_source_names, counted_list_names, counted_list_source_names, fields_names, fields_source_names, list_names, list_source_names, option_names, option_source_names};
ghost use Rattle.tls_codec_base.specs.Meanings.{Means, SameField, SameNames, SameSourceNames, too_few};
ghost use Rattle.tls_codec_base.specs.OwnMessages.{bounded_bytes_format, bounded_list_format, fixed_bytes_format, pair_tree, triple_tree};
ghost use Rattle.tls_codec_slice.specs.Contents.{u16_bytes_of, u16_elements_of, u24_bytes_of, u24_elements_of, u32_bytes_of, u32_elements_of, u8_bytes_of, u8_elements_of};
ghost use Rattle.tls_codec.specs.Contents.{bytes_of, elements_of, fixed_bytes_of, secret_bytes_of, secret_elements_of, secret_vec_bytes_of, slice_bytes_of, vec_bytes_of};

use std::marker::PhantomData;
use tls_codec_base::{
    ByRef, ByRef2, ByRef3, ByRef4, ByRef5, ByRef6, ByRef7, ByRef8, ByRef9, Deserialize,
    DeserializeBytes, LengthField, Size, Within,
};
use tls_codec_bytes::TlsByteVec;
use tls_codec_secret::SecretTlsVec;
use tls_codec_slice::{
    TlsByteSliceU8, TlsByteSliceU16, TlsByteSliceU24, TlsByteSliceU32, TlsSliceU8, TlsSliceU16,
    TlsSliceU24, TlsSliceU32,
};
use tls_codec_vec::TlsVec;
use tls_codec_vl::{
    SecretVLByteVec, SecretVLBytes, SecretVarBytes, VLByteSlice, VLByteVec, VLBytes, VarBytes,
    Zeroize,
};
use tls_codec_wire::{TlsVarInt, U24};

/// Numbers of one to eight bytes (RFC 8446, section 3.3).
pub fn numbers<'a>()
    ensures u8 { Means ⟦<u8 as Size>⟧ Number (number_format 1) }
    ensures u16 { Means ⟦<u16 as Size>⟧ Number (number_format 2) }
    ensures u24 { Means ⟦<U24 as Size>⟧ (λ n. Number (uint24.number_of n)) (number_format 3) }
    ensures u32 { Means ⟦<u32 as Size>⟧ Number (number_format 4) }
    ensures u64 { Means ⟦<u64 as Size>⟧ Number (number_format 8) }

    ensures u8_by_ref { Means ⟦<&'a u8 as Size>⟧ (λ n. Number n.now) (number_format 1) }
    ensures u16_by_ref { Means ⟦<&'a u16 as Size>⟧ (λ n. Number n.now) (number_format 2) }
    ensures u24_by_ref { Means ⟦<&'a U24 as Size>⟧ (λ n. Number (uint24.number_of n.now))
        (number_format 3) }
    ensures u32_by_ref { Means ⟦<&'a u32 as Size>⟧ (λ n. Number n.now) (number_format 4) }
    ensures u64_by_ref { Means ⟦<&'a u64 as Size>⟧ (λ n. Number n.now) (number_format 8) }
{}

/// Why numbers are not read: `EndOfStream` for too few bytes, or the source failed.
pub fn numbers_refused()
    ensures u8 { SameNames ⟦<u8 as DeserializeBytes>⟧.names (too_few 1) }
    ensures u16 { SameNames ⟦<u16 as DeserializeBytes>⟧.names (too_few 2) }
    ensures u24 { SameNames ⟦<U24 as DeserializeBytes>⟧.names (too_few 3) }
    ensures u32 { SameNames ⟦<u32 as DeserializeBytes>⟧.names (too_few 4) }
    ensures u64 { SameNames ⟦<u64 as DeserializeBytes>⟧.names (too_few 8) }

    ensures u8_source { SameSourceNames ⟦<u8 as Deserialize>⟧.names (ReadRefused 1) }
    ensures u16_source { SameSourceNames ⟦<u16 as Deserialize>⟧.names (ReadRefused 2) }
    ensures u24_source { SameSourceNames ⟦<U24 as Deserialize>⟧.names (ReadRefused 3) }
    ensures u32_source { SameSourceNames ⟦<u32 as Deserialize>⟧.names (ReadRefused 4) }
    ensures u64_source { SameSourceNames ⟦<u64 as Deserialize>⟧.names (ReadRefused 8) }
{}

/// Variable-length integers (varints) below 2^62, in the least width (RFC 9000, section 16; RFC 9420,
/// section 2.1.2).
pub fn variable_length_integers()
    ensures is { Means ⟦<TlsVarInt as Size>⟧ (λ n. Number (varint.number_of n)) varint_format }
    ensures slice { SameNames ⟦<TlsVarInt as DeserializeBytes>⟧.names (RefusesBelow (2 ^ 62)) }
    ensures source { SameSourceNames ⟦<TlsVarInt as Deserialize>⟧.names
        (NumberNotRead (RefusesBelow (2 ^ 62))) }
{}

/// Arrays of bytes, by themselves (RFC 8446, section 3.4).
pub fn arrays<const LEN: usize>()
    ensures is { Means ⟦<[u8; LEN] as Size>⟧ number_trees (array_format LEN) }
    ensures slice { SameNames ⟦<[u8; LEN] as DeserializeBytes>⟧.names (too_few LEN) }
    ensures source { SameSourceNames ⟦<[u8; LEN] as Deserialize>⟧.names (ReadRefused LEN) }
{}

/// Options: a byte 0, or a byte 1 and the payload (RFC 9420, section 2.1.1).
pub fn options<'a, T: Deserialize + DeserializeBytes>()
    ensures is { Means ⟦<Option<T> as Size>⟧ (option_plain T.plain) (option_format T.format) }
    ensures by_ref { Means ⟦<&'a Option<T> as Size>⟧ (λ v. option_plain T.plain v.now)
        (option_format T.format) }
    ensures slice { SameNames ⟦<Option<T> as DeserializeBytes>⟧.names
        (option_names T.DeserializeBytes.names) }
    ensures source { SameSourceNames ⟦<Option<T> as Deserialize>⟧.names
        (option_source_names T.Deserialize.names) }
{}

/// Pairs, their parts in a row.
pub fn pairs<T: Deserialize + DeserializeBytes, U: Deserialize + DeserializeBytes>()
    ensures is { Means ⟦<(T, U) as Size>⟧ (λ p. Join (T.plain p.0) (Join (U.plain p.1) Empty))
        (pair_format T.format U.format) }
    ensures slice { SameNames ⟦<(T, U) as DeserializeBytes>⟧.names
        (fields_names T.format T.DeserializeBytes.names U.DeserializeBytes.names) }
    ensures source { SameSourceNames ⟦<(T, U) as Deserialize>⟧.names
        (fields_source_names T.format T.Deserialize.names U.Deserialize.names) }
{}

/// Triples, their parts in a row.
pub fn triples<
    T: Deserialize + DeserializeBytes,
    U: Deserialize + DeserializeBytes,
    V: Deserialize + DeserializeBytes,
>()
    ensures is { Means ⟦<(T, U, V) as Size>⟧
        (λ p. Join (T.plain p.0) (Join (U.plain p.1) (Join (V.plain p.2) Empty)))
        (triple_format T.format U.format V.format) }
    ensures slice { SameNames ⟦<(T, U, V) as DeserializeBytes>⟧.names
        (fields_names T.format T.DeserializeBytes.names
        (fields_names U.format U.DeserializeBytes.names V.DeserializeBytes.names)) }
    ensures source { SameSourceNames ⟦<(T, U, V) as Deserialize>⟧.names
        (fields_source_names T.format T.Deserialize.names
        (fields_source_names U.format U.Deserialize.names V.Deserialize.names)) }
{}

/// Types of one value, of no bytes: they are never rejected.
pub fn nothing<T>()
    ensures unit { Means ⟦<() as Size>⟧ (λ v. Empty) nothing_format }
    ensures unit_slice { SameNames ⟦<() as DeserializeBytes>⟧.names (λ x e. ⊥) }
    ensures unit_source { SameSourceNames ⟦<() as Deserialize>⟧.names (λ x old new e. ⊥) }
    ensures phantom { Means ⟦<PhantomData<T> as Size>⟧ (λ v. Empty) nothing_format }
    ensures phantom_slice { SameNames ⟦<PhantomData<T> as DeserializeBytes>⟧.names (λ x e. ⊥) }
    ensures phantom_source { SameSourceNames ⟦<PhantomData<T> as Deserialize>⟧.names
        (λ x old new e. ⊥) }
{}

/// Boxes, as their content; a decoder takes memory for the box. And borrowed values, as what they are.
pub fn boxes<'a, T: Deserialize + DeserializeBytes + 'a>()
    ensures is { Means ⟦<Box<T> as Size>⟧ (λ b. T.plain b.value) (with_memory T.format) }
    ensures slice { SameNames ⟦<Box<T> as DeserializeBytes>⟧.names
        (box_names T.format T.DeserializeBytes.names) }
    ensures source { SameSourceNames ⟦<Box<T> as Deserialize>⟧.names
        (box_source_names T.format T.Deserialize.names) }
    ensures by_ref { Means ⟦<ByRef<'a, T> as Size>⟧ (λ v. T.plain v.0.now) T.format }
{}

/// Borrowed values in a row: two or three as the pair and the triple, and more as pairs and triples of those.
pub fn borrowed_rows<
    'a,
    A: Size + 'a,
    B: Size + 'a,
    C: Size + 'a,
    D: Size + 'a,
    E: Size + 'a,
    F: Size + 'a,
    G: Size + 'a,
    H: Size + 'a,
    I: Size + 'a,
>()
    ensures by_ref2 { Means ⟦<ByRef2<'a, A, B> as Size>⟧
        (λ v. pair_tree (A.plain v.0.now) (B.plain v.1.now))
        (pair_format A.format B.format) }
    ensures by_ref3 { Means ⟦<ByRef3<'a, A, B, C> as Size>⟧
        (λ v. triple_tree (A.plain v.0.now) (B.plain v.1.now) (C.plain v.2.now))
        (triple_format A.format B.format C.format) }
    ensures by_ref4 { Means ⟦<ByRef4<'a, A, B, C, D> as Size>⟧
        (λ v. pair_tree (pair_tree (A.plain v.0.now) (B.plain v.1.now))
        (pair_tree (C.plain v.2.now) (D.plain v.3.now)))
        (pair_format (pair_format A.format B.format) (pair_format C.format D.format)) }
    ensures by_ref5 { Means ⟦<ByRef5<'a, A, B, C, D, E> as Size>⟧
        (λ v. pair_tree (triple_tree (A.plain v.0.now) (B.plain v.1.now) (C.plain v.2.now))
        (pair_tree (D.plain v.3.now) (E.plain v.4.now)))
        (pair_format (triple_format A.format B.format C.format) (pair_format D.format E.format)) }
    ensures by_ref6 { Means ⟦<ByRef6<'a, A, B, C, D, E, F> as Size>⟧
        (λ v. pair_tree (triple_tree (A.plain v.0.now) (B.plain v.1.now) (C.plain v.2.now))
        (triple_tree (D.plain v.3.now) (E.plain v.4.now) (F.plain v.5.now)))
        (pair_format (triple_format A.format B.format C.format)
        (triple_format D.format E.format F.format)) }
    ensures by_ref7 { Means ⟦<ByRef7<'a, A, B, C, D, E, F, G> as Size>⟧
        (λ v. triple_tree (triple_tree (A.plain v.0.now) (B.plain v.1.now) (C.plain v.2.now))
        (pair_tree (D.plain v.3.now) (E.plain v.4.now))
        (pair_tree (F.plain v.5.now) (G.plain v.6.now)))
        (triple_format (triple_format A.format B.format C.format) (pair_format D.format E.format)
        (pair_format F.format G.format)) }
    ensures by_ref8 { Means ⟦<ByRef8<'a, A, B, C, D, E, F, G, H> as Size>⟧
        (λ v. triple_tree (triple_tree (A.plain v.0.now) (B.plain v.1.now) (C.plain v.2.now))
        (triple_tree (D.plain v.3.now) (E.plain v.4.now) (F.plain v.5.now))
        (pair_tree (G.plain v.6.now) (H.plain v.7.now)))
        (triple_format (triple_format A.format B.format C.format)
        (triple_format D.format E.format F.format) (pair_format G.format H.format)) }
    ensures by_ref9 { Means ⟦<ByRef9<'a, A, B, C, D, E, F, G, H, I> as Size>⟧
        (λ v. triple_tree (triple_tree (A.plain v.0.now) (B.plain v.1.now) (C.plain v.2.now))
        (triple_tree (D.plain v.3.now) (E.plain v.4.now) (F.plain v.5.now))
        (triple_tree (G.plain v.6.now) (H.plain v.7.now) (I.plain v.8.now)))
        (triple_format (triple_format A.format B.format C.format)
        (triple_format D.format E.format F.format) (triple_format G.format H.format I.format)) }
{}

/// Lists of elements after their length in bytes, a variable-length integer of at most 30 bits (RFC 9420,
/// section 2.1.2).
pub fn lists<'a, T: Deserialize + DeserializeBytes>()
    ensures is { Means ⟦<Vec<T> as Size>⟧ (λ v. trees T.plain v.items) (list_format T.format) }
    ensures by_ref { Means ⟦<&'a Vec<T> as Size>⟧ (λ v. trees T.plain v.now.items)
        (list_format T.format) }
    ensures elements { Means ⟦<&'a [T] as Size>⟧ (λ v. trees T.plain v.now) (list_format T.format) }
    ensures slice { SameNames ⟦<Vec<T> as DeserializeBytes>⟧.names
        (list_names T.format T.DeserializeBytes.names) }
    ensures source { SameSourceNames ⟦<Vec<T> as Deserialize>⟧.names
        (list_source_names T.format T.Deserialize.names) }
{}

/// Strings: their UTF-8 after its length.
pub fn texts<'a>()
    ensures owned { Means ⟦<String as Size>⟧ (λ s. number_trees (string_bytes s)) text_format }
    ensures by_ref { Means ⟦<&'a str as Size>⟧ (λ s. number_trees s.now) text_format }
    ensures slice { SameNames ⟦<String as DeserializeBytes>⟧.names TextRefused }
    ensures source { SameSourceNames ⟦<String as Deserialize>⟧.names TextSourceRefused }
{}

/// Byte vectors: the bytes after their number, a variable-length integer of at most 30 bits (RFC 9420,
/// section 2.1.2).
pub fn byte_vectors<'a>()
    ensures vl_bytes { Means ⟦<VLBytes as Size>⟧ (λ v. number_trees (bytes_of v)) bytes_format }
    ensures vl_byte_vec { Means ⟦<VLByteVec as Size>⟧ (λ v. number_trees (vec_bytes_of v))
        bytes_format }
    ensures vl_byte_slice { Means ⟦<VLByteSlice<'a> as Size>⟧ (λ v. number_trees (slice_bytes_of v))
        bytes_format }
    ensures secret_vl_bytes { Means ⟦<SecretVLBytes as Size>⟧
        (λ v. number_trees (secret_bytes_of v)) bytes_format }
    ensures secret_vl_byte_vec { Means ⟦<SecretVLByteVec as Size>⟧
        (λ v. number_trees (secret_vec_bytes_of v)) bytes_format }

    ensures vl_bytes_by_ref { Means ⟦<&'a VLBytes as Size>⟧ (λ v. number_trees (bytes_of v.now))
        bytes_format }
    ensures vl_byte_vec_by_ref { Means ⟦<&'a VLByteVec as Size>⟧
        (λ v. number_trees (vec_bytes_of v.now)) bytes_format }
    ensures vl_byte_slice_by_ref { Means ⟦<&'a VLByteSlice<'a> as Size>⟧
        (λ v. number_trees (slice_bytes_of v.now)) bytes_format }
{}

/// Why they are not read.
pub fn byte_vectors_refused()
    ensures vl_bytes { SameNames ⟦<VLBytes as DeserializeBytes>⟧.names
        (OpaqueCopyRefused variable_field) }
    ensures vl_byte_vec { SameNames ⟦<VLByteVec as DeserializeBytes>⟧.names
        (OpaqueCopyRefused variable_field) }
    ensures secret_vl_bytes { SameNames ⟦<SecretVLBytes as DeserializeBytes>⟧.names
        (OpaqueCopyRefused variable_field) }
    ensures secret_vl_byte_vec { SameNames ⟦<SecretVLByteVec as DeserializeBytes>⟧.names
        (OpaqueCopyRefused variable_field) }

    ensures vl_bytes_source { SameSourceNames ⟦<VLBytes as Deserialize>⟧.names
        (OpaqueSourceRefused variable_field) }
    ensures vl_byte_vec_source { SameSourceNames ⟦<VLByteVec as Deserialize>⟧.names
        (OpaqueSourceRefused variable_field) }
    ensures secret_vl_bytes_source { SameSourceNames ⟦<SecretVLBytes as Deserialize>⟧.names
        (OpaqueSourceRefused variable_field) }
    ensures secret_vl_byte_vec_source { SameSourceNames ⟦<SecretVLByteVec as Deserialize>⟧.names
        (OpaqueSourceRefused variable_field) }
{}

/// The same under any name.
pub fn byte_vectors_of_any_name<'a, N: 'a>()
    ensures is { Means ⟦<VarBytes<N> as Size>⟧ (λ v. number_trees (bytes_of v)) bytes_format }
    ensures by_ref { Means ⟦<&'a VarBytes<N> as Size>⟧ (λ v. number_trees (bytes_of v.now))
        bytes_format }
    ensures secret { Means ⟦<SecretVarBytes<N> as Size>⟧
        (λ v. number_trees (secret_bytes_of v)) bytes_format }

    ensures slice { SameNames ⟦<VarBytes<N> as DeserializeBytes>⟧.names
        (OpaqueCopyRefused variable_field) }
    ensures source { SameSourceNames ⟦<VarBytes<N> as Deserialize>⟧.names
        (OpaqueSourceRefused variable_field) }
    ensures secret_slice { SameNames ⟦<SecretVarBytes<N> as DeserializeBytes>⟧.names
        (OpaqueCopyRefused variable_field) }
    ensures secret_source { SameSourceNames ⟦<SecretVarBytes<N> as Deserialize>⟧.names
        (OpaqueSourceRefused variable_field) }
{}

/// Length fields: one to four bytes in the names of types (RFC 8446, section 3.4), and a
/// variable-length one.
pub fn lengths()
    ensures one { SameField ⟦<u8 as LengthField>⟧.field (fixed_field 1) }
    ensures two { SameField ⟦<u16 as LengthField>⟧.field (fixed_field 2) }
    ensures three { SameField ⟦<U24 as LengthField>⟧.field (fixed_field 3) }
    ensures four { SameField ⟦<u32 as LengthField>⟧.field (fixed_field 4) }
    ensures variable { SameField ⟦<TlsVarInt as LengthField>⟧.field variable_field }
{}

/// Length fields with bounds: the lengths of a field from a least one to a greatest (RFC 8446, section
/// 3.4).
pub fn bounded_lengths<F: LengthField, const LEAST: usize, const MOST: usize>()
    ensures { SameField ⟦<Within<F, LEAST, MOST> as LengthField>⟧.field
        (bounded_field LEAST MOST F.field) }
{}

/// Lists of elements after such a length, owned and borrowed, and those of secrets.
pub fn vectors<'a, F: LengthField, T: Deserialize + DeserializeBytes + Zeroize>()
    ensures list { Means ⟦<TlsVec<F, T> as Size>⟧ (λ v. trees T.plain (elements_of v))
        (counted_list_format F.field T.format) }
    ensures list_by_ref { Means ⟦<&'a TlsVec<F, T> as Size>⟧ (λ v. trees T.plain (elements_of v.now))
        (counted_list_format F.field T.format) }
    ensures list_slice { SameNames ⟦<TlsVec<F, T> as DeserializeBytes>⟧.names
        (counted_list_names F.field T.format T.DeserializeBytes.names) }
    ensures list_source { SameSourceNames ⟦<TlsVec<F, T> as Deserialize>⟧.names
        (counted_list_source_names F.field T.format T.Deserialize.names) }

    ensures secret { Means ⟦<SecretTlsVec<F, T> as Size>⟧
        (λ v. trees T.plain (secret_elements_of v)) (counted_list_format F.field T.format) }
    ensures secret_by_ref { Means ⟦<&'a SecretTlsVec<F, T> as Size>⟧
        (λ v. trees T.plain (secret_elements_of v.now)) (counted_list_format F.field T.format) }
    ensures secret_slice { SameNames ⟦<SecretTlsVec<F, T> as DeserializeBytes>⟧.names
        (counted_list_names F.field T.format T.DeserializeBytes.names) }
    ensures secret_source { SameSourceNames ⟦<SecretTlsVec<F, T> as Deserialize>⟧.names
        (counted_list_source_names F.field T.format T.Deserialize.names) }
{}

/// Elements that are borrowed.
pub fn slices<'a, T: Size + 'a>()
    ensures one { Means ⟦<TlsSliceU8<'a, T> as Size>⟧ (λ v. trees T.plain (u8_elements_of v))
        (fixed_list_format 1 T.format) }
    ensures two { Means ⟦<TlsSliceU16<'a, T> as Size>⟧ (λ v. trees T.plain (u16_elements_of v))
        (fixed_list_format 2 T.format) }
    ensures three { Means ⟦<TlsSliceU24<'a, T> as Size>⟧ (λ v. trees T.plain (u24_elements_of v))
        (fixed_list_format 3 T.format) }
    ensures four { Means ⟦<TlsSliceU32<'a, T> as Size>⟧ (λ v. trees T.plain (u32_elements_of v))
        (fixed_list_format 4 T.format) }

    ensures one_by_ref { Means ⟦<&'a TlsSliceU8<'a, T> as Size>⟧
        (λ v. trees T.plain (u8_elements_of v.now)) (fixed_list_format 1 T.format) }
    ensures two_by_ref { Means ⟦<&'a TlsSliceU16<'a, T> as Size>⟧
        (λ v. trees T.plain (u16_elements_of v.now)) (fixed_list_format 2 T.format) }
    ensures three_by_ref { Means ⟦<&'a TlsSliceU24<'a, T> as Size>⟧
        (λ v. trees T.plain (u24_elements_of v.now)) (fixed_list_format 3 T.format) }
    ensures four_by_ref { Means ⟦<&'a TlsSliceU32<'a, T> as Size>⟧
        (λ v. trees T.plain (u32_elements_of v.now)) (fixed_list_format 4 T.format) }
{}

/// Bytes after such a length, owned.
pub fn counted_bytes<'a, F: LengthField>()
    ensures is { Means ⟦<TlsByteVec<F> as Size>⟧ (λ v. number_trees (fixed_bytes_of v))
        (counted_bytes_format F.field) }
    ensures by_ref { Means ⟦<&'a TlsByteVec<F> as Size>⟧ (λ v. number_trees (fixed_bytes_of v.now))
        (counted_bytes_format F.field) }
    ensures slice { SameNames ⟦<TlsByteVec<F> as DeserializeBytes>⟧.names (OpaqueCopyRefused F.field) }
    ensures source { SameSourceNames ⟦<TlsByteVec<F> as Deserialize>⟧.names
        (OpaqueSourceRefused F.field) }
{}

/// Lists and bytes after a length of two bytes with bounds, by the words for messages of your own.
pub fn bounded_vectors<T: Size, const LEAST: usize, const MOST: usize>()
    ensures list { Means ⟦<TlsVec<Within<u16, LEAST, MOST>, T> as Size>⟧
        (λ v. trees T.plain (elements_of v)) (bounded_list_format 2 LEAST MOST T.format) }
    ensures bytes { Means ⟦<TlsByteVec<Within<u16, LEAST, MOST>> as Size>⟧
        (λ v. number_trees (fixed_bytes_of v)) (bounded_bytes_format 2 LEAST MOST) }
{}

/// Bytes that are borrowed.
pub fn byte_slices<'a>()
    ensures one { Means ⟦<TlsByteSliceU8<'a> as Size>⟧ (λ v. number_trees (u8_bytes_of v))
        (fixed_bytes_format 1) }
    ensures two { Means ⟦<TlsByteSliceU16<'a> as Size>⟧ (λ v. number_trees (u16_bytes_of v))
        (fixed_bytes_format 2) }
    ensures three { Means ⟦<TlsByteSliceU24<'a> as Size>⟧ (λ v. number_trees (u24_bytes_of v))
        (fixed_bytes_format 3) }
    ensures four { Means ⟦<TlsByteSliceU32<'a> as Size>⟧ (λ v. number_trees (u32_bytes_of v))
        (fixed_bytes_format 4) }

    ensures one_by_ref { Means ⟦<&'a TlsByteSliceU8<'a> as Size>⟧
        (λ v. number_trees (u8_bytes_of v.now)) (fixed_bytes_format 1) }
    ensures two_by_ref { Means ⟦<&'a TlsByteSliceU16<'a> as Size>⟧
        (λ v. number_trees (u16_bytes_of v.now)) (fixed_bytes_format 2) }
    ensures three_by_ref { Means ⟦<&'a TlsByteSliceU24<'a> as Size>⟧
        (λ v. number_trees (u24_bytes_of v.now)) (fixed_bytes_format 3) }
    ensures four_by_ref { Means ⟦<&'a TlsByteSliceU32<'a> as Size>⟧
        (λ v. number_trees (u32_bytes_of v.now)) (fixed_bytes_format 4) }
{}
