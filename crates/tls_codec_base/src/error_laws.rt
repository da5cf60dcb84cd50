//! Where two errors come from. No decoder of the types here returns `TrailingData`: the exact forms
//! do, and the calls that look for the end of a source. `InvalidVectorLength` comes if the
//! canonical encodings of elements together pass their length field.
//!
//! The functions do nothing. Their contracts state the laws, and so are proved.
ghost use Rattle.std.specs.Prelude.{◌≡◌, ◌⊎◌, ℕ, List, length, IsErrAnd, Result, Vec};
ghost use Rattle.std.specs.Global.{Global};
ghost use Rattle.tls_codec_wire.specs.declared.error.Error.{Error};
ghost use Rattle.tls_codec_wire.specs.declared.error.Error.TheVariants.{InvalidVectorLength, OutOfMemory};
ghost use Rattle.tls_codec_grammar.specs.Tree.{Tree};
ghost use Rattle.tls_codec_grammar.specs.Grammar.{content, utf8};
ghost use Rattle.tls_codec_grammar.specs.Shortest.{IsShortest};
ghost use Rattle.tls_codec_grammar.specs.Field.{variable_field};
ghost use Rattle.tls_codec_grammar.specs.Format.{counted_list_format, text_format};
ghost use Rattle.tls_codec_grammar.specs.Encoding.{AppendsForm, Makes};
ghost use Rattle.tls_codec_grammar.specs.Opaque.{OpaqueCopyRefused, OpaqueSourceRefused};
ghost use Rattle.tls_codec_base.specs.PartNames.{counted_list_names, counted_list_source_names};
ghost use Rattle.tls_codec_base.specs.Trailing.{NeverTrailing, SourceNeverTrailing};

use crate::traits::{Deserialize, DeserializeBytes, Size};
use tls_codec_grammar::LengthField;
use tls_codec_wire::{TlsVarInt, U24};

/// No decoder of a type without parts returns `TrailingData`.
pub fn single_values_are_never_trailing<const LEN: usize>()
    ensures numbers { NeverTrailing ⟦<u8 as DeserializeBytes>⟧.names
        × NeverTrailing ⟦<u16 as DeserializeBytes>⟧.names
        × NeverTrailing ⟦<U24 as DeserializeBytes>⟧.names
        × NeverTrailing ⟦<u32 as DeserializeBytes>⟧.names
        × NeverTrailing ⟦<u64 as DeserializeBytes>⟧.names
        × NeverTrailing ⟦<TlsVarInt as DeserializeBytes>⟧.names }
    ensures numbers_read { SourceNeverTrailing ⟦<u8 as Deserialize>⟧.names
        × SourceNeverTrailing ⟦<u16 as Deserialize>⟧.names
        × SourceNeverTrailing ⟦<U24 as Deserialize>⟧.names
        × SourceNeverTrailing ⟦<u32 as Deserialize>⟧.names
        × SourceNeverTrailing ⟦<u64 as Deserialize>⟧.names
        × SourceNeverTrailing ⟦<TlsVarInt as Deserialize>⟧.names }
    ensures others { NeverTrailing ⟦<[u8; LEN] as DeserializeBytes>⟧.names
        × NeverTrailing ⟦<String as DeserializeBytes>⟧.names
        × NeverTrailing ⟦<() as DeserializeBytes>⟧.names }
    ensures others_read { SourceNeverTrailing ⟦<[u8; LEN] as Deserialize>⟧.names
        × SourceNeverTrailing ⟦<String as Deserialize>⟧.names
        × SourceNeverTrailing ⟦<() as Deserialize>⟧.names }
{}

/// Nor does one of bytes after a length, whatever its field.
pub fn bytes_are_never_trailing<F: LengthField>()
    ensures bytes { NeverTrailing (OpaqueCopyRefused F.field) }
    ensures read { SourceNeverTrailing (OpaqueSourceRefused F.field) }
{}

/// Nor does one from a slice of an option, a product, a box or a list, if none of its parts does.
pub fn parts_are_never_trailing<
    F: LengthField,
    T: DeserializeBytes,
    U: DeserializeBytes,
    V: DeserializeBytes,
>()
    ensures boxes { NeverTrailing T.names → NeverTrailing ⟦<Box<T> as DeserializeBytes>⟧.names }
    ensures options { NeverTrailing T.names
        → NeverTrailing ⟦<Option<T> as DeserializeBytes>⟧.names }
    ensures pairs { NeverTrailing T.names
        → NeverTrailing U.names
        → NeverTrailing ⟦<(T, U) as DeserializeBytes>⟧.names }
    ensures triples { NeverTrailing T.names
        → NeverTrailing U.names
        → NeverTrailing V.names
        → NeverTrailing ⟦<(T, U, V) as DeserializeBytes>⟧.names }
    ensures lists { NeverTrailing T.names
        → NeverTrailing (counted_list_names F.field T.format T.names) }
{}

/// Nor does one from a source.
pub fn parts_read_are_never_trailing<
    F: LengthField,
    T: Deserialize,
    U: Deserialize,
    V: Deserialize,
>()
    ensures boxes { SourceNeverTrailing T.names
        → SourceNeverTrailing ⟦<Box<T> as Deserialize>⟧.names }
    ensures options { SourceNeverTrailing T.names
        → SourceNeverTrailing ⟦<Option<T> as Deserialize>⟧.names }
    ensures pairs { SourceNeverTrailing T.names
        → SourceNeverTrailing U.names
        → SourceNeverTrailing ⟦<(T, U) as Deserialize>⟧.names }
    ensures triples { SourceNeverTrailing T.names
        → SourceNeverTrailing U.names
        → SourceNeverTrailing V.names
        → SourceNeverTrailing ⟦<(T, U, V) as Deserialize>⟧.names }
    ensures lists { SourceNeverTrailing T.names
        → SourceNeverTrailing (counted_list_source_names F.field T.format T.names) }
{}

/// If the elements of a list all have canonical encodings whose length its field doesn't hold,
/// encoders to memory reject the list as `InvalidVectorLength`, or because memory ran out. So they
/// do a string of that many bytes.
pub fn contents_out_of_bounds_are_refused<F: LengthField, T: Size>()
    ensures appended { (form : List ℕ) (v : Tree) (old new : List ℕ) (result : Result ℕ Error)
        → IsShortest (content T.format.spells) form v
        → ¬ F.field.holds (length form)
        → AppendsForm (counted_list_format F.field T.format) v old new result
        → IsErrAnd result (λ e. (e ≡ InvalidVectorLength) ⊎ (e ≡ OutOfMemory)) }
    ensures made { (form : List ℕ) (v : Tree) (result : Result (Vec ℕ Global) Error)
        → IsShortest (content T.format.spells) form v
        → ¬ F.field.holds (length form)
        → Makes (counted_list_format F.field T.format) v result
        → IsErrAnd result (λ e. (e ≡ InvalidVectorLength) ⊎ (e ≡ OutOfMemory)) }
    ensures text_appended { (form : List ℕ) (v : Tree) (old new : List ℕ) (result : Result ℕ Error)
        → IsShortest utf8 form v
        → ¬ variable_field.holds (length form)
        → AppendsForm text_format v old new result
        → IsErrAnd result (λ e. (e ≡ InvalidVectorLength) ⊎ (e ≡ OutOfMemory)) }
    ensures text_made { (form : List ℕ) (v : Tree) (result : Result (Vec ℕ Global) Error)
        → IsShortest utf8 form v
        → ¬ variable_field.holds (length form)
        → Makes text_format v result
        → IsErrAnd result (λ e. (e ≡ InvalidVectorLength) ⊎ (e ≡ OutOfMemory)) }
{}
