//! The table of types that a context decides, beside the one of [`types`](crate::types): what their
//! values stand for, how they are encoded, and which errors their decoders name.
//!
//! A pair of a context and what it decides is a type with [`Size`], and has a line as those there. The other types have
//! [`SizeFor`](crate::SizeFor) alone: their lines are of each context.
ghost use Rattle.tls_codec_grammar.specs.Tree.{Join, Tree};
ghost use Rattle.tls_codec_grammar.specs.Contexts.{present_format, then_format};
ghost use Rattle.tls_codec_grammar.specs.Format.{counted_list_format, list_format, pair_format, triple_format};
ghost use Rattle.tls_codec_base.specs.ContextNames.{then_names, then_source_names};
ghost use Rattle.tls_codec_base.specs.Meanings.{Means, SameFormat, SameNames, SameSourceNames};
ghost use Rattle.tls_codec_base.specs.PartNames.{counted_list_names, counted_list_source_names, fields_names, fields_source_names, list_names, list_source_names};
ghost use Rattle.tls_codec_base.specs.OwnMessages.{pair_tree};

use tls_codec_base::{
    Always, ByRef, ByRefIn, ByRefThen, ByRefThen2, ByRefWhen, Condition, Deserialize,
    DeserializeBytes, DeserializeBytesFor, DeserializeFor, LengthField, Size, SizeFor, Then, When,
};
use tls_codec_vec::TlsVec;

/// A first part, and what it decides.
pub fn decided<
    'a,
    T: Deserialize + DeserializeBytes + 'a,
    U: DeserializeFor<T> + DeserializeBytesFor<T>,
    V: SizeFor<T>,
>()
    ensures is { Means ⟦<Then<T, U> as Size>⟧ (λ v. Join (T.plain v.first) (U.plain v.rest))
        (then_format T.format U.format_for) }
    ensures slice { SameNames ⟦<Then<T, U> as DeserializeBytes>⟧.names
        (then_names T.format T.DeserializeBytes.names U.DeserializeBytesFor.names) }
    ensures source { SameSourceNames ⟦<Then<T, U> as Deserialize>⟧.names
        (then_source_names T.format T.Deserialize.names U.DeserializeFor.names) }
    ensures by_ref { Means ⟦<ByRefThen<'a, T, U> as Size>⟧
        (λ v. Join (T.plain v.first.now) (U.plain v.rest))
        (then_format T.format U.format_for) }
    ensures by_ref_pair { Means ⟦<ByRefThen2<'a, T, U, V> as Size>⟧
        (λ v. Join (T.plain v.first.now) (pair_tree (U.plain v.second) (V.plain v.third)))
        (then_format T.format (λ c. pair_format (U.format_for c) (V.format_for c))) }
{}

/// Payloads that are there if a condition holds of the context, and parts that no context decides.
pub fn payloads<'a, C: Size, K: Condition<C>, T: Deserialize + DeserializeBytes + 'a>()
    ensures when { (c : Tree) → SameFormat (⟦<When<K, T> as SizeFor<C>>⟧.format_for c)
        (present_format (K.holds c) T.format) }
    ensures when_slice { (c : Tree)
        → SameNames (⟦<When<K, T> as DeserializeBytesFor<C>>⟧.names c) T.DeserializeBytes.names }
    ensures when_source { (c : Tree)
        → SameSourceNames (⟦<When<K, T> as DeserializeFor<C>>⟧.names c) T.Deserialize.names }
    ensures when_by_ref { (c : Tree) → SameFormat (⟦<ByRefWhen<'a, K, T> as SizeFor<C>>⟧.format_for c)
        (present_format (K.holds c) T.format) }

    ensures always { (c : Tree) → SameFormat (⟦<Always<T> as SizeFor<C>>⟧.format_for c) T.format }
    ensures always_slice { (c : Tree)
        → SameNames (⟦<Always<T> as DeserializeBytesFor<C>>⟧.names c) T.DeserializeBytes.names }
    ensures always_source { (c : Tree)
        → SameSourceNames (⟦<Always<T> as DeserializeFor<C>>⟧.names c) T.Deserialize.names }
    ensures always_by_ref { (c : Tree) → SameFormat (⟦<ByRef<'a, T> as SizeFor<C>>⟧.format_for c)
        T.format }
{}

/// Parts in a row, each in the same context, and borrowed ones.
pub fn parts<
    'a,
    C: Size,
    T: DeserializeFor<C> + DeserializeBytesFor<C> + 'a,
    U: DeserializeFor<C> + DeserializeBytesFor<C>,
    V: DeserializeFor<C> + DeserializeBytesFor<C>,
>()
    ensures by_ref { (c : Tree) → SameFormat (⟦<ByRefIn<'a, T> as SizeFor<C>>⟧.format_for c)
        (T.format_for c) }

    ensures pair { (c : Tree) → SameFormat (⟦<(T, U) as SizeFor<C>>⟧.format_for c)
        (pair_format (T.format_for c) (U.format_for c)) }
    ensures pair_slice { (c : Tree)
        → SameNames (⟦<(T, U) as DeserializeBytesFor<C>>⟧.names c)
        (fields_names (T.format_for c) (T.DeserializeBytesFor.names c)
        (U.DeserializeBytesFor.names c)) }
    ensures pair_source { (c : Tree)
        → SameSourceNames (⟦<(T, U) as DeserializeFor<C>>⟧.names c)
        (fields_source_names (T.format_for c) (T.DeserializeFor.names c)
        (U.DeserializeFor.names c)) }

    ensures triple { (c : Tree) → SameFormat (⟦<(T, U, V) as SizeFor<C>>⟧.format_for c)
        (triple_format (T.format_for c) (U.format_for c) (V.format_for c)) }
    ensures triple_slice { (c : Tree)
        → SameNames (⟦<(T, U, V) as DeserializeBytesFor<C>>⟧.names c)
        (fields_names (T.format_for c) (T.DeserializeBytesFor.names c)
        (fields_names (U.format_for c) (U.DeserializeBytesFor.names c)
        (V.DeserializeBytesFor.names c))) }
    ensures triple_source { (c : Tree)
        → SameSourceNames (⟦<(T, U, V) as DeserializeFor<C>>⟧.names c)
        (fields_source_names (T.format_for c) (T.DeserializeFor.names c)
        (fields_source_names (U.format_for c) (U.DeserializeFor.names c)
        (V.DeserializeFor.names c))) }
{}

/// Elements after their length, each in the same context.
pub fn lists<C: Size, F: LengthField, T: DeserializeFor<C> + DeserializeBytesFor<C>>()
    ensures vec { (c : Tree) → SameFormat (⟦<Vec<T> as SizeFor<C>>⟧.format_for c)
        (list_format (T.format_for c)) }
    ensures vec_slice { (c : Tree)
        → SameNames (⟦<Vec<T> as DeserializeBytesFor<C>>⟧.names c)
        (list_names (T.format_for c) (T.DeserializeBytesFor.names c)) }
    ensures vec_source { (c : Tree)
        → SameSourceNames (⟦<Vec<T> as DeserializeFor<C>>⟧.names c)
        (list_source_names (T.format_for c) (T.DeserializeFor.names c)) }

    ensures tls_vec { (c : Tree) → SameFormat (⟦<TlsVec<F, T> as SizeFor<C>>⟧.format_for c)
        (counted_list_format F.field (T.format_for c)) }
    ensures tls_vec_slice { (c : Tree)
        → SameNames (⟦<TlsVec<F, T> as DeserializeBytesFor<C>>⟧.names c)
        (counted_list_names F.field (T.format_for c) (T.DeserializeBytesFor.names c)) }
    ensures tls_vec_source { (c : Tree)
        → SameSourceNames (⟦<TlsVec<F, T> as DeserializeFor<C>>⟧.names c)
        (counted_list_source_names F.field (T.format_for c) (T.DeserializeFor.names c)) }
{}
