//! The table of types: which field of the bytes may be the rejected one, and with which error.
//!
//! Each type has a line. The functions do nothing: each line is a clause, and so is proved. What an `impl` says of its
//! type has to be what the table says. Which errors a type names is said by the table of types of `tls_codec`.
ghost use Rattle.std.specs.Prelude.{◌≡◌, ◌^◌, ◌&&◌};
ghost use Rattle.tls_codec_wire.specs.VarintCalls.{RefusesBelow};
ghost use Rattle.tls_codec_grammar.specs.Field.{variable_field};
ghost use Rattle.tls_codec_grammar.specs.Opaque.{OpaqueCopyRefused, TextRefused};
ghost use Rattle.tls_codec_base.specs.Meanings.{too_few};
ghost use Rattle.tls_codec_base.specs.PartNames.{fields_names};
ghost use Rattle.tls_codec_cases.specs.Chosen.{number_of};
ghost use Rattle.tls_codec_cases.specs.Held.{first_of, second_of, third_of};
ghost use Rattle.tls_codec_validate.specs.EnclosedPlaces.{enclosed_places};
ghost use Rattle.tls_codec_validate.specs.Keys.{SameKeys, SamePlacesFor, then_places};
ghost use Rattle.tls_codec_validate.specs.Places.{SamePlaces, counted_list_places, here, option_places};
ghost use Rattle.tls_codec_validate.specs.TaggedPlaces.{SameVariantPlaces, choice_places, no_variant_places, nothing_places, or_places, others_places, select_places, variant_places};

use crate::cases::ValidateCases;
use crate::keyless::Keyless;
use crate::keys::{HoldsKey, Keyed, TagKeyed, ValidateKeyed};
use crate::tagged::FindTag;
use crate::traits::Validate;
use crate::validate_for::{KeyCondition, ValidateFor};
use std::marker::PhantomData;
use tls_codec_base::{Always, LengthField, Then, When};
use tls_codec_bytes::TlsByteVec;
use tls_codec_cases::{By, Case, Chosen, Else, Enclosed, Or, Tag, Tagged};
use tls_codec_secret::SecretTlsVec;
use tls_codec_vec::TlsVec;
use tls_codec_vl::{SecretVarBytes, VarBytes, Zeroize};
use tls_codec_wire::{TlsVarInt, U24};

/// A number is rejected as a whole, if it has too few bytes.
pub fn numbers()
    ensures u8 { SamePlaces ⟦<u8 as Validate>⟧.places (here (too_few 1)) }
    ensures u16 { SamePlaces ⟦<u16 as Validate>⟧.places (here (too_few 2)) }
    ensures u24 { SamePlaces ⟦<U24 as Validate>⟧.places (here (too_few 3)) }
    ensures u32 { SamePlaces ⟦<u32 as Validate>⟧.places (here (too_few 4)) }
    ensures u64 { SamePlaces ⟦<u64 as Validate>⟧.places (here (too_few 8)) }
    ensures varint { SamePlaces ⟦<TlsVarInt as Validate>⟧.places
        (here (RefusesBelow (2 ^ 62))) }
{}

/// So is an array of bytes.
pub fn arrays<const LEN: usize>()
    ensures { SamePlaces ⟦<[u8; LEN] as Validate>⟧.places (here (too_few LEN)) }
{}

/// Bytes after a length are rejected from the length on.
pub fn bytes<N, F: LengthField>()
    ensures variable { SamePlaces ⟦<VarBytes<N> as Validate>⟧.places
        (here (OpaqueCopyRefused variable_field)) }
    ensures secret { SamePlaces ⟦<SecretVarBytes<N> as Validate>⟧.places
        (here (OpaqueCopyRefused variable_field)) }
    ensures counted { SamePlaces ⟦<TlsByteVec<F> as Validate>⟧.places
        (here (OpaqueCopyRefused F.field)) }
{}

/// So is a text.
pub fn texts()
    ensures { SamePlaces ⟦<String as Validate>⟧.places (here TextRefused) }
{}

/// A list is rejected from its length on, or in an element.
pub fn lists<F: LengthField, T: Validate + Zeroize>()
    ensures variable { SamePlaces ⟦<Vec<T> as Validate>⟧.places
        (counted_list_places variable_field T.format T.Validate.places) }
    ensures counted { SamePlaces ⟦<TlsVec<F, T> as Validate>⟧.places
        (counted_list_places F.field T.format T.Validate.places) }
    ensures secret { SamePlaces ⟦<SecretTlsVec<F, T> as Validate>⟧.places
        (counted_list_places F.field T.format T.Validate.places) }
{}

/// An option is rejected at its tag, or in its payload.
pub fn options<T: Validate>()
    ensures { SamePlaces ⟦<Option<T> as Validate>⟧.places (option_places T.places) }
{}

/// A box is rejected where its content is.
pub fn boxes<T: Validate>()
    ensures { SamePlaces ⟦<Box<T> as Validate>⟧.places T.places }
{}

/// A pair is rejected in its first part, or after it in the second.
pub fn pairs<T: Validate, U: Validate>()
    ensures { SamePlaces ⟦<(T, U) as Validate>⟧.places
        (λ rest. fields_names T.format (T.places rest) (U.places rest)) }
{}

/// A triple is rejected as a pair whose second part is one.
pub fn triples<T: Validate, U: Validate, V: Validate>()
    ensures { SamePlaces ⟦<(T, U, V) as Validate>⟧.places
        ⟦<(T, (U, V)) as Validate>⟧.places }
{}

/// What has no bytes is never rejected.
pub fn nothing<T>()
    ensures unit { SamePlaces ⟦<() as Validate>⟧.places nothing_places }
    ensures phantom { SamePlaces ⟦<PhantomData<T> as Validate>⟧.places nothing_places }
{}

/// A first part, and what its value decides: in the first part, or after it in the others.
pub fn decided<T: ValidateKeyed, U: ValidateFor<T>>()
    ensures { SamePlaces ⟦<Then<T, U> as Validate>⟧.places
        (then_places T.format T.Validate.places U.places) }
{}

/// A value inside a length is rejected from its length on, or where it is itself, or from the bytes that it leaves on.
pub fn enclosed<F: LengthField, T: Validate>()
    ensures { SamePlaces ⟦<Enclosed<F, T> as Validate>⟧.places
        (enclosed_places F.field T.format T.places) }
{}

/// An enum is rejected at its tag, or after it in the parts of its case. So is each sum of cases,
/// at the tag if it has none of its cases.
pub fn sums<const TAG: u64, T: FindTag, U: Tag, A: Validate, X: ValidateCases, Y: ValidateCases>()
    ensures tagged { SamePlaces ⟦<Tagged<T, X> as Validate>⟧.places
        (choice_places (X.distinct && X.within T.most) T.wide X.places) }
    ensures case { SameVariantPlaces ⟦<Case<TAG, A> as ValidateCases>⟧.places
        (variant_places TAG A.places no_variant_places) }
    ensures or { SameVariantPlaces ⟦<Or<X, Y> as ValidateCases>⟧.places
        (or_places X.variants.has X.places Y.places) }
    ensures others { SameVariantPlaces ⟦<Else<X, U, A> as ValidateCases>⟧.places
        (or_places X.variants.has X.places (others_places U.most A.places)) }
{}

/// What a context decides, with the tag in it, and parts that it doesn't decide.
pub fn parts_in_context<
    X: Keyed,
    K: TagKeyed + Drop,
    H: HoldsKey<K>,
    Q: KeyCondition<X>,
    C: ValidateCases,
    A: Validate,
    P: ValidateFor<K>,
>()
    ensures always { SamePlacesFor ⟦<Always<A> as ValidateFor<X>>⟧.places (λ c. A.places) }
    ensures when { SamePlacesFor ⟦<When<Q, A> as ValidateFor<X>>⟧.places (λ c. A.places) }
    ensures by { SamePlacesFor ⟦<By<K, P> as ValidateFor<H>>⟧.places
        (λ c. P.places (H.held c)) }
    ensures chosen { SamePlacesFor ⟦<Chosen<C> as ValidateFor<K>>⟧.places
        (λ c. select_places C.distinct (K.selected c) C.places) }
{}

/// Parts and elements in one context are rejected as they are without one.
pub fn several_in_context<
    X: Keyed,
    F: LengthField,
    T: ValidateFor<X>,
    U: ValidateFor<X>,
    V: ValidateFor<X>,
>()
    ensures pair { SamePlacesFor ⟦<(T, U) as ValidateFor<X>>⟧.places
        (λ c rest. fields_names (T.format_for c) (T.ValidateFor.places c rest)
        (U.ValidateFor.places c rest)) }
    ensures triple { SamePlacesFor ⟦<(T, U, V) as ValidateFor<X>>⟧.places
        ⟦<(T, (U, V)) as ValidateFor<X>>⟧.places }
    ensures variable { SamePlacesFor ⟦<Vec<T> as ValidateFor<X>>⟧.places
        (λ c. counted_list_places variable_field (T.format_for c) (T.ValidateFor.places c)) }
    ensures counted { SamePlacesFor ⟦<TlsVec<F, T> as ValidateFor<X>>⟧.places
        (λ c. counted_list_places F.field (T.format_for c) (T.ValidateFor.places c)) }
{}

/// A part that decides nothing is rejected as it is elsewhere.
pub fn keyless<T: Validate>()
    ensures places { SamePlaces ⟦<Keyless<T> as Validate>⟧.places T.places }
    ensures key { SameKeys ⟦<Keyless<T> as Keyed>⟧.is_key (λ key c. Unit {0}) }
{}

/// The key of a tag is its number, and that of several parts has those of each.
pub fn keys<T: Keyed, U: Keyed, V: Keyed>()
    ensures u8 { SameKeys ⟦<u8 as Keyed>⟧.is_key (λ n c. n ≡ number_of c) }
    ensures u16 { SameKeys ⟦<u16 as Keyed>⟧.is_key (λ n c. n ≡ number_of c) }
    ensures unit { SameKeys ⟦<() as Keyed>⟧.is_key (λ key c. Unit {0}) }
    ensures pair { SameKeys ⟦<(T, U) as Keyed>⟧.is_key
        (λ key c. T.is_key key.0 (first_of c) × U.is_key key.1 (second_of c)) }
    ensures triple { SameKeys ⟦<(T, U, V) as Keyed>⟧.is_key
        (λ key c. T.is_key key.0 (first_of c) × U.is_key key.1 (second_of c)
        × V.is_key key.2 (third_of c)) }
{}
