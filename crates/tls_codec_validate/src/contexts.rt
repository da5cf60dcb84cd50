//! Parts that a context decides: by its key.
ghost use Rattle.tls_codec_base.specs.PartNames.{fields_names};
ghost use Rattle.tls_codec_grammar.specs.Field.{variable_field};
ghost use Rattle.tls_codec_validate.specs.Keys.{then_places};
ghost use Rattle.tls_codec_validate.specs.Places.{counted_list_places};
ghost use Rattle.tls_codec_validate.specs.TaggedPlaces.{select_places};

use crate::cases::ValidateCases;
use crate::elements::skip_list_for;
use crate::keys::{HoldsKey, Keyed, TagKeyed, ValidateKeyed};
use crate::rejected::Rejected;
use crate::traits::Validate;
use crate::validate_for::{KeyCondition, ValidateFor};
use tls_codec_base::{Always, LengthField, Size, Then, When, unknown_value};
use tls_codec_cases::{By, Chosen};
use tls_codec_vec::TlsVec;
use tls_codec_wire::TlsVarInt;

impl<X: Keyed, T: Validate> ValidateFor<X> for Always<T> {
    ghost places = { λ c. T.places };

    #[inline(always)]
    fn tls_validate_prefix_for<'a>(
        _key: &X::Key,
        bytes: &'a [u8],
    ) -> Result<&'a [u8], Rejected<'a>> {
        T::tls_validate_prefix(bytes)
    }

    #[inline(always)]
    fn tls_width_for() -> Option<usize> {
        T::tls_width()
    }
}

impl<X: Keyed, K: KeyCondition<X>, T: Validate> ValidateFor<X> for When<K, T> {
    ghost places = { λ c. T.places };

    #[inline(always)]
    fn tls_validate_prefix_for<'a>(
        key: &X::Key,
        bytes: &'a [u8],
    ) -> Result<&'a [u8], Rejected<'a>> {
        if !K::test_key(key) {
            return Ok(bytes);
        }
        let behind = T::tls_validate_prefix(bytes)?;
        Ok(behind)
    }
}

impl<K: Keyed + Drop, X: HoldsKey<K>, T: ValidateFor<K>> ValidateFor<X> for By<K, T> {
    ghost places = { λ c. T.places (X.held c) };

    #[inline(always)]
    fn tls_validate_prefix_for<'a>(
        key: &X::Key,
        bytes: &'a [u8],
    ) -> Result<&'a [u8], Rejected<'a>> {
        let tag = X::held_key(key);
        T::tls_validate_prefix_for(&tag, bytes)
    }
}

impl<X: Keyed, T: ValidateFor<X>, U: ValidateFor<X>> ValidateFor<X> for (T, U) {
    ghost places = { λ c rest. fields_names (T.format_for c) (T.places c rest) (U.places c rest) };

    #[inline(always)]
    fn tls_validate_prefix_for<'a>(
        key: &X::Key,
        bytes: &'a [u8],
    ) -> Result<&'a [u8], Rejected<'a>> {
        let after_first = T::tls_validate_prefix_for(key, bytes)?;
        let after_second = U::tls_validate_prefix_for(key, after_first)?;
        Ok(after_second)
    }
}

impl<X: Keyed, T: ValidateFor<X>, U: ValidateFor<X>, V: ValidateFor<X>> ValidateFor<X>
    for (T, U, V) {
    ghost places = { λ c rest. fields_names (T.format_for c) (T.places c rest)
        (fields_names (U.format_for c) (U.places c rest) (V.places c rest)) };

    #[inline(always)]
    fn tls_validate_prefix_for<'a>(
        key: &X::Key,
        bytes: &'a [u8],
    ) -> Result<&'a [u8], Rejected<'a>> {
        let after_first = T::tls_validate_prefix_for(key, bytes)?;
        let after_second = U::tls_validate_prefix_for(key, after_first)?;
        let after_third = V::tls_validate_prefix_for(key, after_second)?;
        Ok(after_third)
    }
}

impl<X: Keyed, T: ValidateFor<X>> ValidateFor<X> for Vec<T> {
    ghost places = { λ c. counted_list_places variable_field (T.format_for c) (T.places c) };

    fn tls_validate_prefix_for<'a>(
        key: &X::Key,
        bytes: &'a [u8],
    ) -> Result<&'a [u8], Rejected<'a>> {
        skip_list_for::<X, TlsVarInt, T>(key, bytes)
    }
}

impl<X: Keyed, F: LengthField, T: ValidateFor<X>> ValidateFor<X> for TlsVec<F, T> {
    ghost places = { λ c. counted_list_places F.field (T.format_for c) (T.places c) };

    fn tls_validate_prefix_for<'a>(
        key: &X::Key,
        bytes: &'a [u8],
    ) -> Result<&'a [u8], Rejected<'a>> {
        skip_list_for::<X, F, T>(key, bytes)
    }
}

impl<T: ValidateKeyed, U: ValidateFor<T>> Validate for Then<T, U> {
    ghost places = { then_places T.format T.Validate.places U.places };

    #[inline(always)]
    fn tls_validate_prefix(bytes: &[u8]) -> Result<&[u8], Rejected<'_>> {
        let (key, rest) = T::tls_validate_keyed(bytes)?;
        let left = U::tls_validate_prefix_for(&key, rest)?;
        Ok(left)
    }
}

impl<K: TagKeyed, C: ValidateCases> ValidateFor<K> for Chosen<C> {
    ghost places = { λ c. select_places C.distinct (K.selected c) C.places };

    #[inline(always)]
    fn tls_validate_prefix_for<'a>(
        key: &K::Key,
        bytes: &'a [u8],
    ) -> Result<&'a [u8], Rejected<'a>> {
        if !C::are_distinct() {
            return Err(Rejected {
                error: unknown_value(0),
                rest: bytes,
            });
        }
        let behind = C::validate_parts(K::tag_of_key(key), bytes, bytes)?;
        Ok(behind)
    }
}
