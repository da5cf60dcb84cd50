//! Pairs, triples, `()` and `PhantomData<T>`.
ghost use Rattle.tls_codec_base.specs.PartNames.{fields_names};
ghost use Rattle.tls_codec_validate.specs.TaggedPlaces.{nothing_places};

use crate::rejected::Rejected;
use crate::traits::Validate;
use std::marker::PhantomData;

impl Validate for () {
    ghost places = { nothing_places };

    fn tls_validate_prefix(bytes: &[u8]) -> Result<&[u8], Rejected<'_>> {
        Ok(bytes)
    }

    fn tls_width() -> Option<usize> {
        Some(0)
    }
}

impl<T> Validate for PhantomData<T> {
    ghost places = { nothing_places };

    fn tls_validate_prefix(bytes: &[u8]) -> Result<&[u8], Rejected<'_>> {
        Ok(bytes)
    }

    fn tls_width() -> Option<usize> {
        Some(0)
    }
}

impl<T: Validate, U: Validate> Validate for (T, U) {
    ghost places = { λ rest. fields_names T.format (T.places rest) (U.places rest) };

    #[inline(always)]
    fn tls_validate_prefix(bytes: &[u8]) -> Result<&[u8], Rejected<'_>> {
        let after_first = T::tls_validate_prefix(bytes)?;
        let after_second = U::tls_validate_prefix(after_first)?;
        Ok(after_second)
    }

    #[inline(always)]
    fn tls_width() -> Option<usize> {
        T::tls_width()?.checked_add(U::tls_width()?)
    }
}

impl<T: Validate, U: Validate, V: Validate> Validate for (T, U, V) {
    ghost places = { λ rest. fields_names T.format (T.places rest)
        (fields_names U.format (U.places rest) (V.places rest)) };

    #[inline(always)]
    fn tls_validate_prefix(bytes: &[u8]) -> Result<&[u8], Rejected<'_>> {
        let after_first = T::tls_validate_prefix(bytes)?;
        let after_second = U::tls_validate_prefix(after_first)?;
        let after_third = V::tls_validate_prefix(after_second)?;
        Ok(after_third)
    }

    #[inline(always)]
    fn tls_width() -> Option<usize> {
        T::tls_width()?.checked_add(<(U, V)>::tls_width()?)
    }
}
