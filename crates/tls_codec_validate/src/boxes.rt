//! `Box<T>`: what its content is.

use crate::rejected::Rejected;
use crate::traits::Validate;

impl<T: Validate> Validate for Box<T> {
    ghost places = { T.places };

    #[inline(always)]
    fn tls_validate_prefix(bytes: &[u8]) -> Result<&[u8], Rejected<'_>> {
        let rest = T::tls_validate_prefix(bytes)?;
        Ok(rest)
    }

    #[inline(always)]
    fn tls_width() -> Option<usize> {
        T::tls_width()
    }
}
