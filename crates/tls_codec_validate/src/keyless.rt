//! Keys of several parts in a row, and of parts that decide nothing.
ghost use Rattle.tls_codec_cases.specs.Held.{first_of, second_of, third_of};

use crate::keys::{Keyed, ValidateKeyed};
use crate::rejected::Rejected;
use crate::traits::Validate;
use std::alloc::Global;
use tls_codec_base::{DeserializeBytes, Size};
use tls_codec_wire::Error;

/// A part that decides nothing, beside others that do: `(Keyless<u64>, Sender)`.
#[derive(Drop)]
pub struct Keyless<T>(pub T);

impl<T: Size> Size for Keyless<T> {
    ghost plain = { λ v. T.plain v.0 };

    ghost format = { T.format };

    fn tls_serialized_len(&self) -> usize {
        self.0.tls_serialized_len()
    }

    ghost lawful = { T.lawful };
}

impl<T: DeserializeBytes> DeserializeBytes for Keyless<T> {
    ghost names = { T.names };

    fn tls_deserialize_bytes(alloc: Global, bytes: &[u8]) -> Result<(Keyless<T>, &[u8]), Error> {
        let (value, rest) = T::tls_deserialize_bytes(alloc, bytes)?;
        Ok((Keyless(value), rest))
    }
}

impl<T: Validate> Validate for Keyless<T> {
    ghost places = { T.places };

    #[inline(always)]
    fn tls_validate_prefix(bytes: &[u8]) -> Result<&[u8], Rejected<'_>> {
        T::tls_validate_prefix(bytes)
    }

    #[inline(always)]
    fn tls_width() -> Option<usize> {
        T::tls_width()
    }
}

impl<T: Size> Keyed for Keyless<T> {
    type Key = ();

    ghost is_key = { λ key c. Unit {0} };

    fn key(&self) -> () {}
}

impl<T: Validate> ValidateKeyed for Keyless<T> {
    #[inline(always)]
    fn tls_validate_keyed(bytes: &[u8]) -> Result<((), &[u8]), Rejected<'_>> {
        let rest = T::tls_validate_prefix(bytes)?;
        Ok(((), rest))
    }
}

impl<T: Keyed, U: Keyed> Keyed for (T, U) {
    type Key = (<T as Keyed>::Key, <U as Keyed>::Key);

    ghost is_key = { λ key c. T.is_key key.0 (first_of c) × U.is_key key.1 (second_of c) };

    fn key(&self) -> (<T as Keyed>::Key, <U as Keyed>::Key) {
        (self.0.key(), self.1.key())
    }
}

impl<T: ValidateKeyed, U: ValidateKeyed> ValidateKeyed for (T, U) {
    #[inline(always)]
    fn tls_validate_keyed(
        bytes: &[u8],
    ) -> Result<((<T as Keyed>::Key, <U as Keyed>::Key), &[u8]), Rejected<'_>> {
        let (first, rest) = T::tls_validate_keyed(bytes)?;
        let (second, behind) = U::tls_validate_keyed(rest)?;
        Ok(((first, second), behind))
    }
}

impl<T: Keyed, U: Keyed, V: Keyed> Keyed for (T, U, V) {
    type Key = (<T as Keyed>::Key, <U as Keyed>::Key, <V as Keyed>::Key);

    ghost is_key = { λ key c. T.is_key key.0 (first_of c) × U.is_key key.1 (second_of c)
        × V.is_key key.2 (third_of c) };

    fn key(&self) -> (<T as Keyed>::Key, <U as Keyed>::Key, <V as Keyed>::Key) {
        (self.0.key(), self.1.key(), self.2.key())
    }
}

impl<T: ValidateKeyed, U: ValidateKeyed, V: ValidateKeyed> ValidateKeyed for (T, U, V) {
    #[inline(always)]
    fn tls_validate_keyed(
        bytes: &[u8],
    ) -> Result<
        (
            (<T as Keyed>::Key, <U as Keyed>::Key, <V as Keyed>::Key),
            &[u8],
        ),
        Rejected<'_>,
    > {
        let (first, rest) = T::tls_validate_keyed(bytes)?;
        let (second, behind) = U::tls_validate_keyed(rest)?;
        let (third, left) = V::tls_validate_keyed(behind)?;
        Ok(((first, second, third), left))
    }
}
