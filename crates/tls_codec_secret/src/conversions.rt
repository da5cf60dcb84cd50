//! Secret vectors from lists of std, and back. Nothing is copied, and nothing is cleared.
ghost use Rattle.std.specs.Prelude.{◌≡◌};
ghost use Rattle.tls_codec_secret.specs.Contents.{elements_of};

use crate::list::SecretTlsVec;
use tls_codec_vl::Zeroize;

impl<F, T: Zeroize> From<Vec<T>> for SecretTlsVec<F, T> {
    ghost from_gives = { λ elements v. elements_of v ≡ elements.items };

    fn from(vec: Vec<T>) -> SecretTlsVec<F, T> {
        SecretTlsVec::new(vec)
    }
}

impl<F, T: Zeroize> From<SecretTlsVec<F, T>> for Vec<T> {
    ghost from_gives = { λ v elements. elements.items ≡ elements_of v };

    fn from(value: SecretTlsVec<F, T>) -> Vec<T> {
        value.into_vec()
    }
}
