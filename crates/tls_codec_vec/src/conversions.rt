//! Vectors from lists of std, and back. Nothing is copied.
ghost use Rattle.std.specs.Prelude.{◌≡◌};
ghost use Rattle.tls_codec_vec.specs.Contents.{elements_of};

use crate::list::TlsVec;

impl<F, T> From<Vec<T>> for TlsVec<F, T> {
    ghost from_gives = { λ elements v. elements_of v ≡ elements.items };

    fn from(vec: Vec<T>) -> TlsVec<F, T> {
        TlsVec::new(vec)
    }
}

impl<F, T> From<TlsVec<F, T>> for Vec<T> {
    ghost from_gives = { λ v elements. elements.items ≡ elements_of v };

    fn from(value: TlsVec<F, T>) -> Vec<T> {
        value.into_vec()
    }
}
