//! `v[i]`, to read and to write.
ghost use Rattle.std.specs.Prelude.{◌≡◌, ◌<◌, length, slice_index_or};
ghost use Rattle.std.specs.Borrow.{sem};
ghost use Rattle.tls_codec_vec.specs.Contents.{elements_of};
ghost use Rattle.tls_codec_vec.specs.Lending.{LendsElement};

use super::TlsVec;
use std::ops::{Index, IndexMut};

impl<F, T> Index<usize> for TlsVec<F, T> {
    type Output = T;

    ghost can_index = { λ v i. i < length (elements_of v) };

    ghost index_gives = { λ v i x. x ≡ slice_index_or (elements_of v) i x };

    /// The place is below [`len`](TlsVec::len).
    fn index(&self, index: usize) -> &T {
        &self.as_slice()[index]
    }
}

impl<F, T> IndexMut<usize> for TlsVec<F, T> {
    /// The place is below [`len`](TlsVec::len).
    fn index_mut(&mut self, index: usize) -> &mut T
        requires { index < length (elements_of self.old) }
        ensures* writes_back { sem 𝓛 (LendsElement F.row T.row self.entry index result) }
        ensures value { result.now ≡ slice_index_or (elements_of self.old) index result.now }
    {
        &mut self.vec[index]
    }
}
