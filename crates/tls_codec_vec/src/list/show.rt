//! How vectors are printed by `{:?}`.
use super::TlsVec;
use std::fmt;

impl<F, T: fmt::Debug> fmt::Debug for TlsVec<F, T> {
    /// As a struct with one field, whatever the width: `TlsVec { vec: [1, 2] }`.
    fn fmt<W: fmt::Write>(&self, f: &mut fmt::Formatter<W>) -> fmt::Result {
        f.debug_struct("TlsVec").field("vec", &self.vec).finish()
    }
}
