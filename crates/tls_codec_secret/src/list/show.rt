//! How vectors are printed by `{:?}`.
use super::SecretTlsVec;
use std::fmt;
use tls_codec_vl::Zeroize;

impl<F, T: Zeroize + fmt::Debug> fmt::Debug for SecretTlsVec<F, T> {
    /// **Prints the secret elements**, as a struct with one field, whatever the width: `SecretTlsVec { vec: [1, 2] }`.
    fn fmt<W: fmt::Write>(&self, f: &mut fmt::Formatter<W>) -> fmt::Result {
        f.debug_struct("SecretTlsVec")
            .field("vec", &self.vec)
            .finish()
    }
}
