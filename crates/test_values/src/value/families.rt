//! Lists and byte vectors after a length, and secrets.
use super::slices::Width;
use super::{Value, push_list};
use crate::encoded::Encoded;
use crate::notation::push_bytes;
use std::alloc::{AllocError, Global};
use tls_codec::lists::{self, Turns};
use tls_codec::{
    LengthField, SecretTlsVec, SecretVarBytes, TlsByteVec, TlsVec, VLByteSlice, VarBytes, Zeroize,
};

impl<N> Value for VarBytes<N> {
    fn show(&self, alloc: Global, out: &mut String) -> Result<(), AllocError> {
        push_bytes(alloc, out, self.as_slice())
    }

    fn is_borrowed_alike(&self, alloc: Global, encoded: &Encoded) -> bool {
        let slice = VLByteSlice(self.as_slice());
        encoded.is_alone(alloc, self)
            && encoded.is_of(alloc, &self)
            && encoded.is_alone(alloc, &self)
            && encoded.is_of(alloc, &slice)
            && encoded.is_alone(alloc, &slice)
            && encoded.is_of(alloc, &&slice)
    }
}

impl<N> Value for SecretVarBytes<N> {
    fn show(&self, alloc: Global, out: &mut String) -> Result<(), AllocError> {
        push_bytes(alloc, out, self.as_slice())
    }
}

impl<F: Width> Value for TlsByteVec<F> {
    fn show(&self, alloc: Global, out: &mut String) -> Result<(), AllocError> {
        push_bytes(alloc, out, self.as_slice())
    }

    fn is_borrowed_alike(&self, alloc: Global, encoded: &Encoded) -> bool {
        encoded.is_alone(alloc, self)
            && encoded.is_of(alloc, &self)
            && F::is_byte_slice_alike(alloc, self.as_slice(), encoded)
    }

    fn of_content(alloc: Global, content: &[u8]) -> Option<TlsByteVec<F>> {
        TlsByteVec::from_slice(alloc, content).ok()
    }
}

impl<F: Width, T: Value> Value for TlsVec<F, T> {
    fn show(&self, alloc: Global, out: &mut String) -> Result<(), AllocError> {
        push_list(alloc, out, self.as_slice())
    }

    fn is_borrowed_alike(&self, alloc: Global, encoded: &Encoded) -> bool {
        encoded.is_of(alloc, &self) && F::is_slice_alike(alloc, self.as_slice(), encoded)
    }

    fn of_content(alloc: Global, content: &[u8]) -> Option<TlsVec<F, T>> {
        Some(TlsVec::new(elements_of(alloc, content)?))
    }
}

impl<F: LengthField, T: Value + Zeroize> Value for SecretTlsVec<F, T> {
    fn show(&self, alloc: Global, out: &mut String) -> Result<(), AllocError> {
        push_list(alloc, out, self.as_slice())
    }

    fn is_borrowed_alike(&self, alloc: Global, encoded: &Encoded) -> bool {
        encoded.is_of(alloc, &self)
    }

    fn of_content(alloc: Global, content: &[u8]) -> Option<SecretTlsVec<F, T>> {
        Some(SecretTlsVec::new(elements_of(alloc, content)?))
    }
}

// The elements that these bytes are.
fn elements_of<T: Value>(alloc: Global, content: &[u8]) -> Option<Vec<T>> {
    let mut turns = Turns::new();
    let (elements, _) = lists::from_slice::<T>(alloc, content, content.len(), &mut turns).ok()?;
    Some(elements)
}
