//! Arrays, options, boxes, pairs and triples.
use super::Value;
use crate::encoded::Encoded;
use crate::notation::push_bytes;
use std::alloc::{AllocError, Global};
use tls_codec::SerializeBytes;

/// As bytes.
impl<const LEN: usize> Value for [u8; LEN] {
    fn show(&self, alloc: Global, out: &mut String) -> Result<(), AllocError> {
        push_bytes(alloc, out, self)
    }

    fn is_borrowed_alike(&self, alloc: Global, encoded: &Encoded) -> bool {
        encoded.is_alone(alloc, self)
    }
}

impl<T: Value + SerializeBytes> Value for Option<T> {
    fn show(&self, alloc: Global, out: &mut String) -> Result<(), AllocError> {
        match self {
            None => out.push_str("none"),
            Some(payload) => {
                out.push_str("some ")?;
                payload.show(alloc, out)
            }
        }
    }

    fn is_borrowed_alike(&self, alloc: Global, encoded: &Encoded) -> bool {
        encoded.is_alone(alloc, self)
            && encoded.is_of(alloc, &self)
            && encoded.is_alone(alloc, &self)
    }
}

/// As the value in it.
impl<T: Value + SerializeBytes> Value for Box<T> {
    fn show(&self, alloc: Global, out: &mut String) -> Result<(), AllocError> {
        (**self).show(alloc, out)
    }

    fn is_borrowed_alike(&self, alloc: Global, encoded: &Encoded) -> bool {
        encoded.is_alone(alloc, self)
    }
}

impl Value for () {
    fn show(&self, _alloc: Global, out: &mut String) -> Result<(), AllocError> {
        out.push_str("()")
    }
}

impl<T: Value, U: Value> Value for (T, U) {
    fn show(&self, alloc: Global, out: &mut String) -> Result<(), AllocError> {
        out.push('(')?;
        self.0.show(alloc, out)?;
        out.push(',')?;
        self.1.show(alloc, out)?;
        out.push(')')
    }
}

impl<T: Value, U: Value, V: Value> Value for (T, U, V) {
    fn show(&self, alloc: Global, out: &mut String) -> Result<(), AllocError> {
        out.push('(')?;
        self.0.show(alloc, out)?;
        out.push(',')?;
        self.1.show(alloc, out)?;
        out.push(',')?;
        self.2.show(alloc, out)?;
        out.push(')')
    }
}
