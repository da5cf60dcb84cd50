//! Numbers, in decimal.
use super::Value;
use crate::encoded::Encoded;
use std::alloc::{AllocError, Global};
use tls_codec::{TlsVarInt, U24};

impl Value for u8 {
    fn show(&self, _alloc: Global, out: &mut String) -> Result<(), AllocError> {
        write!(out, "{self}")
    }

    fn is_borrowed_alike(&self, alloc: Global, encoded: &Encoded) -> bool {
        encoded.is_alone(alloc, self)
            && encoded.is_of(alloc, &self)
            && encoded.is_alone(alloc, &self)
    }
}

impl Value for u16 {
    fn show(&self, _alloc: Global, out: &mut String) -> Result<(), AllocError> {
        write!(out, "{self}")
    }

    fn is_borrowed_alike(&self, alloc: Global, encoded: &Encoded) -> bool {
        encoded.is_alone(alloc, self)
            && encoded.is_of(alloc, &self)
            && encoded.is_alone(alloc, &self)
    }
}

impl Value for U24 {
    fn show(&self, _alloc: Global, out: &mut String) -> Result<(), AllocError> {
        write!(out, "{}", usize::from(*self))
    }

    fn is_borrowed_alike(&self, alloc: Global, encoded: &Encoded) -> bool {
        encoded.is_alone(alloc, self)
            && encoded.is_of(alloc, &self)
            && encoded.is_alone(alloc, &self)
    }
}

impl Value for u32 {
    fn show(&self, _alloc: Global, out: &mut String) -> Result<(), AllocError> {
        write!(out, "{self}")
    }

    fn is_borrowed_alike(&self, alloc: Global, encoded: &Encoded) -> bool {
        encoded.is_alone(alloc, self)
            && encoded.is_of(alloc, &self)
            && encoded.is_alone(alloc, &self)
    }
}

impl Value for u64 {
    fn show(&self, _alloc: Global, out: &mut String) -> Result<(), AllocError> {
        write!(out, "{self}")
    }

    fn is_borrowed_alike(&self, alloc: Global, encoded: &Encoded) -> bool {
        encoded.is_alone(alloc, self)
            && encoded.is_of(alloc, &self)
            && encoded.is_alone(alloc, &self)
    }
}

impl Value for TlsVarInt {
    fn show(&self, _alloc: Global, out: &mut String) -> Result<(), AllocError> {
        write!(out, "{}", self.value())
    }

    fn is_borrowed_alike(&self, alloc: Global, encoded: &Encoded) -> bool {
        encoded.is_alone(alloc, self)
    }
}
