//! Borrowed elements and bytes after a length of one to four bytes.
use super::Value;
use crate::encoded::Encoded;
use std::alloc::Global;
use tls_codec::{
    LengthField, TlsByteSliceU8, TlsByteSliceU16, TlsByteSliceU24, TlsByteSliceU32, TlsSliceU8,
    TlsSliceU16, TlsSliceU24, TlsSliceU32, U24, Within,
};

/// A length that may have wrappers of slices. They, and references to them, are written as the owned type was.
pub trait Width: LengthField {
    fn is_slice_alike<T: Value>(_alloc: Global, _elements: &[T], _encoded: &Encoded) -> bool {
        true
    }

    fn is_byte_slice_alike(_alloc: Global, _bytes: &[u8], _encoded: &Encoded) -> bool {
        true
    }
}

impl Width for u8 {
    fn is_slice_alike<T: Value>(alloc: Global, elements: &[T], encoded: &Encoded) -> bool {
        let slice = TlsSliceU8(elements);
        encoded.is_of(alloc, &slice)
            && encoded.is_of(alloc, &&slice)
            && slice.as_slice() == elements
    }

    fn is_byte_slice_alike(alloc: Global, bytes: &[u8], encoded: &Encoded) -> bool {
        let slice = TlsByteSliceU8(bytes);
        encoded.is_of(alloc, &slice) && encoded.is_of(alloc, &&slice) && slice.as_slice() == bytes
    }
}

impl Width for u16 {
    fn is_slice_alike<T: Value>(alloc: Global, elements: &[T], encoded: &Encoded) -> bool {
        let slice = TlsSliceU16(elements);
        encoded.is_of(alloc, &slice)
            && encoded.is_of(alloc, &&slice)
            && slice.as_slice() == elements
    }

    fn is_byte_slice_alike(alloc: Global, bytes: &[u8], encoded: &Encoded) -> bool {
        let slice = TlsByteSliceU16(bytes);
        encoded.is_of(alloc, &slice) && encoded.is_of(alloc, &&slice) && slice.as_slice() == bytes
    }
}

impl Width for U24 {
    fn is_slice_alike<T: Value>(alloc: Global, elements: &[T], encoded: &Encoded) -> bool {
        let slice = TlsSliceU24(elements);
        encoded.is_of(alloc, &slice)
            && encoded.is_of(alloc, &&slice)
            && slice.as_slice() == elements
    }

    fn is_byte_slice_alike(alloc: Global, bytes: &[u8], encoded: &Encoded) -> bool {
        let slice = TlsByteSliceU24(bytes);
        encoded.is_of(alloc, &slice) && encoded.is_of(alloc, &&slice) && slice.as_slice() == bytes
    }
}

impl Width for u32 {
    fn is_slice_alike<T: Value>(alloc: Global, elements: &[T], encoded: &Encoded) -> bool {
        let slice = TlsSliceU32(elements);
        encoded.is_of(alloc, &slice)
            && encoded.is_of(alloc, &&slice)
            && slice.as_slice() == elements
    }

    fn is_byte_slice_alike(alloc: Global, bytes: &[u8], encoded: &Encoded) -> bool {
        let slice = TlsByteSliceU32(bytes);
        encoded.is_of(alloc, &slice) && encoded.is_of(alloc, &&slice) && slice.as_slice() == bytes
    }
}

// There are none.
impl<F: LengthField, const LEAST: usize, const MOST: usize> Width for Within<F, LEAST, MOST> {}
