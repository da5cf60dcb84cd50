//! [`TlsSliceU8`] to [`TlsSliceU32`], borrowed elements, which are written and not read.
ghost use Rattle.std.specs.Prelude.{◌≡◌};
ghost use Rattle.tls_codec_grammar.specs.Tree.{trees};
ghost use Rattle.tls_codec_grammar.specs.Format.{fixed_list_format};
ghost use Rattle.tls_codec_grammar.specs.laws.FormatLaws.{fixed_list_meets};
ghost use Rattle.tls_codec_slice.specs.Contents.{u8_elements_of, u16_elements_of, u24_elements_of, u32_elements_of};

use std::alloc::{AllocError, Global};
use tls_codec_base::{Serialize, Size, counted};
use tls_codec_wire::{Error, Sink, U24};

/// Borrowed elements, written after their length in bytes, which has one byte.
///
/// They are written as a vector of these elements would be, and none is made.
///
/// ```rust
/// let count = TlsSliceU8(&[1u16, 2]).tls_serialize(&mut out)?;
/// assert_eq!(rt; out.as_slice(), [0x04, 0x00, 0x01, 0x00, 0x02].as_slice());
/// ```
pub struct TlsSliceU8<'a, T>(pub &'a [T]);

impl<'a, T> Clone for TlsSliceU8<'a, T> {
    ghost is_clone = { λ v copy. copy ≡ v };

    fn clone(&self) -> Result<TlsSliceU8<'a, T>, AllocError> {
        Ok(*self)
    }
}

impl<'a, T> Copy for TlsSliceU8<'a, T> {}

impl<'a, T> TlsSliceU8<'a, T> {
    /// The elements.
    pub fn as_slice(&self) -> &[T]
        ensures { result.now ≡ u8_elements_of self.now }
    {
        self.0
    }
}

impl<'a, T: Size> Size for TlsSliceU8<'a, T> {
    ghost plain = { λ v. trees T.plain (u8_elements_of v) };

    ghost format = { fixed_list_format 1 T.format };

    fn tls_serialized_len(&self) -> usize {
        counted::announced_len::<u8, T>(self.0)
    }

    ghost lawful = { fixed_list_meets 1 T.lawful };
}

impl<'a, T: Serialize> Serialize for TlsSliceU8<'a, T> {
    /// `InvalidVectorLength`: the elements have more than 255 bytes, and nothing was sent. Every
    /// other error is an element's or the sink's.
    fn tls_serialize<W: Sink>(&self, writer: &mut W) -> Result<usize, Error> {
        counted::write::<u8, T, W>(writer, self.0)
    }

    /// `InvalidVectorLength`: the elements have more than 255 bytes, or the vector would pass
    /// `isize::MAX` bytes. Every other error is an element's, or `OutOfMemory`.
    fn tls_serialize_into(&self, out: &mut Vec<u8>) -> Result<usize, Error> {
        counted::append::<u8, T>(out, self.0)
    }
}

impl<'a, T: Size> Size for &TlsSliceU8<'a, T> {
    ghost plain = { λ v. trees T.plain (u8_elements_of v.now) };

    ghost format = { fixed_list_format 1 T.format };

    fn tls_serialized_len(&self) -> usize {
        (**self).tls_serialized_len()
    }

    /// They are sent one by one.
    fn tls_send_elements<W: Sink>(
        _elements: &[&TlsSliceU8<'a, T>],
        _sink: &mut W,
    ) -> Result<Option<usize>, Error> {
        Ok(None)
    }

    ghost lawful = { fixed_list_meets 1 T.lawful };
}

impl<'a, T: Serialize> Serialize for &TlsSliceU8<'a, T> {
    fn tls_serialize<W: Sink>(&self, writer: &mut W) -> Result<usize, Error> {
        (**self).tls_serialize(writer)
    }

    fn tls_serialize_into(&self, out: &mut Vec<u8>) -> Result<usize, Error> {
        (**self).tls_serialize_into(out)
    }
}

/// Borrowed elements, written after their length in bytes, which has two bytes.
pub struct TlsSliceU16<'a, T>(pub &'a [T]);

impl<'a, T> Clone for TlsSliceU16<'a, T> {
    ghost is_clone = { λ v copy. copy ≡ v };

    fn clone(&self) -> Result<TlsSliceU16<'a, T>, AllocError> {
        Ok(*self)
    }
}

impl<'a, T> Copy for TlsSliceU16<'a, T> {}

impl<'a, T> TlsSliceU16<'a, T> {
    /// The elements.
    pub fn as_slice(&self) -> &[T]
        ensures { result.now ≡ u16_elements_of self.now }
    {
        self.0
    }
}

impl<'a, T: Size> Size for TlsSliceU16<'a, T> {
    ghost plain = { λ v. trees T.plain (u16_elements_of v) };

    ghost format = { fixed_list_format 2 T.format };

    fn tls_serialized_len(&self) -> usize {
        counted::announced_len::<u16, T>(self.0)
    }

    ghost lawful = { fixed_list_meets 2 T.lawful };
}

impl<'a, T: Serialize> Serialize for TlsSliceU16<'a, T> {
    /// `InvalidVectorLength`: the elements have more than 65,535 bytes, and nothing was sent. Every
    /// other error is an element's or the sink's.
    fn tls_serialize<W: Sink>(&self, writer: &mut W) -> Result<usize, Error> {
        counted::write::<u16, T, W>(writer, self.0)
    }

    /// `InvalidVectorLength`: the elements have more than 65,535 bytes, or the vector would pass
    /// `isize::MAX` bytes. Every other error is an element's, or `OutOfMemory`.
    fn tls_serialize_into(&self, out: &mut Vec<u8>) -> Result<usize, Error> {
        counted::append::<u16, T>(out, self.0)
    }
}

impl<'a, T: Size> Size for &TlsSliceU16<'a, T> {
    ghost plain = { λ v. trees T.plain (u16_elements_of v.now) };

    ghost format = { fixed_list_format 2 T.format };

    fn tls_serialized_len(&self) -> usize {
        (**self).tls_serialized_len()
    }

    /// They are sent one by one.
    fn tls_send_elements<W: Sink>(
        _elements: &[&TlsSliceU16<'a, T>],
        _sink: &mut W,
    ) -> Result<Option<usize>, Error> {
        Ok(None)
    }

    ghost lawful = { fixed_list_meets 2 T.lawful };
}

impl<'a, T: Serialize> Serialize for &TlsSliceU16<'a, T> {
    fn tls_serialize<W: Sink>(&self, writer: &mut W) -> Result<usize, Error> {
        (**self).tls_serialize(writer)
    }

    fn tls_serialize_into(&self, out: &mut Vec<u8>) -> Result<usize, Error> {
        (**self).tls_serialize_into(out)
    }
}

/// Borrowed elements, written after their length in bytes, which has three bytes.
pub struct TlsSliceU24<'a, T>(pub &'a [T]);

impl<'a, T> Clone for TlsSliceU24<'a, T> {
    ghost is_clone = { λ v copy. copy ≡ v };

    fn clone(&self) -> Result<TlsSliceU24<'a, T>, AllocError> {
        Ok(*self)
    }
}

impl<'a, T> Copy for TlsSliceU24<'a, T> {}

impl<'a, T> TlsSliceU24<'a, T> {
    /// The elements.
    pub fn as_slice(&self) -> &[T]
        ensures { result.now ≡ u24_elements_of self.now }
    {
        self.0
    }
}

impl<'a, T: Size> Size for TlsSliceU24<'a, T> {
    ghost plain = { λ v. trees T.plain (u24_elements_of v) };

    ghost format = { fixed_list_format 3 T.format };

    fn tls_serialized_len(&self) -> usize {
        counted::announced_len::<U24, T>(self.0)
    }

    ghost lawful = { fixed_list_meets 3 T.lawful };
}

impl<'a, T: Serialize> Serialize for TlsSliceU24<'a, T> {
    /// `InvalidVectorLength`: the elements have more than 16,777,215 bytes, and nothing was sent.
    /// Every other error is an element's or the sink's.
    fn tls_serialize<W: Sink>(&self, writer: &mut W) -> Result<usize, Error> {
        counted::write::<U24, T, W>(writer, self.0)
    }

    /// `InvalidVectorLength`: the elements have more than 16,777,215 bytes, or the vector would
    /// pass `isize::MAX` bytes. Every other error is an element's, or `OutOfMemory`.
    fn tls_serialize_into(&self, out: &mut Vec<u8>) -> Result<usize, Error> {
        counted::append::<U24, T>(out, self.0)
    }
}

impl<'a, T: Size> Size for &TlsSliceU24<'a, T> {
    ghost plain = { λ v. trees T.plain (u24_elements_of v.now) };

    ghost format = { fixed_list_format 3 T.format };

    fn tls_serialized_len(&self) -> usize {
        (**self).tls_serialized_len()
    }

    /// They are sent one by one.
    fn tls_send_elements<W: Sink>(
        _elements: &[&TlsSliceU24<'a, T>],
        _sink: &mut W,
    ) -> Result<Option<usize>, Error> {
        Ok(None)
    }

    ghost lawful = { fixed_list_meets 3 T.lawful };
}

impl<'a, T: Serialize> Serialize for &TlsSliceU24<'a, T> {
    fn tls_serialize<W: Sink>(&self, writer: &mut W) -> Result<usize, Error> {
        (**self).tls_serialize(writer)
    }

    fn tls_serialize_into(&self, out: &mut Vec<u8>) -> Result<usize, Error> {
        (**self).tls_serialize_into(out)
    }
}

/// Borrowed elements, written after their length in bytes, which has four bytes.
pub struct TlsSliceU32<'a, T>(pub &'a [T]);

impl<'a, T> Clone for TlsSliceU32<'a, T> {
    ghost is_clone = { λ v copy. copy ≡ v };

    fn clone(&self) -> Result<TlsSliceU32<'a, T>, AllocError> {
        Ok(*self)
    }
}

impl<'a, T> Copy for TlsSliceU32<'a, T> {}

impl<'a, T> TlsSliceU32<'a, T> {
    /// The elements.
    pub fn as_slice(&self) -> &[T]
        ensures { result.now ≡ u32_elements_of self.now }
    {
        self.0
    }
}

impl<'a, T: Size> Size for TlsSliceU32<'a, T> {
    ghost plain = { λ v. trees T.plain (u32_elements_of v) };

    ghost format = { fixed_list_format 4 T.format };

    fn tls_serialized_len(&self) -> usize {
        counted::announced_len::<u32, T>(self.0)
    }

    ghost lawful = { fixed_list_meets 4 T.lawful };
}

impl<'a, T: Serialize> Serialize for TlsSliceU32<'a, T> {
    /// `InvalidVectorLength`: the elements have more than 4,294,967,295 bytes, and nothing was
    /// sent. Every other error is an element's or the sink's.
    fn tls_serialize<W: Sink>(&self, writer: &mut W) -> Result<usize, Error> {
        counted::write::<u32, T, W>(writer, self.0)
    }

    /// `InvalidVectorLength`: the elements have more than 4,294,967,295 bytes, or the vector would
    /// pass `isize::MAX` bytes. Every other error is an element's, or `OutOfMemory`.
    fn tls_serialize_into(&self, out: &mut Vec<u8>) -> Result<usize, Error> {
        counted::append::<u32, T>(out, self.0)
    }
}

impl<'a, T: Size> Size for &TlsSliceU32<'a, T> {
    ghost plain = { λ v. trees T.plain (u32_elements_of v.now) };

    ghost format = { fixed_list_format 4 T.format };

    fn tls_serialized_len(&self) -> usize {
        (**self).tls_serialized_len()
    }

    /// They are sent one by one.
    fn tls_send_elements<W: Sink>(
        _elements: &[&TlsSliceU32<'a, T>],
        _sink: &mut W,
    ) -> Result<Option<usize>, Error> {
        Ok(None)
    }

    ghost lawful = { fixed_list_meets 4 T.lawful };
}

impl<'a, T: Serialize> Serialize for &TlsSliceU32<'a, T> {
    fn tls_serialize<W: Sink>(&self, writer: &mut W) -> Result<usize, Error> {
        (**self).tls_serialize(writer)
    }

    fn tls_serialize_into(&self, out: &mut Vec<u8>) -> Result<usize, Error> {
        (**self).tls_serialize_into(out)
    }
}
