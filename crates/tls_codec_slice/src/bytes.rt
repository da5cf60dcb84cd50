//! [`TlsByteSliceU8`] to [`TlsByteSliceU32`], borrowed bytes, which are written and not read.
ghost use Rattle.std.specs.Prelude.{◌≡◌};
ghost use Rattle.std.proofs.Common.{arith};
ghost use Rattle.tls_codec_grammar.specs.Tree.{number_trees};
ghost use Rattle.tls_codec_grammar.specs.Format.{fixed_list_format, number_format};
ghost use Rattle.tls_codec_grammar.specs.laws.FormatLaws.{fixed_list_meets, number_meets};
ghost use Rattle.tls_codec_slice.specs.Contents.{u8_bytes_of, u16_bytes_of, u24_bytes_of, u32_bytes_of};

use std::alloc::Global;
use tls_codec_base::{Serialize, Size, opaque};
use tls_codec_wire::{Error, Sink, U24};

/// Borrowed bytes, written after their number, which has one byte.
///
/// They are written as a byte vector of these bytes would be, and none is made.
///
/// ```rust
/// let count = TlsByteSliceU8(b"h2").tls_serialize(&mut out)?;
/// assert_eq!(rt; count, 3);
/// ```
#[derive(Clone, Copy)]
pub struct TlsByteSliceU8<'a>(pub &'a [u8]);

impl<'a> TlsByteSliceU8<'a> {
    /// The bytes.
    pub fn as_slice(&self) -> &[u8]
        ensures { result.now ≡ u8_bytes_of self.now }
    {
        self.0
    }
}

impl<'a> Size for TlsByteSliceU8<'a> {
    ghost plain = { λ v. number_trees (u8_bytes_of v) };

    ghost format = { fixed_list_format 1 (number_format 1) };

    fn tls_serialized_len(&self) -> usize {
        opaque::announced_len::<u8>(self.0)
    }

    ghost lawful = { fixed_list_meets 1 (number_meets 1 (Prim.omega arith)) };
}

impl<'a> Serialize for TlsByteSliceU8<'a> {
    /// `InvalidVectorLength`: there are more than 255 bytes, and nothing was sent. Every other
    /// error is the sink's.
    fn tls_serialize<W: Sink>(&self, writer: &mut W) -> Result<usize, Error> {
        opaque::write::<u8, W>(writer, self.0)
    }

    /// `InvalidVectorLength`: there are more than 255 bytes. `OutOfMemory`: allocation failed.
    #[inline(always)]
    fn tls_serialize_into(&self, out: &mut Vec<u8>) -> Result<usize, Error> {
        opaque::append::<u8>(out, self.0)
    }
}

impl<'a> Size for &TlsByteSliceU8<'a> {
    ghost plain = { λ v. number_trees (u8_bytes_of v.now) };

    ghost format = { fixed_list_format 1 (number_format 1) };

    fn tls_serialized_len(&self) -> usize {
        (**self).tls_serialized_len()
    }

    /// They are sent one by one.
    fn tls_send_elements<W: Sink>(
        _elements: &[&TlsByteSliceU8<'a>],
        _sink: &mut W,
    ) -> Result<Option<usize>, Error> {
        Ok(None)
    }

    ghost lawful = { fixed_list_meets 1 (number_meets 1 (Prim.omega arith)) };
}

impl<'a> Serialize for &TlsByteSliceU8<'a> {
    fn tls_serialize<W: Sink>(&self, writer: &mut W) -> Result<usize, Error> {
        (**self).tls_serialize(writer)
    }

    fn tls_serialize_into(&self, out: &mut Vec<u8>) -> Result<usize, Error> {
        (**self).tls_serialize_into(out)
    }
}

/// Borrowed bytes, written after their number, which has two bytes.
#[derive(Clone, Copy)]
pub struct TlsByteSliceU16<'a>(pub &'a [u8]);

impl<'a> TlsByteSliceU16<'a> {
    /// The bytes.
    pub fn as_slice(&self) -> &[u8]
        ensures { result.now ≡ u16_bytes_of self.now }
    {
        self.0
    }
}

impl<'a> Size for TlsByteSliceU16<'a> {
    ghost plain = { λ v. number_trees (u16_bytes_of v) };

    ghost format = { fixed_list_format 2 (number_format 1) };

    fn tls_serialized_len(&self) -> usize {
        opaque::announced_len::<u16>(self.0)
    }

    ghost lawful = { fixed_list_meets 2 (number_meets 1 (Prim.omega arith)) };
}

impl<'a> Serialize for TlsByteSliceU16<'a> {
    /// `InvalidVectorLength`: there are more than 65,535 bytes, and nothing was sent. Every other
    /// error is the sink's.
    fn tls_serialize<W: Sink>(&self, writer: &mut W) -> Result<usize, Error> {
        opaque::write::<u16, W>(writer, self.0)
    }

    /// `InvalidVectorLength`: there are more than 65,535 bytes. `OutOfMemory`: allocation failed.
    #[inline(always)]
    fn tls_serialize_into(&self, out: &mut Vec<u8>) -> Result<usize, Error> {
        opaque::append::<u16>(out, self.0)
    }
}

impl<'a> Size for &TlsByteSliceU16<'a> {
    ghost plain = { λ v. number_trees (u16_bytes_of v.now) };

    ghost format = { fixed_list_format 2 (number_format 1) };

    fn tls_serialized_len(&self) -> usize {
        (**self).tls_serialized_len()
    }

    /// They are sent one by one.
    fn tls_send_elements<W: Sink>(
        _elements: &[&TlsByteSliceU16<'a>],
        _sink: &mut W,
    ) -> Result<Option<usize>, Error> {
        Ok(None)
    }

    ghost lawful = { fixed_list_meets 2 (number_meets 1 (Prim.omega arith)) };
}

impl<'a> Serialize for &TlsByteSliceU16<'a> {
    fn tls_serialize<W: Sink>(&self, writer: &mut W) -> Result<usize, Error> {
        (**self).tls_serialize(writer)
    }

    fn tls_serialize_into(&self, out: &mut Vec<u8>) -> Result<usize, Error> {
        (**self).tls_serialize_into(out)
    }
}

/// Borrowed bytes, written after their number, which has three bytes.
#[derive(Clone, Copy)]
pub struct TlsByteSliceU24<'a>(pub &'a [u8]);

impl<'a> TlsByteSliceU24<'a> {
    /// The bytes.
    pub fn as_slice(&self) -> &[u8]
        ensures { result.now ≡ u24_bytes_of self.now }
    {
        self.0
    }
}

impl<'a> Size for TlsByteSliceU24<'a> {
    ghost plain = { λ v. number_trees (u24_bytes_of v) };

    ghost format = { fixed_list_format 3 (number_format 1) };

    fn tls_serialized_len(&self) -> usize {
        opaque::announced_len::<U24>(self.0)
    }

    ghost lawful = { fixed_list_meets 3 (number_meets 1 (Prim.omega arith)) };
}

impl<'a> Serialize for TlsByteSliceU24<'a> {
    /// `InvalidVectorLength`: there are more than 16,777,215 bytes, and nothing was sent. Every
    /// other error is the sink's.
    fn tls_serialize<W: Sink>(&self, writer: &mut W) -> Result<usize, Error> {
        opaque::write::<U24, W>(writer, self.0)
    }

    /// `InvalidVectorLength`: there are more than 16,777,215 bytes. `OutOfMemory`: allocation
    /// failed.
    #[inline(always)]
    fn tls_serialize_into(&self, out: &mut Vec<u8>) -> Result<usize, Error> {
        opaque::append::<U24>(out, self.0)
    }
}

impl<'a> Size for &TlsByteSliceU24<'a> {
    ghost plain = { λ v. number_trees (u24_bytes_of v.now) };

    ghost format = { fixed_list_format 3 (number_format 1) };

    fn tls_serialized_len(&self) -> usize {
        (**self).tls_serialized_len()
    }

    /// They are sent one by one.
    fn tls_send_elements<W: Sink>(
        _elements: &[&TlsByteSliceU24<'a>],
        _sink: &mut W,
    ) -> Result<Option<usize>, Error> {
        Ok(None)
    }

    ghost lawful = { fixed_list_meets 3 (number_meets 1 (Prim.omega arith)) };
}

impl<'a> Serialize for &TlsByteSliceU24<'a> {
    fn tls_serialize<W: Sink>(&self, writer: &mut W) -> Result<usize, Error> {
        (**self).tls_serialize(writer)
    }

    fn tls_serialize_into(&self, out: &mut Vec<u8>) -> Result<usize, Error> {
        (**self).tls_serialize_into(out)
    }
}

/// Borrowed bytes, written after their number, which has four bytes.
#[derive(Clone, Copy)]
pub struct TlsByteSliceU32<'a>(pub &'a [u8]);

impl<'a> TlsByteSliceU32<'a> {
    /// The bytes.
    pub fn as_slice(&self) -> &[u8]
        ensures { result.now ≡ u32_bytes_of self.now }
    {
        self.0
    }
}

impl<'a> Size for TlsByteSliceU32<'a> {
    ghost plain = { λ v. number_trees (u32_bytes_of v) };

    ghost format = { fixed_list_format 4 (number_format 1) };

    fn tls_serialized_len(&self) -> usize {
        opaque::announced_len::<u32>(self.0)
    }

    ghost lawful = { fixed_list_meets 4 (number_meets 1 (Prim.omega arith)) };
}

impl<'a> Serialize for TlsByteSliceU32<'a> {
    /// `InvalidVectorLength`: there are more than 4,294,967,295 bytes, and nothing was sent. Every
    /// other error is the sink's.
    fn tls_serialize<W: Sink>(&self, writer: &mut W) -> Result<usize, Error> {
        opaque::write::<u32, W>(writer, self.0)
    }

    /// `InvalidVectorLength`: there are more than 4,294,967,295 bytes. `OutOfMemory`: allocation
    /// failed.
    #[inline(always)]
    fn tls_serialize_into(&self, out: &mut Vec<u8>) -> Result<usize, Error> {
        opaque::append::<u32>(out, self.0)
    }
}

impl<'a> Size for &TlsByteSliceU32<'a> {
    ghost plain = { λ v. number_trees (u32_bytes_of v.now) };

    ghost format = { fixed_list_format 4 (number_format 1) };

    fn tls_serialized_len(&self) -> usize {
        (**self).tls_serialized_len()
    }

    /// They are sent one by one.
    fn tls_send_elements<W: Sink>(
        _elements: &[&TlsByteSliceU32<'a>],
        _sink: &mut W,
    ) -> Result<Option<usize>, Error> {
        Ok(None)
    }

    ghost lawful = { fixed_list_meets 4 (number_meets 1 (Prim.omega arith)) };
}

impl<'a> Serialize for &TlsByteSliceU32<'a> {
    fn tls_serialize<W: Sink>(&self, writer: &mut W) -> Result<usize, Error> {
        (**self).tls_serialize(writer)
    }

    fn tls_serialize_into(&self, out: &mut Vec<u8>) -> Result<usize, Error> {
        (**self).tls_serialize_into(out)
    }
}
