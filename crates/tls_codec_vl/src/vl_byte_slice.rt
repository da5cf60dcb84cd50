//! [`VLByteSlice`], borrowed bytes, which are written and not read.
ghost use Rattle.std.specs.Prelude.{◌≡◌, codes, Some};
ghost use Rattle.tls_codec_grammar.specs.Tree.{number_trees};
ghost use Rattle.tls_codec_grammar.specs.Format.{bytes_format};
ghost use Rattle.tls_codec_grammar.specs.laws.FormatLaws.{bytes_meets};
ghost use Rattle.tls_codec_vl.specs.Contents.{slice_bytes_of};
ghost use Rattle.tls_codec_vl.specs.Shown.{debug_text};

use crate::show;
use std::alloc::Global;
use std::fmt;
use tls_codec_base::{Serialize, SerializeBytes, Size, opaque};
use tls_codec_wire::{Error, Sink, TlsVarInt};

/// Borrowed bytes. Their encoding is their number as a variable-length integer, and then the bytes.
///
/// It is written as a [`VLBytes`](crate::VLBytes) of these bytes is, and needs no copy of them.
///
/// ```rust
/// let label = VLByteSlice(b"mls10");
/// let count = label.tls_serialize(&mut out)?;
/// assert_eq!(rt; count, 6);
/// ```
#[derive(Clone, Copy)]
pub struct VLByteSlice<'a>(pub &'a [u8]);

impl<'a> VLByteSlice<'a> {
    /// The bytes.
    pub fn as_slice(&self) -> &[u8]
        ensures { result.now ≡ slice_bytes_of self.now }
    {
        self.0
    }
}

impl<'a> fmt::Debug for VLByteSlice<'a> {
    ghost debug_output = { λ v. Some (debug_text (codes "VLByteSlice") (slice_bytes_of v)) };

    fn fmt<W: fmt::Write>(&self, f: &mut fmt::Formatter<W>) -> fmt::Result {
        show::debug("VLByteSlice", self.as_slice(), f)
    }
}

impl<'a> Size for VLByteSlice<'a> {
    ghost plain = { λ v. number_trees (slice_bytes_of v) };

    ghost format = { bytes_format };

    fn tls_serialized_len(&self) -> usize {
        opaque::announced_len::<TlsVarInt>(self.as_slice())
    }

    ghost lawful = { bytes_meets };
}

impl<'a> Serialize for VLByteSlice<'a> {
    /// `InvalidVectorLength`: there are more bytes than the greatest length, and nothing was sent.
    /// Every other error is the sink's.
    fn tls_serialize<W: Sink>(&self, writer: &mut W) -> Result<usize, Error> {
        opaque::write::<TlsVarInt, W>(writer, self.as_slice())
    }

    /// `InvalidVectorLength`: there are more bytes than the greatest length. `OutOfMemory`:
    /// allocation failed.
    #[inline(always)]
    fn tls_serialize_into(&self, out: &mut Vec<u8>) -> Result<usize, Error> {
        opaque::append::<TlsVarInt>(out, self.as_slice())
    }
}

impl<'a> SerializeBytes for VLByteSlice<'a> {
    fn tls_serialize_bytes(&self, alloc: Global) -> Result<Vec<u8>, Error> {
        opaque::to_vec::<TlsVarInt>(alloc, self.as_slice())
    }
}

impl<'a> Size for &VLByteSlice<'a> {
    ghost plain = { λ v. number_trees (slice_bytes_of v.now) };

    ghost format = { bytes_format };

    fn tls_serialized_len(&self) -> usize {
        (**self).tls_serialized_len()
    }

    /// They are sent one by one.
    fn tls_send_elements<W: Sink>(
        _elements: &[&VLByteSlice<'a>],
        _sink: &mut W,
    ) -> Result<Option<usize>, Error> {
        Ok(None)
    }

    ghost lawful = { bytes_meets };
}

impl<'a> Serialize for &VLByteSlice<'a> {
    fn tls_serialize<W: Sink>(&self, writer: &mut W) -> Result<usize, Error> {
        (**self).tls_serialize(writer)
    }

    fn tls_serialize_into(&self, out: &mut Vec<u8>) -> Result<usize, Error> {
        (**self).tls_serialize_into(out)
    }
}
