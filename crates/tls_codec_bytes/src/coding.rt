//! How byte vectors are written and read.
ghost use Rattle.tls_codec_grammar.specs.Tree.{number_trees};
ghost use Rattle.tls_codec_grammar.specs.Format.{counted_bytes_format};
ghost use Rattle.tls_codec_grammar.specs.laws.FormatLaws.{counted_bytes_meets};
ghost use Rattle.tls_codec_grammar.specs.Opaque.{OpaqueCopyRefused, OpaqueSourceRefused};
ghost use Rattle.tls_codec_bytes.specs.Contents.{bytes_of};

use crate::TlsByteVec;
use std::alloc::Global;
use tls_codec_base::{
    Deserialize, DeserializeBytes, LengthField, Serialize, SerializeBytes, Size, opaque,
};
use tls_codec_wire::{Error, Sink, Source};

impl<F: LengthField> Size for TlsByteVec<F> {
    ghost plain = { λ v. number_trees (bytes_of v) };

    ghost format = { counted_bytes_format F.field };

    fn tls_serialized_len(&self) -> usize {
        opaque::announced_len::<F>(self.as_slice())
    }

    ghost lawful = { counted_bytes_meets F.lawful };
}

impl<F: LengthField> Serialize for TlsByteVec<F> {
    /// `InvalidVectorLength`: `F` doesn't hold the number of the bytes, and nothing was sent. Every
    /// other error is the sink's.
    fn tls_serialize<W: Sink>(&self, writer: &mut W) -> Result<usize, Error> {
        opaque::write::<F, W>(writer, self.as_slice())
    }

    /// `InvalidVectorLength`: `F` doesn't hold the number of the bytes. `OutOfMemory`: allocation failed.
    #[inline(always)]
    fn tls_serialize_into(&self, out: &mut Vec<u8>) -> Result<usize, Error> {
        opaque::append::<F>(out, self.as_slice())
    }
}

impl<F: LengthField> SerializeBytes for TlsByteVec<F> {
    fn tls_serialize_bytes(&self, alloc: Global) -> Result<Vec<u8>, Error> {
        opaque::to_vec::<F>(alloc, self.as_slice())
    }
}

impl<F: LengthField> Deserialize for TlsByteVec<F> {
    ghost names = { OpaqueSourceRefused F.field };

    /// `EndOfStream`: there is no whole length, or fewer bytes come than it declares.
    /// `InvalidVectorLength`: `F` rejects the length, as one wider than needed or out of its bounds.
    /// Every other error is the source's, or `OutOfMemory`.
    #[inline(always)]
    fn tls_deserialize<R: Source>(alloc: Global, src: &mut R) -> Result<TlsByteVec<F>, Error> {
        let read = opaque::read::<F, R>(alloc, src)?;
        Ok(TlsByteVec::new(read))
    }
}

impl<F: LengthField> DeserializeBytes for TlsByteVec<F> {
    ghost names = { OpaqueCopyRefused F.field };

    /// `EndOfStream`: there is no whole length, or fewer bytes come after a length of one to four
    /// bytes than it declares; after another length `DecodingError("declared content is not there")`.
    /// `InvalidVectorLength`: `F` rejects the length, as one wider than needed or out of its bounds.
    /// `OutOfMemory`: allocation failed.
    #[inline(always)]
    fn tls_deserialize_bytes(alloc: Global, whole: &[u8]) -> Result<(TlsByteVec<F>, &[u8]), Error> {
        let (copy, rest) = opaque::split_copied::<F>(alloc, whole)?;
        Ok((TlsByteVec::new(copy), rest))
    }
}

impl<F: LengthField> Size for &TlsByteVec<F> {
    ghost plain = { λ v. number_trees (bytes_of v.now) };

    ghost format = { counted_bytes_format F.field };

    fn tls_serialized_len(&self) -> usize {
        (**self).tls_serialized_len()
    }

    ghost lawful = { counted_bytes_meets F.lawful };
}

impl<F: LengthField> Serialize for &TlsByteVec<F> {
    fn tls_serialize<W: Sink>(&self, writer: &mut W) -> Result<usize, Error> {
        (**self).tls_serialize(writer)
    }

    fn tls_serialize_into(&self, out: &mut Vec<u8>) -> Result<usize, Error> {
        (**self).tls_serialize_into(out)
    }
}
