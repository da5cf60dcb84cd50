//! How a secret vector is read and written: the length of the content in bytes by its field, then the elements.
ghost use Rattle.tls_codec_grammar.specs.Tree.{trees};
ghost use Rattle.tls_codec_grammar.specs.Format.{counted_list_format};
ghost use Rattle.tls_codec_grammar.specs.laws.FormatLaws.{counted_list_meets};
ghost use Rattle.tls_codec_base.specs.PartNames.{counted_list_names, counted_list_source_names};
ghost use Rattle.tls_codec_secret.specs.Contents.{elements_of};

use crate::list::SecretTlsVec;
use std::alloc::Global;
use tls_codec_base::{Deserialize, DeserializeBytes, LengthField, Serialize, Size, counted};
use tls_codec_vl::Zeroize;
use tls_codec_wire::{Error, Sink, Source};

impl<F: LengthField, T: Size + Zeroize> Size for SecretTlsVec<F, T> {
    ghost plain = { λ v. trees T.plain (elements_of v) };

    ghost format = { counted_list_format F.field T.format };

    fn tls_serialized_len(&self) -> usize {
        counted::announced_len::<F, T>(self.as_slice())
    }

    ghost lawful = { counted_list_meets F.lawful T.lawful };
}

impl<F: LengthField, T: Serialize + Zeroize> Serialize for SecretTlsVec<F, T> {
    /// `InvalidVectorLength`: `F` doesn't hold the number of the elements' bytes, and nothing was
    /// sent. Every other error is an element's or the sink's.
    fn tls_serialize<W: Sink>(&self, writer: &mut W) -> Result<usize, Error> {
        counted::write::<F, T, W>(writer, self.as_slice())
    }

    /// `InvalidVectorLength`: `F` doesn't hold the number of the elements' bytes, or the vector
    /// would pass `isize::MAX` bytes. Every other error is an element's, or `OutOfMemory`.
    fn tls_serialize_into(&self, out: &mut Vec<u8>) -> Result<usize, Error> {
        counted::append::<F, T>(out, self.as_slice())
    }
}

impl<F: LengthField, T: Deserialize + Zeroize> Deserialize for SecretTlsVec<F, T> {
    ghost names = { counted_list_source_names F.field T.format T.names };

    /// `EndOfStream`: there is no whole length, or an element passes the end that it declares.
    /// `InvalidVectorLength`: `F` rejects the length, as one wider than needed or out of its bounds.
    /// `DecodingError("vector element consumed 0 bytes")`: an element takes no byte. Every other
    /// error is an element's, the source's, or `OutOfMemory`.
    fn tls_deserialize<R: Source>(
        alloc: Global,
        bytes: &mut R,
    ) -> Result<SecretTlsVec<F, T>, Error> {
        let elements = counted::read::<F, T, R>(alloc, bytes)?;
        Ok(SecretTlsVec::new(elements))
    }
}

impl<F: LengthField, T: DeserializeBytes + Zeroize> DeserializeBytes for SecretTlsVec<F, T> {
    ghost names = { counted_list_names F.field T.format T.names };

    /// `EndOfStream`: there is no whole length.
    /// `InvalidVectorLength`: `F` rejects the length, as one wider than needed or out of its bounds.
    /// `DecodingError("elements do not fill the declared length")`: an element passes the end that
    /// it declares. `DecodingError("vector element consumed 0 bytes")`: an element takes no byte.
    /// Every other error is an element's, or `OutOfMemory`.
    fn tls_deserialize_bytes(
        alloc: Global,
        bytes: &[u8],
    ) -> Result<(SecretTlsVec<F, T>, &[u8]), Error> {
        let (elements, rest) = counted::split::<F, T>(alloc, bytes)?;
        Ok((SecretTlsVec::new(elements), rest))
    }
}

impl<F: LengthField, T: Size + Zeroize> Size for &SecretTlsVec<F, T> {
    ghost plain = { λ v. trees T.plain (elements_of v.now) };

    ghost format = { counted_list_format F.field T.format };

    fn tls_serialized_len(&self) -> usize {
        (**self).tls_serialized_len()
    }

    ghost lawful = { counted_list_meets F.lawful T.lawful };
}

impl<F: LengthField, T: Serialize + Zeroize> Serialize for &SecretTlsVec<F, T> {
    fn tls_serialize<W: Sink>(&self, writer: &mut W) -> Result<usize, Error> {
        (**self).tls_serialize(writer)
    }

    fn tls_serialize_into(&self, out: &mut Vec<u8>) -> Result<usize, Error> {
        (**self).tls_serialize_into(out)
    }
}
