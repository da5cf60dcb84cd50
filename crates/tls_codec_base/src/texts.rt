//! `String` and `&str`: the number of UTF-8 bytes as a variable-length integer, then these bytes (the
//! crate's rule).
ghost use Rattle.std.specs.Prelude.{string_bytes};
ghost use Rattle.tls_codec_grammar.specs.Tree.{number_trees};
ghost use Rattle.tls_codec_grammar.specs.Format.{text_format};
ghost use Rattle.tls_codec_grammar.specs.laws.FormatLaws.{text_meets};
ghost use Rattle.tls_codec_grammar.specs.Opaque.{TextRefused, TextSourceRefused};

use crate::error_texts::INVALID_UTF8;
use crate::traits::{Deserialize, DeserializeBytes, Serialize, SerializeBytes, Size};
use std::alloc::Global;
use tls_codec_grammar::opaque;
use tls_codec_wire::{Error, Sink, Source, TlsVarInt};

impl Size for String {
    ghost plain = { λ s. number_trees (string_bytes s) };

    ghost format = { text_format };

    fn tls_serialized_len(&self) -> usize {
        self.as_str().tls_serialized_len()
    }

    ghost lawful = { text_meets };
}

impl Serialize for String {
    /// `InvalidVectorLength` is as for a `&str`.
    fn tls_serialize<W: Sink>(&self, writer: &mut W) -> Result<usize, Error> {
        self.as_str().tls_serialize(writer)
    }

    /// The errors are those of a `&str`.
    #[inline(always)]
    fn tls_serialize_into(&self, out: &mut Vec<u8>) -> Result<usize, Error> {
        self.as_str().tls_serialize_into(out)
    }
}

impl SerializeBytes for String {
    fn tls_serialize_bytes(&self, alloc: Global) -> Result<Vec<u8>, Error> {
        self.as_str().tls_serialize_bytes(alloc)
    }
}

impl Deserialize for String {
    ghost names = { TextSourceRefused };

    /// `EndOfStream`: there is no whole length, or fewer bytes come than it declares.
    /// `InvalidVectorLength`: the length has more bytes than it needs, or more than 30 bits.
    /// `DecodingError("invalid utf8")`: the bytes are not valid UTF-8. `OutOfMemory`: allocation
    /// failed. Every other error is the source's.
    #[inline(always)]
    fn tls_deserialize<R: Source>(alloc: Global, bytes: &mut R) -> Result<String, Error> {
        let content = opaque::read::<TlsVarInt, R>(alloc, bytes)?;
        match String::from_utf8(content) {
            Ok(text) => Ok(text),
            Err(_) => Err(INVALID_UTF8),
        }
    }
}

impl DeserializeBytes for String {
    ghost names = { TextRefused };

    /// `InvalidVectorLength`: the length has more bytes than it needs, or more than 30 bits.
    /// `EndOfStream`: there is no whole length. `DecodingError("declared content is not there")`:
    /// fewer bytes come after it than it declares. `DecodingError("invalid utf8")`: the bytes are
    /// not valid UTF-8. `OutOfMemory`: allocation failed.
    #[inline(always)]
    fn tls_deserialize_bytes(alloc: Global, bytes: &[u8]) -> Result<(String, &[u8]), Error> {
        let (content, rest) = opaque::split::<TlsVarInt>(bytes)?;
        let Ok(text) = std::str::from_utf8(content) else {
            return Err(INVALID_UTF8);
        };
        let owned = String::from_str(alloc, text)?;
        Ok((owned, rest))
    }
}

impl Size for &str {
    ghost plain = { λ s. number_trees s.now };

    ghost format = { text_format };

    fn tls_serialized_len(&self) -> usize {
        opaque::announced_len::<TlsVarInt>(self.as_bytes())
    }

    ghost lawful = { text_meets };
}

impl Serialize for &str {
    /// `InvalidVectorLength`: there are more bytes than the greatest length, and nothing was sent.
    /// Every other error is the sink's.
    fn tls_serialize<W: Sink>(&self, writer: &mut W) -> Result<usize, Error> {
        opaque::write::<TlsVarInt, W>(writer, self.as_bytes())
    }

    /// `InvalidVectorLength`: there are more bytes than the greatest length. `OutOfMemory`:
    /// allocation failed.
    #[inline(always)]
    fn tls_serialize_into(&self, out: &mut Vec<u8>) -> Result<usize, Error> {
        opaque::append::<TlsVarInt>(out, self.as_bytes())
    }
}

impl SerializeBytes for &str {
    /// `InvalidVectorLength`: there are more bytes than the greatest length. `OutOfMemory`:
    /// allocation failed.
    fn tls_serialize_bytes(&self, alloc: Global) -> Result<Vec<u8>, Error> {
        opaque::to_vec::<TlsVarInt>(alloc, self.as_bytes())
    }
}
