//! `Option<T>`: the byte 0 for no payload, or the byte 1 and the payload (the crate's rule;
//! RFC 9420, section 2.1.1).
ghost use Rattle.std.specs.Prelude.{◌≡◌, ◌∷◌, IfErr, IfOk};
ghost use Rattle.tls_codec_wire.specs.declared.error.Error.TheVariants.{OutOfMemory};
ghost use Rattle.tls_codec_base.specs.PartNames.{option_names, option_source_names};
ghost use Rattle.tls_codec_grammar.specs.Tree.{option_plain};
ghost use Rattle.tls_codec_grammar.specs.Format.{option_format};
ghost use Rattle.tls_codec_grammar.specs.laws.FormatLaws.{option_meets};

use crate::error_texts::OTHER_TAG;
use crate::traits::{Deserialize, DeserializeBytes, Serialize, SerializeBytes, Size};
use std::alloc::Global;
use tls_codec_wire::{Error, Sink, Source, read_exactly, write_all};

// Nothing follows it.
const NONE: u8 = 0;

// The payload follows it.
const SOME: u8 = 1;

impl<T: Size> Size for Option<T> {
    ghost plain = { option_plain T.plain };

    ghost format = { option_format T.format };

    fn tls_serialized_len(&self) -> usize {
        match self {
            None => 1,
            Some(payload) => payload.tls_serialized_len().saturating_add(1),
        }
    }

    ghost lawful = { option_meets T.lawful };
}

impl<T: Serialize> Serialize for Option<T> {
    fn tls_serialize<W: Sink>(&self, writer: &mut W) -> Result<usize, Error> {
        match self {
            None => {
                write_all(writer, &[NONE])?;
                Ok(1)
            }
            Some(payload) => {
                write_all(writer, &[SOME])?;
                let length = payload.tls_serialize(writer)?;
                Ok(length.saturating_add(1))
            }
        }
    }

    fn tls_serialize_into(&self, out: &mut Vec<u8>) -> Result<usize, Error> {
        match self {
            None => {
                out.extend_from_slice(&[NONE])?;
                Ok(1)
            }
            Some(payload) => {
                let at = out.len();
                out.extend_from_slice(&[SOME])?;
                match payload.tls_serialize_into(out) {
                    Ok(length) => Ok(length.saturating_add(1)),
                    Err(error) => {
                        out.truncate(at);
                        Err(error)
                    }
                }
            }
        }
    }
}

impl<T: SerializeBytes> SerializeBytes for Option<T> {
    fn tls_serialize_bytes(&self, alloc: Global) -> Result<Vec<u8>, Error> {
        match self {
            None => vector(alloc, NONE, &[]),
            Some(payload) => {
                let content = payload.tls_serialize_bytes(alloc)?;
                if content.len() >= isize::MAX as usize {
                    return Err(Error::InvalidVectorLength);
                }
                vector(alloc, SOME, &content)
            }
        }
    }
}

impl<T: Deserialize> Deserialize for Option<T> {
    ghost names = { option_source_names T.names };

    /// `EndOfStream`: no byte comes. `DecodingError("option tag is not 0 or 1")`: another tag
    /// comes. Every other error is the payload's.
    fn tls_deserialize<R: Source>(alloc: Global, bytes: &mut R) -> Result<Option<T>, Error> {
        let mut tag = [0u8; 1];
        read_exactly(bytes, &mut tag)?;
        match tag[0] {
            NONE => Ok(None),
            SOME => {
                let payload = T::tls_deserialize(alloc, bytes)?;
                Ok(Some(payload))
            }
            _ => Err(OTHER_TAG),
        }
    }
}

impl<T: DeserializeBytes> DeserializeBytes for Option<T> {
    ghost names = { option_names T.names };

    /// `EndOfStream`: there is no byte. `DecodingError("option tag is not 0 or 1")`: there is
    /// another tag. Every other error is the payload's.
    fn tls_deserialize_bytes(alloc: Global, bytes: &[u8]) -> Result<(Option<T>, &[u8]), Error> {
        let Some((tag, rest)) = bytes.split_first() else {
            return Err(Error::EndOfStream);
        };
        match *tag {
            NONE => Ok((None, rest)),
            SOME => {
                let (payload, rest) = T::tls_deserialize_bytes(alloc, rest)?;
                Ok((Some(payload), rest))
            }
            _ => Err(OTHER_TAG),
        }
    }
}

impl<T: Size> Size for &Option<T> {
    ghost plain = { λ v. option_plain T.plain v.now };

    ghost format = { option_format T.format };

    fn tls_serialized_len(&self) -> usize {
        (**self).tls_serialized_len()
    }

    ghost lawful = { option_meets T.lawful };
}

impl<T: Serialize> Serialize for &Option<T> {
    fn tls_serialize<W: Sink>(&self, writer: &mut W) -> Result<usize, Error> {
        (**self).tls_serialize(writer)
    }

    fn tls_serialize_into(&self, out: &mut Vec<u8>) -> Result<usize, Error> {
        (**self).tls_serialize_into(out)
    }
}

impl<T: SerializeBytes> SerializeBytes for &Option<T> {
    fn tls_serialize_bytes(&self, alloc: Global) -> Result<Vec<u8>, Error> {
        (**self).tls_serialize_bytes(alloc)
    }
}

// The tag and what comes after it, as a vector.
fn vector(alloc: Global, tag: u8, content: &[u8]) -> Result<Vec<u8>, Error>
    ensures ok { IfOk result (λ bytes. bytes.items ≡ tag ∷ content.now) }
    ensures err { IfErr result (λ e. e ≡ OutOfMemory) }
{
    let mut bytes = Vec::with_capacity(alloc, content.len() + 1)?;
    bytes.extend_from_slice(&[tag])?;
    bytes.extend_from_slice(content)?;
    Ok(bytes)
}
