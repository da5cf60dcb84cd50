//! Payloads that are there or not, as a context says: no byte shows it.
ghost use Rattle.std.specs.Prelude.{◌≡◌, ℕ, false, List, IfErr, is_none, is_some, if◌then◌else◌};
ghost use Rattle.tls_codec_grammar.specs.Grammar.{Direction};
ghost use Rattle.tls_codec_grammar.specs.Tree.{option_plain};
ghost use Rattle.tls_codec_grammar.specs.Decoding.{Named, Reads, Splits};
ghost use Rattle.tls_codec_grammar.specs.Encoding.{AppendsForm, Writes};
ghost use Rattle.tls_codec_grammar.specs.Contexts.{DoesNotFit, present, present_format, present_length};

use crate::traits::{Deserialize, DeserializeBytes, Serialize, Size};
use std::alloc::Global;
use tls_codec_wire::{Error, Sink, Source};

/// The error for a value that isn't the one that its context asks for: it has no encoding there.
pub fn does_not_fit() -> Error
    ensures { DoesNotFit result }
{
    Error::EncodingError("value does not fit its context")
}

/// Whether a payload is there exactly if `there` says so. Another has no encoding.
pub fn fits_condition<T: Size>(there: bool, value: &Option<T>) -> bool
    ensures fits { result ≡ (if there then is_some value.now else is_none value.now) }
    ensures unfit { result ≡ false
        → (d : Direction)
        → (bytes : List ℕ)
        → present there T.format.spells d bytes (option_plain T.plain value.now)
        → ⊥ }
{
    value.is_some() == there
}

/// The number of bytes of a payload's canonical encoding, saturated at `usize::MAX`; 0 if there is
/// none.
pub fn present_len<T: Size>(value: &Option<T>) -> usize
    ensures { result ≡ present_length T.format.announced (option_plain T.plain value.now) }
{
    match value {
        None => 0,
        Some(payload) => payload.tls_serialized_len(),
    }
}

/// Sends a payload that should be `there`, or nothing, and returns how many bytes that is.
///
/// `EncodingError("value does not fit its context")`: the payload is missing, or is there and should not be.
/// Nothing was sent then.
pub fn write_present<T: Serialize, W: Sink>(
    there: bool,
    value: &Option<T>,
    writer: &mut W,
) -> Result<usize, Error>
    ensures writes { Writes (present_format there T.format) (option_plain T.plain value.now) W.Sink
        writer.old writer.new result }
{
    match value {
        None => {
            if there {
                return Err(does_not_fit());
            }
            Ok(0)
        }
        Some(payload) => {
            if !there {
                return Err(does_not_fit());
            }
            payload.tls_serialize(writer)
        }
    }
}

/// Appends a payload that should be `there`, or nothing, and returns how many bytes that is.
///
/// The errors are those of [`write_present`], or `OutOfMemory`. After an error the vector has the
/// bytes from before.
pub fn append_present<T: Serialize>(
    there: bool,
    value: &Option<T>,
    out: &mut Vec<u8>,
) -> Result<usize, Error>
    ensures appends { AppendsForm (present_format there T.format) (option_plain T.plain value.now)
        out.old.items out.new.items result }
{
    match value {
        None => {
            if there {
                return Err(does_not_fit());
            }
            Ok(0)
        }
        Some(payload) => {
            if !there {
                return Err(does_not_fit());
            }
            payload.tls_serialize_into(out)
        }
    }
}

/// The payload if it should be `there`, read from a source. Every error is the payload's.
pub fn read_present<T: Deserialize, R: Source>(
    there: bool,
    alloc: Global,
    src: &mut R,
) -> Result<Option<T>, Error>
    ensures reads { Reads (present_format there T.format) (option_plain T.plain) R.Source src.old
        src.new result }
    ensures named { IfErr result (Named (present_format there T.format) T.names R.Source src.old
        src.new) }
{
    if there {
        let payload = T::tls_deserialize(alloc, src)?;
        return Ok(Some(payload));
    }
    Ok(None)
}

/// The payload if it should be `there`, which the bytes begin with, and the rest of them. Every
/// error is the payload's.
pub fn split_present<T: DeserializeBytes>(
    there: bool,
    alloc: Global,
    bytes: &[u8],
) -> Result<(Option<T>, &[u8]), Error>
    ensures splits { Splits (present_format there T.format) (option_plain T.plain) bytes.now
        result }
    ensures named { IfErr result (T.names bytes.now) }
{
    if there {
        let (payload, rest) = T::tls_deserialize_bytes(alloc, bytes)?;
        return Ok((Some(payload), rest));
    }
    Ok((None, bytes))
}
