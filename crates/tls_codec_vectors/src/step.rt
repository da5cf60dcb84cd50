//! [`Step`], a tag and what its variant has after it.
ghost use Rattle.std.specs.Prelude.{◌≡◌};
ghost use Rattle.tls_codec_vectors.specs.Messages.{step_format, step_meets, step_plain, step_tag, step_variants};
ghost use Rattle.tls_codec.specs.OwnMessages.{no_variant_names, no_variant_source_names, nothing_names, nothing_source_names, tagged_names, tagged_source_names, variant_names, variant_source_names};
ghost use Rattle.std.proofs.Common.{refl};
ghost use Rattle.tls_codec_validate.specs.TaggedPlaces.{no_variant_places, nothing_places, tagged_places, variant_places};

use std::alloc::Global;
use tls_codec::{ByRef, Deserialize, DeserializeBytes, Error, Serialize, Sink, Size, Source};
use tls_codec_validate::{
    Keyed, Rejected, TagFirst, Validate, ValidateKeyed, split_u8, validate_tag_first,
};

const PING: u8 = 0;

const NOTE: u8 = 1;

const JUMP: u8 = 2;

// The error for a tag that no step has.
fn unknown(tag: u8) -> Error
    ensures { result ≡ Error.UnknownValue tag }
{
    Error::UnknownValue(u64::from(tag))
}

/// What to do next: the tag 0; the tag 1 and a string after a variable-length length; or the tag 2 and
/// a number of four bytes.
///
/// ```rust
/// let bytes = Step::Jump(5).tls_serialize_detached(alloc)?;
/// assert_eq!(rt; bytes.as_slice(), [0x02, 0x00, 0x00, 0x00, 0x05].as_slice());
/// ```
#[derive(PartialEq, Drop)]
pub enum Step {
    Ping,
    Note(String),
    Jump(u32),
}

impl Size for Step {
    ghost plain = { step_plain };

    ghost format = { step_format };

    fn tls_serialized_len(&self) -> usize {
        match self {
            Step::Ping => 1,
            Step::Note(text) => (NOTE, ByRef(text)).tls_serialized_len(),
            Step::Jump(to) => (JUMP, ByRef(to)).tls_serialized_len(),
        }
    }

    ghost lawful = { step_meets };
}

impl Serialize for Step {
    fn tls_serialize<W: Sink>(&self, writer: &mut W) -> Result<usize, Error> {
        match self {
            Step::Ping => PING.tls_serialize(writer),
            Step::Note(text) => (NOTE, ByRef(text)).tls_serialize(writer),
            Step::Jump(to) => (JUMP, ByRef(to)).tls_serialize(writer),
        }
    }

    fn tls_serialize_into(&self, out: &mut Vec<u8>) -> Result<usize, Error> {
        match self {
            Step::Ping => PING.tls_serialize_into(out),
            Step::Note(text) => (NOTE, ByRef(text)).tls_serialize_into(out),
            Step::Jump(to) => (JUMP, ByRef(to)).tls_serialize_into(out),
        }
    }
}

impl Deserialize for Step {
    ghost names = { tagged_source_names 1
        (variant_source_names 0 nothing_source_names
        (variant_source_names 1 ⟦<String as Deserialize>⟧.names
        (variant_source_names 2 ⟦<u32 as Deserialize>⟧.names
        no_variant_source_names))) };

    /// `UnknownValue`: no step has the tag. `EndOfStream`: no byte comes for it. Every other error
    /// is that of what comes after the tag.
    fn tls_deserialize<R: Source>(alloc: Global, src: &mut R) -> Result<Step, Error> {
        let tag = u8::tls_deserialize(alloc, src)?;
        match tag {
            PING => Ok(Step::Ping),
            NOTE => {
                let text = String::tls_deserialize(alloc, src)?;
                Ok(Step::Note(text))
            }
            JUMP => {
                let to = u32::tls_deserialize(alloc, src)?;
                Ok(Step::Jump(to))
            }
            _ => Err(unknown(tag)),
        }
    }
}

impl DeserializeBytes for Step {
    ghost names = { tagged_names 1
        (variant_names 0 nothing_names
        (variant_names 1 ⟦<String as DeserializeBytes>⟧.names
        (variant_names 2 ⟦<u32 as DeserializeBytes>⟧.names
        no_variant_names))) };

    /// `UnknownValue`: no step has the tag. `EndOfStream`: there is no byte for it. Every other
    /// error is that of what comes after the tag.
    fn tls_deserialize_bytes(alloc: Global, whole: &[u8]) -> Result<(Step, &[u8]), Error> {
        let (tag, rest) = u8::tls_deserialize_bytes(alloc, whole)?;
        match tag {
            PING => Ok((Step::Ping, rest)),
            NOTE => {
                let (text, rest) = String::tls_deserialize_bytes(alloc, rest)?;
                Ok((Step::Note(text), rest))
            }
            JUMP => {
                let (to, rest) = u32::tls_deserialize_bytes(alloc, rest)?;
                Ok((Step::Jump(to), rest))
            }
            _ => Err(unknown(tag)),
        }
    }
}

impl Validate for Step {
    ghost places = { tagged_places 1
        (variant_places 0 nothing_places
        (variant_places 1 ⟦<String as Validate>⟧.places
        (variant_places 2 ⟦<u32 as Validate>⟧.places
        no_variant_places))) };

    fn tls_validate_prefix(whole: &[u8]) -> Result<&[u8], Rejected<'_>> {
        let (tag, rest) = split_u8(whole)?;
        match tag {
            PING => Ok(rest),
            NOTE => {
                let behind = String::tls_validate_prefix(rest)?;
                Ok(behind)
            }
            JUMP => {
                let behind = u32::tls_validate_prefix(rest)?;
                Ok(behind)
            }
            _ => Err(Rejected {
                error: unknown(tag),
                rest: whole,
            }),
        }
    }
}

impl Keyed for Step {
    type Key = u64;

    ghost is_key = { λ n c. n ≡ step_tag c };

    fn key(&self) -> u64 {
        match self {
            Step::Ping => 0,
            Step::Note(_) => 1,
            Step::Jump(_) => 2,
        }
    }
}

impl TagFirst for Step {
    type Tag = u8;

    ghost variants = { step_variants };

    ghost first_tag = { step_tag };

    ghost is_tagged = { λ d bytes v s. s };

    ghost is_first_tag = { λ d bytes tag parts s. refl };
}

impl ValidateKeyed for Step {
    fn tls_validate_keyed(whole: &[u8]) -> Result<(u64, &[u8]), Rejected<'_>> {
        validate_tag_first::<Step>(whole)
    }
}
