//! [`ConfirmedTranscriptHashInput`].
ghost use Rattle.std.specs.Prelude.{◌≡◌, ◌&&◌};
ghost use Rattle.mls.specs.ConfirmedTranscriptHashInput.{confirmed_transcript_hash_input_format, confirmed_transcript_hash_input_meets, confirmed_transcript_hash_input_plain};
ghost use Rattle.mls.specs.declared.confirmed_transcript_hash_input.ConfirmedTranscriptHashInput.{ConfirmedTranscriptHashInput};

use crate::{FramedContent, WireFormat};
use tls_codec::{ByRef, Error, Serialize, Sink, Size, VLBytes};
use tls_codec_cases::append_as;

/// `ConfirmedTranscriptHashInput` (RFC 9420, section 8.2).
///
/// It has references to its fields. It can only be encoded.
#[derive(PartialEq, Eq, Debug, Clone, Copy)]
pub struct ConfirmedTranscriptHashInput<'a> {
    /// `WireFormat wire_format;`
    pub wire_format: &'a WireFormat,
    /// `FramedContent content;`
    pub content: &'a FramedContent,
    /// `opaque signature<V>;`
    pub signature: &'a VLBytes,
}

impl Size for ConfirmedTranscriptHashInput<'_> {
    ghost plain = { confirmed_transcript_hash_input_plain };

    ghost format = { confirmed_transcript_hash_input_format };

    fn tls_serialized_len(&self) -> usize {
        (
            ByRef(self.wire_format),
            ByRef(self.content),
            ByRef(self.signature),
        )
            .tls_serialized_len()
    }

    ghost lawful = { confirmed_transcript_hash_input_meets };
}

impl Serialize for ConfirmedTranscriptHashInput<'_> {
    fn tls_serialize<W: Sink>(&self, writer: &mut W) -> Result<usize, Error> {
        (
            ByRef(self.wire_format),
            ByRef(self.content),
            ByRef(self.signature),
        )
            .tls_serialize(writer)
    }

    fn tls_serialize_into(&self, out: &mut Vec<u8>) -> Result<usize, Error> {
        append_as(
            self,
            &(
                ByRef(self.wire_format),
                ByRef(self.content),
                ByRef(self.signature),
            ),
            out,
        )
    }
}

/// Two values are equal if and only if all their fields are equal.
pub fn is_compared_by_its_fields()
    ensures { (x y : ConfirmedTranscriptHashInput) →
        ⟦<ConfirmedTranscriptHashInput<'static> as PartialEq>⟧.eq x y
        ≡ (⟦<WireFormat as PartialEq>⟧.eq x.wire_format.now y.wire_format.now
        && (⟦<FramedContent as PartialEq>⟧.eq x.content.now y.content.now
        && ⟦<VLBytes as PartialEq>⟧.eq x.signature.now y.signature.now)) }
{}
