//! [`InterimTranscriptHashInput`].
ghost use Rattle.std.specs.Prelude.{◌≡◌};
ghost use Rattle.mls.specs.InterimTranscriptHashInput.{interim_transcript_hash_input_format, interim_transcript_hash_input_meets, interim_transcript_hash_input_plain};
ghost use Rattle.mls.specs.declared.interim_transcript_hash_input.InterimTranscriptHashInput.{InterimTranscriptHashInput};

use mls_group::MAC;
use tls_codec::{ByRef, Error, Serialize, Sink, Size};
use tls_codec_cases::append_as;

/// `InterimTranscriptHashInput` (RFC 9420, section 8.2).
///
/// It has references to its fields. It can only be encoded.
#[derive(PartialEq, Eq, Debug, Clone, Copy)]
pub struct InterimTranscriptHashInput<'a> {
    /// `MAC confirmation_tag;`
    pub confirmation_tag: &'a MAC,
}

impl Size for InterimTranscriptHashInput<'_> {
    ghost plain = { interim_transcript_hash_input_plain };

    ghost format = { interim_transcript_hash_input_format };

    fn tls_serialized_len(&self) -> usize {
        ByRef(self.confirmation_tag).tls_serialized_len()
    }

    ghost lawful = { interim_transcript_hash_input_meets };
}

impl Serialize for InterimTranscriptHashInput<'_> {
    fn tls_serialize<W: Sink>(&self, writer: &mut W) -> Result<usize, Error> {
        ByRef(self.confirmation_tag).tls_serialize(writer)
    }

    fn tls_serialize_into(&self, out: &mut Vec<u8>) -> Result<usize, Error> {
        append_as(self, &ByRef(self.confirmation_tag), out)
    }
}

/// Two values are equal if and only if all their fields are equal.
pub fn is_compared_by_its_fields()
    ensures { (x y : InterimTranscriptHashInput) →
        ⟦<InterimTranscriptHashInput<'static> as PartialEq>⟧.eq x y
        ≡ ⟦<MAC as PartialEq>⟧.eq x.confirmation_tag.now y.confirmation_tag.now }
{}
