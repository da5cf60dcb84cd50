//! The fields of `MLSMessage`.
ghost use Rattle.mls.specs.MLSMessage.{mls_message_format};
ghost use Rattle.mls.specs.MLSMessageBody.{mls_message_body_variants};
ghost use Rattle.tls_codec_outcome.specs.Fields.{Located};
ghost use Rattle.mls_fields.specs.MLSMessageFields.{AreMLSMessageFields};

use mls::MLSMessageBody;
use mls_group::ProtocolVersionMls10;
use tls_codec_outcome::{Field, Locate, Span, TagAndBody, TaggedEnum};

/// Where the fields of an `MLSMessage` are (RFC 9420, section 6).
#[repr(C)]
#[derive(Clone, Copy, PartialEq, Eq, Debug)]
pub struct MLSMessageFields {
    /// `ProtocolVersion version = mls10;`
    pub version: Span,
    /// `WireFormat wire_format;`
    pub wire_format: Span,
    /// The message after it, in the form that `wire_format` says
    pub body: Span,
}

struct Formats {}

impl TaggedEnum for Formats {
    ghost TAG_LEN = { 2 };

    const TAG_LEN: usize = 2;

    type Enum = MLSMessageBody;

    ghost variants = { mls_message_body_variants };

    ghost is_tagged = { λ bytes v is. is };

    ghost has_tagged = { λ bytes v is. is };
}

type Parts = (Field<ProtocolVersionMls10>, TagAndBody<Formats>);

impl MLSMessageFields {
    /// The fields of the message that the bytes begin with. If they begin with none, the spans mean
    /// nothing.
    pub fn locate(bytes: &[u8]) -> MLSMessageFields
        ensures { Located mls_message_format AreMLSMessageFields bytes.now result }
    {
        let ((version, (wire_format, body)), _) = <Parts>::locate(bytes, 0);
        MLSMessageFields {
            version,
            wire_format,
            body,
        }
    }
}
