//! The tag of a `Handshake`, and what its case has.
ghost use Rattle.tls13.specs.Handshake.{handshake_format, handshake_variants};
ghost use Rattle.tls_codec_outcome.specs.Fields.{Located};
ghost use Rattle.tls13_fields.specs.HandshakeFields.{AreHandshakeFields};

use tls_codec_outcome::{Locate, Span, TagAndBody, TaggedEnum};
use tls13::Handshake;

/// Where the fields of a `Handshake` are (RFC 8446, section 4).
#[repr(C)]
#[derive(Clone, Copy, PartialEq, Eq, Debug)]
pub struct HandshakeFields {
    /// `HandshakeType msg_type;`
    pub msg_type: Span,
    /// What its case has, with its length: a `ClientHello`, a `ServerHello`, ..
    pub body: Span,
}

struct Cases {}

impl TaggedEnum for Cases {
    ghost TAG_LEN = { 1 };

    const TAG_LEN: usize = 1;

    type Enum = Handshake;

    ghost variants = { handshake_variants };

    ghost is_tagged = { λ bytes v is. is };

    ghost has_tagged = { λ bytes v is. is };
}

impl HandshakeFields {
    /// The fields of the message that the bytes begin with. If they begin with none, the spans mean
    /// nothing.
    pub fn locate(bytes: &[u8]) -> HandshakeFields
        ensures { Located handshake_format AreHandshakeFields bytes.now result }
    {
        let ((msg_type, body), _) = <TagAndBody<Cases>>::locate(bytes, 0);
        HandshakeFields { msg_type, body }
    }
}
