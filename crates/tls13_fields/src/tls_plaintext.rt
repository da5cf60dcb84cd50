//! The fields of `TLSPlaintext`.
ghost use Rattle.tls13.specs.TLSPlaintext.{tls_plaintext_format};
ghost use Rattle.tls_codec_outcome.specs.Fields.{Located};
ghost use Rattle.tls13_fields.specs.TLSPlaintextFields.{AreTLSPlaintextFields};

use tls_codec_outcome::{Content, Field, Locate, Span};
use tls13::{ContentType, ProtocolVersion};

/// Where the fields of a `TLSPlaintext` are (RFC 8446, section 5.1). A span of `opaque` has the bytes
/// without their length.
#[repr(C)]
#[derive(Clone, Copy, PartialEq, Eq, Debug)]
pub struct TLSPlaintextFields {
    /// `ContentType type;`
    pub kind: Span,
    /// `ProtocolVersion legacy_record_version;`
    pub legacy_record_version: Span,
    /// `opaque fragment[TLSPlaintext.length];`
    pub fragment: Span,
}

type Parts = (Field<ContentType>, Field<ProtocolVersion>, Content<u16>);

impl TLSPlaintextFields {
    /// The fields of the message that the bytes begin with. If they begin with none, the spans mean
    /// nothing.
    pub fn locate(bytes: &[u8]) -> TLSPlaintextFields
        ensures { Located tls_plaintext_format AreTLSPlaintextFields bytes.now result }
    {
        let ((kind, legacy_record_version, fragment), _) = <Parts>::locate(bytes, 0);
        TLSPlaintextFields {
            kind,
            legacy_record_version,
            fragment,
        }
    }
}
