//! The fields of `TLSCiphertext`.
ghost use Rattle.tls13.specs.TLSCiphertext.{tls_ciphertext_format};
ghost use Rattle.tls_codec_outcome.specs.Fields.{Located};
ghost use Rattle.tls13_fields.specs.TLSCiphertextFields.{AreTLSCiphertextFields};

use tls_codec_outcome::{Content, Field, Locate, Span};
use tls13::{ContentTypeApplicationData, ProtocolVersionX0303};

/// Where the fields of a `TLSCiphertext` are (RFC 8446, section 5.2). A span of `opaque` has the bytes
/// without their length.
#[repr(C)]
#[derive(Clone, Copy, PartialEq, Eq, Debug)]
pub struct TLSCiphertextFields {
    /// `ContentType opaque_type = application_data;`
    pub opaque_type: Span,
    /// `ProtocolVersion legacy_record_version = 0x0303;`
    pub legacy_record_version: Span,
    /// `opaque encrypted_record[TLSCiphertext.length];`
    pub encrypted_record: Span,
}

type Parts = (
    Field<ContentTypeApplicationData>,
    Field<ProtocolVersionX0303>,
    Content<u16>,
);

impl TLSCiphertextFields {
    /// The fields of the message that the bytes begin with. If they begin with none, the spans mean
    /// nothing.
    pub fn locate(bytes: &[u8]) -> TLSCiphertextFields
        ensures { Located tls_ciphertext_format AreTLSCiphertextFields bytes.now result }
    {
        let ((opaque_type, legacy_record_version, encrypted_record), _) = <Parts>::locate(bytes, 0);
        TLSCiphertextFields {
            opaque_type,
            legacy_record_version,
            encrypted_record,
        }
    }
}
