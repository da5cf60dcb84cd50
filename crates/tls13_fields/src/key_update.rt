//! The fields of `KeyUpdate`.
ghost use Rattle.tls13.specs.KeyUpdate.{key_update_format};
ghost use Rattle.tls_codec_outcome.specs.Fields.{Located};
ghost use Rattle.tls13_fields.specs.KeyUpdateFields.{AreKeyUpdateFields};

use tls_codec_outcome::{Field, Locate, Span};
use tls13::KeyUpdateRequest;

/// Where the fields of a `KeyUpdate` are (RFC 8446, section 4.6.3).
#[repr(C)]
#[derive(Clone, Copy, PartialEq, Eq, Debug)]
pub struct KeyUpdateFields {
    /// `KeyUpdateRequest request_update;`
    pub request_update: Span,
}

type Parts = Field<KeyUpdateRequest>;

impl KeyUpdateFields {
    /// The fields of the message that the bytes begin with. If they begin with none, the spans mean
    /// nothing.
    pub fn locate(bytes: &[u8]) -> KeyUpdateFields
        ensures { Located key_update_format AreKeyUpdateFields bytes.now result }
    {
        let (request_update, _) = <Parts>::locate(bytes, 0);
        KeyUpdateFields { request_update }
    }
}
