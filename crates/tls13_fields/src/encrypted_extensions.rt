//! The fields of `EncryptedExtensions`.
ghost use Rattle.tls13.specs.EncryptedExtensions.{encrypted_extensions_format};
ghost use Rattle.tls_codec_outcome.specs.Fields.{Located};
ghost use Rattle.tls13_fields.specs.EncryptedExtensionsFields.{AreEncryptedExtensionsFields};

use tls_codec::TlsVecU16;
use tls_codec_outcome::{Field, Locate, Span};
use tls13::Extension;

/// Where the fields of an `EncryptedExtensions` are (RFC 8446, section 4.3.1).
#[repr(C)]
#[derive(Clone, Copy, PartialEq, Eq, Debug)]
pub struct EncryptedExtensionsFields {
    /// `Extension extensions<0..2^16-1>;` with its length
    pub extensions: Span,
}

type Parts = Field<TlsVecU16<Extension>>;

impl EncryptedExtensionsFields {
    /// The fields of the message that the bytes begin with. If they begin with none, the spans mean
    /// nothing.
    pub fn locate(bytes: &[u8]) -> EncryptedExtensionsFields
        ensures { Located encrypted_extensions_format AreEncryptedExtensionsFields
            bytes.now result }
    {
        let (extensions, _) = <Parts>::locate(bytes, 0);
        EncryptedExtensionsFields { extensions }
    }
}
