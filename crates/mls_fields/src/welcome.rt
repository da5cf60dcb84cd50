//! The fields of `Welcome`.
ghost use Rattle.mls_group.specs.Welcome.{welcome_format};
ghost use Rattle.tls_codec_outcome.specs.Fields.{Located};
ghost use Rattle.mls_fields.specs.WelcomeFields.{AreWelcomeFields};

use mls_group::EncryptedGroupSecrets;
use mls_tree::CipherSuite;
use tls_codec::TlsVarInt;
use tls_codec_outcome::{Content, Field, Locate, Span};

/// Where the fields of a `Welcome` are (RFC 9420, section 12.4.3.1). A span of `opaque` has the bytes
/// without their length.
#[repr(C)]
#[derive(Clone, Copy, PartialEq, Eq, Debug)]
pub struct WelcomeFields {
    /// `CipherSuite cipher_suite;`
    pub cipher_suite: Span,
    /// `EncryptedGroupSecrets secrets<V>;` with its length
    pub secrets: Span,
    /// `opaque encrypted_group_info<V>;`
    pub encrypted_group_info: Span,
}

type Parts = (
    Field<CipherSuite>,
    Field<Vec<EncryptedGroupSecrets>>,
    Content<TlsVarInt>,
);

impl WelcomeFields {
    /// The fields of the message that the bytes begin with. If they begin with none, the spans mean
    /// nothing.
    pub fn locate(bytes: &[u8]) -> WelcomeFields
        ensures { Located welcome_format AreWelcomeFields bytes.now result }
    {
        let ((cipher_suite, secrets, encrypted_group_info), _) = <Parts>::locate(bytes, 0);
        WelcomeFields {
            cipher_suite,
            secrets,
            encrypted_group_info,
        }
    }
}
