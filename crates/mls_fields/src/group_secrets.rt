//! The fields of `GroupSecrets`.
ghost use Rattle.mls_group.specs.GroupSecrets.{group_secrets_format};
ghost use Rattle.tls_codec_outcome.specs.Fields.{Located};
ghost use Rattle.mls_fields.specs.GroupSecretsFields.{AreGroupSecretsFields};

use mls_group::{PathSecret, PreSharedKeyID};
use tls_codec::TlsVarInt;
use tls_codec_outcome::{Content, Field, Locate, Span};

/// Where the fields of a `GroupSecrets` are (RFC 9420, section 12.4.3.1). A span of `opaque` has the bytes
/// without their length.
#[repr(C)]
#[derive(Clone, Copy, PartialEq, Eq, Debug)]
pub struct GroupSecretsFields {
    /// `opaque joiner_secret<V>;`
    pub joiner_secret: Span,
    /// `optional<PathSecret> path_secret;`
    pub path_secret: Span,
    /// `PreSharedKeyID psks<V>;` with its length
    pub psks: Span,
}

type Parts = (
    Content<TlsVarInt>,
    Field<Option<PathSecret>>,
    Field<Vec<PreSharedKeyID>>,
);

impl GroupSecretsFields {
    /// The fields of the message that the bytes begin with. If they begin with none, the spans mean
    /// nothing.
    pub fn locate(bytes: &[u8]) -> GroupSecretsFields
        ensures { Located group_secrets_format AreGroupSecretsFields bytes.now result }
    {
        let ((joiner_secret, path_secret, psks), _) = <Parts>::locate(bytes, 0);
        GroupSecretsFields {
            joiner_secret,
            path_secret,
            psks,
        }
    }
}
