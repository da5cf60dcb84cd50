//! The fields of `PrivateMessage`.
ghost use Rattle.mls.specs.PrivateMessage.{private_message_format};
ghost use Rattle.tls_codec_outcome.specs.Fields.{Located};
ghost use Rattle.mls_fields.specs.PrivateMessageFields.{ArePrivateMessageFields};

use mls::ContentType;
use tls_codec::TlsVarInt;
use tls_codec_outcome::{Content, Field, Locate, Span};

/// Where the fields of a `PrivateMessage` are (RFC 9420, section 6.3). A span of `opaque` has the bytes
/// without their length.
#[repr(C)]
#[derive(Clone, Copy, PartialEq, Eq, Debug)]
pub struct PrivateMessageFields {
    /// `opaque group_id<V>;`
    pub group_id: Span,
    /// `uint64 epoch;`
    pub epoch: Span,
    /// `ContentType content_type;`
    pub content_type: Span,
    /// `opaque authenticated_data<V>;`
    pub authenticated_data: Span,
    /// `opaque encrypted_sender_data<V>;`
    pub encrypted_sender_data: Span,
    /// `opaque ciphertext<V>;`
    pub ciphertext: Span,
}

type Parts = (
    (Content<TlsVarInt>, Field<u64>, Field<ContentType>),
    (Content<TlsVarInt>, Content<TlsVarInt>, Content<TlsVarInt>),
);

impl PrivateMessageFields {
    /// The fields of the message that the bytes begin with. If they begin with none, the spans mean
    /// nothing.
    pub fn locate(bytes: &[u8]) -> PrivateMessageFields
        ensures { Located private_message_format ArePrivateMessageFields bytes.now result }
    {
        let (
            (
                (group_id, epoch, content_type),
                (authenticated_data, encrypted_sender_data, ciphertext),
            ),
            _,
        ) = <Parts>::locate(bytes, 0);
        PrivateMessageFields {
            group_id,
            epoch,
            content_type,
            authenticated_data,
            encrypted_sender_data,
            ciphertext,
        }
    }
}
