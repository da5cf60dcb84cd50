//! The fields of `GroupInfo`.
ghost use Rattle.mls_group.specs.GroupInfo.{group_info_format};
ghost use Rattle.tls_codec_outcome.specs.Fields.{Located};
ghost use Rattle.mls_fields.specs.GroupInfoFields.{AreGroupInfoFields};

use mls_group::GroupContext;
use mls_tree::Extension;
use tls_codec::TlsVarInt;
use tls_codec_outcome::{Content, Field, Locate, Span};

/// Where the fields of a `GroupInfo` are (RFC 9420, section 12.4.3). A span of `opaque` has the bytes
/// without their length.
#[repr(C)]
#[derive(Clone, Copy, PartialEq, Eq, Debug)]
pub struct GroupInfoFields {
    /// `GroupContext group_context;`
    pub group_context: Span,
    /// `Extension extensions<V>;` with its length
    pub extensions: Span,
    /// `MAC confirmation_tag;`
    pub confirmation_tag: Span,
    /// `uint32 signer;`
    pub signer: Span,
    /// `opaque signature<V>;`
    pub signature: Span,
}

type Parts = (
    (
        Field<GroupContext>,
        Field<Vec<Extension>>,
        Content<TlsVarInt>,
    ),
    (Field<u32>, Content<TlsVarInt>),
);

impl GroupInfoFields {
    /// The fields of the message that the bytes begin with. If they begin with none, the spans mean
    /// nothing.
    pub fn locate(bytes: &[u8]) -> GroupInfoFields
        ensures { Located group_info_format AreGroupInfoFields bytes.now result }
    {
        let (((group_context, extensions, confirmation_tag), (signer, signature)), _) =
            <Parts>::locate(bytes, 0);
        GroupInfoFields {
            group_context,
            extensions,
            confirmation_tag,
            signer,
            signature,
        }
    }
}
