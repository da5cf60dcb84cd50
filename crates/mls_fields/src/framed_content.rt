//! The fields of `FramedContent`.
ghost use Rattle.mls.specs.FramedContentBody.{framed_content_body_variants};
ghost use Rattle.mls.specs.FramedContent.{framed_content_format};
ghost use Rattle.tls_codec_outcome.specs.Fields.{Located};
ghost use Rattle.mls_fields.specs.FramedContentFields.{AreFramedContentFields};

use mls::{FramedContentBody, Sender};
use tls_codec::TlsVarInt;
use tls_codec_outcome::{Content, Field, Locate, Span, TagAndBody, TaggedEnum};

/// Where the fields of a `FramedContent` are (RFC 9420, section 6). A span of `opaque` has the bytes
/// without their length.
#[repr(C)]
#[derive(Clone, Copy, PartialEq, Eq, Debug)]
pub struct FramedContentFields {
    /// `opaque group_id<V>;`
    pub group_id: Span,
    /// `uint64 epoch;`
    pub epoch: Span,
    /// `Sender sender;`
    pub sender: Span,
    /// `opaque authenticated_data<V>;`
    pub authenticated_data: Span,
    /// `ContentType content_type;`
    pub content_type: Span,
    /// What its case has: `application_data` with its length, a `Proposal` or a `Commit`
    pub body: Span,
}

struct Contents {}

impl TaggedEnum for Contents {
    ghost TAG_LEN = { 1 };

    const TAG_LEN: usize = 1;

    type Enum = FramedContentBody;

    ghost variants = { framed_content_body_variants };

    ghost is_tagged = { λ bytes v is. is };

    ghost has_tagged = { λ bytes v is. is };
}

type Parts = (
    (Content<TlsVarInt>, Field<u64>, Field<Sender>),
    (Content<TlsVarInt>, TagAndBody<Contents>),
);

impl FramedContentFields {
    /// The fields of the message that the bytes begin with. If they begin with none, the spans mean
    /// nothing.
    pub fn locate(bytes: &[u8]) -> FramedContentFields
        ensures { Located framed_content_format AreFramedContentFields bytes.now result }
    {
        let (((group_id, epoch, sender), (authenticated_data, (content_type, body))), _) =
            <Parts>::locate(bytes, 0);
        FramedContentFields {
            group_id,
            epoch,
            sender,
            authenticated_data,
            content_type,
            body,
        }
    }
}
