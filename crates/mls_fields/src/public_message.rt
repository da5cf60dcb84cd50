//! The fields of `PublicMessage`.
ghost use Rattle.mls.specs.PublicMessage.{public_message_format};
ghost use Rattle.tls_codec_outcome.specs.Fields.{Located};
ghost use Rattle.mls_fields.specs.PublicMessageFields.{ArePublicMessageFields};

use mls::{ContentType, FramedContent, FramedContentAuthData, SenderType};
use mls_group::MAC;
use tls_codec::When;
use tls_codec_cases::{By, Is};
use tls_codec_outcome::{DependentFields, Locate, Span};

/// Where the fields of a `PublicMessage` are (RFC 9420, section 6.2).
#[repr(C)]
#[derive(Clone, Copy, PartialEq, Eq, Debug)]
pub struct PublicMessageFields {
    /// `FramedContent content;`
    pub content: Span,
    /// `FramedContentAuthData auth;`
    pub auth: Span,
    /// `MAC membership_tag;` with its length; no bytes if the sender is no member
    pub membership_tag: Span,
}

type Parts = DependentFields<
    FramedContent,
    By<ContentType, FramedContentAuthData>,
    By<SenderType, When<Is<1>, MAC>>,
>;

impl PublicMessageFields {
    /// The fields of the message that the bytes begin with. If they begin with none, the spans mean
    /// nothing.
    pub fn locate(bytes: &[u8]) -> PublicMessageFields
        ensures { Located public_message_format ArePublicMessageFields bytes.now result }
    {
        let ((content, auth, membership_tag), _) = <Parts>::locate(bytes, 0);
        PublicMessageFields {
            content,
            auth,
            membership_tag,
        }
    }
}
