//! [`PrivateMessageContent`].
ghost use Rattle.std.specs.Prelude.{◌≡◌, ◌&&◌};
ghost use Rattle.mls.specs.PrivateMessageContent.{private_message_content_format_for, private_message_content_meets_for, private_message_content_plain};
ghost use Rattle.mls.specs.declared.private_message_content.PrivateMessageContent.{PrivateMessageContent};

use crate::{ContentType, FramedContentAuthData, PrivateContent};
use std::alloc::Global;
use tls_codec::{
    ByRefIn, DeserializeBytesFor, DeserializeFor, Error, SerializeFor, Sink, SizeFor, Source,
};
use tls_codec_validate::{Rejected, ValidateFor};

/// `PrivateMessageContent` (RFC 9420, section 6.3.1).
///
/// Zeros follow it to the end, `opaque padding[length_of_padding];`: it is read and written
/// as `Padded<PrivateMessageContent>`.
#[derive(PartialEq, Eq, Debug, Clone, Drop)]
pub struct PrivateMessageContent {
    /// `select (content_type);`
    pub content: PrivateContent,
    /// `FramedContentAuthData auth;`
    pub auth: FramedContentAuthData,
}

type Parts = (PrivateContent, FramedContentAuthData);

impl SizeFor<ContentType> for PrivateMessageContent {
    ghost plain = { private_message_content_plain };

    ghost format_for = { private_message_content_format_for };

    fn tls_serialized_len_for(&self, content_type: &ContentType) -> usize {
        (ByRefIn(&self.content), ByRefIn(&self.auth)).tls_serialized_len_for(content_type)
    }

    ghost lawful = { private_message_content_meets_for };
}

/// `EncodingError("value does not fit its context")`: a field's case is for another tag.
impl SerializeFor<ContentType> for PrivateMessageContent {
    fn tls_serialize_for<W: Sink>(
        &self,
        content_type: &ContentType,
        writer: &mut W,
    ) -> Result<usize, Error> {
        (ByRefIn(&self.content), ByRefIn(&self.auth)).tls_serialize_for(content_type, writer)
    }

    fn tls_serialize_into_for(
        &self,
        content_type: &ContentType,
        out: &mut Vec<u8>,
    ) -> Result<usize, Error> {
        (ByRefIn(&self.content), ByRefIn(&self.auth)).tls_serialize_into_for(content_type, out)
    }
}

impl DeserializeFor<ContentType> for PrivateMessageContent {
    ghost names = { ⟦<Parts as DeserializeFor<ContentType>>⟧.names };

    fn tls_deserialize_for<R: Source>(
        content_type: &ContentType,
        alloc: Global,
        src: &mut R,
    ) -> Result<PrivateMessageContent, Error> {
        let parts = <Parts>::tls_deserialize_for(content_type, alloc, src)?;
        let (content, auth) = parts;
        Ok(PrivateMessageContent { content, auth })
    }
}

impl DeserializeBytesFor<ContentType> for PrivateMessageContent {
    ghost names = { ⟦<Parts as DeserializeBytesFor<ContentType>>⟧.names };

    fn tls_deserialize_bytes_for<'a>(
        content_type: &ContentType,
        alloc: Global,
        whole: &'a [u8],
    ) -> Result<(PrivateMessageContent, &'a [u8]), Error> {
        let (parts, rest) = <Parts>::tls_deserialize_bytes_for(content_type, alloc, whole)?;
        let (content, auth) = parts;
        Ok((PrivateMessageContent { content, auth }, rest))
    }
}

impl ValidateFor<ContentType> for PrivateMessageContent {
    ghost places = { ⟦<Parts as ValidateFor<ContentType>>⟧.places };

    fn tls_validate_prefix_for<'a>(key: &u64, whole: &'a [u8]) -> Result<&'a [u8], Rejected<'a>> {
        <Parts as ValidateFor<ContentType>>::tls_validate_prefix_for(key, whole)
    }
}

/// Two values are equal if and only if all their fields are equal.
pub fn is_compared_by_its_fields()
    ensures { (x y : PrivateMessageContent) →
        ⟦<PrivateMessageContent as PartialEq>⟧.eq x y
        ≡ (⟦<PrivateContent as PartialEq>⟧.eq x.content y.content
        && ⟦<FramedContentAuthData as PartialEq>⟧.eq x.auth y.auth) }
{}
