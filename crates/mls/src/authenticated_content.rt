//! [`AuthenticatedContent`].
ghost use Rattle.std.specs.Prelude.{◌≡◌, ◌&&◌};
ghost use Rattle.mls.specs.AuthenticatedContent.{authenticated_content_format, authenticated_content_meets, authenticated_content_plain};
ghost use Rattle.mls.specs.declared.authenticated_content.AuthenticatedContent.{AuthenticatedContent};

use crate::{ContentType, FramedContent, FramedContentAuthData, WireFormat};
use std::alloc::Global;
use std::marker::PhantomData;
use tls_codec::{
    ByRef, ByRefIn, ByRefThen, Deserialize, DeserializeBytes, Error, Serialize, Sink, Size, Source,
    Then,
};
use tls_codec_cases::{By, append_as, write_as};
use tls_codec_validate::{Rejected, Validate};
use tls_codec_views::Parted;

/// `AuthenticatedContent` (RFC 9420, section 6.1).
#[derive(PartialEq, Eq, Debug, Clone, Drop)]
pub struct AuthenticatedContent {
    /// `WireFormat wire_format;`
    pub wire_format: WireFormat,
    /// `FramedContent content;`
    pub content: FramedContent,
    /// `FramedContentAuthData auth;`
    pub auth: FramedContentAuthData,
}

type Parts = (
    WireFormat,
    Then<FramedContent, By<ContentType, FramedContentAuthData>>,
);

type ByRefParts<'a> = (
    ByRef<'a, WireFormat>,
    ByRefThen<'a, FramedContent, By<ContentType, ByRefIn<'a, FramedContentAuthData>>>,
);

impl AuthenticatedContent {
    fn parts(&self) -> ByRefParts<'_>
        ensures { ⟦<ByRefParts<'static> as Size>⟧.plain result
            ≡ authenticated_content_plain self.now }
    {
        let first = &self.content;
        let rest = By(ByRefIn(&self.auth), PhantomData);
        (ByRef(&self.wire_format), ByRefThen { first, rest })
    }
}

impl Size for AuthenticatedContent {
    ghost plain = { authenticated_content_plain };

    ghost format = { authenticated_content_format };

    fn tls_serialized_len(&self) -> usize {
        self.parts().tls_serialized_len()
    }

    ghost lawful = { authenticated_content_meets };
}

/// `EncodingError("value does not fit its context")`: a field's case is for another tag.
impl Serialize for AuthenticatedContent {
    fn tls_serialize<W: Sink>(&self, writer: &mut W) -> Result<usize, Error> {
        write_as(self, &self.parts(), writer)
    }

    fn tls_serialize_into(&self, out: &mut Vec<u8>) -> Result<usize, Error> {
        append_as(self, &self.parts(), out)
    }
}

impl Deserialize for AuthenticatedContent {
    ghost names = { ⟦<Parts as Deserialize>⟧.names };

    fn tls_deserialize<R: Source>(
        alloc: Global,
        src: &mut R,
    ) -> Result<AuthenticatedContent, Error> {
        let parts = <Parts>::tls_deserialize(alloc, src)?;
        let (parts, rest) = parts;
        let wire_format = parts;
        let Then {
            first: content,
            rest,
        } = rest;
        let By(auth, _) = rest;
        Ok(AuthenticatedContent {
            wire_format,
            content,
            auth,
        })
    }
}

impl DeserializeBytes for AuthenticatedContent {
    ghost names = { ⟦<Parts as DeserializeBytes>⟧.names };

    fn tls_deserialize_bytes(
        alloc: Global,
        whole: &[u8],
    ) -> Result<(AuthenticatedContent, &[u8]), Error> {
        let (parts, left) = <Parts>::tls_deserialize_bytes(alloc, whole)?;
        let (parts, rest) = parts;
        let wire_format = parts;
        let Then {
            first: content,
            rest,
        } = rest;
        let By(auth, _) = rest;
        Ok((
            AuthenticatedContent {
                wire_format,
                content,
                auth,
            },
            left,
        ))
    }
}

impl Validate for AuthenticatedContent {
    ghost places = { ⟦<Parts as Validate>⟧.places };

    fn tls_validate_prefix(whole: &[u8]) -> Result<&[u8], Rejected<'_>> {
        <Parts>::tls_validate_prefix(whole)
    }
}

impl Parted for AuthenticatedContent {
    type Parts = Parts;

    ghost as_parts = { λ bytes is. is };
}

/// Two values are equal if and only if all their fields are equal.
pub fn is_compared_by_its_fields()
    ensures { (x y : AuthenticatedContent) →
        ⟦<AuthenticatedContent as PartialEq>⟧.eq x y
        ≡ (⟦<WireFormat as PartialEq>⟧.eq x.wire_format y.wire_format
        && (⟦<FramedContent as PartialEq>⟧.eq x.content y.content
        && ⟦<FramedContentAuthData as PartialEq>⟧.eq x.auth y.auth)) }
{}
