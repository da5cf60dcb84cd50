//! [`PublicMessage`].
ghost use Rattle.std.specs.Prelude.{◌≡◌, ◌&&◌};
ghost use Rattle.mls.specs.PublicMessage.{public_message_format, public_message_meets, public_message_plain};
ghost use Rattle.mls.specs.declared.public_message.PublicMessage.{PublicMessage};

use crate::{ContentType, FramedContent, FramedContentAuthData, SenderType};
use mls_group::MAC;
use std::alloc::Global;
use std::marker::PhantomData;
use tls_codec::{
    ByRefIn, ByRefThen, ByRefWhen, Deserialize, DeserializeBytes, Error, Serialize, Sink, Size,
    Source, Then, When,
};
use tls_codec_cases::{By, Is, append_as, write_as};
use tls_codec_validate::{Rejected, Validate};
use tls_codec_views::Parted;

/// `PublicMessage` (RFC 9420, section 6.2).
#[derive(PartialEq, Eq, Debug, Clone, Drop)]
pub struct PublicMessage {
    /// `FramedContent content;`
    pub content: FramedContent,
    /// `FramedContentAuthData auth;`
    pub auth: FramedContentAuthData,
    /// `case member: MAC membership_tag;`
    pub membership_tag: Option<MAC>,
}

type Parts = Then<
    FramedContent,
    (
        By<ContentType, FramedContentAuthData>,
        By<SenderType, When<Is<1>, MAC>>,
    ),
>;

type ByRefParts<'a> = ByRefThen<
    'a,
    FramedContent,
    (
        By<ContentType, ByRefIn<'a, FramedContentAuthData>>,
        By<SenderType, ByRefWhen<'a, Is<1>, MAC>>,
    ),
>;

impl PublicMessage {
    fn parts(&self) -> ByRefParts<'_>
        ensures { ⟦<ByRefParts<'static> as Size>⟧.plain result ≡ public_message_plain self.now }
    {
        let first = &self.content;
        let rest = (
            By(ByRefIn(&self.auth), PhantomData),
            By(
                ByRefWhen {
                    value: &self.membership_tag,
                    condition: PhantomData::<Is<1>>,
                },
                PhantomData,
            ),
        );
        ByRefThen { first, rest }
    }
}

impl Size for PublicMessage {
    ghost plain = { public_message_plain };

    ghost format = { public_message_format };

    fn tls_serialized_len(&self) -> usize {
        self.parts().tls_serialized_len()
    }

    ghost lawful = { public_message_meets };
}

/// `EncodingError("value does not fit its context")`: a field's case is for another tag.
impl Serialize for PublicMessage {
    fn tls_serialize<W: Sink>(&self, writer: &mut W) -> Result<usize, Error> {
        write_as(self, &self.parts(), writer)
    }

    fn tls_serialize_into(&self, out: &mut Vec<u8>) -> Result<usize, Error> {
        append_as(self, &self.parts(), out)
    }
}

impl Deserialize for PublicMessage {
    ghost names = { ⟦<Parts as Deserialize>⟧.names };

    fn tls_deserialize<R: Source>(alloc: Global, src: &mut R) -> Result<PublicMessage, Error> {
        let parts = <Parts>::tls_deserialize(alloc, src)?;
        let Then {
            first: content,
            rest,
        } = parts;
        let (
            By(auth, _),
            By(
                When {
                    value: membership_tag,
                    ..
                },
                _,
            ),
        ) = rest;
        Ok(PublicMessage {
            content,
            auth,
            membership_tag,
        })
    }
}

impl DeserializeBytes for PublicMessage {
    ghost names = { ⟦<Parts as DeserializeBytes>⟧.names };

    fn tls_deserialize_bytes(alloc: Global, whole: &[u8]) -> Result<(PublicMessage, &[u8]), Error> {
        let (parts, left) = <Parts>::tls_deserialize_bytes(alloc, whole)?;
        let Then {
            first: content,
            rest,
        } = parts;
        let (
            By(auth, _),
            By(
                When {
                    value: membership_tag,
                    ..
                },
                _,
            ),
        ) = rest;
        Ok((
            PublicMessage {
                content,
                auth,
                membership_tag,
            },
            left,
        ))
    }
}

impl Validate for PublicMessage {
    ghost places = { ⟦<Parts as Validate>⟧.places };

    fn tls_validate_prefix(whole: &[u8]) -> Result<&[u8], Rejected<'_>> {
        <Parts>::tls_validate_prefix(whole)
    }
}

impl Parted for PublicMessage {
    type Parts = Parts;

    ghost as_parts = { λ bytes is. is };
}

/// Two values are equal if and only if all their fields are equal.
pub fn is_compared_by_its_fields()
    ensures { (x y : PublicMessage) →
        ⟦<PublicMessage as PartialEq>⟧.eq x y
        ≡ (⟦<FramedContent as PartialEq>⟧.eq x.content y.content
        && (⟦<FramedContentAuthData as PartialEq>⟧.eq x.auth y.auth
        && ⟦<Option<MAC> as PartialEq>⟧.eq x.membership_tag y.membership_tag)) }
{}
