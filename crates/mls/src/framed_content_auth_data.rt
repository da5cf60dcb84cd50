//! [`FramedContentAuthData`].
ghost use Rattle.std.specs.Prelude.{◌≡◌, ◌&&◌};
ghost use Rattle.mls.specs.FramedContentAuthData.{framed_content_auth_data_format_for, framed_content_auth_data_meets_for, framed_content_auth_data_plain};
ghost use Rattle.mls.specs.declared.framed_content_auth_data.FramedContentAuthData.{FramedContentAuthData};

use crate::ContentType;
use mls_group::MAC;
use std::alloc::Global;
use std::marker::PhantomData;
use tls_codec::{
    Always, ByRef, ByRefWhen, DeserializeBytesFor, DeserializeFor, Error, SerializeFor, Sink,
    SizeFor, Source, VLBytes, When,
};
use tls_codec_cases::Is;
use tls_codec_validate::{Rejected, ValidateFor};
use tls_codec_views::PartedFor;

/// `FramedContentAuthData` (RFC 9420, section 6.1).
#[derive(PartialEq, Eq, Debug, Clone, Drop)]
pub struct FramedContentAuthData {
    /// `opaque signature<V>;`
    /// SignWithLabel(., "FramedContentTBS", FramedContentTBS)
    pub signature: VLBytes,
    /// `case commit: MAC confirmation_tag;`
    /// MAC(confirmation_key, GroupContext.confirmed_transcript_hash)
    pub confirmation_tag: Option<MAC>,
}

type Parts = (Always<VLBytes>, When<Is<3>, MAC>);

impl SizeFor<ContentType> for FramedContentAuthData {
    ghost plain = { framed_content_auth_data_plain };

    ghost format_for = { framed_content_auth_data_format_for };

    fn tls_serialized_len_for(&self, content_type: &ContentType) -> usize {
        (
            ByRef(&self.signature),
            ByRefWhen {
                value: &self.confirmation_tag,
                condition: PhantomData::<Is<3>>,
            },
        )
            .tls_serialized_len_for(content_type)
    }

    ghost lawful = { framed_content_auth_data_meets_for };
}

/// `EncodingError("value does not fit its context")`: a field's case is for another tag.
impl SerializeFor<ContentType> for FramedContentAuthData {
    fn tls_serialize_for<W: Sink>(
        &self,
        content_type: &ContentType,
        writer: &mut W,
    ) -> Result<usize, Error> {
        (
            ByRef(&self.signature),
            ByRefWhen {
                value: &self.confirmation_tag,
                condition: PhantomData::<Is<3>>,
            },
        )
            .tls_serialize_for(content_type, writer)
    }

    fn tls_serialize_into_for(
        &self,
        content_type: &ContentType,
        out: &mut Vec<u8>,
    ) -> Result<usize, Error> {
        (
            ByRef(&self.signature),
            ByRefWhen {
                value: &self.confirmation_tag,
                condition: PhantomData::<Is<3>>,
            },
        )
            .tls_serialize_into_for(content_type, out)
    }
}

impl DeserializeFor<ContentType> for FramedContentAuthData {
    ghost names = { ⟦<Parts as DeserializeFor<ContentType>>⟧.names };

    fn tls_deserialize_for<R: Source>(
        content_type: &ContentType,
        alloc: Global,
        src: &mut R,
    ) -> Result<FramedContentAuthData, Error> {
        let parts = <Parts>::tls_deserialize_for(content_type, alloc, src)?;
        let (
            Always(signature),
            When {
                value: confirmation_tag,
                ..
            },
        ) = parts;
        Ok(FramedContentAuthData {
            signature,
            confirmation_tag,
        })
    }
}

impl DeserializeBytesFor<ContentType> for FramedContentAuthData {
    ghost names = { ⟦<Parts as DeserializeBytesFor<ContentType>>⟧.names };

    fn tls_deserialize_bytes_for<'a>(
        content_type: &ContentType,
        alloc: Global,
        whole: &'a [u8],
    ) -> Result<(FramedContentAuthData, &'a [u8]), Error> {
        let (parts, rest) = <Parts>::tls_deserialize_bytes_for(content_type, alloc, whole)?;
        let (
            Always(signature),
            When {
                value: confirmation_tag,
                ..
            },
        ) = parts;
        Ok((
            FramedContentAuthData {
                signature,
                confirmation_tag,
            },
            rest,
        ))
    }
}

impl ValidateFor<ContentType> for FramedContentAuthData {
    ghost places = { ⟦<Parts as ValidateFor<ContentType>>⟧.places };

    fn tls_validate_prefix_for<'a>(key: &u64, whole: &'a [u8]) -> Result<&'a [u8], Rejected<'a>> {
        <Parts as ValidateFor<ContentType>>::tls_validate_prefix_for(key, whole)
    }
}

impl PartedFor<ContentType> for FramedContentAuthData {
    type Parts = Parts;

    ghost as_parts = { λ c bytes is. is };
}

/// Two values are equal if and only if all their fields are equal.
pub fn is_compared_by_its_fields()
    ensures { (x y : FramedContentAuthData) →
        ⟦<FramedContentAuthData as PartialEq>⟧.eq x y
        ≡ (⟦<VLBytes as PartialEq>⟧.eq x.signature y.signature
        && ⟦<Option<MAC> as PartialEq>⟧.eq x.confirmation_tag y.confirmation_tag) }
{}
