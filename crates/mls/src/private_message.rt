//! [`PrivateMessage`].
ghost use Rattle.std.specs.Prelude.{◌≡◌, ◌&&◌, ◌++◌};
ghost use Rattle.mls.specs.PrivateMessage.{private_message_format, private_message_meets, private_message_plain};
ghost use Rattle.mls.specs.declared.private_message.PrivateMessage.{PrivateMessage};

use crate::ContentType;
use std::alloc::Global;
use tls_codec::{
    ByRef3, Deserialize, DeserializeBytes, Error, Serialize, Sink, Size, Source, VLBytes,
};
use tls_codec_cases::append_as;
use tls_codec_validate::{Rejected, Validate};
use tls_codec_views::{Encoded, Parted};

/// `PrivateMessage` (RFC 9420, section 6.3).
#[derive(PartialEq, Eq, Debug, Clone, Drop)]
pub struct PrivateMessage {
    /// `opaque group_id<V>;`
    pub group_id: VLBytes,
    /// `uint64 epoch;`
    pub epoch: u64,
    /// `ContentType content_type;`
    pub content_type: ContentType,
    /// `opaque authenticated_data<V>;`
    pub authenticated_data: VLBytes,
    /// `opaque encrypted_sender_data<V>;`
    pub encrypted_sender_data: VLBytes,
    /// `opaque ciphertext<V>;`
    pub ciphertext: VLBytes,
}

type Parts = ((VLBytes, u64, ContentType), (VLBytes, VLBytes, VLBytes));

impl Size for PrivateMessage {
    ghost plain = { private_message_plain };

    ghost format = { private_message_format };

    fn tls_serialized_len(&self) -> usize {
        (
            ByRef3(&self.group_id, &self.epoch, &self.content_type),
            ByRef3(
                &self.authenticated_data,
                &self.encrypted_sender_data,
                &self.ciphertext,
            ),
        )
            .tls_serialized_len()
    }

    ghost lawful = { private_message_meets };
}

impl Serialize for PrivateMessage {
    fn tls_serialize<W: Sink>(&self, writer: &mut W) -> Result<usize, Error> {
        (
            ByRef3(&self.group_id, &self.epoch, &self.content_type),
            ByRef3(
                &self.authenticated_data,
                &self.encrypted_sender_data,
                &self.ciphertext,
            ),
        )
            .tls_serialize(writer)
    }

    fn tls_serialize_into(&self, out: &mut Vec<u8>) -> Result<usize, Error> {
        append_as(
            self,
            &(
                ByRef3(&self.group_id, &self.epoch, &self.content_type),
                ByRef3(
                    &self.authenticated_data,
                    &self.encrypted_sender_data,
                    &self.ciphertext,
                ),
            ),
            out,
        )
    }
}

impl Deserialize for PrivateMessage {
    ghost names = { ⟦<Parts as Deserialize>⟧.names };

    fn tls_deserialize<R: Source>(alloc: Global, src: &mut R) -> Result<PrivateMessage, Error> {
        let (
            (group_id, epoch, content_type),
            (authenticated_data, encrypted_sender_data, ciphertext),
        ) = <Parts>::tls_deserialize(alloc, src)?;
        Ok(PrivateMessage {
            group_id,
            epoch,
            content_type,
            authenticated_data,
            encrypted_sender_data,
            ciphertext,
        })
    }
}

impl DeserializeBytes for PrivateMessage {
    ghost names = { ⟦<Parts as DeserializeBytes>⟧.names };

    fn tls_deserialize_bytes(
        alloc: Global,
        whole: &[u8],
    ) -> Result<(PrivateMessage, &[u8]), Error> {
        let (
            (
                (group_id, epoch, content_type),
                (authenticated_data, encrypted_sender_data, ciphertext),
            ),
            rest,
        ) = <Parts>::tls_deserialize_bytes(alloc, whole)?;
        Ok((
            PrivateMessage {
                group_id,
                epoch,
                content_type,
                authenticated_data,
                encrypted_sender_data,
                ciphertext,
            },
            rest,
        ))
    }
}

impl Validate for PrivateMessage {
    ghost places = { ⟦<Parts as Validate>⟧.places };

    fn tls_validate_prefix(whole: &[u8]) -> Result<&[u8], Rejected<'_>> {
        <Parts>::tls_validate_prefix(whole)
    }

    fn tls_width() -> Option<usize> {
        <Parts>::tls_width()
    }
}

impl Parted for PrivateMessage {
    type Parts = Parts;

    ghost as_parts = { λ bytes is. is };
}

/// The encoding of a [`PrivateMessage`], split into its fields.
#[derive(Drop)]
pub struct PrivateMessageView<'a> {
    /// `opaque group_id<V>;`
    pub group_id: Encoded<'a, VLBytes>,
    /// `uint64 epoch;`
    pub epoch: Encoded<'a, u64>,
    /// `ContentType content_type;`
    pub content_type: Encoded<'a, ContentType>,
    /// `opaque authenticated_data<V>;`
    pub authenticated_data: Encoded<'a, VLBytes>,
    /// `opaque encrypted_sender_data<V>;`
    pub encrypted_sender_data: Encoded<'a, VLBytes>,
    /// `opaque ciphertext<V>;`
    pub ciphertext: Encoded<'a, VLBytes>,
}

impl<'a> From<Encoded<'a, PrivateMessage>> for PrivateMessageView<'a> {
    ghost from_gives = { λ whole view. whole ≡ ((view.group_id ++ (view.epoch ++ view.content_type))
        ++ (view.authenticated_data ++ (view.encrypted_sender_data ++ view.ciphertext))) };

    fn from(whole: Encoded<'a, PrivateMessage>) -> PrivateMessageView<'a> {
        let (parts_0, parts_1) = whole.parts().split();
        let (group_id, epoch, content_type) = parts_0.split();
        let (authenticated_data, encrypted_sender_data, ciphertext) = parts_1.split();
        PrivateMessageView {
            group_id,
            epoch,
            content_type,
            authenticated_data,
            encrypted_sender_data,
            ciphertext,
        }
    }
}

/// Two values are equal if and only if all their fields are equal.
pub fn is_compared_by_its_fields()
    ensures { (x y : PrivateMessage) →
        ⟦<PrivateMessage as PartialEq>⟧.eq x y
        ≡ (⟦<VLBytes as PartialEq>⟧.eq x.group_id y.group_id
        && (⟦<u64 as PartialEq>⟧.eq x.epoch y.epoch
        && (⟦<ContentType as PartialEq>⟧.eq x.content_type y.content_type
        && (⟦<VLBytes as PartialEq>⟧.eq x.authenticated_data y.authenticated_data
        && (⟦<VLBytes as PartialEq>⟧.eq x.encrypted_sender_data y.encrypted_sender_data
        && ⟦<VLBytes as PartialEq>⟧.eq x.ciphertext y.ciphertext))))) }
{}
