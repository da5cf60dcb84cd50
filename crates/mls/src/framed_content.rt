//! [`FramedContent`].
ghost use Rattle.std.specs.Prelude.{◌≡◌, ◌&&◌, ◌++◌};
ghost use Rattle.mls.specs.FramedContent.{framed_content_format, framed_content_meets, framed_content_plain};
ghost use Rattle.mls.specs.declared.framed_content.FramedContent.{FramedContent};
ghost use Rattle.mls.specs.FramedContent.{framed_content_sender_type};
ghost use Rattle.mls.specs.FramedContent.{framed_content_content_type};

use crate::{ContentType, FramedContentBody, Sender, SenderType};
use std::alloc::Global;
use tls_codec::{
    ByRef2, ByRef3, Deserialize, DeserializeBytes, Error, Serialize, Sink, Size, Source, VLBytes,
};
use tls_codec_cases::{Holds, Selector, append_as};
use tls_codec_validate::{HoldsKey, Keyed, Keyless, Rejected, Validate, ValidateKeyed};
use tls_codec_views::{Encoded, Parted};

/// `FramedContent` (RFC 9420, section 6).
#[derive(PartialEq, Eq, Debug, Clone, Drop)]
pub struct FramedContent {
    /// `opaque group_id<V>;`
    pub group_id: VLBytes,
    /// `uint64 epoch;`
    pub epoch: u64,
    /// `Sender sender;`
    pub sender: Sender,
    /// `opaque authenticated_data<V>;`
    pub authenticated_data: VLBytes,
    /// `ContentType content_type; select (content_type);`
    pub body: FramedContentBody,
}

type Parts = ((VLBytes, u64, Sender), (VLBytes, FramedContentBody));

impl Size for FramedContent {
    ghost plain = { framed_content_plain };

    ghost format = { framed_content_format };

    fn tls_serialized_len(&self) -> usize {
        (
            ByRef3(&self.group_id, &self.epoch, &self.sender),
            ByRef2(&self.authenticated_data, &self.body),
        )
            .tls_serialized_len()
    }

    ghost lawful = { framed_content_meets };
}

impl Serialize for FramedContent {
    fn tls_serialize<W: Sink>(&self, writer: &mut W) -> Result<usize, Error> {
        (
            ByRef3(&self.group_id, &self.epoch, &self.sender),
            ByRef2(&self.authenticated_data, &self.body),
        )
            .tls_serialize(writer)
    }

    fn tls_serialize_into(&self, out: &mut Vec<u8>) -> Result<usize, Error> {
        append_as(
            self,
            &(
                ByRef3(&self.group_id, &self.epoch, &self.sender),
                ByRef2(&self.authenticated_data, &self.body),
            ),
            out,
        )
    }
}

impl Deserialize for FramedContent {
    ghost names = { ⟦<Parts as Deserialize>⟧.names };

    fn tls_deserialize<R: Source>(alloc: Global, src: &mut R) -> Result<FramedContent, Error> {
        let ((group_id, epoch, sender), (authenticated_data, body)) = <Parts>::tls_deserialize(
            alloc, src,
        )?;
        Ok(FramedContent {
            group_id,
            epoch,
            sender,
            authenticated_data,
            body,
        })
    }
}

impl DeserializeBytes for FramedContent {
    ghost names = { ⟦<Parts as DeserializeBytes>⟧.names };

    fn tls_deserialize_bytes(alloc: Global, whole: &[u8]) -> Result<(FramedContent, &[u8]), Error> {
        let (((group_id, epoch, sender), (authenticated_data, body)), rest) =
            <Parts>::tls_deserialize_bytes(alloc, whole)?;
        Ok((
            FramedContent {
                group_id,
                epoch,
                sender,
                authenticated_data,
                body,
            },
            rest,
        ))
    }
}

impl Validate for FramedContent {
    ghost places = { ⟦<Parts as Validate>⟧.places };

    fn tls_validate_prefix(whole: &[u8]) -> Result<&[u8], Rejected<'_>> {
        <Parts>::tls_validate_prefix(whole)
    }

    fn tls_width() -> Option<usize> {
        <Parts>::tls_width()
    }
}

impl Parted for FramedContent {
    type Parts = Parts;

    ghost as_parts = { λ bytes is. is };
}

/// The encoding of a [`FramedContent`], split into its fields.
#[derive(Drop)]
pub struct FramedContentView<'a> {
    /// `opaque group_id<V>;`
    pub group_id: Encoded<'a, VLBytes>,
    /// `uint64 epoch;`
    pub epoch: Encoded<'a, u64>,
    /// `Sender sender;`
    pub sender: Encoded<'a, Sender>,
    /// `opaque authenticated_data<V>;`
    pub authenticated_data: Encoded<'a, VLBytes>,
    /// `ContentType content_type; select (content_type);`
    pub body: Encoded<'a, FramedContentBody>,
}

impl<'a> From<Encoded<'a, FramedContent>> for FramedContentView<'a> {
    ghost from_gives = { λ whole view. whole ≡ ((view.group_id ++ (view.epoch ++ view.sender)) ++
        (view.authenticated_data ++ view.body)) };

    fn from(whole: Encoded<'a, FramedContent>) -> FramedContentView<'a> {
        let (parts_0, parts_1) = whole.parts().split();
        let (group_id, epoch, sender) = parts_0.split();
        let (authenticated_data, body) = parts_1.split();
        FramedContentView {
            group_id,
            epoch,
            sender,
            authenticated_data,
            body,
        }
    }
}

impl Holds<SenderType> for FramedContent {
    ghost held = { framed_content_sender_type };

    fn held(&self) -> SenderType {
        self.sender.held()
    }
}

impl Holds<ContentType> for FramedContent {
    ghost held = { framed_content_content_type };

    fn held(&self) -> ContentType {
        self.body.held()
    }
}

impl Keyed for FramedContent {
    type Key = (u64, u64);

    ghost is_key = { λ key c. (key.0 ≡ ⟦<SenderType as Selector>⟧.selected
        (framed_content_sender_type c)) × (key.1 ≡ ⟦<ContentType as Selector>⟧.selected
        (framed_content_content_type c)) };

    fn key(&self) -> (u64, u64) {
        (
            <FramedContent as Holds<SenderType>>::held(self).selects(),
            <FramedContent as Holds<ContentType>>::held(self).selects(),
        )
    }
}

impl HoldsKey<SenderType> for FramedContent {
    fn held_key(key: &(u64, u64)) -> u64 {
        key.0
    }
}

impl HoldsKey<ContentType> for FramedContent {
    fn held_key(key: &(u64, u64)) -> u64 {
        key.1
    }
}

type KeyedParts = (
    (Keyless<VLBytes>, Keyless<u64>, Sender),
    (Keyless<VLBytes>, FramedContentBody),
);

impl ValidateKeyed for FramedContent {
    fn tls_validate_keyed(whole: &[u8]) -> Result<((u64, u64), &[u8]), Rejected<'_>> {
        let (((_, _, sender), (_, body)), rest) = <KeyedParts>::tls_validate_keyed(whole)?;
        Ok(((sender, body), rest))
    }
}

/// Two values are equal if and only if all their fields are equal.
pub fn is_compared_by_its_fields()
    ensures { (x y : FramedContent) →
        ⟦<FramedContent as PartialEq>⟧.eq x y
        ≡ (⟦<VLBytes as PartialEq>⟧.eq x.group_id y.group_id
        && (⟦<u64 as PartialEq>⟧.eq x.epoch y.epoch
        && (⟦<Sender as PartialEq>⟧.eq x.sender y.sender
        && (⟦<VLBytes as PartialEq>⟧.eq x.authenticated_data y.authenticated_data
        && ⟦<FramedContentBody as PartialEq>⟧.eq x.body y.body)))) }
{}
