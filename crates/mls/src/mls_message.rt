//! [`MLSMessage`].
ghost use Rattle.std.specs.Prelude.{◌≡◌, ◌&&◌, ◌++◌};
ghost use Rattle.mls.specs.MLSMessage.{mls_message_format, mls_message_meets, mls_message_plain};
ghost use Rattle.mls.specs.declared.mls_message.MLSMessage.{MLSMessage};

use crate::MLSMessageBody;
use mls_group::ProtocolVersionMls10;
use std::alloc::Global;
use tls_codec::{ByRef, Deserialize, DeserializeBytes, Error, Serialize, Sink, Size, Source};
use tls_codec_cases::append_as;
use tls_codec_validate::{Rejected, Validate};
use tls_codec_views::{Encoded, Parted};

/// `MLSMessage` (RFC 9420, section 6).
#[derive(PartialEq, Eq, Debug, Clone, Drop)]
pub struct MLSMessage {
    /// `ProtocolVersion version = mls10;`
    pub version: ProtocolVersionMls10,
    /// `WireFormat wire_format; select (wire_format);`
    pub body: MLSMessageBody,
}

type Parts = (ProtocolVersionMls10, MLSMessageBody);

impl Size for MLSMessage {
    ghost plain = { mls_message_plain };

    ghost format = { mls_message_format };

    fn tls_serialized_len(&self) -> usize {
        (ByRef(&self.version), ByRef(&self.body)).tls_serialized_len()
    }

    ghost lawful = { mls_message_meets };
}

impl Serialize for MLSMessage {
    fn tls_serialize<W: Sink>(&self, writer: &mut W) -> Result<usize, Error> {
        (ByRef(&self.version), ByRef(&self.body)).tls_serialize(writer)
    }

    fn tls_serialize_into(&self, out: &mut Vec<u8>) -> Result<usize, Error> {
        append_as(self, &(ByRef(&self.version), ByRef(&self.body)), out)
    }
}

impl Deserialize for MLSMessage {
    ghost names = { ⟦<Parts as Deserialize>⟧.names };

    fn tls_deserialize<R: Source>(alloc: Global, src: &mut R) -> Result<MLSMessage, Error> {
        let (version, body) = <Parts>::tls_deserialize(alloc, src)?;
        Ok(MLSMessage { version, body })
    }
}

impl DeserializeBytes for MLSMessage {
    ghost names = { ⟦<Parts as DeserializeBytes>⟧.names };

    fn tls_deserialize_bytes(alloc: Global, whole: &[u8]) -> Result<(MLSMessage, &[u8]), Error> {
        let ((version, body), rest) = <Parts>::tls_deserialize_bytes(alloc, whole)?;
        Ok((MLSMessage { version, body }, rest))
    }
}

impl Validate for MLSMessage {
    ghost places = { ⟦<Parts as Validate>⟧.places };

    fn tls_validate_prefix(whole: &[u8]) -> Result<&[u8], Rejected<'_>> {
        <Parts>::tls_validate_prefix(whole)
    }

    fn tls_width() -> Option<usize> {
        <Parts>::tls_width()
    }
}

impl Parted for MLSMessage {
    type Parts = Parts;

    ghost as_parts = { λ bytes is. is };
}

/// The encoding of a [`MLSMessage`], split into its fields.
#[derive(Drop)]
pub struct MLSMessageView<'a> {
    /// `ProtocolVersion version = mls10;`
    pub version: Encoded<'a, ProtocolVersionMls10>,
    /// `WireFormat wire_format; select (wire_format);`
    pub body: Encoded<'a, MLSMessageBody>,
}

impl<'a> From<Encoded<'a, MLSMessage>> for MLSMessageView<'a> {
    ghost from_gives = { λ whole view. whole ≡ (view.version ++ view.body) };

    fn from(whole: Encoded<'a, MLSMessage>) -> MLSMessageView<'a> {
        let (version, body) = whole.parts().split();
        MLSMessageView { version, body }
    }
}

/// Two values are equal if and only if all their fields are equal.
pub fn is_compared_by_its_fields()
    ensures { (x y : MLSMessage) →
        ⟦<MLSMessage as PartialEq>⟧.eq x y
        ≡ (⟦<ProtocolVersionMls10 as PartialEq>⟧.eq x.version y.version
        && ⟦<MLSMessageBody as PartialEq>⟧.eq x.body y.body) }
{}
