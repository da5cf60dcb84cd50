//! [`Framed`].
ghost use Rattle.std.specs.Prelude.{◌≡◌, ◌&&◌, ◌++◌};
ghost use Rattle.messages_of_each_shape.specs.Framed.{framed_format, framed_meets, framed_plain};
ghost use Rattle.messages_of_each_shape.specs.declared.framed.Framed.{Framed};

use crate::ContentTypeData;
use std::alloc::Global;
use tls_codec::{
    ByRef, Deserialize, DeserializeBytes, Error, Serialize, Sink, Size, Source, VLBytes,
};
use tls_codec_cases::append_as;
use tls_codec_validate::{Rejected, Validate};
use tls_codec_views::{Encoded, Parted};

/// `Framed`.
#[derive(PartialEq, Eq, Debug, Clone, Drop)]
pub struct Framed {
    /// `uint32 epoch;`
    pub epoch: u32,
    /// `ContentType content_type; select (content_type);`
    pub content_type: ContentTypeData,
    /// `opaque signature<V>;`
    pub signature: VLBytes,
}

type Parts = (u32, ContentTypeData, VLBytes);

impl Size for Framed {
    ghost plain = { framed_plain };

    ghost format = { framed_format };

    fn tls_serialized_len(&self) -> usize {
        (
            ByRef(&self.epoch),
            ByRef(&self.content_type),
            ByRef(&self.signature),
        )
            .tls_serialized_len()
    }

    ghost lawful = { framed_meets };
}

impl Serialize for Framed {
    fn tls_serialize<W: Sink>(&self, writer: &mut W) -> Result<usize, Error> {
        (
            ByRef(&self.epoch),
            ByRef(&self.content_type),
            ByRef(&self.signature),
        )
            .tls_serialize(writer)
    }

    fn tls_serialize_into(&self, out: &mut Vec<u8>) -> Result<usize, Error> {
        append_as(
            self,
            &(
                ByRef(&self.epoch),
                ByRef(&self.content_type),
                ByRef(&self.signature),
            ),
            out,
        )
    }
}

impl Deserialize for Framed {
    ghost names = { ⟦<Parts as Deserialize>⟧.names };

    fn tls_deserialize<R: Source>(alloc: Global, src: &mut R) -> Result<Framed, Error> {
        let (epoch, content_type, signature) = <Parts>::tls_deserialize(alloc, src)?;
        Ok(Framed {
            epoch,
            content_type,
            signature,
        })
    }
}

impl DeserializeBytes for Framed {
    ghost names = { ⟦<Parts as DeserializeBytes>⟧.names };

    fn tls_deserialize_bytes(alloc: Global, whole: &[u8]) -> Result<(Framed, &[u8]), Error> {
        let ((epoch, content_type, signature), rest) = <Parts>::tls_deserialize_bytes(
            alloc, whole,
        )?;
        Ok((
            Framed {
                epoch,
                content_type,
                signature,
            },
            rest,
        ))
    }
}

impl Validate for Framed {
    ghost places = { ⟦<Parts as Validate>⟧.places };

    fn tls_validate_prefix(whole: &[u8]) -> Result<&[u8], Rejected<'_>> {
        <Parts>::tls_validate_prefix(whole)
    }

    fn tls_width() -> Option<usize> {
        <Parts>::tls_width()
    }
}

impl Parted for Framed {
    type Parts = Parts;

    ghost as_parts = { λ bytes is. is };
}

/// The encoding of a [`Framed`], split into its fields.
#[derive(Drop)]
pub struct FramedView<'a> {
    /// `uint32 epoch;`
    pub epoch: Encoded<'a, u32>,
    /// `ContentType content_type; select (content_type);`
    pub content_type: Encoded<'a, ContentTypeData>,
    /// `opaque signature<V>;`
    pub signature: Encoded<'a, VLBytes>,
}

impl<'a> From<Encoded<'a, Framed>> for FramedView<'a> {
    ghost from_gives = { λ whole view. whole ≡ (view.epoch ++
        (view.content_type ++ view.signature)) };

    fn from(whole: Encoded<'a, Framed>) -> FramedView<'a> {
        let (epoch, content_type, signature) = whole.parts().split();
        FramedView {
            epoch,
            content_type,
            signature,
        }
    }
}

/// Two values are equal if and only if all their fields are equal.
pub fn is_compared_by_its_fields()
    ensures { (x y : Framed) →
        ⟦<Framed as PartialEq>⟧.eq x y
        ≡ (⟦<u32 as PartialEq>⟧.eq x.epoch y.epoch
        && (⟦<ContentTypeData as PartialEq>⟧.eq x.content_type y.content_type
        && ⟦<VLBytes as PartialEq>⟧.eq x.signature y.signature)) }
{}
