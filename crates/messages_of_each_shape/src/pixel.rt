//! [`Pixel`].
ghost use Rattle.std.specs.Prelude.{◌≡◌, ◌&&◌, ◌++◌};
ghost use Rattle.messages_of_each_shape.specs.Pixel.{pixel_format, pixel_meets, pixel_plain};
ghost use Rattle.messages_of_each_shape.specs.declared.pixel.Pixel.{Pixel};

use std::alloc::Global;
use tls_codec::{ByRef, Deserialize, DeserializeBytes, Error, Serialize, Sink, Size, Source};
use tls_codec_cases::append_as;
use tls_codec_validate::{Rejected, Validate};
use tls_codec_views::{Encoded, Parted};

/// `Pixel`.
#[derive(PartialEq, Eq, Debug, Clone, Drop)]
pub struct Pixel {
    /// `uint8 x;`
    pub x: u8,
    /// `uint16 y;`
    pub y: u16,
}

type Parts = (u8, u16);

impl Size for Pixel {
    ghost plain = { pixel_plain };

    ghost format = { pixel_format };

    fn tls_serialized_len(&self) -> usize {
        (ByRef(&self.x), ByRef(&self.y)).tls_serialized_len()
    }

    ghost lawful = { pixel_meets };
}

impl Serialize for Pixel {
    fn tls_serialize<W: Sink>(&self, writer: &mut W) -> Result<usize, Error> {
        (ByRef(&self.x), ByRef(&self.y)).tls_serialize(writer)
    }

    fn tls_serialize_into(&self, out: &mut Vec<u8>) -> Result<usize, Error> {
        append_as(self, &(ByRef(&self.x), ByRef(&self.y)), out)
    }
}

impl Deserialize for Pixel {
    ghost names = { ⟦<Parts as Deserialize>⟧.names };

    fn tls_deserialize<R: Source>(alloc: Global, src: &mut R) -> Result<Pixel, Error> {
        let (x, y) = <Parts>::tls_deserialize(alloc, src)?;
        Ok(Pixel { x, y })
    }
}

impl DeserializeBytes for Pixel {
    ghost names = { ⟦<Parts as DeserializeBytes>⟧.names };

    fn tls_deserialize_bytes(alloc: Global, whole: &[u8]) -> Result<(Pixel, &[u8]), Error> {
        let ((x, y), rest) = <Parts>::tls_deserialize_bytes(alloc, whole)?;
        Ok((Pixel { x, y }, rest))
    }
}

impl Validate for Pixel {
    ghost places = { ⟦<Parts as Validate>⟧.places };

    fn tls_validate_prefix(whole: &[u8]) -> Result<&[u8], Rejected<'_>> {
        <Parts>::tls_validate_prefix(whole)
    }

    fn tls_width() -> Option<usize> {
        <Parts>::tls_width()
    }
}

impl Parted for Pixel {
    type Parts = Parts;

    ghost as_parts = { λ bytes is. is };
}

/// The encoding of a [`Pixel`], split into its fields.
#[derive(Drop)]
pub struct PixelView<'a> {
    /// `uint8 x;`
    pub x: Encoded<'a, u8>,
    /// `uint16 y;`
    pub y: Encoded<'a, u16>,
}

impl<'a> From<Encoded<'a, Pixel>> for PixelView<'a> {
    ghost from_gives = { λ whole view. whole ≡ (view.x ++ view.y) };

    fn from(whole: Encoded<'a, Pixel>) -> PixelView<'a> {
        let (x, y) = whole.parts().split();
        PixelView { x, y }
    }
}

/// Two values are equal if and only if all their fields are equal.
pub fn is_compared_by_its_fields()
    ensures { (x y : Pixel) →
        ⟦<Pixel as PartialEq>⟧.eq x y
        ≡ (⟦<u8 as PartialEq>⟧.eq x.x y.x
        && ⟦<u16 as PartialEq>⟧.eq x.y y.y) }
{}
