//! [`Line`].
ghost use Rattle.std.specs.Prelude.{◌≡◌, ◌&&◌, ◌++◌};
ghost use Rattle.messages_of_each_shape.specs.Line.{line_format, line_meets, line_plain};
ghost use Rattle.messages_of_each_shape.specs.declared.line.Line.{Line};

use crate::Pixel;
use std::alloc::Global;
use tls_codec::{
    ByRef, Deserialize, DeserializeBytes, Error, Serialize, Sink, Size, Source, TlsVec,
};
use tls_codec_cases::{Exactly, append_as};
use tls_codec_validate::{Rejected, Validate};
use tls_codec_views::{Encoded, Parted};

/// `Line`.
#[derive(PartialEq, Eq, Debug, Clone, Drop)]
pub struct Line {
    /// `uint32 before;`
    pub before: u32,
    /// `Pixel pixels[6];`
    pub pixels: TlsVec<Exactly<6>, Pixel>,
    /// `uint16 after;`
    pub after: u16,
}

type Parts = (u32, TlsVec<Exactly<6>, Pixel>, u16);

impl Size for Line {
    ghost plain = { line_plain };

    ghost format = { line_format };

    fn tls_serialized_len(&self) -> usize {
        (ByRef(&self.before), ByRef(&self.pixels), ByRef(&self.after)).tls_serialized_len()
    }

    ghost lawful = { line_meets };
}

impl Serialize for Line {
    fn tls_serialize<W: Sink>(&self, writer: &mut W) -> Result<usize, Error> {
        (ByRef(&self.before), ByRef(&self.pixels), ByRef(&self.after)).tls_serialize(writer)
    }

    fn tls_serialize_into(&self, out: &mut Vec<u8>) -> Result<usize, Error> {
        append_as(
            self,
            &(ByRef(&self.before), ByRef(&self.pixels), ByRef(&self.after)),
            out,
        )
    }
}

impl Deserialize for Line {
    ghost names = { ⟦<Parts as Deserialize>⟧.names };

    fn tls_deserialize<R: Source>(alloc: Global, src: &mut R) -> Result<Line, Error> {
        let (before, pixels, after) = <Parts>::tls_deserialize(alloc, src)?;
        Ok(Line {
            before,
            pixels,
            after,
        })
    }
}

impl DeserializeBytes for Line {
    ghost names = { ⟦<Parts as DeserializeBytes>⟧.names };

    fn tls_deserialize_bytes(alloc: Global, whole: &[u8]) -> Result<(Line, &[u8]), Error> {
        let ((before, pixels, after), rest) = <Parts>::tls_deserialize_bytes(alloc, whole)?;
        Ok((
            Line {
                before,
                pixels,
                after,
            },
            rest,
        ))
    }
}

impl Validate for Line {
    ghost places = { ⟦<Parts as Validate>⟧.places };

    fn tls_validate_prefix(whole: &[u8]) -> Result<&[u8], Rejected<'_>> {
        <Parts>::tls_validate_prefix(whole)
    }

    fn tls_width() -> Option<usize> {
        <Parts>::tls_width()
    }
}

impl Parted for Line {
    type Parts = Parts;

    ghost as_parts = { λ bytes is. is };
}

/// The encoding of a [`Line`], split into its fields.
#[derive(Drop)]
pub struct LineView<'a> {
    /// `uint32 before;`
    pub before: Encoded<'a, u32>,
    /// `Pixel pixels[6];`
    pub pixels: Encoded<'a, TlsVec<Exactly<6>, Pixel>>,
    /// `uint16 after;`
    pub after: Encoded<'a, u16>,
}

impl<'a> From<Encoded<'a, Line>> for LineView<'a> {
    ghost from_gives = { λ whole view. whole ≡ (view.before ++ (view.pixels ++ view.after)) };

    fn from(whole: Encoded<'a, Line>) -> LineView<'a> {
        let (before, pixels, after) = whole.parts().split();
        LineView {
            before,
            pixels,
            after,
        }
    }
}

/// Two values are equal if and only if all their fields are equal.
pub fn is_compared_by_its_fields()
    ensures { (x y : Line) →
        ⟦<Line as PartialEq>⟧.eq x y
        ≡ (⟦<u32 as PartialEq>⟧.eq x.before y.before
        && (⟦<TlsVec<Exactly<6>, Pixel> as PartialEq>⟧.eq x.pixels y.pixels
        && ⟦<u16 as PartialEq>⟧.eq x.after y.after)) }
{}
