//! [`Point`].
ghost use Rattle.std.specs.Prelude.{◌≡◌, ◌&&◌, ◌++◌};
ghost use Rattle.messages_of_each_shape.specs.Point.{point_format, point_meets, point_plain};
ghost use Rattle.messages_of_each_shape.specs.declared.point.Point.{Point};

use crate::FormX04;
use std::alloc::Global;
use tls_codec::{
    ByRef, Deserialize, DeserializeBytes, Error, Serialize, Sink, Size, Source, VLBytes,
};
use tls_codec_cases::append_as;
use tls_codec_validate::{Rejected, Validate};
use tls_codec_views::{Encoded, Parted};

/// `Point`.
#[derive(PartialEq, Eq, Debug, Clone, Drop)]
pub struct Point {
    /// `uint8 form;`
    pub form: FormX04,
    /// `opaque x<V>;`
    pub x: VLBytes,
    /// `opaque y<V>;`
    pub y: VLBytes,
}

type Parts = (FormX04, VLBytes, VLBytes);

impl Size for Point {
    ghost plain = { point_plain };

    ghost format = { point_format };

    fn tls_serialized_len(&self) -> usize {
        (ByRef(&self.form), ByRef(&self.x), ByRef(&self.y)).tls_serialized_len()
    }

    ghost lawful = { point_meets };
}

impl Serialize for Point {
    fn tls_serialize<W: Sink>(&self, writer: &mut W) -> Result<usize, Error> {
        (ByRef(&self.form), ByRef(&self.x), ByRef(&self.y)).tls_serialize(writer)
    }

    fn tls_serialize_into(&self, out: &mut Vec<u8>) -> Result<usize, Error> {
        append_as(
            self,
            &(ByRef(&self.form), ByRef(&self.x), ByRef(&self.y)),
            out,
        )
    }
}

impl Deserialize for Point {
    ghost names = { ⟦<Parts as Deserialize>⟧.names };

    fn tls_deserialize<R: Source>(alloc: Global, src: &mut R) -> Result<Point, Error> {
        let (form, x, y) = <Parts>::tls_deserialize(alloc, src)?;
        Ok(Point { form, x, y })
    }
}

impl DeserializeBytes for Point {
    ghost names = { ⟦<Parts as DeserializeBytes>⟧.names };

    fn tls_deserialize_bytes(alloc: Global, whole: &[u8]) -> Result<(Point, &[u8]), Error> {
        let ((form, x, y), rest) = <Parts>::tls_deserialize_bytes(alloc, whole)?;
        Ok((Point { form, x, y }, rest))
    }
}

impl Validate for Point {
    ghost places = { ⟦<Parts as Validate>⟧.places };

    fn tls_validate_prefix(whole: &[u8]) -> Result<&[u8], Rejected<'_>> {
        <Parts>::tls_validate_prefix(whole)
    }

    fn tls_width() -> Option<usize> {
        <Parts>::tls_width()
    }
}

impl Parted for Point {
    type Parts = Parts;

    ghost as_parts = { λ bytes is. is };
}

/// The encoding of a [`Point`], split into its fields.
#[derive(Drop)]
pub struct PointView<'a> {
    /// `uint8 form;`
    pub form: Encoded<'a, FormX04>,
    /// `opaque x<V>;`
    pub x: Encoded<'a, VLBytes>,
    /// `opaque y<V>;`
    pub y: Encoded<'a, VLBytes>,
}

impl<'a> From<Encoded<'a, Point>> for PointView<'a> {
    ghost from_gives = { λ whole view. whole ≡ (view.form ++ (view.x ++ view.y)) };

    fn from(whole: Encoded<'a, Point>) -> PointView<'a> {
        let (form, x, y) = whole.parts().split();
        PointView { form, x, y }
    }
}

/// Two values are equal if and only if all their fields are equal.
pub fn is_compared_by_its_fields()
    ensures { (x y : Point) →
        ⟦<Point as PartialEq>⟧.eq x y
        ≡ (⟦<FormX04 as PartialEq>⟧.eq x.form y.form
        && (⟦<VLBytes as PartialEq>⟧.eq x.x y.x
        && ⟦<VLBytes as PartialEq>⟧.eq x.y y.y)) }
{}
