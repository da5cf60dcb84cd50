//! [`Beat`].
ghost use Rattle.std.specs.Prelude.{◌≡◌, ◌&&◌, ◌++◌};
ghost use Rattle.messages_of_each_shape.specs.Beat.{beat_format, beat_meets, beat_plain};
ghost use Rattle.messages_of_each_shape.specs.declared.beat.Beat.{Beat};

use crate::BodyKind;
use std::alloc::Global;
use tls_codec::{
    ByRef, Deserialize, DeserializeBytes, Error, Serialize, Sink, Size, Source, TlsByteVecU16,
};
use tls_codec_cases::append_as;
use tls_codec_validate::{Rejected, Validate};
use tls_codec_views::{Encoded, Parted};

/// `Beat`.
///
/// Bytes follow it to the end, `opaque padding[padding_length];`: it is read and written as
/// `Followed<Beat>`.
#[derive(PartialEq, Eq, Debug, Clone, Drop)]
pub struct Beat {
    /// `BodyKind type;`
    pub kind: BodyKind,
    /// `opaque payload[Beat.payload_length];`
    pub payload: TlsByteVecU16,
}

type Parts = (BodyKind, TlsByteVecU16);

impl Size for Beat {
    ghost plain = { beat_plain };

    ghost format = { beat_format };

    fn tls_serialized_len(&self) -> usize {
        (ByRef(&self.kind), ByRef(&self.payload)).tls_serialized_len()
    }

    ghost lawful = { beat_meets };
}

impl Serialize for Beat {
    fn tls_serialize<W: Sink>(&self, writer: &mut W) -> Result<usize, Error> {
        (ByRef(&self.kind), ByRef(&self.payload)).tls_serialize(writer)
    }

    fn tls_serialize_into(&self, out: &mut Vec<u8>) -> Result<usize, Error> {
        append_as(self, &(ByRef(&self.kind), ByRef(&self.payload)), out)
    }
}

impl Deserialize for Beat {
    ghost names = { ⟦<Parts as Deserialize>⟧.names };

    fn tls_deserialize<R: Source>(alloc: Global, src: &mut R) -> Result<Beat, Error> {
        let (kind, payload) = <Parts>::tls_deserialize(alloc, src)?;
        Ok(Beat { kind, payload })
    }
}

impl DeserializeBytes for Beat {
    ghost names = { ⟦<Parts as DeserializeBytes>⟧.names };

    fn tls_deserialize_bytes(alloc: Global, whole: &[u8]) -> Result<(Beat, &[u8]), Error> {
        let ((kind, payload), rest) = <Parts>::tls_deserialize_bytes(alloc, whole)?;
        Ok((Beat { kind, payload }, rest))
    }
}

impl Validate for Beat {
    ghost places = { ⟦<Parts as Validate>⟧.places };

    fn tls_validate_prefix(whole: &[u8]) -> Result<&[u8], Rejected<'_>> {
        <Parts>::tls_validate_prefix(whole)
    }

    fn tls_width() -> Option<usize> {
        <Parts>::tls_width()
    }
}

impl Parted for Beat {
    type Parts = Parts;

    ghost as_parts = { λ bytes is. is };
}

/// The encoding of a [`Beat`], split into its fields.
#[derive(Drop)]
pub struct BeatView<'a> {
    /// `BodyKind type;`
    pub kind: Encoded<'a, BodyKind>,
    /// `opaque payload[Beat.payload_length];`
    pub payload: Encoded<'a, TlsByteVecU16>,
}

impl<'a> From<Encoded<'a, Beat>> for BeatView<'a> {
    ghost from_gives = { λ whole view. whole ≡ (view.kind ++ view.payload) };

    fn from(whole: Encoded<'a, Beat>) -> BeatView<'a> {
        let (kind, payload) = whole.parts().split();
        BeatView { kind, payload }
    }
}

/// Two values are equal if and only if all their fields are equal.
pub fn is_compared_by_its_fields()
    ensures { (x y : Beat) →
        ⟦<Beat as PartialEq>⟧.eq x y
        ≡ (⟦<BodyKind as PartialEq>⟧.eq x.kind y.kind
        && ⟦<TlsByteVecU16 as PartialEq>⟧.eq x.payload y.payload) }
{}
