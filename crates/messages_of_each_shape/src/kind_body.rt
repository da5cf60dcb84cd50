//! [`KindBody`].
ghost use Rattle.std.specs.Prelude.{◌≡◌, ◌&&◌};
ghost use Rattle.messages_of_each_shape.specs.KindBody.{kind_body_format_for, kind_body_meets_for, kind_body_plain};
ghost use Rattle.messages_of_each_shape.specs.declared.kind_body.KindBody.{KindBody};

use crate::{BodyKind, BodyKindData};
use std::alloc::Global;
use tls_codec::{
    Always, ByRef, ByRefIn, DeserializeBytesFor, DeserializeFor, Error, SerializeFor, Sink,
    SizeFor, Source,
};
use tls_codec_validate::{Rejected, ValidateFor};
use tls_codec_views::PartedFor;

/// `KindBody`.
#[derive(PartialEq, Eq, Debug, Clone, Drop)]
pub struct KindBody {
    /// `uint8 first;`
    pub first: u8,
    /// `select (body_kind);`
    pub body: BodyKindData,
}

type Parts = (Always<u8>, BodyKindData);

impl SizeFor<BodyKind> for KindBody {
    ghost plain = { kind_body_plain };

    ghost format_for = { kind_body_format_for };

    fn tls_serialized_len_for(&self, body_kind: &BodyKind) -> usize {
        (ByRef(&self.first), ByRefIn(&self.body)).tls_serialized_len_for(body_kind)
    }

    ghost lawful = { kind_body_meets_for };
}

/// `EncodingError("value does not fit its context")`: a field's case is for another tag.
impl SerializeFor<BodyKind> for KindBody {
    fn tls_serialize_for<W: Sink>(
        &self,
        body_kind: &BodyKind,
        writer: &mut W,
    ) -> Result<usize, Error> {
        (ByRef(&self.first), ByRefIn(&self.body)).tls_serialize_for(body_kind, writer)
    }

    fn tls_serialize_into_for(
        &self,
        body_kind: &BodyKind,
        out: &mut Vec<u8>,
    ) -> Result<usize, Error> {
        (ByRef(&self.first), ByRefIn(&self.body)).tls_serialize_into_for(body_kind, out)
    }
}

impl DeserializeFor<BodyKind> for KindBody {
    ghost names = { ⟦<Parts as DeserializeFor<BodyKind>>⟧.names };

    fn tls_deserialize_for<R: Source>(
        body_kind: &BodyKind,
        alloc: Global,
        src: &mut R,
    ) -> Result<KindBody, Error> {
        let parts = <Parts>::tls_deserialize_for(body_kind, alloc, src)?;
        let (Always(first), body) = parts;
        Ok(KindBody { first, body })
    }
}

impl DeserializeBytesFor<BodyKind> for KindBody {
    ghost names = { ⟦<Parts as DeserializeBytesFor<BodyKind>>⟧.names };

    fn tls_deserialize_bytes_for<'a>(
        body_kind: &BodyKind,
        alloc: Global,
        whole: &'a [u8],
    ) -> Result<(KindBody, &'a [u8]), Error> {
        let (parts, rest) = <Parts>::tls_deserialize_bytes_for(body_kind, alloc, whole)?;
        let (Always(first), body) = parts;
        Ok((KindBody { first, body }, rest))
    }
}

impl ValidateFor<BodyKind> for KindBody {
    ghost places = { ⟦<Parts as ValidateFor<BodyKind>>⟧.places };

    fn tls_validate_prefix_for<'a>(key: &u64, whole: &'a [u8]) -> Result<&'a [u8], Rejected<'a>> {
        <Parts as ValidateFor<BodyKind>>::tls_validate_prefix_for(key, whole)
    }
}

impl PartedFor<BodyKind> for KindBody {
    type Parts = Parts;

    ghost as_parts = { λ c bytes is. is };
}

/// Two values are equal if and only if all their fields are equal.
pub fn is_compared_by_its_fields()
    ensures { (x y : KindBody) →
        ⟦<KindBody as PartialEq>⟧.eq x y
        ≡ (⟦<u8 as PartialEq>⟧.eq x.first y.first
        && ⟦<BodyKindData as PartialEq>⟧.eq x.body y.body) }
{}
