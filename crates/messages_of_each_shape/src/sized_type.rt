//! [`SizedType`].
ghost use Rattle.std.specs.Prelude.{◌≡◌, ◌&&◌, ◌++◌};
ghost use Rattle.messages_of_each_shape.specs.SizedType.{sized_type_format, sized_type_meets, sized_type_plain};
ghost use Rattle.messages_of_each_shape.specs.declared.sized_type.SizedType.{SizedType};

use crate::VersionData;
use std::alloc::Global;
use tls_codec::{ByRef, Deserialize, DeserializeBytes, Error, Serialize, Sink, Size, Source};
use tls_codec_cases::append_as;
use tls_codec_validate::{Rejected, Validate};
use tls_codec_views::{Encoded, Parted};

/// `Sized`.
#[derive(PartialEq, Eq, Debug, Clone, Drop)]
pub struct SizedType {
    /// `uint8 before;`
    pub before: u8,
    /// `uint16 version; select (version);`
    pub contents: VersionData,
    /// `uint8 after;`
    pub after: u8,
}

type Parts = (u8, VersionData, u8);

impl Size for SizedType {
    ghost plain = { sized_type_plain };

    ghost format = { sized_type_format };

    fn tls_serialized_len(&self) -> usize {
        (
            ByRef(&self.before),
            ByRef(&self.contents),
            ByRef(&self.after),
        )
            .tls_serialized_len()
    }

    ghost lawful = { sized_type_meets };
}

impl Serialize for SizedType {
    fn tls_serialize<W: Sink>(&self, writer: &mut W) -> Result<usize, Error> {
        (
            ByRef(&self.before),
            ByRef(&self.contents),
            ByRef(&self.after),
        )
            .tls_serialize(writer)
    }

    fn tls_serialize_into(&self, out: &mut Vec<u8>) -> Result<usize, Error> {
        append_as(
            self,
            &(
                ByRef(&self.before),
                ByRef(&self.contents),
                ByRef(&self.after),
            ),
            out,
        )
    }
}

impl Deserialize for SizedType {
    ghost names = { ⟦<Parts as Deserialize>⟧.names };

    fn tls_deserialize<R: Source>(alloc: Global, src: &mut R) -> Result<SizedType, Error> {
        let (before, contents, after) = <Parts>::tls_deserialize(alloc, src)?;
        Ok(SizedType {
            before,
            contents,
            after,
        })
    }
}

impl DeserializeBytes for SizedType {
    ghost names = { ⟦<Parts as DeserializeBytes>⟧.names };

    fn tls_deserialize_bytes(alloc: Global, whole: &[u8]) -> Result<(SizedType, &[u8]), Error> {
        let ((before, contents, after), rest) = <Parts>::tls_deserialize_bytes(alloc, whole)?;
        Ok((
            SizedType {
                before,
                contents,
                after,
            },
            rest,
        ))
    }
}

impl Validate for SizedType {
    ghost places = { ⟦<Parts as Validate>⟧.places };

    fn tls_validate_prefix(whole: &[u8]) -> Result<&[u8], Rejected<'_>> {
        <Parts>::tls_validate_prefix(whole)
    }

    fn tls_width() -> Option<usize> {
        <Parts>::tls_width()
    }
}

impl Parted for SizedType {
    type Parts = Parts;

    ghost as_parts = { λ bytes is. is };
}

/// The encoding of a [`SizedType`], split into its fields.
#[derive(Drop)]
pub struct SizedTypeView<'a> {
    /// `uint8 before;`
    pub before: Encoded<'a, u8>,
    /// `uint16 version; select (version);`
    pub contents: Encoded<'a, VersionData>,
    /// `uint8 after;`
    pub after: Encoded<'a, u8>,
}

impl<'a> From<Encoded<'a, SizedType>> for SizedTypeView<'a> {
    ghost from_gives = { λ whole view. whole ≡ (view.before ++ (view.contents ++ view.after)) };

    fn from(whole: Encoded<'a, SizedType>) -> SizedTypeView<'a> {
        let (before, contents, after) = whole.parts().split();
        SizedTypeView {
            before,
            contents,
            after,
        }
    }
}

/// Two values are equal if and only if all their fields are equal.
pub fn is_compared_by_its_fields()
    ensures { (x y : SizedType) →
        ⟦<SizedType as PartialEq>⟧.eq x y
        ≡ (⟦<u8 as PartialEq>⟧.eq x.before y.before
        && (⟦<VersionData as PartialEq>⟧.eq x.contents y.contents
        && ⟦<u8 as PartialEq>⟧.eq x.after y.after)) }
{}
