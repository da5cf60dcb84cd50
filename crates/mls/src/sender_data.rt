//! [`SenderData`].
ghost use Rattle.std.specs.Prelude.{◌≡◌, ◌&&◌, ◌++◌};
ghost use Rattle.mls.specs.SenderData.{sender_data_format, sender_data_meets, sender_data_plain};
ghost use Rattle.mls.specs.declared.sender_data.SenderData.{SenderData};

use std::alloc::Global;
use tls_codec::{ByRef, Deserialize, DeserializeBytes, Error, Serialize, Sink, Size, Source};
use tls_codec_cases::append_as;
use tls_codec_validate::{Rejected, Validate};
use tls_codec_views::{Encoded, Parted};

/// `SenderData` (RFC 9420, section 6.3.2).
#[derive(PartialEq, Eq, Debug, Clone, Drop)]
pub struct SenderData {
    /// `uint32 leaf_index;`
    pub leaf_index: u32,
    /// `uint32 generation;`
    pub generation: u32,
    /// `opaque reuse_guard[4];`
    pub reuse_guard: [u8; 4],
}

type Parts = (u32, u32, [u8; 4]);

impl Size for SenderData {
    ghost plain = { sender_data_plain };

    ghost format = { sender_data_format };

    fn tls_serialized_len(&self) -> usize {
        (
            ByRef(&self.leaf_index),
            ByRef(&self.generation),
            ByRef(&self.reuse_guard),
        )
            .tls_serialized_len()
    }

    ghost lawful = { sender_data_meets };
}

impl Serialize for SenderData {
    fn tls_serialize<W: Sink>(&self, writer: &mut W) -> Result<usize, Error> {
        (
            ByRef(&self.leaf_index),
            ByRef(&self.generation),
            ByRef(&self.reuse_guard),
        )
            .tls_serialize(writer)
    }

    fn tls_serialize_into(&self, out: &mut Vec<u8>) -> Result<usize, Error> {
        append_as(
            self,
            &(
                ByRef(&self.leaf_index),
                ByRef(&self.generation),
                ByRef(&self.reuse_guard),
            ),
            out,
        )
    }
}

impl Deserialize for SenderData {
    ghost names = { ⟦<Parts as Deserialize>⟧.names };

    fn tls_deserialize<R: Source>(alloc: Global, src: &mut R) -> Result<SenderData, Error> {
        let (leaf_index, generation, reuse_guard) = <Parts>::tls_deserialize(alloc, src)?;
        Ok(SenderData {
            leaf_index,
            generation,
            reuse_guard,
        })
    }
}

impl DeserializeBytes for SenderData {
    ghost names = { ⟦<Parts as DeserializeBytes>⟧.names };

    fn tls_deserialize_bytes(alloc: Global, whole: &[u8]) -> Result<(SenderData, &[u8]), Error> {
        let ((leaf_index, generation, reuse_guard), rest) = <Parts>::tls_deserialize_bytes(
            alloc, whole,
        )?;
        Ok((
            SenderData {
                leaf_index,
                generation,
                reuse_guard,
            },
            rest,
        ))
    }
}

impl Validate for SenderData {
    ghost places = { ⟦<Parts as Validate>⟧.places };

    fn tls_validate_prefix(whole: &[u8]) -> Result<&[u8], Rejected<'_>> {
        <Parts>::tls_validate_prefix(whole)
    }

    fn tls_width() -> Option<usize> {
        <Parts>::tls_width()
    }
}

impl Parted for SenderData {
    type Parts = Parts;

    ghost as_parts = { λ bytes is. is };
}

/// The encoding of a [`SenderData`], split into its fields.
#[derive(Drop)]
pub struct SenderDataView<'a> {
    /// `uint32 leaf_index;`
    pub leaf_index: Encoded<'a, u32>,
    /// `uint32 generation;`
    pub generation: Encoded<'a, u32>,
    /// `opaque reuse_guard[4];`
    pub reuse_guard: Encoded<'a, [u8; 4]>,
}

impl<'a> From<Encoded<'a, SenderData>> for SenderDataView<'a> {
    ghost from_gives = { λ whole view. whole ≡ (view.leaf_index ++
        (view.generation ++ view.reuse_guard)) };

    fn from(whole: Encoded<'a, SenderData>) -> SenderDataView<'a> {
        let (leaf_index, generation, reuse_guard) = whole.parts().split();
        SenderDataView {
            leaf_index,
            generation,
            reuse_guard,
        }
    }
}

/// Two values are equal if and only if all their fields are equal.
pub fn is_compared_by_its_fields()
    ensures { (x y : SenderData) →
        ⟦<SenderData as PartialEq>⟧.eq x y
        ≡ (⟦<u32 as PartialEq>⟧.eq x.leaf_index y.leaf_index
        && (⟦<u32 as PartialEq>⟧.eq x.generation y.generation
        && ⟦<[u8; 4] as PartialEq>⟧.eq x.reuse_guard y.reuse_guard)) }
{}
