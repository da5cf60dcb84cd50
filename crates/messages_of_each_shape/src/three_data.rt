//! [`ThreeData`].
ghost use Rattle.std.specs.Prelude.{◌≡◌};
ghost use Rattle.messages_of_each_shape.specs.ThreeData.{three_data_format, three_data_meets, three_data_plain};
ghost use Rattle.messages_of_each_shape.specs.declared.three_data.ThreeData.{ThreeData};

use crate::Datum;
use std::alloc::Global;
use tls_codec::{Deserialize, DeserializeBytes, Error, Serialize, Sink, Size, Source, TlsVec};
use tls_codec_cases::{Exactly, append_as};
use tls_codec_validate::{Rejected, Validate};
use tls_codec_views::{Encoded, Parted};

/// `ThreeData`.
#[derive(PartialEq, Eq, Debug, Clone, Drop)]
pub struct ThreeData {
    /// `Datum data[9];`
    pub data_: TlsVec<Exactly<9>, Datum>,
}

impl Size for ThreeData {
    ghost plain = { three_data_plain };

    ghost format = { three_data_format };

    fn tls_serialized_len(&self) -> usize {
        self.data_.tls_serialized_len()
    }

    ghost lawful = { three_data_meets };
}

impl Serialize for ThreeData {
    fn tls_serialize<W: Sink>(&self, writer: &mut W) -> Result<usize, Error> {
        self.data_.tls_serialize(writer)
    }

    fn tls_serialize_into(&self, out: &mut Vec<u8>) -> Result<usize, Error> {
        append_as(self, &self.data_, out)
    }
}

impl Deserialize for ThreeData {
    ghost names = { ⟦<TlsVec<Exactly<9>, Datum> as Deserialize>⟧.names };

    fn tls_deserialize<R: Source>(alloc: Global, src: &mut R) -> Result<ThreeData, Error> {
        let data_ = <TlsVec<Exactly<9>, Datum>>::tls_deserialize(alloc, src)?;
        Ok(ThreeData { data_ })
    }
}

impl DeserializeBytes for ThreeData {
    ghost names = { ⟦<TlsVec<Exactly<9>, Datum> as DeserializeBytes>⟧.names };

    fn tls_deserialize_bytes(alloc: Global, whole: &[u8]) -> Result<(ThreeData, &[u8]), Error> {
        let (data_, rest) = <TlsVec<Exactly<9>, Datum>>::tls_deserialize_bytes(alloc, whole)?;
        Ok((ThreeData { data_ }, rest))
    }
}

impl Validate for ThreeData {
    ghost places = { ⟦<TlsVec<Exactly<9>, Datum> as Validate>⟧.places };

    fn tls_validate_prefix(whole: &[u8]) -> Result<&[u8], Rejected<'_>> {
        <TlsVec<Exactly<9>, Datum>>::tls_validate_prefix(whole)
    }

    fn tls_width() -> Option<usize> {
        <TlsVec<Exactly<9>, Datum>>::tls_width()
    }
}

impl Parted for ThreeData {
    type Parts = TlsVec<Exactly<9>, Datum>;

    ghost as_parts = { λ bytes is. is };
}

/// The encoding of a [`ThreeData`], split into its fields.
#[derive(Drop)]
pub struct ThreeDataView<'a> {
    /// `Datum data[9];`
    pub data_: Encoded<'a, TlsVec<Exactly<9>, Datum>>,
}

impl<'a> From<Encoded<'a, ThreeData>> for ThreeDataView<'a> {
    ghost from_gives = { λ whole view. whole ≡ view.data_ };

    fn from(whole: Encoded<'a, ThreeData>) -> ThreeDataView<'a> {
        let data_ = whole.parts();
        ThreeDataView { data_ }
    }
}

/// Two values are equal if and only if all their fields are equal.
pub fn is_compared_by_its_fields()
    ensures { (x y : ThreeData) →
        ⟦<ThreeData as PartialEq>⟧.eq x y
        ≡ ⟦<TlsVec<Exactly<9>, Datum> as PartialEq>⟧.eq x.data_ y.data_ }
{}
