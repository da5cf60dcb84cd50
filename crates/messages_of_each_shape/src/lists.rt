//! [`Lists`].
ghost use Rattle.std.specs.Prelude.{◌≡◌, ◌&&◌, ◌++◌};
ghost use Rattle.messages_of_each_shape.specs.Lists.{lists_format, lists_meets, lists_plain};
ghost use Rattle.messages_of_each_shape.specs.declared.lists.Lists.{Lists};

use crate::{ExtensionType, Identity, Key, Level, NameType, Row};
use std::alloc::Global;
use tls_codec::{
    ByRef2, ByRef3, Deserialize, DeserializeBytes, Error, Serialize, Sink, Size, Source, TlsVecU8,
    TlsVecU16, TlsVecU24, TlsVecU32,
};
use tls_codec_cases::append_as;
use tls_codec_validate::{Rejected, Validate};
use tls_codec_views::{Encoded, Parted};

/// `Lists`.
///
/// Lists of each length, lists of lists, and other names.
#[derive(PartialEq, Eq, Debug, Clone, Drop)]
pub struct Lists {
    /// `uint16 octets<0..2^8-1>;`
    pub octets: TlsVecU8<u16>,
    /// `Level levels<0..2^16-1>;`
    pub levels: TlsVecU16<Level>,
    /// `Key keys<0..2^24-1>;`
    pub keys: TlsVecU24<Key>,
    /// `Identity identities<0..2^32-1>;`
    pub identities: TlsVecU32<Identity>,
    /// `Row rows<V>;`
    pub rows: Vec<Row>,
    /// `ExtensionType kind;`
    pub kind: ExtensionType,
    /// `NameType names<V>;`
    pub names: Vec<NameType>,
    /// `Row row;`
    pub row: Row,
}

type Parts = (
    (TlsVecU8<u16>, TlsVecU16<Level>, TlsVecU24<Key>),
    (TlsVecU32<Identity>, Vec<Row>, ExtensionType),
    (Vec<NameType>, Row),
);

impl Size for Lists {
    ghost plain = { lists_plain };

    ghost format = { lists_format };

    fn tls_serialized_len(&self) -> usize {
        (
            ByRef3(&self.octets, &self.levels, &self.keys),
            ByRef3(&self.identities, &self.rows, &self.kind),
            ByRef2(&self.names, &self.row),
        )
            .tls_serialized_len()
    }

    ghost lawful = { lists_meets };
}

impl Serialize for Lists {
    fn tls_serialize<W: Sink>(&self, writer: &mut W) -> Result<usize, Error> {
        (
            ByRef3(&self.octets, &self.levels, &self.keys),
            ByRef3(&self.identities, &self.rows, &self.kind),
            ByRef2(&self.names, &self.row),
        )
            .tls_serialize(writer)
    }

    fn tls_serialize_into(&self, out: &mut Vec<u8>) -> Result<usize, Error> {
        append_as(
            self,
            &(
                ByRef3(&self.octets, &self.levels, &self.keys),
                ByRef3(&self.identities, &self.rows, &self.kind),
                ByRef2(&self.names, &self.row),
            ),
            out,
        )
    }
}

impl Deserialize for Lists {
    ghost names = { ⟦<Parts as Deserialize>⟧.names };

    fn tls_deserialize<R: Source>(alloc: Global, src: &mut R) -> Result<Lists, Error> {
        let ((octets, levels, keys), (identities, rows, kind), (names, row)) =
            <Parts>::tls_deserialize(alloc, src)?;
        Ok(Lists {
            octets,
            levels,
            keys,
            identities,
            rows,
            kind,
            names,
            row,
        })
    }
}

impl DeserializeBytes for Lists {
    ghost names = { ⟦<Parts as DeserializeBytes>⟧.names };

    fn tls_deserialize_bytes(alloc: Global, whole: &[u8]) -> Result<(Lists, &[u8]), Error> {
        let (((octets, levels, keys), (identities, rows, kind), (names, row)), rest) =
            <Parts>::tls_deserialize_bytes(alloc, whole)?;
        Ok((
            Lists {
                octets,
                levels,
                keys,
                identities,
                rows,
                kind,
                names,
                row,
            },
            rest,
        ))
    }
}

impl Validate for Lists {
    ghost places = { ⟦<Parts as Validate>⟧.places };

    fn tls_validate_prefix(whole: &[u8]) -> Result<&[u8], Rejected<'_>> {
        <Parts>::tls_validate_prefix(whole)
    }

    fn tls_width() -> Option<usize> {
        <Parts>::tls_width()
    }
}

impl Parted for Lists {
    type Parts = Parts;

    ghost as_parts = { λ bytes is. is };
}

/// The encoding of a [`Lists`], split into its fields.
#[derive(Drop)]
pub struct ListsView<'a> {
    /// `uint16 octets<0..2^8-1>;`
    pub octets: Encoded<'a, TlsVecU8<u16>>,
    /// `Level levels<0..2^16-1>;`
    pub levels: Encoded<'a, TlsVecU16<Level>>,
    /// `Key keys<0..2^24-1>;`
    pub keys: Encoded<'a, TlsVecU24<Key>>,
    /// `Identity identities<0..2^32-1>;`
    pub identities: Encoded<'a, TlsVecU32<Identity>>,
    /// `Row rows<V>;`
    pub rows: Encoded<'a, Vec<Row>>,
    /// `ExtensionType kind;`
    pub kind: Encoded<'a, ExtensionType>,
    /// `NameType names<V>;`
    pub names: Encoded<'a, Vec<NameType>>,
    /// `Row row;`
    pub row: Encoded<'a, Row>,
}

impl<'a> From<Encoded<'a, Lists>> for ListsView<'a> {
    ghost from_gives = { λ whole view. whole ≡ ((view.octets ++ (view.levels ++ view.keys)) ++
        ((view.identities ++ (view.rows ++ view.kind)) ++ (view.names ++ view.row))) };

    fn from(whole: Encoded<'a, Lists>) -> ListsView<'a> {
        let (parts_0, parts_1, parts_2) = whole.parts().split();
        let (octets, levels, keys) = parts_0.split();
        let (identities, rows, kind) = parts_1.split();
        let (names, row) = parts_2.split();
        ListsView {
            octets,
            levels,
            keys,
            identities,
            rows,
            kind,
            names,
            row,
        }
    }
}

/// Two values are equal if and only if all their fields are equal.
pub fn is_compared_by_its_fields()
    ensures { (x y : Lists) →
        ⟦<Lists as PartialEq>⟧.eq x y
        ≡ (⟦<TlsVecU8<u16> as PartialEq>⟧.eq x.octets y.octets
        && (⟦<TlsVecU16<Level> as PartialEq>⟧.eq x.levels y.levels
        && (⟦<TlsVecU24<Key> as PartialEq>⟧.eq x.keys y.keys
        && (⟦<TlsVecU32<Identity> as PartialEq>⟧.eq x.identities y.identities
        && (⟦<Vec<Row> as PartialEq>⟧.eq x.rows y.rows
        && (⟦<ExtensionType as PartialEq>⟧.eq x.kind y.kind
        && (⟦<Vec<NameType> as PartialEq>⟧.eq x.names y.names
        && ⟦<Row as PartialEq>⟧.eq x.row y.row))))))) }
{}
