//! [`NamedGroupList`].
ghost use Rattle.std.specs.Prelude.{◌≡◌};
ghost use Rattle.tls13.specs.NamedGroupList.{named_group_list_format, named_group_list_meets, named_group_list_plain};
ghost use Rattle.tls13.specs.declared.named_group_list.NamedGroupList.{NamedGroupList};

use crate::NamedGroup;
use std::alloc::Global;
use tls_codec::{
    Deserialize, DeserializeBytes, Error, Serialize, Sink, Size, Source, TlsVec, Within,
};
use tls_codec_cases::append_as;
use tls_codec_validate::{Rejected, Validate};
use tls_codec_views::{Encoded, Parted};

/// `NamedGroupList` (RFC 8446, appendix B.3.1.4).
#[derive(PartialEq, Eq, Debug, Clone, Drop)]
pub struct NamedGroupList {
    /// `NamedGroup named_group_list<2..2^16-1>;`
    pub named_group_list: TlsVec<Within<u16, 2, 65535>, NamedGroup>,
}

type Parts = TlsVec<Within<u16, 2, 65535>, NamedGroup>;

impl Size for NamedGroupList {
    ghost plain = { named_group_list_plain };

    ghost format = { named_group_list_format };

    fn tls_serialized_len(&self) -> usize {
        self.named_group_list.tls_serialized_len()
    }

    ghost lawful = { named_group_list_meets };
}

impl Serialize for NamedGroupList {
    fn tls_serialize<W: Sink>(&self, writer: &mut W) -> Result<usize, Error> {
        self.named_group_list.tls_serialize(writer)
    }

    fn tls_serialize_into(&self, out: &mut Vec<u8>) -> Result<usize, Error> {
        append_as(self, &self.named_group_list, out)
    }
}

impl Deserialize for NamedGroupList {
    ghost names = { ⟦<Parts as Deserialize>⟧.names };

    fn tls_deserialize<R: Source>(alloc: Global, src: &mut R) -> Result<NamedGroupList, Error> {
        let named_group_list = <Parts>::tls_deserialize(alloc, src)?;
        Ok(NamedGroupList { named_group_list })
    }
}

impl DeserializeBytes for NamedGroupList {
    ghost names = { ⟦<Parts as DeserializeBytes>⟧.names };

    fn tls_deserialize_bytes(
        alloc: Global,
        whole: &[u8],
    ) -> Result<(NamedGroupList, &[u8]), Error> {
        let (named_group_list, rest) = <Parts>::tls_deserialize_bytes(alloc, whole)?;
        Ok((NamedGroupList { named_group_list }, rest))
    }
}

impl Validate for NamedGroupList {
    ghost places = { ⟦<Parts as Validate>⟧.places };

    fn tls_validate_prefix(whole: &[u8]) -> Result<&[u8], Rejected<'_>> {
        <Parts>::tls_validate_prefix(whole)
    }

    fn tls_width() -> Option<usize> {
        <Parts>::tls_width()
    }
}

impl Parted for NamedGroupList {
    type Parts = Box<Parts>;

    ghost as_parts = { λ bytes is. is };
}

/// The encoding of a [`NamedGroupList`], split into its fields.
#[derive(Drop)]
pub struct NamedGroupListView<'a> {
    /// `NamedGroup named_group_list<2..2^16-1>;`
    pub named_group_list: Encoded<'a, TlsVec<Within<u16, 2, 65535>, NamedGroup>>,
}

impl<'a> From<Encoded<'a, NamedGroupList>> for NamedGroupListView<'a> {
    ghost from_gives = { λ whole view. whole ≡ view.named_group_list };

    fn from(whole: Encoded<'a, NamedGroupList>) -> NamedGroupListView<'a> {
        let named_group_list = whole.parts().payload();
        NamedGroupListView { named_group_list }
    }
}

/// Two values are equal if and only if all their fields are equal.
pub fn is_compared_by_its_fields()
    ensures { (x y : NamedGroupList) →
        ⟦<NamedGroupList as PartialEq>⟧.eq x y
        ≡ ⟦<TlsVec<Within<u16, 2, 65535>, NamedGroup> as PartialEq>⟧.eq x.named_group_list
        y.named_group_list }
{}
