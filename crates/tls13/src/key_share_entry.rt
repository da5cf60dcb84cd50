//! [`KeyShareEntry`].
ghost use Rattle.std.specs.Prelude.{◌≡◌, ◌&&◌, ◌++◌};
ghost use Rattle.tls13.specs.KeyShareEntry.{key_share_entry_format, key_share_entry_meets, key_share_entry_plain};
ghost use Rattle.tls13.specs.declared.key_share_entry.KeyShareEntry.{KeyShareEntry};

use crate::NamedGroup;
use std::alloc::Global;
use tls_codec::{
    ByRef, Deserialize, DeserializeBytes, Error, Serialize, Sink, Size, Source, TlsByteVec, Within,
};
use tls_codec_cases::append_as;
use tls_codec_validate::{Rejected, Validate};
use tls_codec_views::{Encoded, Parted};

/// `KeyShareEntry` (RFC 8446, appendix B.3.1).
#[derive(PartialEq, Eq, Debug, Clone, Drop)]
pub struct KeyShareEntry {
    /// `NamedGroup group;`
    pub group: NamedGroup,
    /// `opaque key_exchange<1..2^16-1>;`
    pub key_exchange: TlsByteVec<Within<u16, 1, 65535>>,
}

type Parts = (NamedGroup, TlsByteVec<Within<u16, 1, 65535>>);

impl Size for KeyShareEntry {
    ghost plain = { key_share_entry_plain };

    ghost format = { key_share_entry_format };

    fn tls_serialized_len(&self) -> usize {
        (ByRef(&self.group), ByRef(&self.key_exchange)).tls_serialized_len()
    }

    ghost lawful = { key_share_entry_meets };
}

impl Serialize for KeyShareEntry {
    fn tls_serialize<W: Sink>(&self, writer: &mut W) -> Result<usize, Error> {
        (ByRef(&self.group), ByRef(&self.key_exchange)).tls_serialize(writer)
    }

    fn tls_serialize_into(&self, out: &mut Vec<u8>) -> Result<usize, Error> {
        append_as(self, &(ByRef(&self.group), ByRef(&self.key_exchange)), out)
    }
}

impl Deserialize for KeyShareEntry {
    ghost names = { ⟦<Parts as Deserialize>⟧.names };

    fn tls_deserialize<R: Source>(alloc: Global, src: &mut R) -> Result<KeyShareEntry, Error> {
        let (group, key_exchange) = <Parts>::tls_deserialize(alloc, src)?;
        Ok(KeyShareEntry {
            group,
            key_exchange,
        })
    }
}

impl DeserializeBytes for KeyShareEntry {
    ghost names = { ⟦<Parts as DeserializeBytes>⟧.names };

    fn tls_deserialize_bytes(alloc: Global, whole: &[u8]) -> Result<(KeyShareEntry, &[u8]), Error> {
        let ((group, key_exchange), rest) = <Parts>::tls_deserialize_bytes(alloc, whole)?;
        Ok((
            KeyShareEntry {
                group,
                key_exchange,
            },
            rest,
        ))
    }
}

impl Validate for KeyShareEntry {
    ghost places = { ⟦<Parts as Validate>⟧.places };

    fn tls_validate_prefix(whole: &[u8]) -> Result<&[u8], Rejected<'_>> {
        <Parts>::tls_validate_prefix(whole)
    }

    fn tls_width() -> Option<usize> {
        <Parts>::tls_width()
    }
}

impl Parted for KeyShareEntry {
    type Parts = Parts;

    ghost as_parts = { λ bytes is. is };
}

/// The encoding of a [`KeyShareEntry`], split into its fields.
#[derive(Drop)]
pub struct KeyShareEntryView<'a> {
    /// `NamedGroup group;`
    pub group: Encoded<'a, NamedGroup>,
    /// `opaque key_exchange<1..2^16-1>;`
    pub key_exchange: Encoded<'a, TlsByteVec<Within<u16, 1, 65535>>>,
}

impl<'a> From<Encoded<'a, KeyShareEntry>> for KeyShareEntryView<'a> {
    ghost from_gives = { λ whole view. whole ≡ (view.group ++ view.key_exchange) };

    fn from(whole: Encoded<'a, KeyShareEntry>) -> KeyShareEntryView<'a> {
        let (group, key_exchange) = whole.parts().split();
        KeyShareEntryView {
            group,
            key_exchange,
        }
    }
}

/// Two values are equal if and only if all their fields are equal.
pub fn is_compared_by_its_fields()
    ensures { (x y : KeyShareEntry) →
        ⟦<KeyShareEntry as PartialEq>⟧.eq x y
        ≡ (⟦<NamedGroup as PartialEq>⟧.eq x.group y.group
        && ⟦<TlsByteVec<Within<u16, 1, 65535>> as PartialEq>⟧.eq x.key_exchange y.key_exchange) }
{}
