//! [`Named`].
ghost use Rattle.std.specs.Prelude.{◌≡◌, ◌&&◌, ◌++◌};
ghost use Rattle.messages_of_each_shape.specs.Named.{named_format, named_meets, named_plain};
ghost use Rattle.messages_of_each_shape.specs.declared.named.Named.{Named};
ghost use Rattle.messages_of_each_shape.specs.Named.{named_name_type};

use crate::NameType;
use std::alloc::Global;
use tls_codec::{ByRef, Deserialize, DeserializeBytes, Error, Serialize, Sink, Size, Source};
use tls_codec_cases::{Holds, Selector, append_as};
use tls_codec_validate::{HoldsKey, Keyed, Keyless, Rejected, Validate, ValidateKeyed};
use tls_codec_views::{Encoded, Parted};

/// `Named`.
#[derive(PartialEq, Eq, Debug, Clone, Drop)]
pub struct Named {
    /// `uint8 before;`
    pub before: u8,
    /// `NameType name_type;`
    pub name_type: NameType,
}

type Parts = (u8, NameType);

impl Size for Named {
    ghost plain = { named_plain };

    ghost format = { named_format };

    fn tls_serialized_len(&self) -> usize {
        (ByRef(&self.before), ByRef(&self.name_type)).tls_serialized_len()
    }

    ghost lawful = { named_meets };
}

impl Serialize for Named {
    fn tls_serialize<W: Sink>(&self, writer: &mut W) -> Result<usize, Error> {
        (ByRef(&self.before), ByRef(&self.name_type)).tls_serialize(writer)
    }

    fn tls_serialize_into(&self, out: &mut Vec<u8>) -> Result<usize, Error> {
        append_as(self, &(ByRef(&self.before), ByRef(&self.name_type)), out)
    }
}

impl Deserialize for Named {
    ghost names = { ⟦<Parts as Deserialize>⟧.names };

    fn tls_deserialize<R: Source>(alloc: Global, src: &mut R) -> Result<Named, Error> {
        let (before, name_type) = <Parts>::tls_deserialize(alloc, src)?;
        Ok(Named { before, name_type })
    }
}

impl DeserializeBytes for Named {
    ghost names = { ⟦<Parts as DeserializeBytes>⟧.names };

    fn tls_deserialize_bytes(alloc: Global, whole: &[u8]) -> Result<(Named, &[u8]), Error> {
        let ((before, name_type), rest) = <Parts>::tls_deserialize_bytes(alloc, whole)?;
        Ok((Named { before, name_type }, rest))
    }
}

impl Validate for Named {
    ghost places = { ⟦<Parts as Validate>⟧.places };

    fn tls_validate_prefix(whole: &[u8]) -> Result<&[u8], Rejected<'_>> {
        <Parts>::tls_validate_prefix(whole)
    }

    fn tls_width() -> Option<usize> {
        <Parts>::tls_width()
    }
}

impl Parted for Named {
    type Parts = Parts;

    ghost as_parts = { λ bytes is. is };
}

/// The encoding of a [`Named`], split into its fields.
#[derive(Drop)]
pub struct NamedView<'a> {
    /// `uint8 before;`
    pub before: Encoded<'a, u8>,
    /// `NameType name_type;`
    pub name_type: Encoded<'a, NameType>,
}

impl<'a> From<Encoded<'a, Named>> for NamedView<'a> {
    ghost from_gives = { λ whole view. whole ≡ (view.before ++ view.name_type) };

    fn from(whole: Encoded<'a, Named>) -> NamedView<'a> {
        let (before, name_type) = whole.parts().split();
        NamedView { before, name_type }
    }
}

impl Holds<NameType> for Named {
    ghost held = { named_name_type };

    fn held(&self) -> NameType {
        self.name_type
    }
}

impl Keyed for Named {
    type Key = u64;

    ghost is_key = { λ key c. (key ≡ ⟦<NameType as Selector>⟧.selected (named_name_type c)) };

    fn key(&self) -> u64 {
        <Named as Holds<NameType>>::held(self).selects()
    }
}

impl HoldsKey<NameType> for Named {
    fn held_key(key: &u64) -> u64 {
        *key
    }
}

type KeyedParts = (Keyless<u8>, NameType);

impl ValidateKeyed for Named {
    fn tls_validate_keyed(whole: &[u8]) -> Result<(u64, &[u8]), Rejected<'_>> {
        let ((_, name_type), rest) = <KeyedParts>::tls_validate_keyed(whole)?;
        Ok((name_type, rest))
    }
}

/// Two values are equal if and only if all their fields are equal.
pub fn is_compared_by_its_fields()
    ensures { (x y : Named) →
        ⟦<Named as PartialEq>⟧.eq x y
        ≡ (⟦<u8 as PartialEq>⟧.eq x.before y.before
        && ⟦<NameType as PartialEq>⟧.eq x.name_type y.name_type) }
{}
