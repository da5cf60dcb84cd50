//! [`NameType`].
ghost use Rattle.std.specs.Prelude.{◌≡◌, Some, nat_eq, option_map};
ghost use Rattle.std.specs.Ordering.{nat_cmp};
ghost use Rattle.tls_codec.specs.Registries.{listed_name, name_or_number};
ghost use Rattle.messages_of_each_shape.specs.NameType.{name_type_format, name_type_meets, name_type_names, name_type_plain, name_type_selected};
ghost use Rattle.messages_of_each_shape.specs.declared.name_type.NameType.{NameType};

use std::alloc::Global;
use std::fmt;
use tls_codec::{Deserialize, DeserializeBytes, Error, Serialize, Sink, Size, Source};
use tls_codec_cases::Selector;
use tls_codec_validate::{FindTag, Keyed, Rejected, TagKeyed, Validate, ValidateKeyed};
use tls_codec_views::{Encoded, Parted, ReadInPlace};

/// `NameType`.
///
/// A registry of one byte: numbers without a name are kept.
#[derive(PartialEq, Eq, PartialOrd, Ord, Hash, Debug, Clone, Copy)]
pub struct NameType(pub u8);

impl NameType {
    /// `host_name`
    pub const HOST_NAME: NameType = NameType(0);

    /// Its name in the presentation language, if it has one.
    pub fn name(&self) -> Option<&'static str>
        ensures { option_map (λ t. t.now) result ≡ listed_name name_type_names self.now.0 }
    {
        match self.0 {
            0 => Some("host_name"),
            _ => None,
        }
    }
}

/// Its name, or else its number in hexadecimal, two digits per byte. A width pads only names.
impl fmt::Display for NameType {
    ghost output = { λ v. Some (name_or_number name_type_names 2 v.0) };

    #[tactic(auto, using(tls_codec::specs::Registries::hexadecimal_digits))]
    fn fmt<W: fmt::Write>(&self, f: &mut fmt::Formatter<W>) -> fmt::Result {
        match self.name() {
            Some(name) => f.pad(name),
            None => write!(f, "0x{:02x}", self.0),
        }
    }
}

/// Its number.
impl From<NameType> for u8 {
    ghost from_gives = { λ v number. number ≡ v.0 };

    fn from(value: NameType) -> u8 {
        value.0
    }
}

/// The value with this number.
impl From<u8> for NameType {
    ghost from_gives = { λ number v. v.0 ≡ number };

    fn from(number: u8) -> NameType {
        NameType(number)
    }
}

impl Size for NameType {
    ghost plain = { name_type_plain };

    ghost format = { name_type_format };

    fn tls_serialized_len(&self) -> usize {
        1
    }

    fn tls_fixed_len() -> Option<usize> {
        Some(1)
    }

    ghost lawful = { name_type_meets };
}

impl Serialize for NameType {
    fn tls_serialize<W: Sink>(&self, writer: &mut W) -> Result<usize, Error> {
        self.0.tls_serialize(writer)
    }

    fn tls_serialize_into(&self, out: &mut Vec<u8>) -> Result<usize, Error> {
        self.0.tls_serialize_into(out)
    }
}

impl Deserialize for NameType {
    ghost names = { ⟦<u8 as Deserialize>⟧.names };

    fn tls_deserialize<R: Source>(alloc: Global, src: &mut R) -> Result<NameType, Error> {
        let number = u8::tls_deserialize(alloc, src)?;
        Ok(NameType(number))
    }
}

impl DeserializeBytes for NameType {
    ghost names = { ⟦<u8 as DeserializeBytes>⟧.names };

    fn tls_deserialize_bytes(alloc: Global, whole: &[u8]) -> Result<(NameType, &[u8]), Error> {
        let (number, rest) = u8::tls_deserialize_bytes(alloc, whole)?;
        Ok((NameType(number), rest))
    }
}

impl Selector for NameType {
    ghost selected = { name_type_selected };

    fn selects(&self) -> u64 {
        let tag = self.0;
        u64::from(tag)
    }
}

impl Validate for NameType {
    ghost places = { ⟦<u8 as Validate>⟧.places };

    fn tls_validate_prefix(whole: &[u8]) -> Result<&[u8], Rejected<'_>> {
        u8::tls_validate_prefix(whole)
    }

    fn tls_width() -> Option<usize> {
        u8::tls_width()
    }
}

impl Parted for NameType {
    type Parts = u8;

    ghost as_parts = { λ bytes is. is };
}

impl ReadInPlace for NameType {
    fn read(encoded: &Encoded<'_, NameType>) -> NameType {
        NameType(encoded.parts().get())
    }
}

impl Keyed for NameType {
    type Key = u64;

    ghost is_key = { λ n c. n ≡ name_type_selected c };

    fn key(&self) -> u64 {
        self.selects()
    }
}

impl TagKeyed for NameType {
    fn tag_of_key(key: &u64) -> u64 {
        *key
    }
}

impl ValidateKeyed for NameType {
    fn tls_validate_keyed(whole: &[u8]) -> Result<(u64, &[u8]), Rejected<'_>> {
        let (tag, rest) = <u8 as FindTag>::find_tag(whole)?;
        Ok((tag, rest))
    }
}

/// Two values are equal if and only if their numbers are equal.
pub fn is_compared_by_its_number()
    ensures { (x y : NameType) →
        ⟦<NameType as PartialEq>⟧.eq x y ≡ nat_eq x.0 y.0 }
{}

/// Values are ordered by their numbers.
pub fn is_ordered_by_its_number()
    ensures { (x y : NameType) →
        ⟦<NameType as Ord>⟧.cmp x y ≡ nat_cmp x.0 y.0 }
{}
