//! [`ExtensionType`].
ghost use Rattle.std.specs.Prelude.{◌≡◌, Some, nat_eq, option_map};
ghost use Rattle.std.specs.Ordering.{nat_cmp};
ghost use Rattle.tls_codec.specs.Registries.{listed_name, name_or_number};
ghost use Rattle.mls_tree.specs.ExtensionType.{extension_type_format, extension_type_meets, extension_type_names, extension_type_plain};
ghost use Rattle.mls_tree.specs.declared.extension_type.ExtensionType.{ExtensionType};

use std::alloc::Global;
use std::fmt;
use tls_codec::{Deserialize, DeserializeBytes, Error, Serialize, Sink, Size, Source};
use tls_codec_validate::{Rejected, Validate};
use tls_codec_views::{Encoded, Parted, ReadInPlace};

/// `ExtensionType` (RFC 9420, section 17.3).
#[derive(PartialEq, Eq, PartialOrd, Ord, Hash, Debug, Clone, Copy)]
pub struct ExtensionType(pub u16);

impl ExtensionType {
    /// `application_id`
    pub const APPLICATION_ID: ExtensionType = ExtensionType(1);

    /// `ratchet_tree`
    pub const RATCHET_TREE: ExtensionType = ExtensionType(2);

    /// `required_capabilities`
    pub const REQUIRED_CAPABILITIES: ExtensionType = ExtensionType(3);

    /// `external_pub`
    pub const EXTERNAL_PUB: ExtensionType = ExtensionType(4);

    /// `external_senders`
    pub const EXTERNAL_SENDERS: ExtensionType = ExtensionType(5);

    /// Its name in the presentation language, if it has one.
    pub fn name(&self) -> Option<&'static str>
        ensures { option_map (λ t. t.now) result ≡ listed_name extension_type_names self.now.0 }
    {
        match self.0 {
            1 => Some("application_id"),
            2 => Some("ratchet_tree"),
            3 => Some("required_capabilities"),
            4 => Some("external_pub"),
            5 => Some("external_senders"),
            _ => None,
        }
    }
}

/// Its name, or else its number in hexadecimal, two digits per byte. A width pads only names.
impl fmt::Display for ExtensionType {
    ghost output = { λ v. Some (name_or_number extension_type_names 4 v.0) };

    #[tactic(auto, using(tls_codec::specs::Registries::hexadecimal_digits))]
    fn fmt<W: fmt::Write>(&self, f: &mut fmt::Formatter<W>) -> fmt::Result {
        match self.name() {
            Some(name) => f.pad(name),
            None => write!(f, "0x{:04x}", self.0),
        }
    }
}

/// Its number.
impl From<ExtensionType> for u16 {
    ghost from_gives = { λ v number. number ≡ v.0 };

    fn from(value: ExtensionType) -> u16 {
        value.0
    }
}

/// The value with this number.
impl From<u16> for ExtensionType {
    ghost from_gives = { λ number v. v.0 ≡ number };

    fn from(number: u16) -> ExtensionType {
        ExtensionType(number)
    }
}

impl Size for ExtensionType {
    ghost plain = { extension_type_plain };

    ghost format = { extension_type_format };

    fn tls_serialized_len(&self) -> usize {
        2
    }

    fn tls_fixed_len() -> Option<usize> {
        Some(2)
    }

    ghost lawful = { extension_type_meets };
}

impl Serialize for ExtensionType {
    fn tls_serialize<W: Sink>(&self, writer: &mut W) -> Result<usize, Error> {
        self.0.tls_serialize(writer)
    }

    fn tls_serialize_into(&self, out: &mut Vec<u8>) -> Result<usize, Error> {
        self.0.tls_serialize_into(out)
    }
}

impl Deserialize for ExtensionType {
    ghost names = { ⟦<u16 as Deserialize>⟧.names };

    fn tls_deserialize<R: Source>(alloc: Global, src: &mut R) -> Result<ExtensionType, Error> {
        let number = u16::tls_deserialize(alloc, src)?;
        Ok(ExtensionType(number))
    }
}

impl DeserializeBytes for ExtensionType {
    ghost names = { ⟦<u16 as DeserializeBytes>⟧.names };

    fn tls_deserialize_bytes(alloc: Global, whole: &[u8]) -> Result<(ExtensionType, &[u8]), Error> {
        let (number, rest) = u16::tls_deserialize_bytes(alloc, whole)?;
        Ok((ExtensionType(number), rest))
    }
}

impl Validate for ExtensionType {
    ghost places = { ⟦<u16 as Validate>⟧.places };

    fn tls_validate_prefix(whole: &[u8]) -> Result<&[u8], Rejected<'_>> {
        u16::tls_validate_prefix(whole)
    }

    fn tls_width() -> Option<usize> {
        u16::tls_width()
    }
}

impl Parted for ExtensionType {
    type Parts = u16;

    ghost as_parts = { λ bytes is. is };
}

impl ReadInPlace for ExtensionType {
    fn read(encoded: &Encoded<'_, ExtensionType>) -> ExtensionType {
        ExtensionType(encoded.parts().get())
    }
}

/// Two values are equal if and only if their numbers are equal.
pub fn is_compared_by_its_number()
    ensures { (x y : ExtensionType) →
        ⟦<ExtensionType as PartialEq>⟧.eq x y ≡ nat_eq x.0 y.0 }
{}

/// Values are ordered by their numbers.
pub fn is_ordered_by_its_number()
    ensures { (x y : ExtensionType) →
        ⟦<ExtensionType as Ord>⟧.cmp x y ≡ nat_cmp x.0 y.0 }
{}
