//! [`ProtocolVersion`].
ghost use Rattle.std.specs.Prelude.{◌≡◌, Some, nat_eq, option_map};
ghost use Rattle.std.specs.Ordering.{nat_cmp};
ghost use Rattle.tls_codec.specs.Registries.{listed_name, name_or_number};
ghost use Rattle.mls_tree.specs.ProtocolVersion.{protocol_version_format, protocol_version_meets, protocol_version_names, protocol_version_plain};
ghost use Rattle.mls_tree.specs.declared.protocol_version.ProtocolVersion.{ProtocolVersion};

use std::alloc::Global;
use std::fmt;
use tls_codec::{Deserialize, DeserializeBytes, Error, Serialize, Sink, Size, Source};
use tls_codec_validate::{Rejected, Validate};
use tls_codec_views::{Encoded, Parted, ReadInPlace};

/// `ProtocolVersion` (RFC 9420, section 6).
#[derive(PartialEq, Eq, PartialOrd, Ord, Hash, Debug, Clone, Copy)]
pub struct ProtocolVersion(pub u16);

impl ProtocolVersion {
    /// `mls10`
    pub const MLS10: ProtocolVersion = ProtocolVersion(1);

    /// Its name in the presentation language, if it has one.
    pub fn name(&self) -> Option<&'static str>
        ensures { option_map (λ t. t.now) result ≡ listed_name protocol_version_names self.now.0 }
    {
        match self.0 {
            1 => Some("mls10"),
            _ => None,
        }
    }
}

/// Its name, or else its number in hexadecimal, two digits per byte. A width pads only names.
impl fmt::Display for ProtocolVersion {
    ghost output = { λ v. Some (name_or_number protocol_version_names 4 v.0) };

    #[tactic(auto, using(tls_codec::specs::Registries::hexadecimal_digits))]
    fn fmt<W: fmt::Write>(&self, f: &mut fmt::Formatter<W>) -> fmt::Result {
        match self.name() {
            Some(name) => f.pad(name),
            None => write!(f, "0x{:04x}", self.0),
        }
    }
}

/// Its number.
impl From<ProtocolVersion> for u16 {
    ghost from_gives = { λ v number. number ≡ v.0 };

    fn from(value: ProtocolVersion) -> u16 {
        value.0
    }
}

/// The value with this number.
impl From<u16> for ProtocolVersion {
    ghost from_gives = { λ number v. v.0 ≡ number };

    fn from(number: u16) -> ProtocolVersion {
        ProtocolVersion(number)
    }
}

impl Size for ProtocolVersion {
    ghost plain = { protocol_version_plain };

    ghost format = { protocol_version_format };

    fn tls_serialized_len(&self) -> usize {
        2
    }

    fn tls_fixed_len() -> Option<usize> {
        Some(2)
    }

    ghost lawful = { protocol_version_meets };
}

impl Serialize for ProtocolVersion {
    fn tls_serialize<W: Sink>(&self, writer: &mut W) -> Result<usize, Error> {
        self.0.tls_serialize(writer)
    }

    fn tls_serialize_into(&self, out: &mut Vec<u8>) -> Result<usize, Error> {
        self.0.tls_serialize_into(out)
    }
}

impl Deserialize for ProtocolVersion {
    ghost names = { ⟦<u16 as Deserialize>⟧.names };

    fn tls_deserialize<R: Source>(alloc: Global, src: &mut R) -> Result<ProtocolVersion, Error> {
        let number = u16::tls_deserialize(alloc, src)?;
        Ok(ProtocolVersion(number))
    }
}

impl DeserializeBytes for ProtocolVersion {
    ghost names = { ⟦<u16 as DeserializeBytes>⟧.names };

    fn tls_deserialize_bytes(
        alloc: Global,
        whole: &[u8],
    ) -> Result<(ProtocolVersion, &[u8]), Error> {
        let (number, rest) = u16::tls_deserialize_bytes(alloc, whole)?;
        Ok((ProtocolVersion(number), rest))
    }
}

impl Validate for ProtocolVersion {
    ghost places = { ⟦<u16 as Validate>⟧.places };

    fn tls_validate_prefix(whole: &[u8]) -> Result<&[u8], Rejected<'_>> {
        u16::tls_validate_prefix(whole)
    }

    fn tls_width() -> Option<usize> {
        u16::tls_width()
    }
}

impl Parted for ProtocolVersion {
    type Parts = u16;

    ghost as_parts = { λ bytes is. is };
}

impl ReadInPlace for ProtocolVersion {
    fn read(encoded: &Encoded<'_, ProtocolVersion>) -> ProtocolVersion {
        ProtocolVersion(encoded.parts().get())
    }
}

/// Two values are equal if and only if their numbers are equal.
pub fn is_compared_by_its_number()
    ensures { (x y : ProtocolVersion) →
        ⟦<ProtocolVersion as PartialEq>⟧.eq x y ≡ nat_eq x.0 y.0 }
{}

/// Values are ordered by their numbers.
pub fn is_ordered_by_its_number()
    ensures { (x y : ProtocolVersion) →
        ⟦<ProtocolVersion as Ord>⟧.cmp x y ≡ nat_cmp x.0 y.0 }
{}
