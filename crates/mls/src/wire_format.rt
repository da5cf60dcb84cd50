//! [`WireFormat`].
ghost use Rattle.std.specs.Prelude.{◌≡◌, Some, nat_eq, option_map};
ghost use Rattle.std.specs.Ordering.{nat_cmp};
ghost use Rattle.tls_codec.specs.Registries.{listed_name, name_or_number};
ghost use Rattle.mls.specs.WireFormat.{wire_format_format, wire_format_meets, wire_format_names, wire_format_plain};
ghost use Rattle.mls.specs.declared.wire_format.WireFormat.{WireFormat};

use std::alloc::Global;
use std::fmt;
use tls_codec::{Deserialize, DeserializeBytes, Error, Serialize, Sink, Size, Source};
use tls_codec_validate::{Rejected, Validate};
use tls_codec_views::{Encoded, Parted, ReadInPlace};

/// `WireFormat` (RFC 9420, section 6).
#[derive(PartialEq, Eq, PartialOrd, Ord, Hash, Debug, Clone, Copy)]
pub struct WireFormat(pub u16);

impl WireFormat {
    /// `mls_public_message`
    pub const MLS_PUBLIC_MESSAGE: WireFormat = WireFormat(1);

    /// `mls_private_message`
    pub const MLS_PRIVATE_MESSAGE: WireFormat = WireFormat(2);

    /// `mls_welcome`
    pub const MLS_WELCOME: WireFormat = WireFormat(3);

    /// `mls_group_info`
    pub const MLS_GROUP_INFO: WireFormat = WireFormat(4);

    /// `mls_key_package`
    pub const MLS_KEY_PACKAGE: WireFormat = WireFormat(5);

    /// Its name in the presentation language, if it has one.
    pub fn name(&self) -> Option<&'static str>
        ensures { option_map (λ t. t.now) result ≡ listed_name wire_format_names self.now.0 }
    {
        match self.0 {
            1 => Some("mls_public_message"),
            2 => Some("mls_private_message"),
            3 => Some("mls_welcome"),
            4 => Some("mls_group_info"),
            5 => Some("mls_key_package"),
            _ => None,
        }
    }
}

/// Its name, or else its number in hexadecimal, two digits per byte. A width pads only names.
impl fmt::Display for WireFormat {
    ghost output = { λ v. Some (name_or_number wire_format_names 4 v.0) };

    #[tactic(auto, using(tls_codec::specs::Registries::hexadecimal_digits))]
    fn fmt<W: fmt::Write>(&self, f: &mut fmt::Formatter<W>) -> fmt::Result {
        match self.name() {
            Some(name) => f.pad(name),
            None => write!(f, "0x{:04x}", self.0),
        }
    }
}

/// Its number.
impl From<WireFormat> for u16 {
    ghost from_gives = { λ v number. number ≡ v.0 };

    fn from(value: WireFormat) -> u16 {
        value.0
    }
}

/// The value with this number.
impl From<u16> for WireFormat {
    ghost from_gives = { λ number v. v.0 ≡ number };

    fn from(number: u16) -> WireFormat {
        WireFormat(number)
    }
}

impl Size for WireFormat {
    ghost plain = { wire_format_plain };

    ghost format = { wire_format_format };

    fn tls_serialized_len(&self) -> usize {
        2
    }

    fn tls_fixed_len() -> Option<usize> {
        Some(2)
    }

    ghost lawful = { wire_format_meets };
}

impl Serialize for WireFormat {
    fn tls_serialize<W: Sink>(&self, writer: &mut W) -> Result<usize, Error> {
        self.0.tls_serialize(writer)
    }

    fn tls_serialize_into(&self, out: &mut Vec<u8>) -> Result<usize, Error> {
        self.0.tls_serialize_into(out)
    }
}

impl Deserialize for WireFormat {
    ghost names = { ⟦<u16 as Deserialize>⟧.names };

    fn tls_deserialize<R: Source>(alloc: Global, src: &mut R) -> Result<WireFormat, Error> {
        let number = u16::tls_deserialize(alloc, src)?;
        Ok(WireFormat(number))
    }
}

impl DeserializeBytes for WireFormat {
    ghost names = { ⟦<u16 as DeserializeBytes>⟧.names };

    fn tls_deserialize_bytes(alloc: Global, whole: &[u8]) -> Result<(WireFormat, &[u8]), Error> {
        let (number, rest) = u16::tls_deserialize_bytes(alloc, whole)?;
        Ok((WireFormat(number), rest))
    }
}

impl Validate for WireFormat {
    ghost places = { ⟦<u16 as Validate>⟧.places };

    fn tls_validate_prefix(whole: &[u8]) -> Result<&[u8], Rejected<'_>> {
        u16::tls_validate_prefix(whole)
    }

    fn tls_width() -> Option<usize> {
        u16::tls_width()
    }
}

impl Parted for WireFormat {
    type Parts = u16;

    ghost as_parts = { λ bytes is. is };
}

impl ReadInPlace for WireFormat {
    fn read(encoded: &Encoded<'_, WireFormat>) -> WireFormat {
        WireFormat(encoded.parts().get())
    }
}

/// Two values are equal if and only if their numbers are equal.
pub fn is_compared_by_its_number()
    ensures { (x y : WireFormat) →
        ⟦<WireFormat as PartialEq>⟧.eq x y ≡ nat_eq x.0 y.0 }
{}

/// Values are ordered by their numbers.
pub fn is_ordered_by_its_number()
    ensures { (x y : WireFormat) →
        ⟦<WireFormat as Ord>⟧.cmp x y ≡ nat_cmp x.0 y.0 }
{}
