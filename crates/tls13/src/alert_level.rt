//! [`AlertLevel`].
ghost use Rattle.std.specs.Prelude.{◌≡◌, Some, nat_eq, option_map};
ghost use Rattle.std.specs.Ordering.{nat_cmp};
ghost use Rattle.tls_codec.specs.Registries.{listed_name, name_or_number};
ghost use Rattle.tls13.specs.AlertLevel.{alert_level_format, alert_level_meets, alert_level_names, alert_level_plain};
ghost use Rattle.tls13.specs.declared.alert_level.AlertLevel.{AlertLevel};

use std::alloc::Global;
use std::fmt;
use tls_codec::{Deserialize, DeserializeBytes, Error, Serialize, Sink, Size, Source};
use tls_codec_validate::{Rejected, Validate};
use tls_codec_views::{Encoded, Parted, ReadInPlace};

/// `AlertLevel` (RFC 8446, appendix B.2).
#[derive(PartialEq, Eq, PartialOrd, Ord, Hash, Debug, Clone, Copy)]
pub struct AlertLevel(pub u8);

impl AlertLevel {
    /// `warning`
    pub const WARNING: AlertLevel = AlertLevel(1);

    /// `fatal`
    pub const FATAL: AlertLevel = AlertLevel(2);

    /// Its name in the presentation language, if it has one.
    pub fn name(&self) -> Option<&'static str>
        ensures { option_map (λ t. t.now) result ≡ listed_name alert_level_names self.now.0 }
    {
        match self.0 {
            1 => Some("warning"),
            2 => Some("fatal"),
            _ => None,
        }
    }
}

/// Its name, or else its number in hexadecimal, two digits per byte. A width pads only names.
impl fmt::Display for AlertLevel {
    ghost output = { λ v. Some (name_or_number alert_level_names 2 v.0) };

    #[tactic(auto, using(tls_codec::specs::Registries::hexadecimal_digits))]
    fn fmt<W: fmt::Write>(&self, f: &mut fmt::Formatter<W>) -> fmt::Result {
        match self.name() {
            Some(name) => f.pad(name),
            None => write!(f, "0x{:02x}", self.0),
        }
    }
}

/// Its number.
impl From<AlertLevel> for u8 {
    ghost from_gives = { λ v number. number ≡ v.0 };

    fn from(value: AlertLevel) -> u8 {
        value.0
    }
}

/// The value with this number.
impl From<u8> for AlertLevel {
    ghost from_gives = { λ number v. v.0 ≡ number };

    fn from(number: u8) -> AlertLevel {
        AlertLevel(number)
    }
}

impl Size for AlertLevel {
    ghost plain = { alert_level_plain };

    ghost format = { alert_level_format };

    fn tls_serialized_len(&self) -> usize {
        1
    }

    fn tls_fixed_len() -> Option<usize> {
        Some(1)
    }

    ghost lawful = { alert_level_meets };
}

impl Serialize for AlertLevel {
    fn tls_serialize<W: Sink>(&self, writer: &mut W) -> Result<usize, Error> {
        self.0.tls_serialize(writer)
    }

    fn tls_serialize_into(&self, out: &mut Vec<u8>) -> Result<usize, Error> {
        self.0.tls_serialize_into(out)
    }
}

impl Deserialize for AlertLevel {
    ghost names = { ⟦<u8 as Deserialize>⟧.names };

    fn tls_deserialize<R: Source>(alloc: Global, src: &mut R) -> Result<AlertLevel, Error> {
        let number = u8::tls_deserialize(alloc, src)?;
        Ok(AlertLevel(number))
    }
}

impl DeserializeBytes for AlertLevel {
    ghost names = { ⟦<u8 as DeserializeBytes>⟧.names };

    fn tls_deserialize_bytes(alloc: Global, whole: &[u8]) -> Result<(AlertLevel, &[u8]), Error> {
        let (number, rest) = u8::tls_deserialize_bytes(alloc, whole)?;
        Ok((AlertLevel(number), rest))
    }
}

impl Validate for AlertLevel {
    ghost places = { ⟦<u8 as Validate>⟧.places };

    fn tls_validate_prefix(whole: &[u8]) -> Result<&[u8], Rejected<'_>> {
        u8::tls_validate_prefix(whole)
    }

    fn tls_width() -> Option<usize> {
        u8::tls_width()
    }
}

impl Parted for AlertLevel {
    type Parts = u8;

    ghost as_parts = { λ bytes is. is };
}

impl ReadInPlace for AlertLevel {
    fn read(encoded: &Encoded<'_, AlertLevel>) -> AlertLevel {
        AlertLevel(encoded.parts().get())
    }
}

/// Two values are equal if and only if their numbers are equal.
pub fn is_compared_by_its_number()
    ensures { (x y : AlertLevel) →
        ⟦<AlertLevel as PartialEq>⟧.eq x y ≡ nat_eq x.0 y.0 }
{}

/// Values are ordered by their numbers.
pub fn is_ordered_by_its_number()
    ensures { (x y : AlertLevel) →
        ⟦<AlertLevel as Ord>⟧.cmp x y ≡ nat_cmp x.0 y.0 }
{}
