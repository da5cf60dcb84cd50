//! [`PskKeyExchangeMode`].
ghost use Rattle.std.specs.Prelude.{◌≡◌, Some, nat_eq, option_map};
ghost use Rattle.std.specs.Ordering.{nat_cmp};
ghost use Rattle.tls_codec.specs.Registries.{listed_name, name_or_number};
ghost use Rattle.tls13.specs.PskKeyExchangeMode.{psk_key_exchange_mode_format, psk_key_exchange_mode_meets, psk_key_exchange_mode_names, psk_key_exchange_mode_plain};
ghost use Rattle.tls13.specs.declared.psk_key_exchange_mode.PskKeyExchangeMode.{PskKeyExchangeMode};

use std::alloc::Global;
use std::fmt;
use tls_codec::{Deserialize, DeserializeBytes, Error, Serialize, Sink, Size, Source};
use tls_codec_validate::{Rejected, Validate};
use tls_codec_views::{Encoded, Parted, ReadInPlace};

/// `PskKeyExchangeMode` (RFC 8446, appendix B.3.1).
#[derive(PartialEq, Eq, PartialOrd, Ord, Hash, Debug, Clone, Copy)]
pub struct PskKeyExchangeMode(pub u8);

impl PskKeyExchangeMode {
    /// `psk_ke`
    pub const PSK_KE: PskKeyExchangeMode = PskKeyExchangeMode(0);

    /// `psk_dhe_ke`
    pub const PSK_DHE_KE: PskKeyExchangeMode = PskKeyExchangeMode(1);

    /// Its name in the presentation language, if it has one.
    pub fn name(&self) -> Option<&'static str>
        ensures { option_map (λ t. t.now) result ≡ listed_name psk_key_exchange_mode_names
            self.now.0 }
    {
        match self.0 {
            0 => Some("psk_ke"),
            1 => Some("psk_dhe_ke"),
            _ => None,
        }
    }
}

/// Its name, or else its number in hexadecimal, two digits per byte. A width pads only names.
impl fmt::Display for PskKeyExchangeMode {
    ghost output = { λ v. Some (name_or_number psk_key_exchange_mode_names 2 v.0) };

    #[tactic(auto, using(tls_codec::specs::Registries::hexadecimal_digits))]
    fn fmt<W: fmt::Write>(&self, f: &mut fmt::Formatter<W>) -> fmt::Result {
        match self.name() {
            Some(name) => f.pad(name),
            None => write!(f, "0x{:02x}", self.0),
        }
    }
}

/// Its number.
impl From<PskKeyExchangeMode> for u8 {
    ghost from_gives = { λ v number. number ≡ v.0 };

    fn from(value: PskKeyExchangeMode) -> u8 {
        value.0
    }
}

/// The value with this number.
impl From<u8> for PskKeyExchangeMode {
    ghost from_gives = { λ number v. v.0 ≡ number };

    fn from(number: u8) -> PskKeyExchangeMode {
        PskKeyExchangeMode(number)
    }
}

impl Size for PskKeyExchangeMode {
    ghost plain = { psk_key_exchange_mode_plain };

    ghost format = { psk_key_exchange_mode_format };

    fn tls_serialized_len(&self) -> usize {
        1
    }

    fn tls_fixed_len() -> Option<usize> {
        Some(1)
    }

    ghost lawful = { psk_key_exchange_mode_meets };
}

impl Serialize for PskKeyExchangeMode {
    fn tls_serialize<W: Sink>(&self, writer: &mut W) -> Result<usize, Error> {
        self.0.tls_serialize(writer)
    }

    fn tls_serialize_into(&self, out: &mut Vec<u8>) -> Result<usize, Error> {
        self.0.tls_serialize_into(out)
    }
}

impl Deserialize for PskKeyExchangeMode {
    ghost names = { ⟦<u8 as Deserialize>⟧.names };

    fn tls_deserialize<R: Source>(alloc: Global, src: &mut R) -> Result<PskKeyExchangeMode, Error> {
        let number = u8::tls_deserialize(alloc, src)?;
        Ok(PskKeyExchangeMode(number))
    }
}

impl DeserializeBytes for PskKeyExchangeMode {
    ghost names = { ⟦<u8 as DeserializeBytes>⟧.names };

    fn tls_deserialize_bytes(
        alloc: Global,
        whole: &[u8],
    ) -> Result<(PskKeyExchangeMode, &[u8]), Error> {
        let (number, rest) = u8::tls_deserialize_bytes(alloc, whole)?;
        Ok((PskKeyExchangeMode(number), rest))
    }
}

impl Validate for PskKeyExchangeMode {
    ghost places = { ⟦<u8 as Validate>⟧.places };

    fn tls_validate_prefix(whole: &[u8]) -> Result<&[u8], Rejected<'_>> {
        u8::tls_validate_prefix(whole)
    }

    fn tls_width() -> Option<usize> {
        u8::tls_width()
    }
}

impl Parted for PskKeyExchangeMode {
    type Parts = u8;

    ghost as_parts = { λ bytes is. is };
}

impl ReadInPlace for PskKeyExchangeMode {
    fn read(encoded: &Encoded<'_, PskKeyExchangeMode>) -> PskKeyExchangeMode {
        PskKeyExchangeMode(encoded.parts().get())
    }
}

/// Two values are equal if and only if their numbers are equal.
pub fn is_compared_by_its_number()
    ensures { (x y : PskKeyExchangeMode) →
        ⟦<PskKeyExchangeMode as PartialEq>⟧.eq x y ≡ nat_eq x.0 y.0 }
{}

/// Values are ordered by their numbers.
pub fn is_ordered_by_its_number()
    ensures { (x y : PskKeyExchangeMode) →
        ⟦<PskKeyExchangeMode as Ord>⟧.cmp x y ≡ nat_cmp x.0 y.0 }
{}
