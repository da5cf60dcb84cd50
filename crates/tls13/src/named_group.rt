//! [`NamedGroup`].
ghost use Rattle.std.specs.Prelude.{◌≡◌, Some, nat_eq, option_map};
ghost use Rattle.std.specs.Ordering.{nat_cmp};
ghost use Rattle.tls_codec.specs.Registries.{listed_name, name_or_number};
ghost use Rattle.tls13.specs.NamedGroup.{named_group_format, named_group_meets, named_group_names, named_group_plain};
ghost use Rattle.tls13.specs.declared.named_group.NamedGroup.{NamedGroup};

use std::alloc::Global;
use std::fmt;
use tls_codec::{Deserialize, DeserializeBytes, Error, Serialize, Sink, Size, Source};
use tls_codec_validate::{Rejected, Validate};
use tls_codec_views::{Encoded, Parted, ReadInPlace};

/// `NamedGroup` (RFC 8446, appendix B.3.1.4).
#[derive(PartialEq, Eq, PartialOrd, Ord, Hash, Debug, Clone, Copy)]
pub struct NamedGroup(pub u16);

impl NamedGroup {
    /// `unallocated_RESERVED`
    pub const UNALLOCATED_RESERVED: NamedGroup = NamedGroup(0);

    /// `secp256r1`
    pub const SECP256R1: NamedGroup = NamedGroup(23);

    /// `secp384r1`
    pub const SECP384R1: NamedGroup = NamedGroup(24);

    /// `secp521r1`
    pub const SECP521R1: NamedGroup = NamedGroup(25);

    /// `x25519`
    pub const X25519: NamedGroup = NamedGroup(29);

    /// `x448`
    pub const X448: NamedGroup = NamedGroup(30);

    /// `ffdhe2048`
    /// Finite Field Groups (DHE)
    pub const FFDHE2048: NamedGroup = NamedGroup(256);

    /// `ffdhe3072`
    pub const FFDHE3072: NamedGroup = NamedGroup(257);

    /// `ffdhe4096`
    pub const FFDHE4096: NamedGroup = NamedGroup(258);

    /// `ffdhe6144`
    pub const FFDHE6144: NamedGroup = NamedGroup(259);

    /// `ffdhe8192`
    pub const FFDHE8192: NamedGroup = NamedGroup(260);

    /// Its name in the presentation language, if it has one.
    pub fn name(&self) -> Option<&'static str>
        ensures { option_map (λ t. t.now) result ≡ listed_name named_group_names self.now.0 }
    {
        match self.0 {
            0 => Some("unallocated_RESERVED"),
            23 => Some("secp256r1"),
            24 => Some("secp384r1"),
            25 => Some("secp521r1"),
            29 => Some("x25519"),
            30 => Some("x448"),
            256 => Some("ffdhe2048"),
            257 => Some("ffdhe3072"),
            258 => Some("ffdhe4096"),
            259 => Some("ffdhe6144"),
            260 => Some("ffdhe8192"),
            _ => None,
        }
    }
}

/// Its name, or else its number in hexadecimal, two digits per byte. A width pads only names.
impl fmt::Display for NamedGroup {
    ghost output = { λ v. Some (name_or_number named_group_names 4 v.0) };

    #[tactic(auto, using(tls_codec::specs::Registries::hexadecimal_digits))]
    fn fmt<W: fmt::Write>(&self, f: &mut fmt::Formatter<W>) -> fmt::Result {
        match self.name() {
            Some(name) => f.pad(name),
            None => write!(f, "0x{:04x}", self.0),
        }
    }
}

/// Its number.
impl From<NamedGroup> for u16 {
    ghost from_gives = { λ v number. number ≡ v.0 };

    fn from(value: NamedGroup) -> u16 {
        value.0
    }
}

/// The value with this number.
impl From<u16> for NamedGroup {
    ghost from_gives = { λ number v. v.0 ≡ number };

    fn from(number: u16) -> NamedGroup {
        NamedGroup(number)
    }
}

impl Size for NamedGroup {
    ghost plain = { named_group_plain };

    ghost format = { named_group_format };

    fn tls_serialized_len(&self) -> usize {
        2
    }

    fn tls_fixed_len() -> Option<usize> {
        Some(2)
    }

    ghost lawful = { named_group_meets };
}

impl Serialize for NamedGroup {
    fn tls_serialize<W: Sink>(&self, writer: &mut W) -> Result<usize, Error> {
        self.0.tls_serialize(writer)
    }

    fn tls_serialize_into(&self, out: &mut Vec<u8>) -> Result<usize, Error> {
        self.0.tls_serialize_into(out)
    }
}

impl Deserialize for NamedGroup {
    ghost names = { ⟦<u16 as Deserialize>⟧.names };

    fn tls_deserialize<R: Source>(alloc: Global, src: &mut R) -> Result<NamedGroup, Error> {
        let number = u16::tls_deserialize(alloc, src)?;
        Ok(NamedGroup(number))
    }
}

impl DeserializeBytes for NamedGroup {
    ghost names = { ⟦<u16 as DeserializeBytes>⟧.names };

    fn tls_deserialize_bytes(alloc: Global, whole: &[u8]) -> Result<(NamedGroup, &[u8]), Error> {
        let (number, rest) = u16::tls_deserialize_bytes(alloc, whole)?;
        Ok((NamedGroup(number), rest))
    }
}

impl Validate for NamedGroup {
    ghost places = { ⟦<u16 as Validate>⟧.places };

    fn tls_validate_prefix(whole: &[u8]) -> Result<&[u8], Rejected<'_>> {
        u16::tls_validate_prefix(whole)
    }

    fn tls_width() -> Option<usize> {
        u16::tls_width()
    }
}

impl Parted for NamedGroup {
    type Parts = u16;

    ghost as_parts = { λ bytes is. is };
}

impl ReadInPlace for NamedGroup {
    fn read(encoded: &Encoded<'_, NamedGroup>) -> NamedGroup {
        NamedGroup(encoded.parts().get())
    }
}

/// Two values are equal if and only if their numbers are equal.
pub fn is_compared_by_its_number()
    ensures { (x y : NamedGroup) →
        ⟦<NamedGroup as PartialEq>⟧.eq x y ≡ nat_eq x.0 y.0 }
{}

/// Values are ordered by their numbers.
pub fn is_ordered_by_its_number()
    ensures { (x y : NamedGroup) →
        ⟦<NamedGroup as Ord>⟧.cmp x y ≡ nat_cmp x.0 y.0 }
{}
