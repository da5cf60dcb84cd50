//! [`CredentialType`].
ghost use Rattle.std.specs.Prelude.{◌≡◌, Some, nat_eq, option_map};
ghost use Rattle.std.specs.Ordering.{nat_cmp};
ghost use Rattle.tls_codec.specs.Registries.{listed_name, name_or_number};
ghost use Rattle.mls_tree.specs.CredentialType.{credential_type_format, credential_type_meets, credential_type_names, credential_type_plain};
ghost use Rattle.mls_tree.specs.declared.credential_type.CredentialType.{CredentialType};

use std::alloc::Global;
use std::fmt;
use tls_codec::{Deserialize, DeserializeBytes, Error, Serialize, Sink, Size, Source};
use tls_codec_validate::{Rejected, Validate};
use tls_codec_views::{Encoded, Parted, ReadInPlace};

/// `CredentialType` (RFC 9420, section 5.3).
#[derive(PartialEq, Eq, PartialOrd, Ord, Hash, Debug, Clone, Copy)]
pub struct CredentialType(pub u16);

impl CredentialType {
    /// `basic`
    pub const BASIC: CredentialType = CredentialType(1);

    /// `x509`
    pub const X509: CredentialType = CredentialType(2);

    /// Its name in the presentation language, if it has one.
    pub fn name(&self) -> Option<&'static str>
        ensures { option_map (λ t. t.now) result ≡ listed_name credential_type_names self.now.0 }
    {
        match self.0 {
            1 => Some("basic"),
            2 => Some("x509"),
            _ => None,
        }
    }
}

/// Its name, or else its number in hexadecimal, two digits per byte. A width pads only names.
impl fmt::Display for CredentialType {
    ghost output = { λ v. Some (name_or_number credential_type_names 4 v.0) };

    #[tactic(auto, using(tls_codec::specs::Registries::hexadecimal_digits))]
    fn fmt<W: fmt::Write>(&self, f: &mut fmt::Formatter<W>) -> fmt::Result {
        match self.name() {
            Some(name) => f.pad(name),
            None => write!(f, "0x{:04x}", self.0),
        }
    }
}

/// Its number.
impl From<CredentialType> for u16 {
    ghost from_gives = { λ v number. number ≡ v.0 };

    fn from(value: CredentialType) -> u16 {
        value.0
    }
}

/// The value with this number.
impl From<u16> for CredentialType {
    ghost from_gives = { λ number v. v.0 ≡ number };

    fn from(number: u16) -> CredentialType {
        CredentialType(number)
    }
}

impl Size for CredentialType {
    ghost plain = { credential_type_plain };

    ghost format = { credential_type_format };

    fn tls_serialized_len(&self) -> usize {
        2
    }

    fn tls_fixed_len() -> Option<usize> {
        Some(2)
    }

    ghost lawful = { credential_type_meets };
}

impl Serialize for CredentialType {
    fn tls_serialize<W: Sink>(&self, writer: &mut W) -> Result<usize, Error> {
        self.0.tls_serialize(writer)
    }

    fn tls_serialize_into(&self, out: &mut Vec<u8>) -> Result<usize, Error> {
        self.0.tls_serialize_into(out)
    }
}

impl Deserialize for CredentialType {
    ghost names = { ⟦<u16 as Deserialize>⟧.names };

    fn tls_deserialize<R: Source>(alloc: Global, src: &mut R) -> Result<CredentialType, Error> {
        let number = u16::tls_deserialize(alloc, src)?;
        Ok(CredentialType(number))
    }
}

impl DeserializeBytes for CredentialType {
    ghost names = { ⟦<u16 as DeserializeBytes>⟧.names };

    fn tls_deserialize_bytes(
        alloc: Global,
        whole: &[u8],
    ) -> Result<(CredentialType, &[u8]), Error> {
        let (number, rest) = u16::tls_deserialize_bytes(alloc, whole)?;
        Ok((CredentialType(number), rest))
    }
}

impl Validate for CredentialType {
    ghost places = { ⟦<u16 as Validate>⟧.places };

    fn tls_validate_prefix(whole: &[u8]) -> Result<&[u8], Rejected<'_>> {
        u16::tls_validate_prefix(whole)
    }

    fn tls_width() -> Option<usize> {
        u16::tls_width()
    }
}

impl Parted for CredentialType {
    type Parts = u16;

    ghost as_parts = { λ bytes is. is };
}

impl ReadInPlace for CredentialType {
    fn read(encoded: &Encoded<'_, CredentialType>) -> CredentialType {
        CredentialType(encoded.parts().get())
    }
}

/// Two values are equal if and only if their numbers are equal.
pub fn is_compared_by_its_number()
    ensures { (x y : CredentialType) →
        ⟦<CredentialType as PartialEq>⟧.eq x y ≡ nat_eq x.0 y.0 }
{}

/// Values are ordered by their numbers.
pub fn is_ordered_by_its_number()
    ensures { (x y : CredentialType) →
        ⟦<CredentialType as Ord>⟧.cmp x y ≡ nat_cmp x.0 y.0 }
{}
