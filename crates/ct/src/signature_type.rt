//! [`SignatureType`].
ghost use Rattle.std.specs.Prelude.{◌≡◌, Some, nat_eq, option_map};
ghost use Rattle.std.specs.Ordering.{nat_cmp};
ghost use Rattle.tls_codec.specs.Registries.{listed_name, name_or_number};
ghost use Rattle.ct.specs.SignatureType.{signature_type_format, signature_type_meets, signature_type_names, signature_type_plain};
ghost use Rattle.ct.specs.declared.signature_type.SignatureType.{SignatureType};

use std::alloc::Global;
use std::fmt;
use tls_codec::{Deserialize, DeserializeBytes, Error, Serialize, Sink, Size, Source};
use tls_codec_validate::{Rejected, Validate};
use tls_codec_views::{Encoded, Parted, ReadInPlace};

/// `SignatureType` (RFC 6962, section 3.2).
#[derive(PartialEq, Eq, PartialOrd, Ord, Hash, Debug, Clone, Copy)]
pub struct SignatureType(pub u8);

impl SignatureType {
    /// `certificate_timestamp`
    pub const CERTIFICATE_TIMESTAMP: SignatureType = SignatureType(0);

    /// `tree_hash`
    pub const TREE_HASH: SignatureType = SignatureType(1);

    /// Its name in the presentation language, if it has one.
    pub fn name(&self) -> Option<&'static str>
        ensures { option_map (λ t. t.now) result ≡ listed_name signature_type_names self.now.0 }
    {
        match self.0 {
            0 => Some("certificate_timestamp"),
            1 => Some("tree_hash"),
            _ => None,
        }
    }
}

/// Its name, or else its number in hexadecimal, two digits per byte. A width pads only names.
impl fmt::Display for SignatureType {
    ghost output = { λ v. Some (name_or_number signature_type_names 2 v.0) };

    #[tactic(auto, using(tls_codec::specs::Registries::hexadecimal_digits))]
    fn fmt<W: fmt::Write>(&self, f: &mut fmt::Formatter<W>) -> fmt::Result {
        match self.name() {
            Some(name) => f.pad(name),
            None => write!(f, "0x{:02x}", self.0),
        }
    }
}

/// Its number.
impl From<SignatureType> for u8 {
    ghost from_gives = { λ v number. number ≡ v.0 };

    fn from(value: SignatureType) -> u8 {
        value.0
    }
}

/// The value with this number.
impl From<u8> for SignatureType {
    ghost from_gives = { λ number v. v.0 ≡ number };

    fn from(number: u8) -> SignatureType {
        SignatureType(number)
    }
}

impl Size for SignatureType {
    ghost plain = { signature_type_plain };

    ghost format = { signature_type_format };

    fn tls_serialized_len(&self) -> usize {
        1
    }

    fn tls_fixed_len() -> Option<usize> {
        Some(1)
    }

    ghost lawful = { signature_type_meets };
}

impl Serialize for SignatureType {
    fn tls_serialize<W: Sink>(&self, writer: &mut W) -> Result<usize, Error> {
        self.0.tls_serialize(writer)
    }

    fn tls_serialize_into(&self, out: &mut Vec<u8>) -> Result<usize, Error> {
        self.0.tls_serialize_into(out)
    }
}

impl Deserialize for SignatureType {
    ghost names = { ⟦<u8 as Deserialize>⟧.names };

    fn tls_deserialize<R: Source>(alloc: Global, src: &mut R) -> Result<SignatureType, Error> {
        let number = u8::tls_deserialize(alloc, src)?;
        Ok(SignatureType(number))
    }
}

impl DeserializeBytes for SignatureType {
    ghost names = { ⟦<u8 as DeserializeBytes>⟧.names };

    fn tls_deserialize_bytes(alloc: Global, whole: &[u8]) -> Result<(SignatureType, &[u8]), Error> {
        let (number, rest) = u8::tls_deserialize_bytes(alloc, whole)?;
        Ok((SignatureType(number), rest))
    }
}

impl Validate for SignatureType {
    ghost places = { ⟦<u8 as Validate>⟧.places };

    fn tls_validate_prefix(whole: &[u8]) -> Result<&[u8], Rejected<'_>> {
        u8::tls_validate_prefix(whole)
    }

    fn tls_width() -> Option<usize> {
        u8::tls_width()
    }
}

impl Parted for SignatureType {
    type Parts = u8;

    ghost as_parts = { λ bytes is. is };
}

impl ReadInPlace for SignatureType {
    fn read(encoded: &Encoded<'_, SignatureType>) -> SignatureType {
        SignatureType(encoded.parts().get())
    }
}

/// Two values are equal if and only if their numbers are equal.
pub fn is_compared_by_its_number()
    ensures { (x y : SignatureType) →
        ⟦<SignatureType as PartialEq>⟧.eq x y ≡ nat_eq x.0 y.0 }
{}

/// Values are ordered by their numbers.
pub fn is_ordered_by_its_number()
    ensures { (x y : SignatureType) →
        ⟦<SignatureType as Ord>⟧.cmp x y ≡ nat_cmp x.0 y.0 }
{}
