//! [`HashAlgorithm`].
ghost use Rattle.std.specs.Prelude.{◌≡◌, Some, nat_eq, option_map};
ghost use Rattle.std.specs.Ordering.{nat_cmp};
ghost use Rattle.tls_codec.specs.Registries.{listed_name, name_or_number};
ghost use Rattle.ct.specs.HashAlgorithm.{hash_algorithm_format, hash_algorithm_meets, hash_algorithm_names, hash_algorithm_plain};
ghost use Rattle.ct.specs.declared.hash_algorithm.HashAlgorithm.{HashAlgorithm};

use std::alloc::Global;
use std::fmt;
use tls_codec::{Deserialize, DeserializeBytes, Error, Serialize, Sink, Size, Source};
use tls_codec_validate::{Rejected, Validate};
use tls_codec_views::{Encoded, Parted, ReadInPlace};

/// `HashAlgorithm` (RFC 5246, section 7.4.1.4.1).
#[derive(PartialEq, Eq, PartialOrd, Ord, Hash, Debug, Clone, Copy)]
pub struct HashAlgorithm(pub u8);

impl HashAlgorithm {
    /// `none`
    pub const NONE: HashAlgorithm = HashAlgorithm(0);

    /// `md5`
    pub const MD5: HashAlgorithm = HashAlgorithm(1);

    /// `sha1`
    pub const SHA1: HashAlgorithm = HashAlgorithm(2);

    /// `sha224`
    pub const SHA224: HashAlgorithm = HashAlgorithm(3);

    /// `sha256`
    pub const SHA256: HashAlgorithm = HashAlgorithm(4);

    /// `sha384`
    pub const SHA384: HashAlgorithm = HashAlgorithm(5);

    /// `sha512`
    pub const SHA512: HashAlgorithm = HashAlgorithm(6);

    /// Its name in the presentation language, if it has one.
    pub fn name(&self) -> Option<&'static str>
        ensures { option_map (λ t. t.now) result ≡ listed_name hash_algorithm_names self.now.0 }
    {
        match self.0 {
            0 => Some("none"),
            1 => Some("md5"),
            2 => Some("sha1"),
            3 => Some("sha224"),
            4 => Some("sha256"),
            5 => Some("sha384"),
            6 => Some("sha512"),
            _ => None,
        }
    }
}

/// Its name, or else its number in hexadecimal, two digits per byte. A width pads only names.
impl fmt::Display for HashAlgorithm {
    ghost output = { λ v. Some (name_or_number hash_algorithm_names 2 v.0) };

    #[tactic(auto, using(tls_codec::specs::Registries::hexadecimal_digits))]
    fn fmt<W: fmt::Write>(&self, f: &mut fmt::Formatter<W>) -> fmt::Result {
        match self.name() {
            Some(name) => f.pad(name),
            None => write!(f, "0x{:02x}", self.0),
        }
    }
}

/// Its number.
impl From<HashAlgorithm> for u8 {
    ghost from_gives = { λ v number. number ≡ v.0 };

    fn from(value: HashAlgorithm) -> u8 {
        value.0
    }
}

/// The value with this number.
impl From<u8> for HashAlgorithm {
    ghost from_gives = { λ number v. v.0 ≡ number };

    fn from(number: u8) -> HashAlgorithm {
        HashAlgorithm(number)
    }
}

impl Size for HashAlgorithm {
    ghost plain = { hash_algorithm_plain };

    ghost format = { hash_algorithm_format };

    fn tls_serialized_len(&self) -> usize {
        1
    }

    fn tls_fixed_len() -> Option<usize> {
        Some(1)
    }

    ghost lawful = { hash_algorithm_meets };
}

impl Serialize for HashAlgorithm {
    fn tls_serialize<W: Sink>(&self, writer: &mut W) -> Result<usize, Error> {
        self.0.tls_serialize(writer)
    }

    fn tls_serialize_into(&self, out: &mut Vec<u8>) -> Result<usize, Error> {
        self.0.tls_serialize_into(out)
    }
}

impl Deserialize for HashAlgorithm {
    ghost names = { ⟦<u8 as Deserialize>⟧.names };

    fn tls_deserialize<R: Source>(alloc: Global, src: &mut R) -> Result<HashAlgorithm, Error> {
        let number = u8::tls_deserialize(alloc, src)?;
        Ok(HashAlgorithm(number))
    }
}

impl DeserializeBytes for HashAlgorithm {
    ghost names = { ⟦<u8 as DeserializeBytes>⟧.names };

    fn tls_deserialize_bytes(alloc: Global, whole: &[u8]) -> Result<(HashAlgorithm, &[u8]), Error> {
        let (number, rest) = u8::tls_deserialize_bytes(alloc, whole)?;
        Ok((HashAlgorithm(number), rest))
    }
}

impl Validate for HashAlgorithm {
    ghost places = { ⟦<u8 as Validate>⟧.places };

    fn tls_validate_prefix(whole: &[u8]) -> Result<&[u8], Rejected<'_>> {
        u8::tls_validate_prefix(whole)
    }

    fn tls_width() -> Option<usize> {
        u8::tls_width()
    }
}

impl Parted for HashAlgorithm {
    type Parts = u8;

    ghost as_parts = { λ bytes is. is };
}

impl ReadInPlace for HashAlgorithm {
    fn read(encoded: &Encoded<'_, HashAlgorithm>) -> HashAlgorithm {
        HashAlgorithm(encoded.parts().get())
    }
}

/// Two values are equal if and only if their numbers are equal.
pub fn is_compared_by_its_number()
    ensures { (x y : HashAlgorithm) →
        ⟦<HashAlgorithm as PartialEq>⟧.eq x y ≡ nat_eq x.0 y.0 }
{}

/// Values are ordered by their numbers.
pub fn is_ordered_by_its_number()
    ensures { (x y : HashAlgorithm) →
        ⟦<HashAlgorithm as Ord>⟧.cmp x y ≡ nat_cmp x.0 y.0 }
{}
