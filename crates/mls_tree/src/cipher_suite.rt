//! [`CipherSuite`].
ghost use Rattle.std.specs.Prelude.{◌≡◌, Some, nat_eq, option_map};
ghost use Rattle.std.specs.Ordering.{nat_cmp};
ghost use Rattle.tls_codec.specs.Registries.{listed_name, name_or_number};
ghost use Rattle.mls_tree.specs.CipherSuite.{cipher_suite_format, cipher_suite_meets, cipher_suite_names, cipher_suite_plain};
ghost use Rattle.mls_tree.specs.declared.cipher_suite.CipherSuite.{CipherSuite};

use std::alloc::Global;
use std::fmt;
use tls_codec::{Deserialize, DeserializeBytes, Error, Serialize, Sink, Size, Source};
use tls_codec_validate::{Rejected, Validate};
use tls_codec_views::{Encoded, Parted, ReadInPlace};

/// `CipherSuite` (RFC 9420, section 5.1).
#[derive(PartialEq, Eq, PartialOrd, Ord, Hash, Debug, Clone, Copy)]
pub struct CipherSuite(pub u16);

impl CipherSuite {
    /// `MLS_128_DHKEMX25519_AES128GCM_SHA256_Ed25519`
    pub const MLS_128_DHKEMX25519_AES128GCM_SHA256_ED25519: CipherSuite = CipherSuite(1);

    /// `MLS_128_DHKEMP256_AES128GCM_SHA256_P256`
    pub const MLS_128_DHKEMP256_AES128GCM_SHA256_P256: CipherSuite = CipherSuite(2);

    /// `MLS_128_DHKEMX25519_CHACHA20POLY1305_SHA256_Ed25519`
    pub const MLS_128_DHKEMX25519_CHACHA20POLY1305_SHA256_ED25519: CipherSuite = CipherSuite(3);

    /// `MLS_256_DHKEMX448_AES256GCM_SHA512_Ed448`
    pub const MLS_256_DHKEMX448_AES256GCM_SHA512_ED448: CipherSuite = CipherSuite(4);

    /// `MLS_256_DHKEMP521_AES256GCM_SHA512_P521`
    pub const MLS_256_DHKEMP521_AES256GCM_SHA512_P521: CipherSuite = CipherSuite(5);

    /// `MLS_256_DHKEMX448_CHACHA20POLY1305_SHA512_Ed448`
    pub const MLS_256_DHKEMX448_CHACHA20POLY1305_SHA512_ED448: CipherSuite = CipherSuite(6);

    /// `MLS_256_DHKEMP384_AES256GCM_SHA384_P384`
    pub const MLS_256_DHKEMP384_AES256GCM_SHA384_P384: CipherSuite = CipherSuite(7);

    /// Its name in the presentation language, if it has one.
    pub fn name(&self) -> Option<&'static str>
        ensures { option_map (λ t. t.now) result ≡ listed_name cipher_suite_names self.now.0 }
    {
        match self.0 {
            1 => Some("MLS_128_DHKEMX25519_AES128GCM_SHA256_Ed25519"),
            2 => Some("MLS_128_DHKEMP256_AES128GCM_SHA256_P256"),
            3 => Some("MLS_128_DHKEMX25519_CHACHA20POLY1305_SHA256_Ed25519"),
            4 => Some("MLS_256_DHKEMX448_AES256GCM_SHA512_Ed448"),
            5 => Some("MLS_256_DHKEMP521_AES256GCM_SHA512_P521"),
            6 => Some("MLS_256_DHKEMX448_CHACHA20POLY1305_SHA512_Ed448"),
            7 => Some("MLS_256_DHKEMP384_AES256GCM_SHA384_P384"),
            _ => None,
        }
    }
}

/// Its name, or else its number in hexadecimal, two digits per byte. A width pads only names.
impl fmt::Display for CipherSuite {
    ghost output = { λ v. Some (name_or_number cipher_suite_names 4 v.0) };

    #[tactic(auto, using(tls_codec::specs::Registries::hexadecimal_digits))]
    fn fmt<W: fmt::Write>(&self, f: &mut fmt::Formatter<W>) -> fmt::Result {
        match self.name() {
            Some(name) => f.pad(name),
            None => write!(f, "0x{:04x}", self.0),
        }
    }
}

/// Its number.
impl From<CipherSuite> for u16 {
    ghost from_gives = { λ v number. number ≡ v.0 };

    fn from(value: CipherSuite) -> u16 {
        value.0
    }
}

/// The value with this number.
impl From<u16> for CipherSuite {
    ghost from_gives = { λ number v. v.0 ≡ number };

    fn from(number: u16) -> CipherSuite {
        CipherSuite(number)
    }
}

impl Size for CipherSuite {
    ghost plain = { cipher_suite_plain };

    ghost format = { cipher_suite_format };

    fn tls_serialized_len(&self) -> usize {
        2
    }

    fn tls_fixed_len() -> Option<usize> {
        Some(2)
    }

    ghost lawful = { cipher_suite_meets };
}

impl Serialize for CipherSuite {
    fn tls_serialize<W: Sink>(&self, writer: &mut W) -> Result<usize, Error> {
        self.0.tls_serialize(writer)
    }

    fn tls_serialize_into(&self, out: &mut Vec<u8>) -> Result<usize, Error> {
        self.0.tls_serialize_into(out)
    }
}

impl Deserialize for CipherSuite {
    ghost names = { ⟦<u16 as Deserialize>⟧.names };

    fn tls_deserialize<R: Source>(alloc: Global, src: &mut R) -> Result<CipherSuite, Error> {
        let number = u16::tls_deserialize(alloc, src)?;
        Ok(CipherSuite(number))
    }
}

impl DeserializeBytes for CipherSuite {
    ghost names = { ⟦<u16 as DeserializeBytes>⟧.names };

    fn tls_deserialize_bytes(alloc: Global, whole: &[u8]) -> Result<(CipherSuite, &[u8]), Error> {
        let (number, rest) = u16::tls_deserialize_bytes(alloc, whole)?;
        Ok((CipherSuite(number), rest))
    }
}

impl Validate for CipherSuite {
    ghost places = { ⟦<u16 as Validate>⟧.places };

    fn tls_validate_prefix(whole: &[u8]) -> Result<&[u8], Rejected<'_>> {
        u16::tls_validate_prefix(whole)
    }

    fn tls_width() -> Option<usize> {
        u16::tls_width()
    }
}

impl Parted for CipherSuite {
    type Parts = u16;

    ghost as_parts = { λ bytes is. is };
}

impl ReadInPlace for CipherSuite {
    fn read(encoded: &Encoded<'_, CipherSuite>) -> CipherSuite {
        CipherSuite(encoded.parts().get())
    }
}

/// Two values are equal if and only if their numbers are equal.
pub fn is_compared_by_its_number()
    ensures { (x y : CipherSuite) →
        ⟦<CipherSuite as PartialEq>⟧.eq x y ≡ nat_eq x.0 y.0 }
{}

/// Values are ordered by their numbers.
pub fn is_ordered_by_its_number()
    ensures { (x y : CipherSuite) →
        ⟦<CipherSuite as Ord>⟧.cmp x y ≡ nat_cmp x.0 y.0 }
{}
