//! [`SignatureScheme`].
ghost use Rattle.std.specs.Prelude.{◌≡◌, Some, nat_eq, option_map};
ghost use Rattle.std.specs.Ordering.{nat_cmp};
ghost use Rattle.tls_codec.specs.Registries.{listed_name, name_or_number};
ghost use Rattle.tls13.specs.SignatureScheme.{signature_scheme_format, signature_scheme_meets, signature_scheme_names, signature_scheme_plain};
ghost use Rattle.tls13.specs.declared.signature_scheme.SignatureScheme.{SignatureScheme};

use std::alloc::Global;
use std::fmt;
use tls_codec::{Deserialize, DeserializeBytes, Error, Serialize, Sink, Size, Source};
use tls_codec_validate::{Rejected, Validate};
use tls_codec_views::{Encoded, Parted, ReadInPlace};

/// `SignatureScheme` (RFC 8446, appendix B.3.1.3).
#[derive(PartialEq, Eq, PartialOrd, Ord, Hash, Debug, Clone, Copy)]
pub struct SignatureScheme(pub u16);

impl SignatureScheme {
    /// `rsa_pkcs1_sha256`
    /// RSASSA-PKCS1-v1_5 algorithms
    pub const RSA_PKCS1_SHA256: SignatureScheme = SignatureScheme(1025);

    /// `rsa_pkcs1_sha384`
    pub const RSA_PKCS1_SHA384: SignatureScheme = SignatureScheme(1281);

    /// `rsa_pkcs1_sha512`
    pub const RSA_PKCS1_SHA512: SignatureScheme = SignatureScheme(1537);

    /// `ecdsa_secp256r1_sha256`
    /// ECDSA algorithms
    pub const ECDSA_SECP256R1_SHA256: SignatureScheme = SignatureScheme(1027);

    /// `ecdsa_secp384r1_sha384`
    pub const ECDSA_SECP384R1_SHA384: SignatureScheme = SignatureScheme(1283);

    /// `ecdsa_secp521r1_sha512`
    pub const ECDSA_SECP521R1_SHA512: SignatureScheme = SignatureScheme(1539);

    /// `rsa_pss_rsae_sha256`
    /// RSASSA-PSS algorithms with public key OID rsaEncryption
    pub const RSA_PSS_RSAE_SHA256: SignatureScheme = SignatureScheme(2052);

    /// `rsa_pss_rsae_sha384`
    pub const RSA_PSS_RSAE_SHA384: SignatureScheme = SignatureScheme(2053);

    /// `rsa_pss_rsae_sha512`
    pub const RSA_PSS_RSAE_SHA512: SignatureScheme = SignatureScheme(2054);

    /// `ed25519`
    /// EdDSA algorithms
    pub const ED25519: SignatureScheme = SignatureScheme(2055);

    /// `ed448`
    pub const ED448: SignatureScheme = SignatureScheme(2056);

    /// `rsa_pss_pss_sha256`
    /// RSASSA-PSS algorithms with public key OID RSASSA-PSS
    pub const RSA_PSS_PSS_SHA256: SignatureScheme = SignatureScheme(2057);

    /// `rsa_pss_pss_sha384`
    pub const RSA_PSS_PSS_SHA384: SignatureScheme = SignatureScheme(2058);

    /// `rsa_pss_pss_sha512`
    pub const RSA_PSS_PSS_SHA512: SignatureScheme = SignatureScheme(2059);

    /// `rsa_pkcs1_sha1`
    /// Legacy algorithms
    pub const RSA_PKCS1_SHA1: SignatureScheme = SignatureScheme(513);

    /// `ecdsa_sha1`
    pub const ECDSA_SHA1: SignatureScheme = SignatureScheme(515);

    /// `dsa_sha1_RESERVED`
    pub const DSA_SHA1_RESERVED: SignatureScheme = SignatureScheme(514);

    /// `dsa_sha256_RESERVED`
    pub const DSA_SHA256_RESERVED: SignatureScheme = SignatureScheme(1026);

    /// `dsa_sha384_RESERVED`
    pub const DSA_SHA384_RESERVED: SignatureScheme = SignatureScheme(1282);

    /// `dsa_sha512_RESERVED`
    pub const DSA_SHA512_RESERVED: SignatureScheme = SignatureScheme(1538);

    /// Its name in the presentation language, if it has one.
    pub fn name(&self) -> Option<&'static str>
        ensures { option_map (λ t. t.now) result ≡ listed_name signature_scheme_names self.now.0 }
    {
        match self.0 {
            1025 => Some("rsa_pkcs1_sha256"),
            1281 => Some("rsa_pkcs1_sha384"),
            1537 => Some("rsa_pkcs1_sha512"),
            1027 => Some("ecdsa_secp256r1_sha256"),
            1283 => Some("ecdsa_secp384r1_sha384"),
            1539 => Some("ecdsa_secp521r1_sha512"),
            2052 => Some("rsa_pss_rsae_sha256"),
            2053 => Some("rsa_pss_rsae_sha384"),
            2054 => Some("rsa_pss_rsae_sha512"),
            2055 => Some("ed25519"),
            2056 => Some("ed448"),
            2057 => Some("rsa_pss_pss_sha256"),
            2058 => Some("rsa_pss_pss_sha384"),
            2059 => Some("rsa_pss_pss_sha512"),
            513 => Some("rsa_pkcs1_sha1"),
            515 => Some("ecdsa_sha1"),
            514 => Some("dsa_sha1_RESERVED"),
            1026 => Some("dsa_sha256_RESERVED"),
            1282 => Some("dsa_sha384_RESERVED"),
            1538 => Some("dsa_sha512_RESERVED"),
            _ => None,
        }
    }
}

/// Its name, or else its number in hexadecimal, two digits per byte. A width pads only names.
impl fmt::Display for SignatureScheme {
    ghost output = { λ v. Some (name_or_number signature_scheme_names 4 v.0) };

    #[tactic(auto, using(tls_codec::specs::Registries::hexadecimal_digits))]
    fn fmt<W: fmt::Write>(&self, f: &mut fmt::Formatter<W>) -> fmt::Result {
        match self.name() {
            Some(name) => f.pad(name),
            None => write!(f, "0x{:04x}", self.0),
        }
    }
}

/// Its number.
impl From<SignatureScheme> for u16 {
    ghost from_gives = { λ v number. number ≡ v.0 };

    fn from(value: SignatureScheme) -> u16 {
        value.0
    }
}

/// The value with this number.
impl From<u16> for SignatureScheme {
    ghost from_gives = { λ number v. v.0 ≡ number };

    fn from(number: u16) -> SignatureScheme {
        SignatureScheme(number)
    }
}

impl Size for SignatureScheme {
    ghost plain = { signature_scheme_plain };

    ghost format = { signature_scheme_format };

    fn tls_serialized_len(&self) -> usize {
        2
    }

    fn tls_fixed_len() -> Option<usize> {
        Some(2)
    }

    ghost lawful = { signature_scheme_meets };
}

impl Serialize for SignatureScheme {
    fn tls_serialize<W: Sink>(&self, writer: &mut W) -> Result<usize, Error> {
        self.0.tls_serialize(writer)
    }

    fn tls_serialize_into(&self, out: &mut Vec<u8>) -> Result<usize, Error> {
        self.0.tls_serialize_into(out)
    }
}

impl Deserialize for SignatureScheme {
    ghost names = { ⟦<u16 as Deserialize>⟧.names };

    fn tls_deserialize<R: Source>(alloc: Global, src: &mut R) -> Result<SignatureScheme, Error> {
        let number = u16::tls_deserialize(alloc, src)?;
        Ok(SignatureScheme(number))
    }
}

impl DeserializeBytes for SignatureScheme {
    ghost names = { ⟦<u16 as DeserializeBytes>⟧.names };

    fn tls_deserialize_bytes(
        alloc: Global,
        whole: &[u8],
    ) -> Result<(SignatureScheme, &[u8]), Error> {
        let (number, rest) = u16::tls_deserialize_bytes(alloc, whole)?;
        Ok((SignatureScheme(number), rest))
    }
}

impl Validate for SignatureScheme {
    ghost places = { ⟦<u16 as Validate>⟧.places };

    fn tls_validate_prefix(whole: &[u8]) -> Result<&[u8], Rejected<'_>> {
        u16::tls_validate_prefix(whole)
    }

    fn tls_width() -> Option<usize> {
        u16::tls_width()
    }
}

impl Parted for SignatureScheme {
    type Parts = u16;

    ghost as_parts = { λ bytes is. is };
}

impl ReadInPlace for SignatureScheme {
    fn read(encoded: &Encoded<'_, SignatureScheme>) -> SignatureScheme {
        SignatureScheme(encoded.parts().get())
    }
}

/// Two values are equal if and only if their numbers are equal.
pub fn is_compared_by_its_number()
    ensures { (x y : SignatureScheme) →
        ⟦<SignatureScheme as PartialEq>⟧.eq x y ≡ nat_eq x.0 y.0 }
{}

/// Values are ordered by their numbers.
pub fn is_ordered_by_its_number()
    ensures { (x y : SignatureScheme) →
        ⟦<SignatureScheme as Ord>⟧.cmp x y ≡ nat_cmp x.0 y.0 }
{}
