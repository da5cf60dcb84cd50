//! [`ExtensionType`].
ghost use Rattle.std.specs.Prelude.{◌≡◌, Some, nat_eq, option_map};
ghost use Rattle.std.specs.Ordering.{nat_cmp};
ghost use Rattle.tls_codec.specs.Registries.{listed_name, name_or_number};
ghost use Rattle.tls13.specs.ExtensionType.{extension_type_format, extension_type_meets, extension_type_names, extension_type_plain};
ghost use Rattle.tls13.specs.declared.extension_type.ExtensionType.{ExtensionType};

use std::alloc::Global;
use std::fmt;
use tls_codec::{Deserialize, DeserializeBytes, Error, Serialize, Sink, Size, Source};
use tls_codec_validate::{Rejected, Validate};
use tls_codec_views::{Encoded, Parted, ReadInPlace};

/// `ExtensionType` (RFC 8446, appendix B.3.1).
#[derive(PartialEq, Eq, PartialOrd, Ord, Hash, Debug, Clone, Copy)]
pub struct ExtensionType(pub u16);

impl ExtensionType {
    /// `server_name`
    /// RFC 6066
    pub const SERVER_NAME: ExtensionType = ExtensionType(0);

    /// `max_fragment_length`
    /// RFC 6066
    pub const MAX_FRAGMENT_LENGTH: ExtensionType = ExtensionType(1);

    /// `status_request`
    /// RFC 6066
    pub const STATUS_REQUEST: ExtensionType = ExtensionType(5);

    /// `supported_groups`
    /// RFC 8422, 7919
    pub const SUPPORTED_GROUPS: ExtensionType = ExtensionType(10);

    /// `signature_algorithms`
    /// RFC 8446
    pub const SIGNATURE_ALGORITHMS: ExtensionType = ExtensionType(13);

    /// `use_srtp`
    /// RFC 5764
    pub const USE_SRTP: ExtensionType = ExtensionType(14);

    /// `heartbeat`
    /// RFC 6520
    pub const HEARTBEAT: ExtensionType = ExtensionType(15);

    /// `application_layer_protocol_negotiation`
    /// RFC 7301
    pub const APPLICATION_LAYER_PROTOCOL_NEGOTIATION: ExtensionType = ExtensionType(16);

    /// `signed_certificate_timestamp`
    /// RFC 6962
    pub const SIGNED_CERTIFICATE_TIMESTAMP: ExtensionType = ExtensionType(18);

    /// `client_certificate_type`
    /// RFC 7250
    pub const CLIENT_CERTIFICATE_TYPE: ExtensionType = ExtensionType(19);

    /// `server_certificate_type`
    /// RFC 7250
    pub const SERVER_CERTIFICATE_TYPE: ExtensionType = ExtensionType(20);

    /// `padding`
    /// RFC 7685
    pub const PADDING: ExtensionType = ExtensionType(21);

    /// `pre_shared_key`
    /// RFC 8446
    pub const PRE_SHARED_KEY: ExtensionType = ExtensionType(41);

    /// `early_data`
    /// RFC 8446
    pub const EARLY_DATA: ExtensionType = ExtensionType(42);

    /// `supported_versions`
    /// RFC 8446
    pub const SUPPORTED_VERSIONS: ExtensionType = ExtensionType(43);

    /// `cookie`
    /// RFC 8446
    pub const COOKIE: ExtensionType = ExtensionType(44);

    /// `psk_key_exchange_modes`
    /// RFC 8446
    pub const PSK_KEY_EXCHANGE_MODES: ExtensionType = ExtensionType(45);

    /// `certificate_authorities`
    /// RFC 8446
    pub const CERTIFICATE_AUTHORITIES: ExtensionType = ExtensionType(47);

    /// `oid_filters`
    /// RFC 8446
    pub const OID_FILTERS: ExtensionType = ExtensionType(48);

    /// `post_handshake_auth`
    /// RFC 8446
    pub const POST_HANDSHAKE_AUTH: ExtensionType = ExtensionType(49);

    /// `signature_algorithms_cert`
    /// RFC 8446
    pub const SIGNATURE_ALGORITHMS_CERT: ExtensionType = ExtensionType(50);

    /// `key_share`
    /// RFC 8446
    pub const KEY_SHARE: ExtensionType = ExtensionType(51);

    /// Its name in the presentation language, if it has one.
    pub fn name(&self) -> Option<&'static str>
        ensures { option_map (λ t. t.now) result ≡ listed_name extension_type_names self.now.0 }
    {
        match self.0 {
            0 => Some("server_name"),
            1 => Some("max_fragment_length"),
            5 => Some("status_request"),
            10 => Some("supported_groups"),
            13 => Some("signature_algorithms"),
            14 => Some("use_srtp"),
            15 => Some("heartbeat"),
            16 => Some("application_layer_protocol_negotiation"),
            18 => Some("signed_certificate_timestamp"),
            19 => Some("client_certificate_type"),
            20 => Some("server_certificate_type"),
            21 => Some("padding"),
            41 => Some("pre_shared_key"),
            42 => Some("early_data"),
            43 => Some("supported_versions"),
            44 => Some("cookie"),
            45 => Some("psk_key_exchange_modes"),
            47 => Some("certificate_authorities"),
            48 => Some("oid_filters"),
            49 => Some("post_handshake_auth"),
            50 => Some("signature_algorithms_cert"),
            51 => Some("key_share"),
            _ => None,
        }
    }
}

/// Its name, or else its number in hexadecimal, two digits per byte. A width pads only names.
impl fmt::Display for ExtensionType {
    ghost output = { λ v. Some (name_or_number extension_type_names 4 v.0) };

    #[tactic(auto, using(tls_codec::specs::Registries::hexadecimal_digits))]
    fn fmt<W: fmt::Write>(&self, f: &mut fmt::Formatter<W>) -> fmt::Result {
        match self.name() {
            Some(name) => f.pad(name),
            None => write!(f, "0x{:04x}", self.0),
        }
    }
}

/// Its number.
impl From<ExtensionType> for u16 {
    ghost from_gives = { λ v number. number ≡ v.0 };

    fn from(value: ExtensionType) -> u16 {
        value.0
    }
}

/// The value with this number.
impl From<u16> for ExtensionType {
    ghost from_gives = { λ number v. v.0 ≡ number };

    fn from(number: u16) -> ExtensionType {
        ExtensionType(number)
    }
}

impl Size for ExtensionType {
    ghost plain = { extension_type_plain };

    ghost format = { extension_type_format };

    fn tls_serialized_len(&self) -> usize {
        2
    }

    fn tls_fixed_len() -> Option<usize> {
        Some(2)
    }

    ghost lawful = { extension_type_meets };
}

impl Serialize for ExtensionType {
    fn tls_serialize<W: Sink>(&self, writer: &mut W) -> Result<usize, Error> {
        self.0.tls_serialize(writer)
    }

    fn tls_serialize_into(&self, out: &mut Vec<u8>) -> Result<usize, Error> {
        self.0.tls_serialize_into(out)
    }
}

impl Deserialize for ExtensionType {
    ghost names = { ⟦<u16 as Deserialize>⟧.names };

    fn tls_deserialize<R: Source>(alloc: Global, src: &mut R) -> Result<ExtensionType, Error> {
        let number = u16::tls_deserialize(alloc, src)?;
        Ok(ExtensionType(number))
    }
}

impl DeserializeBytes for ExtensionType {
    ghost names = { ⟦<u16 as DeserializeBytes>⟧.names };

    fn tls_deserialize_bytes(alloc: Global, whole: &[u8]) -> Result<(ExtensionType, &[u8]), Error> {
        let (number, rest) = u16::tls_deserialize_bytes(alloc, whole)?;
        Ok((ExtensionType(number), rest))
    }
}

impl Validate for ExtensionType {
    ghost places = { ⟦<u16 as Validate>⟧.places };

    fn tls_validate_prefix(whole: &[u8]) -> Result<&[u8], Rejected<'_>> {
        u16::tls_validate_prefix(whole)
    }

    fn tls_width() -> Option<usize> {
        u16::tls_width()
    }
}

impl Parted for ExtensionType {
    type Parts = u16;

    ghost as_parts = { λ bytes is. is };
}

impl ReadInPlace for ExtensionType {
    fn read(encoded: &Encoded<'_, ExtensionType>) -> ExtensionType {
        ExtensionType(encoded.parts().get())
    }
}

/// Two values are equal if and only if their numbers are equal.
pub fn is_compared_by_its_number()
    ensures { (x y : ExtensionType) →
        ⟦<ExtensionType as PartialEq>⟧.eq x y ≡ nat_eq x.0 y.0 }
{}

/// Values are ordered by their numbers.
pub fn is_ordered_by_its_number()
    ensures { (x y : ExtensionType) →
        ⟦<ExtensionType as Ord>⟧.cmp x y ≡ nat_cmp x.0 y.0 }
{}
