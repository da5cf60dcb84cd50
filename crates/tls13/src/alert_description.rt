//! [`AlertDescription`].
ghost use Rattle.std.specs.Prelude.{◌≡◌, Some, nat_eq, option_map};
ghost use Rattle.std.specs.Ordering.{nat_cmp};
ghost use Rattle.tls_codec.specs.Registries.{listed_name, name_or_number};
ghost use Rattle.tls13.specs.AlertDescription.{alert_description_format, alert_description_meets, alert_description_names, alert_description_plain};
ghost use Rattle.tls13.specs.declared.alert_description.AlertDescription.{AlertDescription};

use std::alloc::Global;
use std::fmt;
use tls_codec::{Deserialize, DeserializeBytes, Error, Serialize, Sink, Size, Source};
use tls_codec_validate::{Rejected, Validate};
use tls_codec_views::{Encoded, Parted, ReadInPlace};

/// `AlertDescription` (RFC 8446, appendix B.2).
#[derive(PartialEq, Eq, PartialOrd, Ord, Hash, Debug, Clone, Copy)]
pub struct AlertDescription(pub u8);

impl AlertDescription {
    /// `close_notify`
    pub const CLOSE_NOTIFY: AlertDescription = AlertDescription(0);

    /// `unexpected_message`
    pub const UNEXPECTED_MESSAGE: AlertDescription = AlertDescription(10);

    /// `bad_record_mac`
    pub const BAD_RECORD_MAC: AlertDescription = AlertDescription(20);

    /// `decryption_failed_RESERVED`
    pub const DECRYPTION_FAILED_RESERVED: AlertDescription = AlertDescription(21);

    /// `record_overflow`
    pub const RECORD_OVERFLOW: AlertDescription = AlertDescription(22);

    /// `decompression_failure_RESERVED`
    pub const DECOMPRESSION_FAILURE_RESERVED: AlertDescription = AlertDescription(30);

    /// `handshake_failure`
    pub const HANDSHAKE_FAILURE: AlertDescription = AlertDescription(40);

    /// `no_certificate_RESERVED`
    pub const NO_CERTIFICATE_RESERVED: AlertDescription = AlertDescription(41);

    /// `bad_certificate`
    pub const BAD_CERTIFICATE: AlertDescription = AlertDescription(42);

    /// `unsupported_certificate`
    pub const UNSUPPORTED_CERTIFICATE: AlertDescription = AlertDescription(43);

    /// `certificate_revoked`
    pub const CERTIFICATE_REVOKED: AlertDescription = AlertDescription(44);

    /// `certificate_expired`
    pub const CERTIFICATE_EXPIRED: AlertDescription = AlertDescription(45);

    /// `certificate_unknown`
    pub const CERTIFICATE_UNKNOWN: AlertDescription = AlertDescription(46);

    /// `illegal_parameter`
    pub const ILLEGAL_PARAMETER: AlertDescription = AlertDescription(47);

    /// `unknown_ca`
    pub const UNKNOWN_CA: AlertDescription = AlertDescription(48);

    /// `access_denied`
    pub const ACCESS_DENIED: AlertDescription = AlertDescription(49);

    /// `decode_error`
    pub const DECODE_ERROR: AlertDescription = AlertDescription(50);

    /// `decrypt_error`
    pub const DECRYPT_ERROR: AlertDescription = AlertDescription(51);

    /// `export_restriction_RESERVED`
    pub const EXPORT_RESTRICTION_RESERVED: AlertDescription = AlertDescription(60);

    /// `protocol_version`
    pub const PROTOCOL_VERSION: AlertDescription = AlertDescription(70);

    /// `insufficient_security`
    pub const INSUFFICIENT_SECURITY: AlertDescription = AlertDescription(71);

    /// `internal_error`
    pub const INTERNAL_ERROR: AlertDescription = AlertDescription(80);

    /// `inappropriate_fallback`
    pub const INAPPROPRIATE_FALLBACK: AlertDescription = AlertDescription(86);

    /// `user_canceled`
    pub const USER_CANCELED: AlertDescription = AlertDescription(90);

    /// `no_renegotiation_RESERVED`
    pub const NO_RENEGOTIATION_RESERVED: AlertDescription = AlertDescription(100);

    /// `missing_extension`
    pub const MISSING_EXTENSION: AlertDescription = AlertDescription(109);

    /// `unsupported_extension`
    pub const UNSUPPORTED_EXTENSION: AlertDescription = AlertDescription(110);

    /// `certificate_unobtainable_RESERVED`
    pub const CERTIFICATE_UNOBTAINABLE_RESERVED: AlertDescription = AlertDescription(111);

    /// `unrecognized_name`
    pub const UNRECOGNIZED_NAME: AlertDescription = AlertDescription(112);

    /// `bad_certificate_status_response`
    pub const BAD_CERTIFICATE_STATUS_RESPONSE: AlertDescription = AlertDescription(113);

    /// `bad_certificate_hash_value_RESERVED`
    pub const BAD_CERTIFICATE_HASH_VALUE_RESERVED: AlertDescription = AlertDescription(114);

    /// `unknown_psk_identity`
    pub const UNKNOWN_PSK_IDENTITY: AlertDescription = AlertDescription(115);

    /// `certificate_required`
    pub const CERTIFICATE_REQUIRED: AlertDescription = AlertDescription(116);

    /// `no_application_protocol`
    pub const NO_APPLICATION_PROTOCOL: AlertDescription = AlertDescription(120);

    /// Its name in the presentation language, if it has one.
    pub fn name(&self) -> Option<&'static str>
        ensures { option_map (λ t. t.now) result ≡ listed_name alert_description_names self.now.0 }
    {
        match self.0 {
            0 => Some("close_notify"),
            10 => Some("unexpected_message"),
            20 => Some("bad_record_mac"),
            21 => Some("decryption_failed_RESERVED"),
            22 => Some("record_overflow"),
            30 => Some("decompression_failure_RESERVED"),
            40 => Some("handshake_failure"),
            41 => Some("no_certificate_RESERVED"),
            42 => Some("bad_certificate"),
            43 => Some("unsupported_certificate"),
            44 => Some("certificate_revoked"),
            45 => Some("certificate_expired"),
            46 => Some("certificate_unknown"),
            47 => Some("illegal_parameter"),
            48 => Some("unknown_ca"),
            49 => Some("access_denied"),
            50 => Some("decode_error"),
            51 => Some("decrypt_error"),
            60 => Some("export_restriction_RESERVED"),
            70 => Some("protocol_version"),
            71 => Some("insufficient_security"),
            80 => Some("internal_error"),
            86 => Some("inappropriate_fallback"),
            90 => Some("user_canceled"),
            100 => Some("no_renegotiation_RESERVED"),
            109 => Some("missing_extension"),
            110 => Some("unsupported_extension"),
            111 => Some("certificate_unobtainable_RESERVED"),
            112 => Some("unrecognized_name"),
            113 => Some("bad_certificate_status_response"),
            114 => Some("bad_certificate_hash_value_RESERVED"),
            115 => Some("unknown_psk_identity"),
            116 => Some("certificate_required"),
            120 => Some("no_application_protocol"),
            _ => None,
        }
    }
}

/// Its name, or else its number in hexadecimal, two digits per byte. A width pads only names.
impl fmt::Display for AlertDescription {
    ghost output = { λ v. Some (name_or_number alert_description_names 2 v.0) };

    #[tactic(auto, using(tls_codec::specs::Registries::hexadecimal_digits))]
    fn fmt<W: fmt::Write>(&self, f: &mut fmt::Formatter<W>) -> fmt::Result {
        match self.name() {
            Some(name) => f.pad(name),
            None => write!(f, "0x{:02x}", self.0),
        }
    }
}

/// Its number.
impl From<AlertDescription> for u8 {
    ghost from_gives = { λ v number. number ≡ v.0 };

    fn from(value: AlertDescription) -> u8 {
        value.0
    }
}

/// The value with this number.
impl From<u8> for AlertDescription {
    ghost from_gives = { λ number v. v.0 ≡ number };

    fn from(number: u8) -> AlertDescription {
        AlertDescription(number)
    }
}

impl Size for AlertDescription {
    ghost plain = { alert_description_plain };

    ghost format = { alert_description_format };

    fn tls_serialized_len(&self) -> usize {
        1
    }

    fn tls_fixed_len() -> Option<usize> {
        Some(1)
    }

    ghost lawful = { alert_description_meets };
}

impl Serialize for AlertDescription {
    fn tls_serialize<W: Sink>(&self, writer: &mut W) -> Result<usize, Error> {
        self.0.tls_serialize(writer)
    }

    fn tls_serialize_into(&self, out: &mut Vec<u8>) -> Result<usize, Error> {
        self.0.tls_serialize_into(out)
    }
}

impl Deserialize for AlertDescription {
    ghost names = { ⟦<u8 as Deserialize>⟧.names };

    fn tls_deserialize<R: Source>(alloc: Global, src: &mut R) -> Result<AlertDescription, Error> {
        let number = u8::tls_deserialize(alloc, src)?;
        Ok(AlertDescription(number))
    }
}

impl DeserializeBytes for AlertDescription {
    ghost names = { ⟦<u8 as DeserializeBytes>⟧.names };

    fn tls_deserialize_bytes(
        alloc: Global,
        whole: &[u8],
    ) -> Result<(AlertDescription, &[u8]), Error> {
        let (number, rest) = u8::tls_deserialize_bytes(alloc, whole)?;
        Ok((AlertDescription(number), rest))
    }
}

impl Validate for AlertDescription {
    ghost places = { ⟦<u8 as Validate>⟧.places };

    fn tls_validate_prefix(whole: &[u8]) -> Result<&[u8], Rejected<'_>> {
        u8::tls_validate_prefix(whole)
    }

    fn tls_width() -> Option<usize> {
        u8::tls_width()
    }
}

impl Parted for AlertDescription {
    type Parts = u8;

    ghost as_parts = { λ bytes is. is };
}

impl ReadInPlace for AlertDescription {
    fn read(encoded: &Encoded<'_, AlertDescription>) -> AlertDescription {
        AlertDescription(encoded.parts().get())
    }
}

/// Two values are equal if and only if their numbers are equal.
pub fn is_compared_by_its_number()
    ensures { (x y : AlertDescription) →
        ⟦<AlertDescription as PartialEq>⟧.eq x y ≡ nat_eq x.0 y.0 }
{}

/// Values are ordered by their numbers.
pub fn is_ordered_by_its_number()
    ensures { (x y : AlertDescription) →
        ⟦<AlertDescription as Ord>⟧.cmp x y ≡ nat_cmp x.0 y.0 }
{}
