//! [`HandshakeType`].
ghost use Rattle.std.specs.Prelude.{◌≡◌, MatchOption, MatchResult, Some, false, nat_eq};
ghost use Rattle.std.specs.Fmt.{padded};
ghost use Rattle.std.specs.Ordering.{nat_cmp};
ghost use Rattle.tls_codec.specs.Errors.{UnknownValue};
ghost use Rattle.std.proofs.Common.{refl};
ghost use Rattle.tls_codec.specs.OwnMessages.{values, values_names, values_source_names};
ghost use Rattle.tls_codec_validate.specs.TaggedPlaces.{values_places};
ghost use Rattle.tls13.specs.HandshakeType.{handshake_type_code, handshake_type_format, handshake_type_has, handshake_type_meets, handshake_type_name, handshake_type_plain, handshake_type_selected};
ghost use Rattle.tls13.specs.declared.handshake_type.HandshakeType.{HandshakeType};

use std::alloc::Global;
use std::fmt;
use tls_codec::{
    Deserialize, DeserializeBytes, Error, Serialize, Sink, Size, Source, unknown_value,
};
use tls_codec_cases::Selector;
use tls_codec_validate::{
    Keyed, Rejected, TagFirst, TagKeyed, Validate, ValidateKeyed, split_u8, validate_tag_first,
};
use tls_codec_views::{Encoded, Numbered, ReadInPlace};

/// `HandshakeType` (RFC 8446, appendix B.3).
#[derive(PartialEq, Eq, PartialOrd, Ord, Hash, Debug, Clone, Copy)]
pub enum HandshakeType {
    /// `hello_request_RESERVED(0)`
    HelloRequestReserved,
    /// `client_hello(1)`
    ClientHello,
    /// `server_hello(2)`
    ServerHello,
    /// `hello_verify_request_RESERVED(3)`
    HelloVerifyRequestReserved,
    /// `new_session_ticket(4)`
    NewSessionTicket,
    /// `end_of_early_data(5)`
    EndOfEarlyData,
    /// `hello_retry_request_RESERVED(6)`
    HelloRetryRequestReserved,
    /// `encrypted_extensions(8)`
    EncryptedExtensions,
    /// `certificate(11)`
    Certificate,
    /// `server_key_exchange_RESERVED(12)`
    ServerKeyExchangeReserved,
    /// `certificate_request(13)`
    CertificateRequest,
    /// `server_hello_done_RESERVED(14)`
    ServerHelloDoneReserved,
    /// `certificate_verify(15)`
    CertificateVerify,
    /// `client_key_exchange_RESERVED(16)`
    ClientKeyExchangeReserved,
    /// `finished(20)`
    Finished,
    /// `certificate_url_RESERVED(21)`
    CertificateUrlReserved,
    /// `certificate_status_RESERVED(22)`
    CertificateStatusReserved,
    /// `supplemental_data_RESERVED(23)`
    SupplementalDataReserved,
    /// `key_update(24)`
    KeyUpdate,
    /// `message_hash(254)`
    MessageHash,
}

impl HandshakeType {
    /// Its number.
    pub fn code(&self) -> u8
        ensures { result ≡ handshake_type_code self.now }
    {
        match self {
            HandshakeType::HelloRequestReserved => 0,
            HandshakeType::ClientHello => 1,
            HandshakeType::ServerHello => 2,
            HandshakeType::HelloVerifyRequestReserved => 3,
            HandshakeType::NewSessionTicket => 4,
            HandshakeType::EndOfEarlyData => 5,
            HandshakeType::HelloRetryRequestReserved => 6,
            HandshakeType::EncryptedExtensions => 8,
            HandshakeType::Certificate => 11,
            HandshakeType::ServerKeyExchangeReserved => 12,
            HandshakeType::CertificateRequest => 13,
            HandshakeType::ServerHelloDoneReserved => 14,
            HandshakeType::CertificateVerify => 15,
            HandshakeType::ClientKeyExchangeReserved => 16,
            HandshakeType::Finished => 20,
            HandshakeType::CertificateUrlReserved => 21,
            HandshakeType::CertificateStatusReserved => 22,
            HandshakeType::SupplementalDataReserved => 23,
            HandshakeType::KeyUpdate => 24,
            HandshakeType::MessageHash => 254,
        }
    }

    /// Its name in the presentation language.
    pub fn name(&self) -> &'static str
        ensures { result.now ≡ handshake_type_name self.now }
    {
        match self {
            HandshakeType::HelloRequestReserved => "hello_request_RESERVED",
            HandshakeType::ClientHello => "client_hello",
            HandshakeType::ServerHello => "server_hello",
            HandshakeType::HelloVerifyRequestReserved => "hello_verify_request_RESERVED",
            HandshakeType::NewSessionTicket => "new_session_ticket",
            HandshakeType::EndOfEarlyData => "end_of_early_data",
            HandshakeType::HelloRetryRequestReserved => "hello_retry_request_RESERVED",
            HandshakeType::EncryptedExtensions => "encrypted_extensions",
            HandshakeType::Certificate => "certificate",
            HandshakeType::ServerKeyExchangeReserved => "server_key_exchange_RESERVED",
            HandshakeType::CertificateRequest => "certificate_request",
            HandshakeType::ServerHelloDoneReserved => "server_hello_done_RESERVED",
            HandshakeType::CertificateVerify => "certificate_verify",
            HandshakeType::ClientKeyExchangeReserved => "client_key_exchange_RESERVED",
            HandshakeType::Finished => "finished",
            HandshakeType::CertificateUrlReserved => "certificate_url_RESERVED",
            HandshakeType::CertificateStatusReserved => "certificate_status_RESERVED",
            HandshakeType::SupplementalDataReserved => "supplemental_data_RESERVED",
            HandshakeType::KeyUpdate => "key_update",
            HandshakeType::MessageHash => "message_hash",
        }
    }

    /// The value with this number, if there is one.
    pub fn of_code(code: u8) -> Option<HandshakeType>
        ensures { MatchOption result (handshake_type_has code ≡ false)
            (λ v. handshake_type_code v ≡ code) }
    {
        match code {
            0 => Some(HandshakeType::HelloRequestReserved),
            1 => Some(HandshakeType::ClientHello),
            2 => Some(HandshakeType::ServerHello),
            3 => Some(HandshakeType::HelloVerifyRequestReserved),
            4 => Some(HandshakeType::NewSessionTicket),
            5 => Some(HandshakeType::EndOfEarlyData),
            6 => Some(HandshakeType::HelloRetryRequestReserved),
            8 => Some(HandshakeType::EncryptedExtensions),
            11 => Some(HandshakeType::Certificate),
            12 => Some(HandshakeType::ServerKeyExchangeReserved),
            13 => Some(HandshakeType::CertificateRequest),
            14 => Some(HandshakeType::ServerHelloDoneReserved),
            15 => Some(HandshakeType::CertificateVerify),
            16 => Some(HandshakeType::ClientKeyExchangeReserved),
            20 => Some(HandshakeType::Finished),
            21 => Some(HandshakeType::CertificateUrlReserved),
            22 => Some(HandshakeType::CertificateStatusReserved),
            23 => Some(HandshakeType::SupplementalDataReserved),
            24 => Some(HandshakeType::KeyUpdate),
            254 => Some(HandshakeType::MessageHash),
            _ => None,
        }
    }
}

/// Its name.
impl fmt::Display for HandshakeType {
    ghost output = { λ v. Some (handshake_type_name v) };

    ghost styled_output = { λ v spec. Some (padded spec (handshake_type_name v)) };

    fn fmt<W: fmt::Write>(&self, f: &mut fmt::Formatter<W>) -> fmt::Result {
        f.pad(self.name())
    }
}

/// Its number.
impl From<HandshakeType> for u8 {
    ghost from_gives = { λ v number. number ≡ handshake_type_code v };

    fn from(value: HandshakeType) -> u8 {
        value.code()
    }
}

/// The value with this number.
impl TryFrom<u8> for HandshakeType {
    type Error = Error;

    ghost try_from_gives = { λ tag r. MatchResult r
        (λ v. handshake_type_code v ≡ tag)
        (λ e. (handshake_type_has tag ≡ false) × (e ≡ UnknownValue tag)) };

    fn try_from(tag: u8) -> Result<HandshakeType, Error> {
        match HandshakeType::of_code(tag) {
            Some(value) => Ok(value),
            None => Err(unknown_value(u64::from(tag))),
        }
    }
}

impl Size for HandshakeType {
    ghost plain = { handshake_type_plain };

    ghost format = { handshake_type_format };

    fn tls_serialized_len(&self) -> usize {
        1
    }

    ghost lawful = { handshake_type_meets };
}

impl Serialize for HandshakeType {
    fn tls_serialize<W: Sink>(&self, writer: &mut W) -> Result<usize, Error> {
        self.code().tls_serialize(writer)
    }

    fn tls_serialize_into(&self, out: &mut Vec<u8>) -> Result<usize, Error> {
        self.code().tls_serialize_into(out)
    }
}

impl Deserialize for HandshakeType {
    ghost names = { values_source_names 1 handshake_type_has };

    fn tls_deserialize<R: Source>(alloc: Global, src: &mut R) -> Result<HandshakeType, Error> {
        let tag = u8::tls_deserialize(alloc, src)?;
        match HandshakeType::of_code(tag) {
            Some(value) => Ok(value),
            None => Err(unknown_value(u64::from(tag))),
        }
    }
}

impl DeserializeBytes for HandshakeType {
    ghost names = { values_names 1 handshake_type_has };

    fn tls_deserialize_bytes(alloc: Global, whole: &[u8]) -> Result<(HandshakeType, &[u8]), Error> {
        let (tag, rest) = u8::tls_deserialize_bytes(alloc, whole)?;
        match HandshakeType::of_code(tag) {
            Some(value) => Ok((value, rest)),
            None => Err(unknown_value(u64::from(tag))),
        }
    }
}

impl Selector for HandshakeType {
    ghost selected = { handshake_type_selected };

    fn selects(&self) -> u64 {
        let tag = self.code();
        u64::from(tag)
    }
}

impl Validate for HandshakeType {
    ghost places = { values_places 1 handshake_type_has };

    fn tls_validate_prefix(whole: &[u8]) -> Result<&[u8], Rejected<'_>> {
        let (tag, rest) = split_u8(whole)?;
        match HandshakeType::of_code(tag) {
            Some(_value) => Ok(rest),
            None => Err(Rejected {
                error: unknown_value(u64::from(tag)),
                rest: whole,
            }),
        }
    }
}

impl Numbered for HandshakeType {
    type Tag = u8;

    ghost has = { handshake_type_has };

    ghost as_values = { λ bytes is. is };
}

impl ReadInPlace for HandshakeType {
    fn read(encoded: &Encoded<'_, HandshakeType>) -> HandshakeType {
        match encoded.number() {
            0 => HandshakeType::HelloRequestReserved,
            1 => HandshakeType::ClientHello,
            2 => HandshakeType::ServerHello,
            3 => HandshakeType::HelloVerifyRequestReserved,
            4 => HandshakeType::NewSessionTicket,
            5 => HandshakeType::EndOfEarlyData,
            6 => HandshakeType::HelloRetryRequestReserved,
            8 => HandshakeType::EncryptedExtensions,
            11 => HandshakeType::Certificate,
            12 => HandshakeType::ServerKeyExchangeReserved,
            13 => HandshakeType::CertificateRequest,
            14 => HandshakeType::ServerHelloDoneReserved,
            15 => HandshakeType::CertificateVerify,
            16 => HandshakeType::ClientKeyExchangeReserved,
            20 => HandshakeType::Finished,
            21 => HandshakeType::CertificateUrlReserved,
            22 => HandshakeType::CertificateStatusReserved,
            23 => HandshakeType::SupplementalDataReserved,
            24 => HandshakeType::KeyUpdate,
            254 => HandshakeType::MessageHash,
            _ => unreachable!(),
        }
    }
}

impl Keyed for HandshakeType {
    type Key = u64;

    ghost is_key = { λ n c. n ≡ handshake_type_selected c };

    fn key(&self) -> u64 {
        self.selects()
    }
}

impl TagKeyed for HandshakeType {
    fn tag_of_key(key: &u64) -> u64 {
        *key
    }
}

impl TagFirst for HandshakeType {
    type Tag = u8;

    ghost variants = { values handshake_type_has };

    ghost first_tag = { handshake_type_selected };

    ghost is_tagged = { λ d bytes v spelled. spelled };

    ghost is_first_tag = { λ d bytes tag parts spelled. refl };
}

impl ValidateKeyed for HandshakeType {
    fn tls_validate_keyed(whole: &[u8]) -> Result<(u64, &[u8]), Rejected<'_>> {
        validate_tag_first::<HandshakeType>(whole)
    }
}

/// Two values are equal if and only if their numbers are equal.
pub fn is_compared_by_its_number()
    ensures { (x y : HandshakeType) →
        ⟦<HandshakeType as PartialEq>⟧.eq x y
        ≡ nat_eq (handshake_type_code x) (handshake_type_code y) }
{}

/// Values are ordered by their numbers.
pub fn is_ordered_by_its_number()
    ensures { (x y : HandshakeType) →
        ⟦<HandshakeType as Ord>⟧.cmp x y
        ≡ nat_cmp (handshake_type_code x) (handshake_type_code y) }
{}
