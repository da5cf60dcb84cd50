//! Checks whether bytes begin with a message of TLS 1.3: its decoder makes the value and drops it.
//!
//! `OutOfMemory`: memory was refused, and nothing is said about the bytes. The position of a
//! rejected field isn't reported: `at` of `NAME_decode_check_prefix` is 0.
#![tactic(auto)]

ghost use Rattle.std.specs.Prelude.{◌≡◌};
ghost use Rattle.tls13.specs.TLSPlaintext.{tls_plaintext_format};
ghost use Rattle.tls13.specs.TLSCiphertext.{tls_ciphertext_format};
ghost use Rattle.tls13.specs.Alert.{alert_format};
ghost use Rattle.tls13.specs.Handshake.{handshake_format};
ghost use Rattle.tls13.specs.ClientHello.{client_hello_format};
ghost use Rattle.tls13.specs.ServerHello.{server_hello_format};
ghost use Rattle.tls13.specs.EncryptedExtensions.{encrypted_extensions_format};
ghost use Rattle.tls13.specs.CertificateRequest.{certificate_request_format};
ghost use Rattle.tls13.specs.Certificate.{certificate_format};
ghost use Rattle.tls13.specs.CertificateVerify.{certificate_verify_format};
ghost use Rattle.tls13.specs.NewSessionTicket.{new_session_ticket_format};
ghost use Rattle.tls13.specs.KeyUpdate.{key_update_format};
ghost use Rattle.tls_codec_outcome.specs.Outcomes.{DecidesInMemory, IsNamed, IsTaken};

use std::alloc::Global;
use tls_codec::DeserializeBytes;
use tls_codec_outcome::{Outcome, decode_check};
use tls13::{
    Alert, Certificate, CertificateRequest, CertificateVerify, ClientHello, EncryptedExtensions,
    Handshake, KeyUpdate, NewSessionTicket, ServerHello, TLSCiphertext, TLSPlaintext,
};

/// `TLSPlaintext` (RFC 8446, section 5.1).
#[unsafe(no_mangle)]
pub extern "C" fn tls13_tls_plaintext_decode_check_prefix(alloc: Global, bytes: &[u8]) -> Outcome
    ensures status { DecidesInMemory tls_plaintext_format bytes.now result.status }
    ensures taken { IsTaken tls_plaintext_format bytes.now result.status result.taken }
    ensures detail { IsNamed ⟦<TLSPlaintext as DeserializeBytes>⟧.names bytes.now result.status
        result.detail }
    ensures at { result.at ≡ 0 }
{
    decode_check::<TLSPlaintext>(alloc, bytes)
}

/// `TLSCiphertext` (RFC 8446, section 5.2).
#[unsafe(no_mangle)]
pub extern "C" fn tls13_tls_ciphertext_decode_check_prefix(alloc: Global, bytes: &[u8]) -> Outcome
    ensures status { DecidesInMemory tls_ciphertext_format bytes.now result.status }
    ensures taken { IsTaken tls_ciphertext_format bytes.now result.status result.taken }
    ensures detail { IsNamed ⟦<TLSCiphertext as DeserializeBytes>⟧.names bytes.now result.status
        result.detail }
    ensures at { result.at ≡ 0 }
{
    decode_check::<TLSCiphertext>(alloc, bytes)
}

/// `Alert` (RFC 8446, section 6).
#[unsafe(no_mangle)]
pub extern "C" fn tls13_alert_decode_check_prefix(alloc: Global, bytes: &[u8]) -> Outcome
    ensures status { DecidesInMemory alert_format bytes.now result.status }
    ensures taken { IsTaken alert_format bytes.now result.status result.taken }
    ensures detail { IsNamed ⟦<Alert as DeserializeBytes>⟧.names bytes.now result.status
        result.detail }
    ensures at { result.at ≡ 0 }
{
    decode_check::<Alert>(alloc, bytes)
}

/// `Handshake` (RFC 8446, section 4).
#[unsafe(no_mangle)]
pub extern "C" fn tls13_handshake_decode_check_prefix(alloc: Global, bytes: &[u8]) -> Outcome
    ensures status { DecidesInMemory handshake_format bytes.now result.status }
    ensures taken { IsTaken handshake_format bytes.now result.status result.taken }
    ensures detail { IsNamed ⟦<Handshake as DeserializeBytes>⟧.names bytes.now result.status
        result.detail }
    ensures at { result.at ≡ 0 }
{
    decode_check::<Handshake>(alloc, bytes)
}

/// `ClientHello` (RFC 8446, section 4.1.2).
#[unsafe(no_mangle)]
pub extern "C" fn tls13_client_hello_decode_check_prefix(alloc: Global, bytes: &[u8]) -> Outcome
    ensures status { DecidesInMemory client_hello_format bytes.now result.status }
    ensures taken { IsTaken client_hello_format bytes.now result.status result.taken }
    ensures detail { IsNamed ⟦<ClientHello as DeserializeBytes>⟧.names bytes.now result.status
        result.detail }
    ensures at { result.at ≡ 0 }
{
    decode_check::<ClientHello>(alloc, bytes)
}

/// `ServerHello` (RFC 8446, section 4.1.3).
#[unsafe(no_mangle)]
pub extern "C" fn tls13_server_hello_decode_check_prefix(alloc: Global, bytes: &[u8]) -> Outcome
    ensures status { DecidesInMemory server_hello_format bytes.now result.status }
    ensures taken { IsTaken server_hello_format bytes.now result.status result.taken }
    ensures detail { IsNamed ⟦<ServerHello as DeserializeBytes>⟧.names bytes.now result.status
        result.detail }
    ensures at { result.at ≡ 0 }
{
    decode_check::<ServerHello>(alloc, bytes)
}

/// `EncryptedExtensions` (RFC 8446, section 4.3.1).
#[unsafe(no_mangle)]
pub extern "C" fn tls13_encrypted_extensions_decode_check_prefix(
    alloc: Global,
    bytes: &[u8],
) -> Outcome
    ensures status { DecidesInMemory encrypted_extensions_format bytes.now result.status }
    ensures taken { IsTaken encrypted_extensions_format bytes.now result.status result.taken }
    ensures detail { IsNamed ⟦<EncryptedExtensions as DeserializeBytes>⟧.names bytes.now
        result.status
        result.detail }
    ensures at { result.at ≡ 0 }
{
    decode_check::<EncryptedExtensions>(alloc, bytes)
}

/// `CertificateRequest` (RFC 8446, section 4.3.2).
#[unsafe(no_mangle)]
pub extern "C" fn tls13_certificate_request_decode_check_prefix(
    alloc: Global,
    bytes: &[u8],
) -> Outcome
    ensures status { DecidesInMemory certificate_request_format bytes.now result.status }
    ensures taken { IsTaken certificate_request_format bytes.now result.status result.taken }
    ensures detail { IsNamed ⟦<CertificateRequest as DeserializeBytes>⟧.names bytes.now
        result.status
        result.detail }
    ensures at { result.at ≡ 0 }
{
    decode_check::<CertificateRequest>(alloc, bytes)
}

/// `Certificate` (RFC 8446, section 4.4.2).
#[unsafe(no_mangle)]
pub extern "C" fn tls13_certificate_decode_check_prefix(alloc: Global, bytes: &[u8]) -> Outcome
    ensures status { DecidesInMemory certificate_format bytes.now result.status }
    ensures taken { IsTaken certificate_format bytes.now result.status result.taken }
    ensures detail { IsNamed ⟦<Certificate as DeserializeBytes>⟧.names bytes.now result.status
        result.detail }
    ensures at { result.at ≡ 0 }
{
    decode_check::<Certificate>(alloc, bytes)
}

/// `CertificateVerify` (RFC 8446, section 4.4.3).
#[unsafe(no_mangle)]
pub extern "C" fn tls13_certificate_verify_decode_check_prefix(
    alloc: Global,
    bytes: &[u8],
) -> Outcome
    ensures status { DecidesInMemory certificate_verify_format bytes.now result.status }
    ensures taken { IsTaken certificate_verify_format bytes.now result.status result.taken }
    ensures detail { IsNamed ⟦<CertificateVerify as DeserializeBytes>⟧.names bytes.now result.status
        result.detail }
    ensures at { result.at ≡ 0 }
{
    decode_check::<CertificateVerify>(alloc, bytes)
}

/// `NewSessionTicket` (RFC 8446, section 4.6.1).
#[unsafe(no_mangle)]
pub extern "C" fn tls13_new_session_ticket_decode_check_prefix(
    alloc: Global,
    bytes: &[u8],
) -> Outcome
    ensures status { DecidesInMemory new_session_ticket_format bytes.now result.status }
    ensures taken { IsTaken new_session_ticket_format bytes.now result.status result.taken }
    ensures detail { IsNamed ⟦<NewSessionTicket as DeserializeBytes>⟧.names bytes.now result.status
        result.detail }
    ensures at { result.at ≡ 0 }
{
    decode_check::<NewSessionTicket>(alloc, bytes)
}

/// `KeyUpdate` (RFC 8446, section 4.6.3).
#[unsafe(no_mangle)]
pub extern "C" fn tls13_key_update_decode_check_prefix(alloc: Global, bytes: &[u8]) -> Outcome
    ensures status { DecidesInMemory key_update_format bytes.now result.status }
    ensures taken { IsTaken key_update_format bytes.now result.status result.taken }
    ensures detail { IsNamed ⟦<KeyUpdate as DeserializeBytes>⟧.names bytes.now result.status
        result.detail }
    ensures at { result.at ≡ 0 }
{
    decode_check::<KeyUpdate>(alloc, bytes)
}
