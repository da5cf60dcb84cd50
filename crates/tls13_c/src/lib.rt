//! Messages of TLS 1.3, without allocation: validates them, locates their fields, and takes the elements of lists one by one.
#![tactic(auto)]

mod elements;
mod fields;

ghost use Rattle.tls13.specs.TLSPlaintext.{tls_plaintext_format};
ghost use Rattle.tls13.specs.TLSCiphertext.{tls_ciphertext_format};
ghost use Rattle.tls13.specs.Alert.{alert_format};
ghost use Rattle.tls13.specs.Handshake.{handshake_format};
ghost use Rattle.tls13.specs.ClientHello.{client_hello_format};
ghost use Rattle.tls13.specs.ServerHello.{server_hello_format};
ghost use Rattle.tls13.specs.EncryptedExtensions.{encrypted_extensions_format};
ghost use Rattle.tls13.specs.CertificateRequest.{certificate_request_format};
ghost use Rattle.tls13.specs.Certificate.{certificate_format};
ghost use Rattle.tls13.specs.CertificateVerify.{certificate_verify_format};
ghost use Rattle.tls13.specs.NewSessionTicket.{new_session_ticket_format};
ghost use Rattle.tls13.specs.KeyUpdate.{key_update_format};
ghost use Rattle.tls_codec_outcome.specs.Outcomes.{Decides, IsRejection, IsTaken};

use tls_codec::DeserializeBytes;
use tls_codec_outcome::{Outcome, validate};
use tls_codec_validate::Validate;
use tls13::{
    Alert, Certificate, CertificateRequest, CertificateVerify, ClientHello, EncryptedExtensions,
    Handshake, KeyUpdate, NewSessionTicket, ServerHello, TLSCiphertext, TLSPlaintext,
};

/// `TLSPlaintext` (RFC 8446, section 5.1).
#[unsafe(no_mangle)]
pub extern "C" fn tls13_tls_plaintext_validate_prefix(bytes: &[u8]) -> Outcome
    ensures status { Decides tls_plaintext_format bytes.now result.status }
    ensures taken { IsTaken tls_plaintext_format bytes.now result.status result.taken }
    ensures rejected { IsRejection ⟦<TLSPlaintext as DeserializeBytes>⟧.names
        ⟦<TLSPlaintext as Validate>⟧.places bytes.now result.status result.at result.detail }
{
    validate::<TLSPlaintext>(bytes)
}

/// `TLSCiphertext` (RFC 8446, section 5.2).
#[unsafe(no_mangle)]
pub extern "C" fn tls13_tls_ciphertext_validate_prefix(bytes: &[u8]) -> Outcome
    ensures status { Decides tls_ciphertext_format bytes.now result.status }
    ensures taken { IsTaken tls_ciphertext_format bytes.now result.status result.taken }
    ensures rejected { IsRejection ⟦<TLSCiphertext as DeserializeBytes>⟧.names
        ⟦<TLSCiphertext as Validate>⟧.places bytes.now result.status result.at result.detail }
{
    validate::<TLSCiphertext>(bytes)
}

/// `Alert` (RFC 8446, section 6).
#[unsafe(no_mangle)]
pub extern "C" fn tls13_alert_validate_prefix(bytes: &[u8]) -> Outcome
    ensures status { Decides alert_format bytes.now result.status }
    ensures taken { IsTaken alert_format bytes.now result.status result.taken }
    ensures rejected { IsRejection ⟦<Alert as DeserializeBytes>⟧.names
        ⟦<Alert as Validate>⟧.places bytes.now result.status result.at result.detail }
{
    validate::<Alert>(bytes)
}

/// `Handshake` (RFC 8446, section 4).
#[unsafe(no_mangle)]
pub extern "C" fn tls13_handshake_validate_prefix(bytes: &[u8]) -> Outcome
    ensures status { Decides handshake_format bytes.now result.status }
    ensures taken { IsTaken handshake_format bytes.now result.status result.taken }
    ensures rejected { IsRejection ⟦<Handshake as DeserializeBytes>⟧.names
        ⟦<Handshake as Validate>⟧.places bytes.now result.status result.at result.detail }
{
    validate::<Handshake>(bytes)
}

/// `ClientHello` (RFC 8446, section 4.1.2).
#[unsafe(no_mangle)]
pub extern "C" fn tls13_client_hello_validate_prefix(bytes: &[u8]) -> Outcome
    ensures status { Decides client_hello_format bytes.now result.status }
    ensures taken { IsTaken client_hello_format bytes.now result.status result.taken }
    ensures rejected { IsRejection ⟦<ClientHello as DeserializeBytes>⟧.names
        ⟦<ClientHello as Validate>⟧.places bytes.now result.status result.at result.detail }
{
    validate::<ClientHello>(bytes)
}

/// `ServerHello` (RFC 8446, section 4.1.3).
#[unsafe(no_mangle)]
pub extern "C" fn tls13_server_hello_validate_prefix(bytes: &[u8]) -> Outcome
    ensures status { Decides server_hello_format bytes.now result.status }
    ensures taken { IsTaken server_hello_format bytes.now result.status result.taken }
    ensures rejected { IsRejection ⟦<ServerHello as DeserializeBytes>⟧.names
        ⟦<ServerHello as Validate>⟧.places bytes.now result.status result.at result.detail }
{
    validate::<ServerHello>(bytes)
}

/// `EncryptedExtensions` (RFC 8446, section 4.3.1).
#[unsafe(no_mangle)]
pub extern "C" fn tls13_encrypted_extensions_validate_prefix(bytes: &[u8]) -> Outcome
    ensures status { Decides encrypted_extensions_format bytes.now result.status }
    ensures taken { IsTaken encrypted_extensions_format bytes.now result.status result.taken }
    ensures rejected { IsRejection ⟦<EncryptedExtensions as DeserializeBytes>⟧.names
        ⟦<EncryptedExtensions as Validate>⟧.places bytes.now result.status result.at result.detail }
{
    validate::<EncryptedExtensions>(bytes)
}

/// `CertificateRequest` (RFC 8446, section 4.3.2).
#[unsafe(no_mangle)]
pub extern "C" fn tls13_certificate_request_validate_prefix(bytes: &[u8]) -> Outcome
    ensures status { Decides certificate_request_format bytes.now result.status }
    ensures taken { IsTaken certificate_request_format bytes.now result.status result.taken }
    ensures rejected { IsRejection ⟦<CertificateRequest as DeserializeBytes>⟧.names
        ⟦<CertificateRequest as Validate>⟧.places bytes.now result.status result.at result.detail }
{
    validate::<CertificateRequest>(bytes)
}

/// `Certificate` (RFC 8446, section 4.4.2).
#[unsafe(no_mangle)]
pub extern "C" fn tls13_certificate_validate_prefix(bytes: &[u8]) -> Outcome
    ensures status { Decides certificate_format bytes.now result.status }
    ensures taken { IsTaken certificate_format bytes.now result.status result.taken }
    ensures rejected { IsRejection ⟦<Certificate as DeserializeBytes>⟧.names
        ⟦<Certificate as Validate>⟧.places bytes.now result.status result.at result.detail }
{
    validate::<Certificate>(bytes)
}

/// `CertificateVerify` (RFC 8446, section 4.4.3).
#[unsafe(no_mangle)]
pub extern "C" fn tls13_certificate_verify_validate_prefix(bytes: &[u8]) -> Outcome
    ensures status { Decides certificate_verify_format bytes.now result.status }
    ensures taken { IsTaken certificate_verify_format bytes.now result.status result.taken }
    ensures rejected { IsRejection ⟦<CertificateVerify as DeserializeBytes>⟧.names
        ⟦<CertificateVerify as Validate>⟧.places bytes.now result.status result.at result.detail }
{
    validate::<CertificateVerify>(bytes)
}

/// `NewSessionTicket` (RFC 8446, section 4.6.1).
#[unsafe(no_mangle)]
pub extern "C" fn tls13_new_session_ticket_validate_prefix(bytes: &[u8]) -> Outcome
    ensures status { Decides new_session_ticket_format bytes.now result.status }
    ensures taken { IsTaken new_session_ticket_format bytes.now result.status result.taken }
    ensures rejected { IsRejection ⟦<NewSessionTicket as DeserializeBytes>⟧.names
        ⟦<NewSessionTicket as Validate>⟧.places bytes.now result.status result.at result.detail }
{
    validate::<NewSessionTicket>(bytes)
}

/// `KeyUpdate` (RFC 8446, section 4.6.3).
#[unsafe(no_mangle)]
pub extern "C" fn tls13_key_update_validate_prefix(bytes: &[u8]) -> Outcome
    ensures status { Decides key_update_format bytes.now result.status }
    ensures taken { IsTaken key_update_format bytes.now result.status result.taken }
    ensures rejected { IsRejection ⟦<KeyUpdate as DeserializeBytes>⟧.names
        ⟦<KeyUpdate as Validate>⟧.places bytes.now result.status result.at result.detail }
{
    validate::<KeyUpdate>(bytes)
}
