//! Where the fields of a message are, once it is validated.
ghost use Rattle.std.specs.Prelude.{◌≡◌, ◌≢◌};
ghost use Rattle.tls13.specs.Handshake.{handshake_format};
ghost use Rattle.tls13.specs.ClientHello.{client_hello_format};
ghost use Rattle.tls13.specs.ServerHello.{server_hello_format};
ghost use Rattle.tls13.specs.EncryptedExtensions.{encrypted_extensions_format};
ghost use Rattle.tls13.specs.CertificateRequest.{certificate_request_format};
ghost use Rattle.tls13.specs.Certificate.{certificate_format};
ghost use Rattle.tls13.specs.CertificateVerify.{certificate_verify_format};
ghost use Rattle.tls13.specs.NewSessionTicket.{new_session_ticket_format};
ghost use Rattle.tls13.specs.KeyUpdate.{key_update_format};
ghost use Rattle.tls13.specs.TLSPlaintext.{tls_plaintext_format};
ghost use Rattle.tls13.specs.TLSCiphertext.{tls_ciphertext_format};
ghost use Rattle.tls13.specs.Alert.{alert_format};
ghost use Rattle.tls13_fields.specs.HandshakeFields.{AreHandshakeFields};
ghost use Rattle.tls13_fields.specs.ClientHelloFields.{AreClientHelloFields};
ghost use Rattle.tls13_fields.specs.ServerHelloFields.{AreServerHelloFields};
ghost use Rattle.tls13_fields.specs.EncryptedExtensionsFields.{AreEncryptedExtensionsFields};
ghost use Rattle.tls13_fields.specs.CertificateRequestFields.{AreCertificateRequestFields};
ghost use Rattle.tls13_fields.specs.CertificateFields.{AreCertificateFields};
ghost use Rattle.tls13_fields.specs.CertificateVerifyFields.{AreCertificateVerifyFields};
ghost use Rattle.tls13_fields.specs.NewSessionTicketFields.{AreNewSessionTicketFields};
ghost use Rattle.tls13_fields.specs.KeyUpdateFields.{AreKeyUpdateFields};
ghost use Rattle.tls13_fields.specs.TLSPlaintextFields.{AreTLSPlaintextFields};
ghost use Rattle.tls13_fields.specs.TLSCiphertextFields.{AreTLSCiphertextFields};
ghost use Rattle.tls13_fields.specs.AlertFields.{AreAlertFields};
ghost use Rattle.tls_codec_outcome.specs.Outcomes.{Decides, IsRejection, IsTaken};

use tls_codec::DeserializeBytes;
use tls_codec_outcome::{ACCEPTED, Outcome, validate};
use tls_codec_validate::Validate;
use tls13::{
    Alert, Certificate, CertificateRequest, CertificateVerify, ClientHello, EncryptedExtensions,
    Handshake, KeyUpdate, NewSessionTicket, ServerHello, TLSCiphertext, TLSPlaintext,
};
use tls13_fields::{
    AlertFields, CertificateFields, CertificateRequestFields, CertificateVerifyFields,
    ClientHelloFields, EncryptedExtensionsFields, HandshakeFields, KeyUpdateFields,
    NewSessionTicketFields, ServerHelloFields, TLSCiphertextFields, TLSPlaintextFields,
};

/// `Handshake` (RFC 8446, section 4), and where its fields are.
#[unsafe(no_mangle)]
pub extern "C" fn tls13_handshake_locate_prefix(
    bytes: &[u8],
    fields: &mut HandshakeFields,
) -> Outcome
    ensures status { Decides handshake_format bytes.now result.status }
    ensures taken { IsTaken handshake_format bytes.now result.status result.taken }
    ensures rejected { IsRejection ⟦<Handshake as DeserializeBytes>⟧.names
        ⟦<Handshake as Validate>⟧.places bytes.now result.status result.at result.detail }
    ensures fields { result.status ≡ 0 → AreHandshakeFields bytes.now fields.new }
    ensures kept { result.status ≢ 0 → fields.new ≡ fields.old }
{
    let outcome = validate::<Handshake>(bytes);
    if outcome.status == ACCEPTED {
        *fields = HandshakeFields::locate(bytes);
    }
    outcome
}

/// `ClientHello` (RFC 8446, section 4.1.2), and where its fields are.
#[unsafe(no_mangle)]
pub extern "C" fn tls13_client_hello_locate_prefix(
    bytes: &[u8],
    fields: &mut ClientHelloFields,
) -> Outcome
    ensures status { Decides client_hello_format bytes.now result.status }
    ensures taken { IsTaken client_hello_format bytes.now result.status result.taken }
    ensures rejected { IsRejection ⟦<ClientHello as DeserializeBytes>⟧.names
        ⟦<ClientHello as Validate>⟧.places bytes.now result.status result.at result.detail }
    ensures fields { result.status ≡ 0 → AreClientHelloFields bytes.now fields.new }
    ensures kept { result.status ≢ 0 → fields.new ≡ fields.old }
{
    let outcome = validate::<ClientHello>(bytes);
    if outcome.status == ACCEPTED {
        *fields = ClientHelloFields::locate(bytes);
    }
    outcome
}

/// `ServerHello` (RFC 8446, section 4.1.3), and where its fields are.
#[unsafe(no_mangle)]
pub extern "C" fn tls13_server_hello_locate_prefix(
    bytes: &[u8],
    fields: &mut ServerHelloFields,
) -> Outcome
    ensures status { Decides server_hello_format bytes.now result.status }
    ensures taken { IsTaken server_hello_format bytes.now result.status result.taken }
    ensures rejected { IsRejection ⟦<ServerHello as DeserializeBytes>⟧.names
        ⟦<ServerHello as Validate>⟧.places bytes.now result.status result.at result.detail }
    ensures fields { result.status ≡ 0 → AreServerHelloFields bytes.now fields.new }
    ensures kept { result.status ≢ 0 → fields.new ≡ fields.old }
{
    let outcome = validate::<ServerHello>(bytes);
    if outcome.status == ACCEPTED {
        *fields = ServerHelloFields::locate(bytes);
    }
    outcome
}

/// `EncryptedExtensions` (RFC 8446, section 4.3.1), and where its fields are.
#[unsafe(no_mangle)]
pub extern "C" fn tls13_encrypted_extensions_locate_prefix(
    bytes: &[u8],
    fields: &mut EncryptedExtensionsFields,
) -> Outcome
    ensures status { Decides encrypted_extensions_format bytes.now result.status }
    ensures taken { IsTaken encrypted_extensions_format bytes.now result.status result.taken }
    ensures rejected { IsRejection ⟦<EncryptedExtensions as DeserializeBytes>⟧.names
        ⟦<EncryptedExtensions as Validate>⟧.places bytes.now
        result.status result.at result.detail }
    ensures fields { result.status ≡ 0 → AreEncryptedExtensionsFields bytes.now fields.new }
    ensures kept { result.status ≢ 0 → fields.new ≡ fields.old }
{
    let outcome = validate::<EncryptedExtensions>(bytes);
    if outcome.status == ACCEPTED {
        *fields = EncryptedExtensionsFields::locate(bytes);
    }
    outcome
}

/// `CertificateRequest` (RFC 8446, section 4.3.2), and where its fields are.
#[unsafe(no_mangle)]
pub extern "C" fn tls13_certificate_request_locate_prefix(
    bytes: &[u8],
    fields: &mut CertificateRequestFields,
) -> Outcome
    ensures status { Decides certificate_request_format bytes.now result.status }
    ensures taken { IsTaken certificate_request_format bytes.now result.status result.taken }
    ensures rejected { IsRejection ⟦<CertificateRequest as DeserializeBytes>⟧.names
        ⟦<CertificateRequest as Validate>⟧.places bytes.now
        result.status result.at result.detail }
    ensures fields { result.status ≡ 0 → AreCertificateRequestFields bytes.now fields.new }
    ensures kept { result.status ≢ 0 → fields.new ≡ fields.old }
{
    let outcome = validate::<CertificateRequest>(bytes);
    if outcome.status == ACCEPTED {
        *fields = CertificateRequestFields::locate(bytes);
    }
    outcome
}

/// `Certificate` (RFC 8446, section 4.4.2), and where its fields are.
#[unsafe(no_mangle)]
pub extern "C" fn tls13_certificate_locate_prefix(
    bytes: &[u8],
    fields: &mut CertificateFields,
) -> Outcome
    ensures status { Decides certificate_format bytes.now result.status }
    ensures taken { IsTaken certificate_format bytes.now result.status result.taken }
    ensures rejected { IsRejection ⟦<Certificate as DeserializeBytes>⟧.names
        ⟦<Certificate as Validate>⟧.places bytes.now result.status result.at result.detail }
    ensures fields { result.status ≡ 0 → AreCertificateFields bytes.now fields.new }
    ensures kept { result.status ≢ 0 → fields.new ≡ fields.old }
{
    let outcome = validate::<Certificate>(bytes);
    if outcome.status == ACCEPTED {
        *fields = CertificateFields::locate(bytes);
    }
    outcome
}

/// `CertificateVerify` (RFC 8446, section 4.4.3), and where its fields are.
#[unsafe(no_mangle)]
pub extern "C" fn tls13_certificate_verify_locate_prefix(
    bytes: &[u8],
    fields: &mut CertificateVerifyFields,
) -> Outcome
    ensures status { Decides certificate_verify_format bytes.now result.status }
    ensures taken { IsTaken certificate_verify_format bytes.now result.status result.taken }
    ensures rejected { IsRejection ⟦<CertificateVerify as DeserializeBytes>⟧.names
        ⟦<CertificateVerify as Validate>⟧.places bytes.now result.status result.at result.detail }
    ensures fields { result.status ≡ 0 → AreCertificateVerifyFields bytes.now fields.new }
    ensures kept { result.status ≢ 0 → fields.new ≡ fields.old }
{
    let outcome = validate::<CertificateVerify>(bytes);
    if outcome.status == ACCEPTED {
        *fields = CertificateVerifyFields::locate(bytes);
    }
    outcome
}

/// `NewSessionTicket` (RFC 8446, section 4.6.1), and where its fields are.
#[unsafe(no_mangle)]
pub extern "C" fn tls13_new_session_ticket_locate_prefix(
    bytes: &[u8],
    fields: &mut NewSessionTicketFields,
) -> Outcome
    ensures status { Decides new_session_ticket_format bytes.now result.status }
    ensures taken { IsTaken new_session_ticket_format bytes.now result.status result.taken }
    ensures rejected { IsRejection ⟦<NewSessionTicket as DeserializeBytes>⟧.names
        ⟦<NewSessionTicket as Validate>⟧.places bytes.now result.status result.at result.detail }
    ensures fields { result.status ≡ 0 → AreNewSessionTicketFields bytes.now fields.new }
    ensures kept { result.status ≢ 0 → fields.new ≡ fields.old }
{
    let outcome = validate::<NewSessionTicket>(bytes);
    if outcome.status == ACCEPTED {
        *fields = NewSessionTicketFields::locate(bytes);
    }
    outcome
}

/// `KeyUpdate` (RFC 8446, section 4.6.3), and where its fields are.
#[unsafe(no_mangle)]
pub extern "C" fn tls13_key_update_locate_prefix(
    bytes: &[u8],
    fields: &mut KeyUpdateFields,
) -> Outcome
    ensures status { Decides key_update_format bytes.now result.status }
    ensures taken { IsTaken key_update_format bytes.now result.status result.taken }
    ensures rejected { IsRejection ⟦<KeyUpdate as DeserializeBytes>⟧.names
        ⟦<KeyUpdate as Validate>⟧.places bytes.now result.status result.at result.detail }
    ensures fields { result.status ≡ 0 → AreKeyUpdateFields bytes.now fields.new }
    ensures kept { result.status ≢ 0 → fields.new ≡ fields.old }
{
    let outcome = validate::<KeyUpdate>(bytes);
    if outcome.status == ACCEPTED {
        *fields = KeyUpdateFields::locate(bytes);
    }
    outcome
}

/// `TLSPlaintext` (RFC 8446, section 5.1), and where its fields are.
#[unsafe(no_mangle)]
pub extern "C" fn tls13_tls_plaintext_locate_prefix(
    bytes: &[u8],
    fields: &mut TLSPlaintextFields,
) -> Outcome
    ensures status { Decides tls_plaintext_format bytes.now result.status }
    ensures taken { IsTaken tls_plaintext_format bytes.now result.status result.taken }
    ensures rejected { IsRejection ⟦<TLSPlaintext as DeserializeBytes>⟧.names
        ⟦<TLSPlaintext as Validate>⟧.places bytes.now result.status result.at result.detail }
    ensures fields { result.status ≡ 0 → AreTLSPlaintextFields bytes.now fields.new }
    ensures kept { result.status ≢ 0 → fields.new ≡ fields.old }
{
    let outcome = validate::<TLSPlaintext>(bytes);
    if outcome.status == ACCEPTED {
        *fields = TLSPlaintextFields::locate(bytes);
    }
    outcome
}

/// `TLSCiphertext` (RFC 8446, section 5.2), and where its fields are.
#[unsafe(no_mangle)]
pub extern "C" fn tls13_tls_ciphertext_locate_prefix(
    bytes: &[u8],
    fields: &mut TLSCiphertextFields,
) -> Outcome
    ensures status { Decides tls_ciphertext_format bytes.now result.status }
    ensures taken { IsTaken tls_ciphertext_format bytes.now result.status result.taken }
    ensures rejected { IsRejection ⟦<TLSCiphertext as DeserializeBytes>⟧.names
        ⟦<TLSCiphertext as Validate>⟧.places bytes.now result.status result.at result.detail }
    ensures fields { result.status ≡ 0 → AreTLSCiphertextFields bytes.now fields.new }
    ensures kept { result.status ≢ 0 → fields.new ≡ fields.old }
{
    let outcome = validate::<TLSCiphertext>(bytes);
    if outcome.status == ACCEPTED {
        *fields = TLSCiphertextFields::locate(bytes);
    }
    outcome
}

/// `Alert` (RFC 8446, section 6), and where its fields are.
#[unsafe(no_mangle)]
pub extern "C" fn tls13_alert_locate_prefix(bytes: &[u8], fields: &mut AlertFields) -> Outcome
    ensures status { Decides alert_format bytes.now result.status }
    ensures taken { IsTaken alert_format bytes.now result.status result.taken }
    ensures rejected { IsRejection ⟦<Alert as DeserializeBytes>⟧.names
        ⟦<Alert as Validate>⟧.places bytes.now result.status result.at result.detail }
    ensures fields { result.status ≡ 0 → AreAlertFields bytes.now fields.new }
    ensures kept { result.status ≢ 0 → fields.new ≡ fields.old }
{
    let outcome = validate::<Alert>(bytes);
    if outcome.status == ACCEPTED {
        *fields = AlertFields::locate(bytes);
    }
    outcome
}
