//! Where the fields of messages of TLS 1.3 are.
use crate::{Answer, add};
use std::alloc::{AllocError, Global};
use tls_codec_outcome::{ACCEPTED, Span, validate};
use tls_codec_validate::Validate;
use tls13::{
    Alert, Certificate, CertificateRequest, CertificateVerify, ClientHello, EncryptedExtensions,
    Handshake, KeyUpdate, NewSessionTicket, ServerHello, TLSCiphertext, TLSPlaintext,
};
use tls13_fields::{
    AlertFields, CertificateFields, CertificateRequestFields, CertificateVerifyFields,
    ClientHelloFields, EncryptedExtensionsFields, HandshakeFields, KeyUpdateFields,
    NewSessionTicketFields, ServerHelloFields, TLSCiphertextFields, TLSPlaintextFields,
};

/// The places of the fields of the message that the bytes begin with. None: no call has this name.
pub fn answer_of(alloc: Global, name: &str, bytes: &[u8]) -> Result<Option<Answer>, AllocError> {
    let answer = match name {
        "tls13_client_hello_locate_prefix" => {
            let it = ClientHelloFields::locate(bytes);
            let front = [it.legacy_version, it.random, it.legacy_session_id];
            let back = [
                it.cipher_suites,
                it.legacy_compression_methods,
                it.extensions,
            ];
            located::<ClientHello>(alloc, bytes, &front, &back)?
        }
        "tls13_server_hello_locate_prefix" => {
            let it = ServerHelloFields::locate(bytes);
            let front = [it.legacy_version, it.random, it.legacy_session_id_echo];
            let back = [it.cipher_suite, it.legacy_compression_method, it.extensions];
            located::<ServerHello>(alloc, bytes, &front, &back)?
        }
        "tls13_certificate_locate_prefix" => {
            let it = CertificateFields::locate(bytes);
            let all = [it.certificate_request_context, it.certificate_list];
            located::<Certificate>(alloc, bytes, &all, &[])?
        }
        "tls13_certificate_verify_locate_prefix" => {
            let it = CertificateVerifyFields::locate(bytes);
            located::<CertificateVerify>(alloc, bytes, &[it.algorithm, it.signature], &[])?
        }
        "tls13_new_session_ticket_locate_prefix" => {
            let it = NewSessionTicketFields::locate(bytes);
            let front = [it.ticket_lifetime, it.ticket_age_add, it.ticket_nonce];
            located::<NewSessionTicket>(alloc, bytes, &front, &[it.ticket, it.extensions])?
        }
        _ => return answer_of_others(alloc, name, bytes),
    };
    Ok(Some(answer))
}

fn answer_of_others(alloc: Global, name: &str, bytes: &[u8]) -> Result<Option<Answer>, AllocError> {
    let answer = match name {
        "tls13_handshake_locate_prefix" => {
            let it = HandshakeFields::locate(bytes);
            located::<Handshake>(alloc, bytes, &[it.msg_type, it.body], &[])?
        }
        "tls13_encrypted_extensions_locate_prefix" => {
            let it = EncryptedExtensionsFields::locate(bytes);
            located::<EncryptedExtensions>(alloc, bytes, &[it.extensions], &[])?
        }
        "tls13_certificate_request_locate_prefix" => {
            let it = CertificateRequestFields::locate(bytes);
            let all = [it.certificate_request_context, it.extensions];
            located::<CertificateRequest>(alloc, bytes, &all, &[])?
        }
        "tls13_key_update_locate_prefix" => {
            let it = KeyUpdateFields::locate(bytes);
            located::<KeyUpdate>(alloc, bytes, &[it.request_update], &[])?
        }
        "tls13_tls_plaintext_locate_prefix" => {
            let it = TLSPlaintextFields::locate(bytes);
            let all = [it.kind, it.legacy_record_version, it.fragment];
            located::<TLSPlaintext>(alloc, bytes, &all, &[])?
        }
        "tls13_tls_ciphertext_locate_prefix" => {
            let it = TLSCiphertextFields::locate(bytes);
            let all = [
                it.opaque_type,
                it.legacy_record_version,
                it.encrypted_record,
            ];
            located::<TLSCiphertext>(alloc, bytes, &all, &[])?
        }
        "tls13_alert_locate_prefix" => {
            let it = AlertFields::locate(bytes);
            located::<Alert>(alloc, bytes, &[it.level, it.description], &[])?
        }
        _ => return Ok(None),
    };
    Ok(Some(answer))
}

// What the validator says, and the places if it accepts.
fn located<T: Validate>(
    alloc: Global,
    bytes: &[u8],
    front: &[Span],
    back: &[Span],
) -> Result<Answer, AllocError> {
    let outcome = validate::<T>(bytes);
    let mut places = String::new(alloc);
    if outcome.status == ACCEPTED {
        for place in front.iter().chain(back) {
            add(&mut places, *place)?;
        }
    }
    Ok((outcome, places))
}
