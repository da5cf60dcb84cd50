//! What the bytes of a field are, where another field or the text around says so.

use crate::walk::scope::Scope;

/// The type of a field's bytes, if it is known.
pub(crate) fn content_of(
    scope: &Scope<'_>,
    owner: &str,
    field: &str,
    content: &[u8],
) -> Option<&'static str> {
    match (owner, field) {
        ("Extension", "extension_data") => {
            let name = scope.of("Extension", "extension_type")?.name?;
            extension(name).or_else(|| extension_of(scope, name, content))
        }
        ("TLSPlaintext", "fragment") => fragment(scope.of("TLSPlaintext", "type")?.name?),
        ("SerializedSCT", _) => Some("SignedCertificateTimestamp"),
        _ => None,
    }
}

// The type of what a record has.
fn fragment(name: &str) -> Option<&'static str> {
    match name {
        "handshake" => Some("HandshakeMessages"),
        "alert" => Some("Alert"),
        _ => None,
    }
}

// The type of an extension's data, whichever message it is in: of MLS (RFC 9420, section 17.3),
// then of TLS 1.3 (RFC 8446, section 4.2).
fn extension(name: &str) -> Option<&'static str> {
    match name {
        "application_id" => Some("ApplicationId"),
        "ratchet_tree" => Some("RatchetTree"),
        "required_capabilities" => Some("RequiredCapabilities"),
        "external_pub" => Some("ExternalPub"),
        "external_senders" => Some("ExternalSenders"),
        "supported_groups" => Some("NamedGroupList"),
        "signature_algorithms" | "signature_algorithms_cert" => Some("SignatureSchemeList"),
        "cookie" => Some("Cookie"),
        "psk_key_exchange_modes" => Some("PskKeyExchangeModes"),
        "certificate_authorities" => Some("CertificateAuthoritiesExtension"),
        "oid_filters" => Some("OIDFilterExtension"),
        "post_handshake_auth" => Some("PostHandshakeAuth"),
        _ => None,
    }
}

// The type of an extension's data that depends on the message: two bytes of a server's key share
// are a request to retry.
fn extension_of(scope: &Scope<'_>, name: &str, content: &[u8]) -> Option<&'static str> {
    let message = scope.of("Handshake", "msg_type")?.name?;
    match (name, message) {
        ("supported_versions", _) => Some("SupportedVersions"),
        ("pre_shared_key", _) => Some("PreSharedKeyExtension"),
        ("early_data", _) => Some("EarlyDataIndication"),
        ("key_share", "client_hello") => Some("KeyShareClientHello"),
        ("key_share", "server_hello") if content.len() == 2 => Some("KeyShareHelloRetryRequest"),
        ("key_share", "server_hello") => Some("KeyShareServerHello"),
        ("signed_certificate_timestamp", "certificate") => Some("SignedCertificateTimestampList"),
        _ => None,
    }
}

/// The type of handshake message that a struct of this name is in, and the number of that type.
pub(crate) fn role_of(of: &str) -> Option<(&'static str, u64)> {
    match of {
        "ClientHello" => Some(("client_hello", 1)),
        "ServerHello" => Some(("server_hello", 2)),
        "NewSessionTicket" => Some(("new_session_ticket", 4)),
        "EncryptedExtensions" => Some(("encrypted_extensions", 8)),
        "Certificate" | "CertificateEntry" => Some(("certificate", 11)),
        "CertificateRequest" => Some(("certificate_request", 13)),
        _ => None,
    }
}

/// The name of a version (RFC 8446, sections 4.1.2 and 4.2.1) or of a suite (its appendix B.4). The texts
/// don't name these numbers.
pub(crate) fn code_name(of: &str, number: u64) -> Option<&'static str> {
    match (of, number) {
        ("ProtocolVersion", 0x0301) => Some("TLS 1.0"),
        ("ProtocolVersion", 0x0302) => Some("TLS 1.1"),
        ("ProtocolVersion", 0x0303) => Some("TLS 1.2"),
        ("ProtocolVersion", 0x0304) => Some("TLS 1.3"),
        ("CipherSuite", 0x1301) => Some("TLS_AES_128_GCM_SHA256"),
        ("CipherSuite", 0x1302) => Some("TLS_AES_256_GCM_SHA384"),
        ("CipherSuite", 0x1303) => Some("TLS_CHACHA20_POLY1305_SHA256"),
        ("CipherSuite", 0x1304) => Some("TLS_AES_128_CCM_SHA256"),
        ("CipherSuite", 0x1305) => Some("TLS_AES_128_CCM_8_SHA256"),
        _ => None,
    }
}
