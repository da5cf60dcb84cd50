//! Where the fields of messages of TLS 1.3 are, found without allocation.
//!
//! Call these only for bytes that were validated: for others nothing is said of the spans. `tls13_c`
//! does both.
#![tactic(auto)]

mod alert;
mod certificate;
mod certificate_request;
mod certificate_verify;
mod client_hello;
mod encrypted_extensions;
mod handshake;
mod key_update;
mod new_session_ticket;
mod server_hello;
mod tls_ciphertext;
mod tls_plaintext;

pub use alert::AlertFields;
pub use certificate::CertificateFields;
pub use certificate_request::CertificateRequestFields;
pub use certificate_verify::CertificateVerifyFields;
pub use client_hello::ClientHelloFields;
pub use encrypted_extensions::EncryptedExtensionsFields;
pub use handshake::HandshakeFields;
pub use key_update::KeyUpdateFields;
pub use new_session_ticket::NewSessionTicketFields;
pub use server_hello::ServerHelloFields;
pub use tls_ciphertext::TLSCiphertextFields;
pub use tls_plaintext::TLSPlaintextFields;
