//! Structs of the handshake of TLS 1.3, each as RFC 8446 prints it.
//!
//! - [`Certificate`], whose entries are certificates or keys by the [`CertificateType`] that was agreed on (section 4.4.2).
//! - [`Handshake`], a message whose body fills its length (section 4).
//! - [`KeyShare`], the data of an extension that differ by message (section 4.2.8).
#![tactic(auto)]

pub mod certificate;
pub mod certificate_data;
pub mod certificate_entry;
pub mod certificate_type;
pub mod certificate_verify;
pub mod extension;
pub mod handshake;
pub mod key_share;
pub mod key_share_entry;
pub mod key_update_request;

pub use certificate::Certificate;
pub use certificate_data::{CertificateBytes, CertificateData};
pub use certificate_entry::CertificateEntry;
pub use certificate_type::CertificateType;
pub use certificate_verify::CertificateVerify;
pub use extension::Extension;
pub use handshake::{Handshake, UnknownHandshake};
pub use key_share::KeyShare;
pub use key_share_entry::KeyShareEntry;
pub use key_update_request::KeyUpdateRequest;
