//! Other names of types.
use tls_codec::VLBytes;

/// `opaque HPKEPublicKey<V>;` (RFC 9420, section 5.1.1).
pub type HPKEPublicKey = VLBytes;

/// `opaque SignaturePublicKey<V>;` (RFC 9420, section 5.1.1).
pub type SignaturePublicKey = VLBytes;
