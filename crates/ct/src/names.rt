//! Other names of types.
use tls_codec::{TlsByteVec, TlsByteVecU16, U24, Within};

/// `opaque ASN.1Cert<1..2^24-1>;` (RFC 6962, section 3.1).
pub type ASN1Cert = TlsByteVec<Within<U24, 1, 16777215>>;

/// `opaque TBSCertificate<1..2^24-1>;` (RFC 6962, section 3.2).
pub type TBSCertificate = TlsByteVec<Within<U24, 1, 16777215>>;

/// `opaque CtExtensions<0..2^16-1>;` (RFC 6962, section 3.2).
pub type CtExtensions = TlsByteVecU16;

/// `opaque SerializedSCT<1..2^16-1>;` (RFC 6962, section 3.3).
pub type SerializedSCT = TlsByteVec<Within<u16, 1, 65535>>;
