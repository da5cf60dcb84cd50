//! Other names of types.
use tls_codec::VLBytes;

/// `opaque HashReference<V>;` (RFC 9420, section 5.2).
pub type HashReference = VLBytes;

/// `HashReference KeyPackageRef;` (RFC 9420, section 5.2).
pub type KeyPackageRef = HashReference;

/// `HashReference ProposalRef;` (RFC 9420, section 5.2).
pub type ProposalRef = HashReference;

/// `opaque MAC<V>;` (RFC 9420, section 6.1).
pub type MAC = VLBytes;
