//! Byte vectors after a length of one to four bytes (RFC 8446, section 3.4): `opaque` of TLS 1.3, such
//! as `opaque session_id<0..32>`.
//!
//! Their bytes are moved in bulk. A declared length requests 4,096 bytes at most: more as the bytes come.
//!
//! - [`bytes`]: [`TlsByteVec`] and its own calls, under a name for each width.
//! - [`coding`]: how it is written and read.
//! - [`laws`]: how byte vectors are encoded, converted, copied and compared. Its functions do nothing.
#![tactic(auto)]

pub mod bytes;
pub mod coding;
pub mod laws;

pub use bytes::{TlsByteVec, TlsByteVecU8, TlsByteVecU16, TlsByteVecU24, TlsByteVecU32};
