//! Wrappers around slices. They write borrowed content after a length of one to four bytes
//! (RFC 8446, section 3.4).
//!
//! No vector is built. What they write is read by the vectors of the same width.
//!
//! - [`elements`]: [`TlsSliceU8`] and siblings, for elements of any type that is written.
//! - [`bytes`]: [`TlsByteSliceU8`] and siblings, for bytes, which are moved in bulk.
//! - [`laws`]: a copy of a wrapper is equal to it. Its function does nothing. What wrappers stand for, and how
//!   they are encoded: `types` of `tls_codec`.
#![tactic(auto)]

pub mod bytes;
pub mod elements;
pub mod laws;

pub use bytes::{TlsByteSliceU8, TlsByteSliceU16, TlsByteSliceU24, TlsByteSliceU32};
pub use elements::{TlsSliceU8, TlsSliceU16, TlsSliceU24, TlsSliceU32};
