//! Byte vectors after a variable-length length (RFC 9420, section 2.1.2): the type that messages of MLS are
//! mostly made of.
//!
//! Their bytes are moved in bulk from any source. Those of a `Vec<u8>`, which has the same
//! encodings, are moved in bulk if the source has them in memory. A declared length requests
//! 4,096 bytes at most: more as the bytes come.
//!
//! - [`var_bytes`]: [`VarBytes`], under two names: [`VLBytes`] and [`VLByteVec`]. [`names`]: what
//!   distinguishes them.
//! - [`vl_byte_slice`]: [`VLByteSlice`], borrowed bytes, which are written and not read.
//! - [`zeroize`]: [`Zeroize`], values that empty themselves.
//! - [`secret_var_bytes`]: [`SecretVarBytes`], a [`VarBytes`] that is cleared when it is dropped, under two
//!   names: [`SecretVLBytes`] and [`SecretVLByteVec`].
//! - [`laws`]: conversions, copies, comparisons, `{:?}`, and clearing. Their functions do nothing. What the types
//!   stand for, and how they are encoded: `types` of `tls_codec`.
#![tactic(auto)]

pub mod laws;
pub mod names;
pub mod secret_var_bytes;
mod show;
pub mod var_bytes;
pub mod vl_byte_slice;
pub mod zeroize;

pub use secret_var_bytes::{SecretVLByteVec, SecretVLBytes, SecretVarBytes};
pub use var_bytes::{VLByteVec, VLBytes, VarBytes};
pub use vl_byte_slice::VLByteSlice;
pub use zeroize::Zeroize;
