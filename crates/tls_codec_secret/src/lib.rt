//! Vectors of key material after a length of one to four bytes (RFC 8446, section 3.4): the lists of
//! `tls_codec_vec`, but they clear their elements when they are dropped. Freed memory may still hold them:
//! see `Zeroize` of `tls_codec_vl`.
//!
//! - [`list`]: [`SecretTlsVec`] and its calls, and the names [`SecretTlsVecU8`], [`SecretTlsVecU16`],
//!   [`SecretTlsVecU24`] and [`SecretTlsVecU32`].
//! - [`laws`]: how vectors are encoded, converted, compared and cleared. Its functions do nothing.
#![tactic(auto)]

mod coding;
mod conversions;
pub mod laws;
pub mod list;

pub use list::{SecretTlsVec, SecretTlsVecU8, SecretTlsVecU16, SecretTlsVecU24, SecretTlsVecU32};
