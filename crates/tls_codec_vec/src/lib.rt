//! Vectors after a length of one to four bytes (RFC 8446, section 3.4): the lists of TLS messages.
//!
//! A vector is the number of bytes of its elements, and then the elements in a row. It is one type over
//! the length field, [`TlsVec`], with a name for each width.
//!
//! - [`list`]: [`TlsVec`] and its calls, and the names [`TlsVecU8`], [`TlsVecU16`], [`TlsVecU24`] and
//!   [`TlsVecU32`].
//! - [`collecting`]: what an iterator gives, as a list.
//! - [`laws`]: how vectors are encoded, converted, copied and compared. Its functions do nothing.
#![tactic(auto)]

mod coding;
pub mod collecting;
mod conversions;
pub mod laws;
pub mod list;

pub use list::{TlsVec, TlsVecU8, TlsVecU16, TlsVecU24, TlsVecU32};
