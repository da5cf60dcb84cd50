//! What moves bytes under a TLS codec: the errors it returns, the devices that bytes come from and
//! go to, and the calls that move a piece whole, collect a vector, or read and write a
//! variable-length number.
//!
//! The layer above relies on this: [`read_exactly`] and [`write_all`] move a piece whole; or they
//! move a prefix of it and return a named error. The error is tied to a count of the device or to
//! bytes that aren't there.
//!
//! - [`error`]: [`Error`], why a codec rejects bytes or a value.
//! - [`device`]: [`Source`] and [`Sink`], and [`Fault`], why one call of them moved nothing.
//! - [`memory`]: a slice as a source, a vector as a sink.
//! - [`outside`]: [`Outside`], any `Read` or `Write` as a device.
//! - [`bounded`]: [`Bounded`], the first bytes of another source.
//! - [`transfer`]: [`read_exactly`] and [`write_all`], and [`expect_end`]. [`gather`]: [`read_bytes_bounded`](gather::read_bytes_bounded) and
//!   [`gather`](gather::gather).
//! - [`uint24`]: [`U24`], a number of 24 bits.
//! - [`varint`]: [`TlsVarInt`], the number of a variable-length integer (varint).
//! - [`quic`]: variable-length integers, read and written. [`vlen`]: lengths as such integers. Both
//!   use `varint_bits`, numbers below a limit in the least width.
//! - [`laws`]: what devices report, and what errors and numbers stand for.
#![tactic(auto)]

pub mod bounded;
pub mod device;
pub mod error;
pub mod gather;
pub mod laws;
pub mod memory;
pub mod outside;
pub mod quic;
pub mod transfer;
pub mod uint24;
pub mod varint;
mod varint_bits;
pub mod vlen;

pub use bounded::Bounded;
pub use device::{Fault, Fill, Sink, Source};
pub use error::Error;
pub use gather::read_bytes_bounded;
pub use outside::Outside;
pub use transfer::{MAX_INTERRUPTIONS, expect_end, read_exactly, write_all};
pub use uint24::U24;
pub use varint::TlsVarInt;
