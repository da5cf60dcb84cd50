//! The presentation language of TLS (RFC 8446, section 3), and the variable-length vectors of MLS
//! (RFC 9420, section 2.1.2). Validation is in `tls_codec_validate`, reading in place in
//! `tls_codec_views`, enums with parts in `tls_codec_cases`.
//!
//! - The traits: [`Size`], [`Serialize`], [`SerializeBytes`], [`Deserialize`], [`DeserializeBytes`].
//!   Integers, arrays, options, pairs and triples, boxes, vectors and strings of `std` have them.
//! - What bytes come from and go to: [`Source`], [`Sink`], [`Bounded`], [`Outside`]; and the [`Error`]
//!   that a call returns if it rejects bytes or a value, or fails.
//! - [`U24`], a number of three bytes, and [`TlsVarInt`], a variable-length integer (varint) of one
//!   to eight bytes.
//! - Byte vectors after a variable-length length: [`VLBytes`], [`VLByteVec`], [`VLByteSlice`].
//! - Vectors after a length of one to four bytes: [`TlsVecU8`] and siblings; of bytes [`TlsByteVecU8`]
//!   and siblings; wrappers of slices [`TlsSliceU8`], [`TlsByteSliceU8`] and siblings.
//! - [`Within`]: such a length with bounds, as of `CipherSuite cipher_suites<2..2^16-2>`, which is a
//!   `TlsVec<Within<u16, 2, 65534>, CipherSuite>`.
//! - Key material that is cleared when it is dropped, though freed memory may still hold it:
//!   [`SecretVLBytes`], [`SecretVLByteVec`], [`SecretTlsVecU8`] and siblings. [`Zeroize`] says why.
//! - [`vlen`]: lengths as variable-length integers. [`lists`]: the engines that every list goes through.
//! - [`deserialize_to_end`]: a value and the end of its source, as in a file that holds one message;
//!   [`expect_end`]: the end alone.
//! - [`ByRef`]: a borrowed value, to write messages of your own; [`ByRef2`] to [`ByRef9`]: two to nine of them in
//!   a row.
//! - Parts that an earlier field or another struct decides: the traits [`SizeFor`], [`SerializeFor`],
//!   [`DeserializeFor`] and [`DeserializeBytesFor`] of a type in a context; [`Then`], a first part and what it decides;
//!   [`When`], a part that is there or not, by a [`Condition`]; and [`context`] for the rest.
//! - [`unknown_value`]: the error for a tag that an enum of your own doesn't have. [`reserve_encoding`]:
//!   room for a whole encoding at once.
//! - [`laws`]: what holds of the encodings of every type with the traits. [`error_laws`]: where two
//!   errors come from.
#![tactic(auto)]

pub mod contexts;
pub mod equality;
pub mod types;

pub use tls_codec_base::{
    Always, ByRef, ByRef2, ByRef3, ByRef4, ByRef5, ByRef6, ByRef7, ByRef8, ByRef9, ByRefIn,
    ByRefThen, ByRefThen2, ByRefWhen, Condition, Deserialize, DeserializeBytes,
    DeserializeBytesFor, DeserializeFor, LengthField, Serialize, SerializeBytes, SerializeFor,
    Size, SizeFor, Then, When, Within, context, deserialize_to_end, error_laws, laws, lists,
    reserve_encoding, unknown_value,
};
pub use tls_codec_bytes::{TlsByteVec, TlsByteVecU8, TlsByteVecU16, TlsByteVecU24, TlsByteVecU32};
pub use tls_codec_secret::{
    SecretTlsVec, SecretTlsVecU8, SecretTlsVecU16, SecretTlsVecU24, SecretTlsVecU32,
};
pub use tls_codec_slice::{
    TlsByteSliceU8, TlsByteSliceU16, TlsByteSliceU24, TlsByteSliceU32, TlsSliceU8, TlsSliceU16,
    TlsSliceU24, TlsSliceU32,
};
pub use tls_codec_vec::{TlsVec, TlsVecU8, TlsVecU16, TlsVecU24, TlsVecU32};
pub use tls_codec_vl::{
    SecretVLByteVec, SecretVLBytes, SecretVarBytes, VLByteSlice, VLByteVec, VLBytes, VarBytes,
    Zeroize,
};
pub use tls_codec_wire::{
    Bounded, Error, Fault, Fill, MAX_INTERRUPTIONS, Outside, Sink, Source, TlsVarInt, U24,
    expect_end, read_bytes_bounded, read_exactly, vlen, write_all,
};
