//! Errors of types that more than one crate rejects bytes with.

use tls_codec_wire::Error;

/// An element of a vector has no bytes.
pub const NO_BYTES: Error = Error::DecodingError("vector element consumed 0 bytes");

/// The elements of a vector don't end where its length says.
pub const NOT_FILLED: Error = Error::DecodingError("elements do not fill the declared length");

/// The tag of an option is neither 0 nor 1.
pub const OTHER_TAG: Error = Error::DecodingError("option tag is not 0 or 1");

/// The bytes of a text aren't UTF-8.
pub const INVALID_UTF8: Error = Error::DecodingError("invalid utf8");
