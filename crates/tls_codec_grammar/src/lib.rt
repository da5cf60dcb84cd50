//! What the formats of the TLS presentation language are (RFC 8446, section 3): which bytes encode
//! which value, which laws a format meets, and what decoders and encoders of it return.
//!
//! The definitions are in `specs`. The calls here need no trait of a value: they know the width of
//! a number, or the encoding of a length.
//!
//! - [`digits`]: numbers of k bytes.
//! - [`length_field`]: [`LengthField`], what comes before a content and says how many bytes it has;
//!   [`Within`], such a length with bounds.
//! - [`opaque`]: bytes after their length, as in byte vectors and strings.
//! - [`examples`] and [`context_examples`]: the definitions at work. They do nothing when they run.
#![tactic(auto)]

pub mod context_examples;
pub mod digits;
pub mod examples;
pub mod length_field;
pub mod opaque;

pub use length_field::{LengthField, Within};
