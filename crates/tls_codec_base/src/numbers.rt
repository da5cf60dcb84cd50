//! Whole numbers in k bytes, the most significant first (RFC 8446, section 3.3).
//!
//! Each type's calls go through those of [`digits`](tls_codec_grammar::digits), which know only the
//! width. A reference to a number is written as the number, and is not read.
mod groups;
mod runs;
mod uint16;
mod uint24;
mod uint32;
mod uint64;
mod uint8;
