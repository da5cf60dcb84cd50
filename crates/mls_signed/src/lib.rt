//! What is signed of a message of MLS, written from the encodings of its parts.
#![tactic(auto)]

mod signed_content;

pub use signed_content::{FramedContentTBSParts, framed_content_tbs};
