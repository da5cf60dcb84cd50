//! The engines of lists, over how their elements are coded.
//!
//! Elements are coded alone or in a context. The engines know of an element only the contracts of
//! [`coding`].

pub(crate) mod coding;
mod reading;
mod writing;

pub(crate) use reading::{read, split};
pub(crate) use writing::{append, append_at_once, content_len, write};
