//! Results of calls for callers in C, C++, Rust, Python and others, in plain numbers.
//!
//! A static library exports functions whose arguments and results are numbers. This crate has what is common to them:
//!
//! - [`Outcome`]: the result of a call.
//! - [`validate`]: whether bytes begin with an encoding, without memory. [`decode_check`]: the same by the decoder, which makes
//!   the value.
//! - [`Locate`]: where the parts of a message are, each a [`Span`]. [`Field`], [`Content`],
//!   [`TagAndBody`], [`DependentFields`]: a part; a tuple of parts is one too. [`field_at`], [`content_at`], [`tag_at`]: one alone.
//! - [`next`]: the elements of a list, one after another.
//! - [`status_of`], [`detail_of`]: the numbers of an error.
#![tactic(auto)]

mod calls;
mod case;
mod decided;
mod elements;
mod fields;
mod locate;
mod outcome;
mod statuses;

pub use calls::{decode_check, validate};
pub use case::{TagAndBody, TaggedEnum};
pub use decided::DependentFields;
pub use elements::next;
pub use fields::{Span, content_at, field_at, tag_at};
pub use locate::{Content, Field, Locate};
pub use outcome::{ACCEPTED, Outcome};
pub use statuses::{detail_of, status_of};
