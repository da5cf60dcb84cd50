//! What tests share.
//!
//! - [`each_call`], [`in_context`]: what each call makes of a value or of bytes. A check fails unless all is as it should be.
//! - [`rows`]: comparisons that name the row at which they fail.
//! - [`tables`]: programs that answer a table of inputs.
#![tactic(auto)]

pub mod each_call;
pub mod in_context;
pub mod rows;
pub mod tables;
