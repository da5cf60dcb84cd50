//! What is written for a file of the presentation language: messages whose names, types and tags are settled.
//!
//! - [`plan`]: [`Plan`](plan::Plan), the messages that are written, each with its fields and its tags.
//! - [`lists`]: fields, values and cases in a row, in which each name and each number comes once.
//! - [`messages`]: [`Messages`](messages::Messages), messages that can all be written.
//! - [`emitted`]: [`Written`](emitted::Written), a file of a written crate.
//! - [`borrowed`]: [`runs_of`](borrowed::runs_of), how the fields of a borrowed struct are written in a row.
//! - [`names`]: what types, fields and values are named in the written sources. [`words`]: which names these can't be.
//! - [`layout`]: [`first_difference`](layout::first_difference), where two written sources differ in more than their layout.
//! - [`width`]: how many bytes a tag and a number have.
#![tactic(auto)]

pub mod borrowed;
pub mod emitted;
pub mod layout;
pub mod lists;
pub mod messages;
pub mod names;
pub mod plan;
pub mod width;
pub mod words;
