//! What a program reads that shows messages: an input of limited size, as a hex text.
//!
//! - [`text`]: [`read_text`](text::read_text), all that an input gives; [`decode`](text::decode), the bytes that its
//!   hex stands for.
//! - [`fault`]: [`InputFault`](fault::InputFault), why there are none, and the line that says so.
//! - [`laws`]: how faults are compared.
#![tactic(auto)]

pub mod fault;
pub mod laws;
pub mod text;
