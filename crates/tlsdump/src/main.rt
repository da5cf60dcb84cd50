//! `tlsdump [TYPE] [FILE]` shows messages of MLS, TLS 1.3 and Certificate Transparency as a tree, a
//! field a line.
//!
//! ```text
//! $ echo 00010002 01fa 0000000000000007 01 00 01a1 02a2a3 | tlsdump
//! message: MLSMessage
//!   version: mls10 (0x0001)
//!   wire_format: mls_private_message (0x0002)
//!   private_message: PrivateMessage
//!     group_id: 1 byte fa
//! ..
//! ```
//!
//! If the bytes are no message, it prints the lines up to the rejected field, and on standard error
//! the position of this field, its path and what was expected.
//!
//! - [`program`]: [`program`](program::program), from its words to its status; [`command_line`]: the
//!   words that it takes.
//! - [`input`]: all that an input has; [`notation`]: the bytes that it encodes.
//! - [`kinds`]: the types, with proved validators that accept their messages and reject other
//!   bytes; [`texts`]: what they are made of.
//! - [`walk`]: the lines of a message; [`dump`]: the messages that bytes are, one after another.
//! - [`answer`]: what is printed of them; [`show`]: as a tree; [`json`]: as JSON; [`annotations`]: what
//!   bytes mean to a reader; [`expected`]: what was expected at a rejected field, and what is
//!   there.
#![tactic(auto)]

mod annotations;
mod answer;
mod command_line;
mod dump;
mod expected;
mod input;
mod json;
mod kinds;
mod notation;
mod program;
mod show;
mod texts;
mod walk;

use std::process::ExitCode;

fn main(rt: HostRuntime) -> ExitCode {
    program::program(&rt, rt.stdin())
}
