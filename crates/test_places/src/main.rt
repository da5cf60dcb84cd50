//! The places that calls from other languages report, as one stored run.
//!
//! The calls find the fields of messages of TLS 1.3, the elements of lists, and the wire format of a
//! message of MLS. Each row of standard input has a function's name in the static libraries and the hex of
//! some bytes, `-` for none, with a tab between. The program prints the row again, what the call says, as
//! `STATUS TAKEN AT DETAIL`, and what it fills: places as `OFFSET+SIZE`, a wire format as a number, `-` for
//! nothing.
//!
//! A function `NAME_next` takes the bytes after the length of a list. The program calls it until no element
//! is left or one is rejected. The row has what the last call says, and the place of each element.
//!
//! The static libraries export the calls that are made here. Callers in C, Rust and Python are
//! tested by the same rows.
#![tactic(auto)]

mod elements;
mod fields;
mod wire_formats;

use std::alloc::{AllocError, Global};
use std::io;
use test_support::tables::{answer_rows, bytes_of};
use tls_codec_outcome::{Outcome, Span};

// What the last call says, and what is filled.
type Answer = (Outcome, String);

fn main(rt: HostRuntime) -> io::Result<()> {
    answer_rows(rt.alloc(), rt.reader(), io::writer(&rt), line_of)
}

fn line_of(alloc: Global, row: &str) -> Result<String, AllocError> {
    let Some((name, digits)) = row.split_once('\t') else {
        return "no row".to_string(alloc);
    };
    let Some(bytes) = bytes_of(alloc, digits) else {
        return "no hex".to_string(alloc);
    };
    let Some((outcome, filled)) = answer_of(alloc, name, &bytes)? else {
        return "no call".to_string(alloc);
    };
    let Outcome {
        status,
        taken,
        at,
        detail,
    } = outcome;
    let filled = if filled.is_empty() {
        "-"
    } else {
        filled.as_str()
    };
    format!(in alloc; "{status} {taken} {at} {detail}\t{filled}")
}

fn answer_of(alloc: Global, name: &str, bytes: &[u8]) -> Result<Option<Answer>, AllocError> {
    if let Some(answer) = elements::answer_of(alloc, name, bytes)? {
        return Ok(Some(answer));
    }
    if let Some(answer) = fields::answer_of(alloc, name, bytes)? {
        return Ok(Some(answer));
    }
    wire_formats::answer_of(alloc, name, bytes)
}

// One more place.
fn add(places: &mut String, place: Span) -> Result<(), AllocError> {
    let Span { offset, size } = place;
    let before = if places.is_empty() { "" } else { " " };
    write!(places, "{before}{offset}+{size}")
}
