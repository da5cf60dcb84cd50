//! What the static libraries report of messages to callers in other languages, as one stored run.
//!
//! Each row of standard input has a message's name in the static libraries and the hex of some
//! bytes, `-` for none, with a tab between. The program prints the row again. After it come what
//! the validator says and what the decoder says, each in the form `STATUS TAKEN AT DETAIL`, with
//! tabs between. For some accepted messages the places of their fields follow, in the form
//! `OFFSET+SIZE`. If the message is whole, the program then flips each of its bits in turn. If the
//! two disagree on anything except the place, the row says so.
//!
//! The static libraries export the calls that are made here. The same rows test callers in C, Rust
//! and Python.
#![tactic(auto)]

mod fields;
mod flips;
mod messages;

use messages::validated_and_decoded;
use std::alloc::{AllocError, Global};
use std::io;
use test_support::tables::{answer_rows, bytes_of};
use tls_codec_outcome::{ACCEPTED, Outcome, Span};

fn main(rt: HostRuntime) -> io::Result<()> {
    answer_rows(rt.alloc(), rt.reader(), io::writer(&rt), answer_of)
}

// What both calls say of a row, and where they disagree once a bit is turned.
fn answer_of(alloc: Global, row: &str) -> Result<String, AllocError> {
    let Some((name, digits)) = row.split_once('\t') else {
        return "no row".to_string(alloc);
    };
    let Some(mut bytes) = bytes_of(alloc, digits) else {
        return "no hex".to_string(alloc);
    };
    let Some((validated, decoded)) = validated_and_decoded(alloc, name, &bytes) else {
        return "no message".to_string(alloc);
    };
    let mut answer = format!(in alloc; "{}\t{}", text(alloc, validated)?, text(alloc, decoded)?)?;
    if validated.status == ACCEPTED {
        for span in fields::located(alloc, name, &bytes)?.iter().enumerate() {
            let (number, Span { offset, size }) = span;
            let before = if number == 0 { "\t" } else { " " };
            write!(answer, "{before}{offset}+{size}")?;
        }
    }
    if validated.taken == bytes.len() {
        if let Some(bit) = flips::first_dispute(alloc, name, &mut bytes) {
            write!(answer, "\tdisputed with bit {bit} turned")?;
        }
    }
    Ok(answer)
}

fn text(alloc: Global, said: Outcome) -> Result<String, AllocError> {
    let Outcome {
        status,
        taken,
        at,
        detail,
    } = said;
    format!(in alloc; "{status} {taken} {at} {detail}")
}
