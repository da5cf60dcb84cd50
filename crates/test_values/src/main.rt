//! Worked values of the public types: which bytes each decoder reads, which it rejects, and what each
//! encoder writes. All rows are one stored run.
//!
//! A row of standard input has a type, a call and bytes, with tabs between. The program prints the row and, after
//! another tab, its answer. A line that begins with `#` says what the rows after it show, and is printed as it is.
//!
//! | Call | What is done |
//! |---|---|
//! | `value` | all decoders read a value of the type from the bytes, validation says the same, and all encoders write it ([`decoded`], [`encoded`]) |
//! | `elements N` | the list engines read elements of the type from the first `N` bytes ([`elements`]) |
//! | `content` | all encoders write the list or byte vector that has these bytes in it |
//!
//! The answer of `u16`, `value` and `0102ee` is `258, rest ee, exact forms refuse TrailingData, written 0102`; with no
//! byte left it is `exact`, if the exact forms return the same value. Where the two paths name different errors,
//! the second is after `by reader`. What calls of one row disagree about is added to its answer.
//!
//! [`notation`] says how bytes and values are written. The answers in `stdout` come from RFCs and
//! from bytes that were worked out by hand, not from the program.
#![tactic(auto)]

mod decoded;
mod elements;
mod encoded;
mod notation;
mod row;
mod sources;
mod types;
mod value;

use std::alloc::{AllocError, Global};
use std::io;
use std::io::{BufRead, BufReader, BufWriter, Write};

fn main(rt: HostRuntime) -> io::Result<()> {
    let alloc = rt.alloc();
    let mut out = BufWriter::new(alloc, io::writer(&rt))?;
    for line in BufReader::new(alloc, rt.reader())?.lines(alloc) {
        let answered = answered(alloc, line?.as_str())?;
        writeln!(out, "{answered}")?;
    }
    out.flush()
}

// The line, and the answer of a row.
fn answered(alloc: Global, line: &str) -> Result<String, AllocError> {
    let mut answered = String::from_str(alloc, line)?;
    if !line.starts_with('#') {
        answered.push('\t')?;
        types::answer(alloc, line, &mut answered)?;
    }
    Ok(answered)
}
