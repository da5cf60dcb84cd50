//! Lines as text.

use crate::annotations::{date_of, name_or_grease, printable_text};
use crate::walk::line::{Label, Line, Shown};
use std::alloc::{AllocError, Global};

/// How lines are printed.
#[derive(Clone, Copy)]
pub struct PrintOptions {
    /// Each line begins with the position of its first byte.
    pub has_offsets: bool,
    /// Of more than 32 bytes the first 16 are printed.
    pub is_short: bool,
}

/// Adds the lines of a message, whose first byte has this position. Returns the position after the
/// message.
pub fn push_lines(
    alloc: Global,
    out: &mut String,
    options: PrintOptions,
    start: usize,
    lines: &[Line<'_>],
) -> Result<usize, AllocError> {
    let mut at = start;
    for line in lines {
        push_line(alloc, out, options, at, line)?;
        at = at.saturating_add(line.bytes.len());
    }
    Ok(at)
}

// Adds a line.
fn push_line(
    alloc: Global,
    out: &mut String,
    options: PrintOptions,
    at: usize,
    line: &Line<'_>,
) -> Result<(), AllocError> {
    begin_line(out, options, at, line.depth)?;
    push_label(out, line.label)?;
    out.push_str(": ")?;
    push_shown(alloc, out, options, line)?;
    out.push_str("\n")
}

/// Begins a line of a field at this position and depth.
pub fn begin_line(
    out: &mut String,
    options: PrintOptions,
    at: usize,
    depth: usize,
) -> Result<(), AllocError> {
    if options.has_offsets {
        write!(out, "{at:>8}  ")?;
    }
    for _ in 0..depth {
        out.push_str("  ")?;
    }
    Ok(())
}

/// A field's name, or the position of an element as `[2]`.
pub fn push_label(out: &mut String, label: Label<'_>) -> Result<(), AllocError> {
    match label {
        Label::Field(name) => out.push_str(name),
        Label::Element(position) => write!(out, "[{position}]"),
    }
}

// What a line shows after its label.
fn push_shown(
    alloc: Global,
    out: &mut String,
    options: PrintOptions,
    line: &Line<'_>,
) -> Result<(), AllocError> {
    match line.shown {
        Shown::Struct(name) | Shown::Present(name) | Shown::Opened(_, name) => out.push_str(name),
        Shown::List(count) => push_count(out, count, "element"),
        Shown::Cut(count) => {
            push_count(out, count, "element")?;
            out.push_str(", and one that is rejected")
        }
        Shown::Absent => out.push_str("none"),
        Shown::Number => push_number(alloc, out, line),
        Shown::Code(name) => push_code(alloc, out, line, name),
        Shown::Bytes(_, why) => {
            push_bytes(alloc, out, options, line.content())?;
            push_text(out, line)?;
            match why {
                Some(of) => write!(out, " (no {of})"),
                None => Ok(()),
            }
        }
        Shown::Unread => push_bytes(alloc, out, options, line.bytes),
    }
}

// How many there are of this.
fn push_count(out: &mut String, count: usize, of: &str) -> Result<(), AllocError> {
    match count {
        1 => write!(out, "1 {of}"),
        _ => write!(out, "{count} {of}s"),
    }
}

// A number, and the date that it stands for, if it does.
fn push_number(alloc: Global, out: &mut String, line: &Line<'_>) -> Result<(), AllocError> {
    let number = line.number();
    write!(out, "{number}")?;
    match date_of(alloc, line)? {
        Some(date) => write!(out, " ({date})"),
        None => Ok(()),
    }
}

// A number in hex, after its name if it has one.
fn push_code(
    alloc: Global,
    out: &mut String,
    line: &Line<'_>,
    name: Option<&str>,
) -> Result<(), AllocError> {
    let digits = hex::encode(alloc, line.bytes)?;
    match name_or_grease(name, line.bytes) {
        Some(name) => write!(out, "{name} (0x{digits})"),
        None => write!(out, "0x{digits}"),
    }
}

// Bytes, as how many there are and their hex.
fn push_bytes(
    alloc: Global,
    out: &mut String,
    options: PrintOptions,
    bytes: &[u8],
) -> Result<(), AllocError> {
    push_count(out, bytes.len(), "byte")?;
    if bytes.is_empty() {
        return Ok(());
    }
    out.push_str(" ")?;
    match bytes.get(..16) {
        Some(first) if options.is_short && bytes.len() > 32 => {
            out.push_str(hex::encode(alloc, first)?.as_str())?;
            out.push_str("..")
        }
        _ => out.push_str(hex::encode(alloc, bytes)?.as_str()),
    }
}

// The text that a line's bytes are, if they are one.
fn push_text(out: &mut String, line: &Line<'_>) -> Result<(), AllocError> {
    match printable_text(line) {
        Some(text) => write!(out, " \"{text}\""),
        None => Ok(()),
    }
}
