//! What is printed of some bytes.

use crate::dump::Dump;
use crate::expected::{push_expected, push_found};
use crate::json::{push_tree, put_text};
use crate::show::{PrintOptions, begin_line, push_label, push_lines};
use crate::walk::line::{Label, Line};
use crate::walk::stop::{Stop, path};
use serde_json::{Map, Value, put};
use std::alloc::{AllocError, Global};
use tls_codec::Error;

/// What is printed.
#[derive(Drop)]
pub struct Answer {
    /// The messages, up to a rejected field.
    pub shown: String,
    /// Why no message is at the end, or nothing if there is no reason.
    pub reason: String,
}

/// The lines of messages in a row.
pub fn tree(alloc: Global, options: PrintOptions, dump: &Dump<'_>) -> Result<Answer, AllocError> {
    let mut shown = String::new(alloc);
    let mut start = 0;
    for walked in &dump.messages {
        start = push_lines(alloc, &mut shown, options, start, walked.lines.as_slice())?;
    }
    if let Some(rejection) = &dump.rejection {
        push_lines(
            alloc,
            &mut shown,
            options,
            start,
            rejection.walked.lines.as_slice(),
        )?;
        if let Some(stop) = &rejection.walked.stop {
            begin_line(
                &mut shown,
                options,
                start.saturating_add(rejection.at),
                stop.depth,
            )?;
            push_label(&mut shown, stop.label)?;
            shown.push_str(": rejected\n")?;
        }
    }
    let reason = reason(alloc, start, dump)?;
    Ok(Answer { shown, reason })
}

/// Messages in a row as JSON, with the name of their type.
pub fn json(alloc: Global, of: &str, dump: &Dump<'_>) -> Result<Answer, AllocError> {
    let mut messages = Vec::new(alloc);
    let mut members = Map::new(alloc);
    let mut start = 0;
    for walked in &dump.messages {
        start = push_tree(alloc, &mut messages, start, walked.lines.as_slice())?;
    }
    let reason = reason(alloc, start, dump)?;
    if let Some(rejection) = &dump.rejection {
        push_tree(
            alloc,
            &mut messages,
            start,
            rejection.walked.lines.as_slice(),
        )?;
        let at = start.saturating_add(rejection.at);
        put(&mut members, alloc, "rejected_at", Value::from(at as u64))?;
        put_text(&mut members, alloc, "rejection", reason.as_str())?;
    }
    put_text(&mut members, alloc, "type", of)?;
    put(&mut members, alloc, "messages", Value::Array(messages))?;
    let mut shown = Value::Object(members).to_string_pretty(alloc)?;
    shown.push_str("\n")?;
    Ok(Answer { shown, reason })
}

// The line of a rejection, if there is one: `rejected at byte 21, in content.sender.leaf_index:
// EndOfStream: expected uint32 leaf_index, 3 bytes are left`
fn reason(alloc: Global, start: usize, dump: &Dump<'_>) -> Result<String, AllocError> {
    let mut out = String::new(alloc);
    let Some(rejection) = &dump.rejection else {
        return Ok(out);
    };
    let at = start.saturating_add(rejection.at);
    write!(out, "rejected at byte {at}")?;
    let Some(stop) = &rejection.walked.stop else {
        out.push_str(": ")?;
        push_error(&mut out, rejection.error)?;
        return Ok(out);
    };
    out.push_str(", in ")?;
    push_path(alloc, &mut out, stop, rejection.walked.lines.as_slice())?;
    out.push_str(": ")?;
    push_error(&mut out, rejection.error)?;
    out.push_str(": expected ")?;
    push_expected(&mut out, stop.expected)?;
    out.push_str(", ")?;
    push_found(&mut out, stop.found)?;
    Ok(out)
}

// `content.proposals[1].type`, or `message` for all of it.
fn push_path<'a>(
    alloc: Global,
    out: &mut String,
    stop: &Stop<'a>,
    lines: &[Line<'a>],
) -> Result<(), AllocError> {
    let mut labels = path(alloc, lines, stop.depth)?;
    labels.push(stop.label)?;
    for (position, label) in labels.iter().enumerate() {
        if let Label::Field(_) = label {
            if position > 0 {
                out.push_str(".")?;
            }
        }
        push_label(out, *label)?;
    }
    Ok(())
}

// An error as its `Debug` prints it.
fn push_error(out: &mut String, error: Error) -> Result<(), AllocError> {
    match error {
        Error::UnknownValue(value) => write!(out, "UnknownValue({value})"),
        Error::DecodingError(text) => write!(out, "DecodingError(\"{text}\")"),
        _ => out.push_str(error.name()),
    }
}
