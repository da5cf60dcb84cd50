//! What a line's bytes mean to a reader: a text, a date, a number that is there to be ignored.

use crate::walk::line::{Label, Line};
use jiff::Timestamp;
use std::alloc::{AllocError, Global};

// The fields whose bytes may be a text.
static TEXTS: [&str; 3] = ["identity", "application_id", "label"];

/// The text that a field's bytes are, if it may be one and they can be printed.
pub fn printable_text<'a>(line: &Line<'a>) -> Option<&'a str> {
    let Label::Field(name) = line.label else {
        return None;
    };
    if !TEXTS.contains(&name) {
        return None;
    }
    let text = str::from_utf8(line.content()).ok()?;
    if text.is_empty() || !text.chars().all(can_be_printed) {
        return None;
    }
    Some(text)
}

// Whether a character is seen as itself, and doesn't change what is around it.
fn can_be_printed(one: char) -> bool {
    match one {
        '"' | '\\' => false,
        ' '..='~' => true,
        _ => one.is_alphanumeric(),
    }
}

/// The date that a number is, if it is one: seconds of a lifetime (RFC 9420, section 7.2),
/// milliseconds of a timestamp (RFC 6962, section 3.2).
pub fn date_of(alloc: Global, line: &Line<'_>) -> Result<Option<String>, AllocError> {
    let Ok(number) = i64::try_from(line.number()) else {
        return Ok(None);
    };
    let found = match line.label {
        Label::Field("not_before" | "not_after") => Timestamp::from_second(number),
        Label::Field("timestamp") => Timestamp::from_millisecond(number),
        _ => return Ok(None),
    };
    match found {
        Ok(date) => Ok(Some(format!(in alloc; "{date}")?)),
        Err(_) => Ok(None),
    }
}

/// What a number is called: by this name, or `GREASE` if it has none and is sent to be ignored.
pub fn name_or_grease<'a>(name: Option<&'a str>, bytes: &[u8]) -> Option<&'a str> {
    match name {
        None if is_grease(bytes) => Some("GREASE"),
        _ => name,
    }
}

// Whether a number is one of those that are sent to be ignored (RFC 8701; RFC 9420, section 13.5):
// `0x0a0a`, `0x1a1a` and so on.
fn is_grease(bytes: &[u8]) -> bool {
    match bytes {
        [first, second] => first == second && first & 0x0f == 0x0a,
        _ => false,
    }
}
