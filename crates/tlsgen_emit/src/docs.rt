//! Doc comments.

use std::alloc::{AllocError, Global};

// How many columns of a line are text.
const COLUMNS: usize = 88;

/// The doc comment of a text. A line that is too long goes on in the next.
pub fn doc(alloc: Global, text: &str) -> Result<String, AllocError> {
    let mut out = String::new(alloc);
    for line in text.lines() {
        push_line(&mut out, line)?;
    }
    Ok(out)
}

fn push_line(out: &mut String, line: &str) -> Result<(), AllocError> {
    out.push_str("///")?;
    let mut columns = 0usize;
    for word in line.split_ascii_whitespace() {
        let end = columns.saturating_add(word.len());
        if columns > 0 && end > COLUMNS {
            out.push_str("\n///")?;
            columns = 0;
        }
        out.push_str(" ")?;
        out.push_str(word)?;
        columns = columns.saturating_add(word.len()).saturating_add(1);
    }
    out.push_str("\n")
}
