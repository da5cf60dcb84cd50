//! Comments, and the headings among them.
ghost use Rattle.std.specs.Prelude.{◌≡◌, IfSome};
ghost use Rattle.tlsgen_syntax.specs.Comments.{marked};

use crate::rejection::Place;
use std::alloc::AllocError;

/// What a comment says, and what is around it.
#[derive(Drop)]
pub(crate) struct Comment<'a> {
    /// What is between its marks.
    pub(crate) text: &'a str,
    /// It ends with its line.
    pub(crate) is_line: bool,
    pub(crate) place: Place,
    /// The line on which it ends.
    pub(crate) last: usize,
    /// How many tokens are before it.
    pub(crate) before: usize,
}

/// `// ---- RFC 9420, section 6.3.2, sender data`: the number of an RFC, and the section of the definitions below.
#[derive(Clone, Copy)]
pub(crate) struct Heading<'a> {
    pub(crate) rfc: Option<&'a str>,
    pub(crate) section: Option<Section<'a>>,
}

/// `section 6.3.2` or `appendix B.1`.
#[derive(Clone, Copy)]
pub(crate) struct Section<'a> {
    pub(crate) word: &'a str,
    pub(crate) number: &'a str,
}

/// The comment that a text between two places is, if it is one.
pub(crate) fn comment_of<'a>(
    text: &'a str,
    place: Place,
    end: Place,
    before: usize,
) -> Option<Comment<'a>>
    ensures whole { IfSome result (λ comment. marked comment.is_line comment.text.now ≡ text.now) }
    ensures at { IfSome result (λ comment. comment.place ≡ place) }
    ensures before { IfSome result (λ comment. comment.before ≡ before) }
{
    let (text, is_line) = match text.strip_prefix("//") {
        Some(text) => (text, true),
        None => (text.strip_prefix("/*")?.strip_suffix("*/")?, false),
    };
    Some(Comment {
        text,
        is_line,
        place,
        last: end.line,
        before,
    })
}

/// The heading that a comment is, if it is one: dashes, and what they are before.
pub(crate) fn heading_of<'a>(comment: &Comment<'a>) -> Option<Heading<'a>> {
    if !comment.is_line {
        return None;
    }
    let text = comment.text.trim().strip_prefix("----")?;
    let text = text.trim_start_matches('-').trim_start();
    let Some(rfc) = text.strip_prefix("RFC ") else {
        return Some(Heading {
            rfc: None,
            section: section_of(text),
        });
    };
    Some(Heading {
        rfc: number_of(rfc),
        section: rfc.split_once(", ").and_then(|(_, text)| section_of(text)),
    })
}

/// The number of the first RFC that a comment names.
pub(crate) fn rfc_of<'a>(comment: &Comment<'a>) -> Option<&'a str> {
    let (_, behind) = comment.text.split_once("RFC ")?;
    number_of(behind)
}

// The section at the front.
fn section_of(text: &str) -> Option<Section<'_>> {
    let (word, behind) = text.split_once(' ')?;
    if word != "section" && word != "appendix" {
        return None;
    }
    let number = number_of(behind)?;
    Some(Section { word, number })
}

// The number at the front, such as `6.3.2` or `B.1`, without a dot after it.
fn number_of(text: &str) -> Option<&str> {
    let number = text
        .split(|c: char| !c.is_ascii_alphanumeric() && c != '.')
        .next()?;
    let first = number.chars().next()?;
    if first.is_ascii_digit() || first.is_ascii_uppercase() {
        Some(number.trim_end_matches('.'))
    } else {
        None
    }
}

/// Adds the lines of a comment that say something: without stars before them, with one blank between two words.
pub(crate) fn push_lines(out: &mut String, text: &str) -> Result<(), AllocError> {
    for line in text.lines() {
        let line = line.trim_start_matches(|c: char| c == '*' || c.is_ascii_whitespace());
        push_line(out, line)?;
    }
    Ok(())
}

fn push_line(out: &mut String, line: &str) -> Result<(), AllocError> {
    for (at, word) in line.split_ascii_whitespace().enumerate() {
        push_gap(out, at == 0)?;
        push_word(out, word)?;
    }
    Ok(())
}

// Adds what is before the first word of a line, or before another.
fn push_gap(out: &mut String, begins_line: bool) -> Result<(), AllocError> {
    if !begins_line {
        return out.push_str(" ");
    }
    if out.is_empty() {
        return Ok(());
    }
    out.push_str("\n")
}

// Adds a word without characters that don't print.
fn push_word(out: &mut String, word: &str) -> Result<(), AllocError> {
    for c in word.chars() {
        if c.is_ascii_graphic() {
            out.push(c)?;
        }
    }
    Ok(())
}
