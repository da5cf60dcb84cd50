//! Which comment is on which name, and which section a definition is of.
//!
//! A comment directly above a definition, a field or a value is on its name, and so is one after it
//! on its line. One that begins with dashes is a heading.

ghost use Rattle.std.specs.Prelude.{◌≡◌, OnOk};
ghost use Rattle.tlsgen_syntax.specs.Signs.{signs};

use crate::around::{Around, token_before};
use crate::comments::{Comment, Heading, Section, heading_of, push_lines, rfc_of};
use crate::token::Token;
use std::alloc::{AllocError, Global};

/// Gives the names of a text what its comments say of them. The words, numbers and marks stay as they are.
pub(crate) fn give(
    alloc: Global,
    tokens: &mut Vec<Token>,
    comments: &[Comment<'_>],
) -> Result<(), AllocError>
    ensures { OnOk result (signs tokens.new.items ≡ signs tokens.old.items) }
{
    let mut remarks = Remarks::new(alloc);
    for comment in comments {
        remarks.read_tokens(tokens, comment.before)?;
        remarks.read_comment(tokens, comment)?;
    }
    remarks.read_tokens(tokens, tokens.len())
}

// What is known of the tokens and comments so far.
#[derive(Drop)]
struct Remarks<'a> {
    alloc: Global,
    /// How many tokens were read.
    count: usize,
    /// In how many braces the next token is.
    depth: usize,
    /// The name that a comment after it is on.
    name: Option<usize>,
    /// Where a line comment after a name was.
    trailing: Option<Spot>,
    /// What is above the next token, and the line on which that ends.
    above: String,
    last: usize,
    /// What is above the definition that is read, and above its field or value.
    of_definition: String,
    of_part: String,
    rfc: Option<&'a str>,
    section: Option<Section<'a>>,
}

// The line and the column of a comment.
#[derive(Clone, Copy)]
struct Spot {
    line: usize,
    column: usize,
}

impl<'a> Remarks<'a> {
    fn new(alloc: Global) -> Remarks<'a> {
        Remarks {
            alloc,
            count: 0,
            depth: 0,
            name: None,
            trailing: None,
            above: String::new(alloc),
            last: 0,
            of_definition: String::new(alloc),
            of_part: String::new(alloc),
            rfc: None,
            section: None,
        }
    }

    // Reads the tokens that come next, until `count` tokens are read in all.
    fn read_tokens(&mut self, tokens: &mut Vec<Token>, count: usize) -> Result<(), AllocError>
        ensures { OnOk result (signs tokens.new.items ≡ signs tokens.old.items) }
    {
        for at in self.count..count {
            let around = Around::of(tokens, at);
            self.keep_above(around)?;
            self.read_mark(around);
            if around.is_name() {
                self.read_name(tokens, at)?;
            }
        }
        self.count = count;
        Ok(())
    }

    // Keeps what is right above a token, if that begins a definition, a field or a value.
    fn keep_above(&mut self, around: Around) -> Result<(), AllocError> {
        if self.above.is_empty() {
            return Ok(());
        }
        let is_near = around.line <= self.last.saturating_add(1);
        if is_near && self.depth == 0 {
            push_lines(&mut self.of_definition, self.above.as_str())?;
        } else if is_near && around.begins_part() {
            push_lines(&mut self.of_part, self.above.as_str())?;
        }
        self.above.clear();
        Ok(())
    }

    // Goes into and out of braces. A comment after a mark that begins something is on no name.
    fn read_mark(&mut self, around: Around) {
        if around.opens() {
            self.depth = self.depth.saturating_add(1);
        }
        if around.closes() {
            self.depth = self.depth.saturating_sub(1);
        }
        if around.begins() {
            self.name = None;
        }
    }

    // Gives a name what is above it.
    fn read_name(&mut self, tokens: &mut Vec<Token>, at: usize) -> Result<(), AllocError>
        ensures { OnOk result (signs tokens.new.items ≡ signs tokens.old.items) }
    {
        self.name = Some(at);
        if self.depth == 0 {
            let section = self.section_text()?;
            say(tokens, at, section.as_str(), self.of_definition.as_str())?;
            self.of_definition.clear();
            return Ok(());
        }
        say(tokens, at, "", self.of_part.as_str())?;
        self.of_part.clear();
        Ok(())
    }

    // `RFC 9420, section 6.3.2`, or nothing.
    fn section_text(&self) -> Result<String, AllocError> {
        let Some(Section { word, number }) = self.section else {
            return Ok(String::new(self.alloc));
        };
        match self.rfc {
            Some(rfc) => format!(in self.alloc; "RFC {rfc}, {word} {number}"),
            None => format!(in self.alloc; "{word} {number}"),
        }
    }

    // Reads the comment that comes next, once all tokens before it are read.
    fn read_comment(
        &mut self,
        tokens: &mut Vec<Token>,
        comment: &Comment<'a>,
    ) -> Result<(), AllocError>
        ensures { OnOk result (signs tokens.new.items ≡ signs tokens.old.items) }
    {
        if let Some(heading) = heading_of(comment) {
            self.read_heading(heading);
            return Ok(());
        }
        if comment.before == 0 && self.rfc.is_none() {
            self.rfc = rfc_of(comment);
        }
        if !is_first(tokens, comment) || self.goes_on(comment) {
            return self.read_trailing(tokens, comment);
        }
        self.trailing = None;
        self.read_above(comment)
    }

    fn read_heading(&mut self, heading: Heading<'a>) {
        self.rfc = heading.rfc.or(self.rfc);
        self.section = heading.section;
        self.trailing = None;
        self.above.clear();
    }

    // Whether a comment continues one after a name: it is directly below it.
    fn goes_on(&self, comment: &Comment<'_>) -> bool {
        let Some(spot) = self.trailing else {
            return false;
        };
        comment.is_line
            && comment.place.column == spot.column
            && comment.place.line == spot.line.saturating_add(1)
    }

    fn read_trailing(
        &mut self,
        tokens: &mut Vec<Token>,
        comment: &Comment<'_>,
    ) -> Result<(), AllocError>
        ensures { OnOk result (signs tokens.new.items ≡ signs tokens.old.items) }
    {
        let Some(name) = self.name else {
            return Ok(());
        };
        if comment.is_line {
            self.trailing = Some(Spot {
                line: comment.place.line,
                column: comment.place.column,
            });
        }
        say(tokens, name, "", comment.text)
    }

    // A comment that isn't right below the one before it is above the next token alone.
    fn read_above(&mut self, comment: &Comment<'_>) -> Result<(), AllocError> {
        if comment.place.line > self.last.saturating_add(1) {
            self.above.clear();
        }
        self.last = comment.last;
        push_lines(&mut self.above, comment.text)
    }
}

// Whether nothing is before a comment on its line, but other comments.
fn is_first(tokens: &[Token], comment: &Comment<'_>) -> bool {
    match token_before(tokens, comment.before) {
        Some(token) => token.place.line < comment.place.line,
        None => true,
    }
}

// Adds a section and lines to what comments say of a name.
#[tactic(auto, using(crate::proofs::Gathered::signs_of_set))]
fn say(tokens: &mut Vec<Token>, at: usize, section: &str, text: &str) -> Result<(), AllocError>
    ensures { OnOk result (signs tokens.new.items ≡ signs tokens.old.items) }
{
    if let Some(token) = tokens.get_mut(at) {
        token.remark.section.push_str(section)?;
        push_lines(&mut token.remark.text, text)?;
    }
    Ok(())
}
