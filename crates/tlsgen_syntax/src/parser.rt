//! Reads a text from its tokens.
//!
//! Each function takes the tokens of one part of the grammar from the front of those that are left.

ghost use Rattle.std.specs.Prelude.{◌≡◌, ◌<◌, IfOk, OnOk};
ghost use Rattle.tlsgen_syntax.specs.Signs.{Reads, count_left, definition_then, signs, source_signs};

mod enums;
mod fields;
mod in_place;
mod notes;
mod selects;
mod structs;

use crate::lexer::lex;
use crate::opening::open_unselected;
use crate::rejection::{Place, Trouble};
use crate::signed::set_apart;
use crate::source::{Definition, Source};
use crate::syntax::{File, Note};
use crate::token::{Mark, Token};
use crate::tokens::Tokens;
use std::alloc::Global;

/// What a text says, with what is signed and types in place apart. Enums that no select is on are open (RFC 8446,
/// section 3.5).
///
/// Rejects the first token that can't come next in a text, and what the [lexer](crate::lexer::lex) rejects.
pub fn parse(alloc: Global, text: &str) -> Result<File, Trouble> {
    let source = parse_source(alloc, text)?;
    let mut file = set_apart(alloc, source)?;
    open_unselected(alloc, &mut file)?;
    Ok(file)
}

/// What a text says as it is written. It rejects what [`parse`] does.
pub fn parse_source(alloc: Global, text: &str) -> Result<Source, Trouble> {
    let tokens = lex(alloc, text)?;
    parse_tokens(alloc, &tokens, Place::end_of(text))
}

/// The notes of a text, `Handshake.length counts rest;` and others.
///
/// Rejects the first token that can't come next among notes, and what the [lexer](crate::lexer::lex) rejects.
pub fn parse_notes(alloc: Global, text: &str) -> Result<Vec<Note>, Trouble> {
    let tokens = lex(alloc, text)?;
    notes::notes(alloc, &tokens, Place::end_of(text))
}

/// What the tokens of a text say. `end` is where the text ends.
#[tactic(auto, using(crate::proofs::Gathered::gathered_each))]
pub fn parse_tokens(alloc: Global, tokens: &[Token], end: Place) -> Result<Source, Trouble>
    ensures { IfOk result (λ source. signs tokens.now ≡ source_signs source) }
{
    let mut left = Tokens::new(tokens, end);
    let mut definitions = Vec::new(alloc);
    'more: while !left.is_empty() {
        definitions.push(definition(alloc, &mut left)?)?;
    }
    Ok(Source { definitions })
}

fn definition(alloc: Global, tokens: &mut Tokens<'_>) -> Result<Definition, Trouble>
    ensures read { Reads definition_then tokens.old tokens.new result }
    ensures fewer { OnOk result (count_left tokens.new < count_left tokens.old) }
{
    match tokens.mark() {
        Some(Mark::Open | Mark::Enum) => Ok(Definition::Enum(enums::enumeration(alloc, tokens)?)),
        Some(Mark::Borrowed | Mark::DigitallySigned | Mark::Struct) => Ok(Definition::Struct(
            structs::structure(alloc, tokens)?,
        )),
        _ => Ok(Definition::Alias(fields::alias(alloc, tokens)?)),
    }
}
