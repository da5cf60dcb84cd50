//! Notes.
ghost use Rattle.std.specs.Prelude.{◌≡◌, ◌<◌, ◌∷◌, IfOk, OnOk, codes};
ghost use Rattle.tlsgen_syntax.specs.Signs.{Reads, count_left, mark, note_then, notes_signs, said_then, signs, signs_left, word};

use crate::parser::selects::path;
use crate::rejection::{Place, Trouble};
use crate::syntax::{Note, Said};
use crate::token::{Mark, Token};
use crate::tokens::Tokens;
use std::alloc::Global;

/// `{ note }`
#[tactic(auto, using(crate::proofs::Gathered::gathered_each))]
pub(crate) fn notes(alloc: Global, tokens: &[Token], end: Place) -> Result<Vec<Note>, Trouble>
    ensures { IfOk result (λ notes. signs tokens.now ≡ notes_signs notes.items) }
{
    let mut left = Tokens::new(tokens, end);
    let mut notes = Vec::new(alloc);
    'more: while !left.is_empty() {
        notes.push(note(alloc, &mut left)?)?;
    }
    Ok(notes)
}

// `path said ";"`
fn note(alloc: Global, tokens: &mut Tokens<'_>) -> Result<Note, Trouble>
    ensures read { Reads note_then tokens.old tokens.new result }
    ensures fewer { OnOk result (count_left tokens.new < count_left tokens.old) }
{
    let path = path(alloc, tokens, "the name of a struct, or of a number")?;
    let said = said(alloc, tokens)?;
    tokens.expect(alloc, Mark::Semicolon, ";")?;
    Ok(Note { path, said })
}

// `"=" (NUMBER | NAME)`, `"counts" "rest"`, `"fills" "rest" ["with" "zeros"]`, `"ends" NAME`, `"called" NAME`,
// `"is" ("open" | "closed" | "borrowed")` or `"left" "out"`
fn said(alloc: Global, tokens: &mut Tokens<'_>) -> Result<Said, Trouble>
    ensures read { Reads said_then tokens.old tokens.new result }
    ensures fewer { OnOk result (count_left tokens.new < count_left tokens.old) }
{
    if tokens.take(Mark::Equals) {
        return value(alloc, tokens);
    }
    if tokens.take_word("counts") {
        expect_word(alloc, tokens, "rest")?;
        return Ok(Said::Counts);
    }
    if tokens.take_word("fills") {
        return filling(alloc, tokens);
    }
    if tokens.take_word("ends") {
        return Ok(Said::Ends(tokens.name(alloc, "the name of a field")?));
    }
    if tokens.take_word("called") {
        return Ok(Said::Called(tokens.name(alloc, "a name of the select")?));
    }
    if tokens.take_word("is") {
        return kind(alloc, tokens);
    }
    if tokens.take_word("left") {
        expect_word(alloc, tokens, "out")?;
        return Ok(Said::LeftOut);
    }
    Err(tokens.rejected(alloc, "., =, counts, fills, ends, called, is or left"))
}

// `"rest" ["with" "zeros"]`
fn filling(alloc: Global, tokens: &mut Tokens<'_>) -> Result<Said, Trouble>
    ensures read { IfOk result (λ said. word (codes "fills") ∷ signs_left tokens.old ≡
        said_then said (signs_left tokens.new)) }
    ensures fewer { OnOk result (count_left tokens.new < count_left tokens.old) }
{
    expect_word(alloc, tokens, "rest")?;
    if !tokens.take_word("with") {
        return Ok(Said::Fills);
    }
    expect_word(alloc, tokens, "zeros")?;
    Ok(Said::Pads)
}

// `"open" | "closed" | "borrowed"`
fn kind(alloc: Global, tokens: &mut Tokens<'_>) -> Result<Said, Trouble>
    ensures read { IfOk result (λ said. word (codes "is") ∷ signs_left tokens.old ≡
        said_then said (signs_left tokens.new)) }
    ensures fewer { OnOk result (count_left tokens.new < count_left tokens.old) }
{
    if tokens.take_word("closed") {
        return Ok(Said::Closed);
    }
    if tokens.take(Mark::Borrowed) {
        return Ok(Said::Borrowed);
    }
    tokens.expect(alloc, Mark::Open, "open, closed or borrowed")?;
    Ok(Said::Open)
}

// Takes this word, and rejects any other token.
fn expect_word(alloc: Global, tokens: &mut Tokens<'_>, text: &'static str) -> Result<(), Trouble>
    ensures read { OnOk result (signs_left tokens.old ≡ word text.now ∷ signs_left tokens.new) }
    ensures fewer { OnOk result (count_left tokens.new < count_left tokens.old) }
{
    if tokens.take_word(text) {
        return Ok(());
    }
    Err(tokens.rejected(alloc, text))
}

// `NUMBER | NAME`
fn value(alloc: Global, tokens: &mut Tokens<'_>) -> Result<Said, Trouble>
    ensures read { IfOk result (λ said. mark Mark.Equals ∷ signs_left tokens.old ≡
        said_then said (signs_left tokens.new)) }
    ensures fewer { OnOk result (count_left tokens.new < count_left tokens.old) }
{
    if let Some(number) = tokens.take_number() {
        return Ok(Said::Number(number));
    }
    let name = tokens.name(alloc, "a number, or the name of a value")?;
    Ok(Said::Named(name))
}
