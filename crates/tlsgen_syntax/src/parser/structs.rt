//! Structs.
ghost use Rattle.std.specs.Prelude.{◌≡◌, ◌<◌, ◌≤◌, ◌∷◌, IfOk, OnOk};
ghost use Rattle.tlsgen_syntax.specs.Signs.{Reads, count_left, each_then, kind_then, mark, part_then, signed_then, signs_left, source_part_then, source_struct_then};

use crate::parser::fields::field;
use crate::parser::in_place::in_place;
use crate::parser::selects::{ending_name, select};
use crate::rejection::Trouble;
use crate::source::{Signed, SourcePart, SourceStruct, StructKind};
use crate::syntax::Part;
use crate::token::Mark;
use crate::tokens::Tokens;
use std::alloc::Global;

/// `["borrowed" | "digitally-signed"] "struct" "{" { part | signature | type in place } "}" NAME ";"`
pub(crate) fn structure(alloc: Global, tokens: &mut Tokens<'_>) -> Result<SourceStruct, Trouble>
    ensures read { Reads source_struct_then tokens.old tokens.new result }
    ensures fewer { OnOk result (count_left tokens.new < count_left tokens.old) }
{
    let kind = kind(tokens);
    tokens.expect(alloc, Mark::Struct, "struct")?;
    tokens.expect(alloc, Mark::OpeningBrace, "{")?;
    let parts = source_parts(alloc, tokens)?;
    let name = tokens.name(alloc, "the struct's name")?;
    tokens.expect(alloc, Mark::Semicolon, ";")?;
    Ok(SourceStruct { kind, parts, name })
}

// `["borrowed" | "digitally-signed"]`
fn kind(tokens: &mut Tokens<'_>) -> StructKind
    ensures read { signs_left tokens.old ≡ kind_then result (signs_left tokens.new) }
    ensures fewer { count_left tokens.new ≤ count_left tokens.old }
{
    if tokens.take(Mark::Borrowed) {
        return StructKind::Borrowed;
    }
    if tokens.take(Mark::DigitallySigned) {
        return StructKind::Signed;
    }
    StructKind::Sent
}

// `{ part | signature | type in place } "}"`
#[tactic(auto, using(crate::proofs::Gathered::gathered_each))]
fn source_parts(alloc: Global, tokens: &mut Tokens<'_>) -> Result<Vec<SourcePart>, Trouble>
    ensures read { IfOk result (λ parts. signs_left tokens.old ≡
        each_then source_part_then parts.items (mark Mark.ClosingBrace ∷ signs_left tokens.new)) }
    ensures fewer { OnOk result (count_left tokens.new < count_left tokens.old) }
{
    let mut parts = Vec::new(alloc);
    'more: while !tokens.take(Mark::ClosingBrace) {
        parts.push(source_part(alloc, tokens)?)?;
    }
    Ok(parts)
}

// A part, a signature or a field with its type in place
fn source_part(alloc: Global, tokens: &mut Tokens<'_>) -> Result<SourcePart, Trouble>
    ensures read { Reads source_part_then tokens.old tokens.new result }
    ensures fewer { OnOk result (count_left tokens.new < count_left tokens.old) }
{
    match tokens.mark() {
        Some(Mark::DigitallySigned) => Ok(SourcePart::Signed(signature(alloc, tokens)?)),
        Some(Mark::Open | Mark::Enum | Mark::Struct) => {
            Ok(SourcePart::InPlace(in_place(alloc, tokens)?))
        }
        _ => Ok(SourcePart::Sent(part(alloc, tokens)?)),
    }
}

// `"digitally-signed" "struct" "{" { part } "}" [ NAME ] ";"`
fn signature(alloc: Global, tokens: &mut Tokens<'_>) -> Result<Signed, Trouble>
    ensures read { Reads signed_then tokens.old tokens.new result }
    ensures fewer { OnOk result (count_left tokens.new < count_left tokens.old) }
{
    let place = tokens.place();
    tokens.expect(alloc, Mark::DigitallySigned, "digitally-signed")?;
    tokens.expect(alloc, Mark::Struct, "struct")?;
    tokens.expect(alloc, Mark::OpeningBrace, "{")?;
    let parts = parts(alloc, tokens)?;
    let name = ending_name(alloc, tokens)?;
    tokens.expect(alloc, Mark::Semicolon, "the signature's name or ;")?;
    Ok(Signed { place, parts, name })
}

/// `{ part } "}"`
#[tactic(auto, using(crate::proofs::Gathered::gathered_each))]
pub(crate) fn parts(alloc: Global, tokens: &mut Tokens<'_>) -> Result<Vec<Part>, Trouble>
    ensures read { IfOk result (λ parts. signs_left tokens.old ≡
        each_then part_then parts.items (mark Mark.ClosingBrace ∷ signs_left tokens.new)) }
    ensures fewer { OnOk result (count_left tokens.new < count_left tokens.old) }
{
    let mut parts = Vec::new(alloc);
    'more: while !tokens.take(Mark::ClosingBrace) {
        parts.push(part(alloc, tokens)?)?;
    }
    Ok(parts)
}

// `field ";"` or a select
fn part(alloc: Global, tokens: &mut Tokens<'_>) -> Result<Part, Trouble>
    ensures read { Reads part_then tokens.old tokens.new result }
    ensures fewer { OnOk result (count_left tokens.new < count_left tokens.old) }
{
    match tokens.mark() {
        Some(Mark::Select) => Ok(Part::Select(select(alloc, tokens)?)),
        Some(Mark::Open | Mark::Enum | Mark::Struct) => Err(tokens.rejected(
            alloc,
            "the name of a type: an enum or a struct may stand in a struct that is a definition",
        )),
        _ => Ok(Part::Field(field(alloc, tokens)?)),
    }
}
