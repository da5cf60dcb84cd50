//! Selects and their cases.
ghost use Rattle.std.specs.Prelude.{◌≡◌, ◌<◌, ◌≤◌, ◌∷◌, IfOk, OnOk};
ghost use Rattle.tlsgen_syntax.specs.Signs.{Reads, case_fields_then, case_then, count_left, each_then, label_then, label_value_then, mark, name_then, optional_name_then, select_then, separated_then, signs_left};

use crate::parser::fields::case_field;
use crate::rejection::Trouble;
use crate::syntax::{Case, Field, Label, Name, Select};
use crate::token::Mark;
use crate::tokens::Tokens;
use std::alloc::Global;

/// `"select" "(" path ")" "{" { case } "}" [ NAME ] [ ";" ]`
pub(crate) fn select(alloc: Global, tokens: &mut Tokens<'_>) -> Result<Select, Trouble>
    ensures read { Reads select_then tokens.old tokens.new result }
    ensures fewer { OnOk result (count_left tokens.new < count_left tokens.old) }
{
    let place = tokens.place();
    tokens.expect(alloc, Mark::Select, "select")?;
    tokens.expect(alloc, Mark::OpeningParenthesis, "(")?;
    let path = path(alloc, tokens, "the name of a struct or a field")?;
    tokens.expect(alloc, Mark::ClosingParenthesis, ". or )")?;
    tokens.expect(alloc, Mark::OpeningBrace, "{")?;
    let cases = cases(alloc, tokens)?;
    let name = ending_name(alloc, tokens)?;
    let ends_in_semicolon = tokens.take(Mark::Semicolon);
    Ok(Select {
        path,
        cases,
        name,
        ends_in_semicolon,
        place,
    })
}

/// `NAME { "." NAME }`
#[tactic(auto, using(crate::proofs::Gathered::gathered_separated))]
pub(crate) fn path(
    alloc: Global,
    tokens: &mut Tokens<'_>,
    expected: &'static str,
) -> Result<Vec<Name>, Trouble>
    ensures read { IfOk result (λ path. signs_left tokens.old ≡
        separated_then Mark.Dot name_then path.items (signs_left tokens.new)) }
    ensures fewer { OnOk result (count_left tokens.new < count_left tokens.old) }
{
    let mut path = Vec::new(alloc);
    path.push(tokens.name(alloc, expected)?)?;
    'more: while tokens.take(Mark::Dot) {
        path.push(tokens.name(alloc, "the name of a field")?)?;
    }
    Ok(path)
}

/// `[ NAME ]` before a semicolon: any other word begins the next field
pub(crate) fn ending_name(alloc: Global, tokens: &mut Tokens<'_>) -> Result<Option<Name>, Trouble>
    ensures read { Reads optional_name_then tokens.old tokens.new result }
    ensures fewer { OnOk result (count_left tokens.new ≤ count_left tokens.old) }
{
    if !tokens.is_word_before(Mark::Semicolon) {
        return Ok(None);
    }
    let name = tokens.name(alloc, "a name")?;
    Ok(Some(name))
}

// `{ case } "}"`
#[tactic(auto, using(crate::proofs::Gathered::gathered_each))]
fn cases(alloc: Global, tokens: &mut Tokens<'_>) -> Result<Vec<Case>, Trouble>
    ensures read { IfOk result (λ cases. signs_left tokens.old ≡
        each_then case_then cases.items (mark Mark.ClosingBrace ∷ signs_left tokens.new)) }
    ensures fewer { OnOk result (count_left tokens.new < count_left tokens.old) }
{
    let mut cases = Vec::new(alloc);
    'more: while !tokens.take(Mark::ClosingBrace) {
        cases.push(case(alloc, tokens)?)?;
    }
    Ok(cases)
}

fn case(alloc: Global, tokens: &mut Tokens<'_>) -> Result<Case, Trouble>
    ensures read { Reads case_then tokens.old tokens.new result }
    ensures fewer { OnOk result (count_left tokens.new < count_left tokens.old) }
{
    let labels = labels(alloc, tokens)?;
    let fields = case_fields(alloc, tokens)?;
    Ok(Case { labels, fields })
}

// `"case" label ":" { "case" label ":" }`
#[tactic(auto, using(crate::proofs::Gathered::gathered_each))]
fn labels(alloc: Global, tokens: &mut Tokens<'_>) -> Result<Vec<Label>, Trouble>
    ensures read { IfOk result (λ labels. signs_left tokens.old ≡
        each_then label_then labels.items (signs_left tokens.new)) }
    ensures fewer { OnOk result (count_left tokens.new < count_left tokens.old) }
{
    let mut labels = Vec::new(alloc);
    labels.push(label(alloc, tokens)?)?;
    'more: while tokens.mark() == Some(Mark::Case) {
        labels.push(label(alloc, tokens)?)?;
    }
    Ok(labels)
}

// `"case" label ":"`
fn label(alloc: Global, tokens: &mut Tokens<'_>) -> Result<Label, Trouble>
    ensures read { Reads label_then tokens.old tokens.new result }
    ensures fewer { OnOk result (count_left tokens.new < count_left tokens.old) }
{
    tokens.expect(alloc, Mark::Case, "case or }")?;
    let label = label_value(alloc, tokens)?;
    tokens.expect(alloc, Mark::Colon, ":")?;
    Ok(label)
}

// `NAME | NUMBER`
fn label_value(alloc: Global, tokens: &mut Tokens<'_>) -> Result<Label, Trouble>
    ensures read { Reads label_value_then tokens.old tokens.new result }
    ensures fewer { OnOk result (count_left tokens.new < count_left tokens.old) }
{
    if let Some(number) = tokens.take_number() {
        return Ok(Label::Number(number));
    }
    let name = tokens.name(alloc, "the name or the number of a value")?;
    Ok(Label::Name(name))
}

// `"struct" "{" "}" ";"` or `field ";" { field ";" }`
fn case_fields(alloc: Global, tokens: &mut Tokens<'_>) -> Result<Vec<Field>, Trouble>
    ensures read { IfOk result (λ fields. signs_left tokens.old ≡
        case_fields_then fields.items (signs_left tokens.new)) }
    ensures fewer { OnOk result (count_left tokens.new < count_left tokens.old) }
{
    if tokens.take(Mark::Struct) {
        no_fields(alloc, tokens)?;
        return Ok(Vec::new(alloc));
    }
    fields(alloc, tokens)
}

// `"{" "}" ";"`
fn no_fields(alloc: Global, tokens: &mut Tokens<'_>) -> Result<(), Trouble>
    ensures read { OnOk result (signs_left tokens.old ≡
        mark Mark.OpeningBrace ∷ mark Mark.ClosingBrace ∷ mark Mark.Semicolon ∷ signs_left tokens.new) }
    ensures fewer { OnOk result (count_left tokens.new < count_left tokens.old) }
{
    tokens.expect(alloc, Mark::OpeningBrace, "{")?;
    tokens.expect(
        alloc,
        Mark::ClosingBrace,
        "} of struct {}: a struct with fields is no case's, but a definition of its own",
    )?;
    tokens.expect(alloc, Mark::Semicolon, ";")
}

// `field ";" { field ";" }`
#[tactic(auto, using(crate::proofs::Gathered::gathered_case_fields))]
fn fields(alloc: Global, tokens: &mut Tokens<'_>) -> Result<Vec<Field>, Trouble>
    ensures read { IfOk result (λ fields. signs_left tokens.old ≡
        case_fields_then fields.items (signs_left tokens.new)) }
    ensures fewer { OnOk result (count_left tokens.new < count_left tokens.old) }
{
    let mut fields = Vec::new(alloc);
    fields.push(case_field(alloc, tokens)?)?;
    'more: while !is_case_end(tokens.mark()) {
        fields.push(case_field(alloc, tokens)?)?;
    }
    Ok(fields)
}

// Whether a mark is no part of the case's fields.
fn is_case_end(mark: Option<Mark>) -> bool {
    matches!(mark, Some(Mark::Case | Mark::ClosingBrace))
}
