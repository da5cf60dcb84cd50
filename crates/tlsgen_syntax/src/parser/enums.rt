//! Enums.
ghost use Rattle.std.specs.Prelude.{◌≡◌, ◌<◌, ◌≤◌, IfOk, OnOk};
ghost use Rattle.tlsgen_syntax.specs.Signs.{Reads, count_left, numbers_then, range_end_then, separated_then, signs_left, source_enum_then, source_value_then, value_name_then};

use crate::rejection::Trouble;
use crate::source::{Numbers, SourceEnum, SourceValue, ValueName};
use crate::syntax::Number;
use crate::token::Mark;
use crate::tokens::Tokens;
use std::alloc::Global;

/// `["open"] "enum" "{" values "}" NAME ";"`
pub(crate) fn enumeration(alloc: Global, tokens: &mut Tokens<'_>) -> Result<SourceEnum, Trouble>
    ensures read { Reads source_enum_then tokens.old tokens.new result }
    ensures fewer { OnOk result (count_left tokens.new < count_left tokens.old) }
{
    let numbers = numbers(alloc, tokens)?;
    let name = tokens.name(alloc, "the enum's name")?;
    tokens.expect(alloc, Mark::Semicolon, ";")?;
    Ok(SourceEnum { numbers, name })
}

/// `["open"] "enum" "{" values "}"`
pub(crate) fn numbers(alloc: Global, tokens: &mut Tokens<'_>) -> Result<Numbers, Trouble>
    ensures read { Reads numbers_then tokens.old tokens.new result }
    ensures fewer { OnOk result (count_left tokens.new < count_left tokens.old) }
{
    let is_open = tokens.take(Mark::Open);
    tokens.expect(alloc, Mark::Enum, "enum")?;
    tokens.expect(alloc, Mark::OpeningBrace, "{")?;
    let values = values(alloc, tokens)?;
    tokens.expect(alloc, Mark::ClosingBrace, ", or }")?;
    Ok(Numbers { is_open, values })
}

// `value { "," value }`
#[tactic(auto, using(crate::proofs::Gathered::gathered_separated))]
fn values(alloc: Global, tokens: &mut Tokens<'_>) -> Result<Vec<SourceValue>, Trouble>
    ensures read { IfOk result (λ values. signs_left tokens.old ≡
        separated_then Mark.Comma source_value_then values.items (signs_left tokens.new)) }
    ensures fewer { OnOk result (count_left tokens.new < count_left tokens.old) }
{
    let mut values = Vec::new(alloc);
    values.push(value(alloc, tokens)?)?;
    'more: while tokens.take(Mark::Comma) {
        values.push(value(alloc, tokens)?)?;
    }
    Ok(values)
}

// `[NAME | NUMBER] "(" NUMBER [ ".." NUMBER ] ")"`
fn value(alloc: Global, tokens: &mut Tokens<'_>) -> Result<SourceValue, Trouble>
    ensures read { Reads source_value_then tokens.old tokens.new result }
    ensures fewer { OnOk result (count_left tokens.new < count_left tokens.old) }
{
    let name = value_name(alloc, tokens)?;
    tokens.expect(alloc, Mark::OpeningParenthesis, "(")?;
    let number = tokens.number(alloc, "the value's number")?;
    let last = range_end(alloc, tokens)?;
    tokens.expect(alloc, Mark::ClosingParenthesis, ".. or )")?;
    Ok(SourceValue { name, number, last })
}

// `[ ".." NUMBER ]`
fn range_end(alloc: Global, tokens: &mut Tokens<'_>) -> Result<Option<Number>, Trouble>
    ensures read { Reads range_end_then tokens.old tokens.new result }
    ensures fewer { OnOk result (count_left tokens.new ≤ count_left tokens.old) }
{
    if !tokens.take(Mark::Dots) {
        return Ok(None);
    }
    let last = tokens.number(alloc, "the last number of the range")?;
    Ok(Some(last))
}

// `[NAME | NUMBER]` before a parenthesis
fn value_name(alloc: Global, tokens: &mut Tokens<'_>) -> Result<Option<ValueName>, Trouble>
    ensures read { Reads value_name_then tokens.old tokens.new result }
    ensures fewer { OnOk result (count_left tokens.new ≤ count_left tokens.old) }
{
    if tokens.mark() == Some(Mark::OpeningParenthesis) {
        return Ok(None);
    }
    if let Some(number) = tokens.take_number() {
        return Ok(Some(ValueName::Number(number)));
    }
    let name = tokens.name(alloc, "a value's name or (")?;
    Ok(Some(ValueName::Word(name)))
}
