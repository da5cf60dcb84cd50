//! Fields and aliases.
ghost use Rattle.std.specs.Prelude.{◌≡◌, ◌<◌, ◌≤◌, ◌∷◌, IfOk, OnOk, true};
ghost use Rattle.tlsgen_syntax.specs.Signs.{Reads, IsCalled, case_field_then, constant_then, constant_value_then, count_left, field_then, mark, number_then, separated_then, signs_left, type_then, typed_then, vector_then};

use crate::parser::selects::path;
use crate::rejection::Trouble;
use crate::syntax::{Constant, Field, Name, Number, Vector};
use crate::token::Mark;
use crate::tokens::Tokens;
use std::alloc::Global;

/// `field ";"`
pub(crate) fn field(alloc: Global, tokens: &mut Tokens<'_>) -> Result<Field, Trouble>
    ensures read { Reads field_then tokens.old tokens.new result }
    ensures named { IfOk result (λ field. field.is_named ≡ true) }
    ensures fewer { OnOk result (count_left tokens.new < count_left tokens.old) }
{
    let (is_optional, of) = field_type(alloc, tokens)?;
    named_field(alloc, tokens, is_optional, of)
}

/// `field ";"` or, in a case, `type ";"`
pub(crate) fn case_field(alloc: Global, tokens: &mut Tokens<'_>) -> Result<Field, Trouble>
    ensures read { Reads case_field_then tokens.old tokens.new result }
    ensures named { IfOk result IsCalled }
    ensures fewer { OnOk result (count_left tokens.new < count_left tokens.old) }
{
    let (is_optional, of) = field_type(alloc, tokens)?;
    if !tokens.take(Mark::Semicolon) {
        return named_field(alloc, tokens, is_optional, of);
    }
    let name = of.clone()?;
    Ok(Field {
        is_optional,
        of,
        name,
        is_named: false,
        vector: Vector::One,
        constant: None,
    })
}

// `NAME vector constant ";"`
fn named_field(
    alloc: Global,
    tokens: &mut Tokens<'_>,
    is_optional: bool,
    of: Name,
) -> Result<Field, Trouble>
    ensures read { IfOk result (λ field. typed_then is_optional of (signs_left tokens.old) ≡
        field_then field (signs_left tokens.new)) }
    ensures named { IfOk result (λ field. field.is_named ≡ true) }
    ensures fewer { OnOk result (count_left tokens.new < count_left tokens.old) }
{
    let name = tokens.name(alloc, "the field's name")?;
    let vector = vector(alloc, tokens)?;
    let constant = constant(alloc, tokens)?;
    tokens.expect(alloc, Mark::Semicolon, "[, <, = or ;")?;
    Ok(Field {
        is_optional,
        of,
        name,
        is_named: true,
        vector,
        constant,
    })
}

/// `type NAME vector ";"`
pub(crate) fn alias(alloc: Global, tokens: &mut Tokens<'_>) -> Result<Field, Trouble>
    ensures read { Reads field_then tokens.old tokens.new result }
    ensures named { IfOk result (λ field. field.is_named ≡ true) }
    ensures fewer { OnOk result (count_left tokens.new < count_left tokens.old) }
{
    let is_optional = tokens.take(Mark::Optional);
    let of = type_name(
        alloc,
        tokens,
        is_optional,
        "enum, open, struct, borrowed, digitally-signed or the name of a type",
    )?;
    let name = tokens.name(alloc, "the new name of the type")?;
    let vector = vector(alloc, tokens)?;
    tokens.expect(alloc, Mark::Semicolon, "[, < or ;")?;
    Ok(Field {
        is_optional,
        of,
        name,
        is_named: true,
        vector,
        constant: None,
    })
}

// `NAME`, or `"optional" "<" NAME ">"`; the first is whether it is optional
fn field_type(alloc: Global, tokens: &mut Tokens<'_>) -> Result<(bool, Name), Trouble>
    ensures read { IfOk result (λ found. signs_left tokens.old ≡
        typed_then found.0 found.1 (signs_left tokens.new)) }
    ensures fewer { OnOk result (count_left tokens.new < count_left tokens.old) }
{
    let is_optional = tokens.take(Mark::Optional);
    let of = type_name(alloc, tokens, is_optional, "the name of a type")?;
    Ok((is_optional, of))
}

// `NAME`, or `"<" NAME ">"` after `optional`
fn type_name(
    alloc: Global,
    tokens: &mut Tokens<'_>,
    is_optional: bool,
    expected: &'static str,
) -> Result<Name, Trouble>
    ensures read { Reads (type_then is_optional) tokens.old tokens.new result }
    ensures fewer { OnOk result (count_left tokens.new < count_left tokens.old) }
{
    if !is_optional {
        return tokens.name(alloc, expected);
    }
    tokens.expect(alloc, Mark::OpeningAngle, "<")?;
    let of = tokens.name(alloc, "the name of a type")?;
    tokens.expect(alloc, Mark::ClosingAngle, ">")?;
    Ok(of)
}

/// `[ "[" length "]" | "<" bounds ">" ]`
pub(crate) fn vector(alloc: Global, tokens: &mut Tokens<'_>) -> Result<Vector, Trouble>
    ensures read { Reads vector_then tokens.old tokens.new result }
    ensures fewer { OnOk result (count_left tokens.new ≤ count_left tokens.old) }
{
    if tokens.take(Mark::OpeningBracket) {
        return array(alloc, tokens);
    }
    if tokens.take(Mark::OpeningAngle) {
        return bounds(alloc, tokens);
    }
    Ok(Vector::One)
}

// `(NUMBER | path) "]"`
fn array(alloc: Global, tokens: &mut Tokens<'_>) -> Result<Vector, Trouble>
    ensures read { IfOk result (λ vector. mark Mark.OpeningBracket ∷ signs_left tokens.old ≡
        vector_then vector (signs_left tokens.new)) }
    ensures fewer { OnOk result (count_left tokens.new ≤ count_left tokens.old) }
{
    if let Some(length) = tokens.take_number() {
        tokens.expect(alloc, Mark::ClosingBracket, "]")?;
        return Ok(Vector::Array(length));
    }
    let path = path(
        alloc,
        tokens,
        "the number of elements, or the name of a field",
    )?;
    tokens.expect(alloc, Mark::ClosingBracket, ". or ]")?;
    Ok(Vector::Counted(path))
}

// `"V" ">"` or `NUMBER ".." NUMBER ">"`
fn bounds(alloc: Global, tokens: &mut Tokens<'_>) -> Result<Vector, Trouble>
    ensures read { IfOk result (λ vector. mark Mark.OpeningAngle ∷ signs_left tokens.old ≡
        vector_then vector (signs_left tokens.new)) }
    ensures fewer { OnOk result (count_left tokens.new ≤ count_left tokens.old) }
{
    if tokens.take_word("V") {
        tokens.expect(alloc, Mark::ClosingAngle, ">")?;
        return Ok(Vector::Variable);
    }
    let floor = tokens.number(alloc, "V or a number")?;
    tokens.expect(alloc, Mark::Dots, "..")?;
    let ceiling = tokens.number(alloc, "a number")?;
    tokens.expect(alloc, Mark::ClosingAngle, ">")?;
    Ok(Vector::Bounded(floor, ceiling))
}

// `[ "=" value ]`
fn constant(alloc: Global, tokens: &mut Tokens<'_>) -> Result<Option<Constant>, Trouble>
    ensures read { Reads constant_then tokens.old tokens.new result }
    ensures fewer { OnOk result (count_left tokens.new ≤ count_left tokens.old) }
{
    if !tokens.take(Mark::Equals) {
        return Ok(None);
    }
    let value = constant_value(alloc, tokens)?;
    Ok(Some(value))
}

// `NAME | NUMBER | "{" elements "}"`
fn constant_value(alloc: Global, tokens: &mut Tokens<'_>) -> Result<Constant, Trouble>
    ensures read { Reads constant_value_then tokens.old tokens.new result }
    ensures fewer { OnOk result (count_left tokens.new < count_left tokens.old) }
{
    if tokens.take(Mark::OpeningBrace) {
        let elements = elements(alloc, tokens)?;
        tokens.expect(alloc, Mark::ClosingBrace, ", or }")?;
        return Ok(Constant::Elements(elements));
    }
    if let Some(number) = tokens.take_number() {
        return Ok(Constant::Number(number));
    }
    let name = tokens.name(alloc, "the name of a value, a number or {")?;
    Ok(Constant::Named(name))
}

// `NUMBER { "," NUMBER }`
#[tactic(auto, using(crate::proofs::Gathered::gathered_separated))]
fn elements(alloc: Global, tokens: &mut Tokens<'_>) -> Result<Vec<Number>, Trouble>
    ensures read { IfOk result (λ elements. signs_left tokens.old ≡
        separated_then Mark.Comma number_then elements.items (signs_left tokens.new)) }
    ensures fewer { OnOk result (count_left tokens.new < count_left tokens.old) }
{
    let mut elements = Vec::new(alloc);
    elements.push(tokens.number(alloc, "an element's number")?)?;
    'more: while tokens.take(Mark::Comma) {
        elements.push(tokens.number(alloc, "an element's number")?)?;
    }
    Ok(elements)
}
