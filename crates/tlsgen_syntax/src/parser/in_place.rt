//! Fields with their types in place.
ghost use Rattle.std.specs.Prelude.{◌<◌, OnOk};
ghost use Rattle.tlsgen_syntax.specs.Signs.{Reads, count_left, in_place_then, type_in_place_then};

use crate::parser::enums::numbers;
use crate::parser::fields::vector;
use crate::parser::structs::parts;
use crate::rejection::Trouble;
use crate::source::{InPlace, TypeInPlace};
use crate::token::Mark;
use crate::tokens::Tokens;
use std::alloc::Global;

/// `type NAME vector ";"`
pub(crate) fn in_place(alloc: Global, tokens: &mut Tokens<'_>) -> Result<InPlace, Trouble>
    ensures read { Reads in_place_then tokens.old tokens.new result }
    ensures fewer { OnOk result (count_left tokens.new < count_left tokens.old) }
{
    let of = type_in_place(alloc, tokens)?;
    let name = tokens.name(alloc, "the field's name")?;
    let vector = vector(alloc, tokens)?;
    tokens.expect(alloc, Mark::Semicolon, "[, < or ;")?;
    Ok(InPlace { of, name, vector })
}

// `["open"] "enum" "{" values "}"` or `"struct" "{" { part } "}"`
fn type_in_place(alloc: Global, tokens: &mut Tokens<'_>) -> Result<TypeInPlace, Trouble>
    ensures read { Reads type_in_place_then tokens.old tokens.new result }
    ensures fewer { OnOk result (count_left tokens.new < count_left tokens.old) }
{
    if !tokens.take(Mark::Struct) {
        return Ok(TypeInPlace::Enum(numbers(alloc, tokens)?));
    }
    tokens.expect(alloc, Mark::OpeningBrace, "{")?;
    Ok(TypeInPlace::Struct(parts(alloc, tokens)?))
}
