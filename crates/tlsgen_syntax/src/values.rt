//! Enums with a word for each value's name.
ghost use Rattle.std.specs.Prelude.{◌≡◌, List, IfOk, string_bytes};
ghost use Rattle.tlsgen_syntax.specs.Apart.{apart_enum_then, apart_value_then, value_word, value_word_then};
ghost use Rattle.tlsgen_syntax.specs.Signs.{Sign, enum_then, optional_name_then, separated_then, value_then};

use crate::source::{Numbers, SourceValue, ValueName};
use crate::syntax::{Enum, Name, Remark, Value};
use crate::token::Mark;
use std::alloc::{AllocError, Global};

/// The enum of this name. A value whose name is a number is called by its decimal digits: `2^9(1)`
/// is `512(1)`.
pub(crate) fn enumeration(alloc: Global, numbers: Numbers, name: Name) -> Result<Enum, AllocError>
    ensures { IfOk result (λ one. (rest : List Sign) → enum_then one rest ≡
        apart_enum_then numbers (string_bytes name.text) rest) }
{
    Ok(Enum {
        is_open: numbers.is_open,
        values: values(alloc, numbers.values)?,
        name,
    })
}

fn values(alloc: Global, written: Vec<SourceValue>) -> Result<Vec<Value>, AllocError>
    ensures { IfOk result (λ values. (rest : List Sign) →
        separated_then Mark.Comma value_then values.items rest ≡
        separated_then Mark.Comma apart_value_then written.items rest) }
{
    let mut values = Vec::new(alloc);
    for one in written {
        values.push(value(alloc, one)?)?;
    }
    Ok(values)
}

fn value(alloc: Global, written: SourceValue) -> Result<Value, AllocError>
    ensures { IfOk result (λ value. (rest : List Sign) →
        value_then value rest ≡ apart_value_then written rest) }
{
    let SourceValue { name, number, last } = written;
    let name = optional_word(alloc, name)?;
    Ok(Value { name, number, last })
}

fn optional_word(alloc: Global, name: Option<ValueName>) -> Result<Option<Name>, AllocError>
    ensures { IfOk result (λ own. (rest : List Sign) →
        optional_name_then own rest ≡ value_word_then name rest) }
{
    match name {
        Some(name) => Ok(Some(word(alloc, name)?)),
        None => Ok(None),
    }
}

fn word(alloc: Global, name: ValueName) -> Result<Name, AllocError>
    ensures { IfOk result (λ own. string_bytes own.text ≡ value_word name) }
{
    match name {
        ValueName::Word(name) => Ok(name),
        ValueName::Number(number) => Ok(Name {
            text: number.value.to_string(alloc)?,
            place: number.place,
            remark: Remark::none(alloc),
        }),
    }
}
