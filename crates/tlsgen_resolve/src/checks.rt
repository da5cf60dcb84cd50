//! Whether the names and the numbers that a file gives can be written.
ghost use Rattle.std.specs.Prelude.{◌≡◌, ◌≢◌, ◌↔◌, ◌++◌, [], ◌∷◌, IfOk, IfSome, IsFalse, IsSome, OnOk, Some, codes};
ghost use Rattle.tlsgen_resolve.specs.Cases.{IsNamed, numbers_of};
ghost use Rattle.tlsgen_model.specs.Writable.{IsWritable};

use crate::naming::{type_name, underscored};
use crate::reject::rejected;
use std::alloc::Global;
use tlsgen_model::lists::{Unfit, ValueList};
use tlsgen_model::names::{constant_name, module_name, variant_name};
use tlsgen_model::plan;
use tlsgen_model::plan::Body;
use tlsgen_model::width::{Width, bytes_for};
use tlsgen_syntax::rejection::Trouble;
use tlsgen_syntax::syntax::{Enum, Name, Number, Value};

// The most values of an enum: names are compared each with each.
const MAX_VALUES: usize = 1024;

/// What is right in place of a number that is too great for its enum or its tag.
pub const TOO_GREAT: &str = "a number of at most the enum's bytes";

/// The module of a type's name. Rejects a name that a type can't have.
pub fn type_module(alloc: Global, name: &Name) -> Result<String, Trouble> {
    check_letters(alloc, name)?;
    let own = type_name(alloc, name.text.as_str())?;
    Ok(module_name(alloc, own.as_str())?)
}

/// Rejects a name that has other characters than letters, digits, `_` and dots, or that begins with no letter.
pub fn check_letters(alloc: Global, name: &Name) -> Result<(), Trouble> {
    let bytes = name.text.as_bytes();
    if !bytes
        .first()
        .is_some_and(|first| first.is_ascii_alphabetic())
    {
        return Err(rejected(
            alloc,
            name.place,
            name.text.as_str(),
            "a name that begins with a letter",
        ));
    }
    check_signs(alloc, name)
}

// Rejects a value's name as a type's name is rejected, except that it may begin with a digit, as in
// `512`.
fn check_value_letters(alloc: Global, name: &Name) -> Result<(), Trouble> {
    let first = name.text.as_bytes().first();
    if first.is_some_and(|first| first.is_ascii_digit()) {
        return check_signs(alloc, name);
    }
    check_letters(alloc, name)
}

// Rejects a name that has other characters than letters, digits, `_` and dots.
fn check_signs(alloc: Global, name: &Name) -> Result<(), Trouble> {
    let bytes = name.text.as_bytes();
    if !bytes.iter().all(|byte| byte.is_ascii_alphanumeric() || *byte == b'_' || *byte == b'.') {
        return Err(rejected(
            alloc,
            name.place,
            name.text.as_str(),
            "a name of letters, digits, _ and dots",
        ));
    }
    Ok(())
}

/// How many bytes the numbers of an enum have, by the last number without a name, or else by the greatest.
pub fn enum_width(alloc: Global, one: &Enum) -> Result<Width, Trouble> {
    let name = &one.name;
    let Some(bytes) = bytes_for(greatest(one)) else {
        return Err(rejected(
            alloc,
            name.place,
            name.text.as_str(),
            "numbers of at most 4 bytes",
        ));
    };
    match Width::new(bytes) {
        Some(width) => Ok(width),
        None => Err(rejected(
            alloc,
            name.place,
            name.text.as_str(),
            "numbers of 1, 2 or 4 bytes, as by a last (255), (65535) or (4294967295): a tag of 1, 2, 4 or 8 bytes",
        )),
    }
}

fn greatest(one: &Enum) -> u64 {
    let mut stated = None;
    let mut greatest = 0;
    for value in &one.values {
        let last = last_number(value).value;
        match value.name {
            None => stated = Some(last),
            Some(_) => greatest = greatest.max(last),
        }
    }
    stated.unwrap_or(greatest)
}

// The number of a value, or the last one of a range.
fn last_number(value: &Value) -> Number {
    value.last.unwrap_or(value.number)
}

/// The values of an enum, without ranges and those that are called `reserved`. Rejects a name or a number that comes
/// twice, and a number of more bytes than the enum's. One without values keeps each number.
pub fn enum_body(alloc: Global, one: &Enum) -> Result<Body, Trouble>
    ensures { IfOk result IsWritable }
{
    let width = enum_width(alloc, one)?;
    let mut values = ValueList::new(alloc, width);
    for value in &one.values {
        check_range(alloc, width, value)?;
        if let Some(name) = named(value) {
            push_value(alloc, one, name, value.number, &mut values)?;
        }
    }
    let is_open = one.is_open || values.len() == 0;
    Ok(values.into_body(is_open))
}

// Rejects a range that ends before it begins, and one of more bytes than the enum's.
fn check_range(alloc: Global, width: Width, value: &Value) -> Result<(), Trouble> {
    let Some(last) = value.last else {
        return Ok(());
    };
    if last.value < value.number.value {
        return Err(rejected_number(alloc, last, "a range that doesn't end before it begins"));
    }
    if value.name.is_some() && !width.holds(last.value) {
        return Err(rejected_number(alloc, last, TOO_GREAT));
    }
    Ok(())
}

fn push_value(
    alloc: Global,
    one: &Enum,
    name: &Name,
    number: Number,
    values: &mut ValueList,
) -> Result<(), Trouble>
    ensures { OnOk result (numbers_of values.new ≡ numbers_of values.old ++ number.value ∷ []) }
{
    let text = name.text.as_str();
    check_value_letters(alloc, name)?;
    if values.len() >= MAX_VALUES {
        return Err(rejected(alloc, name.place, text, "at most 1024 values"));
    }
    let spelled = underscored(alloc, text)?;
    let value = plan::Value {
        label: name.text.clone()?,
        name: variant_name(alloc, spelled.as_str(), one.name.text.as_str())?,
        constant: constant_name(alloc, spelled.as_str())?,
        number: number.value,
        comment: name.remark.text.clone()?,
    };
    match values.push(value)? {
        None => Ok(()),
        Some(Unfit::TooGreat) => Err(rejected_number(alloc, number, TOO_GREAT)),
        Some(Unfit::SameNumber) => Err(rejected_number(
            alloc,
            number,
            "a number that no value above has",
        )),
        Some(_) => Err(rejected(
            alloc,
            name.place,
            text,
            "a name that no value above has, and whose words aren't those of one above",
        )),
    }
}

/// The name of a value, if it has one, isn't reserved and is no range.
pub fn named(value: &Value) -> Option<&Name>
    ensures some { IsSome result ↔ IsNamed value.now }
    ensures same { IfSome result (λ own. value.now.name ≡ Some own.now) }
{
    if value.last.is_some() {
        return None;
    }
    match &value.name {
        Some(name) if !is_reserved(name.text.as_str()) => Some(name),
        _ => None,
    }
}

fn is_reserved(text: &str) -> bool
    ensures { IsFalse result ↔ ((text.now ≢ codes "reserved") × (text.now ≢ codes "RESERVED")) }
{
    text == "reserved" || text == "RESERVED"
}

/// The error for a rejected number.
pub fn rejected_number(alloc: Global, number: Number, expected: &'static str) -> Trouble {
    let value = number.value;
    match format!(in alloc; "{value}") {
        Ok(found) => rejected(alloc, number.place, found.as_str(), expected),
        Err(_) => Trouble::Memory,
    }
}
