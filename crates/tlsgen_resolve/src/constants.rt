//! Fields that always have one value, as `ProtocolVersion version = mls10;` or `uint8 method = 0;`.
//!
//! Their type is an enum of that value alone.
ghost use Rattle.std.specs.Prelude.{IfOk};
ghost use Rattle.tlsgen_model.specs.Writable.{IsWritable};

use crate::cases::{Tag, find_name, find_tag};
use crate::checks::{TOO_GREAT, enum_width, named, rejected_number};
use crate::items::has_bytes;
use crate::naming::{base_name, type_name, underscored};
use crate::reject::rejected;
use crate::scope::Scope;
use std::alloc::{AllocError, Global};
use tlsgen_model::lists::ValueList;
use tlsgen_model::names::{constant_name, variant_name};
use tlsgen_model::plan::{Body, Value};
use tlsgen_model::width::Width;
use tlsgen_syntax::rejection::Trouble;
use tlsgen_syntax::syntax::{Constant, Enum, Field, Name, Number, Vector};

const NO_CONSTANT: &str =
    "no constant: the field is no single number or enum of 1, 2, 4 or 8 bytes, and no array of as many";

/// The one value of a field.
#[derive(Drop)]
pub struct Fixed {
    /// The type that has this value alone.
    pub type_name: String,
    /// It is the field's own type, an enum of one value.
    pub is_own: bool,
    /// How the text writes the value.
    pub label: String,
    // The name of the value in Rust, by its words.
    words: String,
    width: Width,
    pub number: Number,
}

/// What a field always is. Rejects a constant that the field's type doesn't have.
pub fn fixed_of(
    alloc: Global,
    scope: Scope<'_>,
    field: &Field,
    constant: &Constant,
) -> Result<Fixed, Trouble> {
    match constant {
        Constant::Named(name) => named_constant(alloc, scope, field, name),
        Constant::Number(number) => numbered_constant(alloc, scope, field, *number),
        Constant::Elements(elements) => constant_of_bytes(alloc, scope, field, elements),
    }
}

// A value of the field's enum.
fn named_constant(
    alloc: Global,
    scope: Scope<'_>,
    field: &Field,
    name: &Name,
) -> Result<Fixed, Trouble> {
    let found = find_tag(alloc, scope, field)?.and_then(|tag| tag.of);
    if let Some(one) = found {
        if let Some(value) = find_value(one, name) {
            let number = Number {
                value,
                place: name.place,
            };
            let width = enum_width(alloc, one)?;
            return of_value(alloc, one, width, name, number);
        }
    }
    Err(rejected(
        alloc,
        name.place,
        name.text.as_str(),
        "no constant, or a value of the field's enum",
    ))
}

fn find_value(one: &Enum, name: &Name) -> Option<u64> {
    one.values
        .iter()
        .find(|value| named(value).is_some_and(|own| own.text == name.text))
        .map(|value| value.number.value)
}

/// The one value of a tag that has a single case.
pub fn fixed_tag(
    alloc: Global,
    field: &Field,
    tag: Tag<'_>,
    number: Number,
) -> Result<Fixed, Trouble> {
    if let Some(one) = tag.of {
        if let Some(name) = find_name(one, number.value) {
            return of_value(alloc, one, tag.width, name, number);
        }
    }
    of_number(alloc, field, tag.width, number)
}

fn of_value(
    alloc: Global,
    one: &Enum,
    width: Width,
    name: &Name,
    number: Number,
) -> Result<Fixed, Trouble> {
    let of = type_name(alloc, one.name.text.as_str())?;
    let words = underscored(alloc, name.text.as_str())?;
    let is_own = !one.is_open && has_one_value(one);
    let variant = variant_name(alloc, words.as_str(), of.as_str())?;
    Ok(Fixed {
        type_name: if is_own {
            of
        } else {
            format!(in alloc; "{of}{variant}")?
        },
        is_own,
        label: name.text.clone()?,
        words,
        width,
        number,
    })
}

fn has_one_value(one: &Enum) -> bool {
    one.values
        .iter()
        .filter(|value| named(*value).is_some())
        .count()
        == 1
}

// A number, also the one of an enum's value.
fn numbered_constant(
    alloc: Global,
    scope: Scope<'_>,
    field: &Field,
    number: Number,
) -> Result<Fixed, Trouble> {
    match find_tag(alloc, scope, field)? {
        Some(Tag { width, of: None }) => of_number(alloc, field, width, number),
        Some(
            Tag {
                width,
                of: Some(one),
            },
        ) => match find_name(one, number.value) {
            Some(name) => of_value(alloc, one, width, name, number),
            None => Err(rejected_number(alloc, number, "a value of the field's enum")),
        },
        None => Err(rejected_number(alloc, number, NO_CONSTANT)),
    }
}

// The bytes of a number, or of an array of bytes.
fn constant_of_bytes(
    alloc: Global,
    scope: Scope<'_>,
    field: &Field,
    elements: &[Number],
) -> Result<Fixed, Trouble> {
    let is_array = matches!(field.vector, Vector::Array(_));
    let width = if is_array {
        array_width(field)
    } else {
        find_tag(alloc, scope, field)?.map(|tag| tag.width)
    };
    let Some(width) = width else {
        return Err(rejected_field(alloc, field, NO_CONSTANT));
    };
    if elements.len() != width.bytes {
        return Err(rejected_field(alloc, field, "as many elements as the field has bytes"));
    }
    let mut value = 0;
    for element in elements {
        value = with_byte(alloc, value, *element)?;
    }
    let place = elements
        .first()
        .map_or(field.name.place, |first| first.place);
    let number = Number { value, place };
    if is_array {
        return of_number(alloc, field, width, number);
    }
    numbered_constant(alloc, scope, field, number)
}

// How many bytes an array of bytes has.
fn array_width(field: &Field) -> Option<Width> {
    let Vector::Array(count) = field.vector else {
        return None;
    };
    if !has_bytes(field) {
        return None;
    }
    Width::new(usize::try_from(count.value).ok()?)
}

// Appends one byte to a number.
fn with_byte(alloc: Global, value: u64, element: Number) -> Result<u64, Trouble> {
    match u8::try_from(element.value) {
        Ok(byte) => Ok((value << 8) | u64::from(byte)),
        Err(_) => Err(rejected_number(alloc, element, "a byte")),
    }
}

fn of_number(alloc: Global, field: &Field, width: Width, number: Number) -> Result<Fixed, Trouble> {
    if !width.holds(number.value) {
        return Err(rejected_number(alloc, number, "a number of at most the field's bytes"));
    }
    let digits = hexadecimal(alloc, width, number.value)?;
    let digits = digits.as_str();
    let of = base_name(alloc, field)?;
    let of = of.as_str();
    Ok(Fixed {
        type_name: format!(in alloc; "{of}X{digits}")?,
        is_own: false,
        label: format!(in alloc; "0x{digits}")?,
        words: format!(in alloc; "x{digits}")?,
        width,
        number,
    })
}

// Two digits for each byte.
fn hexadecimal(alloc: Global, width: Width, number: u64) -> Result<String, AllocError> {
    let mut text = String::new(alloc);
    let bytes = number.to_be_bytes();
    for byte in bytes.iter().skip(8usize.saturating_sub(width.bytes)) {
        write!(text, "{byte:02x}")?;
    }
    Ok(text)
}

/// An enum of the one value.
pub fn fixed_body(alloc: Global, fixed: &Fixed) -> Result<Body, Trouble>
    ensures { IfOk result IsWritable }
{
    let words = fixed.words.as_str();
    let mut values = ValueList::new(alloc, fixed.width);
    let value = Value {
        label: fixed.label.clone()?,
        name: variant_name(alloc, words, fixed.type_name.as_str())?,
        constant: constant_name(alloc, words)?,
        number: fixed.number.value,
        comment: String::new(alloc),
    };
    match values.push(value)? {
        None => Ok(values.into_body(false)),
        Some(_) => Err(rejected_number(alloc, fixed.number, TOO_GREAT)),
    }
}

fn rejected_field(alloc: Global, field: &Field, expected: &'static str) -> Trouble {
    let name = &field.name;
    rejected(alloc, name.place, name.text.as_str(), expected)
}
