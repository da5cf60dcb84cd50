//! The types of fields.
ghost use Rattle.std.specs.Prelude.{Bool, IfOk, IsTrue};
ghost use Rattle.tlsgen_model.specs.Types.{IsType, can_be, is_no_array, is_shape, is_vector};
ghost use Rattle.tlsgen_model.specs.declared.plan.Shape.{Shape as AShape};
ghost use Rattle.tlsgen_model.specs.declared.plan.Shape.TheVariants as shapes;

use crate::checks::rejected_number;
use crate::constants::fixed_of;
use crate::items::{find, has_bytes, integer_width};
use crate::naming::type_name;
use crate::notes::number_of_path;
use crate::reject::rejected;
use crate::scope::Scope;
use std::alloc::{AllocError, Global};
use tlsgen_model::plan::{Element, Shape, Type};
use tlsgen_model::width::bytes_for;
use tlsgen_syntax::rejection::Trouble;
use tlsgen_syntax::syntax::{Constant, Field, Item, Name, Number, Vector};

// The most elements of an array.
const MAX_ARRAY_LENGTH: u64 = 65535;

// What is expected in place of an array's number that isn't a multiple of its integers' bytes.
const CUT: &str =
    "the bytes of whole elements: between an array's brackets is the number of its bytes";

/// The type of a field or of another name. Rejects a type that nothing defines, and a vector that it can't have.
pub fn type_of(alloc: Global, scope: Scope<'_>, field: &Field) -> Result<Type, Trouble>
    ensures { IfOk result IsType }
{
    if let Some(constant) = &field.constant {
        return constant_type(alloc, scope, field, constant);
    }
    match &field.vector {
        Vector::One => single_type(alloc, scope, field),
        Vector::Array(number) => array_type(alloc, scope, field, *number),
        Vector::Counted(path) => match number_of_path(scope, path) {
            Some(number) => array_type(alloc, scope, field, number),
            None => Err(rejected_length(alloc, path)),
        },
        Vector::Variable => listed_type(alloc, scope, field, Shape::Variable),
        Vector::Bounded(least, most) => bounded_type(alloc, scope, field, *least, *most),
    }
}

/// The type of a field after a length that is neither below `least` nor above `most`.
pub fn bounded_type(
    alloc: Global,
    scope: Scope<'_>,
    field: &Field,
    least: Number,
    most: Number,
) -> Result<Type, Trouble>
    ensures { IfOk result IsType }
{
    let shape = bounded_shape(alloc, least, most)?;
    listed_type(alloc, scope, field, shape)
}

fn constant_type(
    alloc: Global,
    scope: Scope<'_>,
    field: &Field,
    constant: &Constant,
) -> Result<Type, Trouble>
    ensures { IfOk result IsType }
{
    let fixed = fixed_of(alloc, scope, field, constant)?;
    Ok(Type {
        shape: Shape::One,
        is_optional: false,
        element: Element::Message(fixed.type_name),
    })
}

// The type of a field without a vector.
fn single_type(alloc: Global, scope: Scope<'_>, field: &Field) -> Result<Type, Trouble>
    ensures { IfOk result IsType }
{
    let element = single_element(alloc, scope, field)?;
    Ok(Type {
        shape: Shape::One,
        is_optional: field.is_optional,
        element,
    })
}

// In a vector of this shape.
fn listed_type(
    alloc: Global,
    scope: Scope<'_>,
    field: &Field,
    shape: Shape,
) -> Result<Type, Trouble>
    requires shape { IsTrue (is_shape shape) }
    requires vector { IsTrue (is_vector shape) }
    requires no_array { IsTrue (is_no_array shape) }
    ensures { IfOk result IsType }
{
    let element = listed_element(alloc, scope, field)?;
    Ok(Type {
        shape,
        is_optional: field.is_optional,
        element,
    })
}

// Elsewhere `length_before` finds what counts a field.
fn rejected_length(alloc: Global, path: &[Name]) -> Trouble {
    match path.first() {
        Some(name) => rejected(
            alloc,
            name.place,
            name.text.as_str(),
            "a number, or the name of the field just before this one: an integer of 1 to 4 bytes, which counts it; or a note of the number",
        ),
        None => Trouble::Inconsistent,
    }
}

// An array of `number` bytes, or elements that have `number` bytes together (RFC 8446, section
// 3.4).
fn array_type(
    alloc: Global,
    scope: Scope<'_>,
    field: &Field,
    number: Number,
) -> Result<Type, Trouble>
    ensures { IfOk result IsType }
{
    if number.value == 0 || number.value > MAX_ARRAY_LENGTH {
        return Err(rejected_number(alloc, number, "an array of 1 to 65535 bytes"));
    }
    if has_bytes(field) {
        return Ok(Type {
            shape: Shape::Array(number.value),
            is_optional: false,
            element: Element::Opaque,
        });
    }
    if cuts_an_integer(field, number.value) {
        return Err(rejected_number(alloc, number, CUT));
    }
    listed_type(alloc, scope, field, Shape::Exact(number.value))
}

// Whether this many bytes are no whole number of a field's elements, if those are integers.
fn cuts_an_integer(field: &Field, count: u64) -> bool {
    if field.is_optional {
        return false;
    }
    match integer_width(field.of.text.as_str()) {
        Some(2) => count % 2 != 0,
        Some(3) => count % 3 != 0,
        Some(4) => count % 4 != 0,
        Some(8) => count % 8 != 0,
        _ => false,
    }
}

// The length field has as many bytes as the ceiling needs.
fn bounded_shape(alloc: Global, least: Number, most: Number) -> Result<Shape, Trouble>
    ensures shape { IfOk result (λ shape. IsTrue (is_shape shape)) }
    ensures vector { IfOk result (λ shape. IsTrue (is_vector shape)) }
    ensures no_array { IfOk result (λ shape. IsTrue (is_no_array shape)) }
{
    if least.value > most.value {
        return Err(rejected_number(alloc, least, "a floor that isn't above its ceiling"));
    }
    match bytes_for(most.value) {
        Some(width) => Ok(Shape::Bounded {
            width,
            least: least.value,
            most: most.value,
        }),
        None => Err(rejected_number(alloc, most, "a ceiling of at most 2^32-1")),
    }
}

// How the greatest number of 1 to 4 bytes is written.
fn power_text(number: u64) -> Option<&'static str> {
    match number {
        0xff => Some("2^8-1"),
        0xffff => Some("2^16-1"),
        0xff_ffff => Some("2^24-1"),
        0xffff_ffff => Some("2^32-1"),
        _ => None,
    }
}

// The element of a field without a vector.
fn single_element(alloc: Global, scope: Scope<'_>, field: &Field) -> Result<Element, Trouble>
    ensures { IfOk result (λ element. IsTrue (can_be element field.now.is_optional shapes.One)) }
{
    let of = &field.of;
    match of.text.as_str() {
        "opaque" => Err(rejected(
            alloc,
            of.place,
            "opaque",
            "bytes in a vector, as `opaque NAME<V>` or `opaque NAME[16]`",
        )),
        "string" => Ok(Element::Text),
        _ => named_element(alloc, scope, of),
    }
}

// In a vector.
fn listed_element(alloc: Global, scope: Scope<'_>, field: &Field) -> Result<Element, Trouble>
    ensures { IfOk result (λ e. (s : AShape) → IsTrue (is_vector s) → IsTrue (is_no_array s) →
        IsTrue (can_be e field.now.is_optional s)) }
{
    let of = &field.of;
    match of.text.as_str() {
        "opaque" if field.is_optional => Err(rejected(
            alloc,
            of.place,
            "opaque",
            "bytes in a vector, as `opaque NAME<V>` or `opaque NAME[16]`",
        )),
        "opaque" => Ok(Element::Opaque),
        "string" => Err(rejected(
            alloc,
            of.place,
            "string",
            "a text without a vector, `string NAME`",
        )),
        _ => named_element(alloc, scope, of),
    }
}

// An integer, or a type of the file.
fn named_element(alloc: Global, scope: Scope<'_>, of: &Name) -> Result<Element, Trouble>
    ensures { IfOk result (λ element. (o : Bool) (s : AShape) → IsTrue (is_no_array s) →
        IsTrue (can_be element o s)) }
{
    match integer_width(of.text.as_str()) {
        Some(width) => Ok(Element::Integer(width)),
        None => defined(alloc, scope, of),
    }
}

fn defined(alloc: Global, scope: Scope<'_>, of: &Name) -> Result<Element, Trouble>
    ensures { IfOk result (λ element. (o : Bool) (s : AShape) → IsTrue (is_no_array s) →
        IsTrue (can_be element o s)) }
{
    let text = of.text.as_str();
    match find(scope, text) {
        Some(Item::Alias(_)) => Ok(Element::Alias(type_name(alloc, text)?)),
        Some(_) => Ok(Element::Message(type_name(alloc, text)?)),
        None => Err(rejected(
            alloc,
            of.place,
            text,
            "the name of a type of the language, of this text, or of one given by --with",
        )),
    }
}

/// The line that declares a field, such as `opaque group_id<V>;`.
pub fn declared(alloc: Global, field: &Field) -> Result<String, AllocError> {
    let of = field.of.text.as_str();
    let mut line = if field.is_optional {
        format!(in alloc; "optional<{of}>")?
    } else {
        String::from_str(alloc, of)?
    };
    if field.is_named {
        let name = field.name.text.as_str();
        write!(line, " {name}")?;
    }
    push_vector(&mut line, &field.vector)?;
    if let Some(constant) = &field.constant {
        line.push_str(" = ")?;
        push_constant(&mut line, constant)?;
    }
    line.push(';')?;
    Ok(line)
}

fn push_constant(line: &mut String, constant: &Constant) -> Result<(), AllocError> {
    match constant {
        Constant::Named(name) => line.push_str(name.text.as_str()),
        Constant::Number(number) => push_number(line, number.value),
        Constant::Elements(elements) => push_elements(line, elements),
    }
}

// A number past 9 in hexadecimal, as RFCs write constants.
fn push_number(line: &mut String, number: u64) -> Result<(), AllocError> {
    match number {
        0..=9 => write!(line, "{number}"),
        0..=0xff => write!(line, "0x{number:02x}"),
        0..=0xffff => write!(line, "0x{number:04x}"),
        _ => write!(line, "0x{number:08x}"),
    }
}

fn push_elements(line: &mut String, elements: &[Number]) -> Result<(), AllocError> {
    let mut separator = "{";
    for element in elements {
        let element = element.value;
        write!(line, "{separator}{element}")?;
        separator = ", ";
    }
    line.push('}')
}

fn push_vector(line: &mut String, vector: &Vector) -> Result<(), AllocError> {
    match vector {
        Vector::One => Ok(()),
        Vector::Array(number) => {
            let n = number.value;
            write!(line, "[{n}]")
        }
        Vector::Counted(path) => {
            let mut separator = "[";
            for name in path {
                line.push_str(separator)?;
                line.push_str(name.text.as_str())?;
                separator = ".";
            }
            line.push(']')
        }
        Vector::Variable => line.push_str("<V>"),
        Vector::Bounded(least, most) => {
            let a = least.value;
            let b = most.value;
            match power_text(b) {
                Some(text) => write!(line, "<{a}..{text}>"),
                None => write!(line, "<{a}..{b}>"),
            }
        }
    }
}
