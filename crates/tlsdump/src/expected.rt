//! What was expected at a rejected field, and what is there.

use crate::walk::definitions::value_name;
use crate::walk::stop::{Expected, Found};
use std::alloc::AllocError;
use tlsgen_syntax::syntax::{Constant, Enum, Field, Label, Select, Vector};

/// What is there.
pub fn push_found(out: &mut String, found: Found) -> Result<(), AllocError> {
    match found {
        Found::Left(1) => out.push_str("1 byte is left"),
        Found::Left(count) => write!(out, "{count} bytes are left"),
        Found::Announced(count, left) => {
            write!(out, "its length announces {count} bytes, {left} are left")
        }
        Found::Length(count) => write!(out, "its length is {count} bytes"),
        Found::Spelling => out.push_str("its length isn't in the fewest bytes, or is 2^30 or more"),
        Found::Number(number) => write!(out, "{number} (0x{number:x}) is there"),
        Found::Rejected => out.push_str("the validator rejects what begins here"),
    }
}

/// What was expected.
pub fn push_expected(out: &mut String, expected: Expected<'_>) -> Result<(), AllocError> {
    match expected {
        Expected::Field(field) => push_field(out, field),
        Expected::Type(of) => out.push_str(of),
        Expected::Value(one) => push_values(out, one),
        Expected::Case(select) => push_cases(out, select),
        Expected::Tag(of) => write!(out, "0, or 1 before {of}"),
        Expected::End(of) => write!(out, "the end of {of}"),
    }
}

// A field as it is declared.
fn push_field(out: &mut String, field: &Field) -> Result<(), AllocError> {
    let of = field.of.text.as_str();
    let name = field.name.text.as_str();
    if field.is_optional {
        write!(out, "optional<{of}> {name}")?;
    } else if field.is_named {
        write!(out, "{of} {name}")?;
    } else {
        out.push_str(of)?;
    }
    push_vector(out, &field.vector)?;
    match &field.constant {
        Some(Constant::Named(name)) => write!(out, " = {}", name.text),
        Some(Constant::Number(number)) => write!(out, " = 0x{:04x}", number.value),
        Some(Constant::Elements(_)) => out.push_str(" = {..}"),
        None => Ok(()),
    }
}

// How many of its type a field has.
fn push_vector(out: &mut String, vector: &Vector) -> Result<(), AllocError> {
    match vector {
        Vector::One => Ok(()),
        Vector::Array(number) => write!(out, "[{}]", number.value),
        Vector::Counted(_) => out.push_str("[..]"),
        Vector::Variable => out.push_str("<V>"),
        Vector::Bounded(least, most) => {
            write!(out, "<{}..", least.value)?;
            push_bound(out, most.value)?;
            out.push_str(">")
        }
    }
}

// The most bytes of a vector, as RFCs write them.
fn push_bound(out: &mut String, most: u64) -> Result<(), AllocError> {
    match most {
        0xfffe => out.push_str("2^16-2"),
        0xffff => out.push_str("2^16-1"),
        0xff_ffff => out.push_str("2^24-1"),
        0xffff_ffff => out.push_str("2^32-1"),
        _ => write!(out, "{most}"),
    }
}

// The most values that are named.
const FEW: usize = 8;

// An enum, with its values if they are few.
fn push_values(out: &mut String, one: &Enum) -> Result<(), AllocError> {
    write!(out, "{}", one.name.text)?;
    if one.values.len() > FEW {
        return Ok(());
    }
    let mut before = ": ";
    for value in &one.values {
        let number = value.number.value;
        match value_name(one, number) {
            None | Some("reserved") => {}
            Some(name) => {
                write!(out, "{before}{name} ({number})")?;
                before = ", ";
            }
        }
    }
    Ok(())
}

// The tags for which a select has a case.
fn push_cases(out: &mut String, select: &Select) -> Result<(), AllocError> {
    let mut before = "one of ";
    for case in &select.cases {
        for label in &case.labels {
            out.push_str(before)?;
            match label {
                Label::Name(name) => out.push_str(name.text.as_str())?,
                Label::Number(number) => write!(out, "{}", number.value)?,
            }
            before = ", ";
        }
    }
    Ok(())
}
