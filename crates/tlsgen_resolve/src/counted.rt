//! Fields of as many bytes as the number just before them says: `uint16 length; opaque fragment[TLSPlaintext.length];`.
//!
//! The two are one member, a vector after that length: no value has a length that its bytes don't have.
ghost use Rattle.std.specs.Prelude.{IfOk};
ghost use Rattle.tlsgen_model.specs.Types.{IsType};

use crate::items::{integer_width, is_single};
use crate::scope::Scope;
use crate::types::bounded_type;
use std::alloc::Global;
use tlsgen_model::plan::Type;
use tlsgen_syntax::rejection::Trouble;
use tlsgen_syntax::syntax::{Field, Name, Number, Part, Struct, Vector};

/// The number just before a part of a struct, if the part is a field of as many bytes.
pub fn length_before<'a>(one: &'a Struct, at: usize) -> Option<&'a Field> {
    let (Some(Part::Field(length)), Some(Part::Field(field))) = (
        one.parts.get(at.checked_sub(1)?),
        one.parts.get(at),
    ) else {
        return None;
    };
    if is_length(length) && is_counted_by(one, field, length) {
        Some(length)
    } else {
        None
    }
}

/// Whether a field is an integer of 1 to 4 bytes.
pub fn is_length(field: &Field) -> bool {
    is_single(field) && field.constant.is_none() && greatest_of(field).is_some()
}

// The greatest length of a field that is an integer of 1 to 4 bytes.
fn greatest_of(length: &Field) -> Option<u64> {
    match integer_width(length.of.text.as_str())? {
        1 => Some(0xff),
        2 => Some(0xffff),
        3 => Some(0xff_ffff),
        4 => Some(0xffff_ffff),
        _ => None,
    }
}

// Whether a field names another one between its brackets, alone or after the struct's own name.
fn is_counted_by(one: &Struct, field: &Field, length: &Field) -> bool {
    if field.is_optional || field.constant.is_some() {
        return false;
    }
    let Some(path) = path_of_array(field) else {
        return false;
    };
    match path {
        [name] => name.text == length.name.text,
        [of, name] => of.text == one.name.text && name.text == length.name.text,
        _ => false,
    }
}

/// The name between the brackets of a field, if it is an array of a length with a name.
pub fn path_of_array(field: &Field) -> Option<&[Name]> {
    match &field.vector {
        Vector::Counted(path) => Some(path.as_slice()),
        _ => None,
    }
}

/// The type of a field of as many bytes as the number before it says.
pub fn counted_type(
    alloc: Global,
    scope: Scope<'_>,
    length: &Field,
    field: &Field,
) -> Result<Type, Trouble>
    ensures { IfOk result IsType }
{
    let place = field.name.place;
    let most = greatest_of(length).unwrap_or(0);
    bounded_type(
        alloc,
        scope,
        field,
        Number { value: 0, place },
        Number { value: most, place },
    )
}
