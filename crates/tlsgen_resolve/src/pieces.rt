//! The parts of a struct as pieces. A number and what it counts are one piece. In place of a select that always has one case
//! come the fields of that case.
use crate::counted::length_before;
use crate::ending::ending_of;
use crate::notes::{counts_select, filling_field, is_padding, padding_of, settled_case};
use crate::scope::Scope;
use crate::sequence::{MAX_PIECES, Piece, Sequence, rejected_size};
use std::alloc::{AllocError, Global};
use tlsgen_syntax::rejection::Trouble;
use tlsgen_syntax::syntax::{Field, Part, Select, Struct};

/// The pieces of a struct.
pub fn own_pieces<'a>(
    alloc: Global,
    scope: Scope<'a>,
    one: &'a Struct,
) -> Result<Sequence<'a>, Trouble> {
    let name = one.name.text.as_str();
    let mut pieces = Vec::new(alloc);
    if one.parts.len() > MAX_PIECES {
        return Err(rejected_size(alloc, &one.name));
    }
    for (at, part) in written_parts(scope, one).iter().enumerate() {
        match part {
            Part::Field(field) if is_padding(scope, one, field) => {}
            Part::Field(field) => push_field(scope, one, at, field, &mut pieces)?,
            Part::Select(select) => push_select(scope, one, select, &mut pieces)?,
        }
    }
    Ok(Sequence {
        name,
        place: one.name.place,
        remark: &one.name.remark,
        is_borrowed: one.is_borrowed,
        pieces,
        context: None,
        is_filling: filling_field(scope, one).is_some(),
        padding: padding_of(scope, one),
    })
}

// None of a struct that is another name of `InnerPlaintext`.
fn written_parts<'a>(scope: Scope<'_>, one: &'a Struct) -> &'a [Part] {
    match ending_of(scope, one) {
        Some(_) => &[],
        None => one.parts.as_slice(),
    }
}

// A number that counts the field directly after it becomes a piece with that field.
fn push_field<'a>(
    scope: Scope<'_>,
    one: &'a Struct,
    at: usize,
    field: &'a Field,
    pieces: &mut Vec<Piece<'a>>,
) -> Result<(), AllocError> {
    match length_before(one, at) {
        Some(length) => {
            pieces.pop();
            pieces.push(Piece::Counted(length, field))?;
        }
        None if counts_select(scope, one, at) => pieces.push(Piece::Length(field))?,
        None => pieces.push(Piece::Field(field))?,
    }
    Ok(())
}

// A select that always has one case is the fields of that case.
fn push_select<'a>(
    scope: Scope<'_>,
    one: &'a Struct,
    select: &'a Select,
    pieces: &mut Vec<Piece<'a>>,
) -> Result<(), AllocError> {
    let Some(case) = settled_case(scope, one, select) else {
        pieces.push(Piece::Select(select))?;
        return Ok(());
    };
    for field in &case.fields {
        pieces.push(Piece::Field(field))?;
    }
    Ok(())
}
