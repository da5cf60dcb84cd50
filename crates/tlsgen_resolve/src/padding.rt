//! Padding up to the end of the input, without a length, such as `opaque padding[length_of_padding];` of RFC 9420, section 6.3.1.
//! The struct that is made lacks it. A type around that struct reads and writes both.
use crate::naming::type_name;
use crate::reject::rejected;
use crate::sequence::Sequence;
use crate::types::declared;
use std::alloc::{AllocError, Global};
use tlsgen_syntax::rejection::Trouble;
use tlsgen_syntax::syntax::Field;

/// The last field of a struct, which goes to the end.
#[derive(Clone, Copy)]
pub enum Padding<'a> {
    /// Zeros, after which comes nothing.
    Zeros(&'a Field),
    /// Any bytes.
    Bytes(&'a Field),
    /// Zeros after the type of the bytes before it.
    AfterType(&'a Field),
}

impl Padding<'_> {
    /// What should be in place of a field of such a struct.
    pub fn instead(&self) -> &'static str {
        match self {
            Padding::Zeros(_) =>
                "no struct that zeros follow up to the end: it is read of all that there is, as `Padded`",
            Padding::Bytes(_) =>
                "no struct that bytes follow up to the end: it is read of all that there is, as `Followed`",
            Padding::AfterType(_) =>
                "no struct whose type is its last byte that isn't zero: it is read of all that there is",
        }
    }
}

/// Rejects bytes to the end of a struct that is in a context: no type has them.
pub fn check_padding(alloc: Global, sequence: &Sequence<'_>) -> Result<(), Trouble> {
    match sequence.padding {
        Some(Padding::Bytes(field)) if sequence.context.is_some() => Err(rejected(
            alloc,
            field.name.place,
            field.name.text.as_str(),
            "no bytes to the end of a struct whose selects have their tags elsewhere",
        )),
        _ => Ok(()),
    }
}

/// Adds to the doc comment of a struct's message what follows the message, if anything does.
pub fn push_padding(
    alloc: Global,
    doc: &mut String,
    sequence: &Sequence<'_>,
) -> Result<(), AllocError> {
    let (what, field, of) = match sequence.padding {
        Some(Padding::Zeros(field)) => ("Zeros", field, "Padded"),
        Some(Padding::Bytes(field)) => ("Bytes", field, "Followed"),
        Some(Padding::AfterType(_)) | None => return Ok(()),
    };
    let name = type_name(alloc, sequence.name)?;
    let line = declared(alloc, field)?;
    write!(
        doc,
        "\n\n{what} follow it to the end, `{line}`: it is read and written as `{of}<{name}>`."
    )
}
