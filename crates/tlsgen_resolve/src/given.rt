//! The names of selects: each is after its select in the text, or a note gives it.
use crate::naming::is_of_field;
use crate::notes::name_of_select;
use crate::reject::rejected;
use crate::scope::Scope;
use std::alloc::Global;
use tlsgen_syntax::rejection::Trouble;
use tlsgen_syntax::syntax::{Name, Select};

/// What a select is called: with a capital the type that it becomes, with a small letter the field.
#[derive(Clone, Copy)]
pub struct Given<'a> {
    pub of_type: Option<&'a Name>,
    pub of_field: Option<&'a Name>,
}

/// The names of a select of a struct: the one after it, or else those that notes give it.
pub fn given_to<'a>(scope: Scope<'a>, of: &str, select: &'a Select) -> Given<'a> {
    match &select.name {
        Some(name) if is_of_field(name) => Given {
            of_type: None,
            of_field: Some(name),
        },
        Some(name) => Given {
            of_type: Some(name),
            of_field: None,
        },
        None => Given {
            of_type: name_of_select(scope, of, select, false),
            of_field: name_of_select(scope, of, select, true),
        },
    }
}

/// The names of two selects on one tag. Rejects two that differ.
pub fn joined<'a>(alloc: Global, one: Given<'a>, other: Given<'a>) -> Result<Given<'a>, Trouble> {
    Ok(Given {
        of_type: one_name(alloc, one.of_type, other.of_type)?,
        of_field: one_name(alloc, one.of_field, other.of_field)?,
    })
}

// The name that is given, or the next one. Rejects two that differ.
fn one_name<'a>(
    alloc: Global,
    given: Option<&'a Name>,
    next: Option<&'a Name>,
) -> Result<Option<&'a Name>, Trouble> {
    let Some(name) = next else {
        return Ok(given);
    };
    match given {
        Some(other) if other.text != name.text => Err(rejected(
            alloc,
            name.place,
            name.text.as_str(),
            "one name for the selects on a tag",
        )),
        _ => Ok(Some(name)),
    }
}
