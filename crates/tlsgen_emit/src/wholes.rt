//! A borrowed struct that has fields of another, by whose name it is called.

use crate::template::Holes;
use crate::templates::wholes::{CLAUSE, FIELD, FROM, NEXT_CLAUSE};
use crate::thens::field_of;
use crate::types::Names;
use crate::uses::Uses;
use std::alloc::{AllocError, Global};
use tlsgen_model::plan::{Body, Member, Message};

/// Sets the hole `from_whole`: the `From` of a struct whose name is that of another struct with
/// `TBS` appended, and whose fields are all fields of that other struct.
pub fn set<'a>(
    alloc: Global,
    names: &Names<'a>,
    holes: &mut Holes,
    uses: &mut Uses<'a>,
    message: &'a Message,
    members: &'a [Member],
) -> Result<(), AllocError> {
    let Some(whole) = whole_of(alloc, names, message, members)? else {
        return holes.set_all(alloc, &[("from_whole", "")]);
    };
    uses.add_type(Some(whole))?;
    holes.set_all(alloc, &[("whole", whole)])?;
    holes.set("said", each(alloc, members, CLAUSE, NEXT_CLAUSE)?)?;
    holes.set("lends", each(alloc, members, FIELD, FIELD)?)?;
    holes.set_each(alloc, &[("from_whole", FROM)])
}

// The struct that has all fields of a borrowed one, by whose name that one is called.
fn whole_of<'a>(
    alloc: Global,
    names: &Names<'a>,
    message: &'a Message,
    members: &'a [Member],
) -> Result<Option<&'a str>, AllocError> {
    let Some(name) = message.name.as_str().strip_suffix("TBS") else {
        return Ok(None);
    };
    let Some(whole) = names.own(name) else {
        return Ok(None);
    };
    let Body::Fields(fields) = &whole.body else {
        return Ok(None);
    };
    if !message.is_borrowed || whole.is_borrowed {
        return Ok(None);
    }
    for member in members {
        if !has(alloc, names, fields, member)? {
            return Ok(None);
        }
    }
    Ok(Some(whole.name.as_str()))
}

// Whether one of the fields has the name and the type of this one. Types are distinguished by their
// format.
fn has<'a>(
    alloc: Global,
    names: &Names<'a>,
    fields: &'a [Member],
    member: &'a Member,
) -> Result<bool, AllocError> {
    let Some((_, field)) = field_of(fields, member.name.as_str()) else {
        return Ok(false);
    };
    if field.present_for.is_some() || member.present_for.is_some() {
        return Ok(false);
    }
    let own = names.words(alloc, &member.of)?;
    let other = names.words(alloc, &field.of)?;
    Ok(own.texts.filled(alloc, "$format$")? == other.texts.filled(alloc, "$format$")?)
}

// A text for each field: one for the first, and another for the next.
fn each(alloc: Global, members: &[Member], first: &str, next: &str) -> Result<String, AllocError> {
    let mut out = String::new(alloc);
    let mut template = first;
    for member in members {
        let mut holes = Holes::new(alloc);
        holes.set_all(alloc, &[("field", member.name.as_str())])?;
        holes.push(alloc, &mut out, template)?;
        template = next;
    }
    Ok(out)
}
