//! What a file has of other crates, and which enums are written.
use crate::members::copy_type;
use crate::naming::type_name;
use crate::output::Output;
use crate::reject::rejected;
use std::alloc::{AllocError, Global};
use std::collections::BTreeSet;
use tlsgen_model::plan::{Body, Element, Member, Other};
use tlsgen_syntax::rejection::Trouble;
use tlsgen_syntax::syntax::{Field, File, Item, Name, Part};

/// The enums of the crate that is resolved which are the types of tags, and of no members: those aren't written.
pub fn tags_alone(alloc: Global, out: &Output) -> Result<Vec<String>, AllocError> {
    let mut named = named_in_messages(alloc, out)?;
    for alias in out.aliases.iter().filter(|alias| alias.home == out.home) {
        add(&mut named, &alias.of.element)?;
    }
    for holder in out.holders() {
        named.insert(holder.tag.clone()?)?;
    }
    let mut alone = Vec::new(alloc);
    for tag in &out.tags {
        if out.home_of(tag) == Some(out.home) && !named.contains(tag) {
            alone.push(tag.clone()?)?;
        }
    }
    Ok(alone)
}

// The types of the members and contexts that the crate that is resolved has.
fn named_in_messages(alloc: Global, out: &Output) -> Result<BTreeSet<String>, AllocError> {
    let mut named = BTreeSet::new(alloc);
    for message in out.messages() {
        add_body(&mut named, &message.body)?;
        if let Some(context) = &message.context {
            add(&mut named, &context.of)?;
        }
    }
    Ok(named)
}

fn add_body(named: &mut BTreeSet<String>, body: &Body) -> Result<(), AllocError> {
    match body {
        Body::Values { .. } => Ok(()),
        Body::Fields(fields) => add_fields(named, fields),
        Body::Choice { variants, .. } | Body::Sum { variants, .. } => {
            for variant in variants {
                add_fields(named, &variant.fields)?;
            }
            Ok(())
        }
    }
}

fn add_fields(named: &mut BTreeSet<String>, fields: &[Member]) -> Result<(), AllocError> {
    for member in fields {
        add(named, &member.of.element)?;
    }
    Ok(())
}

fn add(named: &mut BTreeSet<String>, element: &Element) -> Result<(), AllocError> {
    if let Element::Message(name) = element {
        if !named.contains(name) {
            named.insert(name.clone()?)?;
        }
    }
    Ok(())
}

/// Rejects a member whose type is an enum of another crate that isn't written there, or whose name this text or a third crate
/// has too.
pub fn check_alone(alloc: Global, file: &File, out: &Output) -> Result<(), Trouble> {
    let named = named_in_messages(alloc, out)?;
    for name in out.unwritten() {
        if out.home_of(name) != Some(out.home) && named.contains(name) {
            return Err(rejected_alone(alloc, file, name));
        }
    }
    match out.hidden().iter().find(|name| named.contains(*name)) {
        Some(name) => Err(rejected_shared(alloc, file, name)),
        None => Ok(()),
    }
}

fn rejected_alone(alloc: Global, file: &File, name: &String) -> Trouble {
    match naming(alloc, file, name) {
        Ok(Some(of)) => rejected(
            alloc,
            of.place,
            of.text.as_str(),
            "a type that is the field of a struct in its own crate too: there it is a tag alone, and isn't written",
        ),
        Ok(None) => Trouble::Inconsistent,
        Err(error) => Trouble::from(error),
    }
}

// The error for a tag whose type has a name that this file or a third crate has too.
fn rejected_shared(alloc: Global, file: &File, name: &String) -> Trouble {
    match file.items.first() {
        Some(item) => rejected(
            alloc,
            item.name().place,
            name.as_str(),
            "no tag of another crate whose type has a name that this text, or a third crate, has too",
        ),
        None => Trouble::Inconsistent,
    }
}

// Where a file names a type.
fn naming<'a>(
    alloc: Global,
    file: &'a File,
    name: &String,
) -> Result<Option<&'a Name>, AllocError> {
    for item in &file.items {
        for field in &fields_of(alloc, item)? {
            if type_name(alloc, field.of.text.as_str())? == *name {
                return Ok(Some(&field.of));
            }
        }
    }
    Ok(None)
}

// The fields of an item, also those of its cases.
fn fields_of<'a>(alloc: Global, item: &'a Item) -> Result<Vec<&'a Field>, AllocError> {
    let mut fields = Vec::new(alloc);
    match item {
        Item::Enum(_) => {}
        Item::Alias(field) => fields.push(field)?,
        Item::Struct(one) => {
            for part in &one.parts {
                push_part(part, &mut fields)?;
            }
        }
    }
    Ok(fields)
}

fn push_part<'a>(part: &'a Part, fields: &mut Vec<&'a Field>) -> Result<(), AllocError> {
    match part {
        Part::Field(field) => fields.push(field)?,
        Part::Select(select) => {
            for field in select.cases.iter().flat_map(|case| case.fields.iter()) {
                fields.push(field)?;
            }
        }
    }
    Ok(())
}

/// What the crates before the one that was resolved last have, except enums that aren't written
/// there, names that this one also has, and names that two of those crates have.
pub fn others_of(alloc: Global, out: &Output) -> Result<Vec<Other>, AllocError> {
    let left_out = left_out_of(alloc, out)?;
    let mut others = Vec::new(alloc);
    push_aliases(alloc, out, &left_out, &mut others)?;
    push_messages(out, &left_out, &mut others)?;
    Ok(others)
}

// The names of other crates' types that aren't named here.
fn left_out_of(alloc: Global, out: &Output) -> Result<BTreeSet<String>, AllocError> {
    let mut left_out = BTreeSet::new(alloc);
    for name in out.unwritten().iter().chain(out.hidden().iter()) {
        left_out.insert(name.clone()?)?;
    }
    for message in out.messages() {
        left_out.insert(message.name.clone()?)?;
    }
    let mut seen = BTreeSet::new(alloc);
    for message in out.before() {
        leave_second(&mut seen, &mut left_out, &message.name)?;
    }
    for alias in &out.aliases {
        if alias.home == out.home {
            left_out.insert(alias.name.clone()?)?;
        } else {
            leave_second(&mut seen, &mut left_out, &alias.name)?;
        }
    }
    Ok(left_out)
}

// Leaves out a name that comes for the second time.
fn leave_second(
    seen: &mut BTreeSet<String>,
    left_out: &mut BTreeSet<String>,
    name: &String,
) -> Result<(), AllocError> {
    if seen.contains(name) {
        left_out.insert(name.clone()?)?;
    } else {
        seen.insert(name.clone()?)?;
    }
    Ok(())
}

fn push_aliases(
    alloc: Global,
    out: &Output,
    left_out: &BTreeSet<String>,
    others: &mut Vec<Other>,
) -> Result<(), AllocError> {
    for alias in &out.aliases {
        if alias.home != out.home && !left_out.contains(&alias.name) {
            others.push(Other {
                name: alias.name.clone()?,
                module: String::from_str(alloc, "names")?,
                home: alias.home,
                is_borrowed: false,
                of: Some(copy_type(&alias.of)?),
            })?;
        }
    }
    Ok(())
}

fn push_messages(
    out: &Output,
    left_out: &BTreeSet<String>,
    others: &mut Vec<Other>,
) -> Result<(), AllocError> {
    for message in out.before() {
        if !left_out.contains(&message.name) {
            others.push(Other {
                name: message.name.clone()?,
                module: message.module.clone()?,
                home: message.home,
                is_borrowed: message.is_borrowed,
                of: None,
            })?;
        }
    }
    Ok(())
}
