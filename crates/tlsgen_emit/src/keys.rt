//! The keys of messages that hold tags. They validate what the tags decide.

use crate::holds::Held;
use crate::joining::Join;
use crate::nested_fields::NestedFields;
use crate::owners::Owner;
use crate::template::Holes;
use crate::templates::keys::{CLAUSE, ENUM_USE, HOLDS_KEY, IN_ENUM, IN_STRUCT, KEYED, MADE};
use crate::types::Names;
use crate::uses::Uses;
use crate::{contexts, tags, thens};
use std::alloc::{AllocError, Global};
use tlsgen_model::plan::{Body, Holder, Member, Message};

/// Adds the key of a message to what it holds: of a struct without parts that it decides itself, or of an enum.
pub fn push<'a>(
    alloc: Global,
    names: &Names<'a>,
    message: &'a Message,
    holders: &[&'a Holder],
    uses: &mut Uses<'a>,
    held: &mut Held,
) -> Result<(), AllocError> {
    if message.is_borrowed || message.context.is_some() {
        return Ok(());
    }
    let mut holes = holes_of(alloc, names, message, holders)?;
    match &message.body {
        Body::Fields(members) if thens::giver_of(members).is_none() => {
            set_struct(alloc, names, &mut holes, members, holders, uses)?;
            push_key(alloc, names, message, holders, &holes, held)?;
            holes.push(alloc, &mut held.code, IN_STRUCT)
        }
        Body::Choice { width, .. } | Body::Sum { width, .. } => {
            tags::set_width_of(alloc, &mut holes, *width)?;
            push_key(alloc, names, message, holders, &holes, held)?;
            holes.push(alloc, &mut held.uses, ENUM_USE)?;
            push_enum(alloc, names, message, holders, &holes, held)
        }
        _ => Ok(()),
    }
}

// The holes `crate`, `name`, `module`, `key_type`, `clauses` and `made`.
fn holes_of(
    alloc: Global,
    names: &Names<'_>,
    message: &Message,
    holders: &[&Holder],
) -> Result<Holes, AllocError> {
    let mut holes = Holes::new(alloc);
    let texts = [
        ("crate", names.own),
        ("name", message.name.as_str()),
        ("module", message.module.as_str()),
    ];
    holes.set_all(alloc, &texts)?;
    let mut types = Vec::new(alloc);
    let mut clauses = Vec::new(alloc);
    let mut made = Vec::new(alloc);
    for (at, holder) in holders.iter().enumerate() {
        let own = holes_of_tag(alloc, names, message, holders.len(), at, holder)?;
        types.push(String::from_str(alloc, "u64")?)?;
        clauses.push(own.filled(alloc, CLAUSE)?)?;
        made.push(own.filled(alloc, MADE)?)?;
    }
    holes.set(
        "key_type",
        Join::Tuple.joined(alloc, types.as_slice(), " ")?,
    )?;
    holes.set("clauses", clauses.as_slice().join(alloc, " × ")?)?;
    holes.set("made", Join::Tuple.joined(alloc, made.as_slice(), " ")?)?;
    Ok(holes)
}

// The holes `name`, `key`, `held`, `key_of` and `key_path` of tag `at` of `count` tags.
fn holes_of_tag(
    alloc: Global,
    names: &Names<'_>,
    message: &Message,
    count: usize,
    at: usize,
    holder: &Holder,
) -> Result<Holes, AllocError> {
    let name = message.name.as_str();
    let key = holder.tag.as_str();
    let mut holes = Holes::new(alloc);
    holes.set_all(alloc, &[("name", name), ("key", key)])?;
    holes.set("held", contexts::held(alloc, names, name, key)?)?;
    holes.set("key_of", nth(alloc, "key", count, at)?)?;
    let path = if count > 1 {
        format!(in alloc; "key.{at}")?
    } else {
        String::from_str(alloc, "*key")?
    };
    holes.set("key_path", path)?;
    Ok(holes)
}

// Number `at` of `count` numbers.
fn nth(alloc: Global, key: &str, count: usize, at: usize) -> Result<String, AllocError> {
    if count > 1 {
        format!(in alloc; "{key}.{at}")
    } else {
        String::from_str(alloc, key)
    }
}

// Adds the key, and that of each tag.
fn push_key(
    alloc: Global,
    names: &Names<'_>,
    message: &Message,
    holders: &[&Holder],
    holes: &Holes,
    held: &mut Held,
) -> Result<(), AllocError> {
    holes.push(alloc, &mut held.code, KEYED)?;
    for (at, holder) in holders.iter().enumerate() {
        let mut own = holes_of_tag(alloc, names, message, holders.len(), at, holder)?;
        own.set_as(holes)?;
        own.push(alloc, &mut held.code, HOLDS_KEY)?;
    }
    Ok(())
}

// Adds how the tag of an enum is found.
fn push_enum(
    alloc: Global,
    names: &Names<'_>,
    message: &Message,
    holders: &[&Holder],
    holes: &Holes,
    held: &mut Held,
) -> Result<(), AllocError> {
    let Some(holder) = holders.first() else {
        return Ok(());
    };
    let mut own = holes_of_tag(alloc, names, message, 1, 0, holder)?;
    own.set_as(holes)?;
    own.push(alloc, &mut held.code, IN_ENUM)
}

// Sets the holes `keyed_parts`, `keyed_pattern` and `found` of a struct.
fn set_struct<'a>(
    alloc: Global,
    names: &Names<'a>,
    holes: &mut Holes,
    members: &'a [Member],
    holders: &[&'a Holder],
    uses: &mut Uses<'a>,
) -> Result<(), AllocError> {
    let mut fields = NestedFields::of(alloc, names, Owner::Struct, false, members, uses)?;
    fields.set_keys(alloc, holders)?;
    let texts = [
        ("keyed_parts", "$keyed_part$"),
        ("keyed_pattern", "$keyed_name$"),
    ];
    for (word, template) in texts {
        holes.set(word, fields.nested(alloc, template, Join::Tuple, " ")?)?;
    }
    let mut found = Vec::new(alloc);
    for holder in holders {
        found.push(found_in(alloc, names, members, holder)?)?;
    }
    holes.set("found", Join::Tuple.joined(alloc, found.as_slice(), " ")?)
}

// The number of a tag, by the key of the field that has it.
fn found_in<'a>(
    alloc: Global,
    names: &Names<'a>,
    members: &'a [Member],
    holder: &'a Holder,
) -> Result<String, AllocError> {
    let Some(name) = &holder.member else {
        return Ok(String::new(alloc));
    };
    let Some((_, member)) = thens::field_of(members, name.as_str()) else {
        return name.clone();
    };
    let message = thens::message_of(names, member).unwrap_or("");
    let Some(others) = names.holders(message) else {
        return name.clone();
    };
    let mut found = 0;
    for (at, other) in others.iter().enumerate() {
        if other.tag == holder.tag {
            found = at;
        }
    }
    nth(alloc, name.as_str(), others.len(), found)
}
