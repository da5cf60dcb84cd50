//! The fields of a struct. Some of them depend on tags that an earlier field is or holds.

use crate::joining::{FORMATS, Join, LAWS, TREES};
use crate::nested_fields::NestedFields;
use crate::owners::Owner;
use crate::template::Holes;
use crate::templates::structs_on_tags::{
    AFTER, BEFORE, BORROWED, FIRST, FieldHoles, GIVER, LATER, OWNED,
};
use crate::types::{Names, parenthesized};
use crate::uses::Uses;
use std::alloc::{AllocError, Global};
use tlsgen_model::plan::{Before, Decided, Element, Member};

/// The field that decides others.
#[derive(Clone, Copy)]
pub struct Giver<'a> {
    /// Where it is.
    pub at: usize,
    member: &'a Member,
    /// The enum of the first tag on which others are.
    tag: &'a str,
}

/// The field that decides others, if one does.
pub fn giver_of(members: &[Member]) -> Option<Giver<'_>> {
    let before = before(members)?;
    let (at, member) = field_of(members, before.member.as_str())?;
    let tag = before.tag.as_str();
    Some(Giver { at, member, tag })
}

// What decides the first of the fields that one before it decides.
fn before(members: &[Member]) -> Option<&Before> {
    for member in members {
        if let Decided::Before(before) = &member.decided {
            return Some(before);
        }
    }
    None
}

/// Where the field with this name is, and the field.
pub fn field_of<'a>(members: &'a [Member], name: &str) -> Option<(usize, &'a Member)> {
    for (at, member) in members.iter().enumerate() {
        if member.name.as_str() == name {
            return Some((at, member));
        }
    }
    None
}

/// The message that a field is.
pub fn message_of<'a>(names: &Names<'a>, member: &'a Member) -> Option<&'a str> {
    match &member.of.element {
        Element::Message(name) => Some(name.as_str()),
        Element::Alias(name) => names.cited(name.as_str()),
        _ => None,
    }
}

/// Sets the holes of the fields.
pub fn set<'a>(
    alloc: Global,
    names: &Names<'a>,
    holes: &mut Holes,
    uses: &mut Uses<'a>,
    is_borrowed: bool,
    members: &'a [Member],
) -> Result<(), AllocError> {
    let Some(giver) = giver_of(members) else {
        return Ok(());
    };
    let owner = set_giver(alloc, names, holes, uses, giver)?;
    let all = NestedFields::of(alloc, names, Owner::Struct, is_borrowed, members, uses)?;
    all.set(alloc, holes)?;
    let (before, others) = members.split_at_checked(giver.at).unwrap_or((&[], members));
    let (given, behind) = others.split_at_checked(1).unwrap_or((&[], others));
    let given = NestedFields::of(alloc, names, Owner::Struct, is_borrowed, given, uses)?;
    given.set_giver(alloc, holes)?;
    set_part(alloc, holes, &given, &GIVER)?;
    let behind = NestedFields::of(alloc, names, owner, is_borrowed, behind, uses)?;
    set_part(alloc, holes, &behind, &AFTER)?;
    if before.is_empty() {
        holes.set_each(alloc, &FIRST)?;
    } else {
        let before = NestedFields::of(alloc, names, Owner::Struct, is_borrowed, before, uses)?;
        set_part(alloc, holes, &before, &BEFORE)?;
        holes.set_each(alloc, &LATER)?;
    }
    let parts = if is_borrowed { &BORROWED } else { &OWNED };
    holes.set_each(alloc, parts)
}

// Sets the hole `giver`, and returns the owner of the fields after it. A giver that is the tag
// itself is their context.
fn set_giver<'a>(
    alloc: Global,
    names: &Names<'a>,
    holes: &mut Holes,
    uses: &mut Uses<'a>,
    giver: Giver<'a>,
) -> Result<Owner, AllocError> {
    holes.set_all(alloc, &[("giver", giver.member.name.as_str())])?;
    match message_of(names, giver.member) {
        Some(message) if message != giver.tag => {
            uses.giver = Some(message);
            Ok(Owner::AfterTags)
        }
        _ => Ok(Owner::StructInContext),
    }
}

// Sets the holes of some of the fields.
fn set_part(
    alloc: Global,
    holes: &mut Holes,
    fields: &NestedFields,
    words: &FieldHoles,
) -> Result<(), AllocError> {
    let tuples = [
        (words.types, "$part$"),
        (words.borrowed_types, "$borrowed_part$"),
        (words.borrowed, "$lend$"),
    ];
    for (word, template) in tuples {
        holes.set(word, fields.nested(alloc, template, Join::Tuple, " ")?)?;
    }
    let definitions = [
        (words.plain, "", "$tree_of$", &TREES),
        (words.format, words.binds, "$format$", &FORMATS),
        (words.law, words.binds, "$law$", &LAWS),
    ];
    for (word, binds, template, rows) in definitions {
        let text = fields.defined(alloc, template, rows, " ")?;
        holes.set(
            word,
            parenthesized(alloc, format!(in alloc; "{binds}{text}")?)?,
        )?;
    }
    holes.set(words.lets, fields.let_statements(alloc, words.tuple)?)
}
