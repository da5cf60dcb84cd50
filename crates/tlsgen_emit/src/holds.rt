//! What a message holds: tags that decide selects of other messages.

use crate::nesting::Nesting;
use crate::owners::Owner;
use crate::tags::TagKind;
use crate::template::Holes;
use crate::templates::holds as templates;
use crate::types::{Names, parenthesized};
use crate::uses::Uses;
use crate::{contexts, keys, tags, thens};
use std::alloc::{AllocError, Global};
use tlsgen_model::plan::{Body, CaseTag, Holder, Member, Message};

/// The texts of a message for what it holds.
#[derive(Drop)]
pub struct Held {
    /// What the module takes of the definitions.
    pub uses: String,
    pub code: String,
    pub specs: String,
}

impl Held {
    /// Those of one that holds nothing.
    pub fn none(alloc: Global) -> Held {
        Held {
            uses: String::new(alloc),
            code: String::new(alloc),
            specs: String::new(alloc),
        }
    }

    /// Those of a message.
    pub fn of<'a>(
        alloc: Global,
        names: &Names<'a>,
        message: &'a Message,
        uses: &mut Uses<'a>,
    ) -> Result<Held, AllocError> {
        let mut held = Held::none(alloc);
        let Some(holders) = names.holders(message.name.as_str()) else {
            return Ok(held);
        };
        for holder in holders {
            let holes = holes_of(alloc, names, message, uses, holder)?;
            held.push(alloc, &holes)?;
        }
        keys::push(alloc, names, message, holders.as_slice(), uses, &mut held)?;
        Ok(held)
    }

    // Adds the texts of a tag.
    fn push(&mut self, alloc: Global, holes: &Holes) -> Result<(), AllocError> {
        holes.push(alloc, &mut self.uses, templates::USE)?;
        holes.push(alloc, &mut self.code, templates::CODE)?;
        holes.push(alloc, &mut self.specs, "$definition$")
    }
}

// The holes of a tag in a message.
fn holes_of<'a>(
    alloc: Global,
    names: &Names<'a>,
    message: &'a Message,
    uses: &mut Uses<'a>,
    holder: &'a Holder,
) -> Result<Holes, AllocError> {
    let key = holder.tag.as_str();
    uses.add_type(names.module(key).and(Some(key)))?;
    let mut holes = Holes::new(alloc);
    let (any, deref) = if message.is_borrowed {
        ("<'_>", "*")
    } else {
        ("", "")
    };
    let texts = [
        ("crate", names.own),
        ("name", message.name.as_str()),
        ("key", key),
        ("any", any),
        ("deref", deref),
    ];
    holes.set_all(alloc, &texts)?;
    let held = contexts::held(alloc, names, message.name.as_str(), key)?;
    holes.set("held", held)?;
    match &message.body {
        Body::Fields(members) => set_field(alloc, names, &mut holes, uses, members, holder)?,
        Body::Choice { .. } | Body::Sum { .. } => {
            if let Some(tag) = &message.tag {
                set_cases(alloc, names, &mut holes, tag, key)?;
            }
        }
        Body::Values { .. } => {}
    }
    Ok(holes)
}

// Sets the holes of a tag that a field is or holds.
fn set_field<'a>(
    alloc: Global,
    names: &Names<'a>,
    holes: &mut Holes,
    uses: &mut Uses<'a>,
    members: &'a [Member],
    holder: &'a Holder,
) -> Result<(), AllocError> {
    let Some(name) = &holder.member else {
        return Ok(());
    };
    let Some((at, member)) = thens::field_of(members, name.as_str()) else {
        return Ok(());
    };
    let key = holder.tag.as_str();
    holes.set_all(alloc, &[("member", name.as_str())])?;
    let path = path_of(alloc, members, at)?;
    let message = thens::message_of(names, member).unwrap_or(key);
    if message == key {
        holes.set("path", path)?;
        return holes.set_each(alloc, &templates::IS_TAG);
    }
    uses.add_held(message, key)?;
    let held = contexts::held(alloc, names, message, key)?;
    holes.set("path", applied(alloc, held.as_str(), path)?)?;
    holes.set_each(alloc, &templates::HOLDS_TAG)
}

// Sets the holes of a tag in front of a message's cases. The message's method returns that tag.
fn set_cases(
    alloc: Global,
    names: &Names<'_>,
    holes: &mut Holes,
    tag: &CaseTag,
    key: &str,
) -> Result<(), AllocError> {
    holes.set_all(alloc, &[("tag", tag.name.as_str())])?;
    holes.set_each(
        alloc,
        match tags::kind_by_name(names, key) {
            TagKind::Closed(_) => &templates::IS_CLOSED,
            TagKind::Open | TagKind::Number => &templates::IS_OPEN,
        },
    )
}

// The part of a tree for a field of a struct.
fn path_of(alloc: Global, members: &[Member], at: usize) -> Result<String, AllocError> {
    let whole = String::from_str(alloc, "c")?;
    let Some(giver) = thens::giver_of(members) else {
        return path_in(alloc, members.len(), at, whole);
    };
    if at < giver.at {
        let before = applied(alloc, "first_of", whole)?;
        return path_in(alloc, giver.at, at, before);
    }
    let then = if giver.at > 0 {
        applied(alloc, "second_of", whole)?
    } else {
        whole
    };
    if at == giver.at {
        return applied(alloc, "first_of", then);
    }
    let before = giver.at.saturating_add(1);
    let behind = members.len().saturating_sub(before);
    let rest = applied(alloc, "rest_of", then)?;
    path_in(alloc, behind, at.saturating_sub(before), rest)
}

static NTH: [&str; 3] = ["first_of", "second_of", "third_of"];

// The part of a tree for field `at` of `fields` fields in a row.
fn path_in(alloc: Global, fields: usize, at: usize, tree: String) -> Result<String, AllocError> {
    let nesting = Nesting::of(alloc, fields, Owner::Struct.most())?;
    let mut path = tree;
    for (which, count) in &nesting.places(at) {
        if *count > 1 {
            let nth = NTH.get(*which).copied().unwrap_or("first_of");
            path = applied(alloc, nth, path)?;
        }
    }
    Ok(path)
}

// A definition of one argument, applied.
fn applied(alloc: Global, name: &str, to: String) -> Result<String, AllocError> {
    let to = parenthesized(alloc, to)?;
    format!(in alloc; "{name} {to}")
}
