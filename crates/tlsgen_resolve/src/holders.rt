//! Tags in an earlier field, which is of the tag's enum or of a struct that holds one: `content` for the
//! `select (PublicMessage.content.sender.sender_type)` of RFC 9420, section 6.2.
use crate::contexts::{OuterTag, outer_tag};
use crate::items::is_single;
use crate::known::Known;
use crate::reject::rejected;
use crate::scope::Scope;
use crate::sequence::{IndexedField, Piece, Sequence, find_field, is_here};
use std::alloc::{AllocError, Global};
use std::collections::BTreeSet;
use tlsgen_syntax::rejection::Trouble;
use tlsgen_syntax::syntax::{Field, Name, Select};

/// Where the tag of a select is.
#[derive(Clone, Copy)]
pub enum Site<'a> {
    /// A field of the struct, above the select.
    Here,
    /// In a field before the select, which stays one.
    Before(IndexedField<'a>),
    /// In another struct, or said by the protocol alone.
    Elsewhere,
}

/// Where the tag of a select at a position is.
pub fn site_of<'a>(
    alloc: Global,
    scope: Scope<'a>,
    all: &mut Known<'a>,
    sequence: &Sequence<'a>,
    at: usize,
) -> Result<Site<'a>, Trouble> {
    let Some(Piece::Select(select)) = sequence.pieces.get(at) else {
        return Ok(Site::Here);
    };
    if is_here(sequence, select) {
        return site_on_path(alloc, sequence, select, at);
    }
    let tag = outer_tag(alloc, scope, select)?;
    match giver_of(alloc, all, sequence, at, &tag)? {
        Some(giver) => Ok(Site::Before(giver)),
        None => Ok(Site::Elsewhere),
    }
}

// The site of a tag whose path begins here: a field that it goes through, if it does.
fn site_on_path<'a>(
    alloc: Global,
    sequence: &Sequence<'a>,
    select: &Select,
    at: usize,
) -> Result<Site<'a>, Trouble> {
    let Some(word) = first_within(select) else {
        return Ok(Site::Here);
    };
    match find_field(sequence, word.text.as_str()) {
        Some(giver) if giver.index < at && is_giver(giver.field) => Ok(Site::Before(giver)),
        Some(_) => Err(rejected(
            alloc,
            word.place,
            word.text.as_str(),
            "a field above the select, one struct that has the tag",
        )),
        None => Ok(Site::Here),
    }
}

// The word of a path after the struct's name, if it isn't the tag.
fn first_within(select: &Select) -> Option<&Name> {
    let (_, words) = select.path.split_last()?;
    words.get(1)
}

fn is_giver(field: &Field) -> bool {
    is_single(field) && field.constant.is_none()
}

/// The field before a position that is the tag or holds it. Rejects two.
pub fn giver_of<'a>(
    alloc: Global,
    all: &mut Known<'a>,
    sequence: &Sequence<'a>,
    at: usize,
    tag: &OuterTag<'a>,
) -> Result<Option<IndexedField<'a>>, Trouble> {
    let (before, _) = sequence.pieces.split_at(at.min(sequence.pieces.len()));
    let label = tag.label(alloc)?;
    find_holders(alloc, all, before, tag, &label)?;
    let mut giver = None;
    for (index, piece) in before.iter().enumerate() {
        if let Piece::Field(field) = piece {
            if holds(all, sequence.name, field, tag, &label) {
                if giver.is_some() {
                    return Err(rejected(
                        alloc,
                        field.name.place,
                        field.name.text.as_str(),
                        "one field alone that has the tag of what follows",
                    ));
                }
                giver = Some(IndexedField { index, field });
            }
        }
    }
    Ok(giver)
}

/// Finds which of the structs that pieces contain hold a tag. It visits each struct once, after
/// those that the struct contains.
pub fn find_holders<'a>(
    alloc: Global,
    all: &mut Known<'a>,
    pieces: &[Piece<'a>],
    tag: &OuterTag<'a>,
    label: &String,
) -> Result<(), AllocError> {
    for at in unchecked(alloc, all, pieces, label)?.iter() {
        let found = all
            .get(*at)
            .and_then(|one| only_holding(all, one, tag, label));
        all.keep_holding(alloc, label, *at, found)?;
    }
    Ok(())
}

// The positions of the structs that pieces contain, except those already checked for this tag.
fn unchecked(
    alloc: Global,
    all: &Known<'_>,
    pieces: &[Piece<'_>],
    label: &String,
) -> Result<BTreeSet<usize>, AllocError> {
    let mut found = BTreeSet::new(alloc);
    let mut left = Vec::new(alloc);
    push_contained(all, pieces, label, &mut found, &mut left)?;
    for _ in 0..all.len() {
        let Some(one) = left.pop().and_then(|at| all.get(at)) else {
            break;
        };
        push_contained(all, &one.pieces, label, &mut found, &mut left)?;
    }
    Ok(found)
}

// Adds the unchecked structs that pieces contain directly to `found`. The new ones go to `left` too.
fn push_contained(
    all: &Known<'_>,
    pieces: &[Piece<'_>],
    label: &String,
    found: &mut BTreeSet<usize>,
    left: &mut Vec<usize>,
) -> Result<(), AllocError> {
    for piece in pieces {
        if let Piece::Field(field) = piece {
            if let Some(at) = all.position(field.of.text.as_str()) {
                if is_giver(field) && !all.is_checked(label, at) && found.insert(at)? {
                    left.push(at)?;
                }
            }
        }
    }
    Ok(())
}

// The position of the one field of a struct that is a tag or holds it. What is in a context holds none.
fn only_holding<'a>(
    all: &Known<'a>,
    one: &Sequence<'a>,
    tag: &OuterTag<'a>,
    label: &String,
) -> Option<usize> {
    if one.context.is_some() {
        return None;
    }
    let mut only = None;
    for (at, piece) in one.pieces.iter().enumerate() {
        if let Piece::Field(field) = piece {
            if holds(all, one.name, field, tag, label) {
                if only.is_some() {
                    return None;
                }
                only = Some(at);
            }
        }
    }
    only
}

// Whether a field of a struct is a tag, or of a struct that holds it.
fn holds(all: &Known<'_>, of: &str, field: &Field, tag: &OuterTag<'_>, label: &String) -> bool {
    is_giver(field) && (tag.is_field(of, field) || all.holding(label, field).is_some())
}
