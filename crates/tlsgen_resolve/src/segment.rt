//! The pieces of a struct that follow a field, resolved, from the last to the first.
use crate::cases::{Labelled, has_case};
use crate::given::{Given, joined};
use crate::members::ResolvedMember;
use crate::reject::rejected;
use std::alloc::Global;
use tlsgen_syntax::rejection::{Place, Trouble};
use tlsgen_syntax::syntax::Field;

/// A piece of a struct: the member that a field becomes, or a select with its cases.
#[derive(Drop)]
pub enum ResolvedPiece<'a> {
    Member(ResolvedMember),
    Select(ResolvedSelect<'a>),
    /// A number that counts the bytes of the select after it.
    Length(&'a Field),
}

/// A select, with the position of its tag among the pieces.
#[derive(Drop)]
pub struct ResolvedSelect<'a> {
    pub tag: usize,
    pub cases: Vec<Labelled<'a>>,
    pub given: Given<'a>,
    pub place: Place,
}

/// Whether a piece is a select on the tag at a position.
pub fn is_on(piece: &ResolvedPiece<'_>, tag: usize) -> bool {
    select_of(piece).is_some_and(|select| select.tag == tag)
}

/// The select nearest to its tag.
pub fn nearest_select<'b, 'a>(segment: &'b [ResolvedPiece<'a>]) -> Option<&'b ResolvedSelect<'a>> {
    segment.iter().rev().find_map(|piece| select_of(piece))
}

/// The select of a tag and the length right before it, if nothing else follows the tag.
pub fn counted_select<'b, 'a>(
    segment: &'b [ResolvedPiece<'a>],
) -> Option<(&'b ResolvedSelect<'a>, &'a Field)> {
    let [last, first] = segment else {
        return None;
    };
    match first {
        ResolvedPiece::Length(length) => Some((select_of(last)?, *length)),
        _ => None,
    }
}

/// The only case of a tag, if it has fields and no length counts them.
pub fn only_case<'b, 'a>(segment: &'b [ResolvedPiece<'a>]) -> Option<&'b Labelled<'a>> {
    if segment
        .iter()
        .any(|piece| matches!(piece, ResolvedPiece::Length(_)))
    {
        return None;
    }
    match nearest_select(segment)?.cases.as_slice() {
        [case] if !case.fields.is_empty() => Some(case),
        _ => None,
    }
}

fn select_of<'b, 'a>(piece: &'b ResolvedPiece<'a>) -> Option<&'b ResolvedSelect<'a>> {
    match piece {
        ResolvedPiece::Member(_) | ResolvedPiece::Length(_) => None,
        ResolvedPiece::Select(select) => Some(select),
    }
}

/// Rejects a select on another tag, and one that has other cases.
pub fn check_segment(
    alloc: Global,
    segment: &[ResolvedPiece<'_>],
    tag: usize,
    cases: &[Labelled<'_>],
) -> Result<(), Trouble> {
    for piece in segment {
        if let ResolvedPiece::Select(select) = piece {
            if select.tag != tag {
                return Err(rejected_crossing(alloc, select.place));
            }
            if !have_same(&select.cases, cases) {
                return Err(rejected(
                    alloc,
                    select.place,
                    "select",
                    "the same cases in each select on a tag",
                ));
            }
        }
    }
    Ok(())
}

// Whether there are as many cases, for the same numbers.
fn have_same(own: &[Labelled<'_>], cases: &[Labelled<'_>]) -> bool {
    own.len() == cases.len() && cases.iter().all(|case| has_case(own, case.number))
}

/// The error for a length that isn't allowed between a tag and its select.
pub fn rejected_counting(alloc: Global, length: &Field) -> Trouble {
    let name = &length.name;
    rejected(
        alloc,
        name.place,
        name.text.as_str(),
        "a length right between a tag and its select, since a note says that it counts the rest",
    )
}

/// The error for a select on an earlier tag between a tag and its select.
pub fn rejected_crossing(alloc: Global, place: Place) -> Trouble {
    rejected(
        alloc,
        place,
        "select",
        "selects that nest: no select on an earlier tag between a tag and its select",
    )
}

/// The names that the selects on a tag have. Rejects two that differ.
pub fn names_given<'a>(alloc: Global, segment: &[ResolvedPiece<'a>]) -> Result<Given<'a>, Trouble> {
    let mut given = Given {
        of_type: None,
        of_field: None,
    };
    for piece in segment {
        if let ResolvedPiece::Select(select) = piece {
            given = joined(alloc, given, select.given)?;
        }
    }
    Ok(given)
}
