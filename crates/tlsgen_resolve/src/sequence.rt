//! The fields and selects of a struct.
use crate::contexts::{OuterTag, context_of};
use crate::items::{integer_width, is_single};
use crate::known::Known;
use crate::padding::Padding;
use crate::pieces::own_pieces;
use crate::reject::rejected;
use crate::scope::Scope;
use std::alloc::Global;
use tlsgen_syntax::rejection::{Place, Trouble};
use tlsgen_syntax::syntax::{Field, Name, Remark, Select, Struct};

/// The most pieces of a struct.
pub const MAX_PIECES: usize = 256;

// The most words of a select's path.
const MAX_WORDS: usize = 16;

/// A field or a select.
#[derive(Clone, Copy)]
pub enum Piece<'a> {
    Field(&'a Field),
    /// A number, and the field of as many bytes that follows it.
    Counted(&'a Field, &'a Field),
    /// A number that counts the bytes of the select after it.
    Length(&'a Field),
    Select(&'a Select),
}

/// A field, and its position among the pieces of a struct.
#[derive(Clone, Copy)]
pub struct IndexedField<'a> {
    pub index: usize,
    pub field: &'a Field,
}

/// The pieces of a struct.
#[derive(Drop)]
pub struct Sequence<'a> {
    pub name: &'a str,
    pub place: Place,
    pub remark: &'a Remark,
    pub is_borrowed: bool,
    pub pieces: Vec<Piece<'a>>,
    /// The tag that decides its parts, if the tag isn't one of its pieces.
    pub context: Option<OuterTag<'a>>,
    /// It is bytes that fill what is left of a length, and no message of its own.
    pub is_filling: bool,
    /// The field that goes to the end of what is read, which is no piece.
    pub padding: Option<Padding<'a>>,
}

/// The pieces of a struct; all structs that it contains are known.
pub fn sequence_of<'a>(
    alloc: Global,
    scope: Scope<'a>,
    all: &mut Known<'a>,
    one: &'a Struct,
) -> Result<Sequence<'a>, Trouble> {
    let mut sequence = own_pieces(alloc, scope, one)?;
    check_paths(alloc, &sequence)?;
    sequence.context = context_of(alloc, scope, all, &sequence)?;
    Ok(sequence)
}

/// The error for a struct of more parts.
pub fn rejected_size(alloc: Global, name: &Name) -> Trouble {
    rejected(
        alloc,
        name.place,
        name.text.as_str(),
        "a struct of at most 256 parts",
    )
}

fn check_paths(alloc: Global, sequence: &Sequence<'_>) -> Result<(), Trouble> {
    for piece in &sequence.pieces {
        if let Piece::Select(select) = piece {
            if select.path.is_empty() || select.path.len() > MAX_WORDS {
                return Err(rejected(alloc, select.place, "select", "a path of 1 to 16 names"));
            }
        }
    }
    Ok(())
}

/// The first field of this name.
pub fn find_field<'a>(sequence: &Sequence<'a>, name: &str) -> Option<IndexedField<'a>> {
    for (index, piece) in sequence.pieces.iter().enumerate() {
        if let Piece::Field(field) = piece {
            if field.name.text.as_str() == name {
                return Some(IndexedField { index, field });
            }
        }
    }
    None
}

// The field that is meant by the last word of a select's path: of this name, or else the one that has this type.
fn find_tag<'a>(sequence: &Sequence<'a>, word: &str) -> Option<IndexedField<'a>> {
    match find_field(sequence, word) {
        Some(found) => Some(found),
        None => only_of_type(sequence, word),
    }
}

// The field of a type that the text defines, if no other has it.
fn only_of_type<'a>(sequence: &Sequence<'a>, of: &str) -> Option<IndexedField<'a>> {
    if integer_width(of).is_some() {
        return None;
    }
    let mut found = None;
    for (index, piece) in sequence.pieces.iter().enumerate() {
        if let Piece::Field(field) = piece {
            if is_single(field) && field.constant.is_none() && field.of.text.as_str() == of {
                if found.is_some() {
                    return None;
                }
                found = Some(IndexedField { index, field });
            }
        }
    }
    found
}

/// Whether the path of a select is in its struct: it is a field's name or type, or begins with the name of the struct.
pub fn is_here(sequence: &Sequence<'_>, select: &Select) -> bool {
    match select.path.split_first() {
        Some((first, [])) => find_tag(sequence, first.text.as_str()).is_some(),
        Some((first, _)) => first.text.as_str() == sequence.name,
        None => true,
    }
}

/// The tag of a select, which is above it.
pub fn tag_of_select<'a>(
    alloc: Global,
    sequence: &Sequence<'a>,
    select: &Select,
    at: usize,
) -> Result<IndexedField<'a>, Trouble> {
    let Some((last, words)) = select.path.split_last() else {
        return Err(rejected(alloc, select.place, "select", "the name of a tag"));
    };
    if let Some(word) = words.get(1) {
        return Err(rejected(
            alloc,
            word.place,
            word.text.as_str(),
            "the name of a field whose type is a struct",
        ));
    }
    let name = last.text.as_str();
    match find_tag(sequence, name) {
        None => Err(rejected(
            alloc,
            last.place,
            name,
            "the name of a field of the same bytes",
        )),
        Some(tag) if tag.index >= at => {
            Err(rejected(alloc, last.place, name, "a tag above its select"))
        }
        Some(tag) => {
            check_one(alloc, sequence, last, tag.index)?;
            Ok(tag)
        }
    }
}

// Rejects a tag's name that another field has too.
fn check_one(
    alloc: Global,
    sequence: &Sequence<'_>,
    name: &Name,
    found: usize,
) -> Result<(), Trouble> {
    let text = name.text.as_str();
    for (at, piece) in sequence.pieces.iter().enumerate() {
        if let Piece::Field(field) = piece {
            if at != found && field.name.text.as_str() == text {
                return Err(rejected(
                    alloc,
                    name.place,
                    text,
                    "a tag's name that one field here has",
                ));
            }
        }
    }
    Ok(())
}
