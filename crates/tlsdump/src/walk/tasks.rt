//! What a walk has still to do.

use crate::walk::line::Label;
use tlsgen_syntax::syntax::{Field, Select};

/// Where a line goes.
#[derive(Clone, Copy)]
pub(crate) struct Place<'a> {
    /// The struct that the field is of.
    pub owner: &'a str,
    pub label: Label<'a>,
    /// How many structs and lists it is in.
    pub depth: usize,
}

/// A step that is still to come.
#[derive(Clone, Copy)]
pub(crate) enum Task<'a> {
    /// A field, as it is declared.
    Field(Place<'a>, &'a Field),
    /// One value of a field's type.
    Value(Place<'a>, &'a Field),
    /// A select in a struct.
    Select(Place<'a>, &'a Select),
    /// The elements of a list.
    Elements(Place<'a>, Elements<'a>),
    /// The end of what is in a length.
    Leave(Place<'a>, Leave<'a>),
}

/// The elements of a list that are still to come.
#[derive(Clone, Copy)]
pub(crate) struct Elements<'a> {
    pub field: &'a Field,
    /// The position of the list's line.
    pub list: usize,
    /// How many elements have begun.
    pub begun: usize,
    /// How many bytes were left as the last one began.
    pub left: usize,
    /// What comes after the list.
    pub after: &'a [u8],
}

/// The end of what is in a length.
#[derive(Clone, Copy)]
pub(crate) struct Leave<'a> {
    /// What it is that ends.
    pub of: &'a str,
    /// What comes after it.
    pub after: &'a [u8],
    /// It was opened: a walk that stops in it shows its bytes.
    pub is_opened: bool,
}
