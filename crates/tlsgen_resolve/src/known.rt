//! The structs that are resolved, and which of them hold the tags of others.
use crate::sequence::{Piece, Sequence};
use std::alloc::{AllocError, Global};
use std::collections::{BTreeMap, BTreeSet};
use tlsgen_syntax::syntax::Field;

/// The structs that are resolved, in their order.
#[derive(Drop)]
pub struct Known<'a> {
    all: Vec<Sequence<'a>>,
    by_name: BTreeMap<String, usize>,
    by_tag: BTreeMap<String, TagHolders>,
}

// The structs that were checked for a tag, by their positions.
#[derive(Drop)]
struct TagHolders {
    // The position of the one piece of each that is the tag or holds it.
    pieces: BTreeMap<usize, Option<usize>>,
    // Those whose messages hold the tag.
    kept: BTreeSet<usize>,
}

/// A struct that holds a tag, and its one field that is the tag or holds it.
#[derive(Clone, Copy)]
pub struct Holding<'a> {
    pub name: &'a str,
    pub field: &'a Field,
}

impl<'a> Known<'a> {
    pub fn new(alloc: Global) -> Known<'a> {
        Known {
            all: Vec::new(alloc),
            by_name: BTreeMap::new(alloc),
            by_tag: BTreeMap::new(alloc),
        }
    }

    /// Appends a struct.
    pub fn push(&mut self, alloc: Global, one: Sequence<'a>) -> Result<(), AllocError> {
        let at = self.all.len();
        self.by_name.insert(String::from_str(alloc, one.name)?, at)?;
        self.all.push(one)?;
        Ok(())
    }

    pub fn as_slice(&self) -> &[Sequence<'a>] {
        &self.all
    }

    pub fn len(&self) -> usize {
        self.all.len()
    }

    /// The struct at a position.
    pub fn get(&self, at: usize) -> Option<&Sequence<'a>> {
        self.all.get(at)
    }

    /// The position of the struct of this name.
    pub fn position(&self, name: &str) -> Option<usize> {
        self.by_name.get(name).copied()
    }

    /// Whether a struct was checked for a tag of this label.
    pub fn is_checked(&self, label: &String, at: usize) -> bool {
        self.by_tag
            .get(label.as_str())
            .is_some_and(|own| own.pieces.get(&at).is_some())
    }

    /// Keeps which piece of a struct is the tag of this label or holds it.
    pub fn keep_holding(
        &mut self,
        alloc: Global,
        label: &String,
        at: usize,
        piece: Option<usize>,
    ) -> Result<(), AllocError> {
        if let Some(own) = self.by_tag.get_mut(label.as_str()) {
            own.pieces.insert(at, piece)?;
            return Ok(());
        }
        let mut own = TagHolders {
            pieces: BTreeMap::new(alloc),
            kept: BTreeSet::new(alloc),
        };
        own.pieces.insert(at, piece)?;
        self.by_tag.insert(label.clone()?, own)?;
        Ok(())
    }

    /// The struct of a field, if it was checked for a tag of this label and holds it.
    pub fn holding(&self, label: &String, field: &Field) -> Option<Holding<'a>> {
        let at = self.position(field.of.text.as_str())?;
        let own = self.by_tag.get(label.as_str())?;
        let piece = *own.pieces.get(&at)?;
        let one = self.all.get(at)?;
        match one.pieces.get(piece?)? {
            Piece::Field(field) => Some(Holding {
                name: one.name,
                field,
            }),
            _ => None,
        }
    }

    /// Whether the message of a struct holds a tag of this label, and those on the way to the tag.
    pub fn is_kept(&self, label: &String, name: &str) -> bool {
        match (self.by_tag.get(label.as_str()), self.position(name)) {
            (Some(own), Some(at)) => own.kept.contains(&at),
            _ => false,
        }
    }

    /// Keeps that the message of a struct holds a tag of this label.
    pub fn set_kept(&mut self, label: &String, name: &str) -> Result<(), AllocError> {
        if let Some(at) = self.position(name) {
            if let Some(own) = self.by_tag.get_mut(label.as_str()) {
                own.kept.insert(at)?;
            }
        }
        Ok(())
    }
}

/// The sequence of the struct of this name.
pub fn sequence_named<'b, 'a>(all: &'b Known<'a>, name: &str) -> Option<&'b Sequence<'a>> {
    all.get(all.position(name)?)
}

/// Whether the struct of this name is in the context of a tag.
pub fn needs_outer_tag(all: &Known<'_>, name: &str) -> bool {
    sequence_named(all, name).is_some_and(|one| one.context.is_some())
}
