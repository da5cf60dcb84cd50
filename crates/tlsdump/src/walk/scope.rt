//! The numbers that were read: selects and lengths after them may depend on them.

use std::alloc::{AllocFailed, Global};

/// A number, and the field that it is in.
#[derive(Clone, Copy)]
pub struct Known<'a> {
    /// The struct.
    pub owner: &'a str,
    pub field: &'a str,
    /// The field's type.
    pub of: &'a str,
    pub number: u64,
    /// What the number is called, if it has a name.
    pub name: Option<&'a str>,
}

/// The last number of each field, in the order in which they were read.
#[derive(Drop)]
pub struct Scope<'a> {
    known: Vec<Known<'a>>,
}

impl<'a> Scope<'a> {
    pub fn new(alloc: Global) -> Scope<'a> {
        Scope {
            known: Vec::new(alloc),
        }
    }

    /// Keeps a field's number in place of the one that it had.
    pub fn set(&mut self, known: Known<'a>) -> Result<(), AllocFailed<Known<'a>>> {
        self.known.retain(|other| other.owner != known.owner || other.field != known.field);
        self.known.push(known)
    }

    /// The number of a field of this struct.
    pub fn of(&self, owner: &str, field: &str) -> Option<Known<'a>> {
        self.known
            .iter()
            .find(|known| known.owner == owner && known.field == field)
            .copied()
    }

    /// The number that was read last in a field of this name, or of a type of this name.
    pub fn last(&self, word: &str) -> Option<Known<'a>> {
        self.known
            .iter()
            .rev()
            .find(|known| known.field == word || known.of == word)
            .copied()
    }
}
