//! A text with its notes.
ghost use Rattle.std.specs.Prelude.{◌≡◌, OnOk};

use crate::registry::name_values;
use crate::rejection::Trouble;
use crate::syntax::{Enum, File, Item, Note, Said, Struct};
use std::alloc::{AllocError, Global};
use std::collections::{BTreeMap, BTreeSet};

/// Gives a file its notes: enums that they call open or closed are, and structs that they call borrowed; integers that they give
/// values are open enums, names of tags that nothing defines are closed ones, and definitions that they leave out are no more.
///
/// Rejects a note on an enum, a struct or a definition that the file doesn't have, a value that the integer doesn't hold, and
/// a name or a number that it has.
pub fn apply(alloc: Global, file: &mut File, notes: Vec<Note>) -> Result<(), Trouble>
    ensures { OnOk result (file.new.notes ≡ notes) }
{
    name_values(alloc, file, &notes)?;
    let mut noted = Noted::of(alloc, file)?;
    for note in &notes {
        match note.said {
            Said::Open => noted.enum_of(alloc, file, note)?.is_open = true,
            Said::Closed => noted.enum_of(alloc, file, note)?.is_open = false,
            Said::Borrowed => noted.struct_of(alloc, file, note)?.is_borrowed = true,
            Said::LeftOut => noted.leave_out(alloc, note)?,
            Said::Number(_)
            | Said::Named(_)
            | Said::Counts
            | Said::Fills
            | Said::Pads
            | Said::Ends(_)
            | Said::Called(_) => {}
        }
    }
    file.items
        .retain(|item| !noted.left_out.contains(&item.name().text));
    file.notes = notes;
    Ok(())
}

// The definitions of a file that notes may be on.
#[derive(Drop)]
struct Noted {
    by_name: BTreeMap<String, usize>,
    left_out: BTreeSet<String>,
}

impl Noted {
    fn of(alloc: Global, file: &File) -> Result<Noted, AllocError> {
        Ok(Noted {
            by_name: positions(alloc, file)?,
            left_out: BTreeSet::new(alloc),
        })
    }

    // The position of the definition that a note is on.
    fn position(&self, note: &Note) -> Option<usize> {
        let [name] = note.path.as_slice() else {
            return None;
        };
        if self.left_out.contains(&name.text) {
            return None;
        }
        self.by_name.get(&name.text).copied()
    }

    // The enum that a note is on.
    fn enum_of<'a>(
        &self,
        alloc: Global,
        file: &'a mut File,
        note: &Note,
    ) -> Result<&'a mut Enum, Trouble> {
        let at = self.position(note);
        match at.and_then(|at| file.items.get_mut(at)) {
            Some(Item::Enum(one)) => Ok(one),
            _ => Err(rejected(alloc, note, "an enum of this text")),
        }
    }

    // The struct that a note is on.
    fn struct_of<'a>(
        &self,
        alloc: Global,
        file: &'a mut File,
        note: &Note,
    ) -> Result<&'a mut Struct, Trouble> {
        let at = self.position(note);
        match at.and_then(|at| file.items.get_mut(at)) {
            Some(Item::Struct(one)) => Ok(one),
            _ => Err(rejected(alloc, note, "a struct of this text")),
        }
    }

    // Keeps that a note leaves a definition out.
    fn leave_out(&mut self, alloc: Global, note: &Note) -> Result<(), Trouble> {
        match (self.position(note), note.path.first()) {
            (Some(_), Some(name)) => {
                self.left_out.insert(name.text.clone()?)?;
                Ok(())
            }
            _ => Err(rejected(alloc, note, "a definition of this text")),
        }
    }
}

/// The positions of a file's definitions, by their names. Of two of one name the first one's.
pub(crate) fn positions(alloc: Global, file: &File) -> Result<BTreeMap<String, usize>, AllocError> {
    let mut by_name = BTreeMap::new(alloc);
    for (at, item) in file.items.iter().enumerate() {
        let name = &item.name().text;
        if !by_name.contains_key(name) {
            by_name.insert(name.clone()?, at)?;
        }
    }
    Ok(by_name)
}

/// The error for a rejected note. A note that was read has a path; one without is `Inconsistent`.
pub(crate) fn rejected(alloc: Global, note: &Note, expected: &'static str) -> Trouble {
    match note.path.first() {
        Some(name) => Trouble::at(name.place, name.text.clone(), expected),
        None => Trouble::Inconsistent,
    }
}
