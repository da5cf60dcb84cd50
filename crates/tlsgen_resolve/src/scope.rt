//! The definitions that a file may name, found by their names.
use crate::items::is_single;
use std::alloc::{AllocError, Global};
use std::collections::BTreeMap;
use tlsgen_model::names::module_name;
use tlsgen_syntax::syntax::{Field, File, Item, Note};

/// Where a definition is: the position of its file, and its own in that.
#[derive(Clone, Copy)]
pub struct Position {
    pub file: usize,
    pub item: usize,
}

/// Where the definitions of all files are. No two have one name.
#[derive(Drop)]
pub struct Index {
    by_name: BTreeMap<String, Position>,
    /// Enums by their names in small letters.
    small: BTreeMap<String, Position>,
    /// For each alias the last alias on the way from it to its type.
    last: BTreeMap<String, Position>,
    /// The positions of each file's notes, by the first name of their path.
    notes: Vec<BTreeMap<String, Vec<usize>>>,
}

/// Files in order. Each may name what those before it define.
#[derive(Clone, Copy)]
pub struct Scope<'a> {
    pub files: &'a [File],
    index: &'a Index,
}

impl Index {
    pub fn new(alloc: Global, files: &[File]) -> Result<Index, AllocError> {
        let mut index = Index {
            by_name: BTreeMap::new(alloc),
            small: BTreeMap::new(alloc),
            last: BTreeMap::new(alloc),
            notes: Vec::new(alloc),
        };
        for (file, one) in files.iter().enumerate() {
            for (item, definition) in one.items.iter().enumerate() {
                index.add(alloc, definition, Position { file, item })?;
            }
        }
        for item in files.iter().flat_map(|file| file.items.iter()) {
            index.add_way(alloc, files, item)?;
        }
        for file in files {
            let notes = notes_by_name(alloc, &file.notes)?;
            index.notes.push(notes)?;
        }
        Ok(index)
    }

    // The first of a name stays: `add_modules` rejects another.
    fn add(&mut self, alloc: Global, item: &Item, at: Position) -> Result<(), AllocError> {
        let name = item.name().text.as_str();
        if !self.by_name.contains_key(name) {
            self.by_name.insert(String::from_str(alloc, name)?, at)?;
        }
        let small = module_name(alloc, name)?;
        if matches!(item, Item::Enum(_)) && !self.small.contains_key(small.as_str()) {
            self.small.insert(small, at)?;
        }
        Ok(())
    }

    // Keeps the last other name on the way from an item, for each on it.
    fn add_way(&mut self, alloc: Global, files: &[File], item: &Item) -> Result<(), AllocError> {
        let mut way = Vec::new(alloc);
        let mut at = item;
        for _ in 0..self.by_name.len() {
            if self.last.contains_key(at.name().text.as_str()) {
                break;
            }
            way.push(at.name())?;
            match self.next(files, at) {
                Some(next) => at = next,
                None => break,
            }
        }
        let Some(last) = self.end_at(at) else {
            return Ok(());
        };
        for name in way {
            self.last.insert(name.text.clone()?, last)?;
        }
        Ok(())
    }

    fn end_at(&self, item: &Item) -> Option<Position> {
        let name = item.name().text.as_str();
        match self.last.get(name) {
            Some(last) => Some(*last),
            None => self.by_name.get(name).copied(),
        }
    }

    // The other name of a type that one is another name of.
    fn next<'b>(&self, files: &'b [File], item: &Item) -> Option<&'b Item> {
        let Item::Alias(field) = item else {
            return None;
        };
        if !is_single(field) {
            return None;
        }
        let at = self.by_name.get(field.of.text.as_str())?;
        let next = item_at(files, *at)?;
        if matches!(next, Item::Alias(_)) {
            Some(next)
        } else {
            None
        }
    }
}

fn notes_by_name(
    alloc: Global,
    notes: &[Note],
) -> Result<BTreeMap<String, Vec<usize>>, AllocError> {
    let mut by_name = BTreeMap::new(alloc);
    for (at, note) in notes.iter().enumerate() {
        if let Some(first) = note.path.first() {
            push_position(alloc, &mut by_name, first.text.as_str(), at)?;
        }
    }
    Ok(by_name)
}

fn push_position(
    alloc: Global,
    by_name: &mut BTreeMap<String, Vec<usize>>,
    name: &str,
    at: usize,
) -> Result<(), AllocError> {
    if let Some(positions) = by_name.get_mut(name) {
        positions.push(at)?;
        return Ok(());
    }
    by_name.insert(String::from_str(alloc, name)?, vec![in alloc; at]?)?;
    Ok(())
}

fn item_at(files: &[File], at: Position) -> Option<&Item> {
    files.get(at.file)?.items.get(at.item)
}

impl<'a> Scope<'a> {
    /// Some files, the first ones of those that the index is of.
    pub fn new(files: &'a [File], index: &'a Index) -> Scope<'a> {
        Scope { files, index }
    }

    /// The item of this name, in whichever file it is.
    pub fn find(self, name: &str) -> Option<&'a Item> {
        item_at(self.files, *self.index.by_name.get(name)?)
    }

    /// The enum of this name, or of this name in small letters.
    pub fn find_enum(self, name: &str) -> Option<&'a Item> {
        match self.find(name) {
            Some(item) if matches!(item, Item::Enum(_)) => Some(item),
            _ => item_at(self.files, *self.index.small.get(name)?),
        }
    }

    /// The position in the last file of the item of this name.
    pub fn position(self, name: &str) -> Option<usize> {
        let at = self.index.by_name.get(name)?;
        if at.file.checked_add(1)? == self.files.len() {
            Some(at.item)
        } else {
            None
        }
    }

    /// The last other name of a type on the way from the one of this name.
    pub fn last_alias(self, name: &str) -> Option<&'a Field> {
        match item_at(self.files, *self.index.last.get(name)?)? {
            Item::Alias(field) => Some(field),
            _ => None,
        }
    }

    /// The positions among the last file's notes of those whose path begins with this name, in their order.
    pub fn notes(self, name: &str) -> &'a [usize] {
        match self.notes_on(name) {
            Some(positions) => positions.as_slice(),
            None => &[],
        }
    }

    fn notes_on(self, name: &str) -> Option<&'a Vec<usize>> {
        let last = self.files.len().checked_sub(1)?;
        self.index.notes.get(last)?.get(name)
    }

    /// The note at a position in the last file.
    pub fn note(self, at: usize) -> Option<&'a Note> {
        self.files.last()?.notes.get(at)
    }

    /// How many items there are in all files.
    pub fn count(self) -> usize {
        self.index.by_name.len()
    }
}
