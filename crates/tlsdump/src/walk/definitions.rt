//! The definitions of some texts.

use std::alloc::{AllocError, Global};
use std::collections::BTreeMap;
use tlsgen_syntax::noted::apply;
use tlsgen_syntax::parser::{parse, parse_notes};
use tlsgen_syntax::rejection::Trouble;
use tlsgen_syntax::syntax::{Enum, Field, File, Item, Note, Said, Struct, Value};

/// The definitions of some texts, by their names. If two have the same name, the first one counts.
#[derive(Drop)]
pub struct Definitions {
    files: Vec<File>,
    by_name: BTreeMap<String, (usize, usize)>,
}

/// What a type's name stands for.
#[derive(Clone, Copy)]
pub enum Definition<'a> {
    /// A byte.
    Opaque,
    /// An integer of this number of bytes.
    Number(usize),
    Enum(&'a Enum),
    Struct(&'a Struct),
    /// Another name of a type.
    Alias(&'a Field),
    /// None of these texts has it.
    Unknown,
}

impl Definitions {
    pub fn new(alloc: Global) -> Definitions {
        Definitions {
            files: Vec::new(alloc),
            by_name: BTreeMap::new(alloc),
        }
    }

    /// Adds the definitions of a text, with its notes.
    pub fn add(&mut self, alloc: Global, text: &str, notes: &str) -> Result<(), Trouble> {
        let mut file = parse(alloc, text)?;
        apply(alloc, &mut file, parse_notes(alloc, notes)?)?;
        self.enter(&file)?;
        self.files.push(file)?;
        Ok(())
    }

    // Enters the names of a text that comes next.
    fn enter(&mut self, file: &File) -> Result<(), AllocError> {
        let at = self.files.len();
        for (position, item) in file.items.iter().enumerate() {
            let name = item.name();
            if !self.by_name.contains_key(&name.text) {
                self.by_name.insert(name.text.clone()?, (at, position))?;
            }
        }
        Ok(())
    }

    /// The definitions, text by text.
    pub fn files(&self) -> &[File] {
        self.files.as_slice()
    }

    /// What a type's name stands for.
    pub fn definition(&self, name: &str) -> Definition<'_> {
        match name {
            "opaque" => Definition::Opaque,
            "uint8" => Definition::Number(1),
            "uint16" => Definition::Number(2),
            "uint24" => Definition::Number(3),
            "uint32" => Definition::Number(4),
            "uint64" => Definition::Number(8),
            _ => self.defined(name),
        }
    }

    // What a name stands for that a text defines.
    fn defined(&self, name: &str) -> Definition<'_> {
        let Some((file, position)) = self.by_name.get(name) else {
            return Definition::Unknown;
        };
        let item = self
            .files
            .get(*file)
            .and_then(|file| file.items.get(*position));
        match item {
            Some(Item::Enum(one)) => Definition::Enum(one),
            Some(Item::Struct(one)) => Definition::Struct(one),
            Some(Item::Alias(field)) => Definition::Alias(field),
            None => Definition::Unknown,
        }
    }

    /// What the notes say of a field of a struct.
    pub fn said(&self, owner: &str, field: &str) -> Option<&Said> {
        for file in &self.files {
            for note in &file.notes {
                if is_of(note, owner, field) {
                    return Some(&note.said);
                }
            }
        }
        None
    }
}

// Whether a note is on this field of this struct.
fn is_of(note: &Note, owner: &str, field: &str) -> bool {
    match note.path.as_slice() {
        [of, name] => of.text.as_str() == owner && name.text.as_str() == field,
        _ => false,
    }
}

/// How many bytes the numbers of an enum have: as many as the greatest one needs.
pub fn width_of(one: &Enum) -> usize {
    let mut most = 0;
    for value in &one.values {
        most = most.max(last_of(value));
    }
    bytes_for(most)
}

/// How many bytes, at most 4, a length up to this one has.
pub fn bytes_for(most: u64) -> usize {
    match most {
        0..=0xff => 1,
        0x100..=0xffff => 2,
        0x1_0000..=0xff_ffff => 3,
        _ => 4,
    }
}

/// What the number of a value is called in its enum.
pub fn value_name(one: &Enum, number: u64) -> Option<&str> {
    for value in &one.values {
        if let Some(name) = &value.name {
            if value.number.value <= number && number <= last_of(value) {
                return Some(name.text.as_str());
            }
        }
    }
    None
}

// The last number of a value, which is its own, or the range's.
fn last_of(value: &Value) -> u64 {
    match value.last {
        Some(last) => last.value,
        None => value.number.value,
    }
}
