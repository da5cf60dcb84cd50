//! Enums by the notes: integers whose values a registry names, as `uint16 CredentialType;` (RFC 9420, section 17.5), and tags
//! that nothing defines, as `select (ClientOrServerExtension)` has (RFC 7250, section 3).

use crate::noted::{positions, rejected};
use crate::rejection::Trouble;
use crate::syntax::{Enum, Field, File, Item, Name, Note, Number, Part, Said, Value, Vector};
use std::alloc::{AllocError, Global};
use std::collections::{BTreeMap, BTreeSet};
use std::mem::replace;

/// Makes an open enum of each integer type of a file that notes give values: `CredentialType.basic = 1;`. The tag of a select
/// that nothing defines, and that notes give values, becomes a closed enum of a byte.
///
/// Rejects a number that the type doesn't hold, a name or a number twice, and a note on an enum, whose text names its values.
pub(crate) fn name_values(alloc: Global, file: &mut File, notes: &[Note]) -> Result<(), Trouble> {
    let by_name = positions(alloc, file)?;
    for note in notes {
        check(alloc, file, &by_name, note)?;
    }
    let given = Given::of(alloc, notes)?;
    for item in &mut file.items {
        if let Some(one) = registry_of(alloc, item, &given)? {
            *item = Item::Enum(one);
        }
    }
    add_tags(alloc, file, &by_name, &given)
}

// Notes that give values, by the names of the types.
#[derive(Drop)]
struct Given<'a> {
    notes: &'a [Note],
    by_type: BTreeMap<String, Vec<usize>>,
}

impl<'a> Given<'a> {
    fn of(alloc: Global, notes: &'a [Note]) -> Result<Given<'a>, AllocError> {
        let mut by_type = BTreeMap::new(alloc);
        for (at, note) in notes.iter().enumerate() {
            if let Some((of, _, _)) = value_in(note) {
                push_position(alloc, &mut by_type, of, at)?;
            }
        }
        Ok(Given { notes, by_type })
    }

    // The positions of the notes that give a type values.
    fn positions(&self, of: &Name) -> &[usize] {
        match self.by_type.get(&of.text) {
            Some(positions) => positions.as_slice(),
            None => &[],
        }
    }
}

fn push_position(
    alloc: Global,
    by_type: &mut BTreeMap<String, Vec<usize>>,
    of: &Name,
    at: usize,
) -> Result<(), AllocError> {
    if let Some(positions) = by_type.get_mut(&of.text) {
        positions.push(at)?;
        return Ok(());
    }
    by_type.insert(of.text.clone()?, vec![in alloc; at]?)?;
    Ok(())
}

// Adds the enums of tags that notes give values and nothing defines, those of later notes first.
fn add_tags(
    alloc: Global,
    file: &mut File,
    by_name: &BTreeMap<String, usize>,
    given: &Given<'_>,
) -> Result<(), Trouble> {
    let tags = tags_of_selects(alloc, file)?;
    let mut items = Vec::new(alloc);
    for (at, note) in given.notes.iter().enumerate().rev() {
        let Some((of, _, _)) = value_in(note) else {
            continue;
        };
        let is_first = given.positions(of).first() == Some(&at);
        if is_first && !by_name.contains_key(&of.text) && tags.contains(&of.text) {
            items.push(Item::Enum(tag_of(alloc, of, given)?))?;
        }
    }
    for item in replace(&mut file.items, Vec::new(alloc)) {
        items.push(item)?;
    }
    file.items = items;
    Ok(())
}

fn tag_of(alloc: Global, of: &Name, given: &Given<'_>) -> Result<Enum, Trouble> {
    Ok(Enum {
        is_open: false,
        values: values_of(alloc, of, 0xff, given)?,
        name: copy(of)?,
    })
}

// The tags of one name that selects of a file are on.
fn tags_of_selects(alloc: Global, file: &File) -> Result<BTreeSet<String>, AllocError> {
    let mut tags = BTreeSet::new(alloc);
    for item in &file.items {
        if let Item::Struct(one) = item {
            for part in &one.parts {
                if let Some(tag) = tag_of_part(part) {
                    tags.insert(tag.text.clone()?)?;
                }
            }
        }
    }
    Ok(tags)
}

fn tag_of_part(part: &Part) -> Option<&Name> {
    let Part::Select(select) = part else {
        return None;
    };
    match select.path.as_slice() {
        [only] => Some(only),
        _ => None,
    }
}

// Rejects a value that a note gives an enum of the text.
fn check(
    alloc: Global,
    file: &File,
    by_name: &BTreeMap<String, usize>,
    note: &Note,
) -> Result<(), Trouble> {
    let Some((of, _, _)) = value_in(note) else {
        return Ok(());
    };
    let at = by_name.get(&of.text).copied();
    match at.and_then(|at| file.items.get(at)) {
        Some(Item::Enum(_)) => Err(rejected(
            alloc,
            note,
            "an integer type of this text, as `uint16 CredentialType;`, or a name between an array's brackets",
        )),
        _ => Ok(()),
    }
}

// The type, the name and the number of a value that a note gives.
fn value_in(note: &Note) -> Option<(&Name, &Name, Number)> {
    let Said::Number(number) = &note.said else {
        return None;
    };
    match note.path.as_slice() {
        [of, name] => Some((of, name, *number)),
        _ => None,
    }
}

// The enum of an integer type, if notes give it values.
fn registry_of(alloc: Global, item: &Item, given: &Given<'_>) -> Result<Option<Enum>, Trouble> {
    let Item::Alias(field) = item else {
        return Ok(None);
    };
    let Some(greatest) = greatest_of(field) else {
        return Ok(None);
    };
    if given.positions(&field.name).is_empty() {
        return Ok(None);
    }
    Ok(Some(Enum {
        is_open: true,
        values: values_of(alloc, &field.name, greatest, given)?,
        name: copy(&field.name)?,
    }))
}

// The values that notes give a type, then the greatest number, which gives the width.
fn values_of(
    alloc: Global,
    of: &Name,
    greatest: u64,
    given: &Given<'_>,
) -> Result<Vec<Value>, Trouble> {
    let mut values = Values::new(alloc);
    for at in given.positions(of) {
        if let Some(note) = given.notes.get(*at) {
            values.push(alloc, note, greatest)?;
        }
    }
    let mut values = values.all;
    values.push(Value {
        name: None,
        number: Number {
            value: greatest,
            place: of.place,
        },
        last: None,
    })?;
    Ok(values)
}

// The greatest number of an integer type.
fn greatest_of(field: &Field) -> Option<u64> {
    if field.is_optional || !matches!(field.vector, Vector::One) {
        return None;
    }
    match field.of.text.as_str() {
        "uint8" | "uint8_t" => Some(0xff),
        "uint16" | "uint16_t" => Some(0xffff),
        "uint32" | "uint32_t" => Some(0xffff_ffff),
        "uint64" | "uint64_t" => Some(u64::MAX),
        _ => None,
    }
}

// The values of a type, and their names and numbers.
#[derive(Drop)]
struct Values {
    all: Vec<Value>,
    names: BTreeSet<String>,
    numbers: BTreeSet<u64>,
}

impl Values {
    fn new(alloc: Global) -> Values {
        Values {
            all: Vec::new(alloc),
            names: BTreeSet::new(alloc),
            numbers: BTreeSet::new(alloc),
        }
    }

    // Appends the value that a note gives the type.
    fn push(&mut self, alloc: Global, note: &Note, greatest: u64) -> Result<(), Trouble> {
        let Some((_, name, number)) = value_in(note) else {
            return Ok(());
        };
        if number.value > greatest {
            return Err(rejected(alloc, note, "a number that the type holds"));
        }
        if self.names.contains(&name.text) || self.numbers.contains(&number.value) {
            return Err(rejected(
                alloc,
                note,
                "a name and a number that no note above gives the type",
            ));
        }
        self.names.insert(name.text.clone()?)?;
        self.numbers.insert(number.value)?;
        self.all.push(Value {
            name: Some(copy(name)?),
            number,
            last: None,
        })?;
        Ok(())
    }
}

fn copy(name: &Name) -> Result<Name, AllocError> {
    Ok(Name {
        text: name.text.clone()?,
        place: name.place,
        remark: name.remark.clone()?,
    })
}
