//! Which enums keep numbers without a name: those that no select is on (RFC 8446, section 3.5).

use crate::syntax::{Field, File, Item, Name, Part, Select, Struct};
use std::alloc::{AllocError, Global};
use std::collections::BTreeMap;

/// Opens each enum of a file that no select of it is on: numbers without a name are kept.
pub(crate) fn open_unselected(alloc: Global, file: &mut File) -> Result<(), AllocError> {
    let tags = tags_of(alloc, file)?;
    for (item, is_tag) in file.items.iter_mut().zip(tags.iter()) {
        if let Item::Enum(one) = item {
            if !*is_tag {
                one.is_open = true;
            }
        }
    }
    Ok(())
}

// Of each item whether it is an enum that a select is on.
fn tags_of(alloc: Global, file: &File) -> Result<Vec<bool>, AllocError> {
    let named = Named::of(alloc, file)?;
    let mut tags = vec![in alloc; false; file.items.len()]?;
    for item in &file.items {
        if let Item::Struct(one) = item {
            for part in &one.parts {
                if let Some(at) = tag_of_part(alloc, &named, one, part)? {
                    mark(&mut tags, at);
                }
            }
        }
    }
    Ok(tags)
}

fn mark(tags: &mut [bool], at: usize) {
    if let Some(is_tag) = tags.get_mut(at) {
        *is_tag = true;
    }
}

// The definitions of a file, by their names.
#[derive(Drop)]
struct Named<'a> {
    file: &'a File,
    by_name: BTreeMap<String, usize>,
    /// Enums, by their names in small letters.
    small: BTreeMap<String, usize>,
    /// Of another name of a type, the last one on the way from it to the type.
    last: BTreeMap<String, usize>,
}

impl<'a> Named<'a> {
    fn of(alloc: Global, file: &'a File) -> Result<Named<'a>, AllocError> {
        let mut named = Named {
            file,
            by_name: BTreeMap::new(alloc),
            small: BTreeMap::new(alloc),
            last: BTreeMap::new(alloc),
        };
        for (at, item) in file.items.iter().enumerate() {
            named.add(alloc, item, at)?;
        }
        for at in 0..file.items.len() {
            named.add_way(alloc, at)?;
        }
        Ok(named)
    }

    // The first of a name stays.
    fn add(&mut self, alloc: Global, item: &Item, at: usize) -> Result<(), AllocError> {
        let name = &item.name().text;
        if !self.by_name.contains_key(name) {
            self.by_name.insert(name.clone()?, at)?;
        }
        let small = in_small_letters(alloc, name.as_str())?;
        if matches!(item, Item::Enum(_)) && !self.small.contains_key(&small) {
            self.small.insert(small, at)?;
        }
        Ok(())
    }

    // Keeps the last other name on the way from one, for each on it.
    fn add_way(&mut self, alloc: Global, from: usize) -> Result<(), AllocError> {
        let mut way = Vec::new(alloc);
        let mut at = from;
        for _ in 0..self.file.items.len() {
            let Some(field) = self.alias_at(at) else {
                break;
            };
            if self.last.contains_key(&field.name.text) {
                break;
            }
            way.push(&field.name.text)?;
            match self.next(field) {
                Some(next) => at = next,
                None => break,
            }
        }
        let last = self.last_at(at);
        for name in way {
            self.last.insert(name.clone()?, last)?;
        }
        Ok(())
    }

    fn last_at(&self, at: usize) -> usize {
        match self.alias_at(at) {
            Some(field) => self.last.get(&field.name.text).copied().unwrap_or(at),
            None => at,
        }
    }

    fn alias_at(&self, at: usize) -> Option<&'a Field> {
        match self.file.items.get(at)? {
            Item::Alias(field) => Some(field),
            _ => None,
        }
    }

    // The position of the other name that one is another name of.
    fn next(&self, field: &Field) -> Option<usize> {
        let at = *self.by_name.get(&field.of.text)?;
        if self.alias_at(at).is_some() {
            Some(at)
        } else {
            None
        }
    }

    fn struct_of(&self, name: &Name) -> Option<&'a Struct> {
        match self.file.items.get(*self.by_name.get(&name.text)?)? {
            Item::Struct(one) => Some(one),
            _ => None,
        }
    }

    // The position of the enum of a type, also by another name of it.
    fn enum_of_type(&self, of: &Name) -> Option<usize> {
        let last = self.last.get(&of.text).and_then(|at| self.alias_at(*at));
        let of = last.map_or(&of.text, |field| &field.of.text);
        let at = *self.by_name.get(of)?;
        match self.file.items.get(at)? {
            Item::Enum(_) => Some(at),
            _ => None,
        }
    }
}

// The position of the enum of the tag of a select, if a part of a struct is one.
fn tag_of_part<'a>(
    alloc: Global,
    named: &Named<'a>,
    one: &'a Struct,
    part: &Part,
) -> Result<Option<usize>, AllocError> {
    match part {
        Part::Field(_) => Ok(None),
        Part::Select(select) => tag_of(alloc, named, one, select),
    }
}

// The position of the enum of a select's tag: the type of the field at the end of its path or, if the path is one name and
// no field has it, an enum of that name, also in small letters: `certificate_type` for `CertificateType`.
fn tag_of<'a>(
    alloc: Global,
    named: &Named<'a>,
    one: &'a Struct,
    select: &Select,
) -> Result<Option<usize>, AllocError> {
    let Some((last, words)) = select.path.split_last() else {
        return Ok(None);
    };
    match struct_on_path(named, one, words).and_then(|one| one.field(last)) {
        Some(field) => Ok(named.enum_of_type(&field.of)),
        None if words.is_empty() => {
            let small = in_small_letters(alloc, last.text.as_str())?;
            Ok(named.small.get(&small).copied())
        }
        None => Ok(None),
    }
}

// The struct at the end of a path: the one that the select is in, or another of this text, through fields.
fn struct_on_path<'a>(named: &Named<'a>, one: &'a Struct, words: &[Name]) -> Option<&'a Struct> {
    let Some((head, fields)) = words.split_first() else {
        return Some(one);
    };
    let mut one = named.struct_of(head)?;
    for word in fields {
        let field = one.field(word)?;
        one = named.struct_of(&field.of)?;
    }
    Some(one)
}

// A name in small letters, without what is between two words.
fn in_small_letters(alloc: Global, name: &str) -> Result<String, AllocError> {
    name.chars()
        .filter(|c| *c != '_')
        .map(|c| c.to_ascii_lowercase())
        .collect(alloc)
}
