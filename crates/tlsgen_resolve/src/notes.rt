//! What the notes beside a text say: a length, a size or a tag that the RFC's prose gives.
use crate::counted::{is_length, path_of_array};
use crate::ending::ending_of;
use crate::naming::is_of_field;
use crate::padding::Padding;
use crate::reject::rejected;
use crate::resolver::Resolver;
use crate::scope::Scope;
use std::alloc::{AllocError, Global};
use std::collections::BTreeSet;
use tlsgen_syntax::rejection::Trouble;
use tlsgen_syntax::syntax::{
    Case, Field, File, Item, Label, Name, Note, Number, Part, Said, Select, Struct,
};

/// The number that a note gives for a name between an array's brackets.
pub fn number_of_path(scope: Scope<'_>, path: &[Name]) -> Option<Number> {
    let first = path.first()?;
    for at in scope.notes(first.text.as_str()) {
        let note = scope.note(*at)?;
        match note.said {
            Said::Number(number) if are_same(&note.path, path) => return Some(number),
            _ => {}
        }
    }
    None
}

fn are_same(own: &[Name], path: &[Name]) -> bool {
    own.len() == path.len()
        && own
            .iter()
            .zip(path.iter())
            .all(|(one, other)| one.text == other.text)
}

/// What a note says of a name in a struct.
pub fn said_of<'a>(scope: Scope<'a>, of: &Name, name: &Name) -> Option<&'a Said> {
    for at in scope.notes(of.text.as_str()) {
        let note = scope.note(*at)?;
        if is_of(&note.path, of, name) && !matches!(note.said, Said::Called(_)) {
            return Some(&note.said);
        }
    }
    None
}

fn is_of(path: &[Name], of: &Name, name: &Name) -> bool {
    is_of_names(path, of.text.as_str(), name)
}

fn is_of_names(path: &[Name], of: &str, name: &Name) -> bool {
    match path {
        [first, second] => first.text.as_str() == of && second.text == name.text,
        _ => false,
    }
}

/// Whether a part of a struct is a number that counts the bytes of the select directly after it.
pub fn counts_select(scope: Scope<'_>, one: &Struct, at: usize) -> bool {
    let (Some(Part::Field(length)), Some(Part::Select(_))) = (
        one.parts.get(at),
        one.parts.get(at.saturating_add(1)),
    ) else {
        return false;
    };
    is_length(length) && matches!(said_of(scope, &one.name, &length.name), Some(Said::Counts))
}

/// The one field of a struct, if it is bytes that fill what is left.
pub fn filling_field<'a>(scope: Scope<'_>, one: &'a Struct) -> Option<&'a Field> {
    let [part] = one.parts.as_slice() else {
        return None;
    };
    let Part::Field(field) = part else {
        return None;
    };
    let fills = matches!(said_of(scope, &one.name, &field.name), Some(Said::Fills));
    if fills && field.of.text.as_str() == "opaque" && path_of_array(field).is_some() {
        Some(field)
    } else {
        None
    }
}

/// The field at the end of a struct that goes to the end of what is read, if it has one.
pub fn padding_of<'a>(scope: Scope<'_>, one: &'a Struct) -> Option<Padding<'a>> {
    if let Some(ending) = ending_of(scope, one) {
        return Some(Padding::AfterType(ending.zeros));
    }
    let Some(Part::Field(field)) = one.parts.last() else {
        return None;
    };
    if !is_padding(scope, one, field) {
        return None;
    }
    match said_of(scope, &one.name, &field.name) {
        Some(Said::Pads) => Some(Padding::Zeros(field)),
        _ => Some(Padding::Bytes(field)),
    }
}

/// Whether a field of a struct goes to the end of what is read.
pub fn is_padding(scope: Scope<'_>, one: &Struct, field: &Field) -> bool {
    let goes_on = match said_of(scope, &one.name, &field.name) {
        Some(Said::Pads) => true,
        Some(Said::Fills) => one.parts.len() > 1,
        _ => false,
    };
    goes_on && is_sized_by_name(field)
}

/// Whether a field is bytes, as many as a name between its brackets says.
pub fn is_sized_by_name(field: &Field) -> bool {
    matches!(field.of.text.as_str(), "opaque" | "uint8" | "uint8_t")
        && path_of_array(field).is_some()
}

/// The name that a note gives a select of a struct: of its field, with a small letter, or of its type.
pub fn name_of_select<'a>(
    scope: Scope<'a>,
    of: &str,
    select: &Select,
    is_field: bool,
) -> Option<&'a Name> {
    let tag = select.path.last()?;
    for at in scope.notes(of) {
        let note = scope.note(*at)?;
        match &note.said {
            Said::Called(name)
                if is_of_names(&note.path, of, tag) && is_of_field(name) == is_field => {
                return Some(name);
            }
            _ => {}
        }
    }
    None
}

/// The only case of a select whose tag is elsewhere and always has one value.
pub fn settled_case<'a>(scope: Scope<'_>, one: &Struct, select: &'a Select) -> Option<&'a Case> {
    let [tag] = select.path.as_slice() else {
        return None;
    };
    let Some(Said::Named(value)) = said_of(scope, &one.name, tag) else {
        return None;
    };
    select.cases.iter().find(|case| has_label(case, value))
}

fn has_label(case: &Case, value: &Name) -> bool {
    case.labels.iter().any(|label| match label {
        Label::Name(name) => name.text == value.text,
        Label::Number(_) => false,
    })
}

impl<'a> Resolver<'a> {
    /// Rejects a note of the file that says nothing of it.
    pub fn check_notes(&self, file: &File) -> Result<(), Trouble> {
        let sizes = sizes_of(self.alloc, file)?;
        for note in &file.notes {
            if let Some(expected) = self.unused(file, &sizes, note)? {
                return Err(rejected_note(self.alloc, note, expected));
            }
        }
        Ok(())
    }

    // What a note should have been, if it says nothing of the file. `sizes`: the names between the file's brackets.
    fn unused(
        &self,
        file: &File,
        sizes: &BTreeSet<String>,
        note: &Note,
    ) -> Result<Option<&'static str>, AllocError> {
        let is_used = match &note.said {
            Said::Number(_) => {
                self.is_value(file, &note.path) || sizes.contains(&joined(self.alloc, &note.path)?)
            }
            Said::Open | Said::Closed | Said::Borrowed | Said::LeftOut => true,
            said => match self.item_of(file, &note.path) {
                Some(Item::Struct(one)) => self.is_said_of(one, note, said),
                _ => false,
            },
        };
        Ok(if is_used { None } else { expected(&note.said) })
    }

    // The definition of the file whose name is the first one of a path.
    fn item_of<'b>(&self, file: &'b File, path: &[Name]) -> Option<&'b Item> {
        let first = path.first()?;
        let at = self.scope.position(first.text.as_str())?;
        file.items.get(at)
    }

    // Whether a path is that of a value of an enum of the file. Only notes that made an enum give one values.
    fn is_value(&self, file: &File, path: &[Name]) -> bool {
        path.len() == 2 && matches!(self.item_of(file, path), Some(Item::Enum(_)))
    }

    // Whether a note is of a part of a struct that takes it.
    fn is_said_of(&self, one: &Struct, note: &Note, said: &Said) -> bool {
        one.parts.iter().enumerate().any(|(at, part)| match (part, said) {
            (Part::Field(field), Said::Counts) => {
                is_of(&note.path, &one.name, &field.name) && counts_select(self.scope, one, at)
            }
            (Part::Field(field), Said::Fills | Said::Pads) => {
                is_of(&note.path, &one.name, &field.name)
                    && at.saturating_add(1) == one.parts.len()
                    && (filling_field(self.scope, one).is_some()
                        || is_padding(self.scope, one, field))
            }
            (Part::Field(field), Said::Ends(_)) => {
                is_of(&note.path, &one.name, &field.name) && ending_of(self.scope, one).is_some()
            }
            (Part::Select(select), Said::Called(_)) => {
                select.name.is_none()
                    && select
                        .path
                        .last()
                        .is_some_and(|tag| is_of(&note.path, &one.name, tag))
            }
            (Part::Select(select), Said::Named(_)) => {
                is_of_select(&note.path, &one.name, select)
                    && settled_case(self.scope, one, select).is_some()
            }
            _ => false,
        })
    }
}

// What a note is on. `apply` rejects one on an enum, a struct or a definition that isn't there.
fn expected(said: &Said) -> Option<&'static str> {
    match said {
        Said::Number(_) => Some(
            "the name between an array's brackets, as `Hash.length`, or an integer type of this text and a value's name",
        ),
        Said::Named(_) => Some(
            "a struct of this text and the tag of a select in it, which no field is, and a case of the select",
        ),
        Said::Counts => Some(
            "a struct of this text and a field of it, an integer of 1 to 4 bytes right before a select",
        ),
        Said::Fills => Some(
            "a struct of this text and its last or its only field, as `opaque verify_data[Hash.length]`",
        ),
        Said::Pads => Some(
            "a struct of this text and its last field, as `opaque padding[length_of_padding]`",
        ),
        Said::Ends(_) => Some(
            "a struct of this text of three fields, as `opaque content[length]; ContentType type; uint8 zeros[length_of_padding];`, and the second and the first of them",
        ),
        Said::Called(_) => Some(
            "a struct of this text and the tag of a select in it that has no name",
        ),
        Said::Open | Said::Closed | Said::Borrowed | Said::LeftOut => None,
    }
}

fn is_of_select(path: &[Name], of: &Name, select: &Select) -> bool {
    match select.path.as_slice() {
        [tag] => is_of(path, of, tag),
        _ => false,
    }
}

// The names between the brackets of a file's arrays.
fn sizes_of(alloc: Global, file: &File) -> Result<BTreeSet<String>, AllocError> {
    let mut sizes = BTreeSet::new(alloc);
    for item in &file.items {
        match item {
            Item::Enum(_) => {}
            Item::Alias(field) => add_size(alloc, &mut sizes, field)?,
            Item::Struct(one) => {
                for part in &one.parts {
                    add_sizes(alloc, &mut sizes, part)?;
                }
            }
        }
    }
    Ok(sizes)
}

fn add_sizes(alloc: Global, sizes: &mut BTreeSet<String>, part: &Part) -> Result<(), AllocError> {
    match part {
        Part::Field(field) => add_size(alloc, sizes, field),
        Part::Select(select) => {
            for field in select.cases.iter().flat_map(|case| case.fields.iter()) {
                add_size(alloc, sizes, field)?;
            }
            Ok(())
        }
    }
}

fn add_size(alloc: Global, sizes: &mut BTreeSet<String>, field: &Field) -> Result<(), AllocError> {
    if let Some(path) = path_of_array(field) {
        sizes.insert(joined(alloc, path)?)?;
    }
    Ok(())
}

// The names of a path, with a space between two.
fn joined(alloc: Global, path: &[Name]) -> Result<String, AllocError> {
    let mut text = String::new(alloc);
    for name in path {
        if !text.is_empty() {
            text.push(' ')?;
        }
        text.push_str(name.text.as_str())?;
    }
    Ok(text)
}

fn rejected_note(alloc: Global, note: &Note, expected: &'static str) -> Trouble {
    match note.path.first() {
        Some(name) => rejected(alloc, name.place, name.text.as_str(), expected),
        None => Trouble::Inconsistent,
    }
}
