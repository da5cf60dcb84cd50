//! Replaces each name of a text that means a definition by the one spelling of that definition.
use crate::definitions::{Definitions, Meaning};
use crate::reject::rejected;
use std::alloc::Global;
use tlsgen_syntax::rejection::Trouble;
use tlsgen_syntax::syntax::{Field, File, Item, Name, Note, Part, Select, Struct, Vector};

/// Puts in place of each name in a file the one of the definition that it means. Rejects a name that the file doesn't define,
/// and several crates do.
pub fn settle(
    alloc: Global,
    definitions: &Definitions,
    at: usize,
    file: &mut File,
) -> Result<(), Trouble> {
    let settling = Settling {
        alloc,
        definitions,
        at,
    };
    for item in &mut file.items {
        settling.definition(item.name_mut())?;
        settling.item(item)?;
    }
    Ok(())
}

/// The same for the notes of a file.
pub fn settle_notes(
    alloc: Global,
    definitions: &Definitions,
    at: usize,
    file: &mut File,
) -> Result<(), Trouble> {
    let settling = Settling {
        alloc,
        definitions,
        at,
    };
    for note in &mut file.notes {
        settling.note(note)?;
    }
    Ok(())
}

// A file whose names are settled, by its position.
#[derive(Clone, Copy)]
struct Settling<'a> {
    alloc: Global,
    definitions: &'a Definitions,
    at: usize,
}

impl Settling<'_> {
    fn name(self, name: &mut Name) -> Result<(), Trouble> {
        match self
            .definitions
            .meaning(self.alloc, self.at, name.text.as_str())?
        {
            Meaning::Nothing => Ok(()),
            Meaning::One(own) => {
                if name.text != *own {
                    name.text = own.clone()?;
                }
                Ok(())
            }
            Meaning::Several => Err(rejected(
                self.alloc,
                name.place,
                name.text.as_str(),
                "a name that one of the crates given by --with has alone",
            )),
        }
    }

    fn definition(self, name: &mut Name) -> Result<(), Trouble> {
        if let Some(hidden) = self
            .definitions
            .hidden_name(self.alloc, self.at, &name.text)?
        {
            name.text = hidden.clone()?;
        }
        Ok(())
    }

    fn item(self, item: &mut Item) -> Result<(), Trouble> {
        match item {
            Item::Enum(_) => Ok(()),
            Item::Alias(field) => self.field(field),
            Item::Struct(one) => self.structure(one),
        }
    }

    fn structure(self, one: &mut Struct) -> Result<(), Trouble> {
        let mut fields = Vec::new(self.alloc);
        for part in &one.parts {
            if let Part::Field(field) = part {
                fields.push(field.name.text.clone()?)?;
            }
        }
        for part in &mut one.parts {
            match part {
                Part::Field(field) => self.field(field)?,
                Part::Select(select) => self.select(&fields, select)?,
            }
        }
        Ok(())
    }

    fn field(self, field: &mut Field) -> Result<(), Trouble> {
        self.name(&mut field.of)?;
        if let Vector::Counted(path) = &mut field.vector {
            self.path(path)?;
        }
        Ok(())
    }

    // The head of a path of several names is a struct's.
    fn path(self, path: &mut [Name]) -> Result<(), Trouble> {
        match path {
            [head, _, ..] => self.name(head),
            _ => Ok(()),
        }
    }

    // `fields`: those of the struct. Any other name alone is an enum's, also in small letters.
    fn select(self, fields: &[String], select: &mut Select) -> Result<(), Trouble> {
        match select.path.as_mut_slice() {
            [only] if fields.contains(&only.text) => {}
            [only] => self.tag(only)?,
            path => self.path(path)?,
        }
        for case in &mut select.cases {
            self.fields(&mut case.fields)?;
        }
        Ok(())
    }

    fn fields(self, fields: &mut [Field]) -> Result<(), Trouble> {
        for field in fields {
            self.field(field)?;
        }
        Ok(())
    }

    fn tag(self, name: &mut Name) -> Result<(), Trouble> {
        if let Some(hidden) = self.definitions.hidden_enum(self.at, name.text.as_str()) {
            name.text = hidden.clone()?;
            return Ok(());
        }
        self.name(name)
    }

    fn note(self, note: &mut Note) -> Result<(), Trouble> {
        self.path(&mut note.path)
    }
}
