//! A field, as what stands for the holes of its texts.

use crate::docs::doc;
use crate::owners::Owner;
use crate::template::Holes;
use crate::types::Words;
use std::alloc::{AllocError, Global};
use tlsgen_model::plan::Member;

/// A field, as the holes of its type and `name`, `declared`, `comment`, `type`, `tree_of` and `alike`.
#[derive(Drop)]
pub struct Field {
    /// It is borrowed itself, and so has references and is none.
    pub is_borrowed: bool,
    pub is_array: bool,
    /// It is no number, no array and no enum of numbers.
    pub is_moved: bool,
    pub holes: Holes,
}

impl Field {
    pub fn of<'a>(
        alloc: Global,
        owner: Owner,
        is_borrowed: bool,
        at: usize,
        member: &'a Member,
        words: Words<'a>,
        is_copied: bool,
    ) -> Result<Field, AllocError> {
        let format = words.texts.filled(alloc, "$format$")?;
        let is_array = format.starts_with("array_format");
        let is_number = format.starts_with("number_format");
        let mut field = Field {
            is_borrowed: words.is_borrowed,
            is_array,
            is_moved: !is_array && !is_number && !is_copied,
            holes: words.texts,
        };
        let (now, reference) = if is_borrowed && !field.is_borrowed {
            (".now", "&'a ")
        } else {
            ("", "")
        };
        let texts = [
            ("name", member.name.as_str()),
            ("declared", member.declared.as_str()),
            ("named", words.named.unwrap_or("")),
            ("now", now),
            ("reference", reference),
        ];
        field.holes.set_all(alloc, &texts)?;
        field
            .holes
            .set("comment", doc(alloc, member.comment.as_str())?)?;
        field.holes.set_number(alloc, "at", at as u64)?;
        field.set_values(alloc, owner)?;
        let own = if is_borrowed {
            "self.$name$"
        } else {
            "&self.$name$"
        };
        field.holes.set_each(alloc, &[("own", own)])?;
        let parts = owner.parts(member, field.is_borrowed);
        field.holes.set_each(alloc, parts)?;
        Ok(field)
    }

    /// The text of a template, and of the holes in what stands for its own.
    pub fn text(&self, alloc: Global, template: &str) -> Result<String, AllocError> {
        let text = self.holes.filled(alloc, template)?;
        self.holes.filled(alloc, text.as_str())
    }

    // Sets what is said of values. In a clause no lifetime is declared.
    fn set_values(&mut self, alloc: Global, owner: Owner) -> Result<(), AllocError> {
        self.holes.set_each(alloc, owner.values())?;
        let compared = if self.is_borrowed {
            "$named$<'static>"
        } else {
            "$rust$"
        };
        let tree = self.holes.filled(alloc, "$tree$")?;
        let texts = [
            ("compared", compared),
            ("alike", "⟦<$compared$ as PartialEq>⟧.eq $left$ $right$"),
            ("type", "$reference$$rust$"),
            ("tree_of", tree.as_str()),
        ];
        self.holes.set_each(alloc, &texts)
    }
}

/// A text for each field, with another between each two.
pub fn listed(
    alloc: Global,
    fields: &[Field],
    template: &str,
    between: &str,
) -> Result<String, AllocError> {
    let mut out = String::new(alloc);
    for (i, field) in fields.iter().enumerate() {
        if i > 0 {
            out.push_str(between)?;
        }
        field.holes.push(alloc, &mut out, template)?;
    }
    Ok(out)
}
