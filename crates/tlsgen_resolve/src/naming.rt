//! The names of types in Rust, and those of the messages that are made for tags.
use crate::checks::type_module;
use crate::items::integer_width;
use crate::resolver::Resolver;
use crate::sequence::Sequence;
use std::alloc::{AllocError, Global};
use tlsgen_model::names::{module_name, variant_name};
use tlsgen_model::words::{is_module_word, is_type_word};
use tlsgen_syntax::rejection::Trouble;
use tlsgen_syntax::syntax::{Field, Name, Remark};

impl<'a> Resolver<'a> {
    /// The name of a tag's message: the one that is given, or that of the tag's type with `Data`, after the name of
    /// the struct if that is taken.
    pub fn choice_name(
        &self,
        of: &str,
        tag: &Field,
        given: Option<&Name>,
    ) -> Result<String, Trouble> {
        match given {
            Some(name) => self.free_name(name),
            None => {
                let base = base_name(self.alloc, tag)?;
                self.derived_name(of, base.as_str(), &tag.name)
            }
        }
    }

    /// A name that is given, unless a type has it.
    pub fn free_name(&self, name: &Name) -> Result<String, Trouble> {
        let module = type_module(self.alloc, name)?;
        if self.is_taken(&module) {
            return Err(self.rejected_name(name, "a name that no type has"));
        }
        Ok(type_name(self.alloc, name.text.as_str())?)
    }

    /// The name of a tag's type with `Data`, after the name of the struct if that is taken.
    pub fn derived_name(&self, of: &str, base: &str, tag: &Name) -> Result<String, Trouble> {
        let alloc = self.alloc;
        let of = type_name(alloc, of)?;
        let of = of.as_str();
        let short = format!(in alloc; "{base}Data")?;
        if !self.is_taken(&module_name(alloc, short.as_str())?) {
            return Ok(short);
        }
        let long = format!(in alloc; "{of}{base}Data")?;
        if !self.is_taken(&module_name(alloc, long.as_str())?) {
            return Ok(long);
        }
        Err(self.rejected_name(
            tag,
            "a name for what the tag and its selects become, after the select: `} NAME;`",
        ))
    }
}

/// The name of a field's type, or its own if that is an integer or bytes.
pub fn base_name(alloc: Global, field: &Field) -> Result<String, AllocError> {
    let of = field.of.text.as_str();
    if of == "opaque" || integer_width(of).is_some() {
        let words = underscored(alloc, field.name.text.as_str())?;
        return variant_name(alloc, words.as_str(), "");
    }
    type_name(alloc, of)
}

/// The name in Rust of a type. It has no dots, and is capitalized as a variant if it begins with a
/// small letter. `Type` is appended if it is a word of Rust, of the library or of the definitions.
pub fn type_name(alloc: Global, text: &str) -> Result<String, AllocError> {
    let mut own = if begins_small(text) {
        let words = underscored(alloc, text)?;
        variant_name(alloc, words.as_str(), "")?
    } else {
        text.chars().filter(|c| *c != '.').collect(alloc)?
    };
    if is_taken_type(alloc, own.as_str())? {
        own.push_str("Type")?;
    }
    Ok(own)
}

// Whether a type can't have this name: it, or its module, is a word of Rust, of the library or of the definitions.
fn is_taken_type(alloc: Global, name: &str) -> Result<bool, AllocError> {
    let module = module_name(alloc, name)?;
    Ok(is_type_word(name) || is_module_word(module.as_str()))
}

/// Whether a name after a select is the field's, and not the type's: it begins with a small letter.
pub fn is_of_field(name: &Name) -> bool {
    begins_small(name.text.as_str())
}

fn begins_small(text: &str) -> bool {
    text.as_bytes()
        .first()
        .is_some_and(|first| first.is_ascii_lowercase())
}

/// A name with `_` for each dot.
pub fn underscored(alloc: Global, text: &str) -> Result<String, AllocError> {
    text.chars()
        .map(|c| if c == '.' { '_' } else { c })
        .collect(alloc)
}

/// What the doc comment says of a definition that is shown so: its section, and the comments on it.
pub fn definition_doc(alloc: Global, shown: &str, remark: &Remark) -> Result<String, AllocError> {
    let section = section_doc(alloc, remark)?;
    let mut doc = format!(in alloc; "`{shown}`{section}.")?;
    push_comment(&mut doc, remark)?;
    Ok(doc)
}

/// A space and the section of a definition in parentheses, or nothing.
pub fn section_doc(alloc: Global, remark: &Remark) -> Result<String, AllocError> {
    let section = remark.section.as_str();
    if section.is_empty() {
        return Ok(String::new(alloc));
    }
    format!(in alloc; " ({section})")
}

/// Adds what comments say of a definition, as a paragraph of its own.
pub fn push_comment(doc: &mut String, remark: &Remark) -> Result<(), AllocError> {
    if remark.text.is_empty() {
        return Ok(());
    }
    doc.push_str("\n\n")?;
    doc.push_str(remark.text.as_str())
}

/// What the doc comment says of a tag and its selects.
pub fn choice_doc(
    alloc: Global,
    tag: &Field,
    sequence: &Sequence<'_>,
) -> Result<String, AllocError> {
    let of_tag = tag.of.text.as_str();
    let name = tag.name.text.as_str();
    let of = sequence.name;
    let section = section_doc(alloc, sequence.remark)?;
    format!(in alloc; "`{of_tag} {name}` of `{of}`{section}, and what comes after each.")
}
