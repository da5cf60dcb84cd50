//! The names that a message brings in.

use crate::types::Words;
use std::alloc::{AllocError, Global};

/// The names that the types of a message's fields bring in, each once.
#[derive(Drop)]
pub struct Uses<'a> {
    /// The message itself, which brings in nothing.
    own: &'a str,
    /// Types of the crate.
    pub types: Vec<&'a str>,
    /// Messages whose definitions are cited.
    pub cited: Vec<&'a str>,
    /// The enums whose numbers decide the message's parts.
    pub selected: Vec<&'a str>,
    /// The message that holds the tags of fields after it.
    pub giver: Option<&'a str>,
    /// Messages, and the tags that they hold, whose definitions are cited.
    pub held: Vec<(&'a str, &'a str)>,
}

impl<'a> Uses<'a> {
    /// Those of no field.
    pub fn new(alloc: Global, own: &'a str) -> Uses<'a> {
        Uses {
            own,
            types: Vec::new(alloc),
            cited: Vec::new(alloc),
            selected: Vec::new(alloc),
            giver: None,
            held: Vec::new(alloc),
        }
    }

    /// Adds those of a type.
    pub fn add(&mut self, words: &Words<'a>) -> Result<(), AllocError> {
        self.add_type(words.named)?;
        push_once(&mut self.cited, self.own, words.cited)
    }

    /// Adds a type of the crate.
    pub fn add_type(&mut self, name: Option<&'a str>) -> Result<(), AllocError> {
        push_once(&mut self.types, self.own, name)
    }

    /// Adds an enum whose number decides parts.
    pub fn add_selected(&mut self, name: &'a str) -> Result<(), AllocError> {
        push_once(&mut self.selected, self.own, Some(name))
    }

    /// Adds the definition of a tag in a message that holds it.
    pub fn add_held(&mut self, holder: &'a str, tag: &'a str) -> Result<(), AllocError> {
        if !self.held.as_slice().contains(&(holder, tag)) {
            self.held.push((holder, tag))?;
        }
        Ok(())
    }
}

// Adds a name that isn't there, and isn't the message's own.
fn push_once<'a>(
    names: &mut Vec<&'a str>,
    own: &str,
    name: Option<&'a str>,
) -> Result<(), AllocError> {
    if let Some(name) = name {
        if name != own && !names.as_slice().contains(&name) {
            names.push(name)?;
        }
    }
    Ok(())
}
