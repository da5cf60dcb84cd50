//! The texts of a crate and of those that it is over.

use std::alloc::{AllocError, Global};
use tlsgen_model::plan::Plan;
use tlsgen_resolve::plan_of;
use tlsgen_resolve::planning::PlanError;
use tlsgen_syntax::noted::apply;
use tlsgen_syntax::parser::{parse, parse_notes};
use tlsgen_syntax::rejection::Trouble;
use tlsgen_syntax::syntax::File;

/// What texts say that were read one after another.
#[derive(Drop)]
pub struct Texts {
    files: Vec<File>,
    paths: Vec<String>,
    /// Those of the notes beside the texts, and nothing where there are none.
    notes: Vec<String>,
    /// The other crates.
    pub crates: Vec<String>,
    /// What the text that was added last says of itself.
    pub heading: String,
}

impl Texts {
    pub fn new(alloc: Global) -> Texts {
        Texts {
            files: Vec::new(alloc),
            paths: Vec::new(alloc),
            notes: Vec::new(alloc),
            crates: Vec::new(alloc),
            heading: String::new(alloc),
        }
    }

    /// Adds what a text says that was read from a path.
    pub fn add(&mut self, alloc: Global, path: &str, text: &str) -> Result<(), Trouble> {
        let file = parse(alloc, text)?;
        self.files.push(file)?;
        self.paths.push(String::from_str(alloc, path)?)?;
        self.notes.push(String::new(alloc))?;
        self.heading = String::from_str(alloc, heading_of(text))?;
        Ok(())
    }

    /// Adds notes, which were read from a path, to the text that was added last.
    pub fn add_notes(&mut self, alloc: Global, path: &str, text: &str) -> Result<(), Trouble> {
        let notes = parse_notes(alloc, text)?;
        if let Some(file) = self.files.last_mut() {
            apply(alloc, file, notes)?;
        }
        if let Some(last) = self.notes.last_mut() {
            last.push_str(path)?;
        }
        Ok(())
    }

    /// Says which crate the text is of that was added last.
    pub fn end_crate(&mut self, alloc: Global, name: &str) -> Result<(), AllocError> {
        self.crates.push(String::from_str(alloc, name)?)?;
        Ok(())
    }

    /// The plan of the crate whose text was added last, over those before.
    pub fn plan(&mut self, alloc: Global) -> Result<Plan, PlanError> {
        plan_of(alloc, &mut self.files)
    }

    /// The names of the crates that have what is rejected, such as `tls13, ct`.
    pub fn homes(&self, alloc: Global, error: &PlanError) -> Result<String, AllocError> {
        let mut names = String::new(alloc);
        for home in &error.homes {
            if let Some(name) = self.crates.get(*home) {
                if !names.is_empty() {
                    names.push_str(", ")?;
                }
                names.push_str(name.as_str())?;
            }
        }
        Ok(names)
    }

    /// The path of the rejected text, or of its notes.
    pub fn path(&self, error: &PlanError) -> &str {
        let paths = if error.is_note {
            &self.notes
        } else {
            &self.paths
        };
        match paths.get(error.file) {
            Some(path) => path.as_str(),
            None => "",
        }
    }
}

// The first sentence of the comment that a text begins with, up to the end of the line; nothing if it begins otherwise.
fn heading_of(text: &str) -> &str {
    let line = text.lines().next().unwrap_or("");
    let comment = line.strip_prefix("// ").unwrap_or("");
    match comment.split_once(". ") {
        Some((first, _)) => first,
        None => comment.strip_suffix(".").unwrap_or(comment),
    }
}
