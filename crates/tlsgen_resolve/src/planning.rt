//! The plan of a file.
ghost use Rattle.std.specs.Prelude.{IfOk};
ghost use Rattle.tlsgen_model.specs.Writable.{AreWritable, HaveModules};

use crate::checks::enum_body;
use crate::definitions::Definitions;
use crate::known::needs_outer_tag;
use crate::meanings::{settle, settle_notes};
use crate::naming::{definition_doc, type_name};
use crate::order::order_of;
use crate::others::{check_alone, tags_alone};
use crate::output::Output;
use crate::reject::rejected;
use crate::resolver::Resolver;
use crate::scope::{Index, Scope};
use crate::sequence::{Piece, Sequence};
use crate::types::{declared, type_of};
use std::alloc::{AllocError, Global};
use std::collections::BTreeSet;
use tlsgen_model::plan::{Alias, Plan};
use tlsgen_syntax::rejection::Trouble;
use tlsgen_syntax::syntax::{Enum, Field, File, Item};

// A short text may put a struct's parts in many places.
const MOST: usize = 100_000;

/// Why there is no plan.
#[derive(Drop)]
pub struct PlanError {
    /// The rejected file, by its position among the files.
    pub file: usize,
    /// It is the file's notes.
    pub is_note: bool,
    /// The crates before it that define the rejected name, by their positions among the files.
    pub homes: Vec<usize>,
    /// Why it is rejected. If memory was refused, or the generator has a fault, no file is to blame.
    pub trouble: Trouble,
}

/// What is written for the last of these files: each message after those that it contains. Each
/// file before it is another crate's, and the files after it may name its types. Each is resolved
/// once, in this order. This replaces each name that means a definition by the one spelling of that
/// definition.
///
/// A name means the definition of its own file, or else that of the one file before it that has one. It is the same without
/// its dots.
///
/// A file is rejected, with the place, for each of these: a type that nothing defines or that contains itself; a name
/// or a number twice; a word of Rust or of the definitions as a type's name; a number of more bytes than its enum's;
/// a vector, bounds or a constant that aren't kept; a select on a tag that isn't in the same bytes, a case that its
/// enum lacks; more fields than can be written in a row; an enum of another crate that isn't
/// written there, since it is a tag alone; a borrowed struct in one that isn't.
///
/// In what is made, each struct has at most 27 fields and each case at most 18, with names that differ; the numbers of
/// an enum and of the cases of a tag differ, and have the bytes of the enum or the tag: 1, 2, 4 or 8.
pub fn plan_of(alloc: Global, files: &mut [File]) -> Result<Plan, PlanError>
    ensures writable { IfOk result (λ plan. AreWritable plan.messages.items) }
    ensures differ { IfOk result (λ plan. HaveModules plan.messages.items) }
{
    plan_within(alloc, files, MOST)
}

/// The same, with at most `most` fields and cases in all, where `plan_of` allows 100,000.
pub fn plan_within(alloc: Global, files: &mut [File], most: usize) -> Result<Plan, PlanError>
    ensures writable { IfOk result (λ plan. AreWritable plan.messages.items) }
    ensures differ { IfOk result (λ plan. HaveModules plan.messages.items) }
{
    let definitions = match Definitions::new(alloc, files) {
        Ok(definitions) => definitions,
        Err(error) => return Err(out_of_memory(alloc, error)),
    };
    settle_all(alloc, &definitions, files)?;
    let index = match Index::new(alloc, files) {
        Ok(index) => index,
        Err(error) => return Err(out_of_memory(alloc, error)),
    };
    match resolved(alloc, &definitions, files, &index, most)?.into_plan(alloc) {
        Ok(plan) => Ok(plan),
        Err(error) => Err(out_of_memory(alloc, error)),
    }
}

// Puts in place of each name the one of the definition that it means.
fn settle_all(
    alloc: Global,
    definitions: &Definitions,
    files: &mut [File],
) -> Result<(), PlanError> {
    for (at, file) in files.iter_mut().enumerate() {
        if let Err(trouble) = settle(alloc, definitions, at, file) {
            return Err(error_of(alloc, definitions, at, false, trouble));
        }
        if let Err(trouble) = settle_notes(alloc, definitions, at, file) {
            return Err(error_of(alloc, definitions, at, true, trouble));
        }
    }
    Ok(())
}

// What is made of the files, with at most `most` fields and cases.
fn resolved(
    alloc: Global,
    definitions: &Definitions,
    files: &[File],
    index: &Index,
    most: usize,
) -> Result<Output, PlanError> {
    let all = Scope::new(files, index);
    let mut resolver = match Resolver::new(alloc, definitions, all, most) {
        Ok(resolver) => resolver,
        Err(error) => return Err(out_of_memory(alloc, error)),
    };
    for (at, file) in files.iter().enumerate() {
        if let Err(error) = resolver.enter(Scope::new(&files[..=at], index), at) {
            return Err(out_of_memory(alloc, error));
        }
        if let Err(trouble) = resolver.check_notes(file) {
            return Err(error_of(alloc, definitions, at, true, trouble));
        }
        if let Err(trouble) = resolver.resolve_file(file) {
            return Err(error_of(alloc, definitions, at, false, trouble));
        }
    }
    Ok(resolver.out)
}

fn error_of(
    alloc: Global,
    definitions: &Definitions,
    file: usize,
    is_note: bool,
    trouble: Trouble,
) -> PlanError {
    let homes = match &trouble {
        Trouble::Rejected(rejection) => {
            definitions.homes_before(alloc, file, rejection.found.as_str())
        }
        Trouble::Memory | Trouble::Inconsistent => Ok(Vec::new(alloc)),
    };
    match homes {
        Ok(homes) => PlanError {
            file,
            is_note,
            homes,
            trouble,
        },
        Err(error) => out_of_memory(alloc, error),
    }
}

fn out_of_memory(alloc: Global, error: AllocError) -> PlanError {
    PlanError {
        file: 0,
        is_note: false,
        homes: Vec::new(alloc),
        trouble: Trouble::from(error),
    }
}

impl<'a> Resolver<'a> {
    fn resolve_file(&mut self, file: &'a File) -> Result<(), Trouble> {
        self.add_modules(file)?;
        self.check_types(file)?;
        for at in &order_of(self.alloc, self.scope, file)? {
            if let Some(item) = file.items.get(*at) {
                self.resolve_item(item)?;
            }
        }
        self.check_filling()?;
        let alone = tags_alone(self.alloc, &self.out)?;
        self.out.leave_out(alone)?;
        check_alone(self.alloc, file, &self.out)
    }

    fn resolve_item(&mut self, item: &'a Item) -> Result<(), Trouble> {
        match item {
            Item::Enum(definition) => self.resolve_enum(definition),
            Item::Alias(field) => self.resolve_alias(field),
            Item::Struct(structure) => self.resolve_struct(structure),
        }
    }

    fn resolve_enum(&mut self, definition: &Enum) -> Result<(), Trouble> {
        let body = enum_body(self.alloc, definition)?;
        let name = &definition.name;
        let message = self.defined_message(name.text.as_str(), &name.remark, body)?;
        self.push(name.place, message)
    }

    fn resolve_alias(&mut self, field: &Field) -> Result<(), Trouble> {
        if needs_outer_tag(&self.known, field.of.text.as_str()) {
            return Err(self.rejected_name(
                &field.of,
                "a struct whose selects have their tags in it",
            ));
        }
        let declared = declared(self.alloc, field)?;
        self.out.aliases.push(Alias {
            name: type_name(self.alloc, field.name.text.as_str())?,
            of: type_of(self.alloc, self.scope, field)?,
            ends: false,
            home: self.out.home,
            doc: definition_doc(self.alloc, declared.as_str(), &field.name.remark)?,
        })?;
        Ok(())
    }

    // Rejects a struct that fills what is left of a length, and isn't a case after one.
    fn check_filling(&self) -> Result<(), Trouble> {
        let filled = filled_types(self.alloc, self.known.as_slice())?;
        for sequence in self.known.as_slice() {
            if sequence.is_filling && !filled.contains(sequence.name) {
                return Err(rejected(
                    self.alloc,
                    sequence.place,
                    sequence.name,
                    "a struct that is all of a case whose length counts the rest: a note says that it fills what is left",
                ));
            }
        }
        Ok(())
    }
}

// The types of cases in structs that have a length.
fn filled_types<'a>(
    alloc: Global,
    known: &[Sequence<'a>],
) -> Result<BTreeSet<&'a str>, AllocError> {
    let mut filled = BTreeSet::new(alloc);
    for sequence in known {
        if sequence
            .pieces
            .iter()
            .any(|piece| matches!(piece, Piece::Length(_)))
        {
            add_filled(&mut filled, sequence)?;
        }
    }
    Ok(filled)
}

fn add_filled<'a>(
    filled: &mut BTreeSet<&'a str>,
    sequence: &Sequence<'a>,
) -> Result<(), AllocError> {
    for piece in &sequence.pieces {
        if let Piece::Select(select) = piece {
            for field in select.cases.iter().flat_map(|case| case.fields.iter()) {
                filled.insert(field.of.text.as_str())?;
            }
        }
    }
    Ok(())
}
