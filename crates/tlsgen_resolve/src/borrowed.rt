//! Borrowed structs: which messages have references, and how many runs of fields they may have.
use crate::reject::rejected;
use crate::resolver::Resolver;
use crate::sequence::Sequence;
use tlsgen_model::borrowed::runs_of;
use tlsgen_model::plan::{Body, Element, Member};
use tlsgen_syntax::rejection::Trouble;

// The most runs of a struct.
const MAX_RUNS: usize = 3;

// The most runs of a case, which has its tag before them.
const MAX_CASE_RUNS: usize = 2;

/// Whether a message of a struct has references. One without fields has none.
pub fn has_references(sequence: &Sequence<'_>, body: &Body) -> bool {
    sequence.is_borrowed
        && match body {
            Body::Values { .. } => false,
            Body::Fields(fields) => !fields.is_empty(),
            Body::Choice { variants, .. } | Body::Sum { variants, .. } => {
                variants.iter().any(|variant| !variant.fields.is_empty())
            }
        }
}

impl<'a> Resolver<'a> {
    /// Rejects a message of a borrowed struct whose fields make too many runs.
    pub fn check_runs(&self, sequence: &Sequence<'_>, body: &Body) -> Result<(), Trouble> {
        match body {
            Body::Values { .. } => Ok(()),
            Body::Fields(fields) => self.check_row(sequence, fields, MAX_RUNS),
            Body::Choice { variants, .. } | Body::Sum { variants, .. } => {
                for variant in variants {
                    self.check_row(sequence, &variant.fields, MAX_CASE_RUNS)?;
                }
                Ok(())
            }
        }
    }

    fn check_row(
        &self,
        sequence: &Sequence<'_>,
        fields: &[Member],
        most: usize,
    ) -> Result<(), Trouble> {
        let mut are_borrowed = Vec::new(self.alloc);
        for field in fields {
            are_borrowed.push(self.is_borrowed(field))?;
        }
        if are_borrowed.contains(&true) && runs_of(self.alloc, &are_borrowed)?.len() > most {
            return Err(rejected(
                self.alloc,
                sequence.place,
                sequence.name,
                "at most 3 runs of fields in a borrowed struct, and 2 in a case: a borrowed field is a run of its own, and up to 9 others between are one",
            ));
        }
        Ok(())
    }

    fn is_borrowed(&self, field: &Member) -> bool {
        match &field.of.element {
            Element::Message(name) => self.out.is_borrowed(name),
            _ => false,
        }
    }
}
