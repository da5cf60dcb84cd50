//! What a text in the presentation language of TLS means (RFC 8446, section 3): `specs/` has four
//! pages and what they depend on.
//!
//! - `Definition`: what a text says, as data;
//! - `Printed`, with `Cut`: how that is printed, and how a text is cut into words, numbers and marks;
//! - `Meaning`, with `Names`, `Tags` and `Rows`: which bytes a definition says, under the formats of the names in it;
//! - `Says`: the bytes that a text says for a value, whose parts are found by their names.
//!
//! The crates of laws above say by these that written messages mean what the texts of RFCs do. Nothing
//! here does anything when it runs.
#![tactic(auto)]

ghost use Rattle.std.specs.Prelude.{◌≡◌, List};
ghost use Rattle.tls_presentation.specs.Definition.{Definition, Note};
ghost use Rattle.tls_presentation.specs.Printed.{print, print_notes};

pub mod examples;

/// Definitions that are printed alike are the same: a text that definitions print says nothing else.
#[tactic(auto, using(crate::proofs::InjectiveStructs::print_injects))]
pub fn printed_alike_is_alike()
    ensures { (x y : List Definition) → print x ≡ print y → x ≡ y }
{}

/// So are notes.
#[tactic(auto, using(crate::proofs::InjectiveNotes::notes_inject))]
pub fn notes_printed_alike_are_alike()
    ensures { (x y : List Note) → print_notes x ≡ print_notes y → x ≡ y }
{}
