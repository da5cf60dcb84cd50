//! That the messages of `mls_group` are those of their text, `mls_group.tls`.
//!
//! Read its lines in `specs/Text.antt`, and in `specs/Says.antt` which field has which name.
//! Nothing here does anything when it runs.
#![tactic(auto)]

ghost use Rattle.std.specs.Prelude.{◌≡◌};
ghost use Rattle.tls_presentation.specs.Cut.{signs};
ghost use Rattle.tls_presentation.specs.Printed.{print, print_notes};
ghost use Rattle.mls_group_laws.specs.Definitions.{definitions, notes};
ghost use Rattle.mls_group_laws.specs.Notes.{notes_text};
ghost use Rattle.mls_group_laws.specs.Text.{text};

pub mod laws;

/// The definitions and the notes are those of the text.
pub fn text_is_printed()
    ensures definitions { print definitions ≡ signs text }
    ensures notes { print_notes notes ≡ signs notes_text }
{}
