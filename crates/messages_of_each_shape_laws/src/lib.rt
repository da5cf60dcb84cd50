//! That the messages of `messages_of_each_shape` are those of their text, `each_shape.tls`.
//!
//! Read its lines in `specs/Text.antt`, and in `specs/Says.antt` which field has which name.
//! Nothing here does anything when it runs.
#![tactic(auto)]

ghost use Rattle.std.specs.Prelude.{◌≡◌};
ghost use Rattle.tls_presentation.specs.Cut.{signs};
ghost use Rattle.tls_presentation.specs.Printed.{print, print_notes};
ghost use Rattle.messages_of_each_shape_laws.specs.Definitions.{definitions, notes};
ghost use Rattle.messages_of_each_shape_laws.specs.Notes.{notes_text};
ghost use Rattle.messages_of_each_shape_laws.specs.Text.{text};

pub mod laws_b_to_k;
pub mod laws_l_to_w;

/// The definitions and the notes are those of the text.
pub fn text_is_printed()
    ensures definitions { print definitions ≡ signs text }
    ensures notes { print_notes notes ≡ signs notes_text }
{}
