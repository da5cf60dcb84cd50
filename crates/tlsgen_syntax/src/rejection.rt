//! Where and why a text is rejected.
ghost use Rattle.std.specs.Prelude.{◌≡◌};
ghost use Rattle.tlsgen_syntax.specs.declared.rejection.Trouble.TheVariants.{Memory};

use std::alloc::{AllocError, AllocFailed};
use std::fmt;

/// A place in a text: the line and the column of a character, from 1. A column counts bytes.
#[derive(Clone, Copy)]
pub struct Place {
    pub line: usize,
    pub column: usize,
}

impl Place {
    /// Where a text begins.
    pub const START: Place = Place { line: 1, column: 1 };

    /// Where a text ends.
    pub fn end_of(text: &str) -> Place {
        text.bytes()
            .fold(Place::START, |place, byte| place.after(byte))
    }

    /// The place of what follows a byte at this place. A number past `usize::MAX` stays there.
    pub(crate) fn after(self, byte: u8) -> Place {
        if byte == b'\n' {
            Place {
                line: self.line.saturating_add(1),
                column: 1,
            }
        } else {
            Place {
                line: self.line,
                column: self.column.saturating_add(1),
            }
        }
    }
}

/// Where a text is rejected, what it has there, and what would be right.
///
/// It prints as `line 3, column 7: found ";", expected the name of a type`.
#[derive(Drop)]
pub struct Rejection {
    pub place: Place,
    /// What the text has there: a word, a number or a mark. Nothing at its end.
    pub found: String,
    /// What would be right.
    pub expected: &'static str,
}

impl fmt::Display for Rejection {
    fn fmt<W: fmt::Write>(&self, f: &mut fmt::Formatter<W>) -> fmt::Result {
        let line = self.place.line;
        let column = self.place.column;
        let found = self.found.as_str();
        let expected = self.expected;
        if found.is_empty() {
            return write!(
                f,
                "line {line}, column {column}: found the end, expected {expected}"
            );
        }
        write!(
            f,
            "line {line}, column {column}: found \"{found}\", expected {expected}"
        )
    }
}

/// Why nothing is written.
#[derive(Drop)]
pub enum Trouble {
    /// The text is rejected.
    Rejected(Rejection),
    /// Memory was refused.
    Memory,
    /// A fault of the generator, and not of the text: what it made isn't as its own code expects.
    Inconsistent,
}

impl Trouble {
    /// An error at a place, or `Memory` if the text of what was found could not be made.
    pub(crate) fn at(
        place: Place,
        found: Result<String, AllocError>,
        expected: &'static str,
    ) -> Trouble {
        match found {
            Ok(found) => Trouble::Rejected(Rejection {
                place,
                found,
                expected,
            }),
            Err(error) => Trouble::from(error),
        }
    }
}

impl From<AllocError> for Trouble {
    ghost from_gives = { λ _ trouble. trouble ≡ Memory };

    fn from(_error: AllocError) -> Trouble {
        Trouble::Memory
    }
}

impl<T: Drop> From<AllocFailed<T>> for Trouble {
    ghost from_gives = { λ _ trouble. trouble ≡ Memory };

    fn from(_error: AllocFailed<T>) -> Trouble {
        Trouble::Memory
    }
}
