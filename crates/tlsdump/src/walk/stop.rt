//! Where a walk can't go on.

ghost use Rattle.std.specs.Prelude.{◌≡◌};
ghost use Rattle.tlsdump.specs.declared.walk.stop.WalkError.TheVariants.{Memory};

use crate::walk::line::{Label, Line};
use std::alloc::{AllocError, AllocFailed, Global};
use tlsgen_syntax::syntax::{Enum, Field, Select};

/// The field at which a walk can't go on.
#[derive(Clone, Copy)]
pub struct Stop<'a> {
    /// The position of its first byte.
    pub at: usize,
    /// How many structs and lists it is in.
    pub depth: usize,
    pub label: Label<'a>,
    pub expected: Expected<'a>,
    pub found: Found,
}

/// What is expected at a field.
#[derive(Clone, Copy)]
pub enum Expected<'a> {
    /// What the field is declared as.
    Field(&'a Field),
    /// A type.
    Type(&'a str),
    /// A value of an enum.
    Value(&'a Enum),
    /// A value for which there is a case.
    Case(&'a Select),
    /// 0 or 1, before a value of this type.
    Tag(&'a str),
    /// The end of this.
    End(&'a str),
}

/// What is there.
#[derive(Clone, Copy)]
pub enum Found {
    /// This number of bytes, and no more.
    Left(usize),
    /// The number of bytes that a length announces, and the number of bytes after it.
    Announced(usize, usize),
    /// A length out of its bounds.
    Length(usize),
    /// A length in more bytes than it needs, or one of 2^30 or more.
    Spelling,
    /// A number.
    Number(u64),
    /// What the decoder rejects, and the walk doesn't: a field, or all that begins with it.
    Rejected,
}

/// Why a step isn't made.
#[derive(Clone, Copy)]
pub enum WalkError<'a> {
    Stop(Stop<'a>),
    /// Memory was refused.
    Memory,
}

impl From<AllocError> for WalkError<'_> {
    ghost from_gives = { λ _ error. error ≡ Memory };

    fn from(_error: AllocError) -> Self {
        WalkError::Memory
    }
}

impl<T: Drop> From<AllocFailed<T>> for WalkError<'_> {
    ghost from_gives = { λ _ error. error ≡ Memory };

    fn from(_error: AllocFailed<T>) -> Self {
        WalkError::Memory
    }
}

/// The labels of the lines that a field at this depth is in, from the outermost one. The first line
/// is the message itself.
pub fn path<'a>(
    alloc: Global,
    lines: &[Line<'a>],
    depth: usize,
) -> Result<Vec<Label<'a>>, AllocError> {
    let mut labels = Vec::new(alloc);
    let mut above = depth;
    for line in lines.iter().rev() {
        if line.depth < above && line.depth > 0 {
            labels.push(line.label)?;
            above = line.depth;
        }
    }
    labels.reverse();
    Ok(labels)
}
