//! Walks over the bytes of a message, as a text in the presentation language of TLS says what they
//! are.
//!
//! The lines of a walk show the message a field a line. Each line has the bytes that it alone
//! shows: put in a row, those of all lines are what was walked over. A walk that can't go on says
//! at which field, and what is expected there.
//!
//! - [`definitions`]: [`Definitions`](definitions::Definitions), those of some texts by their names.
//! - [`line`]: [`Line`](line::Line), a field with its bytes.
//! - [`stop`]: [`Stop`](stop::Stop), where a walk can't go on, and why.
ghost use Rattle.std.specs.Prelude.{◌≡◌, ◌++◌, IfOk, IfSome};
ghost use Rattle.tlsdump.specs.Rows.{ShowsInOrder, row};

pub mod definitions;
mod fields;
pub mod line;
mod opened;
mod scope;
mod selects;
pub mod stop;
mod tasks;
mod vectors;

use crate::walk::definitions::{Definition, Definitions};
use crate::walk::line::{Label, Line, Shown};
use crate::walk::opened::role_of;
use crate::walk::scope::{Known, Scope};
use crate::walk::stop::{Expected, Found, Stop, WalkError};
use crate::walk::tasks::{Place, Task};
use std::alloc::{AllocError, Global};

/// What was walked over.
#[derive(Drop)]
pub struct Walked<'a> {
    pub lines: Vec<Line<'a>>,
    /// Where the walk can't go on, if it can't.
    pub stop: Option<Stop<'a>>,
}

/// A walk that is under way.
#[derive(Drop)]
pub(crate) struct Walk<'a> {
    pub definitions: &'a Definitions,
    pub lines: Vec<Line<'a>>,
    /// What is left of the innermost length.
    pub rest: &'a [u8],
    /// How many bytes were taken.
    pub at: usize,
    /// Where the decoder rejects a field.
    pub rejected_at: usize,
    pub tasks: Vec<Task<'a>>,
    pub scope: Scope<'a>,
    pub openings: Vec<Opening<'a>>,
}

/// Bytes that are walked over as a type, and shown as bytes if that stops.
#[derive(Clone, Copy)]
pub(crate) struct Opening<'a> {
    /// The position of their line.
    pub line: usize,
    /// Their line if it stops.
    pub closed: Line<'a>,
    /// How many tasks come after them.
    pub tasks: usize,
    /// What comes after them, and its position.
    pub after: &'a [u8],
    pub at: usize,
}

/// The lines of bytes of a type. A decoder may reject a field: the walk stops there, if it didn't
/// before. If it rejects none, the lines show all bytes: if the walk stops all the same, one line
/// shows them.
pub fn lines_of<'a>(
    alloc: Global,
    definitions: &'a Definitions,
    of: &'a str,
    bytes: &'a [u8],
    rejected_at: Option<usize>,
) -> Result<Walked<'a>, AllocError>
    ensures { IfOk result (ShowsInOrder bytes.now rejected_at) }
{
    let walked = walk_over(alloc, definitions, of, bytes, rejected_at)?;
    match after_lines(walked.lines.as_slice(), bytes) {
        Some(rest) if rest.is_empty() || rejected_at.is_some() => Ok(walked),
        _ => unread(alloc, bytes, walked.stop),
    }
}

// The bytes as one line: nothing is known about them.
fn unread<'a>(
    alloc: Global,
    bytes: &'a [u8],
    stop: Option<Stop<'a>>,
) -> Result<Walked<'a>, AllocError>
    ensures { IfOk result (λ walked. row walked.lines.items ≡ bytes.now) }
{
    let mut lines = Vec::new(alloc);
    lines.push(Line {
        depth: 0,
        label: ROOT.label,
        bytes,
        shown: Shown::Unread,
    })?;
    Ok(Walked { lines, stop })
}

// What comes after the bytes of the lines, if `bytes` begins with these in a row.
fn after_lines<'a>(lines: &[Line<'_>], bytes: &'a [u8]) -> Option<&'a [u8]>
    ensures { IfSome result (λ rest. bytes.now ≡ row lines.now ++ rest.now) }
{
    let mut rest = bytes;
    for line in lines {
        let Some(behind) = after(line.bytes, rest) else {
            return None;
        };
        rest = behind;
    }
    Some(rest)
}

// What comes after `front`, if `bytes` begins with it.
fn after<'a>(front: &[u8], bytes: &'a [u8]) -> Option<&'a [u8]>
    ensures { IfSome result (λ rest. bytes.now ≡ front.now ++ rest.now) }
{
    match bytes.split_at_checked(front.len()) {
        Some((first, rest)) if first == front => Some(rest),
        _ => None,
    }
}

fn walk_over<'a>(
    alloc: Global,
    definitions: &'a Definitions,
    of: &'a str,
    bytes: &'a [u8],
    rejected_at: Option<usize>,
) -> Result<Walked<'a>, AllocError> {
    let mut walk = Walk {
        definitions,
        lines: Vec::new(alloc),
        rest: bytes,
        at: 0,
        rejected_at: rejected_at.unwrap_or(usize::MAX),
        tasks: Vec::new(alloc),
        scope: Scope::new(alloc),
        openings: Vec::new(alloc),
    };
    match walk.run(of) {
        Ok(()) => walk.ended(rejected_at.is_some()),
        Err(WalkError::Stop(stop)) => Ok(walk.stopped(stop)),
        Err(WalkError::Memory) => Err(AllocError),
    }
}

impl<'a> Walk<'a> {
    // Walks over all that there is of a type.
    fn run(&mut self, of: &'a str) -> Result<(), WalkError<'a>> {
        if let Some((name, number)) = role_of(of) {
            self.scope.set(Known {
                owner: "Handshake",
                field: "msg_type",
                of: "HandshakeType",
                number,
                name: Some(name),
            })?;
        }
        let place = ROOT;
        self.typed(place, of, "", Expected::Type(of))?;
        for _ in 0..u64::MAX {
            let Some(task) = self.tasks.pop() else {
                break;
            };
            if let Err(error) = self.step(task) {
                self.fall_back(error)?;
            }
        }
        Ok(())
    }

    fn step(&mut self, task: Task<'a>) -> Result<(), WalkError<'a>> {
        match task {
            Task::Field(place, field) => self.field(place, field),
            Task::Value(place, field) => self.value(place, field),
            Task::Select(place, select) => self.select(place, select),
            Task::Elements(place, elements) => self.elements(place, elements),
            Task::Leave(place, leave) => self.leave(place, leave),
        }
    }

    // Goes back to the innermost bytes that were opened, and shows them as bytes.
    fn fall_back(&mut self, error: WalkError<'a>) -> Result<(), WalkError<'a>> {
        if let WalkError::Memory = error {
            return Err(error);
        }
        let Some(opening) = self.openings.pop() else {
            return Err(error);
        };
        self.lines.truncate(opening.line);
        self.lines.push(opening.closed)?;
        self.tasks.truncate(opening.tasks);
        self.rest = opening.after;
        self.at = opening.at;
        Ok(())
    }

    // What was walked over, and what is left as a line.
    fn ended(self, is_rejected: bool) -> Result<Walked<'a>, AllocError> {
        let rest = self.rest;
        let stop = Stop {
            at: self.at,
            depth: 0,
            label: ROOT.label,
            expected: Expected::End("message"),
            found: Found::Rejected,
        };
        let mut lines = self.lines;
        if !rest.is_empty() {
            lines.push(Line {
                depth: 0,
                label: Label::Field("rest"),
                bytes: rest,
                shown: Shown::Unread,
            })?;
        }
        Ok(Walked {
            lines,
            stop: if is_rejected { Some(stop) } else { None },
        })
    }

    // What was walked over before a stop. Lists that it is in are cut.
    fn stopped(self, stop: Stop<'a>) -> Walked<'a> {
        let mut lines = self.lines;
        for task in &self.tasks {
            cut(lines.as_mut_slice(), task);
        }
        Walked {
            lines,
            stop: Some(stop),
        }
    }

    /// Takes `count` bytes, if there are that many.
    pub(crate) fn take(&mut self, count: usize) -> Option<&'a [u8]> {
        let (front, rest) = self.rest.split_at_checked(count)?;
        self.rest = rest;
        self.at = self.at.saturating_add(count);
        Some(front)
    }

    /// Adds a line.
    pub(crate) fn add(
        &mut self,
        place: Place<'a>,
        bytes: &'a [u8],
        shown: Shown<'a>,
    ) -> Result<(), WalkError<'a>> {
        self.lines.push(Line {
            depth: place.depth,
            label: place.label,
            bytes,
            shown,
        })?;
        Ok(())
    }

    /// Stops if a field at this position is the one that the decoder rejects, or is after it.
    pub(crate) fn stop_if_rejected(
        &self,
        place: Place<'a>,
        at: usize,
        expected: Expected<'a>,
        found: Found,
    ) -> Result<(), WalkError<'a>> {
        if at >= self.rejected_at {
            return Err(stop_at(place, at, expected, found));
        }
        Ok(())
    }

    /// What a type's name stands for.
    pub(crate) fn definition(&self, name: &str) -> Definition<'a> {
        self.definitions.definition(name)
    }
}

// The message as a whole.
const ROOT: Place<'static> = Place {
    owner: "",
    label: Label::Field("message"),
    depth: 0,
};

// Marks the list that a task would go on with as one that ends in its last element.
fn cut(lines: &mut [Line<'_>], task: &Task<'_>) {
    if let Task::Elements(_, elements) = task {
        if let Some(line) = lines.get_mut(elements.list) {
            line.shown = Shown::Cut(elements.begun.saturating_sub(1));
        }
    }
}

/// A stop at a field.
pub(crate) fn stop_at<'a>(
    place: Place<'a>,
    at: usize,
    expected: Expected<'a>,
    found: Found,
) -> WalkError<'a> {
    WalkError::Stop(Stop {
        at,
        depth: place.depth,
        label: place.label,
        expected,
        found,
    })
}
