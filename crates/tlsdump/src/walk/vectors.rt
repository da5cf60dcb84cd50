//! Vectors, and what they hold.

use crate::walk::definitions::{Definition, bytes_for};
use crate::walk::line::{Label, Line, Shown, number_of};
use crate::walk::opened::{code_name, content_of};
use crate::walk::stop::{Expected, Found, WalkError};
use crate::walk::tasks::{Elements, Leave, Place, Task};
use crate::walk::{Opening, Walk, stop_at};
use tls_codec::Error;
use tls_codec::vlen::split_length;
use tlsgen_syntax::syntax::{Field, Name, Said, Vector};

// A length in front of a content.
#[derive(Clone, Copy)]
struct Length<'a> {
    // Where it begins, and the bytes from there on.
    at: usize,
    from: &'a [u8],
    // Its own bytes.
    width: usize,
    // How many bytes it announces.
    count: usize,
}

impl<'a> Walk<'a> {
    /// A field as it is declared: one value, bytes or a list.
    pub(crate) fn field(
        &mut self,
        place: Place<'a>,
        field: &'a Field,
    ) -> Result<(), WalkError<'a>> {
        let length = match &field.vector {
            Vector::One => return self.value(place, field),
            Vector::Array(number) => self.no_length(number.value as usize),
            Vector::Counted(path) => self.counted(place, field, path),
            Vector::Variable => self.variable(place, field)?,
            Vector::Bounded(least, most) => {
                self.bounded(place, field, least.value as usize, most.value as usize)?
            }
        };
        self.content(place, field, length)
    }

    // A content without a length in front.
    fn no_length(&self, count: usize) -> Length<'a> {
        Length {
            at: self.at,
            from: self.rest,
            width: 0,
            count,
        }
    }

    // A content with as many bytes as an earlier field says, or as are left.
    fn counted(&self, place: Place<'a>, field: &'a Field, path: &'a [Name]) -> Length<'a> {
        let said = self.definitions.said(place.owner, field.name.text.as_str());
        if let Some(Said::Fills | Said::Pads) = said {
            return self.no_length(self.rest.len());
        }
        let known = path
            .last()
            .and_then(|word| self.scope.last(word.text.as_str()));
        match known {
            Some(known) => self.no_length(known.number as usize),
            None => self.no_length(self.rest.len()),
        }
    }

    // A length of variable width (RFC 9420, section 2.1.2), in the fewest bytes.
    fn variable(
        &mut self,
        place: Place<'a>,
        field: &'a Field,
    ) -> Result<Length<'a>, WalkError<'a>> {
        let expected = Expected::Field(field);
        let (at, from) = (self.at, self.rest);
        let (count, rest) = match split_length(from) {
            Ok(found) => found,
            Err(Error::EndOfStream) => {
                return Err(stop_at(place, at, expected, Found::Left(from.len())));
            }
            Err(_) => return Err(stop_at(place, at, expected, Found::Spelling)),
        };
        let width = from.len().saturating_sub(rest.len());
        self.take(width);
        Ok(Length {
            at,
            from,
            width,
            count,
        })
    }

    // A length between two bounds.
    fn bounded(
        &mut self,
        place: Place<'a>,
        field: &'a Field,
        least: usize,
        most: usize,
    ) -> Result<Length<'a>, WalkError<'a>> {
        let expected = Expected::Field(field);
        let (at, from) = (self.at, self.rest);
        let width = bytes_for(most as u64);
        let Some(bytes) = self.take(width) else {
            return Err(stop_at(place, at, expected, Found::Left(from.len())));
        };
        let count = number_of(bytes) as usize;
        if count < least || most < count {
            return Err(stop_at(place, at, expected, Found::Length(count)));
        }
        Ok(Length {
            at,
            from,
            width,
            count,
        })
    }

    // What comes after a length: bytes, or a list.
    fn content(
        &mut self,
        place: Place<'a>,
        field: &'a Field,
        length: Length<'a>,
    ) -> Result<(), WalkError<'a>> {
        let expected = Expected::Field(field);
        let Some((content, after)) = self.rest.split_at_checked(length.count) else {
            let found = Found::Announced(length.count, self.rest.len());
            return Err(stop_at(place, length.at, expected, found));
        };
        if length.width > 0 || length.count > 0 {
            self.stop_if_rejected(place, length.at, expected, Found::Rejected)?;
        }
        let are_bytes = matches!(
            self.definition(field.of.text.as_str()),
            Definition::Opaque | Definition::Number(1)
        );
        if are_bytes && !field.is_optional {
            return self.bytes(place, field, length, content, after);
        }
        let list = self.lines.len();
        self.add(place, header(length), Shown::List(0))?;
        self.tasks.push(Task::Elements(
            place,
            Elements {
                field,
                list,
                begun: 0,
                left: usize::MAX,
                after,
            },
        ))?;
        self.rest = content;
        Ok(())
    }

    // Bytes, which are opened if their type is known.
    fn bytes(
        &mut self,
        place: Place<'a>,
        field: &'a Field,
        length: Length<'a>,
        content: &'a [u8],
        after: &'a [u8],
    ) -> Result<(), WalkError<'a>> {
        let whole = match length
            .from
            .split_at_checked(length.width.saturating_add(length.count))
        {
            Some((whole, _)) => whole,
            None => content,
        };
        let name = field.name.text.as_str();
        let Some(of) = content_of(&self.scope, place.owner, name, content) else {
            self.take(length.count);
            let shown = match (place.owner, length.width) {
                ("CipherSuite", 0) => Shown::Code(code_name(place.owner, number_of(content))),
                _ => Shown::Bytes(length.width, None),
            };
            return self.add(place, whole, shown);
        };
        self.push_opening(place, of, length, whole, after)?;
        self.rest = content;
        self.inside(place, of)
    }

    // Opens bytes of this type: a walk that stops in them goes on after them.
    fn push_opening(
        &mut self,
        place: Place<'a>,
        of: &'a str,
        length: Length<'a>,
        whole: &'a [u8],
        after: &'a [u8],
    ) -> Result<(), WalkError<'a>> {
        self.openings.push(Opening {
            line: self.lines.len(),
            closed: Line {
                depth: place.depth,
                label: place.label,
                bytes: whole,
                shown: Shown::Bytes(length.width, Some(of)),
            },
            tasks: self.tasks.len(),
            after,
            at: self.at.saturating_add(length.count),
        })?;
        self.add(place, header(length), Shown::Opened(length.width, of))?;
        let leave = Leave {
            of,
            after,
            is_opened: true,
        };
        self.tasks.push(Task::Leave(place, leave))?;
        Ok(())
    }

    // What is in opened bytes: a struct's fields, or one value.
    fn inside(&mut self, place: Place<'a>, of: &'a str) -> Result<(), WalkError<'a>> {
        let within = Place {
            owner: of,
            label: Label::Field("value"),
            depth: place.depth.saturating_add(1),
        };
        match self.definition(of) {
            Definition::Struct(one) => self.parts(one, within.depth),
            _ => self.typed(within, of, "", Expected::Type(of)),
        }
    }

    /// The next element of a list, or its end.
    pub(crate) fn elements(
        &mut self,
        place: Place<'a>,
        elements: Elements<'a>,
    ) -> Result<(), WalkError<'a>> {
        if self.rest.is_empty() {
            if let Some(line) = self.lines.get_mut(elements.list) {
                line.shown = Shown::List(elements.begun);
            }
            self.rest = elements.after;
            return Ok(());
        }
        let left = self.rest.len();
        if left >= elements.left {
            let expected = Expected::End(elements.field.name.text.as_str());
            return Err(stop_at(place, self.at, expected, Found::Left(left)));
        }
        let within = Place {
            owner: place.owner,
            label: Label::Element(elements.begun),
            depth: place.depth.saturating_add(1),
        };
        self.tasks.push(Task::Elements(
            place,
            Elements {
                begun: elements.begun.saturating_add(1),
                left,
                ..elements
            },
        ))?;
        self.tasks.push(Task::Value(within, elements.field))?;
        Ok(())
    }

    /// The end of what is in a length.
    pub(crate) fn leave(
        &mut self,
        place: Place<'a>,
        leave: Leave<'a>,
    ) -> Result<(), WalkError<'a>> {
        if !self.rest.is_empty() {
            let found = Found::Left(self.rest.len());
            return Err(stop_at(place, self.at, Expected::End(leave.of), found));
        }
        self.rest = leave.after;
        if leave.is_opened {
            self.openings.pop();
        }
        Ok(())
    }
}

// A length's own bytes.
fn header(length: Length<'_>) -> &[u8] {
    match length.from.split_at_checked(length.width) {
        Some((header, _)) => header,
        None => &[],
    }
}
