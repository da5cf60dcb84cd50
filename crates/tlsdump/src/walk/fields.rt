//! Fields of one value, and structs.

use crate::walk::definitions::{Definition, value_name, width_of};
use crate::walk::line::{Label, Shown, number_of};
use crate::walk::opened::code_name;
use crate::walk::scope::Known;
use crate::walk::stop::{Expected, Found, WalkError};
use crate::walk::tasks::{Leave, Place, Task};
use crate::walk::{Walk, stop_at};
use tlsgen_syntax::syntax::{Enum, Field, Part, Said, Struct, Vector};

impl<'a> Walk<'a> {
    /// One value of a field's type.
    pub(crate) fn value(
        &mut self,
        place: Place<'a>,
        field: &'a Field,
    ) -> Result<(), WalkError<'a>> {
        let of = field.of.text.as_str();
        if field.is_optional {
            return self.option(place, field, of);
        }
        self.typed(place, of, field.name.text.as_str(), Expected::Field(field))
    }

    // An option: its tag, and then a value or none.
    fn option(
        &mut self,
        place: Place<'a>,
        field: &'a Field,
        of: &'a str,
    ) -> Result<(), WalkError<'a>> {
        let at = self.at;
        let expected = Expected::Tag(of);
        let Some(tag) = self.take(1) else {
            return Err(stop_at(place, at, expected, Found::Left(0)));
        };
        let number = number_of(tag);
        self.stop_if_rejected(place, at, expected, Found::Number(number))?;
        if number == 0 {
            return self.add(place, tag, Shown::Absent);
        }
        if number != 1 {
            return Err(stop_at(place, at, expected, Found::Number(number)));
        }
        self.add(place, tag, Shown::Present(of))?;
        let within = Place {
            depth: place.depth.saturating_add(1),
            label: Label::Field("value"),
            ..place
        };
        match self.definition(of) {
            Definition::Struct(one) => self.parts(one, within.depth),
            _ => self.typed(within, of, field.name.text.as_str(), Expected::Field(field)),
        }
    }

    /// A value of a type, in a field of this name.
    pub(crate) fn typed(
        &mut self,
        place: Place<'a>,
        of: &'a str,
        name: &'a str,
        expected: Expected<'a>,
    ) -> Result<(), WalkError<'a>> {
        match self.definition(of) {
            Definition::Opaque => self.number(place, (of, name), 1, expected, Shown::Number),
            Definition::Number(width) => self.number(
                place,
                (of, name),
                width,
                expected,
                Shown::Number,
            ),
            Definition::Enum(one) => self.code(place, name, one),
            Definition::Struct(one) => {
                self.add(place, &[], Shown::Struct(of))?;
                self.parts(one, place.depth.saturating_add(1))
            }
            Definition::Alias(field) => self.alias(place, (of, name), field, expected),
            Definition::Unknown => Err(stop_at(place, self.at, expected, Found::Rejected)),
        }
    }

    // A value of a type with another name. A number with a name of its own is a code.
    fn alias(
        &mut self,
        place: Place<'a>,
        (of, name): (&'a str, &'a str),
        alias: &'a Field,
        expected: Expected<'a>,
    ) -> Result<(), WalkError<'a>> {
        if let (Vector::One, Definition::Number(width)) = (
            &alias.vector,
            self.definition(alias.of.text.as_str()),
        ) {
            let expected = code_expected(of, expected);
            return self.number(place, (of, name), width, expected, Shown::Code(None));
        }
        let within = Place { owner: of, ..place };
        self.tasks.push(Task::Field(within, alias))?;
        Ok(())
    }

    // An integer of `width` bytes, of this type and in a field of this name.
    fn number(
        &mut self,
        place: Place<'a>,
        (of, name): (&'a str, &'a str),
        width: usize,
        expected: Expected<'a>,
        shown: Shown<'a>,
    ) -> Result<(), WalkError<'a>> {
        let at = self.at;
        let left = self.rest.len();
        let Some(bytes) = self.take(width) else {
            return Err(stop_at(place, at, expected, Found::Left(left)));
        };
        let number = number_of(bytes);
        self.enclose(place, name, at, number, expected)?;
        self.stop_if_rejected(place, at, expected, Found::Number(number))?;
        self.scope.set(Known {
            owner: place.owner,
            field: name,
            of,
            number,
            name: None,
        })?;
        let shown = match shown {
            Shown::Code(None) => Shown::Code(code_name(of, number)),
            other => other,
        };
        self.add(place, bytes, shown)
    }

    // If this number counts the bytes of the select after it, the select ends with these bytes.
    fn enclose(
        &mut self,
        place: Place<'a>,
        name: &'a str,
        at: usize,
        number: u64,
        expected: Expected<'a>,
    ) -> Result<(), WalkError<'a>> {
        let Some(Task::Select(..)) = self.tasks.last() else {
            return Ok(());
        };
        let Some(Said::Counts) = self.definitions.said(place.owner, name) else {
            return Ok(());
        };
        let count = number as usize;
        let left = self.rest.len();
        let Some((content, after)) = self.rest.split_at_checked(count) else {
            return Err(stop_at(place, at, expected, Found::Announced(count, left)));
        };
        let leave = Leave {
            of: place.owner,
            after,
            is_opened: false,
        };
        self.rest = content;
        if let Some(select) = self.tasks.pop() {
            self.tasks.push(Task::Leave(place, leave))?;
            self.tasks.push(select)?;
        }
        Ok(())
    }

    // A number of an enum.
    fn code(
        &mut self,
        place: Place<'a>,
        name: &'a str,
        one: &'a Enum,
    ) -> Result<(), WalkError<'a>> {
        let at = self.at;
        let left = self.rest.len();
        let expected = Expected::Value(one);
        let Some(bytes) = self.take(width_of(one)) else {
            return Err(stop_at(place, at, expected, Found::Left(left)));
        };
        let number = number_of(bytes);
        let found = value_name(one, number);
        self.stop_if_rejected(place, at, expected, Found::Number(number))?;
        if found.is_none() && !one.is_open {
            return Err(stop_at(place, at, expected, Found::Number(number)));
        }
        self.scope.set(Known {
            owner: place.owner,
            field: name,
            of: one.name.text.as_str(),
            number,
            name: found,
        })?;
        self.add(place, bytes, Shown::Code(found))
    }

    /// The parts of a struct, still to come.
    pub(crate) fn parts(&mut self, one: &'a Struct, depth: usize) -> Result<(), WalkError<'a>> {
        let owner = one.name.text.as_str();
        for part in one.parts.iter().rev() {
            self.part(owner, part, depth)?;
        }
        Ok(())
    }

    fn part(&mut self, owner: &'a str, part: &'a Part, depth: usize) -> Result<(), WalkError<'a>> {
        let task = match part {
            Part::Field(field) => Task::Field(
                Place {
                    owner,
                    label: Label::Field(field.name.text.as_str()),
                    depth,
                },
                field,
            ),
            Part::Select(select) => Task::Select(
                Place {
                    owner,
                    label: Label::Field(""),
                    depth,
                },
                select,
            ),
        };
        self.tasks.push(task)?;
        Ok(())
    }
}

// What is expected where a number has a type of its own: its field if that is constant, or else the type.
fn code_expected<'a>(of: &'a str, expected: Expected<'a>) -> Expected<'a> {
    match expected {
        Expected::Field(field) if field.constant.is_some() => expected,
        _ => Expected::Type(of),
    }
}
