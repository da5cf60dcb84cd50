//! Selects: which fields come, by a number that was read.

use crate::walk::line::Label;
use crate::walk::scope::Known;
use crate::walk::stop::{Expected, Found, WalkError};
use crate::walk::tasks::{Place, Task};
use crate::walk::{Walk, stop_at};
use tlsgen_syntax::syntax::{Case, Field, Label as CaseLabel, Said, Select};

impl<'a> Walk<'a> {
    /// The fields of the case that a tag has.
    pub(crate) fn select(
        &mut self,
        place: Place<'a>,
        select: &'a Select,
    ) -> Result<(), WalkError<'a>> {
        let known = self.tag_of(place.owner, select);
        let Some(case) = select.cases.iter().find(|case| is_for(case, known)) else {
            let found = match known {
                Some(known) => Found::Number(known.number),
                None => Found::Rejected,
            };
            return Err(stop_at(place, self.at, Expected::Case(select), found));
        };
        for field in case.fields.iter().rev() {
            let within = Place {
                label: Label::Field(label_of(select, field, known)),
                ..place
            };
            self.tasks.push(Task::Field(within, field))?;
        }
        Ok(())
    }

    // The tag that a select is on.
    fn tag_of(&self, owner: &str, select: &'a Select) -> Option<Known<'a>> {
        let field = select.path.last()?.text.as_str();
        if let [of, _] = select.path.as_slice() {
            if let Some(known) = self.scope.of(of.text.as_str(), field) {
                return Some(known);
            }
        }
        if let Some(known) = self.scope.last(field) {
            return Some(known);
        }
        match self.definitions.said(owner, field) {
            Some(Said::Named(name)) => Some(Known {
                owner: "",
                field,
                of: "",
                number: 0,
                name: Some(name.text.as_str()),
            }),
            _ => None,
        }
    }
}

// Whether a case is for this tag.
fn is_for(case: &Case, known: Option<Known<'_>>) -> bool {
    let Some(known) = known else {
        return false;
    };
    case.labels.iter().any(|label| match label {
        CaseLabel::Name(name) => known.name == Some(name.text.as_str()),
        CaseLabel::Number(number) => number.value == known.number,
    })
}

// The label of a case's field. It is the field's name. If the field has none, it is the name of the
// select, or else that of the tag.
fn label_of<'a>(select: &'a Select, field: &'a Field, known: Option<Known<'a>>) -> &'a str {
    if field.is_named {
        return field.name.text.as_str();
    }
    match &select.name {
        Some(name) if is_small(name.text.as_str()) => name.text.as_str(),
        _ => known
            .and_then(|known| known.name)
            .unwrap_or(field.name.text.as_str()),
    }
}

// Whether a name begins with a small letter.
fn is_small(name: &str) -> bool {
    name.bytes()
        .next()
        .is_some_and(|byte| byte.is_ascii_lowercase())
}
