//! Selects that decide alone whether a field is there, as `case commit: MAC confirmation_tag;` of RFC 9420, section 6: the
//! field is optional.
use crate::cases::{Labelled, cases_of, find_case};
use crate::checks::named;
use crate::contexts::OuterTag;
use crate::given::given_to;
use crate::members::{ResolvedMember, copy_decided};
use crate::resolver::Resolver;
use crate::sequence::Sequence;
use crate::types::declared;
use std::alloc::{AllocError, Global};
use tlsgen_model::names::field_name;
use tlsgen_model::plan::Decided;
use tlsgen_syntax::rejection::Trouble;
use tlsgen_syntax::syntax::{Enum, Field, Label, Select};

impl<'a> Resolver<'a> {
    /// The member of a select's field, if each of its cases is that field or nothing, and each value of the tag's closed enum
    /// has a case.
    pub fn present_member(
        &mut self,
        sequence: &Sequence<'a>,
        tag: &OuterTag<'a>,
        select: &'a Select,
        decided: &Decided,
    ) -> Result<Option<ResolvedMember>, Trouble> {
        let given = given_to(self.scope, sequence.name, select);
        if given.of_type.is_some() {
            return Ok(None);
        }
        let Some(field) = only_field(self.alloc, select)? else {
            return Ok(None);
        };
        let cases = cases_of(self.alloc, tag.tag, select, &mut self.budget)?;
        if !tag.tag.of.is_some_and(|one| has_each(one, &cases)) {
            return Ok(None);
        }
        let mut member = self.member_of(field)?;
        if !matches!(member.member.decided, Decided::Alone) {
            return Ok(None);
        }
        if let Some(name) = given.of_field {
            member.member.name = field_name(self.alloc, name.text.as_str())?;
        }
        member.member.declared = declared_for(self.alloc, select, field)?;
        member.member.decided = copy_decided(decided)?;
        member.member.present_for = Some(numbers_of(self.alloc, &cases)?);
        Ok(Some(member))
    }
}

// The one field that all cases have, except the empty ones. `None` if two fields differ, if no case is empty, or if all are.
fn only_field<'a>(alloc: Global, select: &'a Select) -> Result<Option<&'a Field>, AllocError> {
    let mut only = None;
    let mut is_empty = false;
    for case in &select.cases {
        match case.fields.as_slice() {
            [] => is_empty = true,
            [field] => {
                if !is_as(alloc, only, field)? {
                    return Ok(None);
                }
                only = Some(field);
            }
            _ => return Ok(None),
        }
    }
    if is_empty { Ok(only) } else { Ok(None) }
}

// Whether a field is the one before it, if there is one.
fn is_as(alloc: Global, before: Option<&Field>, field: &Field) -> Result<bool, AllocError> {
    match before {
        Some(other) => Ok(declared(alloc, other)? == declared(alloc, field)?),
        None => Ok(true),
    }
}

// Whether each value of an enum has a case, and no other number may come.
fn has_each(one: &Enum, cases: &[Labelled<'_>]) -> bool {
    !one.is_open
        && one.values.iter().all(|value| {
            named(value).is_none() || find_case(cases, value.number.value).is_some()
        })
}

fn numbers_of(alloc: Global, cases: &[Labelled<'_>]) -> Result<Vec<u64>, AllocError> {
    let mut numbers = Vec::new(alloc);
    for case in cases {
        if !case.fields.is_empty() {
            numbers.push(case.number)?;
        }
    }
    Ok(numbers)
}

// `case commit: MAC confirmation_tag;`
fn declared_for(alloc: Global, select: &Select, field: &Field) -> Result<String, AllocError> {
    let mut out = String::new(alloc);
    for case in &select.cases {
        if !case.fields.is_empty() {
            push_labels(&mut out, &case.labels)?;
        }
    }
    out.push_str(declared(alloc, field)?.as_str())?;
    Ok(out)
}

fn push_labels(out: &mut String, labels: &[Label]) -> Result<(), AllocError> {
    for label in labels {
        match label {
            Label::Name(name) => {
                let text = name.text.as_str();
                write!(out, "case {text}: ")?;
            }
            Label::Number(number) => {
                let value = number.value;
                write!(out, "case {value}: ")?;
            }
        }
    }
    Ok(())
}
