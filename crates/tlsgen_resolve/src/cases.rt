//! The tags of selects, and their cases.
ghost use Rattle.std.specs.Prelude.{◌≡◌, IfOk, IfSome, OnOk, nat_eq, string_bytes};
ghost use Rattle.std.specs.List.{list_any};
ghost use Rattle.tlsgen_syntax.specs.declared.syntax.Label.TheVariants as labels;
ghost use Rattle.tlsgen_resolve.specs.Cases.{AppendsLabelled, HasValue, IsNumberOf};

use crate::checks::{TOO_GREAT, enum_width, named, rejected_number};
use crate::items::{find, integer_width, is_single};
use crate::reject::{Budget, rejected};
use crate::scope::Scope;
use std::alloc::Global;
use tlsgen_model::width::Width;
use tlsgen_syntax::rejection::{Place, Trouble};
use tlsgen_syntax::syntax::{Case, Enum, Field, Item, Label, Name, Number, Select};

/// The type of a tag: a number of 1, 2, 4 or 8 bytes, which may have names.
#[derive(Clone, Copy)]
pub struct Tag<'a> {
    pub width: Width,
    pub of: Option<&'a Enum>,
}

/// What comes after a number of a tag.
#[derive(Drop)]
pub struct Labelled<'a> {
    /// The number's name, or `case_5` if it has none.
    pub name: String,
    pub number: u64,
    pub place: Place,
    pub fields: &'a [Field],
}

/// The type of a field that is a tag: an integer, an enum, or another name of one.
pub fn tag_of<'a>(alloc: Global, scope: Scope<'a>, field: &'a Field) -> Result<Tag<'a>, Trouble> {
    match find_tag(alloc, scope, field)? {
        Some(tag) => Ok(tag),
        None => Err(rejected(
            alloc,
            field.of.place,
            field.of.text.as_str(),
            "a tag of 1, 2, 4 or 8 bytes: an enum, uint8, uint16, uint32, uint64, or another name of one",
        )),
    }
}

/// The type of a field, if it is an integer, an enum or another name of one, of 1, 2, 4 or 8 bytes.
pub fn find_tag<'a>(
    alloc: Global,
    scope: Scope<'a>,
    field: &'a Field,
) -> Result<Option<Tag<'a>>, Trouble> {
    if !is_single(field) {
        return Ok(None);
    }
    let last = scope.last_alias(field.of.text.as_str()).unwrap_or(field);
    if !is_single(last) {
        return Ok(None);
    }
    let of = last.of.text.as_str();
    match find(scope, of) {
        Some(Item::Enum(one)) => {
            let width = enum_width(alloc, one)?;
            Ok(Some(Tag {
                width,
                of: Some(one),
            }))
        }
        Some(Item::Alias(_) | Item::Struct(_)) => Ok(None),
        None => {
            let width = integer_width(of).and_then(Width::new);
            Ok(width.map(|width| Tag { width, of: None }))
        }
    }
}

/// The cases of a select, one for each label. Rejects a label that the tag's type lacks.
pub fn cases_of<'a>(
    alloc: Global,
    tag: Tag<'a>,
    select: &'a Select,
    budget: &mut Budget,
) -> Result<Vec<Labelled<'a>>, Trouble> {
    let mut cases = Vec::new(alloc);
    for case in &select.cases {
        push_labels(alloc, tag, case, &mut cases, budget)?;
    }
    if cases.is_empty() {
        return Err(rejected(
            alloc,
            select.place,
            "select",
            "a select with at least one case",
        ));
    }
    Ok(cases)
}

fn push_labels<'a>(
    alloc: Global,
    tag: Tag<'a>,
    case: &'a Case,
    cases: &mut Vec<Labelled<'a>>,
    budget: &mut Budget,
) -> Result<(), Trouble>
    ensures { OnOk result (AppendsLabelled tag.entry case.now cases.old.items cases.new.items) }
{
    for label in &case.labels {
        let one = label_case(alloc, tag, label, &case.fields)?;
        budget.take(alloc, one.place, one.name.as_str())?;
        cases.push(one)?;
    }
    Ok(())
}

/// The case of a number.
pub fn find_case<'b, 'a>(cases: &'b [Labelled<'a>], number: u64) -> Option<&'b Labelled<'a>> {
    cases.iter().find(|case| case.number == number)
}

fn label_case<'a>(
    alloc: Global,
    tag: Tag<'a>,
    label: &Label,
    fields: &'a [Field],
) -> Result<Labelled<'a>, Trouble>
    ensures fields { IfOk result (λ one. one.fields.now ≡ fields.now) }
    ensures number { IfOk result (λ one. IsNumberOf tag.entry label.now one.number) }
{
    match label {
        Label::Name(name) => Ok(Labelled {
            number: number_of(alloc, tag, name)?,
            name: name.text.clone()?,
            place: name.place,
            fields,
        }),
        Label::Number(number) => Ok(Labelled {
            name: name_of(alloc, tag, *number)?,
            number: number.value,
            place: number.place,
            fields,
        }),
    }
}

fn number_of(alloc: Global, tag: Tag<'_>, name: &Name) -> Result<u64, Trouble>
    ensures { IfOk result (λ number. IsNumberOf tag.entry (labels.Name name.now) number) }
{
    let text = name.text.as_str();
    let Some(one) = tag.of else {
        return Err(rejected(
            alloc,
            name.place,
            text,
            "a number: the tag's type gives its numbers no names",
        ));
    };
    match find_number(one, text) {
        Some(number) => Ok(number),
        None => Err(rejected(alloc, name.place, text, "a value of the tag's enum")),
    }
}

fn find_number(one: &Enum, text: &str) -> Option<u64>
    ensures { IfSome result (HasValue one.now text.now) }
{
    for value in &one.values {
        if let Some(name) = named(value) {
            if name.text.as_str() == text {
                return Some(value.number.value);
            }
        }
    }
    None
}

fn name_of(alloc: Global, tag: Tag<'_>, number: Number) -> Result<String, Trouble> {
    if !tag.width.holds(number.value) {
        return Err(rejected_number(alloc, number, TOO_GREAT));
    }
    match tag.of {
        Some(one) => match find_name(one, number.value) {
            Some(name) => Ok(name.text.clone()?),
            None if one.is_open => case_name(alloc, number),
            None => Err(rejected_number(alloc, number, "a value of the tag's enum")),
        },
        None => case_name(alloc, number),
    }
}

/// The name of a number of an enum.
pub fn find_name(one: &Enum, number: u64) -> Option<&Name>
    ensures { IfSome result (λ name. HasValue one.now (string_bytes name.now.text) number) }
{
    for value in &one.values {
        if value.number.value == number {
            if let Some(name) = named(value) {
                return Some(name);
            }
        }
    }
    None
}

fn case_name(alloc: Global, number: Number) -> Result<String, Trouble> {
    let value = number.value;
    Ok(format!(in alloc; "case_{value}")?)
}

/// Whether a number has a case.
pub fn has_case(cases: &[Labelled<'_>], number: u64) -> bool
    ensures { result ≡ list_any (λ case. nat_eq number case.number) cases.now }
{
    cases.iter().any(|case| number == case.number)
}
