//! The values or the cases of a message.

use crate::docs::doc;
use crate::nested_fields::NestedFields;
use crate::owners::Owner;
use crate::template::Holes;
use crate::types::Names;
use crate::uses::Uses;
use crate::{contents, views};
use std::alloc::{AllocError, Global};
use tlsgen_model::plan::{Value, Variant};

/// A value or a case, as what stands for the holes of its templates.
#[derive(Drop)]
pub struct VariantForm {
    /// How many fields it has.
    pub fields: usize,
    pub holes: Holes,
}

/// The values of an enum or a registry. Those of an enum are ordered by number, so a derive
/// compares them by number.
pub fn values_of(
    alloc: Global,
    holes: &Holes,
    is_open: bool,
    values: &[Value],
) -> Result<Vec<VariantForm>, AllocError> {
    let mut order = Vec::new(alloc);
    for (at, value) in values.iter().enumerate() {
        order.push((if is_open { 0 } else { value.number }, at))?;
    }
    order.sort()?;
    let mut parts = Vec::new(alloc);
    for (_, at) in &order {
        let Some(value) = values.get(*at) else {
            break;
        };
        let texts = [
            ("variant", value.name.as_str()),
            ("label", value.label.as_str()),
            ("constant", value.constant.as_str()),
        ];
        let at = parts.len();
        let mut part = VariantForm::of(alloc, holes, 0, at, &texts, value.number)?;
        part.holes
            .set("comment", doc(alloc, value.comment.as_str())?)?;
        parts.push(part)?;
    }
    Ok(parts)
}

pub fn cases_of<'a>(
    alloc: Global,
    names: &Names<'a>,
    holes: &Holes,
    (owner, is_borrowed): (Owner, bool),
    variants: &'a [Variant],
    uses: &mut Uses<'a>,
) -> Result<Vec<VariantForm>, AllocError> {
    let mut parts = Vec::new(alloc);
    for variant in variants {
        let at = parts.len();
        let members = variant.fields.as_slice();
        let fields = NestedFields::of(alloc, names, owner, is_borrowed, members, uses)?;
        parts.push(case(alloc, holes, at, variant, &fields)?)?;
    }
    contents::set(alloc, parts.as_mut_slice())?;
    Ok(parts)
}

fn case(
    alloc: Global,
    holes: &Holes,
    at: usize,
    variant: &Variant,
    fields: &NestedFields,
) -> Result<VariantForm, AllocError> {
    let texts = [
        ("variant", variant.name.as_str()),
        ("label", variant.label.as_str()),
        ("constant", variant.constant.as_str()),
    ];
    let mut part = VariantForm::of(alloc, holes, variant.fields.len(), at, &texts, variant.tag)?;
    fields.set(alloc, &mut part.holes)?;
    views::set_of_case(alloc, &mut part.holes, fields)?;
    part.set_fields(alloc)?;
    Ok(part)
}

/// Whether a case has no fields.
pub fn has_bare(parts: &[VariantForm]) -> bool {
    for part in parts {
        if part.fields == 0 {
            return true;
        }
    }
    false
}

/// Which numbers there are: `(n == 1) || ((n == 2) || (n == 3))`.
pub fn has(alloc: Global, parts: &[VariantForm]) -> Result<String, AllocError> {
    let mut out = String::new(alloc);
    let last = parts.len().saturating_sub(1);
    for (i, part) in parts.iter().enumerate() {
        let template = match last.saturating_sub(i) {
            0 if last == 0 => "n == $number$",
            0 => "(n == $number$)",
            1 => "(n == $number$) || ",
            _ => "(n == $number$) || (",
        };
        part.holes.push(alloc, &mut out, template)?;
    }
    for _ in 1..last {
        out.push_str(")")?;
    }
    Ok(out)
}

// What the first part of all doesn't have.
static LATER: [(&str, &str); 5] = [
    ("later", "-in-$variant$"),
    ("open", "("),
    ("close", ")"),
    ("comma", ", "),
    ("line", "\n"),
];

static FIRST: [(&str, &str); 5] = [
    ("later", ""),
    ("open", ""),
    ("close", ""),
    ("comma", ""),
    ("line", ""),
];

impl VariantForm {
    // A part with `fields` fields. It has the holes of the message and of its tag, these texts,
    // `number`, and those of its position.
    fn of(
        alloc: Global,
        of_message: &Holes,
        fields: usize,
        at: usize,
        texts: &[(&'static str, &str)],
        number: u64,
    ) -> Result<VariantForm, AllocError> {
        let mut holes = Holes::new(alloc);
        holes.set_as(of_message)?;
        holes.set_all(alloc, texts)?;
        holes.set_number(alloc, "number", number)?;
        holes.set_each(alloc, if at == 0 { &FIRST } else { &LATER })?;
        Ok(VariantForm { fields, holes })
    }

    // Sets the holes `lefts`, `rights` and `value`: variables for the fields of two values, such as
    // `a0 a1` and `b0 b1`, and the variant with the first ones, such as `(Both a0 a1)`. Also sets
    // those of `SAID`.
    fn set_fields(&mut self, alloc: Global) -> Result<(), AllocError> {
        self.holes.set("lefts", numbered(alloc, "a", self.fields)?)?;
        self.holes
            .set("rights", numbered(alloc, "b", self.fields)?)?;
        let value = match self.fields {
            0 => "$variant$",
            _ => "($variant$ $lefts$)",
        };
        self.holes.set_each(alloc, &[("value", value)])?;
        self.holes.set_each(
            alloc,
            if self.fields == 1 {
                &SAID_OF_ONE
            } else {
                &SAID
            },
        )
    }
}

// The text of `count` variables, such as `a0 a1`.
fn numbered(alloc: Global, letter: &str, count: usize) -> Result<String, AllocError> {
    let mut out = String::new(alloc);
    for i in 0..count {
        if i > 0 {
            out.push_str(" ")?;
        }
        write!(out, "{letter}{i}")?;
    }
    Ok(out)
}

// What the call for a case's fields ensures. A field that is alone is a part of the case, by a lemma.
static SAID: [(&str, &str); 7] = [
    ("leaves", "c.in_err-$first$-in-$number$.ensures.reads"),
    ("named", "c.in_err-$first$-in-$number$.ensures.named"),
    ("given", "c.in_ok-$first$-in-$number$.ensures.reads"),
    ("refuses", "c.in_err-$first$-in-$number$.ensures.splits"),
    ("begins", "c.in_ok-$first$-in-$number$.ensures.splits"),
    ("rejects", "c.in_err-behind-in-$number$.ensures.validates"),
    (
        "left_behind",
        "c.in_ok-behind-in-$number$.ensures.validates.begins",
    ),
];

static SAID_OF_ONE: [(&str, &str); 7] = [
    (
        "leaves",
        "(part_leaves c.in_err-$first$-in-$number$.ensures.reads)",
    ),
    (
        "named",
        "(part_named _ c.in_err-$first$-in-$number$.ensures.named)",
    ),
    (
        "given",
        "(part_given source.gives_in_order source.gives_nothing c.in_ok-$first$-in-$number$.ensures.reads)",
    ),
    (
        "refuses",
        "(part_refuses c.in_err-$first$-in-$number$.ensures.splits)",
    ),
    (
        "begins",
        "(part_begins c.in_ok-$first$-in-$number$.ensures.splits)",
    ),
    (
        "rejects",
        "(part_rejects c.in_err-behind-in-$number$.ensures.validates)",
    ),
    (
        "left_behind",
        "(part_begins c.in_ok-behind-in-$number$.ensures.validates.begins)",
    ),
];
