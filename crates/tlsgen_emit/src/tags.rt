//! The tag in front of a message's cases. A method returns it.

use crate::template::Holes;
use crate::templates::tags::{CLOSED, METHOD, NONE, NUMBER, OPEN, VALUES};
use crate::types::{Names, set_width};
use crate::uses::Uses;
use crate::variant_forms::VariantForm;
use std::alloc::{AllocError, Global};
use tlsgen_model::plan::{Body, CaseTag, Message, Value, Variant};

/// What a tag is in Rust.
#[derive(Clone, Copy)]
pub enum TagKind<'a> {
    /// An enum of these values.
    Closed(&'a [Value]),
    /// A number. Some of its values have names.
    Open,
    Number,
}

/// Sets the holes `tag_method` and `tag_use` of a message, and `tag_value` of its cases.
pub fn set<'a>(
    alloc: Global,
    names: &Names<'a>,
    holes: &mut Holes,
    parts: &mut [VariantForm],
    uses: &mut Uses<'a>,
    message: &'a Message,
    variants: &[Variant],
) -> Result<(), AllocError> {
    let Some(tag) = &message.tag else {
        return holes.set_each(alloc, &NONE);
    };
    let key = match &tag.of {
        Some(of) => of.as_str(),
        None => "",
    };
    let kind = kind_of(names, tag, variants);
    for (part, variant) in parts.iter_mut().zip(variants) {
        part.holes
            .set("tag_value", value_of(alloc, key, kind, variant.tag)?)?;
    }
    if !matches!(kind, TagKind::Number) {
        uses.add_type(Some(key))?;
    }
    let texts = [
        ("tag", tag.name.as_str()),
        ("tag_key", key),
        ("tag_module", names.module(key).unwrap_or("")),
    ];
    holes.set_all(alloc, &texts)?;
    holes.set("tag_values", VALUES.filled(alloc, holes, parts)?)?;
    holes.set_each(
        alloc,
        match kind {
            TagKind::Closed(_) => &CLOSED,
            TagKind::Open => &OPEN,
            TagKind::Number => &NUMBER,
        },
    )?;
    holes.set_each(alloc, &[("tag_method", METHOD)])
}

// What the tag of these cases is. An enum that isn't written is a number, and so is a closed one of another crate.
fn kind_of<'a>(names: &Names<'a>, tag: &CaseTag, variants: &[Variant]) -> TagKind<'a> {
    let Some(of) = &tag.of else {
        return TagKind::Number;
    };
    match kind_by_name(names, of.as_str()) {
        TagKind::Closed(values) if !have_names(values, variants) => TagKind::Number,
        TagKind::Number if tag.is_open && names.module(of.as_str()).is_some() => TagKind::Open,
        own => own,
    }
}

/// What a tag of this name is, if this crate has it.
pub fn kind_by_name<'a>(names: &Names<'a>, key: &str) -> TagKind<'a> {
    match names.own(key) {
        Some(message) => match &message.body {
            Body::Values { is_open: true, .. } => TagKind::Open,
            Body::Values { values, .. } => TagKind::Closed(values),
            _ => TagKind::Number,
        },
        None => TagKind::Number,
    }
}

fn have_names(values: &[Value], variants: &[Variant]) -> bool {
    variants
        .iter()
        .all(|variant| name_of(values, variant.tag).is_some())
}

// The value of a tag that has this number.
fn value_of(
    alloc: Global,
    key: &str,
    kind: TagKind<'_>,
    number: u64,
) -> Result<String, AllocError> {
    match kind {
        TagKind::Closed(values) => {
            let name = name_of(values, number).unwrap_or("");
            format!(in alloc; "{key}::{name}")
        }
        TagKind::Open => format!(in alloc; "{key}({number})"),
        TagKind::Number => format!(in alloc; "{number}"),
    }
}

fn name_of(values: &[Value], number: u64) -> Option<&str> {
    for value in values {
        if value.number == number {
            return Some(value.name.as_str());
        }
    }
    None
}

// The tag as a `u64`, and what makes a proof about that of one about the tag. A tag that is a `u64` needs none.
static OF_TAG: [(&str, &str); 3] = [
    ("u64", "u64::from(tag)"),
    ("cast", "(rw c.from.ensures "),
    ("end", ")"),
];

static OF_U64: [(&str, &str); 3] = [("u64", "tag"), ("cast", ""), ("end", "")];

/// Sets the holes of a tag of `width` bytes: `width`, `bits`, `digits`, and those of `OF_TAG`.
pub fn set_width_of(alloc: Global, holes: &mut Holes, width: usize) -> Result<(), AllocError> {
    set_width(alloc, holes, width)?;
    holes.set_number(alloc, "digits", (width as u64).saturating_mul(2))?;
    holes.set_all(alloc, if width == 8 { &OF_U64 } else { &OF_TAG })
}
