//! Tags that no field of a struct is: in another struct, or said by the protocol alone.
//!
//! What has a select on one is read and written in its context, as is each struct that has such a field.
use crate::cases::{Tag, find_tag};
use crate::checks::enum_width;
use crate::holders::{Site, giver_of, site_of};
use crate::items::find_struct;
use crate::known::{Known, sequence_named};
use crate::naming::{type_name, underscored};
use crate::reject::rejected;
use crate::scope::Scope;
use crate::sequence::{IndexedField, Piece, Sequence};
use std::alloc::{AllocError, Global};
use tlsgen_model::names::field_name;
use tlsgen_model::plan::{Context, Element};
use tlsgen_syntax::rejection::Trouble;
use tlsgen_syntax::syntax::{Field, Item, Name, Select, Struct};

/// A tag that isn't in the struct: its name, and its type.
#[derive(Clone, Copy)]
pub struct OuterTag<'a> {
    pub name: &'a Name,
    pub tag: Tag<'a>,
    /// The struct that has it, at the end of the select's path.
    owner: Option<&'a Name>,
}

impl<'a> OuterTag<'a> {
    /// Whether a field of a struct is the tag: of its type, and, if the path ends in a struct, that one's field of this name.
    pub fn is_field(&self, of: &str, field: &Field) -> bool {
        match self.owner {
            None => self.is_of(field),
            Some(owner) => owner.text.as_str() == of && field.name.text == self.name.text,
        }
    }

    /// A label that distinguishes it from the other tags of the text: the struct that has it and
    /// its name, or else its enum.
    pub fn label(&self, alloc: Global) -> Result<String, AllocError> {
        match (self.owner, self.tag.of) {
            (Some(owner), _) => format!(in alloc;
                "{owner} {tag}",
                owner = owner.text,
                tag = self.name.text
            ),
            (None, Some(one)) => one.name.text.clone(),
            (None, None) => self.name.text.clone(),
        }
    }

    // Whether a field is of the tag's enum.
    fn is_of(&self, field: &Field) -> bool {
        self.tag
            .of
            .is_some_and(|one| one.name.text == field.of.text)
    }

    /// The type of the tag in Rust.
    pub fn key(&self, alloc: Global) -> Result<String, AllocError> {
        let bits = self.tag.width.bytes.saturating_mul(8);
        match self.tag.of {
            Some(one) => type_name(alloc, one.name.text.as_str()),
            None => format!(in alloc; "u{bits}"),
        }
    }

    // Whether both are on one tag: by the enum, or by the name if that is a number.
    fn is_same(&self, other: &OuterTag<'_>) -> bool {
        match (self.tag.of, other.tag.of) {
            (Some(own), Some(one)) => own.name.text == one.name.text,
            (None, None) => {
                self.name.text == other.name.text && self.tag.width.bytes == other.tag.width.bytes
            }
            _ => false,
        }
    }

    /// The type of the tag.
    pub fn element(&self, alloc: Global) -> Result<Element, AllocError> {
        match self.tag.of {
            Some(one) => Ok(Element::Message(type_name(alloc, one.name.text.as_str())?)),
            None => Ok(Element::Integer(self.tag.width.bytes)),
        }
    }

    /// What a message in its context has.
    pub fn context(&self, alloc: Global) -> Result<Context, AllocError> {
        let words = underscored(alloc, self.name.text.as_str())?;
        Ok(Context {
            name: field_name(alloc, words.as_str())?,
            of: self.element(alloc)?,
        })
    }
}

/// The tag of a select that has none in its struct: a field of the struct at the head of its path, or, if the path is one
/// name, an enum of that name, also in small letters: `certificate_type` for `CertificateType`.
pub fn outer_tag<'a>(
    alloc: Global,
    scope: Scope<'a>,
    select: &'a Select,
) -> Result<OuterTag<'a>, Trouble> {
    let Some((name, words)) = select.path.split_last() else {
        return Err(rejected(alloc, select.place, "select", "the name of a tag"));
    };
    let owner = struct_on_path(scope, words);
    let found = match owner {
        Some(owner) => tag_in(alloc, scope, owner, name)?,
        None if words.is_empty() => enum_tag(alloc, scope, name)?,
        None => None,
    };
    match found {
        Some(tag) if tag.of.is_some() || tag.width.bytes <= 2 => Ok(OuterTag {
            name,
            tag,
            owner: owner.map(|one| &one.name),
        }),
        _ => Err(rejected(
            alloc,
            name.place,
            name.text.as_str(),
            "a tag above the select, or a tag elsewhere: a field of the struct at the head of the path, or an enum of that name, and no number of more than 2 bytes",
        )),
    }
}

// The struct at the end of a path that begins with a struct's name, through fields.
fn struct_on_path<'a>(scope: Scope<'a>, words: &[Name]) -> Option<&'a Struct> {
    let (head, fields) = words.split_first()?;
    let mut one = find_struct(scope, head.text.as_str())?;
    for word in fields {
        let field = one.field(word)?;
        one = find_struct(scope, field.of.text.as_str())?;
    }
    Some(one)
}

fn tag_in<'a>(
    alloc: Global,
    scope: Scope<'a>,
    one: &'a Struct,
    name: &Name,
) -> Result<Option<Tag<'a>>, Trouble> {
    match one.field(name) {
        Some(field) => find_tag(alloc, scope, field),
        None => Ok(None),
    }
}

fn enum_tag<'a>(alloc: Global, scope: Scope<'a>, name: &Name) -> Result<Option<Tag<'a>>, Trouble> {
    let Some(Item::Enum(one)) = scope.find_enum(name.text.as_str()) else {
        return Ok(None);
    };
    let width = enum_width(alloc, one)?;
    Ok(Some(Tag {
        width,
        of: Some(one),
    }))
}

/// The tag of a struct's context, if it has a context: the tag of its selects and of its fields' types. A tag that an earlier
/// field has doesn't count. Rejects two tags.
pub fn context_of<'a>(
    alloc: Global,
    scope: Scope<'a>,
    all: &mut Known<'a>,
    sequence: &Sequence<'a>,
) -> Result<Option<OuterTag<'a>>, Trouble> {
    let mut context = None;
    for (at, piece) in sequence.pieces.iter().enumerate() {
        context = match piece {
            Piece::Field(field) | Piece::Counted(_, field) => {
                with_field(alloc, all, sequence, at, field, context)?
            }
            Piece::Length(_) => context,
            Piece::Select(select) => {
                let tag = tag_elsewhere(alloc, scope, all, sequence, at, select)?;
                let context = with_select(alloc, tag, context)?;
                with_cases(alloc, all, sequence, select, context)?
            }
        };
    }
    Ok(context)
}

// The tag of a select at a position, if it is in another struct or said by the protocol alone.
fn tag_elsewhere<'a>(
    alloc: Global,
    scope: Scope<'a>,
    all: &mut Known<'a>,
    sequence: &Sequence<'a>,
    at: usize,
    select: &'a Select,
) -> Result<Option<OuterTag<'a>>, Trouble> {
    match site_of(alloc, scope, all, sequence, at)? {
        Site::Here | Site::Before(_) => Ok(None),
        Site::Elsewhere => Ok(Some(outer_tag(alloc, scope, select)?)),
    }
}

fn with_select<'a>(
    alloc: Global,
    tag: Option<OuterTag<'a>>,
    context: Option<OuterTag<'a>>,
) -> Result<Option<OuterTag<'a>>, Trouble> {
    match tag {
        Some(tag) => with_tag(alloc, tag, tag.name, context),
        None => Ok(context),
    }
}

fn with_cases<'a>(
    alloc: Global,
    all: &mut Known<'a>,
    sequence: &Sequence<'a>,
    select: &Select,
    context: Option<OuterTag<'a>>,
) -> Result<Option<OuterTag<'a>>, Trouble> {
    let mut context = context;
    for field in select.cases.iter().flat_map(|case| case.fields.iter()) {
        context = with_type(alloc, all, sequence, &field.of, context)?;
    }
    Ok(context)
}

fn with_field<'a>(
    alloc: Global,
    all: &mut Known<'a>,
    sequence: &Sequence<'a>,
    at: usize,
    field: &Field,
    context: Option<OuterTag<'a>>,
) -> Result<Option<OuterTag<'a>>, Trouble> {
    if giver_of_field(alloc, all, sequence, at, field)?.is_some() {
        return Ok(context);
    }
    with_type(alloc, all, sequence, &field.of, context)
}

/// The field that has the tag which decides the parts of a field at a position.
pub fn giver_of_field<'a>(
    alloc: Global,
    all: &mut Known<'a>,
    sequence: &Sequence<'a>,
    at: usize,
    field: &Field,
) -> Result<Option<IndexedField<'a>>, Trouble> {
    match context_of_type(all, field.of.text.as_str()) {
        Some(tag) => giver_of(alloc, all, sequence, at, &tag),
        None => Ok(None),
    }
}

fn with_type<'a>(
    alloc: Global,
    all: &mut Known<'a>,
    sequence: &Sequence<'a>,
    of: &Name,
    context: Option<OuterTag<'a>>,
) -> Result<Option<OuterTag<'a>>, Trouble> {
    match context_of_type(all, of.text.as_str()) {
        Some(tag)
            if tag
                .owner
                .is_some_and(|owner| owner.text.as_str() == sequence.name) => {
            Err(rejected(
                alloc,
                of.place,
                of.text.as_str(),
                "no type in the context of a tag of this struct, unless the tag is above it",
            ))
        }
        Some(tag) => with_tag(alloc, tag, of, context),
        None => Ok(context),
    }
}

// The tag, or the one before it if that is the same.
fn with_tag<'a>(
    alloc: Global,
    tag: OuterTag<'a>,
    at: &Name,
    context: Option<OuterTag<'a>>,
) -> Result<Option<OuterTag<'a>>, Trouble> {
    match context {
        Some(other) if !other.is_same(&tag) => Err(rejected(
            alloc,
            at.place,
            at.text.as_str(),
            "one tag elsewhere for all of a struct's parts",
        )),
        _ => Ok(Some(tag)),
    }
}

/// The tag of the context that the struct of this name is in.
pub fn context_of_type<'a>(all: &Known<'a>, name: &str) -> Option<OuterTag<'a>> {
    sequence_named(all, name)?.context
}
