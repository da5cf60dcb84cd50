//! What a message is written as.
ghost use Rattle.std.specs.Prelude.{◌≡◌, IfOk};
ghost use Rattle.tlsgen_emit.specs.Forms.{has_answers};
ghost use Rattle.tlsgen_emit.specs.Paths.{needs_answers};

use crate::docs::doc;
use crate::holds::Held;
use crate::nested_fields::NestedFields;
use crate::owners::Owner;
use crate::template::Holes;
use crate::templates::views::{AFTER_TAG, IN_A_ROW};
use crate::templates::{
    Templates, choices, opens, selectors, structs, structs_in_context, structs_on_tags,
    sums as sum_templates, values,
};
use crate::types::{Names, length_field};
use crate::uses::Uses;
use crate::variant_forms::{VariantForm, cases_of, has, has_bare, values_of};
use crate::vocabulary::{
    CASES_OF_ROW, CASES_OF_SELECT, CASES_OF_STRUCT, CASES_OF_SUM, CASES_OF_THEN, HOLDS,
};
use crate::{contexts, lines, sums, tags, thens, views, wholes};
use std::alloc::{AllocError, Global};
use tlsgen_model::plan::{Body, Member, Message, Variant};

/// Which templates a message is written by.
#[derive(Clone, Copy)]
pub enum MessageKind {
    Struct,
    /// A struct. A context decides some of its fields.
    StructInContext,
    /// A struct. Some of its fields depend on tags that an earlier field is or holds.
    Then,
    /// An enum of numbers only.
    Values,
    /// A number. Some of its values have names.
    Open,
    /// A tag, and what comes after each.
    Choice,
    /// A tag and a length, which what comes after each fills.
    Sum,
    /// What comes after each tag, which is the context.
    Select,
}

/// A message, as what stands for the holes of its templates.
#[derive(Drop)]
pub struct Form<'a> {
    pub kind: MessageKind,
    /// It has references to its fields. It can only be encoded.
    pub is_borrowed: bool,
    pub holes: Holes,
    /// Its values, or its cases.
    pub parts: Vec<VariantForm>,
    pub uses: Uses<'a>,
    /// What it takes of the cases by name.
    pub cases: Vec<&'static str>,
    /// What it holds of others.
    pub held: Held,
}

impl MessageKind {
    fn of(message: &Message) -> MessageKind
        ensures { has_answers result ≡ needs_answers message.now.body }
    {
        match &message.body {
            Body::Fields(_) if message.context.is_some() => MessageKind::StructInContext,
            Body::Fields(members) if thens::giver_of(members).is_some() => MessageKind::Then,
            Body::Fields(_) => MessageKind::Struct,
            Body::Values { is_open: true, .. } => MessageKind::Open,
            Body::Values { .. } => MessageKind::Values,
            Body::Choice { .. } => MessageKind::Choice,
            Body::Sum { .. } if message.context.is_some() => MessageKind::Select,
            Body::Sum { .. } => MessageKind::Sum,
        }
    }

    /// What it is written by.
    pub fn templates(self) -> Templates {
        match self {
            MessageKind::Struct => structs::templates(),
            MessageKind::StructInContext => structs_in_context::templates(),
            MessageKind::Then => structs_on_tags::templates(),
            MessageKind::Values => values::templates(),
            MessageKind::Open => opens::templates(),
            MessageKind::Choice => choices::templates(),
            MessageKind::Sum => sum_templates::tagged(),
            MessageKind::Select => sum_templates::chosen(),
        }
    }

    /// Whether its impls have goals that need answers.
    pub fn has_answers(self) -> bool
        ensures { result ≡ has_answers self }
    {
        match self {
            MessageKind::Values | MessageKind::Choice => true,
            MessageKind::Struct | MessageKind::StructInContext | MessageKind::Then => false,
            MessageKind::Open | MessageKind::Sum | MessageKind::Select => false,
        }
    }
}

impl<'a> Form<'a> {
    pub fn of(
        alloc: Global,
        names: &Names<'a>,
        message: &'a Message,
    ) -> Result<Form<'a>, AllocError>
        ensures { IfOk result (λ form. has_answers form.kind ≡ needs_answers message.now.body) }
    {
        let mut form = Form {
            kind: MessageKind::of(message),
            is_borrowed: message.is_borrowed,
            holes: Holes::new(alloc),
            parts: Vec::new(alloc),
            uses: Uses::new(alloc, message.name.as_str()),
            cases: Vec::new(alloc),
            held: Held::none(alloc),
        };
        form.set_message(alloc, names, message)?;
        form.set_body(alloc, names, message)?;
        form.set_held(alloc, names, message)?;
        form.cases.sort()?;
        form.uses.types.sort()?;
        form.set_texts(alloc)?;
        Ok(form)
    }

    // Sets the holes of all kinds of messages.
    fn set_message(
        &mut self,
        alloc: Global,
        names: &Names<'a>,
        message: &Message,
    ) -> Result<(), AllocError>
        ensures { self.new.kind ≡ self.old.kind }
    {
        let texts = [
            ("crate", names.own),
            ("name", message.name.as_str()),
            ("module", message.module.as_str()),
        ];
        self.holes.set_all(alloc, &texts)?;
        self.holes
            .set_all(alloc, if self.is_borrowed { &BORROWED } else { &OWNED })?;
        self.holes.set("doc", doc(alloc, message.doc.as_str())?)?;
        views::set_name(alloc, names, &mut self.holes, message)
    }

    // Sets the holes of its fields, or its parts.
    fn set_body(
        &mut self,
        alloc: Global,
        names: &Names<'a>,
        message: &'a Message,
    ) -> Result<(), AllocError>
        ensures { self.new.kind ≡ self.old.kind }
    {
        if let Some(context) = &message.context {
            contexts::set(alloc, names, &mut self.holes, &mut self.uses, context)?;
        }
        match &message.body {
            Body::Fields(members) => {
                self.set_fields(alloc, names, message, members)?;
                let uses = &mut self.uses;
                wholes::set(alloc, names, &mut self.holes, uses, message, members)?;
            }
            Body::Values {
                width,
                is_open,
                values,
            } => {
                tags::set_width_of(alloc, &mut self.holes, *width)?;
                self.parts = values_of(alloc, &self.holes, *is_open, values)?;
                self.set_selector(alloc, names, message)?;
            }
            Body::Choice { width, variants } => {
                tags::set_width_of(alloc, &mut self.holes, *width)?;
                let (of, uses) = ((Owner::Variant, self.is_borrowed), &mut self.uses);
                self.parts = cases_of(alloc, names, &self.holes, of, variants, uses)?;
                self.set_tag_of_cases(alloc, names, message, variants)?;
            }
            Body::Sum {
                width,
                length,
                variants,
            } => {
                tags::set_width_of(alloc, &mut self.holes, *width)?;
                self.set_sum(alloc, names, *length, variants)?;
                self.set_tag_of_cases(alloc, names, message, variants)?;
            }
        }
        Ok(())
    }

    // Sets the holes of a struct's fields.
    fn set_fields(
        &mut self,
        alloc: Global,
        names: &Names<'a>,
        message: &'a Message,
        members: &'a [Member],
    ) -> Result<(), AllocError>
        ensures { self.new.kind ≡ self.old.kind }
    {
        if let MessageKind::Then = self.kind {
            add_names(&mut self.cases, &CASES_OF_THEN)?;
            let (is_borrowed, uses) = (self.is_borrowed, &mut self.uses);
            return thens::set(alloc, names, &mut self.holes, uses, is_borrowed, members);
        }
        let is_in_context = message.context.is_some();
        let (of, uses) = (Owner::of_struct(is_in_context), &mut self.uses);
        let fields = NestedFields::of(alloc, names, of, self.is_borrowed, members, uses)?;
        fields.set(alloc, &mut self.holes)?;
        self.set_read(alloc, members.len())?;
        views::set(alloc, &mut self.holes, &fields, members)?;
        if !is_in_context {
            return add_names(&mut self.cases, &CASES_OF_ROW);
        }
        add_names(&mut self.cases, &CASES_OF_STRUCT)?;
        self.holes
            .set_each(alloc, views::parts_in_context(members))?;
        if members.len() <= 3 {
            return self.holes.set_each(alloc, &structs_in_context::FEW);
        }
        self.holes.set_each(alloc, &structs_in_context::MANY)
    }

    // Sets the holes of the method that returns the tag of its cases.
    fn set_tag_of_cases(
        &mut self,
        alloc: Global,
        names: &Names<'a>,
        message: &'a Message,
        variants: &[Variant],
    ) -> Result<(), AllocError>
        ensures { self.new.kind ≡ self.old.kind }
    {
        let (parts, uses) = (self.parts.as_mut_slice(), &mut self.uses);
        tags::set(
            alloc,
            names,
            &mut self.holes,
            parts,
            uses,
            message,
            variants,
        )
    }

    // Sets the holes of what a struct with `fields` fields is read as.
    fn set_read(&mut self, alloc: Global, fields: usize) -> Result<(), AllocError>
        ensures { self.new.kind ≡ self.old.kind }
    {
        if self.is_borrowed {
            return self.holes.set_each(alloc, &structs::BORROWED);
        }
        let columns = self.holes.filled(alloc, "$types$")?.len();
        let is_long = columns > structs::LONG;
        let read = if fields > 1 || is_long {
            &structs::IN_PARTS
        } else {
            &structs::ALONE
        };
        self.holes.set_each(alloc, read)
    }

    // Sets what it holds of others.
    fn set_held(
        &mut self,
        alloc: Global,
        names: &Names<'a>,
        message: &'a Message,
    ) -> Result<(), AllocError>
        ensures { self.new.kind ≡ self.old.kind }
    {
        add_names(&mut self.cases, &HOLDS)?;
        self.held = Held::of(alloc, names, message, &mut self.uses)?;
        Ok(())
    }

    // Sets the holes of what an enum of numbers has if it is a context.
    fn set_selector(
        &mut self,
        alloc: Global,
        names: &Names<'a>,
        message: &Message,
    ) -> Result<(), AllocError>
        ensures { self.new.kind ≡ self.old.kind }
    {
        if !names.decides_parts(message.name.as_str()) {
            return self.holes.set_each(alloc, &selectors::NONE);
        }
        match self.kind {
            MessageKind::Open => self.holes.set_each(alloc, &selectors::OPEN),
            _ => self.holes.set_each(alloc, &selectors::CLOSED),
        }
    }

    // Sets the holes of a sum's cases, inside a length of `length` bytes if there is one.
    fn set_sum(
        &mut self,
        alloc: Global,
        names: &Names<'a>,
        length: Option<usize>,
        variants: &'a [Variant],
    ) -> Result<(), AllocError>
        ensures { self.new.kind ≡ self.old.kind }
    {
        if let Some(length) = length {
            self.holes.set_number(alloc, "length", length as u64)?;
            self.holes
                .set_all(alloc, &[("field", length_field(length))])?;
        }
        let (of, uses) = ((Owner::Case, self.is_borrowed), &mut self.uses);
        self.parts = cases_of(alloc, names, &self.holes, of, variants, uses)?;
        sums::set_cases(alloc, &mut self.parts, length.is_some(), variants)?;
        let wrapping = match length {
            Some(_) => &sum_templates::TAGGED,
            None => &sum_templates::CHOSEN,
        };
        match length {
            Some(_) => add_names(&mut self.cases, &CASES_OF_SUM)?,
            None => add_names(&mut self.cases, &CASES_OF_SELECT)?,
        }
        sums::set(alloc, &mut self.holes, &self.parts, wrapping)
    }

    // Sets the holes for texts with a line for each value or case.
    fn set_texts(&mut self, alloc: Global) -> Result<(), AllocError>
        ensures { self.new.kind ≡ self.old.kind }
    {
        match self.kind {
            MessageKind::Values => self.holes.set("has", has(alloc, &self.parts)?)?,
            MessageKind::Choice => self.set_names(alloc)?,
            _ => {}
        }
        let (holes, parts) = (&mut self.holes, self.parts.as_slice());
        lines::set(alloc, holes, parts, self.kind.templates().texts)?;
        match self.kind {
            MessageKind::Choice => views::set_cases(alloc, holes, parts, &IN_A_ROW),
            MessageKind::Sum => views::set_cases(alloc, holes, parts, &AFTER_TAG),
            _ => Ok(()),
        }
    }

    // Sets the holes `nothing` and `names_use`: what the decoders take of the codec.
    fn set_names(&mut self, alloc: Global) -> Result<(), AllocError>
        ensures { self.new.kind ≡ self.old.kind }
    {
        let nothing = if has_bare(&self.parts) {
            &choices::NOTHING
        } else {
            &choices::SOMETHING
        };
        self.holes.set_each(alloc, nothing)?;
        let names_use = if self.is_borrowed {
            ""
        } else {
            choices::NAMES_USE
        };
        self.holes.set_each(alloc, &[("names_use", names_use)])
    }
}

// Adds these names of the cases.
fn add_names(cases: &mut Vec<&'static str>, names: &[&'static str]) -> Result<(), AllocError> {
    for name in names {
        cases.push(*name)?;
    }
    Ok(())
}

// The holes for a borrowed message; `OWNED` has those for an owned one. The hole `static` is the
// lifetime in a clause.
static BORROWED: [(&str, &str); 6] = [
    (
        "borrowed_doc",
        "///\n/// It has references to its fields. It can only be encoded.\n",
    ),
    ("derives", "PartialEq, Eq, Debug, Clone, Copy"),
    ("lifetime", "<'a>"),
    ("any", "<'_>"),
    ("static", "<'static>"),
    ("matched", "*self"),
];

static OWNED: [(&str, &str); 6] = [
    ("borrowed_doc", ""),
    ("derives", "PartialEq, Eq, Debug, Clone, Drop"),
    ("lifetime", ""),
    ("any", ""),
    ("static", ""),
    ("matched", "self"),
];
