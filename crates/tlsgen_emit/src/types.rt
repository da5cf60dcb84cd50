//! What stands for a type of the plan in the code and in the definitions.
ghost use Rattle.std.specs.Prelude.{◌≡◌, IfOk, string_bytes};
ghost use Rattle.tlsgen_emit.specs.Texts.{bracketed};

use crate::index::Index;
use crate::template::Holes;
use crate::templates::types::{
    ARRAY, BOUNDED_BYTES, BOUNDED_LIST, BYTES, EXACT_LIST, FIXED_BYTES, FIXED_LIST, LIST, MESSAGE,
    MESSAGE_IN_CONTEXT, NUMBER, NUMBER_OF_THREE_BYTES, OPTION, PRESENT, TEXT, TypeTemplates,
};
use std::alloc::{AllocError, Global};
use std::collections::BTreeMap;
use tlsgen_model::plan::{Body, Element, Holder, Message, Other, Plan, Shape, Type};

/// A type in texts.
#[derive(Drop)]
pub struct Words<'a> {
    /// What stands for these holes:
    /// - `rust`: the Rust type, such as `Vec<u16>`;
    /// - `plain`: what a value stands for, as a function: `(λ v. trees Number v.items)`;
    /// - `tree`: the tree that a value stands for, with a hole for the value: `trees Number $v$.items`;
    /// - `format`: its format, such as `list_format (number_format 2)`;
    /// - `law`: its law, such as `list_meets u16_meets`.
    pub texts: Holes,
    /// The name of a message or of another name of a type that is in the Rust type.
    pub named: Option<&'a str>,
    /// The message whose definitions are cited.
    pub cited: Option<&'a str>,
    /// It has references.
    pub is_borrowed: bool,
}

impl TypeTemplates {
    // The words for a type of others.
    fn words_of<'a>(
        &self,
        alloc: Global,
        mut holes: Holes,
        of: Words<'a>,
    ) -> Result<Words<'a>, AllocError> {
        for (word, template) in [("rust", "$rust$"), ("plain", "$plain$")] {
            holes.set(word, of.texts.filled(alloc, template)?)?;
        }
        for (word, template) in [("format", "$format$"), ("law", "$law$")] {
            let text = of.texts.filled(alloc, template)?;
            holes.set(word, parenthesized(alloc, text)?)?;
        }
        Ok(Words {
            texts: self.texts(alloc, &holes)?,
            named: of.named,
            cited: of.cited,
            is_borrowed: false,
        })
    }

    fn texts(&self, alloc: Global, holes: &Holes) -> Result<Holes, AllocError> {
        let templates = [
            ("rust", self.rust),
            ("plain", self.plain),
            ("tree", self.tree),
            ("format", self.format),
            ("law", self.law),
        ];
        let mut texts = Holes::new(alloc);
        for (word, template) in templates {
            texts.set(word, holes.filled(alloc, template)?)?;
        }
        Ok(texts)
    }
}

/// What the names of a plan stand for.
#[derive(Drop)]
pub struct Names<'a> {
    /// The crate that is written.
    pub own: &'a str,
    /// The other crates, in their order.
    pub crates: &'a [String],
    index: Index<'a>,
    // The words for the type that another name is of.
    aliases: BTreeMap<&'a str, Words<'a>>,
}

impl<'a> Names<'a> {
    /// The names of the plan for the crate `own`, over these other crates.
    pub fn of(
        alloc: Global,
        own: &'a str,
        crates: &'a [String],
        plan: &'a Plan,
    ) -> Result<Names<'a>, AllocError> {
        let mut names = Names {
            own,
            crates,
            index: Index::of(alloc, plan)?,
            aliases: BTreeMap::new(alloc),
        };
        names.add_aliases(alloc, plan)?;
        Ok(names)
    }

    /// Whether a message, another name of a type, or a type of another crate has this name.
    pub fn has(&self, name: &str) -> bool {
        let is_type = self.index.messages.contains_key(name);
        is_type || self.index.others.contains_key(name) || self.aliases.contains_key(name)
    }

    // Adds the other names of types, first those of other crates.
    fn add_aliases(&mut self, alloc: Global, plan: &'a Plan) -> Result<(), AllocError> {
        for other in &plan.others {
            if let Some(of) = &other.of {
                self.add_alias(alloc, other.name.as_str(), of)?;
            }
        }
        for alias in &plan.aliases {
            self.add_alias(alloc, alias.name.as_str(), &alias.of)?;
        }
        Ok(())
    }

    fn add_alias(&mut self, alloc: Global, name: &'a str, of: &'a Type) -> Result<(), AllocError> {
        let words = self.words(alloc, of)?;
        if !self.aliases.contains_key(name) {
            self.aliases.insert(name, words)?;
        }
        Ok(())
    }

    /// The words for a type.
    pub fn words(&self, alloc: Global, of: &'a Type) -> Result<Words<'a>, AllocError> {
        match of.shape {
            Shape::One => self.item(alloc, of),
            Shape::Array(len) => self.alone(alloc, &ARRAY, holes_of_len(alloc, len)?),
            Shape::Exact(count) => {
                EXACT_LIST.words_of(alloc, of_count(alloc, count)?, self.item(alloc, of)?)
            }
            Shape::Variable => self.vector(alloc, of, Holes::new(alloc), &BYTES, &LIST),
            Shape::Bounded { width, least, most } => {
                let holes = of_length(alloc, width, least, most)?;
                if least == 0 && most == greatest(width) {
                    self.vector(alloc, of, holes, &FIXED_BYTES, &FIXED_LIST)
                } else {
                    self.vector(alloc, of, holes, &BOUNDED_BYTES, &BOUNDED_LIST)
                }
            }
        }
    }

    // The words for a vector, of bytes or of others.
    fn vector(
        &self,
        alloc: Global,
        of: &'a Type,
        holes: Holes,
        bytes: &TypeTemplates,
        list: &TypeTemplates,
    ) -> Result<Words<'a>, AllocError> {
        match of.element {
            Element::Opaque => self.alone(alloc, bytes, holes),
            _ => list.words_of(alloc, holes, self.item(alloc, of)?),
        }
    }

    // The words for what a vector has, or for a type that is none.
    fn item(&self, alloc: Global, of: &'a Type) -> Result<Words<'a>, AllocError> {
        let words = self.element(alloc, &of.element)?;
        if of.is_optional {
            OPTION.words_of(alloc, Holes::new(alloc), words)
        } else {
            Ok(words)
        }
    }

    /// The words for an option of a type that some numbers of a tag decide, by the hole `test`.
    pub fn present(
        &self,
        alloc: Global,
        holes: Holes,
        of: Words<'a>,
    ) -> Result<Words<'a>, AllocError> {
        PRESENT.words_of(alloc, holes, of)
    }

    // The words for a type that no message is in.
    fn alone(
        &self,
        alloc: Global,
        templates: &TypeTemplates,
        holes: Holes,
    ) -> Result<Words<'a>, AllocError> {
        Ok(Words {
            texts: templates.texts(alloc, &holes)?,
            named: None,
            cited: None,
            is_borrowed: false,
        })
    }

    fn number(&self, alloc: Global, width: usize) -> Result<Words<'a>, AllocError> {
        let templates = match width {
            3 => &NUMBER_OF_THREE_BYTES,
            _ => &NUMBER,
        };
        self.alone(alloc, templates, of_width(alloc, width)?)
    }

    /// The words for an element alone.
    pub fn element(&self, alloc: Global, of: &'a Element) -> Result<Words<'a>, AllocError> {
        match of {
            Element::Integer(width) => self.number(alloc, *width),
            Element::Opaque => self.number(alloc, 1),
            Element::Text => self.alone(alloc, &TEXT, Holes::new(alloc)),
            Element::Message(name) => self.message(alloc, name.as_str()),
            Element::Alias(name) => self.alias(alloc, name.as_str()),
        }
    }

    fn message(&self, alloc: Global, name: &'a str) -> Result<Words<'a>, AllocError> {
        let module = self.module(name).unwrap_or(name);
        let is_borrowed = self.is_borrowed(name);
        let lifetime = if is_borrowed { "<'a>" } else { "" };
        let mut holes = Holes::new(alloc);
        holes.set_all(
            alloc,
            &[("name", name), ("module", module), ("lifetime", lifetime)],
        )?;
        let templates = if self.is_in_context(name) {
            &MESSAGE_IN_CONTEXT
        } else {
            &MESSAGE
        };
        Ok(Words {
            texts: templates.texts(alloc, &holes)?,
            named: Some(name),
            cited: Some(name),
            is_borrowed,
        })
    }

    fn alias(&self, alloc: Global, name: &'a str) -> Result<Words<'a>, AllocError> {
        match self.aliases.get(name) {
            Some(words) => renamed(alloc, words, name),
            None => self.message(alloc, name),
        }
    }

    /// The message that another name of a type stands for.
    pub fn cited(&self, name: &str) -> Option<&'a str> {
        self.aliases.get(name)?.cited
    }

    /// The module of the message with this name.
    pub fn module(&self, name: &str) -> Option<&str> {
        match self.own(name) {
            Some(message) => Some(message.module.as_str()),
            None => match self.other(name) {
                Some(other) => Some(other.module.as_str()),
                None => None,
            },
        }
    }

    /// Whether a type is one enum of numbers of the plan, which is copied.
    pub fn is_copied(&self, of: &Type) -> bool {
        if of.is_optional || !matches!(of.shape, Shape::One) {
            return false;
        }
        let Element::Message(name) = &of.element else {
            return false;
        };
        match self.own(name.as_str()) {
            Some(message) => matches!(message.body, Body::Values { .. }),
            None => false,
        }
    }

    // Whether the message with this name has references to its fields.
    fn is_borrowed(&self, name: &str) -> bool {
        match self.own(name) {
            Some(message) => message.is_borrowed,
            None => match self.other(name) {
                Some(other) => other.is_borrowed,
                None => false,
            },
        }
    }

    /// Whether the message with this name is in a context.
    pub fn is_in_context(&self, name: &str) -> bool {
        match self.own(name) {
            Some(message) => message.context.is_some(),
            None => false,
        }
    }

    /// Whether the message with this name decides parts of others: it is their context, or a field before them is or holds it.
    pub fn decides_parts(&self, name: &str) -> bool {
        self.index.deciding.contains(name)
    }

    /// The other crate that has this name.
    pub fn other_crate(&self, name: &str) -> Option<&str> {
        let other = self.other(name)?;
        let home = self.crates.get(other.home)?;
        Some(home.as_str())
    }

    /// The message of the plan with this name.
    pub fn own(&self, name: &str) -> Option<&'a Message> {
        self.index.messages.get(name).copied()
    }

    /// The tags of others that the message with this name holds, if it holds one.
    pub fn holders(&self, name: &str) -> Option<&Vec<&'a Holder>> {
        self.index.holders.get(name)
    }

    fn other(&self, name: &str) -> Option<&Other> {
        self.index.others.get(name).copied()
    }
}

// The same type by another name.
fn renamed<'a>(alloc: Global, words: &Words<'a>, name: &'a str) -> Result<Words<'a>, AllocError> {
    let mut texts = Holes::new(alloc);
    texts.set_all(alloc, &[("rust", name)])?;
    texts.set_as(&words.texts)?;
    Ok(Words {
        texts,
        named: Some(name),
        cited: words.cited,
        is_borrowed: words.is_borrowed,
    })
}

fn holes_of_len(alloc: Global, len: u64) -> Result<Holes, AllocError> {
    let mut holes = Holes::new(alloc);
    holes.set_number(alloc, "len", len)?;
    Ok(holes)
}

fn of_count(alloc: Global, count: u64) -> Result<Holes, AllocError> {
    let mut holes = Holes::new(alloc);
    holes.set_number(alloc, "count", count)?;
    Ok(holes)
}

// A length of `width` bytes, with bounds.
fn of_length(alloc: Global, width: usize, least: u64, most: u64) -> Result<Holes, AllocError> {
    let mut holes = of_width(alloc, width)?;
    holes.set_all(alloc, &[("field", length_field(width))])?;
    holes.set_number(alloc, "least", least)?;
    holes.set_number(alloc, "most", most)?;
    Ok(holes)
}

/// The type of a length of `width` bytes.
pub fn length_field(width: usize) -> &'static str {
    match width {
        1 => "u8",
        2 => "u16",
        3 => "U24",
        _ => "u32",
    }
}

// The greatest length that `width` bytes hold.
fn greatest(width: usize) -> u64 {
    match width {
        1 => 0xff,
        2 => 0xffff,
        3 => 0xff_ffff,
        _ => 0xffff_ffff,
    }
}

fn of_width(alloc: Global, width: usize) -> Result<Holes, AllocError> {
    let mut holes = Holes::new(alloc);
    set_width(alloc, &mut holes, width)?;
    Ok(holes)
}

/// Sets the holes `width` and `bits` for a number of `width` bytes.
pub fn set_width(alloc: Global, holes: &mut Holes, width: usize) -> Result<(), AllocError> {
    let bytes = width as u64;
    holes.set_number(alloc, "width", bytes)?;
    holes.set_number(alloc, "bits", bytes.saturating_mul(8))
}

/// The text, in brackets where it has a blank.
pub fn parenthesized(alloc: Global, text: String) -> Result<String, AllocError>
    ensures { IfOk result (λ s. string_bytes s ≡ bracketed (string_bytes text)) }
{
    if text.as_bytes().contains(&b' ') {
        format!(in alloc; "({text})")
    } else {
        Ok(text)
    }
}
