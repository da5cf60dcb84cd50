//! What decides a message's parts, if that is in another struct, and a field's, if that is a field before it.

use crate::template::Holes;
use crate::types::Names;
use crate::uses::Uses;
use std::alloc::{AllocError, Global};
use tlsgen_model::plan::{Context, Decided, Element};

/// Sets the holes `by` and `key`, the context's name and its type, and `selected`, which gives the number of what it
/// stands for.
pub fn set<'a>(
    alloc: Global,
    names: &Names<'a>,
    holes: &mut Holes,
    uses: &mut Uses<'a>,
    context: &'a Context,
) -> Result<(), AllocError> {
    let words = names.element(alloc, &context.of)?;
    uses.add_type(words.named)?;
    let mut selected = String::from_str(alloc, "number_of")?;
    if let Element::Message(name) = &context.of {
        uses.add_selected(name.as_str())?;
        let module = names.module(name.as_str()).unwrap_or("");
        selected = format!(in alloc; "{module}_selected")?;
    }
    holes.set("by", String::from_str(alloc, context.name.as_str())?)?;
    holes.set("key", words.texts.filled(alloc, "$rust$")?)?;
    holes.set("selected", selected)
}

/// Sets the holes of what decides a field: `key`, the enum of its tag, and `c`, what the context stands for, or the tag in
/// that.
pub fn set_of_field<'a>(
    alloc: Global,
    names: &Names<'a>,
    holes: &mut Holes,
    uses: &mut Uses<'a>,
    decided: &'a Decided,
) -> Result<(), AllocError> {
    let Decided::Before(before) = decided else {
        return holes.set_all(alloc, &[("c", "c")]);
    };
    let tag = before.tag.as_str();
    uses.add_type(names.module(tag).and(Some(tag)))?;
    holes.set_all(alloc, &[("key", tag)])?;
    let Some(giver) = uses.giver else {
        return holes.set_all(alloc, &[("c", "c")]);
    };
    uses.add_held(giver, tag)?;
    let held = held(alloc, names, giver, tag)?;
    holes.set("c", format!(in alloc; "({held} c)")?)
}

/// The name of the definition of a tag in a message that holds it.
pub fn held(
    alloc: Global,
    names: &Names<'_>,
    holder: &str,
    tag: &str,
) -> Result<String, AllocError> {
    let holder = names.module(holder).unwrap_or("");
    let tag = names.module(tag).unwrap_or(tag);
    format!(in alloc; "{holder}_{tag}")
}
