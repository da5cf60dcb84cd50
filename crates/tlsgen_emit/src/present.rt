//! Fields that are present for some numbers of a tag only: no byte says whether they are.

use crate::template::Holes;
use crate::types::{Names, Words};
use crate::uses::Uses;
use std::alloc::{AllocError, Global};
use tlsgen_model::plan::Decided;

/// The words for an option of a field's type, for these numbers of what decides it; the holes `payload` and `condition`.
pub fn words_of<'a>(
    alloc: Global,
    names: &Names<'a>,
    uses: &mut Uses<'a>,
    of: Words<'a>,
    decided: &'a Decided,
    numbers: &[u64],
) -> Result<Words<'a>, AllocError> {
    let tag = match decided {
        Decided::Before(before) => before.tag.as_str(),
        _ => uses.selected.first().copied().unwrap_or(""),
    };
    uses.add_selected(tag)?;
    let module = names.module(tag).unwrap_or("");
    let payload = of.texts.filled(alloc, "$rust$")?;
    let mut holes = Holes::new(alloc);
    holes.set("test", test(alloc, module, numbers)?)?;
    let mut words = names.present(alloc, holes, of)?;
    words.texts.set("payload", payload)?;
    words.texts.set("condition", condition(alloc, numbers)?)?;
    Ok(words)
}

// `(tag_selected $c$ == 1) || (tag_selected $c$ == 4)`: the hole `c` is for what the context stands for.
fn test(alloc: Global, module: &str, numbers: &[u64]) -> Result<String, AllocError> {
    let mut out = String::new(alloc);
    let Some((last, others)) = numbers.split_last() else {
        return Ok(out);
    };
    for number in others {
        write!(out, "({module}_selected $c$ == {number}) || (")?;
    }
    write!(out, "{module}_selected $c$ == {last}")?;
    for _ in others {
        out.push_str(")")?;
    }
    Ok(out)
}

// `AnyOf<Is<1>, Is<4>>`
fn condition(alloc: Global, numbers: &[u64]) -> Result<String, AllocError> {
    let mut out = String::new(alloc);
    let Some((last, others)) = numbers.split_last() else {
        return Ok(out);
    };
    for number in others {
        write!(out, "AnyOf<Is<{number}>, ")?;
    }
    write!(out, "Is<{last}>")?;
    for _ in others {
        out.push_str(">")?;
    }
    Ok(out)
}
