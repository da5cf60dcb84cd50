//! What a case is made of by `From`.

use crate::templates::contents::{FROM, NONE};
use crate::variant_forms::VariantForm;
use std::alloc::{AllocError, Global};

/// Sets the hole `from_content` of each case: its `From`, if it has one field, of a type that no other such case has.
///
/// Types are distinguished by their format, not by their name: an alias of a type has its format.
pub fn set(alloc: Global, parts: &mut [VariantForm]) -> Result<(), AllocError> {
    let templates = templates_of(alloc, parts)?;
    for (part, template) in parts.iter_mut().zip(&templates) {
        part.holes.set_each(alloc, &[("from_content", *template)])?;
    }
    Ok(())
}

// The template of each case.
fn templates_of(alloc: Global, parts: &[VariantForm]) -> Result<Vec<&'static str>, AllocError> {
    let formats = formats_of(alloc, parts)?;
    let mut templates = vec![in alloc; NONE; parts.len()]?;
    for i in 0..formats.len() {
        if let Some(at) = place_of_only(formats.as_slice(), i)
            && let Some(template) = templates.get_mut(at)
        {
            *template = FROM;
        }
    }
    Ok(templates)
}

// The format of each case of one field, in order, and where the case is.
fn formats_of(alloc: Global, parts: &[VariantForm]) -> Result<Vec<(String, usize)>, AllocError> {
    let mut formats = Vec::new(alloc);
    for (at, part) in parts.iter().enumerate() {
        if part.fields == 1 {
            formats.push((part.holes.filled(alloc, "$format$")?, at))?;
        }
    }
    formats.sort()?;
    Ok(formats)
}

// Where the case with this format is, if no other has it. Formats that are the same are beside each other.
fn place_of_only(formats: &[(String, usize)], i: usize) -> Option<usize> {
    let (before, from) = formats.split_at_checked(i)?;
    let ((own, at), behind) = from.split_first()?;
    if is_of(before.last(), own) || is_of(behind.first(), own) {
        return None;
    }
    Some(*at)
}

// Whether a case is there, and has this format.
fn is_of(case: Option<&(String, usize)>, format: &String) -> bool {
    match case {
        Some((own, _)) => own == format,
        None => false,
    }
}
