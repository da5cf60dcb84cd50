//! The cases of a sum, which nest evenly as pairs.

use crate::template::Holes;
use crate::templates::sums::{ALONE, BORROWED, ENCLOSED, OWNED, Wrapping};
use crate::variant_forms::VariantForm;
use std::alloc::{AllocError, Global};
use tlsgen_model::plan::Variant;

// How two texts become one.
#[derive(Clone, Copy)]
struct Pair {
    open: &'static str,
    between: &'static str,
    close: &'static str,
}

static TYPES: Pair = Pair {
    open: "Or<",
    between: ", ",
    close: ">",
};

static FORMATS: Pair = Pair {
    open: "either_variants (",
    between: ") (",
    close: ")",
};

static LAWS: Pair = Pair {
    open: "either_variants_meet (",
    between: ") (",
    close: ")",
};

// A sum of more cases than a `usize` counts would be deeper.
const DEEPEST: usize = 64;

impl Pair {
    // One text for all.
    fn joined(&self, alloc: Global, texts: Vec<String>) -> Result<String, AllocError> {
        let mut texts = texts;
        for _ in 0..DEEPEST {
            if texts.len() <= 1 {
                break;
            }
            texts = self.halved(alloc, texts.as_slice())?;
        }
        texts.as_slice().join(alloc, "")
    }

    // Each two as one. The last stays as it is if it is alone.
    fn halved(&self, alloc: Global, texts: &[String]) -> Result<Vec<String>, AllocError> {
        let (open, between, close) = (self.open, self.between, self.close);
        let mut halved = Vec::new(alloc);
        for pair in texts.chunks(2) {
            halved.push(match pair {
                [first, second] => format!(in alloc; "{open}{first}{between}{second}{close}")?,
                _ => pair.join(alloc, "")?,
            })?;
        }
        Ok(halved)
    }
}

/// Sets the holes of a sum's cases. Each case fills the length if there is one.
pub fn set_cases(
    alloc: Global,
    parts: &mut [VariantForm],
    has_length: bool,
    variants: &[Variant],
) -> Result<(), AllocError> {
    let count = parts.len();
    for (at, (part, variant)) in parts.iter_mut().zip(variants).enumerate() {
        let is_enclosed = has_length && !variant.fills;
        let wrapping = if is_enclosed { &ENCLOSED } else { &ALONE };
        set_case(alloc, &mut part.holes, at, count, wrapping)?;
    }
    Ok(())
}

// Sets the holes of a case: `side` and `ends`, around what it is in the sum, as `Or::First(Or::Second(` and `))`, and those
// of the wrapping.
fn set_case(
    alloc: Global,
    holes: &mut Holes,
    at: usize,
    count: usize,
    wrapping: Wrapping,
) -> Result<(), AllocError> {
    let mut side = String::new(alloc);
    let mut ends = String::new(alloc);
    let (mut at, mut count) = (at, count);
    for _ in 0..DEEPEST {
        if count <= 1 {
            break;
        }
        let of_pair = if at % 2 == 1 { "Second" } else { "First" };
        if at % 2 == 1 || at != count - 1 {
            side = format!(in alloc; "Or::{of_pair}({side}")?;
            ends.push_str(")")?;
        }
        at /= 2;
        count = count.div_ceil(2);
    }
    holes.set("side", side)?;
    holes.set("ends", ends)?;
    holes.set_each(alloc, wrapping)
}

/// Sets the holes of a sum: `sum`, `borrowed_sum`, `formats` and `laws` for all its cases, and those of the wrapping.
pub fn set(
    alloc: Global,
    holes: &mut Holes,
    parts: &[VariantForm],
    wrapping: Wrapping,
) -> Result<(), AllocError> {
    let texts = [
        ("sum", "$case$", &TYPES),
        ("borrowed_sum", "$borrowed_case$", &TYPES),
        ("sum_format", "$case_format$", &FORMATS),
        ("sum_law", "$case_law$", &LAWS),
    ];
    for (word, template, pair) in texts {
        holes.set(word, pair.joined(alloc, each(alloc, parts, template)?)?)?;
    }
    holes.set_each(
        alloc,
        &[
            ("formats", "    $sum_format$"),
            ("laws", "    $sum_law$"),
            ("closing", ""),
        ],
    )?;
    holes.set_each(alloc, wrapping)?;
    holes.set_each(alloc, if has_fields(parts) { &BORROWED } else { &OWNED })
}

// A text for each case.
fn each(alloc: Global, parts: &[VariantForm], template: &str) -> Result<Vec<String>, AllocError> {
    let mut texts = Vec::new(alloc);
    for part in parts {
        texts.push(part.holes.filled(alloc, template)?)?;
    }
    Ok(texts)
}

fn has_fields(parts: &[VariantForm]) -> bool {
    parts.iter().any(|part| part.fields > 0)
}
