//! The names in the written sources, from those of a text.
ghost use Rattle.std.specs.Prelude.{◌↔◌, IfOk, IsTrue, string_bytes};
ghost use Rattle.tlsgen_model.specs.Names.{BeginsWithLetter};

use crate::words::{is_crate_word, is_module_word, is_variant_word, is_word};
use std::alloc::{AllocError, Global};

/// Whether a crate can have this name: small letters, digits and `_`, with a letter first, no word of Rust, and no crate
/// that a written one is over.
pub fn is_crate_name(name: &str) -> bool {
    let bytes = name.as_bytes();
    bytes
        .first()
        .is_some_and(|first| first.is_ascii_lowercase())
        && bytes.iter().all(|byte| is_of_crate(*byte))
        && !is_module_word(name)
        && !is_crate_word(name)
}

fn is_of_crate(byte: u8) -> bool {
    byte.is_ascii_lowercase() || byte.is_ascii_digit() || byte == b'_'
}

/// The module of a type: `leaf_node` for `LeafNode`.
pub fn module_name(alloc: Global, name: &str) -> Result<String, AllocError>
    ensures { IfOk result (λ name. BeginsWithLetter (string_bytes name)) }
{
    let out = snake(alloc, name)?;
    lettered(alloc, out)
}

/// The name of a field: its own, in lower case, or another where that is a word of Rust or of the definitions.
pub fn field_name(alloc: Global, name: &str) -> Result<String, AllocError>
    ensures { IfOk result (λ name. BeginsWithLetter (string_bytes name)) }
{
    let own = snake(alloc, name)?;
    let out = match own.as_str() {
        "type" => String::from_str(alloc, "kind")?,
        "ref" => String::from_str(alloc, "reference")?,
        "match" => String::from_str(alloc, "matching")?,
        "use" => String::from_str(alloc, "usage")?,
        "self" => String::from_str(alloc, "itself")?,
        word if is_word(word) => format!(in alloc; "{word}_")?,
        word => String::from_str(alloc, word)?,
    };
    lettered(alloc, out)
}

/// The name of a variant of `of`: `NewMember` for `new_member`, `V512` for `512`.
pub fn variant_name(alloc: Global, name: &str, of: &str) -> Result<String, AllocError>
    ensures { IfOk result (λ name. BeginsWithLetter (string_bytes name)) }
{
    let mut out = camel(alloc, name)?;
    if is_variant_word(out.as_str()) || out.as_str() == of {
        out.push_str("Case")?;
    }
    capital_lettered(alloc, out)
}

/// The name of a tag's constant: `NEW_MEMBER` for `new_member`, `V512` for `512`.
pub fn constant_name(alloc: Global, name: &str) -> Result<String, AllocError>
    ensures { IfOk result (λ name. BeginsWithLetter (string_bytes name)) }
{
    let out = name.chars().map(|c| c.to_ascii_uppercase()).collect(alloc)?;
    capital_lettered(alloc, out)
}

// The name, after an `x` if it doesn't begin with a letter.
fn lettered(alloc: Global, name: String) -> Result<String, AllocError>
    ensures { IfOk result (λ name. BeginsWithLetter (string_bytes name)) }
{
    if begins_with_letter(name.as_str()) {
        return Ok(name);
    }
    format!(in alloc; "x{name}")
}

// The name, after a `V` if it doesn't begin with a letter.
fn capital_lettered(alloc: Global, name: String) -> Result<String, AllocError>
    ensures { IfOk result (λ name. BeginsWithLetter (string_bytes name)) }
{
    if begins_with_letter(name.as_str()) {
        return Ok(name);
    }
    format!(in alloc; "V{name}")
}

fn begins_with_letter(name: &str) -> bool
    ensures { IsTrue result ↔ BeginsWithLetter name.now }
{
    match name.as_bytes() {
        [] => false,
        [first, ..] => first.is_ascii_alphabetic(),
    }
}

// An underscore goes before a capital that begins a word: after a small letter or a digit, or before a small
// letter (as the last capital of `HPKEPublic`).
fn snake(alloc: Global, name: &str) -> Result<String, AllocError> {
    let mut out = String::new(alloc);
    let mut before = '_';
    let mut others = name.chars().peekable();
    for _ in 0..name.len() {
        let Some(c) = others.next() else {
            break;
        };
        let is_before_small = others.peek().is_some_and(|next| next.is_ascii_lowercase());
        if c.is_ascii_uppercase() && is_end_of_word(before, is_before_small) {
            out.push('_')?;
        }
        out.push(c.to_ascii_lowercase())?;
        before = c;
    }
    Ok(out)
}

fn is_end_of_word(before: char, is_before_small: bool) -> bool {
    before.is_ascii_lowercase()
        || before.is_ascii_digit()
        || (before.is_ascii_uppercase() && is_before_small)
}

// Each word between underscores with a capital first. One of capitals alone has small letters then.
fn camel(alloc: Global, name: &str) -> Result<String, AllocError> {
    let mut out = String::new(alloc);
    for word in name.split('_') {
        push_capital(&mut out, word)?;
    }
    Ok(out)
}

fn push_capital(out: &mut String, word: &str) -> Result<(), AllocError> {
    let is_mixed = word.chars().any(|c| c.is_ascii_lowercase());
    let mut is_first = true;
    for c in word.chars() {
        out.push(match (is_first, is_mixed) {
            (true, _) => c.to_ascii_uppercase(),
            (false, true) => c,
            (false, false) => c.to_ascii_lowercase(),
        })?;
        is_first = false;
    }
    Ok(())
}
