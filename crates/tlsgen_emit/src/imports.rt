//! Which lines of imports a text needs.

use crate::types::Names;
use crate::vocabulary::{
    CASES_OF_FIELDS, CHOSEN, CLAUSES, CONTENTS, ENCLOSED, EXACTLY, HELD, LAWS, LEMMAS, NAMES,
    PLACING, PRELUDE, SUMS, VALIDATING, VALIDATION, VIEWING, WORDS,
};
use std::alloc::{AllocError, Global};
use std::collections::BTreeSet;

// The lines of a text and their words, without its comments and without the names of fields after
// a dot.
#[derive(Drop)]
struct Text<'a> {
    lines: Vec<&'a str>,
    words: BTreeSet<&'a str>,
}

impl<'a> Text<'a> {
    fn of(alloc: Global, text: &'a str) -> Result<Text<'a>, AllocError> {
        let mut lines = Vec::new(alloc);
        let mut words = BTreeSet::new(alloc);
        for line in text.lines() {
            if line.trim_start().starts_with("//") {
                continue;
            }
            lines.push(line)?;
            for word in line.split(is_between_paths) {
                let own = word.split('.').next();
                words.insert(own.unwrap_or(word))?;
            }
        }
        Ok(Text { lines, words })
    }

    // Whether it has a word, or the sign of an operator such as `◌≡◌`. Only in clauses does code
    // have `Some` before a blank, and `[]` after one.
    fn has(&self, word: &str) -> bool {
        match word {
            "Some" => self.has_sign("Some ("),
            "[]" => self.has_sign(" []"),
            _ if word.contains(is_between_words) => self.has_sign(word.trim_matches('◌')),
            _ => self.words.contains(word),
        }
    }

    fn has_sign(&self, sign: &str) -> bool {
        self.lines.iter().any(|line| line.contains(sign))
    }

    // Which of these words the text has.
    fn used(&self, alloc: Global, words: &[&'static str]) -> Result<Vec<&'static str>, AllocError> {
        let mut used = Vec::new(alloc);
        for word in words {
            if self.has(word) {
                used.push(*word)?;
            }
        }
        Ok(used)
    }

    // Which of these names of the cases the text has, and which of the names for a field's type. Sorted.
    fn cases(
        &self,
        alloc: Global,
        cases: &[&'static str],
    ) -> Result<Vec<&'static str>, AllocError> {
        let mut used = self.used(alloc, cases)?;
        let of_fields = self.used(alloc, &CASES_OF_FIELDS)?;
        used.extend_from_slice(of_fields.as_slice())?;
        used.sort()?;
        Ok(used)
    }

    // Adds `use path.{a, b}`, a line of definitions and answers. Nothing for no names.
    fn push_use(
        &self,
        alloc: Global,
        out: &mut String,
        path: &str,
        words: &[&'static str],
    ) -> Result<(), AllocError> {
        let names = self.used(alloc, words)?.as_slice().join(alloc, ", ")?;
        if names.is_empty() {
            return Ok(());
        }
        writeln!(out, "use {path}.{{{names}}}")
    }
}

/// Whether a character ends a word of Rust or of the definitions.
pub fn is_between_words(c: char) -> bool {
    !c.is_ascii_alphanumeric() && c != '_'
}

// Whether a character ends a word together with the names of fields after it, such as `v.length`.
fn is_between_paths(c: char) -> bool {
    c != '.' && is_between_words(c)
}

/// Adds the lines of a file of definitions, except those of its own message.
pub fn push_definitions(alloc: Global, out: &mut String, text: &str) -> Result<(), AllocError> {
    let brought = [
        ("Rattle.std.proofs.Common", ["arith"].as_slice()),
        ("Rattle.std.specs.Prelude", PRELUDE.as_slice()),
        ("Rattle.tls_codec.specs.OwnMessages", WORDS.as_slice()),
        ("Rattle.tls_codec.specs.Contents", CONTENTS.as_slice()),
        ("Rattle.tls_codec_cases.specs.Sums", SUMS.as_slice()),
        ("Rattle.tls_codec_cases.specs.Enclosed", ENCLOSED.as_slice()),
        ("Rattle.tls_codec_cases.specs.Exactly", EXACTLY.as_slice()),
        ("Rattle.tls_codec_cases.specs.Chosen", CHOSEN.as_slice()),
        ("Rattle.tls_codec_cases.specs.Held", HELD.as_slice()),
    ];
    push_uses(alloc, out, text, &brought)
}

/// Adds the lines of a file of answers, except those of the message's definitions.
pub fn push_answers(alloc: Global, out: &mut String, text: &str) -> Result<(), AllocError> {
    let brought = [
        (
            "Rattle.std.proofs.Common",
            ["rules", "refl", "sym"].as_slice(),
        ),
        ("Rattle.tls_codec.specs.OwnMessages", LAWS.as_slice()),
        ("Rattle.tls_codec.proofs.OwnMessages", LEMMAS.as_slice()),
        (
            "Rattle.tls_codec_validate.proofs.Tagging",
            PLACING.as_slice(),
        ),
        (
            "Rattle.tls_codec_validate.proofs.Validating",
            VALIDATING.as_slice(),
        ),
    ];
    push_uses(alloc, out, text, &brought)
}

// Adds the lines for what a text takes of these, each words after their path.
fn push_uses(
    alloc: Global,
    out: &mut String,
    text: &str,
    brought: &[(&str, &[&'static str])],
) -> Result<(), AllocError> {
    let text = Text::of(alloc, text)?;
    for (path, words) in brought {
        text.push_use(alloc, out, path, words)?;
    }
    Ok(())
}

/// Adds the line for what the clauses of a module take of std.
pub fn push_clauses(alloc: Global, out: &mut String, text: &str) -> Result<(), AllocError> {
    let text = Text::of(alloc, text)?;
    let names = text.used(alloc, &CLAUSES)?.as_slice().join(alloc, ", ")?;
    writeln!(out, "ghost use Rattle.std.specs.Prelude.{{{names}}};")
}

/// The lines of a module, which has these types of its crate and of others, and may have these names of the cases.
pub fn code(
    alloc: Global,
    names: &Names<'_>,
    text: &str,
    types: &[&str],
    cases: &[&'static str],
) -> Result<String, AllocError> {
    let mut lines = UseLines::new(alloc);
    lines.add_types(alloc, names, None, types)?;
    for other in names.crates {
        lines.add_types(alloc, names, Some(other.as_str()), types)?;
    }
    let text = Text::of(alloc, text)?;
    if text.has("fmt") {
        lines.add_module(alloc, "std::fmt")?;
    }
    lines.add(
        alloc,
        "std::alloc",
        text.used(alloc, &["Global"])?.as_slice(),
    )?;
    lines.add(
        alloc,
        "std::marker",
        text.used(alloc, &["PhantomData"])?.as_slice(),
    )?;
    lines.add(alloc, "tls_codec", text.used(alloc, &NAMES)?.as_slice())?;
    lines.add(
        alloc,
        "tls_codec_cases",
        text.cases(alloc, cases)?.as_slice(),
    )?;
    lines.add(
        alloc,
        "tls_codec_validate",
        text.used(alloc, &VALIDATION)?.as_slice(),
    )?;
    lines.add(
        alloc,
        "tls_codec_views",
        text.used(alloc, &VIEWING)?.as_slice(),
    )?;
    lines.into_text(alloc)
}

/// Lines of imports in the order of `rt fmt`, each after what it is ordered by.
#[derive(Drop)]
pub struct UseLines {
    lines: Vec<(String, String)>,
}

impl UseLines {
    pub fn new(alloc: Global) -> UseLines {
        UseLines {
            lines: Vec::new(alloc),
        }
    }

    /// Adds a line for these names, if there are any.
    pub fn add(&mut self, alloc: Global, path: &str, names: &[&str]) -> Result<(), AllocError> {
        if names.is_empty() {
            return Ok(());
        }
        let mut line = String::new(alloc);
        push_rust_use(alloc, &mut line, path, names)?;
        self.lines.push((order_of(alloc, path)?, line))?;
        Ok(())
    }

    // Adds the line for a module.
    fn add_module(&mut self, alloc: Global, path: &str) -> Result<(), AllocError> {
        let line = format!(in alloc; "use {path};\n")?;
        self.lines.push((order_of(alloc, path)?, line))?;
        Ok(())
    }

    // Adds the line for the types that are in this crate, or in another one.
    fn add_types(
        &mut self,
        alloc: Global,
        names: &Names<'_>,
        home: Option<&str>,
        types: &[&str],
    ) -> Result<(), AllocError> {
        let mut found = Vec::new(alloc);
        for name in types {
            if names.other_crate(name) == home {
                found.push(*name)?;
            }
        }
        self.add(alloc, home.unwrap_or("crate"), found.as_slice())
    }

    /// The lines.
    pub fn into_text(self, alloc: Global) -> Result<String, AllocError> {
        let mut lines = self.lines;
        lines.sort()?;
        let mut out = String::new(alloc);
        for (_, line) in &lines {
            out.push_str(line.as_str())?;
        }
        Ok(out)
    }
}

// What a path is ordered by: this crate comes first, and an underscore before all other characters.
fn order_of(alloc: Global, path: &str) -> Result<String, AllocError> {
    if path == "crate" || path.starts_with("crate::") {
        return Ok(String::new(alloc));
    }
    path.replace(alloc, '_', " ")
}

/// Adds `use path::{a, b};`, and `use path::a;` for one name. Nothing for none.
pub fn push_rust_use(
    alloc: Global,
    out: &mut String,
    path: &str,
    names: &[&str],
) -> Result<(), AllocError> {
    match names {
        [] => Ok(()),
        [name] => writeln!(out, "use {path}::{name};"),
        _ => {
            let names = names.join(alloc, ", ")?;
            writeln!(out, "use {path}::{{{names}}};")
        }
    }
}
