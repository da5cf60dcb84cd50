// Words of Rust and of the presentation language, as each kind of name.
use super::{made, rejection, same_at};
use std::alloc::Global;
use std::process::Abort;
use std::test::Fail;
use tlsgen_model::names::is_crate_name;
use tlsgen_model::plan::{Body, Member, Plan};

// The keywords of the Rust reference (strict and reserved), `union`, and what a Rattle file has beside these.
static KEYWORDS: [&str; 57] = [
    "as", "async", "await", "break", "const", "continue", "crate", "dyn", "else", "enum", "extern",
    "false", "fn", "for", "if", "impl", "in", "let", "loop", "match", "mod", "move", "mut", "pub",
    "ref", "return", "self", "Self", "static", "struct", "super", "trait", "true", "type",
    "unsafe", "use", "where", "while", "abstract", "become", "box", "do", "final", "gen", "macro",
    "override", "priv", "try", "typeof", "unsized", "virtual", "yield", "union", "ghost",
    "requires", "ensures", "result",
];

// The primitive types, and the names of Rust's prelude and of the library that written code uses.
static TYPES: [&str; 67] = [
    "bool",
    "char",
    "str",
    "u8",
    "u16",
    "u32",
    "u64",
    "u128",
    "usize",
    "i8",
    "i16",
    "i32",
    "i64",
    "i128",
    "isize",
    "f32",
    "f64",
    "Option",
    "Some",
    "None",
    "Result",
    "Ok",
    "Err",
    "String",
    "Vec",
    "Box",
    "Drop",
    "Clone",
    "Copy",
    "Eq",
    "PartialEq",
    "Ord",
    "PartialOrd",
    "Hash",
    "Hasher",
    "Debug",
    "Display",
    "Default",
    "From",
    "Into",
    "TryFrom",
    "TryInto",
    "Iterator",
    "Fn",
    "FnMut",
    "FnOnce",
    "Send",
    "Sync",
    "Sized",
    "ToString",
    "AsRef",
    "Ordering",
    "Formatter",
    "Error",
    "Write",
    "Read",
    "Global",
    "AllocError",
    "AnyOf",
    "ByRefWhen",
    "Choice",
    "Is",
    "Numbered",
    "When",
    "std",
    "core",
    "alloc",
];

// Words of the language that may be names, and those of the definitions in notes and types.
static LANGUAGE: [&str; 14] = [
    "V",
    "rest",
    "counts",
    "fills",
    "zeros",
    "called",
    "closed",
    "left",
    "out",
    "is",
    "with",
    "digitally",
    "signed",
    "signature",
];

// Its types, which no field of a definition of such a name means.
static BUILT_IN: [&str; 9] = [
    "opaque", "string", "uint8", "uint16", "uint24", "uint32", "uint64", "uint8_t", "uint16_t",
];

// Words of the language that are no names.
static MARKS: [&str; 6] = [
    "case",
    "borrowed",
    "open",
    "optional",
    "select",
    "digitally-signed",
];

fn is_word(name: &String) -> bool {
    KEYWORDS.iter().any(|word| name.as_str() == *word)
}

// No name that is written is a keyword.
fn expect_no_keywords(rt: &impl Abort, text: &str, plan: &Plan) {
    for alias in &plan.aliases {
        same_at(rt, text, is_word(&alias.name), false);
    }
    for message in &plan.messages {
        same_at(rt, text, is_word(&message.name), false);
        same_at(rt, text, is_word(&message.module), false);
        expect_no_keywords_in_body(rt, text, &message.body);
    }
}

fn expect_no_keywords_in_body(rt: &impl Abort, text: &str, body: &Body) {
    match body {
        Body::Values { values, .. } => {
            for value in values {
                same_at(rt, text, is_word(&value.name), false);
                same_at(rt, text, is_word(&value.constant), false);
            }
        }
        Body::Fields(fields) => expect_no_keywords_in_fields(rt, text, fields),
        Body::Choice { variants, .. } | Body::Sum { variants, .. } => {
            for variant in variants {
                same_at(rt, text, is_word(&variant.name), false);
                same_at(rt, text, is_word(&variant.constant), false);
                expect_no_keywords_in_fields(rt, text, &variant.fields);
            }
        }
    }
}

fn expect_no_keywords_in_fields(rt: &impl Abort, text: &str, fields: &[Member]) {
    for member in fields {
        same_at(rt, text, is_word(&member.name), false);
    }
}

// A word as a type: a struct's, an enum's and another name.
fn expect_names_a_type(rt: &impl Abort, alloc: Global, word: &str) -> Result<(), Fail> {
    for text in [
        format!(in alloc; "struct {{ uint8 a; }} {word};")?,
        format!(in alloc; "enum {{ a(1), (255) }} {word};")?,
        format!(in alloc; "opaque {word}<V>;")?,
        format!(in alloc; "uint8 other; struct {{ other a; }} {word}; {word} b<V>;")?,
    ] {
        let plan = made(rt, alloc, text.as_str());
        expect_no_keywords(rt, text.as_str(), &plan);
    }
    expect_names_a_field(rt, alloc, word)
}

// A word as a field, a value, a case and a select.
fn expect_names_a_field(rt: &impl Abort, alloc: Global, word: &str) -> Result<(), Fail> {
    for text in [
        format!(in alloc; "struct {{ uint8 {word}; }} S;")?,
        format!(in alloc; "enum {{ {word}(1), (255) }} T;")?,
        format!(in alloc;
            "enum {{ {word}(1), b(2), (255) }} T; struct {{ T t; uint8 a; select (t) {{ case {word}: uint8 {word}; case b: struct {{}}; }} {word}; }} S;"
        )?,
        format!(in alloc;
            "enum {{ {word}(1), b(2), (255) }} T; struct {{ T v = {word}; select (T) {{ case {word}: uint8 {word}; case b: uint16 c; }} }} S;"
        )?,
    ] {
        let plan = made(rt, alloc, text.as_str());
        expect_no_keywords(rt, text.as_str(), &plan);
    }
    Ok(())
}

#[test]
fn keywords_of_rust(rt: HostRuntime) -> Result<(), Fail> {
    for word in &KEYWORDS {
        if *word != "enum" && *word != "struct" {
            expect_names_a_type(&rt, rt.alloc(), word)?;
        }
    }
    Ok(())
}

#[test]
fn types_of_rust(rt: HostRuntime) -> Result<(), Fail> {
    for word in &TYPES {
        expect_names_a_type(&rt, rt.alloc(), word)?;
    }
    Ok(())
}

#[test]
fn words_of_the_language(rt: HostRuntime) -> Result<(), Fail> {
    for word in &LANGUAGE {
        expect_names_a_type(&rt, rt.alloc(), word)?;
    }
    for word in &BUILT_IN {
        expect_names_a_field(&rt, rt.alloc(), word)?;
    }
    Ok(())
}

#[test]
fn words_that_are_no_names(rt: HostRuntime) -> Result<(), Fail> {
    let alloc = rt.alloc();
    for word in MARKS.iter().chain(["enum", "struct"].iter()) {
        for text in [
            format!(in alloc; "uint8 {word};")?,
            format!(in alloc; "struct {{ uint8 a; }} {word};")?,
            format!(in alloc; "struct {{ uint8 {word}; }} S;")?,
            format!(in alloc; "enum {{ {word}(1), (255) }} T;")?,
        ] {
            let rejection = rejection(&rt, alloc, text.as_str());
            same_at(&rt, text.as_str(), rejection.found.as_str(), word);
        }
    }
    Ok(())
}

#[test]
fn names_of_crates(rt: HostRuntime) -> Result<(), Fail> {
    for word in KEYWORDS
        .iter()
        .chain(["std", "core", "alloc", "tls_codec"].iter())
    {
        same_at(&rt, word, is_crate_name(word), false);
    }
    for name in ["", "1a", "_a", "Hello", "he-llo", "he llo", "h\u{e9}llo"] {
        same_at(&rt, name, is_crate_name(name), false);
    }
    for name in ["hello", "tls13", "mls_tree", "a_"] {
        same_at(&rt, name, is_crate_name(name), true);
    }
    Ok(())
}
