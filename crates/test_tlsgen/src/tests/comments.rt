// What comments say of names, and the sections of definitions.
use crate::tests::{made, same, same_at};
use std::alloc::{AllocError, Global};
use std::process::Abort;
use std::test::Fail;
use tlsgen_model::plan::Body;
use tlsgen_syntax::lexer::lex;
use tlsgen_syntax::rejection::Trouble;
use tlsgen_syntax::token::Token;

const WHOLE: &str = "// As RFC 9420 has it.

// ---- section 6.3.2, sender data

// Who sent it.
//  It is   borrowed.
struct {
    uint32 leaf; // Its leaf,
                 // or none.
    /* Its
     * age. */
    uint32 age;
} SenderData;
";

// In each field but the first and in `H` a comment is on a name.
const SELECT: &str = "struct {
    T a;
    // b
    select (a) { // c
        case d: /* e */ uint8 f; // g
        case h: H; /* i */
    }; // j
    uint8 k; // k
} S;";

// Each text, and what is said of its names.
static SAID: [(&str, &str); 22] = [
    (
        WHOLE,
        "leaf: Its leaf,|or none.\nage: Its|age.\nSenderData (RFC 9420, section 6.3.2): Who sent it.|It is borrowed.\n",
    ),
    ("/* a */ /* b */\nuint8 A; /* c */ // d", "A: a|b|c|d\n"),
    ("// a */ b\nuint8 A; // */ c */", "A: a */ b|/ c */\n"),
    ("// One.\r\n// Two.\r\nuint8 A;\r\n", "A: One.|Two.\n"),
    ("// a\tb\u{1}c\u{b}\nuint8 A;", "A: a bc\n"),
    ("//\n//! a\n//\n/**\n * b\n **/\nuint8 A;", "A: ! a|b\n"),
    ("uint8 A;\n// a\n/* b */", ""),
    ("// a\n\nuint8 A;", ""),
    ("// a\n\n// b\nuint8 A;", "A: b\n"),
    ("/* a */ uint8 A; uint8 B; /* b */", "A: a\nB: b\n"),
    (
        "enum { /* a */ a(1), /* b */ b(2) // c\n } E; // d",
        "a: b\nb: c\nE: d\n",
    ),
    ("enum { a(1), // a\n // b\n (255) /* c */ } E;", "a: a\n"),
    (
        "// a\nenum {\n    // b\n    b(1..2) // c\n} E;",
        "b: b|c\nE: a\n",
    ),
    ("struct { opaque /* a */ a<V>; /* b */ } S;", "a: b\n"),
    ("struct { /* a */ } S;", ""),
    (
        "struct {\n    // a\n    optional<A> b<V>;\n    uint16 c = {254, 253}; // d\n} S;",
        "b: a\nc: d\n",
    ),
    (SELECT, "f: g\nH: i\nk: k\n"),
    (
        "struct { T a; select (a) { case b: B; } /* c */ d; /* e */ } S;",
        "d: e\n",
    ),
    (
        "// ---- appendix B.1.\nuint8 A;\n// ---- others\nuint8 B;",
        "A (appendix B.1)\n",
    ),
    (
        "// ---- RFC 5246, section 4.7, a\nuint8 A;\n// ------ section 5\n// b\nuint8 B;",
        "A (RFC 5246, section 4.7)\nB (RFC 5246, section 5): b\n",
    ),
    (
        "// ---- section x\nuint8 A;\n/* ---- section 3 */\nuint8 B;",
        "B: ---- section 3\n",
    ),
    (
        "// RFC 1, and RFC 2\n// ---- section 3\nuint8 A;",
        "A (RFC 1, section 3)\n",
    ),
];

#[test]
fn what_comments_say(rt: HostRuntime) -> Result<(), Fail> {
    for (text, want) in &SAID {
        let said = said(rt.alloc(), &tokens_of(&rt, rt.alloc(), text))?;
        same_at(&rt, *text, said.as_str(), *want);
    }
    Ok(())
}

fn tokens_of(rt: &impl Abort, alloc: Global, text: &str) -> Vec<Token> {
    match lex(alloc, text) {
        Ok(tokens) => tokens,
        Err(Trouble::Rejected(rejection)) => panic!(rt; "{rejection}"),
        Err(Trouble::Memory) => panic!(rt; "out of memory"),
        Err(Trouble::Inconsistent) => panic!(rt; "a fault of tlsgen"),
    }
}

// A line for each token that has a section or a comment.
fn said(alloc: Global, tokens: &[Token]) -> Result<String, AllocError> {
    let mut out = String::new(alloc);
    for token in tokens {
        push_said(alloc, &mut out, token)?;
    }
    Ok(out)
}

fn push_said(alloc: Global, out: &mut String, token: &Token) -> Result<(), AllocError> {
    let section = token.remark.section.as_str();
    let text = token.remark.text.replace(alloc, '\n', "|")?;
    let kind = &token.kind;
    match (section.is_empty(), text.is_empty()) {
        (true, true) => Ok(()),
        (true, false) => writeln!(out, "{kind}: {text}"),
        (false, true) => writeln!(out, "{kind} ({section})"),
        (false, false) => writeln!(out, "{kind} ({section}): {text}"),
    }
}

#[test]
fn comments_in_a_plan(rt: HostRuntime) -> Result<(), Fail> {
    let plan = made(&rt, rt.alloc(), WHOLE);
    for message in &plan.messages {
        same(
            &rt,
            message.doc.as_str(),
            "`SenderData` (RFC 9420, section 6.3.2).\n\nWho sent it.\nIt is borrowed.",
        );
        if let Body::Fields(members) = &message.body {
            for member in members {
                let is_said = member.comment.starts_with("Its");
                same_at(&rt, member.comment.as_str(), is_said, true);
            }
        }
    }
    same(&rt, plan.messages.len(), 1);
    Ok(())
}

// Of definitions that are made of others, and of other names.
#[test]
fn sections_in_a_plan(rt: HostRuntime) -> Result<(), Fail> {
    let plan = made(
        &rt,
        rt.alloc(),
        "// ---- section 3
        opaque DigitallySigned<V>;
        // b
        struct { digitally-signed struct { uint8 a; }; } S;",
    );
    let mut docs = String::new(rt.alloc());
    for message in &plan.messages {
        docs.push_str(message.doc.as_str())?;
    }
    for alias in &plan.aliases {
        docs.push_str(alias.doc.as_str())?;
    }
    same(
        &rt,
        docs.as_str(),
        "`STBS` (section 3).`S` (section 3).\n\nb`opaque DigitallySigned<V>;` (section 3).",
    );
    Ok(())
}
