// Texts that aren't in the language.
use super::presentation::rejection_of;
use super::same_at;
use std::test::Fail;

// Texts that are rejected, each with the place, what is there, and what would be right.
static BAD: [(&str, usize, usize, &str, &str); 53] = [
    ("enum", 1, 5, "", "{"),
    (
        "{",
        1,
        1,
        "{",
        "enum, open, struct, borrowed, digitally-signed or the name of a type",
    ),
    ("\n  é", 2, 3, "é", "an ASCII character"),
    ("/* é */", 1, 4, "é", "an ASCII character"),
    ("uint8 a; /* uint8", 1, 10, "/*", "a comment that ends"),
    (
        "uint8 a[18446744073709551616];",
        1,
        9,
        "18446744073709551616",
        "a number of 64 bits, as 12, 0x0a or 2^16-1",
    ),
    (
        "uint8 a<0..2^64>;",
        1,
        12,
        "2^64",
        "a number of 64 bits, as 12, 0x0a or 2^16-1",
    ),
    (
        "uint8 a[1-2];",
        1,
        9,
        "1-2",
        "a number of 64 bits, as 12, 0x0a or 2^16-1",
    ),
    (
        "uint8 a[12ab];",
        1,
        9,
        "12ab",
        "a number of 64 bits, as 12, 0x0a or 2^16-1",
    ),
    ("uint8 #;", 1, 7, "#", "a word, a number or a mark"),
    (
        "uint8 A;;",
        1,
        9,
        ";",
        "enum, open, struct, borrowed, digitally-signed or the name of a type",
    ),
    (
        ";uint8 A;",
        1,
        1,
        ";",
        "enum, open, struct, borrowed, digitally-signed or the name of a type",
    ),
    ("uint8 struct;", 1, 7, "struct", "the new name of the type"),
    ("optional A b;", 1, 10, "A", "<"),
    ("struct { uint8; } A;", 1, 15, ";", "the field's name"),
    (
        "enum { a(1..b) } A;",
        1,
        13,
        "b",
        "the last number of the range",
    ),
    (
        "struct { uint8 a = ; } A;",
        1,
        20,
        ";",
        "the name of a value, a number or {",
    ),
    ("struct { uint8 a = {1 2}; } A;", 1, 23, "2", ", or }"),
    ("uint8 a = b;", 1, 9, "=", "[, < or ;"),
    ("open struct {} A;", 1, 6, "struct", "enum"),
    ("borrowed enum { a(1) } A;", 1, 10, "enum", "struct"),
    ("enum {} A;", 1, 7, "}", "a value's name or ("),
    ("enum { a(1) b(2) } A;", 1, 13, "b", ", or }"),
    ("enum { a(b) } A;", 1, 10, "b", "the value's number"),
    ("enum { a(0x0a };", 1, 15, "}", ".. or )"),
    ("struct {\n\tuint8 a<2^8>;\n} A;", 2, 13, ">", ".."),
    ("struct { uint8 a<V; } A;", 1, 19, ";", ">"),
    (
        "struct { uint8 a[]; } A;",
        1,
        18,
        "]",
        "the number of elements, or the name of a field",
    ),
    ("struct { uint8 a[b c]; } A;", 1, 20, "c", ". or ]"),
    ("struct { uint8 a } A;", 1, 18, "}", "[, <, = or ;"),
    ("struct { uint8 a; }", 1, 20, "", "the struct's name"),
    ("struct { optional A a; } A;", 1, 19, "A", "<"),
    (
        "struct { select (A.) {} } A;",
        1,
        20,
        ")",
        "the name of a field",
    ),
    (
        "struct { select (A.a) { uint8 a; } } A;",
        1,
        25,
        "uint8",
        "case or }",
    ),
    (
        "struct { select (A.a) { case: uint8 a; } } A;",
        1,
        29,
        ":",
        "the name or the number of a value",
    ),
    (
        "struct { select (A.a) { case a: } } A;",
        1,
        33,
        "}",
        "the name of a type",
    ),
    (
        "struct { select (A.a) { case a: struct { uint8 a; }; } } A;",
        1,
        42,
        "uint8",
        "} of struct {}: a struct with fields is no case's, but a definition of its own",
    ),
    ("enum { 1 2(3) } A;", 1, 10, "2", "("),
    // types in place
    (
        "struct { enum { a(1) }; } A;",
        1,
        23,
        ";",
        "the field's name",
    ),
    (
        "struct { enum { a(1) } b = a; } A;",
        1,
        26,
        "=",
        "[, < or ;",
    ),
    ("struct { open struct {} a; } A;", 1, 15, "struct", "enum"),
    (
        "struct { struct { struct {} a; } b; } A;",
        1,
        19,
        "struct",
        "the name of a type: an enum or a struct may stand in a struct that is a definition",
    ),
    (
        "struct { struct { open enum { a(1) } a; } b; } A;",
        1,
        19,
        "open",
        "the name of a type: an enum or a struct may stand in a struct that is a definition",
    ),
    (
        "struct { digitally-signed struct { enum { a(1) } a; }; } A;",
        1,
        36,
        "enum",
        "the name of a type: an enum or a struct may stand in a struct that is a definition",
    ),
    // signatures
    ("digitally-signed opaque A;", 1, 18, "opaque", "struct"),
    (
        "struct { digitally-signed opaque a; } A;",
        1,
        27,
        "opaque",
        "struct",
    ),
    (
        "struct { digitally-signed struct { uint8 a; } b c; } A;",
        1,
        47,
        "b",
        "the signature's name or ;",
    ),
    (
        "struct { digitally-signed struct { digitally-signed struct {}; }; } A;",
        1,
        36,
        "digitally-signed",
        "the name of a type",
    ),
    (
        "struct { select (A.a) { case a: digitally-signed struct {}; } } A;",
        1,
        33,
        "digitally-signed",
        "the name of a type",
    ),
    (
        "borrowed digitally-signed struct {} A;",
        1,
        10,
        "digitally-signed",
        "struct",
    ),
    (
        "uint8 digitally-signed;",
        1,
        7,
        "digitally-signed",
        "the new name of the type",
    ),
    (
        "stream-ciphered struct {} A;",
        1,
        1,
        "stream-ciphered",
        "a name without a hyphen, or digitally-signed",
    ),
    (
        "uint8 a-b;",
        1,
        7,
        "a-b",
        "a name without a hyphen, or digitally-signed",
    ),
];

#[test]
fn rejections(rt: HostRuntime) -> Result<(), Fail> {
    for (text, line, column, found, expected) in &BAD {
        let rejection = rejection_of(&rt, rt.alloc(), text);
        same_at(&rt, *text, rejection.place.line, *line);
        same_at(&rt, *text, rejection.place.column, *column);
        same_at(&rt, *text, rejection.found.as_str(), *found);
        same_at(&rt, *text, rejection.expected, *expected);
    }
    Ok(())
}
