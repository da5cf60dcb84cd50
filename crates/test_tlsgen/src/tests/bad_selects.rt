// Structs with selects that are rejected, each with the place, what is there, and a word of what would be right.
use super::{Rejected, expect_rejected};
use std::test::Fail;

static SELECTS: [Rejected; 35] = [
    // selects
    (
        "struct { uint8 t; select (A.u) { case 1: uint8 a; case 2: struct{}; } } A;",
        1,
        29,
        "u",
        "the same bytes",
    ),
    (
        "struct { select (A.t) { case 1: uint8 a; case 2: struct{}; } uint8 t; } A;",
        1,
        20,
        "t",
        "above its select",
    ),
    (
        "struct { uint32 t; } B; struct { select (B.t) { case 1: uint8 a; case 2: struct{}; } } A;",
        1,
        44,
        "t",
        "a tag elsewhere",
    ),
    (
        "struct { select (sender) { case 1: uint8 a; case 2: struct{}; } } A;",
        1,
        18,
        "sender",
        "a tag elsewhere",
    ),
    // two tags elsewhere, an option, a case and a struct with the tag that have what is in a context
    (
        "struct { uint8 t; uint8 u; } B; struct { select (B.t) { case 1: uint8 a; } select (B.u) { case 1: uint8 a; } } A;",
        1,
        86,
        "u",
        "one tag elsewhere",
    ),
    (
        "struct { uint8 t; } B; struct { select (B.t) { case 1: uint8 a; } } A; struct { optional<A> a; } C;",
        1,
        90,
        "A",
        "no option",
    ),
    (
        "struct { uint8 t; } B; struct { select (B.t) { case 1: uint8 a; } } A; struct { uint8 u; select (C.u) { case 1: A a; case 2: struct {}; } } C;",
        1,
        115,
        "a",
        "no field of a case",
    ),
    (
        "struct { uint8 t; } B; struct { select (B.t) { case 1: uint8 a; } } A; borrowed struct { A a; } C;",
        1,
        97,
        "C",
        "no borrowed struct",
    ),
    (
        "struct { uint8 t; select (A.b.t) { case 1: uint8 a; case 2: struct{}; } } A;",
        1,
        29,
        "b",
        "the name of a field",
    ),
    (
        "struct { uint24 t; select (A.t) { case 1: uint8 a; case 2: struct{}; } } A;",
        1,
        10,
        "uint24",
        "1, 2, 4 or 8",
    ),
    (
        "struct { opaque t<V>; select (A.t) { case 1: uint8 a; case 2: struct{}; } } A;",
        1,
        10,
        "opaque",
        "1, 2, 4 or 8",
    ),
    (
        "struct { uint8 t; select (A.t) { case a: uint8 a; case 2: struct{}; } } A;",
        1,
        39,
        "a",
        "a number",
    ),
    (
        "enum { a(1), b(2) } T; struct { T t; select (A.t) { case a: uint8 a; case c: struct{}; } } A;",
        1,
        75,
        "c",
        "a value of the tag's enum",
    ),
    (
        "enum { a(1), b(2) } T; struct { T t; select (A.t) { case a: uint8 a; case 3: struct{}; } } A;",
        1,
        75,
        "3",
        "a value of the tag's enum",
    ),
    (
        "enum { a(1), b(2) } T; struct { T t; select (A.t) { case a: case b: uint8 a; case a: struct{}; } } A;",
        1,
        83,
        "a",
        "no case above",
    ),
    (
        "enum { a(1), b(2) } T; struct { T t; select (A.t) { case a: case b: uint8 a; case 2: struct{}; } } A;",
        1,
        83,
        "b",
        "no case above",
    ),
    (
        "struct { uint8 t; select (A.t) { case 256: uint8 a; case 2: struct{}; } } A;",
        1,
        39,
        "256",
        "bytes",
    ),
    (
        "struct { uint8 t; uint8 a; select (A.t) { case 1: uint8 a; case 2: struct{}; } } A;",
        1,
        57,
        "a",
        "no field before",
    ),
    // types that contain themselves
    ("struct { A a; } A;", 1, 17, "A", "contain itself"),
    (
        "struct { C c; } A; struct { A a; } B; struct { B b<V>; } C;",
        1,
        17,
        "A",
        "contain itself",
    ),
    ("A B; B A;", 1, 3, "B", "contain itself"),
    // structs whose selects have their tags elsewhere
    (
        "struct { uint8 t; uint8 u; select (B.u) { case 1: A a; case 2: struct{}; } } B; struct { select (B.t) { case 1: uint8 a; case 2: struct{}; } } A;",
        1,
        51,
        "A",
        "unless the tag is above it",
    ),
    (
        "A C; struct { uint8 t; A a; } B; struct { select (B.t) { case 1: uint8 a; case 2: struct{}; } } A;",
        1,
        1,
        "A",
        "have their tags in it",
    ),
    // several selects on one tag
    (
        "struct { uint8 t; select (A.t) { case 1: uint8 a; case 2: struct{}; } select (A.t) { case 1: uint8 b; case 3: struct{}; } } A;",
        1,
        71,
        "select",
        "the same cases",
    ),
    (
        "struct { uint8 t; select (A.t) { case 1: uint8 a; case 2: struct{}; } B; select (A.t) { case 1: uint8 b; case 2: struct{}; } C; } A;",
        1,
        71,
        "B",
        "one name",
    ),
    (
        "struct { uint8 t; uint8 u; select (A.t) { case 1: uint8 a; case 2: struct{}; } select (A.u) { case 1: uint8 b; case 2: struct{}; } } A;",
        1,
        28,
        "select",
        "selects that nest",
    ),
    // borrowed structs
    (
        "borrowed struct {} L; struct { L l; } S;",
        1,
        32,
        "L",
        "a borrowed struct is only written",
    ),
    (
        "borrowed struct {} L; L M;",
        1,
        23,
        "L",
        "a borrowed struct is only written",
    ),
    (
        "borrowed struct {} L; borrowed struct { L l<V>; } S;",
        1,
        41,
        "L",
        "a borrowed struct is only written",
    ),
    (
        "borrowed struct { uint8 x; } L; borrowed struct { uint8 a; L b; uint8 c; L d; } M;",
        1,
        81,
        "M",
        "at most 3 runs",
    ),
    (
        "enum { a(1), b(2) } T; borrowed struct { uint8 x; } L; borrowed struct { T t; select (M.t) { case a: uint8 y; L b; uint8 z; case b: struct{}; } } M;",
        1,
        147,
        "M",
        "at most 3 runs",
    ),
    // names of tags
    (
        "struct { uint8 x; uint8 t; select (A.t) { case 1: uint8 a; case 2: struct{}; } A; } A;",
        1,
        80,
        "A",
        "a name that no type has",
    ),
    (
        "struct {} TData; struct {} ATData; struct { uint8 x; uint8 t; select (A.t) { case 1: uint8 a; case 2: struct{}; } } A;",
        1,
        60,
        "t",
        "a name for what the tag",
    ),
    (
        "struct { uint8 t; select (A.t) { case 1: uint8 a; case 2: struct{}; } uint8 t; } A;",
        1,
        29,
        "t",
        "one field here has",
    ),
    (
        "struct { uint8 t; select (A.t) { } } A;",
        1,
        19,
        "select",
        "at least one case",
    ),
];

#[test]
fn selects_that_are_rejected(rt: HostRuntime) -> Result<(), Fail> {
    expect_rejected(&rt, rt.alloc(), &SELECTS);
    Ok(())
}
