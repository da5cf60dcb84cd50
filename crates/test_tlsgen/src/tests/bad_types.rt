// Texts of types, names, enums, vectors and constants that are rejected, each with the place, what is there, and a word of what would be
// right.
use super::{Rejected, expect_rejected};
use std::test::Fail;

static TYPES: [Rejected; 54] = [
    // types
    ("Foo A;", 1, 1, "Foo", "given by --with"),
    ("struct { Foo a; } A;", 1, 10, "Foo", "given by --with"),
    (
        "struct { optional<Foo> a; } A;",
        1,
        19,
        "Foo",
        "given by --with",
    ),
    (
        "struct { uint12 a; } A;",
        1,
        10,
        "uint12",
        "given by --with",
    ),
    (
        "enum { a(1), (255) } T; struct { T t; select (A.t) { case a: Foo b; } } A;",
        1,
        62,
        "Foo",
        "given by --with",
    ),
    // names
    ("uint8 A; struct {} A;", 1, 20, "A", "no definition above"),
    (
        "struct {} FooBar; struct {} Foo_Bar;",
        1,
        29,
        "Foo_Bar",
        "no definition above",
    ),
    (
        "struct { uint8 a; uint16 a; } A;",
        1,
        26,
        "a",
        "no field before",
    ),
    (
        "struct { uint8 type; uint16 kind; } A;",
        1,
        29,
        "kind",
        "no field before",
    ),
    // enums
    (
        "enum { a(1), a(2), (255) } A;",
        1,
        14,
        "a",
        "no value above",
    ),
    (
        "enum { new_a(1), newA(2), new_A(3), (255) } A;",
        1,
        18,
        "newA",
        "no value above",
    ),
    (
        "enum { a(1), b(1), (255) } A;",
        1,
        16,
        "1",
        "no value above",
    ),
    ("enum { a(256), (255) } A;", 1, 10, "256", "enum's bytes"),
    (
        "enum { a(70000), (65535) } A;",
        1,
        10,
        "70000",
        "enum's bytes",
    ),
    // 1 past 32 bits
    (
        "enum { a(4294967297), (255) } A;",
        1,
        10,
        "4294967297",
        "enum's bytes",
    ),
    ("enum { a(70000) } A;", 1, 19, "A", "1, 2, 4 or 8"),
    ("enum { a(1), (16777215) } A;", 1, 27, "A", "1, 2, 4 or 8"),
    ("enum { a(4294967296) } A;", 1, 24, "A", "at most 4 bytes"),
    (
        "enum { 2^9(1), 512(2), (255) } A;",
        1,
        16,
        "512",
        "no value above",
    ),
    (
        "enum { V512(1), 2^9(2), (255) } A;",
        1,
        17,
        "512",
        "no value above",
    ),
    (
        "enum { 512(1), (255) } T; struct { T t; select (A.t) { case 512: uint8 a; } } A;",
        1,
        61,
        "512",
        "enum's bytes",
    ),
    (
        "enum { 200(1), (255) } T; struct { T t; select (A.t) { case 200: uint8 a; } } A;",
        1,
        61,
        "200",
        "a value of the tag's enum",
    ),
    // ranges
    ("enum { a(2..1), (255) } A;", 1, 13, "1", "before it begins"),
    ("enum { a(1..256), (255) } A;", 1, 13, "256", "enum's bytes"),
    // types in place
    (
        "uint8 AKind; struct { enum { a(1) } kind; } A;",
        1,
        37,
        "AKind",
        "no definition above",
    ),
    (
        "struct { struct {} own_kind; enum { a(1) } ownKind; } A;",
        1,
        44,
        "AOwnKind",
        "no definition above",
    ),
    (
        "struct { struct {} _; } A;",
        1,
        25,
        "A",
        "no definition above",
    ),
    (
        "struct { enum { a(1), a(2) } b; } A;",
        1,
        23,
        "a",
        "no value above",
    ),
    // vectors
    ("struct { opaque a; } A;", 1, 10, "opaque", "in a vector"),
    ("opaque A;", 1, 1, "opaque", "in a vector"),
    (
        "struct { optional<opaque> a; } A;",
        1,
        19,
        "opaque",
        "in a vector",
    ),
    (
        "struct { string a<V>; } A;",
        1,
        10,
        "string",
        "without a vector",
    ),
    (
        "struct { uint16 a[3]; } A;",
        1,
        19,
        "3",
        "the bytes of whole elements",
    ),
    (
        "struct {} E; struct { E a[0]; } A;",
        1,
        27,
        "0",
        "1 to 65535",
    ),
    (
        "struct {} E; struct { E a[65536]; } A;",
        1,
        27,
        "65536",
        "1 to 65535",
    ),
    (
        "struct { string a[4]; } A;",
        1,
        10,
        "string",
        "without a vector",
    ),
    ("struct { opaque a[0]; } A;", 1, 19, "0", "1 to 65535"),
    (
        "struct { opaque a[65536]; } A;",
        1,
        19,
        "65536",
        "1 to 65535",
    ),
    (
        "struct { optional<opaque> a[2]; } A;",
        1,
        19,
        "opaque",
        "in a vector",
    ),
    (
        "struct { uint8 n; uint16 m; opaque a[n]; } A;",
        1,
        38,
        "n",
        "the field just before",
    ),
    (
        "struct { uint8 n; opaque a[B.n]; } A;",
        1,
        28,
        "B",
        "the field just before",
    ),
    (
        "struct { uint64 n; opaque a[n]; } A;",
        1,
        29,
        "n",
        "the field just before",
    ),
    // bounds
    (
        "struct { opaque a<2..1>; } A;",
        1,
        19,
        "2",
        "a floor that isn't above",
    ),
    (
        "struct { uint16 a<0..2^32>; } A;",
        1,
        22,
        "4294967296",
        "at most 2^32-1",
    ),
    // constants
    ("struct { uint8 a = b; } A;", 1, 20, "b", "no constant"),
    (
        "enum { b(1) } B; struct { B a = c; } A;",
        1,
        33,
        "c",
        "no constant",
    ),
    (
        "open enum { b(1) } B; struct { B a = c; } A;",
        1,
        38,
        "c",
        "no constant",
    ),
    (
        "open enum { b(1) } E; struct { E a = b; } A; struct {} EB;",
        1,
        38,
        "b",
        "a constant whose type's name",
    ),
    (
        "struct { uint8 a = 256; } A;",
        1,
        20,
        "256",
        "field's bytes",
    ),
    ("struct { uint24 a = 1; } A;", 1, 21, "1", "no constant"),
    ("struct { opaque a<V> = 1; } A;", 1, 24, "1", "no constant"),
    (
        "enum { b(1) } B; struct { B a = 2; } A;",
        1,
        33,
        "2",
        "a value of the field's enum",
    ),
    ("struct { uint16 a = {1, 256}; } A;", 1, 25, "256", "a byte"),
    (
        "struct { uint16 a = {1}; } A;",
        1,
        17,
        "a",
        "as many elements",
    ),
];

#[test]
fn types_that_are_rejected(rt: HostRuntime) -> Result<(), Fail> {
    expect_rejected(&rt, rt.alloc(), &TYPES);
    Ok(())
}
