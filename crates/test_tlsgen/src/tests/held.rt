// Tags that a field before holds: plans, by hand, and where and why texts are rejected.
use super::shown::show;
use super::{made, rejection, same, same_at};
use std::test::Fail;

static HELD: [(&str, &str); 9] = [
    // a struct that has the tag, and one in its context (RFC 9420, section 6.1)
    (
        "enum { a(1), b(2) } T; struct { T t; uint8 x; } H; struct { select (H.t) { case a: uint8 y; case b: uint8 z; } } P; struct { H h; uint8 n; P p; } S;",
        "t.T values of 1: A 1 B 2\nh.H: t T, x u1,\np.P for t T sum by 1:\n  A A 1: y u1,\n  B B 2: z u1,\ns.S: h H, n u1, p P*h.T,\nH holds T: t\n",
    ),
    // a select through a field above it, with fields before that one
    (
        "enum { a(1), b(2) } T; struct { T t; uint8 x; } H; struct { uint8 n; H h; select (S.h.t) { case a: uint8 y; case b: uint16 z; } body; } S;",
        "t.T values of 1: A 1 B 2\nh.H: t T, x u1,\nt_data.TData for t T sum by 1:\n  A A 1: y u1,\n  B B 2: z u2,\ns.S: n u1, h H, body TData*h.T,\nH holds T: t\n",
    ),
    // a field that is there for some values alone (RFC 9420, section 6.2)
    (
        "enum { reserved(0), a(1), b(2), c(3) } T; struct { T t; uint8 x; } H; struct { H h; select (S.h.t) { case a: case c: uint8 y; case b: struct {}; }; } S;",
        "t.T values of 1: A 1 B 2 C 3\nh.H: t T, x u1,\ns.S: h H, y u1 for 1 3*h.T,\nH holds T: t\n",
    ),
    // the tag is the field before, and a struct in its context has such a field
    (
        "enum { a(1), b(2) } T; struct { uint8 x; select (S.t) { case a: uint8 y; case b: struct{}; } body; } R; struct { T t; R r; } S;",
        "t.T values of 1: A 1 B 2\nr.R for t T: x u1, body u1 for 1*,\ns.S: t T, r R*t.T,\n",
    ),
    // the tag is one of a struct's own cases, and one of a part of a struct in a struct
    (
        "enum { a(1), b(2) } T; struct { T t; select (C.t) { case a: uint8 y; case b: struct{}; } } C; struct { C c; select (S.c.t) { case a: uint8 z; case b: struct {}; } } S;",
        "t.T values of 1: A 1 B 2\nc.C by 1:\n  A A 1: y u1,\n  B B 2:\ns.S: c C, z u1 for 1*c.T,\nC holds T: its tag\n",
    ),
    (
        "enum { a(1), b(2) } T; struct { uint8 n; T t; select (C.t) { case a: uint8 y; case b: struct{}; } Body; } C; struct { C c; } D; struct { D d; select (C.t) { case a: uint8 z; case b: struct {}; } } S;",
        "t.T values of 1: A 1 B 2\nbody.Body by 1:\n  A A 1: y u1,\n  B B 2:\nc.C: n u1, t Body,\nd.D: c C,\ns.S: d D, z u1 for 1*d.T,\nD holds T: c\nBody holds T: its tag\nC holds T: t\n",
    ),
    // a list in the context of a tag that prose gives (RFC 8446, section 4.4.2)
    (
        "enum { X(0), Raw(2), (255) } KeyType; struct { select (key_type) { case X: opaque c<V>; case Raw: opaque k<V>; }; uint8 z; } Entry; struct { KeyType key_type; Entry list<0..255>; } All;",
        "key_type.KeyType values of 1: X 0 Raw 2\nkey_type_data.KeyTypeData for key_type KeyType sum by 1:\n  X X 0: c opaque<V>,\n  Raw RAW 2: k opaque<V>,\nentry.Entry for key_type KeyType: key_type KeyTypeData*, z u1,\nall.All: key_type KeyType, list Entry<1: 0..255>*key_type.KeyType,\n",
    ),
    // borrowed structs
    (
        "enum { a(1), b(2) } T; struct { T t; } H; borrowed struct { H h; select (L.h.t) { case a: uint8 y; case b: struct {}; }; } L; struct { uint8 x; select (H.t) { case a: uint8 z; case b: struct {}; } } R; borrowed struct { L l; R r; } M;",
        "t.T values of 1: A 1 B 2\nh.H: t T,\nborrowed l.L: h H, y u1 for 1*h.T,\nr.R for t T: x u1, z u1 for 1*,\nborrowed m.M: l L, r R*l.T,\nH holds T: t\nL holds T: h\n",
    ),
    // a number
    (
        "struct { select (H.t) { case 1: uint8 a; case 2: struct{}; } } R; struct { uint8 t; } H; struct { H h; R r; } S;",
        "r.R for t u1 sum by 1:\n  Case1 CASE_1 1: a u1,\n  Case2 CASE_2 2:\nh.H: t u1,\ns.S: h H, r R*h.u8,\nH holds u8: t\n",
    ),
];

#[test]
fn tags_that_a_field_holds(rt: HostRuntime) -> Result<(), Fail> {
    for (text, wanted) in &HELD {
        let plan = made(&rt, rt.alloc(), text);
        let shown = show(rt.alloc(), &plan)?;
        same_at(&rt, *text, shown.as_str(), *wanted);
    }
    Ok(())
}

// Each row has a text that comes after two enums and a struct with a tag, the column, and what was
// found and expected there.
static REJECTED: [(&str, usize, &str, &str); 8] = [
    (
        "struct { select (t) { case a: uint8 y; case b: uint8 z; } } R; struct { T t; T u; R r; } S;",
        80,
        "u",
        "one field alone",
    ),
    (
        "struct { select (S.h.t) { case a: uint8 y; case b: uint8 z; } H h; } S;",
        20,
        "h",
        "above the select",
    ),
    (
        "struct { H h<V>; select (S.h.t) { case a: uint8 y; case b: uint8 z; } } S;",
        28,
        "h",
        "one struct that has the tag",
    ),
    (
        "struct { H h; select (S.h.q) { case a: uint8 y; case b: uint8 z; } } S;",
        27,
        "q",
        "a tag above the select",
    ),
    (
        "struct { T t; select (F.t) { case a: uint8 y; } } F; struct { F f; select (S.f.t) { case a: uint8 y; case b: uint8 z; } } S;",
        12,
        "t",
        "several cases",
    ),
    (
        "struct { T t; T u; } F; struct { F f; select (S.f.t) { case a: uint8 y; case b: uint8 z; } first; select (S.f.u) { case a: uint8 y; case b: uint8 z; } second; } S;",
        51,
        "t",
        "one tag of its type",
    ),
    (
        "struct { H h; H g; select (S.h.t) { case a: uint8 y; case b: uint8 z; } first; select (S.g.t) { case a: uint8 y; case b: uint8 z; } second; } S;",
        20,
        "first",
        "one field alone",
    ),
    (
        "struct { uint8 k; H h; select (S.k) { case 1: uint8 x; case 2: struct {}; } select (S.h.t) { case a: uint8 y; case b: uint8 z; } body; } S;",
        138,
        "S",
        "above no select on another tag",
    ),
];

#[test]
fn rejected_holders(rt: HostRuntime) -> Result<(), Fail> {
    for (text, column, found, word) in &REJECTED {
        let whole = format!(in rt.alloc();
            "enum {{ a(1), b(2) }} T; struct {{ T t; }} H;\n{text}"
        )?;
        let rejection = rejection(&rt, rt.alloc(), whole.as_str());
        same_at(&rt, *text, rejection.found.as_str(), *found);
        same_at(&rt, *text, rejection.place.column, *column);
        same(&rt, rejection.expected.contains(word), true);
    }
    Ok(())
}
