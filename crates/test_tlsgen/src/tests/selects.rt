// Texts and their plans, by hand.
use super::shown::show;
use super::{made, same_at};
use std::test::Fail;

static GOOD: [(&str, &str); 22] = [
    // a tag in a struct, and a struct that is a tag and its select alone
    (
        "enum { a(1), b(2), (255) } T; struct { T t; select (S.t) { case a: uint8 y; case b: struct{}; } uint8 z; } S;",
        "t_data.TData by 1:\n  A A 1: y u1,\n  B B 2:\ns.S: t TData, z u1,\n",
    ),
    (
        "enum { a(1), b(2), (65535) } T; struct { T t; select (S.t) { case a: uint8 y; uint16 z; case b: struct{}; } } S;",
        "s.S by 2:\n  A A 1: y u1, z u2,\n  B B 2:\n",
    ),
    // a select on a field's type, as in RFC 5077
    (
        "enum { a(1), b(2) } T; struct { T tag; select (T) { case a: uint8 y; case b: struct{}; } } S;",
        "s.S by 1:\n  A A 1: y u1,\n  B B 2:\n",
    ),
    // a name for the enum of a tag
    (
        "enum { a(1), b(2) } T; struct { uint8 x; T t; select (S.t) { case a: uint8 y; case b: struct{}; } Body; } S;",
        "body.Body by 1:\n  A A 1: y u1,\n  B B 2:\ns.S: x u1, t Body,\n",
    ),
    (
        "enum { a(1), b(2) } T; struct { T t; select (S.t) { case a: uint8 y; case b: struct{}; } Body; } S;",
        "body.Body by 1:\n  A A 1: y u1,\n  B B 2:\ns.S: t Body,\n",
    ),
    // cases by number: of an open enum, of an integer, of another name of one
    (
        "open enum { a(1), (65535) } T; struct { T t; select (S.t) { case a: uint8 y; case 7: struct{}; } } S;",
        "s.S by 2:\n  A A 1: y u1,\n  Case7 CASE_7 7:\n",
    ),
    (
        "struct { uint8 kind; select (S.kind) { case 0: uint16 y; case 3: struct{}; } uint8 z; } S;",
        "kind_data.KindData by 1:\n  Case0 CASE_0 0: y u2,\n  Case3 CASE_3 3:\ns.S: kind KindData, z u1,\n",
    ),
    (
        "uint64 N; struct { N n; select (S.n) { case 0: uint16 y; case 3: struct{}; } uint8 z; } S;",
        "type N = u8\nn_data.NData by 8:\n  Case0 CASE_0 0: y u2,\n  Case3 CASE_3 3:\ns.S: n NData, z u1,\n",
    ),
    // a number between those of an open enum's values
    (
        "open enum { a(1), b(5), (255) } T; struct { T t; select (S.t) { case 3: uint8 y; case b: struct{}; } } S;",
        "s.S by 1:\n  Case3 CASE_3 3: y u1,\n  B B 5:\n",
    ),
    // several labels in a row, each with all that comes after them
    (
        "open enum { a(1), b(2), (65535) } T; struct { T t; select (S.t) { case a: case b: uint8 y; } } S;",
        "s.S by 2:\n  A A 1: y u1,\n  B B 2: y u1,\n",
    ),
    (
        "struct { uint8 t; select (S.t) { case 1: case 2: case 4: uint8 y; uint16 z; } } S;",
        "s.S by 1:\n  Case1 CASE_1 1: y u1, z u2,\n  Case2 CASE_2 2: y u1, z u2,\n  Case4 CASE_4 4: y u1, z u2,\n",
    ),
    // labels in another order than the enum's, and by the numbers of its values
    (
        "enum { a(1), b(2) } T; struct { T t; select (S.t) { case 2: struct{}; case a: uint8 y; } } S;",
        "s.S by 1:\n  B B 2:\n  A A 1: y u1,\n",
    ),
    // an enum that is a tag and a field
    (
        "enum { a(1), b(2) } T; struct { T t; select (S.t) { case a: T y; case b: struct{}; } } S;",
        "t.T values of 1: A 1 B 2\ns.S by 1:\n  A A 1: y T,\n  B B 2:\n",
    ),
    // the short name is taken
    (
        "enum { a(1), b(2) } T; struct {} TData; struct { T t; select (S.t) { case a: uint8 y; case b: struct{}; } uint8 z; } S;",
        "t_data.TData:\nst_data.STData by 1:\n  A A 1: y u1,\n  B B 2:\ns.S: t STData, z u1,\n",
    ),
    // what comes between a tag and its last select
    (
        "enum { a(1), b(2) } T; struct { uint8 k; T t; uint8 m; select (S.t) { case a: uint8 y; case b: struct{}; } uint8 n; select (S.t) { case b: uint8 x; case a: struct{}; } uint8 z; } S;",
        "t_data.TData by 1:\n  A A 1: m u1, y u1, n u1,\n  B B 2: m u1, n u1, x u1,\ns.S: k u1, t TData, z u1,\n",
    ),
    // tags that nest, each with a select after the other's
    (
        "struct { uint8 t; uint8 u; select (S.u) { case 1: uint8 a; case 2: struct{}; } select (S.t) { case 3: uint8 b; case 4: struct{}; } } S;",
        "u_data.UData by 1:\n  Case1 CASE_1 1: a u1,\n  Case2 CASE_2 2:\ns.S by 1:\n  Case3 CASE_3 3: u UData, b u1,\n  Case4 CASE_4 4: u UData,\n",
    ),
    // a constant of an open enum has a type of its own, once
    (
        "open enum { a(1), b(2), (65535) } E; struct { E e = b; E f = a; } S; struct { E e = b; E f; } T;",
        "e.E open values of 2: A 1 B 2\neb.EB values of 2: B 2\nea.EA values of 2: A 1\ns.S: e EB, f EA,\nt.T: e EB, f E,\n",
    ),
    // borrowed structs, each with its own enum
    (
        "enum { a(1), b(2) } T; borrowed struct { uint8 x; T t; select (L.t) { case a: uint8 y; case b: struct{}; } } L;",
        "borrowed t_data.TData by 1:\n  A A 1: y u1,\n  B B 2:\nborrowed l.L: x u1, t TData,\n",
    ),
    (
        "borrowed struct { uint8 x; } L; borrowed struct { L l; } M;",
        "borrowed l.L: x u1,\nborrowed m.M: l L,\n",
    ),
    // bounds, after a length of as many bytes as the ceiling takes
    (
        "struct { opaque a<0..32>; uint16 b<2..2^16-2>; opaque c<65535..65536>; opaque d<7..7>; } S;",
        "s.S: a opaque<1: 0..32>, b u2<2: 2..65534>, c opaque<3: 65535..65536>, d opaque<1: 7..7>,\n",
    ),
    // arrays by their bytes (RFC 8446, section 3.4), of bytes and of others
    (
        "opaque Datum[3]; struct { Datum data[9]; Pixel pixels[6]; uint16 pair[4]; uint8 x[2]; optional<Pixel> some[8]; } S; struct { uint8 x; uint16 y; } Pixel;",
        "type Datum = opaque[3]\npixel.Pixel: x u1, y u2,\ns.S: data_ =Datum<=9>, pixels Pixel<=6>, pair u2<=4>, x opaque[2], some Pixel?<=8>,\n",
    ),
    // definitions in any order, and words of Rust
    (
        "struct { B type<0..2^8-1>; optional<C> use; optional<B> list<V>; } A; D C; B D; struct { uint8 x[4]; string fn; } B;",
        "type D = B\ntype C = =D\nb.B: x opaque[4], fn_ text,\na.A: kind B<1: 0..255>, usage =C?, list B?<V>,\n",
    ),
];

#[test]
fn plans_by_hand(rt: HostRuntime) -> Result<(), Fail> {
    for (text, wanted) in &GOOD {
        let plan = made(&rt, rt.alloc(), text);
        let shown = show(rt.alloc(), &plan)?;
        same_at(&rt, *text, shown.as_str(), *wanted);
    }
    Ok(())
}
