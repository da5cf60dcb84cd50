// Tags that are elsewhere, and tags with one case: their plans, by hand.
use super::shown::show;
use super::{made, same_at};
use std::test::Fail;

static ELSEWHERE: [(&str, &str); 7] = [
    // a select on a tag of another struct, alone (RFC 8446, section 4.2.1)
    (
        "enum { a(1), b(2), (255) } T; struct { T t; uint8 x; } H; struct { select (H.t) { case a: uint8 y<0..255>; case b: uint8; } } S;",
        "t.T values of 1: A 1 B 2\nh.H: t T, x u1,\ns.S for t T sum by 1:\n  A A 1: y u1<1: 0..255>,\n  B B 2: uint8 u1,\n",
    ),
    // a name that no field has is an enum's, and a struct that has such a field is in the context too (section 4.4.2)
    (
        "enum { X(0), Raw(2), (255) } KeyType; struct { select (key_type) { case X: opaque c<V>; case Raw: opaque k<V>; }; uint8 z; } Entry; struct { uint8 n; Entry list<0..255>; } All;",
        "key_type.KeyType values of 1: X 0 Raw 2\nkey_type_data.KeyTypeData for key_type KeyType sum by 1:\n  X X 0: c opaque<V>,\n  Raw RAW 2: k opaque<V>,\nentry.Entry for key_type KeyType: key_type KeyTypeData*, z u1,\nall.All for key_type KeyType: n u1, list Entry<1: 0..255>*,\n",
    ),
    // a number elsewhere, and names after the select
    (
        "struct { uint16 v; } H; struct { uint8 a; select (H.v) { case 1: uint8 y; case 2: struct {}; } body; select (H.v) { case 7: uint8 q; } Last; } S;",
        "h.H: v u2,\nlast.Last for v u2 sum by 2:\n  Case7 CASE_7 7: q u1,\nv_data.VData for v u2 sum by 2:\n  Case1 CASE_1 1: y u1,\n  Case2 CASE_2 2:\ns.S for v u2: a u1, body VData*, v Last*,\n",
    ),
    // one case alone: a constant, and the fields in the struct (RFC 6066, section 3)
    (
        "enum { host_name(0), (255) } NameType; opaque HostName<1..2^16-1>; struct { NameType name_type; select (name_type) { case host_name: HostName; } name; } ServerName;",
        "type HostName = opaque<2: 1..65535>\nname_type.NameType values of 1: HostName 0\nserver_name.ServerName: name_type NameType, name =HostName,\n",
    ),
    // of several values, with fields before, between and after (RFC 6962, section 3.4)
    (
        "enum { v1(0), (255) } V; enum { leaf(0), node(1), (255) } K; struct { V v; K k; uint8 x; select (k) { case leaf: uint16 a; uint16 b; } uint8 z; } M;",
        "v.V open values of 1: V1 0\nk_leaf.KLeaf values of 1: Leaf 0\nm.M: v V, k KLeaf, x u1, a u2, b u2, z u1,\n",
    ),
    // a number, and a value of an open enum that has no name
    (
        "struct { uint8 n; select (S.n) { case 4: uint8 curve; } } S;",
        "nx04.NX04 values of 1: X04 4\ns.S: n NX04, curve u1,\n",
    ),
    (
        "open enum { a(1), (65535) } W; struct { W w; select (S.w) { case 0xfe0d: uint8 c; } } S;",
        "w_xfe0d.WXfe0d values of 2: Xfe0d 65037\ns.S: w WXfe0d, c u1,\n",
    ),
];

#[test]
fn tags_elsewhere_and_alone(rt: HostRuntime) -> Result<(), Fail> {
    for (text, wanted) in &ELSEWHERE {
        let plan = made(&rt, rt.alloc(), text);
        let shown = show(rt.alloc(), &plan)?;
        same_at(&rt, *text, shown.as_str(), *wanted);
    }
    Ok(())
}
