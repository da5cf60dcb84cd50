// Forms as RFCs print them, and their plans, by hand.
use super::shown::show;
use super::{made, same_at};
use std::test::Fail;

static PRINTED: [(&str, &str); 28] = [
    // a case's field without a name
    (
        "enum { host_name(0), none(1), (255) } N; opaque H<1..2^16-1>; struct { N t; select (t) { case host_name: H; case none: struct{}; } name; } S;",
        "type H = opaque<2: 1..65535>\ns.S by 1:\n  HostName HOST_NAME 0: h =H,\n  NoneCase NONE 1:\n",
    ),
    // a select's name with a small letter is the field's
    (
        "enum { a(1), b(2) } T; struct { uint8 x; T t; select (S.t) { case a: uint8 y; case b: struct{}; } body; } S;",
        "t_data.TData by 1:\n  A A 1: y u1,\n  B B 2:\ns.S: x u1, body TData,\n",
    ),
    // cases for some values alone
    (
        "enum { a(1), b(2), c(3) } T; struct { T t; select (S.t) { case c: uint8 y; case a: struct{}; } } S;",
        "s.S by 1:\n  C C 3: y u1,\n  A A 1:\n",
    ),
    // constants by number, each type once
    (
        "uint16 V; struct { V v = 0x0303; uint8 m = 0; } S; struct { V v = 771; uint8 m = 1; } T;",
        "type V = u2\nvx0303.VX0303 values of 2: X0303 771\nmx00.MX00 values of 1: X00 0\ns.S: v VX0303, m MX00,\nmx01.MX01 values of 1: X01 1\nt.T: v VX0303, m MX01,\n",
    ),
    (
        "struct { uint16 v = {3, 3}; } S;",
        "vx0303.VX0303 values of 2: X0303 771\ns.S: v VX0303,\n",
    ),
    (
        "struct { opaque v[2] = {254, 253}; } S;",
        "v_xfefd.VXfefd values of 2: Xfefd 65277\ns.S: v VXfefd,\n",
    ),
    // one of several values, by its name and by its number
    (
        "enum { a(1), b(2), (255) } T; struct { T t = b; } S;",
        "t.T open values of 1: A 1 B 2\ntb.TB values of 1: B 2\ns.S: t TB,\n",
    ),
    (
        "enum { a(1), b(2), (255) } T; struct { T t = 2; } S;",
        "t.T open values of 1: A 1 B 2\ntb.TB values of 1: B 2\ns.S: t TB,\n",
    ),
    // ranges and reserved numbers are no values, and a range has its bytes
    (
        "enum { a(1), RESERVED(2), RESERVED(4), old_RESERVED(5..9), private_use(0xf0..0xff), (255) } T;",
        "t.T open values of 1: A 1\n",
    ),
    (
        "enum { a(1), b(2..0x100) } T;",
        "t.T open values of 2: A 1\n",
    ),
    (
        "enum { a(1), (0..65535) } T;",
        "t.T open values of 2: A 1\n",
    ),
    // an enum without values keeps each number
    (
        "enum { reserved(0), (65535) } T;",
        "t.T open values of 2:\n",
    ),
    // names with dots, with a small letter, and that are words already
    (
        "opaque ASN.1Cert<V>; struct { ASN.1Cert a.1; } session_ticket; struct { session_ticket t; } Vec;",
        "type ASN1Cert = opaque<V>\nsession_ticket.SessionTicket: a_1 =ASN1Cert,\nvec_type.VecType: t SessionTicket,\n",
    ),
    (
        "struct {} Empty; struct { Empty e; } Type;",
        "empty_type.EmptyType:\ntype_type.TypeType: e EmptyType,\n",
    ),
    (
        "struct { opaque c<0..32>; } Within;",
        "within_type.WithinType: c opaque<1: 0..32>,\n",
    ),
    (
        "enum { rsa1.5(1), b(2) } T; struct { T t; select (S.t) { case rsa1.5: struct{}; case b: uint8; } } S;",
        "s.S by 1:\n  Rsa15 RSA1_5 1:\n  B B 2: uint8 u1,\n",
    ),
    // a tag whose type has a small letter
    (
        "enum { a(1), (255) } kind_of; struct { kind_of k; select (S.k) { case a: struct{}; } uint8 z; } S;",
        "kind_of_data.KindOfData by 1:\n  A A 1:\ns.S: k KindOfData, z u1,\n",
    ),
    (
        "struct { uint16_t a; uint8_t b[2]; } S;",
        "s.S: a u2, b opaque[2],\n",
    ),
    // a number that counts the next field, as in RFC 8446, section 5.1, and one that doesn't
    (
        "struct { uint8 t; uint16 length; opaque fragment[S.length]; } S;",
        "s.S: t u1, fragment opaque<2: 0..65535>,\n",
    ),
    (
        "struct { uint24 n; uint16 m; uint32 a[m]; uint8 l; } S;",
        "s.S: n u3, a u4<2: 0..65535>, l u1,\n",
    ),
    // values whose names are numbers, as in RFC 6066, section 4, and a case by the tag's number
    (
        "enum { 2^9(1), 2^10(2), 2^11(3), 2^12(4), (255) } MaxFragmentLength; struct { MaxFragmentLength m = 1; } S;",
        "max_fragment_length.MaxFragmentLength open values of 1: V512 1 V1024 2 V2048 3 V4096 4\nmax_fragment_length_v512.MaxFragmentLengthV512 values of 1: V512 1\ns.S: m MaxFragmentLengthV512,\n",
    ),
    (
        "enum { 2(1), 3(2), (255) } T; struct { T t; select (t) { case 2: uint8 a; case 1: struct {}; } } S;",
        "s.S by 1:\n  V3 V3 2: a u1,\n  V2 V2 1:\n",
    ),
    // a type in place, as in RFC 5246, section 7.1
    (
        "struct { enum { change_cipher_spec(1), (255) } type; } ChangeCipherSpec;",
        "change_cipher_spec_type.ChangeCipherSpecType open values of 1: ChangeCipherSpec 1\nchange_cipher_spec.ChangeCipherSpec: kind ChangeCipherSpecType,\n",
    ),
    (
        "struct { struct { opaque a[2]; } inner; uint8 b; } Outer;",
        "outer_inner.OuterInner: a opaque[2],\nouter.Outer: inner OuterInner, b u1,\n",
    ),
    // lists of those, in the order of the fields, and names of more words
    (
        "struct { uint8 z; open enum { a(1), (65535) } key_ids<V>; struct { uint8 a; } own_MAC_keys<0..2^16-1>; } Outer;",
        "outer_key_ids.OuterKeyIds open values of 2: A 1\nouter_own_mac_keys.OuterOwnMACKeys: a u1,\nouter.Outer: z u1, key_ids OuterKeyIds<V>, own_mac_keys OuterOwnMACKeys<2: 0..65535>,\n",
    ),
    // a tag's type in place
    (
        "struct { enum { a(1), b(2), (255) } t; select (t) { case a: uint8 y; case b: struct {}; }; } S;",
        "s.S by 1:\n  A A 1: y u1,\n  B B 2:\n",
    ),
    // in what is signed, and beside a signature
    (
        "opaque DigitallySigned<V>; struct { enum { a(1) } k; digitally-signed struct { uint8 b; }; } Claim; digitally-signed struct { struct { uint8 c; } d; } Sum;",
        "type DigitallySigned = opaque<V>\nclaim_k.ClaimK open values of 1: A 1\nclaim_tbs.ClaimTBS: b u1,\nclaim.Claim: k ClaimK, signature =DigitallySigned,\nsum_d.SumD: c u1,\nsum.Sum: d SumD,\n",
    ),
    // a list of options by a name
    (
        "uint8 N; optional<N> ratchet_tree<V>;",
        "type N = u1\ntype RatchetTree = =N?<V>\n",
    ),
];

#[test]
fn forms_of_rfcs(rt: HostRuntime) -> Result<(), Fail> {
    for (text, wanted) in &PRINTED {
        let plan = made(&rt, rt.alloc(), text);
        let shown = show(rt.alloc(), &plan)?;
        same_at(&rt, *text, shown.as_str(), *wanted);
    }
    Ok(())
}
