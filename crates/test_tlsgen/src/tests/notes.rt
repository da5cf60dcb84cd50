// What notes say beside a text: plans, by hand, and notes that are rejected.
use super::same_at;
use super::shown::show;
use std::alloc::Global;
use std::test::Fail;
use tlsgen_model::plan::Plan;
use tlsgen_resolve::planning::plan_of;
use tlsgen_syntax::noted::apply;
use tlsgen_syntax::parser::{parse, parse_notes};
use tlsgen_syntax::rejection::Trouble;

// A text, its notes, and the plan.
static NOTED: [(&str, &str, &str); 14] = [
    // a length of what follows (RFC 8446, section 4), and a struct that fills it
    (
        "enum { hello(1), done(5), finished(20), (255) } T; struct { uint16 v; uint8 x; } Hello; struct { opaque verify_data[Hash.length]; } Finished; struct { T t; uint24 length; select (H.t) { case hello: Hello; case finished: Finished; case done: struct {}; }; } H;",
        "H.length counts rest; Finished.verify_data fills rest;",
        "hello.Hello: v u2, x u1,\nh.H sum by 1, length of 3:\n  Hello HELLO 1: hello Hello,\n  Finished FINISHED 20 fills: verify_data opaque<3: 0..16777215>,\n  Done DONE 5:\n",
    ),
    // among other fields, and with one case (draft-ietf-tls-esni)
    (
        "struct { uint16 v; uint16 length; select (E.v) { case 0xfe0d: uint8 a; opaque b<V>; } contents; uint8 z; } E;",
        "E.length counts rest;",
        "v_data.VData sum by 2, length of 2:\n  Case65037 CASE_65037 65037: a u1, b opaque<V>,\ne.E: contents VData, z u1,\n",
    ),
    // a number for a name
    (
        "struct { opaque verify_data[Hash.length]; uint8 b[Nk]; } F; opaque K[Nk];",
        "Hash.length = 48; Nk = 2^5;",
        "type K = opaque[32]\nf.F: verify_data opaque[48], b opaque[32],\n",
    ),
    // a tag elsewhere that always has one value
    (
        "enum { X(0), Raw(2) } KeyType; struct { select (key_type) { case X: opaque c<V>; case Raw: opaque k<V>; }; uint8 z; } Entry; struct { Entry all<V>; } All;",
        "Entry.key_type = X;",
        "key_type.KeyType values of 1: X 0 Raw 2\nentry.Entry: c opaque<V>, z u1,\nall.All: all Entry<V>,\n",
    ),
    // an open enum, and a definition that is left out
    (
        "enum { a(1), (255) } T; struct { opaque x[rest_of_it]; } Inner; struct { T t; } S;",
        "T is open; Inner left out;",
        "t.T open values of 1: A 1\ns.S: t T,\n",
    ),
    // enums that no select is on keep numbers without a name, unless a note closes them
    (
        "enum { a(1), (255) } T; enum { b(1), (255) } U; struct { T t; U u; } S;",
        "U is closed;",
        "t.T open values of 1: A 1\nu.U values of 1: B 1\ns.S: t T, u U,\n",
    ),
    // zeros to the end (RFC 9420, section 6.3.1), and names for selects
    (
        "enum { a(1), b(2) } T; struct { select (M.t) { case a: opaque x<V>; case b: struct {}; }; uint8 y; opaque padding[length_of_padding]; } P; struct { T t; uint8 z; } M;",
        "P.padding fills rest with zeros; P.t called content; P.t called Content;",
        "t.T values of 1: A 1 B 2\ncontent.Content for t T sum by 1:\n  A A 1: x opaque<V>,\n  B B 2:\np.P for t T: content Content*, y u1,\nm.M: t T, z u1,\n",
    ),
    // bytes to the end (RFC 6520, section 4)
    (
        "struct { uint8 t; uint16 n; opaque p[H.n]; opaque padding[padding_length]; } H;",
        "H.padding fills rest;",
        "h.H: t u1, p opaque<2: 0..65535>,\n",
    ),
    // bytes that end at their type, and zeros to the end (RFC 8446, section 5.2)
    (
        "enum { a(1), (255) } T; struct { opaque content[TLSPlaintext.length]; T type; uint8 zeros[length_of_padding]; } I;",
        "I.type ends content;",
        "type I = T, which ends it\nt.T open values of 1: A 1\n",
    ),
    (
        "struct { uint8 t; uint8 k; select (t) { case 1: uint8 a; case 2: opaque b<V>; }; uint8 c; } S;",
        "S.t called body;",
        "t_data.TData by 1:\n  Case1 CASE_1 1: k u1, a u1,\n  Case2 CASE_2 2: k u1, b opaque<V>,\ns.S: body TData, c u1,\n",
    ),
    // a tag that nothing defines (RFC 7250, section 3)
    (
        "struct { select (ClientOrServer) { case client: uint8 types<1..2^8-1>; case server: uint8 type; } } E;",
        "ClientOrServer.client = 0; ClientOrServer.server = 1;",
        "client_or_server.ClientOrServer values of 1: Client 0 Server 1\ne.E for client_or_server ClientOrServer sum by 1:\n  Client CLIENT 0: types u1<1: 1..255>,\n  Server SERVER 1: kind u1,\n",
    ),
    // a registry's names, and a select on them
    (
        "uint16 CredentialType; struct { CredentialType credential_type; select (Credential.credential_type) { case basic: opaque identity<V>; case x509: uint8 certificates<V>; }; } Credential; struct { CredentialType kinds<V>; } C;",
        "CredentialType.basic = 1; CredentialType.x509 = 2;",
        "credential_type.CredentialType open values of 2: Basic 1 X509 2\ncredential.Credential by 2:\n  Basic BASIC 1: identity opaque<V>,\n  X509 X509 2: certificates u1<V>,\nc.C: kinds CredentialType<V>,\n",
    ),
    // a struct that is only written
    (
        "struct { uint8 a; opaque b<V>; } S;",
        "S is borrowed;",
        "borrowed s.S: a u1, b opaque<V>,\n",
    ),
    // no notes
    ("struct {} A;", " // none", "a.A:\n"),
];

// A text, its notes, the column and what was found and expected there.
static REJECTED: [(&str, &str, usize, &str, &str); 35] = [
    (
        "struct {} A;",
        "A.b counts rest;",
        1,
        "A",
        "right before a select",
    ),
    (
        "struct { uint8 t; uint8 b; } A;",
        "A.b counts rest;",
        1,
        "A",
        "right before a select",
    ),
    (
        "struct { uint8 t; uint64 b; select (t) { case 1: uint8 x; } } A;",
        "A.b counts rest;",
        1,
        "A",
        "1 to 4 bytes",
    ),
    (
        "struct { uint8 t; } A;",
        "A.t fills rest;",
        1,
        "A",
        "its last or its only field",
    ),
    (
        "struct { opaque a[16]; } A;",
        "A.a fills rest;",
        1,
        "A",
        "its last or its only field",
    ),
    (
        "struct { opaque a[16]; } A;",
        "Hash.length = 3;",
        1,
        "Hash",
        "between an array's brackets",
    ),
    (
        "struct { uint8 t; } A;",
        "A.t = b;",
        1,
        "A",
        "a case of the select",
    ),
    (
        "struct { uint32 t; uint8 n; select (A.t) { case 1: uint8 x; case 2: uint8 y; } } A;",
        "A.n counts rest;",
        10,
        "uint32",
        "1 or 2 bytes",
    ),
    (
        "struct { uint8 t; uint8 p[n]; uint8 z; } A;",
        "A.p fills rest with zeros;",
        1,
        "A",
        "its last field",
    ),
    (
        "struct { uint8 t; uint16 p[n]; } A;",
        "A.p fills rest with zeros;",
        1,
        "A",
        "its last field",
    ),
    (
        "struct { uint8 t; uint8 p[n]; } A;",
        "A.p fills rest with ones;",
        21,
        "ones",
        "zeros",
    ),
    (
        "struct { uint8 t; uint8 p[n]; uint8 z; } A;",
        "A.p fills rest;",
        1,
        "A",
        "its last or its only field",
    ),
    (
        "struct { uint8 t; uint8 p[n]; } A; struct { A a; } B;",
        "A.p fills rest;",
        45,
        "A",
        "as `Followed`",
    ),
    (
        "enum { a(1), b(2) } T; struct { select (M.t) { case a: uint8 x; case b: struct {}; } body; opaque p[n]; } P; struct { T t; uint8 z; } M;",
        "P.p fills rest;",
        99,
        "p",
        "their tags elsewhere",
    ),
    (
        "struct { opaque c[n]; uint8 t; uint8 z[m]; } A;",
        "A.t ends z;",
        1,
        "A",
        "of three fields",
    ),
    (
        "struct { opaque c[n]; uint8 t; uint8 z<V>; } A;",
        "A.t ends c;",
        1,
        "A",
        "of three fields",
    ),
    (
        "struct { opaque c[n]; uint8 t; uint8 z[m]; } A;",
        "A.t ends ;",
        10,
        ";",
        "the name of a field",
    ),
    (
        "struct { opaque c[n]; uint16 t; uint8 z[m]; } A;",
        "A.t ends c;",
        23,
        "uint16",
        "a type of one byte",
    ),
    (
        "struct { opaque c[n]; uint8 t; uint8 z[m]; } A; struct { A a<V>; } B;",
        "A.t ends c;",
        58,
        "A",
        "read of all that there is",
    ),
    (
        "struct { uint8 t; uint8 p[n]; } A; struct { A a; } B;",
        "A.p fills rest with zeros;",
        45,
        "A",
        "as `Padded`",
    ),
    (
        "struct { uint8 t; select (t) { case 1: uint8 a; case 2: struct {}; } body; } A;",
        "A.t called content;",
        1,
        "A",
        "that has no name",
    ),
    ("uint8 A;", "A.b = 256;", 1, "A", "that the type holds"),
    ("uint8 A;", "A.b = 1; A.c = 1;", 10, "A", "no note above"),
    ("uint8 A;", "A.b = 1; A.b = 2;", 10, "A", "no note above"),
    ("enum { b(1) } A;", "A.b = 1;", 1, "A", "an integer type"),
    (
        "enum { a(1) } A;",
        "A is borrowed;",
        1,
        "A",
        "a struct of this text",
    ),
    (
        "struct {} A;",
        "A is round;",
        6,
        "round",
        "open, closed or borrowed",
    ),
    ("struct {} A;", "A is open;", 1, "A", "an enum"),
    ("struct {} A;", "B left out;", 1, "B", "a definition"),
    ("struct {} A;", "A.b left out;", 1, "A", "a definition"),
    ("struct {} A;", "A.b counts all;", 12, "all", "rest"),
    ("struct {} A;", "A.b is rest;", 8, "rest", "open"),
    ("struct {} A;", "A.b has rest;", 5, "has", "counts, fills"),
    ("struct {} A;", "A.b = ;", 7, ";", "the name of a value"),
    ("struct {} A;", "A.b fills rest", 15, "", ";"),
];

pub fn read(alloc: Global, text: &str, notes: &str) -> Result<Plan, Trouble> {
    let mut file = parse(alloc, text)?;
    apply(alloc, &mut file, parse_notes(alloc, notes)?)?;
    plan_of(alloc, &mut [file]).map_err(|error| error.trouble)
}

#[test]
fn notes_beside_texts(rt: HostRuntime) -> Result<(), Fail> {
    let alloc = rt.alloc();
    for (text, notes, wanted) in &NOTED {
        match read(alloc, text, notes) {
            Ok(plan) => {
                let shown = show(alloc, &plan)?;
                same_at(&rt, *text, shown.as_str(), *wanted);
            }
            Err(Trouble::Rejected(rejection)) => panic!(rt; "{text}: {rejection}"),
            Err(Trouble::Memory) => panic!(rt; "out of memory"),
            Err(Trouble::Inconsistent) => panic!(rt; "a fault of tlsgen"),
        }
    }
    Ok(())
}

#[test]
fn rejected_notes(rt: HostRuntime) -> Result<(), Fail> {
    for (text, notes, column, found, expected) in &REJECTED {
        match read(rt.alloc(), text, notes) {
            Err(Trouble::Rejected(rejection)) => {
                same_at(&rt, *notes, rejection.place.column, *column);
                same_at(&rt, *notes, rejection.found.as_str(), *found);
                assert!(rt;
                    rejection.expected.contains(*expected),
                    "{notes}: {rejection}"
                );
            }
            _ => panic!(rt; "not rejected: {notes}"),
        }
    }
    Ok(())
}
