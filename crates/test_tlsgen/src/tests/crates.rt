// Texts over those of other crates.
use super::shown::show;
use super::{expect_in_rejection, same, same_at};
use std::alloc::{AllocError, Global};
use std::process::Abort;
use std::test::Fail;
use tlsgen_model::plan::Other;
use tlsgen_resolve::planning::plan_of;
use tlsgen_syntax::parser::parse;
use tlsgen_syntax::rejection::{Rejection, Trouble};
use tlsgen_syntax::syntax::File;

static FIRST: &str =
    "opaque Key<V>; enum { a(1), b(2), (255) } T; enum { c(1) } U; struct { T t; select (S.t) { case a: U u; case b: struct{}; } } S;";

static SECOND: &str = "struct { Key key; S s; } R;";

// What these texts say, each of a crate.
fn read(rt: &impl Abort, alloc: Global, texts: &[&str]) -> Result<Vec<File>, AllocError> {
    let mut files = Vec::new(alloc);
    for text in texts {
        match parse(alloc, text) {
            Ok(file) => files.push(file)?,
            Err(_) => panic!(rt; "not read: {text}"),
        }
    }
    Ok(files)
}

// Where a text is rejected, and the position of its file.
fn rejected(
    rt: &impl Abort,
    alloc: Global,
    texts: &[&str],
) -> Result<(usize, Rejection), AllocError> {
    let mut files = read(rt, alloc, texts)?;
    let Err(error) = plan_of(alloc, &mut files) else {
        panic!(rt; "not rejected: {texts:?}");
    };
    let file = error.file;
    let trouble = error.trouble;
    match trouble {
        Trouble::Rejected(rejection) => Ok((file, rejection)),
        _ => panic!(rt; "not rejected: {texts:?}"),
    }
}

// Each other type, in the form `1:r.R`.
fn others(alloc: Global, others: &[Other]) -> Result<String, AllocError> {
    let mut out = String::new(alloc);
    for other in others {
        let name = other.name.as_str();
        let module = other.module.as_str();
        let home = other.home;
        write!(&mut out, "{home}:{module}.{name} ")?;
    }
    Ok(out)
}

#[test]
fn items_of_other_crates(rt: HostRuntime) -> Result<(), Fail> {
    let alloc = rt.alloc();
    let own =
        "struct { R r; U u; Key keys<V>; T t; select (Q.t) { case a: S s; case b: struct{}; } } Q; Key Name;";
    let mut files = read(&rt, alloc, &[FIRST, SECOND, own])?;
    let Ok(plan) = plan_of(alloc, &mut files) else {
        panic!(rt; "rejected");
    };
    let shown = show(alloc, &plan)?;
    same(
        &rt,
        shown.as_str(),
        "type Name = =Key\nt_data.TData by 1:\n  A A 1: s S,\n  B B 2:\nq.Q: r R, u U, keys =Key<V>, t TData,\n",
    );
    let others = others(alloc, &plan.others)?;
    same(&rt, others.as_str(), "0:names.Key 0:u.U 0:s.S 1:r.R ");
    Ok(())
}

// `T` isn't written in its crate, where it is a tag alone.
#[test]
fn what_other_crates_lack(rt: HostRuntime) -> Result<(), Fail> {
    let own = "struct { uint8 a; T t; } Q;";
    let (file, rejection) = rejected(&rt, rt.alloc(), &[FIRST, SECOND, own])?;
    same(&rt, file, 2);
    same(&rt, rejection.place.column, 19);
    same(&rt, rejection.found.as_str(), "T");
    expect_in_rejection(&rt, &rejection, "in its own crate too");
    Ok(())
}

// A crate may name the types of those before it alone, and is rejected by its own file.
#[test]
fn crates_before_it(rt: HostRuntime) -> Result<(), Fail> {
    let later = "struct { R r; } Later;";
    let (file, rejection) = rejected(&rt, rt.alloc(), &[FIRST, later, SECOND])?;
    same(&rt, file, 1);
    same(&rt, rejection.found.as_str(), "R");
    Ok(())
}

// Each crate's texts, the plan of the last, and what it may name of the others. `TData` is a message that a crate has for its
// tag; each other name is defined.
static SHARED: [(&[&str], &str, &str); 8] = [
    (
        &[
            "enum { a(1), b(2) } T; struct { uint8 n; T t; select (S.t) { case a: uint8 u; case b: struct{}; } } S;",
            "uint8 TData; TData Q;",
        ],
        "type TData = u1\ntype Q = =TData\n",
        "0:s.S ",
    ),
    (
        &[
            "enum { a(1), b(2) } T; struct { uint8 n; T t; select (S.t) { case a: uint8 u; case b: struct{}; } } S;",
            "struct { uint8 a; } TData;",
        ],
        "t_data.TData: a u1,\n",
        "0:s.S ",
    ),
    (
        &["uint8 A; A B;", "uint16 A; struct { A a; B b; } C;"],
        "type A = u2\nc.C: a =A, b =B,\n",
        "0:names.B ",
    ),
    (
        &[
            "uint8 A; uint8 B;",
            "uint16 A; A D;",
            "struct { B b; D d; } C;",
        ],
        "c.C: b =B, d =D,\n",
        "0:names.B 1:names.D ",
    ),
    (
        &[
            "uint8 Empty;",
            "struct { uint8 a; } EmptyType; EmptyType B;",
        ],
        "type B = EmptyType\nempty_type.EmptyType: a u1,\n",
        "",
    ),
    (
        &[
            "struct { uint8 a; } FooBar;",
            "struct { FooBar a; } Foo_Bar;",
        ],
        "foo_bar.Foo_Bar: a FooBar,\n",
        "0:foo_bar.FooBar ",
    ),
    (
        &[
            "enum { a(1), (255) } T; struct { T t; uint8 x; } H; struct { select (H.t) { case a: uint8 y; } } S;",
            "uint8 T; struct { T t; } Q;",
        ],
        "type T = u1\nq.Q: t =T,\n",
        "0:h.H 0:s.S ",
    ),
    (
        &["opaque ASN.1Cert<V>;", "ASN1Cert A; ASN.1Cert B;"],
        "type A = =ASN1Cert\ntype B = =ASN1Cert\n",
        "0:names.ASN1Cert ",
    ),
];

#[test]
fn names_of_each_crate(rt: HostRuntime) -> Result<(), Fail> {
    let alloc = rt.alloc();
    for (texts, wanted, wanted_others) in &SHARED {
        let mut files = read(&rt, alloc, *texts)?;
        let Ok(plan) = plan_of(alloc, &mut files) else {
            panic!(rt; "rejected: {texts:?}");
        };
        let shown = show(alloc, &plan)?;
        same_at(&rt, *texts, shown.as_str(), *wanted);
        let others = others(alloc, &plan.others)?;
        same_at(&rt, *texts, others.as_str(), *wanted_others);
    }
    Ok(())
}

// A name that two crates have, also where only the type of a tag has it.
#[test]
fn names_of_two_crates(rt: HostRuntime) -> Result<(), Fail> {
    let alloc = rt.alloc();
    let header =
        "enum { a(1), (255) } T; struct { T t; uint8 x; } H; struct { select (H.t) { case a: uint8 y; } } S;";
    let mut files = read(
        &rt,
        alloc,
        &["uint8 A;", "uint16 A;", "struct { uint8 b; A a; } C;"],
    )?;
    let Err(error) = plan_of(alloc, &mut files) else {
        panic!(rt; "not rejected");
    };
    same(&rt, error.file, 2);
    same(&rt, error.homes.as_slice(), &[0, 1]);
    let trouble = error.trouble;
    match trouble {
        Trouble::Rejected(rejection) => {
            same(&rt, rejection.found.as_str(), "A");
            same(&rt, rejection.place.column, 19);
            expect_in_rejection(&rt, &rejection, "has alone");
        }
        _ => panic!(rt; "not rejected"),
    }
    let own = "uint8 T; struct { select (H.t) { case 1: uint8 y; } } Q;";
    let (file, rejection) = rejected(&rt, alloc, &[header, own])?;
    same(&rt, file, 1);
    expect_in_rejection(&rt, &rejection, "no tag of another crate");
    Ok(())
}

// What another crate has in a context, and a tag there on which nothing is from elsewhere.
#[test]
fn contexts_of_other_crates(rt: HostRuntime) -> Result<(), Fail> {
    let header = "enum { a(1), (255) } T; struct { T t; uint8 x; } H;";
    let first =
        "enum { a(1), (255) } T; struct { T t; uint8 x; } H; struct { select (H.t) { case a: uint8 y; } } S;";
    for (other, own, found) in [
        (first, "struct { S s; } R;", "S"),
        (
            header,
            "struct { select (H.t) { case a: uint8 y; } } Q;",
            "t",
        ),
    ] {
        let (file, rejection) = rejected(&rt, rt.alloc(), &[other, own])?;
        same(&rt, file, 1);
        same(&rt, rejection.found.as_str(), found);
    }
    Ok(())
}
