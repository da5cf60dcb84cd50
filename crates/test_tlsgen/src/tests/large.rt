// Texts that are long, or that would become long.
use super::notes::read;
use super::{expect_in_rejection, made, rejection, same};
use std::alloc::{AllocError, Global};
use std::test::Fail;
use tlsgen_resolve::planning::plan_within;
use tlsgen_syntax::parser::parse;
use tlsgen_syntax::rejection::Trouble;

// `count` fields.
fn fields(alloc: Global, count: usize) -> Result<String, AllocError> {
    let mut out = String::new(alloc);
    for k in 0..count {
        write!(&mut out, "uint8 a{k}; ")?;
    }
    Ok(out)
}

#[test]
fn many(rt: HostRuntime) -> Result<(), Fail> {
    let alloc = rt.alloc();
    let nineteen = fields(alloc, 19)?;
    let parts = fields(alloc, 257)?;
    let too_many = fields(alloc, 28)?;
    for (text, found, word) in [
        (
            format!(in alloc; "struct {{ {too_many} }} S;")?,
            "S",
            "27 fields",
        ),
        (
            format!(in alloc; "struct {{ {parts} }} S;")?,
            "S",
            "256 parts",
        ),
        (
            format!(in alloc;
                "struct {{ uint8 t; select (S.t) {{ case 1: {nineteen} case 2: struct{{}}; }} }} S;"
            )?,
            "case_1",
            "18 fields",
        ),
        (
            format!(in alloc;
                "open enum {{ a(1), b(2), (255) }} T; struct {{ T t; select (S.t) {{ case a: {nineteen} case b: struct{{}}; }} }} S;"
            )?,
            "a",
            "18 fields",
        ),
    ] {
        let rejection = rejection(&rt, alloc, text.as_str());
        same(&rt, rejection.found.as_str(), found);
        expect_in_rejection(&rt, &rejection, word);
    }
    Ok(())
}

// Two cases with five fields each, once from a select and once from what comes before it.
#[test]
fn copies_are_counted(rt: HostRuntime) -> Result<(), Fail> {
    let alloc = rt.alloc();
    let five = fields(alloc, 5)?;
    let text = format!(in alloc;
        "struct {{ uint8 t; {five} select (S.t) {{ case 1: uint8 b; case 2: struct{{}}; }} }} S;"
    )?;
    let Ok(file) = parse(alloc, text.as_str()) else {
        panic!(rt; "no file");
    };
    let mut files = [file];
    same(&rt, plan_within(alloc, &mut files, 18).is_ok(), true);
    let Err(error) = plan_within(alloc, &mut files, 17) else {
        panic!(rt; "not rejected");
    };
    let trouble = error.trouble;
    match trouble {
        Trouble::Rejected(rejection) => {
            expect_in_rejection(&rt, &rejection, "a smaller text");
            Ok(())
        }
        _ => panic!(rt; "not rejected"),
    }
}

// `count` definitions: enums, chains of other names, and structs that use both and one another.
fn definitions(alloc: Global, count: usize) -> Result<String, AllocError> {
    let mut out = String::from_str(
        alloc,
        "enum { a(1), b(2), (255) } Kind0; Kind0 Other0; struct {} Body0;",
    )?;
    for k in 1..=count / 4 {
        let before = k.saturating_sub(1);
        write!(
            &mut out,
            "struct {{ Other{k} a; Kind{k} t; Body{before} s; select (Body{k}.t) {{ case a: Body0 first; case b: struct{{}}; }} }} Body{k};
            enum {{ a(1), b(2), (255) }} Kind{k};
            Other{before} Other{k};
            struct {{ Body{k} list<V>; Other{k} tag = a; }} List{k};"
        )?;
    }
    Ok(out)
}

#[test]
fn many_definitions(rt: HostRuntime) -> Result<(), Fail> {
    let text = definitions(rt.alloc(), 1200)?;
    let plan = made(&rt, rt.alloc(), text.as_str());
    same(&rt, plan.messages.len(), 903);
    same(&rt, plan.aliases.len(), 301);
    Ok(())
}

// `count` structs, each with 256 cases, and with 18 fields in each of these.
fn structs(alloc: Global, count: usize) -> Result<String, AllocError> {
    let mut labels = String::new(alloc);
    for k in 0..=255u8 {
        write!(&mut labels, "case {k}: ")?;
    }
    let eighteen = fields(alloc, 18)?;
    let mut out = String::new(alloc);
    for k in 0..count {
        write!(
            &mut out,
            "struct {{ uint8 t; {eighteen} select (S{k}.t) {{ {labels}struct{{}}; }} }} S{k};"
        )?;
    }
    Ok(out)
}

// 21 times 256 cases of 18 fields.
#[test]
fn more_than_may_be_in_all(rt: HostRuntime) -> Result<(), Fail> {
    let text = structs(rt.alloc(), 21)?;
    let rejection = rejection(&rt, rt.alloc(), text.as_str());
    expect_in_rejection(&rt, &rejection, "a smaller text");
    Ok(())
}

// `count` structs, each with the one before it and a select on the tag of the first.
fn nested(alloc: Global, count: usize) -> Result<String, AllocError> {
    let mut out = String::from_str(
        alloc,
        "enum { a(1), b(2), (255) } T; struct { T t; uint8 x; } S0;",
    )?;
    for k in 1..=count {
        let before = k.saturating_sub(1);
        write!(
            &mut out,
            "struct {{ S{before} s; select (S0.t) {{ case a: uint8 y; case b: uint16 z; }} Body{k}; }} S{k};"
        )?;
    }
    Ok(out)
}

#[test]
fn structs_that_hold_the_one_before(rt: HostRuntime) -> Result<(), Fail> {
    let text = nested(rt.alloc(), 2000)?;
    let plan = made(&rt, rt.alloc(), text.as_str());
    same(&rt, plan.messages.len(), 4002);
    same(&rt, plan.holders.len(), 2000);
    Ok(())
}
