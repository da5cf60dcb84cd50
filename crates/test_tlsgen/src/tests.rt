// What no clause says: what is read and planned of worked texts, and where and why texts are
// rejected.
mod bad_selects;
mod bad_types;
mod comments;
mod crates;
mod elsewhere;
mod framing;
mod held;
mod inputs;
mod large;
mod layout;
mod names;
mod notes;
mod plans;
mod presentation;
mod printed;
mod selects;
mod shown;
mod signed;
mod unparsed;
mod words;

use shown::show;
use std::alloc::Global;
use std::fmt::Debug;
use std::process::Abort;
use std::test::Fail;
use tlsgen_model::plan::Plan;
use tlsgen_resolve::planning::plan_of;
use tlsgen_syntax::parser::parse;
use tlsgen_syntax::rejection::{Rejection, Trouble};

// An assertion that is written out is proved at each place: this one is proved once.
fn same<T: PartialEq + Debug + Drop>(rt: &impl Abort, found: T, expected: T) {
    assert_eq!(rt; found, expected);
}

// The same at one of several rows, which a failure names.
fn same_at<Row: Debug + Drop, T: PartialEq + Debug + Drop>(
    rt: &impl Abort,
    row: Row,
    found: T,
    expected: T,
) {
    assert_eq!(rt; found, expected, "at {row:?}");
}

// A rejection that has this word in what it expects.
fn expect_in_rejection(rt: &impl Abort, rejection: &Rejection, word: &str) {
    assert!(rt; rejection.expected.contains(word), "{rejection}");
}

fn plan(alloc: Global, text: &str) -> Result<Plan, Trouble> {
    let file = parse(alloc, text)?;
    plan_of(alloc, &mut [file]).map_err(|error| error.trouble)
}

fn made(rt: &impl Abort, alloc: Global, text: &str) -> Plan {
    match plan(alloc, text) {
        Ok(plan) => plan,
        Err(Trouble::Rejected(rejection)) => panic!(rt; "{rejection}"),
        Err(Trouble::Memory) => panic!(rt; "out of memory"),
        Err(Trouble::Inconsistent) => panic!(rt; "a fault of tlsgen"),
    }
}

fn rejection(rt: &impl Abort, alloc: Global, text: &str) -> Rejection {
    match plan(alloc, text) {
        Ok(_) => panic!(rt; "not rejected: {text}"),
        Err(Trouble::Rejected(rejection)) => rejection,
        Err(Trouble::Memory) => panic!(rt; "out of memory"),
        Err(Trouble::Inconsistent) => panic!(rt; "a fault of tlsgen"),
    }
}

// A text that is rejected: the line, the column, what is there, and a word of what would be right.
type Rejected = (&'static str, usize, usize, &'static str, &'static str);

fn expect_rejected(rt: &impl Abort, alloc: Global, rows: &[Rejected]) {
    for (text, line, column, found, word) in rows {
        let rejection = rejection(rt, alloc, text);
        same_at(rt, *text, rejection.found.as_str(), *found);
        assert!(rt; rejection.expected.contains(*word), "{text}: {rejection}");
        same_at(rt, *text, rejection.place.line, *line);
        same_at(rt, *text, rejection.place.column, *column);
    }
}

#[test]
fn worked_texts(rt: HostRuntime) -> Result<(), Fail> {
    let mls = format!(in rt.alloc(); "{}{}", inputs::MLS, framing::FRAMING_RFC)?;
    for (text, wanted) in [
        (inputs::SHAPES, plans::SHAPES),
        (inputs::ALERT, plans::ALERT),
        (mls.as_str(), plans::MLS),
    ] {
        let plan = made(&rt, rt.alloc(), text);
        let shown = show(rt.alloc(), &plan)?;
        same(&rt, shown.as_str(), wanted);
    }
    Ok(())
}
