// What no clause says: printed texts of worked inputs, that calls succeed, and how runs and the program end.
mod answers;
mod failing;
mod views;

use std::alloc::Global;
use std::fmt::Debug;
use std::process::Abort;
use std::test::Fail;
use tlsview_run::fault::ViewFault;
use tlsview_run::run::run;

// An assertion that is written out is proved at each place: this one is proved once.
fn same<T: PartialEq + Debug + Drop>(rt: &impl Abort, found: T, expected: T) {
    assert_eq!(rt; found, expected);
}

// The same at one of several rows, which a failure names.
fn same_at<Row: Debug + Drop, T: PartialEq + Debug + Drop>(
    rt: &impl Abort,
    row: Row,
    found: T,
    expected: T,
) {
    assert_eq!(rt; found, expected, "at {row:?}");
}

// The outcome of a run over a text in memory, and what was printed.
fn run_on(alloc: Global, kind: &str, mut text: &[u8]) -> (Result<bool, ViewFault>, Vec<u8>) {
    let mut out = Vec::new(alloc);
    let outcome = run(alloc, kind, &mut text, &mut out);
    (outcome, out)
}

// No contract can say that memory is there: this fails for a run that always says that it isn't.
#[test]
fn run_always_memory(rt: HostRuntime) {
    let (outcome, out) = run_on(rt.alloc(), "option-u16", b"010007ee\n");
    same(&rt, outcome, Ok(true));
    same(&rt, out.is_empty(), false);
}

#[test]
fn blanks_and_cases_make_no_difference(rt: HostRuntime) {
    let lines = "slice ok 2730 rest ef\nreader ok 2730 rest ef\nleast 0aaa\n";
    for text in [
        "0aaaef",
        "0AAAEF",
        "0aAaEf\n",
        " 0\t aa\r\nae\nf  ",
        "\r0aaa ef",
    ] {
        let (outcome, out) = run_on(rt.alloc(), "u16", text.as_bytes());
        same_at(&rt, text, outcome, Ok(true));
        same_at(&rt, text, out.as_slice(), lines.as_bytes());
    }
}

#[test]
fn a_text_that_is_no_hex_is_refused(rt: HostRuntime) {
    for text in ["123", "0x01", "00-1", "0", "zz", "00\u{b}00", "é"] {
        let (outcome, out) = run_on(rt.alloc(), "u16", text.as_bytes());
        same_at(&rt, text, outcome, Err(ViewFault::Hex));
        same(&rt, out.is_empty(), true);
    }
}

// Kinds are compared byte for byte, and before the input is read.
#[test]
fn other_kinds_are_refused(rt: HostRuntime) {
    for kind in [
        "u99",
        "",
        "U16",
        "u16 ",
        "u1",
        "option-u1",
        "option-u166",
        "option_u16",
    ] {
        for text in ["0007", "", "zz"] {
            let mut rest = text.as_bytes();
            let mut out = Vec::new(rt.alloc());
            let outcome = run(rt.alloc(), kind, &mut rest, &mut out);
            same_at(&rt, kind, outcome, Err(ViewFault::Kind));
            same(&rt, rest, text.as_bytes());
            same(&rt, out.is_empty(), true);
        }
    }
}

#[test]
fn an_input_has_a_greatest_length(rt: HostRuntime) -> Result<(), Fail> {
    for (length, blank, answer, printed) in [
        (1_048_577, b'0', Err(ViewFault::Long), 0),
        (1_048_577, b'\n', Err(ViewFault::Long), 0),
        (1_048_580, b'z', Err(ViewFault::Long), 0),
        (1_048_576, b'0', Ok(true), 2_097_190),
        (1_048_576, b' ', Ok(false), 53),
        (1_048_576, b'z', Err(ViewFault::Hex), 0),
    ] {
        let text = vec![in rt.alloc(); blank; length]?;
        let (outcome, out) = run_on(rt.alloc(), "u16", &text);
        same_at(&rt, length, outcome, answer);
        same_at(&rt, length, out.len(), printed);
    }
    Ok(())
}

// The list comes after its length: one byte below 64, and from there two that begin with the bits
// 01.
#[test]
fn a_list_of_each_size_is_read(rt: HostRuntime) -> Result<(), Fail> {
    for size in 0..=600usize {
        let [.., high, low] = size.to_be_bytes();
        let mut form = if size < 64 {
            [low].to_vec(rt.alloc())?
        } else {
            [0x40 | high, low].to_vec(rt.alloc())?
        };
        form.extend_from_slice(&vec![in rt.alloc(); 0x61; size]?)?;
        let text = hex::encode(rt.alloc(), &form)?;
        let (outcome, _) = run_on(rt.alloc(), "vec-u8", text.as_bytes());
        same_at(&rt, size, outcome, Ok(true));
    }
    Ok(())
}
