// How the program ends: its status, and what went out.
use crate::tests::{same, same_at};
use std::alloc::{AllocError, Global};
use std::io;
use std::io::ErrorKind;
use std::test::Fail;
use tls_codec::Fault;
use tls_codec_vectors::{Drip, Failing, Trickle};
use tlsview_run::answer::answer;

// The words of a process, the program's name first.
fn words_of(alloc: Global, words: &[&str]) -> Result<Vec<String>, AllocError> {
    let mut owned = Vec::new(alloc);
    for word in words {
        owned.push(word.to_string(alloc)?)?;
    }
    Ok(owned)
}

// Each of these rows has the words, the input, the status, what is printed, and whether the input is read.
#[test]
fn a_program_ends_by_its_words(rt: HostRuntime) -> Result<(), Fail> {
    let seven = "slice ok some 7 rest ee\nreader ok some 7 rest ee\nleast 010007\n";
    let ended = "slice refused EndOfStream\nreader refused EndOfStream\n";
    for (words, text, status, printed, is_read) in [
        ([].as_slice(), "010007ee", 2, "error kind\n", false),
        (&["tlsview"], "010007ee", 2, "error kind\n", false),
        (&["option-u16"], "010007ee", 2, "error kind\n", false),
        (&["tlsview", "option-u16"], "010007ee", 0, seven, true),
        (&["tlsview", "option-u16"], "01", 1, ended, true),
        (&["", "option-u16"], "010007ee", 0, seven, true),
        (
            &["tlsview", "option-u16", "u16"],
            "010007ee",
            2,
            "error kind\n",
            false,
        ),
        (&["tlsview", "u16", "u16"], "0007", 2, "error kind\n", false),
        (&["tlsview", "u99"], "0007", 2, "error kind\n", false),
        (&["tlsview", ""], "", 2, "error kind\n", false),
        (&["tlsview", "u16"], "zz", 2, "error hex\n", true),
    ] {
        let words = words_of(rt.alloc(), words)?;
        let mut rest = text.as_bytes();
        let mut out = Vec::new(rt.alloc());
        same(
            &rt,
            answer(rt.alloc(), Ok(words.into_iter()), &mut rest, &mut out),
            status,
        );
        same(&rt, out.as_slice(), printed.as_bytes());
        same(&rt, rest, if is_read { &[] } else { text.as_bytes() });
    }
    Ok(())
}

// If the words can't be read.
#[test]
fn a_program_without_words_says_why(rt: HostRuntime) {
    for (kind, printed) in [
        (ErrorKind::InvalidData, "error kind\n"),
        (ErrorKind::OutOfMemory, "error memory\n"),
    ] {
        let words = Err(io::Error::from(kind));
        let mut rest = b"0007".as_slice();
        let mut out = Vec::new(rt.alloc());
        same(&rt, answer(rt.alloc(), words, &mut rest, &mut out), 2);
        same(&rt, out.as_slice(), printed.as_bytes());
        same(&rt, rest, b"0007".as_slice());
    }
}

// Each of these rows has an input's text, the first call that fails, how many do, and what is printed.
// Later calls work, and aren't made.
#[test]
fn a_program_says_how_its_input_failed(rt: HostRuntime) -> Result<(), Fail> {
    for (text, at, times, fault, printed) in [
        ("0007", 1, 1, Fault::Failed, "error read\n"),
        ("0007", 5, 1, Fault::Failed, "error read\n"),
        ("zz", 3, 1, Fault::Failed, "error read\n"),
        ("0007", 5, 17, Fault::Interrupted, "error read\n"),
        ("0007", 1, 1, Fault::NoMemory, "error memory\n"),
        ("0007", 5, 1, Fault::NoMemory, "error memory\n"),
    ] {
        let words = words_of(rt.alloc(), &["tlsview", "u16"])?;
        let mut input = Failing::new(Drip::new(text.as_bytes()), at, times, fault);
        let mut out = Vec::new(rt.alloc());
        same(
            &rt,
            answer(rt.alloc(), Ok(words.into_iter()), &mut input, &mut out),
            2,
        );
        same_at(&rt, text, out.as_slice(), printed.as_bytes());
    }
    Ok(())
}

// Each of these rows has a kind, the first call of the sink that fails, how many do, and what it received.
// Later calls work, and nothing is said after a failed write.
#[test]
fn a_program_ends_as_its_sink_does(rt: HostRuntime) -> Result<(), Fail> {
    for (kind, at, times, fault, received) in [
        ("u16", 1, 1, Fault::Failed, ""),
        ("u16", 4, 1, Fault::Failed, "sli"),
        ("u16", 21, 1, Fault::NoMemory, "slice ok 7 rest -\nre"),
        ("u16", 6, 17, Fault::Interrupted, "slice"),
        ("u99", 1, 1, Fault::Failed, ""),
        ("u99", 7, 1, Fault::NoMemory, "error "),
    ] {
        let words = words_of(rt.alloc(), &["tlsview", kind])?;
        let mut input = b"0007\n".as_slice();
        let mut out = Failing::new(Trickle::new(Vec::new(rt.alloc())), at, times, fault);
        same(
            &rt,
            answer(rt.alloc(), Ok(words.into_iter()), &mut input, &mut out),
            2,
        );
        let printed = out.into_inner().into_inner();
        same(&rt, printed.as_slice(), received.as_bytes());
    }
    Ok(())
}

// The input has one digit more than an input may have.
#[test]
fn a_program_says_that_its_input_is_too_long(rt: HostRuntime) -> Result<(), Fail> {
    let words = words_of(rt.alloc(), &["tlsview", "u16"])?;
    let text = vec![in rt.alloc(); b'0'; 1_048_577]?;
    let mut rest = text.as_slice();
    let mut out = Vec::new(rt.alloc());
    same(
        &rt,
        answer(rt.alloc(), Ok(words.into_iter()), &mut rest, &mut out),
        2,
    );
    same(&rt, out.as_slice(), b"error long\n".as_slice());
    Ok(())
}
