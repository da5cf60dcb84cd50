// Runs from an input and into a sink with some calls in a row that fail.
use crate::tests::{same, same_at};
use std::io;
use std::io::{ErrorKind, Read, Write};
use tls_codec::{Fault, Outside};
use tls_codec_vectors::{Drip, Failing, Trickle};
use tlsview_run::fault::ViewFault;
use tlsview_run::run::run;

const VIEW: &str = "slice ok some 7 rest ee\nreader ok some 7 rest ee\nleast 010007\n";

// Each call fails in turn, the first as well as the one that finds the end. After the end there is no
// call.
#[test]
fn a_run_ends_as_its_input_does(rt: HostRuntime) {
    for (times, fault, outcome) in [
        (1, Fault::Failed, Err(ViewFault::Read)),
        (1, Fault::NoMemory, Err(ViewFault::Memory)),
        (16, Fault::Interrupted, Ok(true)),
        (17, Fault::Interrupted, Err(ViewFault::Read)),
    ] {
        for at in 1..=10u64 {
            let outcome = if at < 10 { outcome } else { Ok(true) };
            let mut input = Failing::new(Drip::new(b"010007ee"), at, times, fault);
            let mut out = Vec::new(rt.alloc());
            let found = run(rt.alloc(), "option-u16", &mut input, &mut out);
            same_at(&rt, at, found, outcome);
            let printed = if outcome.is_ok() { VIEW } else { "" };
            same_at(&rt, at, out.as_slice(), printed.as_bytes());
        }
    }
}

// Each of these rows has the first call that fails, how many do, and what the sink received.
#[test]
fn a_sink_that_fails_has_a_beginning(rt: HostRuntime) {
    let broken = Err(ViewFault::Write);
    for (at, times, fault, outcome, received) in [
        (1, 1, Fault::Failed, broken, ""),
        (4, 1, Fault::Failed, broken, "sli"),
        (63, 1, Fault::Failed, Ok(true), VIEW),
        (1, 1, Fault::NoMemory, broken, ""),
        (
            28,
            1,
            Fault::NoMemory,
            broken,
            "slice ok some 7 rest ee\nrea",
        ),
        (1, 16, Fault::Interrupted, Ok(true), VIEW),
        (1, 17, Fault::Interrupted, broken, ""),
        (6, 17, Fault::Interrupted, broken, "slice"),
    ] {
        let mut input = b"010007ee\n".as_slice();
        let mut out = Failing::new(Trickle::new(Vec::new(rt.alloc())), at, times, fault);
        let found = run(rt.alloc(), "option-u16", &mut input, &mut out);
        same_at(&rt, at, found, outcome);
        let printed = out.into_inner().into_inner();
        same_at(&rt, at, printed.as_slice(), received.as_bytes());
    }
}

// Sixteen interruptions come before each of the first two bytes, so that they are no more in a row.
#[test]
fn interruptions_over_whole_run(rt: HostRuntime) {
    let fault = Fault::Interrupted;
    let bytes = Failing::new(Drip::new(b"010007ee"), 2, 16, fault);
    let mut input = Failing::new(bytes, 1, 16, fault);
    let trickle = Trickle::new(Vec::new(rt.alloc()));
    let mut out = Failing::new(Failing::new(trickle, 2, 16, fault), 1, 16, fault);
    let outcome = run(rt.alloc(), "option-u16", &mut input, &mut out);
    same(&rt, outcome, Ok(true));
    let printed = out.into_inner().into_inner().into_inner();
    same(&rt, printed.as_slice(), VIEW.as_bytes());
}

// Fails at each call, by an error of this kind.
#[derive(Drop)]
struct Broken {
    kind: ErrorKind,
}

impl Read for Broken {
    fn read(&mut self, _buf: &mut [u8]) -> io::Result<usize> {
        Err(io::Error::from(self.kind))
    }
}

impl Write for Broken {
    fn write(&mut self, _buf: &[u8]) -> io::Result<usize> {
        Err(io::Error::from(self.kind))
    }

    fn flush(&mut self) -> io::Result<()> {
        Err(io::Error::from(self.kind))
    }
}

// Of the errors of std only running out of memory has a name of its own, and that for an input
// alone.
#[test]
fn errors_of_std_are_read_and_write(rt: HostRuntime) {
    for (kind, fault) in [
        (ErrorKind::WouldBlock, ViewFault::Read),
        (ErrorKind::TimedOut, ViewFault::Read),
        (ErrorKind::InvalidData, ViewFault::Read),
        (ErrorKind::UnexpectedEof, ViewFault::Read),
        (ErrorKind::Interrupted, ViewFault::Read),
        (ErrorKind::OutOfMemory, ViewFault::Memory),
    ] {
        let mut input = Outside::new(Broken { kind });
        let mut out = Vec::new(rt.alloc());
        let found = run(rt.alloc(), "u16", &mut input, &mut out);
        same_at(&rt, kind, found, Err(fault));
        same(&rt, out.is_empty(), true);
        let mut text = b"0007".as_slice();
        let mut broken = Outside::new(Broken { kind });
        let found = run(rt.alloc(), "u16", &mut text, &mut broken);
        same_at(&rt, kind, found, Err(ViewFault::Write));
    }
}
