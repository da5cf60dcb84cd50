// What no clause says: printed texts, that calls succeed, and which interruptions are in a row.
mod bounded;
mod devices;
mod faults;
mod kinds;
mod numbers;

use devices::{ENDED, Fives, Keeper, Plan};
use std::alloc::AllocError;
use std::fmt::Debug;
use std::process::Abort;
use std::test::Fail;
use tls_codec_wire::device::{Fault, Sink, Source};
use tls_codec_wire::error::Error;
use tls_codec_wire::outside::Outside;
use tls_codec_wire::transfer::{expect_end, read_exactly, write_all};

const READ_FAILED: Error = Error::DecodingError("read failed");

const WRITE_FAILED: Error = Error::EncodingError("write failed");

const FAILED: Option<Fault> = Some(Fault::Failed);

const NO_MEMORY: Option<Fault> = Some(Fault::NoMemory);

// An assertion that is written out is proved at each place: this one is proved once.
fn same<T: PartialEq + Debug + Drop>(rt: &impl Abort, found: T, expected: T) {
    assert_eq!(rt; found, expected);
}

// The same at one of several rows, which a failure names.
fn same_at<Row: Debug + Drop, T: PartialEq + Debug + Drop>(
    rt: &impl Abort,
    row: Row,
    found: T,
    expected: T,
) {
    assert_eq!(rt; found, expected, "at {row:?}");
}

#[test]
fn an_error_prints_its_name_and_its_debug_text(rt: HostRuntime) -> Result<(), Fail> {
    for (error, name, text) in [
        (
            Error::EncodingError("write failed"),
            "EncodingError",
            "EncodingError(\"write failed\")",
        ),
        (
            Error::InvalidVectorLength,
            "InvalidVectorLength",
            "InvalidVectorLength",
        ),
        (
            Error::InvalidWriteLength("too long"),
            "InvalidWriteLength",
            "InvalidWriteLength(\"too long\")",
        ),
        (Error::InvalidInput, "InvalidInput", "InvalidInput"),
        (
            Error::DecodingError("read failed"),
            "DecodingError",
            "DecodingError(\"read failed\")",
        ),
        (Error::EndOfStream, "EndOfStream", "EndOfStream"),
        (Error::TrailingData, "TrailingData", "TrailingData"),
        (Error::UnknownValue(7), "UnknownValue", "UnknownValue(7)"),
        (Error::LibraryError, "LibraryError", "LibraryError"),
        (Error::OutOfMemory, "OutOfMemory", "OutOfMemory"),
    ] {
        same(&rt, error.name(), name);
        let printed = format!(in rt.alloc(); "{error}")?;
        same(&rt, printed.as_str(), text);
    }
    Ok(())
}

#[test]
fn refused_memory_is_out_of_memory(rt: HostRuntime) {
    same(&rt, Error::from(AllocError), Error::OutOfMemory);
}

#[test]
fn a_read_ends_as_its_source_does(rt: HostRuntime) {
    for (bytes, interruptions, after, end) in [
        (1, 16, None, Ok(())),
        (1, 17, None, Err(READ_FAILED)),
        (0, 0, FAILED, Err(READ_FAILED)),
        (0, 0, NO_MEMORY, Err(Error::OutOfMemory)),
    ] {
        let mut src = Fives::new(Plan {
            first: None,
            bytes,
            interruptions,
            after,
        });
        let mut into = [0];
        let result = read_exactly(&mut src, &mut into);
        same_at(&rt, interruptions, result, end);
        if result.is_ok() {
            same(&rt, into, [5]);
        }
    }
}

// Each of these rows has a plan, what is returned of its end, and how many calls that took.
#[test]
fn a_source_is_at_its_end_or_not(rt: HostRuntime) {
    let trailing = Err(Error::TrailingData);
    for (bytes, interruptions, after, end, calls) in [
        (0, 0, None, Ok(()), 1),
        (2, 0, None, trailing, 1),
        (2, 16, None, trailing, 17),
        (2, 17, None, Err(READ_FAILED), 17),
        (0, 0, FAILED, Err(READ_FAILED), 1),
        (0, 0, NO_MEMORY, Err(Error::OutOfMemory), 1),
    ] {
        let mut src = Fives::new(Plan {
            first: None,
            bytes,
            interruptions,
            after,
        });
        same_at(&rt, bytes, expect_end(&mut src), end);
        same_at(&rt, bytes, src.progress.calls, calls);
    }
    let mut src = [7].as_slice();
    same(&rt, expect_end(&mut src), trailing);
    same(&rt, src.is_empty(), true);
    same(&rt, expect_end(&mut src), Ok(()));
}

#[test]
fn a_refused_write_has_sent_a_beginning(rt: HostRuntime) {
    for (bytes, interruptions, after, error, taken) in [
        (3, 0, FAILED, WRITE_FAILED, [1, 2, 3].as_slice()),
        (2, 0, NO_MEMORY, Error::OutOfMemory, [1, 2].as_slice()),
        (4, 17, None, WRITE_FAILED, [].as_slice()),
    ] {
        let plan = Plan {
            first: None,
            bytes,
            interruptions,
            after,
        };
        let mut sink = Keeper::new(Vec::new(rt.alloc()), plan);
        let result = write_all(&mut sink, &[1, 2, 3, 4]);
        same(&rt, result, Err(error));
        same(&rt, sink.taken.as_slice(), taken);
    }
}

// A body that counts them over the whole call fails here.
#[test]
fn interruptions_over_whole_call(rt: HostRuntime) -> Result<(), Fail> {
    let plan = Plan {
        first: None,
        bytes: 2,
        interruptions: 16,
        after: FAILED,
    };
    let mut src = Fives::new(plan);
    let mut into = [0; 2];
    read_exactly(&mut src, &mut into)?;
    same(&rt, into, [5, 5]);
    let mut sink = Keeper::new(Vec::new(rt.alloc()), plan);
    write_all(&mut sink, &[1, 2])?;
    same(&rt, sink.taken.as_slice(), [1, 2].as_slice());
    Ok(())
}

#[test]
fn nothing_to_move_makes_no_call(rt: HostRuntime) -> Result<(), Fail> {
    let plan = Plan {
        first: None,
        bytes: 0,
        interruptions: 0,
        after: FAILED,
    };
    let mut src = Fives::new(plan);
    read_exactly(&mut src, &mut [])?;
    same(&rt, src.progress.calls, 0);
    let mut sink = Keeper::new(Vec::new(rt.alloc()), plan);
    write_all(&mut sink, &[])?;
    same(&rt, sink.progress.calls, 0);
    Ok(())
}

#[test]
fn no_byte_taken_is_a_failure_of_the_sink(rt: HostRuntime) {
    let mut sink = Keeper::new(Vec::new(rt.alloc()), ENDED);
    same(&rt, write_all(&mut sink, &[1]), Err(WRITE_FAILED));
    same(&rt, sink.progress.failures, 1);
    same(&rt, sink.progress.calls, 1);
}

#[test]
fn a_slice_gives_its_front(rt: HostRuntime) -> Result<(), Fail> {
    let mut src = [1, 2, 3].as_slice();
    let mut into = [0; 2];
    read_exactly(&mut src, &mut into)?;
    same(&rt, into, [1, 2]);
    same(&rt, src, [3].as_slice());
    same(
        &rt,
        read_exactly(&mut src, &mut into),
        Err(Error::EndOfStream),
    );
    Ok(())
}

#[test]
fn a_vector_takes_a_piece_at_its_end(rt: HostRuntime) -> Result<(), Fail> {
    let mut out = Vec::new(rt.alloc());
    write_all(&mut out, &[1, 2])?;
    write_all(&mut out, &[3])?;
    same(&rt, out.as_slice(), [1, 2, 3].as_slice());
    Ok(())
}

#[test]
fn a_reader_outside_gives_its_bytes(rt: HostRuntime) {
    let mut src = Outside::new([1, 2, 3].as_slice());
    let mut into = [0; 2];
    for (moved, content) in [(2, [1, 2]), (1, [3, 2]), (0, [3, 2])] {
        same(&rt, src.pull(&mut into), Ok(moved));
        same(&rt, into, content);
    }
}

#[test]
fn a_writer_outside_takes_bytes_at_its_end(rt: HostRuntime) -> Result<(), Fail> {
    let mut out = Vec::new(rt.alloc());
    let mut sink = Outside::new(&mut out);
    same(&rt, sink.give(&[1, 2]), Ok(2));
    same(&rt, sink.give(&[3]), Ok(1));
    same(&rt, out.as_slice(), [1, 2, 3].as_slice());
    Ok(())
}
