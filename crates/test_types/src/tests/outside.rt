//! Any reader of std as a source. It doesn't report which bytes are to come, and gives its bytes in
//! pieces.
use super::each_call::expect_left;
use crate::tests::{same, same_at};
use std::alloc::Global;
use std::io;
use std::io::Read;
use std::process::Abort;
use std::test::Fail;
use tls_codec::{Deserialize, Error, Fault, Outside, deserialize_to_end, expect_end};
use tls_codec_vectors::{Drip, Failing};

// Gives at most `most` bytes a call.
#[derive(Drop)]
pub(super) struct Pieces<'a> {
    left: &'a [u8],
    most: usize,
}

impl<'a> Read for Pieces<'a> {
    fn read(&mut self, buf: &mut [u8]) -> io::Result<usize> {
        let most = buf.len().min(self.most);
        self.left.read(&mut buf[..most])
    }
}

// Pieces of one byte, of two, and all at once.
pub(super) const PIECES: [usize; 3] = [1, 2, usize::MAX];

pub(super) fn in_pieces(bytes: &[u8], most: usize) -> Outside<Pieces<'_>> {
    Outside::new(Pieces { left: bytes, most })
}

// The value of a prefix of the bytes is read, and the rest is to come.
pub(super) fn expect_read_outside<T: Deserialize + PartialEq>(
    rt: &impl Abort,
    alloc: Global,
    bytes: &[u8],
    value: &T,
    rest: &[u8],
) -> Result<(), Fail> {
    for most in PIECES {
        let mut source = in_pieces(bytes, most);
        let found = T::tls_deserialize(alloc, &mut source)?;
        same_at(rt, most, found == *value, true);
        expect_left(rt, alloc, &mut source, rest)?;
    }
    Ok(())
}

// The bytes are rejected with this error.
pub(super) fn expect_rejected_outside<T: Deserialize>(
    rt: &impl Abort,
    alloc: Global,
    bytes: &[u8],
    error: Error,
) {
    for most in PIECES {
        let rejected = T::tls_deserialize(alloc, &mut in_pieces(bytes, most)).err();
        same_at(rt, most, rejected, Some(error));
    }
}

#[test]
fn a_value_and_the_end_of_its_source(rt: HostRuntime) {
    let alloc = rt.alloc();
    for (bytes, answer) in [
        ([0, 7].as_slice(), Ok(7)),
        (&[0, 7, 1], Err(Error::TrailingData)),
        (&[0], Err(Error::EndOfStream)),
        (&[], Err(Error::EndOfStream)),
    ] {
        let mut source = bytes;
        same(
            &rt,
            deserialize_to_end::<u16, _>(alloc, &mut source),
            answer,
        );
        for most in PIECES {
            let mut source = in_pieces(bytes, most);
            same(
                &rt,
                deserialize_to_end::<u16, _>(alloc, &mut source),
                answer,
            );
        }
    }
    let mut source = [0, 7, 1, 2].as_slice();
    let rejected = deserialize_to_end::<u16, _>(alloc, &mut source);
    same(&rt, rejected, Err(Error::TrailingData));
    same(&rt, source, [2].as_slice());
}

// The value comes by the first two calls, and the end is asked for by the third.
#[test]
fn an_end_that_is_not_known(rt: HostRuntime) {
    let failed = Error::DecodingError("read failed");
    for (times, fault, answer) in [
        (1, Fault::Failed, Err(failed)),
        (1, Fault::NoMemory, Err(Error::OutOfMemory)),
        (16, Fault::Interrupted, Ok(7)),
        (17, Fault::Interrupted, Err(failed)),
    ] {
        let mut source = Failing::new(Drip::new(&[0, 7]), 3, times, fault);
        let found = deserialize_to_end::<u16, _>(rt.alloc(), &mut source);
        same_at(&rt, times, found, answer);
    }
}

#[test]
fn the_end_of_a_reader(rt: HostRuntime) {
    for most in PIECES {
        let mut source = in_pieces(&[1], most);
        same(&rt, expect_end(&mut source), Err(Error::TrailingData));
        same(&rt, expect_end(&mut source), Ok(()));
    }
}
