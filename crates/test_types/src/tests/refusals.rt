//! What the list engines reject, and how often they try an element then.
use super::each_call::expect_rejected;
use super::outside::{PIECES, in_pieces};
use crate::tests::{same, same_at};
use std::alloc::Global;
use std::process::Abort;
use tls_codec::lists::{self, Turns};
use tls_codec::{Deserialize, DeserializeBytes, Error};

// The engines reject the bytes after this number of turns.
fn expect_rejected_after<T: Deserialize + DeserializeBytes>(
    rt: &impl Abort,
    alloc: Global,
    bytes: &[u8],
    length: usize,
    (by_slice, by_reader): (Error, Error),
    count: u64,
) {
    let mut turns = Turns::new();
    let rejected = lists::from_slice::<T>(alloc, bytes, length, &mut turns);
    same(rt, rejected.err(), Some(by_slice));
    same(rt, turns.count(), count);
    let mut source = bytes;
    let mut turns = Turns::new();
    let rejected = lists::from_reader::<T, &[u8]>(alloc, &mut source, length, &mut turns);
    same(rt, rejected.err(), Some(by_reader));
    same(rt, turns.count(), count);
    for most in PIECES {
        let mut source = in_pieces(bytes, most);
        let mut turns = Turns::new();
        let rejected = lists::from_reader::<T, _>(alloc, &mut source, length, &mut turns);
        same_at(rt, most, rejected.err(), Some(by_reader));
        same_at(rt, most, turns.count(), count);
    }
}

// A body that requests the declared room runs out of memory.
#[test]
fn room_by_declared_length(rt: HostRuntime) {
    let alloc = rt.alloc();
    let end = Error::EndOfStream;
    expect_rejected::<Vec<u16>>(&rt, alloc, &[0xbf, 0xff, 0xff, 0xff, 0, 1], end);
    expect_rejected_after::<u16>(&rt, alloc, &[0], isize::MAX as usize, (end, end), 1);
}
