//! The rows. Each call knows how many requests for memory it makes. It is refused if one of these is, and never
//! else. Then it is made once more, and returns what it returns in an ordinary run.

// What a call that makes `$count` requests returns. If one of them is refused, the call must be
// refused. Then `$unchanged` checks that the value that it borrowed is unchanged, and the call is
// made again.
macro_rules! counted {
    ($requests:expr, $count:expr, $call:expr) => {
        counted!($requests, $count, $call, Error::OutOfMemory, ())
    };
    ($requests:expr, $count:expr, $call:expr, $refused:pat, $unchanged:expr) => {
        match $call {
            Err($refused) => {
                $requests.make($count, true)?;
                $unchanged;
                $call
            }
            other => {
                $requests.make($count, false)?;
                other
            }
        }
    };
}

mod messages;
mod owned;
mod refused_input;
mod room;
mod views;

use crate::requests::{Requests, Wrong};
use std::alloc::Global;
use tls_codec::Error;

/// All of them, one after another.
pub fn all(alloc: Global, requests: &mut Requests) -> Result<(), Wrong> {
    messages::all(alloc, requests)?;
    owned::all(alloc, requests)?;
    refused_input::all(alloc, requests)?;
    room::all(alloc, requests)?;
    views::all(alloc, requests)
}

// A vector of these bytes without room for more, so that making it longer in any way requests
// memory.
fn full(alloc: Global, requests: &mut Requests, content: &[u8]) -> Result<Vec<u8>, Wrong> {
    let vec = counted!(requests, 1, copied(alloc, content))?;
    same(vec.capacity(), content.len())?;
    Ok(vec)
}

fn copied(alloc: Global, content: &[u8]) -> Result<Vec<u8>, Error> {
    Ok(content.to_vec(alloc)?)
}

fn same<T: PartialEq + Drop>(found: T, expected: T) -> Result<(), Wrong> {
    if found == expected {
        Ok(())
    } else {
        Err(Wrong::Answer)
    }
}

// A vector that has `len` elements asked for room of that order: for up to twice as many, and for
// 64 if they are few.
fn expect_of_the_order(room: usize, len: usize) -> Result<(), Wrong> {
    if room <= len.saturating_mul(2).max(64) {
        Ok(())
    } else {
        Err(Wrong::Room)
    }
}
