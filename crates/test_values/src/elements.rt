//! What the list engines make of bytes.
use crate::decoded::{is_left, push_refused};
use crate::notation::push_bytes;
use crate::sources::{PIECES, in_pieces};
use crate::value::{Value, push_list};
use std::alloc::{AllocError, Global};
use tls_codec::lists::{self, Turns};
use tls_codec::{Error, Source};
use tls_codec_vectors::Drip;

/// Appends the elements in the first `length` bytes, the rest, and how many turns it took; or the
/// error of each path, and how many turns it took until then.
pub fn elements<T: Value>(
    alloc: Global,
    length: usize,
    bytes: &[u8],
    out: &mut String,
) -> Result<(), AllocError> {
    let mut turns = Turns::new();
    match lists::from_slice::<T>(alloc, bytes, length, &mut turns) {
        Ok((found, rest)) => {
            push_list(alloc, out, &found)?;
            out.push_str(", rest ")?;
            push_bytes(alloc, out, rest)?;
            let by_reader = Ok(found);
            push_turns(alloc, out, length, bytes, &by_reader, rest, turns.count())
        }
        Err(by_slice) => {
            let mut left = bytes;
            let mut again = Turns::new();
            match lists::from_reader::<T, &[u8]>(alloc, &mut left, length, &mut again) {
                Ok(_) => out.push_str("refused by slice alone"),
                Err(by_reader) => {
                    push_refused(out, by_slice, by_reader)?;
                    let by_reader: Result<Vec<T>, Error> = Err(by_reader);
                    push_turns(alloc, out, length, bytes, &by_reader, &[], turns.count())
                }
            }
        }
    }
}

// Appends the turns. If a source gives anything else, or in other turns, this is said.
fn push_turns<T: Value>(
    alloc: Global,
    out: &mut String,
    length: usize,
    bytes: &[u8],
    expected: &Result<Vec<T>, Error>,
    rest: &[u8],
    turns: u64,
) -> Result<(), AllocError> {
    write!(out, ", {turns} turns")?;
    let mut left = bytes;
    if !gives(alloc, &mut left, length, expected, rest, turns) {
        out.push_str(", reader differs")?;
    }
    if !gives(alloc, &mut Drip::new(bytes), length, expected, rest, turns) {
        out.push_str(", byte by byte differs")?;
    }
    for most in PIECES {
        let mut source = in_pieces(bytes, most);
        if !gives(alloc, &mut source, length, expected, rest, turns) {
            write!(out, ", outside in pieces of {most} differs")?;
        }
    }
    Ok(())
}

fn gives<T: Value, R: Source>(
    alloc: Global,
    source: &mut R,
    length: usize,
    expected: &Result<Vec<T>, Error>,
    rest: &[u8],
    count: u64,
) -> bool {
    let mut turns = Turns::new();
    let found = lists::from_reader::<T, R>(alloc, source, length, &mut turns);
    let as_expected = match (found, expected) {
        (Ok(found), Ok(elements)) => found == *elements && is_left(alloc, source, rest),
        (Err(found), Err(error)) => found == *error,
        _ => false,
    };
    as_expected && turns.count() == count
}
