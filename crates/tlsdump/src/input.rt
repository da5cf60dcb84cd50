//! Reading an input.

use std::alloc::{AllocError, Global};
use std::io::{ErrorKind, Read};
use tls_codec::MAX_INTERRUPTIONS;

/// The most bytes that the messages of an input have: 16 MiB.
pub const LONGEST: usize = 16_777_216;

/// The most bytes that the text of an input has: eight for each of the messages'.
pub const LONGEST_TEXT: usize = 134_217_728;

// The most bytes that are read in one call.
const PIECE: usize = 4096;

/// Why an input isn't read.
#[derive(Clone, Copy, PartialEq, Eq, Debug)]
pub enum InputError {
    /// It has more bytes than an input may have.
    Long,
    /// It failed, or was interrupted more than [`MAX_INTERRUPTIONS`] times in a row.
    Failed,
    /// Memory was refused.
    Memory,
}

impl From<AllocError> for InputError {
    fn from(_error: AllocError) -> InputError {
        InputError::Memory
    }
}

/// All that an input has, if it isn't more than this.
pub fn read<I: Read>(alloc: Global, input: &mut I, most: usize) -> Result<Vec<u8>, InputError> {
    let mut all = Vec::new(alloc);
    let mut piece = [0u8; PIECE];
    for _ in 0..u64::MAX {
        let count = next_piece(input, &mut piece)?;
        if count == 0 {
            return Ok(all);
        }
        if let Some(read) = piece.get(..count) {
            all.extend_from_slice(read)?;
        }
        if all.len() > most {
            return Err(InputError::Long);
        }
    }
    Err(InputError::Long)
}

// Reads once, and again after an interruption, up to `MAX_INTERRUPTIONS` times in a row.
fn next_piece<I: Read>(input: &mut I, into: &mut [u8]) -> Result<usize, InputError> {
    for _row in 0..=MAX_INTERRUPTIONS {
        match input.read(into) {
            Ok(count) => return Ok(count),
            Err(error) if error.kind() == ErrorKind::Interrupted => {}
            Err(error) if error.kind() == ErrorKind::OutOfMemory => return Err(InputError::Memory),
            Err(_) => return Err(InputError::Failed),
        }
    }
    Err(InputError::Failed)
}
