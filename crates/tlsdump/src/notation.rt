//! The bytes that a text stands for.

use base64::DecodeAllocError;
use base64::engine::general_purpose::STANDARD;
use std::alloc::{AllocError, AllocFailed, Global};

/// How an input encodes bytes.
#[derive(Clone, Copy, PartialEq, Eq, Debug)]
pub enum Notation {
    /// As hex, or as base64 if that is what it looks like.
    Text,
    Base64,
    /// The input is the bytes themselves.
    Binary,
}

/// Why a text stands for no bytes.
#[derive(Clone, Copy, PartialEq, Eq, Debug)]
pub enum NotationError {
    /// A byte at a line and a column, each from 1, is no digit and nothing that may be between
    /// digits.
    Digit {
        line: usize,
        column: usize,
        byte: u8,
    },
    /// The number of digits, which is odd.
    Odd(usize),
    /// It has the characters of base64, but is not base64.
    Base64,
    /// Memory was refused.
    Memory,
}

impl From<AllocError> for NotationError {
    fn from(_error: AllocError) -> NotationError {
        NotationError::Memory
    }
}

impl<T: Drop> From<AllocFailed<T>> for NotationError {
    fn from(_error: AllocFailed<T>) -> NotationError {
        NotationError::Memory
    }
}

/// The bytes of an input.
pub fn bytes_of(
    alloc: Global,
    notation: Notation,
    input: Vec<u8>,
) -> Result<Vec<u8>, NotationError> {
    match notation {
        Notation::Binary => Ok(input),
        Notation::Base64 => base64_bytes(alloc, &input),
        Notation::Text if is_base64(&input) => base64_bytes(alloc, &input),
        Notation::Text => hex_bytes(alloc, &input),
    }
}

/// The bytes that hex digits stand for, two digits a byte. Blanks, colons, commas and `0x` may be
/// between the digits. A line of a dump, as `xxd` prints it, begins with a position and ends with a text:
/// only the digits between these two count.
pub fn hex_bytes(alloc: Global, text: &[u8]) -> Result<Vec<u8>, NotationError> {
    let mut digits = Digits {
        bytes: Vec::new(alloc),
        half: None,
        count: 0,
    };
    for (at, line) in text.split(|byte| *byte == b'\n').enumerate() {
        digits.add_line(at.saturating_add(1), line)?;
    }
    match digits.half {
        None => Ok(digits.bytes),
        Some(_) => Err(NotationError::Odd(digits.count)),
    }
}

// The digits up to here.
#[derive(Drop)]
struct Digits {
    bytes: Vec<u8>,
    // The first digit of a byte that isn't whole yet.
    half: Option<u8>,
    count: usize,
}

impl Digits {
    fn add_line(&mut self, number: usize, line: &[u8]) -> Result<(), NotationError> {
        let (from, to) = dumped(line);
        for (at, byte) in line.iter().enumerate() {
            if at >= from && at < to && !is_mark(line, at, *byte) {
                let column = at.saturating_add(1);
                self.add(number, column, *byte)?;
            }
        }
        Ok(())
    }

    fn add(&mut self, line: usize, column: usize, byte: u8) -> Result<(), NotationError> {
        let Some(digit) = value_of(byte) else {
            return Err(NotationError::Digit { line, column, byte });
        };
        self.count = self.count.saturating_add(1);
        match self.half {
            None => self.half = Some(digit),
            Some(first) => {
                self.bytes.push(first.wrapping_mul(16).wrapping_add(digit))?;
                self.half = None;
            }
        }
        Ok(())
    }
}

// The value of a hex digit.
fn value_of(byte: u8) -> Option<u8> {
    match byte {
        b'0'..=b'9' => Some(byte.wrapping_sub(b'0')),
        b'a'..=b'f' => Some(byte.wrapping_sub(b'a').wrapping_add(10)),
        b'A'..=b'F' => Some(byte.wrapping_sub(b'A').wrapping_add(10)),
        _ => None,
    }
}

// Whether a byte is between digits: a blank, a colon, a comma, or one of the two of `0x`.
fn is_mark(line: &[u8], at: usize, byte: u8) -> bool {
    match byte {
        b' ' | b'\t' | b'\r' | b':' | b',' => true,
        b'0' => matches!(line.get(at.saturating_add(1)), Some(b'x' | b'X')),
        b'x' | b'X' => at > 0 && line.get(at.saturating_sub(1)) == Some(&b'0'),
        _ => false,
    }
}

// Where the digits of a line are: in `00000010: 0a0b 0c0d  text`, after the position and before two
// blanks.
fn dumped(line: &[u8]) -> (usize, usize) {
    let width = line
        .iter()
        .take_while(|byte| value_of(**byte).is_some())
        .count();
    let begins = width.saturating_add(2);
    if width < 4
        || line.get(width) != Some(&b':')
        || line.get(width.saturating_add(1)) != Some(&b' ')
    {
        return (0, line.len());
    }
    for at in begins..line.len() {
        if line.get(at) == Some(&b' ') && line.get(at.saturating_add(1)) == Some(&b' ') {
            return (begins, at);
        }
    }
    (begins, line.len())
}

// Whether a text looks like base64: it has no other characters, in fours, and more than one in
// eight is no hex digit.
fn is_base64(text: &[u8]) -> bool {
    let mut digits = 0usize;
    let mut others = 0usize;
    for byte in text {
        match *byte {
            b' ' | b'\t' | b'\r' | b'\n' => {}
            b'0'..=b'9' | b'a'..=b'f' | b'A'..=b'F' => digits = digits.saturating_add(1),
            b'G'..=b'Z' | b'g'..=b'z' | b'+' | b'/' | b'=' => others = others.saturating_add(1),
            _ => return false,
        }
    }
    let all = digits.saturating_add(others);
    all % 4 == 0 && others.saturating_mul(8) > all && !has_prefix(text)
}

// Whether `0x` is in a text.
fn has_prefix(text: &[u8]) -> bool {
    text.windows(2)
        .any(|two| matches!(two, [b'0', b'x' | b'X']))
}

fn is_blank(byte: u8) -> bool {
    matches!(byte, b' ' | b'\t' | b'\r' | b'\n')
}

fn base64_bytes(alloc: Global, text: &[u8]) -> Result<Vec<u8>, NotationError> {
    let mut packed = Vec::from_slice(alloc, text)?;
    packed.retain(|byte| !is_blank(*byte));
    match STANDARD.decode(alloc, &packed) {
        Ok(bytes) => Ok(bytes),
        Err(DecodeAllocError::OutOfMemory) => Err(NotationError::Memory),
        Err(_) => Err(NotationError::Base64),
    }
}
