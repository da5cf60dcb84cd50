//! How bytes and values are written in a row.
//!
//! Bytes are hex, and `-` is none. A tail of 16 equal bytes or more is `XX*COUNT`, after a space: `ffff 4d*65535`.
//! Numbers are decimal. An option is `none` or `some ` and its value, a list is `[1,2]`, and one of 16 equal
//! elements or more `[77*255]`. A string is in quotes.
use std::alloc::{AllocError, Global};

/// From this number on, equal bytes or elements are written with a count.
pub const MANY: usize = 16;

/// The bytes of a row: groups of hex with a space between, each as often as the number after its `*`.
pub fn bytes_of(alloc: Global, text: &str) -> Option<Vec<u8>> {
    let mut bytes = Vec::new(alloc);
    if text == "-" {
        return Some(bytes);
    }
    for group in text.split(' ') {
        push_group(alloc, &mut bytes, group)?;
    }
    Some(bytes)
}

fn push_group(alloc: Global, bytes: &mut Vec<u8>, group: &str) -> Option<()> {
    let (digits, times) = match group.split_once('*') {
        Some((digits, times)) => (digits, times.parse::<u32>().ok()?),
        None => (group, 1),
    };
    let once = hex::decode(alloc, digits).ok()?;
    for _ in 0..times {
        bytes.extend_from_slice(&once).ok()?;
    }
    Some(())
}

/// Appends some bytes.
pub fn push_bytes(alloc: Global, out: &mut String, bytes: &[u8]) -> Result<(), AllocError> {
    let Some(last) = bytes.last() else {
        return out.push('-');
    };
    let tail = bytes.iter().rev().take_while(|byte| *byte == last).count();
    let (front, tail) = bytes.split_at(bytes.len().saturating_sub(tail));
    if tail.len() < MANY {
        return push_hex(alloc, out, bytes);
    }
    if !front.is_empty() {
        push_hex(alloc, out, front)?;
        out.push(' ')?;
    }
    let count = tail.len();
    write!(out, "{last:02x}*{count}")
}

fn push_hex(alloc: Global, out: &mut String, bytes: &[u8]) -> Result<(), AllocError> {
    let digits = hex::encode(alloc, bytes)?;
    out.push_str(digits.as_str())
}
