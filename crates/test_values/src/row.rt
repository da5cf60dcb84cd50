//! A row, by the type that it names.
use crate::decoded::decoded;
use crate::elements::elements;
use crate::encoded::Encoded;
use crate::notation::bytes_of;
use crate::value::Value;
use std::alloc::{AllocError, Global};

/// A call of a row.
#[derive(Clone, Copy, PartialEq)]
pub enum Call {
    /// A value is read from the bytes, and written.
    Value,
    /// Elements are read from the first bytes, as many as this number.
    Elements(usize),
    /// What has these bytes in it is written.
    Content,
}

/// A row, without its type.
#[derive(Drop)]
pub struct Row {
    pub call: Call,
    pub bytes: Vec<u8>,
}

impl Row {
    /// The row of this call and these bytes. None: they are not spelled so, or out of memory.
    pub fn of(alloc: Global, call: &str, bytes: &str) -> Option<Row> {
        let call = match call {
            "value" => Call::Value,
            "content" => Call::Content,
            _ => Call::Elements(call.strip_prefix("elements ")?.parse::<usize>().ok()?),
        };
        let bytes = bytes_of(alloc, bytes)?;
        Some(Row { call, bytes })
    }
}

/// Appends the row's answer, by its type. It is true: there is a type.
pub fn answer<T: Value>(alloc: Global, row: &Row, out: &mut String) -> Result<bool, AllocError> {
    match row.call {
        Call::Value => decoded::<T>(alloc, &row.bytes, out)?,
        Call::Elements(length) => elements::<T>(alloc, length, &row.bytes, out)?,
        Call::Content => content::<T>(alloc, &row.bytes, out)?,
    }
    Ok(true)
}

// Appends what the encoders make of the list or byte vector of these bytes.
fn content<T: Value>(alloc: Global, bytes: &[u8], out: &mut String) -> Result<(), AllocError> {
    match T::of_content(alloc, bytes) {
        Some(value) => Encoded::of(alloc, &value)?.push(alloc, &value, out),
        None => out.push_str("no such content"),
    }
}
