//! Messages as JSON.

use crate::annotations::{date_of, name_or_grease, printable_text};
use crate::walk::line::{Label, Line, Shown};
use serde_json::{Map, Value, put};
use std::alloc::{AllocError, Global};

// A line's members, and those of the lines below it.
#[derive(Drop)]
struct Node {
    depth: usize,
    members: Map<String, Value>,
    below: Vec<Value>,
    // What the lines below are.
    are: Option<&'static str>,
}

/// Adds the lines of a message, whose first byte has this position, as an object: each has its
/// `name`, the `offset` of its first byte and what it shows, and the lines below it are its
/// `fields` or `elements`. Returns the position after the message.
pub fn push_tree(
    alloc: Global,
    messages: &mut Vec<Value>,
    start: usize,
    lines: &[Line<'_>],
) -> Result<usize, AllocError> {
    let mut at = start;
    let mut open: Vec<Node> = Vec::new(alloc);
    for line in lines {
        close(alloc, &mut open, messages, line.depth)?;
        open.push(node_of(alloc, at, line)?)?;
        at = at.saturating_add(line.bytes.len());
    }
    close(alloc, &mut open, messages, 0)?;
    Ok(at)
}

// Ends the nodes that a line of this depth isn't below.
fn close(
    alloc: Global,
    open: &mut Vec<Node>,
    roots: &mut Vec<Value>,
    depth: usize,
) -> Result<(), AllocError> {
    for _ in 0..open.len() {
        match open.pop() {
            Some(node) if node.depth >= depth => {
                let value = ended(alloc, node)?;
                match open.last_mut() {
                    Some(above) => above.below.push(value)?,
                    None => roots.push(value)?,
                }
            }
            Some(node) => {
                open.push(node)?;
                return Ok(());
            }
            None => return Ok(()),
        }
    }
    Ok(())
}

// A node with what is below it.
fn ended(alloc: Global, node: Node) -> Result<Value, AllocError> {
    let Node {
        mut members,
        below,
        are,
        ..
    } = node;
    if let Some(key) = are {
        put(&mut members, alloc, key, Value::Array(below))?;
    }
    Ok(Value::Object(members))
}

// A line's node, with nothing below it yet.
fn node_of(alloc: Global, at: usize, line: &Line<'_>) -> Result<Node, AllocError> {
    let mut members = Map::new(alloc);
    match line.label {
        Label::Field(name) => put_text(&mut members, alloc, "name", name)?,
        Label::Element(position) => put(
            &mut members,
            alloc,
            "index",
            Value::from(position as u64),
        )?,
    }
    put(&mut members, alloc, "offset", Value::from(at as u64))?;
    let are = match line.shown {
        Shown::Struct(of) | Shown::Present(of) | Shown::Opened(_, of) => {
            put_text(&mut members, alloc, "type", of)?;
            Some("fields")
        }
        Shown::List(_) | Shown::Cut(_) => Some("elements"),
        _ => {
            put_shown(&mut members, alloc, line)?;
            None
        }
    };
    Ok(Node {
        depth: line.depth,
        members,
        below: Vec::new(alloc),
        are,
    })
}

// What a line without others below it shows.
fn put_shown(
    members: &mut Map<String, Value>,
    alloc: Global,
    line: &Line<'_>,
) -> Result<(), AllocError> {
    match line.shown {
        Shown::Number => put_number(members, alloc, line),
        Shown::Code(name) => put_code(members, alloc, line, name),
        Shown::Bytes(_, why) => put_bytes(members, alloc, line, why),
        Shown::Unread => put_hex(members, alloc, line.bytes),
        _ => put(members, alloc, "value", Value::Null),
    }
}

// A number, and the date that it stands for, if it does.
fn put_number(
    members: &mut Map<String, Value>,
    alloc: Global,
    line: &Line<'_>,
) -> Result<(), AllocError> {
    put(members, alloc, "number", Value::from(line.number()))?;
    match date_of(alloc, line)? {
        Some(date) => put_text(members, alloc, "date", date.as_str()),
        None => Ok(()),
    }
}

// A number, and what it is called, if it has a name.
fn put_code(
    members: &mut Map<String, Value>,
    alloc: Global,
    line: &Line<'_>,
    name: Option<&str>,
) -> Result<(), AllocError> {
    put(members, alloc, "number", Value::from(line.number()))?;
    match name_or_grease(name, line.bytes) {
        Some(name) => put_text(members, alloc, "value", name),
        None => Ok(()),
    }
}

// Bytes, the type that they aren't of, and the text that they are.
fn put_bytes(
    members: &mut Map<String, Value>,
    alloc: Global,
    line: &Line<'_>,
    why: Option<&str>,
) -> Result<(), AllocError> {
    put_hex(members, alloc, line.content())?;
    if let Some(of) = why {
        put_text(members, alloc, "not", of)?;
    }
    match printable_text(line) {
        Some(text) => put_text(members, alloc, "text", text),
        None => Ok(()),
    }
}

// The hex of bytes.
fn put_hex(
    members: &mut Map<String, Value>,
    alloc: Global,
    bytes: &[u8],
) -> Result<(), AllocError> {
    put_text(members, alloc, "hex", hex::encode(alloc, bytes)?.as_str())
}

/// Puts a member with a text into an object.
pub fn put_text(
    members: &mut Map<String, Value>,
    alloc: Global,
    key: &str,
    text: &str,
) -> Result<(), AllocError> {
    put(members, alloc, key, Value::try_from_str(alloc, text)?)
}
