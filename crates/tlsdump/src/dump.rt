//! The messages that bytes are, one after another.
ghost use Rattle.std.specs.Prelude.{◌≡◌, ◌<◌, ◌++◌, ℕ, List, length};
ghost use Rattle.std.specs.Prelude.{IfOk, IsTrue, false, ⊤};
ghost use Rattle.tlsdump.specs.Dumps.{IsDump, IsNoLess, IsRejected, Tells};
ghost use Rattle.tlsdump.specs.Kinds.{FirstNamed};
ghost use Rattle.tlsdump.specs.Protocols.{kinds_of};

use crate::kinds::Kind;
use crate::walk::definitions::Definitions;
use crate::walk::{Walked, lines_of};
use std::alloc::{AllocError, Global};
use tls_codec::Error;
use tls_codec_validate::Rejected;

/// What the bytes are.
#[derive(Drop)]
pub struct Dump<'a> {
    /// The lines of each message.
    pub messages: Vec<Walked<'a>>,
    /// Why the bytes after them begin with no message.
    pub rejection: Option<Rejection<'a>>,
}

/// Bytes that begin with no message.
#[derive(Drop)]
pub struct Rejection<'a> {
    /// The lines up to the rejected field.
    pub walked: Walked<'a>,
    /// The position of the rejected field.
    pub at: usize,
    pub error: Error,
}

// What bytes begin with.
#[derive(Drop)]
enum Part<'a> {
    // A message, and the bytes after it.
    Message(Walked<'a>, &'a [u8]),
    NoMessage(Rejection<'a>),
}

/// The messages of one kind that the bytes are, one after another: at least one, or those before a
/// rejected field.
pub fn dump_of<'a>(
    alloc: Global,
    definitions: &'a Definitions,
    kind: Kind<'a>,
    bytes: &'a [u8],
) -> Result<Dump<'a>, AllocError>
    ensures { IfOk result (λ dump. FirstNamed (kinds_of kind.entry.protocol) kind.entry.name.now
        (λ k. IsDump k.format bytes.now dump) ⊤) }
{
    let mut messages = Vec::new(alloc);
    let mut rest = bytes;
    'messages: loop {
        match part_of(alloc, definitions, kind, rest)? {
            Part::NoMessage(rejection) => {
                return Ok(Dump {
                    messages,
                    rejection: Some(rejection),
                });
            }
            Part::Message(walked, behind) => {
                messages.push(walked)?;
                if is_end(rest, behind) {
                    return Ok(Dump {
                        messages,
                        rejection: None,
                    });
                }
                rest = behind;
            }
        }
    }
}

// Whether no message comes after this one: no bytes are left, or as many as before. Those would be
// shown forever.
fn is_end(rest: &[u8], behind: &[u8]) -> bool
    ensures ends { IsTrue result → IsNoLess rest.now behind.now }
    ensures goes_on { result ≡ false → length behind.now < length rest.now }
{
    behind.is_empty() || behind.len() >= rest.len()
}

// The message that bytes begin with. If they begin with none, the lines go up to the field that the
// validator of the type rejects.
fn part_of<'a>(
    alloc: Global,
    definitions: &'a Definitions,
    kind: Kind<'a>,
    bytes: &'a [u8],
) -> Result<Part<'a>, AllocError>
    ensures { IfOk result (λ part. FirstNamed (kinds_of kind.entry.protocol) kind.entry.name.now
        (λ k. Tells k.format bytes.now part) ⊤) }
{
    match kind.protocol.check(kind.name, bytes) {
        Some(Ok(rest)) => {
            let message = before(bytes, rest);
            let walked = lines_of(alloc, definitions, kind.name, message, None)?;
            Ok(Part::Message(walked, rest))
        }
        Some(Err(rejected)) => {
            let rejection = rejection_of(alloc, definitions, kind, bytes, rejected)?;
            Ok(Part::NoMessage(rejection))
        }
        None => {
            let walked = lines_of(alloc, definitions, kind.name, bytes, None)?;
            Ok(Part::Message(walked, &[]))
        }
    }
}

// What is in front of the rest.
fn before<'a>(bytes: &'a [u8], rest: &[u8]) -> &'a [u8]
    ensures { (front : List ℕ) → bytes.now ≡ front ++ rest.now → result.now ≡ front }
{
    let length = bytes.len().saturating_sub(rest.len());
    match bytes.split_at_checked(length) {
        Some((front, _)) => front,
        None => bytes,
    }
}

// The lines up to a rejected field.
fn rejection_of<'a>(
    alloc: Global,
    definitions: &'a Definitions,
    kind: Kind<'a>,
    bytes: &'a [u8],
    rejected: Rejected<'a>,
) -> Result<Rejection<'a>, AllocError>
    ensures { IfOk result (IsRejected bytes.now rejected.entry.error) }
{
    let at = rejected.at(bytes);
    let walked = lines_of(alloc, definitions, kind.name, bytes, Some(at))?;
    Ok(Rejection {
        walked,
        at,
        error: rejected.error,
    })
}
