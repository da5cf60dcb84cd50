//! Reading the input, and the bytes that its text stands for.
ghost use Rattle.std.specs.Prelude.{◌≡◌, ◌<◌, ◌≤◌, [], length, take, IfOk, IfErr, OnOk, OnErr};
ghost use Rattle.std.specs.Io.KnownBytes.{IsAtEnd};
ghost use Rattle.hex.specs.Hex.{encode_lower};
ghost use Rattle.tls_codec.specs.Devices.{Gave, OnlyInterrupted};
ghost use Rattle.view_input.specs.Input.{GaveAll, StandsFor, WhyNoBytes, WhyNoPiece, WhyNoText, digits_in, lower_digits_in};

use crate::fault::InputFault;
use hex::FromHexError;
use std::alloc::{AllocError, Global};
use tls_codec::{Fault, MAX_INTERRUPTIONS, Source};

// The greatest number of bytes that an input may have.
const LONGEST: usize = 1_048_576;

// The most bytes that are requested in one call.
const PIECE: usize = 4096;

/// Reads the input to its end. Of an input that is too long it takes one byte more than an input
/// may have.
pub fn read_text<R: Source>(alloc: Global, input: &mut R) -> Result<Vec<u8>, InputFault>
    ensures gave { Gave R.given input.old input.new }
    ensures ok { IfOk result (λ text. GaveAll R.Source input.old input.new text.items) }
    ensures err { IfErr result (WhyNoText R.Source input.old input.new) }
{
    let mut text = Vec::new(alloc);
    let mut piece = [0u8; PIECE];
    while text.len() <= LONGEST {
        let room = PIECE.min(LONGEST + 1 - text.len());
        let count = next_piece(input, &mut piece[..room])?;
        if count == 0 {
            return Ok(text);
        }
        text.extend_from_slice(&piece[..count])?;
    }
    Err(InputFault::Long)
}

// Pulls once, and again after an interruption, up to 16 times in a row.
fn next_piece<R: Source>(input: &mut R, into: &mut [u8]) -> Result<usize, InputFault>
    ensures bound { IfOk result (λ count. count ≤ length into.new) }
    ensures gave { IfOk result (λ count. R.given input.old (take count into.new) input.new) }
    ensures retried { OnOk result (OnlyInterrupted (R.counts input.old) (R.counts input.new)) }
    ensures kept { OnErr result (R.given input.old [] input.new) }
    ensures end { result ≡ Ok 0 → 0 < length into.old → IsAtEnd (R.coming input.new) }
    ensures err { IfErr result (WhyNoPiece (R.counts input.old) (R.counts input.new)) }
{
    for _row in 0..=MAX_INTERRUPTIONS {
        match input.pull(into) {
            Ok(count) => return Ok(count),
            Err(Fault::Interrupted) => {}
            Err(Fault::NoMemory) => return Err(InputFault::Memory),
            Err(Fault::Failed) => return Err(InputFault::Read),
        }
    }
    Err(InputFault::Read)
}

/// The bytes that a text stands for.
pub fn decode(alloc: Global, text: &[u8]) -> Result<Vec<u8>, InputFault>
    ensures ok { IfOk result (λ bytes. StandsFor text.now bytes.items) }
    ensures hex { IfOk result (λ bytes. encode_lower bytes.items ≡ lower_digits_in text.now) }
    ensures err { IfErr result (WhyNoBytes text.now) }
{
    let digits = without_blanks(alloc, text)?;
    match hex::decode(alloc, &digits) {
        Ok(bytes) => Ok(bytes),
        Err(FromHexError::OutOfMemory) => Err(InputFault::Memory),
        Err(_) => Err(InputFault::Hex),
    }
}

// The text without its tabs, line feeds, carriage returns and spaces.
//
// It is copied whole first, by one request for memory: a `collect` goes on if a request is refused.
fn without_blanks(alloc: Global, text: &[u8]) -> Result<Vec<u8>, AllocError>
    ensures { IfOk result (λ digits. digits.items ≡ digits_in text.now) }
{
    let mut digits = Vec::from_slice(alloc, text)?;
    digits.retain(|byte| !matches!(byte, b'\t' | b'\n' | b'\r' | b' '));
    Ok(digits)
}
