//! The program, from its words to its status.
ghost use Rattle.std.specs.Prelude.{◌≡◌, map, Ok, Err, MatchOption, MatchResult, string_bytes};
ghost use Rattle.std.specs.Vec.Iter.{into_iter_items};
ghost use Rattle.tlsview_run.specs.Endings.{Answers, argument_in, argument_of, line_of, status_of, TellsLine};

use crate::fault::ViewFault;
use crate::run::run;
use std::alloc::Global;
use std::env::Args;
use std::io;
use std::io::ErrorKind;
use tls_codec::{Sink, Source, write_all};

/// Runs the kind that the words name, sends the line of a fault, and returns the exit status.
///
/// The words are the program's name and its arguments, or why std gives none. Then the fault is
/// `Memory` if memory ran out, and else `Kind`: one of the words, the name among them, isn't UTF-8.
/// If the sink refuses a line, it is not sent again, and the status stays.
pub fn answer<R: Source, W: Sink>(
    alloc: Global,
    words: io::Result<Args>,
    input: &mut R,
    out: &mut W,
) -> u8
    ensures { Answers R.Source W.Sink input.old input.new out.old out.new (argument_of words)
        result }
{
    match argument(words) {
        Ok(kind) => {
            let outcome = run(alloc, kind.as_str(), input, out);
            end(outcome, out)
        }
        Err(fault) => end(Err(fault), out),
    }
}

// The argument in the words of the process.
fn argument(words: io::Result<Args>) -> Result<String, ViewFault>
    ensures { MatchResult result
        (λ kind. argument_of words ≡ Ok (string_bytes kind))
        (λ fault. argument_of words ≡ Err fault) }
{
    match words {
        Ok(words) => match only_argument(words) {
            Some(kind) => Ok(kind),
            None => Err(ViewFault::Kind),
        },
        Err(error) => match error.kind() {
            ErrorKind::OutOfMemory => Err(ViewFault::Memory),
            _ => Err(ViewFault::Kind),
        },
    }
}

// The word after the program's name, if it is the only one.
fn only_argument(mut words: Args) -> Option<String>
    ensures { MatchOption result
        (argument_in (map string_bytes (into_iter_items words)) ≡ Err ViewFault.Kind)
        (λ kind. argument_in (map string_bytes (into_iter_items words)) ≡ Ok (string_bytes kind)) }
{
    let _program = words.next()?;
    let kind = words.next()?;
    match words.next() {
        None => Some(kind),
        Some(_) => None,
    }
}

// Sends the line of a run that fails, and returns the exit status.
fn end<W: Sink>(outcome: Result<bool, ViewFault>, out: &mut W) -> u8
    ensures told { TellsLine W.Sink out.old out.new (line_of outcome) }
    ensures status { result ≡ status_of outcome }
{
    match outcome {
        Ok(true) => 0,
        Ok(false) => 1,
        Err(fault) => {
            let _ = write_all(out, fault.line().as_bytes());
            2
        }
    }
}
