//! Numbers of one width in a row, read at once.
ghost use Rattle.std.specs.Prelude.{◌≡◌, ◌<◌, ◌≤◌, ◌/◌, ◌%◌, length, vec_capacity, IfErr, IfOk, IfSome, MatchOption};
ghost use Rattle.tls_codec_wire.specs.Bounded.{BorrowAlike, limit_of};
ghost use Rattle.tls_codec_wire.specs.Transfer.{ReadRefused};
ghost use Rattle.tls_codec_wire.specs.declared.error.Error.TheVariants.{OutOfMemory};
ghost use Rattle.tls_codec_grammar.specs.Tree.{Number, trees};
ghost use Rattle.tls_codec_grammar.specs.Grammar.{Reading, content, number};
ghost use Rattle.tls_codec_grammar.specs.Format.{number_format};
ghost use Rattle.tls_codec_grammar.specs.Decoding.{AllGiven, AllRead};
ghost use Rattle.tls_codec_base.specs.PartNames.{NamedWithin};
ghost use Rattle.tls_codec_base.specs.Turns.{TurnedAll};
ghost use Rattle.tls_codec_base.specs.Runs.{GaveRun, ReadsRun};

use super::groups::HasDigits;
use crate::lists::Turns;
use std::alloc::Global;
use tls_codec_grammar::opaque::see_bytes;
use tls_codec_wire::gather::gather;
use tls_codec_wire::{Bounded, Error, Source};

/// The digits of all numbers of K bytes that a source may still give. `None` if whole numbers can't
/// fill that; then nothing is taken.
pub(crate) fn read_run<R: Source, const K: usize>(
    alloc: Global,
    within: &mut Bounded<R>,
    turns: &mut Turns,
) -> Result<Option<Vec<u8>>, Error>
    requires some { 0 < K }
    requires width { K ≤ 8 }
    ensures same { BorrowAlike within.old within.new }
    ensures run { ReadsRun K R.Source within.old within.new turns.old turns.new result }
{
    if let Some(digits) = run_at_hand::<R, K>(alloc, within)? {
        return Ok(Some(digits));
    }
    gather_run::<R, K>(alloc, within, turns)
}

// The same, if they are at hand. Otherwise `None`, and nothing is taken.
fn run_at_hand<R: Source, const K: usize>(
    alloc: Global,
    within: &mut Bounded<R>,
) -> Result<Option<Vec<u8>>, Error>
    requires { 0 < K }
    ensures same { BorrowAlike within.old within.new }
    ensures run { IfOk result
        (λ found. MatchOption found (within.new ≡ within.old)
        (λ digits. GaveRun K R.Source within.old within.new digits.items)) }
    ensures err { IfErr result (λ e. (e ≡ OutOfMemory) × (within.new ≡ within.old)) }
{
    let size = within.at_hand().len();
    if size == 0 || size % K != 0 || within.limit() != size as u64 {
        return Ok(None);
    }
    let mut digits = Vec::with_capacity(alloc, size)?;
    if !within.append_at_hand(&mut digits, size) {
        return Ok(None);
    }
    see_bytes(&digits);
    Ok(Some(digits))
}

// The same, as they come.
fn gather_run<R: Source, const K: usize>(
    alloc: Global,
    within: &mut Bounded<R>,
    turns: &mut Turns,
) -> Result<Option<Vec<u8>>, Error>
    requires some { 0 < K }
    requires width { K ≤ 8 }
    ensures same { BorrowAlike within.old within.new }
    ensures run { ReadsRun K R.Source within.old within.new turns.old turns.new result }
{
    let limit = within.limit();
    if limit == 0 || limit % K as u64 != 0 || limit > isize::MAX as u64 {
        return Ok(None);
    }
    let mut digits = Vec::new(alloc);
    let gathered = gather(within, &mut digits, limit as usize);
    see_bytes(&digits);
    match gathered {
        Ok(()) => Ok(Some(digits)),
        Err(error) => {
            turns.turn_by(digits.len() / K + 1);
            Err(error)
        }
    }
}

// The numbers of these digits. Room for just these is requested, at once.
//
// A width is at most that of `u64`, so that memory can hold an array of its digits.
fn numbers_of<T: HasDigits<K>, const K: usize>(
    alloc: Global,
    digits: &[u8],
) -> Result<Vec<T>, Error>
    requires some { 0 < K }
    requires width { K ≤ 8 }
    ensures ok { IfOk result
        (λ numbers. length digits.now % K ≡ 0
        → content (number K) Reading digits.now
        (trees (λ x. Number (T.number x)) numbers.items)) }
    ensures room { IfOk result (λ numbers. vec_capacity numbers ≡ length digits.now / K) }
    ensures err { IfErr result (λ e. e ≡ OutOfMemory) }
{
    let (groups, _) = digits.as_chunks::<K>();
    let mut numbers = Vec::with_capacity(alloc, groups.len())?;
    for group in groups {
        numbers.push_reserved(T::of_digits(group));
    }
    Ok(numbers)
}

/// The numbers that all of these bytes are the digits of; none if there are no bytes, or one is left over.
pub(crate) fn elements_of<T: HasDigits<K>, const K: usize>(
    alloc: Global,
    bytes: &[u8],
) -> Result<Option<Vec<T>>, Error>
    requires some { 0 < K }
    requires width { K ≤ 8 }
    ensures read { AllRead (number_format K) (λ x. Number (T.number x)) bytes.now result }
    ensures room { IfOk result
        (λ found. IfSome found (λ numbers. vec_capacity numbers ≡ length bytes.now / K)) }
{
    if bytes.is_empty() || bytes.len() % K != 0 {
        return Ok(None);
    }
    Ok(Some(numbers_of::<T, K>(alloc, bytes)?))
}

/// The numbers that a source may still give. `None` if they don't fill that; then nothing is taken.
pub(crate) fn read_elements<T: HasDigits<K>, R: Source, const K: usize>(
    alloc: Global,
    within: &mut Bounded<R>,
    turns: &mut Turns,
) -> Result<Option<Vec<T>>, Error>
    requires some { 0 < K }
    requires width { K ≤ 8 }
    ensures same { BorrowAlike within.old within.new }
    ensures reads { AllGiven (number_format K) (λ x. Number (T.number x)) R.Source within.old
        within.new result }
    ensures named { IfErr result
        (NamedWithin (number_format K) (ReadRefused K) R.Source within.old within.new) }
    ensures turned { TurnedAll (number K) R.Source within.old within.new turns.old turns.new
        result }
    ensures room { IfOk result
        (λ found. IfSome found (λ numbers. vec_capacity numbers ≡ limit_of within.old / K)) }
{
    let Some(digits) = read_run::<R, K>(alloc, within, turns)? else {
        return Ok(None);
    };
    let numbers = numbers_of::<T, K>(alloc, &digits)?;
    turns.turn_by(numbers.len());
    Ok(Some(numbers))
}
