//! Bytes of a source, gathered in a vector as they come.
ghost use Rattle.std.specs.Prelude.{◌≡◌, ◌+◌, ◌<◌, ◌≤◌, ◌^◌, ◌↔◌, length, max, IsTrue, IfErr, IfOk, OnOk, MatchOption};
ghost use Rattle.std.specs.Io.KnownBytes.{IsAtEnd};
ghost use Rattle.tls_codec_wire.specs.Counts.{OnlyInterrupted};
ghost use Rattle.tls_codec_wire.specs.Device.{Came, Gave};
ghost use Rattle.tls_codec_wire.specs.Seen.{RefusedFor};
ghost use Rattle.tls_codec_wire.specs.Transfer.{BytesRefused, TriedWithin};
ghost use Rattle.tls_codec_wire.specs.declared.error.Error.TheVariants.{EndOfStream, InvalidVectorLength, OutOfMemory};

use crate::device::Source;
use crate::error::Error;
use crate::transfer::after_fault;
use std::alloc::Global;

// How many bytes a vector has room for before one came.
const FIRST_ROOM: usize = 4096;

/// A vector of the next `len` bytes.
///
/// Room for bytes at hand is requested once. Else it is requested as they come: for 4,096 at first,
/// and then for as many as came or are at hand. So a length without its bytes costs 4,096 bytes at most.
/// `InvalidVectorLength`: `len` is above `isize::MAX`, and nothing was taken. `OutOfMemory`: the
/// source or the vector had none. Every other error, and interruptions, are as in
/// [`read_exactly`](crate::read_exactly).
///
/// ```rust
/// let mut src = [1u8, 2, 3].as_slice();
/// let bytes = read_bytes_bounded(alloc, &mut src, 2)?;
/// assert_eq!(rt; bytes.as_slice(), [1, 2].as_slice());
/// ```
#[inline(always)]
pub fn read_bytes_bounded<R: Source>(
    alloc: Global,
    src: &mut R,
    len: usize,
) -> Result<Vec<u8>, Error>
    ensures gave { Gave R.given src.old src.new }
    ensures ok { IfOk result (λ bytes. R.given src.old bytes.items src.new) }
    ensures count { IfOk result (λ bytes. length bytes.items ≡ len) }
    ensures refused { IfErr result (RefusedFor R.Source (BytesRefused len) src.old src.new) }
    ensures too_long { 2 ^ 63 ≤ len → (result ≡ Err InvalidVectorLength) × (src.new ≡ src.old) }
    ensures retried { OnOk result (OnlyInterrupted (R.counts src.old) (R.counts src.new)) }
    ensures ended { result ≡ Err EndOfStream
        → OnlyInterrupted (R.counts src.old) (R.counts src.new) }
    ensures tried { TriedWithin len (R.counts src.old) (R.counts src.new) result }
    ensures nothing_asked { len ≡ 0 → IfErr result (λ e. ⊥) × (src.new ≡ src.old) }
{
    if len > isize::MAX as usize {
        return Err(Error::InvalidVectorLength);
    }
    if len == 0 {
        return Ok(Vec::new(alloc));
    }
    if let Some(bytes) = take_at_hand(alloc, src, len)? {
        return Ok(bytes);
    }
    let mut bytes = Vec::new(alloc);
    gather(src, &mut bytes, len)?;
    Ok(bytes)
}

// The next `len` bytes, if they are at hand. Otherwise `None`, and nothing is taken.
#[inline(always)]
fn take_at_hand<R: Source>(alloc: Global, src: &mut R, len: usize) -> Result<Option<Vec<u8>>, Error>
    ensures taken { IfOk result
        (λ taken. MatchOption taken (src.new ≡ src.old)
        (λ bytes. R.given src.old bytes.items src.new × (length bytes.items ≡ len))) }
    ensures err { IfErr result (λ e. (e ≡ OutOfMemory) × (src.new ≡ src.old)) }
    ensures retried { R.counts src.new ≡ R.counts src.old }
{
    if !are_at_hand(len, src.at_hand()) {
        return Ok(None);
    }
    let mut bytes = Vec::with_capacity(alloc, len)?;
    if src.append_at_hand(&mut bytes, len) {
        return Ok(Some(bytes));
    }
    Ok(None)
}

// Whether `len` bytes are at hand, so that room for all of them may be requested at once.
fn are_at_hand(len: usize, at_hand: &[u8]) -> bool
    ensures { IsTrue result ↔ (len ≤ length at_hand.now) }
{
    len <= at_hand.len()
}

/// Appends the next `len` bytes to a vector, as they come.
///
/// After an error the vector has all bytes that came. `EndOfStream`: these were all bytes to come.
/// Every other error, the room that is requested, and interruptions are as in
/// [`read_bytes_bounded`].
///
/// ```rust
/// let mut src = [1u8, 2, 3].as_slice();
/// let mut bytes = Vec::new(alloc);
/// gather(&mut src, &mut bytes, 2)?;
/// assert_eq!(rt; bytes.as_slice(), [1, 2].as_slice());
/// ```
// It is kept out of what reads bytes at hand.
#[inline(never)]
pub fn gather<R: Source>(src: &mut R, bytes: &mut Vec<u8>, len: usize) -> Result<(), Error>
    ensures came { Came R.given src.old src.new bytes.old.items bytes.new.items }
    ensures count { IfOk result (λ _. length bytes.new.items ≡ length bytes.old.items + len) }
    ensures refused { IfErr result (RefusedFor R.Source (BytesRefused len) src.old src.new) }
    ensures ended { result ≡ Err EndOfStream → IsAtEnd (R.coming src.new) }
    ensures retried { OnOk result (OnlyInterrupted (R.counts src.old) (R.counts src.new)) }
    ensures ended_retried { result ≡ Err EndOfStream
        → OnlyInterrupted (R.counts src.old) (R.counts src.new) }
    ensures tried { TriedWithin len (R.counts src.old) (R.counts src.new) result }
{
    let mut came = 0;
    let mut retries = 0;
    while came < len {
        let step = (len - came).min(next_chunk_len(came, src.at_hand()));
        bytes.reserve_exact(step)?;
        match src.pull_onto(bytes, step) {
            Ok(0) => return Err(Error::EndOfStream),
            Ok(n) => {
                came += n;
                retries = 0;
            }
            Err(fault) => retries = after_fault(
                fault,
                retries,
                Error::DecodingError("read failed"),
            )?,
        }
    }
    Ok(())
}

// How much room is requested if `came` bytes came and others are at hand: little before any came, and
// then for what is at hand, or as much as came.
fn next_chunk_len(came: usize, at_hand: &[u8]) -> usize
    ensures some { 0 < result }
    ensures first { came ≡ 0 → result ≤ 4096 }
    ensures most { result ≤ max 4096 (max came (length at_hand.now)) }
{
    if came == 0 {
        return FIRST_ROOM;
    }
    came.max(at_hand.len())
}
