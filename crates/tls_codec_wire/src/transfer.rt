//! Moving a piece whole.
ghost use Rattle.std.specs.Prelude.{◌≡◌, ◌+◌, ◌<◌, [], length, IfErr, IfOk, OnOk};
ghost use Rattle.std.specs.Io.KnownBytes.{Appends};
ghost use Rattle.tls_codec_wire.specs.Counts.{NoneFell, OnlyInterrupted};
ghost use Rattle.tls_codec_wire.specs.Device.{Gave, Received};
ghost use Rattle.tls_codec_wire.specs.Digits.{AreBytes};
ghost use Rattle.tls_codec_wire.specs.Seen.{RefusedFor, Seen};
ghost use Rattle.tls_codec_wire.specs.Transfer.{EndRefused, ErrorOfFault, ReadRefused, TriedWithin, WriteRefused};
ghost use Rattle.tls_codec_wire.specs.declared.error.Error.TheVariants.{EndOfStream};
ghost use Rattle.tls_codec_wire.specs.declared.device.Fault.TheVariants.{Interrupted};

use crate::device::{Fault, Fill, Sink, Source};
use crate::error::Error;

/// How many interruptions in a row are tried again. A call that is interrupted once more fails.
pub const MAX_INTERRUPTIONS: u8 = 16;

/// Fills the buffer with the next bytes.
///
/// If the source has them at hand, they are taken in one step. If it knows that there are fewer,
/// none is taken. Else a call that is interrupted is tried again, up to [`MAX_INTERRUPTIONS`]
/// times in a row; a call that moves a byte starts the row anew. `EndOfStream`: fewer bytes came
/// than the buffer has room for. `DecodingError("read failed")`: the source failed, or was
/// interrupted more often in a row. `OutOfMemory`: the source had none. After an error nothing is
/// said of the buffer's content. An empty buffer makes no call.
///
/// ```rust
/// let mut src = [1u8, 2, 3].as_slice();
/// let mut into = [0u8; 2];
/// read_exactly(&mut src, &mut into)?;
/// assert_eq!(rt; into, [1, 2]);
/// assert_eq!(rt; src, [3].as_slice());
/// ```
#[inline(always)]
pub fn read_exactly<R: Source>(src: &mut R, into: &mut [u8]) -> Result<(), Error>
    ensures gave { Gave R.given src.old src.new }
    ensures filled { OnOk result (R.given src.old into.new src.new) }
    ensures bytes { OnOk result (AreBytes into.new) }
    ensures refused { IfErr result
        (RefusedFor R.Source (ReadRefused (length into.old)) src.old src.new) }
    ensures retried { OnOk result (OnlyInterrupted (R.counts src.old) (R.counts src.new)) }
    ensures ended { result ≡ Err EndOfStream
        → OnlyInterrupted (R.counts src.old) (R.counts src.new) }
    ensures tried { TriedWithin (length into.old) (R.counts src.old) (R.counts src.new) result }
    ensures nothing_asked { length into.old ≡ 0 → (result ≡ Ok tt) × (src.new ≡ src.old) }
{
    if into.is_empty() {
        return Ok(());
    }
    match src.fill_at_hand(into) {
        Fill::Full => Ok(()),
        Fill::TooFew => Err(Error::EndOfStream),
        Fill::Unknown => read_as_it_comes(src, into),
    }
}

// Fills the buffer call by call.
fn read_as_it_comes<R: Source>(src: &mut R, into: &mut [u8]) -> Result<(), Error>
    ensures gave { Gave R.given src.old src.new }
    ensures filled { OnOk result (R.given src.old into.new src.new) }
    ensures bytes { OnOk result (AreBytes into.new) }
    ensures refused { IfErr result
        (RefusedFor R.Source (ReadRefused (length into.old)) src.old src.new) }
    ensures retried { OnOk result (OnlyInterrupted (R.counts src.old) (R.counts src.new)) }
    ensures ended { result ≡ Err EndOfStream
        → OnlyInterrupted (R.counts src.old) (R.counts src.new) }
    ensures tried { TriedWithin (length into.old) (R.counts src.old) (R.counts src.new) result }
    ensures nothing_asked { length into.old ≡ 0 → (result ≡ Ok tt) × (src.new ≡ src.old) }
{
    let mut at = 0;
    let mut retries = 0;
    while at < into.len() {
        match src.pull(&mut into[at..]) {
            Ok(0) => return Err(Error::EndOfStream),
            Ok(n) => {
                at += n;
                retries = 0;
            }
            Err(fault) => retries = after_fault(
                fault,
                retries,
                Error::DecodingError("read failed"),
            )?,
        }
    }
    Ok(())
}

/// Returns `Ok` if no byte is to come.
///
/// `TrailingData`: a byte came, and it was taken. `DecodingError("read failed")` and `OutOfMemory` are as in
/// [`read_exactly`].
///
/// ```rust
/// let mut src = [1u8].as_slice();
/// assert_eq!(rt; expect_end(&mut src), Err(Error::TrailingData));
/// assert_eq!(rt; expect_end(&mut src), Ok(()));
/// ```
pub fn expect_end<R: Source>(src: &mut R) -> Result<(), Error>
    ensures ok { OnOk result (Seen R.Source src.old src.new []) }
    ensures gave { OnOk result (R.given src.old [] src.new) }
    ensures retried { OnOk result (OnlyInterrupted (R.counts src.old) (R.counts src.new)) }
    ensures refused { IfErr result (RefusedFor R.Source EndRefused src.old src.new) }
{
    let mut byte = [0u8; 1];
    match read_exactly(src, &mut byte) {
        Ok(()) => Err(Error::TrailingData),
        Err(Error::EndOfStream) => Ok(()),
        Err(error) => Err(error),
    }
}

/// Sends all of a piece.
///
/// A call that is interrupted is tried again, up to [`MAX_INTERRUPTIONS`] times in a row; a call
/// that moves a byte starts the row anew. `EncodingError("write failed")`: the sink failed, took no
/// byte, or was interrupted more often in a row. `OutOfMemory`: the sink had none. After an error
/// the sink has received a prefix of the piece. An empty piece makes no call.
///
/// ```rust
/// let mut out = Vec::new(alloc);
/// write_all(&mut out, &[1, 2, 3])?;
/// assert_eq!(rt; out.as_slice(), [1, 2, 3].as_slice());
/// ```
pub fn write_all<W: Sink>(sink: &mut W, bytes: &[u8]) -> Result<(), Error>
    ensures whole { OnOk result (Appends (W.received sink.old) (W.received sink.new) bytes.now) }
    ensures beginning { Received (W.received sink.old) (W.received sink.new) bytes.now }
    ensures counts { NoneFell (W.counts sink.old) (W.counts sink.new) }
    ensures refused { IfErr result (WriteRefused (W.counts sink.old) (W.counts sink.new)) }
    ensures retried { OnOk result (OnlyInterrupted (W.counts sink.old) (W.counts sink.new)) }
    ensures tried { TriedWithin (length bytes.now) (W.counts sink.old) (W.counts sink.new) result }
    ensures nothing_sent { length bytes.now ≡ 0 → (result ≡ Ok tt) × (sink.new ≡ sink.old) }
{
    let mut at = 0;
    let mut retries = 0;
    while at < bytes.len() {
        match sink.give(&bytes[at..]) {
            Ok(0) => return Err(Error::EncodingError("write failed")),
            Ok(n) => {
                at += n;
                retries = 0;
            }
            Err(fault) => retries = after_fault(
                fault,
                retries,
                Error::EncodingError("write failed"),
            )?,
        }
    }
    Ok(())
}

/// How many interruptions in a row there are after a fault that is tried again. Else the error that it is:
/// `failed`, unless it ran out of memory.
#[inline(always)]
pub(crate) fn after_fault(fault: Fault, retries: u8, failed: Error) -> Result<u8, Error>
    ensures ok { IfOk result
        (λ next. (fault ≡ Interrupted) × (retries < 16) × (next ≡ retries + 1)) }
    ensures err { IfErr result (ErrorOfFault fault retries failed) }
{
    match fault {
        Fault::Interrupted if retries < MAX_INTERRUPTIONS => Ok(retries + 1),
        Fault::NoMemory => Err(Error::OutOfMemory),
        _ => Err(failed),
    }
}
