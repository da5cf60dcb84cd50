//! Variable-length integers (varints; RFC 9000, section 16), in the least width (RFC 9420,
//! section 2.1.2).
//!
//! A number in more bytes than it needs is rejected: its encoding isn't canonical.
ghost use Rattle.std.specs.Prelude.{◌≡◌, ◌^◌, IfErr, IfOk, OnOk};
ghost use Rattle.tls_codec_wire.specs.Counts.{NoneFell, OnlyInterrupted};
ghost use Rattle.tls_codec_wire.specs.Device.{Gave};
ghost use Rattle.tls_codec_wire.specs.Seen.{RefusedFor};
ghost use Rattle.tls_codec_wire.specs.Numbers.{BeganNumber, BeginsNumber, GaveNumber, NumberNotRead, SentNumber};
ghost use Rattle.tls_codec_wire.specs.Transfer.{WriteRefused};
ghost use Rattle.tls_codec_wire.specs.Varint.{Varint, width_below};
ghost use Rattle.tls_codec_wire.specs.VarintCalls.{RefusesBelow};
ghost use Rattle.tls_codec_wire.specs.VarintValue.{number_of};
ghost use Rattle.tls_codec_wire.specs.declared.error.Error.TheVariants.{EndOfStream};

use crate::device::{Sink, Source};
use crate::error::Error;
use crate::varint::TlsVarInt;
use crate::varint_bits::{read_below, split_below, width_below, write_below};

// The numbers from this one on are no integers.
const LIMIT: u64 = 0x4000_0000_0000_0000;

/// Reads a number.
///
/// `EndOfStream`: fewer bytes come than the first one asks for, or none. `InvalidVectorLength`: the
/// number has more bytes than it needs. `DecodingError("read failed")` and `OutOfMemory` are the
/// source's, as in [`read_exactly`](crate::read_exactly).
///
/// ```rust
/// let mut src = [0x40u8, 0x40].as_slice();
/// assert_eq!(rt; read_varint(&mut src), TlsVarInt::try_from(64));
/// ```
pub fn read_varint<R: Source>(src: &mut R) -> Result<TlsVarInt, Error>
    ensures gave { Gave R.given src.old src.new }
    ensures ok { IfOk result (λ n. GaveNumber R.given Varint src.old src.new (number_of n)) }
    ensures refused { IfErr result
        (RefusedFor R.Source (NumberNotRead (RefusesBelow (2 ^ 62))) src.old src.new) }
    ensures retried { OnOk result (OnlyInterrupted (R.counts src.old) (R.counts src.new)) }
    ensures ended { result ≡ Err EndOfStream
        → OnlyInterrupted (R.counts src.old) (R.counts src.new) }
{
    let number = read_below::<R, LIMIT>(src)?;
    Ok(TlsVarInt::new(number))
}

/// The number that the bytes begin with, and the rest of them.
///
/// `EndOfStream`: there are fewer bytes than the first one asks for, or none. `InvalidVectorLength`:
/// the number has more bytes than it needs.
pub fn split_varint(bytes: &[u8]) -> Result<(TlsVarInt, &[u8]), Error>
    ensures ok { IfOk result
        (λ found. BeginsNumber Varint bytes.now (number_of found.0) found.1.now) }
    ensures err { IfErr result (RefusesBelow (2 ^ 62) bytes.now) }
{
    let (number, rest) = split_below::<LIMIT>(bytes)?;
    Ok((TlsVarInt::new(number), rest))
}

/// Sends a number, and returns how many bytes that is.
///
/// Every error is the sink's, as in [`write_all`](crate::write_all).
pub fn write_varint<W: Sink>(sink: &mut W, n: TlsVarInt) -> Result<usize, Error>
    ensures ok { IfOk result
        (SentNumber Varint (W.received sink.old) (W.received sink.new) (number_of n)) }
    ensures beginning { BeganNumber Varint (W.received sink.old) (W.received sink.new)
        (number_of n) }
    ensures counts { NoneFell (W.counts sink.old) (W.counts sink.new) }
    ensures refused { IfErr result (WriteRefused (W.counts sink.old) (W.counts sink.new)) }
    ensures retried { OnOk result (OnlyInterrupted (W.counts sink.old) (W.counts sink.new)) }
{
    let width = write_below::<W, LIMIT>(sink, n.value())?;
    Ok(width)
}

/// How many bytes a number has. It is 0 above [`TlsVarInt::MAX`], since there is no encoding.
pub fn varint_width(n: u64) -> usize
    ensures { result ≡ width_below (2 ^ 62) n }
{
    width_below::<LIMIT>(n)
}
