//! Digits: whole numbers in k bytes, the most significant first (RFC 8446, section 3.3).
//!
//! The calls here know only the width. Every number, length and array goes through them.
ghost use Rattle.std.specs.Prelude.{◌≡◌, ◌<◌, length, IfErr, IfOk, OnOk};
ghost use Rattle.tls_codec_wire.specs.Counts.{OnlyInterrupted};
ghost use Rattle.tls_codec_wire.specs.Digits.{AreBytes, value};
ghost use Rattle.tls_codec_wire.specs.Transfer.{ReadRefused};
ghost use Rattle.tls_codec_wire.specs.declared.error.Error.TheVariants.{EndOfStream, OutOfMemory};
ghost use Rattle.tls_codec_grammar.specs.Tree.{Number};
ghost use Rattle.tls_codec_grammar.specs.Format.{number_format};
ghost use Rattle.tls_codec_grammar.specs.Grammar.{number};
ghost use Rattle.tls_codec_grammar.specs.Shortest.{IsShortest};
ghost use Rattle.tls_codec_grammar.specs.Decoding.{Named, Reads, Splits};
ghost use Rattle.tls_codec_grammar.specs.Encoding.{AppendsForm, Writes};

use std::alloc::Global;
use tls_codec_wire::{Error, Sink, Source, read_exactly, write_all};

/// The digits that the bytes begin with, and the rest of them.
///
/// `EndOfStream`: there are fewer bytes.
#[inline(always)]
pub fn split_digits<const K: usize>(bytes: &[u8]) -> Result<([u8; K], &[u8]), Error>
    ensures splits { Splits (number_format K) (λ digits. Number (value digits)) bytes.now result }
    ensures width { IfOk result (λ found. length found.0 ≡ K) }
    ensures bytes { IfOk result (λ found. AreBytes found.0) }
    ensures named { IfErr result (λ e. (e ≡ EndOfStream) × (length bytes.now < K)) }
{
    let Some((digits, rest)) = bytes.split_first_chunk::<K>() else {
        return Err(Error::EndOfStream);
    };
    Ok((*digits, rest))
}

/// The next digits to come. Only these are taken.
///
/// `EndOfStream`: fewer bytes come. `DecodingError("read failed")` and `OutOfMemory` are the source's, as
/// in [`read_exactly`].
#[inline(always)]
pub fn read_digits<R: Source, const K: usize>(bytes: &mut R) -> Result<[u8; K], Error>
    ensures reads { Reads (number_format K) (λ digits. Number (value digits)) R.Source bytes.old
        bytes.new result }
    ensures width { IfOk result (λ digits. length digits ≡ K) }
    ensures bytes { IfOk result AreBytes }
    ensures named { IfErr result
        (Named (number_format K) (ReadRefused K) R.Source bytes.old bytes.new) }
    ensures retried { OnOk result (OnlyInterrupted (R.counts bytes.old) (R.counts bytes.new)) }
{
    let mut digits = [0u8; K];
    read_exactly(bytes, &mut digits)?;
    Ok(digits)
}

/// Sends digits, and returns how many they are. Every error is the sink's, as in [`write_all`].
pub fn write_digits<W: Sink>(writer: &mut W, digits: &[u8]) -> Result<usize, Error>
    ensures writes { Writes (number_format (length digits.now)) (Number (value digits.now)) W.Sink
        writer.old writer.new result }
    ensures bytes { AreBytes digits.now }
{
    write_all(writer, digits)?;
    Ok(digits.len())
}

/// Digits as a vector. `OutOfMemory`: there was no memory for it.
pub fn digits_vector(alloc: Global, digits: &[u8]) -> Result<Vec<u8>, Error>
    ensures ok { IfOk result
        (λ bytes. IsShortest (number (length digits.now)) bytes.items (Number (value digits.now))) }
    ensures err { IfErr result (λ e. e ≡ OutOfMemory) }
    ensures bytes { AreBytes digits.now }
{
    let mut bytes = Vec::new(alloc);
    bytes.extend_from_slice(digits)?;
    Ok(bytes)
}

/// Appends digits, and returns how many they are.
///
/// `OutOfMemory`: there was no memory for them, and the bytes are as they were.
#[inline(always)]
pub fn append_digits(out: &mut Vec<u8>, digits: &[u8]) -> Result<usize, Error>
    ensures appends { AppendsForm (number_format (length digits.now)) (Number (value digits.now))
        out.old.items out.new.items result }
    ensures bytes { AreBytes digits.now }
{
    out.extend_from_slice(digits)?;
    Ok(digits.len())
}
