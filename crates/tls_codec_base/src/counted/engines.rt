//! Elements after a length field, whatever the field, however they are coded.
ghost use Rattle.std.specs.Prelude.{◌≡◌, ◌≤◌, ◌⊎◌, ◌^◌, length, take, IfErr, IfOk, IsErrAnd};
ghost use Rattle.tls_codec_wire.specs.declared.error.Error.TheVariants.{InvalidVectorLength, OutOfMemory};
ghost use Rattle.tls_codec_grammar.specs.Tree.{trees};
ghost use Rattle.tls_codec_grammar.specs.Announced.{content_sum};
ghost use Rattle.tls_codec_grammar.specs.Gaps.{IsSafeGap};
ghost use Rattle.tls_codec_grammar.specs.Format.{counted_list_format};
ghost use Rattle.tls_codec_grammar.specs.Decoding.{Named, Reads, Splits};
ghost use Rattle.tls_codec_grammar.specs.Encoding.{AppendRefused, Appended, AppendsForm, Writes};
ghost use Rattle.tls_codec_base.specs.PartNames.{counted_list_names, counted_list_source_names};

use crate::lists::engines::coding::{ElementCoding, ElementReader, ElementSplitter, ElementWriter};
use crate::lists::{Turns, engines};
use std::alloc::Global;
use tls_codec_grammar::length_field::{LengthField, fill_gap, open_gap, write_length};
use tls_codec_wire::{Error, Sink, Source};

// How many bytes an element likely has, if elements have no one width.
const LIKELY_LENGTH: usize = 64;

// For how many bytes of elements room is requested at once, if they have no one width: those of no bytes
// need none.
const MAX_ROOM: usize = 1 << 16;

// A gap for a length is left only after this many bytes or fewer.
const MAX_BEFORE_GAP: usize = 1 << 61;

/// What [`announced_len`](crate::counted::announced_len) does.
pub(crate) fn announced_len<F: LengthField, T, K: ElementCoding<T>>(
    coding: &K,
    elements: &[T],
) -> usize
    ensures { result
        ≡ (counted_list_format F.field (K.format coding.now)).announced
        (trees K.plain elements.now) }
{
    match engines::content_len(coding, elements) {
        Ok(length) => F::width(length).saturating_add(length),
        Err(_) => usize::MAX,
    }
}

/// What [`write`](crate::counted::write) does.
pub(crate) fn write<F: LengthField, T, K: ElementWriter<T>, W: Sink>(
    coding: &K,
    writer: &mut W,
    elements: &[T],
) -> Result<usize, Error>
    ensures writes { Writes (counted_list_format F.field (K.format coding.now))
        (trees K.plain elements.now)
        W.Sink writer.old writer.new result }
    ensures out_of_bounds { (counted_list_format F.field (K.format coding.now)).out_of_bounds
        (trees K.plain elements.now)
        → (result ≡ Err InvalidVectorLength) × (writer.new ≡ writer.old) }
{
    let length = engines::content_len(coding, elements)?;
    let width = write_length::<F, W>(writer, length)?;
    let sent = engines::write(coding, writer, elements)?;
    Ok(sent.saturating_add(width))
}

/// What [`append`](crate::counted::append) does.
pub(crate) fn append<F: LengthField, T, K: ElementWriter<T>>(
    coding: &K,
    out: &mut Vec<u8>,
    elements: &[T],
) -> Result<usize, Error>
    ensures appends { AppendsForm (counted_list_format F.field (K.format coding.now))
        (trees K.plain elements.now) out.old.items out.new.items result }
    ensures out_of_bounds { (counted_list_format F.field (K.format coding.now)).out_of_bounds
        (trees K.plain elements.now)
        → IsErrAnd result
        (λ e. (e ≡ OutOfMemory)
        ⊎ (counted_list_format F.field (K.format coding.now)).refuses
        (trees K.plain elements.now) e) }
{
    let at = out.len();
    match append_after_gap::<F, T, K>(coding, out, elements) {
        Ok(length) => Ok(length),
        Err(error) => {
            out.truncate(at);
            Err(error)
        }
    }
}

// The same, but after an error more bytes may be left after those from before.
fn append_after_gap<F: LengthField, T, K: ElementWriter<T>>(
    coding: &K,
    out: &mut Vec<u8>,
    elements: &[T],
) -> Result<usize, Error>
    ensures ok { IfOk result
        (λ n. Appended (counted_list_format F.field (K.format coding.now))
        (trees K.plain elements.now)
        out.old.items out.new.items n) }
    ensures err { IfErr result
        (λ e. AppendRefused (counted_list_format F.field (K.format coding.now))
        (trees K.plain elements.now)
        out.old.items (take (length out.old.items) out.new.items) e) }
{
    let at = out.len();
    let gap = likely_width::<F, T, K>(coding, at, elements.len());
    open_gap(out, gap, bytes_to_reserve(coding, at, elements))?;
    engines::append(coding, out, elements)?;
    fill_gap::<F>(out, at, gap)?;
    Ok(out.len() - at)
}

/// How wide the length of `count` elements is likely to be after `at` bytes. It is a guess, and right if
/// the elements have one width.
///
/// If the gap itself might make the vector too long, it is 0.
pub(crate) fn likely_width<F: LengthField, T, K: ElementCoding<T>>(
    coding: &K,
    at: usize,
    count: usize,
) -> usize
    ensures { IsSafeGap at result }
{
    if at > MAX_BEFORE_GAP {
        return 0;
    }
    // If the number is a constant, so is its width.
    let width = match coding.fixed_len() {
        Some(each) => F::width(count.saturating_mul(each)),
        None if count == 0 => F::width(0),
        None if count < 256 => F::width(LIKELY_LENGTH),
        None => F::width(count.saturating_mul(LIKELY_LENGTH)),
    };
    width.min(8)
}

/// How much room is requested at once for these elements, after `at` bytes: just as much as they have, or
/// a guess that is never large.
pub(crate) fn bytes_to_reserve<T, K: ElementCoding<T>>(
    coding: &K,
    at: usize,
    elements: &[T],
) -> usize
    ensures { (result ≤ 2 ^ 16)
        ⊎ (result ≤ content_sum (K.format coding.now).announced (trees K.plain elements.now)) }
{
    let count = elements.len();
    match coding.fixed_len() {
        Some(each) => count.saturating_mul(each),
        None if at == 0 => count.saturating_mul(LIKELY_LENGTH).min(MAX_ROOM),
        None => count.min(MAX_ROOM),
    }
}

/// What [`read`](crate::counted::read) does.
pub(crate) fn read<F: LengthField, T: Drop, K: ElementReader<T>, R: Source>(
    coding: &K,
    alloc: Global,
    bytes: &mut R,
) -> Result<Vec<T>, Error>
    ensures reads { Reads (counted_list_format F.field (K.format coding.now))
        (λ elements. trees K.plain elements.items) R.Source bytes.old bytes.new result }
    ensures named { IfErr result
        (Named (counted_list_format F.field (K.format coding.now))
        (counted_list_source_names F.field (K.format coding.now) (K.names coding.now)) R.Source
        bytes.old bytes.new) }
{
    let length = F::read_length(bytes)?;
    let elements = engines::read(coding, alloc, bytes, length, &mut Turns::new())?;
    Ok(elements)
}

/// What [`split`](crate::counted::split) does.
pub(crate) fn split<'a, F: LengthField, T: Drop, K: ElementSplitter<T>>(
    coding: &K,
    alloc: Global,
    bytes: &'a [u8],
) -> Result<(Vec<T>, &'a [u8]), Error>
    ensures splits { Splits (counted_list_format F.field (K.format coding.now))
        (λ elements. trees K.plain elements.items) bytes.now result }
    ensures named { IfErr result (counted_list_names F.field (K.format coding.now)
        (K.names coding.now) bytes.now) }
{
    let (length, rest) = F::split_length(bytes)?;
    let (elements, rest) = engines::split(coding, alloc, rest, length, &mut Turns::new())?;
    Ok((elements, rest))
}
