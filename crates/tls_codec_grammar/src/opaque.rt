//! Bytes after a length field, whatever the field: the `opaque` of RFC 8446, section 3.4.
//!
//! Byte vectors and strings go through the calls here, which move the bytes in bulk.
ghost use Rattle.std.specs.Prelude.{◌≡◌, ◌⊎◌, ◌+◌, [], ◌∷◌, ◌++◌, is_ok, if◌then◌else◌, length, vec_len, vec_capacity, true, IfErr, IfOk, IsErrAnd, IsOk};
ghost use Rattle.tls_codec_wire.specs.Digits.{AreBytes};
ghost use Rattle.tls_codec_wire.specs.declared.error.Error.TheVariants.{InvalidVectorLength, OutOfMemory};
ghost use Rattle.tls_codec_grammar.specs.Tree.{number_trees};
ghost use Rattle.tls_codec_grammar.specs.Format.{counted_bytes_format};
ghost use Rattle.tls_codec_grammar.specs.Decoding.{Named, Reads, Splits};
ghost use Rattle.tls_codec_grammar.specs.Encoding.{AppendsForm, Makes, Writes};
ghost use Rattle.tls_codec_grammar.specs.Opaque.{OpaqueCopyRefused, OpaqueRefused, OpaqueSourceRefused};

use crate::length_field::{LengthField, append_both, write_length};
use std::alloc::Global;
use tls_codec_wire::{Error, Sink, Source, read_bytes_bounded, write_all};

/// The announced length of some bytes: their number plus the width of that length, saturated at
/// `usize::MAX`.
pub fn announced_len<F: LengthField>(content: &[u8]) -> usize
    ensures { result ≡ (counted_bytes_format F.field).announced (number_trees content.now) }
{
    let length = content.len();
    F::width(length).saturating_add(length)
}

/// Sends the canonical encoding of some bytes, and returns how many bytes that is.
///
/// `InvalidVectorLength`: the field doesn't hold their number, and nothing was sent. Every other
/// error is the sink's, as in `write_all`.
pub fn write<F: LengthField, W: Sink>(sink: &mut W, content: &[u8]) -> Result<usize, Error>
    ensures writes { Writes (counted_bytes_format F.field) (number_trees content.now) W.Sink
        sink.old sink.new result }
    ensures out_of_bounds { (counted_bytes_format F.field).out_of_bounds (number_trees content.now)
        → (result ≡ Err InvalidVectorLength) × (sink.new ≡ sink.old) }
{
    let width = write_length::<F, W>(sink, content.len())?;
    write_all(sink, content)?;
    Ok(width.saturating_add(content.len()))
}

/// Appends the canonical encoding of some bytes to a vector, and returns how many bytes that is.
///
/// `InvalidVectorLength`: the field doesn't hold their number. `OutOfMemory`: allocation failed.
/// After an error the vector has the bytes from before.
#[inline(always)]
pub fn append<F: LengthField>(out: &mut Vec<u8>, content: &[u8]) -> Result<usize, Error>
    ensures appends { AppendsForm (counted_bytes_format F.field) (number_trees content.now)
        out.old.items out.new.items result }
    ensures out_of_bounds { (counted_bytes_format F.field).out_of_bounds (number_trees content.now)
        → IsErrAnd result
        (λ e. (e ≡ OutOfMemory)
        ⊎ (counted_bytes_format F.field).refuses (number_trees content.now) e) }
    ensures at_once { (counted_bytes_format F.field).out_of_bounds (number_trees content.now)
        → result ≡ Err InvalidVectorLength }
{
    let Some(found) = F::form(content.len()) else {
        return Err(Error::InvalidVectorLength);
    };
    let (bytes, from) = found;
    let form = &bytes[from..];
    append_both(out, form, content)?;
    Ok(form.len() + content.len())
}

/// The canonical encoding of some bytes.
///
/// `InvalidVectorLength`: the field doesn't hold their number. `OutOfMemory`: allocation failed.
pub fn to_vec<F: LengthField>(alloc: Global, content: &[u8]) -> Result<Vec<u8>, Error>
    ensures makes { Makes (counted_bytes_format F.field) (number_trees content.now) result }
    ensures out_of_bounds { (counted_bytes_format F.field).out_of_bounds (number_trees content.now)
        → IsErrAnd result
        (λ e. (e ≡ OutOfMemory)
        ⊎ (counted_bytes_format F.field).refuses (number_trees content.now) e) }
    ensures at_once { (counted_bytes_format F.field).out_of_bounds (number_trees content.now)
        → result ≡ Err InvalidVectorLength }
{
    let mut form = Vec::new(alloc);
    append::<F>(&mut form, content)?;
    Ok(form)
}

/// The bytes that a prefix of `whole` encodes, and the rest of it. Neither is copied.
///
/// If no length begins it, the error is that of [`split_length`](LengthField::split_length). If
/// fewer bytes come after the length than it declares, it is the field's
/// [`cut_off`](LengthField::cut_off).
#[inline(always)]
pub fn split<F: LengthField>(whole: &[u8]) -> Result<(&[u8], &[u8]), Error>
    ensures splits { Splits (record (counted_bytes_format F.field) { lean = true })
        (λ found. number_trees found.now) whole.now result }
    ensures named { IfErr result (OpaqueRefused F.field whole.now) }
{
    let (length, rest) = F::split_length(whole)?;
    if rest.len() < length {
        return Err(F::cut_off());
    }
    Ok(rest.split_at(length))
}

/// A copy of the bytes that a prefix of `whole` encodes, and the rest of it, which isn't copied.
///
/// `OutOfMemory`: allocation failed for the copy of bytes that are all there. Every other error is
/// as in [`split`].
#[inline(always)]
pub fn split_copied<F: LengthField>(alloc: Global, whole: &[u8]) -> Result<(Vec<u8>, &[u8]), Error>
    ensures splits { Splits (counted_bytes_format F.field) (λ content. number_trees content.items)
        whole.now result }
    ensures named { IfErr result (OpaqueCopyRefused F.field whole.now) }
{
    let (content, rest) = split::<F>(whole)?;
    let copy = copied(alloc, content)?;
    Ok((copy, rest))
}

/// A vector of these bytes.
///
/// `OutOfMemory`: there was no memory for it. If there are no bytes, nothing is allocated.
#[inline(always)]
pub fn copied(alloc: Global, content: &[u8]) -> Result<Vec<u8>, Error>
    ensures ok { IfOk result (λ copy. copy.items ≡ content.now) }
    ensures err { IfErr result (λ e. e ≡ OutOfMemory) }
    ensures none { length content.now ≡ 0 → IsOk result }
{
    if content.is_empty() {
        return Ok(Vec::new(alloc));
    }
    let mut copy = Vec::with_capacity(alloc, content.len())?;
    fill(&mut copy, content);
    Ok(copy)
}

// Fills a vector that has room for just these bytes.
#[inline(always)]
fn fill(out: &mut Vec<u8>, bytes: &[u8])
    requires { vec_len out.old + length bytes.now ≡ vec_capacity out.old }
    ensures { out.new.items ≡ out.old.items ++ bytes.now }
{
    let _ = out.extend_from_slice(bytes);
}

/// Appends a byte. `OutOfMemory`: the bytes are as they were.
pub fn push(content: &mut Vec<u8>, byte: u8) -> Result<(), Error>
    ensures content { content.new.items
        ≡ (if is_ok result then content.old.items ++ byte ∷ [] else content.old.items) }
    ensures err { IfErr result (λ e. e ≡ OutOfMemory) }
{
    content.push(byte)?;
    Ok(())
}

/// The bytes that the bytes to come encode. Only their encoding is taken.
///
/// Room is requested as they come. `EndOfStream`: fewer bytes come than the length declares. The
/// length is rejected as in [`read_length`](LengthField::read_length).
/// `DecodingError("read failed")` and `OutOfMemory` are as in `read_bytes_bounded`.
#[inline(always)]
pub fn read<F: LengthField, R: Source>(alloc: Global, src: &mut R) -> Result<Vec<u8>, Error>
    ensures reads { Reads (counted_bytes_format F.field) (λ content. number_trees content.items)
        R.Source src.old src.new result }
    ensures named { IfErr result
        (Named (counted_bytes_format F.field) (OpaqueSourceRefused F.field) R.Source src.old
        src.new) }
{
    let length = F::read_length(src)?;
    let content = read_bytes_bounded(alloc, src, length)?;
    see_bytes(&content);
    Ok(content)
}

/// Does nothing. The prover knows that what a slice refers to is bytes. It doesn't know that about
/// a vector's items before this call.
pub fn see_bytes(_content: &[u8])
    ensures { AreBytes _content.now }
{}
