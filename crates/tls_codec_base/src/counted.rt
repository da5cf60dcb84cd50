//! Elements after a length field, whatever the field (RFC 8446, section 3.4).
//!
//! `Vec<T>`, `&[T]` and each family of vectors go through the calls here. The calls know of an element
//! and of a length field only their traits' contracts.
ghost use Rattle.std.specs.Prelude.{◌≡◌, ◌⊎◌, length, IfErr, IsErrAnd};
ghost use Rattle.tls_codec_wire.specs.declared.error.Error.TheVariants.{InvalidVectorLength, OutOfMemory};
ghost use Rattle.tls_codec_grammar.specs.Tree.{trees};
ghost use Rattle.tls_codec_grammar.specs.Format.{counted_list_format};
ghost use Rattle.tls_codec_grammar.specs.Decoding.{Named, Reads, Splits};
ghost use Rattle.tls_codec_grammar.specs.Encoding.{AppendsForm, Makes, Writes};
ghost use Rattle.tls_codec_base.specs.PartNames.{counted_list_names, counted_list_source_names};

use crate::context::{DeserializeBytesFor, DeserializeFor, SerializeFor, SizeFor};
use crate::lists;
use crate::lists::engines::coding::{Alone, In};
use crate::traits::{Deserialize, DeserializeBytes, Serialize, SerializeBytes, Size};
use std::alloc::Global;
use tls_codec_grammar::length_field::{LengthField, fill_gap, open_gap};
use tls_codec_wire::{Error, Sink, Source};

mod engines;

/// The announced length of a list: the length of its elements plus the width of that length,
/// saturated at `usize::MAX`.
pub fn announced_len<F: LengthField, T: Size>(elements: &[T]) -> usize
    ensures { result
        ≡ (counted_list_format F.field T.format).announced (trees T.plain elements.now) }
{
    engines::announced_len::<F, T, Alone>(&Alone, elements)
}

/// Sends a list's canonical encoding, and returns how many bytes that is, saturated at
/// `usize::MAX`.
///
/// `InvalidVectorLength`: the field doesn't hold the number of the elements' bytes, and nothing was
/// sent. Every other error is an element's or the sink's.
pub fn write<F: LengthField, T: Serialize, W: Sink>(
    writer: &mut W,
    elements: &[T],
) -> Result<usize, Error>
    ensures writes { Writes (counted_list_format F.field T.format) (trees T.plain elements.now)
        W.Sink writer.old writer.new result }
    ensures out_of_bounds { (counted_list_format F.field T.format).out_of_bounds
        (trees T.plain elements.now)
        → (result ≡ Err InvalidVectorLength) × (writer.new ≡ writer.old) }
{
    engines::write::<F, T, Alone, W>(&Alone, writer, elements)
}

/// Appends a list's canonical encoding to a vector, and returns how many bytes that is.
///
/// `InvalidVectorLength`: the field doesn't hold the number of the elements' bytes, or the vector
/// would pass `isize::MAX` bytes. Every other error is an element's, or `OutOfMemory`. No element
/// is asked for its announced length. After an error the vector has the bytes from before.
pub fn append<F: LengthField, T: Serialize>(
    out: &mut Vec<u8>,
    elements: &[T],
) -> Result<usize, Error>
    ensures appends { AppendsForm (counted_list_format F.field T.format)
        (trees T.plain elements.now) out.old.items out.new.items result }
    ensures out_of_bounds { (counted_list_format F.field T.format).out_of_bounds
        (trees T.plain elements.now)
        → IsErrAnd result
        (λ e. (e ≡ OutOfMemory)
        ⊎ (counted_list_format F.field T.format).refuses (trees T.plain elements.now) e) }
{
    engines::append::<F, T, Alone>(&Alone, out, elements)
}

/// A list's canonical encoding. Each element is written to a vector of its own first.
///
/// The errors are those of [`append`].
pub fn to_vec<F: LengthField, T: SerializeBytes>(
    alloc: Global,
    elements: &[T],
) -> Result<Vec<u8>, Error>
    ensures makes { Makes (counted_list_format F.field T.format) (trees T.plain elements.now)
        result }
    ensures out_of_bounds { (counted_list_format F.field T.format).out_of_bounds
        (trees T.plain elements.now)
        → IsErrAnd result
        (λ e. (e ≡ OutOfMemory)
        ⊎ (counted_list_format F.field T.format).refuses (trees T.plain elements.now) e) }
{
    let mut bytes = Vec::new(alloc);
    let gap = engines::likely_width::<F, T, Alone>(&Alone, 0, elements.len());
    open_gap(
        &mut bytes,
        gap,
        engines::bytes_to_reserve(&Alone, 0, elements),
    )?;
    lists::append_bytes(alloc, &mut bytes, elements)?;
    fill_gap::<F>(&mut bytes, 0, gap)?;
    Ok(bytes)
}

/// The list that the bytes to come encode. Only its encoding is taken.
///
/// The length is rejected as in [`LengthField::read_length`]. Every other error is that of
/// [`lists::from_reader`](crate::lists::from_reader).
pub fn read<F: LengthField, T: Deserialize, R: Source>(
    alloc: Global,
    bytes: &mut R,
) -> Result<Vec<T>, Error>
    ensures reads { Reads (counted_list_format F.field T.format)
        (λ elements. trees T.plain elements.items) R.Source bytes.old bytes.new result }
    ensures named { IfErr result
        (Named (counted_list_format F.field T.format)
        (counted_list_source_names F.field T.format T.names) R.Source bytes.old bytes.new) }
{
    engines::read::<F, T, Alone, R>(&Alone, alloc, bytes)
}

/// The list that the bytes begin with, and the rest of them, which isn't copied.
///
/// The length is rejected as in [`LengthField::split_length`]. Every other error is that of
/// [`lists::from_slice`](crate::lists::from_slice).
pub fn split<F: LengthField, T: DeserializeBytes>(
    alloc: Global,
    bytes: &[u8],
) -> Result<(Vec<T>, &[u8]), Error>
    ensures splits { Splits (counted_list_format F.field T.format)
        (λ elements. trees T.plain elements.items) bytes.now result }
    ensures named { IfErr result (counted_list_names F.field T.format T.names bytes.now) }
{
    engines::split::<F, T, Alone>(&Alone, alloc, bytes)
}

/// What [`announced_len`] does, of elements in a context.
pub fn announced_len_for<C: Size, F: LengthField, T: SizeFor<C>>(
    context: &C,
    elements: &[T],
) -> usize
    ensures { result
        ≡ (counted_list_format F.field (T.format_for (C.plain context.now))).announced
        (trees T.plain elements.now) }
{
    engines::announced_len::<F, T, In<C>>(&In(context), elements)
}

/// What [`write`] does, of elements in a context.
pub fn write_for<C: Size, F: LengthField, T: SerializeFor<C>, W: Sink>(
    context: &C,
    writer: &mut W,
    elements: &[T],
) -> Result<usize, Error>
    ensures writes { Writes (counted_list_format F.field (T.format_for (C.plain context.now)))
        (trees T.plain elements.now)
        W.Sink writer.old writer.new result }
    ensures out_of_bounds { (counted_list_format F.field
        (T.format_for (C.plain context.now))).out_of_bounds
        (trees T.plain elements.now)
        → (result ≡ Err InvalidVectorLength) × (writer.new ≡ writer.old) }
{
    engines::write::<F, T, In<C>, W>(&In(context), writer, elements)
}

/// What [`append`] does, of elements in a context.
pub fn append_for<C: Size, F: LengthField, T: SerializeFor<C>>(
    context: &C,
    out: &mut Vec<u8>,
    elements: &[T],
) -> Result<usize, Error>
    ensures appends { AppendsForm (counted_list_format F.field (T.format_for (C.plain context.now)))
        (trees T.plain elements.now) out.old.items out.new.items result }
    ensures out_of_bounds { (counted_list_format F.field
        (T.format_for (C.plain context.now))).out_of_bounds
        (trees T.plain elements.now)
        → IsErrAnd result
        (λ e. (e ≡ OutOfMemory)
        ⊎ (counted_list_format F.field (T.format_for (C.plain context.now))).refuses
        (trees T.plain elements.now) e) }
{
    engines::append::<F, T, In<C>>(&In(context), out, elements)
}

/// What [`read`] does, of elements in a context.
pub fn read_for<C: Size, F: LengthField, T: DeserializeFor<C>, R: Source>(
    context: &C,
    alloc: Global,
    bytes: &mut R,
) -> Result<Vec<T>, Error>
    ensures reads { Reads (counted_list_format F.field (T.format_for (C.plain context.now)))
        (λ elements. trees T.plain elements.items) R.Source bytes.old bytes.new result }
    ensures named { IfErr result
        (Named (counted_list_format F.field (T.format_for (C.plain context.now)))
        (counted_list_source_names F.field (T.format_for (C.plain context.now))
        (T.names (C.plain context.now))) R.Source bytes.old bytes.new) }
{
    engines::read::<F, T, In<C>, R>(&In(context), alloc, bytes)
}

/// What [`split`] does, of elements in a context.
pub fn split_for<'a, C: Size, F: LengthField, T: DeserializeBytesFor<C>>(
    context: &C,
    alloc: Global,
    bytes: &'a [u8],
) -> Result<(Vec<T>, &'a [u8]), Error>
    ensures splits { Splits (counted_list_format F.field (T.format_for (C.plain context.now)))
        (λ elements. trees T.plain elements.items) bytes.now result }
    ensures named { IfErr result (counted_list_names F.field (T.format_for (C.plain context.now))
        (T.names (C.plain context.now)) bytes.now) }
{
    engines::split::<F, T, In<C>>(&In(context), alloc, bytes)
}
