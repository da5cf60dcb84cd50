//! A value that fills what a length counts, as the body of `opaque extension_data<0..2^16-1>`, whose type the
//! extension's own type decides (RFC 8446, section 4.2).
ghost use Rattle.std.specs.Prelude.{IfErr};
ghost use Rattle.tls_codec_wire.specs.Bounded.{BorrowAlike, inner_of, limit_of};
ghost use Rattle.tls_codec_grammar.specs.Decoding.{Named, Reads, Splits};
ghost use Rattle.tls_codec_grammar.specs.Encoding.{AppendsForm, Writes};
ghost use Rattle.tls_codec_grammar.specs.Format.{sized_format, with_memory};
ghost use Rattle.tls_codec_grammar.specs.Inside.{enclosed_format};
ghost use Rattle.tls_codec_base.specs.ContextNames.{enclosed_names, enclosed_source_names, filling_source_names};

use crate::context::traits::{DeserializeBytesFor, DeserializeFor, SerializeFor};
use crate::traits::Size;
use std::alloc::Global;
use tls_codec_grammar::LengthField;
use tls_codec_grammar::length_field::write_length;
use tls_codec_wire::{Bounded, Error, Sink, Source};

/// The value that fills what the length `F` counts, read in a context, and the rest of the bytes, which isn't copied.
///
/// The length is rejected as in [`LengthField::split_length`], and bytes that are fewer than it
/// says by [`LengthField::cut_off`]. `TrailingData`: a value was read, and a byte is left of what
/// the length counts. Every other error is the value's.
pub fn split_enclosed<'a, C: Size, F: LengthField, T: DeserializeBytesFor<C>>(
    context: &C,
    alloc: Global,
    whole: &'a [u8],
) -> Result<(T, &'a [u8]), Error>
    ensures splits { Splits (enclosed_format F.field (T.format_for (C.plain context.now))) T.plain
        whole.now result }
    ensures named { IfErr result
        (enclosed_names F.field (T.format_for (C.plain context.now))
        (T.names (C.plain context.now)) whole.now) }
{
    let (length, behind) = F::split_length(whole)?;
    if behind.len() < length {
        return Err(F::cut_off());
    }
    let (inside, rest) = behind.split_at(length);
    let (value, left) = T::tls_deserialize_bytes_for(context, alloc, inside)?;
    if !left.is_empty() {
        return Err(Error::TrailingData);
    }
    Ok((value, rest))
}

/// The value that fills what the length `F` counts, read in a context. Only the length and what it counts are taken.
///
/// The length is rejected as in [`LengthField::read_length`]. `TrailingData`: a value was read, and
/// a byte is left of what the length counts. Every other error is the value's, which is read from a
/// source that ends where the length says.
pub fn read_enclosed<C: Size, F: LengthField, T: DeserializeFor<C>, R: Source>(
    context: &C,
    alloc: Global,
    src: &mut R,
) -> Result<T, Error>
    ensures reads { Reads (enclosed_format F.field (T.format_for (C.plain context.now))) T.plain
        R.Source src.old src.new result }
    ensures named { IfErr result
        (Named (enclosed_format F.field (T.format_for (C.plain context.now)))
        (enclosed_source_names F.field (T.format_for (C.plain context.now))
        (T.names (C.plain context.now))) R.Source src.old src.new) }
{
    let length = F::read_length(src)?;
    let value = read_filling(context, alloc, src, length)?;
    Ok(value)
}

// The value that fills the next `length` bytes.
fn read_filling<C: Size, T: DeserializeFor<C>, R: Source>(
    context: &C,
    alloc: Global,
    src: &mut R,
    length: usize,
) -> Result<T, Error>
    ensures reads { Reads (with_memory (sized_format length (T.format_for (C.plain context.now))))
        T.plain R.Source src.old src.new result }
    ensures named { IfErr result
        (Named (with_memory (sized_format length (T.format_for (C.plain context.now))))
        (filling_source_names (T.format_for (C.plain context.now)) (T.names (C.plain context.now))
        length) R.Source src.old src.new) }
{
    let mut within = Bounded::new(src, length as u64);
    filling_within(context, alloc, &mut within)
}

// The value that fills what a source may still give.
fn filling_within<C: Size, T: DeserializeFor<C>, R: Source>(
    context: &C,
    alloc: Global,
    within: &mut Bounded<R>,
) -> Result<T, Error>
    ensures same { BorrowAlike within.old within.new }
    ensures reads { Reads
        (with_memory (sized_format (limit_of within.old) (T.format_for (C.plain context.now))))
        T.plain R.Source (inner_of within.old) (inner_of within.new) result }
    ensures named { IfErr result
        (Named
        (with_memory (sized_format (limit_of within.old) (T.format_for (C.plain context.now))))
        (filling_source_names (T.format_for (C.plain context.now)) (T.names (C.plain context.now))
        (limit_of within.old)) R.Source (inner_of within.old) (inner_of within.new)) }
{
    let value = T::tls_deserialize_for(context, alloc, within)?;
    if within.limit() > 0 {
        return Err(Error::TrailingData);
    }
    Ok(value)
}

/// Sends the length `F` of a value's canonical encoding, and that encoding, and returns how many
/// bytes that is, saturated at `usize::MAX`.
///
/// `InvalidVectorLength`: the field doesn't hold the number of the encoding's bytes, and nothing
/// was sent. Every other error is the value's or the sink's.
pub fn write_enclosed<C: Size, F: LengthField, T: SerializeFor<C>, W: Sink>(
    context: &C,
    value: &T,
    writer: &mut W,
) -> Result<usize, Error>
    ensures writes { Writes (enclosed_format F.field (T.format_for (C.plain context.now)))
        (T.plain value.now) W.Sink writer.old writer.new result }
{
    let length = value.tls_serialized_len_for(context);
    let width = write_length::<F, W>(writer, length)?;
    let sent = value.tls_serialize_for(context, writer)?;
    Ok(sent.saturating_add(width))
}

/// Appends the length `F` of a value's canonical encoding, and that encoding, to a vector, and
/// returns how many bytes that is. After an error the vector has the bytes from before.
///
/// The errors are those of [`write_enclosed`], or `OutOfMemory`; `InvalidVectorLength` is also a
/// vector that would pass `isize::MAX` bytes.
pub fn append_enclosed<C: Size, F: LengthField, T: SerializeFor<C>>(
    context: &C,
    value: &T,
    out: &mut Vec<u8>,
) -> Result<usize, Error>
    ensures appends { AppendsForm (enclosed_format F.field (T.format_for (C.plain context.now)))
        (T.plain value.now) out.old.items out.new.items result }
{
    let at = out.len();
    match write_enclosed::<C, F, T, Vec<u8>>(context, value, out) {
        Ok(length) => Ok(length),
        Err(error) => {
            out.truncate(at);
            Err(error)
        }
    }
}
