//! Elements in a row, written without a length.
ghost use Rattle.std.specs.Prelude.{◌≡◌, ◌≤◌, ◌^◌, IfErr, IfOk};
ghost use Rattle.tls_codec_wire.specs.declared.error.Error.TheVariants.{InvalidVectorLength};
ghost use Rattle.tls_codec_grammar.specs.Tree.{trees};
ghost use Rattle.tls_codec_grammar.specs.Announced.{content_sum};
ghost use Rattle.tls_codec_grammar.specs.Format.{content_format};
ghost use Rattle.tls_codec_grammar.specs.Encoding.{AppendsForm, Writes};

use crate::context::{SerializeFor, SizeFor};
use crate::lists::engines::coding::{Alone, In};
use crate::lists::engines::{self, append_at_once};
use crate::traits::{Serialize, SerializeBytes, Size};
use std::alloc::Global;
use tls_codec_wire::{Error, Sink};

/// The sum of the elements' announced lengths.
///
/// `InvalidVectorLength`: it passes `usize::MAX`.
///
/// ```rust
/// assert_eq!(rt; content_len(&[1u16, 2]), Ok(4));
/// ```
pub fn content_len<T: Size>(elements: &[T]) -> Result<usize, Error>
    ensures ok { IfOk result
        (λ n. n ≡ content_sum T.format.announced (trees T.plain elements.now)) }
    ensures err { IfErr result
        (λ e. (e ≡ InvalidVectorLength)
        × (2 ^ 64 ≤ content_sum T.format.announced (trees T.plain elements.now))) }
{
    engines::content_len(&Alone, elements)
}

/// Sends the elements' canonical encodings in a row, without a length, and returns how many bytes
/// that is, saturated at `usize::MAX`.
///
/// ```rust
/// let mut out = Vec::new(alloc);
/// assert_eq!(rt; write(&mut out, &[1u16, 2]), Ok(4));
/// assert_eq!(rt; out.as_slice(), [0, 1, 0, 2].as_slice());
/// ```
pub fn write<T: Serialize, W: Sink>(sink: &mut W, elements: &[T]) -> Result<usize, Error>
    ensures { Writes (content_format T.format) (trees T.plain elements.now) W.Sink sink.old sink.new
        result }
{
    engines::write(&Alone, sink, elements)
}

/// Appends the elements' canonical encodings in a row, without a length, and returns how many bytes
/// that is.
///
/// An error is an element's, and leaves the vector's bytes as they were.
///
/// ```rust
/// let mut out = Vec::from_slice(alloc, &[9])?;
/// assert_eq!(rt; append(&mut out, &[1u16, 2]), Ok(4));
/// assert_eq!(rt; out.as_slice(), [9, 0, 1, 0, 2].as_slice());
/// ```
pub fn append<T: Serialize>(out: &mut Vec<u8>, elements: &[T]) -> Result<usize, Error>
    ensures { AppendsForm (content_format T.format) (trees T.plain elements.now) out.old.items
        out.new.items result }
{
    engines::append(&Alone, out, elements)
}

/// Appends the elements' canonical encodings in a row, each made by `tls_serialize_bytes`, and
/// returns how many bytes that is.
///
/// An error is an element's, `InvalidVectorLength` if the vector would pass `isize::MAX` bytes, or
/// `OutOfMemory`. It leaves the vector's bytes as they were.
pub fn append_bytes<T: SerializeBytes>(
    alloc: Global,
    out: &mut Vec<u8>,
    elements: &[T],
) -> Result<usize, Error>
    ensures { AppendsForm (content_format T.format) (trees T.plain elements.now) out.old.items
        out.new.items result }
{
    match append_at_once(&Alone, out, elements)? {
        Some(length) => Ok(length),
        None => append_each_form(alloc, out, elements),
    }
}

// The same, one element after another.
fn append_each_form<T: SerializeBytes>(
    alloc: Global,
    out: &mut Vec<u8>,
    elements: &[T],
) -> Result<usize, Error>
    ensures { AppendsForm (content_format T.format) (trees T.plain elements.now) out.old.items
        out.new.items result }
{
    let at = out.len();
    for element in elements {
        if let Err(error) = append_form(alloc, out, element) {
            out.truncate(at);
            return Err(error);
        }
    }
    Ok(out.len() - at)
}

// Appends the canonical encoding of one element, and returns how many bytes that is.
fn append_form<T: SerializeBytes>(
    alloc: Global,
    out: &mut Vec<u8>,
    element: &T,
) -> Result<usize, Error>
    ensures { AppendsForm T.format (T.plain element.now) out.old.items out.new.items result }
{
    let form = element.tls_serialize_bytes(alloc)?;
    if form.len() > isize::MAX as usize - out.len() {
        return Err(Error::InvalidVectorLength);
    }
    out.extend_from_slice(&form)?;
    Ok(form.len())
}

/// What [`content_len`] does, of elements in a context.
pub fn content_len_for<C: Size, T: SizeFor<C>>(context: &C, elements: &[T]) -> Result<usize, Error>
    ensures ok { IfOk result
        (λ n. n ≡ content_sum (T.format_for (C.plain context.now)).announced
        (trees T.plain elements.now)) }
    ensures err { IfErr result
        (λ e. (e ≡ InvalidVectorLength)
        × (2 ^ 64 ≤ content_sum (T.format_for (C.plain context.now)).announced
        (trees T.plain elements.now))) }
{
    engines::content_len(&In(context), elements)
}

/// What [`write`] does, of elements in a context.
pub fn write_for<C: Size, T: SerializeFor<C>, W: Sink>(
    context: &C,
    sink: &mut W,
    elements: &[T],
) -> Result<usize, Error>
    ensures { Writes (content_format (T.format_for (C.plain context.now)))
        (trees T.plain elements.now) W.Sink sink.old sink.new
        result }
{
    engines::write(&In(context), sink, elements)
}

/// What [`append`] does, of elements in a context.
pub fn append_for<C: Size, T: SerializeFor<C>>(
    context: &C,
    out: &mut Vec<u8>,
    elements: &[T],
) -> Result<usize, Error>
    ensures { AppendsForm (content_format (T.format_for (C.plain context.now)))
        (trees T.plain elements.now) out.old.items
        out.new.items result }
{
    engines::append(&In(context), out, elements)
}
