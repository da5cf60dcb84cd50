//! Where the fields of a message are.
ghost use Rattle.std.specs.Prelude.{◌≡◌, ◌<◌, ◌^◌, drop};
ghost use Rattle.tls_codec_grammar.specs.Format.{counted_bytes_format, number_format};
ghost use Rattle.tls_codec_grammar.specs.Tree.{Tree};
ghost use Rattle.tls_codec_outcome.specs.Fields.{BeginsAt, IsContentFrom, IsFieldFrom, IsTagAt, span_end};

use tls_codec_base::{Always, LengthField, opaque};
use tls_codec_validate::{Keyed, Validate, ValidateFor, split_u16};

/// A place in some bytes.
#[repr(C)]
#[derive(Clone, Copy, PartialEq, Eq, Debug)]
pub struct Span {
    /// Where its first byte is.
    pub offset: usize,
    /// How many bytes it has.
    pub size: usize,
}

impl Span {
    /// The place of nothing.
    pub(crate) fn empty(offset: usize) -> Span
        ensures offset { result.offset ≡ offset }
        ensures size { result.size ≡ 0 }
    {
        Span { offset, size: 0 }
    }

    /// The place after it.
    pub fn end(&self) -> usize
        ensures { span_end self.now < 2 ^ 64 → result ≡ span_end self.now }
    {
        self.offset.saturating_add(self.size)
    }
}

/// The field of this type at a place, if one begins there.
pub fn field_at<T: Validate>(bytes: &[u8], from: usize) -> Span
    ensures { BeginsAt T.format bytes.now from → IsFieldFrom T.format bytes.now from result }
{
    field_for::<(), Always<T>>(&(), bytes, from)
}

/// The field of this type at a place in each context that has the key, if one begins there.
pub(crate) fn field_for<X: Keyed, T: ValidateFor<X>>(
    key: &X::Key,
    bytes: &[u8],
    from: usize,
) -> Span
    ensures { (c : Tree) → X.is_key key.now c → BeginsAt (T.format_for c) bytes.now from
        → IsFieldFrom (T.format_for c) bytes.now from result }
{
    let here = bytes_from(bytes, from);
    let size = match T::tls_validate_prefix_for(key, here) {
        Ok(rest) => here.len().saturating_sub(rest.len()),
        Err(_) => 0,
    };
    Span { offset: from, size }
}

/// The bytes after a length at a place, if such a field begins there.
pub fn content_at<F: LengthField>(bytes: &[u8], from: usize) -> Span
    ensures { BeginsAt (counted_bytes_format F.field) bytes.now from
        → IsContentFrom F.field bytes.now from result }
{
    match opaque::split::<F>(bytes_from(bytes, from)) {
        Ok((content, rest)) => Span {
            offset: bytes
                .len()
                .saturating_sub(rest.len())
                .saturating_sub(content.len()),
            size: content.len(),
        },
        Err(_) => Span::empty(from),
    }
}

/// The tag of two bytes at a place, if there is one.
pub fn tag_at(bytes: &[u8], from: usize) -> u16
    ensures { BeginsAt (number_format 2) bytes.now from → IsTagAt 2 bytes.now from result }
{
    match split_u16(bytes_from(bytes, from)) {
        Ok((tag, _)) => tag,
        Err(_) => 0,
    }
}

/// The bytes from a place on.
pub(crate) fn bytes_from(bytes: &[u8], from: usize) -> &[u8]
    ensures { result.now ≡ drop from bytes.now }
{
    bytes.get(from..).unwrap_or(&[])
}
