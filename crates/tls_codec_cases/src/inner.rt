//! [`InnerPlaintext`], bytes with their type after them, and zeros to the end of what is read.
ghost use Rattle.std.specs.Prelude.{◌≡◌, ◌↔◌, All, IfErr, IsTrue, MatchOption};
ghost use Rattle.tls_codec_grammar.specs.Encoding.{AppendsForm};
ghost use Rattle.tls_codec_grammar.specs.Inside.{ReadsInside};
ghost use Rattle.tls_codec_grammar.specs.Tree.{Join, Number};
ghost use Rattle.tls_codec_cases.specs.Inner.{EndsIn, IsNonzero, RefusesInner, inner_format, inner_plain, nonzero_format};
ghost use Rattle.tls_codec_cases.specs.Padded.{padded_format};

use crate::followed::append_rest;
use crate::padded::append_zeros;
use std::alloc::Global;
use tls_codec_base::{DeserializeBytes, Serialize, Size};
use tls_codec_grammar::opaque::copied;
use tls_codec_wire::Error;

/// Bytes, the type of what they are, and zeros, as `TLSInnerPlaintext`, which is what a record encrypts (RFC 8446,
/// section 5.2).
///
/// No length says where the bytes end: the type is the last byte that isn't zero (section 5.4). So
/// its value is encoded as one byte that isn't zero, and it is read of all the bytes that there
/// are.
#[derive(PartialEq, Eq, Debug, Clone, Drop)]
pub struct InnerPlaintext<T> {
    /// The bytes before the type.
    pub content: Vec<u8>,
    /// The `type`.
    pub kind: T,
    /// How many zeros there are.
    pub padding: usize,
}

impl<T> InnerPlaintext<T> {
    /// The value that all of the bytes encode.
    ///
    /// `DecodingError("type is not there")`: there is no byte but zeros. `OutOfMemory`: there was
    /// none for the content. Every other error is that of the type's byte.
    pub fn tls_deserialize_exact_bytes(
        alloc: Global,
        bytes: &[u8],
    ) -> Result<InnerPlaintext<T>, Error>
    where
        T: DeserializeBytes,
        ensures reads { ReadsInside (inner_format T.format) (inner_plain T.plain) bytes.now result }
        ensures named { IfErr result (RefusesInner T.format.spells T.names bytes.now) }
    {
        let Some(found) = split_at_type(bytes) else {
            return Err(Error::DecodingError("type is not there"));
        };
        let (content, kind, padding) = found;
        let kind = T::tls_deserialize_exact_bytes(alloc, kind)?;
        let content = copied(alloc, content)?;
        Ok(InnerPlaintext {
            content,
            kind,
            padding,
        })
    }

    /// The number of bytes of the value's encoding, saturated at `usize::MAX`.
    pub fn tls_serialized_len(&self) -> usize
    where
        T: Size,
        ensures { result ≡ (inner_format T.format).announced (inner_plain T.plain self.now) }
    {
        let ending = self.kind.tls_serialized_len().saturating_add(self.padding);
        self.content.len().saturating_add(ending)
    }

    /// Appends the value's encoding to a vector, and returns how many bytes that is. After an error
    /// the vector has the bytes from before.
    ///
    /// `EncodingError("type is not a byte other than zero")`: the type has another encoding.
    /// `InvalidVectorLength`: the zeros don't fit into a vector. `OutOfMemory`: allocation failed for
    /// the content or for them. Every other error is the type's.
    pub fn tls_serialize_into(&self, out: &mut Vec<u8>) -> Result<usize, Error>
    where
        T: Serialize,
        ensures appends { AppendsForm (inner_format T.format) (inner_plain T.plain self.now)
            out.old.items out.new.items result }
    {
        let at = out.len();
        let content = append_rest(&self.content, out)?;
        match append_ending(&self.kind, self.padding, out) {
            Ok(ending) => Ok(content.saturating_add(ending)),
            Err(error) => {
                out.truncate(at);
                Err(error)
            }
        }
    }
}

// What is before the last byte that isn't zero, that byte, and how many zeros are after it. `None`:
// each byte is zero.
fn split_at_type(bytes: &[u8]) -> Option<(&[u8], &[u8], usize)>
    ensures { MatchOption result (All (λ b. b ≡ 0) bytes.now)
        (λ found. EndsIn bytes.now found.0.now found.1.now found.2) }
{
    let at = bytes.iter().rposition(|&byte| byte != 0)?;
    let (content, rest) = bytes.split_at(at);
    let (kind, zeros) = rest.split_at(1);
    Some((content, kind, zeros.len()))
}

// Appends a type, and as many zeros.
fn append_ending<T: Serialize>(kind: &T, padding: usize, out: &mut Vec<u8>) -> Result<usize, Error>
    ensures appends { AppendsForm (padded_format (nonzero_format T.format))
        (Join (T.plain kind.now) (Number padding)) out.old.items out.new.items result }
{
    let at = out.len();
    let sent = append_type(kind, out)?;
    match append_zeros(padding, out) {
        Ok(zeros) => Ok(sent.saturating_add(zeros)),
        Err(error) => {
            out.truncate(at);
            Err(error)
        }
    }
}

// Appends a type whose form is one byte that isn't zero.
fn append_type<T: Serialize>(kind: &T, out: &mut Vec<u8>) -> Result<usize, Error>
    ensures appends { AppendsForm (nonzero_format T.format) (T.plain kind.now) out.old.items
        out.new.items result }
{
    let at = out.len();
    let sent = kind.tls_serialize_into(out)?;
    if is_nonzero(&out[at..]) {
        return Ok(sent);
    }
    out.truncate(at);
    Err(Error::EncodingError("type is not a byte other than zero"))
}

// Whether these bytes are one, which isn't zero.
fn is_nonzero(bytes: &[u8]) -> bool
    ensures { IsTrue result ↔ IsNonzero bytes.now }
{
    match bytes {
        [byte] => *byte != 0,
        _ => false,
    }
}
