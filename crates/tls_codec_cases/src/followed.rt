//! [`Followed`], a value and the bytes after it, to the end of what is read.
ghost use Rattle.std.specs.Prelude.{◌≡◌, ◌⊎◌, IfErr};
ghost use Rattle.tls_codec_grammar.specs.Decoding.{NoMemoryFor};
ghost use Rattle.tls_codec_grammar.specs.Encoding.{AppendsForm};
ghost use Rattle.tls_codec_grammar.specs.Inside.{ReadsInside, bytes_to_end_format};
ghost use Rattle.tls_codec_grammar.specs.Tree.{number_trees};
ghost use Rattle.tls_codec_cases.specs.Followed.{followed_format, followed_plain};

use std::alloc::Global;
use tls_codec_base::{DeserializeBytes, Serialize, Size};
use tls_codec_grammar::opaque::{copied, see_bytes};
use tls_codec_wire::Error;

/// A value and the bytes after it, as `opaque padding[padding_length];` of a heartbeat (RFC 6520,
/// section 4).
///
/// A value with fewer bytes is one too. So no encoding says where it ends, and it is read from all
/// the bytes that there are.
#[derive(PartialEq, Eq, Debug, Clone, Drop)]
pub struct Followed<T> {
    /// The value before the bytes.
    pub content: T,
    /// All bytes after it.
    pub rest: Vec<u8>,
}

impl<T> Followed<T> {
    /// The value that all of the bytes encode.
    ///
    /// `OutOfMemory`: there was none for the bytes after the content. Every other error is the
    /// content's.
    pub fn tls_deserialize_exact_bytes(alloc: Global, bytes: &[u8]) -> Result<Followed<T>, Error>
    where
        T: DeserializeBytes,
        ensures reads { ReadsInside (followed_format T.format) (followed_plain T.plain) bytes.now
            result }
        ensures named { IfErr result (λ e. T.names bytes.now e
            ⊎ NoMemoryFor T.format.spells bytes.now e) }
    {
        let (content, rest) = T::tls_deserialize_bytes(alloc, bytes)?;
        let rest = copied(alloc, rest)?;
        Ok(Followed { content, rest })
    }

    /// The number of bytes of the value's encoding, saturated at `usize::MAX`.
    pub fn tls_serialized_len(&self) -> usize
    where
        T: Size,
        ensures { result
            ≡ (followed_format T.format).announced (followed_plain T.plain self.now) }
    {
        let length = self.content.tls_serialized_len();
        length.saturating_add(self.rest.len())
    }

    /// Appends the value's encoding to a vector, and returns how many bytes that is. After an error
    /// the vector has the bytes from before. Every error but `OutOfMemory` is the content's.
    pub fn tls_serialize_into(&self, out: &mut Vec<u8>) -> Result<usize, Error>
    where
        T: Serialize,
        ensures appends { AppendsForm (followed_format T.format) (followed_plain T.plain self.now)
            out.old.items out.new.items result }
    {
        let at = out.len();
        let sent = self.content.tls_serialize_into(out)?;
        match append_rest(&self.rest, out) {
            Ok(rest) => Ok(sent.saturating_add(rest)),
            Err(error) => {
                out.truncate(at);
                Err(error)
            }
        }
    }
}

/// Appends these bytes, and returns how many they are.
pub(crate) fn append_rest(bytes: &Vec<u8>, out: &mut Vec<u8>) -> Result<usize, Error>
    ensures appends { AppendsForm bytes_to_end_format (number_trees bytes.now.items) out.old.items
        out.new.items result }
{
    see_bytes(bytes);
    out.extend_from_slice(bytes)?;
    Ok(bytes.len())
}
