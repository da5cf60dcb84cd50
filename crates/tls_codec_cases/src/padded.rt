//! [`Padded`], a value and zeros after it, to the end of what is read.
ghost use Rattle.std.specs.Prelude.{◌≡◌, ◌↔◌, All, IfErr, IsTrue};
ghost use Rattle.tls_codec_grammar.specs.Encoding.{AppendsForm};
ghost use Rattle.tls_codec_grammar.specs.Inside.{ReadsInside, zeros_format};
ghost use Rattle.tls_codec_grammar.specs.Tree.{Number};
ghost use Rattle.tls_codec_cases.specs.Padded.{RefusesPadded, padded_format, padded_plain};

use std::alloc::Global;
use tls_codec_base::{DeserializeBytesFor, SerializeFor, Size, SizeFor};
use tls_codec_wire::Error;

/// A value and the zeros after it, as `opaque padding[length_of_padding];` of a message that is
/// encrypted (RFC 9420, section 6.3.1).
///
/// A value with fewer zeros is one too. So no encoding says where it ends, and it is read from all
/// the bytes that there are. A value without a context is one in any context as
/// [`Always<T>`](tls_codec_base::Always).
#[derive(PartialEq, Eq, Debug, Clone, Drop)]
pub struct Padded<T> {
    /// The value before the zeros.
    pub content: T,
    /// How many zeros there are.
    pub padding: usize,
}

impl<T> Padded<T> {
    /// The value that all of the bytes encode in this context.
    ///
    /// `DecodingError("padding is not zeros")`: a byte after the content isn't zero. Every other
    /// error is the content's.
    pub fn tls_deserialize_exact_bytes_for<C: Size>(
        context: &C,
        alloc: Global,
        bytes: &[u8],
    ) -> Result<Padded<T>, Error>
    where
        T: DeserializeBytesFor<C>,
        ensures reads { ReadsInside (padded_format (T.format_for (C.plain context.now)))
            (padded_plain T.plain) bytes.now result }
        ensures named { IfErr result (RefusesPadded (T.format_for (C.plain context.now)).spells
            (T.names (C.plain context.now)) bytes.now) }
    {
        let (content, rest) = T::tls_deserialize_bytes_for(context, alloc, bytes)?;
        if !are_zeros(rest) {
            return Err(Error::DecodingError("padding is not zeros"));
        }
        let padding = rest.len();
        Ok(Padded { content, padding })
    }

    /// The number of bytes of the value's encoding in this context, saturated at `usize::MAX`.
    pub fn tls_serialized_len_for<C: Size>(&self, context: &C) -> usize
    where
        T: SizeFor<C>,
        ensures { result ≡ (padded_format (T.format_for (C.plain context.now))).announced
            (padded_plain T.plain self.now) }
    {
        let length = self.content.tls_serialized_len_for(context);
        length.saturating_add(self.padding)
    }

    /// Appends the value's encoding in this context to a vector, and returns how many bytes that
    /// is. After an error the vector has the bytes from before.
    ///
    /// `InvalidVectorLength`: the zeros don't fit into a vector. `OutOfMemory`: allocation failed for
    /// them. Every other error is the content's.
    pub fn tls_serialize_into_for<C: Size>(
        &self,
        context: &C,
        out: &mut Vec<u8>,
    ) -> Result<usize, Error>
    where
        T: SerializeFor<C>,
        ensures appends { AppendsForm (padded_format (T.format_for (C.plain context.now)))
            (padded_plain T.plain self.now) out.old.items out.new.items result }
    {
        let at = out.len();
        let sent = self.content.tls_serialize_into_for(context, out)?;
        match append_zeros(self.padding, out) {
            Ok(zeros) => Ok(sent.saturating_add(zeros)),
            Err(error) => {
                out.truncate(at);
                Err(error)
            }
        }
    }
}

// Whether each byte is zero.
fn are_zeros(bytes: &[u8]) -> bool
    ensures { IsTrue result ↔ All (λ b. b ≡ 0) bytes.now }
{
    bytes.iter().all(|&byte| byte == 0)
}

/// Appends as many zeros. `InvalidVectorLength`: the vector would pass `isize::MAX` bytes.
/// `OutOfMemory`: allocation failed.
pub(crate) fn append_zeros(count: usize, out: &mut Vec<u8>) -> Result<usize, Error>
    ensures appends { AppendsForm zeros_format (Number count) out.old.items out.new.items result }
{
    if count > isize::MAX as usize - out.len() {
        return Err(Error::InvalidVectorLength);
    }
    let length = out.len() + count;
    out.resize(length, 0)?;
    Ok(count)
}
