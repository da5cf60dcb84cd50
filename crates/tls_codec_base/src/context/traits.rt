//! The four traits of a type whose encodings a context decides, and their contracts.
ghost use Rattle.std.specs.Prelude.{◌≡◌, ◌⊎◌, List, ℕ, IfErr};
ghost use Rattle.tls_codec_wire.specs.Counts.{Counts, no_counts};
ghost use Rattle.tls_codec_wire.specs.declared.error.Error.{Error};
ghost use Rattle.tls_codec_wire.specs.declared.error.Error.TheVariants.{TrailingData};
ghost use Rattle.tls_codec_grammar.specs.Tree.{Tree};
ghost use Rattle.tls_codec_grammar.specs.Format.{Format};
ghost use Rattle.tls_codec_grammar.specs.Lawful.{MeetsLaws};
ghost use Rattle.tls_codec_grammar.specs.Decoding.{LeavesBytes, Named, Reads, ReadsWhole, Splits};
ghost use Rattle.tls_codec_grammar.specs.Encoding.{AppendsForm, Makes, Writes};

use crate::traits::Size;
use std::alloc::Global;
use tls_codec_wire::{Error, Sink, Source};

/// A type whose values have encodings in a context `C`: what an earlier part of the message says,
/// or another struct.
///
/// A type may have several contexts. What [`laws`](crate::laws) say of a type with [`Size`] they say of
/// [`Then<C, T>`](crate::Then), a context and a value in it; so they hold in each context.
pub trait SizeFor<C: Size> {
    // What a value stands for.
    ghost plain: { Self → Tree };

    // What is said of its spellings, by what the context stands for.
    ghost format_for: { Tree → Format };

    /// The number of bytes of the value's canonical encoding in this context, saturated at
    /// `usize::MAX`.
    fn tls_serialized_len_for(&self, context: &C) -> usize
        ensures { result ≡ (format_for (C.plain context.now)).announced (plain self.now) };

    ghost lawful: { (c : Tree) → MeetsLaws (format_for c) };
}

/// A type that is written to a sink, in a context.
///
/// `EncodingError("value does not fit its context")`: the value isn't the one that the context asks
/// for, and has no encoding there.
pub trait SerializeFor<C: Size>: SizeFor<C> {
    /// Appends the value's canonical encoding in this context to what the sink has received, and
    /// returns how many bytes that is, saturated at `usize::MAX`.
    ///
    /// If a part doesn't fit, the sink may have received the parts before it, a vector too. After an error of
    /// [`tls_serialize_into_for`](SerializeFor::tls_serialize_into_for) a vector has the bytes from before.
    fn tls_serialize_for<W: Sink>(&self, context: &C, writer: &mut W) -> Result<usize, Error>
        ensures writes { Writes (Self.format_for (C.plain context.now)) (Self.plain self.now) W.Sink
            writer.old writer.new result };

    /// Appends the value's canonical encoding in this context to a vector, and returns how many
    /// bytes that is. After an error the vector has the bytes from before.
    fn tls_serialize_into_for(&self, context: &C, out: &mut Vec<u8>) -> Result<usize, Error>
        ensures appends { AppendsForm (Self.format_for (C.plain context.now)) (Self.plain self.now)
            out.old.items out.new.items result }
    {
        let at = out.len();
        match self.tls_serialize_for(context, out) {
            Ok(length) => Ok(length),
            Err(error) => {
                out.truncate(at);
                Err(error)
            }
        }
    }

    /// The value's canonical encoding in this context.
    final fn tls_serialize_detached_for(&self, context: &C, alloc: Global) -> Result<Vec<u8>, Error>
        ensures makes { Makes (Self.format_for (C.plain context.now)) (Self.plain self.now) result }
    {
        let mut bytes = Vec::new(alloc);
        self.tls_serialize_into_for(context, &mut bytes)?;
        Ok(bytes)
    }
}

/// A type that is read from a source, in a context.
pub trait DeserializeFor<C: Size>: SizeFor<C> + Drop {
    // Which errors are named, by what the context stands for, by the bytes that were seen, and by the counts.
    ghost names: { Tree → List ℕ → Counts → Counts → Error → Type 0 } = { λ c x old new e.
        Unit {0} };

    /// The value that the bytes to come begin with in this context. Only its encoding is taken.
    fn tls_deserialize_for<R: Source>(
        context: &C,
        alloc: Global,
        bytes: &mut R,
    ) -> Result<Self, Error>
        ensures reads { Reads (Self.format_for (C.plain context.now)) Self.plain R.Source bytes.old
            bytes.new result }
        ensures named { IfErr result (Named (Self.format_for (C.plain context.now))
            (names (C.plain context.now)) R.Source bytes.old bytes.new) };

    /// The value that all of the bytes encode in this context, read as from a source.
    ///
    /// `TrailingData`: a value was read, and a byte is left. Every other error is that of
    /// [`tls_deserialize_for`](DeserializeFor::tls_deserialize_for).
    final fn tls_deserialize_exact_for(
        context: &C,
        alloc: Global,
        bytes: &[u8],
    ) -> Result<Self, Error>
        ensures reads { ReadsWhole (Self.format_for (C.plain context.now)) Self.plain bytes.now
            result }
        ensures named { IfErr result
            (λ e. ((e ≡ TrailingData)
            × LeavesBytes (Self.format_for (C.plain context.now)).spells bytes.now)
            ⊎ names (C.plain context.now) bytes.now no_counts no_counts e) }
    {
        let mut rest = bytes;
        let value = Self::tls_deserialize_for(context, alloc, &mut rest)?;
        if !rest.is_empty() {
            return Err(Error::TrailingData);
        }
        Ok(value)
    }
}

/// A type that is read from a slice, in a context.
pub trait DeserializeBytesFor<C: Size>: SizeFor<C> + Drop {
    // Which errors are named, by what the context stands for and by the bytes.
    ghost names: { Tree → List ℕ → Error → Type 0 } = { λ c x e. Unit {0} };

    /// The value that the bytes begin with in this context, and the rest of them, which isn't copied.
    fn tls_deserialize_bytes_for<'a>(
        context: &C,
        alloc: Global,
        bytes: &'a [u8],
    ) -> Result<(Self, &'a [u8]), Error>
        ensures splits { Splits (Self.format_for (C.plain context.now)) Self.plain bytes.now
            result }
        ensures named { IfErr result (names (C.plain context.now) bytes.now) };

    /// The value that all of the bytes encode in this context.
    ///
    /// `TrailingData`: a value was read, and a byte is left. Every other error is that of
    /// [`tls_deserialize_bytes_for`](DeserializeBytesFor::tls_deserialize_bytes_for).
    final fn tls_deserialize_exact_bytes_for(
        context: &C,
        alloc: Global,
        bytes: &[u8],
    ) -> Result<Self, Error>
        ensures reads { ReadsWhole (Self.format_for (C.plain context.now)) Self.plain bytes.now
            result }
        ensures named { IfErr result
            (λ e. ((e ≡ TrailingData)
            × LeavesBytes (Self.format_for (C.plain context.now)).spells bytes.now)
            ⊎ names (C.plain context.now) bytes.now e) }
    {
        let (value, rest) = Self::tls_deserialize_bytes_for(context, alloc, bytes)?;
        if !rest.is_empty() {
            return Err(Error::TrailingData);
        }
        Ok(value)
    }
}
