//! The five traits of a type with an encoding, and their contracts.
ghost use Rattle.std.specs.Prelude.{◌≡◌, ◌⊎◌, List, ℕ, IfErr, IfSome, IsErrAnd};
ghost use Rattle.tls_codec_wire.specs.Bounded.{BorrowAlike};
ghost use Rattle.tls_codec_wire.specs.Counts.{Counts, no_counts};
ghost use Rattle.tls_codec_wire.specs.declared.error.Error.{Error};
ghost use Rattle.tls_codec_wire.specs.declared.error.Error.TheVariants.{InvalidVectorLength, OutOfMemory, TrailingData};
ghost use Rattle.tls_codec_grammar.specs.Tree.{Tree, trees};
ghost use Rattle.tls_codec_grammar.specs.Format.{Format};
ghost use Rattle.tls_codec_grammar.specs.Lawful.{MeetsLaws};
ghost use Rattle.tls_codec_base.specs.PartNames.{NamedWithin};
ghost use Rattle.tls_codec_base.specs.Turns.{TurnedAll};
ghost use Rattle.tls_codec_grammar.specs.Decoding.{AllGiven, AllRead, LeavesBytes, Named, Reads, ReadsWhole, Splits};
ghost use Rattle.tls_codec_grammar.specs.Encoding.{AllSent, AppendsForm, Makes, Writes};

use crate::lists::Turns;
use std::alloc::Global;
use tls_codec_wire::{Bounded, Error, Sink, Source};

/// A type whose values have encodings in bytes.
///
/// For contracts it carries what a value stands for, and its format: which bytes encode it, its
/// announced length, and which errors there are if no bytes do.
pub trait Size {
    // What a value stands for.
    ghost plain: { Self → Tree };

    // What is said of its spellings.
    ghost format: { Format };

    /// The number of bytes of the value's canonical encoding, saturated at `usize::MAX`.
    fn tls_serialized_len(&self) -> usize
        ensures { result ≡ format.announced (plain self.now) };

    /// The number of bytes of each value's canonical encoding, if all values have the same number.
    /// `None` if they don't, or if that isn't known.
    ///
    /// Provided. A type of fixed width may return it; then lengths of its lists need no sums.
    fn tls_fixed_len() -> Option<usize>
        ensures { IfSome result (λ n. (v : Self) → format.announced (plain v) ≡ n) }
    {
        None
    }

    /// Sends the elements' canonical encodings in a row, and returns how many bytes that is,
    /// saturated at `usize::MAX`. `None` if such elements are sent one by one; then nothing is
    /// sent.
    ///
    /// Provided. A type of fixed width may do it at once, and every list then goes through here.
    fn tls_send_elements<W: Sink>(elements: &[Self], sink: &mut W) -> Result<Option<usize>, Error>
        ensures { AllSent format (trees plain elements.now) W.Sink sink.old sink.new result }
    {
        Ok(None)
    }

    ghost lawful: { MeetsLaws format };
}

/// A type that is written to a sink.
pub trait Serialize: Size {
    /// Appends the value's canonical encoding to what the sink has received, and returns how many
    /// bytes that is, saturated at `usize::MAX`.
    fn tls_serialize<W: Sink>(&self, writer: &mut W) -> Result<usize, Error>
        ensures writes { Writes Self.format (Self.plain self.now) W.Sink writer.old writer.new
            result }
        ensures out_of_bounds { Self.format.out_of_bounds (Self.plain self.now)
            → (result ≡ Err InvalidVectorLength) × (writer.new ≡ writer.old) };

    /// Appends the value's canonical encoding to a vector, and returns how many bytes that is.
    /// After an error the vector has the bytes from before.
    fn tls_serialize_into(&self, out: &mut Vec<u8>) -> Result<usize, Error>
        ensures appends { AppendsForm Self.format (Self.plain self.now) out.old.items out.new.items
            result }
        ensures out_of_bounds { Self.format.out_of_bounds (Self.plain self.now)
            → IsErrAnd result
            (λ e. (e ≡ OutOfMemory) ⊎ Self.format.refuses (Self.plain self.now) e) }
    {
        let at = out.len();
        match self.tls_serialize(out) {
            Ok(length) => Ok(length),
            Err(error) => {
                out.truncate(at);
                Err(error)
            }
        }
    }

    /// The value's canonical encoding.
    final fn tls_serialize_detached(&self, alloc: Global) -> Result<Vec<u8>, Error>
        ensures makes { Makes Self.format (Self.plain self.now) result }
        ensures out_of_bounds { Self.format.out_of_bounds (Self.plain self.now)
            → IsErrAnd result
            (λ e. (e ≡ OutOfMemory) ⊎ Self.format.refuses (Self.plain self.now) e) }
    {
        let mut bytes = Vec::new(alloc);
        self.tls_serialize_into(&mut bytes)?;
        Ok(bytes)
    }
}

/// A type that is written to a vector of its own.
pub trait SerializeBytes: Size {
    /// The value's canonical encoding.
    fn tls_serialize_bytes(&self, alloc: Global) -> Result<Vec<u8>, Error>
        ensures makes { Makes Self.format (Self.plain self.now) result }
        ensures out_of_bounds { Self.format.out_of_bounds (Self.plain self.now)
            → IsErrAnd result
            (λ e. (e ≡ OutOfMemory) ⊎ Self.format.refuses (Self.plain self.now) e) };
}

/// A type that is read from a source.
pub trait Deserialize: Size + Drop {
    // Which errors are named, by the bytes that were seen and by the counts before and after.
    ghost names: { List ℕ → Counts → Counts → Error → Type 0 } = { λ x old new e. Unit {0} };

    /// The value that the bytes to come begin with. Only its encoding is taken.
    fn tls_deserialize<R: Source>(alloc: Global, bytes: &mut R) -> Result<Self, Error>
        ensures reads { Reads Self.format Self.plain R.Source bytes.old bytes.new result }
        ensures named { IfErr result (Named Self.format names R.Source bytes.old bytes.new) };

    /// The value that all of the bytes encode, read as from a source.
    ///
    /// `TrailingData`: a value was read, and a byte is left. Every other error is that of
    /// [`tls_deserialize`](Deserialize::tls_deserialize).
    final fn tls_deserialize_exact(alloc: Global, bytes: &[u8]) -> Result<Self, Error>
        ensures reads { ReadsWhole Self.format Self.plain bytes.now result }
        ensures named { IfErr result
            (λ e. ((e ≡ TrailingData) × LeavesBytes Self.format.spells bytes.now)
            ⊎ names bytes.now no_counts no_counts e) }
    {
        let mut rest = bytes;
        let value = Self::tls_deserialize(alloc, &mut rest)?;
        if !rest.is_empty() {
            return Err(Error::TrailingData);
        }
        Ok(value)
    }

    /// The elements that fill what a source may still give. Each element is a turn. `None` if such
    /// elements are read one by one; then nothing is taken.
    ///
    /// Provided. A type of fixed width may do it at once, and every list then goes through here. If
    /// the list is rejected, the attempt that failed is a turn too.
    fn tls_read_elements<R: Source>(
        _alloc: Global,
        within: &mut Bounded<R>,
        turns: &mut Turns,
    ) -> Result<Option<Vec<Self>>, Error>
        ensures same { BorrowAlike within.old within.new }
        ensures reads { AllGiven Self.format Self.plain R.Source within.old within.new result }
        ensures named { IfErr result
            (NamedWithin Self.format names R.Source within.old within.new) }
        ensures turned { TurnedAll Self.format.spells R.Source within.old within.new turns.old
            turns.new result }
    {
        Ok(None)
    }
}

/// A type that is read from a slice.
pub trait DeserializeBytes: Size + Drop {
    // Which errors are named, by the bytes.
    ghost names: { List ℕ → Error → Type 0 } = { λ x e. Unit {0} };

    /// The value that the bytes begin with, and the rest of them, which isn't copied.
    fn tls_deserialize_bytes(alloc: Global, bytes: &[u8]) -> Result<(Self, &[u8]), Error>
        ensures splits { Splits Self.format Self.plain bytes.now result }
        ensures named { IfErr result (names bytes.now) };

    /// The value that all of the bytes encode.
    ///
    /// `TrailingData`: a value was read, and a byte is left. Every other error is that of
    /// [`tls_deserialize_bytes`](DeserializeBytes::tls_deserialize_bytes).
    final fn tls_deserialize_exact_bytes(alloc: Global, bytes: &[u8]) -> Result<Self, Error>
        ensures reads { ReadsWhole Self.format Self.plain bytes.now result }
        ensures named { IfErr result
            (λ e. ((e ≡ TrailingData) × LeavesBytes Self.format.spells bytes.now)
            ⊎ names bytes.now e) }
    {
        let (value, rest) = Self::tls_deserialize_bytes(alloc, bytes)?;
        if !rest.is_empty() {
            return Err(Error::TrailingData);
        }
        Ok(value)
    }

    /// The elements that all of these bytes encode in a row. `None` if such elements are read one
    /// by one.
    ///
    /// Provided. A type of fixed width may do it at once, and every list then goes through here.
    /// `OutOfMemory`: allocation failed, and the bytes begin with an element.
    fn tls_elements(_alloc: Global, bytes: &[u8]) -> Result<Option<Vec<Self>>, Error>
        ensures { AllRead Self.format Self.plain bytes.now result }
    {
        Ok(None)
    }
}
