//! How the elements of a list are coded: [`Alone`], or [`In`] a context.
ghost use Rattle.std.specs.Prelude.{◌≡◌, List, ℕ, IfErr, IfSome};
ghost use Rattle.tls_codec_wire.specs.Bounded.{BorrowAlike};
ghost use Rattle.tls_codec_wire.specs.Counts.{Counts};
ghost use Rattle.tls_codec_wire.specs.declared.error.Error.{Error};
ghost use Rattle.tls_codec_grammar.specs.Tree.{Tree, trees};
ghost use Rattle.tls_codec_grammar.specs.Format.{Format};
ghost use Rattle.tls_codec_grammar.specs.Lawful.{MeetsLaws};
ghost use Rattle.tls_codec_base.specs.PartNames.{NamedWithin};
ghost use Rattle.tls_codec_base.specs.Turns.{TurnedAll};
ghost use Rattle.tls_codec_grammar.specs.Decoding.{AllGiven, AllRead, Named, Reads, Splits};
ghost use Rattle.tls_codec_grammar.specs.Encoding.{AllSent, AppendsForm, Writes};

use crate::lists::Turns;
use std::alloc::Global;
use tls_codec_wire::{Bounded, Error, Sink, Source};

mod alone;
mod in_context;

pub(crate) use alone::Alone;
pub(crate) use in_context::In;

/// A way in which elements have encodings.
pub(crate) trait ElementCoding<T> {
    // What an element stands for.
    ghost plain: { T → Tree };

    // What is said of its spellings.
    ghost format: { Self → Format };

    /// The number of bytes of the element's canonical encoding, saturated at `usize::MAX`.
    fn element_len(&self, element: &T) -> usize
        ensures { result ≡ (format self.now).announced (plain element.now) };

    /// The number of bytes of each element's canonical encoding, if all have the same number.
    /// `None` if they don't, or if that isn't known.
    fn fixed_len(&self) -> Option<usize>
        ensures { IfSome result (λ n. (v : T) → (format self.now).announced (plain v) ≡ n) };

    /// Sends the elements' canonical encodings in a row. `None` if such elements are sent one by
    /// one; then nothing is sent.
    fn send_at_once<W: Sink>(&self, elements: &[T], sink: &mut W) -> Result<Option<usize>, Error>
        ensures { AllSent (format self.now) (trees plain elements.now) W.Sink sink.old sink.new
            result };

    ghost lawful: { (coding : Self) → MeetsLaws (format coding) };
}

/// A way in which elements are written.
pub(crate) trait ElementWriter<T>: ElementCoding<T> {
    /// Sends the element's canonical encoding.
    fn write_element<W: Sink>(&self, element: &T, sink: &mut W) -> Result<usize, Error>
        ensures writes { Writes (Self.format self.now) (Self.plain element.now) W.Sink sink.old
            sink.new result };

    /// Appends the element's canonical encoding to a vector. After an error the vector has the
    /// bytes from before.
    fn append_element(&self, element: &T, out: &mut Vec<u8>) -> Result<usize, Error>
        ensures appends { AppendsForm (Self.format self.now) (Self.plain element.now) out.old.items
            out.new.items result };
}

/// A way in which elements are read from a source.
pub(crate) trait ElementReader<T>: ElementCoding<T> {
    // Which errors are named, by the bytes that were seen and by the counts before and after.
    ghost names: { Self → List ℕ → Counts → Counts → Error → Type 0 };

    /// The element that the bytes to come begin with. Only its encoding is taken.
    fn read_element<R: Source>(&self, alloc: Global, bytes: &mut R) -> Result<T, Error>
        ensures reads { Reads (Self.format self.now) Self.plain R.Source bytes.old bytes.new
            result }
        ensures named { IfErr result
            (Named (Self.format self.now) (names self.now) R.Source bytes.old bytes.new) };

    /// The elements that fill what a source may still give. Each element is a turn. `None` if such
    /// elements are read one by one; then nothing is taken.
    fn read_at_once<R: Source>(
        &self,
        alloc: Global,
        within: &mut Bounded<R>,
        turns: &mut Turns,
    ) -> Result<Option<Vec<T>>, Error>
        ensures same { BorrowAlike within.old within.new }
        ensures reads { AllGiven (Self.format self.now) Self.plain R.Source within.old within.new
            result }
        ensures named { IfErr result
            (NamedWithin (Self.format self.now) (names self.now) R.Source within.old within.new) }
        ensures turned { TurnedAll (Self.format self.now).spells R.Source within.old within.new
            turns.old turns.new result };
}

/// A way in which elements are read from a slice.
pub(crate) trait ElementSplitter<T>: ElementCoding<T> {
    // Which errors are named, by the bytes.
    ghost names: { Self → List ℕ → Error → Type 0 };

    /// The element that the bytes begin with, and the rest of them.
    fn split_element<'a>(&self, alloc: Global, bytes: &'a [u8]) -> Result<(T, &'a [u8]), Error>
        ensures splits { Splits (Self.format self.now) Self.plain bytes.now result }
        ensures named { IfErr result (names self.now bytes.now) };

    /// The elements that all of these bytes encode in a row. `None` if such elements are read one
    /// by one.
    fn split_at_once(&self, alloc: Global, bytes: &[u8]) -> Result<Option<Vec<T>>, Error>
        ensures { AllRead (Self.format self.now) Self.plain bytes.now result };
}
