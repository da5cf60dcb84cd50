//! [`Cases`], one of some cases that are told apart by their tags.
ghost use Rattle.std.specs.Prelude.{◌≡◌, ◌≤◌, ℕ, List, Bool, true, false, IfErr};
ghost use Rattle.tls_codec_wire.specs.Counts.{Counts};
ghost use Rattle.tls_codec_wire.specs.declared.error.Error.{Error};
ghost use Rattle.tls_codec_grammar.specs.Tree.{Join, Number, Tree};
ghost use Rattle.tls_codec_grammar.specs.Format.{fields_format, number_format};
ghost use Rattle.tls_codec_grammar.specs.Encoding.{AppendsForm, Writes};
ghost use Rattle.tls_codec_grammar.specs.Decoding.{Named};
ghost use Rattle.tls_codec_grammar.specs.Tagged.{MeetsVariantLaws, Variants};
ghost use Rattle.tls_codec_cases.specs.Choice.{ReadsParts, SplitsParts};

use crate::tag::Tag;
use std::alloc::Global;
use tls_codec_wire::{Error, Sink, Source};

/// Which tags there are.
pub trait Tags {
    // Which tags there are, and what comes after each.
    ghost variants: { Variants };

    /// Whether a case has this tag.
    fn has(tag: u64) -> bool
        ensures { result ≡ variants.has tag };
}

/// One of some cases, which are told apart by their tags.
pub trait Cases: Tags {
    // The tag of a value.
    ghost tag_of: { Self → ℕ };

    // What comes after it.
    ghost parts: { Self → Tree };

    // No two cases have one tag.
    ghost distinct: { Bool };

    // No tag is above this number.
    ghost within: { ℕ → Bool };

    // No tag is one of these.
    ghost avoid: { (ℕ → Bool) → Bool };

    /// Whether no two cases have one tag.
    fn are_distinct() -> bool
        ensures { result ≡ distinct };

    /// Whether no case's tag is above a number.
    fn are_within(most: u64) -> bool
        ensures { result ≡ within most };

    /// Whether no case has a tag of those others.
    fn avoids<Z: Tags>() -> bool
        ensures { result ≡ avoid Z.variants.has };

    /// The tag of the value.
    fn tag(&self) -> u64
        ensures { result ≡ tag_of self.now };

    /// The number of bytes of the parts after the tag, saturated at `usize::MAX`.
    fn parts_len(&self) -> usize
        requires { distinct ≡ true }
        ensures { result ≡ (Self.variants.parts (tag_of self.now)).announced (parts self.now) };

    ghost known: { (c : Self) → Self.variants.has (tag_of c) ≡ true };

    ghost fits: { (most : ℕ) (c : Self) → within most ≡ true → tag_of c ≤ most };

    ghost avoided: { (p : ℕ → Bool) (c : Self) → avoid p ≡ true → p (tag_of c) ≡ false };

    ghost meet: { MeetsVariantLaws Self.variants };
}

/// A sum that can be written.
pub trait WriteCases: Cases {
    /// Sends the parts after the tag.
    fn write_parts<W: Sink>(&self, writer: &mut W) -> Result<usize, Error>
        requires { Self.distinct ≡ true }
        ensures { Writes (Self.variants.parts (Self.tag_of self.now)) (Self.parts self.now) W.Sink
            writer.old writer.new result };

    /// Appends the parts after the tag; the vector is as it was after an error.
    fn append_parts(&self, out: &mut Vec<u8>) -> Result<usize, Error>
        requires { Self.distinct ≡ true }
        ensures { AppendsForm (Self.variants.parts (Self.tag_of self.now)) (Self.parts self.now)
            out.old.items out.new.items result };
}

/// A sum that can be read from a source.
pub trait ReadCases: Cases + Drop {
    // What is named after each tag.
    ghost source_names: { ℕ → List ℕ → Counts → Counts → Error → Type 0 };

    /// Reads the parts after a tag. `UnknownValue`: no case has it.
    fn read_parts<R: Source>(tag: u64, alloc: Global, src: &mut R) -> Result<Self, Error>
        ensures reads { ReadsParts Self.variants Self.tag_of Self.parts tag R.Source src.old src.new
            result }
        ensures named { IfErr result
            (Named (Self.variants.parts tag) (source_names tag) R.Source src.old src.new) };
}

/// A sum that can be read from a slice.
pub trait SplitCases: Cases + Drop {
    // What is named after each tag.
    ghost names: { ℕ → List ℕ → Error → Type 0 };

    /// Reads the parts after a tag, and returns the rest too. `UnknownValue`: no case has it.
    fn split_parts(tag: u64, alloc: Global, rest: &[u8]) -> Result<(Self, &[u8]), Error>
        ensures splits { SplitsParts Self.variants Self.tag_of Self.parts tag rest.now result }
        ensures named { IfErr result (names tag rest.now) };
}

/// Sends the tag of one of some cases as a `T`, and then its parts.
#[inline(always)]
pub fn write_tagged<T: Tag, C: WriteCases, W: Sink>(
    cases: &C,
    writer: &mut W,
) -> Result<usize, Error>
    requires distinct { C.distinct ≡ true }
    requires within { C.within T.most ≡ true }
    ensures { Writes (fields_format (number_format T.wide) (C.variants.parts (C.tag_of cases.now)))
        (Join (Number (C.tag_of cases.now)) (C.parts cases.now)) W.Sink writer.old writer.new
        result }
{
    let first = T::write_tag(cases.tag(), writer)?;
    let second = cases.write_parts(writer)?;
    Ok(first.saturating_add(second))
}

/// Appends the tag of one of some cases as a `T`, and then its parts.
#[inline(always)]
pub fn append_tagged<T: Tag, C: WriteCases>(cases: &C, out: &mut Vec<u8>) -> Result<usize, Error>
    requires distinct { C.distinct ≡ true }
    requires within { C.within T.most ≡ true }
    ensures { AppendsForm
        (fields_format (number_format T.wide) (C.variants.parts (C.tag_of cases.now)))
        (Join (Number (C.tag_of cases.now)) (C.parts cases.now)) out.old.items out.new.items
        result }
{
    let at = out.len();
    let first = T::append_tag(cases.tag(), out)?;
    match cases.append_parts(out) {
        Ok(second) => Ok(first.saturating_add(second)),
        Err(error) => {
            out.truncate(at);
            Err(error)
        }
    }
}
