//! [`Tag`], an unsigned integer that distinguishes the cases of a sum.
ghost use Rattle.std.specs.Prelude.{◌≡◌, ◌<◌, ◌≤◌, ◌^◌, ℕ, IfErr, length};
ghost use Rattle.std.proofs.Common.{arith};
ghost use Rattle.tls_codec_wire.specs.Transfer.{ReadRefused};
ghost use Rattle.tls_codec_wire.specs.declared.error.Error.TheVariants.{EndOfStream};
ghost use Rattle.tls_codec_grammar.specs.Tree.{Number};
ghost use Rattle.tls_codec_grammar.specs.Format.{number_format};
ghost use Rattle.tls_codec_grammar.specs.Encoding.{AppendsForm, Writes};
ghost use Rattle.tls_codec_grammar.specs.Decoding.{Named, Reads, Splits};

use std::alloc::Global;
use tls_codec_base::{Deserialize, DeserializeBytes, Serialize};
use tls_codec_wire::{Error, Sink, Source};

/// An unsigned integer as a tag.
pub trait Tag: Copy {
    // How many bytes it has.
    ghost wide: { ℕ };

    // The greatest.
    ghost most: { ℕ };

    // The number that it is.
    ghost number: { Self → ℕ };

    /// How many bytes it has.
    fn width() -> usize
        ensures { result ≡ wide };

    /// The greatest tag of this width.
    fn greatest() -> u64
        ensures { result ≡ most };

    /// The number that it is.
    fn number(&self) -> u64
        ensures { result ≡ number self.now };

    /// The tag that is this number.
    fn of_number(tag: u64) -> Self
        requires { tag ≤ most }
        ensures { number result ≡ tag };

    /// Sends a tag, most significant byte first.
    fn write_tag<W: Sink>(tag: u64, writer: &mut W) -> Result<usize, Error>
        requires { tag ≤ most }
        ensures { Writes (number_format wide) (Number tag) W.Sink writer.old writer.new result };

    /// Appends a tag, most significant byte first.
    fn append_tag(tag: u64, out: &mut Vec<u8>) -> Result<usize, Error>
        requires { tag ≤ most }
        ensures { AppendsForm (number_format wide) (Number tag) out.old.items out.new.items
            result };

    /// Reads a tag from a source.
    fn read_tag<R: Source>(alloc: Global, src: &mut R) -> Result<u64, Error>
        ensures reads { Reads (number_format wide) Number R.Source src.old src.new result }
        ensures named { IfErr result
            (Named (number_format wide) (ReadRefused wide) R.Source src.old src.new) };

    /// Reads a tag from a slice, and returns the rest too.
    fn split_tag(alloc: Global, whole: &[u8]) -> Result<(u64, &[u8]), Error>
        ensures splits { Splits (number_format wide) Number whole.now result }
        ensures named { IfErr result (λ e. (e ≡ EndOfStream) × (length whole.now < wide)) };

    ghost small: { wide < 2 ^ 64 };
}

impl Tag for u8 {
    ghost wide = { 1 };

    ghost most = { 255 };

    ghost number = { λ tag. tag };

    fn width() -> usize {
        1
    }

    fn greatest() -> u64 {
        255
    }

    #[inline(always)]
    fn number(&self) -> u64 {
        u64::from(*self)
    }

    #[inline(always)]
    fn of_number(tag: u64) -> u8 {
        tag as u8
    }

    #[inline(always)]
    fn write_tag<W: Sink>(tag: u64, writer: &mut W) -> Result<usize, Error> {
        (tag as u8).tls_serialize(writer)
    }

    #[inline(always)]
    fn append_tag(tag: u64, out: &mut Vec<u8>) -> Result<usize, Error> {
        (tag as u8).tls_serialize_into(out)
    }

    #[inline(always)]
    fn read_tag<R: Source>(alloc: Global, src: &mut R) -> Result<u64, Error> {
        let tag = u8::tls_deserialize(alloc, src)?;
        Ok(u64::from(tag))
    }

    #[inline(always)]
    fn split_tag(alloc: Global, whole: &[u8]) -> Result<(u64, &[u8]), Error> {
        let (tag, rest) = u8::tls_deserialize_bytes(alloc, whole)?;
        Ok((u64::from(tag), rest))
    }

    ghost small = { Prim.omega arith };
}

impl Tag for u16 {
    ghost wide = { 2 };

    ghost most = { 0xffff };

    ghost number = { λ tag. tag };

    fn width() -> usize {
        2
    }

    fn greatest() -> u64 {
        0xffff
    }

    #[inline(always)]
    fn number(&self) -> u64 {
        u64::from(*self)
    }

    #[inline(always)]
    fn of_number(tag: u64) -> u16 {
        tag as u16
    }

    #[inline(always)]
    fn write_tag<W: Sink>(tag: u64, writer: &mut W) -> Result<usize, Error> {
        (tag as u16).tls_serialize(writer)
    }

    #[inline(always)]
    fn append_tag(tag: u64, out: &mut Vec<u8>) -> Result<usize, Error> {
        (tag as u16).tls_serialize_into(out)
    }

    #[inline(always)]
    fn read_tag<R: Source>(alloc: Global, src: &mut R) -> Result<u64, Error> {
        let tag = u16::tls_deserialize(alloc, src)?;
        Ok(u64::from(tag))
    }

    #[inline(always)]
    fn split_tag(alloc: Global, whole: &[u8]) -> Result<(u64, &[u8]), Error> {
        let (tag, rest) = u16::tls_deserialize_bytes(alloc, whole)?;
        Ok((u64::from(tag), rest))
    }

    ghost small = { Prim.omega arith };
}
