//! Elements that fill a declared number of bytes, from a slice and from a source.
ghost use Rattle.std.specs.Prelude.{◌≡◌, ◌<◌, [], IfErr, IfOk, IsOkAnd};
ghost use Rattle.tls_codec_wire.specs.Seen.{RefusedFor};
ghost use Rattle.tls_codec_grammar.specs.Tree.{trees};
ghost use Rattle.tls_codec_grammar.specs.Format.{content_format, sized_format};
ghost use Rattle.tls_codec_grammar.specs.Decoding.{Named, Reads, Splits};
ghost use Rattle.tls_codec_base.specs.PartNames.{elements_names, elements_source_names};
ghost use Rattle.tls_codec_base.specs.Turns.{SourceTurnedRefused, TurnedEach, TurnedRefused, TurnedWithin, TurnedWithinGiven};

use crate::context::{DeserializeBytesFor, DeserializeFor};
use crate::lists::engines::coding::{Alone, In};
use crate::lists::{Turns, engines};
use crate::traits::{Deserialize, DeserializeBytes, Size};
use std::alloc::Global;
use tls_codec_wire::{Error, Source};

/// The elements that fill the first `length` bytes exactly, and the bytes after those.
///
/// Each element is read from all that is left of the bytes. Its own error is passed on.
/// `DecodingError("vector element consumed 0 bytes")`: an element's encoding is empty.
/// `DecodingError("elements do not fill the declared length")`: an element passes the declared end.
/// If `length` is 0, there is no element, no turn and no need of memory.
pub fn from_slice<'a, T: DeserializeBytes>(
    alloc: Global,
    bytes: &'a [u8],
    length: usize,
    turns: &mut Turns,
) -> Result<(Vec<T>, &'a [u8]), Error>
    ensures splits { Splits (sized_format length (content_format T.format))
        (λ elements. trees T.plain elements.items) bytes.now result }
    ensures named { IfErr result (elements_names T.format T.names length bytes.now) }
    ensures turned { IfOk result (λ found. TurnedEach found.0.items turns.old turns.new) }
    ensures turned_if_refused { IfErr result
        (TurnedRefused T.format.spells length bytes.now turns.old turns.new) }
    ensures turned_at_most { TurnedWithin length bytes.now turns.old turns.new }
    ensures nothing_asked { length ≡ 0
        → IsOkAnd result (λ found. (found.0.items ≡ []) × (found.1.now ≡ bytes.now))
        × (turns.new ≡ turns.old) }
{
    engines::split(&Alone, alloc, bytes, length, turns)
}

/// The elements that fill the next `length` bytes exactly. Only these bytes are taken.
///
/// Each element is read from a source that ends where the list does. Its own error is passed on; if
/// it passes the declared end, that is `EndOfStream`.
/// `DecodingError("vector element consumed 0 bytes")`: an element's encoding is empty. If `length`
/// is 0, there is no element, no turn and no need of memory, and the source isn't asked.
pub fn from_reader<T: Deserialize, R: Source>(
    alloc: Global,
    src: &mut R,
    length: usize,
    turns: &mut Turns,
) -> Result<Vec<T>, Error>
    ensures reads { Reads (sized_format length (content_format T.format))
        (λ elements. trees T.plain elements.items) R.Source src.old src.new result }
    ensures named { IfErr result
        (Named (sized_format length (content_format T.format))
        (elements_source_names T.format T.names length) R.Source src.old src.new) }
    ensures turned { IfOk result (λ elements. TurnedEach elements.items turns.old turns.new) }
    ensures turned_if_refused { IfErr result
        (RefusedFor R.Source (SourceTurnedRefused T.format.spells length turns.old turns.new)
        src.old src.new) }
    ensures turned_at_most { TurnedWithinGiven R.given length src.old src.new turns.old turns.new }
    ensures nothing_asked { length ≡ 0
        → IsOkAnd result (λ elements. elements.items ≡ [])
        × (src.new ≡ src.old)
        × (turns.new ≡ turns.old) }
{
    engines::read(&Alone, alloc, src, length, turns)
}

/// What [`from_slice`] does, of elements in a context.
pub fn from_slice_for<'a, C: Size, T: DeserializeBytesFor<C>>(
    context: &C,
    alloc: Global,
    bytes: &'a [u8],
    length: usize,
    turns: &mut Turns,
) -> Result<(Vec<T>, &'a [u8]), Error>
    ensures splits { Splits (sized_format length
        (content_format (T.format_for (C.plain context.now))))
        (λ elements. trees T.plain elements.items) bytes.now result }
    ensures named { IfErr result (elements_names (T.format_for (C.plain context.now))
        (T.names (C.plain context.now)) length bytes.now) }
    ensures turned { IfOk result (λ found. TurnedEach found.0.items turns.old turns.new) }
    ensures turned_if_refused { IfErr result
        (TurnedRefused (T.format_for (C.plain context.now)).spells length bytes.now turns.old
        turns.new) }
    ensures turned_at_most { TurnedWithin length bytes.now turns.old turns.new }
    ensures nothing_asked { length ≡ 0
        → IsOkAnd result (λ found. (found.0.items ≡ []) × (found.1.now ≡ bytes.now))
        × (turns.new ≡ turns.old) }
{
    engines::split(&In(context), alloc, bytes, length, turns)
}

/// What [`from_reader`] does, of elements in a context.
pub fn from_reader_for<C: Size, T: DeserializeFor<C>, R: Source>(
    context: &C,
    alloc: Global,
    src: &mut R,
    length: usize,
    turns: &mut Turns,
) -> Result<Vec<T>, Error>
    ensures reads { Reads (sized_format length
        (content_format (T.format_for (C.plain context.now))))
        (λ elements. trees T.plain elements.items) R.Source src.old src.new result }
    ensures named { IfErr result
        (Named (sized_format length (content_format (T.format_for (C.plain context.now))))
        (elements_source_names (T.format_for (C.plain context.now)) (T.names (C.plain context.now))
        length) R.Source src.old src.new) }
    ensures turned { IfOk result (λ elements. TurnedEach elements.items turns.old turns.new) }
    ensures turned_if_refused { IfErr result
        (RefusedFor R.Source (SourceTurnedRefused (T.format_for (C.plain context.now)).spells length
        turns.old turns.new)
        src.old src.new) }
    ensures turned_at_most { TurnedWithinGiven R.given length src.old src.new turns.old turns.new }
    ensures nothing_asked { length ≡ 0
        → IsOkAnd result (λ elements. elements.items ≡ [])
        × (src.new ≡ src.old)
        × (turns.new ≡ turns.old) }
{
    engines::read(&In(context), alloc, src, length, turns)
}
