//! Elements that fill a declared number of bytes, from a slice and from a source, however they are coded.
ghost use Rattle.std.specs.Prelude.{◌≡◌, ◌<◌, [], ◌∷◌, ◌++◌, is_ok, if◌then◌else◌, vec_capacity, vec_len, IfErr, IfOk, IsOkAnd, OnOk};
ghost use Rattle.tls_codec_wire.specs.Seen.{RefusedFor};
ghost use Rattle.tls_codec_grammar.specs.Tree.{trees};
ghost use Rattle.tls_codec_grammar.specs.Format.{content_format, sized_format};
ghost use Rattle.tls_codec_grammar.specs.Decoding.{Named, Reads, Splits};
ghost use Rattle.tls_codec_base.specs.PartNames.{elements_names, elements_source_names};
ghost use Rattle.tls_codec_base.specs.Filling.{FillsLimit};
ghost use Rattle.tls_codec_wire.specs.declared.error.Error.TheVariants.{OutOfMemory};
ghost use Rattle.tls_codec_base.specs.Turns.{SourceTurnedRefused, TurnedEach, TurnedRefused, TurnedWithin, TurnedWithinGiven};

use crate::error_texts::{NO_BYTES, NOT_FILLED};
use crate::lists::Turns;
use crate::lists::engines::coding::{ElementReader, ElementSplitter};
use std::alloc::{AllocError, Global};
use tls_codec_wire::{Bounded, Error, Source};

// How many elements a list has room for once it has one.
const FIRST_ROOM: usize = 4;

/// What [`from_slice`](crate::lists::from_slice) does.
pub(crate) fn split<'a, T: Drop, K: ElementSplitter<T>>(
    coding: &K,
    alloc: Global,
    bytes: &'a [u8],
    length: usize,
    turns: &mut Turns,
) -> Result<(Vec<T>, &'a [u8]), Error>
    ensures splits { Splits (sized_format length (content_format (K.format coding.now)))
        (λ elements. trees K.plain elements.items) bytes.now result }
    ensures named { IfErr result (elements_names (K.format coding.now) (K.names coding.now) length
        bytes.now) }
    ensures turned { IfOk result (λ found. TurnedEach found.0.items turns.old turns.new) }
    ensures turned_if_refused { IfErr result
        (TurnedRefused (K.format coding.now).spells length bytes.now turns.old turns.new) }
    ensures turned_at_most { TurnedWithin length bytes.now turns.old turns.new }
    ensures nothing_asked { length ≡ 0
        → IsOkAnd result (λ found. (found.0.items ≡ []) × (found.1.now ≡ bytes.now))
        × (turns.new ≡ turns.old) }
{
    if length > 0 && length <= bytes.len() {
        let (front, behind) = bytes.split_at(length);
        if let Some(elements) = coding.split_at_once(alloc, front)? {
            turns.turn_by(elements.len());
            return Ok((elements, behind));
        }
    }
    let mut elements = Vec::new(alloc);
    let mut rest = bytes;
    let mut left = length;
    while left > 0 {
        turns.turn();
        let (element, behind) = coding.split_element(alloc, rest)?;
        let taken = rest.len() - behind.len();
        if taken == 0 {
            return Err(NO_BYTES);
        }
        if taken > left {
            return Err(NOT_FILLED);
        }
        push_element(&mut elements, element)?;
        left -= taken;
        rest = behind;
    }
    Ok((elements, rest))
}

/// What [`from_reader`](crate::lists::from_reader) does.
pub(crate) fn read<T: Drop, K: ElementReader<T>, R: Source>(
    coding: &K,
    alloc: Global,
    src: &mut R,
    length: usize,
    turns: &mut Turns,
) -> Result<Vec<T>, Error>
    ensures reads { Reads (sized_format length (content_format (K.format coding.now)))
        (λ elements. trees K.plain elements.items) R.Source src.old src.new result }
    ensures named { IfErr result
        (Named (sized_format length (content_format (K.format coding.now)))
        (elements_source_names (K.format coding.now) (K.names coding.now) length) R.Source src.old
        src.new) }
    ensures turned { IfOk result (λ elements. TurnedEach elements.items turns.old turns.new) }
    ensures turned_if_refused { IfErr result
        (RefusedFor R.Source (SourceTurnedRefused (K.format coding.now).spells length turns.old
        turns.new)
        src.old src.new) }
    ensures turned_at_most { TurnedWithinGiven R.given length src.old src.new turns.old turns.new }
    ensures nothing_asked { length ≡ 0
        → IsOkAnd result (λ elements. elements.items ≡ [])
        × (src.new ≡ src.old)
        × (turns.new ≡ turns.old) }
{
    let mut within = Bounded::new(src, length as u64);
    elements_within(coding, alloc, &mut within, turns)
}

// The elements that fill what a source may still give.
fn elements_within<T: Drop, K: ElementReader<T>, R: Source>(
    coding: &K,
    alloc: Global,
    within: &mut Bounded<R>,
    turns: &mut Turns,
) -> Result<Vec<T>, Error>
    ensures { FillsLimit (K.format coding.now) K.plain (K.names coding.now) R.Source within.old
        within.new turns.old turns.new
        result }
{
    if within.limit() > 0 {
        if let Some(elements) = coding.read_at_once(alloc, within, turns)? {
            return Ok(elements);
        }
    }
    each_within(coding, alloc, within, turns)
}

// The same, one element after another.
fn each_within<T: Drop, K: ElementReader<T>, R: Source>(
    coding: &K,
    alloc: Global,
    within: &mut Bounded<R>,
    turns: &mut Turns,
) -> Result<Vec<T>, Error>
    ensures { FillsLimit (K.format coding.now) K.plain (K.names coding.now) R.Source within.old
        within.new turns.old turns.new
        result }
{
    let mut elements = Vec::new(alloc);
    'elements: while within.limit() > 0 {
        turns.turn();
        let before = within.limit();
        let element = coding.read_element(alloc, within)?;
        if within.limit() == before {
            return Err(NO_BYTES);
        }
        push_element(&mut elements, element)?;
    }
    Ok(elements)
}

// Appends an element. Room is checked once, and the first is requested without a call.
#[inline(always)]
fn push_element<T: Drop>(elements: &mut Vec<T>, element: T) -> Result<(), Error>
    ensures pushed { elements.new.items
        ≡ (if is_ok result then elements.old.items ++ element ∷ [] else elements.old.items) }
    ensures err { IfErr result (λ e. e ≡ OutOfMemory) }
    ensures first_room { vec_capacity elements.old ≡ 0
        → OnOk result (vec_capacity elements.new ≡ 4) }
    ensures room { vec_len elements.old < vec_capacity elements.old
        → vec_capacity elements.new ≡ vec_capacity elements.old }
{
    if elements.len() == elements.capacity() {
        reserve_element(elements)?;
    }
    elements.push_reserved(element);
    Ok(())
}

// Room for a further element: at first for as many as `push` requests if they are small.
#[inline(always)]
fn reserve_element<T: Drop>(elements: &mut Vec<T>) -> Result<(), AllocError>
    ensures kept { elements.new.items ≡ elements.old.items }
    ensures len { vec_len elements.new ≡ vec_len elements.old }
    ensures room { OnOk result (vec_len elements.new < vec_capacity elements.new) }
    ensures first_room { vec_capacity elements.old ≡ 0
        → OnOk result (vec_capacity elements.new ≡ 4) }
{
    if elements.capacity() == 0 {
        return elements.reserve_exact(FIRST_ROOM);
    }
    elements.reserve(1)
}
