//! Lengths sent to a sink, appended to a vector, and put before a content that is already there.
ghost use Rattle.std.specs.Prelude.{◌≡◌, ◌<◌, ◌≤◌, ◌⊎◌, ◌^◌, ◌+◌, ◌-◌, [], ◌∷◌, ◌++◌, length, vec_len, vec_capacity, take, drop, max, is_ok, ◌*◌, IsOk, if◌then◌else◌, IfErr, IfOk, OnErr, OnOk};
ghost use Rattle.tls_codec_wire.specs.Counts.{NoneFell, OnlyInterrupted};
ghost use Rattle.tls_codec_wire.specs.Numbers.{BeganNumber, SentNumber};
ghost use Rattle.tls_codec_wire.specs.declared.error.Error.TheVariants.{InvalidVectorLength, OutOfMemory};
ghost use Rattle.tls_codec_grammar.specs.Field.{LengthNotSent};
ghost use Rattle.tls_codec_grammar.specs.Gaps.{FilledGap, FitGap, GapRefused, OpenedGap};

use super::LengthField;
use std::alloc::AllocError;
use tls_codec_wire::vlen::insert_bytes;
use tls_codec_wire::{Error, Sink, write_all};

// How many bytes a vector that grows has room for at least.
const LEAST_ROOM: usize = 8;

/// Sends a length, and returns how many bytes it has.
///
/// `InvalidVectorLength`: the field doesn't hold it, and nothing was sent. Every other error is the
/// sink's, as in [`write_all`].
pub fn write_length<F: LengthField, W: Sink>(
    sink: &mut W,
    content_length: usize,
) -> Result<usize, Error>
    ensures ok { IfOk result
        (SentNumber F.field.spells (W.received sink.old) (W.received sink.new) content_length) }
    ensures beginning { F.field.holds content_length
        → BeganNumber F.field.spells (W.received sink.old) (W.received sink.new) content_length }
    ensures counts { NoneFell (W.counts sink.old) (W.counts sink.new) }
    ensures refused { IfErr result
        (LengthNotSent F.field content_length (W.counts sink.old) (W.counts sink.new)) }
    ensures retried { OnOk result (OnlyInterrupted (W.counts sink.old) (W.counts sink.new)) }
    ensures out_of_bounds { (¬ F.field.holds content_length)
        → (result ≡ Err InvalidVectorLength) × (sink.new ≡ sink.old) }
{
    let Some(found) = F::form(content_length) else {
        return Err(Error::InvalidVectorLength);
    };
    let (bytes, at) = found;
    let form = &bytes[at..];
    write_all(sink, form)?;
    Ok(form.len())
}

/// Leaves a gap of `width` bytes for a length that isn't known yet, and requests room for `room` bytes
/// after it. An error: there was no memory for both, and the bytes are as they were.
#[inline(always)]
pub fn open_gap(out: &mut Vec<u8>, width: usize, room: usize) -> Result<(), AllocError>
    requires { width ≤ 8 }
    ensures ok { OnOk result (OpenedGap out.old.items out.new.items width) }
    ensures room { OnOk result (vec_len out.new + room ≤ vec_capacity out.new) }
    ensures kept { OnErr result (out.new.items ≡ out.old.items) }
{
    reserve_more(out, width.saturating_add(room))?;
    let empty = [0u8; 8];
    append_few(out, &empty[..width])
}

/// Appends a few bytes and then others, and requests room once. One, two or four bytes are stored
/// without a call.
#[inline(always)]
pub(crate) fn append_both(out: &mut Vec<u8>, few: &[u8], bytes: &[u8]) -> Result<(), AllocError>
    ensures { out.new.items
        ≡ (if is_ok result then out.old.items ++ (few.now ++ bytes.now) else out.old.items) }
{
    match few.len() {
        1 => append_with_room(out, &few[..1], bytes),
        2 => append_with_room(out, &few[..2], bytes),
        4 => append_with_room(out, &few[..4], bytes),
        _ => append_with_room(out, few, bytes),
    }
}

// Appends a few bytes and then others, and requests room once.
#[inline(always)]
fn append_with_room(out: &mut Vec<u8>, few: &[u8], bytes: &[u8]) -> Result<(), AllocError>
    ensures { out.new.items
        ≡ (if is_ok result then out.old.items ++ (few.now ++ bytes.now) else out.old.items) }
{
    reserve_more(out, few.len().saturating_add(bytes.len()))?;
    append_few(out, few)?;
    if bytes.is_empty() {
        return Ok(());
    }
    out.extend_from_slice(bytes)
}

// Requests room for `more` further bytes. A vector that has none yet gets exactly as much, without a call.
#[inline(always)]
fn reserve_more(out: &mut Vec<u8>, more: usize) -> Result<(), AllocError>
    ensures items { out.new.items ≡ out.old.items }
    ensures room { OnOk result (vec_len out.new + more ≤ vec_capacity out.new) }
    ensures most { vec_capacity out.new
        ≤ max 8 (max (2 * vec_capacity out.old) (vec_len out.old + more)) }
{
    if more <= out.capacity() - out.len() {
        return Ok(());
    }
    if out.capacity() == 0 {
        return out.reserve_exact(more);
    }
    double_room(out, more)
}

// The same by at least twice the room, and room for 8 bytes. It is kept out of what appends to a vector that has
// the room.
#[cold]
#[inline(never)]
fn double_room(out: &mut Vec<u8>, more: usize) -> Result<(), AllocError>
    ensures items { out.new.items ≡ out.old.items }
    ensures room { OnOk result (vec_len out.new + more ≤ vec_capacity out.new) }
    ensures most { vec_capacity out.new
        ≤ max 8 (max (2 * vec_capacity out.old) (vec_len out.old + more)) }
{
    let room = out.capacity().saturating_mul(2).max(LEAST_ROOM);
    out.reserve_exact(more.max(room - out.len()))
}

// Appends a few bytes. One, two or four are stored without a call.
#[inline(always)]
fn append_few(out: &mut Vec<u8>, bytes: &[u8]) -> Result<(), AllocError>
    ensures items { out.new.items
        ≡ (if is_ok result then out.old.items ++ bytes.now else out.old.items) }
    ensures room { vec_capacity out.old ≤ vec_capacity out.new }
{
    match bytes.len() {
        1 => append_one(out, bytes[0]),
        2 => out.extend_from_slice(&bytes[..2]),
        4 => out.extend_from_slice(&bytes[..4]),
        _ => out.extend_from_slice(bytes),
    }
}

// Appends a byte.
#[inline(always)]
fn append_one(out: &mut Vec<u8>, byte: u8) -> Result<(), AllocError>
    ensures items { out.new.items
        ≡ (if is_ok result then out.old.items ++ byte ∷ [] else out.old.items) }
    ensures room { vec_capacity out.old ≤ vec_capacity out.new }
{
    match out.push(byte) {
        Ok(()) => Ok(()),
        Err(_) => Err(AllocError),
    }
}

/// Puts the length of the bytes after a gap into the gap, and returns how many bytes the length
/// has. The bytes after the gap are moved only if the gap has another width.
///
/// `InvalidVectorLength`: the field doesn't hold their number, or the vector would pass
/// `isize::MAX` bytes. `OutOfMemory`: allocation failed for a wider length. After an error the
/// bytes before the gap are as they were.
#[inline(always)]
pub fn fill_gap<F: LengthField>(out: &mut Vec<u8>, at: usize, gap: usize) -> Result<usize, Error>
    requires { at + gap ≤ vec_len out.old }
    ensures ok { IfOk result (λ width. FilledGap F.field out.old.items out.new.items at gap width) }
    ensures kept { OnErr result (take at out.new.items ≡ take at out.old.items) }
    ensures refused { IfErr result
        (GapRefused F.field at (length out.old.items - (at + gap))) }
    ensures nothing_asked { F.field.width (length out.old.items - (at + gap)) ≤ gap
        → IfErr result (λ e. e ≡ InvalidVectorLength) }
{
    let content_length = out.len() - at - gap;
    let Some(found) = F::form(content_length) else {
        return Err(Error::InvalidVectorLength);
    };
    let (bytes, from) = found;
    let form = &bytes[from..];
    fill_with(out, at, gap, form)?;
    Ok(form.len())
}

// Puts these bytes into a gap. If they are not as many as it has, moves what comes after it. One, two or
// four bytes are stored without a call.
#[inline(always)]
fn fill_with(out: &mut Vec<u8>, at: usize, gap: usize, form: &[u8]) -> Result<(), Error>
    requires place { at + gap ≤ vec_len out.old }
    requires small { length form.now ≤ 8 }
    ensures ok { OnOk result
        (out.new.items ≡ take at out.old.items ++ (form.now ++ drop (at + gap) out.old.items)) }
    ensures kept { OnErr result (out.new.items ≡ out.old.items) }
    ensures err { IfErr result
        (λ e. (e ≡ OutOfMemory)
        ⊎ ((e ≡ InvalidVectorLength)
        × (2 ^ 63 ≤ length out.old.items - gap + length form.now))) }
    ensures nothing_asked { length form.now ≤ gap → IsOk result }
{
    match form.len() {
        1 => fit_and_put(out, at, gap, &form[..1]),
        2 => fit_and_put(out, at, gap, &form[..2]),
        4 => fit_and_put(out, at, gap, &form[..4]),
        _ => fit_and_put(out, at, gap, form),
    }
}

// The same, whatever their number.
#[inline(always)]
fn fit_and_put(out: &mut Vec<u8>, at: usize, gap: usize, form: &[u8]) -> Result<(), Error>
    requires place { at + gap ≤ vec_len out.old }
    requires small { length form.now ≤ 8 }
    ensures ok { OnOk result
        (out.new.items ≡ take at out.old.items ++ (form.now ++ drop (at + gap) out.old.items)) }
    ensures kept { OnErr result (out.new.items ≡ out.old.items) }
    ensures err { IfErr result
        (λ e. (e ≡ OutOfMemory)
        ⊎ ((e ≡ InvalidVectorLength)
        × (2 ^ 63 ≤ length out.old.items - gap + length form.now))) }
    ensures nothing_asked { length form.now ≤ gap → IsOk result }
{
    if form.len() != gap {
        fit_gap(out, at, gap, form.len())?;
    }
    overwrite(out, at, form);
    Ok(())
}

// Makes a gap as wide as this, and moves what comes after it.
#[inline(always)]
fn fit_gap(out: &mut Vec<u8>, at: usize, gap: usize, width: usize) -> Result<(), Error>
    requires place { at + gap ≤ vec_len out.old }
    requires small { width ≤ 8 }
    ensures ok { OnOk result (FitGap out.old.items out.new.items at gap width) }
    ensures kept { OnErr result (out.new.items ≡ out.old.items) }
    ensures err { IfErr result
        (λ e. (e ≡ OutOfMemory)
        ⊎ ((e ≡ InvalidVectorLength) × (2 ^ 63 ≤ length out.old.items - gap + width))) }
    ensures nothing_asked { width ≤ gap
        → IsOk result × (vec_capacity out.new ≡ vec_capacity out.old) }
{
    if width <= gap {
        remove_bytes(out, at + width, gap - width);
        return Ok(());
    }
    widen_gap(out, at + gap, width - gap)?;
    Ok(())
}

// Moves what comes after the place `at` by `more` bytes.
fn widen_gap(out: &mut Vec<u8>, at: usize, more: usize) -> Result<(), Error>
    requires place { at ≤ vec_len out.old }
    requires small { more ≤ 8 }
    ensures ok { OnOk result (FitGap out.old.items out.new.items at 0 more) }
    ensures kept { OnErr result (out.new.items ≡ out.old.items) }
    ensures err { IfErr result
        (λ e. (e ≡ OutOfMemory)
        ⊎ ((e ≡ InvalidVectorLength) × (2 ^ 63 ≤ length out.old.items + more))) }
{
    if more > isize::MAX as usize - out.len() {
        return Err(Error::InvalidVectorLength);
    }
    match more {
        1 => insert_gap(out, at, 1),
        2 => insert_gap(out, at, 2),
        _ => insert_gap(out, at, more),
    }
}

// Moves what comes after the place `at` by `width` bytes: at once, if that is a constant.
#[inline(always)]
fn insert_gap(out: &mut Vec<u8>, at: usize, width: usize) -> Result<(), Error>
    requires place { at ≤ vec_len out.old }
    requires small { width ≤ 8 }
    ensures ok { OnOk result (FitGap out.old.items out.new.items at 0 width) }
    ensures kept { OnErr result (out.new.items ≡ out.old.items) }
    ensures err { IfErr result (λ e. e ≡ OutOfMemory) }
{
    let empty = [0u8; 8];
    insert_bytes(out, at, &empty[..width])?;
    Ok(())
}

// Takes `count` bytes out of a vector, from the place `at` on.
#[inline(always)]
fn remove_bytes(out: &mut Vec<u8>, at: usize, count: usize)
    requires { at + count ≤ vec_len out.old }
    ensures items { out.new.items ≡ take at out.old.items ++ drop (at + count) out.old.items }
    ensures room { vec_capacity out.new ≡ vec_capacity out.old }
{
    match count {
        0 => {}
        1 => remove_byte(out, at),
        _ => remove_more(out, at, count),
    }
}

// The same for any count. It is kept out of what takes one byte out.
#[inline(never)]
fn remove_more(out: &mut Vec<u8>, at: usize, count: usize)
    requires { at + count ≤ vec_len out.old }
    ensures items { out.new.items ≡ take at out.old.items ++ drop (at + count) out.old.items }
    ensures room { vec_capacity out.new ≡ vec_capacity out.old }
{
    match count {
        2 => cut_out(out, at, 2),
        _ => cut_out(out, at, count),
    }
}

// Takes a byte out of a vector. If few come after it, they are moved without a call.
#[inline(never)]
fn remove_byte(out: &mut Vec<u8>, at: usize)
    requires { at < vec_len out.old }
    ensures items { out.new.items ≡ take at out.old.items ++ drop (at + 1) out.old.items }
    ensures room { vec_capacity out.new ≡ vec_capacity out.old }
{
    match out.len() - at - 1 {
        1 => close_up(out, at, 1),
        2 => close_up(out, at, 2),
        3 => close_up(out, at, 3),
        4 => close_up(out, at, 4),
        5 => close_up(out, at, 5),
        6 => close_up(out, at, 6),
        7 => close_up(out, at, 7),
        8 => close_up(out, at, 8),
        _ => {
            let _ = out.remove(at);
        }
    }
}

// Moves the last `count` bytes of a vector one place down, onto the place `at`: at once, if `count` is a
// constant.
#[inline(always)]
fn close_up(out: &mut Vec<u8>, at: usize, count: usize)
    requires { at + 1 + count ≡ vec_len out.old }
    ensures items { out.new.items ≡ take at out.old.items ++ drop (at + 1) out.old.items }
    ensures room { vec_capacity out.new ≡ vec_capacity out.old }
{
    out.copy_within(at + 1..at + 1 + count, at);
    out.truncate(at + count);
}

// Takes `count` bytes out of a vector, from the place `at` on: at once, if `count` is a constant.
#[inline(always)]
fn cut_out(out: &mut Vec<u8>, at: usize, count: usize)
    requires { at + count ≤ vec_len out.old }
    ensures items { out.new.items ≡ take at out.old.items ++ drop (at + count) out.old.items }
    ensures room { vec_capacity out.new ≡ vec_capacity out.old }
{
    let end = out.len();
    out.copy_within(at + count..end, at);
    out.truncate(end - count);
}

// Writes bytes over those of a vector from the place `at` on.
#[inline(always)]
fn overwrite(out: &mut Vec<u8>, at: usize, bytes: &[u8])
    requires { at + length bytes.now ≤ vec_len out.old }
    ensures { out.new.items
        ≡ take at out.old.items
        ++ (bytes.now ++ drop (at + length bytes.now) out.old.items) }
{
    out[at..at + bytes.len()].copy_from_slice(bytes);
}
