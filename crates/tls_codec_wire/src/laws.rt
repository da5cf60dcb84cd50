//! What devices, errors and numbers stand for: what they report, become and are made of, and how
//! they are compared, ordered, hashed and copied.
//!
//! The functions do nothing, except that one returns two constants. Their contracts state this, and so
//! are proved.
ghost use Rattle.std.specs.Prelude.{◌≡◌, ◌≢◌, ◌↔◌, ◌-◌, ◌^◌, ◌<◌, ◌≤◌, ◌++◌, ℕ, IsTrue, List, Some, Vec, length, None};
ghost use Rattle.std.specs.Borrow.{Bor};
ghost use Rattle.std.specs.Global.{Global};
ghost use Rattle.std.specs.IoError.{error_kind};
ghost use Rattle.std.specs.Ordering.{nat_cmp};
ghost use Rattle.std.specs.Hash as fed;
ghost use Rattle.std.specs.declared.alloc.AllocError.{AllocError};
ghost use Rattle.std.specs.declared.array.TryFromSliceError.{TryFromSliceError};
ghost use Rattle.std.specs.declared.io.Error as io;
ghost use Rattle.std.specs.declared.io.ErrorKind.TheVariants.{UnexpectedEof};
ghost use Rattle.std.specs.declared.num.TryFromIntError.{TryFromIntError};
ghost use Rattle.tls_codec_wire.specs.Bounded.{first_bytes, inner_of, GaveWithin};
ghost use Rattle.tls_codec_wire.specs.Counts.{no_counts, only_shortages};
ghost use Rattle.tls_codec_wire.specs.Foreign.{IsIoError};
ghost use Rattle.tls_codec_wire.specs.Names.{AreSame};
ghost use Rattle.tls_codec_wire.specs.Outside.{GaveOutside, counts_of, wrapped};
ghost use Rattle.tls_codec_wire.specs.Seen.{Seen};
ghost use Rattle.tls_codec_wire.specs.Uint24 as uint24;
ghost use Rattle.tls_codec_wire.specs.VarintValue as varint;
ghost use Rattle.tls_codec_wire.specs.declared.bounded.Bounded.{Bounded};
ghost use Rattle.tls_codec_wire.specs.declared.device.Fault.{Fault};
ghost use Rattle.tls_codec_wire.specs.declared.device.Fill.{Fill};
ghost use Rattle.tls_codec_wire.specs.declared.error.Error.{Error};
ghost use Rattle.tls_codec_wire.specs.declared.error.Error.TheVariants.{EndOfStream, InvalidInput, InvalidVectorLength, LibraryError, OutOfMemory};
ghost use Rattle.tls_codec_wire.specs.declared.outside.Outside.{Outside};
ghost use Rattle.tls_codec_wire.specs.declared.uint24.U24.{U24};
ghost use Rattle.tls_codec_wire.specs.declared.varint.TlsVarInt.{TlsVarInt};

use crate::bounded::Bounded;
use crate::device::{Fault, Fill, Sink, Source};
use crate::error::Error;
use crate::outside::Outside;
use crate::transfer::MAX_INTERRUPTIONS;
use crate::uint24::U24;
use crate::varint::TlsVarInt;
use std::alloc::AllocError;
use std::array::TryFromSliceError;
use std::hash::Hash;
use std::io;
use std::io::{Read, Write};
use std::num::TryFromIntError;

// ---- what devices report

/// A wrapped reader reports the bytes that the reader reports. It has given what the reader lost,
/// and counts these bytes. Its counts are its own.
pub fn readers_outside_report_what_is_to_come<R: Read>()
    ensures coming { (s : Outside R) → ⟦<Outside<R> as Source>⟧.coming s ≡ R.remaining (wrapped s) }
    ensures counts { (s : Outside R) → ⟦<Outside<R> as Source>⟧.counts s ≡ counts_of s }
    ensures given { (a b : Outside R) (g : List ℕ) → ⟦<Outside<R> as Source>⟧.given a g b ↔
        GaveOutside R.remaining a g b }
{}

/// What a call has seen of a source is what was to come, if the source reports that. For a source
/// that never reports any, it is what was given. It is never less than what was given.
pub fn what_was_seen_was_reported_or_given<R: Source>()
    ensures reported { (old new : R) (x y : List ℕ)
        → Seen R.Source old new x
        → R.coming old ≡ Some y
        → x ≡ y }
    ensures unreported { (old new : R) (x : List ℕ) → Seen R.Source old new x
        → ((s : R) → R.coming s ≡ None) → R.given old x new }
    ensures more { (old new : R) (x : List ℕ) → Seen R.Source old new x
        → (g : List ℕ) × R.given old g new × (length g ≤ length x) }
{}

/// A wrapped writer reports the bytes that the writer reports. Its counts are its own.
pub fn writers_outside_report_what_was_received<W: Write>()
    ensures received { (s : Outside W) → ⟦<Outside<W> as Sink>⟧.received s
        ≡ W.contents (wrapped s) }
    ensures counts { (s : Outside W) → ⟦<Outside<W> as Sink>⟧.counts s ≡ counts_of s }
{}

/// 16 interruptions in a row are tried again.
pub fn interruptions_are_tried_again()
    ensures { MAX_INTERRUPTIONS ≡ 16 }
{}

/// A slice reports its bytes, has given those that it lost, and never fails.
pub fn slices_report_their_bytes()
    ensures coming { (s : Bor (List ℕ)) → ⟦<&'static [u8] as Source>⟧.coming s ≡ Some s.now }
    ensures counts { (s : Bor (List ℕ)) → ⟦<&'static [u8] as Source>⟧.counts s ≡ no_counts }
    ensures given { (a b : Bor (List ℕ)) (g : List ℕ) → ⟦<&'static [u8] as Source>⟧.given a g b
        ↔ (a.now ≡ g ++ b.now) }
{}

/// A vector reports the bytes that it holds, and fails for memory alone.
pub fn vectors_report_what_they_hold()
    ensures received { (v : Vec ℕ Global) → ⟦<Vec<u8> as Sink>⟧.received v ≡ Some v.items }
    ensures counts { (v : Vec ℕ Global) → ⟦<Vec<u8> as Sink>⟧.counts v ≡ only_shortages }
{}

/// The first bytes of a source are reported, given and counted by that source.
pub fn first_bytes_are_the_inner_sources<R: Source>()
    ensures coming { (b : Bounded R) → ⟦<Bounded<'static, R> as Source>⟧.coming b
        ≡ first_bytes R.coming b }
    ensures counts { (b : Bounded R) → ⟦<Bounded<'static, R> as Source>⟧.counts b
        ≡ R.counts (inner_of b) }
    ensures given { (a b : Bounded R) (g : List ℕ) → ⟦<Bounded<'static, R> as Source>⟧.given a g b
        ↔ GaveWithin R.given a g b }
{}

/// Two faults are equal if their variants are. A copy of a fault is that fault.
pub fn faults_are_compared_by_their_variants()
    ensures equal { (x y : Fault) → IsTrue (⟦<Fault as PartialEq>⟧.eq x y) ↔ (x ≡ y) }
    ensures copied { (x y : Fault) → ⟦<Fault as Clone>⟧.is_clone x y → y ≡ x }
{}

/// The same for the result of filling a buffer.
pub fn fills_are_compared_by_their_variants()
    ensures equal { (x y : Fill) → IsTrue (⟦<Fill as PartialEq>⟧.eq x y) ↔ (x ≡ y) }
    ensures copied { (x y : Fill) → ⟦<Fill as Clone>⟧.is_clone x y → y ≡ x }
{}

// ---- errors

/// Two errors are equal if their variants are, and the text or the number in them. A copy of an
/// error is that error.
pub fn errors_are_compared_by_their_parts()
    ensures equal { (x y : Error) → IsTrue (⟦<Error as PartialEq>⟧.eq x y) ↔ AreSame x y }
    ensures copied { (x y : Error) → ⟦<Error as Clone>⟧.is_clone x y → y ≡ x }
{}

/// What each error of std becomes. An `io::Error` is an early end or a failure of the device, by its
/// kind.
pub fn errors_of_std_become_errors()
    ensures memory { (x : AllocError) (e : Error)
        → ⟦<Error as From<AllocError>>⟧.from_gives x e → e ≡ OutOfMemory }
    ensures slice { (x : TryFromSliceError) (e : Error)
        → ⟦<Error as From<TryFromSliceError>>⟧.from_gives x e → e ≡ InvalidInput }
    ensures number { (x : TryFromIntError) (e : Error)
        → ⟦<Error as From<TryFromIntError>>⟧.from_gives x e → e ≡ InvalidVectorLength }
    ensures early_end { (x : io.Error) (e : Error) → ⟦<Error as From<io::Error>>⟧.from_gives x e
        → error_kind x ≡ UnexpectedEof → e ≡ EndOfStream }
    ensures device { (x : io.Error) (e : Error) → ⟦<Error as From<io::Error>>⟧.from_gives x e
        → error_kind x ≢ UnexpectedEof → IsIoError e }
{}

// ---- numbers

/// Two `U24` are equal if their numbers are, and a copy of one has its number.
pub fn uint24s_are_compared_by_their_numbers()
    ensures equal { (x y : U24)
        → IsTrue (⟦<U24 as PartialEq>⟧.eq x y)
        ↔ (uint24.number_of x ≡ uint24.number_of y) }
    ensures copied { (x y : U24) → ⟦<U24 as Clone>⟧.is_clone x y → y ≡ x }
{}

/// Each number of 24 bits makes a `U24`, no other does, and the `U24` makes that number again. The
/// default is 0.
pub fn uint24s_are_made_of_their_numbers()
    ensures made { (n : ℕ) (x : U24) → ⟦<U24 as TryFrom<usize>>⟧.try_from_gives n (Ok x)
        → (uint24.number_of x ≡ n) × (n < 2 ^ 24) }
    ensures refused { (n : ℕ) (e : Error) → ⟦<U24 as TryFrom<usize>>⟧.try_from_gives n (Err e)
        → (e ≡ LibraryError) × (2 ^ 24 ≤ n) }
    ensures taken { (x : U24) (n : ℕ) → ⟦<usize as From<U24>>⟧.from_gives x n
        → (n ≡ uint24.number_of x) × (n < 2 ^ 24) }
    ensures default { (x : U24) → ⟦<U24 as Default>⟧.is_default x → uint24.number_of x ≡ 0 }
{}

/// The least `U24` is 0, and the greatest 2^24 - 1. Both are returned, since no clause can name them.
pub fn least_and_greatest_uint24() -> (U24, U24)
    ensures least { uint24.number_of result.0 ≡ 0 }
    ensures greatest { uint24.number_of result.1 ≡ 2 ^ 24 - 1 }
{
    (U24::MIN, U24::MAX)
}

/// Two `TlsVarInt` are equal if their numbers are. They are ordered as these, and hashed as the
/// number is. A copy of one has its number.
pub fn varints_are_compared_by_their_numbers()
    ensures equal { (x y : TlsVarInt)
        → IsTrue (⟦<TlsVarInt as PartialEq>⟧.eq x y)
        ↔ (varint.number_of x ≡ varint.number_of y) }
    ensures ordered { (x y : TlsVarInt)
        → ⟦<TlsVarInt as Ord>⟧.cmp x y ≡ nat_cmp (varint.number_of x) (varint.number_of y) }
    ensures partly { (x y : TlsVarInt)
        → ⟦<TlsVarInt as PartialOrd>⟧.partial_cmp x y
        ≡ Some (nat_cmp (varint.number_of x) (varint.number_of y)) }
    ensures hashed { (x : TlsVarInt)
        → ⟦<TlsVarInt as Hash>⟧.hash_input x ≡ fed.u64 (varint.number_of x) }
    ensures copied { (x y : TlsVarInt) → ⟦<TlsVarInt as Clone>⟧.is_clone x y → y ≡ x }
{}

/// Each number below 2^62 makes a `TlsVarInt`, no other does, and the `TlsVarInt` makes that number
/// again.
pub fn varints_are_made_of_their_numbers()
    ensures made { (n : ℕ) (x : TlsVarInt) → ⟦<TlsVarInt as TryFrom<u64>>⟧.try_from_gives n (Ok x)
        → (varint.number_of x ≡ n) × (n < 2 ^ 62) }
    ensures refused { (n : ℕ) (e : Error) → ⟦<TlsVarInt as TryFrom<u64>>⟧.try_from_gives n (Err e)
        → (e ≡ InvalidVectorLength) × (2 ^ 62 ≤ n) }
    ensures taken { (x : TlsVarInt) (n : ℕ) → ⟦<u64 as From<TlsVarInt>>⟧.from_gives x n
        → (n ≡ varint.number_of x) × (n < 2 ^ 62) }
    ensures greatest { TlsVarInt.MAX ≡ 2 ^ 62 - 1 }
{}
