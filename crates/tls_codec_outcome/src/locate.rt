//! Where the parts of a message are.
ghost use Rattle.std.specs.Prelude.{◌≡◌, ℕ, List};
ghost use Rattle.tls_codec_grammar.specs.Format.{Format, counted_bytes_format, pair_format, triple_format};
ghost use Rattle.tls_codec_grammar.specs.Lawful.{MeetsLaws};
ghost use Rattle.tls_codec_grammar.specs.laws.FormatLaws.{counted_bytes_meets, pair_meets, triple_meets};
ghost use Rattle.tls_codec_outcome.specs.Ends.{EndsAt, content_ends, field_ends, pair_ends, triple_ends};
ghost use Rattle.tls_codec_outcome.specs.Fields.{BeginsAt, IsContentFrom, IsFieldFrom, span_end};

use crate::fields::{Span, content_at, field_at};
use std::marker::PhantomData;
use tls_codec_base::LengthField;
use tls_codec_validate::Validate;

/// A part of a message. Its place can be found. A tuple of parts is one too: they come one after
/// another.
pub trait Locate {
    /// Its place; of a tuple those of its parts.
    type Places;

    // What is said of its spellings.
    ghost format: { Format };

    // Where it ends.
    ghost end: { Self.Places → ℕ };

    // These are the places of what begins at an offset in some bytes.
    ghost are_places: { List ℕ → ℕ → Self.Places → Type 0 };

    /// The places of the part that begins at an offset, and where it ends. If none begins there, they are any.
    fn locate(bytes: &[u8], from: usize) -> (Self::Places, usize)
        ensures places { BeginsAt format bytes.now from → are_places bytes.now from result.0 }
        ensures end { BeginsAt format bytes.now from → result.1 ≡ end result.0 };

    ghost lawful: { MeetsLaws format };

    ghost ends: { (bytes : List ℕ) (from : ℕ) (places : Self.Places)
        → are_places bytes from places → EndsAt format bytes from (end places) };
}

/// A field, with its length if it has one.
pub struct Field<T> {
    of: PhantomData<T>,
}

/// The bytes after a length: an `opaque` field without it.
pub struct Content<F> {
    of: PhantomData<F>,
}

impl<T: Validate> Locate for Field<T> {
    type Places = Span;

    ghost format = { T.format };

    ghost end = { span_end };

    ghost are_places = { IsFieldFrom T.format };

    fn locate(bytes: &[u8], from: usize) -> (Span, usize) {
        let span = field_at::<T>(bytes, from);
        (span, span.end())
    }

    ghost lawful = { T.lawful };

    ghost ends = { field_ends T.format };
}

impl<F: LengthField> Locate for Content<F> {
    type Places = Span;

    ghost format = { counted_bytes_format F.field };

    ghost end = { span_end };

    ghost are_places = { IsContentFrom F.field };

    fn locate(bytes: &[u8], from: usize) -> (Span, usize) {
        let span = content_at::<F>(bytes, from);
        (span, span.end())
    }

    ghost lawful = { counted_bytes_meets F.lawful };

    ghost ends = { content_ends F.field };
}

impl<T: Locate, U: Locate> Locate for (T, U) {
    type Places = (T::Places, U::Places);

    ghost format = { pair_format T.format U.format };

    ghost end = { λ p. U.end p.1 };

    ghost are_places = { λ x from p. T.are_places x from p.0
        × U.are_places x (T.end p.0) p.1 };

    fn locate(bytes: &[u8], from: usize) -> (Self::Places, usize) {
        let (first, middle) = T::locate(bytes, from);
        let (second, end) = U::locate(bytes, middle);
        ((first, second), end)
    }

    ghost lawful = { pair_meets T.lawful U.lawful };

    ghost ends = { λ x from p are. pair_ends T.format U.format x from (T.end p.0) (U.end p.1)
        (T.ends x from p.0 are.0) (U.ends x (T.end p.0) p.1 are.1) };
}

impl<T: Locate, U: Locate, V: Locate> Locate for (T, U, V) {
    type Places = (T::Places, U::Places, V::Places);

    ghost format = { triple_format T.format U.format V.format };

    ghost end = { λ p. V.end p.2 };

    ghost are_places = { λ x from p. T.are_places x from p.0
        × U.are_places x (T.end p.0) p.1
        × V.are_places x (U.end p.1) p.2 };

    fn locate(bytes: &[u8], from: usize) -> (Self::Places, usize) {
        let (first, middle) = T::locate(bytes, from);
        let ((second, third), end) = <(U, V)>::locate(bytes, middle);
        ((first, second, third), end)
    }

    ghost lawful = { triple_meets T.lawful U.lawful V.lawful };

    ghost ends = { λ x from p are. triple_ends T.format U.format V.format x from (T.end p.0)
        (U.end p.1) (V.end p.2) (T.ends x from p.0 are.0) (U.ends x (T.end p.0) p.1 are.1)
        (V.ends x (U.end p.1) p.2 are.2) };
}
