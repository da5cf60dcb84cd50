//! The laws of options, products, lists and strings, each from the laws of its parts. Then:
//!
//! - what these laws mean for encodings, also of lists, and for which of them are canonical;
//! - that equal bytes are encoded alike, and what is left of a source that reports its bytes;
//! - that both decoders agree, and for which bytes a source is rejected;
//! - that encoders reject only a value without an encoding, and which values are full.
//!
//! The functions do nothing. Their contracts state the laws, and so are proved.
ghost use Rattle.std.specs.Prelude.{◌≡◌, ◌↔◌, ℕ, ◌<◌, ◌^◌, List, [], ◌++◌, length, Vec};
ghost use Rattle.std.specs.Global.{Global};
ghost use Rattle.std.specs.Io.KnownBytes.{Appends};
ghost use Rattle.tls_codec_wire.specs.Device.{IsPrefix};
ghost use Rattle.tls_codec_wire.specs.Digits.{AreBytes};
ghost use Rattle.tls_codec_grammar.specs.Tree.{Tree, Empty, Join, number_trees, trees};
ghost use Rattle.tls_codec_grammar.specs.Decoding.{Begins, ComesFirst, GaveSpelling, NoneBegins};
ghost use Rattle.tls_codec_grammar.specs.Encoding.{AppendsForm, Makes, Writes};
ghost use Rattle.tls_codec_grammar.specs.Field.{variable_field};
ghost use Rattle.tls_codec_grammar.specs.Format.{counted_bytes_format, counted_list_format, fields_format, fixed_list_format, list_format, nothing_format, option_format, text_format};
ghost use Rattle.tls_codec_grammar.specs.Lawful.{MeetsLaws};
ghost use Rattle.tls_codec_grammar.specs.Tagged.{no_variant, tagged_format, variant};
ghost use Rattle.tls_codec_grammar.specs.Grammar.{Concat, Counted, Direction, Reading, content, utf8};
ghost use Rattle.tls_codec_grammar.specs.Shortest.{IsFull, IsShortest};
ghost use Rattle.tls_codec_grammar.specs.Spelled.{BeginsWithOne, EachHasNonemptySpelling, FitTogether, HasReadingSpelling};

mod contexts;
mod encoders;
mod full;
mod paths;
mod sources;

use crate::traits::Size;
pub use contexts::contexts_are_lawful;
pub use encoders::encoders_refuse_only_what_has_no_form;
pub use full::{each_value_is_full, full_values_have_full_parts};
pub use paths::both_paths_agree;
pub use sources::sources_are_refused_for_what_they_show;
use tls_codec_grammar::LengthField;
use tls_codec_wire::{Sink, Source};

/// Formats of options, products, lists and choices with a tag meet the laws, if those of their parts do.
pub fn formats_are_lawful<T: Size, U: Size>()
    ensures options { MeetsLaws (option_format T.format) }
    ensures none { MeetsLaws nothing_format }
    ensures more { MeetsLaws (fields_format T.format U.format) }
    ensures lists { MeetsLaws (list_format T.format) }
    ensures fixed { (k : ℕ) → MeetsLaws (fixed_list_format k T.format) }
    ensures texts { MeetsLaws text_format }
    ensures choices { (k m n : ℕ)
        → k < 2 ^ 64
        → MeetsLaws (tagged_format k (variant m T.format (variant n U.format no_variant))) }
{}

/// No encoding of a type is a proper prefix of another, and bytes encode one value at most.
pub fn spellings_are_prefix_free<T: Size>()
    ensures prefix { (s t : List ℕ) (v w : Tree)
        → T.format.spells Reading s v
        → T.format.spells Reading t w
        → IsPrefix s t
        → s ≡ t }
    ensures value { (s : List ℕ) (v w : Tree)
        → T.format.spells Reading s v
        → T.format.spells Reading s w
        → v ≡ w }
{}

/// A list has an encoding exactly if each of its elements has one that isn't empty, and their
/// canonical encodings together have a number of bytes that its length field holds.
pub fn lists_are_spelled_where_their_elements_fit<F: LengthField, T: Size>()
    ensures { (v : Tree)
        → HasReadingSpelling (counted_list_format F.field T.format).spells v
        ↔ (EachHasNonemptySpelling T.format.spells v
        × FitTogether T.format.spells F.field.holds v) }
{}

/// The canonical encoding of a full value, whatever comes after it, begins with exactly one
/// encoding. That one is of this value, and leaves what comes after.
pub fn shortest_forms_are_read_back<T: Size>()
    ensures { (form rest : List ℕ) (v : Tree)
        → IsShortest T.format.spells form v
        → IsFull T.format.spells v
        → BeginsWithOne T.format.spells (form ++ rest) v rest }
{}

/// A proper prefix of the canonical encoding of a full value begins with no encoding. So if a sink
/// failed before the end, both decoders reject what it received.
pub fn forms_cut_short_have_no_spelling<T: Size>()
    ensures { (part form : List ℕ) (v : Tree)
        → IsShortest T.format.spells form v
        → IsFull T.format.spells v
        → IsPrefix part form
        → length part < length form
        → NoneBegins T.format.spells part }
{}

/// Whatever encodes a value, in either direction, is its canonical encoding: there is no other.
pub fn spellings_are_shortest_forms<T: Size>()
    ensures { (d : Direction) (s : List ℕ) (v : Tree)
        → T.format.spells d s v
        → IsShortest T.format.spells s v }
{}

/// Bytes that were read are the canonical encoding of the value that was read: any encoder that writes
/// that value again writes exactly these bytes (the round trip).
pub fn what_was_read_is_written_again<T: Size, R: Source, W: Sink>()
    ensures given { (old new : R) (form : List ℕ) (v : Tree)
        → GaveSpelling R.given T.format.spells old new v
        → IsShortest T.format.spells form v
        → R.given old form new }
    ensures made { (x rest : List ℕ) (v : Tree) (bytes : Vec ℕ Global)
        → Begins T.format.spells x v rest
        → Makes T.format v (Ok bytes)
        → x ≡ bytes.items ++ rest }
    ensures appended { (x rest old new : List ℕ) (v : Tree) (n : ℕ)
        (b : Begins T.format.spells x v rest)
        → AppendsForm T.format v old new (Ok n)
        → new ≡ old ++ b.front }
    ensures sent { (x rest : List ℕ) (v : Tree) (old new : W) (n : ℕ)
        (b : Begins T.format.spells x v rest)
        → Writes T.format v W.Sink old new (Ok n)
        → Appends (W.received old) (W.received new) b.front }
{}

/// If the elements of a list all have canonical encodings whose length its field doesn't hold, the
/// list is rejected before any of it is sent. So is a string of that many bytes.
pub fn contents_out_of_bounds_are_not_sent<F: LengthField, T: Size>()
    ensures lists { (form : List ℕ) (v : Tree)
        → IsShortest (content T.format.spells) form v
        → ¬ F.field.holds (length form)
        → (counted_list_format F.field T.format).out_of_bounds v }
    ensures texts { (form : List ℕ) (v : Tree)
        → IsShortest utf8 form v
        → ¬ variable_field.holds (length form)
        → text_format.out_of_bounds v }
{}

/// The shortest content is the elements' canonical encodings in a row.
pub fn shortest_contents_are_in_a_row<T: Size>()
    ensures none { (form : List ℕ) → IsShortest (content T.format.spells) form Empty ↔ (form ≡ []) }
    ensures more { (form : List ℕ) (v vs : Tree)
        → IsShortest (content T.format.spells) form (Join v vs)
        ↔ Concat form (λ a. IsShortest T.format.spells a v)
        (λ b. IsShortest (content T.format.spells) b vs) }
{}

/// After a length of one width, equal bytes have equal encodings, whatever type they are in: the
/// encodings of their number, and then the bytes.
pub fn equal_bytes_have_equal_spellings<F: LengthField>()
    ensures bytes { (d : Direction) (s contents : List ℕ)
        → AreBytes contents
        → ((counted_bytes_format F.field).spells d s (number_trees contents)
        ↔ Counted F.field.spells s (λ c. c ≡ contents)) }
    ensures lists { (d : Direction) (s contents : List ℕ)
        → AreBytes contents
        → ((counted_list_format F.field ⟦<u8 as Size>⟧.format).spells d s
        (trees ⟦<u8 as Size>⟧.plain contents)
        ↔ Counted F.field.spells s (λ c. c ≡ contents)) }
{}

/// If a source reports its bytes and has given just an encoding, the bytes that were to come begin
/// with that encoding, and what is to come now is the rest of them.
pub fn just_the_rest_is_to_come<T: Size, R: Source>()
    ensures { (old : R) (v : Tree) (new : R)
        → GaveSpelling R.given T.format.spells old new v
        → ComesFirst T.format.spells (R.coming old) v (R.coming new) }
{}
