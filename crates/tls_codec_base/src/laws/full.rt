//! Which values are full: those that have a canonical encoding and hold no nonempty list of a
//! hollow type.
ghost use Rattle.std.specs.Prelude.{◌≡◌, ◌↔◌, ◌⊎◌, ℕ, List};
ghost use Rattle.tls_codec_grammar.specs.Format.{array_format, counted_bytes_format, counted_list_format, nothing_format, number_format, option_format, pair_format, text_format, triple_format, varint_format, with_memory};
ghost use Rattle.tls_codec_grammar.specs.Grammar.{Reading};
ghost use Rattle.tls_codec_grammar.specs.Shortest.{IsFull, IsHollow, IsShortest};
ghost use Rattle.tls_codec_grammar.specs.Tagged.{no_variant, tagged_format, variant};
ghost use Rattle.tls_codec_grammar.specs.Tree.{Tree, Number, Empty, Join};
ghost use Rattle.tls_codec_base.specs.Full.{EachIsFull, IsFullIf};

use crate::traits::Size;
use tls_codec_grammar::LengthField;

/// Numbers, arrays, integers, units, byte vectors and strings are always full.
pub fn each_value_is_full<F: LengthField>()
    ensures numbers { (k : ℕ) (v : Tree) → IsFull (number_format k).spells v }
    ensures arrays { (k : ℕ) (v : Tree) → IsFull (array_format k).spells v }
    ensures integers { (v : Tree) → IsFull varint_format.spells v }
    ensures units { (v : Tree) → IsFull nothing_format.spells v }
    ensures bytes { (v : Tree) → IsFull (counted_bytes_format F.field).spells v }
    ensures texts { (v : Tree) → IsFull text_format.spells v }
{}

/// A value that has a canonical encoding is full exactly if that is read as it. Options, pairs,
/// triples, boxes and choices with a tag are full exactly if their parts are. A list is full
/// exactly if it is empty, or its elements are full and their type isn't hollow.
pub fn full_values_have_full_parts<F: LengthField, T: Size, U: Size, V: Size>()
    ensures read { (form : List ℕ) (v : Tree) → IsShortest T.format.spells form v
        → (IsFull T.format.spells v ↔ T.format.spells Reading form v) }
    ensures none { IsFull (option_format T.format).spells Empty }
    ensures some { (v : Tree) → IsFullIf
        (option_format T.format).spells (Join v Empty) (IsFull T.format.spells v) }
    ensures pairs { (v w : Tree) → IsFullIf
        (pair_format T.format U.format).spells (Join v (Join w Empty))
        (IsFull T.format.spells v × IsFull U.format.spells w) }
    ensures triples { (v w z : Tree) → IsFullIf
        (triple_format T.format U.format V.format).spells (Join v (Join w (Join z Empty)))
        (IsFull T.format.spells v × IsFull U.format.spells w × IsFull V.format.spells z) }
    ensures boxes { (v : Tree) → IsFullIf
        (with_memory T.format).spells v (IsFull T.format.spells v) }
    ensures choices { (k m n tag : ℕ) (vs : Tree)
        → let variants = variant m T.format (variant n U.format no_variant) in IsFullIf
        (tagged_format k variants).spells (Join (Number tag) vs)
        (IsFull (variants.parts tag).spells vs) }
    ensures lists { (v : Tree) → IsFullIf
        (counted_list_format F.field T.format).spells v
        ((v ≡ Empty) ⊎ (¬ IsHollow T.format.spells × EachIsFull T.format.spells v)) }
{}
