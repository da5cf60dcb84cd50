//! Worked examples of the definitions: what is an encoding, and what isn't.
ghost use Rattle.std.specs.Prelude.{◌≡◌, ℕ, List, [], ◌∷◌, ◌++◌};
ghost use Rattle.tls_codec_wire.specs.Varint.{LaidOut, VectorLength};
ghost use Rattle.tls_codec_grammar.specs.Tree.{Tree, Number, Empty, Join, number_trees};
ghost use Rattle.tls_codec_grammar.specs.Grammar.{Direction, Reading, Writing, array, content, fixed_list, list, nothing, number, option, pair, text, varint};
ghost use Rattle.tls_codec_grammar.specs.Field.{bounded_field, fixed_field};
ghost use Rattle.tls_codec_grammar.specs.Format.{counted_list_format, fields_format, nothing_format, number_format};
ghost use Rattle.tls_codec_grammar.specs.Lawful.{IsLengthField};
ghost use Rattle.tls_codec_grammar.specs.Tagged.{no_variant, tagged, variant};
ghost use Rattle.tls_codec_grammar.specs.Shortest.{HasNoSpelling, IsFull, IsHollow, IsShortest};

/// Does nothing: its contract states the examples, and so they are proved.
pub fn examples()
    ensures number_too_great { HasNoSpelling (number 1) (Number 256) }
    ensures no_wide_integer { (d : Direction) (n : ℕ) → varint d (0x40 ∷ 0x25 ∷ []) (Number n) → ⊥ }
    ensures shortest_varint { IsShortest varint (0x25 ∷ []) (Number 37) }
    ensures integer_of_31_bits { varint Reading
        (0xc0 ∷ 0x00 ∷ 0x00 ∷ 0x00 ∷ 0x40 ∷ 0x00 ∷ 0x00 ∷ 0x00 ∷ []) (Number 1073741824) }
    ensures no_length_of_31_bits { (n : ℕ)
        → VectorLength (0xc0 ∷ 0x00 ∷ 0x00 ∷ 0x00 ∷ 0x40 ∷ 0x00 ∷ 0x00 ∷ 0x00 ∷ []) n
        → ⊥ }
    ensures no_wide_length { (n : ℕ) → VectorLength (0x40 ∷ 0x00 ∷ []) n → ⊥ }
    ensures none { option (number 2) Reading (0x00 ∷ []) Empty }
    ensures some { option (number 2) Reading (0x01 ∷ 0x00 ∷ 0x07 ∷ []) (Join (Number 7) Empty) }
    ensures some_spelled_once { (s : List ℕ)
        → option (number 2) Writing s (Join (Number 7) Empty)
        → s ≡ 0x01 ∷ 0x00 ∷ 0x07 ∷ [] }
    ensures no_third_option { (d : Direction) (s : List ℕ) (v : Tree)
        → option (number 2) d (0x02 ∷ s) v
        → ⊥ }
    ensures tag_and_its_part { tagged 1
        (variant 2 (fields_format (number_format 2) nothing_format) no_variant) Reading
        (0x02 ∷ 0x00 ∷ 0x07 ∷ []) (Join (Number 2) (Join (Number 7) Empty)) }
    ensures no_other_tag { (d : Direction) (s : List ℕ) (v : Tree)
        → tagged 1 (variant 2 (fields_format (number_format 2) nothing_format) no_variant) d
        (0x03 ∷ s) v
        → ⊥ }
    ensures pair_with_option { pair (number 1) (option (number 2)) Reading
        (0x05 ∷ 0x01 ∷ 0x01 ∷ 0x02 ∷ []) (Join (Number 5) (Join (Join (Number 258) Empty) Empty)) }
    ensures fixed_list_of_two { fixed_list 1 (number 2) Reading
        (0x04 ∷ 0x00 ∷ 0x01 ∷ 0x00 ∷ 0x02 ∷ []) (Join (Number 1) (Join (Number 2) Empty)) }
    ensures no_half_element { (d : Direction) (front rest : List ℕ) (v : Tree)
        → fixed_list 1 (number 2) d front v
        → front ++ rest ≡ 0x03 ∷ 0x00 ∷ 0x01 ∷ 0x00 ∷ 0x02 ∷ []
        → ⊥ }
    ensures list_on_its_floor { (counted_list_format (bounded_field 2 65534 (fixed_field 2))
        (number_format 2)).spells
        Reading (0x00 ∷ 0x02 ∷ 0x13 ∷ 0x01 ∷ []) (Join (Number 0x1301) Empty) }
    ensures no_list_below_its_floor { HasNoSpelling
        (counted_list_format (bounded_field 2 65534 (fixed_field 2)) (number_format 2)).spells
        Empty }
    ensures shortest_list { IsShortest (list (number 1)) (0x01 ∷ 0xaa ∷ [])
        (Join (Number 0xaa) Empty) }
    ensures no_field_of_any_width { (width : ℕ → ℕ) → IsLengthField LaidOut width → ⊥ }
    ensures no_wide_list { (d : Direction) (v : Tree)
        → list (number 1) d (0x40 ∷ 0x01 ∷ 0xaa ∷ []) v
        → ⊥ }
    ensures text_of_one_character { text Reading (0x02 ∷ 0xc3 ∷ 0xbc ∷ [])
        (number_trees (0xc3 ∷ 0xbc ∷ [])) }
    ensures surrogate_is_no_text { (d : Direction) (v : Tree)
        → text d (0x03 ∷ 0xed ∷ 0xa0 ∷ 0x80 ∷ []) v
        → ⊥ }
    ensures empty_array_is_hollow { IsHollow (array 0) }
    ensures empty_element_is_written { content nothing Writing [] (Join Empty Empty) }
    ensures empty_element_is_not_read { content nothing Reading [] (Join Empty Empty) → ⊥ }
    ensures shortest_list_of_nothing { IsShortest (list nothing) (0x00 ∷ []) (Join Empty Empty) }
    ensures list_of_nothing_is_not_full { IsFull (list nothing) (Join Empty Empty) → ⊥ }
{}
