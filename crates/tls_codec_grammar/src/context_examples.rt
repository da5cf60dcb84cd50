//! Worked examples of formats that a context decides, and of what goes up to an end.
ghost use Rattle.std.specs.Prelude.{[], ◌∷◌};
ghost use Rattle.tls_codec_grammar.specs.Tree.{Tree, Number, Empty, Join};
ghost use Rattle.tls_codec_grammar.specs.Grammar.{Direction, Reading};
ghost use Rattle.tls_codec_grammar.specs.Field.{fixed_field};
ghost use Rattle.tls_codec_grammar.specs.Format.{fields_format, nothing_format, number_format};
ghost use Rattle.tls_codec_grammar.specs.Lawful.{IsLawful, MeetsLaws, MeetsLawsInside};
ghost use Rattle.tls_codec_grammar.specs.Shortest.{HasNoSpelling};
ghost use Rattle.tls_codec_grammar.specs.Tagged.{no_variant, variant};
ghost use Rattle.tls_codec_grammar.specs.Contexts.{chosen_format, is_number, present_format, then_format};
ghost use Rattle.tls_codec_grammar.specs.Inside.{enclosed_format, zeros, zeros_format, zeros_length};

/// Does nothing: its contract states the examples, and so they are proved.
///
/// After a byte 1 a `uint16` follows; a select has it under the tag 2; a length of one byte encloses it.
pub fn context_examples()
    ensures first_decides { (then_format (number_format 1)
        (λ c. present_format (is_number 1 c) (number_format 2))).spells
        Reading (0x01 ∷ 0x00 ∷ 0x07 ∷ []) (Join (Number 1) (Join (Number 7) Empty)) }
    ensures first_leaves_out { (then_format (number_format 1)
        (λ c. present_format (is_number 1 c) (number_format 2))).spells
        Reading (0x02 ∷ []) (Join (Number 2) Empty) }
    ensures what_does_not_fit_is_not_spelled { HasNoSpelling (then_format (number_format 1)
        (λ c. present_format (is_number 1 c) (number_format 2))).spells
        (Join (Number 1) Empty) }
    ensures pair_is_lawful { MeetsLaws (then_format (number_format 1)
        (λ c. present_format (is_number 1 c) (number_format 2))) }
    ensures tag_is_elsewhere { (chosen_format 2
        (variant 2 (fields_format (number_format 2) nothing_format) no_variant)).spells
        Reading (0x00 ∷ 0x07 ∷ []) (Join (Number 2) (Join (Number 7) Empty)) }
    ensures other_variant_is_not_spelled { HasNoSpelling (chosen_format 3
        (variant 2 (fields_format (number_format 2) nothing_format) no_variant)).spells
        (Join (Number 2) (Join (Number 7) Empty)) }
    ensures length_encloses { (enclosed_format (fixed_field 1) (number_format 2)).spells Reading
        (0x02 ∷ 0x00 ∷ 0x07 ∷ []) (Number 7) }
    ensures nothing_is_left_inside { (d : Direction) (v : Tree)
        → (enclosed_format (fixed_field 1) (number_format 2)).spells d
        (0x03 ∷ 0x00 ∷ 0x07 ∷ 0x09 ∷ []) v
        → ⊥ }
    ensures two_zeros { zeros Reading (0x00 ∷ 0x00 ∷ []) (Number 2) }
    ensures no_other_padding { (d : Direction) (v : Tree) → zeros d (0x00 ∷ 0x01 ∷ []) v → ⊥ }
    ensures zeros_say_no_end { IsLawful zeros zeros_length → ⊥ }
    ensures padding_is_lawful_inside { MeetsLawsInside
        (fields_format (number_format 1) zeros_format) }
{}
