//! The definitions at work.
ghost use Rattle.std.specs.Prelude.{◌≡◌, [], ◌∷◌, codes};
ghost use Rattle.tls_codec_grammar.specs.Format.{number_format, pair_format};
ghost use Rattle.tls_codec_grammar.specs.Tree.{Tree};
ghost use Rattle.tls_presentation.specs.Definition.{field, One, Plain, struct};
ghost use Rattle.tls_presentation.specs.Printed.{print};
ghost use Rattle.tls_presentation.specs.Cut.{lines, signs};
ghost use Rattle.tls_presentation.specs.Meaning.{SameBytes, means, text_of};

/// A comment and blanks are no part of what a text says.
pub fn comments_and_blanks_say_nothing()
    ensures { print (struct (Plain (field "uint64" "not_before" One) ∷ []) "Lifetime" ∷ [])
        ≡ signs (lines ("struct { // a comment" ∷ "uint64   not_before;  } /* */ Lifetime;" ∷ [])) }
{}

/// A struct of two numbers.
#[tactic(auto, using(crate::specs::Meaning::same_bytes))]
pub fn lifetime_is_two_numbers()
    ensures { (c : Tree) → SameBytes (means (text_of [] (struct (Plain (field "uint64" "not_before" One)
        ∷ Plain (field "uint64" "not_after" One) ∷ []) "Lifetime" ∷ [])) "Lifetime" c)
        (pair_format (number_format 8) (number_format 8)) }
{}
