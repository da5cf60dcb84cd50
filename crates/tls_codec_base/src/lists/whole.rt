//! What the engines count their turns by, and how turns are compared.
//!
//! The functions do nothing. Their contracts state the laws, and so are proved.
ghost use Rattle.std.specs.Prelude.{◌≡◌, ◌↔◌, ℕ, IsTrue, List};
ghost use Rattle.tls_codec_base.specs.Turns.{turns_of};
ghost use Rattle.tls_codec_base.specs.WholeElements.{WholeElements};

use crate::lists::Turns;
use crate::traits::Size;

/// There is one number of whole elements at the front of some bytes.
pub fn whole_elements_are_one_number<T: Size>()
    ensures { (m n : ℕ) (x : List ℕ)
        → WholeElements T.format.spells m x
        → WholeElements T.format.spells n x
        → m ≡ n }
{}

/// Two [`Turns`] are equal if their counts are.
pub fn turns_are_compared_by_their_counts()
    ensures { (x y : Turns) → IsTrue (⟦<Turns as PartialEq>⟧.eq x y) ↔ (turns_of x ≡ turns_of y) }
{}
