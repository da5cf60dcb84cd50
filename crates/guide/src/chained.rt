//! [`Chained`], a source of your own.
ghost use Rattle.std.specs.Prelude.{◌≡◌, ◌++◌, Some, refl};
ghost use Rattle.std.proofs.Common.{rules};
ghost use Rattle.std.proofs.lemmas.Grind.{common_steps};
ghost use Rattle.tls_codec.specs.Devices.{no_counts, none_fell_refl};
ghost use Rattle.guide.specs.Guide.{left_of};

use tls_codec::{Fault, Source};

/// Two slices, one after the other, as a ring buffer lends received bytes.
#[derive(Drop)]
pub struct Chained<'a> {
    first: &'a [u8],
    second: &'a [u8],
}

impl<'a> Chained<'a> {
    /// The bytes of `first`, and then those of `second`.
    pub fn new(first: &'a [u8], second: &'a [u8]) -> Chained<'a>
        ensures { left_of result ≡ first.now ++ second.now }
    {
        Chained { first, second }
    }
}

// Moves past what it gave, and never fails.
impl Source for Chained<'_> {
    ghost coming = { λ s. Some (left_of s) };

    ghost counts = { λ _. no_counts };

    ghost given = { λ a g b. left_of a ≡ g ++ left_of b };

    fn pull(&mut self, into: &mut [u8]) -> Result<usize, Fault> {
        if self.first.is_empty() {
            return self.second.pull(into);
        }
        self.first.pull(into)
    }

    ghost gives_nothing = { λ s. refl };

    ghost gives_in_order = { λ a xs b ys c p q. Prim.search (rules, common_steps) };

    ghost gives_from_front = { λ a xs b p. p };

    ghost no_count_falls = { λ a xs b p. none_fell_refl no_counts };
}
