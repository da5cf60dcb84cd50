//! [`Drip`], a source of one byte a call.
ghost use Rattle.std.specs.Prelude.{◌≡◌, ◌<◌, ◌≤◌, [], ◌++◌, false, length, min, IfOk, Some, refl, vec_capacity, vec_len};
ghost use Rattle.std.specs.Io.KnownBytes.{IsAtEnd};
ghost use Rattle.std.proofs.Common.{rules};
ghost use Rattle.std.proofs.lemmas.Grind.{common_steps};
ghost use Rattle.tls_codec.specs.Devices.{AppendedAtHand, Full, IsAtHand, IsShortOf, PullIsCounted, PulledOnto, TooFew, Unknown, bytes_moved, no_counts, none_fell_refl};
ghost use Rattle.tls_codec_vectors.specs.Devices.{bytes_left};

use tls_codec::{Fault, Fill, Source};

/// Bytes that come one a call, whatever room a caller has.
///
/// Nothing is at hand, so a decoder sees each byte come.
#[derive(Drop)]
pub struct Drip<'a> {
    left: &'a [u8],
}

impl<'a> Drip<'a> {
    /// A source of these bytes.
    pub fn new(bytes: &'a [u8]) -> Drip<'a>
        ensures { bytes_left result ≡ bytes.now }
    {
        Drip { left: bytes }
    }
}

// It never fails.
impl Source for Drip<'_> {
    ghost coming = { λ s. Some (bytes_left s) };

    ghost counts = { λ _. no_counts };

    ghost given = { λ a g b. bytes_left a ≡ g ++ bytes_left b };

    fn pull(&mut self, into: &mut [u8]) -> Result<usize, Fault>
        ensures bound { IfOk result (λ n. n ≤ length into.new) }
        ensures gave { bytes_left self.old ≡ bytes_moved result into.new ++ bytes_left self.new }
        ensures end { result ≡ Ok 0 → 0 < length into.old → IsAtEnd (Some (bytes_left self.new)) }
        ensures counted { PullIsCounted result no_counts no_counts }
        ensures one { result ≡ Ok (min 1 (min (length into.old) (length (bytes_left self.old)))) }
    {
        let most = into.len().min(1);
        self.left.pull(&mut into[..most])
    }

    fn at_hand(&self) -> &[u8]
        ensures first { IsAtHand result.now (Some (bytes_left self.now)) }
        ensures none { result.now ≡ [] }
    {
        &[]
    }

    fn fill_at_hand(&mut self, _into: &mut [u8]) -> Fill
        ensures filled { result ≡ Full → bytes_left self.old ≡ _into.new ++ bytes_left self.new }
        ensures too_few { result ≡ TooFew
            → IsShortOf (length _into.old) (Some (bytes_left self.old)) × (self.new ≡ self.old) }
        ensures unknown { result ≡ Unknown → self.new ≡ self.old }
        ensures retried { no_counts ≡ no_counts }
        ensures never { result ≡ Unknown }
    {
        Fill::Unknown
    }

    fn append_at_hand(&mut self, _out: &mut Vec<u8>, _n: usize) -> bool
        ensures appended { AppendedAtHand (λ a g b. bytes_left a ≡ g ++ bytes_left b) self.old
            self.new _n result _out.old _out.new }
        ensures retried { no_counts ≡ no_counts }
        ensures never { result ≡ false }
    {
        false
    }

    fn pull_onto(&mut self, out: &mut Vec<u8>, most: usize) -> Result<usize, Fault>
        ensures bound { IfOk result (λ n. n ≤ most) }
        ensures gave { PulledOnto (λ a g b. bytes_left a ≡ g ++ bytes_left b) self.old self.new
            result out.old.items out.new.items }
        ensures end { result ≡ Ok 0
            → 0 < most
            → vec_len out.old < vec_capacity out.old
            → IsAtEnd (Some (bytes_left self.new)) }
        ensures counted { PullIsCounted result no_counts no_counts }
        ensures one { IfOk result (λ n. n ≤ 1) }
    {
        self.left.pull_onto(out, most.min(1))
    }

    ghost gives_nothing = { λ s. refl };

    ghost gives_in_order = { λ a xs b ys c p q. Prim.search (rules, common_steps) };

    ghost gives_from_front = { λ a xs b p. p };

    ghost no_count_falls = { λ a xs b p. none_fell_refl no_counts };
}
