//! Devices in memory: a slice as a source, a vector as a sink.
ghost use Rattle.std.specs.Prelude.{◌≡◌, ◌<◌, ◌++◌, length, Some, refl};
ghost use Rattle.std.proofs.Common.{rules};
ghost use Rattle.std.proofs.lemmas.Grind.{common_steps};
ghost use Rattle.tls_codec_wire.specs.Counts.{no_counts, only_shortages, none_fell_refl};
ghost use Rattle.tls_codec_wire.specs.declared.device.Fill.TheVariants.{Full, TooFew, Unknown};

use crate::device::{Fault, Fill, Sink, Source};

// Moves past what it gave, and never fails.
impl Source for &[u8] {
    ghost coming = { λ s. Some s.now };

    ghost counts = { λ _. no_counts };

    ghost given = { λ a g b. a.now ≡ g ++ b.now };

    #[inline(always)]
    fn pull(&mut self, into: &mut [u8]) -> Result<usize, Fault> {
        let n = self.len().min(into.len());
        let (front, rest) = self.split_at(n);
        into[..n].copy_from_slice(front);
        *self = rest;
        Ok(n)
    }

    #[inline(always)]
    fn at_hand(&self) -> &[u8] {
        self
    }

    // The length stays the constant that the caller asked for, so this is no call of `memcpy`.
    #[inline(always)]
    fn fill_at_hand(&mut self, into: &mut [u8]) -> Fill
        ensures filled { result ≡ Full → self.old.now ≡ into.new ++ self.new.now }
        ensures too_few { result ≡ TooFew
            → (length self.old.now < length into.old) × (self.new ≡ self.old) }
        ensures unknown { result ≡ Unknown → self.new ≡ self.old }
        ensures retried { no_counts ≡ no_counts }
        ensures known { result ≡ Unknown → ⊥ }
    {
        let n = into.len();
        if n > self.len() {
            return Fill::TooFew;
        }
        let (front, rest) = self.split_at(n);
        into.copy_from_slice(front);
        *self = rest;
        Fill::Full
    }

    #[inline(always)]
    fn append_at_hand(&mut self, out: &mut Vec<u8>, n: usize) -> bool {
        if n > self.len() || n > out.capacity() - out.len() {
            return false;
        }
        let (front, rest) = self.split_at(n);
        let _ = out.extend_from_slice(front);
        *self = rest;
        true
    }

    #[inline(always)]
    fn pull_onto(&mut self, out: &mut Vec<u8>, most: usize) -> Result<usize, Fault> {
        let n = self.len().min(most).min(out.capacity() - out.len());
        let (front, rest) = self.split_at(n);
        let _ = out.extend_from_slice(front);
        *self = rest;
        Ok(n)
    }

    ghost gives_nothing = { λ s. refl };

    ghost gives_in_order = { λ a xs b ys c p q. Prim.search (rules, common_steps) };

    ghost gives_from_front = { λ a xs b p. p };

    ghost no_count_falls = { λ a xs b p. none_fell_refl no_counts };
}

// Appends, and fails for memory alone. Its count of shortages is at the limit, so that nothing is
// promised of memory.
impl Sink for Vec<u8> {
    ghost received = { λ v. Some v.items };

    ghost counts = { λ _. only_shortages };

    #[inline(always)]
    fn give(&mut self, bytes: &[u8]) -> Result<usize, Fault> {
        match self.extend_from_slice(bytes) {
            Ok(()) => Ok(bytes.len()),
            Err(_) => Err(Fault::NoMemory),
        }
    }
}
