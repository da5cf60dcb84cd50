//! The first bytes of another source, as a source.
ghost use Rattle.std.specs.Prelude.{◌≡◌, ◌<◌, ◌≤◌, length, IfOk, vec_capacity, vec_len};
ghost use Rattle.std.specs.Io.KnownBytes.{IsAtEnd};
ghost use Rattle.tls_codec_wire.specs.Bounded.{first_bytes, GaveWithin, gives_from_front_within, gives_in_order_within, gives_nothing_within, inner_of, limit_of};
ghost use Rattle.tls_codec_wire.specs.Device.{bytes_moved, PullIsCounted, PulledOnto};
ghost use Rattle.tls_codec_wire.specs.Transfer.{IsShortOf};
ghost use Rattle.tls_codec_wire.specs.declared.device.Fill.TheVariants.{Full, TooFew, Unknown};

use crate::device::{Fault, Fill, Source};

/// The first `limit` bytes of a borrowed source, as a source.
///
/// Once this is gone, the inner source is just after the bytes that were given. One `Bounded` may
/// be over another.
///
/// ```rust
/// let mut src = [1u8, 2, 3].as_slice();
/// let mut first = Bounded::new(&mut src, 2);
/// let mut into = [0u8; 2];
/// read_exactly(&mut first, &mut into)?;
/// assert_eq!(rt; into, [1, 2]);
/// assert_eq!(rt; first.limit(), 0);
/// ```
#[derive(Drop)]
pub struct Bounded<'a, R> {
    inner: &'a mut R,
    limit: u64,
}

impl<'a, R: Source> Bounded<'a, R> {
    /// The first `limit` bytes of a source, or fewer if it ends before.
    pub fn new(inner: &'a mut R, limit: u64) -> Bounded<'a, R>
        ensures limit { limit_of result ≡ limit }
        ensures inner { inner_of result ≡ inner.old }
        ensures same { result.inner.ghost_name ≡ inner.entry.ghost_name }
    {
        Self { inner, limit }
    }

    /// How many bytes it may still give.
    pub fn limit(&self) -> u64
        ensures { result ≡ limit_of self.now }
    {
        self.limit
    }
}

// At the limit 0 it calls nothing.
impl<R: Source> Source for Bounded<'_, R> {
    ghost coming = { first_bytes R.coming };

    ghost counts = { λ b. R.counts (inner_of b) };

    ghost given = { GaveWithin R.given };

    #[inline(always)]
    fn pull(&mut self, into: &mut [u8]) -> Result<usize, Fault>
        ensures bound { IfOk result (λ n. n ≤ length into.new) }
        ensures gave { GaveWithin R.given self.old (bytes_moved result into.new) self.new }
        ensures end { result ≡ Ok 0
            → 0 < length into.old
            → IsAtEnd (first_bytes R.coming self.new) }
        ensures counted { PullIsCounted result (R.counts (inner_of self.old))
            (R.counts (inner_of self.new)) }
        ensures at_limit { limit_of self.old ≡ 0 → (result ≡ Ok 0) × (self.new ≡ self.old) }
    {
        let Bounded { inner, limit } = self;
        if *limit == 0 {
            return Ok(0);
        }
        let room = (*limit).min(into.len() as u64) as usize;
        let n = inner.pull(&mut into[..room])?;
        *limit -= n as u64;
        Ok(n)
    }

    #[inline(always)]
    #[tactic(auto, using(crate::proofs::AtHand::at_hand_within))]
    fn at_hand(&self) -> &[u8] {
        let bytes = self.inner.at_hand();
        let n = self.limit.min(bytes.len() as u64) as usize;
        &bytes[..n]
    }

    #[inline(always)]
    fn fill_at_hand(&mut self, into: &mut [u8]) -> Fill
        ensures filled { result ≡ Full → GaveWithin R.given self.old into.new self.new }
        ensures too_few { result ≡ TooFew
            → IsShortOf (length into.old) (first_bytes R.coming self.old) × (self.new ≡ self.old) }
        ensures unknown { result ≡ Unknown → self.new ≡ self.old }
        ensures retried { R.counts (inner_of self.new) ≡ R.counts (inner_of self.old) }
        ensures beyond { limit_of self.old < length into.old → result ≡ TooFew }
    {
        let Bounded { inner, limit } = self;
        let n = into.len() as u64;
        if n > *limit {
            return Fill::TooFew;
        }
        let found = inner.fill_at_hand(into);
        if found == Fill::Full {
            *limit -= n;
        }
        found
    }

    #[inline(always)]
    fn append_at_hand(&mut self, out: &mut Vec<u8>, n: usize) -> bool {
        let Bounded { inner, limit } = self;
        if n as u64 > *limit {
            return false;
        }
        let done = inner.append_at_hand(out, n);
        if done {
            *limit -= n as u64;
        }
        done
    }

    #[inline(always)]
    fn pull_onto(&mut self, out: &mut Vec<u8>, most: usize) -> Result<usize, Fault>
        ensures bound { IfOk result (λ n. n ≤ most) }
        ensures gave { PulledOnto (GaveWithin R.given) self.old self.new result out.old.items
            out.new.items }
        ensures end { result ≡ Ok 0
            → 0 < most
            → vec_len out.old < vec_capacity out.old
            → IsAtEnd (first_bytes R.coming self.new) }
        ensures counted { PullIsCounted result (R.counts (inner_of self.old))
            (R.counts (inner_of self.new)) }
        ensures at_limit { limit_of self.old ≡ 0
            → (result ≡ Ok 0) × (self.new ≡ self.old) × (out.new ≡ out.old) }
    {
        let Bounded { inner, limit } = self;
        if *limit == 0 {
            return Ok(0);
        }
        let n = inner.pull_onto(out, (*limit).min(most as u64) as usize)?;
        *limit -= n as u64;
        Ok(n)
    }

    ghost gives_nothing = { gives_nothing_within R.given R.gives_nothing };

    ghost gives_in_order = { gives_in_order_within R.given R.gives_in_order };

    ghost gives_from_front = { gives_from_front_within R.given R.coming R.gives_from_front };

    ghost no_count_falls = { λ a xs b p. R.no_count_falls (inner_of a) xs (inner_of b) p.held };
}
