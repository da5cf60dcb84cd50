//! [`Failing`], a device with some calls in a row that return a fault.
ghost use Rattle.std.specs.Prelude.{◌≡◌, ◌<◌, ◌≤◌, ◌↔◌, [], false, IsTrue, length, IfOk, vec_capacity, vec_len};
ghost use Rattle.std.specs.Io.KnownBytes.{Appends, IsAtEnd};
ghost use Rattle.tls_codec.specs.Devices.{AppendedAtHand, Full, GiveIsCounted, IsAtHand, IsShortOf, PullIsCounted, PulledOnto, TooFew, Unknown, bytes_moved, no_counts};
ghost use Rattle.tls_codec_vectors.specs.Devices.{Called, FailsAsPlanned, FailsNext, GaveAfter, IsPlanned, calls_of, counts_with, gives_in_order_after, gives_nothing_after, inner_of, no_count_falls_after, own_counts, plan_of};

use tls_codec::{Fault, Fill, Sink, Source};

// Which calls return a fault, and which.
#[derive(Clone, Copy)]
struct Plan {
    at: u64,
    times: u64,
    fault: Fault,
}

impl Plan {
    // Whether the call of this number returns the fault.
    fn includes(&self, call: u64) -> bool
        ensures { IsTrue result ↔ IsPlanned self.now call }
    {
        call >= self.at && call - self.at < self.times
    }
}

/// A source or a sink with some calls in a row that return a fault. All other calls go to the device
/// inside.
///
/// Nothing is at hand, so each byte of a source comes by a call that may fail. As a device it counts its
/// own faults and those of the device inside.
#[derive(Drop)]
pub struct Failing<D> {
    inner: D,
    plan: Plan,
    calls: u64,
    failures: u64,
    interruptions: u64,
    shortages: u64,
}

impl<D> Failing<D> {
    /// A device whose calls `at` to `at + times - 1` return `fault`. The first call has the number
    /// 1, and the number saturates at `u64::MAX`.
    pub fn new(inner: D, at: u64, times: u64, fault: Fault) -> Failing<D>
        ensures inner { inner_of result ≡ inner }
        ensures plan { plan_of result ≡ record { at = at; times = times; fault = fault } }
        ensures calls { calls_of result ≡ 0 }
        ensures counts { own_counts result ≡ no_counts }
    {
        Failing {
            inner,
            plan: Plan { at, times, fault },
            calls: 0,
            failures: 0,
            interruptions: 0,
            shortages: 0,
        }
    }

    /// The device inside.
    pub fn into_inner(self) -> D
        ensures { result ≡ inner_of self }
    {
        self.inner
    }

    /// How many of its own faults were `Failed`.
    pub fn failures(&self) -> u64
        ensures { result ≡ (own_counts self.now).failures }
    {
        self.failures
    }

    /// How many of its own faults were `Interrupted`.
    pub fn interruptions(&self) -> u64
        ensures { result ≡ (own_counts self.now).interruptions }
    {
        self.interruptions
    }

    /// How many of its own faults were `NoMemory`.
    pub fn shortages(&self) -> u64
        ensures { result ≡ (own_counts self.now).shortages }
    {
        self.shortages
    }

    // Counts a call, and its fault if it returns one.
    fn turn(&mut self) -> Result<(), Fault>
        ensures called { Called self.old self.new }
        ensures inner { inner_of self.new ≡ inner_of self.old }
        ensures fails { FailsNext self.old → FailsAsPlanned result self.old self.new }
        ensures passes { ¬ FailsNext self.old
            → (result ≡ Ok tt) × (own_counts self.new ≡ own_counts self.old) }
    {
        self.calls = self.calls.saturating_add(1);
        if !self.plan.includes(self.calls) {
            return Ok(());
        }
        match self.plan.fault {
            Fault::Interrupted => self.interruptions = self.interruptions.saturating_add(1),
            Fault::NoMemory => self.shortages = self.shortages.saturating_add(1),
            Fault::Failed => self.failures = self.failures.saturating_add(1),
        }
        Err(self.plan.fault)
    }
}

impl<R: Source> Source for Failing<R> {
    ghost coming = { λ s. R.coming (inner_of s) };

    ghost counts = { counts_with R.counts };

    ghost given = { GaveAfter R.given };

    fn pull(&mut self, into: &mut [u8]) -> Result<usize, Fault>
        ensures bound { IfOk result (λ n. n ≤ length into.new) }
        ensures gave { GaveAfter R.given self.old (bytes_moved result into.new) self.new }
        ensures end { result ≡ Ok 0 → 0 < length into.old → IsAtEnd (R.coming (inner_of self.new)) }
        ensures counted { PullIsCounted result (counts_with R.counts self.old)
            (counts_with R.counts self.new) }
        ensures called { Called self.old self.new }
        ensures fails { FailsNext self.old
            → FailsAsPlanned result self.old self.new × (inner_of self.new ≡ inner_of self.old) }
        ensures passes { ¬ FailsNext self.old
            → PullIsCounted result (R.counts (inner_of self.old)) (R.counts (inner_of self.new))
            × (own_counts self.new ≡ own_counts self.old) }
    {
        self.turn()?;
        let n = self.inner.pull(into)?;
        Ok(n)
    }

    fn at_hand(&self) -> &[u8]
        ensures first { IsAtHand result.now (R.coming (inner_of self.now)) }
        ensures none { result.now ≡ [] }
    {
        &[]
    }

    fn fill_at_hand(&mut self, _into: &mut [u8]) -> Fill
        ensures filled { result ≡ Full → GaveAfter R.given self.old _into.new self.new }
        ensures too_few { result ≡ TooFew
            → IsShortOf (length _into.old) (R.coming (inner_of self.old)) × (self.new ≡ self.old) }
        ensures unknown { result ≡ Unknown → self.new ≡ self.old }
        ensures retried { counts_with R.counts self.new ≡ counts_with R.counts self.old }
        ensures never { result ≡ Unknown }
    {
        Fill::Unknown
    }

    fn append_at_hand(&mut self, _out: &mut Vec<u8>, _n: usize) -> bool
        ensures appended { AppendedAtHand (GaveAfter R.given) self.old self.new _n result _out.old
            _out.new }
        ensures retried { counts_with R.counts self.new ≡ counts_with R.counts self.old }
        ensures never { result ≡ false }
    {
        false
    }

    fn pull_onto(&mut self, out: &mut Vec<u8>, most: usize) -> Result<usize, Fault>
        ensures bound { IfOk result (λ n. n ≤ most) }
        ensures gave { PulledOnto (GaveAfter R.given) self.old self.new result out.old.items
            out.new.items }
        ensures end { result ≡ Ok 0
            → 0 < most
            → vec_len out.old < vec_capacity out.old
            → IsAtEnd (R.coming (inner_of self.new)) }
        ensures counted { PullIsCounted result (counts_with R.counts self.old)
            (counts_with R.counts self.new) }
        ensures called { Called self.old self.new }
        ensures fails { FailsNext self.old
            → FailsAsPlanned result self.old self.new × (inner_of self.new ≡ inner_of self.old) }
        ensures passes { ¬ FailsNext self.old
            → PullIsCounted result (R.counts (inner_of self.old)) (R.counts (inner_of self.new))
            × (own_counts self.new ≡ own_counts self.old) }
    {
        self.turn()?;
        let n = self.inner.pull_onto(out, most)?;
        Ok(n)
    }

    ghost gives_nothing = { gives_nothing_after R.given R.gives_nothing };

    ghost gives_in_order = { gives_in_order_after R.given R.gives_in_order };

    ghost gives_from_front = { λ a xs b p. R.gives_from_front (inner_of a) xs (inner_of b) p.held };

    ghost no_count_falls = { no_count_falls_after R.given R.counts R.no_count_falls };
}

impl<W: Sink> Sink for Failing<W> {
    ghost received = { λ s. W.received (inner_of s) };

    ghost counts = { counts_with W.counts };

    fn give(&mut self, bytes: &[u8]) -> Result<usize, Fault>
        ensures bound { IfOk result (λ n. n ≤ length bytes.now) }
        ensures took { Appends (W.received (inner_of self.old)) (W.received (inner_of self.new))
            (bytes_moved result bytes.now) }
        ensures counted { GiveIsCounted result (length bytes.now) (counts_with W.counts self.old)
            (counts_with W.counts self.new) }
        ensures called { Called self.old self.new }
        ensures fails { FailsNext self.old
            → FailsAsPlanned result self.old self.new × (inner_of self.new ≡ inner_of self.old) }
        ensures passes { ¬ FailsNext self.old
            → GiveIsCounted result (length bytes.now) (W.counts (inner_of self.old))
            (W.counts (inner_of self.new))
            × (own_counts self.new ≡ own_counts self.old) }
    {
        self.turn()?;
        let n = self.inner.give(bytes)?;
        Ok(n)
    }
}
