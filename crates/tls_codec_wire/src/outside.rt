//! Any reader or writer of std as a device.
ghost use Rattle.std.specs.Prelude.{◌≡◌, ◌≤◌, length, IfOk};
ghost use Rattle.std.specs.Io.KnownBytes.{Appends};
ghost use Rattle.tls_codec_wire.specs.Counts.{no_counts};
ghost use Rattle.tls_codec_wire.specs.Device.{FaultRaises, GiveIsCounted, bytes_moved, count_moved};
ghost use Rattle.tls_codec_wire.specs.Outside.{GaveOutside, MovedBy, counts_of, fault_of, gives_in_order_outside, gives_nothing_outside, moved_of, wrapped};

use crate::device::{Fault, Sink, Source};
use std::io::{ErrorKind, Read, Write};

/// A `Read` as a [`Source`], or a `Write` as a [`Sink`], with counts of what went wrong.
///
/// One `pull` or `give` is one `read` or `write`. An error of kind `Interrupted` is the fault
/// `Interrupted`, and one of kind `OutOfMemory` is `NoMemory`. Every other is `Failed`, a timeout
/// (`TimedOut`) too. It reports its bytes if the wrapped one does, and counts them in any case.
#[derive(Drop)]
pub struct Outside<X> {
    inner: X,
    moved: u64,
    failures: u64,
    interruptions: u64,
    shortages: u64,
}

impl<X> Outside<X> {
    /// Wraps a reader or a writer, with all counts 0.
    pub fn new(inner: X) -> Outside<X>
        ensures wrapped { wrapped result ≡ inner }
        ensures counts { counts_of result ≡ no_counts }
        ensures moved { moved_of result ≡ 0 }
    {
        Outside {
            inner,
            moved: 0,
            failures: 0,
            interruptions: 0,
            shortages: 0,
        }
    }

    /// The reader or writer inside. Whatever it has given or taken, it is just after that.
    pub fn into_inner(self) -> X
        ensures { result ≡ wrapped self }
    {
        self.inner
    }

    /// How many bytes it gave as a source, or took as a sink. Saturates at `u64::MAX`.
    pub fn moved(&self) -> u64
        ensures { result ≡ moved_of self.now }
    {
        self.moved
    }

    /// How many calls failed: by an error of a kind that the other two don't count, or as a write
    /// that took no byte of some. Saturates at `u64::MAX`.
    pub fn failures(&self) -> u64
        ensures { result ≡ (counts_of self.now).failures }
    {
        self.failures
    }

    /// How many calls ended by an error of kind `Interrupted`. Saturates at `u64::MAX`.
    pub fn interruptions(&self) -> u64
        ensures { result ≡ (counts_of self.now).interruptions }
    {
        self.interruptions
    }

    /// How many calls ended by an error of kind `OutOfMemory`. Saturates at `u64::MAX`.
    pub fn shortages(&self) -> u64
        ensures { result ≡ (counts_of self.now).shortages }
    {
        self.shortages
    }

    // Counts an error by its kind. A count stays at its greatest value.
    fn count(&mut self, kind: ErrorKind) -> Fault
        ensures fault { result ≡ fault_of kind }
        ensures wrapped { self.new.inner ≡ self.old.inner }
        ensures moved { moved_of self.new ≡ moved_of self.old }
        ensures counted { FaultRaises result (counts_of self.old) (counts_of self.new) }
    {
        match kind {
            ErrorKind::Interrupted => {
                self.interruptions = self.interruptions.saturating_add(1);
                Fault::Interrupted
            }
            ErrorKind::OutOfMemory => {
                self.shortages = self.shortages.saturating_add(1);
                Fault::NoMemory
            }
            _ => {
                self.failures = self.failures.saturating_add(1);
                Fault::Failed
            }
        }
    }
}

impl<R: Read> Source for Outside<R> {
    ghost coming = { λ s. R.remaining s.inner };

    ghost counts = { counts_of };

    ghost given = { GaveOutside R.remaining };

    fn pull(&mut self, into: &mut [u8]) -> Result<usize, Fault> {
        match self.inner.read(into) {
            Ok(n) => {
                self.moved = self.moved.saturating_add(n as u64);
                Ok(n)
            }
            Err(e) => Err(self.count(e.kind())),
        }
    }

    ghost gives_nothing = { gives_nothing_outside R.remaining };

    ghost gives_in_order = { gives_in_order_outside R.remaining };

    ghost gives_from_front = { λ a xs b p. p.consumed };

    ghost no_count_falls = { λ a xs b p. p.fell };
}

impl<W: Write> Sink for Outside<W> {
    ghost received = { λ s. W.contents s.inner };

    ghost counts = { counts_of };

    fn give(&mut self, bytes: &[u8]) -> Result<usize, Fault>
        ensures bound { IfOk result (λ n. n ≤ length bytes.now) }
        ensures took { Appends (W.contents self.old.inner) (W.contents self.new.inner)
            (bytes_moved result bytes.now) }
        ensures counted { GiveIsCounted result (length bytes.now) (counts_of self.old)
            (counts_of self.new) }
        ensures moved { MovedBy (count_moved result) self.old self.new }
    {
        match self.inner.write(bytes) {
            Ok(n) => {
                self.moved = self.moved.saturating_add(n as u64);
                if n == 0 && !bytes.is_empty() {
                    self.failures = self.failures.saturating_add(1);
                }
                Ok(n)
            }
            Err(e) => Err(self.count(e.kind())),
        }
    }
}
