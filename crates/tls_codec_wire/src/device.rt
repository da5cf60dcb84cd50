//! Where bytes come from and go to.
ghost use Rattle.std.specs.Prelude.{◌≡◌, ℕ, ◌<◌, ◌≤◌, List, length, Option, IfOk, vec_capacity, vec_len};
ghost use Rattle.std.specs.Io.KnownBytes.{Appends, IsAtEnd};
ghost use Rattle.tls_codec_wire.specs.Counts.{Counts};
ghost use Rattle.tls_codec_wire.specs.Device.{AppendedAtHand, bytes_moved, GiveIsCounted, GivesFromFront, GivesInOrder, GivesNothing, IsAtHand, NoCountFalls, PullIsCounted, PulledOnto};
ghost use Rattle.tls_codec_wire.specs.Transfer.{IsShortOf};
ghost use Rattle.tls_codec_wire.specs.declared.device.Fill.TheVariants.{Full, TooFew, Unknown};

/// Why one call of a device moved no byte.
#[derive(Clone, Copy, PartialEq, Eq, Debug)]
pub enum Fault {
    /// The call may be tried again.
    Interrupted,
    /// The device had no memory.
    NoMemory,
    /// The device failed.
    Failed,
}

/// The result of filling a buffer at once with bytes at hand.
#[derive(Clone, Copy, PartialEq, Eq, Debug)]
pub enum Fill {
    /// The buffer is full.
    Full,
    /// Fewer bytes are to come than the buffer has room for, and none was taken.
    TooFew,
    /// The source doesn't have as many in memory, or doesn't know. None was taken.
    Unknown,
}

// How many bytes a source that fills buffers alone moves at once onto a vector.
const CHUNK: usize = 4096;

/// Where bytes come from: a file, a socket or a slice.
///
/// [`Outside`](crate::Outside) makes one of any `std::io::Read`.
pub trait Source {
    // The bytes to come, if the source reports them.
    ghost coming: { Self → Option (List ℕ) };

    // How often it failed, was interrupted and had no memory.
    ghost counts: { Self → Counts };

    // Between these two states the source has given these bytes, and nothing else.
    ghost given: { Self → List ℕ → Self → Type 0 };

    /// Fills a prefix of the buffer with the next bytes, and returns how many. For a buffer with
    /// room, 0 means the end of the bytes. After a fault nothing was taken.
    fn pull(&mut self, into: &mut [u8]) -> Result<usize, Fault>
        ensures bound { IfOk result (λ n. n ≤ length into.new) }
        ensures gave { given self.old (bytes_moved result into.new) self.new }
        ensures end { result ≡ Ok 0 → 0 < length into.old → IsAtEnd (coming self.new) }
        ensures counted { PullIsCounted result (counts self.old) (counts self.new) };

    /// The bytes that it has at hand in memory, which are to come first. There are none if it
    /// doesn't know.
    fn at_hand(&self) -> &[u8]
        ensures { IsAtHand result.now (coming self.now) }
    {
        &[]
    }

    /// Fills the whole buffer with the next bytes, if it has as many at hand in memory.
    ///
    /// A number is read by one such call, instead of a loop over [`pull`](Source::pull). A source
    /// that doesn't know what it has returns `Unknown`.
    fn fill_at_hand(&mut self, _into: &mut [u8]) -> Fill
        ensures filled { result ≡ Full → given self.old _into.new self.new }
        ensures too_few { result ≡ TooFew
            → IsShortOf (length _into.old) (coming self.old) × (self.new ≡ self.old) }
        ensures unknown { result ≡ Unknown → self.new ≡ self.old }
        ensures retried { counts self.new ≡ counts self.old }
    {
        Fill::Unknown
    }

    /// Appends the next `n` bytes to a vector, if it has as many at hand in memory and the vector has
    /// room for them, and returns whether it did. If not, nothing was taken.
    ///
    /// A list of numbers is read by one such call.
    fn append_at_hand(&mut self, _out: &mut Vec<u8>, _n: usize) -> bool
        ensures appended { AppendedAtHand given self.old self.new _n result _out.old _out.new }
        ensures retried { counts self.new ≡ counts self.old }
    {
        false
    }

    /// Puts the next bytes after those of a vector, as many as it has room for and `most` at most,
    /// and returns how many. It never grows the vector. For a vector with room, 0 means the end of
    /// the bytes. After a fault nothing was taken.
    ///
    /// A source that has its bytes in memory writes its own, which copies them once.
    fn pull_onto(&mut self, out: &mut Vec<u8>, most: usize) -> Result<usize, Fault>
        ensures bound { IfOk result (λ n. n ≤ most) }
        ensures gave { PulledOnto given self.old self.new result out.old.items out.new.items }
        ensures end { result ≡ Ok 0
            → 0 < most
            → vec_len out.old < vec_capacity out.old
            → IsAtEnd (coming self.new) }
        ensures counted { PullIsCounted result (counts self.old) (counts self.new) }
    {
        let mut chunk = [0u8; CHUNK];
        let room = most.min(out.capacity() - out.len()).min(CHUNK);
        let n = self.pull(&mut chunk[..room])?;
        let _ = out.extend_from_slice(&chunk[..n]);
        Ok(n)
    }

    ghost gives_nothing: { GivesNothing given };

    ghost gives_in_order: { GivesInOrder given };

    ghost gives_from_front: { GivesFromFront given coming };

    ghost no_count_falls: { NoCountFalls given counts };
}

/// Where bytes go: a file, a socket or a vector.
///
/// [`Outside`](crate::Outside) makes one of any `std::io::Write`.
pub trait Sink {
    // The bytes received, if the sink reports them.
    ghost received: { Self → Option (List ℕ) };

    // How often it failed, was interrupted and had no memory.
    ghost counts: { Self → Counts };

    /// Takes a prefix of the piece, and returns how many bytes. If it takes no byte of a nonempty
    /// piece, that is a failure, and is counted as one. After a fault nothing was received.
    fn give(&mut self, bytes: &[u8]) -> Result<usize, Fault>
        ensures bound { IfOk result (λ n. n ≤ length bytes.now) }
        ensures took { Appends (received self.old) (received self.new)
            (bytes_moved result bytes.now) }
        ensures counted { GiveIsCounted result (length bytes.now) (counts self.old)
            (counts self.new) };
}
