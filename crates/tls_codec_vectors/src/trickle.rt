//! [`Trickle`], a sink of one byte a call.
ghost use Rattle.std.specs.Prelude.{◌≡◌, ◌≤◌, length, min, IfOk, Some};
ghost use Rattle.std.specs.Io.KnownBytes.{Appends};
ghost use Rattle.tls_codec.specs.Devices.{GiveIsCounted, bytes_moved, only_shortages};
ghost use Rattle.tls_codec_vectors.specs.Devices.{bytes_taken, vector_of};

use tls_codec::{Fault, Sink};

/// A vector that takes one byte a call, after those that it has.
#[derive(Drop)]
pub struct Trickle {
    out: Vec<u8>,
}

impl Trickle {
    /// A sink around this vector.
    pub fn new(out: Vec<u8>) -> Trickle
        ensures { vector_of result ≡ out }
    {
        Trickle { out }
    }

    /// The vector, with what was received after what it had.
    pub fn into_inner(self) -> Vec<u8>
        ensures { result ≡ vector_of self }
    {
        self.out
    }
}

// It fails for memory alone, and promises nothing of memory, as the vector does.
impl Sink for Trickle {
    ghost received = { λ s. Some (bytes_taken s) };

    ghost counts = { λ _. only_shortages };

    fn give(&mut self, bytes: &[u8]) -> Result<usize, Fault>
        ensures bound { IfOk result (λ n. n ≤ length bytes.now) }
        ensures took { Appends (Some (bytes_taken self.old)) (Some (bytes_taken self.new))
            (bytes_moved result bytes.now) }
        ensures counted { GiveIsCounted result (length bytes.now) only_shortages only_shortages }
        ensures one { IfOk result (λ n. n ≡ min 1 (length bytes.now)) }
    {
        let most = bytes.len().min(1);
        self.out.give(&bytes[..most])
    }
}
