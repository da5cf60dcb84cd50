//! Why nothing is timed.
ghost use Rattle.std.specs.Prelude.{◌≡◌};
ghost use Rattle.tls_codec_bench.specs.declared.fault.BenchFault.TheVariants.{Memory, Outside};

use std::alloc::AllocError;
use std::io;

/// Why nothing is timed.
#[derive(Debug, Drop)]
pub enum BenchFault {
    /// There is another argument than `run` or `check` alone.
    Argument,
    /// The clock doesn't move.
    Clock,
    /// Memory was refused.
    Memory,
    /// A call that is timed failed.
    Refused,
    /// The clock, the arguments or standard output failed.
    Outside(io::Error),
}

impl From<AllocError> for BenchFault {
    ghost from_gives = { λ _ fault. fault ≡ Memory };

    fn from(_error: AllocError) -> BenchFault {
        BenchFault::Memory
    }
}

impl From<io::Error> for BenchFault {
    ghost from_gives = { λ error fault. fault ≡ Outside error };

    fn from(error: io::Error) -> BenchFault {
        BenchFault::Outside(error)
    }
}
