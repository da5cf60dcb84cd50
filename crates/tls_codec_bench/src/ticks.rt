//! A clock that goes on by a set step each time it is read.
ghost use Rattle.std.specs.Prelude.{◌≡◌};

use std::cell::Cell;
use std::io;
use std::rt::Clock;
use std::time::Duration;

/// A clock that goes on by `step` milliseconds each time it is read.
#[derive(Drop)]
pub struct Ticks {
    step: u64,
    millis: Cell<u64>,
}

impl Ticks {
    /// A clock that goes on by `step` milliseconds.
    pub fn new(step: u64) -> Ticks
        ensures { result.step ≡ step }
    {
        Ticks {
            step,
            millis: Cell::new(0),
        }
    }
}

impl Clock for Ticks {
    fn monotonic(&self) -> io::Result<Duration> {
        let now = self.millis.get().saturating_add(self.step);
        self.millis.set(now);
        Ok(Duration::from_millis(now))
    }

    fn since_1970(&self) -> io::Result<Duration> {
        self.monotonic()
    }
}
