// A source and a sink that follow a plan. They don't report which bytes are to come, and count
// their calls.
ghost use Rattle.std.specs.Prelude.{◌≡◌, None};
ghost use Rattle.tls_codec_wire.specs.Counts.{Counts, none_fell_trans, NoneFell, none_fell_refl};
ghost use Rattle.tls_codec_wire.specs.Device.{FaultRaises, PullIsCounted};

use std::io;
use std::io::{ErrorKind, Read, Write};
use std::marker::Model;
use tls_codec_wire::device::{Fault, Sink, Source};

/// A device fails its first call with the fault `first`, if it has one. Then it moves `bytes` bytes,
/// one a call, and `interruptions` interruptions come before each. After them it treats each call
/// the same: a fault, or no byte.
#[derive(Clone, Copy)]
pub struct Plan {
    pub first: Option<Fault>,
    pub bytes: u8,
    pub interruptions: u8,
    pub after: Option<Fault>,
}

/// It has no byte.
pub const ENDED: Plan = Plan {
    first: None,
    bytes: 0,
    interruptions: 0,
    after: None,
};

/// How far a plan has come.
#[derive(Drop)]
pub struct Progress {
    plan: Plan,
    moved: u8,
    row: u8,
    pub calls: u64,
    pub failures: u64,
    pub interruptions: u64,
    pub shortages: u64,
}

impl Model for Progress {
    ghost Value = { Counts };

    ghost view = { λ p. record {
      failures = p.failures;
      interruptions = p.interruptions;
      shortages = p.shortages;
    } };
}

impl Progress {
    fn new(plan: Plan) -> Progress {
        Progress {
            plan,
            moved: 0,
            row: 0,
            calls: 0,
            failures: 0,
            interruptions: 0,
            shortages: 0,
        }
    }

    // Counts a fault.
    fn count(&mut self, fault: Fault) -> Fault
        ensures same { result ≡ fault }
        ensures counted { FaultRaises fault self.old self.new }
    {
        match fault {
            Fault::Interrupted => self.interruptions = self.interruptions.saturating_add(1),
            Fault::NoMemory => self.shortages = self.shortages.saturating_add(1),
            Fault::Failed => self.failures = self.failures.saturating_add(1),
        }
        fault
    }

    // How many bytes the next call is to move: one or none.
    fn turn(&mut self) -> Result<usize, Fault>
        ensures counted { PullIsCounted result self.old self.new }
    {
        self.calls = self.calls.saturating_add(1);
        if let Some(fault) = self.plan.first {
            self.plan.first = None;
            return Err(self.count(fault));
        }
        if self.moved < self.plan.bytes {
            if self.row < self.plan.interruptions {
                self.row += 1;
                return Err(self.count(Fault::Interrupted));
            }
            self.row = 0;
            self.moved += 1;
            return Ok(1);
        }
        match self.plan.after {
            None => Ok(0),
            Some(fault) => Err(self.count(fault)),
        }
    }
}

/// Gives the byte 5 each time.
#[derive(Drop)]
pub struct Fives {
    pub progress: Progress,
}

impl Fives {
    pub fn new(plan: Plan) -> Fives {
        Fives {
            progress: Progress::new(plan),
        }
    }
}

impl Source for Fives {
    ghost coming = { λ _. None };

    ghost counts = { λ s. s.progress };

    ghost given = { λ a g b. NoneFell a.progress b.progress };

    fn pull(&mut self, into: &mut [u8]) -> Result<usize, Fault> {
        let n = self.progress.turn()?;
        if n == 0 || into.is_empty() {
            return Ok(0);
        }
        into[0] = 5;
        Ok(1)
    }

    ghost gives_nothing = { λ s. none_fell_refl _ };

    ghost gives_in_order = { λ a xs b ys c p q. none_fell_trans p q };

    ghost gives_from_front = { λ a xs b p. tt };

    ghost no_count_falls = { λ a xs b p. p };
}

/// Keeps the bytes that it took.
#[derive(Drop)]
pub struct Keeper {
    pub progress: Progress,
    pub taken: Vec<u8>,
}

impl Keeper {
    pub fn new(taken: Vec<u8>, plan: Plan) -> Keeper {
        Keeper {
            progress: Progress::new(plan),
            taken,
        }
    }
}

impl Sink for Keeper {
    ghost received = { λ _. None };

    ghost counts = { λ s. s.progress };

    fn give(&mut self, bytes: &[u8]) -> Result<usize, Fault> {
        let n = self.progress.turn()?;
        if bytes.is_empty() {
            return Ok(0);
        }
        if n == 0 {
            self.progress.failures = self.progress.failures.saturating_add(1);
            return Ok(0);
        }
        if self.taken.push(bytes[0]).is_err() {
            self.progress.shortages = self.progress.shortages.saturating_add(1);
            return Err(Fault::NoMemory);
        }
        Ok(1)
    }
}

/// Fails at each call, by an error of this kind.
#[derive(Drop)]
pub struct Failing {
    pub kind: ErrorKind,
}

impl Read for Failing {
    fn read(&mut self, _buf: &mut [u8]) -> io::Result<usize> {
        Err(io::Error::from(self.kind))
    }
}

impl Write for Failing {
    fn write(&mut self, _buf: &[u8]) -> io::Result<usize> {
        Err(io::Error::from(self.kind))
    }

    fn flush(&mut self) -> io::Result<()> {
        Err(io::Error::from(self.kind))
    }
}

/// Fails at its first calls, by an error of each of these kinds, and then gives the byte 5 each time.
#[derive(Drop)]
pub struct FailingFirst<'a> {
    pub kinds: &'a [ErrorKind],
    pub reads: usize,
}

impl<'a> Read for FailingFirst<'a> {
    fn read(&mut self, buf: &mut [u8]) -> io::Result<usize> {
        let kind = self.kinds.get(self.reads);
        self.reads = self.reads.saturating_add(1);
        if let Some(kind) = kind {
            return Err(io::Error::from(*kind));
        }
        if buf.is_empty() {
            return Ok(0);
        }
        buf[0] = 5;
        Ok(1)
    }
}
