//! How long a call takes.
ghost use Rattle.std.specs.Prelude.{◌<◌, IfOk};

use crate::fault::BenchFault;
use crate::median::{BATCHES, median};
use std::rt::Clock;
use std::time::Instant;

// The least nanoseconds of a batch.
const BATCH_NANOS: u64 = 20_000_000;

// The least nanoseconds of a round. The clock is read after it.
const ROUND_NANOS: u64 = 1_000_000;

// A round has fewer calls than 2 to the power of this.
const MAX_DOUBLINGS: u32 = 24;

// How many rounds a batch may have. A clock that goes on ends it long before.
const MAX_ROUNDS: u32 = 1_000_000;

/// The nanoseconds that a call takes: the median of the batches.
///
/// The call returns whether it succeeded. `Refused`: it didn't. `Clock`: the clock doesn't move.
pub fn time<C: Clock, F: Fn() -> bool>(clock: &C, call: F) -> Result<u64, BenchFault>
    requires { F.IsAlwaysCallable call }
{
    let calls = calls_a_round(clock, &call)?;
    let mut figures = [0u64; BATCHES];
    for figure in &mut figures {
        *figure = batch(clock, &call, calls)?;
    }
    Ok(median(figures))
}

// How many calls take as long as a round has to. Each number is tried three times, since something
// else may hold up one of them.
fn calls_a_round<C: Clock, F: Fn() -> bool>(clock: &C, call: &F) -> Result<u64, BenchFault>
    requires { F.IsAlwaysCallable call.now }
    ensures { IfOk result (λ calls. 0 < calls) }
{
    let mut calls = 1;
    for _ in 0..MAX_DOUBLINGS {
        let first = round(clock, call, calls)?;
        let second = round(clock, call, calls)?;
        let third = round(clock, call, calls)?;
        if first.min(second).min(third) >= ROUND_NANOS {
            return Ok(calls);
        }
        calls = calls.saturating_mul(2);
    }
    Err(BenchFault::Clock)
}

// The nanoseconds of `calls` calls.
fn round<C: Clock, F: Fn() -> bool>(clock: &C, call: &F, calls: u64) -> Result<u64, BenchFault>
    requires { F.IsAlwaysCallable call.now }
{
    let start = Instant::now(clock)?;
    repeat(call, calls)?;
    nanos_since(clock, start)
}

// The nanoseconds that a call takes, from one batch of rounds.
fn batch<C: Clock, F: Fn() -> bool>(clock: &C, call: &F, calls: u64) -> Result<u64, BenchFault>
    requires callable { F.IsAlwaysCallable call.now }
    requires calls { 0 < calls }
{
    let start = Instant::now(clock)?;
    let mut made = 0;
    for _ in 0..MAX_ROUNDS {
        repeat(call, calls)?;
        made = calls.saturating_add(made);
        let nanos = nanos_since(clock, start)?;
        if nanos >= BATCH_NANOS {
            return Ok(nanos / made);
        }
    }
    Err(BenchFault::Clock)
}

// Makes `calls` calls.
fn repeat<F: Fn() -> bool>(call: &F, calls: u64) -> Result<(), BenchFault>
    requires { F.IsAlwaysCallable call.now }
{
    for _ in 0..calls {
        if !call() {
            return Err(BenchFault::Refused);
        }
    }
    Ok(())
}

// The nanoseconds since then.
fn nanos_since<C: Clock>(clock: &C, start: Instant) -> Result<u64, BenchFault> {
    let time = start.elapsed(clock)?;
    let nanos = u64::from(time.subsec_nanos());
    Ok(
        time.as_secs()
            .saturating_mul(1_000_000_000)
            .saturating_add(nanos),
    )
}
