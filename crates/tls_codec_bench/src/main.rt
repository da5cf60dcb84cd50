//! `tls_codec_bench` times encoders, decoders, validators and views: those of the library's types, and those of `mls`.
//!
//! With no argument it makes each call a few times, and prints the name of each case and the bytes of its
//! encoding, with a tab between. With the argument `check` it also prints rows of values and calls
//! whose answers are known. With the argument `run` it prints a line for each case, with tabs
//! between: its name, the bytes of its encoding, and the nanoseconds of a call of
//! `tls_serialize_detached`, of `tls_serialize_into` a vector that is used again, of
//! `tls_deserialize_bytes`, of `tls_deserialize` over a slice, of `tls_validate_prefix`, and of
//! `Encoded::new` with what takes its first level apart. In the rows that end with `outside`,
//! `tls_deserialize` is over a `Cursor`, which has no bytes at hand. A figure is the median of 15
//! batches of at least 20 milliseconds. With any other argument it ends with status 1.
//!
//! - [`cases`]: the cases and their names. [`values`] and [`messages`]: their values, over the
//!   numbers of a [`noise`].
//! - [`calls`]: the calls that are timed. [`in_place`]: what is read in place. [`figures`]: the
//!   figures of a case.
//! - [`timing`]: how long a call takes. [`median`]: the middle one of the batches. [`ticks`]: a
//!   clock that goes on by a set step.
//! - [`check`]: the rows whose answers are known. [`fault`]: [`BenchFault`](fault::BenchFault), why nothing
//!   is timed.
#![tactic(auto)]

mod calls;
mod cases;
mod check;
mod fault;
mod figures;
mod in_place;
mod median;
mod messages;
mod noise;
mod ticks;
mod timing;
mod values;

use cases::CASES;
use check::print_checks;
use fault::BenchFault;
use figures::measure;
use std::env;
use std::rt::Clock;
use ticks::Ticks;

fn main(rt: HostRuntime) -> Result<(), BenchFault> {
    let words: Vec<String> = env::args(&rt)?.collect(rt.alloc())?;
    match words.as_slice() {
        [] | [_] => print_sizes(&rt),
        [_, word] if word.as_str() == "run" => print_rows(&rt),
        [_, word] if word.as_str() == "check" => {
            print_sizes(&rt)?;
            print_checks(&rt)
        }
        _ => Err(BenchFault::Argument),
    }
}

// The clock goes on by a whole batch each time, so that a batch has one call.
const BATCH_MILLIS: u64 = 20;

// Makes each call of each case, and prints the name of the case and how many bytes it has.
fn print_sizes<R: Print + AllocGlobal>(rt: &R) -> Result<(), BenchFault> {
    let clock = Ticks::new(BATCH_MILLIS);
    for case in CASES {
        let figures = measure(rt.alloc(), &clock, case)?;
        let name = case.name();
        println!(rt; "{name}\t{}", figures.bytes)?;
    }
    Ok(())
}

// Times each case, and prints its line.
fn print_rows<R: Print + AllocGlobal + Clock>(rt: &R) -> Result<(), BenchFault> {
    for case in CASES {
        let figures = measure(rt.alloc(), rt, case)?;
        let name = case.name();
        println!(rt;
            "{name}\t{}\t{}\t{}\t{}\t{}\t{}\t{}",
            figures.bytes,
            figures.encode,
            figures.into,
            figures.slice,
            figures.reader,
            figures.validate,
            figures.view
        )?;
    }
    Ok(())
}
