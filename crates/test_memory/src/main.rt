//! Out of memory: one request is refused at a time. The rows check what each call that allocates
//! returns then, that the value that it borrowed is unchanged, and how much room it asks for.
//!
//! Standard input has the number of the request of the rows that is refused, in digits and nothing else, or is empty: then
//! none is refused. The toolchain refuses the [`LAST`]th request of a run (`rt try --fail-alloc`), so the program makes those
//! that are missing to it first. So one build serves for each request: `tools/try_refused_requests.py` runs it so.
//!
//! The line is `N requests, none refused`, or says which; the status is then 0. Each call was refused exactly if one of
//! its requests was. Else the line names the row that was wrong, and the status is 1. It is `no number`, and the status 2,
//! if the input has something other than digits.
#![tactic(auto)]

mod requests;
mod rows;

use requests::{Requests, Wrong};
use std::alloc::Global;
use std::io::Read;
use std::process::ExitCode;

// The toolchain refuses this request of a run. The rows make fewer.
const LAST: u64 = 256;

fn main(rt: HostRuntime) -> std::io::Result<ExitCode> {
    let Some(refused) = number_in(rt.stdin())? else {
        println!(rt; "no number")?;
        return Ok(ExitCode::from(2));
    };
    let mut requests = Requests::new(refused);
    let outcome = run(rt.alloc(), &mut requests);
    let row = requests.row();
    match outcome {
        Ok(count) => {
            match refused {
                0 => println!(rt; "{count} requests, none refused")?,
                _ => println!(rt; "{count} requests, {refused} refused")?,
            }
            Ok(ExitCode::from(0))
        }
        Err(wrong) => {
            let why = wrong.text();
            println!(rt; "request {refused}, {row}: {why}")?;
            Ok(ExitCode::from(1))
        }
    }
}

// Runs all rows, and returns how many requests they make.
fn run(alloc: Global, requests: &mut Requests) -> Result<u64, Wrong> {
    requests.make_up_to(alloc, LAST)?;
    rows::all(alloc, requests)?;
    requests.end(LAST)
}

// The number that the input has, and 0 if it is empty.
fn number_in<R: Read + Drop>(mut input: R) -> std::io::Result<Option<u64>> {
    let mut bytes = [0u8; 16];
    let count = input.read(&mut bytes)?;
    let mut number = 0u64;
    for byte in bytes.iter().take(count) {
        if !byte.is_ascii_digit() {
            return Ok(None);
        }
        number = number
            .saturating_mul(10)
            .saturating_add(u64::from(*byte - b'0'));
    }
    Ok(Some(number))
}
