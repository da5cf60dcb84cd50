//! How the fields of a borrowed struct are written in a row.
use std::alloc::{AllocError, Global};

// The most fields of a run.
const LONGEST: usize = 9;

/// How many fields each run of a row has: a borrowed field is a run of its own, and up to 9 others between are one.
pub fn runs_of(alloc: Global, are_borrowed: &[bool]) -> Result<Vec<usize>, AllocError> {
    let mut runs = Vec::new(alloc);
    let mut length = 0usize;
    for is_borrowed in are_borrowed {
        if *is_borrowed || length == LONGEST {
            push_run(&mut runs, length)?;
            length = 0;
        }
        if *is_borrowed {
            runs.push(1)?;
        } else {
            length = length.saturating_add(1);
        }
    }
    push_run(&mut runs, length)?;
    Ok(runs)
}

fn push_run(runs: &mut Vec<usize>, length: usize) -> Result<(), AllocError> {
    if length > 0 {
        runs.push(length)?;
    }
    Ok(())
}
