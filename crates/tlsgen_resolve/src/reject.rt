//! How a text is rejected.
use std::alloc::Global;
use tlsgen_syntax::rejection::{Place, Rejection, Trouble};

/// The error that rejects what a text has at a place.
pub fn rejected(alloc: Global, place: Place, found: &str, expected: &'static str) -> Trouble {
    match String::from_str(alloc, found) {
        Ok(found) => Trouble::Rejected(Rejection {
            place,
            found,
            expected,
        }),
        Err(_) => Trouble::Memory,
    }
}

/// How many fields and cases may still be made.
#[derive(Drop)]
pub struct Budget {
    left: usize,
}

impl Budget {
    pub fn new(left: usize) -> Budget {
        Budget { left }
    }

    /// Takes one of what is left. Rejects `found` at `place` if nothing is left.
    pub fn take(&mut self, alloc: Global, place: Place, found: &str) -> Result<(), Trouble> {
        if self.left == 0 {
            return Err(rejected(
                alloc,
                place,
                found,
                "a smaller text: at most 100000 fields and cases, with those that are in several places",
            ));
        }
        self.left -= 1;
        Ok(())
    }
}
