//! Which requests for memory were made, and which of them is refused.

use std::alloc::Global;
use tls_codec::Error;
use tlsview_run::fault::ViewFault;
use view_input::fault::InputFault;

/// What is wrong with a call.
#[derive(Clone, Copy)]
pub enum Wrong {
    /// It was refused, and none of its requests was; or the other way round.
    Refusal,
    /// It returned something other than what it must, or changed a value that it borrowed.
    Answer,
    /// It asked for more room than is of the order of its bytes.
    Room,
    /// The rows make more requests than the toolchain counts, or fewer than the refused one.
    Count,
}

impl Wrong {
    pub fn text(&self) -> &'static str {
        match self {
            Wrong::Refusal => "a call is refused, and no request of it is, or the other way round",
            Wrong::Answer => "a call returns something else",
            Wrong::Room => "a call asks for too much room",
            Wrong::Count => "the number of requests is another",
        }
    }
}

impl From<Error> for Wrong {
    fn from(_error: Error) -> Wrong {
        Wrong::Answer
    }
}

impl From<InputFault> for Wrong {
    fn from(_fault: InputFault) -> Wrong {
        Wrong::Answer
    }
}

impl From<ViewFault> for Wrong {
    fn from(_fault: ViewFault) -> Wrong {
        Wrong::Answer
    }
}

/// The requests of the rows for memory, in their order. At most one is refused.
#[derive(Drop)]
pub struct Requests {
    made: u64,
    refused: u64,
    row: &'static str,
}

impl Requests {
    /// None is refused if the number is 0.
    pub fn new(refused: u64) -> Requests {
        Requests {
            made: 0,
            refused,
            row: "before the rows",
        }
    }

    /// Makes as many requests as are missing, so that the refused one is the last of these of the run.
    pub fn make_up_to(&self, alloc: Global, last: u64) -> Result<(), Wrong> {
        if self.refused == 0 {
            return Ok(());
        }
        for _ in self.refused..last {
            match Vec::<u8>::with_capacity(alloc, 1) {
                Ok(_) => {}
                Err(_) => return Err(Wrong::Refusal),
            }
        }
        Ok(())
    }

    /// A row begins.
    pub fn begin(&mut self, row: &'static str) {
        self.row = row;
    }

    /// The row that was last begun.
    pub fn row(&self) -> &'static str {
        self.row
    }

    /// A call has made `count` more requests. It was refused exactly if one of them is the refused
    /// request.
    pub fn make(&mut self, count: u64, was_refused: bool) -> Result<(), Wrong> {
        let before = self.made;
        self.made = before.saturating_add(count);
        let has_refused = before < self.refused && self.refused <= self.made;
        if has_refused == was_refused {
            Ok(())
        } else {
            Err(Wrong::Refusal)
        }
    }

    /// The end: how many were made. The refused one is among them.
    pub fn end(&self, last: u64) -> Result<u64, Wrong> {
        if self.refused <= self.made && self.made < last {
            Ok(self.made)
        } else {
            Err(Wrong::Count)
        }
    }
}
