//! Why no view is printed.
ghost use Rattle.std.specs.Prelude.{◌≡◌};
ghost use Rattle.tlsview_run.specs.Endings.{fault_line, view_fault};
ghost use Rattle.tlsview_run.specs.declared.fault.ViewFault.TheVariants.{Memory};

use std::alloc::AllocError;
use view_input::fault::InputFault;

/// Why no view is printed.
#[derive(Clone, Copy, PartialEq, Eq, Debug)]
pub enum ViewFault {
    /// There is no such kind.
    Kind,
    /// The input has more bytes than an input may have.
    Long,
    /// The input failed.
    Read,
    /// The digits of the input are not hex.
    Hex,
    /// Memory was refused.
    Memory,
    /// The sink failed, and has received a prefix of the view.
    Write,
}

impl ViewFault {
    /// The line that the program prints instead of a view. It is empty for `Write`.
    pub fn line(&self) -> &'static str
        ensures { result.now ≡ fault_line self.now }
    {
        match self {
            ViewFault::Kind => "error kind\n",
            ViewFault::Long => InputFault::Long.line(),
            ViewFault::Read => InputFault::Read.line(),
            ViewFault::Hex => InputFault::Hex.line(),
            ViewFault::Memory => InputFault::Memory.line(),
            ViewFault::Write => "",
        }
    }
}

impl From<AllocError> for ViewFault {
    ghost from_gives = { λ _ fault. fault ≡ Memory };

    fn from(_error: AllocError) -> ViewFault {
        ViewFault::Memory
    }
}

impl From<InputFault> for ViewFault {
    ghost from_gives = { λ fault view. view ≡ view_fault fault };

    fn from(fault: InputFault) -> ViewFault {
        match fault {
            InputFault::Long => ViewFault::Long,
            InputFault::Read => ViewFault::Read,
            InputFault::Hex => ViewFault::Hex,
            InputFault::Memory => ViewFault::Memory,
        }
    }
}
