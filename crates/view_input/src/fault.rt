//! Why an input isn't read, or stands for no bytes.
ghost use Rattle.std.specs.Prelude.{◌≡◌};
ghost use Rattle.view_input.specs.Faults.{fault_line};
ghost use Rattle.view_input.specs.declared.fault.InputFault.TheVariants.{Memory};

use std::alloc::AllocError;

/// Why an input isn't read, or stands for no bytes.
#[derive(Clone, Copy, PartialEq, Eq, Debug)]
pub enum InputFault {
    /// It has more bytes than an input may have.
    Long,
    /// It failed.
    Read,
    /// Its digits are not hex.
    Hex,
    /// Memory was refused.
    Memory,
}

impl InputFault {
    /// The line that a program prints then.
    pub fn line(&self) -> &'static str
        ensures { result.now ≡ fault_line self.now }
    {
        match self {
            InputFault::Long => "error long\n",
            InputFault::Read => "error read\n",
            InputFault::Hex => "error hex\n",
            InputFault::Memory => "error memory\n",
        }
    }
}

impl From<AllocError> for InputFault {
    ghost from_gives = { λ _ fault. fault ≡ Memory };

    fn from(_error: AllocError) -> InputFault {
        InputFault::Memory
    }
}
