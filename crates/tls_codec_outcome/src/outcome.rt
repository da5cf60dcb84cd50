//! [`Outcome`]: the result of a call.

/// The status of bytes that begin with an encoding.
pub const ACCEPTED: u32 = 0;

/// The result of a call.
#[repr(C)]
#[derive(Clone, Copy, PartialEq, Eq, Debug)]
pub struct Outcome {
    /// [`ACCEPTED`] if the bytes begin with an encoding, and else the number of the error.
    pub status: u32,
    /// How many bytes the encoding has; 0 if there is none.
    pub taken: usize,
    /// The offset of the rejected field's first byte; 0 if the bytes are accepted.
    pub at: usize,
    /// The unknown number, if the error is `UnknownValue`; 0 for other errors.
    pub detail: u64,
}
