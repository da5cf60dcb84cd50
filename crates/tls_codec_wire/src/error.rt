//! Errors: why a codec rejects bytes or a value.
ghost use Rattle.std.specs.Prelude.{◌≡◌};
ghost use Rattle.tls_codec_wire.specs.Names.{name_of};
ghost use Rattle.tls_codec_wire.specs.Foreign.{ErrorOfIo};
ghost use Rattle.tls_codec_wire.specs.declared.error.Error.TheVariants.{InvalidInput, InvalidVectorLength, OutOfMemory};

use std::alloc::{AllocError, AllocFailed};
use std::array::TryFromSliceError;
use std::io::ErrorKind;
use std::num::TryFromIntError;
use std::{fmt, io};

/// Why bytes were not read, or a value was not written.
///
/// Texts are constants, so making an error takes no memory. `Display` prints the `Debug` text, as
/// `EndOfStream` or `UnknownValue(7)`.
#[derive(Clone, Copy, PartialEq, Eq, Debug)]
pub enum Error {
    /// A value could not be written, also if the sink failed.
    EncodingError(&'static str),
    /// Decoding: a length or a variable-length integer isn't in its shortest form, or its field doesn't
    /// admit it. Encoding: a content's length is none that its field admits. Both: a vector would have
    /// more than `isize::MAX` bytes. Otherwise: a number is too large for a `TlsVarInt`, or, as a
    /// `TryFromIntError`, for its type.
    InvalidVectorLength,
    /// No call in Rattle returns it. Callers in other languages get it if their buffer is too
    /// small.
    InvalidWriteLength(&'static str),
    /// A slice has another length than the array it was to become.
    InvalidInput,
    /// Bytes encode no value, or the source failed.
    DecodingError(&'static str),
    /// Fewer bytes came than the value asks for.
    EndOfStream,
    /// All bytes were to be used, and a byte is left.
    TrailingData,
    /// No variant of an enum has this tag, or a constant or a closed enum not this number.
    UnknownValue(u64),
    /// A number has more than 24 bits, and was to become a `U24`.
    LibraryError,
    /// An allocation failed.
    OutOfMemory,
}

impl Error {
    /// The variant's name, as it is spelled in [`Error`].
    pub fn name(&self) -> &'static str
        ensures { result.now ≡ name_of self.now }
    {
        match self {
            Error::EncodingError(_) => "EncodingError",
            Error::InvalidVectorLength => "InvalidVectorLength",
            Error::InvalidWriteLength(_) => "InvalidWriteLength",
            Error::InvalidInput => "InvalidInput",
            Error::DecodingError(_) => "DecodingError",
            Error::EndOfStream => "EndOfStream",
            Error::TrailingData => "TrailingData",
            Error::UnknownValue(_) => "UnknownValue",
            Error::LibraryError => "LibraryError",
            Error::OutOfMemory => "OutOfMemory",
        }
    }
}

impl fmt::Display for Error {
    fn fmt<W: fmt::Write>(&self, f: &mut fmt::Formatter<W>) -> fmt::Result {
        write!(f, "{self:?}")
    }
}

impl std::error::Error for Error {}

impl From<AllocError> for Error {
    ghost from_gives = { λ _ e. e ≡ OutOfMemory };

    fn from(_e: AllocError) -> Error {
        Error::OutOfMemory
    }
}

impl<T: Drop> From<AllocFailed<T>> for Error {
    ghost from_gives = { λ _ e. e ≡ OutOfMemory };

    fn from(_e: AllocFailed<T>) -> Error {
        Error::OutOfMemory
    }
}

impl From<io::Error> for Error {
    ghost from_gives = { ErrorOfIo };

    fn from(e: io::Error) -> Error {
        match e.kind() {
            ErrorKind::UnexpectedEof => Error::EndOfStream,
            _ => Error::DecodingError("io error"),
        }
    }
}

impl From<TryFromSliceError> for Error {
    ghost from_gives = { λ _ e. e ≡ InvalidInput };

    fn from(_e: TryFromSliceError) -> Error {
        Error::InvalidInput
    }
}

impl From<TryFromIntError> for Error {
    ghost from_gives = { λ _ e. e ≡ InvalidVectorLength };

    fn from(_e: TryFromIntError) -> Error {
        Error::InvalidVectorLength
    }
}
