//! The status and the detail of an error, in plain numbers.
ghost use Rattle.std.specs.Prelude.{◌≡◌};
ghost use Rattle.tls_codec_outcome.specs.Statuses.{detail_number, status_number};

use tls_codec_wire::Error;

/// The number of an error: from 1 to 10, in the order of the variants. It never changes.
pub fn status_of(error: &Error) -> u32
    ensures { result ≡ status_number error.now }
{
    match error {
        Error::EncodingError(_) => 1,
        Error::InvalidVectorLength => 2,
        Error::InvalidWriteLength(_) => 3,
        Error::InvalidInput => 4,
        Error::DecodingError(_) => 5,
        Error::EndOfStream => 6,
        Error::TrailingData => 7,
        Error::UnknownValue(_) => 8,
        Error::LibraryError => 9,
        Error::OutOfMemory => 10,
    }
}

/// The value that `UnknownValue` has; of other errors 0.
pub fn detail_of(error: &Error) -> u64
    ensures { result ≡ detail_number error.now }
{
    match error {
        Error::UnknownValue(value) => *value,
        _ => 0,
    }
}
