//! The calls, for any type.
ghost use Rattle.std.specs.Prelude.{◌≡◌, ◌-◌, length};
ghost use Rattle.tls_codec_outcome.specs.Statuses.{detail_number, status_number};
ghost use Rattle.tls_codec_outcome.specs.Outcomes.{Decides, DecidesInMemory, IsNamed, IsRejection, IsTaken};

use crate::outcome::{ACCEPTED, Outcome};
use crate::statuses::{detail_of, status_of};
use std::alloc::Global;
use tls_codec_base::DeserializeBytes;
use tls_codec_validate::Validate;
use tls_codec_wire::Error;

/// Whether the bytes begin with an encoding of a `T`. Requests no memory.
pub fn validate<T: Validate>(bytes: &[u8]) -> Outcome
    ensures status { Decides T.format bytes.now result.status }
    ensures taken { IsTaken T.format bytes.now result.status result.taken }
    ensures rejected { IsRejection T.names T.places bytes.now result.status result.at
        result.detail }
{
    match T::tls_validate_prefix(bytes) {
        Ok(rest) => accepted(bytes, rest),
        Err(rejected) => Outcome {
            at: rejected.at(bytes),
            ..rejection(&rejected.error)
        },
    }
}

/// The same by the decoder, which makes the value and drops it. It reports no place, so `at` is 0.
///
/// `OutOfMemory`: allocation failed, and nothing is said of the bytes.
pub fn decode_check<T: DeserializeBytes>(alloc: Global, bytes: &[u8]) -> Outcome
    ensures status { DecidesInMemory T.format bytes.now result.status }
    ensures taken { IsTaken T.format bytes.now result.status result.taken }
    ensures detail { IsNamed T.names bytes.now result.status result.detail }
    ensures at { result.at ≡ 0 }
{
    match T::tls_deserialize_bytes(alloc, bytes) {
        Ok((_value, rest)) => accepted(bytes, rest),
        Err(error) => rejection(&error),
    }
}

// The answer for bytes that begin with an encoding. This is the rest of them.
#[inline(always)]
fn accepted(bytes: &[u8], rest: &[u8]) -> Outcome
    ensures status { result.status ≡ 0 }
    ensures taken { result.taken ≡ length bytes.now - length rest.now }
    ensures at { result.at ≡ 0 }
    ensures detail { result.detail ≡ 0 }
{
    Outcome {
        status: ACCEPTED,
        taken: bytes.len().saturating_sub(rest.len()),
        at: 0,
        detail: 0,
    }
}

// The answer for bytes with this error, without a place.
#[inline(always)]
fn rejection(error: &Error) -> Outcome
    ensures status { result.status ≡ status_number error.now }
    ensures taken { result.taken ≡ 0 }
    ensures at { result.at ≡ 0 }
    ensures detail { result.detail ≡ detail_number error.now }
{
    Outcome {
        status: status_of(error),
        taken: 0,
        at: 0,
        detail: detail_of(error),
    }
}
