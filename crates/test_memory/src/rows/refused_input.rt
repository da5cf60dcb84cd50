//! Input that is rejected for its bytes keeps its error, whatever a length in it declares: memory
//! is requested only if the bytes that need it are there. A box of nothing makes a request of its
//! own. The element that it would be is rejected before the list requests room.
use super::{Requests, Wrong, same};
use std::alloc::Global;
use tls_codec::{Always, Deserialize, DeserializeBytes, Error, TlsByteVecU32, VLBytes};
use tls_codec_validate::{Validate, ValidateFor};

pub fn all(alloc: Global, requests: &mut Requests) -> Result<(), Wrong> {
    slices(alloc, requests)?;
    sources(alloc, requests)?;
    validated(alloc, requests)
}

const EMPTY_ELEMENT: Error = Error::DecodingError("vector element consumed 0 bytes");

// Three bytes, after the greatest length.
const LONG_BYTES: [u8; 7] = [0xff, 0xff, 0xff, 0xff, 1, 2, 3];

const CUT_OFF: Error = Error::DecodingError("declared content is not there");

// The slice path rejects these bytes after `count` requests.
fn expect_not_split<T: DeserializeBytes>(
    alloc: Global,
    requests: &mut Requests,
    count: u64,
    bytes: &[u8],
    error: Error,
) -> Result<(), Wrong> {
    let outcome = counted!(requests, count, T::tls_deserialize_bytes(alloc, bytes));
    same(outcome.err(), Some(error))
}

// The reader path does.
fn expect_not_read<T: Deserialize>(
    alloc: Global,
    requests: &mut Requests,
    count: u64,
    bytes: &[u8],
    error: Error,
) -> Result<(), Wrong> {
    let mut source = bytes;
    let outcome = counted!(
        requests,
        count,
        T::tls_deserialize(alloc, &mut source),
        Error::OutOfMemory,
        source = bytes
    );
    same(outcome.err(), Some(error))
}

fn slices(alloc: Global, requests: &mut Requests) -> Result<(), Wrong> {
    requests.begin("slices");
    expect_not_split::<Vec<Box<()>>>(alloc, requests, 1, &[1], EMPTY_ELEMENT)?;
    expect_not_split::<VLBytes>(alloc, requests, 0, &[0xbf, 0xff, 0xff, 0xff, 1], CUT_OFF)?;
    expect_not_split::<String>(alloc, requests, 0, &[5, 1, 2], CUT_OFF)?;
    expect_not_split::<TlsByteVecU32>(alloc, requests, 0, &LONG_BYTES, Error::EndOfStream)?;
    expect_not_split::<Vec<u16>>(
        alloc,
        requests,
        0,
        &[0xbf, 0xff, 0xff, 0xff, 0],
        Error::EndOfStream,
    )?;
    expect_not_split::<Vec<u16>>(alloc, requests, 1, &[3, 0, 1, 0], Error::EndOfStream)?;
    Ok(())
}

fn sources(alloc: Global, requests: &mut Requests) -> Result<(), Wrong> {
    requests.begin("sources");
    expect_not_read::<Vec<Box<()>>>(alloc, requests, 1, &[1], EMPTY_ELEMENT)?;
    expect_not_read::<Vec<u16>>(
        alloc,
        requests,
        0,
        &[0xbf, 0xff, 0xff, 0xff, 0],
        Error::EndOfStream,
    )?;
    expect_not_read::<Vec<u16>>(alloc, requests, 1, &[3, 0, 1, 0], Error::EndOfStream)?;
    expect_not_read::<VLBytes>(
        alloc,
        requests,
        1,
        &[0xbf, 0xff, 0xff, 0xff, 1],
        Error::EndOfStream,
    )?;
    expect_not_read::<TlsByteVecU32>(alloc, requests, 1, &LONG_BYTES, Error::EndOfStream)?;
    Ok(())
}

// Bytes that are validated first are rejected without a request. The slice path makes one for these.
fn validated(alloc: Global, requests: &mut Requests) -> Result<(), Wrong> {
    requests.begin("validated");
    let bytes = [3, 0, 1, 0].as_slice();
    let cut_off = Some(Error::EndOfStream);
    let whole = counted!(
        requests,
        0,
        <Vec<u16>>::tls_deserialize_validated(alloc, bytes)
    );
    same(whole.err(), cut_off)?;
    let prefix = counted!(
        requests,
        0,
        <Vec<u16>>::tls_deserialize_validated_prefix(alloc, bytes)
    );
    same(prefix.err(), cut_off)?;
    let whole = counted!(
        requests,
        0,
        <Always<Vec<u16>>>::tls_deserialize_validated_for(&7u8, alloc, bytes)
    );
    same(whole.err(), cut_off)?;
    let prefix = counted!(
        requests,
        0,
        <Always<Vec<u16>>>::tls_deserialize_validated_prefix_for(&7u8, alloc, bytes)
    );
    same(prefix.err(), cut_off)
}
