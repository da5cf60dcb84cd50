//! Values of several parts, and byte vectors, by both paths and each encoder.
use super::{Requests, Wrong, expect_of_the_order, full, same};
use std::alloc::Global;
use tls_codec::{
    Deserialize, DeserializeBytes, Error, Serialize, SerializeBytes, TlsByteVecU8, TlsVecU16,
    VLBytes,
};
use tls_codec_vectors::{Leaf, Log, Step};

pub fn all(alloc: Global, requests: &mut Requests) -> Result<(), Wrong> {
    a_triple_is_made(alloc, requests)?;
    a_triple_is_appended(alloc, requests)?;
    a_triple_is_split(alloc, requests)?;
    a_triple_is_read(alloc, requests)?;
    a_message_is_made(alloc, requests)?;
    a_message_is_appended(alloc, requests)?;
    a_message_is_split(alloc, requests)?;
    a_message_is_read(alloc, requests)?;
    bytes_are_written(alloc, requests)
}

const MIXED: [u8; 10] = [7, 4, 0, 1, 0, 2, 1, 2, 0xc3, 0xa9];

const LOG: [u8; 14] = [1, 0xab, 0, 4, 0, 1, 1, 7, 1, 2, 0, 0, 0, 5];

fn mixed(alloc: Global) -> Result<(u8, Vec<u16>, Option<String>), Error> {
    let numbers = [1u16, 2].to_vec(alloc)?;
    let text = String::from_str(alloc, "é")?;
    Ok((7, numbers, Some(text)))
}

fn worked_log(alloc: Global) -> Result<Log, Error> {
    let name = VLBytes::from_array(alloc, &[7])?;
    Ok(Log {
        id: TlsByteVecU8::from_slice(alloc, &[0xab])?,
        leaves: TlsVecU16::try_from_iter(alloc, [Leaf { code: 1, name }])?,
        last: Some(Step::Jump(5)),
    })
}

// The value is written as these bytes to a vector of its own.
fn expect_made<T: Serialize>(
    alloc: Global,
    requests: &mut Requests,
    count: u64,
    value: &T,
    bytes: &[u8],
) -> Result<(), Wrong> {
    let form = counted!(requests, count, value.tls_serialize_detached(alloc))?;
    same(form.as_slice(), bytes)?;
    expect_of_the_order(form.capacity(), form.len())
}

// It is written as these bytes after what a full vector has.
fn expect_appended<T: Serialize>(
    alloc: Global,
    requests: &mut Requests,
    count: u64,
    value: &T,
    bytes: &[u8],
) -> Result<(), Wrong> {
    let unchanged = [0xee].as_slice();
    let mut out = full(alloc, requests, unchanged)?;
    let length = counted!(
        requests,
        count,
        value.tls_serialize_into(&mut out),
        Error::OutOfMemory,
        same(out.as_slice(), unchanged)?
    )?;
    same(length, bytes.len())?;
    same(out.get(1..), Some(bytes))?;
    expect_of_the_order(out.capacity(), out.len())
}

// The slice path reads the value from these bytes, and leaves none.
fn expect_split<T: DeserializeBytes + PartialEq>(
    alloc: Global,
    requests: &mut Requests,
    count: u64,
    bytes: &[u8],
    value: &T,
) -> Result<(), Wrong> {
    let (found, rest) = counted!(requests, count, T::tls_deserialize_bytes(alloc, bytes))?;
    same(found == *value, true)?;
    same(rest.is_empty(), true)?;
    Ok(())
}

// The reader path does. After a refusal the bytes come once more.
fn expect_read<T: Deserialize + PartialEq>(
    alloc: Global,
    requests: &mut Requests,
    count: u64,
    bytes: &[u8],
    value: &T,
) -> Result<(), Wrong> {
    let mut source = bytes;
    let found = counted!(
        requests,
        count,
        T::tls_deserialize(alloc, &mut source),
        Error::OutOfMemory,
        source = bytes
    )?;
    same(found == *value, true)?;
    same(source.is_empty(), true)?;
    Ok(())
}

fn a_triple_is_made(alloc: Global, requests: &mut Requests) -> Result<(), Wrong> {
    requests.begin("a_triple_is_made");
    let value = counted!(requests, 2, mixed(alloc))?;
    expect_made(alloc, requests, 2, &value, &MIXED)?;
    Ok(())
}

fn a_triple_is_appended(alloc: Global, requests: &mut Requests) -> Result<(), Wrong> {
    requests.begin("a_triple_is_appended");
    let value = counted!(requests, 2, mixed(alloc))?;
    expect_appended(alloc, requests, 2, &value, &MIXED)?;
    Ok(())
}

fn a_triple_is_split(alloc: Global, requests: &mut Requests) -> Result<(), Wrong> {
    requests.begin("a_triple_is_split");
    let value = counted!(requests, 2, mixed(alloc))?;
    expect_split(alloc, requests, 2, &MIXED, &value)?;
    Ok(())
}

fn a_triple_is_read(alloc: Global, requests: &mut Requests) -> Result<(), Wrong> {
    requests.begin("a_triple_is_read");
    let value = counted!(requests, 2, mixed(alloc))?;
    expect_read(alloc, requests, 3, &MIXED, &value)?;
    Ok(())
}

fn a_message_is_made(alloc: Global, requests: &mut Requests) -> Result<(), Wrong> {
    requests.begin("a_message_is_made");
    let value = counted!(requests, 3, worked_log(alloc))?;
    expect_made(alloc, requests, 3, &value, &LOG)?;
    Ok(())
}

fn a_message_is_appended(alloc: Global, requests: &mut Requests) -> Result<(), Wrong> {
    requests.begin("a_message_is_appended");
    let value = counted!(requests, 3, worked_log(alloc))?;
    expect_appended(alloc, requests, 2, &value, &LOG)?;
    Ok(())
}

fn a_message_is_split(alloc: Global, requests: &mut Requests) -> Result<(), Wrong> {
    requests.begin("a_message_is_split");
    let value = counted!(requests, 3, worked_log(alloc))?;
    expect_split(alloc, requests, 3, &LOG, &value)?;
    Ok(())
}

fn a_message_is_read(alloc: Global, requests: &mut Requests) -> Result<(), Wrong> {
    requests.begin("a_message_is_read");
    let value = counted!(requests, 3, worked_log(alloc))?;
    expect_read(alloc, requests, 3, &LOG, &value)?;
    Ok(())
}

// Byte vectors on both sides of where their length gets wider. Each is a prefix of the one before.
fn bytes_are_written(alloc: Global, requests: &mut Requests) -> Result<(), Wrong> {
    requests.begin("bytes_are_written");
    let mut content = counted!(requests, 1, filled(alloc, 16_384))?;
    for (count, length) in [
        (16_384, [0x80, 0, 0x40, 0].as_slice()),
        (16_383, &[0x7f, 0xff]),
        (64, &[0x40, 0x40]),
        (63, &[0x3f]),
    ] {
        content.truncate(count);
        let bytes = VLBytes::new(content);
        let form = counted!(requests, 1, bytes.tls_serialize_bytes(alloc))?;
        same(form.strip_prefix(length), Some(bytes.as_slice()))?;
        content = Vec::from(bytes);
    }
    Ok(())
}

fn filled(alloc: Global, count: usize) -> Result<Vec<u8>, Error> {
    Ok(vec![in alloc; 0x63; count]?)
}
