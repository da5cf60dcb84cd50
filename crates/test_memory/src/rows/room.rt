//! How much room a call asks for. The capacity of what it returns shows it: it is of the order of
//! the bytes or elements there, whatever follows them.
use super::{Requests, Wrong, expect_of_the_order, full, same};
use std::alloc::Global;
use tls_codec::{
    Deserialize, DeserializeBytes, Error, Outside, Serialize, TlsByteVecU8, TlsByteVecU32,
    TlsVecU8, VLByteVec, VLBytes, vlen,
};

pub fn all(alloc: Global, requests: &mut Requests) -> Result<(), Wrong> {
    short_fields_before_many_bytes(alloc, requests)?;
    short_fields_of_a_source_with_none_at_hand(alloc, requests)?;
    short_lists_before_many_bytes(alloc, requests)?;
    copies(alloc, requests)?;
    bytes_written_after_others(alloc, requests)?;
    a_length_put_before_bytes(alloc, requests)?;
    a_length_wider_than_likely(alloc, requests)
}

// A count of two, two bytes, and many more.
const MANY: [u8; 8192] = [2; 8192];

// Four bytes of a count, which is two, two bytes, and more.
const COUNTED: [u8; 16] = [0, 0, 0, 2, 1, 2, 3, 4, 5, 6, 7, 8, 9, 10, 11, 12];

fn short_fields_before_many_bytes(alloc: Global, requests: &mut Requests) -> Result<(), Wrong> {
    requests.begin("short_fields_before_many_bytes");
    let mut source = MANY.as_slice();
    let found = counted!(
        requests,
        1,
        VLBytes::tls_deserialize(alloc, &mut source),
        Error::OutOfMemory,
        source = MANY.as_slice()
    )?;
    expect_bytes(Vec::from(found), &[2, 2])?;
    let (found, _) = counted!(requests, 1, VLBytes::tls_deserialize_bytes(alloc, &MANY))?;
    expect_bytes(Vec::from(found), &[2, 2])?;
    let mut source = COUNTED.as_slice();
    let found = counted!(
        requests,
        1,
        TlsByteVecU32::tls_deserialize(alloc, &mut source),
        Error::OutOfMemory,
        source = COUNTED.as_slice()
    )?;
    expect_bytes(found.into_vec(), &[1, 2])
}

fn short_fields_of_a_source_with_none_at_hand(
    alloc: Global,
    requests: &mut Requests,
) -> Result<(), Wrong> {
    requests.begin("short_fields_of_a_source_with_none_at_hand");
    let found = counted!(
        requests,
        1,
        VLBytes::tls_deserialize(alloc, &mut Outside::new(MANY.as_slice()))
    )?;
    expect_bytes(Vec::from(found), &[2, 2])?;
    let found = counted!(
        requests,
        1,
        TlsByteVecU32::tls_deserialize(alloc, &mut Outside::new(COUNTED.as_slice()))
    )?;
    expect_bytes(found.into_vec(), &[1, 2])
}

fn short_lists_before_many_bytes(alloc: Global, requests: &mut Requests) -> Result<(), Wrong> {
    requests.begin("short_lists_before_many_bytes");
    let mut source = MANY.as_slice();
    let found = counted!(
        requests,
        2,
        Vec::<u16>::tls_deserialize(alloc, &mut source),
        Error::OutOfMemory,
        source = MANY.as_slice()
    )?;
    expect_numbers(found)?;
    let (found, _) = counted!(requests, 1, Vec::<u16>::tls_deserialize_bytes(alloc, &MANY))?;
    expect_numbers(found)?;
    let found = counted!(
        requests,
        2,
        Vec::<u16>::tls_deserialize(alloc, &mut Outside::new(MANY.as_slice()))
    )?;
    expect_numbers(found)?;
    let (found, _) = counted!(
        requests,
        1,
        TlsVecU8::<u16>::tls_deserialize_bytes(alloc, &MANY)
    )?;
    expect_numbers(found.into_vec())
}

fn copies(alloc: Global, requests: &mut Requests) -> Result<(), Wrong> {
    requests.begin("copies");
    let content = [1, 2, 3].as_slice();
    let copy = counted!(requests, 1, VLBytes::from_slice(alloc, content))?;
    let again = counted!(requests, 1, copy.clone())?;
    expect_bytes(Vec::from(copy), content)?;
    expect_bytes(Vec::from(again), content)?;
    let copy = counted!(requests, 1, VLByteVec::from_slice(alloc, content))?;
    expect_bytes(Vec::from(copy), content)?;
    let copy = counted!(requests, 1, TlsByteVecU8::from_slice(alloc, content))?;
    expect_bytes(copy.into_vec(), content)?;
    let collected = counted!(requests, 1, TlsByteVecU8::try_from_iter(alloc, [1, 2, 3]))?;
    expect_bytes(collected.into_vec(), content)
}

fn bytes_written_after_others(alloc: Global, requests: &mut Requests) -> Result<(), Wrong> {
    requests.begin("bytes_written_after_others");
    let bytes = counted!(requests, 1, VLBytes::from_slice(alloc, &[1, 2]))?;
    let mut out = full(alloc, requests, &[0xee])?;
    counted!(requests, 1, bytes.tls_serialize_into(&mut out))?;
    expect_bytes(out, &[0xee, 2, 1, 2])
}

fn a_length_put_before_bytes(alloc: Global, requests: &mut Requests) -> Result<(), Wrong> {
    requests.begin("a_length_put_before_bytes");
    let mut out = full(alloc, requests, &[1, 2])?;
    counted!(requests, 1, vlen::insert_length(&mut out, 0))?;
    expect_bytes(out, &[2, 1, 2])
}

// The room for the length of a list is guessed, and here it is two bytes short.
fn a_length_wider_than_likely(alloc: Global, requests: &mut Requests) -> Result<(), Wrong> {
    requests.begin("a_length_wider_than_likely");
    let list = counted!(requests, 2, one_long(alloc))?;
    let form = counted!(requests, 3, list.tls_serialize_detached(alloc))?;
    same(form.len(), 20_008)?;
    expect_of_the_order(form.capacity(), form.len())
}

fn one_long(alloc: Global) -> Result<Vec<VLBytes>, Error> {
    let bytes = VLBytes::new(vec![in alloc; 0x63; 20_000]?);
    Ok(TlsVecU8::<VLBytes>::try_from_iter(alloc, [bytes])?.into_vec())
}

fn expect_bytes(found: Vec<u8>, bytes: &[u8]) -> Result<(), Wrong> {
    same(found.as_slice(), bytes)?;
    expect_of_the_order(found.capacity(), found.len())
}

fn expect_numbers(found: Vec<u16>) -> Result<(), Wrong> {
    same(found.as_slice(), [0x0202].as_slice())?;
    expect_of_the_order(found.capacity(), found.len())
}
