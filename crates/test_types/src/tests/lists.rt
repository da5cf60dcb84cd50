//! Lists that no bytes are read as, and parts that are borrowed.
use super::NO_BYTES;
use super::each_call::{
    expect_read_whole, expect_rejected, expect_too_long_alone, expect_written, filled,
};
use std::test::Fail;
use tls_codec::{TlsByteVecU8, TlsVecU8, TlsVecU16, TlsVecU32};

#[test]
fn lists_of_elements_without_bytes(rt: HostRuntime) -> Result<(), Fail> {
    let alloc = rt.alloc();
    let units = [(), ()].to_vec(alloc)?;
    expect_written(&rt, alloc, &units, &[0])?;
    expect_written(&rt, alloc, &units.as_slice(), &[0])?;
    expect_read_whole(&rt, alloc, &[0], &Vec::<()>::new(alloc))?;
    expect_rejected::<Vec<()>>(&rt, alloc, &[1], NO_BYTES);
    expect_written(&rt, alloc, &TlsVecU8::from_slice(alloc, &[(), ()])?, &[0])
}

#[test]
fn parts_that_are_borrowed(rt: HostRuntime) -> Result<(), Fail> {
    let alloc = rt.alloc();
    let numbers = [1u16, 2].to_vec(alloc)?;
    let bytes = [7, 4, 0, 1, 0, 2, 1, 2, 0xc3, 0xa9];
    expect_written(&rt, alloc, &(7u8, numbers, Some("é")), &bytes)?;
    let list = TlsVecU8::from_slice(alloc, &[77u8, 88, 1, 99])?;
    let bytes = [0x01, 0x04, 0x4d, 0x58, 0x01, 0x63];
    expect_written(&rt, alloc, &(1u8, &list), &bytes)?;
    let bytes = TlsVecU16::from_slice(alloc, &[1u8, 2, 3])?;
    let numbers = TlsVecU32::from_slice(alloc, &[1u16, 2, 3])?;
    let pair = [0, 3, 1, 2, 3, 0, 0, 0, 6, 0, 1, 0, 2, 0, 3];
    expect_written(&rt, alloc, &(&bytes, &numbers), &pair)
}

// The length of the list is sent before the encoder rejects the inner vector.
#[test]
fn a_list_of_too_many_bytes(rt: HostRuntime) -> Result<(), Fail> {
    let alloc = rt.alloc();
    let mut list: Vec<TlsByteVecU8> = Vec::new(alloc);
    list.push(TlsByteVecU8::new(filled(alloc, 300, 7)?))?;
    expect_too_long_alone(&rt, alloc, &list, 303, &[0x41, 0x2d])
}
