//! Those after a length of one to four bytes.
use super::{GREATEST, expect_copied_and_grown, expect_read_back, sizes_to};
use crate::tests::each_call::{expect_written, expect_written_alone, filled};
use crate::tests::{holds, same};
use std::alloc::{AllocError, Global};
use std::process::Abort;
use std::test::Fail;
use tls_codec::{LengthField, SecretTlsVec, TlsByteVec, TlsVec, U24};

// The content after its length of `width` bytes.
fn spelled(alloc: Global, width: usize, content: &[u8]) -> Result<Vec<u8>, AllocError> {
    let length = content.len().to_be_bytes();
    let mut form = length[8usize.saturating_sub(width)..].to_vec(alloc)?;
    form.extend_from_slice(content)?;
    Ok(form)
}

// What a list of bytes does at each size, after a length of `width` bytes.
macro_rules! expect_list_of_bytes {
    ($rt:ident, $alloc:ident, $Owned:ty, $expect_written:ident, $width:ident, $most:ident) => {
        for size in sizes_to($alloc, $most)? {
            let content = filled($alloc, size, 0x61)?;
            let form = spelled($alloc, $width, &content)?;
            let mut owned = <$Owned>::from_slice($alloc, &content)?;
            $expect_written($rt, $alloc, &owned, &form)?;
            expect_read_back($rt, $alloc, &owned, &form)?;
            let given = <$Owned>::try_from_iter($alloc, content.iter().copied())?;
            holds($rt, given == owned);
            expect_copied_and_grown!($rt, owned, content);
        }
    };
}

fn expect_byte_vectors<F: LengthField>(
    rt: &impl Abort,
    alloc: Global,
    width: usize,
    most: usize,
) -> Result<(), Fail> {
    expect_list_of_bytes!(rt, alloc, TlsByteVec<F>, expect_written_alone, width, most);
    Ok(())
}

fn expect_lists<F: LengthField>(
    rt: &impl Abort,
    alloc: Global,
    width: usize,
    most: usize,
) -> Result<(), Fail> {
    expect_list_of_bytes!(rt, alloc, TlsVec<F, u8>, expect_written, width, most);
    Ok(())
}

fn expect_secrets<F: LengthField>(
    rt: &impl Abort,
    alloc: Global,
    width: usize,
    most: usize,
) -> Result<(), Fail> {
    expect_list_of_bytes!(rt, alloc, SecretTlsVec<F, u8>, expect_written, width, most);
    Ok(())
}

#[test]
fn sizes_of_byte_vectors_after_one_or_three_bytes(rt: HostRuntime) -> Result<(), Fail> {
    expect_byte_vectors::<u8>(&rt, rt.alloc(), 1, 255)?;
    expect_byte_vectors::<U24>(&rt, rt.alloc(), 3, GREATEST)
}

#[test]
fn sizes_of_byte_vectors_after_two_or_four_bytes(rt: HostRuntime) -> Result<(), Fail> {
    expect_byte_vectors::<u16>(&rt, rt.alloc(), 2, 65_535)?;
    expect_byte_vectors::<u32>(&rt, rt.alloc(), 4, GREATEST)
}

#[test]
fn sizes_of_lists_after_one_or_three_bytes(rt: HostRuntime) -> Result<(), Fail> {
    expect_lists::<u8>(&rt, rt.alloc(), 1, 255)?;
    expect_lists::<U24>(&rt, rt.alloc(), 3, GREATEST)
}

#[test]
fn sizes_of_lists_after_two_or_four_bytes(rt: HostRuntime) -> Result<(), Fail> {
    expect_lists::<u16>(&rt, rt.alloc(), 2, 65_535)?;
    expect_lists::<u32>(&rt, rt.alloc(), 4, GREATEST)
}

#[test]
fn sizes_of_secrets_after_one_or_three_bytes(rt: HostRuntime) -> Result<(), Fail> {
    expect_secrets::<u8>(&rt, rt.alloc(), 1, 255)?;
    expect_secrets::<U24>(&rt, rt.alloc(), 3, GREATEST)
}

#[test]
fn sizes_of_secrets_after_two_or_four_bytes(rt: HostRuntime) -> Result<(), Fail> {
    expect_secrets::<u16>(&rt, rt.alloc(), 2, 65_535)?;
    expect_secrets::<u32>(&rt, rt.alloc(), 4, GREATEST)
}
