//! Lists of numbers by the engines. They go at once if their bytes are at hand, and one by one if not.
use super::each_call::expect_left;
use crate::tests::{holds, same};
use std::alloc::Global;
use std::process::Abort;
use std::test::Fail;
use tls_codec::lists::{self, Turns};
use tls_codec::{Deserialize, DeserializeBytes, Serialize, SerializeBytes, U24};
use tls_codec_vectors::Drip;

// The engines write the elements as these bytes, and read them from a prefix of more bytes. Each
// element takes a turn.
fn expect_a_run<T: Serialize + SerializeBytes + Deserialize + DeserializeBytes + PartialEq>(
    rt: &impl Abort,
    alloc: Global,
    elements: &[T],
    bytes: &[u8],
) -> Result<(), Fail> {
    same(rt, lists::content_len(elements), Ok(bytes.len()));
    let mut sent = Vec::new(alloc);
    same(rt, lists::write(&mut sent, elements), Ok(bytes.len()));
    same(rt, sent.as_slice(), bytes);
    let mut out = Vec::new(alloc);
    same(rt, lists::append(&mut out, elements), Ok(bytes.len()));
    same(
        rt,
        lists::append_bytes(alloc, &mut out, elements),
        Ok(bytes.len()),
    );
    assert!(rt; bytes.len() <= out.len());
    let (first, second) = out.split_at(bytes.len());
    same(rt, (first, second), (bytes, bytes));
    sent.push(0xee)?;
    let mut turns = Turns::new();
    let (found, rest) = lists::from_slice::<T>(alloc, &sent, bytes.len(), &mut turns)?;
    holds(rt, found.as_slice() == elements);
    same(rt, rest, [0xee].as_slice());
    let mut source = sent.as_slice();
    let found = lists::from_reader::<T, &[u8]>(alloc, &mut source, bytes.len(), &mut turns)?;
    holds(rt, found.as_slice() == elements);
    same(rt, source, [0xee].as_slice());
    let mut drip = Drip::new(&sent);
    let found = lists::from_reader::<T, Drip>(alloc, &mut drip, bytes.len(), &mut turns)?;
    holds(rt, found.as_slice() == elements);
    expect_left(rt, alloc, &mut drip, &[0xee])?;
    same(rt, turns.count(), (elements.len() as u64).saturating_mul(3));
    Ok(())
}

#[test]
fn runs_of_numbers(rt: HostRuntime) -> Result<(), Fail> {
    let alloc = rt.alloc();
    let digits = [
        0, 1, 2, 3, 4, 5, 6, 7, 0xff, 0xfe, 0xfd, 0xfc, 0xfb, 0xfa, 0xf9, 0xf8,
    ];
    expect_a_run::<u8>(&rt, alloc, &[], &[])?;
    expect_a_run::<u8>(&rt, alloc, &digits, &digits)?;
    expect_a_run::<u16>(
        &rt,
        alloc,
        &[1, 0x0203, 0x0405, 0x0607, 0xfffe],
        &digits[..10],
    )?;
    expect_a_run::<u32>(
        &rt,
        alloc,
        &[0x0001_0203, 0x0405_0607, 0xfffe_fdfc],
        &digits[..12],
    )?;
    expect_a_run::<u64>(
        &rt,
        alloc,
        &[0x0001_0203_0405_0607, 0xfffe_fdfc_fbfa_f9f8],
        &digits,
    )?;
    let numbers = [
        U24::try_from(0x00_0102usize)?,
        U24::try_from(0x03_0405usize)?,
        U24::try_from(0x06_07ffusize)?,
    ];
    expect_a_run::<U24>(&rt, alloc, &numbers, &digits[..9])
}

// Longer than the groups in which numbers are written.
#[test]
fn long_runs_of_numbers(rt: HostRuntime) -> Result<(), Fail> {
    let alloc = rt.alloc();
    for count in [63u16, 64, 65, 128, 300] {
        let mut shorts = Vec::new(alloc);
        let mut threes = Vec::new(alloc);
        let mut longs = Vec::new(alloc);
        let mut short_digits = Vec::new(alloc);
        let mut three_digits = Vec::new(alloc);
        let mut long_digits = Vec::new(alloc);
        for number in 0..count {
            let short = number.wrapping_mul(257);
            let three = U24::try_from(usize::from(short).wrapping_mul(251))?;
            let long = u64::MAX - u64::from(short);
            shorts.push(short)?;
            threes.push(three)?;
            longs.push(long)?;
            short_digits.extend_from_slice(&short.to_be_bytes())?;
            three_digits.extend_from_slice(&three.to_be_bytes())?;
            long_digits.extend_from_slice(&long.to_be_bytes())?;
        }
        expect_a_run::<u16>(&rt, alloc, &shorts, &short_digits)?;
        expect_a_run::<U24>(&rt, alloc, &threes, &three_digits)?;
        expect_a_run::<u64>(&rt, alloc, &longs, &long_digits)?;
    }
    Ok(())
}
