//! Length fields.
use crate::tests::{holds, same};
use std::alloc::Global;
use std::process::Abort;
use std::test::Fail;
use tls_codec::{Error, LengthField, TlsVarInt, U24};

// These bytes encode the length. Both paths read them, and reject them if a byte is missing.
fn expect_encoded_as<F: LengthField>(
    rt: &impl Abort,
    alloc: Global,
    length: usize,
    form: &[u8],
) -> Result<(), Fail> {
    same(rt, F::width(length), form.len());
    let Some(found) = F::form(length) else {
        return Err(Fail::from(Error::InvalidVectorLength));
    };
    let (bytes, at) = found;
    same(rt, &bytes[at..], form);
    let mut whole = form.to_vec(alloc)?;
    whole.extend_from_slice(&[0xee])?;
    let (split, rest) = F::split_length(&whole)?;
    same(rt, split, length);
    same(rt, rest, [0xee].as_slice());
    let mut src = whole.as_slice();
    same(rt, F::read_length(&mut src), Ok(length));
    same(rt, src, [0xee].as_slice());
    let mut cut = &form[..form.len().saturating_sub(1)];
    holds(rt, F::split_length(cut) == Err(Error::EndOfStream));
    same(rt, F::read_length(&mut cut), Err(Error::EndOfStream));
    Ok(())
}

#[test]
fn lengths_are_spelled(rt: HostRuntime) -> Result<(), Fail> {
    let alloc = rt.alloc();
    expect_encoded_as::<u8>(&rt, alloc, 0, &[0])?;
    expect_encoded_as::<u8>(&rt, alloc, 255, &[0xff])?;
    expect_encoded_as::<u16>(&rt, alloc, 258, &[1, 2])?;
    expect_encoded_as::<u16>(&rt, alloc, 65_535, &[0xff, 0xff])?;
    expect_encoded_as::<U24>(&rt, alloc, 65_609, &[1, 0, 0x49])?;
    expect_encoded_as::<U24>(&rt, alloc, 16_777_215, &[0xff, 0xff, 0xff])?;
    expect_encoded_as::<u32>(&rt, alloc, 16_777_216, &[1, 0, 0, 0])?;
    expect_encoded_as::<u32>(&rt, alloc, 4_294_967_295, &[0xff, 0xff, 0xff, 0xff])?;
    expect_encoded_as::<TlsVarInt>(&rt, alloc, 37, &[0x25])?;
    expect_encoded_as::<TlsVarInt>(&rt, alloc, 15_293, &[0x7b, 0xbd])?;
    expect_encoded_as::<TlsVarInt>(&rt, alloc, 494_878_333, &[0x9d, 0x7f, 0x3e, 0x7d])?;
    expect_encoded_as::<TlsVarInt>(&rt, alloc, 1_073_741_823, &[0xbf, 0xff, 0xff, 0xff])?;
    Ok(())
}

#[test]
fn long_lengths_have_no_spelling(rt: HostRuntime) {
    holds(&rt, u8::form(256).is_none());
    holds(&rt, u16::form(65_536).is_none());
    holds(&rt, U24::form(16_777_216).is_none());
    holds(&rt, u32::form(4_294_967_296).is_none());
    holds(&rt, TlsVarInt::form(1_073_741_824).is_none());
}
