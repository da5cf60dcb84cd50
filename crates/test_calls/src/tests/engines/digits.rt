//! Calls on digits, and lengths that are sent or put into a gap, as your own encoders use them.
use crate::tests::{holds, same};
use std::alloc::Global;
use std::process::Abort;
use std::test::Fail;
use tls_codec_base::LengthField;
use tls_codec_grammar::digits::{
    append_digits, digits_vector, read_digits, split_digits, write_digits,
};
use tls_codec_grammar::length_field::{fill_gap, open_gap, write_length};
use tls_codec_wire::{Error, TlsVarInt, U24};

#[test]
fn digits_by_each_call(rt: HostRuntime) -> Result<(), Fail> {
    let alloc = rt.alloc();
    let digits = [0x01, 0x03, 0x9d];
    let mut whole = digits_vector(alloc, &digits)?;
    same(&rt, append_digits(&mut whole, &[0xee]), Ok(1));
    same(&rt, write_digits(&mut whole, &digits), Ok(3));
    same(
        &rt,
        whole.as_slice(),
        [0x01, 0x03, 0x9d, 0xee, 0x01, 0x03, 0x9d].as_slice(),
    );
    let (split, rest) = split_digits::<3>(&whole)?;
    same(&rt, split, digits);
    same(&rt, rest, [0xee, 0x01, 0x03, 0x9d].as_slice());
    let mut src = whole.as_slice();
    let read: [u8; 3] = read_digits(&mut src)?;
    same(&rt, read, digits);
    same(&rt, src, rest);
    holds(&rt, split_digits::<8>(&whole) == Err(Error::EndOfStream));
    Ok(())
}

// The bytes 9, 8 after their length, which is put into a gap of two bytes, and sent by itself.
fn expect_put<F: LengthField>(rt: &impl Abort, alloc: Global, form: &[u8]) -> Result<(), Fail> {
    let mut out = [0xaa].to_vec(alloc)?;
    open_gap(&mut out, 2, 2)?;
    out.extend_from_slice(&[9, 8])?;
    same(rt, fill_gap::<F>(&mut out, 1, 2), Ok(form.len()));
    let mut sent = [0xaa].to_vec(alloc)?;
    same(rt, write_length::<F, Vec<u8>>(&mut sent, 2), Ok(form.len()));
    same(rt, sent.get(1..), Some(form));
    sent.extend_from_slice(&[9, 8])?;
    same(rt, out, sent);
    Ok(())
}

#[test]
fn lengths_are_put_into_their_gap(rt: HostRuntime) -> Result<(), Fail> {
    let alloc = rt.alloc();
    expect_put::<u8>(&rt, alloc, &[2])?;
    expect_put::<u16>(&rt, alloc, &[0, 2])?;
    expect_put::<U24>(&rt, alloc, &[0, 0, 2])?;
    expect_put::<u32>(&rt, alloc, &[0, 0, 0, 2])?;
    expect_put::<TlsVarInt>(&rt, alloc, &[2])?;
    Ok(())
}
