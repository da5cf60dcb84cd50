//! Vectors, byte vectors, wrappers of slices and secrets after a length of one to four bytes, beside their rows.
use super::each_call::{expect_too_long, expect_too_long_alone, expect_written, filled};
use crate::tests::{holds, same};
use std::alloc::Global;
use std::process::Abort;
use std::test::Fail;
use tls_codec::{
    Error, SecretTlsVecU8, SecretTlsVecU16, SecretTlsVecU24, SecretTlsVecU32, Serialize, Size,
    TlsByteSliceU8, TlsByteSliceU16, TlsByteSliceU24, TlsByteSliceU32, TlsByteVecU8, TlsByteVecU16,
    TlsByteVecU24, TlsByteVecU32, TlsSliceU8, TlsSliceU16, TlsSliceU24, TlsVecU8, TlsVecU16,
    TlsVecU24, TlsVecU32, Zeroize,
};

#[test]
fn lengths_of_lengths(rt: HostRuntime) {
    same(&rt, TlsVecU8::<u16>::len_len(), 1);
    same(&rt, TlsVecU16::<u16>::len_len(), 2);
    same(&rt, TlsVecU24::<u16>::len_len(), 3);
    same(&rt, TlsVecU32::<u16>::len_len(), 4);
    same(&rt, TlsByteVecU8::len_len(), 1);
    same(&rt, TlsByteVecU16::len_len(), 2);
    same(&rt, TlsByteVecU24::len_len(), 3);
    same(&rt, TlsByteVecU32::len_len(), 4);
    same(&rt, SecretTlsVecU8::<u16>::len_len(), 1);
    same(&rt, SecretTlsVecU16::<u16>::len_len(), 2);
    same(&rt, SecretTlsVecU24::<u16>::len_len(), 3);
    same(&rt, SecretTlsVecU32::<u16>::len_len(), 4);
}

// A number, four bytes after a length of two, and three after one of three, in one vector.
fn expect_all_written_in_a_row(
    rt: &impl Abort,
    alloc: Global,
    four: &impl Serialize,
    three: &impl Serialize,
) -> Result<(), Fail> {
    let whole = [1, 0, 4, 0x4d, 0x58, 1, 0x63, 0, 0, 3, 0xff, 0x2a, 0x49];
    let mut sent = Vec::new(alloc);
    same(rt, 1u8.tls_serialize(&mut sent), Ok(1));
    same(rt, four.tls_serialize(&mut sent), Ok(6));
    same(rt, three.tls_serialize(&mut sent), Ok(6));
    same(rt, sent.as_slice(), whole.as_slice());
    let mut appended = Vec::new(alloc);
    same(rt, 1u8.tls_serialize_into(&mut appended), Ok(1));
    same(rt, four.tls_serialize_into(&mut appended), Ok(6));
    same(rt, three.tls_serialize_into(&mut appended), Ok(6));
    same(rt, appended.as_slice(), whole.as_slice());
    Ok(())
}

#[test]
fn several_contents_in_one_vector(rt: HostRuntime) -> Result<(), Fail> {
    let alloc = rt.alloc();
    let (four, three) = ([77u8, 88, 1, 99], [255u8, 42, 73]);
    expect_all_written_in_a_row(
        &rt,
        alloc,
        &TlsVecU16::from_slice(alloc, &four)?,
        &TlsVecU24::from_slice(alloc, &three)?,
    )?;
    expect_all_written_in_a_row(
        &rt,
        alloc,
        &TlsByteVecU16::from_slice(alloc, &four)?,
        &TlsByteVecU24::from_slice(alloc, &three)?,
    )?;
    expect_all_written_in_a_row(
        &rt,
        alloc,
        &SecretTlsVecU16::from_slice(alloc, &four)?,
        &SecretTlsVecU24::from_slice(alloc, &three)?,
    )?;
    expect_all_written_in_a_row(&rt, alloc, &TlsSliceU16(&four), &TlsByteSliceU24(&three))?;
    expect_all_written_in_a_row(&rt, alloc, &TlsByteSliceU16(&four), &TlsSliceU24(&three))
}

#[test]
fn a_cleared_list_is_written_as_none(rt: HostRuntime) -> Result<(), Fail> {
    let alloc = rt.alloc();
    let mut list = SecretTlsVecU8::from_slice(alloc, &[1u16, 2])?;
    list.zeroize();
    expect_written(&rt, alloc, &list, &[0])
}

// Contents whose length doesn't fit in three bytes. A row of that many bytes would take long.
#[test]
fn contents_past_three_bytes_of_length(rt: HostRuntime) -> Result<(), Fail> {
    let alloc = rt.alloc();
    let content = filled(alloc, 16_777_216, 7)?;
    expect_too_long(
        &rt,
        alloc,
        &TlsSliceU24(content.as_slice()),
        16_777_219,
        &[],
    )?;
    expect_too_long(&rt, alloc, &TlsByteSliceU24(&content), 16_777_219, &[])?;
    expect_too_long_alone(&rt, alloc, &TlsByteVecU24::new(content), 16_777_219, &[])?;
    let list = TlsVecU24::new(filled(alloc, 16_777_216, 0)?);
    expect_too_long(&rt, alloc, &list, 16_777_219, &[])?;
    let list = SecretTlsVecU24::new(filled(alloc, 16_777_216, 0)?);
    expect_too_long(&rt, alloc, &list, 16_777_219, &[])
}

// Elements that aren't `Copy`, and wrappers within a wrapper.
#[test]
fn lists_within_a_list(rt: HostRuntime) -> Result<(), Fail> {
    let alloc = rt.alloc();
    let lists = [vec![in alloc; 1u16; 2]?, Vec::new(alloc)];
    let wrapper = TlsSliceU8(&lists);
    let copy = wrapper;
    expect_written(&rt, alloc, &wrapper, &[6, 4, 0, 1, 0, 1, 0])?;
    expect_written(&rt, alloc, &copy.clone()?, &[6, 4, 0, 1, 0, 1, 0])?;
    let names = [TlsByteSliceU8(b"h2"), TlsByteSliceU8(b"h3")];
    let form = [0, 6, 2, b'h', b'2', 2, b'h', b'3'];
    expect_written(&rt, alloc, &TlsSliceU16(&names), &form)?;
    let borrowed = [&names[0], &names[1]];
    expect_written(&rt, alloc, &TlsSliceU16(&borrowed), &form)?;
    Ok(())
}

// Together they have 2^30 + 4,096 bytes, which no variable-length length counts: none is announced for it.
#[test]
fn a_list_longer_than_any_length(rt: HostRuntime) -> Result<(), Fail> {
    let alloc = rt.alloc();
    let bytes = filled(alloc, 1_048_576, 0)?;
    let mut list = Vec::new(alloc);
    for _at in 0..1_024 {
        list.push(TlsByteSliceU32(bytes.as_slice()))?;
    }
    same(&rt, list.tls_serialized_len(), 1_073_745_920);
    let mut received = Vec::new(alloc);
    let refused = list.tls_serialize(&mut received);
    same(&rt, refused, Err(Error::InvalidVectorLength));
    holds(&rt, received.is_empty());
    Ok(())
}
