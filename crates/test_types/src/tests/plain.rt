//! Numbers written in a row, values borrowed in a row, and the one value of `PhantomData`.
use super::each_call::{expect_encoded_as, expect_written, expect_written_alone};
use crate::tests::same;
use std::marker::PhantomData;
use std::test::Fail;
use tls_codec::{
    ByRef2, ByRef5, ByRef6, ByRef7, ByRef8, ByRef9, Deserialize, DeserializeBytes, Serialize, U24,
};

#[test]
fn numbers_in_a_row(rt: HostRuntime) -> Result<(), Fail> {
    let mut out = Vec::new(rt.alloc());
    same(&rt, 77u8.tls_serialize(&mut out)?, 1);
    same(&rt, 88u8.tls_serialize(&mut out)?, 1);
    same(&rt, 355u16.tls_serialize(&mut out)?, 2);
    same(&rt, U24::try_from(65_609)?.tls_serialize(&mut out)?, 3);
    let bytes = [0x4d, 0x58, 0x01, 0x63, 0x01, 0x00, 0x49];
    same(&rt, out.as_slice(), bytes.as_slice());
    Ok(())
}

#[test]
fn phantoms(rt: HostRuntime) -> Result<(), Fail> {
    let alloc = rt.alloc();
    expect_written_alone::<PhantomData<u8>>(&rt, alloc, &PhantomData, &[])?;
    let (_, rest) = PhantomData::<u8>::tls_deserialize_bytes(alloc, &[0x07])?;
    same(&rt, rest, [0x07].as_slice());
    let mut source = [0x07u8].as_slice();
    let _ = PhantomData::<u8>::tls_deserialize(alloc, &mut source)?;
    same(&rt, source, [0x07].as_slice());
    Ok(())
}

#[test]
fn values_borrowed_in_a_row(rt: HostRuntime) -> Result<(), Fail> {
    let alloc = rt.alloc();
    let pair = ByRef2(&0x05u8, &Some(0x0102u16));
    expect_written(&rt, alloc, &pair, &[0x05, 0x01, 0x01, 0x02])?;
    let bytes = [1, 2, 3, 4, 5, 6, 7, 8, 9, 10, 1, 11, 12, 13, 14, 15, 16];
    let three = U24::try_from(0x04_0506)?;
    let (four, payload, last) = (0x0708_090au32, Some(11u8), (14u8, 15u8));
    let nine = ByRef9(
        &1u8,
        &0x0203u16,
        &three,
        &four,
        &payload,
        &[12u8, 13],
        &last,
        &(),
        &16u8,
    );
    expect_written(&rt, alloc, &nine, &bytes)?;
    let read = (
        (1u8, 0x0203u16, three),
        (four, payload, [12u8, 13]),
        (last, (), 16u8),
    );
    expect_encoded_as(&rt, alloc, &read, &bytes)
}

#[test]
fn five_to_eight_values_borrowed_in_a_row(rt: HostRuntime) -> Result<(), Fail> {
    let alloc = rt.alloc();
    let bytes = [1u8, 2, 3, 4, 5, 6, 7, 8];
    let [a, b, c, d, e, f, g, h] = bytes;
    expect_written(&rt, alloc, &ByRef5(&a, &b, &c, &d, &e), &bytes[..5])?;
    expect_written(&rt, alloc, &ByRef6(&a, &b, &c, &d, &e, &f), &bytes[..6])?;
    expect_written(&rt, alloc, &ByRef7(&a, &b, &c, &d, &e, &f, &g), &bytes[..7])?;
    expect_written(&rt, alloc, &ByRef8(&a, &b, &c, &d, &e, &f, &g, &h), &bytes)
}
