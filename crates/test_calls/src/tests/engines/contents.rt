//! Elements and bytes after each length.
use crate::tests::{holds, same, same_at};
use std::alloc::Global;
use std::process::Abort;
use std::test::Fail;
use tls_codec_base::{LengthField, counted, opaque};
use tls_codec_wire::{Error, TlsVarInt, U24};

// The elements 1 and 2 as `u16` after a length of this field are these bytes.
fn expect_list_after<F: LengthField>(
    rt: &impl Abort,
    alloc: Global,
    field: &'static str,
    bytes: &[u8],
) -> Result<(), Fail> {
    let elements = [1u16, 2];
    let count = bytes.len();
    let announced = counted::announced_len::<F, u16>(&elements);
    same_at(rt, (field, "announced_len"), announced, count);
    let made = counted::to_vec::<F, u16>(alloc, &elements)?;
    same_at(rt, (field, "to_vec"), made.as_slice(), bytes);
    let mut out = Vec::new(alloc);
    let sent = counted::write::<F, u16, Vec<u8>>(&mut out, &elements);
    same_at(rt, (field, "write"), sent, Ok(count));
    let appended = counted::append::<F, u16>(&mut out, &elements);
    same_at(rt, (field, "append"), appended, Ok(count));
    let mut twice = bytes.to_vec(alloc)?;
    twice.extend_from_slice(bytes)?;
    same_at(
        rt,
        (field, "write and append"),
        out.as_slice(),
        twice.as_slice(),
    );
    let (split, rest) = counted::split::<F, u16>(alloc, &twice)?;
    same_at(rt, (field, "split"), split.as_slice(), elements.as_slice());
    same_at(rt, (field, "rest of split"), rest, bytes);
    let mut src = twice.as_slice();
    let read = counted::read::<F, u16, &[u8]>(alloc, &mut src)?;
    same_at(rt, (field, "read"), read.as_slice(), elements.as_slice());
    same_at(rt, (field, "rest of read"), src, bytes);
    Ok(())
}

// The bytes 9 and 8 after a length of this field are these, and this error comes of all but the last of them.
fn expect_opaque_after<F: LengthField>(
    rt: &impl Abort,
    alloc: Global,
    field: &'static str,
    bytes: &[u8],
    cut_off: Error,
) -> Result<(), Fail> {
    let content = [9, 8];
    let count = bytes.len();
    let announced = opaque::announced_len::<F>(&content);
    same_at(rt, (field, "announced_len"), announced, count);
    let made = opaque::to_vec::<F>(alloc, &content)?;
    same_at(rt, (field, "to_vec"), made.as_slice(), bytes);
    let mut out = Vec::new(alloc);
    let sent = opaque::write::<F, Vec<u8>>(&mut out, &content);
    same_at(rt, (field, "write"), sent, Ok(count));
    let appended = opaque::append::<F>(&mut out, &content);
    same_at(rt, (field, "append"), appended, Ok(count));
    let (split, rest) = opaque::split::<F>(&out)?;
    same_at(rt, (field, "split"), split, content.as_slice());
    same_at(rt, (field, "rest of split"), rest, bytes);
    let mut src = out.as_slice();
    let read = opaque::read::<F, &[u8]>(alloc, &mut src)?;
    same_at(rt, (field, "read"), read.as_slice(), content.as_slice());
    same_at(rt, (field, "rest of read"), src, bytes);
    let mut cut = &bytes[..count.saturating_sub(1)];
    let refused = opaque::split::<F>(cut).err();
    same_at(rt, (field, "split, cut off"), refused, Some(cut_off));
    let refused = opaque::read::<F, &[u8]>(alloc, &mut cut).err();
    same_at(
        rt,
        (field, "read, cut off"),
        refused,
        Some(Error::EndOfStream),
    );
    Ok(())
}

#[test]
fn elements_after_each_length(rt: HostRuntime) -> Result<(), Fail> {
    let alloc = rt.alloc();
    expect_list_after::<u8>(&rt, alloc, "u8", &[4, 0, 1, 0, 2])?;
    expect_list_after::<u16>(&rt, alloc, "u16", &[0, 4, 0, 1, 0, 2])?;
    expect_list_after::<U24>(&rt, alloc, "U24", &[0, 0, 4, 0, 1, 0, 2])?;
    expect_list_after::<u32>(&rt, alloc, "u32", &[0, 0, 0, 4, 0, 1, 0, 2])?;
    expect_list_after::<TlsVarInt>(&rt, alloc, "TlsVarInt", &[4, 0, 1, 0, 2])
}

#[test]
fn bytes_after_each_length(rt: HostRuntime) -> Result<(), Fail> {
    let alloc = rt.alloc();
    let ends = Error::EndOfStream;
    expect_opaque_after::<u8>(&rt, alloc, "u8", &[2, 9, 8], ends)?;
    expect_opaque_after::<u16>(&rt, alloc, "u16", &[0, 2, 9, 8], ends)?;
    expect_opaque_after::<U24>(&rt, alloc, "U24", &[0, 0, 2, 9, 8], ends)?;
    expect_opaque_after::<u32>(&rt, alloc, "u32", &[0, 0, 0, 2, 9, 8], ends)?;
    let not_there = Error::DecodingError("declared content is not there");
    expect_opaque_after::<TlsVarInt>(&rt, alloc, "TlsVarInt", &[2, 9, 8], not_there)
}

#[test]
fn contents_past_their_length_are_refused(rt: HostRuntime) -> Result<(), Fail> {
    let alloc = rt.alloc();
    let mut content = Vec::new(alloc);
    content.resize(255, 7u8)?;
    let whole = counted::to_vec::<u8, u8>(alloc, &content)?;
    same(&rt, (whole.len(), whole[0]), (256, 0xff));
    content.extend_from_slice(&[7])?;
    let too_long = Err(Error::InvalidVectorLength);
    same(&rt, counted::announced_len::<u8, u8>(&content), 257);
    holds(
        &rt,
        counted::to_vec::<u8, u8>(alloc, &content) == Err(Error::InvalidVectorLength),
    );
    holds(
        &rt,
        opaque::to_vec::<u8>(alloc, &content) == Err(Error::InvalidVectorLength),
    );
    let mut out = [0xaa].to_vec(alloc)?;
    same(
        &rt,
        counted::write::<u8, u8, Vec<u8>>(&mut out, &content),
        too_long,
    );
    same(&rt, counted::append::<u8, u8>(&mut out, &content), too_long);
    same(
        &rt,
        opaque::write::<u8, Vec<u8>>(&mut out, &content),
        too_long,
    );
    same(&rt, opaque::append::<u8>(&mut out, &content), too_long);
    same(&rt, out.as_slice(), [0xaa].as_slice());
    Ok(())
}

#[test]
fn bytes_after_a_length_are_copied(rt: HostRuntime) -> Result<(), Fail> {
    let alloc = rt.alloc();
    let content = [0x0a, 0x14, 0x1e];
    let whole = [0x03, 0x0a, 0x14, 0x1e, 0x99];
    let (found, rest) = opaque::split::<TlsVarInt>(&whole)?;
    same(&rt, found, content.as_slice());
    same(&rt, rest, [0x99].as_slice());
    let (mut copy, rest) = opaque::split_copied::<TlsVarInt>(alloc, &whole)?;
    same(&rt, copy.as_slice(), content.as_slice());
    same(&rt, rest, [0x99].as_slice());
    same(&rt, opaque::push(&mut copy, 0x28), Ok(()));
    let longer = opaque::copied(alloc, &copy)?;
    same(&rt, longer.as_slice(), [0x0a, 0x14, 0x1e, 0x28].as_slice());
    let mut src = whole.as_slice();
    let read = opaque::read::<TlsVarInt, &[u8]>(alloc, &mut src)?;
    same(&rt, read.as_slice(), content.as_slice());
    same(&rt, src, [0x99].as_slice());
    Ok(())
}
