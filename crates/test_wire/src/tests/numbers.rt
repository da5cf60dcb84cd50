// Numbers in bytes, and what errors of std about numbers and slices become.
use super::{same, same_at};
use std::test::Fail;
use tls_codec_wire::error::Error;
use tls_codec_wire::quic::{read_varint, split_varint, varint_width, write_varint};
use tls_codec_wire::uint24::U24;
use tls_codec_wire::varint::TlsVarInt;
use tls_codec_wire::vlen::{insert_bytes, insert_length};

#[test]
fn a_number_of_24_bits_has_three_bytes(rt: HostRuntime) -> Result<(), Fail> {
    let n = U24::try_from(65_609)?;
    same(&rt, n.to_be_bytes(), [0x01, 0x00, 0x49]);
    same(&rt, U24::from_be_bytes([0x01, 0x00, 0x49]), n);
    same(&rt, usize::from(n), 65_609);
    same(&rt, n.value(), 65_609);
    same(&rt, U24::try_from(16_777_216), Err(Error::LibraryError));
    same(&rt, U24::try_from(16_777_215), Ok(U24::MAX));
    same(&rt, usize::from(U24::MAX), 16_777_215);
    same(&rt, U24::MAX.value(), 16_777_215);
    same(&rt, usize::from(U24::MIN), 0);
    same(&rt, U24::MIN.value(), 0);
    same(&rt, U24::default(), U24::MIN);
    Ok(())
}

#[test]
fn a_variable_length_integer_is_below_its_limit(rt: HostRuntime) -> Result<(), Fail> {
    let most = TlsVarInt::try_from(TlsVarInt::MAX)?;
    same(&rt, most.value(), 4_611_686_018_427_387_903);
    same(&rt, u64::from(most), TlsVarInt::MAX);
    same(
        &rt,
        TlsVarInt::try_from(TlsVarInt::MAX + 1),
        Err(Error::InvalidVectorLength),
    );
    same(&rt, TlsVarInt::try_from(37)? < most, true);
    Ok(())
}

// The examples of RFC 9000, appendix A.1.
#[test]
fn a_variable_length_integer_has_its_least_bytes(rt: HostRuntime) -> Result<(), Fail> {
    for (number, bytes) in [
        (37, [0x25].as_slice()),
        (15_293, [0x7b, 0xbd].as_slice()),
        (494_878_333, [0x9d, 0x7f, 0x3e, 0x7d].as_slice()),
        (
            151_288_809_941_952_652,
            [0xc2, 0x19, 0x7c, 0x5e, 0xff, 0x14, 0xe8, 0x8c].as_slice(),
        ),
        (64, [0x40, 0x40].as_slice()),
        (1_073_741_824, [0xc0, 0, 0, 0, 0x40, 0, 0, 0].as_slice()),
    ] {
        let n = TlsVarInt::try_from(number)?;
        let mut out = Vec::new(rt.alloc());
        same_at(&rt, number, write_varint(&mut out, n), Ok(bytes.len()));
        same_at(&rt, number, out.as_slice(), bytes);
        same_at(&rt, number, varint_width(number), bytes.len());
        let mut src = bytes;
        same_at(&rt, number, read_varint(&mut src), Ok(n));
        same_at(&rt, number, src.is_empty(), true);
        same_at(&rt, number, split_varint(bytes), Ok((n, [].as_slice())));
    }
    Ok(())
}

#[test]
fn no_width_holds_a_greater_number(rt: HostRuntime) {
    same(&rt, varint_width(TlsVarInt::MAX), 8);
    same(&rt, varint_width(TlsVarInt::MAX + 1), 0);
}

// All bytes that the first one asks for are read before a width is rejected.
#[test]
fn an_integer_has_no_other_bytes(rt: HostRuntime) {
    for (bytes, error) in [
        ([].as_slice(), Error::EndOfStream),
        (&[0x40], Error::EndOfStream),
        (&[0x80, 0, 0], Error::EndOfStream),
        (&[0xc0], Error::EndOfStream),
        (&[0x40, 0x25], Error::InvalidVectorLength),
        (&[0x40, 0x3f], Error::InvalidVectorLength),
        (&[0x80, 0, 0x3f, 0xff], Error::InvalidVectorLength),
        (
            &[0xc0, 0, 0, 0, 0x3f, 0xff, 0xff, 0xff],
            Error::InvalidVectorLength,
        ),
    ] {
        let mut src = bytes;
        same_at(&rt, bytes, read_varint(&mut src), Err(error));
        same_at(&rt, bytes, split_varint(bytes), Err(error));
    }
}

fn pair(bytes: &[u8]) -> Result<[u8; 2], Error> {
    Ok(<[u8; 2]>::try_from(bytes)?)
}

fn byte(number: u64) -> Result<u8, Error> {
    Ok(u8::try_from(number)?)
}

#[test]
fn errors_of_std_have_an_error_here(rt: HostRuntime) {
    same(&rt, pair(&[1]), Err(Error::InvalidInput));
    same(&rt, byte(256), Err(Error::InvalidVectorLength));
}

#[test]
fn a_length_is_put_before_what_it_counts(rt: HostRuntime) -> Result<(), Fail> {
    let alloc = rt.alloc();
    let mut out = Vec::from_slice(alloc, &[0xaa, 1, 2])?;
    same(&rt, insert_length(&mut out, 1), Ok(1));
    same(&rt, out.as_slice(), [0xaa, 2, 1, 2].as_slice());
    let mut out = Vec::from_slice(alloc, &[0xaa, 1, 2])?;
    same(&rt, insert_length(&mut out, 3), Ok(1));
    same(&rt, out.as_slice(), [0xaa, 1, 2, 0].as_slice());
    let mut out = Vec::from_slice(alloc, &[7; 64])?;
    same(&rt, insert_length(&mut out, 0), Ok(2));
    same(&rt, &out[..3], [0x40, 0x40, 7].as_slice());
    let mut out = Vec::from_slice(alloc, &[7; 16384])?;
    same(&rt, insert_length(&mut out, 0), Ok(4));
    same(&rt, &out[..5], [0x80, 0, 0x40, 0, 7].as_slice());
    same(&rt, out.len(), 16388);
    Ok(())
}

#[test]
fn bytes_are_put_into_a_vector(rt: HostRuntime) -> Result<(), Fail> {
    let mut out = Vec::from_slice(rt.alloc(), &[0xaa, 0x7b, 0xbd])?;
    insert_bytes(&mut out, 1, &[1, 2])?;
    same(&rt, out.as_slice(), [0xaa, 1, 2, 0x7b, 0xbd].as_slice());
    Ok(())
}

#[test]
fn bytes_put_into_a_vector_get_little_room(rt: HostRuntime) -> Result<(), Fail> {
    let mut out = Vec::from_slice(rt.alloc(), &[7; 64])?;
    insert_bytes(&mut out, 0, &[1, 2, 3, 4])?;
    same(&rt, out.capacity() <= 256, true);
    let mut out = Vec::from_slice(rt.alloc(), &[7; 64])?;
    same(&rt, insert_length(&mut out, 0), Ok(2));
    same(&rt, out.capacity() <= 256, true);
    Ok(())
}

#[test]
fn a_copy_is_equal(rt: HostRuntime) -> Result<(), Fail> {
    let n = TlsVarInt::try_from(37)?;
    same(&rt, n.clone()?, n);
    same(&rt, U24::MAX.clone()?, U24::MAX);
    let error = Error::DecodingError("read failed");
    same(&rt, error.clone()?, error);
    same(&rt, error != Error::DecodingError("io error"), true);
    Ok(())
}
