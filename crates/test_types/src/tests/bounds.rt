//! Lengths with bounds (RFC 8446, section 3.4), beside their rows.
mod messages;

use super::each_call::{expect_left, expect_too_long_alone};
use std::alloc::Global;
use std::process::Abort;
use std::test::Fail;
use tls_codec::{
    Deserialize, Error, LengthField, TlsByteVec, TlsVec, Within, error_laws, laws, types,
};
use tls_codec_vectors::Drip;

// `CipherSuite cipher_suites<2..2^16-2>`, and the same of single bytes.
type Suites = TlsVec<Within<u16, 2, 65_534>, u16>;

type FewBytes = TlsVec<Within<u16, 2, 65_534>, u8>;

// `opaque legacy_compression_methods<1..2^8-1>`, and 32 bytes after their number.
type Methods = TlsByteVec<Within<u8, 1, 255>>;

type Digest = TlsByteVec<Within<u8, 32, 32>>;

const OUTSIDE: Error = Error::InvalidVectorLength;

// Each decoder rejects the bytes. A source has given only the length.
fn expect_rejected_after<T: Deserialize>(
    rt: &impl Abort,
    alloc: Global,
    bytes: &[u8],
    rest: &[u8],
) -> Result<(), Fail> {
    let mut source = bytes;
    assert_eq!(rt; T::tls_deserialize(alloc, &mut source).err(), Some(OUTSIDE));
    assert_eq!(rt; source, rest);
    let mut drip = Drip::new(bytes);
    assert_eq!(rt; T::tls_deserialize(alloc, &mut drip).err(), Some(OUTSIDE));
    expect_left(rt, alloc, &mut drip, rest)
}

#[test]
fn a_source_has_given_the_length_alone(rt: HostRuntime) -> Result<(), Fail> {
    let alloc = rt.alloc();
    expect_rejected_after::<Suites>(&rt, alloc, &[0, 0, 0x13], &[0x13])?;
    expect_rejected_after::<FewBytes>(&rt, alloc, &[0, 1, 7], &[7])?;
    expect_rejected_after::<FewBytes>(&rt, alloc, &[0xff, 0xff, 7], &[7])?;
    expect_rejected_after::<Methods>(&rt, alloc, &[0, 7], &[7])?;
    for count in [31, 33] {
        expect_rejected_after::<Digest>(&rt, alloc, &[count, 7], &[7])?;
    }
    Ok(())
}

// The length of the outer list is sent before the encoder rejects the inner vector.
#[test]
fn a_list_of_bytes_out_of_bounds(rt: HostRuntime) -> Result<(), Fail> {
    let alloc = rt.alloc();
    let mut list = Vec::new(alloc);
    list.push(Methods::from_slice(alloc, &[7])?)?;
    list.push(Methods::default(alloc))?;
    expect_too_long_alone(&rt, alloc, &list, 4, &[3, 1, 7])
}

#[test]
fn lengths_themselves(rt: HostRuntime) -> Result<(), Fail> {
    types::bounded_lengths::<u16, 2, 65_534>();
    types::bounded_vectors::<u16, 2, 65_534>();
    laws::contents_out_of_bounds_are_not_sent::<Within<u16, 2, 65_534>, u16>();
    error_laws::contents_out_of_bounds_are_refused::<Within<u16, 2, 65_534>, u16>();
    assert!(rt; Within::<u16, 2, 65_534>::form(1).is_none());
    assert!(rt; Within::<u16, 2, 65_534>::form(2).is_some());
    assert!(rt; Within::<u16, 2, 65_534>::form(65_534).is_some());
    assert!(rt; Within::<u16, 2, 65_534>::form(65_535).is_none());
    assert_eq!(rt; Within::<u16, 2, 65_534>::width(1), 2);
    let (length, rest) = Within::<u16, 2, 65_534>::split_length(&[0, 2, 7])?;
    assert_eq!(rt; length, 2);
    assert_eq!(rt; rest, [7].as_slice());
    assert!(rt; Within::<u16, 2, 65_534>::split_length(&[0, 1, 7]) == Err(OUTSIDE));
    let mut source = [0xffu8, 0xff, 7].as_slice();
    assert_eq!(rt;
        Within::<u16, 2, 65_534>::read_length(&mut source),
        Err(OUTSIDE)
    );
    assert_eq!(rt; source, [7].as_slice());
    Ok(())
}
