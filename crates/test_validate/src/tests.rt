//! Widths, values that were validated first, and tags.
mod contexts;
mod framed;
mod sums;

use std::fmt::Debug;
use std::marker::PhantomData;
use std::process::Abort;
use std::test::Fail;
use tls_codec::{
    Error, SecretTlsVecU16, SecretVLBytes, TlsByteVecU24, TlsVarInt, TlsVecU8, U24, VLBytes, Within,
};
use tls_codec_validate::{Rejected, Validate, split_u8, split_u16, split_u32, split_u64};

const NOT_THERE: Error = Error::DecodingError("declared content is not there");

fn rejected(error: Error, rest: &[u8]) -> Rejected<'_> {
    Rejected { error, rest }
}

// An assertion that is written out is proved at each place: this one is proved once.
fn same<T: PartialEq + Debug + Drop>(rt: &impl Abort, found: T, expected: T) {
    assert_eq!(rt; found, expected);
}

#[test]
fn types_of_one_width(rt: HostRuntime) {
    same(&rt, u8::tls_width(), Some(1));
    same(&rt, u16::tls_width(), Some(2));
    same(&rt, U24::tls_width(), Some(3));
    same(&rt, u32::tls_width(), Some(4));
    same(&rt, u64::tls_width(), Some(8));
    same(&rt, <[u8; 5]>::tls_width(), Some(5));
    same(&rt, <()>::tls_width(), Some(0));
    same(&rt, PhantomData::<VLBytes>::tls_width(), Some(0));
    same(&rt, <(u16, u8)>::tls_width(), Some(3));
    same(&rt, <(u32, (), [u8; 2])>::tls_width(), Some(6));
    same(&rt, Box::<u64>::tls_width(), Some(8));
}

#[test]
fn types_of_no_width(rt: HostRuntime) {
    same(&rt, TlsVarInt::tls_width(), None);
    same(&rt, Option::<()>::tls_width(), None);
    same(&rt, String::tls_width(), None);
    same(&rt, Vec::<u8>::tls_width(), None);
    same(&rt, VLBytes::tls_width(), None);
    same(&rt, <(u8, VLBytes)>::tls_width(), None);
}

// A row of pairs is skipped at once, and one after another if it is cut short.
#[test]
fn rows_of_pairs(rt: HostRuntime) {
    let row = [6, 0, 1, 2, 0, 3, 4, 0xee];
    same(
        &rt,
        Vec::<(u16, u8)>::tls_validate_prefix(&row),
        Ok([0xee].as_slice()),
    );
    let short = [5, 0, 1, 2, 0, 3, 4, 0xee];
    let not_filled = Error::DecodingError("elements do not fill the declared length");
    same(
        &rt,
        Vec::<(u16, u8)>::tls_validate_prefix(&short),
        Err(rejected(not_filled, &[0, 3, 4, 0xee])),
    );
    same(
        &rt,
        Vec::<(u16, u8)>::tls_validate(&[6, 0, 1, 2]),
        Err(rejected(Error::EndOfStream, &[])),
    );
    let no_bytes = Error::DecodingError("vector element consumed 0 bytes");
    same(
        &rt,
        Vec::<()>::tls_validate(&[1, 0]),
        Err(rejected(no_bytes, &[0])),
    );
    same(&rt, Vec::<()>::tls_validate(&[0]), Ok(()));
}

#[test]
fn families(rt: HostRuntime) {
    same(&rt, TlsVecU8::<u16>::tls_validate(&[2, 0, 1]), Ok(()));
    same(&rt, SecretTlsVecU16::<u8>::tls_validate(&[0, 1, 7]), Ok(()));
    same(&rt, TlsByteVecU24::tls_validate(&[0, 0, 1, 7]), Ok(()));
    same(&rt, SecretVLBytes::tls_validate(&[1, 7]), Ok(()));
    same(
        &rt,
        SecretVLBytes::tls_validate(&[2, 7]),
        Err(rejected(NOT_THERE, &[2, 7])),
    );
}

#[test]
fn values_that_were_validated(rt: HostRuntime) -> Result<(), Fail> {
    let alloc = rt.alloc();
    let value = <(u8, TlsVarInt)>::tls_deserialize_validated(alloc, &[7, 0x40, 0x40])?;
    same(&rt, value, (7, TlsVarInt::try_from(64)?));
    let (value, rest) = <(u8, Option<u16>)>::tls_deserialize_validated_prefix(alloc, &[7, 0, 9])?;
    same(&rt, value, (7, None));
    same(&rt, rest, [9].as_slice());
    same(
        &rt,
        <(u8, Option<u16>)>::tls_deserialize_validated(alloc, &[7, 0, 9]),
        Err(Error::TrailingData),
    );
    same(
        &rt,
        <(u8, Option<u16>)>::tls_deserialize_validated_prefix(alloc, &[7, 1, 9]).err(),
        Some(Error::EndOfStream),
    );
    Ok(())
}

#[test]
fn tags_of_enums(rt: HostRuntime) {
    same(&rt, split_u8(&[3, 9]), Ok((3, [9].as_slice())));
    let end = rejected(Error::EndOfStream, &[]);
    same(&rt, split_u8(&[]), Err(end));
    same(&rt, split_u16(&[1, 2, 9]), Ok((258, [9].as_slice())));
    let short = rejected(Error::EndOfStream, &[1]);
    same(&rt, split_u16(&[1]), Err(short));
    same(&rt, split_u32(&[0, 0, 1, 2, 9]), Ok((258, [9].as_slice())));
    same(
        &rt,
        split_u64(&[0, 0, 0, 0, 0, 0, 1, 2]),
        Ok((258, [].as_slice())),
    );
}

// A length of two bytes, with bounds of three and four.
#[test]
fn lengths_with_bounds(rt: HostRuntime) {
    same(
        &rt,
        tls_codec::TlsVec::<Within<u16, 3, 4>, u8>::tls_validate(&[0, 3, 7, 8, 9]),
        Ok(()),
    );
    same(
        &rt,
        tls_codec::TlsVec::<Within<u16, 3, 4>, u8>::tls_validate(&[0, 2, 7, 8]),
        Err(rejected(Error::InvalidVectorLength, &[0, 2, 7, 8])),
    );
}

// The rejected field is the innermost one that isn't there, or the tag that isn't known, and not the list or the option around it.
#[test]
fn places(rt: HostRuntime) {
    let names = [5, 1, 9, 3, 7, 7];
    let found = Vec::<VLBytes>::tls_validate(&names).err();
    same(&rt, found, Some(rejected(NOT_THERE, &[3, 7, 7])));
    same(&rt, found.map(|one| one.at(&names)), Some(3));
    let other_tag = Error::DecodingError("option tag is not 0 or 1");
    let nested = [5, 1, 1, 7, 2, 9];
    let found = Vec::<Option<(u8, u8)>>::tls_validate_prefix(&nested).err();
    same(&rt, found, Some(rejected(other_tag, &[2, 9])));
    same(&rt, found.map(|one| one.at(&nested)), Some(4));
    let found = <(u8, VLBytes, u16)>::tls_validate(&[7, 1, 8, 0, 5, 6]).err();
    same(&rt, found, Some(rejected(Error::TrailingData, &[6])));
    same(
        &rt,
        <(u8, u8, u8)>::tls_validate(&[7, 8]),
        Err(rejected(Error::EndOfStream, &[])),
    );
    let error = Error::from(rejected(Error::EndOfStream, &[]));
    same(&rt, error, Error::EndOfStream);
}
