//! What is borrowed from bytes that were written by hand.
mod parted;

use std::fmt::Debug;
use std::process::Abort;
use std::test::Fail;
use tls_codec::{
    Always, Error, SecretTlsVecU8, SecretVLBytes, TlsByteVecU8, TlsByteVecU24, TlsVarInt, TlsVecU8,
    TlsVecU16, U24, VLBytes, When,
};
use tls_codec_cases::Is;
use tls_codec_validate::{Rejected, Validate};
use tls_codec_views::{Encoded, EncodedFor, ReadInPlace};

const NOT_THERE: Error = Error::DecodingError("declared content is not there");

// An assertion that is written out is proved at each place: this one is proved once.
fn same<T: PartialEq + Debug + Drop>(rt: &impl Abort, found: T, expected: T) {
    assert_eq!(rt; found, expected);
}

// The bytes are an encoding, and are borrowed as one.
fn encoded<'a, T: Validate>(rt: &impl Abort, bytes: &'a [u8]) -> Encoded<'a, T> {
    match Encoded::new(bytes) {
        Ok(found) => found,
        Err(_) => panic!(rt; "no encoding"),
    }
}

fn expect_value<T: ReadInPlace + PartialEq + Debug + Drop>(
    rt: &impl Abort,
    bytes: &[u8],
    expected: T,
) {
    same(rt, encoded::<T>(rt, bytes).get(), expected);
}

#[test]
fn parts_of_a_pair_and_a_triple(rt: HostRuntime) {
    let (first, second) = encoded::<(u8, VLBytes)>(&rt, &[7, 2, 8, 9]).split();
    same(&rt, first.get(), 7);
    same(&rt, second.as_bytes(), [2u8, 8, 9].as_slice());
    same(&rt, second.content(), [8u8, 9].as_slice());
    let (first, second, third) = encoded::<(VLBytes, u8, u16)>(&rt, &[1, 5, 6, 0, 7]).split();
    same(&rt, first.content(), [5u8].as_slice());
    same(&rt, second.get(), 6);
    same(&rt, third.get(), 7);
}

#[test]
fn what_is_no_encoding_is_rejected(rt: HostRuntime) {
    let rejected = Rejected {
        error: NOT_THERE,
        rest: &[2, 8],
    };
    let found = Encoded::<(u8, VLBytes)>::new(&[7, 2, 8]);
    same(&rt, found.err(), Some(rejected));
    let found = Encoded::<(u8, VLBytes)>::split_prefix(&[7, 2, 8]);
    same(&rt, found.err(), Some(rejected));
    let trailing = Rejected {
        error: Error::TrailingData,
        rest: &[9],
    };
    same(&rt, Encoded::<u8>::new(&[7, 9]).err(), Some(trailing));
}

#[test]
fn an_encoding_that_begins_bytes(rt: HostRuntime) {
    let Ok((first, rest)) = Encoded::<VLBytes>::split_prefix(&[1, 5, 9]) else {
        panic!(rt; "there is none");
    };
    same(&rt, first.as_bytes(), [1u8, 5].as_slice());
    same(&rt, rest, [9u8].as_slice());
}

#[test]
fn a_value_of_each_kind_of_number(rt: HostRuntime) {
    expect_value(&rt, &[7], 7u8);
    expect_value(&rt, &[1, 2], 258u16);
    expect_value(&rt, &[0, 1, 2], U24::from_be_bytes([0, 1, 2]));
    expect_value(&rt, &[0, 0, 1, 2], 258u32);
    expect_value(&rt, &[0, 0, 0, 0, 0, 0, 1, 2], 258u64);
    expect_value(&rt, &[3, 4, 5], [3u8, 4, 5]);
    same(
        &rt,
        Some(encoded::<TlsVarInt>(&rt, &[0x40, 0x40]).get()),
        TlsVarInt::try_from(64).ok(),
    );
}

#[test]
fn payloads(rt: HostRuntime) {
    same(
        &rt,
        encoded::<Option<u16>>(&rt, &[0]).payload().is_none(),
        true,
    );
    let Some(payload) = encoded::<Option<u16>>(&rt, &[1, 0, 7]).payload() else {
        panic!(rt; "there is none");
    };
    same(&rt, payload.get(), 7);
    same(&rt, encoded::<Box<u16>>(&rt, &[0, 7]).payload().get(), 7);
}

#[test]
fn byte_vectors_and_texts(rt: HostRuntime) {
    let content = [5u8, 6];
    let content = content.as_slice();
    same(&rt, encoded::<VLBytes>(&rt, &[2, 5, 6]).content(), content);
    same(
        &rt,
        encoded::<SecretVLBytes>(&rt, &[2, 5, 6]).content(),
        content,
    );
    same(
        &rt,
        encoded::<TlsByteVecU8>(&rt, &[2, 5, 6]).content(),
        content,
    );
    let long = encoded::<TlsByteVecU24>(&rt, &[0, 0, 2, 5, 6]);
    same(&rt, long.content(), content);
    same(&rt, encoded::<String>(&rt, b"\x03mls").as_str(), "mls");
}

#[test]
fn elements_of_lists(rt: HostRuntime) {
    let mut elements = encoded::<Vec<VLBytes>>(&rt, &[5, 1, 7, 2, 8, 9]).elements();
    same(&rt, elements.as_bytes(), [1u8, 7, 2, 8, 9].as_slice());
    let Some(first) = elements.next() else {
        panic!(rt; "there is none");
    };
    same(&rt, first.content(), [7u8].as_slice());
    let Some(second) = elements.next() else {
        panic!(rt; "there is none");
    };
    same(&rt, second.content(), [8u8, 9].as_slice());
    same(&rt, elements.next().is_none(), true);
    same(&rt, elements.next().is_none(), true);
    let list = encoded::<TlsVecU16<u16>>(&rt, &[0, 4, 0, 1, 0, 2]);
    let mut sum = 0u64;
    for element in list.elements() {
        sum = sum.saturating_add(u64::from(element.get()));
    }
    same(&rt, sum, 3);
    let mut secret = encoded::<SecretTlsVecU8<u8>>(&rt, &[1, 7]).elements();
    same(&rt, secret.next().map(|element| element.get()), Some(7));
    same(&rt, secret.next().is_none(), true);
}

#[test]
fn a_value_is_made_of_an_encoding(rt: HostRuntime) -> Result<(), Fail> {
    let list = encoded::<Vec<u16>>(&rt, &[4, 0, 1, 0, 2]);
    let value = list.to_value(rt.alloc())?;
    same(&rt, value.as_slice(), [1u16, 2].as_slice());
    Ok(())
}

fn content_of<'a>(part: &EncodedFor<'a, u8, Always<VLBytes>>) -> &'a [u8] {
    part.always().content()
}

fn number_of(part: &EncodedFor<'_, u8, When<Is<3>, u16>>) -> Option<u16> {
    match part.payload() {
        Some(number) => Some(number.get()),
        None => None,
    }
}

// Of the context 3 a number follows the text, and of another none.
fn both_of<'a>(
    parts: &EncodedFor<'a, u8, (Always<VLBytes>, When<Is<3>, u16>)>,
) -> (&'a [u8], Option<u16>) {
    let (text, number) = parts.split();
    (content_of(&text), number_of(&number))
}

#[test]
fn two_parts_in_a_context(rt: HostRuntime) {
    let Ok(there) = EncodedFor::new(&3, &[1, 0xaa, 0, 7]) else {
        panic!(rt; "no encoding");
    };
    same(&rt, both_of(&there), ([0xaau8].as_slice(), Some(7)));
    let Ok(absent) = EncodedFor::new(&2, &[1, 0xaa]) else {
        panic!(rt; "no encoding");
    };
    same(&rt, absent.as_bytes(), [1u8, 0xaa].as_slice());
    same(&rt, both_of(&absent), ([0xaau8].as_slice(), None));
}

#[test]
fn three_parts_in_a_context(rt: HostRuntime) {
    let Ok(found) = EncodedFor::<u8, (Always<u8>, Always<u8>, Always<u8>)>::new(&1, &[5, 6, 7])
    else {
        panic!(rt; "no encoding");
    };
    let (first, second, third) = found.split();
    same(&rt, first.as_bytes(), [5u8].as_slice());
    same(&rt, second.as_bytes(), [6u8].as_slice());
    same(&rt, third.as_bytes(), [7u8].as_slice());
}

#[test]
fn a_part_in_another_context(rt: HostRuntime) {
    let Ok(found) = EncodedFor::<u8, When<Is<3>, u16>>::new(&3, &[0, 7]) else {
        panic!(rt; "no encoding");
    };
    same(&rt, number_of(&found), Some(7));
    let trailing = Rejected {
        error: Error::TrailingData,
        rest: &[0, 7],
    };
    let found = EncodedFor::<u8, When<Is<3>, u16>>::new(&2, &[0, 7]);
    same(&rt, found.err(), Some(trailing));
}

#[test]
fn elements_in_a_context(rt: HostRuntime) {
    let Ok(list) = EncodedFor::<u8, Vec<When<Is<3>, u16>>>::new(&3, &[4, 0, 5, 0, 6]) else {
        panic!(rt; "no encoding");
    };
    let mut elements = list.elements();
    for expected in [5, 6] {
        let Some(element) = elements.next() else {
            panic!(rt; "no element");
        };
        same(&rt, number_of(&element), Some(expected));
    }
    same(&rt, elements.next().is_none(), true);
}

#[test]
fn elements_after_a_fixed_length_in_a_context(rt: HostRuntime) {
    let Ok(list) = EncodedFor::<u8, TlsVecU8<When<Is<3>, u16>>>::new(&3, &[2, 0, 7]) else {
        panic!(rt; "no encoding");
    };
    let mut elements = list.elements();
    let Some(element) = elements.next() else {
        panic!(rt; "no element");
    };
    same(&rt, number_of(&element), Some(7));
    same(&rt, elements.next().is_none(), true);
}
