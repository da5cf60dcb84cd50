//! Key shares by their message (section 4.2.8).
use crate::tests::each_call::expect_encoded_as_in;
use handshake_by_hand::{KeyShare, KeyShareEntry};
use std::alloc::Global;
use std::test::Fail;
use test_support::in_context::{expect_does_not_fit_in, expect_not_decoded_in};
use tls_codec::{Error, TlsByteVec, TlsVecU16};

const CLIENT_HELLO: u8 = 1;

const SERVER_HELLO: u8 = 2;

const HELLO_RETRY_REQUEST: u8 = 6;

// What a client and its server sent, each a key of X25519: lengths, group and key.
static CLIENT_SHARES: [u8; 38] = [
    0x00, 0x24, 0x00, 0x1d, 0x00, 0x20, 0x82, 0x8d, 0x28, 0x4c, 0xfe, 0x39, 0x07, 0x81, 0xb9, 0x8e,
    0xef, 0xce, 0x9e, 0x57, 0x8a, 0x75, 0x4d, 0xf6, 0x8a, 0xb3, 0x4a, 0xfa, 0x60, 0xb1, 0xec, 0xa9,
    0x51, 0x50, 0x97, 0xa8, 0xa3, 0x28,
];

static SERVER_SHARE: [u8; 36] = [
    0x00, 0x1d, 0x00, 0x20, 0xa2, 0xe0, 0xdf, 0xb7, 0x55, 0xdf, 0x4d, 0x52, 0x7a, 0x80, 0x19, 0x23,
    0xc4, 0x8d, 0x66, 0x40, 0xd5, 0x02, 0x7e, 0x81, 0xeb, 0x05, 0xf0, 0x92, 0x75, 0x4b, 0xa7, 0xd1,
    0xf3, 0xf6, 0xbb, 0x6e,
];

fn x25519(alloc: Global, key: &[u8]) -> Result<KeyShareEntry, Error> {
    Ok(KeyShareEntry {
        group: 0x001d,
        key_exchange: TlsByteVec::from_slice(alloc, key)?,
    })
}

#[test]
fn of_a_client(rt: HostRuntime) -> Result<(), Fail> {
    let alloc = rt.alloc();
    let entry = x25519(alloc, &CLIENT_SHARES[6..])?;
    let share = KeyShare::ClientHello(TlsVecU16::new(Vec::from_array(alloc, [entry])?));
    expect_encoded_as_in(alloc, "one", &CLIENT_HELLO, &share, &CLIENT_SHARES)?;
    expect_does_not_fit_in(alloc, "one", &SERVER_HELLO, &share)?;
    let none = KeyShare::ClientHello(TlsVecU16::from_slice(alloc, &[])?);
    expect_encoded_as_in(alloc, "none", &CLIENT_HELLO, &none, &[0, 0])
}

#[test]
fn of_a_server(rt: HostRuntime) -> Result<(), Fail> {
    let alloc = rt.alloc();
    let share = KeyShare::ServerHello(x25519(alloc, &SERVER_SHARE[4..])?);
    expect_encoded_as_in(alloc, "a key", &SERVER_HELLO, &share, &SERVER_SHARE)?;
    expect_does_not_fit_in(alloc, "a key", &HELLO_RETRY_REQUEST, &share)
}

#[test]
fn of_a_retry(rt: HostRuntime) -> Result<(), Fail> {
    let alloc = rt.alloc();
    let share = KeyShare::HelloRetryRequest(0x0018);
    expect_encoded_as_in(alloc, "a group", &HELLO_RETRY_REQUEST, &share, &[0, 0x18])?;
    expect_does_not_fit_in(alloc, "a group", &CLIENT_HELLO, &share)
}

#[test]
fn no_other_message_has_one(rt: HostRuntime) -> Result<(), Fail> {
    let alloc = rt.alloc();
    let eight = Error::UnknownValue(8);
    expect_not_decoded_in::<_, KeyShare>(alloc, "8", &8, &[0, 0x18], eight, eight)?;
    let empty = [0, 0x1d, 0, 0];
    let invalid = Error::InvalidVectorLength;
    expect_not_decoded_in::<_, KeyShare>(alloc, "no key", &SERVER_HELLO, &empty, invalid, invalid)
}
