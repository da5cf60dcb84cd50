//! Messages, their bodies in their lengths (section 4).
use crate::tests::captured::{CERTIFICATE_VERIFY, FINISHED};
use crate::tests::each_call::expect_encoded_as;
use handshake_by_hand::{CertificateVerify, Handshake, KeyUpdateRequest, UnknownHandshake};
use std::test::Fail;
use test_support::each_call::expect_not_decoded;
use tls_codec::{Error, TlsByteVecU16, TlsByteVecU24};

#[test]
fn bodies_without_bytes(rt: HostRuntime) -> Result<(), Fail> {
    let alloc = rt.alloc();
    let message = Handshake::EndOfEarlyData;
    expect_encoded_as(alloc, "the end of early data", &message, &[5, 0, 0, 0])
}

#[test]
fn signatures(rt: HostRuntime) -> Result<(), Fail> {
    let alloc = rt.alloc();
    let body = CertificateVerify {
        algorithm: 0x0403,
        signature: TlsByteVecU16::from_slice(alloc, &CERTIFICATE_VERIFY[8..])?,
    };
    let message = Handshake::CertificateVerify(body);
    expect_encoded_as(alloc, "a signature", &message, &CERTIFICATE_VERIFY)
}

#[test]
fn the_last_message(rt: HostRuntime) -> Result<(), Fail> {
    let alloc = rt.alloc();
    let verify_data = TlsByteVecU24::from_slice(alloc, &FINISHED[4..])?;
    let message = Handshake::Finished(verify_data);
    expect_encoded_as(alloc, "a hash", &message, &FINISHED)
}

#[test]
fn updates_of_keys(rt: HostRuntime) -> Result<(), Fail> {
    let alloc = rt.alloc();
    let update = Handshake::KeyUpdate(KeyUpdateRequest::UpdateNotRequested);
    expect_encoded_as(alloc, "an update", &update, &[24, 0, 0, 1, 0])?;
    let update = Handshake::KeyUpdate(KeyUpdateRequest::UpdateRequested);
    expect_encoded_as(alloc, "one that asks", &update, &[24, 0, 0, 1, 1])?;
    let unknown = Error::UnknownValue(2);
    expect_not_decoded::<Handshake>(alloc, "2", &[24, 0, 0, 1, 2], unknown, unknown)
}

#[test]
fn messages_of_other_types(rt: HostRuntime) -> Result<(), Fail> {
    let alloc = rt.alloc();
    let body = TlsByteVecU24::from_slice(alloc, &[0, 0])?;
    let message = Handshake::Unknown(UnknownHandshake::new(8, body)?);
    expect_encoded_as(alloc, "another type", &message, &[8, 0, 0, 2, 0, 0])
}

#[test]
fn bodies_fill_their_lengths(rt: HostRuntime) -> Result<(), Fail> {
    let alloc = rt.alloc();
    let trailing = Error::TrailingData;
    for (row, bytes, error) in [
        ("an update", [24, 0, 0, 2, 1, 0].as_slice(), trailing),
        ("no body", &[5, 0, 0, 1, 0], trailing),
        ("an update of 0", &[24, 0, 0, 0, 1], Error::EndOfStream),
    ] {
        expect_not_decoded::<Handshake>(alloc, row, bytes, error, error)?;
    }
    Ok(())
}
