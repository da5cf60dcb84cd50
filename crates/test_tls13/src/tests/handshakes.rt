//! Types and lengths of messages (section 4): those that no capture has, and wrong ones.
use crate::tests::captured::{Row, bytes, mtls};
use std::alloc::Global;
use std::process::Abort;
use std::test::Fail;
use test_support::each_call::{expect_encoded_as, expect_rejected, expect_rejected_prefix_by};
use tls_codec::{Error, Serialize, TlsByteVecU24, U24};
use tls13::{EndOfEarlyData, Handshake, KeyUpdate, KeyUpdateRequest};

const END: Error = Error::EndOfStream;

const TRAILING: Error = Error::TrailingData;

const FINISHED: u8 = 20;

#[test]
fn small_messages(rt: HostRuntime) -> Result<(), Fail> {
    let alloc = rt.alloc();
    let update = |request_update| Handshake::KeyUpdate(KeyUpdate { request_update });
    let finished = |hash| Handshake::Finished(TlsByteVecU24::new(hash));
    for (row, message, bytes) in [
        (
            "an update",
            update(KeyUpdateRequest::UpdateNotRequested),
            [24, 0, 0, 1, 0].as_slice(),
        ),
        (
            "an update that asks for one",
            update(KeyUpdateRequest::UpdateRequested),
            &[24, 0, 0, 1, 1],
        ),
        (
            "no body",
            Handshake::EndOfEarlyData(EndOfEarlyData {}),
            &[5, 0, 0, 0],
        ),
        ("no hash", finished(Vec::new(alloc)), &[20, 0, 0, 0]),
        (
            "a hash of two bytes",
            finished([8, 9].to_vec(alloc)?),
            &[20, 0, 0, 2, 8, 9],
        ),
    ] {
        expect_encoded_as(alloc, row, &message, bytes)?;
    }
    Ok(())
}

// A source is read up to the length, and a slice has to have as many bytes first.
static REJECTED: [(&str, &[u8], Error, Error); 15] = [
    ("KeyUpdate, 0", &[24, 0, 0, 0, 0], END, END),
    ("KeyUpdate, one more", &[24, 0, 0, 2, 0], END, TRAILING),
    (
        "KeyUpdate, and a byte",
        &[24, 0, 0, 2, 0, 0],
        TRAILING,
        TRAILING,
    ),
    ("KeyUpdate, cut off", &[24, 0, 0, 1], END, END),
    (
        "KeyUpdate, of no request",
        &[24, 0, 0, 1, 2],
        Error::UnknownValue(2),
        Error::UnknownValue(2),
    ),
    ("EndOfEarlyData, one more", &[5, 0, 0, 1], END, TRAILING),
    (
        "EndOfEarlyData, and a byte",
        &[5, 0, 0, 1, 0],
        TRAILING,
        TRAILING,
    ),
    ("Finished, one more", &[20, 0, 0, 3, 8, 9], END, END),
    ("Finished, cut off", &[20, 0, 0, 2, 8], END, END),
    ("a length of two bytes", &[20, 0, 0], END, END),
    ("a type alone", &[20], END, END),
    ("nothing", &[], END, END),
    (
        "ClientHello, TLS 1.0",
        &[1, 0, 0, 2, 3, 1],
        Error::UnknownValue(769),
        Error::UnknownValue(769),
    ),
    (
        "ServerHello, TLS 1.3",
        &[2, 0, 0, 2, 3, 4],
        Error::UnknownValue(772),
        Error::UnknownValue(772),
    ),
    (
        "ServerHello, compressed",
        &[
            2, 0, 0, 38, 3, 3, 0, 0, 0, 0, 0, 0, 0, 0, 0, 0, 0, 0, 0, 0, 0, 0, 0, 0, 0, 0, 0, 0, 0,
            0, 0, 0, 0, 0, 0, 0, 0, 0, 0, 0x13, 1, 1,
        ],
        Error::UnknownValue(1),
        Error::UnknownValue(1),
    ),
];

#[test]
fn rejected_lengths(rt: HostRuntime) -> Result<(), Fail> {
    let alloc = rt.alloc();
    for (row, bytes, of_slice, of_source) in REJECTED {
        expect_rejected_prefix_by::<Handshake>(alloc, row, bytes, of_slice, of_source)?;
    }
    Ok(())
}

// Its hash has one byte then, and another byte comes after it.
#[test]
fn a_finished_of_one_less(rt: HostRuntime) -> Result<(), Fail> {
    let alloc = rt.alloc();
    expect_rejected::<Handshake>(alloc, "one less", &[20, 0, 0, 1, 8, 9], TRAILING)
}

// Those of earlier versions, whose structure TLS 1.3 doesn't have, one of a transcript alone (254),
// and others.
#[test]
fn rejected_types(rt: HostRuntime) -> Result<(), Fail> {
    let alloc = rt.alloc();
    for kind in [
        0u8, 3, 6, 7, 9, 10, 12, 14, 16, 19, 21, 22, 23, 25, 254, 255,
    ] {
        let row = format!(in alloc; "type {kind}")?;
        let error = Error::UnknownValue(u64::from(kind));
        expect_rejected_prefix_by::<Handshake>(alloc, &row, &[kind, 0, 0, 0], error, error)?;
    }
    Ok(())
}

// Each captured message of a run, whose body ends where it says itself.
#[test]
fn other_lengths(rt: HostRuntime) -> Result<(), Fail> {
    let alloc = rt.alloc();
    for row in &mtls::ROWS {
        expect_lengths_rejected(&rt, alloc, row)?;
    }
    Ok(())
}

fn expect_lengths_rejected(rt: &impl Abort, alloc: Global, row: &Row) -> Result<(), Fail> {
    let message = bytes(rt, alloc, row.digits)?;
    let [kind, _, _, _, body @ ..] = message.as_slice() else {
        panic!(rt; "no length at {}", row.name);
    };
    let [shorter @ .., _] = body else {
        panic!(rt; "no body at {}", row.name);
    };
    if *kind == FINISHED {
        return Ok(());
    }
    let mut longer = body.to_vec(alloc)?;
    longer.push(0)?;
    for (altered, length, body, of_slice, of_source) in [
        ("one less", shorter.len(), body, END, END),
        ("0", 0, body, END, END),
        ("one more", longer.len(), body, END, TRAILING),
        (
            "and a byte",
            longer.len(),
            longer.as_slice(),
            TRAILING,
            TRAILING,
        ),
        ("cut off", body.len(), shorter, END, END),
    ] {
        let name = format!(in alloc; "{}, {altered}", row.name)?;
        let bytes = spelled(alloc, *kind, length, body)?;
        expect_rejected_prefix_by::<Handshake>(alloc, &name, &bytes, of_slice, of_source)?;
    }
    Ok(())
}

// A message whose length may differ from its body's.
fn spelled(alloc: Global, kind: u8, length: usize, body: &[u8]) -> Result<Vec<u8>, Fail> {
    let mut bytes = [kind].to_vec(alloc)?;
    U24::try_from(length)?.tls_serialize_into(&mut bytes)?;
    bytes.extend_from_slice(body)?;
    Ok(bytes)
}
