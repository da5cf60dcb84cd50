//! What OpenSSL sent: each message is read to its last byte, and so is each of its extensions that RFC 8446 has.
use crate::tests::captured::{ALERTS, Row, basic, bytes, hrr, keyup, mtls, resume, seed, tls12};
use crate::tests::extensions::{Found, Place, is_retry, open_all};
use std::alloc::Global;
use std::process::Abort;
use std::test::Fail;
use test_support::each_call::{expect_encoded_as, expect_rejected_prefix, expect_round_trip};
use test_support::rows::{done_at, same, same_at};
use tls_codec::DeserializeBytes;
use tls13::{Alert, AlertDescription, AlertLevel, Handshake, HandshakeType};

// Opens each message of a run, and checks how many extensions these have and how many of them
// RFC 8446 has.
fn expect_run(
    rt: &impl Abort,
    alloc: Global,
    rows: &[Row],
    extensions: usize,
    opened: usize,
) -> Result<(), Fail> {
    let mut all = Found::new(alloc);
    for row in rows {
        let found = expect_row(rt, alloc, row)?;
        all.types.extend_from_slice(&found.types)?;
        all.opened.extend_from_slice(&found.opened)?;
    }
    same(all.types.len(), extensions)?;
    same(all.opened.len(), opened)?;
    Ok(())
}

fn expect_row(rt: &impl Abort, alloc: Global, row: &Row) -> Result<Found, Fail> {
    let bytes = bytes(rt, alloc, row.digits)?;
    expect_round_trip::<Handshake>(alloc, row.name, &bytes)?;
    let message = done_at(
        row.name,
        Handshake::tls_deserialize_exact_bytes(alloc, &bytes),
    )?;
    let (kind, _) = done_at(
        row.name,
        HandshakeType::tls_deserialize_bytes(alloc, &bytes),
    )?;
    let place = Place {
        row: row.name,
        kind,
        retries: is_retry(&message),
    };
    let found = open_all(rt, alloc, &place, &message)?;
    same_at(row.name, found.types.as_slice(), row.extensions)?;
    same_at(row.name, found.opened.as_slice(), row.opened)?;
    Ok(found)
}

#[test]
fn basic(rt: HostRuntime) -> Result<(), Fail> {
    expect_run(&rt, rt.alloc(), &basic::ROWS, 15, 7)
}

#[test]
fn hrr(rt: HostRuntime) -> Result<(), Fail> {
    expect_run(&rt, rt.alloc(), &hrr::ROWS, 24, 14)
}

#[test]
fn keyup(rt: HostRuntime) -> Result<(), Fail> {
    expect_run(&rt, rt.alloc(), &keyup::ROWS, 11, 7)
}

#[test]
fn mtls(rt: HostRuntime) -> Result<(), Fail> {
    expect_run(&rt, rt.alloc(), &mtls::ROWS, 13, 9)
}

#[test]
fn seed(rt: HostRuntime) -> Result<(), Fail> {
    expect_run(&rt, rt.alloc(), &seed::ROWS, 14, 9)
}

#[test]
fn resume(rt: HostRuntime) -> Result<(), Fail> {
    expect_run(&rt, rt.alloc(), &resume::ROWS, 17, 12)
}

#[test]
fn tls12(rt: HostRuntime) -> Result<(), Fail> {
    expect_run(&rt, rt.alloc(), &tls12::ROWS, 11, 2)
}

// Messages of TLS 1.2 that TLS 1.3 has not.
#[test]
fn other_messages(rt: HostRuntime) -> Result<(), Fail> {
    let alloc = rt.alloc();
    for row in &tls12::REJECTED {
        let bytes = bytes(&rt, alloc, row.digits)?;
        expect_rejected_prefix::<Handshake>(alloc, row.name, &bytes, row.error)?;
    }
    Ok(())
}

#[test]
fn alerts(rt: HostRuntime) -> Result<(), Fail> {
    let alloc = rt.alloc();
    let alert = Alert {
        level: AlertLevel::WARNING,
        description: AlertDescription::CLOSE_NOTIFY,
    };
    for (row, bytes) in ALERTS {
        expect_encoded_as(alloc, row, &alert, bytes)?;
    }
    Ok(())
}
