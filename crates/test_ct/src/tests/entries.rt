//! What a log keeps of a certificate (RFC 6962, section 3.1).
use crate::tests::certificate;
use ct::{LogEntry, PrecertChainEntry, X509ChainEntry};
use std::test::Fail;
use test_support::each_call::{
    expect_encoded_as, expect_rejected_prefix, expect_rejected_prefix_by,
};
use tls_codec::{Error, TlsVec};

const NOT_FILLED: Error = Error::DecodingError("elements do not fill the declared length");

static X509: [u8; 18] = [
    // entry_type: x509_entry
    0, 0, //
    // leaf_certificate, of one byte
    0, 0, 1, 7, //
    // certificate_chain: 9 bytes, two certificates
    0, 0, 9, //
    0, 0, 1, 8, //
    0, 0, 2, 9, 10,
];

// A chain of none.
static PRECERT: [u8; 9] = [
    // entry_type: precert_entry
    0, 1, //
    // pre_certificate, of one byte
    0, 0, 1, 7, //
    // precertificate_chain
    0, 0, 0,
];

#[test]
fn entries(rt: HostRuntime) -> Result<(), Fail> {
    let alloc = rt.alloc();
    let chain = [certificate(alloc, &[8])?, certificate(alloc, &[9, 10])?];
    let entry = LogEntry::X509Entry(X509ChainEntry {
        leaf_certificate: certificate(alloc, &[7])?,
        certificate_chain: TlsVec::new(Vec::from_array(alloc, chain)?),
    });
    expect_encoded_as(alloc, "a certificate", &entry, &X509)?;
    let entry = LogEntry::from(PrecertChainEntry {
        pre_certificate: certificate(alloc, &[7])?,
        precertificate_chain: TlsVec::new(Vec::new(alloc)),
    });
    expect_encoded_as(alloc, "a precertificate", &entry, &PRECERT)
}

#[test]
fn rejected_entries(rt: HostRuntime) -> Result<(), Fail> {
    let alloc = rt.alloc();
    for (row, at, byte, error) in [
        ("entry_type 2", 1, 2, Error::UnknownValue(2)),
        (
            "a certificate of no bytes",
            4,
            0,
            Error::InvalidVectorLength,
        ),
    ] {
        let mut bytes = X509.to_vec(alloc)?;
        bytes[at] = byte;
        expect_rejected_prefix::<LogEntry>(alloc, row, &bytes, error)?;
    }
    Ok(())
}

// The chain's length ends within its last certificate: a slice shows the byte after it, and a
// source doesn't.
#[test]
fn an_end_within_a_certificate(rt: HostRuntime) -> Result<(), Fail> {
    let alloc = rt.alloc();
    let mut bytes = X509.to_vec(alloc)?;
    bytes[8] = 8;
    let row = "a chain of 8 bytes";
    expect_rejected_prefix_by::<LogEntry>(alloc, row, &bytes, NOT_FILLED, Error::EndOfStream)?;
    Ok(())
}
