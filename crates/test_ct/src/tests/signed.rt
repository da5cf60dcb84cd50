//! What is signed: of a timestamp (RFC 6962, section 3.2), and of a tree (section 3.5).
use crate::tests::{TIME, certificate, extensions, precertificate};
use ct::{
    LogEntryTypeData, SignatureTypeCertificateTimestamp, SignatureTypeTreeHash,
    SignedCertificateTimestampTBS, TreeHeadSignature, Version,
};
use std::alloc::Global;
use std::test::Fail;
use test_support::each_call::{expect_encoded_as, expect_rejected_prefix};
use tls_codec::Error;

fn to_be_signed(
    alloc: Global,
    signed_entry: LogEntryTypeData,
) -> Result<SignedCertificateTimestampTBS, Fail> {
    Ok(SignedCertificateTimestampTBS {
        sct_version: Version::V1,
        signature_type: SignatureTypeCertificateTimestamp::CertificateTimestamp,
        timestamp: TIME,
        signed_entry,
        extensions: extensions(alloc, &[])?,
    })
}

static OF_CERTIFICATE: [u8; 20] = [
    // sct_version: v1, and signature_type: certificate_timestamp
    0, 0, //
    // timestamp
    0, 0, 1, 0x8b, 0xcf, 0xe5, 0x68, 0, //
    // entry_type: x509_entry, and a certificate of 3 bytes
    0, 0, 0, 0, 3, 0x30, 1, 5, //
    // extensions: none
    0, 0,
];

static OF_PRECERTIFICATE: [u8; 51] = [
    // sct_version: v1, and signature_type: certificate_timestamp
    0, 0, //
    // timestamp
    0, 0, 1, 0x8b, 0xcf, 0xe5, 0x68, 0, //
    // entry_type: precert_entry, and issuer_key_hash
    0, 1, //
    6, 6, 6, 6, 6, 6, 6, 6, 6, 6, 6, 6, 6, 6, 6, 6, 6, 6, 6, 6, 6, 6, 6, 6, 6, 6, 6, 6, 6, 6, 6, 6, //
    // tbs_certificate, of 2 bytes
    0, 0, 2, 8, 9, //
    // extensions: none
    0, 0,
];

#[test]
fn timestamps(rt: HostRuntime) -> Result<(), Fail> {
    let alloc = rt.alloc();
    let entry = LogEntryTypeData::X509Entry(certificate(alloc, &[0x30, 1, 5])?);
    let signed = to_be_signed(alloc, entry)?;
    expect_encoded_as(alloc, "a certificate", &signed, &OF_CERTIFICATE)?;
    let entry = LogEntryTypeData::PrecertEntry(precertificate(alloc)?);
    let signed = to_be_signed(alloc, entry)?;
    expect_encoded_as(alloc, "a precertificate", &signed, &OF_PRECERTIFICATE)
}

#[test]
fn rejected_timestamps(rt: HostRuntime) -> Result<(), Fail> {
    let alloc = rt.alloc();
    for (row, at, byte, error) in [
        ("version 1", 0, 1, Error::UnknownValue(1)),
        ("tree_hash", 1, 1, Error::UnknownValue(1)),
        ("entry_type 2", 11, 2, Error::UnknownValue(2)),
        (
            "a certificate of no bytes",
            14,
            0,
            Error::InvalidVectorLength,
        ),
        ("a certificate past the end", 14, 6, Error::EndOfStream),
    ] {
        let mut bytes = OF_CERTIFICATE.to_vec(alloc)?;
        bytes[at] = byte;
        expect_rejected_prefix::<SignedCertificateTimestampTBS>(alloc, row, &bytes, error)?;
    }
    Ok(())
}

static OF_TREE: [u8; 50] = [
    // version: v1, and signature_type: tree_hash
    0, 1, //
    // timestamp, and tree_size
    0, 0, 1, 0x8b, 0xcf, 0xe5, 0x68, 0, //
    0, 0, 0, 0, 0, 1, 0, 2, //
    // sha256_root_hash
    7, 7, 7, 7, 7, 7, 7, 7, 7, 7, 7, 7, 7, 7, 7, 7, 7, 7, 7, 7, 7, 7, 7, 7, 7, 7, 7, 7, 7, 7, 7, 7,
];

#[test]
fn trees(rt: HostRuntime) -> Result<(), Fail> {
    let alloc = rt.alloc();
    let head = TreeHeadSignature {
        version: Version::V1,
        signature_type: SignatureTypeTreeHash::TreeHash,
        timestamp: TIME,
        tree_size: 65538,
        sha256_root_hash: [7; 32],
    };
    expect_encoded_as(alloc, "a tree", &head, &OF_TREE)?;
    for (row, bytes, error) in [
        ("version 1", [1, 1], Error::UnknownValue(1)),
        ("certificate_timestamp", [0, 0], Error::UnknownValue(0)),
    ] {
        expect_rejected_prefix::<TreeHeadSignature>(alloc, row, &bytes, error)?;
    }
    Ok(())
}
