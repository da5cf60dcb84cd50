//! Leaves of a log's tree (RFC 6962, section 3.4).
use crate::tests::{TIME, certificate, extensions, precertificate};
use ct::{
    MerkleLeafType, MerkleTreeLeaf, TimestampedEntry, TimestampedEntryLogEntryTypeData, Version,
};
use std::alloc::Global;
use std::test::Fail;
use test_support::each_call::{expect_encoded_as, expect_rejected_prefix};
use tls_codec::Error;

fn leaf(
    alloc: Global,
    signed_entry: TimestampedEntryLogEntryTypeData,
) -> Result<MerkleTreeLeaf, Fail> {
    Ok(MerkleTreeLeaf {
        version: Version::V1,
        leaf_type: MerkleLeafType::TimestampedEntry,
        timestamped_entry: TimestampedEntry {
            timestamp: TIME,
            signed_entry,
            extensions: extensions(alloc, &[4])?,
        },
    })
}

static OF_CERTIFICATE: [u8; 21] = [
    // version: v1, and leaf_type: timestamped_entry
    0, 0, //
    // timestamp
    0, 0, 1, 0x8b, 0xcf, 0xe5, 0x68, 0, //
    // entry_type: x509_entry, and a certificate of 3 bytes
    0, 0, 0, 0, 3, 0x30, 1, 5, //
    // extensions: one byte
    0, 1, 4,
];

static OF_PRECERTIFICATE: [u8; 52] = [
    // version: v1, and leaf_type: timestamped_entry
    0, 0, //
    // timestamp
    0, 0, 1, 0x8b, 0xcf, 0xe5, 0x68, 0, //
    // entry_type: precert_entry, and issuer_key_hash
    0, 1, //
    6, 6, 6, 6, 6, 6, 6, 6, 6, 6, 6, 6, 6, 6, 6, 6, 6, 6, 6, 6, 6, 6, 6, 6, 6, 6, 6, 6, 6, 6, 6, 6, //
    // tbs_certificate, of 2 bytes
    0, 0, 2, 8, 9, //
    // extensions: one byte
    0, 1, 4,
];

#[test]
fn leaves(rt: HostRuntime) -> Result<(), Fail> {
    let alloc = rt.alloc();
    let cert = certificate(alloc, &[0x30, 1, 5])?;
    let of_cert = leaf(alloc, TimestampedEntryLogEntryTypeData::X509Entry(cert))?;
    expect_encoded_as(alloc, "a certificate", &of_cert, &OF_CERTIFICATE)?;
    let precert = precertificate(alloc)?;
    let entry = TimestampedEntryLogEntryTypeData::PrecertEntry(precert);
    let of_precert = leaf(alloc, entry)?;
    expect_encoded_as(alloc, "a precertificate", &of_precert, &OF_PRECERTIFICATE)
}

#[test]
fn rejected_leaves(rt: HostRuntime) -> Result<(), Fail> {
    let alloc = rt.alloc();
    for (row, at, byte, error) in [
        ("version 1", 0, 1, Error::UnknownValue(1)),
        ("leaf_type 1", 1, 1, Error::UnknownValue(1)),
        ("entry_type 2", 11, 2, Error::UnknownValue(2)),
        (
            "a certificate of no bytes",
            14,
            0,
            Error::InvalidVectorLength,
        ),
        ("extensions of 2 bytes", 19, 2, Error::EndOfStream),
    ] {
        let mut bytes = OF_CERTIFICATE.to_vec(alloc)?;
        bytes[at] = byte;
        expect_rejected_prefix::<MerkleTreeLeaf>(alloc, row, &bytes, error)?;
    }
    Ok(())
}
