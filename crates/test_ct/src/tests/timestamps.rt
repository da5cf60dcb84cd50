//! What a server sends of its certificate (RFC 6962, section 3.3), and the signatures in it.
use crate::tests::{TIME, extensions};
use ct::{
    DigitallySigned, HashAlgorithm, LogID, SerializedSCT, SignatureAlgorithm,
    SignatureAndHashAlgorithm, SignedCertificateTimestamp, SignedCertificateTimestampList, Version,
};
use std::alloc::Global;
use std::test::Fail;
use test_support::each_call::{expect_encoded_as, expect_rejected_prefix};
use test_support::rows::same_at;
use tls_codec::{DeserializeBytes, Error, TlsByteVec, TlsByteVecU16, TlsVec};

// A list with one timestamp.
static LIST: [u8; 59] = [
    // the bytes of the list, and of its SerializedSCT
    0, 57, 0, 55, //
    // sct_version: v1
    0, //
    // id: the hash of the log's key
    1, 2, 3, 4, 5, 6, 7, 8, 9, 10, 11, 12, 13, 14, 15, 16, 17, 18, 19, 20, 21, 22, 23, 24, 25, 26,
    27, 28, 29, 30, 31, 32, //
    // timestamp
    0, 0, 1, 0x8b, 0xcf, 0xe5, 0x68, 0, //
    // extensions: none
    0, 0, //
    // what is sent of the signature: sha256 and ecdsa, and its 8 bytes
    4, 3, 0, 8, 0x30, 6, 2, 1, 5, 2, 1, 7,
];

// Where the list's timestamp begins.
const TIMESTAMP: usize = 4;

fn timestamp(alloc: Global) -> Result<SignedCertificateTimestamp, Fail> {
    let mut key_id = [0; 32];
    key_id.copy_from_slice(&LIST[5..37]);
    Ok(SignedCertificateTimestamp {
        sct_version: Version::V1,
        id: LogID { key_id },
        timestamp: TIME,
        extensions: extensions(alloc, &[])?,
        signature: DigitallySigned {
            algorithm: SignatureAndHashAlgorithm {
                hash: HashAlgorithm::SHA256,
                signature: SignatureAlgorithm::ECDSA,
            },
            signature: TlsByteVecU16::from_slice(alloc, &[0x30, 6, 2, 1, 5, 2, 1, 7])?,
        },
    })
}

#[test]
fn lists(rt: HostRuntime) -> Result<(), Fail> {
    let alloc = rt.alloc();
    let serialized: SerializedSCT = TlsByteVec::from_slice(alloc, &LIST[TIMESTAMP..])?;
    let list = SignedCertificateTimestampList {
        sct_list: TlsVec::new(Vec::from_array(alloc, [serialized])?),
    };
    expect_encoded_as(alloc, "a list", &list, &LIST)?;
    let timestamp = timestamp(alloc)?;
    expect_encoded_as(alloc, "its timestamp", &timestamp, &LIST[TIMESTAMP..])
}

// Each timestamp of a list is read by its own length, so that a list may have some of other versions.
#[test]
fn timestamps_of_lists(rt: HostRuntime) -> Result<(), Fail> {
    let alloc = rt.alloc();
    let list = SignedCertificateTimestampList::tls_deserialize_exact_bytes(alloc, &LIST)?;
    let [serialized] = list.sct_list.as_slice() else {
        panic!(rt; "not one timestamp");
    };
    let bytes = serialized.as_slice();
    let read = SignedCertificateTimestamp::tls_deserialize_exact_bytes(alloc, bytes)?;
    same_at("a timestamp", &read, &timestamp(alloc)?)?;
    Ok(())
}

#[test]
fn rejected_lists(rt: HostRuntime) -> Result<(), Fail> {
    let alloc = rt.alloc();
    for (row, bytes, error) in [
        (
            "no timestamp",
            [0, 0].as_slice(),
            Error::InvalidVectorLength,
        ),
        (
            "a timestamp of no bytes",
            &[0, 2, 0, 0],
            Error::InvalidVectorLength,
        ),
        (
            "an end within a timestamp",
            &[0, 3, 0, 2, 7],
            Error::EndOfStream,
        ),
    ] {
        expect_rejected_prefix::<SignedCertificateTimestampList>(alloc, row, bytes, error)?;
    }
    Ok(())
}

#[test]
fn rejected_timestamps(rt: HostRuntime) -> Result<(), Fail> {
    let alloc = rt.alloc();
    let row = "version 1";
    let error = Error::UnknownValue(1);
    expect_rejected_prefix::<SignedCertificateTimestamp>(alloc, row, &[1], error)?;
    // one byte more of extensions, of the signature, and one less of the signature's length
    for (row, at, byte) in [
        ("extensions", 46, 13),
        ("a signature", 50, 9),
        ("an odd signature", 49, 1),
    ] {
        let mut bytes = LIST[TIMESTAMP..].to_vec(alloc)?;
        bytes[at - TIMESTAMP] = byte;
        expect_rejected_prefix::<SignedCertificateTimestamp>(
            alloc,
            row,
            &bytes,
            Error::EndOfStream,
        )?;
    }
    Ok(())
}

// Registries: numbers without a name are kept (RFC 5246, section 12).
#[test]
fn algorithms(rt: HostRuntime) -> Result<(), Fail> {
    let alloc = rt.alloc();
    for (row, hash, signature, bytes) in [
        (
            "sha1 and rsa",
            HashAlgorithm::SHA1,
            SignatureAlgorithm::RSA,
            [2, 1],
        ),
        ("no names", HashAlgorithm(8), SignatureAlgorithm(7), [8, 7]),
    ] {
        let algorithm = SignatureAndHashAlgorithm { hash, signature };
        expect_encoded_as(alloc, row, &algorithm, &bytes)?;
    }
    Ok(())
}
