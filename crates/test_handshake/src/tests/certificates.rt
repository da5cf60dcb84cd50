//! Certificates and raw public keys, by the type that was agreed on (section 4.4.2).
use crate::tests::captured::CERTIFICATE;
use crate::tests::each_call::{expect_encoded_as, expect_encoded_as_in};
use handshake_by_hand::{
    Certificate, CertificateData, CertificateEntry, CertificateType, Extension, Handshake,
    UnknownHandshake,
};
use std::alloc::Global;
use std::process::Abort;
use std::test::Fail;
use test_support::in_context::{expect_does_not_fit_in, expect_not_decoded_in};
use test_support::rows::same_at;
use tls_codec::{
    DeserializeBytesFor, Error, TlsByteVec, TlsByteVecU8, TlsByteVecU16, TlsByteVecU24, TlsVecU16,
    TlsVecU24,
};

const X509: CertificateType = CertificateType::X509;

const RAW: CertificateType = CertificateType::RawPublicKey;

#[test]
fn types(rt: HostRuntime) -> Result<(), Fail> {
    let alloc = rt.alloc();
    expect_encoded_as(alloc, "X509", &X509, &[0])?;
    expect_encoded_as(alloc, "RawPublicKey", &RAW, &[2])
}

fn captured(rt: &impl Abort, alloc: Global) -> Result<Vec<u8>, Fail> {
    let mut bytes = Vec::new(alloc);
    for digits in &CERTIFICATE {
        let Ok(line) = hex::decode(alloc, *digits) else {
            panic!(rt; "no hex digits");
        };
        bytes.extend_from_slice(&line)?;
    }
    Ok(bytes)
}

// The type of a message is 11 and its length 395; one entry has a certificate of 386 bytes and no extension.
#[test]
fn a_certificate_that_a_server_sent(rt: HostRuntime) -> Result<(), Fail> {
    let alloc = rt.alloc();
    let bytes = captured(&rt, alloc)?;
    assert!(rt; bytes.len() == 399);
    let body = &bytes[4..];
    let other = UnknownHandshake::new(11, TlsByteVecU24::from_slice(alloc, body)?)?;
    let message = Handshake::Unknown(other);
    expect_encoded_as(alloc, "a message", &message, &bytes)?;
    let entry = CertificateEntry {
        certificate: CertificateData::X509(TlsByteVec::from_slice(alloc, &bytes[11..397])?),
        extensions: TlsVecU16::from_slice(alloc, &[])?,
    };
    let certificate = Certificate {
        certificate_request_context: TlsByteVecU8::from_slice(alloc, &[])?,
        certificate_list: TlsVecU24::new(Vec::from_array(alloc, [entry])?),
    };
    expect_encoded_as_in(alloc, "a certificate", &X509, &certificate, body)?;
    // The same bytes are another value where raw public keys were agreed on.
    let read = Certificate::tls_deserialize_exact_bytes_for(&RAW, alloc, body)?;
    same_at("a key", read != certificate, true)?;
    expect_encoded_as_in(alloc, "a key", &RAW, &read, body)?;
    expect_does_not_fit_in(alloc, "a certificate", &RAW, &certificate)?;
    expect_does_not_fit_in(alloc, "a key", &X509, &read)
}

// An Ed25519 key (RFC 8410), and an answer to `status_request`.
#[test]
fn a_raw_public_key(rt: HostRuntime) -> Result<(), Fail> {
    let alloc = rt.alloc();
    let mut key = [0x30, 0x2a, 0x30, 5, 6, 3, 0x2b, 0x65, 0x70, 3, 0x21, 0].to_vec(alloc)?;
    key.extend_from_slice(&[7; 32])?;
    let status = Extension {
        extension_type: 5,
        extension_data: TlsByteVecU16::from_slice(alloc, &[1, 0, 0, 1, 9])?,
    };
    let entry = CertificateEntry {
        certificate: CertificateData::RawPublicKey(TlsByteVec::from_slice(alloc, &key)?),
        extensions: TlsVecU16::new(Vec::from_array(alloc, [status])?),
    };
    let certificate = Certificate {
        certificate_request_context: TlsByteVecU8::from_slice(alloc, &[8])?,
        certificate_list: TlsVecU24::new(Vec::from_array(alloc, [entry])?),
    };
    let mut spelled = [1u8, 8, 0, 0, 58, 0, 0, 44].to_vec(alloc)?;
    spelled.extend_from_slice(&key)?;
    spelled.extend_from_slice(&[0, 9, 0, 5, 0, 5, 1, 0, 0, 1, 9])?;
    expect_encoded_as_in(alloc, "a key", &RAW, &certificate, &spelled)?;
    expect_does_not_fit_in(alloc, "a key", &X509, &certificate)
}

fn entry(alloc: Global, byte: u8) -> Result<CertificateEntry, Error> {
    let cert_data = TlsByteVec::from_slice(alloc, &[byte])?;
    Ok(CertificateEntry {
        certificate: CertificateData::X509(cert_data),
        extensions: TlsVecU16::from_slice(alloc, &[])?,
    })
}

#[test]
fn each_entry_is_of_the_same_type(rt: HostRuntime) -> Result<(), Fail> {
    let alloc = rt.alloc();
    let entries = [entry(alloc, 6)?, entry(alloc, 7)?];
    let certificate = Certificate {
        certificate_request_context: TlsByteVecU8::from_slice(alloc, &[])?,
        certificate_list: TlsVecU24::new(Vec::from_array(alloc, entries)?),
    };
    let spelled = [0, 0, 0, 12, 0, 0, 1, 6, 0, 0, 0, 0, 1, 7, 0, 0];
    expect_encoded_as_in(alloc, "certificates", &X509, &certificate, &spelled)?;
    expect_does_not_fit_in(alloc, "a certificate", &RAW, &certificate)?;
    let key = CertificateData::RawPublicKey(TlsByteVec::from_slice(alloc, &[7])?);
    let entries = [
        entry(alloc, 6)?,
        CertificateEntry {
            certificate: key,
            extensions: TlsVecU16::from_slice(alloc, &[])?,
        },
    ];
    let mixed = Certificate {
        certificate_request_context: TlsByteVecU8::from_slice(alloc, &[])?,
        certificate_list: TlsVecU24::new(Vec::from_array(alloc, entries)?),
    };
    expect_does_not_fit_in(alloc, "one of each", &X509, &mixed)?;
    expect_does_not_fit_in(alloc, "one of each", &RAW, &mixed)
}

// A list that ends within an entry, and a certificate of no bytes.
#[test]
fn rejected_lists(rt: HostRuntime) -> Result<(), Fail> {
    let alloc = rt.alloc();
    let cut = [0, 0, 0, 5, 0, 0, 1, 6, 0];
    let none = [0, 0, 0, 5, 0, 0, 0, 0, 0];
    for (row, bytes, error) in [
        ("an end within an entry", cut, Error::EndOfStream),
        ("no bytes", none, Error::InvalidVectorLength),
    ] {
        expect_not_decoded_in::<_, Certificate>(alloc, row, &X509, &bytes, error, error)?;
    }
    Ok(())
}
