//! What a record encrypts: content, its type, and zeros to the end (RFC 8446, sections 5.2 and 5.4), as
//! docs/TLS13.md reads it.
use std::alloc::Global;
use std::test::Fail;
use test_support::rows::{done_at, same_at};
use tls_codec::Error;
use tls13::{ContentType, TLSInnerPlaintext};

// What a record has encrypted, and its type.
fn content_of(alloc: Global, plaintext: &[u8]) -> Result<(ContentType, Vec<u8>), Error> {
    let inner = TLSInnerPlaintext::tls_deserialize_exact_bytes(alloc, plaintext)?;
    Ok((inner.kind, inner.content))
}

const NO_TYPE: Error = Error::DecodingError("type is not there");

const ZERO_TYPE: Error = Error::EncodingError("type is not a byte other than zero");

// The content is what is before the last byte that isn't zero, whatever its own bytes are.
static READ: [(&str, &[u8], &[u8], u8, usize); 6] = [
    // "closure alert", as in RFC 8448, section 3
    ("an alert", &[1, 0, 21], &[1, 0], 21, 0),
    ("an alert and a zero", &[1, 0, 21, 0], &[1, 0], 21, 1),
    ("padding alone", &[23, 0, 0, 0], &[], 23, 3),
    ("nothing", &[22], &[], 22, 0),
    ("zeros as content", &[0, 0, 23, 0, 0], &[0, 0], 23, 2),
    ("a type without a name", &[22, 0, 99], &[22, 0], 99, 0),
];

#[test]
fn read_and_written(rt: HostRuntime) -> Result<(), Fail> {
    let alloc = rt.alloc();
    for (row, bytes, content, number, padding) in READ {
        let expected = TLSInnerPlaintext {
            content: content.to_vec(alloc)?,
            kind: ContentType(number),
            padding,
        };
        let found = TLSInnerPlaintext::tls_deserialize_exact_bytes(alloc, bytes);
        same_at(row, &done_at(row, found)?, &expected)?;
        let opened = done_at(row, content_of(alloc, bytes))?;
        same_at(row, opened, (ContentType(number), content.to_vec(alloc)?))?;
        expect_written(alloc, row, &expected, bytes)?;
    }
    Ok(())
}

// After other bytes, and as many as are announced.
fn expect_written(
    alloc: Global,
    row: &str,
    value: &TLSInnerPlaintext,
    bytes: &[u8],
) -> Result<(), Fail> {
    same_at(row, value.tls_serialized_len(), bytes.len())?;
    let mut out = [7].to_vec(alloc)?;
    same_at(row, value.tls_serialize_into(&mut out), Ok(bytes.len()))?;
    same_at(row, out.get(1..), Some(bytes))
}

#[test]
fn without_a_type(rt: HostRuntime) -> Result<(), Fail> {
    let alloc = rt.alloc();
    for (row, bytes) in [
        ("no bytes", [].as_slice()),
        ("a zero", &[0]),
        ("zeros", &[0, 0, 0]),
    ] {
        let found = TLSInnerPlaintext::tls_deserialize_exact_bytes(alloc, bytes).err();
        same_at(row, found, Some(NO_TYPE))?;
    }
    let value = TLSInnerPlaintext {
        content: [1, 0].to_vec(alloc)?,
        kind: ContentType::INVALID,
        padding: 1,
    };
    let mut out = [7].to_vec(alloc)?;
    same_at("zero", value.tls_serialize_into(&mut out), Err(ZERO_TYPE))?;
    same_at("zero", out.as_slice(), [7].as_slice())
}
