//! Records of TLS 1.3 (RFC 8446, section 5), and the messages that they have, as docs/TLS13.md reads them.
use std::alloc::Global;
use std::test::Fail;
use test_support::each_call::{expect_encoded_as, expect_rejected_prefix};
use test_support::rows::same;
use tls_codec::{DeserializeBytes, Error, Serialize, TlsByteVecU16, TlsByteVecU24, U24};
use tls_codec_views::Encoded;
use tls13::{
    ContentType, ContentTypeApplicationData, Handshake, KeyUpdate, KeyUpdateRequest,
    ProtocolVersionX0303, TLSCiphertext, TLSPlaintext,
};

// The greatest fragment of a record (section 5.1), and how many bytes of messages are kept.
const FRAGMENT: usize = 16_384;

pub(super) const MOST: usize = 65_536;

// Appends the fragment of a record, which has to be a part of the handshake.
pub(super) fn append_fragment(messages: &mut Vec<u8>, record: &TLSPlaintext) -> Result<(), Error> {
    let fragment = record.fragment.as_slice();
    if record.kind != ContentType::HANDSHAKE {
        return Err(Error::UnknownValue(u64::from(record.kind.0)));
    }
    if fragment.is_empty() || fragment.len() > FRAGMENT {
        return Err(Error::DecodingError("fragment is empty or too long"));
    }
    if fragment.len() > MOST.saturating_sub(messages.len()) {
        return Err(Error::DecodingError("messages are too long"));
    }
    messages.extend_from_slice(fragment)?;
    Ok(())
}

// Appends the fragment of the record that the bytes begin with. Returns what is left after the record.
fn take_record<'a>(
    alloc: Global,
    messages: &mut Vec<u8>,
    bytes: &'a [u8],
) -> Result<&'a [u8], Error> {
    let (record, rest) = TLSPlaintext::tls_deserialize_bytes(alloc, bytes)?;
    append_fragment(messages, &record)?;
    Ok(rest)
}

// The first message and what is left after it, or none if its bytes aren't all there.
pub(super) fn take_message(left: &[u8]) -> Result<Option<(Encoded<'_, Handshake>, &[u8])>, Error> {
    let [_, a, b, c, body @ ..] = left else {
        return Ok(None);
    };
    if body.len() < U24::from_be_bytes([*a, *b, *c]).value() as usize {
        return Ok(None);
    }
    match Encoded::<Handshake>::split_prefix(left) {
        Ok(found) => Ok(Some(found)),
        Err(rejected) => Err(rejected.error),
    }
}

// The same as a value.
fn read_message(alloc: Global, left: &[u8]) -> Result<Option<(Handshake, &[u8])>, Error> {
    match take_message(left)? {
        Some((message, rest)) => Ok(Some((message.to_value(alloc)?, rest))),
        None => Ok(None),
    }
}

#[test]
fn plaintexts(rt: HostRuntime) -> Result<(), Fail> {
    let alloc = rt.alloc();
    let record = TLSPlaintext {
        kind: ContentType::ALERT,
        legacy_record_version: 0x0303,
        fragment: TlsByteVecU16::from_slice(alloc, &[2, 50])?,
    };
    expect_encoded_as(alloc, "an alert", &record, &[21, 3, 3, 0, 2, 2, 50])?;
    let record = TLSPlaintext {
        kind: ContentType::HEARTBEAT,
        legacy_record_version: 0x0301,
        fragment: TlsByteVecU16::from_slice(alloc, &[])?,
    };
    expect_encoded_as(alloc, "a heartbeat", &record, &[24, 3, 1, 0, 0])?;
    // A type that the RFC doesn't name is kept.
    let record = TLSPlaintext {
        kind: ContentType(25),
        legacy_record_version: 0x0303,
        fragment: TlsByteVecU16::from_slice(alloc, &[7])?,
    };
    expect_encoded_as(alloc, "another type", &record, &[25, 3, 3, 0, 1, 7])?;
    let bytes = [21, 3, 3, 0, 2, 2];
    expect_rejected_prefix::<TLSPlaintext>(alloc, "one byte of two", &bytes, Error::EndOfStream)?;
    Ok(())
}

#[test]
fn ciphertexts(rt: HostRuntime) -> Result<(), Fail> {
    let alloc = rt.alloc();
    let record = TLSCiphertext {
        opaque_type: ContentTypeApplicationData::ApplicationData,
        legacy_record_version: ProtocolVersionX0303::X0303,
        encrypted_record: TlsByteVecU16::from_slice(alloc, &[7, 8, 9])?,
    };
    expect_encoded_as(alloc, "a record", &record, &[23, 3, 3, 0, 3, 7, 8, 9])?;
    for (row, bytes, error) in [
        (
            "another type",
            [22, 3, 3, 0, 0].as_slice(),
            Error::UnknownValue(22),
        ),
        (
            "another version",
            &[23, 3, 1, 0, 0],
            Error::UnknownValue(0x0301),
        ),
    ] {
        expect_rejected_prefix::<TLSCiphertext>(alloc, row, bytes, error)?;
    }
    Ok(())
}

// One record has a message and a part of the next, another the other part.
#[test]
fn messages_of_two_records(rt: HostRuntime) -> Result<(), Fail> {
    let alloc = rt.alloc();
    let first = [22, 3, 3, 0, 8, 24, 0, 0, 1, 1, 20, 0, 0];
    let second = [22, 3, 3, 0, 3, 2, 8, 9];
    let mut messages = Vec::new(alloc);
    same(take_record(alloc, &mut messages, &first)?, [].as_slice())?;
    let update = Handshake::KeyUpdate(KeyUpdate {
        request_update: KeyUpdateRequest::UpdateRequested,
    });
    let found = read_message(alloc, &messages)?;
    same(found, Some((update, [20u8, 0, 0].as_slice())))?;
    same(read_message(alloc, &[20, 0, 0])?, None)?;
    same(take_record(alloc, &mut messages, &second)?, [].as_slice())?;
    let finished = Handshake::Finished(TlsByteVecU24::from_slice(alloc, &[8, 9])?);
    let Some(left) = messages.get(5..) else {
        panic!(rt; "no bytes from 5 on");
    };
    let found = read_message(alloc, left)?;
    same(found, Some((finished, [].as_slice())))?;
    Ok(())
}

// A record of another type, one without a fragment, one that is cut off.
#[test]
fn records_without_a_message(rt: HostRuntime) -> Result<(), Fail> {
    let alloc = rt.alloc();
    let mut messages = Vec::new(alloc);
    for (bytes, error) in [
        ([21, 3, 3, 0, 2, 2, 50].as_slice(), Error::UnknownValue(21)),
        (
            &[22, 3, 3, 0, 0],
            Error::DecodingError("fragment is empty or too long"),
        ),
        (&[22, 3, 3, 0, 2, 24], Error::EndOfStream),
    ] {
        let rejected = take_record(alloc, &mut messages, bytes).err();
        same(rejected, Some(error))?;
    }
    same(messages.is_empty(), true)
}

// Bytes that are to come are no rejection, and bytes that don't fill the length are one.
#[test]
fn messages_of_other_lengths(rt: HostRuntime) -> Result<(), Fail> {
    let alloc = rt.alloc();
    let short = read_message(alloc, &[24, 0, 0, 1]);
    same(short, Ok(None))?;
    let longer = read_message(alloc, &[24, 0, 0, 2, 0, 0]);
    same(longer, Err(Error::TrailingData))?;
    let shorter = read_message(alloc, &[24, 0, 0, 0, 0]);
    same(shorter, Err(Error::EndOfStream))
}

// No fragment is longer than section 5.1 has it, and no more bytes are kept than are allowed.
#[test]
fn too_many_bytes(rt: HostRuntime) -> Result<(), Fail> {
    let alloc = rt.alloc();
    let mut messages = Vec::new(alloc);
    let long_fragment = Some(Error::DecodingError("fragment is empty or too long"));
    let long_messages = Some(Error::DecodingError("messages are too long"));
    for (length, rejected, kept) in [
        (16_385, long_fragment, 0),
        (16_384, None, 16_384),
        (16_384, None, 32_768),
        (16_384, None, 49_152),
        (16_384, None, 65_536),
        (1, long_messages, 65_536),
    ] {
        let record = TLSPlaintext {
            kind: ContentType::HANDSHAKE,
            legacy_record_version: 0x0303,
            fragment: TlsByteVecU16::new(vec![in alloc; 0u8; length]?),
        };
        let bytes = record.tls_serialize_detached(alloc)?;
        let found = take_record(alloc, &mut messages, &bytes).err();
        same(found, rejected)?;
        same(messages.len(), kept)?;
    }
    Ok(())
}
