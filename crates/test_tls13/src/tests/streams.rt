//! A ClientHello from a stream, as docs/TLS13.md reads it.
use crate::tests::captured::{basic, bytes};
use crate::tests::records::{MOST, append_fragment, take_message};
use std::alloc::Global;
use std::io::Read;
use std::process::Abort;
use std::test::Fail;
use test_support::rows::same;
use tls_codec::{Bounded, Deserialize, DeserializeBytes, Error, Outside, Serialize, TlsByteVecU16};
use tls13::{ClientHello, ContentType, Handshake, TLSPlaintext};

// The longest record: a header of 5 bytes, and 2^14 + 256 bytes that are encrypted (RFC 8446, section 5.2).
const RECORD: u64 = 16_645;

// The next record of a stream, or none if the stream ends before it.
fn next_record<R: Read>(
    alloc: Global,
    input: &mut Outside<R>,
) -> Result<Option<TLSPlaintext>, Error> {
    let before = input.moved();
    let mut limited = Bounded::new(input, RECORD);
    let found = TLSPlaintext::tls_deserialize(alloc, &mut limited);
    let is_too_long = limited.limit() == 0;
    match found {
        Ok(record) => Ok(Some(record)),
        Err(Error::EndOfStream) if is_too_long => Err(Error::DecodingError("record is too long")),
        Err(Error::EndOfStream) if input.moved() == before => Ok(None),
        Err(error) => Err(error),
    }
}

// The ClientHello that a stream begins with, in one record or several.
fn read_hello<R: Read>(alloc: Global, input: &mut Outside<R>) -> Result<ClientHello, Error> {
    let mut messages = Vec::new(alloc);
    for _ in 0..=MOST {
        let Some(record) = next_record(alloc, input)? else {
            return Err(Error::EndOfStream);
        };
        append_fragment(&mut messages, &record)?;
        if let Some((message, _)) = take_message(&messages)? {
            return match message.to_value(alloc)? {
                Handshake::ClientHello(hello) => Ok(hello),
                _ => Err(Error::DecodingError("message is no ClientHello")),
            };
        }
    }
    Err(Error::DecodingError("messages are too long"))
}

// A message in records of `most` bytes each. The last may have fewer.
fn records_of(alloc: Global, message: &[u8], most: usize) -> Result<Vec<u8>, Fail> {
    let mut stream = Vec::new(alloc);
    if most == 0 {
        return Ok(stream);
    }
    for fragment in message.chunks(most) {
        let record = TLSPlaintext {
            kind: ContentType::HANDSHAKE,
            legacy_record_version: 0x0301,
            fragment: TlsByteVecU16::from_slice(alloc, fragment)?,
        };
        record.tls_serialize_into(&mut stream)?;
    }
    Ok(stream)
}

// Two messages of OpenSSL: a ClientHello, and the ServerHello after it.
fn captured(rt: &impl Abort, alloc: Global) -> Result<(Vec<u8>, Vec<u8>), Fail> {
    let hello = bytes(rt, alloc, basic::ROWS[0].digits)?;
    let answer = bytes(rt, alloc, basic::ROWS[1].digits)?;
    Ok((hello, answer))
}

// The bytes from one place up to another.
fn slice<'a>(rt: &impl Abort, bytes: &'a [u8], from: usize, to: usize) -> &'a [u8] {
    let Some(part) = bytes.get(from..to) else {
        panic!(rt; "no bytes {from} to {to}");
    };
    part
}

// The hello is that of its bytes, and the source is just after the record in which it ends.
#[test]
fn a_client_hello_in_records(rt: HostRuntime) -> Result<(), Fail> {
    let alloc = rt.alloc();
    let (hello, answer) = captured(&rt, alloc)?;
    let expected = ClientHello::tls_deserialize_exact_bytes(
        alloc,
        slice(&rt, &hello, 4, hello.len()),
    )?;
    for most in [1, 3, 100, 16_384] {
        let mut stream = records_of(alloc, &hello, most)?;
        let length = stream.len() as u64;
        let after = records_of(alloc, &answer, most)?;
        stream.extend_from_slice(&after)?;
        let mut input = Outside::new(stream.as_slice());
        let found = read_hello(alloc, &mut input)?;
        same(&found, &expected)?;
        same(found.random.as_slice(), slice(&rt, &hello, 6, 38))?;
        same(input.moved(), length)?;
    }
    Ok(())
}

// A stream that ends before a record, in one, and after a part of the hello; a record that is too long; another message.
#[test]
fn streams_without_a_client_hello(rt: HostRuntime) -> Result<(), Fail> {
    let alloc = rt.alloc();
    let (hello, answer) = captured(&rt, alloc)?;
    let whole = records_of(alloc, &hello, 16_384)?;
    let other = records_of(alloc, &answer, 16_384)?;
    let mut long = [22, 3, 1, 0x41, 0x01].to_vec(alloc)?;
    long.extend_from_slice(&vec![in alloc; 0u8; 16_641]?)?;
    for (stream, error) in [
        ([].as_slice(), Error::EndOfStream),
        (slice(&rt, &whole, 0, 4), Error::EndOfStream),
        (
            &records_of(alloc, slice(&rt, &hello, 0, 100), 10)?,
            Error::EndOfStream,
        ),
        (&long, Error::DecodingError("record is too long")),
        (&other, Error::DecodingError("message is no ClientHello")),
    ] {
        let found = read_hello(alloc, &mut Outside::new(stream));
        same(found.err(), Some(error))?;
    }
    Ok(())
}
