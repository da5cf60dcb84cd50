// Sums of cases, and values inside a length. The bytes are those of RFC 8446, section 4, except the
// types of the parts.
use super::{rejected, same};
use tls_codec::{Error, U24, VLBytes};
use tls_codec_cases::{Case, Else, Enclosed, Or, Tagged};
use tls_codec_validate::{FindTag, Validate};

// key_update(24) and end_of_early_data(5), in a length of three bytes
type Handshake = Tagged<u8, Or<Case<24, Enclosed<U24, u8>>, Case<5, Enclosed<U24, ()>>>>;

// padding(21) without parts, and any other extension as bytes
type Extension = Tagged<u16, Else<Case<21, ()>, u16, VLBytes>>;

#[test]
fn handshakes(rt: HostRuntime) {
    same(&rt, Handshake::tls_validate(&[24, 0, 0, 1, 1]), Ok(()));
    same(&rt, Handshake::tls_validate(&[5, 0, 0, 0]), Ok(()));
    same(
        &rt,
        Handshake::tls_validate_prefix(&[5, 0, 0, 0, 24]),
        Ok([24].as_slice()),
    );
}

#[test]
fn rejected_handshakes(rt: HostRuntime) {
    let unknown = [9, 0, 0, 0];
    same(
        &rt,
        Handshake::tls_validate(&unknown),
        Err(rejected(Error::UnknownValue(9), &unknown)),
    );
    same(
        &rt,
        Handshake::tls_validate(&[]),
        Err(rejected(Error::EndOfStream, &[])),
    );
    same(
        &rt,
        Handshake::tls_validate(&[24, 0, 0]),
        Err(rejected(Error::EndOfStream, &[0, 0])),
    );
}

// A value that doesn't fill its length: a byte is left, the value is cut short, or the bytes are.
#[test]
fn lengths_of_handshakes(rt: HostRuntime) {
    same(
        &rt,
        Handshake::tls_validate_prefix(&[24, 0, 0, 2, 1, 7, 8]),
        Err(rejected(Error::TrailingData, &[7, 8])),
    );
    same(
        &rt,
        Handshake::tls_validate_prefix(&[24, 0, 0, 0, 1]),
        Err(rejected(Error::EndOfStream, &[1])),
    );
    same(
        &rt,
        Handshake::tls_validate_prefix(&[24, 0, 0, 2, 1]),
        Err(rejected(Error::EndOfStream, &[0, 0, 2, 1])),
    );
}

#[test]
fn other_tags(rt: HostRuntime) {
    same(&rt, Extension::tls_validate(&[0, 21]), Ok(()));
    same(&rt, Extension::tls_validate(&[0, 22, 1, 7]), Ok(()));
    let not_there = Error::DecodingError("declared content is not there");
    same(
        &rt,
        Extension::tls_validate(&[0, 22, 2, 7]),
        Err(rejected(not_there, &[2, 7])),
    );
}

#[test]
fn found_tags(rt: HostRuntime) {
    same(&rt, u8::find_tag(&[3, 9]), Ok((3, [9].as_slice())));
    same(&rt, u16::find_tag(&[1, 2, 9]), Ok((258, [9].as_slice())));
    let short = rejected(Error::EndOfStream, &[1]);
    same(&rt, u16::find_tag(&[1]), Err(short));
}
