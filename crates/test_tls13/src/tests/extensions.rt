//! Extensions, each opened as what RFC 8446 has for its type in its message (section 4.2): docs/TLS13.md
//! quotes some of it.
use crate::tests::captured::{Row, bytes, hrr, tls12};
use std::alloc::Global;
use std::process::Abort;
use std::test::Fail;
use test_support::each_call::expect_round_trip;
use test_support::in_context::{expect_does_not_fit_in, expect_rejected_in, expect_round_trip_in};
use test_support::rows::{done_at, same_at};
use tls_codec::{DeserializeBytes, DeserializeBytesFor, Error, TlsByteVecU16};
use tls13::{
    CertificateAuthoritiesExtension, Cookie, EarlyDataIndication, EmptyType, Extension,
    ExtensionType, Handshake, HandshakeType, KeyShareClientHello, KeyShareHelloRetryRequest,
    KeyShareServerHello, NamedGroup, NamedGroupList, OIDFilterExtension, PostHandshakeAuth,
    PreSharedKeyExtension, PskKeyExchangeModes, Random, ServerHello, SignatureSchemeList,
    SupportedVersions,
};

// The random of a HelloRetryRequest, which is a ServerHello otherwise (section 4.1.3).
static RETRY: Random = [
    0xcf, 0x21, 0xad, 0x74, 0xe5, 0x9a, 0x61, 0x11, 0xbe, 0x1d, 0x8c, 0x02, 0x1e, 0x65, 0xb8, 0x91,
    0xc2, 0xa2, 0x11, 0x16, 0x7a, 0xbb, 0x8c, 0x5e, 0x07, 0x9e, 0x09, 0xe2, 0xc8, 0xa8, 0x33, 0x9c,
];

// A message: where it is, its type, and whether it asks its client to try again.
#[derive(Drop)]
pub(super) struct Place<'a> {
    pub row: &'a str,
    pub kind: HandshakeType,
    pub retries: bool,
}

// The types of extensions, in order, and those of them that were opened.
#[derive(Drop)]
pub(super) struct Found {
    pub types: Vec<u16>,
    pub opened: Vec<u16>,
}

impl Found {
    pub fn new(alloc: Global) -> Found {
        Found {
            types: Vec::new(alloc),
            opened: Vec::new(alloc),
        }
    }
}

pub(super) fn is_retry(message: &Handshake) -> bool {
    match message {
        Handshake::ServerHello(hello) => hello.random == RETRY,
        _ => false,
    }
}

// Opens each extension of a message.
pub(super) fn open_all(
    rt: &impl Abort,
    alloc: Global,
    place: &Place,
    message: &Handshake,
) -> Result<Found, Fail> {
    let mut found = Found::new(alloc);
    let extensions = match message {
        Handshake::ClientHello(hello) => hello.extensions.as_slice(),
        Handshake::ServerHello(hello) => hello.extensions.as_slice(),
        Handshake::EncryptedExtensions(body) => body.extensions.as_slice(),
        Handshake::CertificateRequest(request) => request.extensions.as_slice(),
        Handshake::NewSessionTicket(ticket) => ticket.extensions.as_slice(),
        _ => &[],
    };
    open_each(rt, alloc, place, extensions, &mut found)?;
    if let Handshake::Certificate(certificate) = message {
        for entry in certificate.certificate_list.as_slice() {
            open_each(rt, alloc, place, entry.extensions.as_slice(), &mut found)?;
        }
    }
    Ok(found)
}

fn open_each(
    rt: &impl Abort,
    alloc: Global,
    place: &Place,
    extensions: &[Extension],
    found: &mut Found,
) -> Result<(), Fail> {
    for extension in extensions {
        found.types.push(extension.extension_type.0)?;
        if open_as_its_type(rt, alloc, place, extension)? {
            found.opened.push(extension.extension_type.0)?;
        }
    }
    Ok(())
}

// Whether RFC 8446 has a structure for the extension. It's opened then.
fn open_as_its_type(
    rt: &impl Abort,
    alloc: Global,
    place: &Place,
    extension: &Extension,
) -> Result<bool, Fail> {
    let row = place.row;
    let bytes = extension.extension_data.as_slice();
    match extension.extension_type {
        ExtensionType::SUPPORTED_GROUPS => expect_round_trip::<NamedGroupList>(alloc, row, bytes)?,
        ExtensionType::SIGNATURE_ALGORITHMS | ExtensionType::SIGNATURE_ALGORITHMS_CERT => {
            expect_round_trip::<SignatureSchemeList>(alloc, row, bytes)?
        }
        ExtensionType::PRE_SHARED_KEY => {
            expect_round_trip_in::<_, PreSharedKeyExtension>(alloc, row, &place.kind, bytes)?
        }
        ExtensionType::EARLY_DATA => {
            expect_round_trip_in::<_, EarlyDataIndication>(alloc, row, &place.kind, bytes)?
        }
        ExtensionType::SUPPORTED_VERSIONS => {
            expect_round_trip_in::<_, SupportedVersions>(alloc, row, &place.kind, bytes)?
        }
        ExtensionType::COOKIE => expect_round_trip::<Cookie>(alloc, row, bytes)?,
        ExtensionType::PSK_KEY_EXCHANGE_MODES => {
            expect_round_trip::<PskKeyExchangeModes>(alloc, row, bytes)?
        }
        ExtensionType::CERTIFICATE_AUTHORITIES => {
            expect_round_trip::<CertificateAuthoritiesExtension>(alloc, row, bytes)?
        }
        ExtensionType::OID_FILTERS => expect_round_trip::<OIDFilterExtension>(alloc, row, bytes)?,
        ExtensionType::POST_HANDSHAKE_AUTH => expect_round_trip::<PostHandshakeAuth>(
            alloc, row, bytes,
        )?,
        ExtensionType::KEY_SHARE => expect_key_share(rt, alloc, place, bytes)?,
        _ => return Ok(false),
    }
    Ok(true)
}

// Three structures by message (section 4.2.8).
fn expect_key_share(
    rt: &impl Abort,
    alloc: Global,
    place: &Place,
    bytes: &[u8],
) -> Result<(), Fail> {
    let row = place.row;
    if place.retries {
        expect_round_trip::<KeyShareHelloRetryRequest>(alloc, row, bytes)
    } else if place.kind == HandshakeType::ServerHello {
        expect_round_trip::<KeyShareServerHello>(alloc, row, bytes)
    } else {
        expect_round_trip::<KeyShareClientHello>(alloc, row, bytes)
    }
}

// The data of the first extension of a type.
fn extension_of(extensions: &[Extension], wanted: ExtensionType) -> Option<&[u8]> {
    for extension in extensions {
        if extension.extension_type == wanted {
            return Some(extension.extension_data.as_slice());
        }
    }
    None
}

// The version that a server chose.
fn version_of(alloc: Global, hello: &ServerHello) -> Result<Option<u16>, Error> {
    let wanted = ExtensionType::SUPPORTED_VERSIONS;
    let Some(data) = extension_of(hello.extensions.as_slice(), wanted) else {
        return Ok(None);
    };
    let kind = HandshakeType::ServerHello;
    match SupportedVersions::tls_deserialize_exact_bytes_for(&kind, alloc, data)? {
        SupportedVersions::ServerHello(version) => Ok(Some(version)),
        _ => Ok(None),
    }
}

// The group that a server chose, or asks for.
fn group_of(alloc: Global, hello: &ServerHello) -> Result<Option<NamedGroup>, Error> {
    let Some(data) = extension_of(hello.extensions.as_slice(), ExtensionType::KEY_SHARE) else {
        return Ok(None);
    };
    if hello.random == RETRY {
        let share = KeyShareHelloRetryRequest::tls_deserialize_exact_bytes(alloc, data)?;
        return Ok(Some(share.selected_group));
    }
    let share = KeyShareServerHello::tls_deserialize_exact_bytes(alloc, data)?;
    Ok(Some(share.server_share.group))
}

fn hello_of_server(message: &Handshake) -> Option<&ServerHello> {
    match message {
        Handshake::ServerHello(hello) => Some(hello),
        _ => None,
    }
}

fn expect_hello_of_server(
    rt: &impl Abort,
    alloc: Global,
    row: &Row,
    version: Option<u16>,
    group: Option<NamedGroup>,
    retries: bool,
) -> Result<(), Fail> {
    let bytes = bytes(rt, alloc, row.digits)?;
    let message = done_at(
        row.name,
        Handshake::tls_deserialize_exact_bytes(alloc, &bytes),
    )?;
    same_at(row.name, is_retry(&message), retries)?;
    let Some(hello) = hello_of_server(&message) else {
        panic!(rt; "no hello of a server at {}", row.name);
    };
    same_at(row.name, version_of(alloc, hello), Ok(version))?;
    same_at(row.name, group_of(alloc, hello), Ok(group))
}

// A request to try again, and the hello after it; then a hello of TLS 1.2.
#[test]
fn hellos_of_servers(rt: HostRuntime) -> Result<(), Fail> {
    let alloc = rt.alloc();
    let secp384r1 = Some(NamedGroup(0x18));
    expect_hello_of_server(&rt, alloc, &hrr::ROWS[1], Some(0x0304), secp384r1, true)?;
    expect_hello_of_server(&rt, alloc, &hrr::ROWS[3], Some(0x0304), secp384r1, false)?;
    expect_hello_of_server(&rt, alloc, &tls12::ROWS[1], None, None, false)
}

// Those that no capture has.
#[test]
fn other_extensions(rt: HostRuntime) -> Result<(), Fail> {
    let alloc = rt.alloc();
    for (row, kind, extension_type, body) in [
        (
            "a cookie",
            HandshakeType::ClientHello,
            ExtensionType::COOKIE,
            [0, 2, 8, 9].as_slice(),
        ),
        (
            "schemes of certificates",
            HandshakeType::ClientHello,
            ExtensionType::SIGNATURE_ALGORITHMS_CERT,
            &[0, 2, 4, 3],
        ),
        (
            "a filter by an object identifier",
            HandshakeType::CertificateRequest,
            ExtensionType::OID_FILTERS,
            &[0, 8, 3, 0x55, 0x1d, 0x25, 0, 2, 8, 9],
        ),
        (
            "no filter",
            HandshakeType::CertificateRequest,
            ExtensionType::OID_FILTERS,
            &[0, 0],
        ),
        (
            "authentication after the handshake",
            HandshakeType::ClientHello,
            ExtensionType::POST_HANDSHAKE_AUTH,
            &[],
        ),
        (
            "no key share",
            HandshakeType::ClientHello,
            ExtensionType::KEY_SHARE,
            &[0, 0],
        ),
    ] {
        let extension = Extension {
            extension_type,
            extension_data: TlsByteVecU16::from_slice(alloc, body)?,
        };
        let place = Place {
            row,
            kind,
            retries: false,
        };
        let opened = open_as_its_type(&rt, alloc, &place, &extension)?;
        same_at(row, opened, true)?;
    }
    Ok(())
}

// An empty body of one message is none of another's.
#[test]
fn values_of_other_messages(rt: HostRuntime) -> Result<(), Fail> {
    let alloc = rt.alloc();
    let version = SupportedVersions::ServerHello(0x0304);
    let identity = PreSharedKeyExtension::ServerHello(0);
    let early = EarlyDataIndication::ClientHello(EmptyType {});
    let client = HandshakeType::ClientHello;
    expect_does_not_fit_in(alloc, "a version", &client, &version)?;
    expect_does_not_fit_in(alloc, "an identity", &client, &identity)?;
    for (row, kind) in [
        ("a server's", HandshakeType::EncryptedExtensions),
        ("a ticket's", HandshakeType::NewSessionTicket),
    ] {
        expect_does_not_fit_in(alloc, row, &kind, &early)?;
    }
    Ok(())
}

// The context's number is named.
#[test]
fn messages_without_the_extension(rt: HostRuntime) -> Result<(), Fail> {
    let alloc = rt.alloc();
    let server = HandshakeType::ServerHello;
    let finished = HandshakeType::Finished;
    let two = Error::UnknownValue(2);
    expect_rejected_in::<_, EarlyDataIndication>(alloc, "early data", &server, &[], two)?;
    let twenty = Error::UnknownValue(20);
    expect_rejected_in::<_, SupportedVersions>(alloc, "versions", &finished, &[3, 4], twenty)?;
    expect_rejected_in::<_, PreSharedKeyExtension>(alloc, "keys", &finished, &[0, 0], twenty)?;
    Ok(())
}
