//! A ClientHello from its parts, and its record, as docs/TLS13.md shows them.
use std::alloc::Global;
use std::test::Fail;
use test_support::rows::same;
use tls_codec::{Error, Serialize, SerializeFor, TlsByteVec, TlsByteVecU16, TlsVec};
use tls13::{
    ClientHello, ContentType, Extension, ExtensionType, Handshake, HandshakeType,
    KeyShareClientHello, KeyShareEntry, NamedGroup, ProtocolVersionX0303, Random,
    SupportedVersions, TLSPlaintext,
};

// TLS 1.3 alone.
fn versions(alloc: Global) -> Result<Extension, Error> {
    let list = SupportedVersions::ClientHello(TlsVec::new([0x0304].to_vec(alloc)?));
    let mut data = Vec::new(alloc);
    list.tls_serialize_into_for(&HandshakeType::ClientHello, &mut data)?;
    Ok(Extension {
        extension_type: ExtensionType::SUPPORTED_VERSIONS,
        extension_data: TlsByteVecU16::new(data),
    })
}

// One public key of X25519.
fn key_share(alloc: Global, key: &[u8]) -> Result<Extension, Error> {
    let entry = KeyShareEntry {
        group: NamedGroup::X25519,
        key_exchange: TlsByteVec::from_slice(alloc, key)?,
    };
    let list = KeyShareClientHello {
        client_shares: TlsVec::new(Vec::from_array(alloc, [entry])?),
    };
    Ok(Extension {
        extension_type: ExtensionType::KEY_SHARE,
        extension_data: TlsByteVecU16::new(list.tls_serialize_detached(alloc)?),
    })
}

fn hello(alloc: Global, random: Random, key: &[u8]) -> Result<ClientHello, Error> {
    let versions = versions(alloc)?;
    let key_share = key_share(alloc, key)?;
    Ok(ClientHello {
        legacy_version: ProtocolVersionX0303::X0303,
        random,
        legacy_session_id: TlsByteVec::from_slice(alloc, &[])?,
        cipher_suites: TlsVec::new([[0x13, 0x01], [0x13, 0x02]].to_vec(alloc)?),
        legacy_compression_methods: TlsByteVec::from_slice(alloc, &[0])?,
        extensions: TlsVec::new(Vec::from_array(alloc, [versions, key_share])?),
    })
}

fn record_of(alloc: Global, message: &Handshake) -> Result<Vec<u8>, Error> {
    let fragment = message.tls_serialize_detached(alloc)?;
    let record = TLSPlaintext {
        kind: ContentType::HANDSHAKE,
        legacy_record_version: 0x0301,
        fragment: TlsByteVecU16::new(fragment),
    };
    record.tls_serialize_detached(alloc)
}

#[test]
fn a_client_hello_in_a_record(rt: HostRuntime) -> Result<(), Fail> {
    let alloc = rt.alloc();
    let message = Handshake::ClientHello(hello(alloc, [7; 32], &[0xa1, 0xa2])?);
    // The record's type, version and length; the message's type and length; the version and the random.
    let mut spelled = [22u8, 3, 1, 0, 68, 1, 0, 0, 64, 3, 3].to_vec(alloc)?;
    spelled.extend_from_slice(&[7; 32])?;
    // The session, the suites, the compression methods, and the length of the extensions.
    spelled.extend_from_slice(&[0, 0, 4, 0x13, 1, 0x13, 2, 1, 0, 0, 19])?;
    spelled.extend_from_slice(&[0, 43, 0, 3, 2, 3, 4])?;
    spelled.extend_from_slice(&[0, 51, 0, 8, 0, 6, 0, 29, 0, 2, 0xa1, 0xa2])?;
    let record = record_of(alloc, &message)?;
    same(record.as_slice(), spelled.as_slice())
}
