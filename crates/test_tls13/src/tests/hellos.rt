//! Hellos, alerts and lists of numbers of TLS 1.3 (RFC 8446).
use std::test::Fail;
use test_support::each_call::{expect_encoded_as, expect_rejected_prefix};
use tls_codec::{Error, TlsByteVec, TlsByteVecU16, TlsVec};
use tls13::{
    Alert, AlertDescription, AlertLevel, ClientHello, Extension, ExtensionType, NamedGroup,
    NamedGroupList, ProtocolVersionX0303, SignatureScheme, SignatureSchemeList,
};

// Levels and descriptions without a name are kept (section 6.2 has each unknown alert as an error).
#[test]
fn alerts(rt: HostRuntime) -> Result<(), Fail> {
    let alloc = rt.alloc();
    for (row, level, byte) in [
        ("warning", AlertLevel::WARNING, 1),
        ("fatal", AlertLevel::FATAL, 2),
        ("no level", AlertLevel(3), 3),
    ] {
        expect_encoded_as(alloc, row, &level, &[byte])?;
    }
    let alert = |level, description| Alert { level, description };
    for (row, alert, bytes) in [
        (
            "a decode error",
            alert(AlertLevel::FATAL, AlertDescription::DECODE_ERROR),
            [2, 50],
        ),
        (
            "no level",
            alert(AlertLevel(3), AlertDescription::DECODE_ERROR),
            [3, 50],
        ),
        (
            "no description",
            alert(AlertLevel::FATAL, AlertDescription(1)),
            [2, 1],
        ),
    ] {
        expect_encoded_as(alloc, row, &alert, &bytes)?;
    }
    Ok(())
}

#[test]
fn client_hellos(rt: HostRuntime) -> Result<(), Fail> {
    let alloc = rt.alloc();
    let versions = Extension {
        extension_type: ExtensionType::SUPPORTED_VERSIONS,
        extension_data: TlsByteVecU16::from_slice(alloc, &[2, 3, 4])?,
    };
    let unknown = Extension {
        extension_type: ExtensionType(0x0a0a),
        extension_data: TlsByteVecU16::from_slice(alloc, &[])?,
    };
    let hello = ClientHello {
        legacy_version: ProtocolVersionX0303::X0303,
        random: [7; 32],
        legacy_session_id: TlsByteVec::from_slice(alloc, &[])?,
        cipher_suites: TlsVec::new(Vec::from_array(alloc, [[0x13, 1], [0x13, 2]])?),
        legacy_compression_methods: TlsByteVec::from_slice(alloc, &[0])?,
        extensions: TlsVec::new(Vec::from_array(alloc, [versions, unknown])?),
    };
    // The version and the random; then the session, the suites, the compression methods and the extensions.
    let mut spelled = [3u8, 3].to_vec(alloc)?;
    spelled.extend_from_slice(&[7; 32])?;
    let after = spelled.len();
    spelled.extend_from_slice(&[0, 0, 4, 0x13, 1, 0x13, 2, 1, 0])?;
    spelled.extend_from_slice(&[0, 11, 0, 43, 0, 3, 2, 3, 4, 0x0a, 0x0a, 0, 0])?;
    expect_encoded_as(alloc, "two extensions", &hello, &spelled)?;
    for (row, rejected) in [
        ("a session of 33 bytes", [33].as_slice()),
        ("no cipher suite", &[0, 0, 0]),
        ("no compression method", &[0, 0, 2, 0x13, 1, 0]),
        ("extensions of 7 bytes", &[0, 0, 2, 0x13, 1, 1, 0, 0, 7]),
    ] {
        spelled.truncate(after);
        spelled.extend_from_slice(rejected)?;
        expect_rejected_prefix::<ClientHello>(alloc, row, &spelled, Error::InvalidVectorLength)?;
    }
    Ok(())
}

// Any other is rejected before what follows it is read.
#[test]
fn versions_of_hellos(rt: HostRuntime) -> Result<(), Fail> {
    let alloc = rt.alloc();
    let row = "TLS 1.0";
    expect_rejected_prefix::<ClientHello>(alloc, row, &[3, 1], Error::UnknownValue(769))?;
    Ok(())
}

// Numbers of a range, and those that no value has, are kept.
#[test]
fn groups_and_schemes(rt: HostRuntime) -> Result<(), Fail> {
    let alloc = rt.alloc();
    let groups = [NamedGroup::X25519, NamedGroup(0x0a0a)];
    let groups = NamedGroupList {
        named_group_list: TlsVec::new(Vec::from_array(alloc, groups)?),
    };
    expect_encoded_as(alloc, "groups", &groups, &[0, 4, 0, 0x1d, 0x0a, 0x0a])?;
    let schemes = [SignatureScheme::ED25519, SignatureScheme(0xfe00)];
    let schemes = SignatureSchemeList {
        supported_signature_algorithms: TlsVec::new(Vec::from_array(alloc, schemes)?),
    };
    expect_encoded_as(alloc, "schemes", &schemes, &[0, 4, 8, 7, 0xfe, 0])?;
    Ok(())
}
