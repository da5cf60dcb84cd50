// Extensions of two types and of any other, by each call, with their type in front and in its context.
use crate::hello_extension::{HelloExtension, UnknownExtension};
use std::alloc::Global;
use std::process::Abort;
use std::test::Fail;
use tls_codec::{
    Deserialize, DeserializeBytes, DeserializeBytesFor, DeserializeFor, Error, Serialize,
    SerializeFor, Size, SizeFor, TlsByteVecU16, TlsVecU8,
};
use tls_codec_cases::Chosen;

const DOES_NOT_FIT: Error = Error::EncodingError("value does not fit its context");

// `supported_versions` of TLS 1.3 alone (RFC 8446, section 4.2.1).
const VERSIONS: [u8; 7] = [0, 0x2b, 0, 3, 2, 3, 4];

#[test]
fn each_extension_comes_back(rt: HostRuntime) -> Result<(), Fail> {
    let alloc = rt.alloc();
    let versions = HelloExtension::SupportedVersions(TlsVecU8::from_slice(alloc, &[0x0304])?);
    comes_back(&rt, alloc, &versions, 0x2b, &VERSIONS)?;
    let group = HelloExtension::SelectedGroup(0x1d);
    comes_back(&rt, alloc, &group, 0x33, &[0, 0x33, 0, 2, 0, 0x1d])?;
    let unknown = UnknownExtension::new(0x1234, TlsByteVecU16::from_slice(alloc, &[7, 8])?)?;
    let unknown = HelloExtension::Unknown(unknown);
    comes_back(&rt, alloc, &unknown, 0x1234, &[0x12, 0x34, 0, 2, 7, 8])?;
    let early_data = UnknownExtension::new(42, TlsByteVecU16::from_slice(alloc, &[])?)?;
    let early_data = HelloExtension::Unknown(early_data);
    comes_back(&rt, alloc, &early_data, 42, &[0, 42, 0, 0])
}

fn comes_back(
    rt: &impl Abort,
    alloc: Global,
    value: &HelloExtension,
    type_read: u16,
    bytes: &[u8],
) -> Result<(), Fail> {
    assert_eq!(rt; value.tls_serialized_len(), bytes.len());
    assert_eq!(rt; value.tls_serialize_detached(alloc)?.as_slice(), bytes);
    let mut sent = Vec::new(alloc);
    assert_eq!(rt; value.tls_serialize(&mut sent), Ok(bytes.len()));
    assert_eq!(rt; sent.as_slice(), bytes);
    assert!(rt; HelloExtension::tls_deserialize_exact(alloc, bytes)? == *value);
    assert!(rt; HelloExtension::tls_deserialize_exact_bytes(alloc, bytes)? == *value);
    assert!(rt; bytes.len() >= 2);
    comes_back_in(rt, alloc, value, type_read, &bytes[2..])
}

// The same where the type was read before.
fn comes_back_in(
    rt: &impl Abort,
    alloc: Global,
    value: &HelloExtension,
    type_read: u16,
    bytes: &[u8],
) -> Result<(), Fail> {
    assert_eq!(rt; value.tls_serialized_len_for(&type_read), bytes.len());
    assert_eq!(rt;
        value
            .tls_serialize_detached_for(&type_read, alloc)?
            .as_slice(),
        bytes
    );
    let mut sent = Vec::new(alloc);
    assert_eq!(rt;
        value.tls_serialize_for(&type_read, &mut sent),
        Ok(bytes.len())
    );
    assert_eq!(rt; sent.as_slice(), bytes);
    let read = HelloExtension::tls_deserialize_exact_for(&type_read, alloc, bytes)?;
    assert!(rt; read == *value);
    let split = HelloExtension::tls_deserialize_exact_bytes_for(&type_read, alloc, bytes)?;
    assert!(rt; split == *value);
    let chosen = Chosen(value.cases());
    assert!(rt; chosen.fits(&type_read) && !chosen.fits(&1u16));
    assert_eq!(rt; value.tls_serialize_for(&1, &mut sent), Err(DOES_NOT_FIT));
    assert_eq!(rt;
        value.tls_serialize_into_for(&1, &mut sent),
        Err(DOES_NOT_FIT)
    );
    assert_eq!(rt; sent.as_slice(), bytes);
    Ok(())
}

#[test]
fn a_known_type_is_never_unknown(rt: HostRuntime) -> Result<(), Fail> {
    let alloc = rt.alloc();
    let bytes = TlsByteVecU16::from_slice(alloc, &[2, 3, 4])?;
    assert_eq!(rt; UnknownExtension::new(43, bytes).err(), Some(DOES_NOT_FIT));
    Ok(())
}

#[test]
fn data_fill_their_length(rt: HostRuntime) -> Result<(), Fail> {
    let alloc = rt.alloc();
    let long = [0, 0x2b, 0, 4, 2, 3, 4, 0];
    let trailing = Some(Error::TrailingData);
    assert_eq!(rt;
        HelloExtension::tls_deserialize_exact(alloc, &long).err(),
        trailing
    );
    assert_eq!(rt;
        HelloExtension::tls_deserialize_exact_bytes(alloc, &long).err(),
        trailing
    );
    let cut = Some(Error::EndOfStream);
    // The list is whole, and the length says a byte more. The reader path finds that after the list.
    let short = [0, 0x2b, 0, 4, 2, 3, 4];
    assert_eq!(rt;
        HelloExtension::tls_deserialize_exact(alloc, &short).err(),
        trailing
    );
    assert_eq!(rt;
        HelloExtension::tls_deserialize_exact_bytes(alloc, &short).err(),
        cut
    );
    // The list is cut off.
    let shorter = [0, 0x2b, 0, 4, 2, 3];
    assert_eq!(rt;
        HelloExtension::tls_deserialize_exact(alloc, &shorter).err(),
        cut
    );
    assert_eq!(rt;
        HelloExtension::tls_deserialize_exact_bytes(alloc, &shorter).err(),
        cut
    );
    Ok(())
}
