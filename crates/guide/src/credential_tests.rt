// Both credentials, by each call, and a type that none has.
use crate::credential::Credential;
use std::alloc::Global;
use std::process::Abort;
use std::test::Fail;
use tls_codec::{Deserialize, DeserializeBytes, Error, Serialize, Size, VLBytes};
use tls_codec_validate::Validate;

#[test]
fn each_credential_comes_back(rt: HostRuntime) -> Result<(), Fail> {
    let alloc = rt.alloc();
    let basic = Credential::Basic(VLBytes::from_array(alloc, &[7, 8, 9])?);
    let mut certificates = Vec::new(alloc);
    certificates.push(VLBytes::from_array(alloc, &[0xaa, 0xbb])?)?;
    certificates.push(VLBytes::from_array(alloc, &[0xcc])?)?;
    let x509 = Credential::X509(certificates);
    comes_back(&rt, alloc, &basic, &[0, 1, 3, 7, 8, 9])?;
    comes_back(&rt, alloc, &x509, &[0, 2, 5, 2, 0xaa, 0xbb, 1, 0xcc])
}

fn comes_back(
    rt: &impl Abort,
    alloc: Global,
    value: &Credential,
    bytes: &[u8],
) -> Result<(), Fail> {
    assert_eq!(rt; value.tls_serialized_len(), bytes.len());
    assert_eq!(rt; value.tls_serialize_detached(alloc)?.as_slice(), bytes);
    let mut sent = Vec::new(alloc);
    assert_eq!(rt; value.tls_serialize(&mut sent), Ok(bytes.len()));
    assert_eq!(rt; sent.as_slice(), bytes);
    assert!(rt; Credential::tls_deserialize_exact(alloc, bytes)? == *value);
    assert!(rt; Credential::tls_deserialize_exact_bytes(alloc, bytes)? == *value);
    assert!(rt; Credential::tls_validate(bytes).is_ok());
    Ok(())
}

#[test]
fn a_credential_of_another_type_is_unknown(rt: HostRuntime) -> Result<(), Fail> {
    let alloc = rt.alloc();
    let unknown = Some(Error::UnknownValue(3));
    let bytes = [0, 3, 0];
    assert_eq!(rt;
        Credential::tls_deserialize_exact(alloc, &bytes).err(),
        unknown
    );
    assert_eq!(rt;
        Credential::tls_deserialize_exact_bytes(alloc, &bytes).err(),
        unknown
    );
    let rejected = Credential::tls_validate(&bytes).err();
    assert_eq!(rt; rejected.map(|rejected| rejected.error), unknown);
    Ok(())
}
