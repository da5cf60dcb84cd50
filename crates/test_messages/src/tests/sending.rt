//! A key package from its parts, and its message, as docs/MLS.md shows them.
use crate::tests::mls_messages::KEY_PACKAGE;
use crate::tests::same;
use mls::{
    Capabilities, CipherSuite, Credential, CredentialType, Extension, ExtensionType, KeyPackage,
    LeafNode, LeafNodeOrigin, Lifetime, MLSMessage, MLSMessageBody, ProposalType, ProtocolVersion,
    ProtocolVersionMls10,
};
use std::alloc::Global;
use std::test::Fail;
use tls_codec::{Error, Serialize, VLBytes};

// What a client supports. It may list numbers that no registry has (section 13.5), and lists what its extensions have
// (section 7.2), but none of the default types.
fn capabilities(alloc: Global) -> Result<Capabilities, Error> {
    let suite = CipherSuite::MLS_128_DHKEMX25519_AES128GCM_SHA256_ED25519;
    Ok(Capabilities {
        versions: [ProtocolVersion::MLS10].to_vec(alloc)?,
        cipher_suites: [suite, CipherSuite(0x0a0a)].to_vec(alloc)?,
        extensions: [ExtensionType(10)].to_vec(alloc)?,
        proposals: [ProposalType(8)].to_vec(alloc)?,
        credentials: [CredentialType::BASIC, CredentialType::X509].to_vec(alloc)?,
    })
}

fn extensions(alloc: Global) -> Result<Vec<Extension>, Error> {
    let extension = Extension {
        extension_type: ExtensionType(10),
        extension_data: VLBytes::from_slice(alloc, &[0x21, 0x22])?,
    };
    Ok(Vec::from_array(alloc, [extension])?)
}

fn leaf(alloc: Global, identity: &[u8], lifetime: Lifetime) -> Result<LeafNode, Error> {
    Ok(LeafNode {
        encryption_key: VLBytes::from_slice(alloc, &[0xf3, 0xf4])?,
        signature_key: VLBytes::from_slice(alloc, &[0xf5, 0xf6])?,
        credential: Credential::Basic(VLBytes::from_slice(alloc, identity)?),
        capabilities: capabilities(alloc)?,
        leaf_node_source: LeafNodeOrigin::KeyPackage(lifetime),
        extensions: extensions(alloc)?,
        signature: VLBytes::from_slice(alloc, &[0xf7, 0xf8])?,
    })
}

fn message_of(alloc: Global, leaf_node: LeafNode) -> Result<Vec<u8>, Error> {
    let package = KeyPackage {
        version: ProtocolVersion::MLS10,
        cipher_suite: CipherSuite::MLS_128_DHKEMX25519_AES128GCM_SHA256_ED25519,
        init_key: VLBytes::from_slice(alloc, &[0xf1, 0xf2])?,
        leaf_node,
        extensions: extensions(alloc)?,
        signature: VLBytes::from_slice(alloc, &[0xf9, 0xfa])?,
    };
    let message = MLSMessage {
        version: ProtocolVersionMls10::Mls10,
        body: MLSMessageBody::MlsKeyPackage(package),
    };
    message.tls_serialize_detached(alloc)
}

#[test]
fn a_key_package_that_is_written(rt: HostRuntime) -> Result<(), Fail> {
    let alloc = rt.alloc();
    let lifetime = Lifetime {
        not_before: 5,
        not_after: 6,
    };
    let bytes = message_of(alloc, leaf(alloc, b"alice", lifetime)?)?;
    same(&rt, bytes.as_slice(), KEY_PACKAGE.as_slice());
    Ok(())
}
