//! Messages of MLS (RFC 9420), as long as they are in a group of its first cipher suite.
//!
//! Each of their byte vectors has the noise's next bytes, and the noise stays: so each begins with
//! the same ones.
use crate::noise::Noise;
use crate::values::FromNoise;
use mls::{
    Capabilities, CipherSuite, ContentType, Credential, CredentialType, EncryptedGroupSecrets,
    Extension, ExtensionType, HPKECiphertext, KeyPackage, LeafNode, LeafNodeOrigin, Lifetime,
    PrivateMessage, ProposalType, ProtocolVersion, UpdatePath, UpdatePathNode, Welcome,
};
use std::alloc::{AllocError, Global};
use tls_codec_vl::VLBytes;

// The bytes of a key, of a hash and of a group's name.
const KEY: usize = 32;

// The bytes of a signature.
const SIGNATURE: usize = 64;

// The bytes of a member's name.
const IDENTITY: usize = 20;

// The bytes of an encrypted `GroupInfo`.
const GROUP_INFO: usize = 272;

// The bytes of an encrypted `SenderData`.
const SENDER_DATA: usize = 28;

// `application_id`, an extension of leaves.
const APPLICATION_ID: ExtensionType = ExtensionType(1);

// Two extensions for private use.
const PRIVATE_USE: [ExtensionType; 2] = [ExtensionType(0xf001), ExtensionType(0xf002)];

// The suite with X25519, AES of 128 bits and Ed25519.
const SUITE: CipherSuite = CipherSuite::MLS_128_DHKEMX25519_AES128GCM_SHA256_ED25519;

// A byte vector.
fn opaque(alloc: Global, noise: &Noise, count: usize) -> Result<VLBytes, AllocError> {
    VLBytes::from_noise(alloc, &mut noise.clone()?, &[count])
}

// A leaf with three extensions.
fn leaf(alloc: Global, noise: &Noise, origin: LeafNodeOrigin) -> Result<LeafNode, AllocError> {
    Ok(LeafNode {
        encryption_key: opaque(alloc, noise, KEY)?,
        signature_key: opaque(alloc, noise, KEY)?,
        credential: Credential::Basic(opaque(alloc, noise, IDENTITY)?),
        capabilities: capabilities(alloc)?,
        leaf_node_source: origin,
        extensions: extensions(alloc, noise)?,
        signature: opaque(alloc, noise, SIGNATURE)?,
    })
}

// What a client supports.
fn capabilities(alloc: Global) -> Result<Capabilities, AllocError> {
    let [first, second] = PRIVATE_USE;
    Ok(Capabilities {
        versions: vec![in alloc; ProtocolVersion::MLS10]?,
        cipher_suites: vec![in alloc; SUITE, CipherSuite(2), CipherSuite(3)]?,
        extensions: vec![in alloc; ExtensionType(3), first, second]?,
        proposals: vec![in alloc; ProposalType(7), ProposalType(8)]?,
        credentials: vec![in alloc; CredentialType::BASIC, CredentialType::X509]?,
    })
}

// The extensions of a leaf.
fn extensions(alloc: Global, noise: &Noise) -> Result<Vec<Extension>, AllocError> {
    let [first, second] = PRIVATE_USE;
    let mut extensions = Vec::new(alloc);
    for (extension_type, count) in [(APPLICATION_ID, 16), (first, 32), (second, 8)] {
        let extension_data = opaque(alloc, noise, count)?;
        extensions.push(Extension {
            extension_type,
            extension_data,
        })?;
    }
    Ok(extensions)
}

// Its shape is ever the same: a leaf that is valid for 90 days, and no extensions.
impl FromNoise for KeyPackage {
    fn from_noise(
        alloc: Global,
        noise: &mut Noise,
        _shape: &[usize],
    ) -> Result<KeyPackage, AllocError> {
        let lifetime = Lifetime {
            not_before: 1_767_225_600,
            not_after: 1_775_001_600,
        };
        Ok(KeyPackage {
            version: ProtocolVersion::MLS10,
            cipher_suite: SUITE,
            init_key: opaque(alloc, noise, KEY)?,
            leaf_node: leaf(alloc, noise, LeafNodeOrigin::KeyPackage(lifetime))?,
            extensions: Vec::new(alloc),
            signature: opaque(alloc, noise, SIGNATURE)?,
        })
    }
}

// As many members, and bytes of ciphertext for each.
impl FromNoise for Welcome {
    fn from_noise(
        alloc: Global,
        noise: &mut Noise,
        shape: &[usize],
    ) -> Result<Welcome, AllocError> {
        Ok(Welcome {
            cipher_suite: SUITE,
            secrets: Vec::from_noise(alloc, noise, shape)?,
            encrypted_group_info: opaque(alloc, noise, GROUP_INFO)?,
        })
    }
}

impl FromNoise for EncryptedGroupSecrets {
    fn from_noise(
        alloc: Global,
        noise: &mut Noise,
        shape: &[usize],
    ) -> Result<EncryptedGroupSecrets, AllocError> {
        Ok(EncryptedGroupSecrets {
            new_member: opaque(alloc, noise, KEY)?,
            encrypted_group_secrets: HPKECiphertext::from_noise(alloc, noise, shape)?,
        })
    }
}

impl FromNoise for HPKECiphertext {
    fn from_noise(
        alloc: Global,
        noise: &mut Noise,
        shape: &[usize],
    ) -> Result<HPKECiphertext, AllocError> {
        let count = shape.first().copied().unwrap_or(0);
        Ok(HPKECiphertext {
            kem_output: opaque(alloc, noise, KEY)?,
            ciphertext: opaque(alloc, noise, count)?,
        })
    }
}

// As many bytes of ciphertext.
impl FromNoise for PrivateMessage {
    fn from_noise(
        alloc: Global,
        noise: &mut Noise,
        shape: &[usize],
    ) -> Result<PrivateMessage, AllocError> {
        let count = shape.first().copied().unwrap_or(0);
        Ok(PrivateMessage {
            group_id: opaque(alloc, noise, KEY)?,
            epoch: 7,
            content_type: ContentType::Application,
            authenticated_data: VLBytes::new(Vec::new(alloc)),
            encrypted_sender_data: opaque(alloc, noise, SENDER_DATA)?,
            ciphertext: opaque(alloc, noise, count)?,
        })
    }
}

// As many nodes, ciphertexts in each, and bytes in each of these.
impl FromNoise for UpdatePath {
    fn from_noise(
        alloc: Global,
        noise: &mut Noise,
        shape: &[usize],
    ) -> Result<UpdatePath, AllocError> {
        let parent_hash = opaque(alloc, noise, KEY)?;
        Ok(UpdatePath {
            leaf_node: leaf(alloc, noise, LeafNodeOrigin::Commit(parent_hash))?,
            nodes: Vec::from_noise(alloc, noise, shape)?,
        })
    }
}

impl FromNoise for UpdatePathNode {
    fn from_noise(
        alloc: Global,
        noise: &mut Noise,
        shape: &[usize],
    ) -> Result<UpdatePathNode, AllocError> {
        Ok(UpdatePathNode {
            encryption_key: opaque(alloc, noise, KEY)?,
            encrypted_path_secret: Vec::from_noise(alloc, noise, shape)?,
        })
    }
}
