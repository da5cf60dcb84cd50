//! Parts of messages of MLS (RFC 9420), each alone, encoded field by field.
use crate::tests::one_byte;
use mls::{
    Certificate, CipherSuite, Commit, Credential, GroupContext, InterimTranscriptHashInput,
    LeafNodeOrigin, LeafNodeTBSOrigin, Lifetime, PSKOrigin, PreSharedKeyID, ProtocolVersionMls10,
    ResumptionPSKUsage, SenderData,
};
use std::alloc::Global;
use std::test::Fail;
use test_support::each_call::{
    expect_encoded_as, expect_encoded_as_vl, expect_rejected, expect_written_and_cloned,
};
use tls_codec::Error;

fn certificate(alloc: Global, byte: u8) -> Result<Certificate, Error> {
    let cert_data = one_byte(alloc, byte)?;
    Ok(Certificate { cert_data })
}

fn lifetime() -> Lifetime {
    Lifetime {
        not_before: 1,
        not_after: 2,
    }
}

// A registry (section 17.1): numbers without a name are kept.
#[test]
fn cipher_suites(rt: HostRuntime) -> Result<(), Fail> {
    let alloc = rt.alloc();
    let suite = CipherSuite::MLS_128_DHKEMX25519_CHACHA20POLY1305_SHA256_ED25519;
    expect_encoded_as(alloc, "3", &suite, &[0, 3])?;
    expect_encoded_as(alloc, "no name", &CipherSuite(0x0a0a), &[0x0a, 0x0a])
}

// Section 8.1: a group's context has the one version.
#[test]
fn versions(rt: HostRuntime) -> Result<(), Fail> {
    let alloc = rt.alloc();
    expect_encoded_as(alloc, "mls10", &ProtocolVersionMls10::Mls10, &[0, 1])?;
    expect_rejected::<ProtocolVersionMls10>(alloc, "256", &[1, 0], Error::UnknownValue(256))?;
    expect_rejected::<GroupContext>(alloc, "3", &[0, 3, 0, 1], Error::UnknownValue(3))?;
    Ok(())
}

// Section 5.3.
#[test]
fn credentials(rt: HostRuntime) -> Result<(), Fail> {
    let alloc = rt.alloc();
    let basic = Credential::Basic(one_byte(alloc, 9)?);
    expect_encoded_as_vl(alloc, "basic", &basic, &[0, 1, 1, 9])?;
    let both = [certificate(alloc, 5)?, certificate(alloc, 6)?];
    let x509 = Credential::X509(Vec::from_array(alloc, both)?);
    expect_encoded_as_vl(alloc, "x509", &x509, &[0, 2, 4, 1, 5, 1, 6])?;
    expect_rejected::<Credential>(alloc, "0", &[0, 0], Error::UnknownValue(0))?;
    expect_rejected::<Credential>(alloc, "6", &[0, 6, 1, 9], Error::UnknownValue(6))?;
    let longer = [0, 1, 0x40, 1, 9];
    expect_rejected::<Credential>(alloc, "a longer 1", &longer, Error::InvalidVectorLength)?;
    Ok(())
}

// Section 7.2.
#[test]
fn sources_of_leaf_nodes(rt: HostRuntime) -> Result<(), Fail> {
    let alloc = rt.alloc();
    expect_encoded_as(alloc, "update", &LeafNodeOrigin::Update, &[2])?;
    let commit = LeafNodeOrigin::Commit(one_byte(alloc, 9)?);
    expect_encoded_as_vl(alloc, "commit", &commit, &[3, 1, 9])?;
    let package = LeafNodeOrigin::KeyPackage(lifetime());
    let spelled = [1, 0, 0, 0, 0, 0, 0, 0, 1, 0, 0, 0, 0, 0, 0, 0, 2];
    expect_encoded_as(alloc, "key_package", &package, &spelled)?;
    expect_rejected::<LeafNodeOrigin>(alloc, "4", &[4], Error::UnknownValue(4))?;
    Ok(())
}

// Section 7.2: only a leaf that isn't of a key package has its group and its place.
#[test]
fn what_is_signed_of_leaf_nodes(rt: HostRuntime) -> Result<(), Fail> {
    let alloc = rt.alloc();
    let extensions = Vec::new(alloc);
    let group_id = one_byte(alloc, 0xfa)?;
    let lifetime = lifetime();
    let package = LeafNodeTBSOrigin::KeyPackage {
        lifetime: &lifetime,
        extensions: &extensions,
    };
    let spelled = [1, 0, 0, 0, 0, 0, 0, 0, 1, 0, 0, 0, 0, 0, 0, 0, 2, 0];
    expect_written_and_cloned(alloc, "key_package", &package, &spelled)?;
    let update = LeafNodeTBSOrigin::Update {
        extensions: &extensions,
        group_id: &group_id,
        leaf_index: &5,
    };
    expect_written_and_cloned(alloc, "update", &update, &[2, 0, 1, 0xfa, 0, 0, 0, 5])
}

// Sections 8.4, 12.4, 6.3.2 and 8.2.
#[test]
fn structs(rt: HostRuntime) -> Result<(), Fail> {
    let alloc = rt.alloc();
    let psktype = PSKOrigin::Resumption {
        usage: ResumptionPSKUsage::Reinit,
        psk_group_id: one_byte(alloc, 0xaa)?,
        psk_epoch: 7,
    };
    let id = PreSharedKeyID {
        psktype,
        psk_nonce: one_byte(alloc, 0xbb)?,
    };
    expect_encoded_as_vl(
        alloc,
        "an id",
        &id,
        &[2, 2, 1, 0xaa, 0, 0, 0, 0, 0, 0, 0, 7, 1, 0xbb],
    )?;
    let commit = Commit {
        proposals: Vec::new(alloc),
        path: None,
    };
    expect_encoded_as(alloc, "a commit", &commit, &[0, 0])?;
    let sender = SenderData {
        leaf_index: 1,
        generation: 2,
        reuse_guard: [3, 4, 5, 6],
    };
    let spelled = [0, 0, 0, 1, 0, 0, 0, 2, 3, 4, 5, 6];
    expect_encoded_as(alloc, "a sender", &sender, &spelled)?;
    let confirmation_tag = one_byte(alloc, 0xe2)?;
    let hashed = InterimTranscriptHashInput {
        confirmation_tag: &confirmation_tag,
    };
    expect_written_and_cloned(alloc, "what is hashed", &hashed, &[1, 0xe2])
}
