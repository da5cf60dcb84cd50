//! What is signed or authenticated, borrowed from messages that were read (RFC 9420).
use crate::tests::mls_messages::{COMMIT, GROUP_INFO, KEY_PACKAGE, PRIVATE_MESSAGE};
use crate::tests::{DOES_NOT_FIT, expect_does_not_fit, same};
use mls::{
    AuthenticatedContent, AuthenticatedContentTBM, Commit, ConfirmedTranscriptHashInput,
    FramedContentTBS, GroupContext, GroupInfo, GroupInfoTBS, KeyPackage, KeyPackageTBS, LeafNode,
    LeafNodeOrigin, LeafNodeTBS, LeafNodeTBSOrigin, MLSMessage, MLSMessageBody, PrivateContentAAD,
    ProtocolVersionMls10, PublicMessage, RefHashInput, SenderDataAAD, SignContent, WireFormat,
};
use std::alloc::Global;
use std::process::Abort;
use std::test::Fail;
use test_support::each_call::expect_written_and_cloned;
use tls_codec::{DeserializeBytes, Error, Serialize, VLBytes};

pub(super) fn read(alloc: Global, bytes: &[u8]) -> Result<MLSMessageBody, Error> {
    let message = MLSMessage::tls_deserialize_exact_bytes(alloc, bytes)?;
    Ok(message.body)
}

// The bytes of a message from one place up to another, and then others.
pub(super) fn part(
    rt: &impl Abort,
    alloc: Global,
    bytes: &[u8],
    from: usize,
    to: usize,
    others: &[u8],
) -> Result<Vec<u8>, Fail> {
    let Some(part) = bytes.get(from..to) else {
        panic!(rt; "no bytes {from} to {to}");
    };
    let mut out = part.to_vec(alloc)?;
    out.extend_from_slice(others)?;
    Ok(out)
}

// What a signature is over (section 5.1.2).
fn sign_content(alloc: Global, label: &[u8], content: Vec<u8>) -> Result<Vec<u8>, Error> {
    let label = VLBytes::from_slice(alloc, label)?;
    let content = VLBytes::new(content);
    let signed = SignContent {
        label: &label,
        content: &content,
    };
    signed.tls_serialize_detached(alloc)
}

// What the signature of a key package is over (section 10).
fn signed_bytes(alloc: Global, package: &KeyPackage) -> Result<Vec<u8>, Error> {
    let signed = KeyPackageTBS::from(package);
    let content = signed.tls_serialize_detached(alloc)?;
    sign_content(alloc, b"MLS 1.0 KeyPackageTBS", content)
}

#[test]
fn a_key_package(rt: HostRuntime) -> Result<(), Fail> {
    let alloc = rt.alloc();
    let MLSMessageBody::MlsKeyPackage(package) = read(alloc, &KEY_PACKAGE)? else {
        panic!(rt; "no key package");
    };
    // The label, the length of the content, and all of the key package but its signature.
    let mut expected = b"\x15MLS 1.0 KeyPackageTBS\x40\x48".to_vec(alloc)?;
    let content = part(&rt, alloc, &KEY_PACKAGE, 4, 76, &[])?;
    expected.extend_from_slice(&content)?;
    let found = signed_bytes(alloc, &package)?;
    same(&rt, found.as_slice(), expected.as_slice());
    Ok(())
}

pub(super) fn group_info(rt: &impl Abort, alloc: Global) -> Result<GroupInfo, Fail> {
    let MLSMessageBody::MlsGroupInfo(info) = read(alloc, &GROUP_INFO)? else {
        panic!(rt; "no group info");
    };
    Ok(info)
}

#[test]
fn the_information_of_a_group(rt: HostRuntime) -> Result<(), Fail> {
    let alloc = rt.alloc();
    let info = group_info(&rt, alloc)?;
    let signed = GroupInfoTBS::from(&info);
    let expected = part(&rt, alloc, &GROUP_INFO, 4, 34, &[])?;
    expect_written_and_cloned(alloc, "a group info", &signed, &expected)
}

// Section 7.2, for a leaf node of a commit.
fn expect_leaf_written(
    rt: &impl Abort,
    alloc: Global,
    leaf: &LeafNode,
    group_id: &VLBytes,
    leaf_index: &u32,
) -> Result<(), Fail> {
    let LeafNodeOrigin::Commit(parent_hash) = &leaf.leaf_node_source else {
        panic!(rt; "another source");
    };
    let origin = LeafNodeTBSOrigin::Commit {
        parent_hash,
        extensions: &leaf.extensions,
        group_id,
        leaf_index,
    };
    let signed = LeafNodeTBS {
        encryption_key: &leaf.encryption_key,
        signature_key: &leaf.signature_key,
        credential: &leaf.credential,
        capabilities: &leaf.capabilities,
        leaf_node_source: origin,
    };
    let expected = part(rt, alloc, &COMMIT, 35, 77, &[1, 0xfa, 0, 0, 0, 2])?;
    expect_written_and_cloned(alloc, "a leaf node", &signed, &expected)
}

pub(super) fn public_message(rt: &impl Abort, alloc: Global) -> Result<PublicMessage, Fail> {
    let MLSMessageBody::MlsPublicMessage(message) = read(alloc, &COMMIT)? else {
        panic!(rt; "no public message");
    };
    Ok(message)
}

// What a signature is over (section 6.1), in a public message that was read. The context is the group's if the sender is a
// member or a new member that commits.
fn signed_content<'a>(
    message: &'a PublicMessage,
    context: &'a Option<GroupContext>,
) -> FramedContentTBS<'a> {
    FramedContentTBS {
        version: &ProtocolVersionMls10::Mls10,
        wire_format: &WireFormat::MLS_PUBLIC_MESSAGE,
        content: &message.content,
        context,
    }
}

// What its signature is over.
pub(super) fn signed_message(
    alloc: Global,
    message: &PublicMessage,
    context: &Option<GroupContext>,
) -> Result<Vec<u8>, Error> {
    let content = signed_content(message, context).tls_serialize_detached(alloc)?;
    sign_content(alloc, b"MLS 1.0 FramedContentTBS", content)
}

// What the membership tag is over (section 6.2).
fn authenticated_content<'a>(
    message: &'a PublicMessage,
    context: &'a Option<GroupContext>,
) -> AuthenticatedContentTBM<'a> {
    AuthenticatedContentTBM {
        content_tbs: signed_content(message, context),
        auth: &message.auth,
    }
}

// What the reference of a proposal is the hash of (section 5.2).
fn reference_input(alloc: Global, message: PublicMessage) -> Result<Vec<u8>, Error> {
    let content = AuthenticatedContent {
        wire_format: WireFormat::MLS_PUBLIC_MESSAGE,
        content: message.content,
        auth: message.auth,
    };
    let label = VLBytes::from_slice(alloc, b"MLS 1.0 Proposal Reference")?;
    let value = VLBytes::new(content.tls_serialize_detached(alloc)?);
    RefHashInput {
        label: &label,
        value: &value,
    }
    .tls_serialize_detached(alloc)
}

#[test]
fn a_commit(rt: HostRuntime) -> Result<(), Fail> {
    let alloc = rt.alloc();
    let message = public_message(&rt, alloc)?;
    let context = Some(group_info(&rt, alloc)?.group_context);
    // The message up to its signature, and the group's context; then what authenticates it.
    let bytes = part(&rt, alloc, &GROUP_INFO, 4, 23, &[])?;
    let signed = part(&rt, alloc, &COMMIT, 0, 88, &bytes)?;
    expect_written_and_cloned(
        alloc,
        "what is signed",
        &signed_content(&message, &context),
        &signed,
    )?;
    // The label, the length of the content, and the content.
    let head = b"\x18MLS 1.0 FramedContentTBS\x40\x6b";
    let expected = part(&rt, alloc, head, 0, 27, &signed)?;
    let found = signed_message(alloc, &message, &context)?;
    same(&rt, found.as_slice(), expected.as_slice());
    let tagged = part(&rt, alloc, &signed, 0, signed.len(), &COMMIT[88..92])?;
    expect_written_and_cloned(
        alloc,
        "what has a tag",
        &authenticated_content(&message, &context),
        &tagged,
    )?;
    let without = signed_content(&message, &None).tls_serialize_detached(alloc);
    same(&rt, without.err(), Some(DOES_NOT_FIT));
    Ok(())
}

// A proposal in a public message of a sender that isn't in the group: it has no tag, and no group is signed with it.
static PROPOSAL: [u8; 30] = [
    0, 1, // version: mls10
    0, 1, // wire_format: mls_public_message
    1, 0xfa, // content: group_id
    0, 0, 0, 0, 0, 0, 0, 7, // epoch
    2, 0, 0, 0, 5, // sender: external, sender_index
    1, 0xfb, // authenticated_data
    2, // content_type: proposal
    0, 3, 0, 0, 0, 9, // proposal: remove, removed
    1, 0xe1, // auth: signature
];

#[test]
fn a_proposal(rt: HostRuntime) -> Result<(), Fail> {
    let alloc = rt.alloc();
    let MLSMessageBody::MlsPublicMessage(message) = read(alloc, &PROPOSAL)? else {
        panic!(rt; "no public message");
    };
    same(&rt, &message.membership_tag, &None);
    expect_written_and_cloned(
        alloc,
        "what is signed",
        &signed_content(&message, &None),
        &PROPOSAL[..28],
    )?;
    expect_written_and_cloned(
        alloc,
        "what has a tag",
        &authenticated_content(&message, &None),
        &PROPOSAL,
    )?;
    let context = Some(group_info(&rt, alloc)?.group_context);
    let with = signed_content(&message, &context).tls_serialize_detached(alloc);
    same(&rt, with.err(), Some(DOES_NOT_FIT));
    Ok(())
}

// A commit without its confirmation, a message of a member without its tag, and both where there should be none.
#[test]
fn contents_that_do_not_fit(rt: HostRuntime) -> Result<(), Fail> {
    let alloc = rt.alloc();
    let mut commit = public_message(&rt, alloc)?;
    let MLSMessageBody::MlsPublicMessage(mut proposal) = read(alloc, &PROPOSAL)? else {
        panic!(rt; "no public message");
    };
    proposal.membership_tag = commit.membership_tag.take();
    expect_does_not_fit(&rt, alloc, &commit);
    expect_does_not_fit(&rt, alloc, &proposal);
    commit.membership_tag = proposal.membership_tag.take();
    proposal.auth.confirmation_tag = commit.auth.confirmation_tag.take();
    expect_does_not_fit(&rt, alloc, &commit);
    expect_does_not_fit(&rt, alloc, &proposal);
    Ok(())
}

// What the transcript's hash is over (section 8.2): the message up to its signature, without the
// version, and then the signature.
#[test]
fn the_transcript_of_a_commit(rt: HostRuntime) -> Result<(), Fail> {
    let alloc = rt.alloc();
    let message = public_message(&rt, alloc)?;
    let hashed = ConfirmedTranscriptHashInput {
        wire_format: &WireFormat::MLS_PUBLIC_MESSAGE,
        content: &message.content,
        signature: &message.auth.signature,
    };
    let expected = part(&rt, alloc, &COMMIT, 2, 90, &[])?;
    expect_written_and_cloned(alloc, "a transcript", &hashed, &expected)
}

// The label, and the length of what follows the version up to the membership tag.
#[test]
fn the_reference_of_a_message(rt: HostRuntime) -> Result<(), Fail> {
    let alloc = rt.alloc();
    let mut expected = b"\x1aMLS 1.0 Proposal Reference\x40\x5a".to_vec(alloc)?;
    let content = part(&rt, alloc, &COMMIT, 2, 92, &[])?;
    expected.extend_from_slice(&content)?;
    let found = reference_input(alloc, public_message(&rt, alloc)?)?;
    same(&rt, found.as_slice(), expected.as_slice());
    Ok(())
}

#[test]
fn the_leaf_node_of_a_commit(rt: HostRuntime) -> Result<(), Fail> {
    let alloc = rt.alloc();
    let bytes = part(&rt, alloc, &COMMIT, 22, 88, &[])?;
    let commit = Commit::tls_deserialize_exact_bytes(alloc, &bytes)?;
    let group_id = VLBytes::from_slice(alloc, &[0xfa])?;
    match &commit.path {
        Some(path) => expect_leaf_written(&rt, alloc, &path.leaf_node, &group_id, &2),
        None => panic!(rt; "no path"),
    }
}

// Sections 6.3.1 and 6.3.2.
#[test]
fn additional_data(rt: HostRuntime) -> Result<(), Fail> {
    let alloc = rt.alloc();
    let MLSMessageBody::MlsPrivateMessage(private) = read(alloc, &PRIVATE_MESSAGE)? else {
        panic!(rt; "no private message");
    };
    let content = PrivateContentAAD {
        group_id: &private.group_id,
        epoch: &private.epoch,
        content_type: &private.content_type,
        authenticated_data: &private.authenticated_data,
    };
    let expected = part(&rt, alloc, &PRIVATE_MESSAGE, 4, 16, &[])?;
    expect_written_and_cloned(alloc, "a content", &content, &expected)?;
    let sender = SenderDataAAD {
        group_id: &private.group_id,
        epoch: &private.epoch,
        content_type: &private.content_type,
    };
    let expected = part(&rt, alloc, &PRIVATE_MESSAGE, 4, 15, &[])?;
    expect_written_and_cloned(alloc, "a sender", &sender, &expected)
}
