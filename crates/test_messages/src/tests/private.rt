//! What a private message encrypts, in the context of its content type (RFC 9420, section 6.3.1).
use crate::tests::mls_messages::COMMIT;
use crate::tests::signed::part;
use crate::tests::{DOES_NOT_FIT, LENGTH, same};
use mls::{
    Commit, ContentType, FramedContent, FramedContentBody, PrivateContent, PrivateMessage,
    PrivateMessageContent, Sender, SenderData,
};
use std::alloc::Global;
use std::process::Abort;
use std::test::Fail;
use tls_codec::{DeserializeBytes, Error, Serialize, VLBytes};
use tls_codec_cases::Padded;

type Content = Padded<PrivateMessageContent>;

static APPLICATION: [u8; 7] = [
    2, 0x61, 0x62, // application_data
    1, 0xe1, // auth: signature
    0, 0, // padding
];

fn read(alloc: Global, content_type: ContentType, bytes: &[u8]) -> Result<Content, Error> {
    Content::tls_deserialize_exact_bytes_for(&content_type, alloc, bytes)
}

// What the signature of a private message is over: the content of a public message with the same fields (section 6.1).
fn framed_content(
    message: PrivateMessage,
    sender_data: &SenderData,
    content: PrivateContent,
) -> FramedContent {
    let body = match content {
        PrivateContent::Application(data) => FramedContentBody::Application(data),
        PrivateContent::Proposal(proposal) => FramedContentBody::Proposal(proposal),
        PrivateContent::Commit(commit) => FramedContentBody::Commit(commit),
    };
    FramedContent {
        group_id: message.group_id,
        epoch: message.epoch,
        sender: Sender::Member(sender_data.leaf_index),
        authenticated_data: message.authenticated_data,
        body,
    }
}

// Read, and written again to the same bytes after others; no other content type has it.
fn expect_round_trip(
    rt: &impl Abort,
    alloc: Global,
    content_type: ContentType,
    bytes: &[u8],
) -> Result<Content, Fail> {
    let found = read(alloc, content_type, bytes)?;
    same(rt, found.tls_serialized_len_for(&content_type), bytes.len());
    let mut out = [7].to_vec(alloc)?;
    let count = found.tls_serialize_into_for(&content_type, &mut out);
    same(rt, count, Ok(bytes.len()));
    same(rt, out.get(1..), Some(bytes));
    let other = found.tls_serialize_into_for(&ContentType::Proposal, &mut out);
    same(rt, other, Err(DOES_NOT_FIT));
    same(rt, out.get(1..), Some(bytes));
    Ok(found)
}

// After the content type of a public message come the same bytes; then zeros.
#[test]
fn a_commit(rt: HostRuntime) -> Result<(), Fail> {
    let alloc = rt.alloc();
    let bytes = part(&rt, alloc, &COMMIT, 22, 92, &[0, 0, 0])?;
    let found = expect_round_trip(&rt, alloc, ContentType::Commit, &bytes)?;
    same(&rt, found.padding, 3);
    let expected = Commit::tls_deserialize_exact_bytes(alloc, &COMMIT[22..88])?;
    let PrivateMessageContent { content, auth } = &found.content;
    match content {
        PrivateContent::Commit(commit) => same(&rt, commit, &expected),
        _ => panic!(rt; "another content"),
    }
    let tag = auth.confirmation_tag.as_ref().map(|tag| tag.as_slice());
    same(&rt, tag, Some([0xe2].as_slice()));
    Ok(())
}

#[test]
fn an_application(rt: HostRuntime) -> Result<(), Fail> {
    let alloc = rt.alloc();
    let padded = expect_round_trip(&rt, alloc, ContentType::Application, &APPLICATION)?;
    same(&rt, padded.padding, 2);
    same(&rt, &padded.content.auth.confirmation_tag, &None);
    let found = expect_round_trip(&rt, alloc, ContentType::Application, &APPLICATION[..5])?;
    same(&rt, found.padding, 0);
    same(&rt, &padded.content, &found.content);
    Ok(())
}

#[test]
fn other_contents_are_rejected(rt: HostRuntime) -> Result<(), Fail> {
    let alloc = rt.alloc();
    let bytes = part(&rt, alloc, &APPLICATION, 0, 6, &[1])?;
    let other = read(alloc, ContentType::Application, &bytes).err();
    same(
        &rt,
        other,
        Some(Error::DecodingError("padding is not zeros")),
    );
    // No commit ends before its confirmation tag.
    let other = read(alloc, ContentType::Commit, &[0, 0, 1, 0xe1]).err();
    same(&rt, other, Some(Error::EndOfStream));
    Ok(())
}

// No vector holds these zeros. It has the byte from before.
#[test]
fn too_many_zeros(rt: HostRuntime) -> Result<(), Fail> {
    let alloc = rt.alloc();
    let mut padded = read(alloc, ContentType::Application, &APPLICATION)?;
    for padding in [isize::MAX as usize, usize::MAX] {
        padded.padding = padding;
        let mut out = [7].to_vec(alloc)?;
        let found = padded.tls_serialize_into_for(&ContentType::Application, &mut out);
        same(&rt, found, Err(LENGTH));
        same(&rt, out.as_slice(), [7].as_slice());
    }
    Ok(())
}

// The group, its epoch, a member, authenticated data, and an application message.
static FRAMED: [u8; 21] = [
    1, 0xfa, 0, 0, 0, 0, 0, 0, 0, 7, 1, 0, 0, 0, 2, 1, 0xfb, 1, 2, 0xd1, 0xd2,
];

#[test]
fn what_is_signed(rt: HostRuntime) -> Result<(), Fail> {
    let alloc = rt.alloc();
    let message = PrivateMessage {
        group_id: VLBytes::from_slice(alloc, &[0xfa])?,
        epoch: 7,
        content_type: ContentType::Application,
        authenticated_data: VLBytes::from_slice(alloc, &[0xfb])?,
        encrypted_sender_data: VLBytes::from_slice(alloc, &[0xfc])?,
        ciphertext: VLBytes::from_slice(alloc, &[0xfd])?,
    };
    let sender_data = SenderData {
        leaf_index: 2,
        generation: 3,
        reuse_guard: [4, 5, 6, 7],
    };
    let content = PrivateContent::Application(VLBytes::from_slice(alloc, &[0xd1, 0xd2])?);
    let framed = framed_content(message, &sender_data, content);
    let bytes = framed.tls_serialize_detached(alloc)?;
    same(&rt, bytes.as_slice(), FRAMED.as_slice());
    Ok(())
}
