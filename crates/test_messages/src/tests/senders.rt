//! Who sent a public message, and what, as docs/MLS.md reads them.
use crate::tests::mls_messages::{COMMIT, KEY_PACKAGE, PRIVATE_MESSAGE};
use crate::tests::same;
use mls::{
    Commit, FramedContent, FramedContentBody, FramedContentView, MLSMessage, MLSMessageBody,
    MLSMessageBodyView, MLSMessageView, Sender, SenderData, SenderView,
};
use mls_tree::{Node, RatchetTree};
use std::alloc::Global;
use std::test::Fail;
use tls_codec::{DeserializeBytes, Error};
use tls_codec_validate::{Rejected, Validate};
use tls_codec_views::Encoded;

// The public message that a message is: its content, if it is one.
fn content_of(alloc: Global, bytes: &[u8]) -> Result<Option<FramedContent>, Error> {
    let message = MLSMessage::tls_deserialize_validated(alloc, bytes)?;
    match message.body {
        MLSMessageBody::MlsPublicMessage(message) => Ok(Some(message.content)),
        _ => Ok(None),
    }
}

// The leaf of the member who sent it, without memory.
fn sender_of(bytes: &[u8]) -> Result<Option<u32>, Rejected<'_>> {
    let message = MLSMessageView::from(Encoded::<MLSMessage>::new(bytes)?);
    let MLSMessageBodyView::MlsPublicMessage(public) = MLSMessageBodyView::from(message.body) else {
        return Ok(None);
    };
    let (content, _) = Encoded::<FramedContent>::split_prefix(public.as_bytes())?;
    let content = FramedContentView::from(content);
    match SenderView::from(content.sender) {
        SenderView::Member(leaf_index) => Ok(Some(leaf_index.get())),
        _ => Ok(None),
    }
}

// The leaf of the member who sent a private message, from what `encrypted_sender_data` was decrypted to.
fn private_sender_of(alloc: Global, plaintext: &[u8]) -> Result<u32, Error> {
    let data = SenderData::tls_deserialize_exact_bytes(alloc, plaintext)?;
    Ok(data.leaf_index)
}

// The leaf of the tree whose `signature_key` verifies the message.
fn leaf_of(content: &FramedContent) -> Option<u32> {
    match content.sender {
        Sender::Member(leaf_index) => Some(leaf_index),
        _ => None,
    }
}

// The key of a leaf of the tree, which is none if the entry is blank or isn't there.
fn key_of(tree: &RatchetTree, leaf_index: u32) -> Option<&[u8]> {
    let entry = (leaf_index as usize).saturating_mul(2);
    match tree.ratchet_tree.get(entry) {
        Some(Some(Node::Leaf(leaf))) => Some(leaf.signature_key.as_slice()),
        _ => None,
    }
}

// The commit that a message's content is.
fn commit_of(content: FramedContentBody) -> Option<Commit> {
    match content {
        FramedContentBody::Commit(commit) => Some(commit),
        _ => None,
    }
}

#[test]
fn a_commit_of_a_member(rt: HostRuntime) -> Result<(), Fail> {
    let alloc = rt.alloc();
    let Some(content) = content_of(alloc, &COMMIT)? else {
        panic!(rt; "no public message");
    };
    same(&rt, leaf_of(&content), Some(2));
    let expected = Commit::tls_deserialize_exact_bytes(alloc, &COMMIT[22..88])?;
    same(&rt, commit_of(content.body), Some(expected));
    let other = content_of(alloc, &PRIVATE_MESSAGE)?;
    same(&rt, other, None);
    Ok(())
}

// The member 2; a message that isn't public; and one that is cut off in its last field.
#[test]
fn a_sender_in_place(rt: HostRuntime) {
    same(&rt, sender_of(&COMMIT), Ok(Some(2)));
    same(&rt, sender_of(&PRIVATE_MESSAGE), Ok(None));
    let short = &COMMIT[..93];
    let place = sender_of(short).err().map(|rejected| rejected.at(short));
    same(&rt, place, Some(92));
}

#[test]
fn a_sender_who_was_decrypted(rt: HostRuntime) {
    let alloc = rt.alloc();
    let plaintext = [0, 0, 0, 2, 0, 0, 0, 3, 4, 5, 6, 7];
    same(&rt, private_sender_of(alloc, &plaintext), Ok(2));
    let short = private_sender_of(alloc, &plaintext[..11]);
    same(&rt, short, Err(Error::EndOfStream));
}

// The tree's first leaf and its parent are blank, and the second is that of the key package.
#[test]
fn the_key_of_a_leaf(rt: HostRuntime) -> Result<(), Fail> {
    let alloc = rt.alloc();
    let mut bytes = [63u8, 0, 0, 1, 1].to_vec(alloc)?;
    bytes.extend_from_slice(&KEY_PACKAGE[11..70])?;
    let tree = RatchetTree::tls_deserialize_exact_bytes(alloc, &bytes)?;
    same(&rt, key_of(&tree, 1), Some([0xf5u8, 0xf6].as_slice()));
    same(&rt, key_of(&tree, 0), None);
    same(&rt, key_of(&tree, 2), None);
    Ok(())
}
