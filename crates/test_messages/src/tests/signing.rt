//! Signing a public message, and verifying one, as docs/MLS.md shows it.
use crate::tests::mls_messages::{COMMIT, GROUP_INFO};
use crate::tests::same;
use crate::tests::signed::{group_info, part, public_message, read, signed_message};
use mls::{GroupContext, MLSMessage, MLSMessageBody, ProtocolVersionMls10, PublicMessage};
use std::alloc::Global;
use std::test::Fail;
use tls_codec::{Error, Serialize, VLBytes};

// What a cryptographic library has to do.
trait Signer {
    fn sign(&self, alloc: Global, bytes: &[u8]) -> Result<VLBytes, Error>;

    fn verifies(&self, bytes: &[u8], signature: &[u8]) -> bool;
}

// Signs a message whose other fields are set.
fn sign<S: Signer>(
    alloc: Global,
    signer: &S,
    message: &mut PublicMessage,
    context: &Option<GroupContext>,
) -> Result<(), Error> {
    let bytes = signed_message(alloc, message, context)?;
    message.auth.signature = signer.sign(alloc, bytes.as_slice())?;
    Ok(())
}

// Whether the signature of a message that was read is right.
fn verify<S: Signer>(
    alloc: Global,
    signer: &S,
    message: &PublicMessage,
    context: &Option<GroupContext>,
) -> Result<bool, Error> {
    let bytes = signed_message(alloc, message, context)?;
    Ok(signer.verifies(bytes.as_slice(), message.auth.signature.as_slice()))
}

// A signature that shows what was signed: the bytes themselves.
struct Copier;

impl Signer for Copier {
    fn sign(&self, alloc: Global, bytes: &[u8]) -> Result<VLBytes, Error> {
        VLBytes::from_slice(alloc, bytes)
    }

    fn verifies(&self, bytes: &[u8], signature: &[u8]) -> bool {
        bytes == signature
    }
}

// What is signed has the label, the length of the content, the message up to its signature, and the group's context.
#[test]
fn a_commit_is_signed_sent_and_verified(rt: HostRuntime) -> Result<(), Fail> {
    let alloc = rt.alloc();
    let context = Some(group_info(&rt, alloc)?.group_context);
    let mut message = public_message(&rt, alloc)?;
    message.auth.signature = VLBytes::from_slice(alloc, &[])?;
    sign(alloc, &Copier, &mut message, &context)?;
    let head = part(
        &rt,
        alloc,
        b"\x18MLS 1.0 FramedContentTBS\x40\x6b",
        0,
        27,
        &COMMIT[..88],
    )?;
    let expected = part(&rt, alloc, &head, 0, head.len(), &GROUP_INFO[4..23])?;
    same(&rt, message.auth.signature.as_slice(), expected.as_slice());
    let sent = MLSMessage {
        version: ProtocolVersionMls10::Mls10,
        body: MLSMessageBody::MlsPublicMessage(message),
    };
    let bytes = sent.tls_serialize_detached(alloc)?;
    let MLSMessageBody::MlsPublicMessage(mut received) = read(alloc, &bytes)? else {
        panic!(rt; "no public message");
    };
    same(&rt, verify(alloc, &Copier, &received, &context), Ok(true));
    received.content.epoch = 8;
    same(&rt, verify(alloc, &Copier, &received, &context), Ok(false));
    Ok(())
}
