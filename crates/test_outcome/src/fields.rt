//! Where the fields of a message are.
use mls_fields::{
    CommitFields, FramedContentFields, GroupContextFields, GroupInfoFields, GroupSecretsFields,
    KeyPackageFields, LeafNodeFields, MLSMessageFields, PrivateMessageFields, ProposalFields,
    PublicMessageFields, SenderDataFields, WelcomeFields,
};
use std::alloc::{AllocError, Global};
use tls_codec_outcome::Span;

/// The places of the fields of a message, or an empty list if its fields aren't reported.
pub fn located(alloc: Global, name: &str, bytes: &[u8]) -> Result<Vec<Span>, AllocError> {
    match name {
        "mls_message" => {
            let it = MLSMessageFields::locate(bytes);
            [it.version, it.wire_format, it.body].to_vec(alloc)
        }
        "mls_public_message" => {
            let it = PublicMessageFields::locate(bytes);
            [it.content, it.auth, it.membership_tag].to_vec(alloc)
        }
        "mls_private_message" => {
            let it = PrivateMessageFields::locate(bytes);
            let front = [it.group_id, it.epoch, it.content_type];
            let back = [
                it.authenticated_data,
                it.encrypted_sender_data,
                it.ciphertext,
            ];
            joined(alloc, &front, &back)
        }
        "mls_framed_content" => {
            let it = FramedContentFields::locate(bytes);
            let front = [it.group_id, it.epoch, it.sender];
            let back = [it.authenticated_data, it.content_type, it.body];
            joined(alloc, &front, &back)
        }
        "mls_sender_data" => {
            let it = SenderDataFields::locate(bytes);
            [it.leaf_index, it.generation, it.reuse_guard].to_vec(alloc)
        }
        _ => located_of_a_group(alloc, name, bytes),
    }
}

// The places of the fields of messages that describe or change a group.
fn located_of_a_group(alloc: Global, name: &str, bytes: &[u8]) -> Result<Vec<Span>, AllocError> {
    match name {
        "mls_welcome" => {
            let it = WelcomeFields::locate(bytes);
            let all = [it.cipher_suite, it.secrets, it.encrypted_group_info];
            all.to_vec(alloc)
        }
        "mls_group_secrets" => {
            let it = GroupSecretsFields::locate(bytes);
            [it.joiner_secret, it.path_secret, it.psks].to_vec(alloc)
        }
        "mls_group_info" => {
            let it = GroupInfoFields::locate(bytes);
            let front = [it.group_context, it.extensions, it.confirmation_tag];
            joined(alloc, &front, &[it.signer, it.signature])
        }
        "mls_group_context" => {
            let it = GroupContextFields::locate(bytes);
            let front = [it.version, it.cipher_suite, it.group_id, it.epoch];
            let back = [it.tree_hash, it.confirmed_transcript_hash, it.extensions];
            joined(alloc, &front, &back)
        }
        "mls_commit" => {
            let it = CommitFields::locate(bytes);
            [it.proposals, it.path].to_vec(alloc)
        }
        "mls_proposal" => {
            let it = ProposalFields::locate(bytes);
            [it.proposal_type, it.body].to_vec(alloc)
        }
        _ => located_of_a_member(alloc, name, bytes),
    }
}

// The places of the fields of key packages and leaf nodes.
fn located_of_a_member(alloc: Global, name: &str, bytes: &[u8]) -> Result<Vec<Span>, AllocError> {
    match name {
        "mls_key_package" => {
            let it = KeyPackageFields::locate(bytes);
            let front = [it.version, it.cipher_suite, it.init_key];
            joined(alloc, &front, &[it.leaf_node, it.extensions, it.signature])
        }
        "mls_leaf_node" => {
            let it = LeafNodeFields::locate(bytes);
            let front = [it.encryption_key, it.signature_key, it.credential];
            let back = [
                it.capabilities,
                it.leaf_node_source,
                it.origin,
                it.extensions,
                it.signature,
            ];
            joined(alloc, &front, &back)
        }
        _ => Ok(Vec::new(alloc)),
    }
}

fn joined(alloc: Global, front: &[Span], back: &[Span]) -> Result<Vec<Span>, AllocError> {
    let mut all = front.to_vec(alloc)?;
    all.extend_from_slice(back)?;
    Ok(all)
}
