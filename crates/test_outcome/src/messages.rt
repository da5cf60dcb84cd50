//! The messages, by their names in the static libraries.
use mls::{FramedContent, MLSMessage, PrivateMessage, PublicMessage, SenderData};
use mls_group::{Commit, GroupContext, GroupInfo, GroupSecrets, Proposal, Welcome};
use mls_tree::{KeyPackage, LeafNode, RatchetTree};
use std::alloc::Global;
use tls_codec_outcome::{Outcome, decode_check, validate};
use tls_codec_validate::Validate;

/// What the validator and the decoder of a message say of some bytes. None: no message has this name.
pub fn validated_and_decoded(
    alloc: Global,
    name: &str,
    bytes: &[u8],
) -> Option<(Outcome, Outcome)> {
    Some(match name {
        "mls_message" => outcomes_of::<MLSMessage>(alloc, bytes),
        "mls_public_message" => outcomes_of::<PublicMessage>(alloc, bytes),
        "mls_private_message" => outcomes_of::<PrivateMessage>(alloc, bytes),
        "mls_framed_content" => outcomes_of::<FramedContent>(alloc, bytes),
        "mls_sender_data" => outcomes_of::<SenderData>(alloc, bytes),
        "mls_welcome" => outcomes_of::<Welcome>(alloc, bytes),
        "mls_group_secrets" => outcomes_of::<GroupSecrets>(alloc, bytes),
        "mls_group_info" => outcomes_of::<GroupInfo>(alloc, bytes),
        "mls_group_context" => outcomes_of::<GroupContext>(alloc, bytes),
        "mls_commit" => outcomes_of::<Commit>(alloc, bytes),
        "mls_proposal" => outcomes_of::<Proposal>(alloc, bytes),
        "mls_key_package" => outcomes_of::<KeyPackage>(alloc, bytes),
        "mls_leaf_node" => outcomes_of::<LeafNode>(alloc, bytes),
        "mls_ratchet_tree" => outcomes_of::<RatchetTree>(alloc, bytes),
        _ => return None,
    })
}

fn outcomes_of<T: Validate + Drop>(alloc: Global, bytes: &[u8]) -> (Outcome, Outcome) {
    (validate::<T>(bytes), decode_check::<T>(alloc, bytes))
}
