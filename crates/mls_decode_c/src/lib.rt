//! Checks whether bytes begin with a message of MLS: its decoder makes the value and drops it.
//!
//! `OutOfMemory`: memory was refused, and nothing is said about the bytes. The position of a
//! rejected field isn't reported: `at` of `NAME_decode_check_prefix` is 0.
#![tactic(auto)]

ghost use Rattle.std.specs.Prelude.{◌≡◌};
ghost use Rattle.mls.specs.MLSMessage.{mls_message_format};
ghost use Rattle.mls.specs.PublicMessage.{public_message_format};
ghost use Rattle.mls.specs.PrivateMessage.{private_message_format};
ghost use Rattle.mls.specs.FramedContent.{framed_content_format};
ghost use Rattle.mls.specs.SenderData.{sender_data_format};
ghost use Rattle.mls_group.specs.Welcome.{welcome_format};
ghost use Rattle.mls_group.specs.GroupSecrets.{group_secrets_format};
ghost use Rattle.mls_group.specs.GroupInfo.{group_info_format};
ghost use Rattle.mls_group.specs.GroupContext.{group_context_format};
ghost use Rattle.mls_group.specs.Commit.{commit_format};
ghost use Rattle.mls_group.specs.Proposal.{proposal_format};
ghost use Rattle.mls_tree.specs.KeyPackage.{key_package_format};
ghost use Rattle.mls_tree.specs.LeafNode.{leaf_node_format};
ghost use Rattle.mls_tree.specs.RatchetTree.{ratchet_tree_format};
ghost use Rattle.tls_codec_outcome.specs.Outcomes.{DecidesInMemory, IsNamed, IsTaken};

use mls::{FramedContent, MLSMessage, PrivateMessage, PublicMessage, SenderData};
use mls_group::{Commit, GroupContext, GroupInfo, GroupSecrets, Proposal, Welcome};
use mls_tree::{KeyPackage, LeafNode, RatchetTree};
use std::alloc::Global;
use tls_codec::DeserializeBytes;
use tls_codec_outcome::{Outcome, decode_check};

/// `MLSMessage` (RFC 9420, section 6).
#[unsafe(no_mangle)]
pub extern "C" fn mls_message_decode_check_prefix(alloc: Global, bytes: &[u8]) -> Outcome
    ensures status { DecidesInMemory mls_message_format bytes.now result.status }
    ensures taken { IsTaken mls_message_format bytes.now result.status result.taken }
    ensures detail { IsNamed ⟦<MLSMessage as DeserializeBytes>⟧.names bytes.now result.status
        result.detail }
    ensures at { result.at ≡ 0 }
{
    decode_check::<MLSMessage>(alloc, bytes)
}

/// `PublicMessage` (RFC 9420, section 6.2).
#[unsafe(no_mangle)]
pub extern "C" fn mls_public_message_decode_check_prefix(alloc: Global, bytes: &[u8]) -> Outcome
    ensures status { DecidesInMemory public_message_format bytes.now result.status }
    ensures taken { IsTaken public_message_format bytes.now result.status result.taken }
    ensures detail { IsNamed ⟦<PublicMessage as DeserializeBytes>⟧.names bytes.now result.status
        result.detail }
    ensures at { result.at ≡ 0 }
{
    decode_check::<PublicMessage>(alloc, bytes)
}

/// `PrivateMessage` (RFC 9420, section 6.3).
#[unsafe(no_mangle)]
pub extern "C" fn mls_private_message_decode_check_prefix(alloc: Global, bytes: &[u8]) -> Outcome
    ensures status { DecidesInMemory private_message_format bytes.now result.status }
    ensures taken { IsTaken private_message_format bytes.now result.status result.taken }
    ensures detail { IsNamed ⟦<PrivateMessage as DeserializeBytes>⟧.names bytes.now result.status
        result.detail }
    ensures at { result.at ≡ 0 }
{
    decode_check::<PrivateMessage>(alloc, bytes)
}

/// `FramedContent` (RFC 9420, section 6).
#[unsafe(no_mangle)]
pub extern "C" fn mls_framed_content_decode_check_prefix(alloc: Global, bytes: &[u8]) -> Outcome
    ensures status { DecidesInMemory framed_content_format bytes.now result.status }
    ensures taken { IsTaken framed_content_format bytes.now result.status result.taken }
    ensures detail { IsNamed ⟦<FramedContent as DeserializeBytes>⟧.names bytes.now result.status
        result.detail }
    ensures at { result.at ≡ 0 }
{
    decode_check::<FramedContent>(alloc, bytes)
}

/// `SenderData` (RFC 9420, section 6.3.2).
#[unsafe(no_mangle)]
pub extern "C" fn mls_sender_data_decode_check_prefix(alloc: Global, bytes: &[u8]) -> Outcome
    ensures status { DecidesInMemory sender_data_format bytes.now result.status }
    ensures taken { IsTaken sender_data_format bytes.now result.status result.taken }
    ensures detail { IsNamed ⟦<SenderData as DeserializeBytes>⟧.names bytes.now result.status
        result.detail }
    ensures at { result.at ≡ 0 }
{
    decode_check::<SenderData>(alloc, bytes)
}

/// `Welcome` (RFC 9420, section 12.4.3.1).
#[unsafe(no_mangle)]
pub extern "C" fn mls_welcome_decode_check_prefix(alloc: Global, bytes: &[u8]) -> Outcome
    ensures status { DecidesInMemory welcome_format bytes.now result.status }
    ensures taken { IsTaken welcome_format bytes.now result.status result.taken }
    ensures detail { IsNamed ⟦<Welcome as DeserializeBytes>⟧.names bytes.now result.status
        result.detail }
    ensures at { result.at ≡ 0 }
{
    decode_check::<Welcome>(alloc, bytes)
}

/// `GroupSecrets` (RFC 9420, section 12.4.3.1).
#[unsafe(no_mangle)]
pub extern "C" fn mls_group_secrets_decode_check_prefix(alloc: Global, bytes: &[u8]) -> Outcome
    ensures status { DecidesInMemory group_secrets_format bytes.now result.status }
    ensures taken { IsTaken group_secrets_format bytes.now result.status result.taken }
    ensures detail { IsNamed ⟦<GroupSecrets as DeserializeBytes>⟧.names bytes.now result.status
        result.detail }
    ensures at { result.at ≡ 0 }
{
    decode_check::<GroupSecrets>(alloc, bytes)
}

/// `GroupInfo` (RFC 9420, section 12.4.3).
#[unsafe(no_mangle)]
pub extern "C" fn mls_group_info_decode_check_prefix(alloc: Global, bytes: &[u8]) -> Outcome
    ensures status { DecidesInMemory group_info_format bytes.now result.status }
    ensures taken { IsTaken group_info_format bytes.now result.status result.taken }
    ensures detail { IsNamed ⟦<GroupInfo as DeserializeBytes>⟧.names bytes.now result.status
        result.detail }
    ensures at { result.at ≡ 0 }
{
    decode_check::<GroupInfo>(alloc, bytes)
}

/// `GroupContext` (RFC 9420, section 8.1).
#[unsafe(no_mangle)]
pub extern "C" fn mls_group_context_decode_check_prefix(alloc: Global, bytes: &[u8]) -> Outcome
    ensures status { DecidesInMemory group_context_format bytes.now result.status }
    ensures taken { IsTaken group_context_format bytes.now result.status result.taken }
    ensures detail { IsNamed ⟦<GroupContext as DeserializeBytes>⟧.names bytes.now result.status
        result.detail }
    ensures at { result.at ≡ 0 }
{
    decode_check::<GroupContext>(alloc, bytes)
}

/// `Commit` (RFC 9420, section 12.4).
#[unsafe(no_mangle)]
pub extern "C" fn mls_commit_decode_check_prefix(alloc: Global, bytes: &[u8]) -> Outcome
    ensures status { DecidesInMemory commit_format bytes.now result.status }
    ensures taken { IsTaken commit_format bytes.now result.status result.taken }
    ensures detail { IsNamed ⟦<Commit as DeserializeBytes>⟧.names bytes.now result.status
        result.detail }
    ensures at { result.at ≡ 0 }
{
    decode_check::<Commit>(alloc, bytes)
}

/// `Proposal` (RFC 9420, section 12.1).
#[unsafe(no_mangle)]
pub extern "C" fn mls_proposal_decode_check_prefix(alloc: Global, bytes: &[u8]) -> Outcome
    ensures status { DecidesInMemory proposal_format bytes.now result.status }
    ensures taken { IsTaken proposal_format bytes.now result.status result.taken }
    ensures detail { IsNamed ⟦<Proposal as DeserializeBytes>⟧.names bytes.now result.status
        result.detail }
    ensures at { result.at ≡ 0 }
{
    decode_check::<Proposal>(alloc, bytes)
}

/// `KeyPackage` (RFC 9420, section 10).
#[unsafe(no_mangle)]
pub extern "C" fn mls_key_package_decode_check_prefix(alloc: Global, bytes: &[u8]) -> Outcome
    ensures status { DecidesInMemory key_package_format bytes.now result.status }
    ensures taken { IsTaken key_package_format bytes.now result.status result.taken }
    ensures detail { IsNamed ⟦<KeyPackage as DeserializeBytes>⟧.names bytes.now result.status
        result.detail }
    ensures at { result.at ≡ 0 }
{
    decode_check::<KeyPackage>(alloc, bytes)
}

/// `LeafNode` (RFC 9420, section 7.2).
#[unsafe(no_mangle)]
pub extern "C" fn mls_leaf_node_decode_check_prefix(alloc: Global, bytes: &[u8]) -> Outcome
    ensures status { DecidesInMemory leaf_node_format bytes.now result.status }
    ensures taken { IsTaken leaf_node_format bytes.now result.status result.taken }
    ensures detail { IsNamed ⟦<LeafNode as DeserializeBytes>⟧.names bytes.now result.status
        result.detail }
    ensures at { result.at ≡ 0 }
{
    decode_check::<LeafNode>(alloc, bytes)
}

/// `RatchetTree` (RFC 9420, section 12.4.3.3).
#[unsafe(no_mangle)]
pub extern "C" fn mls_ratchet_tree_decode_check_prefix(alloc: Global, bytes: &[u8]) -> Outcome
    ensures status { DecidesInMemory ratchet_tree_format bytes.now result.status }
    ensures taken { IsTaken ratchet_tree_format bytes.now result.status result.taken }
    ensures detail { IsNamed ⟦<RatchetTree as DeserializeBytes>⟧.names bytes.now result.status
        result.detail }
    ensures at { result.at ≡ 0 }
{
    decode_check::<RatchetTree>(alloc, bytes)
}
