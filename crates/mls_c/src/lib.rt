//! Messages of MLS, without allocation: validates them, locates their fields, takes the elements of lists one by one, reads a
//! message's wire format, and writes what is signed of it.
#![tactic(auto)]

mod elements;
mod fields;
mod signed;
mod wire_format;

ghost use Rattle.mls.specs.MLSMessage.{mls_message_format};
ghost use Rattle.mls.specs.PublicMessage.{public_message_format};
ghost use Rattle.mls.specs.PrivateMessage.{private_message_format};
ghost use Rattle.mls.specs.FramedContent.{framed_content_format};
ghost use Rattle.mls.specs.SenderData.{sender_data_format};
ghost use Rattle.mls_group.specs.Welcome.{welcome_format};
ghost use Rattle.mls_group.specs.GroupSecrets.{group_secrets_format};
ghost use Rattle.mls_group.specs.GroupInfo.{group_info_format};
ghost use Rattle.mls_group.specs.GroupContext.{group_context_format};
ghost use Rattle.mls_group.specs.Commit.{commit_format};
ghost use Rattle.mls_group.specs.Proposal.{proposal_format};
ghost use Rattle.mls_tree.specs.KeyPackage.{key_package_format};
ghost use Rattle.mls_tree.specs.LeafNode.{leaf_node_format};
ghost use Rattle.mls_tree.specs.RatchetTree.{ratchet_tree_format};
ghost use Rattle.tls_codec_outcome.specs.Outcomes.{Decides, IsRejection, IsTaken};

use mls::{FramedContent, MLSMessage, PrivateMessage, PublicMessage, SenderData};
use mls_group::{Commit, GroupContext, GroupInfo, GroupSecrets, Proposal, Welcome};
use mls_tree::{KeyPackage, LeafNode, RatchetTree};
use tls_codec::DeserializeBytes;
use tls_codec_outcome::{Outcome, validate};
use tls_codec_validate::Validate;

/// `MLSMessage` (RFC 9420, section 6).
#[unsafe(no_mangle)]
pub extern "C" fn mls_message_validate_prefix(bytes: &[u8]) -> Outcome
    ensures status { Decides mls_message_format bytes.now result.status }
    ensures taken { IsTaken mls_message_format bytes.now result.status result.taken }
    ensures rejected { IsRejection ⟦<MLSMessage as DeserializeBytes>⟧.names
        ⟦<MLSMessage as Validate>⟧.places bytes.now result.status result.at result.detail }
{
    validate::<MLSMessage>(bytes)
}

/// `PublicMessage` (RFC 9420, section 6.2).
#[unsafe(no_mangle)]
pub extern "C" fn mls_public_message_validate_prefix(bytes: &[u8]) -> Outcome
    ensures status { Decides public_message_format bytes.now result.status }
    ensures taken { IsTaken public_message_format bytes.now result.status result.taken }
    ensures rejected { IsRejection ⟦<PublicMessage as DeserializeBytes>⟧.names
        ⟦<PublicMessage as Validate>⟧.places bytes.now result.status result.at result.detail }
{
    validate::<PublicMessage>(bytes)
}

/// `PrivateMessage` (RFC 9420, section 6.3).
#[unsafe(no_mangle)]
pub extern "C" fn mls_private_message_validate_prefix(bytes: &[u8]) -> Outcome
    ensures status { Decides private_message_format bytes.now result.status }
    ensures taken { IsTaken private_message_format bytes.now result.status result.taken }
    ensures rejected { IsRejection ⟦<PrivateMessage as DeserializeBytes>⟧.names
        ⟦<PrivateMessage as Validate>⟧.places bytes.now result.status result.at result.detail }
{
    validate::<PrivateMessage>(bytes)
}

/// `FramedContent` (RFC 9420, section 6).
#[unsafe(no_mangle)]
pub extern "C" fn mls_framed_content_validate_prefix(bytes: &[u8]) -> Outcome
    ensures status { Decides framed_content_format bytes.now result.status }
    ensures taken { IsTaken framed_content_format bytes.now result.status result.taken }
    ensures rejected { IsRejection ⟦<FramedContent as DeserializeBytes>⟧.names
        ⟦<FramedContent as Validate>⟧.places bytes.now result.status result.at result.detail }
{
    validate::<FramedContent>(bytes)
}

/// `SenderData` (RFC 9420, section 6.3.2).
#[unsafe(no_mangle)]
pub extern "C" fn mls_sender_data_validate_prefix(bytes: &[u8]) -> Outcome
    ensures status { Decides sender_data_format bytes.now result.status }
    ensures taken { IsTaken sender_data_format bytes.now result.status result.taken }
    ensures rejected { IsRejection ⟦<SenderData as DeserializeBytes>⟧.names
        ⟦<SenderData as Validate>⟧.places bytes.now result.status result.at result.detail }
{
    validate::<SenderData>(bytes)
}

/// `Welcome` (RFC 9420, section 12.4.3.1).
#[unsafe(no_mangle)]
pub extern "C" fn mls_welcome_validate_prefix(bytes: &[u8]) -> Outcome
    ensures status { Decides welcome_format bytes.now result.status }
    ensures taken { IsTaken welcome_format bytes.now result.status result.taken }
    ensures rejected { IsRejection ⟦<Welcome as DeserializeBytes>⟧.names
        ⟦<Welcome as Validate>⟧.places bytes.now result.status result.at result.detail }
{
    validate::<Welcome>(bytes)
}

/// `GroupSecrets` (RFC 9420, section 12.4.3.1).
#[unsafe(no_mangle)]
pub extern "C" fn mls_group_secrets_validate_prefix(bytes: &[u8]) -> Outcome
    ensures status { Decides group_secrets_format bytes.now result.status }
    ensures taken { IsTaken group_secrets_format bytes.now result.status result.taken }
    ensures rejected { IsRejection ⟦<GroupSecrets as DeserializeBytes>⟧.names
        ⟦<GroupSecrets as Validate>⟧.places bytes.now result.status result.at result.detail }
{
    validate::<GroupSecrets>(bytes)
}

/// `GroupInfo` (RFC 9420, section 12.4.3).
#[unsafe(no_mangle)]
pub extern "C" fn mls_group_info_validate_prefix(bytes: &[u8]) -> Outcome
    ensures status { Decides group_info_format bytes.now result.status }
    ensures taken { IsTaken group_info_format bytes.now result.status result.taken }
    ensures rejected { IsRejection ⟦<GroupInfo as DeserializeBytes>⟧.names
        ⟦<GroupInfo as Validate>⟧.places bytes.now result.status result.at result.detail }
{
    validate::<GroupInfo>(bytes)
}

/// `GroupContext` (RFC 9420, section 8.1).
#[unsafe(no_mangle)]
pub extern "C" fn mls_group_context_validate_prefix(bytes: &[u8]) -> Outcome
    ensures status { Decides group_context_format bytes.now result.status }
    ensures taken { IsTaken group_context_format bytes.now result.status result.taken }
    ensures rejected { IsRejection ⟦<GroupContext as DeserializeBytes>⟧.names
        ⟦<GroupContext as Validate>⟧.places bytes.now result.status result.at result.detail }
{
    validate::<GroupContext>(bytes)
}

/// `Commit` (RFC 9420, section 12.4).
#[unsafe(no_mangle)]
pub extern "C" fn mls_commit_validate_prefix(bytes: &[u8]) -> Outcome
    ensures status { Decides commit_format bytes.now result.status }
    ensures taken { IsTaken commit_format bytes.now result.status result.taken }
    ensures rejected { IsRejection ⟦<Commit as DeserializeBytes>⟧.names
        ⟦<Commit as Validate>⟧.places bytes.now result.status result.at result.detail }
{
    validate::<Commit>(bytes)
}

/// `Proposal` (RFC 9420, section 12.1).
#[unsafe(no_mangle)]
pub extern "C" fn mls_proposal_validate_prefix(bytes: &[u8]) -> Outcome
    ensures status { Decides proposal_format bytes.now result.status }
    ensures taken { IsTaken proposal_format bytes.now result.status result.taken }
    ensures rejected { IsRejection ⟦<Proposal as DeserializeBytes>⟧.names
        ⟦<Proposal as Validate>⟧.places bytes.now result.status result.at result.detail }
{
    validate::<Proposal>(bytes)
}

/// `KeyPackage` (RFC 9420, section 10).
#[unsafe(no_mangle)]
pub extern "C" fn mls_key_package_validate_prefix(bytes: &[u8]) -> Outcome
    ensures status { Decides key_package_format bytes.now result.status }
    ensures taken { IsTaken key_package_format bytes.now result.status result.taken }
    ensures rejected { IsRejection ⟦<KeyPackage as DeserializeBytes>⟧.names
        ⟦<KeyPackage as Validate>⟧.places bytes.now result.status result.at result.detail }
{
    validate::<KeyPackage>(bytes)
}

/// `LeafNode` (RFC 9420, section 7.2).
#[unsafe(no_mangle)]
pub extern "C" fn mls_leaf_node_validate_prefix(bytes: &[u8]) -> Outcome
    ensures status { Decides leaf_node_format bytes.now result.status }
    ensures taken { IsTaken leaf_node_format bytes.now result.status result.taken }
    ensures rejected { IsRejection ⟦<LeafNode as DeserializeBytes>⟧.names
        ⟦<LeafNode as Validate>⟧.places bytes.now result.status result.at result.detail }
{
    validate::<LeafNode>(bytes)
}

/// `RatchetTree` (RFC 9420, section 12.4.3.3).
#[unsafe(no_mangle)]
pub extern "C" fn mls_ratchet_tree_validate_prefix(bytes: &[u8]) -> Outcome
    ensures status { Decides ratchet_tree_format bytes.now result.status }
    ensures taken { IsTaken ratchet_tree_format bytes.now result.status result.taken }
    ensures rejected { IsRejection ⟦<RatchetTree as DeserializeBytes>⟧.names
        ⟦<RatchetTree as Validate>⟧.places bytes.now result.status result.at result.detail }
{
    validate::<RatchetTree>(bytes)
}
