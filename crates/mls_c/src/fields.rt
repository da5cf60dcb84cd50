//! Where the fields of a message are, once it is validated.
ghost use Rattle.std.specs.Prelude.{◌≡◌, ◌≢◌};
ghost use Rattle.mls.specs.MLSMessage.{mls_message_format};
ghost use Rattle.mls.specs.PublicMessage.{public_message_format};
ghost use Rattle.mls.specs.PrivateMessage.{private_message_format};
ghost use Rattle.mls.specs.FramedContent.{framed_content_format};
ghost use Rattle.mls.specs.SenderData.{sender_data_format};
ghost use Rattle.mls_tree.specs.KeyPackage.{key_package_format};
ghost use Rattle.mls_tree.specs.LeafNode.{leaf_node_format};
ghost use Rattle.mls_group.specs.Welcome.{welcome_format};
ghost use Rattle.mls_group.specs.GroupSecrets.{group_secrets_format};
ghost use Rattle.mls_group.specs.GroupInfo.{group_info_format};
ghost use Rattle.mls_group.specs.GroupContext.{group_context_format};
ghost use Rattle.mls_group.specs.Commit.{commit_format};
ghost use Rattle.mls_group.specs.Proposal.{proposal_format};
ghost use Rattle.mls_fields.specs.MLSMessageFields.{AreMLSMessageFields};
ghost use Rattle.mls_fields.specs.PublicMessageFields.{ArePublicMessageFields};
ghost use Rattle.mls_fields.specs.PrivateMessageFields.{ArePrivateMessageFields};
ghost use Rattle.mls_fields.specs.FramedContentFields.{AreFramedContentFields};
ghost use Rattle.mls_fields.specs.SenderDataFields.{AreSenderDataFields};
ghost use Rattle.mls_fields.specs.KeyPackageFields.{AreKeyPackageFields};
ghost use Rattle.mls_fields.specs.LeafNodeFields.{AreLeafNodeFields};
ghost use Rattle.mls_fields.specs.WelcomeFields.{AreWelcomeFields};
ghost use Rattle.mls_fields.specs.GroupSecretsFields.{AreGroupSecretsFields};
ghost use Rattle.mls_fields.specs.GroupInfoFields.{AreGroupInfoFields};
ghost use Rattle.mls_fields.specs.GroupContextFields.{AreGroupContextFields};
ghost use Rattle.mls_fields.specs.CommitFields.{AreCommitFields};
ghost use Rattle.mls_fields.specs.ProposalFields.{AreProposalFields};
ghost use Rattle.tls_codec_outcome.specs.Outcomes.{Decides, IsRejection, IsTaken};

use mls::{FramedContent, MLSMessage, PrivateMessage, PublicMessage, SenderData};
use mls_fields::{
    CommitFields, FramedContentFields, GroupContextFields, GroupInfoFields, GroupSecretsFields,
    KeyPackageFields, LeafNodeFields, MLSMessageFields, PrivateMessageFields, ProposalFields,
    PublicMessageFields, SenderDataFields, WelcomeFields,
};
use mls_group::{Commit, GroupContext, GroupInfo, GroupSecrets, Proposal, Welcome};
use mls_tree::{KeyPackage, LeafNode};
use tls_codec::DeserializeBytes;
use tls_codec_outcome::{ACCEPTED, Outcome, validate};
use tls_codec_validate::Validate;

/// `MLSMessage` (RFC 9420, section 6), and where its fields are.
#[unsafe(no_mangle)]
pub extern "C" fn mls_message_locate_prefix(bytes: &[u8], fields: &mut MLSMessageFields) -> Outcome
    ensures status { Decides mls_message_format bytes.now result.status }
    ensures taken { IsTaken mls_message_format bytes.now result.status result.taken }
    ensures rejected { IsRejection ⟦<MLSMessage as DeserializeBytes>⟧.names
        ⟦<MLSMessage as Validate>⟧.places bytes.now result.status result.at result.detail }
    ensures fields { result.status ≡ 0 → AreMLSMessageFields bytes.now fields.new }
    ensures kept { result.status ≢ 0 → fields.new ≡ fields.old }
{
    let outcome = validate::<MLSMessage>(bytes);
    if outcome.status == ACCEPTED {
        *fields = MLSMessageFields::locate(bytes);
    }
    outcome
}

/// `PublicMessage` (RFC 9420, section 6.2), and where its fields are.
#[unsafe(no_mangle)]
pub extern "C" fn mls_public_message_locate_prefix(
    bytes: &[u8],
    fields: &mut PublicMessageFields,
) -> Outcome
    ensures status { Decides public_message_format bytes.now result.status }
    ensures taken { IsTaken public_message_format bytes.now result.status result.taken }
    ensures rejected { IsRejection ⟦<PublicMessage as DeserializeBytes>⟧.names
        ⟦<PublicMessage as Validate>⟧.places bytes.now result.status result.at result.detail }
    ensures fields { result.status ≡ 0 → ArePublicMessageFields bytes.now fields.new }
    ensures kept { result.status ≢ 0 → fields.new ≡ fields.old }
{
    let outcome = validate::<PublicMessage>(bytes);
    if outcome.status == ACCEPTED {
        *fields = PublicMessageFields::locate(bytes);
    }
    outcome
}

/// `PrivateMessage` (RFC 9420, section 6.3), and where its fields are.
#[unsafe(no_mangle)]
pub extern "C" fn mls_private_message_locate_prefix(
    bytes: &[u8],
    fields: &mut PrivateMessageFields,
) -> Outcome
    ensures status { Decides private_message_format bytes.now result.status }
    ensures taken { IsTaken private_message_format bytes.now result.status result.taken }
    ensures rejected { IsRejection ⟦<PrivateMessage as DeserializeBytes>⟧.names
        ⟦<PrivateMessage as Validate>⟧.places bytes.now result.status result.at result.detail }
    ensures fields { result.status ≡ 0 → ArePrivateMessageFields bytes.now fields.new }
    ensures kept { result.status ≢ 0 → fields.new ≡ fields.old }
{
    let outcome = validate::<PrivateMessage>(bytes);
    if outcome.status == ACCEPTED {
        *fields = PrivateMessageFields::locate(bytes);
    }
    outcome
}

/// `FramedContent` (RFC 9420, section 6), with which a `PublicMessage` begins, and where its fields are.
#[unsafe(no_mangle)]
pub extern "C" fn mls_framed_content_locate_prefix(
    bytes: &[u8],
    fields: &mut FramedContentFields,
) -> Outcome
    ensures status { Decides framed_content_format bytes.now result.status }
    ensures taken { IsTaken framed_content_format bytes.now result.status result.taken }
    ensures rejected { IsRejection ⟦<FramedContent as DeserializeBytes>⟧.names
        ⟦<FramedContent as Validate>⟧.places bytes.now result.status result.at result.detail }
    ensures fields { result.status ≡ 0 → AreFramedContentFields bytes.now fields.new }
    ensures kept { result.status ≢ 0 → fields.new ≡ fields.old }
{
    let outcome = validate::<FramedContent>(bytes);
    if outcome.status == ACCEPTED {
        *fields = FramedContentFields::locate(bytes);
    }
    outcome
}

/// `SenderData` (RFC 9420, section 6.3.2), and where its fields are.
#[unsafe(no_mangle)]
pub extern "C" fn mls_sender_data_locate_prefix(
    bytes: &[u8],
    fields: &mut SenderDataFields,
) -> Outcome
    ensures status { Decides sender_data_format bytes.now result.status }
    ensures taken { IsTaken sender_data_format bytes.now result.status result.taken }
    ensures rejected { IsRejection ⟦<SenderData as DeserializeBytes>⟧.names
        ⟦<SenderData as Validate>⟧.places bytes.now result.status result.at result.detail }
    ensures fields { result.status ≡ 0 → AreSenderDataFields bytes.now fields.new }
    ensures kept { result.status ≢ 0 → fields.new ≡ fields.old }
{
    let outcome = validate::<SenderData>(bytes);
    if outcome.status == ACCEPTED {
        *fields = SenderDataFields::locate(bytes);
    }
    outcome
}

/// `KeyPackage` (RFC 9420, section 10), and where its fields are.
#[unsafe(no_mangle)]
pub extern "C" fn mls_key_package_locate_prefix(
    bytes: &[u8],
    fields: &mut KeyPackageFields,
) -> Outcome
    ensures status { Decides key_package_format bytes.now result.status }
    ensures taken { IsTaken key_package_format bytes.now result.status result.taken }
    ensures rejected { IsRejection ⟦<KeyPackage as DeserializeBytes>⟧.names
        ⟦<KeyPackage as Validate>⟧.places bytes.now result.status result.at result.detail }
    ensures fields { result.status ≡ 0 → AreKeyPackageFields bytes.now fields.new }
    ensures kept { result.status ≢ 0 → fields.new ≡ fields.old }
{
    let outcome = validate::<KeyPackage>(bytes);
    if outcome.status == ACCEPTED {
        *fields = KeyPackageFields::locate(bytes);
    }
    outcome
}

/// `LeafNode` (RFC 9420, section 7.2), and where its fields are.
#[unsafe(no_mangle)]
pub extern "C" fn mls_leaf_node_locate_prefix(bytes: &[u8], fields: &mut LeafNodeFields) -> Outcome
    ensures status { Decides leaf_node_format bytes.now result.status }
    ensures taken { IsTaken leaf_node_format bytes.now result.status result.taken }
    ensures rejected { IsRejection ⟦<LeafNode as DeserializeBytes>⟧.names
        ⟦<LeafNode as Validate>⟧.places bytes.now result.status result.at result.detail }
    ensures fields { result.status ≡ 0 → AreLeafNodeFields bytes.now fields.new }
    ensures kept { result.status ≢ 0 → fields.new ≡ fields.old }
{
    let outcome = validate::<LeafNode>(bytes);
    if outcome.status == ACCEPTED {
        *fields = LeafNodeFields::locate(bytes);
    }
    outcome
}

/// `Welcome` (RFC 9420, section 12.4.3.1), and where its fields are.
#[unsafe(no_mangle)]
pub extern "C" fn mls_welcome_locate_prefix(bytes: &[u8], fields: &mut WelcomeFields) -> Outcome
    ensures status { Decides welcome_format bytes.now result.status }
    ensures taken { IsTaken welcome_format bytes.now result.status result.taken }
    ensures rejected { IsRejection ⟦<Welcome as DeserializeBytes>⟧.names
        ⟦<Welcome as Validate>⟧.places bytes.now result.status result.at result.detail }
    ensures fields { result.status ≡ 0 → AreWelcomeFields bytes.now fields.new }
    ensures kept { result.status ≢ 0 → fields.new ≡ fields.old }
{
    let outcome = validate::<Welcome>(bytes);
    if outcome.status == ACCEPTED {
        *fields = WelcomeFields::locate(bytes);
    }
    outcome
}

/// `GroupSecrets` (RFC 9420, section 12.4.3.1), and where its fields are.
#[unsafe(no_mangle)]
pub extern "C" fn mls_group_secrets_locate_prefix(
    bytes: &[u8],
    fields: &mut GroupSecretsFields,
) -> Outcome
    ensures status { Decides group_secrets_format bytes.now result.status }
    ensures taken { IsTaken group_secrets_format bytes.now result.status result.taken }
    ensures rejected { IsRejection ⟦<GroupSecrets as DeserializeBytes>⟧.names
        ⟦<GroupSecrets as Validate>⟧.places bytes.now result.status result.at result.detail }
    ensures fields { result.status ≡ 0 → AreGroupSecretsFields bytes.now fields.new }
    ensures kept { result.status ≢ 0 → fields.new ≡ fields.old }
{
    let outcome = validate::<GroupSecrets>(bytes);
    if outcome.status == ACCEPTED {
        *fields = GroupSecretsFields::locate(bytes);
    }
    outcome
}

/// `GroupInfo` (RFC 9420, section 12.4.3), and where its fields are.
#[unsafe(no_mangle)]
pub extern "C" fn mls_group_info_locate_prefix(
    bytes: &[u8],
    fields: &mut GroupInfoFields,
) -> Outcome
    ensures status { Decides group_info_format bytes.now result.status }
    ensures taken { IsTaken group_info_format bytes.now result.status result.taken }
    ensures rejected { IsRejection ⟦<GroupInfo as DeserializeBytes>⟧.names
        ⟦<GroupInfo as Validate>⟧.places bytes.now result.status result.at result.detail }
    ensures fields { result.status ≡ 0 → AreGroupInfoFields bytes.now fields.new }
    ensures kept { result.status ≢ 0 → fields.new ≡ fields.old }
{
    let outcome = validate::<GroupInfo>(bytes);
    if outcome.status == ACCEPTED {
        *fields = GroupInfoFields::locate(bytes);
    }
    outcome
}

/// `GroupContext` (RFC 9420, section 8.1), and where its fields are.
#[unsafe(no_mangle)]
pub extern "C" fn mls_group_context_locate_prefix(
    bytes: &[u8],
    fields: &mut GroupContextFields,
) -> Outcome
    ensures status { Decides group_context_format bytes.now result.status }
    ensures taken { IsTaken group_context_format bytes.now result.status result.taken }
    ensures rejected { IsRejection ⟦<GroupContext as DeserializeBytes>⟧.names
        ⟦<GroupContext as Validate>⟧.places bytes.now result.status result.at result.detail }
    ensures fields { result.status ≡ 0 → AreGroupContextFields bytes.now fields.new }
    ensures kept { result.status ≢ 0 → fields.new ≡ fields.old }
{
    let outcome = validate::<GroupContext>(bytes);
    if outcome.status == ACCEPTED {
        *fields = GroupContextFields::locate(bytes);
    }
    outcome
}

/// `Commit` (RFC 9420, section 12.4), and where its fields are.
#[unsafe(no_mangle)]
pub extern "C" fn mls_commit_locate_prefix(bytes: &[u8], fields: &mut CommitFields) -> Outcome
    ensures status { Decides commit_format bytes.now result.status }
    ensures taken { IsTaken commit_format bytes.now result.status result.taken }
    ensures rejected { IsRejection ⟦<Commit as DeserializeBytes>⟧.names
        ⟦<Commit as Validate>⟧.places bytes.now result.status result.at result.detail }
    ensures fields { result.status ≡ 0 → AreCommitFields bytes.now fields.new }
    ensures kept { result.status ≢ 0 → fields.new ≡ fields.old }
{
    let outcome = validate::<Commit>(bytes);
    if outcome.status == ACCEPTED {
        *fields = CommitFields::locate(bytes);
    }
    outcome
}

/// `Proposal` (RFC 9420, section 12.1), and where its fields are.
#[unsafe(no_mangle)]
pub extern "C" fn mls_proposal_locate_prefix(bytes: &[u8], fields: &mut ProposalFields) -> Outcome
    ensures status { Decides proposal_format bytes.now result.status }
    ensures taken { IsTaken proposal_format bytes.now result.status result.taken }
    ensures rejected { IsRejection ⟦<Proposal as DeserializeBytes>⟧.names
        ⟦<Proposal as Validate>⟧.places bytes.now result.status result.at result.detail }
    ensures fields { result.status ≡ 0 → AreProposalFields bytes.now fields.new }
    ensures kept { result.status ≢ 0 → fields.new ≡ fields.old }
{
    let outcome = validate::<Proposal>(bytes);
    if outcome.status == ACCEPTED {
        *fields = ProposalFields::locate(bytes);
    }
    outcome
}
