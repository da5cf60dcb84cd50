//! Each type of `mls_group` has the bytes that its text means.
//! Each value's bytes are those of its parts, by their names.
ghost use Rattle.tls_codec_grammar.specs.Tree.{Tree};
ghost use Rattle.tls_presentation.specs.Meaning.{SameBytes, means, part_means};
ghost use Rattle.tls_presentation.specs.Says.{SpelledAs};
ghost use Rattle.mls_group_laws.specs.Definitions.{mls_group};
ghost use Rattle.mls_group_laws.specs.Says.{AddSays, CommitSays, EncryptedGroupSecretsSays, ExternalInitSays, ExternalPubSays, ExternalSenderSays, ExternalSendersSays, GroupContextSays, GroupContextExtensionsSays, GroupInfoSays, GroupInfoTBSSays, GroupSecretsSays, HPKECiphertextSays, KDFLabelSays, PSKLabelSays, PSKOriginSays, PathSecretSays, PreSharedKeySays, PreSharedKeyIDSays, ProposalSays, ProposalOrRefSays, ProtocolVersionMls10Says, ReInitSays, RefHashInputSays, RemoveSays, RequiredCapabilitiesSays, ResumptionPSKUsageSays, UpdateSays, UpdatePathSays, UpdatePathNodeSays, WelcomeSays};
ghost use Rattle.mls_group.specs.declared.add.Add.{Add};
ghost use Rattle.mls_group.specs.declared.commit.Commit.{Commit};
ghost use Rattle.mls_group.specs.declared.encrypted_group_secrets.EncryptedGroupSecrets.{EncryptedGroupSecrets};
ghost use Rattle.mls_group.specs.declared.external_init.ExternalInit.{ExternalInit};
ghost use Rattle.mls_group.specs.declared.external_pub.ExternalPub.{ExternalPub};
ghost use Rattle.mls_group.specs.declared.external_sender.ExternalSender.{ExternalSender};
ghost use Rattle.mls_group.specs.declared.external_senders.ExternalSenders.{ExternalSenders};
ghost use Rattle.mls_group.specs.declared.group_context.GroupContext.{GroupContext};
ghost use Rattle.mls_group.specs.declared.group_context_extensions.GroupContextExtensions.{GroupContextExtensions};
ghost use Rattle.mls_group.specs.declared.group_info.GroupInfo.{GroupInfo};
ghost use Rattle.mls_group.specs.declared.group_info_tbs.GroupInfoTBS.{GroupInfoTBS};
ghost use Rattle.mls_group.specs.declared.group_secrets.GroupSecrets.{GroupSecrets};
ghost use Rattle.mls_group.specs.declared.hpke_ciphertext.HPKECiphertext.{HPKECiphertext};
ghost use Rattle.mls_group.specs.declared.kdf_label.KDFLabel.{KDFLabel};
ghost use Rattle.mls_group.specs.declared.psk_label.PSKLabel.{PSKLabel};
ghost use Rattle.mls_group.specs.declared.psk_origin.PSKOrigin.{PSKOrigin};
ghost use Rattle.mls_group.specs.declared.path_secret.PathSecret.{PathSecret};
ghost use Rattle.mls_group.specs.declared.pre_shared_key.PreSharedKey.{PreSharedKey};
ghost use Rattle.mls_group.specs.declared.pre_shared_key_id.PreSharedKeyID.{PreSharedKeyID};
ghost use Rattle.mls_group.specs.declared.proposal.Proposal.{Proposal};
ghost use Rattle.mls_group.specs.declared.proposal_or_ref.ProposalOrRef.{ProposalOrRef};
ghost use Rattle.mls_group.specs.declared.protocol_version_mls10.ProtocolVersionMls10.{ProtocolVersionMls10};
ghost use Rattle.mls_group.specs.declared.re_init.ReInit.{ReInit};
ghost use Rattle.mls_group.specs.declared.ref_hash_input.RefHashInput.{RefHashInput};
ghost use Rattle.mls_group.specs.declared.remove.Remove.{Remove};
ghost use Rattle.mls_group.specs.declared.required_capabilities.RequiredCapabilities.{RequiredCapabilities};
ghost use Rattle.mls_group.specs.declared.resumption_psk_usage.ResumptionPSKUsage.{ResumptionPSKUsage};
ghost use Rattle.mls_group.specs.declared.update.Update.{Update};
ghost use Rattle.mls_group.specs.declared.update_path.UpdatePath.{UpdatePath};
ghost use Rattle.mls_group.specs.declared.update_path_node.UpdatePathNode.{UpdatePathNode};
ghost use Rattle.mls_group.specs.declared.welcome.Welcome.{Welcome};
ghost use Rattle.mls_group.specs.ResumptionPSKUsage.{resumption_psk_usage_code, resumption_psk_usage_name};
ghost use Rattle.std.specs.Prelude.{◌≡◌};
ghost use Rattle.tls_presentation.specs.Says.{value_number};

use mls_group::{
    Add, Commit, EncryptedGroupSecrets, ExternalInit, ExternalPub, ExternalSender, ExternalSenders,
    GroupContext, GroupContextExtensions, GroupInfo, GroupInfoTBS, GroupSecrets, HPKECiphertext,
    KDFLabel, PSKLabel, PSKOrigin, PathSecret, PreSharedKey, PreSharedKeyID, Proposal,
    ProposalOrRef, ProtocolVersionMls10, ReInit, RefHashInput, Remove, RequiredCapabilities,
    ResumptionPSKUsage, Update, UpdatePath, UpdatePathNode, Welcome,
};
use tls_codec::Size;

/// `Add`.
pub fn add_is_as_printed()
    ensures bytes { (c : Tree) → SameBytes (means mls_group "Add" c) ⟦<Add as Size>⟧.format }
    ensures values { (v : Add) → SpelledAs ⟦<Add as Size>⟧.format (⟦<Add as Size>⟧.plain v)
        (AddSays v) }
{}

/// `Commit`.
pub fn commit_is_as_printed()
    ensures bytes { (c : Tree) → SameBytes (means mls_group "Commit" c)
        ⟦<Commit as Size>⟧.format }
    ensures values { (v : Commit) → SpelledAs ⟦<Commit as Size>⟧.format (⟦<Commit as Size>⟧.plain v)
        (CommitSays v) }
{}

/// `EncryptedGroupSecrets`.
pub fn encrypted_group_secrets_is_as_printed()
    ensures bytes { (c : Tree) → SameBytes (means mls_group "EncryptedGroupSecrets" c)
        ⟦<EncryptedGroupSecrets as Size>⟧.format }
    ensures values { (v : EncryptedGroupSecrets) →
        SpelledAs ⟦<EncryptedGroupSecrets as Size>⟧.format
        (⟦<EncryptedGroupSecrets as Size>⟧.plain v) (EncryptedGroupSecretsSays v) }
{}

/// `ExternalInit`.
pub fn external_init_is_as_printed()
    ensures bytes { (c : Tree) → SameBytes (means mls_group "ExternalInit" c)
        ⟦<ExternalInit as Size>⟧.format }
    ensures values { (v : ExternalInit) → SpelledAs ⟦<ExternalInit as Size>⟧.format
        (⟦<ExternalInit as Size>⟧.plain v) (ExternalInitSays v) }
{}

/// `ExternalPub`.
pub fn external_pub_is_as_printed()
    ensures bytes { (c : Tree) → SameBytes (means mls_group "ExternalPub" c)
        ⟦<ExternalPub as Size>⟧.format }
    ensures values { (v : ExternalPub) → SpelledAs ⟦<ExternalPub as Size>⟧.format
        (⟦<ExternalPub as Size>⟧.plain v) (ExternalPubSays v) }
{}

/// `ExternalSender`.
pub fn external_sender_is_as_printed()
    ensures bytes { (c : Tree) → SameBytes (means mls_group "ExternalSender" c)
        ⟦<ExternalSender as Size>⟧.format }
    ensures values { (v : ExternalSender) → SpelledAs ⟦<ExternalSender as Size>⟧.format
        (⟦<ExternalSender as Size>⟧.plain v) (ExternalSenderSays v) }
{}

/// `ExternalSenders`.
pub fn external_senders_is_as_printed()
    ensures bytes { (c : Tree) → SameBytes (means mls_group "ExternalSenders" c)
        ⟦<ExternalSenders as Size>⟧.format }
    ensures values { (v : ExternalSenders) → SpelledAs ⟦<ExternalSenders as Size>⟧.format
        (⟦<ExternalSenders as Size>⟧.plain v) (ExternalSendersSays v) }
{}

/// `GroupContext`.
pub fn group_context_is_as_printed()
    ensures bytes { (c : Tree) → SameBytes (means mls_group "GroupContext" c)
        ⟦<GroupContext as Size>⟧.format }
    ensures values { (v : GroupContext) → SpelledAs ⟦<GroupContext as Size>⟧.format
        (⟦<GroupContext as Size>⟧.plain v) (GroupContextSays v) }
{}

/// `GroupContextExtensions`.
pub fn group_context_extensions_is_as_printed()
    ensures bytes { (c : Tree) → SameBytes (means mls_group "GroupContextExtensions" c)
        ⟦<GroupContextExtensions as Size>⟧.format }
    ensures values { (v : GroupContextExtensions) →
        SpelledAs ⟦<GroupContextExtensions as Size>⟧.format
        (⟦<GroupContextExtensions as Size>⟧.plain v) (GroupContextExtensionsSays v) }
{}

/// `GroupInfo`.
pub fn group_info_is_as_printed()
    ensures bytes { (c : Tree) → SameBytes (means mls_group "GroupInfo" c)
        ⟦<GroupInfo as Size>⟧.format }
    ensures values { (v : GroupInfo) → SpelledAs ⟦<GroupInfo as Size>⟧.format
        (⟦<GroupInfo as Size>⟧.plain v) (GroupInfoSays v) }
{}

/// `GroupInfoTBS`.
pub fn group_info_tbs_is_as_printed()
    ensures bytes { (c : Tree) → SameBytes (means mls_group "GroupInfoTBS" c)
        ⟦<GroupInfoTBS<'static> as Size>⟧.format }
    ensures values { (v : GroupInfoTBS) → SpelledAs ⟦<GroupInfoTBS<'static> as Size>⟧.format
        (⟦<GroupInfoTBS<'static> as Size>⟧.plain v) (GroupInfoTBSSays v) }
{}

/// `GroupSecrets`.
pub fn group_secrets_is_as_printed()
    ensures bytes { (c : Tree) → SameBytes (means mls_group "GroupSecrets" c)
        ⟦<GroupSecrets as Size>⟧.format }
    ensures values { (v : GroupSecrets) → SpelledAs ⟦<GroupSecrets as Size>⟧.format
        (⟦<GroupSecrets as Size>⟧.plain v) (GroupSecretsSays v) }
{}

/// `HPKECiphertext`.
pub fn hpke_ciphertext_is_as_printed()
    ensures bytes { (c : Tree) → SameBytes (means mls_group "HPKECiphertext" c)
        ⟦<HPKECiphertext as Size>⟧.format }
    ensures values { (v : HPKECiphertext) → SpelledAs ⟦<HPKECiphertext as Size>⟧.format
        (⟦<HPKECiphertext as Size>⟧.plain v) (HPKECiphertextSays v) }
{}

/// `KDFLabel`.
pub fn kdf_label_is_as_printed()
    ensures bytes { (c : Tree) → SameBytes (means mls_group "KDFLabel" c)
        ⟦<KDFLabel<'static> as Size>⟧.format }
    ensures values { (v : KDFLabel) → SpelledAs ⟦<KDFLabel<'static> as Size>⟧.format
        (⟦<KDFLabel<'static> as Size>⟧.plain v) (KDFLabelSays v) }
{}

/// `PSKLabel`.
pub fn psk_label_is_as_printed()
    ensures bytes { (c : Tree) → SameBytes (means mls_group "PSKLabel" c)
        ⟦<PSKLabel<'static> as Size>⟧.format }
    ensures values { (v : PSKLabel) → SpelledAs ⟦<PSKLabel<'static> as Size>⟧.format
        (⟦<PSKLabel<'static> as Size>⟧.plain v) (PSKLabelSays v) }
{}

/// `PSKOrigin`.
pub fn psk_origin_is_as_printed()
    ensures bytes { (c : Tree) → SameBytes (part_means mls_group "PreSharedKeyID" "psktype" c)
        ⟦<PSKOrigin as Size>⟧.format }
    ensures values { (v : PSKOrigin) → SpelledAs ⟦<PSKOrigin as Size>⟧.format
        (⟦<PSKOrigin as Size>⟧.plain v) (PSKOriginSays v) }
{}

/// `PathSecret`.
pub fn path_secret_is_as_printed()
    ensures bytes { (c : Tree) → SameBytes (means mls_group "PathSecret" c)
        ⟦<PathSecret as Size>⟧.format }
    ensures values { (v : PathSecret) → SpelledAs ⟦<PathSecret as Size>⟧.format
        (⟦<PathSecret as Size>⟧.plain v) (PathSecretSays v) }
{}

/// `PreSharedKey`.
pub fn pre_shared_key_is_as_printed()
    ensures bytes { (c : Tree) → SameBytes (means mls_group "PreSharedKey" c)
        ⟦<PreSharedKey as Size>⟧.format }
    ensures values { (v : PreSharedKey) → SpelledAs ⟦<PreSharedKey as Size>⟧.format
        (⟦<PreSharedKey as Size>⟧.plain v) (PreSharedKeySays v) }
{}

/// `PreSharedKeyID`.
pub fn pre_shared_key_id_is_as_printed()
    ensures bytes { (c : Tree) → SameBytes (means mls_group "PreSharedKeyID" c)
        ⟦<PreSharedKeyID as Size>⟧.format }
    ensures values { (v : PreSharedKeyID) → SpelledAs ⟦<PreSharedKeyID as Size>⟧.format
        (⟦<PreSharedKeyID as Size>⟧.plain v) (PreSharedKeyIDSays v) }
{}

/// `Proposal`.
pub fn proposal_is_as_printed()
    ensures bytes { (c : Tree) → SameBytes (means mls_group "Proposal" c)
        ⟦<Proposal as Size>⟧.format }
    ensures values { (v : Proposal) → SpelledAs ⟦<Proposal as Size>⟧.format
        (⟦<Proposal as Size>⟧.plain v) (ProposalSays v) }
{}

/// `ProposalOrRef`.
pub fn proposal_or_ref_is_as_printed()
    ensures bytes { (c : Tree) → SameBytes (means mls_group "ProposalOrRef" c)
        ⟦<ProposalOrRef as Size>⟧.format }
    ensures values { (v : ProposalOrRef) → SpelledAs ⟦<ProposalOrRef as Size>⟧.format
        (⟦<ProposalOrRef as Size>⟧.plain v) (ProposalOrRefSays v) }
{}

/// `ProtocolVersionMls10`.
pub fn protocol_version_mls10_is_as_printed()
    ensures bytes { (c : Tree) → SameBytes (part_means mls_group "GroupContext" "version" c)
        ⟦<ProtocolVersionMls10 as Size>⟧.format }
    ensures values { (v : ProtocolVersionMls10) → SpelledAs ⟦<ProtocolVersionMls10 as Size>⟧.format
        (⟦<ProtocolVersionMls10 as Size>⟧.plain v) (ProtocolVersionMls10Says v) }
{}

/// `ReInit`.
pub fn re_init_is_as_printed()
    ensures bytes { (c : Tree) → SameBytes (means mls_group "ReInit" c)
        ⟦<ReInit as Size>⟧.format }
    ensures values { (v : ReInit) → SpelledAs ⟦<ReInit as Size>⟧.format (⟦<ReInit as Size>⟧.plain v)
        (ReInitSays v) }
{}

/// `RefHashInput`.
pub fn ref_hash_input_is_as_printed()
    ensures bytes { (c : Tree) → SameBytes (means mls_group "RefHashInput" c)
        ⟦<RefHashInput<'static> as Size>⟧.format }
    ensures values { (v : RefHashInput) → SpelledAs ⟦<RefHashInput<'static> as Size>⟧.format
        (⟦<RefHashInput<'static> as Size>⟧.plain v) (RefHashInputSays v) }
{}

/// `Remove`.
pub fn remove_is_as_printed()
    ensures bytes { (c : Tree) → SameBytes (means mls_group "Remove" c)
        ⟦<Remove as Size>⟧.format }
    ensures values { (v : Remove) → SpelledAs ⟦<Remove as Size>⟧.format (⟦<Remove as Size>⟧.plain v)
        (RemoveSays v) }
{}

/// `RequiredCapabilities`.
pub fn required_capabilities_is_as_printed()
    ensures bytes { (c : Tree) → SameBytes (means mls_group "RequiredCapabilities" c)
        ⟦<RequiredCapabilities as Size>⟧.format }
    ensures values { (v : RequiredCapabilities) → SpelledAs ⟦<RequiredCapabilities as Size>⟧.format
        (⟦<RequiredCapabilities as Size>⟧.plain v) (RequiredCapabilitiesSays v) }
{}

/// `ResumptionPSKUsage`.
pub fn resumption_psk_usage_is_as_printed()
    ensures bytes { (c : Tree) → SameBytes (means mls_group "ResumptionPSKUsage" c)
        ⟦<ResumptionPSKUsage as Size>⟧.format }
    ensures values { (v : ResumptionPSKUsage) → SpelledAs ⟦<ResumptionPSKUsage as Size>⟧.format
        (⟦<ResumptionPSKUsage as Size>⟧.plain v) (ResumptionPSKUsageSays v) }
    ensures names { (v : ResumptionPSKUsage) → value_number mls_group "ResumptionPSKUsage"
        (resumption_psk_usage_name v) ≡ resumption_psk_usage_code v }
{}

/// `Update`.
pub fn update_is_as_printed()
    ensures bytes { (c : Tree) → SameBytes (means mls_group "Update" c)
        ⟦<Update as Size>⟧.format }
    ensures values { (v : Update) → SpelledAs ⟦<Update as Size>⟧.format (⟦<Update as Size>⟧.plain v)
        (UpdateSays v) }
{}

/// `UpdatePath`.
pub fn update_path_is_as_printed()
    ensures bytes { (c : Tree) → SameBytes (means mls_group "UpdatePath" c)
        ⟦<UpdatePath as Size>⟧.format }
    ensures values { (v : UpdatePath) → SpelledAs ⟦<UpdatePath as Size>⟧.format
        (⟦<UpdatePath as Size>⟧.plain v) (UpdatePathSays v) }
{}

/// `UpdatePathNode`.
pub fn update_path_node_is_as_printed()
    ensures bytes { (c : Tree) → SameBytes (means mls_group "UpdatePathNode" c)
        ⟦<UpdatePathNode as Size>⟧.format }
    ensures values { (v : UpdatePathNode) → SpelledAs ⟦<UpdatePathNode as Size>⟧.format
        (⟦<UpdatePathNode as Size>⟧.plain v) (UpdatePathNodeSays v) }
{}

/// `Welcome`.
pub fn welcome_is_as_printed()
    ensures bytes { (c : Tree) → SameBytes (means mls_group "Welcome" c)
        ⟦<Welcome as Size>⟧.format }
    ensures values { (v : Welcome) → SpelledAs ⟦<Welcome as Size>⟧.format
        (⟦<Welcome as Size>⟧.plain v) (WelcomeSays v) }
{}
