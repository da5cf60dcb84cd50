//! Messages of MLS (RFC 9420): proposals, commits, the group and what a new member is sent. Written by `tlsgen`.
#![tactic(auto)]

pub mod add;
pub mod commit;
pub mod encrypted_group_secrets;
pub mod external_init;
pub mod external_pub;
pub mod external_sender;
pub mod external_senders;
pub mod group_context;
pub mod group_context_extensions;
pub mod group_info;
pub mod group_info_tbs;
pub mod group_secrets;
pub mod hpke_ciphertext;
pub mod kdf_label;
pub mod names;
pub mod path_secret;
pub mod pre_shared_key;
pub mod pre_shared_key_id;
pub mod proposal;
pub mod proposal_or_ref;
pub mod protocol_version_mls10;
pub mod psk_label;
pub mod psk_origin;
pub mod re_init;
pub mod ref_hash_input;
pub mod remove;
pub mod required_capabilities;
pub mod resumption_psk_usage;
pub mod update;
pub mod update_path;
pub mod update_path_node;
pub mod welcome;

pub use add::{Add, AddView};
pub use commit::{Commit, CommitView};
pub use encrypted_group_secrets::{EncryptedGroupSecrets, EncryptedGroupSecretsView};
pub use external_init::{ExternalInit, ExternalInitView};
pub use external_pub::{ExternalPub, ExternalPubView};
pub use external_sender::{ExternalSender, ExternalSenderView};
pub use external_senders::{ExternalSenders, ExternalSendersView};
pub use group_context::{GroupContext, GroupContextView};
pub use group_context_extensions::{GroupContextExtensions, GroupContextExtensionsView};
pub use group_info::{GroupInfo, GroupInfoView};
pub use group_info_tbs::GroupInfoTBS;
pub use group_secrets::{GroupSecrets, GroupSecretsView};
pub use hpke_ciphertext::{HPKECiphertext, HPKECiphertextView};
pub use kdf_label::KDFLabel;
pub use mls_tree::{
    Capabilities, Certificate, CipherSuite, Credential, CredentialType, EncryptContext, Extension,
    ExtensionType, HPKEPublicKey, KeyPackage, KeyPackageTBS, LeafNode, LeafNodeHashInput,
    LeafNodeOrigin, LeafNodeTBS, LeafNodeTBSOrigin, Lifetime, Node, ParentHashInput, ParentNode,
    ParentNodeHashInput, ProposalType, ProtocolVersion, RatchetTree, SignContent,
    SignaturePublicKey, TreeHashInput,
};
pub use names::{HashReference, KeyPackageRef, MAC, ProposalRef};
pub use path_secret::{PathSecret, PathSecretView};
pub use pre_shared_key::{PreSharedKey, PreSharedKeyView};
pub use pre_shared_key_id::{PreSharedKeyID, PreSharedKeyIDView};
pub use proposal::{Proposal, ProposalView};
pub use proposal_or_ref::{ProposalOrRef, ProposalOrRefView};
pub use protocol_version_mls10::ProtocolVersionMls10;
pub use psk_label::PSKLabel;
pub use psk_origin::{PSKOrigin, PSKOriginView};
pub use re_init::{ReInit, ReInitView};
pub use ref_hash_input::RefHashInput;
pub use remove::{Remove, RemoveView};
pub use required_capabilities::{RequiredCapabilities, RequiredCapabilitiesView};
pub use resumption_psk_usage::ResumptionPSKUsage;
pub use update::{Update, UpdateView};
pub use update_path::{UpdatePath, UpdatePathView};
pub use update_path_node::{UpdatePathNode, UpdatePathNodeView};
pub use welcome::{Welcome, WelcomeView};
