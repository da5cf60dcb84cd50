//! Messages of MLS (RFC 9420): framing. Written by `tlsgen`.
#![tactic(auto)]

pub mod authenticated_content;
pub mod authenticated_content_tbm;
pub mod confirmed_transcript_hash_input;
pub mod content_type;
pub mod framed_content;
pub mod framed_content_auth_data;
pub mod framed_content_body;
pub mod framed_content_tbs;
pub mod interim_transcript_hash_input;
pub mod mls_message;
pub mod mls_message_body;
pub mod private_content;
pub mod private_content_aad;
pub mod private_message;
pub mod private_message_content;
pub mod public_message;
pub mod sender;
pub mod sender_data;
pub mod sender_data_aad;
pub mod sender_type;
pub mod wire_format;

pub use authenticated_content::AuthenticatedContent;
pub use authenticated_content_tbm::AuthenticatedContentTBM;
pub use confirmed_transcript_hash_input::ConfirmedTranscriptHashInput;
pub use content_type::ContentType;
pub use framed_content::{FramedContent, FramedContentView};
pub use framed_content_auth_data::FramedContentAuthData;
pub use framed_content_body::{FramedContentBody, FramedContentBodyView};
pub use framed_content_tbs::FramedContentTBS;
pub use interim_transcript_hash_input::InterimTranscriptHashInput;
pub use mls_group::{
    Add, Commit, EncryptedGroupSecrets, ExternalInit, ExternalPub, ExternalSender, ExternalSenders,
    GroupContext, GroupContextExtensions, GroupInfo, GroupInfoTBS, GroupSecrets, HPKECiphertext,
    HashReference, KDFLabel, KeyPackageRef, MAC, PSKLabel, PSKOrigin, PathSecret, PreSharedKey,
    PreSharedKeyID, Proposal, ProposalOrRef, ProposalRef, ProtocolVersionMls10, ReInit,
    RefHashInput, Remove, RequiredCapabilities, ResumptionPSKUsage, Update, UpdatePath,
    UpdatePathNode, Welcome,
};
pub use mls_message::{MLSMessage, MLSMessageView};
pub use mls_message_body::{MLSMessageBody, MLSMessageBodyView};
pub use mls_tree::{
    Capabilities, Certificate, CipherSuite, Credential, CredentialType, EncryptContext, Extension,
    ExtensionType, HPKEPublicKey, KeyPackage, KeyPackageTBS, LeafNode, LeafNodeHashInput,
    LeafNodeOrigin, LeafNodeTBS, LeafNodeTBSOrigin, Lifetime, Node, ParentHashInput, ParentNode,
    ParentNodeHashInput, ProposalType, ProtocolVersion, RatchetTree, SignContent,
    SignaturePublicKey, TreeHashInput,
};
pub use private_content::PrivateContent;
pub use private_content_aad::PrivateContentAAD;
pub use private_message::{PrivateMessage, PrivateMessageView};
pub use private_message_content::PrivateMessageContent;
pub use public_message::PublicMessage;
pub use sender::{Sender, SenderView};
pub use sender_data::{SenderData, SenderDataView};
pub use sender_data_aad::SenderDataAAD;
pub use sender_type::SenderType;
pub use wire_format::WireFormat;
