//! Where the fields of messages of MLS are, found without allocation.
//!
//! Call these only for bytes that were validated: for others nothing is said of the spans. `mls_c`
//! does both.
#![tactic(auto)]

mod commit;
mod framed_content;
mod group_context;
mod group_info;
mod group_secrets;
mod key_package;
mod leaf_node;
mod mls_message;
mod private_message;
mod proposal;
mod public_message;
mod sender_data;
mod welcome;
mod wire_format;

pub use commit::CommitFields;
pub use framed_content::FramedContentFields;
pub use group_context::GroupContextFields;
pub use group_info::GroupInfoFields;
pub use group_secrets::GroupSecretsFields;
pub use key_package::KeyPackageFields;
pub use leaf_node::LeafNodeFields;
pub use mls_message::MLSMessageFields;
pub use private_message::PrivateMessageFields;
pub use proposal::ProposalFields;
pub use public_message::PublicMessageFields;
pub use sender_data::SenderDataFields;
pub use welcome::WelcomeFields;
pub use wire_format::wire_format_of;
