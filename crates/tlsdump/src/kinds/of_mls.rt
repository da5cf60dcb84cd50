//! Messages of MLS (RFC 9420).
ghost use Rattle.std.specs.Prelude.{◌≡◌, None};
ghost use Rattle.tlsdump.specs.Kinds.{Checks, FirstNamed};
ghost use Rattle.tlsdump.specs.MlsKinds.{mls_kinds};

use crate::kinds::{Checked, validated};
use mls::{
    AuthenticatedContent, FramedContent, MLSMessage, PrivateMessage, PublicMessage, Sender,
    SenderData,
};
use mls_group::{
    Add, Commit, EncryptedGroupSecrets, ExternalInit, ExternalPub, ExternalSender, ExternalSenders,
    GroupContext, GroupContextExtensions, GroupInfo, GroupSecrets, HPKECiphertext, PathSecret,
    PreSharedKey, PreSharedKeyID, Proposal, ProposalOrRef, ReInit, Remove, RequiredCapabilities,
    Update, UpdatePath, UpdatePathNode, Welcome,
};
use mls_tree::{
    Capabilities, Certificate, Credential, Extension, KeyPackage, LeafNode, LeafNodeHashInput,
    Lifetime, Node, ParentNode, ParentNodeHashInput, RatchetTree, TreeHashInput,
};

/// The bytes after the message of this type that `bytes` begins with, or why there is none. `None`:
/// no type has the name.
pub fn check<'a>(name: &str, bytes: &'a [u8]) -> Option<Checked<'a>>
    ensures { FirstNamed mls_kinds name.now (λ k. Checks k.format bytes.now result)
        (result ≡ None) }
{
    match name {
        "Add" => validated::<Add>(bytes),
        "AuthenticatedContent" => validated::<AuthenticatedContent>(bytes),
        "Capabilities" => validated::<Capabilities>(bytes),
        "Certificate" => validated::<Certificate>(bytes),
        "Commit" => validated::<Commit>(bytes),
        "Credential" => validated::<Credential>(bytes),
        "EncryptedGroupSecrets" => validated::<EncryptedGroupSecrets>(bytes),
        "Extension" => validated::<Extension>(bytes),
        "ExternalInit" => validated::<ExternalInit>(bytes),
        "ExternalPub" => validated::<ExternalPub>(bytes),
        "ExternalSender" => validated::<ExternalSender>(bytes),
        "ExternalSenders" => validated::<ExternalSenders>(bytes),
        "FramedContent" => validated::<FramedContent>(bytes),
        "GroupContext" => validated::<GroupContext>(bytes),
        "GroupContextExtensions" => validated::<GroupContextExtensions>(bytes),
        "GroupInfo" => validated::<GroupInfo>(bytes),
        "GroupSecrets" => validated::<GroupSecrets>(bytes),
        "HPKECiphertext" => validated::<HPKECiphertext>(bytes),
        "KeyPackage" => validated::<KeyPackage>(bytes),
        "LeafNode" => validated::<LeafNode>(bytes),
        "LeafNodeHashInput" => validated::<LeafNodeHashInput>(bytes),
        "Lifetime" => validated::<Lifetime>(bytes),
        "MLSMessage" => validated::<MLSMessage>(bytes),
        "Node" => validated::<Node>(bytes),
        "ParentNode" => validated::<ParentNode>(bytes),
        "ParentNodeHashInput" => validated::<ParentNodeHashInput>(bytes),
        "PathSecret" => validated::<PathSecret>(bytes),
        "PreSharedKey" => validated::<PreSharedKey>(bytes),
        "PreSharedKeyID" => validated::<PreSharedKeyID>(bytes),
        "PrivateMessage" => validated::<PrivateMessage>(bytes),
        "Proposal" => validated::<Proposal>(bytes),
        "ProposalOrRef" => validated::<ProposalOrRef>(bytes),
        "PublicMessage" => validated::<PublicMessage>(bytes),
        "RatchetTree" => validated::<RatchetTree>(bytes),
        "ReInit" => validated::<ReInit>(bytes),
        "Remove" => validated::<Remove>(bytes),
        "RequiredCapabilities" => validated::<RequiredCapabilities>(bytes),
        "Sender" => validated::<Sender>(bytes),
        "SenderData" => validated::<SenderData>(bytes),
        "TreeHashInput" => validated::<TreeHashInput>(bytes),
        "Update" => validated::<Update>(bytes),
        "UpdatePath" => validated::<UpdatePath>(bytes),
        "UpdatePathNode" => validated::<UpdatePathNode>(bytes),
        "Welcome" => validated::<Welcome>(bytes),
        _ => None,
    }
}
