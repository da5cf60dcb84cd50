//! Each type of `mls_tree` has the bytes that its text means.
//! Each value's bytes are those of its parts, by their names.
ghost use Rattle.tls_codec_grammar.specs.Tree.{Tree};
ghost use Rattle.tls_presentation.specs.Meaning.{SameBytes, means, part_means};
ghost use Rattle.tls_presentation.specs.Says.{SpelledAs};
ghost use Rattle.mls_tree_laws.specs.Definitions.{mls_tree};
ghost use Rattle.mls_tree_laws.specs.Says.{CapabilitiesSays, CertificateSays, CipherSuiteSays, CredentialSays, CredentialTypeSays, EncryptContextSays, ExtensionSays, ExtensionTypeSays, KeyPackageSays, KeyPackageTBSSays, LeafNodeSays, LeafNodeHashInputSays, LeafNodeOriginSays, LeafNodeTBSSays, LeafNodeTBSOriginSays, LifetimeSays, NodeSays, ParentHashInputSays, ParentNodeSays, ParentNodeHashInputSays, ProposalTypeSays, ProtocolVersionSays, RatchetTreeSays, SignContentSays, TreeHashInputSays};
ghost use Rattle.mls_tree.specs.declared.capabilities.Capabilities.{Capabilities};
ghost use Rattle.mls_tree.specs.declared.certificate.Certificate.{Certificate};
ghost use Rattle.mls_tree.specs.declared.cipher_suite.CipherSuite.{CipherSuite};
ghost use Rattle.mls_tree.specs.declared.credential.Credential.{Credential};
ghost use Rattle.mls_tree.specs.declared.credential_type.CredentialType.{CredentialType};
ghost use Rattle.mls_tree.specs.declared.encrypt_context.EncryptContext.{EncryptContext};
ghost use Rattle.mls_tree.specs.declared.extension.Extension.{Extension};
ghost use Rattle.mls_tree.specs.declared.extension_type.ExtensionType.{ExtensionType};
ghost use Rattle.mls_tree.specs.declared.key_package.KeyPackage.{KeyPackage};
ghost use Rattle.mls_tree.specs.declared.key_package_tbs.KeyPackageTBS.{KeyPackageTBS};
ghost use Rattle.mls_tree.specs.declared.leaf_node.LeafNode.{LeafNode};
ghost use Rattle.mls_tree.specs.declared.leaf_node_hash_input.LeafNodeHashInput.{LeafNodeHashInput};
ghost use Rattle.mls_tree.specs.declared.leaf_node_origin.LeafNodeOrigin.{LeafNodeOrigin};
ghost use Rattle.mls_tree.specs.declared.leaf_node_tbs.LeafNodeTBS.{LeafNodeTBS};
ghost use Rattle.mls_tree.specs.declared.leaf_node_tbs_origin.LeafNodeTBSOrigin.{LeafNodeTBSOrigin};
ghost use Rattle.mls_tree.specs.declared.lifetime.Lifetime.{Lifetime};
ghost use Rattle.mls_tree.specs.declared.node.Node.{Node};
ghost use Rattle.mls_tree.specs.declared.parent_hash_input.ParentHashInput.{ParentHashInput};
ghost use Rattle.mls_tree.specs.declared.parent_node.ParentNode.{ParentNode};
ghost use Rattle.mls_tree.specs.declared.parent_node_hash_input.ParentNodeHashInput.{ParentNodeHashInput};
ghost use Rattle.mls_tree.specs.declared.proposal_type.ProposalType.{ProposalType};
ghost use Rattle.mls_tree.specs.declared.protocol_version.ProtocolVersion.{ProtocolVersion};
ghost use Rattle.mls_tree.specs.declared.ratchet_tree.RatchetTree.{RatchetTree};
ghost use Rattle.mls_tree.specs.declared.sign_content.SignContent.{SignContent};
ghost use Rattle.mls_tree.specs.declared.tree_hash_input.TreeHashInput.{TreeHashInput};
ghost use Rattle.mls_tree.specs.CipherSuite.{cipher_suite_names};
ghost use Rattle.mls_tree.specs.CredentialType.{credential_type_names};
ghost use Rattle.mls_tree.specs.ExtensionType.{extension_type_names};
ghost use Rattle.mls_tree.specs.ProposalType.{proposal_type_names};
ghost use Rattle.mls_tree.specs.ProtocolVersion.{protocol_version_names};
ghost use Rattle.std.specs.Prelude.{◌≡◌};
ghost use Rattle.tls_presentation.specs.Says.{names_in};

use mls_tree::{
    Capabilities, Certificate, CipherSuite, Credential, CredentialType, EncryptContext, Extension,
    ExtensionType, KeyPackage, KeyPackageTBS, LeafNode, LeafNodeHashInput, LeafNodeOrigin,
    LeafNodeTBS, LeafNodeTBSOrigin, Lifetime, Node, ParentHashInput, ParentNode,
    ParentNodeHashInput, ProposalType, ProtocolVersion, RatchetTree, SignContent, TreeHashInput,
};
use tls_codec::Size;

/// `Capabilities`.
pub fn capabilities_is_as_printed()
    ensures bytes { (c : Tree) → SameBytes (means mls_tree "Capabilities" c)
        ⟦<Capabilities as Size>⟧.format }
    ensures values { (v : Capabilities) → SpelledAs ⟦<Capabilities as Size>⟧.format
        (⟦<Capabilities as Size>⟧.plain v) (CapabilitiesSays v) }
{}

/// `Certificate`.
pub fn certificate_is_as_printed()
    ensures bytes { (c : Tree) → SameBytes (means mls_tree "Certificate" c)
        ⟦<Certificate as Size>⟧.format }
    ensures values { (v : Certificate) → SpelledAs ⟦<Certificate as Size>⟧.format
        (⟦<Certificate as Size>⟧.plain v) (CertificateSays v) }
{}

/// `CipherSuite`.
pub fn cipher_suite_is_as_printed()
    ensures bytes { (c : Tree) → SameBytes (means mls_tree "CipherSuite" c)
        ⟦<CipherSuite as Size>⟧.format }
    ensures values { (v : CipherSuite) → SpelledAs ⟦<CipherSuite as Size>⟧.format
        (⟦<CipherSuite as Size>⟧.plain v) (CipherSuiteSays v) }
    ensures names { cipher_suite_names ≡ names_in mls_tree "CipherSuite" }
{}

/// `Credential`.
pub fn credential_is_as_printed()
    ensures bytes { (c : Tree) → SameBytes (means mls_tree "Credential" c)
        ⟦<Credential as Size>⟧.format }
    ensures values { (v : Credential) → SpelledAs ⟦<Credential as Size>⟧.format
        (⟦<Credential as Size>⟧.plain v) (CredentialSays v) }
{}

/// `CredentialType`.
pub fn credential_type_is_as_printed()
    ensures bytes { (c : Tree) → SameBytes (means mls_tree "CredentialType" c)
        ⟦<CredentialType as Size>⟧.format }
    ensures values { (v : CredentialType) → SpelledAs ⟦<CredentialType as Size>⟧.format
        (⟦<CredentialType as Size>⟧.plain v) (CredentialTypeSays v) }
    ensures names { credential_type_names ≡ names_in mls_tree "CredentialType" }
{}

/// `EncryptContext`.
pub fn encrypt_context_is_as_printed()
    ensures bytes { (c : Tree) → SameBytes (means mls_tree "EncryptContext" c)
        ⟦<EncryptContext<'static> as Size>⟧.format }
    ensures values { (v : EncryptContext) → SpelledAs ⟦<EncryptContext<'static> as Size>⟧.format
        (⟦<EncryptContext<'static> as Size>⟧.plain v) (EncryptContextSays v) }
{}

/// `Extension`.
pub fn extension_is_as_printed()
    ensures bytes { (c : Tree) → SameBytes (means mls_tree "Extension" c)
        ⟦<Extension as Size>⟧.format }
    ensures values { (v : Extension) → SpelledAs ⟦<Extension as Size>⟧.format
        (⟦<Extension as Size>⟧.plain v) (ExtensionSays v) }
{}

/// `ExtensionType`.
pub fn extension_type_is_as_printed()
    ensures bytes { (c : Tree) → SameBytes (means mls_tree "ExtensionType" c)
        ⟦<ExtensionType as Size>⟧.format }
    ensures values { (v : ExtensionType) → SpelledAs ⟦<ExtensionType as Size>⟧.format
        (⟦<ExtensionType as Size>⟧.plain v) (ExtensionTypeSays v) }
    ensures names { extension_type_names ≡ names_in mls_tree "ExtensionType" }
{}

/// `KeyPackage`.
pub fn key_package_is_as_printed()
    ensures bytes { (c : Tree) → SameBytes (means mls_tree "KeyPackage" c)
        ⟦<KeyPackage as Size>⟧.format }
    ensures values { (v : KeyPackage) → SpelledAs ⟦<KeyPackage as Size>⟧.format
        (⟦<KeyPackage as Size>⟧.plain v) (KeyPackageSays v) }
{}

/// `KeyPackageTBS`.
pub fn key_package_tbs_is_as_printed()
    ensures bytes { (c : Tree) → SameBytes (means mls_tree "KeyPackageTBS" c)
        ⟦<KeyPackageTBS<'static> as Size>⟧.format }
    ensures values { (v : KeyPackageTBS) → SpelledAs ⟦<KeyPackageTBS<'static> as Size>⟧.format
        (⟦<KeyPackageTBS<'static> as Size>⟧.plain v) (KeyPackageTBSSays v) }
{}

/// `LeafNode`.
pub fn leaf_node_is_as_printed()
    ensures bytes { (c : Tree) → SameBytes (means mls_tree "LeafNode" c)
        ⟦<LeafNode as Size>⟧.format }
    ensures values { (v : LeafNode) → SpelledAs ⟦<LeafNode as Size>⟧.format
        (⟦<LeafNode as Size>⟧.plain v) (LeafNodeSays v) }
{}

/// `LeafNodeHashInput`.
pub fn leaf_node_hash_input_is_as_printed()
    ensures bytes { (c : Tree) → SameBytes (means mls_tree "LeafNodeHashInput" c)
        ⟦<LeafNodeHashInput as Size>⟧.format }
    ensures values { (v : LeafNodeHashInput) → SpelledAs ⟦<LeafNodeHashInput as Size>⟧.format
        (⟦<LeafNodeHashInput as Size>⟧.plain v) (LeafNodeHashInputSays v) }
{}

/// `LeafNodeOrigin`.
pub fn leaf_node_origin_is_as_printed()
    ensures bytes { (c : Tree) → SameBytes (part_means mls_tree "LeafNode" "leaf_node_source" c)
        ⟦<LeafNodeOrigin as Size>⟧.format }
    ensures values { (v : LeafNodeOrigin) → SpelledAs ⟦<LeafNodeOrigin as Size>⟧.format
        (⟦<LeafNodeOrigin as Size>⟧.plain v) (LeafNodeOriginSays v) }
{}

/// `LeafNodeTBS`.
pub fn leaf_node_tbs_is_as_printed()
    ensures bytes { (c : Tree) → SameBytes (means mls_tree "LeafNodeTBS" c)
        ⟦<LeafNodeTBS<'static> as Size>⟧.format }
    ensures values { (v : LeafNodeTBS) → SpelledAs ⟦<LeafNodeTBS<'static> as Size>⟧.format
        (⟦<LeafNodeTBS<'static> as Size>⟧.plain v) (LeafNodeTBSSays v) }
{}

/// `LeafNodeTBSOrigin`.
pub fn leaf_node_tbs_origin_is_as_printed()
    ensures bytes { (c : Tree) → SameBytes (part_means mls_tree "LeafNodeTBS" "leaf_node_source" c)
        ⟦<LeafNodeTBSOrigin<'static> as Size>⟧.format }
    ensures values { (v : LeafNodeTBSOrigin) →
        SpelledAs ⟦<LeafNodeTBSOrigin<'static> as Size>⟧.format
        (⟦<LeafNodeTBSOrigin<'static> as Size>⟧.plain v) (LeafNodeTBSOriginSays v) }
{}

/// `Lifetime`.
pub fn lifetime_is_as_printed()
    ensures bytes { (c : Tree) → SameBytes (means mls_tree "Lifetime" c)
        ⟦<Lifetime as Size>⟧.format }
    ensures values { (v : Lifetime) → SpelledAs ⟦<Lifetime as Size>⟧.format
        (⟦<Lifetime as Size>⟧.plain v) (LifetimeSays v) }
{}

/// `Node`.
pub fn node_is_as_printed()
    ensures bytes { (c : Tree) → SameBytes (means mls_tree "Node" c) ⟦<Node as Size>⟧.format }
    ensures values { (v : Node) → SpelledAs ⟦<Node as Size>⟧.format (⟦<Node as Size>⟧.plain v)
        (NodeSays v) }
{}

/// `ParentHashInput`.
pub fn parent_hash_input_is_as_printed()
    ensures bytes { (c : Tree) → SameBytes (means mls_tree "ParentHashInput" c)
        ⟦<ParentHashInput<'static> as Size>⟧.format }
    ensures values { (v : ParentHashInput) → SpelledAs ⟦<ParentHashInput<'static> as Size>⟧.format
        (⟦<ParentHashInput<'static> as Size>⟧.plain v) (ParentHashInputSays v) }
{}

/// `ParentNode`.
pub fn parent_node_is_as_printed()
    ensures bytes { (c : Tree) → SameBytes (means mls_tree "ParentNode" c)
        ⟦<ParentNode as Size>⟧.format }
    ensures values { (v : ParentNode) → SpelledAs ⟦<ParentNode as Size>⟧.format
        (⟦<ParentNode as Size>⟧.plain v) (ParentNodeSays v) }
{}

/// `ParentNodeHashInput`.
pub fn parent_node_hash_input_is_as_printed()
    ensures bytes { (c : Tree) → SameBytes (means mls_tree "ParentNodeHashInput" c)
        ⟦<ParentNodeHashInput as Size>⟧.format }
    ensures values { (v : ParentNodeHashInput) → SpelledAs ⟦<ParentNodeHashInput as Size>⟧.format
        (⟦<ParentNodeHashInput as Size>⟧.plain v) (ParentNodeHashInputSays v) }
{}

/// `ProposalType`.
pub fn proposal_type_is_as_printed()
    ensures bytes { (c : Tree) → SameBytes (means mls_tree "ProposalType" c)
        ⟦<ProposalType as Size>⟧.format }
    ensures values { (v : ProposalType) → SpelledAs ⟦<ProposalType as Size>⟧.format
        (⟦<ProposalType as Size>⟧.plain v) (ProposalTypeSays v) }
    ensures names { proposal_type_names ≡ names_in mls_tree "ProposalType" }
{}

/// `ProtocolVersion`.
pub fn protocol_version_is_as_printed()
    ensures bytes { (c : Tree) → SameBytes (means mls_tree "ProtocolVersion" c)
        ⟦<ProtocolVersion as Size>⟧.format }
    ensures values { (v : ProtocolVersion) → SpelledAs ⟦<ProtocolVersion as Size>⟧.format
        (⟦<ProtocolVersion as Size>⟧.plain v) (ProtocolVersionSays v) }
    ensures names { protocol_version_names ≡ names_in mls_tree "ProtocolVersion" }
{}

/// `RatchetTree`.
pub fn ratchet_tree_is_as_printed()
    ensures bytes { (c : Tree) → SameBytes (means mls_tree "RatchetTree" c)
        ⟦<RatchetTree as Size>⟧.format }
    ensures values { (v : RatchetTree) → SpelledAs ⟦<RatchetTree as Size>⟧.format
        (⟦<RatchetTree as Size>⟧.plain v) (RatchetTreeSays v) }
{}

/// `SignContent`.
pub fn sign_content_is_as_printed()
    ensures bytes { (c : Tree) → SameBytes (means mls_tree "SignContent" c)
        ⟦<SignContent<'static> as Size>⟧.format }
    ensures values { (v : SignContent) → SpelledAs ⟦<SignContent<'static> as Size>⟧.format
        (⟦<SignContent<'static> as Size>⟧.plain v) (SignContentSays v) }
{}

/// `TreeHashInput`.
pub fn tree_hash_input_is_as_printed()
    ensures bytes { (c : Tree) → SameBytes (means mls_tree "TreeHashInput" c)
        ⟦<TreeHashInput as Size>⟧.format }
    ensures values { (v : TreeHashInput) → SpelledAs ⟦<TreeHashInput as Size>⟧.format
        (⟦<TreeHashInput as Size>⟧.plain v) (TreeHashInputSays v) }
{}
