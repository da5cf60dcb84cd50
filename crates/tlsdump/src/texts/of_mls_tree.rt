//! `mls_tree.tls` and `mls_tree.notes`, as tools/check_texts.py copies them.

pub static TEXT: &str =
    "// Messages of MLS (RFC 9420): credentials, leaf nodes, key packages and the tree. Definitions are in the order of the
// RFC's sections, under its names.
// ---- section 5.1, cipher suites. They are a registry (section 17.1): numbers without a name are kept.
uint16 CipherSuite;
// ---- section 5.1.1, public keys
opaque HPKEPublicKey<V>;
opaque SignaturePublicKey<V>;
// ---- section 5.1.2, signing
struct {
opaque label<V>;
opaque content<V>;
} SignContent;
// ---- section 5.1.3, public key encryption
struct {
opaque label<V>;
opaque context<V>;
} EncryptContext;
// ---- section 5.3, credentials. Their types are a registry (section 17.5).
uint16 CredentialType;
struct {
opaque cert_data<V>;
} Certificate;
struct {
CredentialType credential_type;
select (Credential.credential_type) {
case basic:
opaque identity<V>;
case x509:
Certificate certificates<V>;
};
} Credential;
// ---- section 6, here since capabilities and key packages name it. Versions of a later protocol are kept in lists.
enum {
reserved(0),
mls10(1),
(65535)
} ProtocolVersion;
// ---- section 7.1, parent nodes
struct {
HPKEPublicKey encryption_key;
opaque parent_hash<V>;
uint32 unmerged_leaves<V>;
} ParentNode;
// ---- section 7.2, leaf nodes
enum {
reserved(0),
key_package(1),
update(2),
commit(3),
(255)
} LeafNodeSource;
// ---- section 17.3, here since capabilities name it
uint16 ExtensionType;
// ---- section 17.4, likewise
uint16 ProposalType;
// ---- section 7.2, leaf nodes again
struct {
ProtocolVersion versions<V>;
CipherSuite cipher_suites<V>;
ExtensionType extensions<V>;
ProposalType proposals<V>;
CredentialType credentials<V>;
} Capabilities;
struct {
uint64 not_before;
uint64 not_after;
} Lifetime;
struct {
ExtensionType extension_type;
opaque extension_data<V>;
} Extension;
struct {
HPKEPublicKey encryption_key;
SignaturePublicKey signature_key;
Credential credential;
Capabilities capabilities;
LeafNodeSource leaf_node_source;
select (LeafNode.leaf_node_source) {
case key_package:
Lifetime lifetime;
case update:
struct{};
case commit:
opaque parent_hash<V>;
} LeafNodeOrigin;
Extension extensions<V>;
/* SignWithLabel(., \"LeafNodeTBS\", LeafNodeTBS) */
opaque signature<V>;
} LeafNode;
// What the signature of a leaf node is over. Its second select is on a tag that was read earlier.
struct {
HPKEPublicKey encryption_key;
SignaturePublicKey signature_key;
Credential credential;
Capabilities capabilities;
LeafNodeSource leaf_node_source;
select (LeafNodeTBS.leaf_node_source) {
case key_package:
Lifetime lifetime;
case update:
struct{};
case commit:
opaque parent_hash<V>;
} LeafNodeTBSOrigin;
Extension extensions<V>;
select (LeafNodeTBS.leaf_node_source) {
case key_package:
struct{};
case update:
opaque group_id<V>;
uint32 leaf_index;
case commit:
opaque group_id<V>;
uint32 leaf_index;
};
} LeafNodeTBS;
// ---- section 7.8, tree hashes
enum {
reserved(0),
leaf(1),
parent(2),
(255)
} NodeType;
struct {
uint32 leaf_index;
optional<LeafNode> leaf_node;
} LeafNodeHashInput;
struct {
optional<ParentNode> parent_node;
opaque left_hash<V>;
opaque right_hash<V>;
} ParentNodeHashInput;
struct {
NodeType node_type;
select (TreeHashInput.node_type) {
case leaf:
LeafNodeHashInput leaf_node;
case parent:
ParentNodeHashInput parent_node;
};
} TreeHashInput;
// ---- section 7.9, parent hashes
struct {
HPKEPublicKey encryption_key;
opaque parent_hash<V>;
opaque original_sibling_tree_hash<V>;
} ParentHashInput;
// ---- section 10, key packages
struct {
ProtocolVersion version;
CipherSuite cipher_suite;
HPKEPublicKey init_key;
LeafNode leaf_node;
Extension extensions<V>;
/* SignWithLabel(., \"KeyPackageTBS\", KeyPackageTBS) */
opaque signature<V>;
} KeyPackage;
struct {
ProtocolVersion version;
CipherSuite cipher_suite;
HPKEPublicKey init_key;
LeafNode leaf_node;
Extension extensions<V>;
} KeyPackageTBS;
// ---- section 12.4.3.3, the tree of the extension ratchet_tree
struct {
NodeType node_type;
select (Node.node_type) {
case leaf:
LeafNode leaf_node;
case parent:
ParentNode parent_node;
};
} Node;
struct {
optional<Node> ratchet_tree<V>;
} RatchetTree;
";

pub static NOTES: &str = "// What RFC 9420 says of these definitions in prose.
// ---- section 17.1. Numbers without a name are kept, as in each registry.
CipherSuite.MLS_128_DHKEMX25519_AES128GCM_SHA256_Ed25519 = 1;
CipherSuite.MLS_128_DHKEMP256_AES128GCM_SHA256_P256 = 2;
CipherSuite.MLS_128_DHKEMX25519_CHACHA20POLY1305_SHA256_Ed25519 = 3;
CipherSuite.MLS_256_DHKEMX448_AES256GCM_SHA512_Ed448 = 4;
CipherSuite.MLS_256_DHKEMP521_AES256GCM_SHA512_P521 = 5;
CipherSuite.MLS_256_DHKEMX448_CHACHA20POLY1305_SHA512_Ed448 = 6;
CipherSuite.MLS_256_DHKEMP384_AES256GCM_SHA384_P384 = 7;
// ---- section 17.5.
CredentialType.basic = 1;
CredentialType.x509 = 2;
// ---- section 17.3.
ExtensionType.application_id = 1;
ExtensionType.ratchet_tree = 2;
ExtensionType.required_capabilities = 3;
ExtensionType.external_pub = 4;
ExtensionType.external_senders = 5;
// ---- section 17.4.
ProposalType.add = 1;
ProposalType.update = 2;
ProposalType.remove = 3;
ProposalType.psk = 4;
ProposalType.reinit = 5;
ProposalType.external_init = 6;
ProposalType.group_context_extensions = 7;
// What is signed or hashed, and only written: it borrows its parts.
SignContent is borrowed;
EncryptContext is borrowed;
LeafNodeTBS is borrowed;
ParentHashInput is borrowed;
KeyPackageTBS is borrowed;
";
