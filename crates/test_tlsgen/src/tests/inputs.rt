// Texts of the language: messages of TLS 1.3 and of MLS, and one of each shape.

/// One of each shape.
pub static SHAPES: &str = "opaque Key<V>;
enum { reserved(0), mls10(1), draft(2), (65535) } Version;
enum { reserved(0), basic(1), x509(2), both(3), anonymous(4), (65535) } CredentialType;
struct { opaque cert_data<V>; } Certificate;
struct {
    CredentialType credential_type;
    select (Credential.credential_type) {
        case basic: opaque identity<V>;
        case x509:  Certificate certificates<V>;
        case both:  Version version; uint64 at;
        case anonymous: struct{};
    };
} Credential;
struct {
    Key key;
    Version version;
    Credential credential;
    optional<Certificate> last;
    uint16 suites<V>;
} Package;
struct {
    uint8 a; uint24 b; uint32 c; uint64 d;
    opaque e[16]; opaque f<0..255>; opaque g<0..2^16-1>; opaque h<0..2^24-1>; opaque i<0..2^32-1>;
    Certificate j<0..2^16-1>; string k; optional<uint16> l;
} Wide;
";

pub static ALERT: &str =
    "enum { close_notify(0), unexpected_message(10), bad_record_mac(20), record_overflow(22), handshake_failure(40), bad_certificate(42), unsupported_certificate(43), certificate_revoked(44), certificate_expired(45), certificate_unknown(46), illegal_parameter(47), unknown_ca(48), access_denied(49), decode_error(50), decrypt_error(51), protocol_version(70), insufficient_security(71), internal_error(80), inappropriate_fallback(86), user_canceled(90), missing_extension(109), unsupported_extension(110), unrecognized_name(112), bad_certificate_status_response(113), (255) } Alert;
struct { Alert alert; uint8 level; } Message;
";

pub static TLS13: &str =
    "// Some of TLS 1.3 (RFC 8446, section 4). ProtocolVersion, CipherSuite and NamedGroup are numbers with registries.
uint16 ProtocolVersion;
opaque Random[32];
uint8 CipherSuite[2];
uint16 NamedGroup;
uint16 ExtensionType;

struct { ExtensionType extension_type; opaque extension_data<0..2^16-1>; } Extension;

struct {
    ProtocolVersion legacy_version;
    Random random;
    opaque legacy_session_id<0..32>;
    CipherSuite cipher_suites<2..2^16-2>;
    opaque legacy_compression_methods<1..2^8-1>;
    Extension extensions<8..2^16-1>;
} ClientHello;

struct { NamedGroup group; opaque key_exchange<1..2^16-1>; } KeyShareEntry;
struct { KeyShareEntry client_shares<0..2^16-1>; } KeyShareClientHello;

enum { host_name(0), (255) } NameType;
opaque HostName<1..2^16-1>;
struct { NameType name_type; HostName name; } ServerName;
struct { ServerName server_name_list<1..2^16-1>; } ServerNameList;

enum { warning(1), fatal(2), (255) } AlertLevel;
struct { AlertLevel level; uint8 description; } Alert;

struct { opaque cert_data<1..2^24-1>; Extension extensions<0..2^16-1>; } CertificateEntry;
struct { opaque certificate_request_context<0..2^8-1>; CertificateEntry certificate_list<0..2^24-1>; } Certificate;
struct { uint16 algorithm; opaque signature<0..2^16-1>; } CertificateVerify;
struct {
    uint32 ticket_lifetime; uint32 ticket_age_add; opaque ticket_nonce<0..255>; opaque ticket<1..2^16-1>;
    Extension extensions<0..2^16-2>;
} NewSessionTicket;
enum { update_not_requested(0), update_requested(1), (255) } KeyUpdateRequest;
struct { KeyUpdateRequest request_update; } KeyUpdate;
";

/// RFC 9420, without its framing.
pub static MLS: &str =
    "// Messages of MLS (RFC 9420), in the presentation language of TLS (RFC 8446, section 3).
// A line `A B;` gives the type A a second name, as in the RFC. Where the RFC has a number with a registry
// (CredentialType, ProposalType), the tag of a select is written as an enum, since select needs its values.

opaque HPKEPublicKey<V>;
opaque SignaturePublicKey<V>;
opaque MAC<V>;
opaque HashReference<V>;
HashReference KeyPackageRef;
HashReference ProposalRef;
uint16 CipherSuite;
uint16 ExtensionType;

enum { reserved(0), mls10(1), (65535) } ProtocolVersion;

// ---- 5.3
enum { reserved(0), basic(1), x509(2), (65535) } CredentialType;

struct { opaque cert_data<V>; } Certificate;

struct {
    CredentialType credential_type;
    select (Credential.credential_type) {
        case basic: opaque identity<V>;
        case x509:  Certificate certificates<V>;
    };
} Credential;

// ---- 7.2
struct { ExtensionType extension_type; opaque extension_data<V>; } Extension;

struct {
    uint16 versions<V>;
    CipherSuite cipher_suites<V>;
    ExtensionType extensions<V>;
    uint16 proposals<V>;
    uint16 credentials<V>;
} Capabilities;

struct { uint64 not_before; uint64 not_after; } Lifetime;

enum { reserved(0), key_package(1), update(2), commit(3), (255) } LeafNodeSource;

struct {
    HPKEPublicKey encryption_key;
    SignaturePublicKey signature_key;
    Credential credential;
    Capabilities capabilities;
    LeafNodeSource leaf_node_source;
    select (LeafNode.leaf_node_source) {
        case key_package: Lifetime lifetime;
        case update:      struct{};
        case commit:      opaque parent_hash<V>;
    };
    Extension extensions<V>;
    opaque signature<V>;
} LeafNode;

// ---- 10
struct {
    ProtocolVersion version;
    CipherSuite cipher_suite;
    HPKEPublicKey init_key;
    LeafNode leaf_node;
    Extension extensions<V>;
    opaque signature<V>;
} KeyPackage;

// ---- 7.1, 7.8
struct { HPKEPublicKey encryption_key; opaque parent_hash<V>; uint32 unmerged_leaves<V>; } ParentNode;

enum { reserved(0), leaf(1), parent(2), (255) } NodeType;

struct {
    NodeType node_type;
    select (Node.node_type) {
        case leaf:   LeafNode leaf_node;
        case parent: ParentNode parent_node;
    };
} Node;

struct { optional<Node> ratchet_tree<V>; } RatchetTree;

// ---- 7.6
struct { opaque kem_output<V>; opaque ciphertext<V>; } HPKECiphertext;
struct { HPKEPublicKey encryption_key; HPKECiphertext encrypted_path_secret<V>; } UpdatePathNode;
struct { LeafNode leaf_node; UpdatePathNode nodes<V>; } UpdatePath;

// ---- 8.1
struct {
    ProtocolVersion version;
    CipherSuite cipher_suite;
    opaque group_id<V>;
    uint64 epoch;
    opaque tree_hash<V>;
    opaque confirmed_transcript_hash<V>;
    Extension extensions<V>;
} GroupContext;

// ---- 8.4
enum { reserved(0), external(1), resumption(2), (255) } PSKType;
enum { reserved(0), application(1), reinit(2), branch(3), (255) } ResumptionPSKUsage;

struct {
    PSKType psktype;
    select (PreSharedKeyID.psktype) {
        case external:
            opaque psk_id<V>;
        case resumption:
            ResumptionPSKUsage usage;
            opaque psk_group_id<V>;
            uint64 psk_epoch;
    };
    opaque psk_nonce<V>;
} PreSharedKeyID;

struct { PreSharedKeyID id; uint16 index; uint16 count; } PSKLabel;

// ---- 12.1
struct { KeyPackage key_package; } Add;
struct { LeafNode leaf_node; } Update;
struct { uint32 removed; } Remove;
struct { PreSharedKeyID psk; } PreSharedKey;
struct { opaque group_id<V>; ProtocolVersion version; CipherSuite cipher_suite; Extension extensions<V>; } ReInit;
struct { opaque kem_output<V>; } ExternalInit;
struct { Extension extensions<V>; } GroupContextExtensions;

enum {
    reserved(0), add(1), update(2), remove(3), psk(4), reinit(5), external_init(6), group_context_extensions(7), (65535)
} ProposalType;

struct {
    ProposalType proposal_type;
    select (Proposal.proposal_type) {
        case add:                      Add add;
        case update:                   Update update;
        case remove:                   Remove remove;
        case psk:                      PreSharedKey psk;
        case reinit:                   ReInit reinit;
        case external_init:            ExternalInit external_init;
        case group_context_extensions: GroupContextExtensions group_context_extensions;
    };
} Proposal;

// ---- 12.4
enum { reserved(0), proposal(1), reference(2), (255) } ProposalOrRefType;

struct {
    ProposalOrRefType type;
    select (ProposalOrRef.type) {
        case proposal:  Proposal proposal;
        case reference: ProposalRef reference;
    };
} ProposalOrRef;

struct { ProposalOrRef proposals<V>; optional<UpdatePath> path; } Commit;

// ---- 6
enum { reserved(0), member(1), external(2), new_member_proposal(3), new_member_commit(4), (255) } SenderType;

struct {
    SenderType sender_type;
    select (Sender.sender_type) {
        case member:
            uint32 leaf_index;
        case external:
            uint32 sender_index;
        case new_member_commit:
        case new_member_proposal:
            struct{};
    };
} Sender;

enum { reserved(0), application(1), proposal(2), commit(3), (255) } ContentType;

struct {
    opaque group_id<V>;
    uint64 epoch;
    Sender sender;
    opaque authenticated_data<V>;
    ContentType content_type;
    select (FramedContent.content_type) {
        case application: opaque application_data<V>;
        case proposal:    Proposal proposal;
        case commit:      Commit commit;
    };
} FramedContent;

// ---- 6.3
struct {
    opaque group_id<V>;
    uint64 epoch;
    ContentType content_type;
    opaque authenticated_data<V>;
    opaque encrypted_sender_data<V>;
    opaque ciphertext<V>;
} PrivateMessage;

struct { opaque group_id<V>; uint64 epoch; ContentType content_type; opaque authenticated_data<V>; } PrivateContentAAD;
struct { uint32 leaf_index; uint32 generation; opaque reuse_guard[4]; } SenderData;
struct { opaque group_id<V>; uint64 epoch; ContentType content_type; } SenderDataAAD;

// ---- 12.4.3
struct { GroupContext group_context; Extension extensions<V>; MAC confirmation_tag; uint32 signer; opaque signature<V>; } GroupInfo;
struct { opaque path_secret<V>; } PathSecret;
struct { opaque joiner_secret<V>; optional<PathSecret> path_secret; PreSharedKeyID psks<V>; } GroupSecrets;
struct { KeyPackageRef new_member; HPKECiphertext encrypted_group_secrets; } EncryptedGroupSecrets;
struct { CipherSuite cipher_suite; EncryptedGroupSecrets secrets<V>; opaque encrypted_group_info<V>; } Welcome;
struct { HPKEPublicKey external_pub; } ExternalPub;
struct { ExtensionType extension_types<V>; uint16 proposal_types<V>; uint16 credential_types<V>; } RequiredCapabilities;
struct { Credential credential; SignaturePublicKey signature_key; } ExternalSender;
";
