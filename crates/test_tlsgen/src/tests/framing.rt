// MLS's framing (RFC 9420, section 6), to be appended to `inputs::MLS`.

/// As the RFC prints it.
pub static FRAMING_RFC: &str = "
// ---- 6.1, 6.2, as in the RFC: selects that depend on earlier messages' tags. FramedContentAuthData is no message of its own;
// where it is a field, what depends on the tag goes into the tag's cases.
enum {
    reserved(0), mls_public_message(1), mls_private_message(2), mls_welcome(3), mls_group_info(4), mls_key_package(5), (65535)
} WireFormat;

struct {
    opaque signature<V>;
    select (FramedContent.content_type) {
        case commit:
            MAC confirmation_tag;
        case application:
        case proposal:
            struct{};
    };
} FramedContentAuthData;

struct {
    WireFormat wire_format;
    FramedContent content;
    FramedContentAuthData auth;
} AuthenticatedContent;

struct {
    FramedContent content;
    FramedContentAuthData auth;
    select (PublicMessage.content.sender.sender_type) {
        case member:
            MAC membership_tag;
        case external:
        case new_member_commit:
        case new_member_proposal:
            struct{};
    };
} PublicMessage;

struct {
    ProtocolVersion version = mls10;
    WireFormat wire_format;
    FramedContent content;
    select (FramedContentTBS.content.sender.sender_type) {
        case member:
        case new_member_commit:
            GroupContext context;
        case external:
        case new_member_proposal:
            struct{};
    };
} FramedContentTBS;

struct {
    HPKEPublicKey encryption_key;
    SignaturePublicKey signature_key;
    Credential credential;
    Capabilities capabilities;
    LeafNodeSource leaf_node_source;
    select (LeafNodeTBS.leaf_node_source) {
        case key_package: Lifetime lifetime;
        case update:      struct{};
        case commit:      opaque parent_hash<V>;
    };
    Extension extensions<V>;
    select (LeafNodeTBS.leaf_node_source) {
        case key_package: struct{};
        case update:      opaque group_id<V>; uint32 leaf_index;
        case commit:      opaque group_id<V>; uint32 leaf_index;
    };
} LeafNodeTBS;

struct {
    ProtocolVersion version = mls10;
    WireFormat wire_format;
    select (MLSMessage.wire_format) {
        case mls_public_message:  PublicMessage public_message;
        case mls_private_message: PrivateMessage private_message;
        case mls_welcome:         Welcome welcome;
        case mls_group_info:      GroupInfo group_info;
        case mls_key_package:     KeyPackage key_package;
    };
} MLSMessage;
";

/// PublicMessage and MLSMessage with the same bytes, by selects on tags of their own structs alone.
pub static FRAMING: &str = "
// ---- 6.1, 6.2: PublicMessage and MLSMessage, whose later fields depend on earlier tags: what depends is in the cases, and
// so is what is between. The bytes are those of the RFC:
//   struct { FramedContent content; FramedContentAuthData auth;
//            select (PublicMessage.content.sender.sender_type) { case member: MAC membership_tag; ... } } PublicMessage;
//   struct { opaque signature<V>; select (FramedContent.content_type) { case commit: MAC confirmation_tag; ... } } FramedContentAuthData;
struct {
    ContentType content_type;
    select (SignedContent.content_type) {
        case application: opaque application_data<V>; opaque signature<V>;
        case proposal:    Proposal proposal; opaque signature<V>;
        case commit:      Commit commit; opaque signature<V>; MAC confirmation_tag;
    };
} SignedContent;

struct {
    opaque group_id<V>;
    uint64 epoch;
    SenderType sender_type;
    select (PublicMessage.sender_type) {
        case member:
            uint32 leaf_index; opaque authenticated_data<V>; SignedContent content; MAC membership_tag;
        case external:
            uint32 sender_index; opaque authenticated_data<V>; SignedContent content;
        case new_member_proposal:
        case new_member_commit:
            opaque authenticated_data<V>; SignedContent content;
    };
} PublicMessage;

enum {
    reserved(0), mls_public_message(1), mls_private_message(2), mls_welcome(3), mls_group_info(4), mls_key_package(5), (65535)
} WireFormat;

struct {
    ProtocolVersion version;
    WireFormat wire_format;
    select (MLSMessage.wire_format) {
        case mls_public_message:  PublicMessage public_message;
        case mls_private_message: PrivateMessage private_message;
        case mls_welcome:         Welcome welcome;
        case mls_group_info:      GroupInfo group_info;
        case mls_key_package:     KeyPackage key_package;
    };
} MLSMessage;
";
