//! `mls.tls` and `mls.notes`, as tools/check_texts.py copies them.

pub static TEXT: &str =
    "// Messages of MLS (RFC 9420): framing. Definitions are in the order of the RFC's sections, under its names.
// ---- section 6, framing
enum {
reserved(0),
application(1),
proposal(2),
commit(3),
(255)
} ContentType;
enum {
reserved(0),
member(1),
external(2),
new_member_proposal(3),
new_member_commit(4),
(255)
} SenderType;
struct {
SenderType sender_type;
select (Sender.sender_type) {
case member:
uint32 leaf_index;
case external:
uint32 sender_index;
case new_member_commit:
case new_member_proposal:
struct{};
};
} Sender;
uint16 WireFormat;
struct {
opaque group_id<V>;
uint64 epoch;
Sender sender;
opaque authenticated_data<V>;
ContentType content_type;
select (FramedContent.content_type) {
case application:
opaque application_data<V>;
case proposal:
Proposal proposal;
case commit:
Commit commit;
};
} FramedContent;
struct {
ProtocolVersion version = mls10;
WireFormat wire_format;
select (MLSMessage.wire_format) {
case mls_public_message:
PublicMessage public_message;
case mls_private_message:
PrivateMessage private_message;
case mls_welcome:
Welcome welcome;
case mls_group_info:
GroupInfo group_info;
case mls_key_package:
KeyPackage key_package;
};
} MLSMessage;
// ---- section 6.1, content authentication
struct {
WireFormat wire_format;
FramedContent content;
FramedContentAuthData auth;
} AuthenticatedContent;
struct {
ProtocolVersion version = mls10;
WireFormat wire_format;
FramedContent content;
select (FramedContentTBS.content.sender.sender_type) {
case member:
case new_member_commit:
GroupContext context;
case external:
case new_member_proposal:
struct{};
};
} FramedContentTBS;
struct {
/* SignWithLabel(., \"FramedContentTBS\", FramedContentTBS) */
opaque signature<V>;
select (FramedContent.content_type) {
case commit:
/* MAC(confirmation_key, GroupContext.confirmed_transcript_hash) */
MAC confirmation_tag;
case application:
case proposal:
struct{};
};
} FramedContentAuthData;
// ---- section 6.2, public messages
struct {
FramedContent content;
FramedContentAuthData auth;
select (PublicMessage.content.sender.sender_type) {
case member:
MAC membership_tag;
case external:
case new_member_commit:
case new_member_proposal:
struct{};
};
} PublicMessage;
struct {
FramedContentTBS content_tbs;
FramedContentAuthData auth;
} AuthenticatedContentTBM;
// ---- section 6.3, private messages
struct {
opaque group_id<V>;
uint64 epoch;
ContentType content_type;
opaque authenticated_data<V>;
opaque encrypted_sender_data<V>;
opaque ciphertext<V>;
} PrivateMessage;
// ---- section 6.3.1, content encryption
struct {
select (PrivateMessage.content_type) {
case application:
opaque application_data<V>;
case proposal:
Proposal proposal;
case commit:
Commit commit;
};
FramedContentAuthData auth;
opaque padding[length_of_padding];
} PrivateMessageContent;
struct {
opaque group_id<V>;
uint64 epoch;
ContentType content_type;
opaque authenticated_data<V>;
} PrivateContentAAD;
// ---- section 6.3.2, sender data
struct {
uint32 leaf_index;
uint32 generation;
opaque reuse_guard[4];
} SenderData;
struct {
opaque group_id<V>;
uint64 epoch;
ContentType content_type;
} SenderDataAAD;
// ---- section 8.2, transcript hashes
struct {
WireFormat wire_format;
FramedContent content;
opaque signature<V>;
} ConfirmedTranscriptHashInput;
struct {
MAC confirmation_tag;
} InterimTranscriptHashInput;
";

pub static NOTES: &str = "// What RFC 9420 says of its framing in prose.
// ---- section 17.2.
WireFormat.mls_public_message = 1;
WireFormat.mls_private_message = 2;
WireFormat.mls_welcome = 3;
WireFormat.mls_group_info = 4;
WireFormat.mls_key_package = 5;
// What is signed, authenticated or hashed, and only written: it borrows its parts.
FramedContentTBS is borrowed;
AuthenticatedContentTBM is borrowed;
PrivateContentAAD is borrowed;
SenderDataAAD is borrowed;
ConfirmedTranscriptHashInput is borrowed;
InterimTranscriptHashInput is borrowed;
// Section 6.3.1: the padding has no length, and is what is left of the plaintext.
PrivateMessageContent.padding fills rest with zeros;
PrivateMessageContent.content_type called PrivateContent;
PrivateMessageContent.content_type called content;
// A tag and what its select has.
MLSMessage.wire_format called MLSMessageBody;
MLSMessage.wire_format called body;
FramedContent.content_type called FramedContentBody;
FramedContent.content_type called body;
";
