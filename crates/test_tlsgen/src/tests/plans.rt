// The plans of the inputs, as another program in another language makes them of the same texts.

pub static SHAPES: &str = "type Key = opaque<V>
version.Version open values of 2: Mls10 1 Draft 2
certificate.Certificate: cert_data opaque<V>,
credential.Credential by 2:
  Basic BASIC 1: identity opaque<V>,
  X509 X509 2: certificates Certificate<V>,
  Both BOTH 3: version Version, at u8,
  Anonymous ANONYMOUS 4:
package.Package: key =Key, version Version, credential Credential, last Certificate?, suites u2<V>,
wide.Wide: a u1, b u3, c u4, d u8, e opaque[16], f opaque<1: 0..255>, g opaque<2: 0..65535>, h opaque<3: 0..16777215>, i opaque<4: 0..4294967295>, j Certificate<2: 0..65535>, k text, l u2?,
";

pub static ALERT: &str =
    "alert.Alert open values of 1: CloseNotify 0 UnexpectedMessage 10 BadRecordMac 20 RecordOverflow 22 HandshakeFailure 40 BadCertificate 42 UnsupportedCertificate 43 CertificateRevoked 44 CertificateExpired 45 CertificateUnknown 46 IllegalParameter 47 UnknownCa 48 AccessDenied 49 DecodeError 50 DecryptError 51 ProtocolVersion 70 InsufficientSecurity 71 InternalError 80 InappropriateFallback 86 UserCanceled 90 MissingExtension 109 UnsupportedExtension 110 UnrecognizedName 112 BadCertificateStatusResponse 113
message.Message: alert Alert, level u1,
";

pub static MLS: &str = "type HPKEPublicKey = opaque<V>
type SignaturePublicKey = opaque<V>
type MAC = opaque<V>
type HashReference = opaque<V>
type KeyPackageRef = =HashReference
type ProposalRef = =HashReference
type CipherSuite = u2
type ExtensionType = u2
protocol_version.ProtocolVersion open values of 2: Mls10 1
certificate.Certificate: cert_data opaque<V>,
credential.Credential by 2:
  Basic BASIC 1: identity opaque<V>,
  X509 X509 2: certificates Certificate<V>,
extension.Extension: extension_type =ExtensionType, extension_data opaque<V>,
capabilities.Capabilities: versions u2<V>, cipher_suites =CipherSuite<V>, extensions =ExtensionType<V>, proposals u2<V>, credentials u2<V>,
lifetime.Lifetime: not_before u8, not_after u8,
leaf_node_source_data.LeafNodeSourceData by 1:
  KeyPackage KEY_PACKAGE 1: lifetime Lifetime,
  Update UPDATE 2:
  Commit COMMIT 3: parent_hash opaque<V>,
leaf_node.LeafNode: encryption_key =HPKEPublicKey, signature_key =SignaturePublicKey, credential Credential, capabilities Capabilities, leaf_node_source LeafNodeSourceData, extensions Extension<V>, signature opaque<V>,
key_package.KeyPackage: version ProtocolVersion, cipher_suite =CipherSuite, init_key =HPKEPublicKey, leaf_node LeafNode, extensions Extension<V>, signature opaque<V>,
parent_node.ParentNode: encryption_key =HPKEPublicKey, parent_hash opaque<V>, unmerged_leaves u4<V>,
node.Node by 1:
  Leaf LEAF 1: leaf_node LeafNode,
  Parent PARENT 2: parent_node ParentNode,
ratchet_tree.RatchetTree: ratchet_tree Node?<V>,
hpke_ciphertext.HPKECiphertext: kem_output opaque<V>, ciphertext opaque<V>,
update_path_node.UpdatePathNode: encryption_key =HPKEPublicKey, encrypted_path_secret HPKECiphertext<V>,
update_path.UpdatePath: leaf_node LeafNode, nodes UpdatePathNode<V>,
group_context.GroupContext: version ProtocolVersion, cipher_suite =CipherSuite, group_id opaque<V>, epoch u8, tree_hash opaque<V>, confirmed_transcript_hash opaque<V>, extensions Extension<V>,
resumption_psk_usage.ResumptionPSKUsage open values of 1: Application 1 Reinit 2 Branch 3
psk_type_data.PSKTypeData by 1:
  External EXTERNAL 1: psk_id opaque<V>,
  Resumption RESUMPTION 2: usage ResumptionPSKUsage, psk_group_id opaque<V>, psk_epoch u8,
pre_shared_key_id.PreSharedKeyID: psktype PSKTypeData, psk_nonce opaque<V>,
psk_label.PSKLabel: id PreSharedKeyID, index u2, count u2,
add.Add: key_package KeyPackage,
update.Update: leaf_node LeafNode,
remove.Remove: removed u4,
pre_shared_key.PreSharedKey: psk PreSharedKeyID,
re_init.ReInit: group_id opaque<V>, version ProtocolVersion, cipher_suite =CipherSuite, extensions Extension<V>,
external_init.ExternalInit: kem_output opaque<V>,
group_context_extensions.GroupContextExtensions: extensions Extension<V>,
proposal.Proposal by 2:
  Add ADD 1: add Add,
  Update UPDATE 2: update Update,
  Remove REMOVE 3: remove Remove,
  Psk PSK 4: psk PreSharedKey,
  Reinit REINIT 5: reinit ReInit,
  ExternalInit EXTERNAL_INIT 6: external_init ExternalInit,
  GroupContextExtensions GROUP_CONTEXT_EXTENSIONS 7: group_context_extensions GroupContextExtensions,
proposal_or_ref.ProposalOrRef by 1:
  Proposal PROPOSAL 1: proposal Proposal,
  Reference REFERENCE 2: reference =ProposalRef,
commit.Commit: proposals ProposalOrRef<V>, path UpdatePath?,
sender_type.SenderType values of 1: Member 1 External 2 NewMemberProposal 3 NewMemberCommit 4
sender.Sender by 1:
  Member MEMBER 1: leaf_index u4,
  External EXTERNAL 2: sender_index u4,
  NewMemberCommit NEW_MEMBER_COMMIT 4:
  NewMemberProposal NEW_MEMBER_PROPOSAL 3:
content_type.ContentType values of 1: Application 1 Proposal 2 Commit 3
content_type_data.ContentTypeData by 1:
  Application APPLICATION 1: application_data opaque<V>,
  Proposal PROPOSAL 2: proposal Proposal,
  Commit COMMIT 3: commit Commit,
framed_content.FramedContent: group_id opaque<V>, epoch u8, sender Sender, authenticated_data opaque<V>, content_type ContentTypeData,
private_message.PrivateMessage: group_id opaque<V>, epoch u8, content_type ContentType, authenticated_data opaque<V>, encrypted_sender_data opaque<V>, ciphertext opaque<V>,
private_content_aad.PrivateContentAAD: group_id opaque<V>, epoch u8, content_type ContentType, authenticated_data opaque<V>,
sender_data.SenderData: leaf_index u4, generation u4, reuse_guard opaque[4],
sender_data_aad.SenderDataAAD: group_id opaque<V>, epoch u8, content_type ContentType,
group_info.GroupInfo: group_context GroupContext, extensions Extension<V>, confirmation_tag =MAC, signer u4, signature opaque<V>,
path_secret.PathSecret: path_secret opaque<V>,
group_secrets.GroupSecrets: joiner_secret opaque<V>, path_secret PathSecret?, psks PreSharedKeyID<V>,
encrypted_group_secrets.EncryptedGroupSecrets: new_member =KeyPackageRef, encrypted_group_secrets HPKECiphertext,
welcome.Welcome: cipher_suite =CipherSuite, secrets EncryptedGroupSecrets<V>, encrypted_group_info opaque<V>,
external_pub.ExternalPub: external_pub =HPKEPublicKey,
required_capabilities.RequiredCapabilities: extension_types =ExtensionType<V>, proposal_types u2<V>, credential_types u2<V>,
external_sender.ExternalSender: credential Credential, signature_key =SignaturePublicKey,
wire_format.WireFormat values of 2: MlsPublicMessage 1 MlsPrivateMessage 2 MlsWelcome 3 MlsGroupInfo 4 MlsKeyPackage 5
framed_content_auth_data.FramedContentAuthData for content_type ContentType: signature opaque<V>, confirmation_tag =MAC for 3*,
authenticated_content.AuthenticatedContent: wire_format WireFormat, content FramedContent, auth FramedContentAuthData*content.ContentType,
public_message.PublicMessage: content FramedContent, auth FramedContentAuthData*content.ContentType, membership_tag =MAC for 1*content.SenderType,
protocol_version_mls10.ProtocolVersionMls10 values of 2: Mls10 1
framed_content_tbs.FramedContentTBS: version ProtocolVersionMls10, wire_format WireFormat, content FramedContent, context GroupContext for 1 4*content.SenderType,
leaf_node_tbs_leaf_node_source_data.LeafNodeTBSLeafNodeSourceData by 1:
  KeyPackage KEY_PACKAGE 1: lifetime Lifetime, extensions Extension<V>,
  Update UPDATE 2: extensions Extension<V>, group_id opaque<V>, leaf_index u4,
  Commit COMMIT 3: parent_hash opaque<V>, extensions Extension<V>, group_id opaque<V>, leaf_index u4,
leaf_node_tbs.LeafNodeTBS: encryption_key =HPKEPublicKey, signature_key =SignaturePublicKey, credential Credential, capabilities Capabilities, leaf_node_source LeafNodeTBSLeafNodeSourceData,
wire_format_data.WireFormatData by 2:
  MlsPublicMessage MLS_PUBLIC_MESSAGE 1: public_message PublicMessage,
  MlsPrivateMessage MLS_PRIVATE_MESSAGE 2: private_message PrivateMessage,
  MlsWelcome MLS_WELCOME 3: welcome Welcome,
  MlsGroupInfo MLS_GROUP_INFO 4: group_info GroupInfo,
  MlsKeyPackage MLS_KEY_PACKAGE 5: key_package KeyPackage,
mls_message.MLSMessage: version ProtocolVersionMls10, wire_format WireFormatData,
ContentTypeData holds ContentType: its tag
FramedContent holds ContentType: content_type
FramedContent holds SenderType: sender
Sender holds SenderType: its tag
";
