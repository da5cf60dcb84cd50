//! The elements of a list, one after another.
ghost use Rattle.std.specs.Prelude.{◌≡◌, ◌≢◌};
ghost use Rattle.mls_tree.specs.Extension.{extension_format};
ghost use Rattle.mls_tree.specs.Node.{node_format};
ghost use Rattle.mls_group.specs.EncryptedGroupSecrets.{encrypted_group_secrets_format};
ghost use Rattle.mls_group.specs.ProposalOrRef.{proposal_or_ref_format};
ghost use Rattle.tls_codec.specs.OwnMessages.{option_format};
ghost use Rattle.tls_codec_outcome.specs.Elements.{IsNext, left_in};
ghost use Rattle.tls_codec_outcome.specs.Outcomes.{Decides, IsRejection, IsTaken};

use mls_group::{EncryptedGroupSecrets, ProposalOrRef};
use mls_tree::{Extension, Node};
use tls_codec::DeserializeBytes;
use tls_codec_outcome::{Outcome, Span, next};
use tls_codec_validate::Validate;

/// `Extension` (RFC 9420, section 7.2): the next one of a list. `left` is moved past it.
#[unsafe(no_mangle)]
pub extern "C" fn mls_extension_next(bytes: &[u8], left: &mut Span, element: &mut Span) -> Outcome
    ensures status { Decides extension_format (left_in bytes.now left.old) result.status }
    ensures taken { IsTaken extension_format (left_in bytes.now left.old) result.status
        result.taken }
    ensures rejected { IsRejection ⟦<Extension as DeserializeBytes>⟧.names
        ⟦<Extension as Validate>⟧.places (left_in bytes.now left.old) result.status
        result.at result.detail }
    ensures element { result.status ≡ 0
        → IsNext extension_format bytes.now left.old element.new left.new }
    ensures kept { result.status ≢ 0 → (left.new ≡ left.old) × (element.new ≡ element.old) }
{
    next::<Extension>(bytes, left, element)
}

/// `optional<Node>` of a `RatchetTree` (RFC 9420, section 12.4.3.3): the next one. `left` is moved
/// past it.
#[unsafe(no_mangle)]
pub extern "C" fn mls_optional_node_next(
    bytes: &[u8],
    left: &mut Span,
    element: &mut Span,
) -> Outcome
    ensures status { Decides (option_format node_format) (left_in bytes.now left.old)
        result.status }
    ensures taken { IsTaken (option_format node_format) (left_in bytes.now left.old) result.status
        result.taken }
    ensures rejected { IsRejection ⟦<Option<Node> as DeserializeBytes>⟧.names
        ⟦<Option<Node> as Validate>⟧.places (left_in bytes.now left.old) result.status
        result.at result.detail }
    ensures element { result.status ≡ 0
        → IsNext (option_format node_format) bytes.now left.old element.new left.new }
    ensures kept { result.status ≢ 0 → (left.new ≡ left.old) × (element.new ≡ element.old) }
{
    next::<Option<Node>>(bytes, left, element)
}

/// `ProposalOrRef` of a `Commit` (RFC 9420, section 12.4): the next one. `left` is moved past it.
#[unsafe(no_mangle)]
pub extern "C" fn mls_proposal_or_ref_next(
    bytes: &[u8],
    left: &mut Span,
    element: &mut Span,
) -> Outcome
    ensures status { Decides proposal_or_ref_format (left_in bytes.now left.old) result.status }
    ensures taken { IsTaken proposal_or_ref_format (left_in bytes.now left.old) result.status
        result.taken }
    ensures rejected { IsRejection ⟦<ProposalOrRef as DeserializeBytes>⟧.names
        ⟦<ProposalOrRef as Validate>⟧.places (left_in bytes.now left.old) result.status
        result.at result.detail }
    ensures element { result.status ≡ 0
        → IsNext proposal_or_ref_format bytes.now left.old element.new left.new }
    ensures kept { result.status ≢ 0 → (left.new ≡ left.old) × (element.new ≡ element.old) }
{
    next::<ProposalOrRef>(bytes, left, element)
}

/// `EncryptedGroupSecrets` of a `Welcome` (RFC 9420, section 12.4.3.1): the next one. `left` is
/// moved past it.
#[unsafe(no_mangle)]
pub extern "C" fn mls_encrypted_group_secrets_next(
    bytes: &[u8],
    left: &mut Span,
    element: &mut Span,
) -> Outcome
    ensures status { Decides encrypted_group_secrets_format (left_in bytes.now left.old)
        result.status }
    ensures taken { IsTaken encrypted_group_secrets_format (left_in bytes.now left.old)
        result.status result.taken }
    ensures rejected { IsRejection ⟦<EncryptedGroupSecrets as DeserializeBytes>⟧.names
        ⟦<EncryptedGroupSecrets as Validate>⟧.places (left_in bytes.now left.old) result.status
        result.at result.detail }
    ensures element { result.status ≡ 0
        → IsNext encrypted_group_secrets_format bytes.now left.old element.new left.new }
    ensures kept { result.status ≢ 0 → (left.new ≡ left.old) × (element.new ≡ element.old) }
{
    next::<EncryptedGroupSecrets>(bytes, left, element)
}
