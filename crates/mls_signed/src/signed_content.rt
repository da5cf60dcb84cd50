//! `FramedContentTBS`, from the encodings of its parts.
ghost use Rattle.mls_signed.specs.Signed.{Says, Writes, tbs_bytes};

use mls::{FramedContent, SenderType, WireFormat};
use mls_group::{GroupContext, ProtocolVersionMls10};
use tls_codec::{DeserializeBytes, Then, When};
use tls_codec_cases::{AnyOf, By, Is};
use tls_codec_outcome::{Outcome, validate};
use tls_codec_validate::Validate;

/// The parts of a `FramedContentTBS`, which is itself only written (RFC 9420, section 6.1).
pub type FramedContentTBSParts = (
    (ProtocolVersionMls10, WireFormat),
    Then<FramedContent, By<SenderType, When<AnyOf<Is<1>, Is<4>>, GroupContext>>>,
);

/// Writes a `FramedContentTBS` of an encoded `FramedContent` and `GroupContext`, and returns the outcome of validating it.
///
/// The context is empty unless the sender is a member, or a new member that commits. `None`: the buffer has fewer bytes than the
/// four before the content, the content and the context, and nothing is written.
pub fn framed_content_tbs(
    wire_format: u16,
    content: &[u8],
    context: &[u8],
    out: &mut [u8],
) -> Option<Outcome>
    ensures written { Writes (tbs_bytes wire_format content.now context.now) out.old out.new
        result }
    ensures says { Says ⟦<FramedContentTBSParts as DeserializeBytes>⟧.names
        ⟦<FramedContentTBSParts as Validate>⟧.places
        (tbs_bytes wire_format content.now context.now) result }
{
    let size = content
        .len()
        .saturating_add(context.len())
        .saturating_add(4);
    if out.len() < size {
        return None;
    }
    let [high, low] = wire_format.to_be_bytes();
    let (room, _) = out.split_at_mut(size);
    let (head, parts) = room.split_at_mut(4);
    let (first, second) = parts.split_at_mut(content.len());
    head.copy_from_slice(&[0, 1, high, low]);
    first.copy_from_slice(content);
    second.copy_from_slice(context);
    let (written, _) = out.split_at(size);
    Some(validate::<FramedContentTBSParts>(written))
}
