//! What is signed of a message, written from its parts' encodings.
ghost use Rattle.std.specs.Prelude.{◌≡◌, ◌<◌, ◌≤◌, ◌++◌, drop, length};
ghost use Rattle.mls.specs.FramedContentTBS.{framed_content_tbs_format};
ghost use Rattle.mls_signed.specs.Signed.{tbs_bytes};
ghost use Rattle.tls_codec_outcome.specs.Outcomes.{Decides, IsRejection, IsTaken};

use mls_signed::{FramedContentTBSParts, framed_content_tbs};
use tls_codec::DeserializeBytes;
use tls_codec_outcome::Outcome;
use tls_codec_validate::Validate;

/// `FramedContentTBS` (RFC 9420, section 6.1): writes into `out` what `SignWithLabel` (section 5.1.2) signs of a message, under
/// the label `FramedContentTBS`: the version, the wire format, the encoding of a `FramedContent`, and that of a `GroupContext` if
/// the sender is a member or a new member that commits; else `context` is empty. Any wire format is written; a public message
/// has 1, a private message 2. The result is that of validation for the written bytes, and `at` counts from the first of them.
/// Use them only if all of them are accepted: a context that isn't signed would be left over. They are written even if they are
/// rejected. If `out` has too little room, nothing is written: `InvalidWriteLength`.
#[unsafe(no_mangle)]
pub extern "C" fn mls_framed_content_tbs_encode(
    wire_format: u16,
    content: &[u8],
    context: &[u8],
    out: &mut [u8],
) -> Outcome
    ensures status { length (tbs_bytes wire_format content.now context.now) ≤ length out.old
        → Decides framed_content_tbs_format (tbs_bytes wire_format content.now context.now)
        result.status }
    ensures taken { length (tbs_bytes wire_format content.now context.now) ≤ length out.old
        → IsTaken framed_content_tbs_format (tbs_bytes wire_format content.now context.now)
        result.status result.taken }
    ensures rejected { length (tbs_bytes wire_format content.now context.now) ≤ length out.old
        → IsRejection ⟦<FramedContentTBSParts as DeserializeBytes>⟧.names
        ⟦<FramedContentTBSParts as Validate>⟧.places
        (tbs_bytes wire_format content.now context.now) result.status result.at result.detail }
    ensures written { length (tbs_bytes wire_format content.now context.now) ≤ length out.old
        → out.new ≡ tbs_bytes wire_format content.now context.now
        ++ drop (length (tbs_bytes wire_format content.now context.now)) out.old }
    ensures no_room { length out.old < length (tbs_bytes wire_format content.now context.now)
        → (result ≡ record { status = 3; taken = 0; at = 0; detail = 0 }) × (out.new ≡ out.old) }
{
    framed_content_tbs(wire_format, content, context, out).unwrap_or(NO_ROOM)
}

// The answer for a buffer with too little room.
const NO_ROOM: Outcome = Outcome {
    status: 3,
    taken: 0,
    at: 0,
    detail: 0,
};
