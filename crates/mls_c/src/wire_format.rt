//! The wire format of a message, once it is validated.
ghost use Rattle.std.specs.Prelude.{◌≡◌, ◌≢◌};
ghost use Rattle.mls.specs.MLSMessage.{mls_message_format};
ghost use Rattle.mls_fields.specs.WireFormat.{IsWireFormat};
ghost use Rattle.tls_codec_outcome.specs.Outcomes.{Decides, IsRejection, IsTaken};

use mls::MLSMessage;
use mls_fields::wire_format_of;
use tls_codec::DeserializeBytes;
use tls_codec_outcome::{ACCEPTED, Outcome, validate};
use tls_codec_validate::Validate;

/// `MLSMessage` (RFC 9420, section 6), and its `WireFormat`: 1 is a public message, 2 a private message, 3 a welcome, 4 a
/// group info, 5 a key package.
#[unsafe(no_mangle)]
pub extern "C" fn mls_message_wire_format_prefix(bytes: &[u8], wire_format: &mut u16) -> Outcome
    ensures status { Decides mls_message_format bytes.now result.status }
    ensures taken { IsTaken mls_message_format bytes.now result.status result.taken }
    ensures rejected { IsRejection ⟦<MLSMessage as DeserializeBytes>⟧.names
        ⟦<MLSMessage as Validate>⟧.places bytes.now result.status result.at result.detail }
    ensures wire_format { result.status ≡ 0 → IsWireFormat bytes.now wire_format.new }
    ensures kept { result.status ≢ 0 → wire_format.new ≡ wire_format.old }
{
    let outcome = validate::<MLSMessage>(bytes);
    if outcome.status == ACCEPTED {
        *wire_format = wire_format_of(bytes);
    }
    outcome
}
