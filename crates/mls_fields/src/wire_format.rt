//! The wire format of an `MLSMessage`.
ghost use Rattle.mls.specs.MLSMessage.{mls_message_format};
ghost use Rattle.tls_codec_outcome.specs.Fields.{Located};
ghost use Rattle.mls_fields.specs.WireFormat.{IsWireFormat};

use mls_group::ProtocolVersionMls10;
use tls_codec_outcome::{Field, Locate, tag_at};

/// The `WireFormat` of the `MLSMessage` that begins the bytes, if there is one (RFC 9420, section 6).
pub fn wire_format_of(bytes: &[u8]) -> u16
    ensures { Located mls_message_format IsWireFormat bytes.now result }
{
    let (_, version_end) = <Field<ProtocolVersionMls10>>::locate(bytes, 0);
    tag_at(bytes, version_end)
}
