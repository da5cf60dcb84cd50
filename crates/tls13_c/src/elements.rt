//! The elements of a list, one after another.
ghost use Rattle.std.specs.Prelude.{◌≡◌, ◌≢◌};
ghost use Rattle.tls13.specs.CertificateEntry.{certificate_entry_format};
ghost use Rattle.tls13.specs.Extension.{extension_format};
ghost use Rattle.tls13.specs.KeyShareEntry.{key_share_entry_format};
ghost use Rattle.tls_codec_outcome.specs.Elements.{IsNext, left_in};
ghost use Rattle.tls_codec_outcome.specs.Outcomes.{Decides, IsRejection, IsTaken};

use tls_codec::DeserializeBytes;
use tls_codec_outcome::{Outcome, Span, next};
use tls_codec_validate::Validate;
use tls13::{CertificateEntry, Extension, KeyShareEntry};

/// `Extension` (RFC 8446, section 4.2): the next one of a list. `left` is moved past it.
#[unsafe(no_mangle)]
pub extern "C" fn tls13_extension_next(bytes: &[u8], left: &mut Span, element: &mut Span) -> Outcome
    ensures status { Decides extension_format (left_in bytes.now left.old) result.status }
    ensures taken { IsTaken extension_format (left_in bytes.now left.old) result.status
        result.taken }
    ensures rejected { IsRejection ⟦<Extension as DeserializeBytes>⟧.names
        ⟦<Extension as Validate>⟧.places (left_in bytes.now left.old) result.status
        result.at result.detail }
    ensures element { result.status ≡ 0
        → IsNext extension_format bytes.now left.old element.new left.new }
    ensures kept { result.status ≢ 0 → (left.new ≡ left.old) × (element.new ≡ element.old) }
{
    next::<Extension>(bytes, left, element)
}

/// `KeyShareEntry` (RFC 8446, section 4.2.8): the next one of a list. `left` is moved past it.
#[unsafe(no_mangle)]
pub extern "C" fn tls13_key_share_entry_next(
    bytes: &[u8],
    left: &mut Span,
    element: &mut Span,
) -> Outcome
    ensures status { Decides key_share_entry_format (left_in bytes.now left.old) result.status }
    ensures taken { IsTaken key_share_entry_format (left_in bytes.now left.old) result.status
        result.taken }
    ensures rejected { IsRejection ⟦<KeyShareEntry as DeserializeBytes>⟧.names
        ⟦<KeyShareEntry as Validate>⟧.places (left_in bytes.now left.old) result.status
        result.at result.detail }
    ensures element { result.status ≡ 0
        → IsNext key_share_entry_format bytes.now left.old element.new left.new }
    ensures kept { result.status ≢ 0 → (left.new ≡ left.old) × (element.new ≡ element.old) }
{
    next::<KeyShareEntry>(bytes, left, element)
}

/// `CertificateEntry` of a `Certificate` (RFC 8446, section 4.4.2): the next one. `left` is moved
/// past it.
#[unsafe(no_mangle)]
pub extern "C" fn tls13_certificate_entry_next(
    bytes: &[u8],
    left: &mut Span,
    element: &mut Span,
) -> Outcome
    ensures status { Decides certificate_entry_format (left_in bytes.now left.old) result.status }
    ensures taken { IsTaken certificate_entry_format (left_in bytes.now left.old) result.status
        result.taken }
    ensures rejected { IsRejection ⟦<CertificateEntry as DeserializeBytes>⟧.names
        ⟦<CertificateEntry as Validate>⟧.places (left_in bytes.now left.old) result.status
        result.at result.detail }
    ensures element { result.status ≡ 0
        → IsNext certificate_entry_format bytes.now left.old element.new left.new }
    ensures kept { result.status ≢ 0 → (left.new ≡ left.old) × (element.new ≡ element.old) }
{
    next::<CertificateEntry>(bytes, left, element)
}
