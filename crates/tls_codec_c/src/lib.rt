//! Checks without allocation whether bytes begin with a variable-length integer, or with bytes
//! after a length.
#![tactic(auto)]

ghost use Rattle.std.specs.Prelude.{◌≡◌, ◌≢◌};
ghost use Rattle.tls_codec_grammar.specs.Field.{fixed_field, variable_field};
ghost use Rattle.tls_codec_grammar.specs.Format.{bytes_format, counted_bytes_format, varint_format};
ghost use Rattle.tls_codec_outcome.specs.Fields.{IsContentFrom};
ghost use Rattle.tls_codec_outcome.specs.Outcomes.{Decides, IsRejection, IsTaken};

use tls_codec::{
    DeserializeBytes, TlsByteVecU8, TlsByteVecU16, TlsByteVecU24, TlsVarInt, U24, VLBytes,
};
use tls_codec_outcome::{ACCEPTED, Outcome, Span, content_at, validate};
use tls_codec_validate::Validate;

/// A variable-length integer (RFC 9000, section 16) in its least width.
#[unsafe(no_mangle)]
pub extern "C" fn tls_codec_varint_validate_prefix(bytes: &[u8]) -> Outcome
    ensures status { Decides varint_format bytes.now result.status }
    ensures taken { IsTaken varint_format bytes.now result.status result.taken }
    ensures rejected { IsRejection ⟦<TlsVarInt as DeserializeBytes>⟧.names
        ⟦<TlsVarInt as Validate>⟧.places bytes.now result.status result.at result.detail }
{
    validate::<TlsVarInt>(bytes)
}

/// `opaque content<V>` (RFC 9420, section 2.1.2), and where its content is. A list `<V>` has its elements there.
#[unsafe(no_mangle)]
pub extern "C" fn tls_codec_opaque_v_locate_prefix(bytes: &[u8], content: &mut Span) -> Outcome
    ensures status { Decides bytes_format bytes.now result.status }
    ensures taken { IsTaken bytes_format bytes.now result.status result.taken }
    ensures rejected { IsRejection ⟦<VLBytes as DeserializeBytes>⟧.names
        ⟦<VLBytes as Validate>⟧.places bytes.now result.status result.at result.detail }
    ensures content { result.status ≡ 0 → IsContentFrom variable_field bytes.now 0 content.new }
    ensures kept { result.status ≢ 0 → content.new ≡ content.old }
{
    let outcome = validate::<VLBytes>(bytes);
    if outcome.status == ACCEPTED {
        *content = content_at::<TlsVarInt>(bytes, 0);
    }
    outcome
}

/// `opaque content<0..2^8-1>` (RFC 8446, section 3.4), and where its content is.
#[unsafe(no_mangle)]
pub extern "C" fn tls_codec_opaque_u8_locate_prefix(bytes: &[u8], content: &mut Span) -> Outcome
    ensures status { Decides (counted_bytes_format (fixed_field 1)) bytes.now result.status }
    ensures taken { IsTaken (counted_bytes_format (fixed_field 1)) bytes.now result.status
        result.taken }
    ensures rejected { IsRejection ⟦<TlsByteVecU8 as DeserializeBytes>⟧.names
        ⟦<TlsByteVecU8 as Validate>⟧.places bytes.now result.status result.at result.detail }
    ensures content { result.status ≡ 0 → IsContentFrom (fixed_field 1) bytes.now 0 content.new }
    ensures kept { result.status ≢ 0 → content.new ≡ content.old }
{
    let outcome = validate::<TlsByteVecU8>(bytes);
    if outcome.status == ACCEPTED {
        *content = content_at::<u8>(bytes, 0);
    }
    outcome
}

/// `opaque content<0..2^16-1>`, and where its content is.
#[unsafe(no_mangle)]
pub extern "C" fn tls_codec_opaque_u16_locate_prefix(bytes: &[u8], content: &mut Span) -> Outcome
    ensures status { Decides (counted_bytes_format (fixed_field 2)) bytes.now result.status }
    ensures taken { IsTaken (counted_bytes_format (fixed_field 2)) bytes.now result.status
        result.taken }
    ensures rejected { IsRejection ⟦<TlsByteVecU16 as DeserializeBytes>⟧.names
        ⟦<TlsByteVecU16 as Validate>⟧.places bytes.now result.status result.at result.detail }
    ensures content { result.status ≡ 0 → IsContentFrom (fixed_field 2) bytes.now 0 content.new }
    ensures kept { result.status ≢ 0 → content.new ≡ content.old }
{
    let outcome = validate::<TlsByteVecU16>(bytes);
    if outcome.status == ACCEPTED {
        *content = content_at::<u16>(bytes, 0);
    }
    outcome
}

/// `opaque content<0..2^24-1>`, and where its content is.
#[unsafe(no_mangle)]
pub extern "C" fn tls_codec_opaque_u24_locate_prefix(bytes: &[u8], content: &mut Span) -> Outcome
    ensures status { Decides (counted_bytes_format (fixed_field 3)) bytes.now result.status }
    ensures taken { IsTaken (counted_bytes_format (fixed_field 3)) bytes.now result.status
        result.taken }
    ensures rejected { IsRejection ⟦<TlsByteVecU24 as DeserializeBytes>⟧.names
        ⟦<TlsByteVecU24 as Validate>⟧.places bytes.now result.status result.at result.detail }
    ensures content { result.status ≡ 0 → IsContentFrom (fixed_field 3) bytes.now 0 content.new }
    ensures kept { result.status ≢ 0 → content.new ≡ content.old }
{
    let outcome = validate::<TlsByteVecU24>(bytes);
    if outcome.status == ACCEPTED {
        *content = content_at::<U24>(bytes, 0);
    }
    outcome
}
