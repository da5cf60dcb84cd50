//! Other names of types.
use crate::BodyKind;
use tls_codec::{TlsByteVec, VLBytes, Within};
use tls_codec_cases::InnerPlaintext;

/// `opaque Key<V>;`.
pub type Key = VLBytes;

/// `uint16 ExtensionType;`.
pub type ExtensionType = u16;

/// `uint16 Row<V>;`.
pub type Row = Vec<u16>;

/// `opaque HostName<1..2^16-1>;`.
pub type HostName = TlsByteVec<Within<u16, 1, 65535>>;

/// `opaque ASN.1Cert<V>;`.
pub type ASN1Cert = VLBytes;

/// `optional<Row> ratchet_tree<V>;`.
pub type RatchetTree = Vec<Option<Row>>;

/// `Inner`.
///
/// Its content ends at `BodyKind type;`, the last byte that isn't zero. Zeros go to the
/// end, `uint8 zeros[length_of_padding];`: all bytes are read.
pub type Inner = InnerPlaintext<BodyKind>;

/// `opaque Datum[3];`.
pub type Datum = [u8; 3];
