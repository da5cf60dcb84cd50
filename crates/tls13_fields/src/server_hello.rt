//! The fields of `ServerHello`.
ghost use Rattle.tls13.specs.ServerHello.{server_hello_format};
ghost use Rattle.tls_codec_outcome.specs.Fields.{Located};
ghost use Rattle.tls13_fields.specs.ServerHelloFields.{AreServerHelloFields};

use tls_codec::{TlsVec, Within};
use tls_codec_outcome::{Content, Field, Locate, Span};
use tls13::{CipherSuite, Extension, LegacyCompressionMethodX00, ProtocolVersionX0303, Random};

/// Where the fields of a `ServerHello` are (RFC 8446, section 4.1.3). A span of `opaque` has the bytes
/// without their length.
#[repr(C)]
#[derive(Clone, Copy, PartialEq, Eq, Debug)]
pub struct ServerHelloFields {
    /// `ProtocolVersion legacy_version = 0x0303;`
    pub legacy_version: Span,
    /// `Random random;`
    pub random: Span,
    /// `opaque legacy_session_id_echo<0..32>;`
    pub legacy_session_id_echo: Span,
    /// `CipherSuite cipher_suite;`
    pub cipher_suite: Span,
    /// `uint8 legacy_compression_method = 0;`
    pub legacy_compression_method: Span,
    /// `Extension extensions<6..2^16-1>;` with its length
    pub extensions: Span,
}

type Parts = (
    (
        Field<ProtocolVersionX0303>,
        Field<Random>,
        Content<Within<u8, 0, 32>>,
    ),
    (
        Field<CipherSuite>,
        Field<LegacyCompressionMethodX00>,
        Field<TlsVec<Within<u16, 6, 65535>, Extension>>,
    ),
);

impl ServerHelloFields {
    /// The fields of the message that the bytes begin with. If they begin with none, the spans mean
    /// nothing.
    pub fn locate(bytes: &[u8]) -> ServerHelloFields
        ensures { Located server_hello_format AreServerHelloFields bytes.now result }
    {
        let (
            (
                (legacy_version, random, legacy_session_id_echo),
                (cipher_suite, legacy_compression_method, extensions),
            ),
            _,
        ) = <Parts>::locate(bytes, 0);
        ServerHelloFields {
            legacy_version,
            random,
            legacy_session_id_echo,
            cipher_suite,
            legacy_compression_method,
            extensions,
        }
    }
}
