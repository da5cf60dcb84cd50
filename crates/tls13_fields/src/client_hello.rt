//! The fields of `ClientHello`.
ghost use Rattle.tls13.specs.ClientHello.{client_hello_format};
ghost use Rattle.tls_codec_outcome.specs.Fields.{Located};
ghost use Rattle.tls13_fields.specs.ClientHelloFields.{AreClientHelloFields};

use tls_codec::{TlsVec, Within};
use tls_codec_outcome::{Content, Field, Locate, Span};
use tls13::{CipherSuite, Extension, ProtocolVersionX0303, Random};

/// Where the fields of a `ClientHello` are (RFC 8446, section 4.1.2). A span of `opaque` has the bytes
/// without their length.
#[repr(C)]
#[derive(Clone, Copy, PartialEq, Eq, Debug)]
pub struct ClientHelloFields {
    /// `ProtocolVersion legacy_version = 0x0303;`
    pub legacy_version: Span,
    /// `Random random;`
    pub random: Span,
    /// `opaque legacy_session_id<0..32>;`
    pub legacy_session_id: Span,
    /// `CipherSuite cipher_suites<2..2^16-2>;` with its length
    pub cipher_suites: Span,
    /// `opaque legacy_compression_methods<1..2^8-1>;`
    pub legacy_compression_methods: Span,
    /// `Extension extensions<8..2^16-1>;` with its length
    pub extensions: Span,
}

type Parts = (
    (
        Field<ProtocolVersionX0303>,
        Field<Random>,
        Content<Within<u8, 0, 32>>,
    ),
    (
        Field<TlsVec<Within<u16, 2, 65534>, CipherSuite>>,
        Content<Within<u8, 1, 255>>,
        Field<TlsVec<Within<u16, 8, 65535>, Extension>>,
    ),
);

impl ClientHelloFields {
    /// The fields of the message that the bytes begin with. If they begin with none, the spans mean
    /// nothing.
    pub fn locate(bytes: &[u8]) -> ClientHelloFields
        ensures { Located client_hello_format AreClientHelloFields bytes.now result }
    {
        let (
            (
                (legacy_version, random, legacy_session_id),
                (cipher_suites, legacy_compression_methods, extensions),
            ),
            _,
        ) = <Parts>::locate(bytes, 0);
        ClientHelloFields {
            legacy_version,
            random,
            legacy_session_id,
            cipher_suites,
            legacy_compression_methods,
            extensions,
        }
    }
}
