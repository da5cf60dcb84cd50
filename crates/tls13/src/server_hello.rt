//! [`ServerHello`].
ghost use Rattle.std.specs.Prelude.{◌≡◌, ◌&&◌, ◌++◌};
ghost use Rattle.tls13.specs.ServerHello.{server_hello_format, server_hello_meets, server_hello_plain};
ghost use Rattle.tls13.specs.declared.server_hello.ServerHello.{ServerHello};

use crate::{CipherSuite, Extension, LegacyCompressionMethodX00, ProtocolVersionX0303, Random};
use std::alloc::Global;
use tls_codec::{
    ByRef3, Deserialize, DeserializeBytes, Error, Serialize, Sink, Size, Source, TlsByteVec,
    TlsVec, Within,
};
use tls_codec_cases::append_as;
use tls_codec_validate::{Rejected, Validate};
use tls_codec_views::{Encoded, Parted};

/// `ServerHello` (RFC 8446, appendix B.3.1).
#[derive(PartialEq, Eq, Debug, Clone, Drop)]
pub struct ServerHello {
    /// `ProtocolVersion legacy_version = 0x0303;`
    /// TLS v1.2
    pub legacy_version: ProtocolVersionX0303,
    /// `Random random;`
    pub random: Random,
    /// `opaque legacy_session_id_echo<0..32>;`
    pub legacy_session_id_echo: TlsByteVec<Within<u8, 0, 32>>,
    /// `CipherSuite cipher_suite;`
    pub cipher_suite: CipherSuite,
    /// `uint8 legacy_compression_method = 0;`
    pub legacy_compression_method: LegacyCompressionMethodX00,
    /// `Extension extensions<6..2^16-1>;`
    pub extensions: TlsVec<Within<u16, 6, 65535>, Extension>,
}

type Parts = (
    (ProtocolVersionX0303, Random, TlsByteVec<Within<u8, 0, 32>>),
    (
        CipherSuite,
        LegacyCompressionMethodX00,
        TlsVec<Within<u16, 6, 65535>, Extension>,
    ),
);

impl Size for ServerHello {
    ghost plain = { server_hello_plain };

    ghost format = { server_hello_format };

    fn tls_serialized_len(&self) -> usize {
        (
            ByRef3(
                &self.legacy_version,
                &self.random,
                &self.legacy_session_id_echo,
            ),
            ByRef3(
                &self.cipher_suite,
                &self.legacy_compression_method,
                &self.extensions,
            ),
        )
            .tls_serialized_len()
    }

    ghost lawful = { server_hello_meets };
}

impl Serialize for ServerHello {
    fn tls_serialize<W: Sink>(&self, writer: &mut W) -> Result<usize, Error> {
        (
            ByRef3(
                &self.legacy_version,
                &self.random,
                &self.legacy_session_id_echo,
            ),
            ByRef3(
                &self.cipher_suite,
                &self.legacy_compression_method,
                &self.extensions,
            ),
        )
            .tls_serialize(writer)
    }

    fn tls_serialize_into(&self, out: &mut Vec<u8>) -> Result<usize, Error> {
        append_as(
            self,
            &(
                ByRef3(
                    &self.legacy_version,
                    &self.random,
                    &self.legacy_session_id_echo,
                ),
                ByRef3(
                    &self.cipher_suite,
                    &self.legacy_compression_method,
                    &self.extensions,
                ),
            ),
            out,
        )
    }
}

impl Deserialize for ServerHello {
    ghost names = { ⟦<Parts as Deserialize>⟧.names };

    fn tls_deserialize<R: Source>(alloc: Global, src: &mut R) -> Result<ServerHello, Error> {
        let (
            (legacy_version, random, legacy_session_id_echo),
            (cipher_suite, legacy_compression_method, extensions),
        ) = <Parts>::tls_deserialize(alloc, src)?;
        Ok(ServerHello {
            legacy_version,
            random,
            legacy_session_id_echo,
            cipher_suite,
            legacy_compression_method,
            extensions,
        })
    }
}

impl DeserializeBytes for ServerHello {
    ghost names = { ⟦<Parts as DeserializeBytes>⟧.names };

    fn tls_deserialize_bytes(alloc: Global, whole: &[u8]) -> Result<(ServerHello, &[u8]), Error> {
        let (parts, rest) = <Parts>::tls_deserialize_bytes(alloc, whole)?;
        let (parts_0, parts_1) = parts;
        let (legacy_version, random, legacy_session_id_echo) = parts_0;
        let (cipher_suite, legacy_compression_method, extensions) = parts_1;
        Ok((
            ServerHello {
                legacy_version,
                random,
                legacy_session_id_echo,
                cipher_suite,
                legacy_compression_method,
                extensions,
            },
            rest,
        ))
    }
}

impl Validate for ServerHello {
    ghost places = { ⟦<Parts as Validate>⟧.places };

    fn tls_validate_prefix(whole: &[u8]) -> Result<&[u8], Rejected<'_>> {
        <Parts>::tls_validate_prefix(whole)
    }

    fn tls_width() -> Option<usize> {
        <Parts>::tls_width()
    }
}

impl Parted for ServerHello {
    type Parts = Parts;

    ghost as_parts = { λ bytes is. is };
}

/// The encoding of a [`ServerHello`], split into its fields.
#[derive(Drop)]
pub struct ServerHelloView<'a> {
    /// `ProtocolVersion legacy_version = 0x0303;`
    /// TLS v1.2
    pub legacy_version: Encoded<'a, ProtocolVersionX0303>,
    /// `Random random;`
    pub random: Encoded<'a, Random>,
    /// `opaque legacy_session_id_echo<0..32>;`
    pub legacy_session_id_echo: Encoded<'a, TlsByteVec<Within<u8, 0, 32>>>,
    /// `CipherSuite cipher_suite;`
    pub cipher_suite: Encoded<'a, CipherSuite>,
    /// `uint8 legacy_compression_method = 0;`
    pub legacy_compression_method: Encoded<'a, LegacyCompressionMethodX00>,
    /// `Extension extensions<6..2^16-1>;`
    pub extensions: Encoded<'a, TlsVec<Within<u16, 6, 65535>, Extension>>,
}

impl<'a> From<Encoded<'a, ServerHello>> for ServerHelloView<'a> {
    ghost from_gives = { λ whole view. whole ≡ ((view.legacy_version ++
        (view.random ++ view.legacy_session_id_echo)) ++
        (view.cipher_suite ++ (view.legacy_compression_method ++ view.extensions))) };

    fn from(whole: Encoded<'a, ServerHello>) -> ServerHelloView<'a> {
        let (parts_0, parts_1) = whole.parts().split();
        let (legacy_version, random, legacy_session_id_echo) = parts_0.split();
        let (cipher_suite, legacy_compression_method, extensions) = parts_1.split();
        ServerHelloView {
            legacy_version,
            random,
            legacy_session_id_echo,
            cipher_suite,
            legacy_compression_method,
            extensions,
        }
    }
}

/// Two values are equal if and only if all their fields are equal.
pub fn is_compared_by_its_fields()
    ensures { (x y : ServerHello) →
        ⟦<ServerHello as PartialEq>⟧.eq x y
        ≡ (⟦<ProtocolVersionX0303 as PartialEq>⟧.eq x.legacy_version y.legacy_version
        && (⟦<Random as PartialEq>⟧.eq x.random y.random
        && (⟦<TlsByteVec<Within<u8, 0, 32>> as PartialEq>⟧.eq x.legacy_session_id_echo
        y.legacy_session_id_echo
        && (⟦<CipherSuite as PartialEq>⟧.eq x.cipher_suite y.cipher_suite
        && (⟦<LegacyCompressionMethodX00 as PartialEq>⟧.eq x.legacy_compression_method
        y.legacy_compression_method
        && ⟦<TlsVec<Within<u16, 6, 65535>, Extension> as PartialEq>⟧.eq x.extensions
        y.extensions))))) }
{}
