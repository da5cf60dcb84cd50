//! [`ClientHello`].
ghost use Rattle.std.specs.Prelude.{◌≡◌, ◌&&◌, ◌++◌};
ghost use Rattle.tls13.specs.ClientHello.{client_hello_format, client_hello_meets, client_hello_plain};
ghost use Rattle.tls13.specs.declared.client_hello.ClientHello.{ClientHello};

use crate::{CipherSuite, Extension, ProtocolVersionX0303, Random};
use std::alloc::Global;
use tls_codec::{
    ByRef3, Deserialize, DeserializeBytes, Error, Serialize, Sink, Size, Source, TlsByteVec,
    TlsVec, Within,
};
use tls_codec_cases::append_as;
use tls_codec_validate::{Rejected, Validate};
use tls_codec_views::{Encoded, Parted};

/// `ClientHello` (RFC 8446, appendix B.3.1).
#[derive(PartialEq, Eq, Debug, Clone, Drop)]
pub struct ClientHello {
    /// `ProtocolVersion legacy_version = 0x0303;`
    /// TLS v1.2
    pub legacy_version: ProtocolVersionX0303,
    /// `Random random;`
    pub random: Random,
    /// `opaque legacy_session_id<0..32>;`
    pub legacy_session_id: TlsByteVec<Within<u8, 0, 32>>,
    /// `CipherSuite cipher_suites<2..65534>;`
    pub cipher_suites: TlsVec<Within<u16, 2, 65534>, CipherSuite>,
    /// `opaque legacy_compression_methods<1..2^8-1>;`
    pub legacy_compression_methods: TlsByteVec<Within<u8, 1, 255>>,
    /// `Extension extensions<8..2^16-1>;`
    pub extensions: TlsVec<Within<u16, 8, 65535>, Extension>,
}

type Parts = (
    (ProtocolVersionX0303, Random, TlsByteVec<Within<u8, 0, 32>>),
    (
        TlsVec<Within<u16, 2, 65534>, CipherSuite>,
        TlsByteVec<Within<u8, 1, 255>>,
        TlsVec<Within<u16, 8, 65535>, Extension>,
    ),
);

impl Size for ClientHello {
    ghost plain = { client_hello_plain };

    ghost format = { client_hello_format };

    fn tls_serialized_len(&self) -> usize {
        (
            ByRef3(&self.legacy_version, &self.random, &self.legacy_session_id),
            ByRef3(
                &self.cipher_suites,
                &self.legacy_compression_methods,
                &self.extensions,
            ),
        )
            .tls_serialized_len()
    }

    ghost lawful = { client_hello_meets };
}

impl Serialize for ClientHello {
    fn tls_serialize<W: Sink>(&self, writer: &mut W) -> Result<usize, Error> {
        (
            ByRef3(&self.legacy_version, &self.random, &self.legacy_session_id),
            ByRef3(
                &self.cipher_suites,
                &self.legacy_compression_methods,
                &self.extensions,
            ),
        )
            .tls_serialize(writer)
    }

    fn tls_serialize_into(&self, out: &mut Vec<u8>) -> Result<usize, Error> {
        append_as(
            self,
            &(
                ByRef3(&self.legacy_version, &self.random, &self.legacy_session_id),
                ByRef3(
                    &self.cipher_suites,
                    &self.legacy_compression_methods,
                    &self.extensions,
                ),
            ),
            out,
        )
    }
}

impl Deserialize for ClientHello {
    ghost names = { ⟦<Parts as Deserialize>⟧.names };

    fn tls_deserialize<R: Source>(alloc: Global, src: &mut R) -> Result<ClientHello, Error> {
        let (
            (legacy_version, random, legacy_session_id),
            (cipher_suites, legacy_compression_methods, extensions),
        ) = <Parts>::tls_deserialize(alloc, src)?;
        Ok(ClientHello {
            legacy_version,
            random,
            legacy_session_id,
            cipher_suites,
            legacy_compression_methods,
            extensions,
        })
    }
}

impl DeserializeBytes for ClientHello {
    ghost names = { ⟦<Parts as DeserializeBytes>⟧.names };

    fn tls_deserialize_bytes(alloc: Global, whole: &[u8]) -> Result<(ClientHello, &[u8]), Error> {
        let (
            (
                (legacy_version, random, legacy_session_id),
                (cipher_suites, legacy_compression_methods, extensions),
            ),
            rest,
        ) = <Parts>::tls_deserialize_bytes(alloc, whole)?;
        Ok((
            ClientHello {
                legacy_version,
                random,
                legacy_session_id,
                cipher_suites,
                legacy_compression_methods,
                extensions,
            },
            rest,
        ))
    }
}

impl Validate for ClientHello {
    ghost places = { ⟦<Parts as Validate>⟧.places };

    fn tls_validate_prefix(whole: &[u8]) -> Result<&[u8], Rejected<'_>> {
        <Parts>::tls_validate_prefix(whole)
    }

    fn tls_width() -> Option<usize> {
        <Parts>::tls_width()
    }
}

impl Parted for ClientHello {
    type Parts = Parts;

    ghost as_parts = { λ bytes is. is };
}

/// The encoding of a [`ClientHello`], split into its fields.
#[derive(Drop)]
pub struct ClientHelloView<'a> {
    /// `ProtocolVersion legacy_version = 0x0303;`
    /// TLS v1.2
    pub legacy_version: Encoded<'a, ProtocolVersionX0303>,
    /// `Random random;`
    pub random: Encoded<'a, Random>,
    /// `opaque legacy_session_id<0..32>;`
    pub legacy_session_id: Encoded<'a, TlsByteVec<Within<u8, 0, 32>>>,
    /// `CipherSuite cipher_suites<2..65534>;`
    pub cipher_suites: Encoded<'a, TlsVec<Within<u16, 2, 65534>, CipherSuite>>,
    /// `opaque legacy_compression_methods<1..2^8-1>;`
    pub legacy_compression_methods: Encoded<'a, TlsByteVec<Within<u8, 1, 255>>>,
    /// `Extension extensions<8..2^16-1>;`
    pub extensions: Encoded<'a, TlsVec<Within<u16, 8, 65535>, Extension>>,
}

impl<'a> From<Encoded<'a, ClientHello>> for ClientHelloView<'a> {
    ghost from_gives = { λ whole view. whole ≡ ((view.legacy_version ++
        (view.random ++ view.legacy_session_id)) ++ (view.cipher_suites ++
        (view.legacy_compression_methods ++ view.extensions))) };

    fn from(whole: Encoded<'a, ClientHello>) -> ClientHelloView<'a> {
        let (parts_0, parts_1) = whole.parts().split();
        let (legacy_version, random, legacy_session_id) = parts_0.split();
        let (cipher_suites, legacy_compression_methods, extensions) = parts_1.split();
        ClientHelloView {
            legacy_version,
            random,
            legacy_session_id,
            cipher_suites,
            legacy_compression_methods,
            extensions,
        }
    }
}

/// Two values are equal if and only if all their fields are equal.
pub fn is_compared_by_its_fields()
    ensures { (x y : ClientHello) →
        ⟦<ClientHello as PartialEq>⟧.eq x y
        ≡ (⟦<ProtocolVersionX0303 as PartialEq>⟧.eq x.legacy_version y.legacy_version
        && (⟦<Random as PartialEq>⟧.eq x.random y.random
        && (⟦<TlsByteVec<Within<u8, 0, 32>> as PartialEq>⟧.eq x.legacy_session_id
        y.legacy_session_id
        && (⟦<TlsVec<Within<u16, 2, 65534>, CipherSuite> as PartialEq>⟧.eq x.cipher_suites
        y.cipher_suites
        && (⟦<TlsByteVec<Within<u8, 1, 255>> as PartialEq>⟧.eq x.legacy_compression_methods
        y.legacy_compression_methods
        && ⟦<TlsVec<Within<u16, 8, 65535>, Extension> as PartialEq>⟧.eq x.extensions
        y.extensions))))) }
{}
