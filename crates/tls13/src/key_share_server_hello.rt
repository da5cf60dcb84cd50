//! [`KeyShareServerHello`].
ghost use Rattle.std.specs.Prelude.{◌≡◌};
ghost use Rattle.tls13.specs.KeyShareServerHello.{key_share_server_hello_format, key_share_server_hello_meets, key_share_server_hello_plain};
ghost use Rattle.tls13.specs.declared.key_share_server_hello.KeyShareServerHello.{KeyShareServerHello};

use crate::KeyShareEntry;
use std::alloc::Global;
use tls_codec::{Deserialize, DeserializeBytes, Error, Serialize, Sink, Size, Source};
use tls_codec_cases::append_as;
use tls_codec_validate::{Rejected, Validate};
use tls_codec_views::{Encoded, Parted};

/// `KeyShareServerHello` (RFC 8446, appendix B.3.1).
#[derive(PartialEq, Eq, Debug, Clone, Drop)]
pub struct KeyShareServerHello {
    /// `KeyShareEntry server_share;`
    pub server_share: KeyShareEntry,
}

impl Size for KeyShareServerHello {
    ghost plain = { key_share_server_hello_plain };

    ghost format = { key_share_server_hello_format };

    fn tls_serialized_len(&self) -> usize {
        self.server_share.tls_serialized_len()
    }

    ghost lawful = { key_share_server_hello_meets };
}

impl Serialize for KeyShareServerHello {
    fn tls_serialize<W: Sink>(&self, writer: &mut W) -> Result<usize, Error> {
        self.server_share.tls_serialize(writer)
    }

    fn tls_serialize_into(&self, out: &mut Vec<u8>) -> Result<usize, Error> {
        append_as(self, &self.server_share, out)
    }
}

impl Deserialize for KeyShareServerHello {
    ghost names = { ⟦<KeyShareEntry as Deserialize>⟧.names };

    fn tls_deserialize<R: Source>(
        alloc: Global,
        src: &mut R,
    ) -> Result<KeyShareServerHello, Error> {
        let server_share = KeyShareEntry::tls_deserialize(alloc, src)?;
        Ok(KeyShareServerHello { server_share })
    }
}

impl DeserializeBytes for KeyShareServerHello {
    ghost names = { ⟦<KeyShareEntry as DeserializeBytes>⟧.names };

    fn tls_deserialize_bytes(
        alloc: Global,
        whole: &[u8],
    ) -> Result<(KeyShareServerHello, &[u8]), Error> {
        let (server_share, rest) = KeyShareEntry::tls_deserialize_bytes(alloc, whole)?;
        Ok((KeyShareServerHello { server_share }, rest))
    }
}

impl Validate for KeyShareServerHello {
    ghost places = { ⟦<KeyShareEntry as Validate>⟧.places };

    fn tls_validate_prefix(whole: &[u8]) -> Result<&[u8], Rejected<'_>> {
        KeyShareEntry::tls_validate_prefix(whole)
    }

    fn tls_width() -> Option<usize> {
        KeyShareEntry::tls_width()
    }
}

impl Parted for KeyShareServerHello {
    type Parts = KeyShareEntry;

    ghost as_parts = { λ bytes is. is };
}

/// The encoding of a [`KeyShareServerHello`], split into its fields.
#[derive(Drop)]
pub struct KeyShareServerHelloView<'a> {
    /// `KeyShareEntry server_share;`
    pub server_share: Encoded<'a, KeyShareEntry>,
}

impl<'a> From<Encoded<'a, KeyShareServerHello>> for KeyShareServerHelloView<'a> {
    ghost from_gives = { λ whole view. whole ≡ view.server_share };

    fn from(whole: Encoded<'a, KeyShareServerHello>) -> KeyShareServerHelloView<'a> {
        let server_share = whole.parts();
        KeyShareServerHelloView { server_share }
    }
}

/// Two values are equal if and only if all their fields are equal.
pub fn is_compared_by_its_fields()
    ensures { (x y : KeyShareServerHello) →
        ⟦<KeyShareServerHello as PartialEq>⟧.eq x y
        ≡ ⟦<KeyShareEntry as PartialEq>⟧.eq x.server_share y.server_share }
{}
