//! [`KeyShareClientHello`].
ghost use Rattle.std.specs.Prelude.{◌≡◌};
ghost use Rattle.tls13.specs.KeyShareClientHello.{key_share_client_hello_format, key_share_client_hello_meets, key_share_client_hello_plain};
ghost use Rattle.tls13.specs.declared.key_share_client_hello.KeyShareClientHello.{KeyShareClientHello};

use crate::KeyShareEntry;
use std::alloc::Global;
use tls_codec::{Deserialize, DeserializeBytes, Error, Serialize, Sink, Size, Source, TlsVecU16};
use tls_codec_cases::append_as;
use tls_codec_validate::{Rejected, Validate};
use tls_codec_views::{Encoded, Parted};

/// `KeyShareClientHello` (RFC 8446, appendix B.3.1).
#[derive(PartialEq, Eq, Debug, Clone, Drop)]
pub struct KeyShareClientHello {
    /// `KeyShareEntry client_shares<0..2^16-1>;`
    pub client_shares: TlsVecU16<KeyShareEntry>,
}

impl Size for KeyShareClientHello {
    ghost plain = { key_share_client_hello_plain };

    ghost format = { key_share_client_hello_format };

    fn tls_serialized_len(&self) -> usize {
        self.client_shares.tls_serialized_len()
    }

    ghost lawful = { key_share_client_hello_meets };
}

impl Serialize for KeyShareClientHello {
    fn tls_serialize<W: Sink>(&self, writer: &mut W) -> Result<usize, Error> {
        self.client_shares.tls_serialize(writer)
    }

    fn tls_serialize_into(&self, out: &mut Vec<u8>) -> Result<usize, Error> {
        append_as(self, &self.client_shares, out)
    }
}

impl Deserialize for KeyShareClientHello {
    ghost names = { ⟦<TlsVecU16<KeyShareEntry> as Deserialize>⟧.names };

    fn tls_deserialize<R: Source>(
        alloc: Global,
        src: &mut R,
    ) -> Result<KeyShareClientHello, Error> {
        let client_shares = <TlsVecU16<KeyShareEntry>>::tls_deserialize(alloc, src)?;
        Ok(KeyShareClientHello { client_shares })
    }
}

impl DeserializeBytes for KeyShareClientHello {
    ghost names = { ⟦<TlsVecU16<KeyShareEntry> as DeserializeBytes>⟧.names };

    fn tls_deserialize_bytes(
        alloc: Global,
        whole: &[u8],
    ) -> Result<(KeyShareClientHello, &[u8]), Error> {
        let (client_shares, rest) = <TlsVecU16<KeyShareEntry>>::tls_deserialize_bytes(
            alloc, whole,
        )?;
        Ok((KeyShareClientHello { client_shares }, rest))
    }
}

impl Validate for KeyShareClientHello {
    ghost places = { ⟦<TlsVecU16<KeyShareEntry> as Validate>⟧.places };

    fn tls_validate_prefix(whole: &[u8]) -> Result<&[u8], Rejected<'_>> {
        <TlsVecU16<KeyShareEntry>>::tls_validate_prefix(whole)
    }

    fn tls_width() -> Option<usize> {
        <TlsVecU16<KeyShareEntry>>::tls_width()
    }
}

impl Parted for KeyShareClientHello {
    type Parts = Box<TlsVecU16<KeyShareEntry>>;

    ghost as_parts = { λ bytes is. is };
}

/// The encoding of a [`KeyShareClientHello`], split into its fields.
#[derive(Drop)]
pub struct KeyShareClientHelloView<'a> {
    /// `KeyShareEntry client_shares<0..2^16-1>;`
    pub client_shares: Encoded<'a, TlsVecU16<KeyShareEntry>>,
}

impl<'a> From<Encoded<'a, KeyShareClientHello>> for KeyShareClientHelloView<'a> {
    ghost from_gives = { λ whole view. whole ≡ view.client_shares };

    fn from(whole: Encoded<'a, KeyShareClientHello>) -> KeyShareClientHelloView<'a> {
        let client_shares = whole.parts().payload();
        KeyShareClientHelloView { client_shares }
    }
}

/// Two values are equal if and only if all their fields are equal.
pub fn is_compared_by_its_fields()
    ensures { (x y : KeyShareClientHello) →
        ⟦<KeyShareClientHello as PartialEq>⟧.eq x y
        ≡ ⟦<TlsVecU16<KeyShareEntry> as PartialEq>⟧.eq x.client_shares y.client_shares }
{}
