//! [`KeyShareEntry`], a group and a public key.
ghost use Rattle.handshake_by_hand.specs.KeyShares.{key_share_entry_format, key_share_entry_meets, key_share_entry_plain};

use std::alloc::Global;
use tls_codec::{
    ByRef, Deserialize, DeserializeBytes, Error, Serialize, Sink, Size, Source, TlsByteVec, Within,
};

/// `KeyShareEntry` (RFC 8446, section 4.2.8).
#[derive(PartialEq, Eq, Debug, Clone, Drop)]
pub struct KeyShareEntry {
    /// `NamedGroup group;`
    pub group: u16,
    /// `opaque key_exchange<1..2^16-1>;`
    pub key_exchange: TlsByteVec<Within<u16, 1, 0xffff>>,
}

type Parts = (u16, TlsByteVec<Within<u16, 1, 0xffff>>);

impl Size for KeyShareEntry {
    ghost plain = { key_share_entry_plain };

    ghost format = { key_share_entry_format };

    fn tls_serialized_len(&self) -> usize {
        (ByRef(&self.group), ByRef(&self.key_exchange)).tls_serialized_len()
    }

    ghost lawful = { key_share_entry_meets };
}

impl Serialize for KeyShareEntry {
    fn tls_serialize<W: Sink>(&self, writer: &mut W) -> Result<usize, Error> {
        (ByRef(&self.group), ByRef(&self.key_exchange)).tls_serialize(writer)
    }

    fn tls_serialize_into(&self, out: &mut Vec<u8>) -> Result<usize, Error> {
        (ByRef(&self.group), ByRef(&self.key_exchange)).tls_serialize_into(out)
    }
}

impl Deserialize for KeyShareEntry {
    ghost names = { ⟦<Parts as Deserialize>⟧.names };

    fn tls_deserialize<R: Source>(alloc: Global, src: &mut R) -> Result<KeyShareEntry, Error> {
        let (group, key_exchange) = <Parts>::tls_deserialize(alloc, src)?;
        Ok(KeyShareEntry {
            group,
            key_exchange,
        })
    }
}

impl DeserializeBytes for KeyShareEntry {
    ghost names = { ⟦<Parts as DeserializeBytes>⟧.names };

    fn tls_deserialize_bytes(alloc: Global, whole: &[u8]) -> Result<(KeyShareEntry, &[u8]), Error> {
        let ((group, key_exchange), rest) = <Parts>::tls_deserialize_bytes(alloc, whole)?;
        let entry = KeyShareEntry {
            group,
            key_exchange,
        };
        Ok((entry, rest))
    }
}
