//! [`PreSharedKey`].
ghost use Rattle.std.specs.Prelude.{◌≡◌};
ghost use Rattle.mls_group.specs.PreSharedKey.{pre_shared_key_format, pre_shared_key_meets, pre_shared_key_plain};
ghost use Rattle.mls_group.specs.declared.pre_shared_key.PreSharedKey.{PreSharedKey};

use crate::PreSharedKeyID;
use std::alloc::Global;
use tls_codec::{Deserialize, DeserializeBytes, Error, Serialize, Sink, Size, Source};
use tls_codec_cases::append_as;
use tls_codec_validate::{Rejected, Validate};
use tls_codec_views::{Encoded, Parted};

/// `PreSharedKey` (RFC 9420, section 12.1.4).
#[derive(PartialEq, Eq, Debug, Clone, Drop)]
pub struct PreSharedKey {
    /// `PreSharedKeyID psk;`
    pub psk: PreSharedKeyID,
}

impl Size for PreSharedKey {
    ghost plain = { pre_shared_key_plain };

    ghost format = { pre_shared_key_format };

    fn tls_serialized_len(&self) -> usize {
        self.psk.tls_serialized_len()
    }

    ghost lawful = { pre_shared_key_meets };
}

impl Serialize for PreSharedKey {
    fn tls_serialize<W: Sink>(&self, writer: &mut W) -> Result<usize, Error> {
        self.psk.tls_serialize(writer)
    }

    fn tls_serialize_into(&self, out: &mut Vec<u8>) -> Result<usize, Error> {
        append_as(self, &self.psk, out)
    }
}

impl Deserialize for PreSharedKey {
    ghost names = { ⟦<PreSharedKeyID as Deserialize>⟧.names };

    fn tls_deserialize<R: Source>(alloc: Global, src: &mut R) -> Result<PreSharedKey, Error> {
        let psk = PreSharedKeyID::tls_deserialize(alloc, src)?;
        Ok(PreSharedKey { psk })
    }
}

impl DeserializeBytes for PreSharedKey {
    ghost names = { ⟦<PreSharedKeyID as DeserializeBytes>⟧.names };

    fn tls_deserialize_bytes(alloc: Global, whole: &[u8]) -> Result<(PreSharedKey, &[u8]), Error> {
        let (psk, rest) = PreSharedKeyID::tls_deserialize_bytes(alloc, whole)?;
        Ok((PreSharedKey { psk }, rest))
    }
}

impl Validate for PreSharedKey {
    ghost places = { ⟦<PreSharedKeyID as Validate>⟧.places };

    fn tls_validate_prefix(whole: &[u8]) -> Result<&[u8], Rejected<'_>> {
        PreSharedKeyID::tls_validate_prefix(whole)
    }

    fn tls_width() -> Option<usize> {
        PreSharedKeyID::tls_width()
    }
}

impl Parted for PreSharedKey {
    type Parts = PreSharedKeyID;

    ghost as_parts = { λ bytes is. is };
}

/// The encoding of a [`PreSharedKey`], split into its fields.
#[derive(Drop)]
pub struct PreSharedKeyView<'a> {
    /// `PreSharedKeyID psk;`
    pub psk: Encoded<'a, PreSharedKeyID>,
}

impl<'a> From<Encoded<'a, PreSharedKey>> for PreSharedKeyView<'a> {
    ghost from_gives = { λ whole view. whole ≡ view.psk };

    fn from(whole: Encoded<'a, PreSharedKey>) -> PreSharedKeyView<'a> {
        let psk = whole.parts();
        PreSharedKeyView { psk }
    }
}

/// Two values are equal if and only if all their fields are equal.
pub fn is_compared_by_its_fields()
    ensures { (x y : PreSharedKey) →
        ⟦<PreSharedKey as PartialEq>⟧.eq x y
        ≡ ⟦<PreSharedKeyID as PartialEq>⟧.eq x.psk y.psk }
{}
