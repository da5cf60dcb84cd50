//! [`PreSharedKeyID`].
ghost use Rattle.std.specs.Prelude.{◌≡◌, ◌&&◌, ◌++◌};
ghost use Rattle.mls_group.specs.PreSharedKeyID.{pre_shared_key_id_format, pre_shared_key_id_meets, pre_shared_key_id_plain};
ghost use Rattle.mls_group.specs.declared.pre_shared_key_id.PreSharedKeyID.{PreSharedKeyID};

use crate::PSKOrigin;
use std::alloc::Global;
use tls_codec::{
    ByRef, Deserialize, DeserializeBytes, Error, Serialize, Sink, Size, Source, VLBytes,
};
use tls_codec_cases::append_as;
use tls_codec_validate::{Rejected, Validate};
use tls_codec_views::{Encoded, Parted};

/// `PreSharedKeyID` (RFC 9420, section 8.4).
#[derive(PartialEq, Eq, Debug, Clone, Drop)]
pub struct PreSharedKeyID {
    /// `PSKType psktype; select (psktype);`
    pub psktype: PSKOrigin,
    /// `opaque psk_nonce<V>;`
    pub psk_nonce: VLBytes,
}

type Parts = (PSKOrigin, VLBytes);

impl Size for PreSharedKeyID {
    ghost plain = { pre_shared_key_id_plain };

    ghost format = { pre_shared_key_id_format };

    fn tls_serialized_len(&self) -> usize {
        (ByRef(&self.psktype), ByRef(&self.psk_nonce)).tls_serialized_len()
    }

    ghost lawful = { pre_shared_key_id_meets };
}

impl Serialize for PreSharedKeyID {
    fn tls_serialize<W: Sink>(&self, writer: &mut W) -> Result<usize, Error> {
        (ByRef(&self.psktype), ByRef(&self.psk_nonce)).tls_serialize(writer)
    }

    fn tls_serialize_into(&self, out: &mut Vec<u8>) -> Result<usize, Error> {
        append_as(self, &(ByRef(&self.psktype), ByRef(&self.psk_nonce)), out)
    }
}

impl Deserialize for PreSharedKeyID {
    ghost names = { ⟦<Parts as Deserialize>⟧.names };

    fn tls_deserialize<R: Source>(alloc: Global, src: &mut R) -> Result<PreSharedKeyID, Error> {
        let (psktype, psk_nonce) = <Parts>::tls_deserialize(alloc, src)?;
        Ok(PreSharedKeyID { psktype, psk_nonce })
    }
}

impl DeserializeBytes for PreSharedKeyID {
    ghost names = { ⟦<Parts as DeserializeBytes>⟧.names };

    fn tls_deserialize_bytes(
        alloc: Global,
        whole: &[u8],
    ) -> Result<(PreSharedKeyID, &[u8]), Error> {
        let ((psktype, psk_nonce), rest) = <Parts>::tls_deserialize_bytes(alloc, whole)?;
        Ok((PreSharedKeyID { psktype, psk_nonce }, rest))
    }
}

impl Validate for PreSharedKeyID {
    ghost places = { ⟦<Parts as Validate>⟧.places };

    fn tls_validate_prefix(whole: &[u8]) -> Result<&[u8], Rejected<'_>> {
        <Parts>::tls_validate_prefix(whole)
    }

    fn tls_width() -> Option<usize> {
        <Parts>::tls_width()
    }
}

impl Parted for PreSharedKeyID {
    type Parts = Parts;

    ghost as_parts = { λ bytes is. is };
}

/// The encoding of a [`PreSharedKeyID`], split into its fields.
#[derive(Drop)]
pub struct PreSharedKeyIDView<'a> {
    /// `PSKType psktype; select (psktype);`
    pub psktype: Encoded<'a, PSKOrigin>,
    /// `opaque psk_nonce<V>;`
    pub psk_nonce: Encoded<'a, VLBytes>,
}

impl<'a> From<Encoded<'a, PreSharedKeyID>> for PreSharedKeyIDView<'a> {
    ghost from_gives = { λ whole view. whole ≡ (view.psktype ++ view.psk_nonce) };

    fn from(whole: Encoded<'a, PreSharedKeyID>) -> PreSharedKeyIDView<'a> {
        let (psktype, psk_nonce) = whole.parts().split();
        PreSharedKeyIDView { psktype, psk_nonce }
    }
}

/// Two values are equal if and only if all their fields are equal.
pub fn is_compared_by_its_fields()
    ensures { (x y : PreSharedKeyID) →
        ⟦<PreSharedKeyID as PartialEq>⟧.eq x y
        ≡ (⟦<PSKOrigin as PartialEq>⟧.eq x.psktype y.psktype
        && ⟦<VLBytes as PartialEq>⟧.eq x.psk_nonce y.psk_nonce) }
{}
