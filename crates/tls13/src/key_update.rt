//! [`KeyUpdate`].
ghost use Rattle.std.specs.Prelude.{◌≡◌};
ghost use Rattle.tls13.specs.KeyUpdate.{key_update_format, key_update_meets, key_update_plain};
ghost use Rattle.tls13.specs.declared.key_update.KeyUpdate.{KeyUpdate};

use crate::KeyUpdateRequest;
use std::alloc::Global;
use tls_codec::{Deserialize, DeserializeBytes, Error, Serialize, Sink, Size, Source};
use tls_codec_cases::append_as;
use tls_codec_validate::{Rejected, Validate};
use tls_codec_views::{Encoded, Parted};

/// `KeyUpdate` (RFC 8446, appendix B.3.5).
#[derive(PartialEq, Eq, Debug, Clone, Drop)]
pub struct KeyUpdate {
    /// `KeyUpdateRequest request_update;`
    pub request_update: KeyUpdateRequest,
}

impl Size for KeyUpdate {
    ghost plain = { key_update_plain };

    ghost format = { key_update_format };

    fn tls_serialized_len(&self) -> usize {
        self.request_update.tls_serialized_len()
    }

    ghost lawful = { key_update_meets };
}

impl Serialize for KeyUpdate {
    fn tls_serialize<W: Sink>(&self, writer: &mut W) -> Result<usize, Error> {
        self.request_update.tls_serialize(writer)
    }

    fn tls_serialize_into(&self, out: &mut Vec<u8>) -> Result<usize, Error> {
        append_as(self, &self.request_update, out)
    }
}

impl Deserialize for KeyUpdate {
    ghost names = { ⟦<KeyUpdateRequest as Deserialize>⟧.names };

    fn tls_deserialize<R: Source>(alloc: Global, src: &mut R) -> Result<KeyUpdate, Error> {
        let request_update = KeyUpdateRequest::tls_deserialize(alloc, src)?;
        Ok(KeyUpdate { request_update })
    }
}

impl DeserializeBytes for KeyUpdate {
    ghost names = { ⟦<KeyUpdateRequest as DeserializeBytes>⟧.names };

    fn tls_deserialize_bytes(alloc: Global, whole: &[u8]) -> Result<(KeyUpdate, &[u8]), Error> {
        let (request_update, rest) = KeyUpdateRequest::tls_deserialize_bytes(alloc, whole)?;
        Ok((KeyUpdate { request_update }, rest))
    }
}

impl Validate for KeyUpdate {
    ghost places = { ⟦<KeyUpdateRequest as Validate>⟧.places };

    fn tls_validate_prefix(whole: &[u8]) -> Result<&[u8], Rejected<'_>> {
        KeyUpdateRequest::tls_validate_prefix(whole)
    }

    fn tls_width() -> Option<usize> {
        KeyUpdateRequest::tls_width()
    }
}

impl Parted for KeyUpdate {
    type Parts = KeyUpdateRequest;

    ghost as_parts = { λ bytes is. is };
}

/// The encoding of a [`KeyUpdate`], split into its fields.
#[derive(Drop)]
pub struct KeyUpdateView<'a> {
    /// `KeyUpdateRequest request_update;`
    pub request_update: Encoded<'a, KeyUpdateRequest>,
}

impl<'a> From<Encoded<'a, KeyUpdate>> for KeyUpdateView<'a> {
    ghost from_gives = { λ whole view. whole ≡ view.request_update };

    fn from(whole: Encoded<'a, KeyUpdate>) -> KeyUpdateView<'a> {
        let request_update = whole.parts();
        KeyUpdateView { request_update }
    }
}

/// Two values are equal if and only if all their fields are equal.
pub fn is_compared_by_its_fields()
    ensures { (x y : KeyUpdate) →
        ⟦<KeyUpdate as PartialEq>⟧.eq x y
        ≡ ⟦<KeyUpdateRequest as PartialEq>⟧.eq x.request_update y.request_update }
{}
