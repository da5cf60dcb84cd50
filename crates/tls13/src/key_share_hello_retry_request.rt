//! [`KeyShareHelloRetryRequest`].
ghost use Rattle.std.specs.Prelude.{◌≡◌};
ghost use Rattle.tls13.specs.KeyShareHelloRetryRequest.{key_share_hello_retry_request_format, key_share_hello_retry_request_meets, key_share_hello_retry_request_plain};
ghost use Rattle.tls13.specs.declared.key_share_hello_retry_request.KeyShareHelloRetryRequest.{KeyShareHelloRetryRequest};

use crate::NamedGroup;
use std::alloc::Global;
use tls_codec::{Deserialize, DeserializeBytes, Error, Serialize, Sink, Size, Source};
use tls_codec_cases::append_as;
use tls_codec_validate::{Rejected, Validate};
use tls_codec_views::{Encoded, Parted};

/// `KeyShareHelloRetryRequest` (RFC 8446, appendix B.3.1).
#[derive(PartialEq, Eq, Debug, Clone, Drop)]
pub struct KeyShareHelloRetryRequest {
    /// `NamedGroup selected_group;`
    pub selected_group: NamedGroup,
}

impl Size for KeyShareHelloRetryRequest {
    ghost plain = { key_share_hello_retry_request_plain };

    ghost format = { key_share_hello_retry_request_format };

    fn tls_serialized_len(&self) -> usize {
        self.selected_group.tls_serialized_len()
    }

    ghost lawful = { key_share_hello_retry_request_meets };
}

impl Serialize for KeyShareHelloRetryRequest {
    fn tls_serialize<W: Sink>(&self, writer: &mut W) -> Result<usize, Error> {
        self.selected_group.tls_serialize(writer)
    }

    fn tls_serialize_into(&self, out: &mut Vec<u8>) -> Result<usize, Error> {
        append_as(self, &self.selected_group, out)
    }
}

impl Deserialize for KeyShareHelloRetryRequest {
    ghost names = { ⟦<NamedGroup as Deserialize>⟧.names };

    fn tls_deserialize<R: Source>(
        alloc: Global,
        src: &mut R,
    ) -> Result<KeyShareHelloRetryRequest, Error> {
        let selected_group = NamedGroup::tls_deserialize(alloc, src)?;
        Ok(KeyShareHelloRetryRequest { selected_group })
    }
}

impl DeserializeBytes for KeyShareHelloRetryRequest {
    ghost names = { ⟦<NamedGroup as DeserializeBytes>⟧.names };

    fn tls_deserialize_bytes(
        alloc: Global,
        whole: &[u8],
    ) -> Result<(KeyShareHelloRetryRequest, &[u8]), Error> {
        let (selected_group, rest) = NamedGroup::tls_deserialize_bytes(alloc, whole)?;
        Ok((KeyShareHelloRetryRequest { selected_group }, rest))
    }
}

impl Validate for KeyShareHelloRetryRequest {
    ghost places = { ⟦<NamedGroup as Validate>⟧.places };

    fn tls_validate_prefix(whole: &[u8]) -> Result<&[u8], Rejected<'_>> {
        NamedGroup::tls_validate_prefix(whole)
    }

    fn tls_width() -> Option<usize> {
        NamedGroup::tls_width()
    }
}

impl Parted for KeyShareHelloRetryRequest {
    type Parts = NamedGroup;

    ghost as_parts = { λ bytes is. is };
}

/// The encoding of a [`KeyShareHelloRetryRequest`], split into its fields.
#[derive(Drop)]
pub struct KeyShareHelloRetryRequestView<'a> {
    /// `NamedGroup selected_group;`
    pub selected_group: Encoded<'a, NamedGroup>,
}

impl<'a> From<Encoded<'a, KeyShareHelloRetryRequest>> for KeyShareHelloRetryRequestView<'a> {
    ghost from_gives = { λ whole view. whole ≡ view.selected_group };

    fn from(whole: Encoded<'a, KeyShareHelloRetryRequest>) -> KeyShareHelloRetryRequestView<'a> {
        let selected_group = whole.parts();
        KeyShareHelloRetryRequestView { selected_group }
    }
}

/// Two values are equal if and only if all their fields are equal.
pub fn is_compared_by_its_fields()
    ensures { (x y : KeyShareHelloRetryRequest) →
        ⟦<KeyShareHelloRetryRequest as PartialEq>⟧.eq x y
        ≡ ⟦<NamedGroup as PartialEq>⟧.eq x.selected_group y.selected_group }
{}
