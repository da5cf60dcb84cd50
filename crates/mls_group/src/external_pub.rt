//! [`ExternalPub`].
ghost use Rattle.std.specs.Prelude.{◌≡◌};
ghost use Rattle.mls_group.specs.ExternalPub.{external_pub_format, external_pub_meets, external_pub_plain};
ghost use Rattle.mls_group.specs.declared.external_pub.ExternalPub.{ExternalPub};

use mls_tree::HPKEPublicKey;
use std::alloc::Global;
use tls_codec::{Deserialize, DeserializeBytes, Error, Serialize, Sink, Size, Source};
use tls_codec_cases::append_as;
use tls_codec_validate::{Rejected, Validate};
use tls_codec_views::{Encoded, Parted};

/// `ExternalPub` (RFC 9420, section 12.4.3.2).
#[derive(PartialEq, Eq, Debug, Clone, Drop)]
pub struct ExternalPub {
    /// `HPKEPublicKey external_pub;`
    pub external_pub: HPKEPublicKey,
}

impl Size for ExternalPub {
    ghost plain = { external_pub_plain };

    ghost format = { external_pub_format };

    fn tls_serialized_len(&self) -> usize {
        self.external_pub.tls_serialized_len()
    }

    ghost lawful = { external_pub_meets };
}

impl Serialize for ExternalPub {
    fn tls_serialize<W: Sink>(&self, writer: &mut W) -> Result<usize, Error> {
        self.external_pub.tls_serialize(writer)
    }

    fn tls_serialize_into(&self, out: &mut Vec<u8>) -> Result<usize, Error> {
        append_as(self, &self.external_pub, out)
    }
}

impl Deserialize for ExternalPub {
    ghost names = { ⟦<HPKEPublicKey as Deserialize>⟧.names };

    fn tls_deserialize<R: Source>(alloc: Global, src: &mut R) -> Result<ExternalPub, Error> {
        let external_pub = HPKEPublicKey::tls_deserialize(alloc, src)?;
        Ok(ExternalPub { external_pub })
    }
}

impl DeserializeBytes for ExternalPub {
    ghost names = { ⟦<HPKEPublicKey as DeserializeBytes>⟧.names };

    fn tls_deserialize_bytes(alloc: Global, whole: &[u8]) -> Result<(ExternalPub, &[u8]), Error> {
        let (external_pub, rest) = HPKEPublicKey::tls_deserialize_bytes(alloc, whole)?;
        Ok((ExternalPub { external_pub }, rest))
    }
}

impl Validate for ExternalPub {
    ghost places = { ⟦<HPKEPublicKey as Validate>⟧.places };

    fn tls_validate_prefix(whole: &[u8]) -> Result<&[u8], Rejected<'_>> {
        HPKEPublicKey::tls_validate_prefix(whole)
    }

    fn tls_width() -> Option<usize> {
        HPKEPublicKey::tls_width()
    }
}

impl Parted for ExternalPub {
    type Parts = HPKEPublicKey;

    ghost as_parts = { λ bytes is. is };
}

/// The encoding of a [`ExternalPub`], split into its fields.
#[derive(Drop)]
pub struct ExternalPubView<'a> {
    /// `HPKEPublicKey external_pub;`
    pub external_pub: Encoded<'a, HPKEPublicKey>,
}

impl<'a> From<Encoded<'a, ExternalPub>> for ExternalPubView<'a> {
    ghost from_gives = { λ whole view. whole ≡ view.external_pub };

    fn from(whole: Encoded<'a, ExternalPub>) -> ExternalPubView<'a> {
        let external_pub = whole.parts();
        ExternalPubView { external_pub }
    }
}

/// Two values are equal if and only if all their fields are equal.
pub fn is_compared_by_its_fields()
    ensures { (x y : ExternalPub) →
        ⟦<ExternalPub as PartialEq>⟧.eq x y
        ≡ ⟦<HPKEPublicKey as PartialEq>⟧.eq x.external_pub y.external_pub }
{}
