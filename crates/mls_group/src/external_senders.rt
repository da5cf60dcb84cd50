//! [`ExternalSenders`].
ghost use Rattle.std.specs.Prelude.{◌≡◌};
ghost use Rattle.mls_group.specs.ExternalSenders.{external_senders_format, external_senders_meets, external_senders_plain};
ghost use Rattle.mls_group.specs.declared.external_senders.ExternalSenders.{ExternalSenders};

use crate::ExternalSender;
use std::alloc::Global;
use tls_codec::{Deserialize, DeserializeBytes, Error, Serialize, Sink, Size, Source};
use tls_codec_cases::append_as;
use tls_codec_validate::{Rejected, Validate};
use tls_codec_views::{Encoded, Parted};

/// `ExternalSenders` (RFC 9420, section 12.1.8.1).
#[derive(PartialEq, Eq, Debug, Clone, Drop)]
pub struct ExternalSenders {
    /// `ExternalSender external_senders<V>;`
    pub external_senders: Vec<ExternalSender>,
}

impl Size for ExternalSenders {
    ghost plain = { external_senders_plain };

    ghost format = { external_senders_format };

    fn tls_serialized_len(&self) -> usize {
        self.external_senders.tls_serialized_len()
    }

    ghost lawful = { external_senders_meets };
}

impl Serialize for ExternalSenders {
    fn tls_serialize<W: Sink>(&self, writer: &mut W) -> Result<usize, Error> {
        self.external_senders.tls_serialize(writer)
    }

    fn tls_serialize_into(&self, out: &mut Vec<u8>) -> Result<usize, Error> {
        append_as(self, &self.external_senders, out)
    }
}

impl Deserialize for ExternalSenders {
    ghost names = { ⟦<Vec<ExternalSender> as Deserialize>⟧.names };

    fn tls_deserialize<R: Source>(alloc: Global, src: &mut R) -> Result<ExternalSenders, Error> {
        let external_senders = <Vec<ExternalSender>>::tls_deserialize(alloc, src)?;
        Ok(ExternalSenders { external_senders })
    }
}

impl DeserializeBytes for ExternalSenders {
    ghost names = { ⟦<Vec<ExternalSender> as DeserializeBytes>⟧.names };

    fn tls_deserialize_bytes(
        alloc: Global,
        whole: &[u8],
    ) -> Result<(ExternalSenders, &[u8]), Error> {
        let (external_senders, rest) = <Vec<ExternalSender>>::tls_deserialize_bytes(alloc, whole)?;
        Ok((ExternalSenders { external_senders }, rest))
    }
}

impl Validate for ExternalSenders {
    ghost places = { ⟦<Vec<ExternalSender> as Validate>⟧.places };

    fn tls_validate_prefix(whole: &[u8]) -> Result<&[u8], Rejected<'_>> {
        <Vec<ExternalSender>>::tls_validate_prefix(whole)
    }

    fn tls_width() -> Option<usize> {
        <Vec<ExternalSender>>::tls_width()
    }
}

impl Parted for ExternalSenders {
    type Parts = Box<Vec<ExternalSender>>;

    ghost as_parts = { λ bytes is. is };
}

/// The encoding of a [`ExternalSenders`], split into its fields.
#[derive(Drop)]
pub struct ExternalSendersView<'a> {
    /// `ExternalSender external_senders<V>;`
    pub external_senders: Encoded<'a, Vec<ExternalSender>>,
}

impl<'a> From<Encoded<'a, ExternalSenders>> for ExternalSendersView<'a> {
    ghost from_gives = { λ whole view. whole ≡ view.external_senders };

    fn from(whole: Encoded<'a, ExternalSenders>) -> ExternalSendersView<'a> {
        let external_senders = whole.parts().payload();
        ExternalSendersView { external_senders }
    }
}

/// Two values are equal if and only if all their fields are equal.
pub fn is_compared_by_its_fields()
    ensures { (x y : ExternalSenders) →
        ⟦<ExternalSenders as PartialEq>⟧.eq x y
        ≡ ⟦<Vec<ExternalSender> as PartialEq>⟧.eq x.external_senders y.external_senders }
{}
