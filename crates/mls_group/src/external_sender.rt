//! [`ExternalSender`].
ghost use Rattle.std.specs.Prelude.{◌≡◌, ◌&&◌, ◌++◌};
ghost use Rattle.mls_group.specs.ExternalSender.{external_sender_format, external_sender_meets, external_sender_plain};
ghost use Rattle.mls_group.specs.declared.external_sender.ExternalSender.{ExternalSender};

use mls_tree::{Credential, SignaturePublicKey};
use std::alloc::Global;
use tls_codec::{ByRef, Deserialize, DeserializeBytes, Error, Serialize, Sink, Size, Source};
use tls_codec_cases::append_as;
use tls_codec_validate::{Rejected, Validate};
use tls_codec_views::{Encoded, Parted};

/// `ExternalSender` (RFC 9420, section 12.1.8.1).
#[derive(PartialEq, Eq, Debug, Clone, Drop)]
pub struct ExternalSender {
    /// `SignaturePublicKey signature_key;`
    pub signature_key: SignaturePublicKey,
    /// `Credential credential;`
    pub credential: Credential,
}

type Parts = (SignaturePublicKey, Credential);

impl Size for ExternalSender {
    ghost plain = { external_sender_plain };

    ghost format = { external_sender_format };

    fn tls_serialized_len(&self) -> usize {
        (ByRef(&self.signature_key), ByRef(&self.credential)).tls_serialized_len()
    }

    ghost lawful = { external_sender_meets };
}

impl Serialize for ExternalSender {
    fn tls_serialize<W: Sink>(&self, writer: &mut W) -> Result<usize, Error> {
        (ByRef(&self.signature_key), ByRef(&self.credential)).tls_serialize(writer)
    }

    fn tls_serialize_into(&self, out: &mut Vec<u8>) -> Result<usize, Error> {
        append_as(
            self,
            &(ByRef(&self.signature_key), ByRef(&self.credential)),
            out,
        )
    }
}

impl Deserialize for ExternalSender {
    ghost names = { ⟦<Parts as Deserialize>⟧.names };

    fn tls_deserialize<R: Source>(alloc: Global, src: &mut R) -> Result<ExternalSender, Error> {
        let (signature_key, credential) = <Parts>::tls_deserialize(alloc, src)?;
        Ok(ExternalSender {
            signature_key,
            credential,
        })
    }
}

impl DeserializeBytes for ExternalSender {
    ghost names = { ⟦<Parts as DeserializeBytes>⟧.names };

    fn tls_deserialize_bytes(
        alloc: Global,
        whole: &[u8],
    ) -> Result<(ExternalSender, &[u8]), Error> {
        let ((signature_key, credential), rest) = <Parts>::tls_deserialize_bytes(alloc, whole)?;
        Ok((
            ExternalSender {
                signature_key,
                credential,
            },
            rest,
        ))
    }
}

impl Validate for ExternalSender {
    ghost places = { ⟦<Parts as Validate>⟧.places };

    fn tls_validate_prefix(whole: &[u8]) -> Result<&[u8], Rejected<'_>> {
        <Parts>::tls_validate_prefix(whole)
    }

    fn tls_width() -> Option<usize> {
        <Parts>::tls_width()
    }
}

impl Parted for ExternalSender {
    type Parts = Parts;

    ghost as_parts = { λ bytes is. is };
}

/// The encoding of a [`ExternalSender`], split into its fields.
#[derive(Drop)]
pub struct ExternalSenderView<'a> {
    /// `SignaturePublicKey signature_key;`
    pub signature_key: Encoded<'a, SignaturePublicKey>,
    /// `Credential credential;`
    pub credential: Encoded<'a, Credential>,
}

impl<'a> From<Encoded<'a, ExternalSender>> for ExternalSenderView<'a> {
    ghost from_gives = { λ whole view. whole ≡ (view.signature_key ++ view.credential) };

    fn from(whole: Encoded<'a, ExternalSender>) -> ExternalSenderView<'a> {
        let (signature_key, credential) = whole.parts().split();
        ExternalSenderView {
            signature_key,
            credential,
        }
    }
}

/// Two values are equal if and only if all their fields are equal.
pub fn is_compared_by_its_fields()
    ensures { (x y : ExternalSender) →
        ⟦<ExternalSender as PartialEq>⟧.eq x y
        ≡ (⟦<SignaturePublicKey as PartialEq>⟧.eq x.signature_key y.signature_key
        && ⟦<Credential as PartialEq>⟧.eq x.credential y.credential) }
{}
