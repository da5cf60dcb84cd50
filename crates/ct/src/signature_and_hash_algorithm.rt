//! [`SignatureAndHashAlgorithm`].
ghost use Rattle.std.specs.Prelude.{◌≡◌, ◌&&◌, ◌++◌};
ghost use Rattle.ct.specs.SignatureAndHashAlgorithm.{signature_and_hash_algorithm_format, signature_and_hash_algorithm_meets, signature_and_hash_algorithm_plain};
ghost use Rattle.ct.specs.declared.signature_and_hash_algorithm.SignatureAndHashAlgorithm.{SignatureAndHashAlgorithm};

use crate::{HashAlgorithm, SignatureAlgorithm};
use std::alloc::Global;
use tls_codec::{ByRef, Deserialize, DeserializeBytes, Error, Serialize, Sink, Size, Source};
use tls_codec_cases::append_as;
use tls_codec_validate::{Rejected, Validate};
use tls_codec_views::{Encoded, Parted};

/// `SignatureAndHashAlgorithm` (RFC 5246, section 7.4.1.4.1).
#[derive(PartialEq, Eq, Debug, Clone, Drop)]
pub struct SignatureAndHashAlgorithm {
    /// `HashAlgorithm hash;`
    pub hash: HashAlgorithm,
    /// `SignatureAlgorithm signature;`
    pub signature: SignatureAlgorithm,
}

type Parts = (HashAlgorithm, SignatureAlgorithm);

impl Size for SignatureAndHashAlgorithm {
    ghost plain = { signature_and_hash_algorithm_plain };

    ghost format = { signature_and_hash_algorithm_format };

    fn tls_serialized_len(&self) -> usize {
        (ByRef(&self.hash), ByRef(&self.signature)).tls_serialized_len()
    }

    ghost lawful = { signature_and_hash_algorithm_meets };
}

impl Serialize for SignatureAndHashAlgorithm {
    fn tls_serialize<W: Sink>(&self, writer: &mut W) -> Result<usize, Error> {
        (ByRef(&self.hash), ByRef(&self.signature)).tls_serialize(writer)
    }

    fn tls_serialize_into(&self, out: &mut Vec<u8>) -> Result<usize, Error> {
        append_as(self, &(ByRef(&self.hash), ByRef(&self.signature)), out)
    }
}

impl Deserialize for SignatureAndHashAlgorithm {
    ghost names = { ⟦<Parts as Deserialize>⟧.names };

    fn tls_deserialize<R: Source>(
        alloc: Global,
        src: &mut R,
    ) -> Result<SignatureAndHashAlgorithm, Error> {
        let (hash, signature) = <Parts>::tls_deserialize(alloc, src)?;
        Ok(SignatureAndHashAlgorithm { hash, signature })
    }
}

impl DeserializeBytes for SignatureAndHashAlgorithm {
    ghost names = { ⟦<Parts as DeserializeBytes>⟧.names };

    fn tls_deserialize_bytes(
        alloc: Global,
        whole: &[u8],
    ) -> Result<(SignatureAndHashAlgorithm, &[u8]), Error> {
        let ((hash, signature), rest) = <Parts>::tls_deserialize_bytes(alloc, whole)?;
        Ok((SignatureAndHashAlgorithm { hash, signature }, rest))
    }
}

impl Validate for SignatureAndHashAlgorithm {
    ghost places = { ⟦<Parts as Validate>⟧.places };

    fn tls_validate_prefix(whole: &[u8]) -> Result<&[u8], Rejected<'_>> {
        <Parts>::tls_validate_prefix(whole)
    }

    fn tls_width() -> Option<usize> {
        <Parts>::tls_width()
    }
}

impl Parted for SignatureAndHashAlgorithm {
    type Parts = Parts;

    ghost as_parts = { λ bytes is. is };
}

/// The encoding of a [`SignatureAndHashAlgorithm`], split into its fields.
#[derive(Drop)]
pub struct SignatureAndHashAlgorithmView<'a> {
    /// `HashAlgorithm hash;`
    pub hash: Encoded<'a, HashAlgorithm>,
    /// `SignatureAlgorithm signature;`
    pub signature: Encoded<'a, SignatureAlgorithm>,
}

impl<'a> From<Encoded<'a, SignatureAndHashAlgorithm>> for SignatureAndHashAlgorithmView<'a> {
    ghost from_gives = { λ whole view. whole ≡ (view.hash ++ view.signature) };

    fn from(whole: Encoded<'a, SignatureAndHashAlgorithm>) -> SignatureAndHashAlgorithmView<'a> {
        let (hash, signature) = whole.parts().split();
        SignatureAndHashAlgorithmView { hash, signature }
    }
}

/// Two values are equal if and only if all their fields are equal.
pub fn is_compared_by_its_fields()
    ensures { (x y : SignatureAndHashAlgorithm) →
        ⟦<SignatureAndHashAlgorithm as PartialEq>⟧.eq x y
        ≡ (⟦<HashAlgorithm as PartialEq>⟧.eq x.hash y.hash
        && ⟦<SignatureAlgorithm as PartialEq>⟧.eq x.signature y.signature) }
{}
