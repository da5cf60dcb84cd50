//! [`DigitallySigned`].
ghost use Rattle.std.specs.Prelude.{◌≡◌, ◌&&◌, ◌++◌};
ghost use Rattle.ct.specs.DigitallySigned.{digitally_signed_format, digitally_signed_meets, digitally_signed_plain};
ghost use Rattle.ct.specs.declared.digitally_signed.DigitallySigned.{DigitallySigned};

use crate::SignatureAndHashAlgorithm;
use std::alloc::Global;
use tls_codec::{
    ByRef, Deserialize, DeserializeBytes, Error, Serialize, Sink, Size, Source, TlsByteVecU16,
};
use tls_codec_cases::append_as;
use tls_codec_validate::{Rejected, Validate};
use tls_codec_views::{Encoded, Parted};

/// `DigitallySigned` (RFC 5246, section 4.7).
#[derive(PartialEq, Eq, Debug, Clone, Drop)]
pub struct DigitallySigned {
    /// `SignatureAndHashAlgorithm algorithm;`
    pub algorithm: SignatureAndHashAlgorithm,
    /// `opaque signature<0..2^16-1>;`
    pub signature: TlsByteVecU16,
}

type Parts = (SignatureAndHashAlgorithm, TlsByteVecU16);

impl Size for DigitallySigned {
    ghost plain = { digitally_signed_plain };

    ghost format = { digitally_signed_format };

    fn tls_serialized_len(&self) -> usize {
        (ByRef(&self.algorithm), ByRef(&self.signature)).tls_serialized_len()
    }

    ghost lawful = { digitally_signed_meets };
}

impl Serialize for DigitallySigned {
    fn tls_serialize<W: Sink>(&self, writer: &mut W) -> Result<usize, Error> {
        (ByRef(&self.algorithm), ByRef(&self.signature)).tls_serialize(writer)
    }

    fn tls_serialize_into(&self, out: &mut Vec<u8>) -> Result<usize, Error> {
        append_as(self, &(ByRef(&self.algorithm), ByRef(&self.signature)), out)
    }
}

impl Deserialize for DigitallySigned {
    ghost names = { ⟦<Parts as Deserialize>⟧.names };

    fn tls_deserialize<R: Source>(alloc: Global, src: &mut R) -> Result<DigitallySigned, Error> {
        let (algorithm, signature) = <Parts>::tls_deserialize(alloc, src)?;
        Ok(DigitallySigned {
            algorithm,
            signature,
        })
    }
}

impl DeserializeBytes for DigitallySigned {
    ghost names = { ⟦<Parts as DeserializeBytes>⟧.names };

    fn tls_deserialize_bytes(
        alloc: Global,
        whole: &[u8],
    ) -> Result<(DigitallySigned, &[u8]), Error> {
        let ((algorithm, signature), rest) = <Parts>::tls_deserialize_bytes(alloc, whole)?;
        Ok((
            DigitallySigned {
                algorithm,
                signature,
            },
            rest,
        ))
    }
}

impl Validate for DigitallySigned {
    ghost places = { ⟦<Parts as Validate>⟧.places };

    fn tls_validate_prefix(whole: &[u8]) -> Result<&[u8], Rejected<'_>> {
        <Parts>::tls_validate_prefix(whole)
    }

    fn tls_width() -> Option<usize> {
        <Parts>::tls_width()
    }
}

impl Parted for DigitallySigned {
    type Parts = Parts;

    ghost as_parts = { λ bytes is. is };
}

/// The encoding of a [`DigitallySigned`], split into its fields.
#[derive(Drop)]
pub struct DigitallySignedView<'a> {
    /// `SignatureAndHashAlgorithm algorithm;`
    pub algorithm: Encoded<'a, SignatureAndHashAlgorithm>,
    /// `opaque signature<0..2^16-1>;`
    pub signature: Encoded<'a, TlsByteVecU16>,
}

impl<'a> From<Encoded<'a, DigitallySigned>> for DigitallySignedView<'a> {
    ghost from_gives = { λ whole view. whole ≡ (view.algorithm ++ view.signature) };

    fn from(whole: Encoded<'a, DigitallySigned>) -> DigitallySignedView<'a> {
        let (algorithm, signature) = whole.parts().split();
        DigitallySignedView {
            algorithm,
            signature,
        }
    }
}

/// Two values are equal if and only if all their fields are equal.
pub fn is_compared_by_its_fields()
    ensures { (x y : DigitallySigned) →
        ⟦<DigitallySigned as PartialEq>⟧.eq x y
        ≡ (⟦<SignatureAndHashAlgorithm as PartialEq>⟧.eq x.algorithm y.algorithm
        && ⟦<TlsByteVecU16 as PartialEq>⟧.eq x.signature y.signature) }
{}
