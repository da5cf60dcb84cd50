//! [`HPKECiphertext`].
ghost use Rattle.std.specs.Prelude.{◌≡◌, ◌&&◌, ◌++◌};
ghost use Rattle.mls_group.specs.HPKECiphertext.{hpke_ciphertext_format, hpke_ciphertext_meets, hpke_ciphertext_plain};
ghost use Rattle.mls_group.specs.declared.hpke_ciphertext.HPKECiphertext.{HPKECiphertext};

use std::alloc::Global;
use tls_codec::{
    ByRef, Deserialize, DeserializeBytes, Error, Serialize, Sink, Size, Source, VLBytes,
};
use tls_codec_cases::append_as;
use tls_codec_validate::{Rejected, Validate};
use tls_codec_views::{Encoded, Parted};

/// `HPKECiphertext` (RFC 9420, section 7.6).
#[derive(PartialEq, Eq, Debug, Clone, Drop)]
pub struct HPKECiphertext {
    /// `opaque kem_output<V>;`
    pub kem_output: VLBytes,
    /// `opaque ciphertext<V>;`
    pub ciphertext: VLBytes,
}

type Parts = (VLBytes, VLBytes);

impl Size for HPKECiphertext {
    ghost plain = { hpke_ciphertext_plain };

    ghost format = { hpke_ciphertext_format };

    fn tls_serialized_len(&self) -> usize {
        (ByRef(&self.kem_output), ByRef(&self.ciphertext)).tls_serialized_len()
    }

    ghost lawful = { hpke_ciphertext_meets };
}

impl Serialize for HPKECiphertext {
    fn tls_serialize<W: Sink>(&self, writer: &mut W) -> Result<usize, Error> {
        (ByRef(&self.kem_output), ByRef(&self.ciphertext)).tls_serialize(writer)
    }

    fn tls_serialize_into(&self, out: &mut Vec<u8>) -> Result<usize, Error> {
        append_as(
            self,
            &(ByRef(&self.kem_output), ByRef(&self.ciphertext)),
            out,
        )
    }
}

impl Deserialize for HPKECiphertext {
    ghost names = { ⟦<Parts as Deserialize>⟧.names };

    fn tls_deserialize<R: Source>(alloc: Global, src: &mut R) -> Result<HPKECiphertext, Error> {
        let (kem_output, ciphertext) = <Parts>::tls_deserialize(alloc, src)?;
        Ok(HPKECiphertext {
            kem_output,
            ciphertext,
        })
    }
}

impl DeserializeBytes for HPKECiphertext {
    ghost names = { ⟦<Parts as DeserializeBytes>⟧.names };

    fn tls_deserialize_bytes(
        alloc: Global,
        whole: &[u8],
    ) -> Result<(HPKECiphertext, &[u8]), Error> {
        let ((kem_output, ciphertext), rest) = <Parts>::tls_deserialize_bytes(alloc, whole)?;
        Ok((
            HPKECiphertext {
                kem_output,
                ciphertext,
            },
            rest,
        ))
    }
}

impl Validate for HPKECiphertext {
    ghost places = { ⟦<Parts as Validate>⟧.places };

    fn tls_validate_prefix(whole: &[u8]) -> Result<&[u8], Rejected<'_>> {
        <Parts>::tls_validate_prefix(whole)
    }

    fn tls_width() -> Option<usize> {
        <Parts>::tls_width()
    }
}

impl Parted for HPKECiphertext {
    type Parts = Parts;

    ghost as_parts = { λ bytes is. is };
}

/// The encoding of a [`HPKECiphertext`], split into its fields.
#[derive(Drop)]
pub struct HPKECiphertextView<'a> {
    /// `opaque kem_output<V>;`
    pub kem_output: Encoded<'a, VLBytes>,
    /// `opaque ciphertext<V>;`
    pub ciphertext: Encoded<'a, VLBytes>,
}

impl<'a> From<Encoded<'a, HPKECiphertext>> for HPKECiphertextView<'a> {
    ghost from_gives = { λ whole view. whole ≡ (view.kem_output ++ view.ciphertext) };

    fn from(whole: Encoded<'a, HPKECiphertext>) -> HPKECiphertextView<'a> {
        let (kem_output, ciphertext) = whole.parts().split();
        HPKECiphertextView {
            kem_output,
            ciphertext,
        }
    }
}

/// Two values are equal if and only if all their fields are equal.
pub fn is_compared_by_its_fields()
    ensures { (x y : HPKECiphertext) →
        ⟦<HPKECiphertext as PartialEq>⟧.eq x y
        ≡ (⟦<VLBytes as PartialEq>⟧.eq x.kem_output y.kem_output
        && ⟦<VLBytes as PartialEq>⟧.eq x.ciphertext y.ciphertext) }
{}
