//! [`ExternalInit`].
ghost use Rattle.std.specs.Prelude.{◌≡◌};
ghost use Rattle.mls_group.specs.ExternalInit.{external_init_format, external_init_meets, external_init_plain};
ghost use Rattle.mls_group.specs.declared.external_init.ExternalInit.{ExternalInit};

use std::alloc::Global;
use tls_codec::{Deserialize, DeserializeBytes, Error, Serialize, Sink, Size, Source, VLBytes};
use tls_codec_cases::append_as;
use tls_codec_validate::{Rejected, Validate};
use tls_codec_views::{Encoded, Parted};

/// `ExternalInit` (RFC 9420, section 12.1.6).
#[derive(PartialEq, Eq, Debug, Clone, Drop)]
pub struct ExternalInit {
    /// `opaque kem_output<V>;`
    pub kem_output: VLBytes,
}

impl Size for ExternalInit {
    ghost plain = { external_init_plain };

    ghost format = { external_init_format };

    fn tls_serialized_len(&self) -> usize {
        self.kem_output.tls_serialized_len()
    }

    ghost lawful = { external_init_meets };
}

impl Serialize for ExternalInit {
    fn tls_serialize<W: Sink>(&self, writer: &mut W) -> Result<usize, Error> {
        self.kem_output.tls_serialize(writer)
    }

    fn tls_serialize_into(&self, out: &mut Vec<u8>) -> Result<usize, Error> {
        append_as(self, &self.kem_output, out)
    }
}

impl Deserialize for ExternalInit {
    ghost names = { ⟦<VLBytes as Deserialize>⟧.names };

    fn tls_deserialize<R: Source>(alloc: Global, src: &mut R) -> Result<ExternalInit, Error> {
        let kem_output = VLBytes::tls_deserialize(alloc, src)?;
        Ok(ExternalInit { kem_output })
    }
}

impl DeserializeBytes for ExternalInit {
    ghost names = { ⟦<VLBytes as DeserializeBytes>⟧.names };

    fn tls_deserialize_bytes(alloc: Global, whole: &[u8]) -> Result<(ExternalInit, &[u8]), Error> {
        let (kem_output, rest) = VLBytes::tls_deserialize_bytes(alloc, whole)?;
        Ok((ExternalInit { kem_output }, rest))
    }
}

impl Validate for ExternalInit {
    ghost places = { ⟦<VLBytes as Validate>⟧.places };

    fn tls_validate_prefix(whole: &[u8]) -> Result<&[u8], Rejected<'_>> {
        VLBytes::tls_validate_prefix(whole)
    }

    fn tls_width() -> Option<usize> {
        VLBytes::tls_width()
    }
}

impl Parted for ExternalInit {
    type Parts = VLBytes;

    ghost as_parts = { λ bytes is. is };
}

/// The encoding of a [`ExternalInit`], split into its fields.
#[derive(Drop)]
pub struct ExternalInitView<'a> {
    /// `opaque kem_output<V>;`
    pub kem_output: Encoded<'a, VLBytes>,
}

impl<'a> From<Encoded<'a, ExternalInit>> for ExternalInitView<'a> {
    ghost from_gives = { λ whole view. whole ≡ view.kem_output };

    fn from(whole: Encoded<'a, ExternalInit>) -> ExternalInitView<'a> {
        let kem_output = whole.parts();
        ExternalInitView { kem_output }
    }
}

/// Two values are equal if and only if all their fields are equal.
pub fn is_compared_by_its_fields()
    ensures { (x y : ExternalInit) →
        ⟦<ExternalInit as PartialEq>⟧.eq x y
        ≡ ⟦<VLBytes as PartialEq>⟧.eq x.kem_output y.kem_output }
{}
