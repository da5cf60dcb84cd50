//! [`PathSecret`].
ghost use Rattle.std.specs.Prelude.{◌≡◌};
ghost use Rattle.mls_group.specs.PathSecret.{path_secret_format, path_secret_meets, path_secret_plain};
ghost use Rattle.mls_group.specs.declared.path_secret.PathSecret.{PathSecret};

use std::alloc::Global;
use tls_codec::{Deserialize, DeserializeBytes, Error, Serialize, Sink, Size, Source, VLBytes};
use tls_codec_cases::append_as;
use tls_codec_validate::{Rejected, Validate};
use tls_codec_views::{Encoded, Parted};

/// `PathSecret` (RFC 9420, section 12.4.3.1).
#[derive(PartialEq, Eq, Debug, Clone, Drop)]
pub struct PathSecret {
    /// `opaque path_secret<V>;`
    pub path_secret: VLBytes,
}

impl Size for PathSecret {
    ghost plain = { path_secret_plain };

    ghost format = { path_secret_format };

    fn tls_serialized_len(&self) -> usize {
        self.path_secret.tls_serialized_len()
    }

    ghost lawful = { path_secret_meets };
}

impl Serialize for PathSecret {
    fn tls_serialize<W: Sink>(&self, writer: &mut W) -> Result<usize, Error> {
        self.path_secret.tls_serialize(writer)
    }

    fn tls_serialize_into(&self, out: &mut Vec<u8>) -> Result<usize, Error> {
        append_as(self, &self.path_secret, out)
    }
}

impl Deserialize for PathSecret {
    ghost names = { ⟦<VLBytes as Deserialize>⟧.names };

    fn tls_deserialize<R: Source>(alloc: Global, src: &mut R) -> Result<PathSecret, Error> {
        let path_secret = VLBytes::tls_deserialize(alloc, src)?;
        Ok(PathSecret { path_secret })
    }
}

impl DeserializeBytes for PathSecret {
    ghost names = { ⟦<VLBytes as DeserializeBytes>⟧.names };

    fn tls_deserialize_bytes(alloc: Global, whole: &[u8]) -> Result<(PathSecret, &[u8]), Error> {
        let (path_secret, rest) = VLBytes::tls_deserialize_bytes(alloc, whole)?;
        Ok((PathSecret { path_secret }, rest))
    }
}

impl Validate for PathSecret {
    ghost places = { ⟦<VLBytes as Validate>⟧.places };

    fn tls_validate_prefix(whole: &[u8]) -> Result<&[u8], Rejected<'_>> {
        VLBytes::tls_validate_prefix(whole)
    }

    fn tls_width() -> Option<usize> {
        VLBytes::tls_width()
    }
}

impl Parted for PathSecret {
    type Parts = VLBytes;

    ghost as_parts = { λ bytes is. is };
}

/// The encoding of a [`PathSecret`], split into its fields.
#[derive(Drop)]
pub struct PathSecretView<'a> {
    /// `opaque path_secret<V>;`
    pub path_secret: Encoded<'a, VLBytes>,
}

impl<'a> From<Encoded<'a, PathSecret>> for PathSecretView<'a> {
    ghost from_gives = { λ whole view. whole ≡ view.path_secret };

    fn from(whole: Encoded<'a, PathSecret>) -> PathSecretView<'a> {
        let path_secret = whole.parts();
        PathSecretView { path_secret }
    }
}

/// Two values are equal if and only if all their fields are equal.
pub fn is_compared_by_its_fields()
    ensures { (x y : PathSecret) →
        ⟦<PathSecret as PartialEq>⟧.eq x y
        ≡ ⟦<VLBytes as PartialEq>⟧.eq x.path_secret y.path_secret }
{}
