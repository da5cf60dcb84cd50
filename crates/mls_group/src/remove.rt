//! [`Remove`].
ghost use Rattle.std.specs.Prelude.{◌≡◌};
ghost use Rattle.mls_group.specs.Remove.{remove_format, remove_meets, remove_plain};
ghost use Rattle.mls_group.specs.declared.remove.Remove.{Remove};

use std::alloc::Global;
use tls_codec::{Deserialize, DeserializeBytes, Error, Serialize, Sink, Size, Source};
use tls_codec_cases::append_as;
use tls_codec_validate::{Rejected, Validate};
use tls_codec_views::{Encoded, Parted};

/// `Remove` (RFC 9420, section 12.1.3).
#[derive(PartialEq, Eq, Debug, Clone, Drop)]
pub struct Remove {
    /// `uint32 removed;`
    pub removed: u32,
}

impl Size for Remove {
    ghost plain = { remove_plain };

    ghost format = { remove_format };

    fn tls_serialized_len(&self) -> usize {
        self.removed.tls_serialized_len()
    }

    ghost lawful = { remove_meets };
}

impl Serialize for Remove {
    fn tls_serialize<W: Sink>(&self, writer: &mut W) -> Result<usize, Error> {
        self.removed.tls_serialize(writer)
    }

    fn tls_serialize_into(&self, out: &mut Vec<u8>) -> Result<usize, Error> {
        append_as(self, &self.removed, out)
    }
}

impl Deserialize for Remove {
    ghost names = { ⟦<u32 as Deserialize>⟧.names };

    fn tls_deserialize<R: Source>(alloc: Global, src: &mut R) -> Result<Remove, Error> {
        let removed = u32::tls_deserialize(alloc, src)?;
        Ok(Remove { removed })
    }
}

impl DeserializeBytes for Remove {
    ghost names = { ⟦<u32 as DeserializeBytes>⟧.names };

    fn tls_deserialize_bytes(alloc: Global, whole: &[u8]) -> Result<(Remove, &[u8]), Error> {
        let (removed, rest) = u32::tls_deserialize_bytes(alloc, whole)?;
        Ok((Remove { removed }, rest))
    }
}

impl Validate for Remove {
    ghost places = { ⟦<u32 as Validate>⟧.places };

    fn tls_validate_prefix(whole: &[u8]) -> Result<&[u8], Rejected<'_>> {
        u32::tls_validate_prefix(whole)
    }

    fn tls_width() -> Option<usize> {
        u32::tls_width()
    }
}

impl Parted for Remove {
    type Parts = u32;

    ghost as_parts = { λ bytes is. is };
}

/// The encoding of a [`Remove`], split into its fields.
#[derive(Drop)]
pub struct RemoveView<'a> {
    /// `uint32 removed;`
    pub removed: Encoded<'a, u32>,
}

impl<'a> From<Encoded<'a, Remove>> for RemoveView<'a> {
    ghost from_gives = { λ whole view. whole ≡ view.removed };

    fn from(whole: Encoded<'a, Remove>) -> RemoveView<'a> {
        let removed = whole.parts();
        RemoveView { removed }
    }
}

/// Two values are equal if and only if all their fields are equal.
pub fn is_compared_by_its_fields()
    ensures { (x y : Remove) →
        ⟦<Remove as PartialEq>⟧.eq x y
        ≡ ⟦<u32 as PartialEq>⟧.eq x.removed y.removed }
{}
