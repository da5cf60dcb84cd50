//! [`GroupContextExtensions`].
ghost use Rattle.std.specs.Prelude.{◌≡◌};
ghost use Rattle.mls_group.specs.GroupContextExtensions.{group_context_extensions_format, group_context_extensions_meets, group_context_extensions_plain};
ghost use Rattle.mls_group.specs.declared.group_context_extensions.GroupContextExtensions.{GroupContextExtensions};

use mls_tree::Extension;
use std::alloc::Global;
use tls_codec::{Deserialize, DeserializeBytes, Error, Serialize, Sink, Size, Source};
use tls_codec_cases::append_as;
use tls_codec_validate::{Rejected, Validate};
use tls_codec_views::{Encoded, Parted};

/// `GroupContextExtensions` (RFC 9420, section 12.1.7).
#[derive(PartialEq, Eq, Debug, Clone, Drop)]
pub struct GroupContextExtensions {
    /// `Extension extensions<V>;`
    pub extensions: Vec<Extension>,
}

impl Size for GroupContextExtensions {
    ghost plain = { group_context_extensions_plain };

    ghost format = { group_context_extensions_format };

    fn tls_serialized_len(&self) -> usize {
        self.extensions.tls_serialized_len()
    }

    ghost lawful = { group_context_extensions_meets };
}

impl Serialize for GroupContextExtensions {
    fn tls_serialize<W: Sink>(&self, writer: &mut W) -> Result<usize, Error> {
        self.extensions.tls_serialize(writer)
    }

    fn tls_serialize_into(&self, out: &mut Vec<u8>) -> Result<usize, Error> {
        append_as(self, &self.extensions, out)
    }
}

impl Deserialize for GroupContextExtensions {
    ghost names = { ⟦<Vec<Extension> as Deserialize>⟧.names };

    fn tls_deserialize<R: Source>(
        alloc: Global,
        src: &mut R,
    ) -> Result<GroupContextExtensions, Error> {
        let extensions = <Vec<Extension>>::tls_deserialize(alloc, src)?;
        Ok(GroupContextExtensions { extensions })
    }
}

impl DeserializeBytes for GroupContextExtensions {
    ghost names = { ⟦<Vec<Extension> as DeserializeBytes>⟧.names };

    fn tls_deserialize_bytes(
        alloc: Global,
        whole: &[u8],
    ) -> Result<(GroupContextExtensions, &[u8]), Error> {
        let (extensions, rest) = <Vec<Extension>>::tls_deserialize_bytes(alloc, whole)?;
        Ok((GroupContextExtensions { extensions }, rest))
    }
}

impl Validate for GroupContextExtensions {
    ghost places = { ⟦<Vec<Extension> as Validate>⟧.places };

    fn tls_validate_prefix(whole: &[u8]) -> Result<&[u8], Rejected<'_>> {
        <Vec<Extension>>::tls_validate_prefix(whole)
    }

    fn tls_width() -> Option<usize> {
        <Vec<Extension>>::tls_width()
    }
}

impl Parted for GroupContextExtensions {
    type Parts = Box<Vec<Extension>>;

    ghost as_parts = { λ bytes is. is };
}

/// The encoding of a [`GroupContextExtensions`], split into its fields.
#[derive(Drop)]
pub struct GroupContextExtensionsView<'a> {
    /// `Extension extensions<V>;`
    pub extensions: Encoded<'a, Vec<Extension>>,
}

impl<'a> From<Encoded<'a, GroupContextExtensions>> for GroupContextExtensionsView<'a> {
    ghost from_gives = { λ whole view. whole ≡ view.extensions };

    fn from(whole: Encoded<'a, GroupContextExtensions>) -> GroupContextExtensionsView<'a> {
        let extensions = whole.parts().payload();
        GroupContextExtensionsView { extensions }
    }
}

/// Two values are equal if and only if all their fields are equal.
pub fn is_compared_by_its_fields()
    ensures { (x y : GroupContextExtensions) →
        ⟦<GroupContextExtensions as PartialEq>⟧.eq x y
        ≡ ⟦<Vec<Extension> as PartialEq>⟧.eq x.extensions y.extensions }
{}
