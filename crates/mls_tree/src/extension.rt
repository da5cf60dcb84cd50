//! [`Extension`].
ghost use Rattle.std.specs.Prelude.{◌≡◌, ◌&&◌, ◌++◌};
ghost use Rattle.mls_tree.specs.Extension.{extension_format, extension_meets, extension_plain};
ghost use Rattle.mls_tree.specs.declared.extension.Extension.{Extension};

use crate::ExtensionType;
use std::alloc::Global;
use tls_codec::{
    ByRef, Deserialize, DeserializeBytes, Error, Serialize, Sink, Size, Source, VLBytes,
};
use tls_codec_cases::append_as;
use tls_codec_validate::{Rejected, Validate};
use tls_codec_views::{Encoded, Parted};

/// `Extension` (RFC 9420, section 7.2).
#[derive(PartialEq, Eq, Debug, Clone, Drop)]
pub struct Extension {
    /// `ExtensionType extension_type;`
    pub extension_type: ExtensionType,
    /// `opaque extension_data<V>;`
    pub extension_data: VLBytes,
}

type Parts = (ExtensionType, VLBytes);

impl Size for Extension {
    ghost plain = { extension_plain };

    ghost format = { extension_format };

    fn tls_serialized_len(&self) -> usize {
        (ByRef(&self.extension_type), ByRef(&self.extension_data)).tls_serialized_len()
    }

    ghost lawful = { extension_meets };
}

impl Serialize for Extension {
    fn tls_serialize<W: Sink>(&self, writer: &mut W) -> Result<usize, Error> {
        (ByRef(&self.extension_type), ByRef(&self.extension_data)).tls_serialize(writer)
    }

    fn tls_serialize_into(&self, out: &mut Vec<u8>) -> Result<usize, Error> {
        append_as(
            self,
            &(ByRef(&self.extension_type), ByRef(&self.extension_data)),
            out,
        )
    }
}

impl Deserialize for Extension {
    ghost names = { ⟦<Parts as Deserialize>⟧.names };

    fn tls_deserialize<R: Source>(alloc: Global, src: &mut R) -> Result<Extension, Error> {
        let (extension_type, extension_data) = <Parts>::tls_deserialize(alloc, src)?;
        Ok(Extension {
            extension_type,
            extension_data,
        })
    }
}

impl DeserializeBytes for Extension {
    ghost names = { ⟦<Parts as DeserializeBytes>⟧.names };

    fn tls_deserialize_bytes(alloc: Global, whole: &[u8]) -> Result<(Extension, &[u8]), Error> {
        let ((extension_type, extension_data), rest) = <Parts>::tls_deserialize_bytes(
            alloc, whole,
        )?;
        Ok((
            Extension {
                extension_type,
                extension_data,
            },
            rest,
        ))
    }
}

impl Validate for Extension {
    ghost places = { ⟦<Parts as Validate>⟧.places };

    fn tls_validate_prefix(whole: &[u8]) -> Result<&[u8], Rejected<'_>> {
        <Parts>::tls_validate_prefix(whole)
    }

    fn tls_width() -> Option<usize> {
        <Parts>::tls_width()
    }
}

impl Parted for Extension {
    type Parts = Parts;

    ghost as_parts = { λ bytes is. is };
}

/// The encoding of a [`Extension`], split into its fields.
#[derive(Drop)]
pub struct ExtensionView<'a> {
    /// `ExtensionType extension_type;`
    pub extension_type: Encoded<'a, ExtensionType>,
    /// `opaque extension_data<V>;`
    pub extension_data: Encoded<'a, VLBytes>,
}

impl<'a> From<Encoded<'a, Extension>> for ExtensionView<'a> {
    ghost from_gives = { λ whole view. whole ≡ (view.extension_type ++ view.extension_data) };

    fn from(whole: Encoded<'a, Extension>) -> ExtensionView<'a> {
        let (extension_type, extension_data) = whole.parts().split();
        ExtensionView {
            extension_type,
            extension_data,
        }
    }
}

/// Two values are equal if and only if all their fields are equal.
pub fn is_compared_by_its_fields()
    ensures { (x y : Extension) →
        ⟦<Extension as PartialEq>⟧.eq x y
        ≡ (⟦<ExtensionType as PartialEq>⟧.eq x.extension_type y.extension_type
        && ⟦<VLBytes as PartialEq>⟧.eq x.extension_data y.extension_data) }
{}
