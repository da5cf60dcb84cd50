//! [`PrivateContentAAD`].
ghost use Rattle.std.specs.Prelude.{◌≡◌, ◌&&◌};
ghost use Rattle.mls.specs.PrivateContentAAD.{private_content_aad_format, private_content_aad_meets, private_content_aad_plain};
ghost use Rattle.mls.specs.declared.private_content_aad.PrivateContentAAD.{PrivateContentAAD};

use crate::ContentType;
use tls_codec::{ByRef2, Error, Serialize, Sink, Size, VLBytes};
use tls_codec_cases::append_as;

/// `PrivateContentAAD` (RFC 9420, section 6.3.1).
///
/// It has references to its fields. It can only be encoded.
#[derive(PartialEq, Eq, Debug, Clone, Copy)]
pub struct PrivateContentAAD<'a> {
    /// `opaque group_id<V>;`
    pub group_id: &'a VLBytes,
    /// `uint64 epoch;`
    pub epoch: &'a u64,
    /// `ContentType content_type;`
    pub content_type: &'a ContentType,
    /// `opaque authenticated_data<V>;`
    pub authenticated_data: &'a VLBytes,
}

impl Size for PrivateContentAAD<'_> {
    ghost plain = { private_content_aad_plain };

    ghost format = { private_content_aad_format };

    fn tls_serialized_len(&self) -> usize {
        (
            ByRef2(self.group_id, self.epoch),
            ByRef2(self.content_type, self.authenticated_data),
        )
            .tls_serialized_len()
    }

    ghost lawful = { private_content_aad_meets };
}

impl Serialize for PrivateContentAAD<'_> {
    fn tls_serialize<W: Sink>(&self, writer: &mut W) -> Result<usize, Error> {
        (
            ByRef2(self.group_id, self.epoch),
            ByRef2(self.content_type, self.authenticated_data),
        )
            .tls_serialize(writer)
    }

    fn tls_serialize_into(&self, out: &mut Vec<u8>) -> Result<usize, Error> {
        append_as(
            self,
            &(
                ByRef2(self.group_id, self.epoch),
                ByRef2(self.content_type, self.authenticated_data),
            ),
            out,
        )
    }
}

/// Two values are equal if and only if all their fields are equal.
pub fn is_compared_by_its_fields()
    ensures { (x y : PrivateContentAAD) →
        ⟦<PrivateContentAAD<'static> as PartialEq>⟧.eq x y
        ≡ (⟦<VLBytes as PartialEq>⟧.eq x.group_id.now y.group_id.now
        && (⟦<u64 as PartialEq>⟧.eq x.epoch.now y.epoch.now
        && (⟦<ContentType as PartialEq>⟧.eq x.content_type.now y.content_type.now
        && ⟦<VLBytes as PartialEq>⟧.eq x.authenticated_data.now y.authenticated_data.now))) }
{}
