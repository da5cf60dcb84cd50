//! [`GroupInfo`].
ghost use Rattle.std.specs.Prelude.{◌≡◌, ◌&&◌, ◌++◌};
ghost use Rattle.mls_group.specs.GroupInfo.{group_info_format, group_info_meets, group_info_plain};
ghost use Rattle.mls_group.specs.declared.group_info.GroupInfo.{GroupInfo};

use crate::{GroupContext, MAC};
use mls_tree::Extension;
use std::alloc::Global;
use tls_codec::{
    ByRef2, ByRef3, Deserialize, DeserializeBytes, Error, Serialize, Sink, Size, Source, VLBytes,
};
use tls_codec_cases::append_as;
use tls_codec_validate::{Rejected, Validate};
use tls_codec_views::{Encoded, Parted};

/// `GroupInfo` (RFC 9420, section 12.4.3).
#[derive(PartialEq, Eq, Debug, Clone, Drop)]
pub struct GroupInfo {
    /// `GroupContext group_context;`
    pub group_context: GroupContext,
    /// `Extension extensions<V>;`
    pub extensions: Vec<Extension>,
    /// `MAC confirmation_tag;`
    pub confirmation_tag: MAC,
    /// `uint32 signer;`
    pub signer: u32,
    /// `opaque signature<V>;`
    /// SignWithLabel(., "GroupInfoTBS", GroupInfoTBS)
    pub signature: VLBytes,
}

type Parts = ((GroupContext, Vec<Extension>, MAC), (u32, VLBytes));

impl Size for GroupInfo {
    ghost plain = { group_info_plain };

    ghost format = { group_info_format };

    fn tls_serialized_len(&self) -> usize {
        (
            ByRef3(
                &self.group_context,
                &self.extensions,
                &self.confirmation_tag,
            ),
            ByRef2(&self.signer, &self.signature),
        )
            .tls_serialized_len()
    }

    ghost lawful = { group_info_meets };
}

impl Serialize for GroupInfo {
    fn tls_serialize<W: Sink>(&self, writer: &mut W) -> Result<usize, Error> {
        (
            ByRef3(
                &self.group_context,
                &self.extensions,
                &self.confirmation_tag,
            ),
            ByRef2(&self.signer, &self.signature),
        )
            .tls_serialize(writer)
    }

    fn tls_serialize_into(&self, out: &mut Vec<u8>) -> Result<usize, Error> {
        append_as(
            self,
            &(
                ByRef3(
                    &self.group_context,
                    &self.extensions,
                    &self.confirmation_tag,
                ),
                ByRef2(&self.signer, &self.signature),
            ),
            out,
        )
    }
}

impl Deserialize for GroupInfo {
    ghost names = { ⟦<Parts as Deserialize>⟧.names };

    fn tls_deserialize<R: Source>(alloc: Global, src: &mut R) -> Result<GroupInfo, Error> {
        let ((group_context, extensions, confirmation_tag), (signer, signature)) =
            <Parts>::tls_deserialize(alloc, src)?;
        Ok(GroupInfo {
            group_context,
            extensions,
            confirmation_tag,
            signer,
            signature,
        })
    }
}

impl DeserializeBytes for GroupInfo {
    ghost names = { ⟦<Parts as DeserializeBytes>⟧.names };

    fn tls_deserialize_bytes(alloc: Global, whole: &[u8]) -> Result<(GroupInfo, &[u8]), Error> {
        let (((group_context, extensions, confirmation_tag), (signer, signature)), rest) =
            <Parts>::tls_deserialize_bytes(alloc, whole)?;
        Ok((
            GroupInfo {
                group_context,
                extensions,
                confirmation_tag,
                signer,
                signature,
            },
            rest,
        ))
    }
}

impl Validate for GroupInfo {
    ghost places = { ⟦<Parts as Validate>⟧.places };

    fn tls_validate_prefix(whole: &[u8]) -> Result<&[u8], Rejected<'_>> {
        <Parts>::tls_validate_prefix(whole)
    }

    fn tls_width() -> Option<usize> {
        <Parts>::tls_width()
    }
}

impl Parted for GroupInfo {
    type Parts = Parts;

    ghost as_parts = { λ bytes is. is };
}

/// The encoding of a [`GroupInfo`], split into its fields.
#[derive(Drop)]
pub struct GroupInfoView<'a> {
    /// `GroupContext group_context;`
    pub group_context: Encoded<'a, GroupContext>,
    /// `Extension extensions<V>;`
    pub extensions: Encoded<'a, Vec<Extension>>,
    /// `MAC confirmation_tag;`
    pub confirmation_tag: Encoded<'a, MAC>,
    /// `uint32 signer;`
    pub signer: Encoded<'a, u32>,
    /// `opaque signature<V>;`
    /// SignWithLabel(., "GroupInfoTBS", GroupInfoTBS)
    pub signature: Encoded<'a, VLBytes>,
}

impl<'a> From<Encoded<'a, GroupInfo>> for GroupInfoView<'a> {
    ghost from_gives = { λ whole view. whole ≡ ((view.group_context ++
        (view.extensions ++ view.confirmation_tag)) ++ (view.signer ++ view.signature)) };

    fn from(whole: Encoded<'a, GroupInfo>) -> GroupInfoView<'a> {
        let (parts_0, parts_1) = whole.parts().split();
        let (group_context, extensions, confirmation_tag) = parts_0.split();
        let (signer, signature) = parts_1.split();
        GroupInfoView {
            group_context,
            extensions,
            confirmation_tag,
            signer,
            signature,
        }
    }
}

/// Two values are equal if and only if all their fields are equal.
pub fn is_compared_by_its_fields()
    ensures { (x y : GroupInfo) →
        ⟦<GroupInfo as PartialEq>⟧.eq x y
        ≡ (⟦<GroupContext as PartialEq>⟧.eq x.group_context y.group_context
        && (⟦<Vec<Extension> as PartialEq>⟧.eq x.extensions y.extensions
        && (⟦<MAC as PartialEq>⟧.eq x.confirmation_tag y.confirmation_tag
        && (⟦<u32 as PartialEq>⟧.eq x.signer y.signer
        && ⟦<VLBytes as PartialEq>⟧.eq x.signature y.signature)))) }
{}
