//! [`GroupSecrets`].
ghost use Rattle.std.specs.Prelude.{◌≡◌, ◌&&◌, ◌++◌};
ghost use Rattle.mls_group.specs.GroupSecrets.{group_secrets_format, group_secrets_meets, group_secrets_plain};
ghost use Rattle.mls_group.specs.declared.group_secrets.GroupSecrets.{GroupSecrets};

use crate::{PathSecret, PreSharedKeyID};
use std::alloc::Global;
use tls_codec::{
    ByRef, Deserialize, DeserializeBytes, Error, Serialize, Sink, Size, Source, VLBytes,
};
use tls_codec_cases::append_as;
use tls_codec_validate::{Rejected, Validate};
use tls_codec_views::{Encoded, Parted};

/// `GroupSecrets` (RFC 9420, section 12.4.3.1).
#[derive(PartialEq, Eq, Debug, Clone, Drop)]
pub struct GroupSecrets {
    /// `opaque joiner_secret<V>;`
    pub joiner_secret: VLBytes,
    /// `optional<PathSecret> path_secret;`
    pub path_secret: Option<PathSecret>,
    /// `PreSharedKeyID psks<V>;`
    pub psks: Vec<PreSharedKeyID>,
}

type Parts = (VLBytes, Option<PathSecret>, Vec<PreSharedKeyID>);

impl Size for GroupSecrets {
    ghost plain = { group_secrets_plain };

    ghost format = { group_secrets_format };

    fn tls_serialized_len(&self) -> usize {
        (
            ByRef(&self.joiner_secret),
            ByRef(&self.path_secret),
            ByRef(&self.psks),
        )
            .tls_serialized_len()
    }

    ghost lawful = { group_secrets_meets };
}

impl Serialize for GroupSecrets {
    fn tls_serialize<W: Sink>(&self, writer: &mut W) -> Result<usize, Error> {
        (
            ByRef(&self.joiner_secret),
            ByRef(&self.path_secret),
            ByRef(&self.psks),
        )
            .tls_serialize(writer)
    }

    fn tls_serialize_into(&self, out: &mut Vec<u8>) -> Result<usize, Error> {
        append_as(
            self,
            &(
                ByRef(&self.joiner_secret),
                ByRef(&self.path_secret),
                ByRef(&self.psks),
            ),
            out,
        )
    }
}

impl Deserialize for GroupSecrets {
    ghost names = { ⟦<Parts as Deserialize>⟧.names };

    fn tls_deserialize<R: Source>(alloc: Global, src: &mut R) -> Result<GroupSecrets, Error> {
        let (joiner_secret, path_secret, psks) = <Parts>::tls_deserialize(alloc, src)?;
        Ok(GroupSecrets {
            joiner_secret,
            path_secret,
            psks,
        })
    }
}

impl DeserializeBytes for GroupSecrets {
    ghost names = { ⟦<Parts as DeserializeBytes>⟧.names };

    fn tls_deserialize_bytes(alloc: Global, whole: &[u8]) -> Result<(GroupSecrets, &[u8]), Error> {
        let ((joiner_secret, path_secret, psks), rest) = <Parts>::tls_deserialize_bytes(
            alloc, whole,
        )?;
        Ok((
            GroupSecrets {
                joiner_secret,
                path_secret,
                psks,
            },
            rest,
        ))
    }
}

impl Validate for GroupSecrets {
    ghost places = { ⟦<Parts as Validate>⟧.places };

    fn tls_validate_prefix(whole: &[u8]) -> Result<&[u8], Rejected<'_>> {
        <Parts>::tls_validate_prefix(whole)
    }

    fn tls_width() -> Option<usize> {
        <Parts>::tls_width()
    }
}

impl Parted for GroupSecrets {
    type Parts = Parts;

    ghost as_parts = { λ bytes is. is };
}

/// The encoding of a [`GroupSecrets`], split into its fields.
#[derive(Drop)]
pub struct GroupSecretsView<'a> {
    /// `opaque joiner_secret<V>;`
    pub joiner_secret: Encoded<'a, VLBytes>,
    /// `optional<PathSecret> path_secret;`
    pub path_secret: Encoded<'a, Option<PathSecret>>,
    /// `PreSharedKeyID psks<V>;`
    pub psks: Encoded<'a, Vec<PreSharedKeyID>>,
}

impl<'a> From<Encoded<'a, GroupSecrets>> for GroupSecretsView<'a> {
    ghost from_gives = { λ whole view. whole ≡ (view.joiner_secret ++
        (view.path_secret ++ view.psks)) };

    fn from(whole: Encoded<'a, GroupSecrets>) -> GroupSecretsView<'a> {
        let (joiner_secret, path_secret, psks) = whole.parts().split();
        GroupSecretsView {
            joiner_secret,
            path_secret,
            psks,
        }
    }
}

/// Two values are equal if and only if all their fields are equal.
pub fn is_compared_by_its_fields()
    ensures { (x y : GroupSecrets) →
        ⟦<GroupSecrets as PartialEq>⟧.eq x y
        ≡ (⟦<VLBytes as PartialEq>⟧.eq x.joiner_secret y.joiner_secret
        && (⟦<Option<PathSecret> as PartialEq>⟧.eq x.path_secret y.path_secret
        && ⟦<Vec<PreSharedKeyID> as PartialEq>⟧.eq x.psks y.psks)) }
{}
