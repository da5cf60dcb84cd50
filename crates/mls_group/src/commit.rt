//! [`Commit`].
ghost use Rattle.std.specs.Prelude.{◌≡◌, ◌&&◌, ◌++◌};
ghost use Rattle.mls_group.specs.Commit.{commit_format, commit_meets, commit_plain};
ghost use Rattle.mls_group.specs.declared.commit.Commit.{Commit};

use crate::{ProposalOrRef, UpdatePath};
use std::alloc::Global;
use tls_codec::{ByRef, Deserialize, DeserializeBytes, Error, Serialize, Sink, Size, Source};
use tls_codec_cases::append_as;
use tls_codec_validate::{Rejected, Validate};
use tls_codec_views::{Encoded, Parted};

/// `Commit` (RFC 9420, section 12.4).
#[derive(PartialEq, Eq, Debug, Clone, Drop)]
pub struct Commit {
    /// `ProposalOrRef proposals<V>;`
    pub proposals: Vec<ProposalOrRef>,
    /// `optional<UpdatePath> path;`
    pub path: Option<UpdatePath>,
}

type Parts = (Vec<ProposalOrRef>, Option<UpdatePath>);

impl Size for Commit {
    ghost plain = { commit_plain };

    ghost format = { commit_format };

    fn tls_serialized_len(&self) -> usize {
        (ByRef(&self.proposals), ByRef(&self.path)).tls_serialized_len()
    }

    ghost lawful = { commit_meets };
}

impl Serialize for Commit {
    fn tls_serialize<W: Sink>(&self, writer: &mut W) -> Result<usize, Error> {
        (ByRef(&self.proposals), ByRef(&self.path)).tls_serialize(writer)
    }

    fn tls_serialize_into(&self, out: &mut Vec<u8>) -> Result<usize, Error> {
        append_as(self, &(ByRef(&self.proposals), ByRef(&self.path)), out)
    }
}

impl Deserialize for Commit {
    ghost names = { ⟦<Parts as Deserialize>⟧.names };

    fn tls_deserialize<R: Source>(alloc: Global, src: &mut R) -> Result<Commit, Error> {
        let (proposals, path) = <Parts>::tls_deserialize(alloc, src)?;
        Ok(Commit { proposals, path })
    }
}

impl DeserializeBytes for Commit {
    ghost names = { ⟦<Parts as DeserializeBytes>⟧.names };

    fn tls_deserialize_bytes(alloc: Global, whole: &[u8]) -> Result<(Commit, &[u8]), Error> {
        let ((proposals, path), rest) = <Parts>::tls_deserialize_bytes(alloc, whole)?;
        Ok((Commit { proposals, path }, rest))
    }
}

impl Validate for Commit {
    ghost places = { ⟦<Parts as Validate>⟧.places };

    fn tls_validate_prefix(whole: &[u8]) -> Result<&[u8], Rejected<'_>> {
        <Parts>::tls_validate_prefix(whole)
    }

    fn tls_width() -> Option<usize> {
        <Parts>::tls_width()
    }
}

impl Parted for Commit {
    type Parts = Parts;

    ghost as_parts = { λ bytes is. is };
}

/// The encoding of a [`Commit`], split into its fields.
#[derive(Drop)]
pub struct CommitView<'a> {
    /// `ProposalOrRef proposals<V>;`
    pub proposals: Encoded<'a, Vec<ProposalOrRef>>,
    /// `optional<UpdatePath> path;`
    pub path: Encoded<'a, Option<UpdatePath>>,
}

impl<'a> From<Encoded<'a, Commit>> for CommitView<'a> {
    ghost from_gives = { λ whole view. whole ≡ (view.proposals ++ view.path) };

    fn from(whole: Encoded<'a, Commit>) -> CommitView<'a> {
        let (proposals, path) = whole.parts().split();
        CommitView { proposals, path }
    }
}

/// Two values are equal if and only if all their fields are equal.
pub fn is_compared_by_its_fields()
    ensures { (x y : Commit) →
        ⟦<Commit as PartialEq>⟧.eq x y
        ≡ (⟦<Vec<ProposalOrRef> as PartialEq>⟧.eq x.proposals y.proposals
        && ⟦<Option<UpdatePath> as PartialEq>⟧.eq x.path y.path) }
{}
