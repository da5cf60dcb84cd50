//! The fields of `Commit`.
ghost use Rattle.mls_group.specs.Commit.{commit_format};
ghost use Rattle.tls_codec_outcome.specs.Fields.{Located};
ghost use Rattle.mls_fields.specs.CommitFields.{AreCommitFields};

use mls_group::{ProposalOrRef, UpdatePath};
use tls_codec_outcome::{Field, Locate, Span};

/// Where the fields of a `Commit` are (RFC 9420, section 12.4).
#[repr(C)]
#[derive(Clone, Copy, PartialEq, Eq, Debug)]
pub struct CommitFields {
    /// `ProposalOrRef proposals<V>;` with its length
    pub proposals: Span,
    /// `optional<UpdatePath> path;`
    pub path: Span,
}

type Parts = (Field<Vec<ProposalOrRef>>, Field<Option<UpdatePath>>);

impl CommitFields {
    /// The fields of the message that the bytes begin with. If they begin with none, the spans mean
    /// nothing.
    pub fn locate(bytes: &[u8]) -> CommitFields
        ensures { Located commit_format AreCommitFields bytes.now result }
    {
        let ((proposals, path), _) = <Parts>::locate(bytes, 0);
        CommitFields { proposals, path }
    }
}
