//! The tag of a `Proposal`, and what its case has.
ghost use Rattle.mls_group.specs.Proposal.{proposal_format, proposal_variants};
ghost use Rattle.tls_codec_outcome.specs.Fields.{Located};
ghost use Rattle.mls_fields.specs.ProposalFields.{AreProposalFields};

use mls_group::Proposal;
use tls_codec_outcome::{Locate, Span, TagAndBody, TaggedEnum};

/// Where the fields of a `Proposal` are (RFC 9420, section 12.1).
#[repr(C)]
#[derive(Clone, Copy, PartialEq, Eq, Debug)]
pub struct ProposalFields {
    /// `ProposalType proposal_type;`
    pub proposal_type: Span,
    /// What its case has: an `Add`, an `Update`, ..
    pub body: Span,
}

struct Cases {}

impl TaggedEnum for Cases {
    ghost TAG_LEN = { 2 };

    const TAG_LEN: usize = 2;

    type Enum = Proposal;

    ghost variants = { proposal_variants };

    ghost is_tagged = { λ bytes v is. is };

    ghost has_tagged = { λ bytes v is. is };
}

impl ProposalFields {
    /// The fields of the message that the bytes begin with. If they begin with none, the spans mean
    /// nothing.
    pub fn locate(bytes: &[u8]) -> ProposalFields
        ensures { Located proposal_format AreProposalFields bytes.now result }
    {
        let ((proposal_type, body), _) = <TagAndBody<Cases>>::locate(bytes, 0);
        ProposalFields {
            proposal_type,
            body,
        }
    }
}
