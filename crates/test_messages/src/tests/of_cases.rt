//! Values that are made of what their case has, and the tag of each.
use crate::tests::same;
use messages_of_each_shape::{ByVersion, VersionData};
use mls::{Proposal, ProposalType, Remove, Sender, SenderType};

#[test]
fn of_what_a_case_has(rt: HostRuntime) {
    let proposal = Proposal::from(Remove { removed: 3 });
    same(&rt, proposal, Proposal::Remove(Remove { removed: 3 }));
    let short: ByVersion = 7.into();
    same(&rt, short, ByVersion::Case1(7));
}

// A registry of another crate, an enum, and numbers.
#[test]
fn tags(rt: HostRuntime) {
    let removal = Proposal::Remove(Remove { removed: 3 });
    same(&rt, removal.proposal_type(), ProposalType::REMOVE);
    same(&rt, Sender::External(1).sender_type(), SenderType::External);
    let joining = Sender::NewMemberCommit;
    same(&rt, joining.sender_type(), SenderType::NewMemberCommit);
    same(&rt, VersionData::Case9.version(), 9);
}
