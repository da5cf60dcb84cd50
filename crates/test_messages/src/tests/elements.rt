//! What elements of lists take in memory, as docs/QUESTIONS.md has it.
use crate::tests::same;
use mls_group::{EncryptedGroupSecrets, ProposalOrRef};
use mls_tree::{Certificate, Node};
use std::mem::size_of;

// Memory for each byte of the input: room for four elements, over the fewest bytes of one. Other lists take no more than a KeyPackage's.
#[test]
fn lists_in_memory(rt: HostRuntime) {
    let tree = 4 * size_of::<Option<Node>>(); // RatchetTree: an element has 1 byte or more
    let commit = 4 * size_of::<ProposalOrRef>() / 2; // Commit, and so MLSMessage: 2 or more
    let welcome = 4 * size_of::<EncryptedGroupSecrets>() / 3; // Welcome: 3 or more
    let package = 4 * size_of::<Certificate>(); // KeyPackage, with a chain of X.509: 1 or more
    same(&rt, [tree, commit, welcome, package], [1_184, 752, 96, 96]);
}
