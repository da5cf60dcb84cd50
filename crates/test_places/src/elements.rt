//! The elements of lists.
use crate::{Answer, add};
use mls_group::{EncryptedGroupSecrets, ProposalOrRef};
use mls_tree::Node;
use std::alloc::{AllocError, Global};
use tls_codec_outcome::{ACCEPTED, Span, next};
use tls_codec_validate::Validate;
use tls13::{CertificateEntry, KeyShareEntry};

/// The elements of a list, from the bytes after its length. `None`: no call has this name.
pub fn answer_of(alloc: Global, name: &str, bytes: &[u8]) -> Result<Option<Answer>, AllocError> {
    let answer = match name {
        "mls_extension_next" => all::<mls_tree::Extension>(alloc, bytes)?,
        "mls_optional_node_next" => all::<Option<Node>>(alloc, bytes)?,
        "mls_proposal_or_ref_next" => all::<ProposalOrRef>(alloc, bytes)?,
        "mls_encrypted_group_secrets_next" => all::<EncryptedGroupSecrets>(alloc, bytes)?,
        "tls13_extension_next" => all::<tls13::Extension>(alloc, bytes)?,
        "tls13_key_share_entry_next" => all::<KeyShareEntry>(alloc, bytes)?,
        "tls13_certificate_entry_next" => all::<CertificateEntry>(alloc, bytes)?,
        _ => return Ok(None),
    };
    Ok(Some(answer))
}

fn all<T: Validate>(alloc: Global, bytes: &[u8]) -> Result<Answer, AllocError> {
    let mut places = String::new(alloc);
    let mut left = Span {
        offset: 0,
        size: bytes.len(),
    };
    let mut element = left;
    let mut outcome = next::<T>(bytes, &mut left, &mut element);
    for _ in 0..bytes.len() {
        if outcome.status != ACCEPTED {
            break;
        }
        add(&mut places, element)?;
        if left.size == 0 {
            break;
        }
        outcome = next::<T>(bytes, &mut left, &mut element);
    }
    Ok((outcome, places))
}
