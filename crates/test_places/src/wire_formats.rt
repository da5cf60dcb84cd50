//! The wire format of a message of MLS.
use crate::Answer;
use mls::MLSMessage;
use mls_fields::wire_format_of;
use std::alloc::{AllocError, Global};
use tls_codec_outcome::{ACCEPTED, validate};

/// The wire format of the message that the bytes begin with. None: no call has this name.
pub fn answer_of(alloc: Global, name: &str, bytes: &[u8]) -> Result<Option<Answer>, AllocError> {
    if name != "mls_message_wire_format_prefix" {
        return Ok(None);
    }
    let outcome = validate::<MLSMessage>(bytes);
    let mut number = String::new(alloc);
    if outcome.status == ACCEPTED {
        write!(number, "{}", wire_format_of(bytes))?;
    }
    Ok(Some((outcome, number)))
}
