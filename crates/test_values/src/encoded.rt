//! What the encoders make of a value.
use crate::notation::push_bytes;
use crate::value::Value;
use std::alloc::{AllocError, Global};
use tls_codec::{Error, Serialize, SerializeBytes};

/// What the encoders make of a value.
///
/// An error is its text: the toolchain's borrow checker covers no call of a reference to a wrapper with a lifetime
/// if the call names `Error`, which has a `&'static str` in it.
#[derive(Drop)]
pub struct Encoded {
    /// The length that is announced.
    announced: usize,
    /// What a sink receives.
    sent: Vec<u8>,
    /// The length that is returned, if there is no error.
    counted: Option<usize>,
    /// The error. It is empty if there is none.
    refusal: String,
    /// Whether the encoders to memory do the same.
    agree: bool,
}

impl Encoded {
    /// By the encoder to a sink, which is compared with the others.
    pub fn of<T: Serialize>(alloc: Global, value: &T) -> Result<Encoded, AllocError> {
        let announced = value.tls_serialized_len();
        let mut sent = Vec::new(alloc);
        let outcome = value.tls_serialize(&mut sent);
        let agree = is_made(value.tls_serialize_detached(alloc), &sent, outcome)
            && is_appended(alloc, value, &[], &sent, outcome)
            && is_appended(alloc, value, &[0xee], &sent, outcome);
        let refusal = text_of(alloc, outcome.err())?;
        Ok(Encoded {
            announced,
            sent,
            counted: outcome.ok(),
            refusal,
            agree,
        })
    }

    /// Whether the encoder to a vector of the value's own does the same.
    pub fn is_alone<T: SerializeBytes>(&self, alloc: Global, value: &T) -> bool {
        let as_sent = match value.tls_serialize_bytes(alloc) {
            Ok(bytes) => self.counted.is_some() && bytes == self.sent,
            Err(error) => text_of(alloc, Some(error)).is_ok_and(|text| text == self.refusal),
        };
        as_sent && value.tls_serialized_len() == self.announced
    }

    /// Whether this value is written as the same bytes, or rejected with the same error.
    pub fn is_of<T: Serialize>(&self, alloc: Global, value: &T) -> bool {
        match Encoded::of(alloc, value) {
            Ok(other) => self.is_same(&other),
            Err(_) => false,
        }
    }

    fn is_same(&self, other: &Encoded) -> bool {
        other.agree
            && other.announced == self.announced
            && other.sent == self.sent
            && other.counted == self.counted
            && other.refusal == self.refusal
    }

    /// Appends the bytes that are written; or the length that is announced, what was sent and the error.
    pub fn push<T: Value>(
        &self,
        alloc: Global,
        value: &T,
        out: &mut String,
    ) -> Result<(), AllocError> {
        let announced = self.announced;
        let whole = Some(announced);
        if self.counted == whole && Some(self.sent.len()) == whole {
            out.push_str("written ")?;
            push_bytes(alloc, out, &self.sent)?;
        } else {
            write!(out, "announced {announced}, sent ")?;
            push_bytes(alloc, out, &self.sent)?;
            self.push_end(out)?;
        }
        if !self.agree {
            out.push_str(", encoders differ")?;
        }
        if !value.is_borrowed_alike(alloc, self) {
            out.push_str(", borrowed forms differ")?;
        }
        Ok(())
    }

    fn push_end(&self, out: &mut String) -> Result<(), AllocError> {
        match self.counted {
            Some(count) => write!(out, ", counted {count}"),
            None => {
                out.push_str(", refused ")?;
                out.push_str(self.refusal.as_str())
            }
        }
    }
}

fn text_of(alloc: Global, error: Option<Error>) -> Result<String, AllocError> {
    match error {
        Some(error) => format!(in alloc; "{error:?}"),
        None => Ok(String::new(alloc)),
    }
}

// A vector of the value's own has the bytes that were sent, or there is none for the same error.
fn is_made(made: Result<Vec<u8>, Error>, sent: &[u8], outcome: Result<usize, Error>) -> bool {
    match made {
        Ok(bytes) => outcome.is_ok() && bytes.as_slice() == sent,
        Err(error) => outcome == Err(error),
    }
}

// A vector has the bytes that were sent after its own, or is as it was.
fn is_appended<T: Serialize>(
    alloc: Global,
    value: &T,
    front: &[u8],
    sent: &[u8],
    outcome: Result<usize, Error>,
) -> bool {
    let Ok(mut out) = front.to_vec(alloc) else {
        return false;
    };
    let found = value.tls_serialize_into(&mut out);
    let appended = match found {
        Ok(_) => out.strip_prefix(front) == Some(sent),
        Err(_) => out.as_slice() == front,
    };
    appended && found == outcome
}
