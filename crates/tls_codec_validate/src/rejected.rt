//! [`Rejected`]: why bytes are rejected, and which of them.
ghost use Rattle.std.specs.Prelude.{◌≡◌, ◌-◌, Err, IfErr, IfOk, Ok, length};

use tls_codec_wire::Error;

/// Why bytes are rejected, and from where on.
///
/// ```rust
/// let bytes = [7, 2, 0];
/// let rejected = Rejected { error: Error::DecodingError("declared content is not there"), rest: &[2, 0] };
/// assert_eq!(rt; <(u8, VLBytes)>::tls_validate(&bytes), Err(rejected));
/// assert_eq!(rt; rejected.at(&bytes), 1);
/// ```
#[derive(Clone, Copy, PartialEq, Eq, Debug)]
pub struct Rejected<'a> {
    /// An error that the slice decoder names of the bytes.
    pub error: Error,
    /// The bytes from the first one of the rejected field on: an integer, a vector with its length, the tag of an enum or
    /// of an option. If an element is rejected, the field is in that element. Of `TrailingData` the bytes that are left.
    pub rest: &'a [u8],
}

impl Rejected<'_> {
    /// The position of the rejected field's first byte, if these are the bytes that were rejected.
    pub fn at(&self, bytes: &[u8]) -> usize
        ensures { result ≡ length bytes.now - length self.now.rest.now }
    {
        bytes.len().saturating_sub(self.rest.len())
    }
}

impl From<Rejected<'_>> for Error {
    ghost from_gives = { λ rejected e. e ≡ rejected.error };

    fn from(rejected: Rejected<'_>) -> Error {
        rejected.error
    }
}

/// What is found at the front of the bytes, or that they are rejected there, at position 0 of them.
#[inline(always)]
pub(crate) fn or_rejected<T>(found: Result<T, Error>, bytes: &[u8]) -> Result<T, Rejected<'_>>
    ensures ok { IfOk result (λ value. found ≡ Ok value) }
    ensures err { IfErr result (λ r. (found ≡ Err r.error) × (r.rest.now ≡ bytes.now)) }
{
    match found {
        Ok(value) => Ok(value),
        Err(error) => Err(Rejected { error, rest: bytes }),
    }
}
