//! [`Parted`]: a message that is encoded as its parts are.
ghost use Rattle.std.specs.Prelude.{◌≡◌, ℕ, List};
ghost use Rattle.tls_codec_base.specs.PartNames.{IsSpelling};

use crate::encoded::Encoded;
use std::marker::PhantomData;
use tls_codec_validate::Validate;

/// A message of your own that is encoded as its parts are, in a tuple.
pub trait Parted: Validate {
    /// The tuple of its parts.
    type Parts: Validate;

    ghost as_parts: { (bytes : List ℕ)
        → IsSpelling Self.format.spells bytes
        → IsSpelling Self.Parts.format.spells bytes };
}

impl<'a, T: Parted> Encoded<'a, T> {
    /// The encoding of its parts: the same bytes.
    pub fn parts(&self) -> Encoded<'a, T::Parts>
        ensures { result ≡ self.now }
    {
        Encoded {
            bytes: self.bytes,
            of: PhantomData,
        }
    }
}
