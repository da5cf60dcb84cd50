//! What is known of a context while bytes are validated: its key, which is what decides others, and no value
//! (RFC 8446, section 3.8).
ghost use Rattle.std.specs.Prelude.{◌≡◌, ℕ, IfErr, List};
ghost use Rattle.tls_codec_grammar.specs.Tree.{Join, Number, Tree};
ghost use Rattle.tls_codec_grammar.specs.Grammar.{Direction};
ghost use Rattle.tls_codec_grammar.specs.Tagged.{Variants, tagged};
ghost use Rattle.tls_codec_validate.specs.Keys.{ValidatesKeyed};
ghost use Rattle.tls_codec_validate.specs.Places.{RejectedAt};

use crate::rejected::Rejected;
use crate::tagged::FindTag;
use crate::traits::Validate;
use tls_codec_base::Size;
use tls_codec_cases::{Holds, Selector};

/// A type whose values decide others, by a key that is found in their bytes.
pub trait Keyed: Size {
    /// What decides others: the tag as a number, or those of a struct that holds several.
    type Key: Copy + Drop;

    // Which keys what a value stands for has.
    ghost is_key: { Self.Key → Tree → Type 0 };

    /// The key of a value.
    fn key(&self) -> Self::Key
        ensures { is_key result (Self.plain self.now) };
}

/// A tag as a context: its key gives the number.
pub trait TagKeyed: Selector + Keyed {
    /// The number that the key gives.
    fn tag_of_key(key: &Self::Key) -> u64
        ensures { (c : Tree) → Self.is_key key.now c → result ≡ Self.selected c };
}

/// What holds a tag `K`: its key has that of the tag.
pub trait HoldsKey<K: Keyed>: Holds<K> + Keyed {
    /// The tag's key.
    fn held_key(key: &Self::Key) -> K::Key
        ensures { (c : Tree) → Self.is_key key.now c → K.is_key result (Self.held c) };
}

/// A type whose key is found while its bytes are validated.
pub trait ValidateKeyed: Validate + Keyed {
    /// The key of the value that the bytes begin with, and what is left after it.
    ///
    /// Every rejection is one of [`tls_validate_prefix`](Validate::tls_validate_prefix).
    fn tls_validate_keyed(bytes: &[u8]) -> Result<(Self::Key, &[u8]), Rejected<'_>>
        ensures validates { ValidatesKeyed Self.format Self.is_key bytes.now result }
        ensures rejected { IfErr result (RejectedAt Self.names Self.places bytes.now) };
}

/// No context: nothing is decided.
impl Keyed for () {
    type Key = ();

    ghost is_key = { λ key c. Unit {0} };

    fn key(&self) -> () {}
}

impl Keyed for u8 {
    type Key = u64;

    ghost is_key = { λ n c. n ≡ ⟦<u8 as Selector>⟧.selected c };

    #[inline(always)]
    fn key(&self) -> u64 {
        u64::from(*self)
    }
}

impl TagKeyed for u8 {
    #[inline(always)]
    fn tag_of_key(key: &u64) -> u64 {
        *key
    }
}

impl ValidateKeyed for u8 {
    #[inline(always)]
    fn tls_validate_keyed(bytes: &[u8]) -> Result<(u64, &[u8]), Rejected<'_>> {
        let (tag, rest) = u8::find_tag(bytes)?;
        Ok((tag, rest))
    }
}

impl Keyed for u16 {
    type Key = u64;

    ghost is_key = { λ n c. n ≡ ⟦<u16 as Selector>⟧.selected c };

    #[inline(always)]
    fn key(&self) -> u64 {
        self.selects()
    }
}

impl TagKeyed for u16 {
    #[inline(always)]
    fn tag_of_key(key: &u64) -> u64 {
        *key
    }
}

impl ValidateKeyed for u16 {
    #[inline(always)]
    fn tls_validate_keyed(bytes: &[u8]) -> Result<(u64, &[u8]), Rejected<'_>> {
        let (tag, rest) = u16::find_tag(bytes)?;
        Ok((tag, rest))
    }
}

/// An enum whose encodings begin with its tag.
pub trait TagFirst: Validate {
    /// The tag.
    type Tag: FindTag;

    // The variants that its format is a choice of.
    ghost variants: { Variants };

    // The tag of a value, by what that stands for.
    ghost first_tag: { Tree → ℕ };

    ghost is_tagged: { (d : Direction) (bytes : List ℕ) (v : Tree)
        → Self.format.spells d bytes v
        → tagged Self.Tag.wide variants d bytes v };

    ghost is_first_tag: { (d : Direction) (bytes : List ℕ) (tag : ℕ) (parts : Tree)
        → Self.format.spells d bytes (Join (Number tag) parts)
        → first_tag (Join (Number tag) parts) ≡ tag };
}

/// The tag of the value that the bytes begin with, and what is left after the value: what
/// [`tls_validate_keyed`](ValidateKeyed::tls_validate_keyed) of an enum is.
pub fn validate_tag_first<T: TagFirst>(bytes: &[u8]) -> Result<(u64, &[u8]), Rejected<'_>>
    ensures validates { ValidatesKeyed T.format (λ n c. n ≡ T.first_tag c) bytes.now result }
    ensures rejected { IfErr result (RejectedAt T.names T.places bytes.now) }
{
    let rest = T::tls_validate_prefix(bytes)?;
    match <T as TagFirst>::Tag::find_tag(bytes) {
        Ok((tag, _)) => Ok((tag, rest)),
        Err(rejected) => Err(rejected),
    }
}
