//! [`Choice`] and [`Numbered`]: enums of your own, with fields and without.
ghost use Rattle.std.specs.Prelude.{◌≡◌, Bool, true, ℕ, List};
ghost use Rattle.tls_codec_grammar.specs.Tree.{Empty, Join, Number};
ghost use Rattle.tls_codec_grammar.specs.Grammar.{Reading};
ghost use Rattle.tls_codec_grammar.specs.Tagged.{Variants, tagged};
ghost use Rattle.tls_codec_base.specs.PartNames.{IsSpelling};
ghost use Rattle.tls_codec_base.specs.Values.{values};
ghost use Rattle.tls_codec_views.specs.Views.{IsCase};

use crate::encoded::Encoded;
use tls_codec_validate::{FindTag, Validate};

/// A message of your own that is encoded as a tag, and after it what its case has (RFC 8446, section 3.8).
pub trait Choice: Validate {
    /// The tag, as a number.
    type Tag: FindTag;

    // What comes after each tag.
    ghost variants: { Variants };

    ghost as_choice: { (bytes : List ℕ)
        → IsSpelling Self.format.spells bytes
        → IsSpelling (tagged Self.Tag.wide variants) bytes };
}

impl<'a, T: Choice> Encoded<'a, T> {
    /// The number of its tag, and what comes after the tag: the encodings of its case's parts.
    pub fn case(&self) -> (u64, &'a [u8])
        ensures tag { IsCase T.Tag.wide result.0 self.now result.1.now }
        ensures parts { IsSpelling (T.variants.parts result.0).spells result.1.now }
    {
        match T::Tag::find_tag(self.bytes) {
            Ok(found) => found,
            Err(_) => unreachable!(),
        }
    }
}

/// An enum of numbers of your own. Some of the numbers have a value (RFC 8446, section 3.5).
pub trait Numbered: Validate {
    /// Its number.
    type Tag: FindTag;

    // Which numbers have a value.
    ghost has: { ℕ → Bool };

    ghost as_values: { (bytes : List ℕ)
        → IsSpelling Self.format.spells bytes
        → IsSpelling (tagged Self.Tag.wide (values has)) bytes };
}

impl<'a, T: Numbered> Encoded<'a, T> {
    /// The number, which has a value.
    pub fn number(&self) -> u64
        ensures has { T.has result ≡ true }
        ensures reads { tagged T.Tag.wide (values T.has) Reading self.now
            (Join (Number result) Empty) }
    {
        match T::Tag::find_tag(self.bytes) {
            Ok((number, _)) => number,
            Err(_) => unreachable!(),
        }
    }
}
