//! [`Other`], a tag that none of some cases has, and what comes after it.
ghost use Rattle.std.specs.Prelude.{◌≡◌, ◌≤◌, true, false, MatchResult, IfErr};
ghost use Rattle.tls_codec_grammar.specs.Contexts.{DoesNotFit};
ghost use Rattle.tls_codec_grammar.specs.Encoding.{AppendsForm, Writes};
ghost use Rattle.tls_codec_grammar.specs.Decoding.{Named};
ghost use Rattle.tls_codec_cases.specs.Choice.{ReadsParts, SplitsParts};
ghost use Rattle.tls_codec_cases.specs.Others.{others, others_names, others_source_names};

use crate::cases::Tags;
use crate::tag::Tag;
use std::alloc::Global;
use std::marker::PhantomData;
use tls_codec_base::context::does_not_fit;
use tls_codec_base::{ByRef, Deserialize, DeserializeBytes, unknown_value};
use tls_codec_wire::{Error, Source};

/// A tag that none of the cases `C` has, as a `U`, and its parts.
#[derive(PartialEq, Drop)]
pub struct Other<C: Tags, U: Tag, T> {
    /// The tag.
    pub tag: U,
    /// What comes after it.
    pub parts: T,
    /// The cases that don't have it.
    pub cases: PhantomData<C>,
    ghost small: { U.number tag ≤ U.most },
    ghost unknown: { C.variants.has (U.number tag) ≡ false },
}

impl<C: Tags, U: Tag, T: Drop> Other<C, U, T> {
    /// This tag and these parts.
    ///
    /// `EncodingError("value does not fit its context")`: one of the cases has the tag.
    pub fn new(tag: U, parts: T) -> Result<Other<C, U, T>, Error>
        requires { U.number tag ≤ U.most }
        ensures { MatchResult result (λ other. (other.tag ≡ tag) × (other.parts ≡ parts))
            (λ e. (C.variants.has (U.number tag) ≡ true) × DoesNotFit e) }
    {
        if C::has(tag.number()) {
            return Err(does_not_fit());
        }
        Ok(Other {
            tag,
            parts,
            cases: PhantomData,
        })
    }
}

impl<C: Tags, U: Tag, T> Other<C, U, T> {
    /// The same with its parts borrowed, beside cases that don't have its tag either.
    pub fn by_ref<L: Tags>(&self) -> Other<L, U, ByRef<'_, T>>
        requires { L.variants.has (U.number self.now.tag) ≡ false }
        ensures { (result.tag ≡ self.now.tag) × (result.parts.0.now ≡ self.now.parts) }
    {
        Other {
            tag: self.tag,
            parts: ByRef(&self.parts),
            cases: PhantomData,
        }
    }
}

/// Reads the parts after a tag that none of the cases has. `UnknownValue`: a `U` doesn't hold it.
pub fn read_other<C: Tags, U: Tag, T: Deserialize, R: Source>(
    tag: u64,
    alloc: Global,
    src: &mut R,
) -> Result<Other<C, U, T>, Error>
    requires { C.variants.has tag ≡ false }
    ensures reads { ReadsParts (others U.most T.format) (λ other. U.number other.tag)
        (λ other. T.plain other.parts) tag R.Source src.old src.new result }
    ensures named { IfErr result
        (Named ((others U.most T.format).parts tag) (others_source_names U.most T.names tag)
        R.Source src.old src.new) }
{
    if tag > U::greatest() {
        return Err(unknown_value(tag));
    }
    let parts = T::tls_deserialize(alloc, src)?;
    Ok(Other {
        tag: U::of_number(tag),
        parts,
        cases: PhantomData,
    })
}

/// Reads the parts after a tag that none of the cases has, and returns the rest too. `UnknownValue`: a `U` doesn't hold it.
pub fn split_other<C: Tags, U: Tag, T: DeserializeBytes>(
    tag: u64,
    alloc: Global,
    rest: &[u8],
) -> Result<(Other<C, U, T>, &[u8]), Error>
    requires { C.variants.has tag ≡ false }
    ensures splits { SplitsParts (others U.most T.format) (λ other. U.number other.tag)
        (λ other. T.plain other.parts) tag rest.now result }
    ensures named { IfErr result (others_names U.most T.names tag rest.now) }
{
    if tag > U::greatest() {
        return Err(unknown_value(tag));
    }
    let (parts, rest) = T::tls_deserialize_bytes(alloc, rest)?;
    let other = Other {
        tag: U::of_number(tag),
        parts,
        cases: PhantomData,
    };
    Ok((other, rest))
}
