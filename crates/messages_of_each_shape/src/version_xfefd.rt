//! [`VersionXfefd`].
ghost use Rattle.std.specs.Prelude.{◌≡◌, MatchOption, MatchResult, Some, false, nat_eq};
ghost use Rattle.std.specs.Fmt.{padded};
ghost use Rattle.std.specs.Ordering.{nat_cmp};
ghost use Rattle.tls_codec.specs.Errors.{UnknownValue};
ghost use Rattle.tls_codec.specs.OwnMessages.{values_names, values_source_names};
ghost use Rattle.tls_codec_validate.specs.TaggedPlaces.{values_places};
ghost use Rattle.messages_of_each_shape.specs.VersionXfefd.{version_xfefd_code, version_xfefd_format, version_xfefd_has, version_xfefd_meets, version_xfefd_name, version_xfefd_plain};
ghost use Rattle.messages_of_each_shape.specs.declared.version_xfefd.VersionXfefd.{VersionXfefd};

use std::alloc::Global;
use std::fmt;
use tls_codec::{
    Deserialize, DeserializeBytes, Error, Serialize, Sink, Size, Source, unknown_value,
};
use tls_codec_validate::{Rejected, Validate, split_u16};
use tls_codec_views::{Encoded, Numbered, ReadInPlace};

/// `VersionXfefd`.
#[derive(PartialEq, Eq, PartialOrd, Ord, Hash, Debug, Clone, Copy)]
pub enum VersionXfefd {
    /// `0xfefd(65277)`
    Xfefd,
}

impl VersionXfefd {
    /// Its number.
    pub fn code(&self) -> u16
        ensures { result ≡ version_xfefd_code self.now }
    {
        65277
    }

    /// Its name in the presentation language.
    pub fn name(&self) -> &'static str
        ensures { result.now ≡ version_xfefd_name self.now }
    {
        "0xfefd"
    }

    /// The value with this number, if there is one.
    pub fn of_code(code: u16) -> Option<VersionXfefd>
        ensures { MatchOption result (version_xfefd_has code ≡ false)
            (λ v. version_xfefd_code v ≡ code) }
    {
        match code {
            65277 => Some(VersionXfefd::Xfefd),
            _ => None,
        }
    }
}

/// Its name.
impl fmt::Display for VersionXfefd {
    ghost output = { λ v. Some (version_xfefd_name v) };

    ghost styled_output = { λ v spec. Some (padded spec (version_xfefd_name v)) };

    fn fmt<W: fmt::Write>(&self, f: &mut fmt::Formatter<W>) -> fmt::Result {
        f.pad(self.name())
    }
}

/// Its number.
impl From<VersionXfefd> for u16 {
    ghost from_gives = { λ v number. number ≡ version_xfefd_code v };

    fn from(value: VersionXfefd) -> u16 {
        value.code()
    }
}

/// The value with this number.
impl TryFrom<u16> for VersionXfefd {
    type Error = Error;

    ghost try_from_gives = { λ tag r. MatchResult r
        (λ v. version_xfefd_code v ≡ tag)
        (λ e. (version_xfefd_has tag ≡ false) × (e ≡ UnknownValue tag)) };

    fn try_from(tag: u16) -> Result<VersionXfefd, Error> {
        match VersionXfefd::of_code(tag) {
            Some(value) => Ok(value),
            None => Err(unknown_value(u64::from(tag))),
        }
    }
}

impl Size for VersionXfefd {
    ghost plain = { version_xfefd_plain };

    ghost format = { version_xfefd_format };

    fn tls_serialized_len(&self) -> usize {
        2
    }

    ghost lawful = { version_xfefd_meets };
}

impl Serialize for VersionXfefd {
    fn tls_serialize<W: Sink>(&self, writer: &mut W) -> Result<usize, Error> {
        self.code().tls_serialize(writer)
    }

    fn tls_serialize_into(&self, out: &mut Vec<u8>) -> Result<usize, Error> {
        self.code().tls_serialize_into(out)
    }
}

impl Deserialize for VersionXfefd {
    ghost names = { values_source_names 2 version_xfefd_has };

    fn tls_deserialize<R: Source>(alloc: Global, src: &mut R) -> Result<VersionXfefd, Error> {
        let tag = u16::tls_deserialize(alloc, src)?;
        match VersionXfefd::of_code(tag) {
            Some(value) => Ok(value),
            None => Err(unknown_value(u64::from(tag))),
        }
    }
}

impl DeserializeBytes for VersionXfefd {
    ghost names = { values_names 2 version_xfefd_has };

    fn tls_deserialize_bytes(alloc: Global, whole: &[u8]) -> Result<(VersionXfefd, &[u8]), Error> {
        let (tag, rest) = u16::tls_deserialize_bytes(alloc, whole)?;
        match VersionXfefd::of_code(tag) {
            Some(value) => Ok((value, rest)),
            None => Err(unknown_value(u64::from(tag))),
        }
    }
}

impl Validate for VersionXfefd {
    ghost places = { values_places 2 version_xfefd_has };

    fn tls_validate_prefix(whole: &[u8]) -> Result<&[u8], Rejected<'_>> {
        let (tag, rest) = split_u16(whole)?;
        match VersionXfefd::of_code(tag) {
            Some(_value) => Ok(rest),
            None => Err(Rejected {
                error: unknown_value(u64::from(tag)),
                rest: whole,
            }),
        }
    }
}

impl Numbered for VersionXfefd {
    type Tag = u16;

    ghost has = { version_xfefd_has };

    ghost as_values = { λ bytes is. is };
}

impl ReadInPlace for VersionXfefd {
    fn read(encoded: &Encoded<'_, VersionXfefd>) -> VersionXfefd {
        match encoded.number() {
            65277 => VersionXfefd::Xfefd,
            _ => unreachable!(),
        }
    }
}

/// Two values are equal if and only if their numbers are equal.
pub fn is_compared_by_its_number()
    ensures { (x y : VersionXfefd) →
        ⟦<VersionXfefd as PartialEq>⟧.eq x y
        ≡ nat_eq (version_xfefd_code x) (version_xfefd_code y) }
{}

/// Values are ordered by their numbers.
pub fn is_ordered_by_its_number()
    ensures { (x y : VersionXfefd) →
        ⟦<VersionXfefd as Ord>⟧.cmp x y
        ≡ nat_cmp (version_xfefd_code x) (version_xfefd_code y) }
{}
