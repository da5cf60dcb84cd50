//! [`Version`].
ghost use Rattle.std.specs.Prelude.{◌≡◌, MatchOption, MatchResult, Some, false, nat_eq};
ghost use Rattle.std.specs.Fmt.{padded};
ghost use Rattle.std.specs.Ordering.{nat_cmp};
ghost use Rattle.tls_codec.specs.Errors.{UnknownValue};
ghost use Rattle.tls_codec.specs.OwnMessages.{values_names, values_source_names};
ghost use Rattle.tls_codec_validate.specs.TaggedPlaces.{values_places};
ghost use Rattle.ct.specs.Version.{version_code, version_format, version_has, version_meets, version_name, version_plain};
ghost use Rattle.ct.specs.declared.version.Version.{Version};

use std::alloc::Global;
use std::fmt;
use tls_codec::{
    Deserialize, DeserializeBytes, Error, Serialize, Sink, Size, Source, unknown_value,
};
use tls_codec_validate::{Rejected, Validate, split_u8};
use tls_codec_views::{Encoded, Numbered, ReadInPlace};

/// `Version` (RFC 6962, section 3.2).
#[derive(PartialEq, Eq, PartialOrd, Ord, Hash, Debug, Clone, Copy)]
pub enum Version {
    /// `v1(0)`
    V1,
}

impl Version {
    /// Its number.
    pub fn code(&self) -> u8
        ensures { result ≡ version_code self.now }
    {
        0
    }

    /// Its name in the presentation language.
    pub fn name(&self) -> &'static str
        ensures { result.now ≡ version_name self.now }
    {
        "v1"
    }

    /// The value with this number, if there is one.
    pub fn of_code(code: u8) -> Option<Version>
        ensures { MatchOption result (version_has code ≡ false) (λ v. version_code v ≡ code) }
    {
        match code {
            0 => Some(Version::V1),
            _ => None,
        }
    }
}

/// Its name.
impl fmt::Display for Version {
    ghost output = { λ v. Some (version_name v) };

    ghost styled_output = { λ v spec. Some (padded spec (version_name v)) };

    fn fmt<W: fmt::Write>(&self, f: &mut fmt::Formatter<W>) -> fmt::Result {
        f.pad(self.name())
    }
}

/// Its number.
impl From<Version> for u8 {
    ghost from_gives = { λ v number. number ≡ version_code v };

    fn from(value: Version) -> u8 {
        value.code()
    }
}

/// The value with this number.
impl TryFrom<u8> for Version {
    type Error = Error;

    ghost try_from_gives = { λ tag r. MatchResult r
        (λ v. version_code v ≡ tag)
        (λ e. (version_has tag ≡ false) × (e ≡ UnknownValue tag)) };

    fn try_from(tag: u8) -> Result<Version, Error> {
        match Version::of_code(tag) {
            Some(value) => Ok(value),
            None => Err(unknown_value(u64::from(tag))),
        }
    }
}

impl Size for Version {
    ghost plain = { version_plain };

    ghost format = { version_format };

    fn tls_serialized_len(&self) -> usize {
        1
    }

    ghost lawful = { version_meets };
}

impl Serialize for Version {
    fn tls_serialize<W: Sink>(&self, writer: &mut W) -> Result<usize, Error> {
        self.code().tls_serialize(writer)
    }

    fn tls_serialize_into(&self, out: &mut Vec<u8>) -> Result<usize, Error> {
        self.code().tls_serialize_into(out)
    }
}

impl Deserialize for Version {
    ghost names = { values_source_names 1 version_has };

    fn tls_deserialize<R: Source>(alloc: Global, src: &mut R) -> Result<Version, Error> {
        let tag = u8::tls_deserialize(alloc, src)?;
        match Version::of_code(tag) {
            Some(value) => Ok(value),
            None => Err(unknown_value(u64::from(tag))),
        }
    }
}

impl DeserializeBytes for Version {
    ghost names = { values_names 1 version_has };

    fn tls_deserialize_bytes(alloc: Global, whole: &[u8]) -> Result<(Version, &[u8]), Error> {
        let (tag, rest) = u8::tls_deserialize_bytes(alloc, whole)?;
        match Version::of_code(tag) {
            Some(value) => Ok((value, rest)),
            None => Err(unknown_value(u64::from(tag))),
        }
    }
}

impl Validate for Version {
    ghost places = { values_places 1 version_has };

    fn tls_validate_prefix(whole: &[u8]) -> Result<&[u8], Rejected<'_>> {
        let (tag, rest) = split_u8(whole)?;
        match Version::of_code(tag) {
            Some(_value) => Ok(rest),
            None => Err(Rejected {
                error: unknown_value(u64::from(tag)),
                rest: whole,
            }),
        }
    }
}

impl Numbered for Version {
    type Tag = u8;

    ghost has = { version_has };

    ghost as_values = { λ bytes is. is };
}

impl ReadInPlace for Version {
    fn read(encoded: &Encoded<'_, Version>) -> Version {
        match encoded.number() {
            0 => Version::V1,
            _ => unreachable!(),
        }
    }
}

/// Two values are equal if and only if their numbers are equal.
pub fn is_compared_by_its_number()
    ensures { (x y : Version) →
        ⟦<Version as PartialEq>⟧.eq x y
        ≡ nat_eq (version_code x) (version_code y) }
{}

/// Values are ordered by their numbers.
pub fn is_ordered_by_its_number()
    ensures { (x y : Version) →
        ⟦<Version as Ord>⟧.cmp x y
        ≡ nat_cmp (version_code x) (version_code y) }
{}
