//! [`MerkleLeafType`].
ghost use Rattle.std.specs.Prelude.{◌≡◌, MatchOption, MatchResult, Some, false, nat_eq};
ghost use Rattle.std.specs.Fmt.{padded};
ghost use Rattle.std.specs.Ordering.{nat_cmp};
ghost use Rattle.tls_codec.specs.Errors.{UnknownValue};
ghost use Rattle.tls_codec.specs.OwnMessages.{values_names, values_source_names};
ghost use Rattle.tls_codec_validate.specs.TaggedPlaces.{values_places};
ghost use Rattle.ct.specs.MerkleLeafType.{merkle_leaf_type_code, merkle_leaf_type_format, merkle_leaf_type_has, merkle_leaf_type_meets, merkle_leaf_type_name, merkle_leaf_type_plain};
ghost use Rattle.ct.specs.declared.merkle_leaf_type.MerkleLeafType.{MerkleLeafType};

use std::alloc::Global;
use std::fmt;
use tls_codec::{
    Deserialize, DeserializeBytes, Error, Serialize, Sink, Size, Source, unknown_value,
};
use tls_codec_validate::{Rejected, Validate, split_u8};
use tls_codec_views::{Encoded, Numbered, ReadInPlace};

/// `MerkleLeafType` (RFC 6962, section 3.4).
#[derive(PartialEq, Eq, PartialOrd, Ord, Hash, Debug, Clone, Copy)]
pub enum MerkleLeafType {
    /// `timestamped_entry(0)`
    TimestampedEntry,
}

impl MerkleLeafType {
    /// Its number.
    pub fn code(&self) -> u8
        ensures { result ≡ merkle_leaf_type_code self.now }
    {
        0
    }

    /// Its name in the presentation language.
    pub fn name(&self) -> &'static str
        ensures { result.now ≡ merkle_leaf_type_name self.now }
    {
        "timestamped_entry"
    }

    /// The value with this number, if there is one.
    pub fn of_code(code: u8) -> Option<MerkleLeafType>
        ensures { MatchOption result (merkle_leaf_type_has code ≡ false)
            (λ v. merkle_leaf_type_code v ≡ code) }
    {
        match code {
            0 => Some(MerkleLeafType::TimestampedEntry),
            _ => None,
        }
    }
}

/// Its name.
impl fmt::Display for MerkleLeafType {
    ghost output = { λ v. Some (merkle_leaf_type_name v) };

    ghost styled_output = { λ v spec. Some (padded spec (merkle_leaf_type_name v)) };

    fn fmt<W: fmt::Write>(&self, f: &mut fmt::Formatter<W>) -> fmt::Result {
        f.pad(self.name())
    }
}

/// Its number.
impl From<MerkleLeafType> for u8 {
    ghost from_gives = { λ v number. number ≡ merkle_leaf_type_code v };

    fn from(value: MerkleLeafType) -> u8 {
        value.code()
    }
}

/// The value with this number.
impl TryFrom<u8> for MerkleLeafType {
    type Error = Error;

    ghost try_from_gives = { λ tag r. MatchResult r
        (λ v. merkle_leaf_type_code v ≡ tag)
        (λ e. (merkle_leaf_type_has tag ≡ false) × (e ≡ UnknownValue tag)) };

    fn try_from(tag: u8) -> Result<MerkleLeafType, Error> {
        match MerkleLeafType::of_code(tag) {
            Some(value) => Ok(value),
            None => Err(unknown_value(u64::from(tag))),
        }
    }
}

impl Size for MerkleLeafType {
    ghost plain = { merkle_leaf_type_plain };

    ghost format = { merkle_leaf_type_format };

    fn tls_serialized_len(&self) -> usize {
        1
    }

    ghost lawful = { merkle_leaf_type_meets };
}

impl Serialize for MerkleLeafType {
    fn tls_serialize<W: Sink>(&self, writer: &mut W) -> Result<usize, Error> {
        self.code().tls_serialize(writer)
    }

    fn tls_serialize_into(&self, out: &mut Vec<u8>) -> Result<usize, Error> {
        self.code().tls_serialize_into(out)
    }
}

impl Deserialize for MerkleLeafType {
    ghost names = { values_source_names 1 merkle_leaf_type_has };

    fn tls_deserialize<R: Source>(alloc: Global, src: &mut R) -> Result<MerkleLeafType, Error> {
        let tag = u8::tls_deserialize(alloc, src)?;
        match MerkleLeafType::of_code(tag) {
            Some(value) => Ok(value),
            None => Err(unknown_value(u64::from(tag))),
        }
    }
}

impl DeserializeBytes for MerkleLeafType {
    ghost names = { values_names 1 merkle_leaf_type_has };

    fn tls_deserialize_bytes(
        alloc: Global,
        whole: &[u8],
    ) -> Result<(MerkleLeafType, &[u8]), Error> {
        let (tag, rest) = u8::tls_deserialize_bytes(alloc, whole)?;
        match MerkleLeafType::of_code(tag) {
            Some(value) => Ok((value, rest)),
            None => Err(unknown_value(u64::from(tag))),
        }
    }
}

impl Validate for MerkleLeafType {
    ghost places = { values_places 1 merkle_leaf_type_has };

    fn tls_validate_prefix(whole: &[u8]) -> Result<&[u8], Rejected<'_>> {
        let (tag, rest) = split_u8(whole)?;
        match MerkleLeafType::of_code(tag) {
            Some(_value) => Ok(rest),
            None => Err(Rejected {
                error: unknown_value(u64::from(tag)),
                rest: whole,
            }),
        }
    }
}

impl Numbered for MerkleLeafType {
    type Tag = u8;

    ghost has = { merkle_leaf_type_has };

    ghost as_values = { λ bytes is. is };
}

impl ReadInPlace for MerkleLeafType {
    fn read(encoded: &Encoded<'_, MerkleLeafType>) -> MerkleLeafType {
        match encoded.number() {
            0 => MerkleLeafType::TimestampedEntry,
            _ => unreachable!(),
        }
    }
}

/// Two values are equal if and only if their numbers are equal.
pub fn is_compared_by_its_number()
    ensures { (x y : MerkleLeafType) →
        ⟦<MerkleLeafType as PartialEq>⟧.eq x y
        ≡ nat_eq (merkle_leaf_type_code x) (merkle_leaf_type_code y) }
{}

/// Values are ordered by their numbers.
pub fn is_ordered_by_its_number()
    ensures { (x y : MerkleLeafType) →
        ⟦<MerkleLeafType as Ord>⟧.cmp x y
        ≡ nat_cmp (merkle_leaf_type_code x) (merkle_leaf_type_code y) }
{}
