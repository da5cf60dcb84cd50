//! [`SignatureTypeTreeHash`].
ghost use Rattle.std.specs.Prelude.{◌≡◌, MatchOption, MatchResult, Some, false, nat_eq};
ghost use Rattle.std.specs.Fmt.{padded};
ghost use Rattle.std.specs.Ordering.{nat_cmp};
ghost use Rattle.tls_codec.specs.Errors.{UnknownValue};
ghost use Rattle.tls_codec.specs.OwnMessages.{values_names, values_source_names};
ghost use Rattle.tls_codec_validate.specs.TaggedPlaces.{values_places};
ghost use Rattle.ct.specs.SignatureTypeTreeHash.{signature_type_tree_hash_code, signature_type_tree_hash_format, signature_type_tree_hash_has, signature_type_tree_hash_meets, signature_type_tree_hash_name, signature_type_tree_hash_plain};
ghost use Rattle.ct.specs.declared.signature_type_tree_hash.SignatureTypeTreeHash.{SignatureTypeTreeHash};

use std::alloc::Global;
use std::fmt;
use tls_codec::{
    Deserialize, DeserializeBytes, Error, Serialize, Sink, Size, Source, unknown_value,
};
use tls_codec_validate::{Rejected, Validate, split_u8};
use tls_codec_views::{Encoded, Numbered, ReadInPlace};

/// `SignatureTypeTreeHash`.
#[derive(PartialEq, Eq, PartialOrd, Ord, Hash, Debug, Clone, Copy)]
pub enum SignatureTypeTreeHash {
    /// `tree_hash(1)`
    TreeHash,
}

impl SignatureTypeTreeHash {
    /// Its number.
    pub fn code(&self) -> u8
        ensures { result ≡ signature_type_tree_hash_code self.now }
    {
        1
    }

    /// Its name in the presentation language.
    pub fn name(&self) -> &'static str
        ensures { result.now ≡ signature_type_tree_hash_name self.now }
    {
        "tree_hash"
    }

    /// The value with this number, if there is one.
    pub fn of_code(code: u8) -> Option<SignatureTypeTreeHash>
        ensures { MatchOption result (signature_type_tree_hash_has code ≡ false)
            (λ v. signature_type_tree_hash_code v ≡ code) }
    {
        match code {
            1 => Some(SignatureTypeTreeHash::TreeHash),
            _ => None,
        }
    }
}

/// Its name.
impl fmt::Display for SignatureTypeTreeHash {
    ghost output = { λ v. Some (signature_type_tree_hash_name v) };

    ghost styled_output = { λ v spec. Some (padded spec (signature_type_tree_hash_name v)) };

    fn fmt<W: fmt::Write>(&self, f: &mut fmt::Formatter<W>) -> fmt::Result {
        f.pad(self.name())
    }
}

/// Its number.
impl From<SignatureTypeTreeHash> for u8 {
    ghost from_gives = { λ v number. number ≡ signature_type_tree_hash_code v };

    fn from(value: SignatureTypeTreeHash) -> u8 {
        value.code()
    }
}

/// The value with this number.
impl TryFrom<u8> for SignatureTypeTreeHash {
    type Error = Error;

    ghost try_from_gives = { λ tag r. MatchResult r
        (λ v. signature_type_tree_hash_code v ≡ tag)
        (λ e. (signature_type_tree_hash_has tag ≡ false) × (e ≡ UnknownValue tag)) };

    fn try_from(tag: u8) -> Result<SignatureTypeTreeHash, Error> {
        match SignatureTypeTreeHash::of_code(tag) {
            Some(value) => Ok(value),
            None => Err(unknown_value(u64::from(tag))),
        }
    }
}

impl Size for SignatureTypeTreeHash {
    ghost plain = { signature_type_tree_hash_plain };

    ghost format = { signature_type_tree_hash_format };

    fn tls_serialized_len(&self) -> usize {
        1
    }

    ghost lawful = { signature_type_tree_hash_meets };
}

impl Serialize for SignatureTypeTreeHash {
    fn tls_serialize<W: Sink>(&self, writer: &mut W) -> Result<usize, Error> {
        self.code().tls_serialize(writer)
    }

    fn tls_serialize_into(&self, out: &mut Vec<u8>) -> Result<usize, Error> {
        self.code().tls_serialize_into(out)
    }
}

impl Deserialize for SignatureTypeTreeHash {
    ghost names = { values_source_names 1 signature_type_tree_hash_has };

    fn tls_deserialize<R: Source>(
        alloc: Global,
        src: &mut R,
    ) -> Result<SignatureTypeTreeHash, Error> {
        let tag = u8::tls_deserialize(alloc, src)?;
        match SignatureTypeTreeHash::of_code(tag) {
            Some(value) => Ok(value),
            None => Err(unknown_value(u64::from(tag))),
        }
    }
}

impl DeserializeBytes for SignatureTypeTreeHash {
    ghost names = { values_names 1 signature_type_tree_hash_has };

    fn tls_deserialize_bytes(
        alloc: Global,
        whole: &[u8],
    ) -> Result<(SignatureTypeTreeHash, &[u8]), Error> {
        let (tag, rest) = u8::tls_deserialize_bytes(alloc, whole)?;
        match SignatureTypeTreeHash::of_code(tag) {
            Some(value) => Ok((value, rest)),
            None => Err(unknown_value(u64::from(tag))),
        }
    }
}

impl Validate for SignatureTypeTreeHash {
    ghost places = { values_places 1 signature_type_tree_hash_has };

    fn tls_validate_prefix(whole: &[u8]) -> Result<&[u8], Rejected<'_>> {
        let (tag, rest) = split_u8(whole)?;
        match SignatureTypeTreeHash::of_code(tag) {
            Some(_value) => Ok(rest),
            None => Err(Rejected {
                error: unknown_value(u64::from(tag)),
                rest: whole,
            }),
        }
    }
}

impl Numbered for SignatureTypeTreeHash {
    type Tag = u8;

    ghost has = { signature_type_tree_hash_has };

    ghost as_values = { λ bytes is. is };
}

impl ReadInPlace for SignatureTypeTreeHash {
    fn read(encoded: &Encoded<'_, SignatureTypeTreeHash>) -> SignatureTypeTreeHash {
        match encoded.number() {
            1 => SignatureTypeTreeHash::TreeHash,
            _ => unreachable!(),
        }
    }
}

/// Two values are equal if and only if their numbers are equal.
pub fn is_compared_by_its_number()
    ensures { (x y : SignatureTypeTreeHash) →
        ⟦<SignatureTypeTreeHash as PartialEq>⟧.eq x y
        ≡ nat_eq (signature_type_tree_hash_code x) (signature_type_tree_hash_code y) }
{}

/// Values are ordered by their numbers.
pub fn is_ordered_by_its_number()
    ensures { (x y : SignatureTypeTreeHash) →
        ⟦<SignatureTypeTreeHash as Ord>⟧.cmp x y
        ≡ nat_cmp (signature_type_tree_hash_code x) (signature_type_tree_hash_code y) }
{}
