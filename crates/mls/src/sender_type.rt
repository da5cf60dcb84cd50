//! [`SenderType`].
ghost use Rattle.std.specs.Prelude.{◌≡◌, MatchOption, MatchResult, Some, false, nat_eq};
ghost use Rattle.std.specs.Fmt.{padded};
ghost use Rattle.std.specs.Ordering.{nat_cmp};
ghost use Rattle.tls_codec.specs.Errors.{UnknownValue};
ghost use Rattle.std.proofs.Common.{refl};
ghost use Rattle.tls_codec.specs.OwnMessages.{values, values_names, values_source_names};
ghost use Rattle.tls_codec_validate.specs.TaggedPlaces.{values_places};
ghost use Rattle.mls.specs.SenderType.{sender_type_code, sender_type_format, sender_type_has, sender_type_meets, sender_type_name, sender_type_plain, sender_type_selected};
ghost use Rattle.mls.specs.declared.sender_type.SenderType.{SenderType};

use std::alloc::Global;
use std::fmt;
use tls_codec::{
    Deserialize, DeserializeBytes, Error, Serialize, Sink, Size, Source, unknown_value,
};
use tls_codec_cases::Selector;
use tls_codec_validate::{
    Keyed, Rejected, TagFirst, TagKeyed, Validate, ValidateKeyed, split_u8, validate_tag_first,
};
use tls_codec_views::{Encoded, Numbered, ReadInPlace};

/// `SenderType` (RFC 9420, section 6).
#[derive(PartialEq, Eq, PartialOrd, Ord, Hash, Debug, Clone, Copy)]
pub enum SenderType {
    /// `member(1)`
    Member,
    /// `external(2)`
    External,
    /// `new_member_proposal(3)`
    NewMemberProposal,
    /// `new_member_commit(4)`
    NewMemberCommit,
}

impl SenderType {
    /// Its number.
    pub fn code(&self) -> u8
        ensures { result ≡ sender_type_code self.now }
    {
        match self {
            SenderType::Member => 1,
            SenderType::External => 2,
            SenderType::NewMemberProposal => 3,
            SenderType::NewMemberCommit => 4,
        }
    }

    /// Its name in the presentation language.
    pub fn name(&self) -> &'static str
        ensures { result.now ≡ sender_type_name self.now }
    {
        match self {
            SenderType::Member => "member",
            SenderType::External => "external",
            SenderType::NewMemberProposal => "new_member_proposal",
            SenderType::NewMemberCommit => "new_member_commit",
        }
    }

    /// The value with this number, if there is one.
    pub fn of_code(code: u8) -> Option<SenderType>
        ensures { MatchOption result (sender_type_has code ≡ false)
            (λ v. sender_type_code v ≡ code) }
    {
        match code {
            1 => Some(SenderType::Member),
            2 => Some(SenderType::External),
            3 => Some(SenderType::NewMemberProposal),
            4 => Some(SenderType::NewMemberCommit),
            _ => None,
        }
    }
}

/// Its name.
impl fmt::Display for SenderType {
    ghost output = { λ v. Some (sender_type_name v) };

    ghost styled_output = { λ v spec. Some (padded spec (sender_type_name v)) };

    fn fmt<W: fmt::Write>(&self, f: &mut fmt::Formatter<W>) -> fmt::Result {
        f.pad(self.name())
    }
}

/// Its number.
impl From<SenderType> for u8 {
    ghost from_gives = { λ v number. number ≡ sender_type_code v };

    fn from(value: SenderType) -> u8 {
        value.code()
    }
}

/// The value with this number.
impl TryFrom<u8> for SenderType {
    type Error = Error;

    ghost try_from_gives = { λ tag r. MatchResult r
        (λ v. sender_type_code v ≡ tag)
        (λ e. (sender_type_has tag ≡ false) × (e ≡ UnknownValue tag)) };

    fn try_from(tag: u8) -> Result<SenderType, Error> {
        match SenderType::of_code(tag) {
            Some(value) => Ok(value),
            None => Err(unknown_value(u64::from(tag))),
        }
    }
}

impl Size for SenderType {
    ghost plain = { sender_type_plain };

    ghost format = { sender_type_format };

    fn tls_serialized_len(&self) -> usize {
        1
    }

    ghost lawful = { sender_type_meets };
}

impl Serialize for SenderType {
    fn tls_serialize<W: Sink>(&self, writer: &mut W) -> Result<usize, Error> {
        self.code().tls_serialize(writer)
    }

    fn tls_serialize_into(&self, out: &mut Vec<u8>) -> Result<usize, Error> {
        self.code().tls_serialize_into(out)
    }
}

impl Deserialize for SenderType {
    ghost names = { values_source_names 1 sender_type_has };

    fn tls_deserialize<R: Source>(alloc: Global, src: &mut R) -> Result<SenderType, Error> {
        let tag = u8::tls_deserialize(alloc, src)?;
        match SenderType::of_code(tag) {
            Some(value) => Ok(value),
            None => Err(unknown_value(u64::from(tag))),
        }
    }
}

impl DeserializeBytes for SenderType {
    ghost names = { values_names 1 sender_type_has };

    fn tls_deserialize_bytes(alloc: Global, whole: &[u8]) -> Result<(SenderType, &[u8]), Error> {
        let (tag, rest) = u8::tls_deserialize_bytes(alloc, whole)?;
        match SenderType::of_code(tag) {
            Some(value) => Ok((value, rest)),
            None => Err(unknown_value(u64::from(tag))),
        }
    }
}

impl Selector for SenderType {
    ghost selected = { sender_type_selected };

    fn selects(&self) -> u64 {
        let tag = self.code();
        u64::from(tag)
    }
}

impl Validate for SenderType {
    ghost places = { values_places 1 sender_type_has };

    fn tls_validate_prefix(whole: &[u8]) -> Result<&[u8], Rejected<'_>> {
        let (tag, rest) = split_u8(whole)?;
        match SenderType::of_code(tag) {
            Some(_value) => Ok(rest),
            None => Err(Rejected {
                error: unknown_value(u64::from(tag)),
                rest: whole,
            }),
        }
    }
}

impl Numbered for SenderType {
    type Tag = u8;

    ghost has = { sender_type_has };

    ghost as_values = { λ bytes is. is };
}

impl ReadInPlace for SenderType {
    fn read(encoded: &Encoded<'_, SenderType>) -> SenderType {
        match encoded.number() {
            1 => SenderType::Member,
            2 => SenderType::External,
            3 => SenderType::NewMemberProposal,
            4 => SenderType::NewMemberCommit,
            _ => unreachable!(),
        }
    }
}

impl Keyed for SenderType {
    type Key = u64;

    ghost is_key = { λ n c. n ≡ sender_type_selected c };

    fn key(&self) -> u64 {
        self.selects()
    }
}

impl TagKeyed for SenderType {
    fn tag_of_key(key: &u64) -> u64 {
        *key
    }
}

impl TagFirst for SenderType {
    type Tag = u8;

    ghost variants = { values sender_type_has };

    ghost first_tag = { sender_type_selected };

    ghost is_tagged = { λ d bytes v spelled. spelled };

    ghost is_first_tag = { λ d bytes tag parts spelled. refl };
}

impl ValidateKeyed for SenderType {
    fn tls_validate_keyed(whole: &[u8]) -> Result<(u64, &[u8]), Rejected<'_>> {
        validate_tag_first::<SenderType>(whole)
    }
}

/// Two values are equal if and only if their numbers are equal.
pub fn is_compared_by_its_number()
    ensures { (x y : SenderType) →
        ⟦<SenderType as PartialEq>⟧.eq x y
        ≡ nat_eq (sender_type_code x) (sender_type_code y) }
{}

/// Values are ordered by their numbers.
pub fn is_ordered_by_its_number()
    ensures { (x y : SenderType) →
        ⟦<SenderType as Ord>⟧.cmp x y
        ≡ nat_cmp (sender_type_code x) (sender_type_code y) }
{}
