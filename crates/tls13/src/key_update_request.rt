//! [`KeyUpdateRequest`].
ghost use Rattle.std.specs.Prelude.{◌≡◌, MatchOption, MatchResult, Some, false, nat_eq};
ghost use Rattle.std.specs.Fmt.{padded};
ghost use Rattle.std.specs.Ordering.{nat_cmp};
ghost use Rattle.tls_codec.specs.Errors.{UnknownValue};
ghost use Rattle.tls_codec.specs.OwnMessages.{values_names, values_source_names};
ghost use Rattle.tls_codec_validate.specs.TaggedPlaces.{values_places};
ghost use Rattle.tls13.specs.KeyUpdateRequest.{key_update_request_code, key_update_request_format, key_update_request_has, key_update_request_meets, key_update_request_name, key_update_request_plain};
ghost use Rattle.tls13.specs.declared.key_update_request.KeyUpdateRequest.{KeyUpdateRequest};

use std::alloc::Global;
use std::fmt;
use tls_codec::{
    Deserialize, DeserializeBytes, Error, Serialize, Sink, Size, Source, unknown_value,
};
use tls_codec_validate::{Rejected, Validate, split_u8};
use tls_codec_views::{Encoded, Numbered, ReadInPlace};

/// `KeyUpdateRequest` (RFC 8446, appendix B.3.5).
#[derive(PartialEq, Eq, PartialOrd, Ord, Hash, Debug, Clone, Copy)]
pub enum KeyUpdateRequest {
    /// `update_not_requested(0)`
    UpdateNotRequested,
    /// `update_requested(1)`
    UpdateRequested,
}

impl KeyUpdateRequest {
    /// Its number.
    pub fn code(&self) -> u8
        ensures { result ≡ key_update_request_code self.now }
    {
        match self {
            KeyUpdateRequest::UpdateNotRequested => 0,
            KeyUpdateRequest::UpdateRequested => 1,
        }
    }

    /// Its name in the presentation language.
    pub fn name(&self) -> &'static str
        ensures { result.now ≡ key_update_request_name self.now }
    {
        match self {
            KeyUpdateRequest::UpdateNotRequested => "update_not_requested",
            KeyUpdateRequest::UpdateRequested => "update_requested",
        }
    }

    /// The value with this number, if there is one.
    pub fn of_code(code: u8) -> Option<KeyUpdateRequest>
        ensures { MatchOption result (key_update_request_has code ≡ false)
            (λ v. key_update_request_code v ≡ code) }
    {
        match code {
            0 => Some(KeyUpdateRequest::UpdateNotRequested),
            1 => Some(KeyUpdateRequest::UpdateRequested),
            _ => None,
        }
    }
}

/// Its name.
impl fmt::Display for KeyUpdateRequest {
    ghost output = { λ v. Some (key_update_request_name v) };

    ghost styled_output = { λ v spec. Some (padded spec (key_update_request_name v)) };

    fn fmt<W: fmt::Write>(&self, f: &mut fmt::Formatter<W>) -> fmt::Result {
        f.pad(self.name())
    }
}

/// Its number.
impl From<KeyUpdateRequest> for u8 {
    ghost from_gives = { λ v number. number ≡ key_update_request_code v };

    fn from(value: KeyUpdateRequest) -> u8 {
        value.code()
    }
}

/// The value with this number.
impl TryFrom<u8> for KeyUpdateRequest {
    type Error = Error;

    ghost try_from_gives = { λ tag r. MatchResult r
        (λ v. key_update_request_code v ≡ tag)
        (λ e. (key_update_request_has tag ≡ false) × (e ≡ UnknownValue tag)) };

    fn try_from(tag: u8) -> Result<KeyUpdateRequest, Error> {
        match KeyUpdateRequest::of_code(tag) {
            Some(value) => Ok(value),
            None => Err(unknown_value(u64::from(tag))),
        }
    }
}

impl Size for KeyUpdateRequest {
    ghost plain = { key_update_request_plain };

    ghost format = { key_update_request_format };

    fn tls_serialized_len(&self) -> usize {
        1
    }

    ghost lawful = { key_update_request_meets };
}

impl Serialize for KeyUpdateRequest {
    fn tls_serialize<W: Sink>(&self, writer: &mut W) -> Result<usize, Error> {
        self.code().tls_serialize(writer)
    }

    fn tls_serialize_into(&self, out: &mut Vec<u8>) -> Result<usize, Error> {
        self.code().tls_serialize_into(out)
    }
}

impl Deserialize for KeyUpdateRequest {
    ghost names = { values_source_names 1 key_update_request_has };

    fn tls_deserialize<R: Source>(alloc: Global, src: &mut R) -> Result<KeyUpdateRequest, Error> {
        let tag = u8::tls_deserialize(alloc, src)?;
        match KeyUpdateRequest::of_code(tag) {
            Some(value) => Ok(value),
            None => Err(unknown_value(u64::from(tag))),
        }
    }
}

impl DeserializeBytes for KeyUpdateRequest {
    ghost names = { values_names 1 key_update_request_has };

    fn tls_deserialize_bytes(
        alloc: Global,
        whole: &[u8],
    ) -> Result<(KeyUpdateRequest, &[u8]), Error> {
        let (tag, rest) = u8::tls_deserialize_bytes(alloc, whole)?;
        match KeyUpdateRequest::of_code(tag) {
            Some(value) => Ok((value, rest)),
            None => Err(unknown_value(u64::from(tag))),
        }
    }
}

impl Validate for KeyUpdateRequest {
    ghost places = { values_places 1 key_update_request_has };

    fn tls_validate_prefix(whole: &[u8]) -> Result<&[u8], Rejected<'_>> {
        let (tag, rest) = split_u8(whole)?;
        match KeyUpdateRequest::of_code(tag) {
            Some(_value) => Ok(rest),
            None => Err(Rejected {
                error: unknown_value(u64::from(tag)),
                rest: whole,
            }),
        }
    }
}

impl Numbered for KeyUpdateRequest {
    type Tag = u8;

    ghost has = { key_update_request_has };

    ghost as_values = { λ bytes is. is };
}

impl ReadInPlace for KeyUpdateRequest {
    fn read(encoded: &Encoded<'_, KeyUpdateRequest>) -> KeyUpdateRequest {
        match encoded.number() {
            0 => KeyUpdateRequest::UpdateNotRequested,
            1 => KeyUpdateRequest::UpdateRequested,
            _ => unreachable!(),
        }
    }
}

/// Two values are equal if and only if their numbers are equal.
pub fn is_compared_by_its_number()
    ensures { (x y : KeyUpdateRequest) →
        ⟦<KeyUpdateRequest as PartialEq>⟧.eq x y
        ≡ nat_eq (key_update_request_code x) (key_update_request_code y) }
{}

/// Values are ordered by their numbers.
pub fn is_ordered_by_its_number()
    ensures { (x y : KeyUpdateRequest) →
        ⟦<KeyUpdateRequest as Ord>⟧.cmp x y
        ≡ nat_cmp (key_update_request_code x) (key_update_request_code y) }
{}
