//! [`ProposalType`].
ghost use Rattle.std.specs.Prelude.{◌≡◌, Some, nat_eq, option_map};
ghost use Rattle.std.specs.Ordering.{nat_cmp};
ghost use Rattle.tls_codec.specs.Registries.{listed_name, name_or_number};
ghost use Rattle.mls_tree.specs.ProposalType.{proposal_type_format, proposal_type_meets, proposal_type_names, proposal_type_plain};
ghost use Rattle.mls_tree.specs.declared.proposal_type.ProposalType.{ProposalType};

use std::alloc::Global;
use std::fmt;
use tls_codec::{Deserialize, DeserializeBytes, Error, Serialize, Sink, Size, Source};
use tls_codec_validate::{Rejected, Validate};
use tls_codec_views::{Encoded, Parted, ReadInPlace};

/// `ProposalType` (RFC 9420, section 17.4).
#[derive(PartialEq, Eq, PartialOrd, Ord, Hash, Debug, Clone, Copy)]
pub struct ProposalType(pub u16);

impl ProposalType {
    /// `add`
    pub const ADD: ProposalType = ProposalType(1);

    /// `update`
    pub const UPDATE: ProposalType = ProposalType(2);

    /// `remove`
    pub const REMOVE: ProposalType = ProposalType(3);

    /// `psk`
    pub const PSK: ProposalType = ProposalType(4);

    /// `reinit`
    pub const REINIT: ProposalType = ProposalType(5);

    /// `external_init`
    pub const EXTERNAL_INIT: ProposalType = ProposalType(6);

    /// `group_context_extensions`
    pub const GROUP_CONTEXT_EXTENSIONS: ProposalType = ProposalType(7);

    /// Its name in the presentation language, if it has one.
    pub fn name(&self) -> Option<&'static str>
        ensures { option_map (λ t. t.now) result ≡ listed_name proposal_type_names self.now.0 }
    {
        match self.0 {
            1 => Some("add"),
            2 => Some("update"),
            3 => Some("remove"),
            4 => Some("psk"),
            5 => Some("reinit"),
            6 => Some("external_init"),
            7 => Some("group_context_extensions"),
            _ => None,
        }
    }
}

/// Its name, or else its number in hexadecimal, two digits per byte. A width pads only names.
impl fmt::Display for ProposalType {
    ghost output = { λ v. Some (name_or_number proposal_type_names 4 v.0) };

    #[tactic(auto, using(tls_codec::specs::Registries::hexadecimal_digits))]
    fn fmt<W: fmt::Write>(&self, f: &mut fmt::Formatter<W>) -> fmt::Result {
        match self.name() {
            Some(name) => f.pad(name),
            None => write!(f, "0x{:04x}", self.0),
        }
    }
}

/// Its number.
impl From<ProposalType> for u16 {
    ghost from_gives = { λ v number. number ≡ v.0 };

    fn from(value: ProposalType) -> u16 {
        value.0
    }
}

/// The value with this number.
impl From<u16> for ProposalType {
    ghost from_gives = { λ number v. v.0 ≡ number };

    fn from(number: u16) -> ProposalType {
        ProposalType(number)
    }
}

impl Size for ProposalType {
    ghost plain = { proposal_type_plain };

    ghost format = { proposal_type_format };

    fn tls_serialized_len(&self) -> usize {
        2
    }

    fn tls_fixed_len() -> Option<usize> {
        Some(2)
    }

    ghost lawful = { proposal_type_meets };
}

impl Serialize for ProposalType {
    fn tls_serialize<W: Sink>(&self, writer: &mut W) -> Result<usize, Error> {
        self.0.tls_serialize(writer)
    }

    fn tls_serialize_into(&self, out: &mut Vec<u8>) -> Result<usize, Error> {
        self.0.tls_serialize_into(out)
    }
}

impl Deserialize for ProposalType {
    ghost names = { ⟦<u16 as Deserialize>⟧.names };

    fn tls_deserialize<R: Source>(alloc: Global, src: &mut R) -> Result<ProposalType, Error> {
        let number = u16::tls_deserialize(alloc, src)?;
        Ok(ProposalType(number))
    }
}

impl DeserializeBytes for ProposalType {
    ghost names = { ⟦<u16 as DeserializeBytes>⟧.names };

    fn tls_deserialize_bytes(alloc: Global, whole: &[u8]) -> Result<(ProposalType, &[u8]), Error> {
        let (number, rest) = u16::tls_deserialize_bytes(alloc, whole)?;
        Ok((ProposalType(number), rest))
    }
}

impl Validate for ProposalType {
    ghost places = { ⟦<u16 as Validate>⟧.places };

    fn tls_validate_prefix(whole: &[u8]) -> Result<&[u8], Rejected<'_>> {
        u16::tls_validate_prefix(whole)
    }

    fn tls_width() -> Option<usize> {
        u16::tls_width()
    }
}

impl Parted for ProposalType {
    type Parts = u16;

    ghost as_parts = { λ bytes is. is };
}

impl ReadInPlace for ProposalType {
    fn read(encoded: &Encoded<'_, ProposalType>) -> ProposalType {
        ProposalType(encoded.parts().get())
    }
}

/// Two values are equal if and only if their numbers are equal.
pub fn is_compared_by_its_number()
    ensures { (x y : ProposalType) →
        ⟦<ProposalType as PartialEq>⟧.eq x y ≡ nat_eq x.0 y.0 }
{}

/// Values are ordered by their numbers.
pub fn is_ordered_by_its_number()
    ensures { (x y : ProposalType) →
        ⟦<ProposalType as Ord>⟧.cmp x y ≡ nat_cmp x.0 y.0 }
{}
