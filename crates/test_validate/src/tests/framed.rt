// A struct that holds the tag of what comes after it.
ghost use Rattle.std.specs.Prelude.{◌≡◌};
ghost use Rattle.tls_codec.specs.OwnMessages.{u16_meets, u8_meets};
ghost use Rattle.tls_codec.specs.OwnMessages.{number_format, pair_format, pair_meets, pair_tree, Number};
ghost use Rattle.tls_codec_cases.specs.Held.{second_of};

use std::alloc::Global;
use tls_codec::{DeserializeBytes, Error, Size};
use tls_codec_cases::{Holds, Selector};
use tls_codec_validate::{HoldsKey, Keyed, Keyless, Rejected, Validate, ValidateKeyed};

#[derive(Drop)]
pub struct Framed {
    pub size: u16,
    pub kind: u8,
}

impl Size for Framed {
    ghost plain = { λ v. pair_tree (Number v.size) (Number v.kind) };

    ghost format = { pair_format (number_format 2) (number_format 1) };

    fn tls_serialized_len(&self) -> usize {
        3
    }

    ghost lawful = { pair_meets u16_meets u8_meets };
}

impl DeserializeBytes for Framed {
    ghost names = { ⟦<(u16, u8) as DeserializeBytes>⟧.names };

    fn tls_deserialize_bytes(alloc: Global, whole: &[u8]) -> Result<(Framed, &[u8]), Error> {
        let ((size, kind), rest) = <(u16, u8)>::tls_deserialize_bytes(alloc, whole)?;
        Ok((Framed { size, kind }, rest))
    }
}

impl Validate for Framed {
    ghost places = { ⟦<(u16, u8) as Validate>⟧.places };

    fn tls_validate_prefix(whole: &[u8]) -> Result<&[u8], Rejected<'_>> {
        <(u16, u8)>::tls_validate_prefix(whole)
    }
}

impl Holds<u8> for Framed {
    ghost held = { second_of };

    fn held(&self) -> u8 {
        self.kind
    }
}

impl Keyed for Framed {
    type Key = u64;

    ghost is_key = { λ n c. n ≡ ⟦<u8 as Selector>⟧.selected (second_of c) };

    fn key(&self) -> u64 {
        self.kind.key()
    }
}

impl HoldsKey<u8> for Framed {
    fn held_key(key: &u64) -> u64 {
        *key
    }
}

impl ValidateKeyed for Framed {
    fn tls_validate_keyed(whole: &[u8]) -> Result<(u64, &[u8]), Rejected<'_>> {
        let ((_, kind), rest) = <(Keyless<u16>, u8)>::tls_validate_keyed(whole)?;
        Ok((kind, rest))
    }
}
