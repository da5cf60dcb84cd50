//! [`EmptyType`].
ghost use Rattle.std.specs.Prelude.{◌≡◌, true};
ghost use Rattle.tls13.specs.EmptyType.{empty_type_format, empty_type_meets, empty_type_plain};
ghost use Rattle.tls13.specs.declared.empty_type.EmptyType.{EmptyType};

use std::alloc::Global;
use tls_codec::{Deserialize, DeserializeBytes, Error, Serialize, Sink, Size, Source};
use tls_codec_cases::append_as;
use tls_codec_validate::{Rejected, Validate};

/// `Empty` (RFC 8446, appendix B.3.1).
#[derive(PartialEq, Eq, Debug, Clone, Drop)]
pub struct EmptyType {}

impl Size for EmptyType {
    ghost plain = { empty_type_plain };

    ghost format = { empty_type_format };

    fn tls_serialized_len(&self) -> usize {
        ().tls_serialized_len()
    }

    ghost lawful = { empty_type_meets };
}

impl Serialize for EmptyType {
    fn tls_serialize<W: Sink>(&self, writer: &mut W) -> Result<usize, Error> {
        ().tls_serialize(writer)
    }

    fn tls_serialize_into(&self, out: &mut Vec<u8>) -> Result<usize, Error> {
        append_as(self, &(), out)
    }
}

impl Deserialize for EmptyType {
    ghost names = { ⟦<() as Deserialize>⟧.names };

    fn tls_deserialize<R: Source>(alloc: Global, src: &mut R) -> Result<EmptyType, Error> {
        let () = <()>::tls_deserialize(alloc, src)?;
        Ok(EmptyType {})
    }
}

impl DeserializeBytes for EmptyType {
    ghost names = { ⟦<() as DeserializeBytes>⟧.names };

    fn tls_deserialize_bytes(alloc: Global, whole: &[u8]) -> Result<(EmptyType, &[u8]), Error> {
        let ((), rest) = <()>::tls_deserialize_bytes(alloc, whole)?;
        Ok((EmptyType {}, rest))
    }
}

impl Validate for EmptyType {
    ghost places = { ⟦<() as Validate>⟧.places };

    fn tls_validate_prefix(whole: &[u8]) -> Result<&[u8], Rejected<'_>> {
        <()>::tls_validate_prefix(whole)
    }

    fn tls_width() -> Option<usize> {
        <()>::tls_width()
    }
}

/// Two values are equal if and only if all their fields are equal.
pub fn is_compared_by_its_fields()
    ensures { (x y : EmptyType) →
        ⟦<EmptyType as PartialEq>⟧.eq x y
        ≡ true }
{}
