//! [`EndOfEarlyData`].
ghost use Rattle.std.specs.Prelude.{◌≡◌, true};
ghost use Rattle.tls13.specs.EndOfEarlyData.{end_of_early_data_format, end_of_early_data_meets, end_of_early_data_plain};
ghost use Rattle.tls13.specs.declared.end_of_early_data.EndOfEarlyData.{EndOfEarlyData};

use std::alloc::Global;
use tls_codec::{Deserialize, DeserializeBytes, Error, Serialize, Sink, Size, Source};
use tls_codec_cases::append_as;
use tls_codec_validate::{Rejected, Validate};

/// `EndOfEarlyData` (RFC 8446, appendix B.3.5).
#[derive(PartialEq, Eq, Debug, Clone, Drop)]
pub struct EndOfEarlyData {}

impl Size for EndOfEarlyData {
    ghost plain = { end_of_early_data_plain };

    ghost format = { end_of_early_data_format };

    fn tls_serialized_len(&self) -> usize {
        ().tls_serialized_len()
    }

    ghost lawful = { end_of_early_data_meets };
}

impl Serialize for EndOfEarlyData {
    fn tls_serialize<W: Sink>(&self, writer: &mut W) -> Result<usize, Error> {
        ().tls_serialize(writer)
    }

    fn tls_serialize_into(&self, out: &mut Vec<u8>) -> Result<usize, Error> {
        append_as(self, &(), out)
    }
}

impl Deserialize for EndOfEarlyData {
    ghost names = { ⟦<() as Deserialize>⟧.names };

    fn tls_deserialize<R: Source>(alloc: Global, src: &mut R) -> Result<EndOfEarlyData, Error> {
        let () = <()>::tls_deserialize(alloc, src)?;
        Ok(EndOfEarlyData {})
    }
}

impl DeserializeBytes for EndOfEarlyData {
    ghost names = { ⟦<() as DeserializeBytes>⟧.names };

    fn tls_deserialize_bytes(
        alloc: Global,
        whole: &[u8],
    ) -> Result<(EndOfEarlyData, &[u8]), Error> {
        let ((), rest) = <()>::tls_deserialize_bytes(alloc, whole)?;
        Ok((EndOfEarlyData {}, rest))
    }
}

impl Validate for EndOfEarlyData {
    ghost places = { ⟦<() as Validate>⟧.places };

    fn tls_validate_prefix(whole: &[u8]) -> Result<&[u8], Rejected<'_>> {
        <()>::tls_validate_prefix(whole)
    }

    fn tls_width() -> Option<usize> {
        <()>::tls_width()
    }
}

/// Two values are equal if and only if all their fields are equal.
pub fn is_compared_by_its_fields()
    ensures { (x y : EndOfEarlyData) →
        ⟦<EndOfEarlyData as PartialEq>⟧.eq x y
        ≡ true }
{}
