//! [`Log`], made of other messages.
ghost use Rattle.tls_codec_vectors.specs.Messages.{log_format, log_meets, log_plain};

use crate::{Leaf, Step};
use std::alloc::Global;
use tls_codec::{
    ByRef, Deserialize, DeserializeBytes, Error, Serialize, Sink, Size, Source, TlsByteVecU8,
    TlsVecU16,
};
use tls_codec_validate::{Rejected, Validate};

/// An identity of at most 255 bytes, leaves of at most 65,535 bytes together, and perhaps a last step,
/// in a row.
#[derive(PartialEq, Drop)]
pub struct Log {
    pub id: TlsByteVecU8,
    pub leaves: TlsVecU16<Leaf>,
    pub last: Option<Step>,
}

impl Size for Log {
    ghost plain = { log_plain };

    ghost format = { log_format };

    fn tls_serialized_len(&self) -> usize {
        (ByRef(&self.id), ByRef(&self.leaves), ByRef(&self.last)).tls_serialized_len()
    }

    ghost lawful = { log_meets };
}

impl Serialize for Log {
    /// `InvalidVectorLength`: the identity or the leaves have more bytes than their length counts.
    /// Every other error is that of a field.
    fn tls_serialize<W: Sink>(&self, writer: &mut W) -> Result<usize, Error> {
        (ByRef(&self.id), ByRef(&self.leaves), ByRef(&self.last)).tls_serialize(writer)
    }

    fn tls_serialize_into(&self, out: &mut Vec<u8>) -> Result<usize, Error> {
        (ByRef(&self.id), ByRef(&self.leaves), ByRef(&self.last)).tls_serialize_into(out)
    }
}

impl Deserialize for Log {
    ghost names = { ⟦<(TlsByteVecU8, TlsVecU16<Leaf>, Option<Step>) as Deserialize>⟧.names };

    /// Every error is that of a field.
    fn tls_deserialize<R: Source>(alloc: Global, src: &mut R) -> Result<Log, Error> {
        let (id, leaves, last) = <(TlsByteVecU8, TlsVecU16<Leaf>, Option<Step>)>::tls_deserialize(
            alloc, src,
        )?;
        Ok(Log { id, leaves, last })
    }
}

impl DeserializeBytes for Log {
    ghost names = { ⟦<(TlsByteVecU8, TlsVecU16<Leaf>, Option<Step>) as DeserializeBytes>⟧.names };

    /// Every error is that of a field.
    fn tls_deserialize_bytes(alloc: Global, whole: &[u8]) -> Result<(Log, &[u8]), Error> {
        let ((id, leaves, last), rest) = <(
            TlsByteVecU8,
            TlsVecU16<Leaf>,
            Option<Step>,
        )>::tls_deserialize_bytes(alloc, whole)?;
        Ok((Log { id, leaves, last }, rest))
    }
}

impl Validate for Log {
    ghost places = { ⟦<(TlsByteVecU8, TlsVecU16<Leaf>, Option<Step>) as Validate>⟧.places };

    fn tls_validate_prefix(whole: &[u8]) -> Result<&[u8], Rejected<'_>> {
        <(TlsByteVecU8, TlsVecU16<Leaf>, Option<Step>)>::tls_validate_prefix(whole)
    }
}
