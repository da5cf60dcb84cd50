//! [`Entries`].
ghost use Rattle.std.specs.Prelude.{◌≡◌, ◌&&◌};
ghost use Rattle.messages_of_each_shape.specs.Entries.{entries_format_for, entries_meets_for, entries_plain};
ghost use Rattle.messages_of_each_shape.specs.declared.entries.Entries.{Entries};

use crate::{CertificateType, Entry};
use std::alloc::Global;
use tls_codec::{
    Always, ByRef, ByRefIn, DeserializeBytesFor, DeserializeFor, Error, SerializeFor, Sink,
    SizeFor, Source, TlsVecU24,
};
use tls_codec_validate::{Rejected, ValidateFor};
use tls_codec_views::PartedFor;

/// `Entries`.
///
/// A list in the context.
#[derive(PartialEq, Eq, Debug, Clone, Drop)]
pub struct Entries {
    /// `uint8 count;`
    pub count: u8,
    /// `Entry entries<0..2^24-1>;`
    pub entries: TlsVecU24<Entry>,
}

type Parts = (Always<u8>, TlsVecU24<Entry>);

impl SizeFor<CertificateType> for Entries {
    ghost plain = { entries_plain };

    ghost format_for = { entries_format_for };

    fn tls_serialized_len_for(&self, certificate_type: &CertificateType) -> usize {
        (ByRef(&self.count), ByRefIn(&self.entries)).tls_serialized_len_for(certificate_type)
    }

    ghost lawful = { entries_meets_for };
}

/// `EncodingError("value does not fit its context")`: a field's case is for another tag.
impl SerializeFor<CertificateType> for Entries {
    fn tls_serialize_for<W: Sink>(
        &self,
        certificate_type: &CertificateType,
        writer: &mut W,
    ) -> Result<usize, Error> {
        (ByRef(&self.count), ByRefIn(&self.entries)).tls_serialize_for(certificate_type, writer)
    }

    fn tls_serialize_into_for(
        &self,
        certificate_type: &CertificateType,
        out: &mut Vec<u8>,
    ) -> Result<usize, Error> {
        (ByRef(&self.count), ByRefIn(&self.entries)).tls_serialize_into_for(certificate_type, out)
    }
}

impl DeserializeFor<CertificateType> for Entries {
    ghost names = { ⟦<Parts as DeserializeFor<CertificateType>>⟧.names };

    fn tls_deserialize_for<R: Source>(
        certificate_type: &CertificateType,
        alloc: Global,
        src: &mut R,
    ) -> Result<Entries, Error> {
        let parts = <Parts>::tls_deserialize_for(certificate_type, alloc, src)?;
        let (Always(count), entries) = parts;
        Ok(Entries { count, entries })
    }
}

impl DeserializeBytesFor<CertificateType> for Entries {
    ghost names = { ⟦<Parts as DeserializeBytesFor<CertificateType>>⟧.names };

    fn tls_deserialize_bytes_for<'a>(
        certificate_type: &CertificateType,
        alloc: Global,
        whole: &'a [u8],
    ) -> Result<(Entries, &'a [u8]), Error> {
        let (parts, rest) = <Parts>::tls_deserialize_bytes_for(certificate_type, alloc, whole)?;
        let (Always(count), entries) = parts;
        Ok((Entries { count, entries }, rest))
    }
}

impl ValidateFor<CertificateType> for Entries {
    ghost places = { ⟦<Parts as ValidateFor<CertificateType>>⟧.places };

    fn tls_validate_prefix_for<'a>(key: &u64, whole: &'a [u8]) -> Result<&'a [u8], Rejected<'a>> {
        <Parts as ValidateFor<CertificateType>>::tls_validate_prefix_for(key, whole)
    }
}

impl PartedFor<CertificateType> for Entries {
    type Parts = Parts;

    ghost as_parts = { λ c bytes is. is };
}

/// Two values are equal if and only if all their fields are equal.
pub fn is_compared_by_its_fields()
    ensures { (x y : Entries) →
        ⟦<Entries as PartialEq>⟧.eq x y
        ≡ (⟦<u8 as PartialEq>⟧.eq x.count y.count
        && ⟦<TlsVecU24<Entry> as PartialEq>⟧.eq x.entries y.entries) }
{}
