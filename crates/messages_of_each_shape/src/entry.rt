//! [`Entry`].
ghost use Rattle.std.specs.Prelude.{◌≡◌, ◌&&◌};
ghost use Rattle.messages_of_each_shape.specs.Entry.{entry_format_for, entry_meets_for, entry_plain};
ghost use Rattle.messages_of_each_shape.specs.declared.entry.Entry.{Entry};

use crate::{CertificateType, CertificateTypeData};
use std::alloc::Global;
use tls_codec::{
    Always, ByRef, ByRefIn, DeserializeBytesFor, DeserializeFor, Error, SerializeFor, Sink,
    SizeFor, Source, VLBytes,
};
use tls_codec_cases::{append_as_for, write_as_for};
use tls_codec_validate::{Rejected, ValidateFor};
use tls_codec_views::PartedFor;

/// `Entry`.
#[derive(PartialEq, Eq, Debug, Clone, Drop)]
pub struct Entry {
    /// `uint8 first;`
    pub first: u8,
    /// `select (certificate_type);`
    pub body: CertificateTypeData,
    /// `uint16 second;`
    pub second: u16,
    /// `opaque last<V>;`
    pub last: VLBytes,
}

type Parts = (
    (Always<u8>, CertificateTypeData),
    (Always<u16>, Always<VLBytes>),
);

impl SizeFor<CertificateType> for Entry {
    ghost plain = { entry_plain };

    ghost format_for = { entry_format_for };

    fn tls_serialized_len_for(&self, certificate_type: &CertificateType) -> usize {
        (
            (ByRef(&self.first), ByRefIn(&self.body)),
            (ByRef(&self.second), ByRef(&self.last)),
        )
            .tls_serialized_len_for(certificate_type)
    }

    ghost lawful = { entry_meets_for };
}

/// `EncodingError("value does not fit its context")`: a field's case is for another tag.
impl SerializeFor<CertificateType> for Entry {
    fn tls_serialize_for<W: Sink>(
        &self,
        certificate_type: &CertificateType,
        writer: &mut W,
    ) -> Result<usize, Error> {
        write_as_for(
            self,
            &(
                (ByRef(&self.first), ByRefIn(&self.body)),
                (ByRef(&self.second), ByRef(&self.last)),
            ),
            certificate_type,
            writer,
        )
    }

    fn tls_serialize_into_for(
        &self,
        certificate_type: &CertificateType,
        out: &mut Vec<u8>,
    ) -> Result<usize, Error> {
        append_as_for(
            self,
            &(
                (ByRef(&self.first), ByRefIn(&self.body)),
                (ByRef(&self.second), ByRef(&self.last)),
            ),
            certificate_type,
            out,
        )
    }
}

impl DeserializeFor<CertificateType> for Entry {
    ghost names = { ⟦<Parts as DeserializeFor<CertificateType>>⟧.names };

    fn tls_deserialize_for<R: Source>(
        certificate_type: &CertificateType,
        alloc: Global,
        src: &mut R,
    ) -> Result<Entry, Error> {
        let parts = <Parts>::tls_deserialize_for(certificate_type, alloc, src)?;
        let (parts_0, parts_1) = parts;
        let (Always(first), body) = parts_0;
        let (Always(second), Always(last)) = parts_1;
        Ok(Entry {
            first,
            body,
            second,
            last,
        })
    }
}

impl DeserializeBytesFor<CertificateType> for Entry {
    ghost names = { ⟦<Parts as DeserializeBytesFor<CertificateType>>⟧.names };

    fn tls_deserialize_bytes_for<'a>(
        certificate_type: &CertificateType,
        alloc: Global,
        whole: &'a [u8],
    ) -> Result<(Entry, &'a [u8]), Error> {
        let (parts, rest) = <Parts>::tls_deserialize_bytes_for(certificate_type, alloc, whole)?;
        let (parts_0, parts_1) = parts;
        let (Always(first), body) = parts_0;
        let (Always(second), Always(last)) = parts_1;
        Ok((
            Entry {
                first,
                body,
                second,
                last,
            },
            rest,
        ))
    }
}

impl ValidateFor<CertificateType> for Entry {
    ghost places = { ⟦<Parts as ValidateFor<CertificateType>>⟧.places };

    fn tls_validate_prefix_for<'a>(key: &u64, whole: &'a [u8]) -> Result<&'a [u8], Rejected<'a>> {
        <Parts as ValidateFor<CertificateType>>::tls_validate_prefix_for(key, whole)
    }
}

impl PartedFor<CertificateType> for Entry {
    type Parts = Parts;

    ghost as_parts = { λ c bytes is. is };
}

/// Two values are equal if and only if all their fields are equal.
pub fn is_compared_by_its_fields()
    ensures { (x y : Entry) →
        ⟦<Entry as PartialEq>⟧.eq x y
        ≡ (⟦<u8 as PartialEq>⟧.eq x.first y.first
        && (⟦<CertificateTypeData as PartialEq>⟧.eq x.body y.body
        && (⟦<u16 as PartialEq>⟧.eq x.second y.second
        && ⟦<VLBytes as PartialEq>⟧.eq x.last y.last))) }
{}
