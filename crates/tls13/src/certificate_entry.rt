//! [`CertificateEntry`].
ghost use Rattle.std.specs.Prelude.{◌≡◌, ◌&&◌, ◌++◌};
ghost use Rattle.tls13.specs.CertificateEntry.{certificate_entry_format, certificate_entry_meets, certificate_entry_plain};
ghost use Rattle.tls13.specs.declared.certificate_entry.CertificateEntry.{CertificateEntry};

use crate::Extension;
use std::alloc::Global;
use tls_codec::{
    ByRef, Deserialize, DeserializeBytes, Error, Serialize, Sink, Size, Source, TlsByteVec,
    TlsVecU16, U24, Within,
};
use tls_codec_cases::append_as;
use tls_codec_validate::{Rejected, Validate};
use tls_codec_views::{Encoded, Parted};

/// `CertificateEntry` (RFC 8446, appendix B.3.3).
#[derive(PartialEq, Eq, Debug, Clone, Drop)]
pub struct CertificateEntry {
    /// `opaque cert_data<1..2^24-1>;`
    pub cert_data: TlsByteVec<Within<U24, 1, 16777215>>,
    /// `Extension extensions<0..2^16-1>;`
    pub extensions: TlsVecU16<Extension>,
}

type Parts = (TlsByteVec<Within<U24, 1, 16777215>>, TlsVecU16<Extension>);

impl Size for CertificateEntry {
    ghost plain = { certificate_entry_plain };

    ghost format = { certificate_entry_format };

    fn tls_serialized_len(&self) -> usize {
        (ByRef(&self.cert_data), ByRef(&self.extensions)).tls_serialized_len()
    }

    ghost lawful = { certificate_entry_meets };
}

impl Serialize for CertificateEntry {
    fn tls_serialize<W: Sink>(&self, writer: &mut W) -> Result<usize, Error> {
        (ByRef(&self.cert_data), ByRef(&self.extensions)).tls_serialize(writer)
    }

    fn tls_serialize_into(&self, out: &mut Vec<u8>) -> Result<usize, Error> {
        append_as(
            self,
            &(ByRef(&self.cert_data), ByRef(&self.extensions)),
            out,
        )
    }
}

impl Deserialize for CertificateEntry {
    ghost names = { ⟦<Parts as Deserialize>⟧.names };

    fn tls_deserialize<R: Source>(alloc: Global, src: &mut R) -> Result<CertificateEntry, Error> {
        let (cert_data, extensions) = <Parts>::tls_deserialize(alloc, src)?;
        Ok(CertificateEntry {
            cert_data,
            extensions,
        })
    }
}

impl DeserializeBytes for CertificateEntry {
    ghost names = { ⟦<Parts as DeserializeBytes>⟧.names };

    fn tls_deserialize_bytes(
        alloc: Global,
        whole: &[u8],
    ) -> Result<(CertificateEntry, &[u8]), Error> {
        let ((cert_data, extensions), rest) = <Parts>::tls_deserialize_bytes(alloc, whole)?;
        Ok((
            CertificateEntry {
                cert_data,
                extensions,
            },
            rest,
        ))
    }
}

impl Validate for CertificateEntry {
    ghost places = { ⟦<Parts as Validate>⟧.places };

    fn tls_validate_prefix(whole: &[u8]) -> Result<&[u8], Rejected<'_>> {
        <Parts>::tls_validate_prefix(whole)
    }

    fn tls_width() -> Option<usize> {
        <Parts>::tls_width()
    }
}

impl Parted for CertificateEntry {
    type Parts = Parts;

    ghost as_parts = { λ bytes is. is };
}

/// The encoding of a [`CertificateEntry`], split into its fields.
#[derive(Drop)]
pub struct CertificateEntryView<'a> {
    /// `opaque cert_data<1..2^24-1>;`
    pub cert_data: Encoded<'a, TlsByteVec<Within<U24, 1, 16777215>>>,
    /// `Extension extensions<0..2^16-1>;`
    pub extensions: Encoded<'a, TlsVecU16<Extension>>,
}

impl<'a> From<Encoded<'a, CertificateEntry>> for CertificateEntryView<'a> {
    ghost from_gives = { λ whole view. whole ≡ (view.cert_data ++ view.extensions) };

    fn from(whole: Encoded<'a, CertificateEntry>) -> CertificateEntryView<'a> {
        let (cert_data, extensions) = whole.parts().split();
        CertificateEntryView {
            cert_data,
            extensions,
        }
    }
}

/// Two values are equal if and only if all their fields are equal.
pub fn is_compared_by_its_fields()
    ensures { (x y : CertificateEntry) →
        ⟦<CertificateEntry as PartialEq>⟧.eq x y
        ≡ (⟦<TlsByteVec<Within<U24, 1, 16777215>> as PartialEq>⟧.eq x.cert_data y.cert_data
        && ⟦<TlsVecU16<Extension> as PartialEq>⟧.eq x.extensions y.extensions) }
{}
