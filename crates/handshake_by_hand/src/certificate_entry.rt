//! [`CertificateEntry`], a certificate or a key by the certificate type, and extensions.
ghost use Rattle.handshake_by_hand.specs.Certificates.{certificate_entry_format_for, certificate_entry_meets_for, certificate_entry_plain};

use crate::certificate_data::CertificateData;
use crate::certificate_type::CertificateType;
use crate::extension::Extension;
use std::alloc::Global;
use tls_codec::{
    Always, ByRef, ByRefIn, DeserializeBytesFor, DeserializeFor, Error, SerializeFor, Sink,
    SizeFor, Source, TlsVecU16,
};

/// `CertificateEntry` (RFC 8446, section 4.4.2).
#[derive(PartialEq, Eq, Debug, Clone, Drop)]
pub struct CertificateEntry {
    /// `select (certificate_type) { .. };`
    pub certificate: CertificateData,
    /// `Extension extensions<0..2^16-1>;`
    pub extensions: TlsVecU16<Extension>,
}

impl SizeFor<CertificateType> for CertificateEntry {
    ghost plain = { certificate_entry_plain };

    ghost format_for = { certificate_entry_format_for };

    fn tls_serialized_len_for(&self, certificate_type: &CertificateType) -> usize {
        (ByRefIn(&self.certificate), ByRef(&self.extensions)).tls_serialized_len_for(
            certificate_type,
        )
    }

    ghost lawful = { certificate_entry_meets_for };
}

impl SerializeFor<CertificateType> for CertificateEntry {
    fn tls_serialize_for<W: Sink>(
        &self,
        certificate_type: &CertificateType,
        writer: &mut W,
    ) -> Result<usize, Error> {
        (ByRefIn(&self.certificate), ByRef(&self.extensions)).tls_serialize_for(
            certificate_type,
            writer,
        )
    }

    fn tls_serialize_into_for(
        &self,
        certificate_type: &CertificateType,
        out: &mut Vec<u8>,
    ) -> Result<usize, Error> {
        (ByRefIn(&self.certificate), ByRef(&self.extensions)).tls_serialize_into_for(
            certificate_type,
            out,
        )
    }
}

type Parts = (CertificateData, Always<TlsVecU16<Extension>>);

impl DeserializeFor<CertificateType> for CertificateEntry {
    ghost names = { ⟦<Parts as DeserializeFor<CertificateType>>⟧.names };

    fn tls_deserialize_for<R: Source>(
        certificate_type: &CertificateType,
        alloc: Global,
        src: &mut R,
    ) -> Result<CertificateEntry, Error> {
        let (certificate, extensions) = <Parts>::tls_deserialize_for(certificate_type, alloc, src)?;
        Ok(CertificateEntry {
            certificate,
            extensions: extensions.0,
        })
    }
}

impl DeserializeBytesFor<CertificateType> for CertificateEntry {
    ghost names = { ⟦<Parts as DeserializeBytesFor<CertificateType>>⟧.names };

    fn tls_deserialize_bytes_for<'a>(
        certificate_type: &CertificateType,
        alloc: Global,
        bytes: &'a [u8],
    ) -> Result<(CertificateEntry, &'a [u8]), Error> {
        let ((certificate, extensions), rest) = <Parts>::tls_deserialize_bytes_for(
            certificate_type,
            alloc,
            bytes,
        )?;
        let entry = CertificateEntry {
            certificate,
            extensions: extensions.0,
        };
        Ok((entry, rest))
    }
}
