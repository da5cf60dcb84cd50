//! [`Certificate`], whose entries are in the context of the certificate type.
ghost use Rattle.handshake_by_hand.specs.Certificates.{certificate_format_for, certificate_meets_for, certificate_plain};

use crate::certificate_entry::CertificateEntry;
use crate::certificate_type::CertificateType;
use std::alloc::Global;
use tls_codec::{
    Always, ByRef, ByRefIn, DeserializeBytesFor, DeserializeFor, Error, SerializeFor, Sink,
    SizeFor, Source, TlsByteVecU8, TlsVecU24,
};

/// `Certificate` (RFC 8446, section 4.4.2).
#[derive(PartialEq, Eq, Debug, Clone, Drop)]
pub struct Certificate {
    /// `opaque certificate_request_context<0..2^8-1>;`
    pub certificate_request_context: TlsByteVecU8,
    /// `CertificateEntry certificate_list<0..2^24-1>;`
    pub certificate_list: TlsVecU24<CertificateEntry>,
}

impl SizeFor<CertificateType> for Certificate {
    ghost plain = { certificate_plain };

    ghost format_for = { certificate_format_for };

    fn tls_serialized_len_for(&self, certificate_type: &CertificateType) -> usize {
        (
            ByRef(&self.certificate_request_context),
            ByRefIn(&self.certificate_list),
        )
            .tls_serialized_len_for(certificate_type)
    }

    ghost lawful = { certificate_meets_for };
}

/// `EncodingError("value does not fit its context")`: an entry is of the other type.
impl SerializeFor<CertificateType> for Certificate {
    fn tls_serialize_for<W: Sink>(
        &self,
        certificate_type: &CertificateType,
        writer: &mut W,
    ) -> Result<usize, Error> {
        (
            ByRef(&self.certificate_request_context),
            ByRefIn(&self.certificate_list),
        )
            .tls_serialize_for(certificate_type, writer)
    }

    fn tls_serialize_into_for(
        &self,
        certificate_type: &CertificateType,
        out: &mut Vec<u8>,
    ) -> Result<usize, Error> {
        (
            ByRef(&self.certificate_request_context),
            ByRefIn(&self.certificate_list),
        )
            .tls_serialize_into_for(certificate_type, out)
    }
}

type Parts = (Always<TlsByteVecU8>, TlsVecU24<CertificateEntry>);

impl DeserializeFor<CertificateType> for Certificate {
    ghost names = { ⟦<Parts as DeserializeFor<CertificateType>>⟧.names };

    fn tls_deserialize_for<R: Source>(
        certificate_type: &CertificateType,
        alloc: Global,
        src: &mut R,
    ) -> Result<Certificate, Error> {
        let (request_context, certificate_list) = <Parts>::tls_deserialize_for(
            certificate_type,
            alloc,
            src,
        )?;
        Ok(Certificate {
            certificate_request_context: request_context.0,
            certificate_list,
        })
    }
}

impl DeserializeBytesFor<CertificateType> for Certificate {
    ghost names = { ⟦<Parts as DeserializeBytesFor<CertificateType>>⟧.names };

    fn tls_deserialize_bytes_for<'a>(
        certificate_type: &CertificateType,
        alloc: Global,
        bytes: &'a [u8],
    ) -> Result<(Certificate, &'a [u8]), Error> {
        let ((request_context, certificate_list), rest) = <Parts>::tls_deserialize_bytes_for(
            certificate_type,
            alloc,
            bytes,
        )?;
        let certificate = Certificate {
            certificate_request_context: request_context.0,
            certificate_list,
        };
        Ok((certificate, rest))
    }
}
