//! The fields of `Certificate`.
ghost use Rattle.tls13.specs.Certificate.{certificate_format};
ghost use Rattle.tls_codec_outcome.specs.Fields.{Located};
ghost use Rattle.tls13_fields.specs.CertificateFields.{AreCertificateFields};

use tls_codec::TlsVecU24;
use tls_codec_outcome::{Content, Field, Locate, Span};
use tls13::CertificateEntry;

/// Where the fields of a `Certificate` are (RFC 8446, section 4.4.2). A span of `opaque` has the bytes
/// without their length.
#[repr(C)]
#[derive(Clone, Copy, PartialEq, Eq, Debug)]
pub struct CertificateFields {
    /// `opaque certificate_request_context<0..2^8-1>;`
    pub certificate_request_context: Span,
    /// `CertificateEntry certificate_list<0..2^24-1>;` with its length
    pub certificate_list: Span,
}

type Parts = (Content<u8>, Field<TlsVecU24<CertificateEntry>>);

impl CertificateFields {
    /// The fields of the message that the bytes begin with. If they begin with none, the spans mean
    /// nothing.
    pub fn locate(bytes: &[u8]) -> CertificateFields
        ensures { Located certificate_format AreCertificateFields bytes.now result }
    {
        let ((certificate_request_context, certificate_list), _) = <Parts>::locate(bytes, 0);
        CertificateFields {
            certificate_request_context,
            certificate_list,
        }
    }
}
