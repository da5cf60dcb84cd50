//! The fields of `CertificateRequest`.
ghost use Rattle.tls13.specs.CertificateRequest.{certificate_request_format};
ghost use Rattle.tls_codec_outcome.specs.Fields.{Located};
ghost use Rattle.tls13_fields.specs.CertificateRequestFields.{AreCertificateRequestFields};

use tls_codec::{TlsVec, Within};
use tls_codec_outcome::{Content, Field, Locate, Span};
use tls13::Extension;

/// Where the fields of a `CertificateRequest` are (RFC 8446, section 4.3.2). A span of `opaque` has the bytes
/// without their length.
#[repr(C)]
#[derive(Clone, Copy, PartialEq, Eq, Debug)]
pub struct CertificateRequestFields {
    /// `opaque certificate_request_context<0..2^8-1>;`
    pub certificate_request_context: Span,
    /// `Extension extensions<2..2^16-1>;` with its length
    pub extensions: Span,
}

type Parts = (Content<u8>, Field<TlsVec<Within<u16, 2, 65535>, Extension>>);

impl CertificateRequestFields {
    /// The fields of the message that the bytes begin with. If they begin with none, the spans mean
    /// nothing.
    pub fn locate(bytes: &[u8]) -> CertificateRequestFields
        ensures { Located certificate_request_format AreCertificateRequestFields bytes.now result }
    {
        let ((certificate_request_context, extensions), _) = <Parts>::locate(bytes, 0);
        CertificateRequestFields {
            certificate_request_context,
            extensions,
        }
    }
}
