//! The fields of `CertificateVerify`.
ghost use Rattle.tls13.specs.CertificateVerify.{certificate_verify_format};
ghost use Rattle.tls_codec_outcome.specs.Fields.{Located};
ghost use Rattle.tls13_fields.specs.CertificateVerifyFields.{AreCertificateVerifyFields};

use tls_codec_outcome::{Content, Field, Locate, Span};
use tls13::SignatureScheme;

/// Where the fields of a `CertificateVerify` are (RFC 8446, section 4.4.3). A span of `opaque` has the bytes
/// without their length.
#[repr(C)]
#[derive(Clone, Copy, PartialEq, Eq, Debug)]
pub struct CertificateVerifyFields {
    /// `SignatureScheme algorithm;`
    pub algorithm: Span,
    /// `opaque signature<0..2^16-1>;`
    pub signature: Span,
}

type Parts = (Field<SignatureScheme>, Content<u16>);

impl CertificateVerifyFields {
    /// The fields of the message that the bytes begin with. If they begin with none, the spans mean
    /// nothing.
    pub fn locate(bytes: &[u8]) -> CertificateVerifyFields
        ensures { Located certificate_verify_format AreCertificateVerifyFields bytes.now result }
    {
        let ((algorithm, signature), _) = <Parts>::locate(bytes, 0);
        CertificateVerifyFields {
            algorithm,
            signature,
        }
    }
}
